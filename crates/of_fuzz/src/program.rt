//! Random programs: lines for the console, and the image of the same text.
use of_random::{Numbers, random_source};
use of_source::{SourceFault, parse};
use of_tok::{TokFault, tokenize};
use std::alloc::{AllocError, Global};

/// A program: its text as console lines, and the image of the same text, if it is a source.
#[derive(Drop)]
pub struct Program {
    /// The lines.
    pub lines: Vec<Vec<u8>>,
    /// The image.
    pub image: Option<Vec<u8>>,
}

/// The image of a text, if it is a source.
pub fn image_of(alloc: Global, text: &[u8]) -> Result<Option<Vec<u8>>, AllocError> {
    let source = match parse(alloc, text) {
        Ok(source) => source,
        Err(SourceFault::NoMemory) => return Err(AllocError),
        Err(_) => return Ok(None),
    };
    match tokenize(alloc, &source) {
        Ok(image) => Ok(Some(image)),
        Err(TokFault::NoMemory) => Err(AllocError),
        Err(_) => Ok(None),
    }
}

/// A random program.
pub fn random_program(alloc: Global, numbers: &mut Numbers) -> Result<Program, AllocError> {
    let source = random_source(alloc, numbers)?;
    let image = image_of(alloc, &source.text)?;
    Ok(Program {
        lines: source.lines,
        image,
    })
}
