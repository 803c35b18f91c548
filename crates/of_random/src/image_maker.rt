//! Random FCode images: mostly balanced, now and then damaged.
mod codes;
mod control;
mod definitions;
mod phrases;
mod tokens;

use crate::numbers::Numbers;
use arrayvec::ArrayVec;
use control::Open;
use std::alloc::{AllocError, Global};
use tokens::Tokens;

/// How many structures are open at once.
const MOST_OPEN: usize = 5;

/// How many `endof`s wait for their `endcase`.
const MOST_ENDS: usize = 8;

/// The image so far, what is open and which `endof`s wait, how many own words are made, and whether a definition is
/// open.
#[derive(Drop)]
struct Maker {
    numbers: Numbers,
    tokens: Tokens,
    open: ArrayVec<Open, MOST_OPEN>,
    ends: ArrayVec<usize, MOST_ENDS>,
    made: usize,
    in_word: bool,
}

impl Maker {
    /// An image that has a header alone, and the numbers of which it is made.
    fn new(alloc: Global, mut numbers: Numbers) -> Result<Maker, AllocError> {
        let start = numbers.one_of(&[0xf1, 0xf1, 0xf1, 0xfd, 0xf2, 0xf3], 0xf1);
        Ok(Maker {
            numbers,
            tokens: Tokens::new(alloc, start)?,
            open: ArrayVec::new(),
            ends: ArrayVec::new(),
            made: 0,
            in_word: false,
        })
    }

    /// Makes definitions and tokens behind them, up to an end token, and now and then more behind it.
    fn fill(&mut self) -> Result<(), AllocError> {
        self.tokens
            .put_all(&[0x0a5, 0x0a7, 0x0a8, 0x0a6, 0x0a8, 0x0a7])?;
        for _ in 0..self.numbers.below(4) {
            self.define()?;
        }
        for _ in 0..self.numbers.below(5).saturating_add(1) {
            self.phrases(8)?;
            if self.numbers.one_in(2) {
                self.define()?;
            }
        }
        self.tokens.put(0x000)?;
        if self.numbers.one_in(4) {
            for _ in 0..self.numbers.below(24) {
                self.put_any()?;
            }
        }
        Ok(())
    }
}

/// Changes a byte of an image, or cuts it, now and then.
fn damage(image: &mut Vec<u8>, numbers: &mut Numbers) {
    let place = numbers.below(image.len());
    match numbers.below(12) {
        0 => image.truncate(place),
        1 | 2 => {
            let byte = numbers.byte();
            if let Some(old) = image.get_mut(place) {
                *old = byte;
            }
        }
        _ => {}
    }
}

/// A random image.
pub fn random_image(alloc: Global, numbers: &mut Numbers) -> Result<Vec<u8>, AllocError> {
    let seed = u64::from(numbers.word());
    let mut maker = Maker::new(alloc, Numbers::new(seed))?;
    maker.fill()?;
    let is_whole = !numbers.one_in(8);
    let mut image = maker.tokens.into_image(is_whole);
    damage(&mut image, numbers);
    Ok(image)
}
