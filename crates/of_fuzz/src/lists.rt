//! The listing of an image reads back as its bytes.
use crate::fault::{Fault, View, agree};
use of_detok::{DetokFault, Extras, listing, read_listing};
use std::alloc::Global;

/// Looks whether the listing of an image reads back, with or without extras.
fn compare_listing(alloc: Global, image: &[u8], extras: Extras) -> Result<bool, Fault> {
    let text = match listing(alloc, image, extras) {
        Ok(text) => text,
        Err(DetokFault::NoMemory) => return Err(Fault::NoMemory),
        Err(_) => return Ok(false),
    };
    match read_listing(alloc, &text) {
        Ok(bytes) => agree(View::Image, bytes.as_slice() == image)?,
        Err(DetokFault::NoMemory) => return Err(Fault::NoMemory),
        Err(_) => return Err(Fault::Differs(View::Answer)),
    }
    Ok(true)
}

/// Looks whether the listings of an image read back; answers whether it has some.
pub fn compare(alloc: Global, image: &[u8]) -> Result<bool, Fault> {
    let plain = compare_listing(alloc, image, Extras::default())?;
    let extras = Extras {
        names: true,
        indents: true,
    };
    let full = compare_listing(alloc, image, extras)?;
    agree(View::End, plain == full)?;
    Ok(plain)
}
