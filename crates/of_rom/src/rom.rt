ghost use Rattle.std.specs.Prelude.{◌≡◌, IfOk, MatchResult};
ghost use Rattle.std.specs.Option.{option_map};
ghost use Rattle.of_rom.specs.Roms.{fcode_of, images_of};

use crate::fault::RomFault;
use crate::image::{RomImage, image_at};
use std::alloc::{AllocError, Global};

/// The images of an expansion ROM in their order, up to the one that says that it is the last, or up to the first that
/// can't be read, and what is wrong with that one (PCI Local Bus Specification 3.0, 6.3).
///
/// The first image begins at 0, and each other one where the one before it ends. Bytes behind the last are not looked
/// at. An error is for memory alone.
pub fn rom_images(
    alloc: Global,
    rom: &[u8],
) -> Result<(Vec<RomImage>, Option<RomFault>), AllocError>
    ensures { IfOk result (λ r. (r.0.items, r.1) ≡ images_of rom.now) }
{
    let mut images = Vec::new(alloc);
    let mut at = 0;
    for _ in 0..rom.len() {
        let image = match image_at(rom, at) {
            Ok(image) => image,
            Err(fault) => return Ok((images, Some(fault))),
        };
        images.push(image)?;
        if image.is_last {
            return Ok((images, None));
        }
        at = image.end();
    }
    Ok((images, Some(RomFault::NoSignature(at))))
}

/// The FCode program of the first image of Open Firmware's code type, from where the image says that it begins to the
/// image's end (PCI Bus Binding to IEEE 1275-1994, 9); none where no image up to the last has that type.
///
/// What is wrong with the first image that can't be read, where none before it has that type; images behind the one
/// with the program are not looked at. This takes no memory.
pub fn fcode_of(rom: &[u8]) -> Result<Option<&[u8]>, RomFault>
    ensures { MatchResult result (λ p. fcode_of rom.now ≡ Ok (option_map (λ bytes. bytes.now) p))
        (λ f. fcode_of rom.now ≡ Err f) }
{
    let mut at = 0;
    for _ in 0..rom.len() {
        let image = match image_at(rom, at) {
            Ok(image) => image,
            Err(fault) => return Err(fault),
        };
        if let Some(fcode) = image.fcode {
            return Ok(Some(&rom[fcode..image.end()]));
        }
        if image.is_last {
            return Ok(None);
        }
        at = image.end();
    }
    Err(RomFault::NoSignature(at))
}
