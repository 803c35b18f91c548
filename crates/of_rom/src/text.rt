// Lines that show images. Each function that writes puts its text behind what stands there.

ghost use Rattle.std.specs.Prelude.{◌≡◌, ◌++◌, ◌≤◌, IfOk, OnOk};
ghost use Rattle.of_rom.specs.Texts.{code_shown, fcode_shown, line_text, number_shown, rom_text, titled};

use crate::code::CodeType;
use crate::fault::RomFault;
use crate::image::RomImage;
use crate::rom::rom_images;
use hex::encode;
use std::alloc::{AllocError, Global};

/// Writes the low bytes of a number, so many, in hexadecimal digits, two a byte.
#[tactic(auto, unfolding(crate::specs::Texts::number_shown))]
fn write_number(
    alloc: Global,
    out: &mut Vec<u8>,
    count: usize,
    number: usize,
) -> Result<(), AllocError>
    requires { count ≤ 8 }
    ensures { OnOk result (out.new.items ≡ out.old.items ++ number_shown count number) }
{
    let digits = encode(alloc, &number.to_be_bytes()[8 - count..])?;
    out.extend_from_slice(digits.as_bytes())?;
    Ok(())
}

/// Writes a number behind a title.
#[tactic(auto, unfolding(crate::specs::Texts::titled), using(std::proofs::lemmas::List::append_assoc))]
fn write_titled(
    alloc: Global,
    out: &mut Vec<u8>,
    title: &[u8],
    count: usize,
    number: usize,
) -> Result<(), AllocError>
    requires { count ≤ 8 }
    ensures { OnOk result (out.new.items ≡ out.old.items ++ titled title.now count number) }
{
    out.extend_from_slice(title)?;
    write_number(alloc, out, count, number)
}

/// Writes what an image holds.
fn write_code(alloc: Global, out: &mut Vec<u8>, code: CodeType) -> Result<(), AllocError>
    ensures { OnOk result (out.new.items ≡ out.old.items ++ code_shown code) }
{
    match code {
        CodeType::X86 => out.extend_from_slice(b"x86"),
        CodeType::OpenFirmware => out.extend_from_slice(b"Open Firmware"),
        CodeType::PaRisc => out.extend_from_slice(b"PA-RISC"),
        CodeType::Efi => out.extend_from_slice(b"EFI"),
        CodeType::Other(number) => {
            write_titled(alloc, out, b"code type ", 1, usize::from(number))
        }
    }
}

/// Writes where the FCode program begins, if there is one.
fn write_fcode(alloc: Global, out: &mut Vec<u8>, fcode: Option<usize>) -> Result<(), AllocError>
    ensures { OnOk result (out.new.items ≡ out.old.items ++ fcode_shown fcode) }
{
    match fcode {
        Some(fcode) => write_titled(alloc, out, b", FCode at ", 3, fcode),
        None => Ok(()),
    }
}

/// Writes the line of an image.
#[tactic(auto, unfolding(crate::specs::Texts::line_text), using(std::proofs::lemmas::List::append_assoc))]
fn write_line(alloc: Global, out: &mut Vec<u8>, image: &RomImage) -> Result<(), AllocError>
    ensures { OnOk result (out.new.items ≡ out.old.items ++ line_text image.now) }
{
    write_number(alloc, out, 3, image.offset)?;
    write_titled(alloc, out, b": ", 4, image.length)?;
    write_titled(alloc, out, b" bytes, vendor ", 2, usize::from(image.vendor))?;
    write_titled(alloc, out, b", device ", 2, usize::from(image.device))?;
    write_titled(alloc, out, b", class ", 3, image.class as usize)?;
    out.extend_from_slice(b", ")?;
    write_code(alloc, out, image.code)?;
    write_fcode(alloc, out, image.fcode)?;
    out.push(b'\n')?;
    Ok(())
}

/// A line for each image of an expansion ROM, as `rom_images` gives them, and what is wrong behind these, if anything.
///
/// A line has the offset in six digits (modulo 2^24), the length in eight, vendor and device in four, the class in
/// six, what the image holds, and where its FCode program begins, if it has one, in six digits (modulo 2^24). All
/// numbers are hexadecimal; a code type without a name is shown by its number, as `code type 05`. So a line is
/// `000400: 00000200 bytes, vendor 1234, device 5678, class 020000, Open Firmware, FCode at 000434`.
///
/// An error is for memory alone.
pub fn rom_text(alloc: Global, rom: &[u8]) -> Result<(Vec<u8>, Option<RomFault>), AllocError>
    ensures { IfOk result (λ r. (r.0.items, r.1) ≡ rom_text rom.now) }
{
    let (images, fault) = rom_images(alloc, rom)?;
    let mut out = Vec::new(alloc);
    for image in &images {
        write_line(alloc, &mut out, image)?;
    }
    Ok((out, fault))
}
