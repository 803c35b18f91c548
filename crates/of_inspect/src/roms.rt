//! `pci`: the images in the ROM of a PCI card.
ghost use Rattle.std.specs.Prelude.{◌≡◌, IfSome, true};
ghost use Rattle.of_files.specs.Faults.{EndsWith, is_done};
ghost use Rattle.of_files.specs.Saying.{Said};
ghost use Rattle.of_inspect.specs.Looks.{ShowsImages, ShowsRom};

use of_arguments::Status;
use of_files::{Fault, Messages, read_whole, report, write_whole};
use of_rom::rom_text;
use std::alloc::Global;
use std::io::{Read, Write};

/// Prints a line for each image in the bytes of a ROM, and answers what is wrong behind them, if anything.
#[tactic(auto, using(crate::proofs::Shown::shown, crate::proofs::Shown::shown_before, crate::proofs::Shown::not_shown))]
fn print_images<W: Write>(alloc: Global, rom: &[u8], out: &mut W) -> Result<Status, Fault>
    ensures { ShowsImages rom.now (W.contents out.old) (W.contents out.new) result }
{
    let Ok((text, wrong)) = rom_text(alloc, rom) else {
        return Err(Fault::NoMemory);
    };
    match write_whole(out, &text) {
        Ok(()) => match wrong {
            None => Ok(Status::Done),
            Some(fault) => Err(Fault::NoRom(fault)),
        },
        Err(fault) => Err(fault),
    }
}

/// The same of a file.
#[tactic(auto, using(crate::proofs::Shown::file_shown, crate::proofs::Shown::file_unread))]
fn show_file<R: Read, W: Write>(alloc: Global, file: &mut R, out: &mut W) -> Result<Status, Fault>
    ensures { IfSome (R.remaining file.old) (λ bytes.
        ShowsRom bytes (W.contents out.old) (W.contents out.new) result) }
{
    match read_whole(alloc, file) {
        Ok(rom) => print_images(alloc, &rom, out),
        Err(fault) => Err(fault),
    }
}

/// Prints a line for each image in the ROM of a PCI card, which is the file as it stands, up to the last (PCI Local Bus
/// Specification 3.0, 6.3), and gives the status.
///
/// What is wrong with the file, or with the image behind those of the lines, is said on the error output, behind the
/// path.
#[tactic(auto, using(crate::proofs::Looked::ended, crate::proofs::Looked::not_ended))]
pub fn pci<R: Read, W: Write, E: Write>(
    alloc: Global,
    path: &str,
    file: &mut R,
    out: &mut W,
    errors: &mut Messages<E>,
) -> Status
    ensures answered { IfSome (R.remaining file.old) (λ bytes. EndsWith
        (ShowsRom bytes (W.contents out.old) (W.contents out.new)) (Said E.contents errors.old errors.new) result) }
    ensures silent { is_done result ≡ true → errors.new ≡ errors.old }
{
    match show_file(alloc, file, out) {
        Ok(status) => status,
        Err(fault) => report(path, fault, errors),
    }
}
