//! Images, from files.
ghost use Rattle.std.specs.Prelude.{◌≡◌, IfErr, IfOk, IfSome, Ok, OnOk};
ghost use Rattle.of_files.specs.Faults.{refused_as};
ghost use Rattle.of_files.specs.Files.{image_in};
ghost use Rattle.of_files.specs.Programs.{FaultsProgram, FaultsProgramWith, HasProgram};

use crate::fault::Fault;
use crate::input::{read_image, read_whole};
use crate::messages::Messages;
use crate::output::report;
use of_arguments::Status;
use of_refusal::Refusal;
use of_rom::fcode_of;
use std::alloc::Global;
use std::io::{Read, Write};

/// The fault that a refusal of an image of so many bytes is.
pub fn refused(length: usize, refusal: Refusal) -> Fault
    ensures { result ≡ refused_as length refusal }
{
    match refusal {
        Refusal::ImageTooLong => Fault::TooLong(length),
        _ => Fault::Refused(refusal),
    }
}

/// The image of the file at a path, for a console, or the status of the fault that the file has.
///
/// The file is read as for `run`, and the fault is said on the error output.
pub fn rom<R: Read, E: Write>(
    alloc: Global,
    path: &str,
    file: &mut R,
    errors: &mut Messages<E>,
) -> Result<Vec<u8>, Status>
    ensures ok { IfOk result (λ image. IfSome (R.remaining file.old) (λ bytes. image_in bytes ≡ Ok image.items)) }
    ensures silent { OnOk result (errors.new ≡ errors.old) }
{
    match read_image(alloc, file) {
        Ok(image) => Ok(image),
        Err(fault) => Err(report(path, fault, errors)),
    }
}

/// The FCode program in the bytes of a ROM.
fn program_in(alloc: Global, rom: &[u8]) -> Result<Vec<u8>, Fault>
    ensures ok { IfOk result (λ program. HasProgram rom.now program.items) }
    ensures err { IfErr result (FaultsProgram rom.now) }
{
    match fcode_of(rom) {
        Ok(Some(program)) => match Vec::from_slice(alloc, program) {
            Ok(program) => Ok(program),
            Err(_) => Err(Fault::NoMemory),
        },
        Ok(None) => Err(Fault::NoProgram),
        Err(fault) => Err(Fault::NoRom(fault)),
    }
}

/// The FCode program in the ROM of a PCI card, which is the file at a path as it stands: that of the first image for
/// Open Firmware (PCI Bus Binding to IEEE 1275-1994, 9). Or the status of the fault that the file has, which is said on
/// the error output.
#[tactic(auto, using(crate::proofs::Programs::read, crate::proofs::Programs::unread, crate::proofs::Programs::refused))]
pub fn program<R: Read, E: Write>(
    alloc: Global,
    path: &str,
    file: &mut R,
    errors: &mut Messages<E>,
) -> Result<Vec<u8>, Status>
    ensures ok { IfOk result (λ program. IfSome (R.remaining file.old) (λ rom. HasProgram rom program.items)) }
    ensures silent { OnOk result (errors.new ≡ errors.old) }
    ensures err { IfErr result (λ s. IfSome (R.remaining file.old) (λ rom. FaultsProgramWith rom s)) }
{
    let rom = match read_whole(alloc, file) {
        Ok(rom) => rom,
        Err(fault) => return Err(report(path, fault, errors)),
    };
    match program_in(alloc, &rom) {
        Ok(program) => Ok(program),
        Err(fault) => Err(report(path, fault, errors)),
    }
}
