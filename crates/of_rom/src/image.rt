ghost use Rattle.std.specs.Prelude.{◌≡◌, ◌+◌, ◌<◌, ◌≤◌, ◌^◌, length, true, IfOk};
ghost use Rattle.of_rom.specs.Images.{begins_before, end_of, fault_in, fcode_at, has_structure, header_length};
ghost use Rattle.of_rom.specs.Images.{image_at, image_by, is_signed, is_structure, structure_at, structure_length};

use crate::bytes::{class_at, half_at};
use crate::code::CodeType;
use crate::fault::RomFault;

/// How many bytes a length of 1 stands for.
const UNIT: usize = 512;

/// How many bytes of a header are read: up to the pointer to the data structure.
const HEADER_LENGTH: usize = 0x1a;

/// How many bytes a data structure has at least.
const STRUCTURE_LENGTH: usize = 0x18;

/// An image of an expansion ROM, as header and data structure say (PCI Local Bus Specification 3.0, 6.3.1).
#[derive(Clone, Copy)]
pub struct RomImage {
    /// Where it begins, in bytes from the ROM's start.
    pub offset: usize,
    /// How many bytes it has: a multiple of 512, and not 0.
    pub length: usize,
    /// What it holds.
    pub code: CodeType,
    /// Who made the device.
    pub vendor: u16,
    /// Which of the vendor's devices it is.
    pub device: u16,
    /// The class of the device, in 24 bits: the class, the subclass and the programming interface.
    pub class: u32,
    /// Where the FCode program of an image of Open Firmware's code type begins, in bytes from the ROM's start (PCI Bus
    /// Binding to IEEE 1275-1994, 9); it reaches to the image's end.
    pub fcode: Option<usize>,
    /// Whether the image says that it is the last one.
    pub is_last: bool,
}

impl RomImage {
    /// Where it ends.
    pub(crate) fn end(&self) -> usize
        requires { end_of self.now < 2 ^ 64 }
        ensures { result ≡ end_of self.now }
    {
        self.offset + self.length
    }
}

/// Whether an image begins at a place.
fn is_signed(rom: &[u8], at: usize) -> bool
    requires { at ≤ length rom.now }
    ensures { result ≡ is_signed rom.now at }
{
    rom[at..].starts_with(&[0x55, 0xaa])
}

/// Whether a data structure stands at a place.
fn is_structure(rom: &[u8], at: usize) -> bool
    requires { at < 2 ^ 63 + 2 ^ 16 }
    ensures { result ≡ is_structure rom.now at }
{
    at + STRUCTURE_LENGTH <= rom.len() && rom[at..].starts_with(b"PCIR")
}

/// Where the data structure of an image is.
fn structure_at(rom: &[u8], at: usize) -> usize
    requires { at + header_length ≤ length rom.now }
    ensures value { result ≡ structure_at rom.now at }
    ensures small { result < 2 ^ 63 + 2 ^ 16 }
{
    at + usize::from(half_at(rom, at + 0x18))
}

/// Whether an image has a data structure.
fn has_structure(rom: &[u8], at: usize) -> bool
    requires { at ≤ length rom.now }
    ensures { result ≡ has_structure rom.now at }
{
    at + HEADER_LENGTH <= rom.len() && is_structure(rom, structure_at(rom, at))
}

/// Where the FCode program of an image of a code type begins, if it has one.
fn fcode_at(rom: &[u8], at: usize, code: CodeType) -> Option<usize>
    requires { at + header_length ≤ length rom.now }
    ensures { result ≡ fcode_at rom.now at code }
{
    match code {
        CodeType::OpenFirmware => Some(at + usize::from(half_at(rom, at + 2))),
        CodeType::X86 => None,
        CodeType::PaRisc => None,
        CodeType::Efi => None,
        CodeType::Other(_) => None,
    }
}

/// An image as its data structure, at another place, says (PCI Local Bus Specification 3.0, 6.3.1.2).
fn image_by(rom: &[u8], at: usize, structure: usize) -> RomImage
    requires header { at + header_length ≤ length rom.now }
    requires whole { structure + structure_length ≤ length rom.now }
    ensures { result ≡ image_by rom.now at structure }
{
    let code = CodeType::of(rom[structure + 0x14]);
    RomImage {
        offset: at,
        length: UNIT * usize::from(half_at(rom, structure + 0x10)),
        code,
        vendor: half_at(rom, structure + 0x04),
        device: half_at(rom, structure + 0x06),
        class: class_at(rom, structure + 0x0d),
        fcode: fcode_at(rom, at, code),
        is_last: rom[structure + 0x15] >= 0x80,
    }
}

/// Whether an FCode program, if there is one, begins before the end of its image.
fn begins_before(end: usize, fcode: Option<usize>) -> bool
    ensures { result ≡ begins_before end fcode }
{
    match fcode {
        Some(fcode) => fcode < end,
        None => true,
    }
}

/// What is wrong with an image that has a data structure.
fn fault_in(rom: &[u8], image: &RomImage) -> Option<RomFault>
    requires header { image.now.offset + header_length ≤ length rom.now }
    requires small { image.now.length < 2 ^ 32 }
    ensures { result ≡ fault_in rom.now image.now }
{
    let end = image.end();
    if image.length == 0 {
        return Some(RomFault::NoLength(image.offset));
    }
    if rom.len() < end {
        return Some(RomFault::CutOff(image.offset));
    }
    if end < structure_at(rom, image.offset) + STRUCTURE_LENGTH {
        return Some(RomFault::NoStructure(image.offset));
    }
    if begins_before(end, image.fcode) {
        return None;
    }
    Some(RomFault::FCodeOutside(image.offset))
}

/// The image at a place, or what is wrong with it.
#[tactic(auto, unfolding(crate::specs::Images::image_at))]
pub fn image_at(rom: &[u8], at: usize) -> Result<RomImage, RomFault>
    requires { at ≤ length rom.now }
    ensures image { result ≡ image_at rom.now at }
    ensures within { IfOk result (λ i. end_of i ≤ length rom.now) }
    ensures program { IfOk result (λ i. begins_before (end_of i) i.fcode ≡ true) }
{
    if !is_signed(rom, at) {
        return Err(RomFault::NoSignature(at));
    }
    if !has_structure(rom, at) {
        return Err(RomFault::NoStructure(at));
    }
    let image = image_by(rom, at, structure_at(rom, at));
    match fault_in(rom, &image) {
        None => Ok(image),
        Some(fault) => Err(fault),
    }
}
