//! ROMs that were laid out by hand from the tables of the PCI Local Bus Specification 3.0, 6.3.1, each with its lines,
//! what is wrong behind these, and its FCode program.
use of_rom::{
    fcode_of, images_adjoin, images_are_read, pieces_are_read, programs_are_first, rom_images,
    rom_text,
};
use std::alloc::Global;
use std::process::Abort;
use std::test::Fail;

/// An empty line stands between two cases. The first line of a case is a ROM: bytes in digits, and behind `+` the
/// place up to which zeros follow. The others are what is said of it; the last one is the program's, with its length
/// and its first four bytes. The first case is a ROM of two images.
const ROMS: &str = "\
55aa01 +18 1c00 +1c 50434952 3412 7856 0000 1800 00 000002 0100 0000 00 00 0000 +200 \
55aa3400 +218 1c00 +21c 50434952 3412 7856 0000 1800 00 000002 0200 0000 01 80 0000 f1080000 0000000a b7c2 +600
000000: 00000200 bytes, vendor 1234, device 5678, class 020000, x86
000200: 00000400 bytes, vendor 1234, device 5678, class 020000, Open Firmware, FCode at 000234
program 03cc f1080000

55aaff01 +18 2000 +20 50434952 ad8b 0f0e 0000 1800 00 010203 0100 0000 01 ff 0000 +1ff fd +200 55aa
000000: 00000200 bytes, vendor 8bad, device 0e0f, class 030201, Open Firmware, FCode at 0001ff
program 0001 fd

55aa +18 1001 +110 50434952 8680 d310 0000 1c00 03 30030c 0001 0000 03 80 0000 +20000
000000: 00020000 bytes, vendor 8086, device 10d3, class 0c0330, EFI
no program

55aa +18 1c00 +1c 50434952 0100 0200 0000 1800 00 000000 0100 0000 02 7f 0000 +200 \
55aa +218 e801 +3e8 50434952 0100 0200 0000 1800 00 000000 0100 0000 05 80 0000 +400
000000: 00000200 bytes, vendor 0001, device 0002, class 000000, PA-RISC
000200: 00000200 bytes, vendor 0001, device 0002, class 000000, code type 05
no program

+0
image at 000000: no signature
program: image at 000000: no signature

55 +1
image at 000000: no signature
program: image at 000000: no signature

55ab +18 1c00 +1c 50434952 3412 7856 0000 1800 00 000002 0100 0000 00 80 0000 +200
image at 000000: no signature
program: image at 000000: no signature

55aa +18 1c00 +1c 50434952 3412 7856 0000 1800 00 000002 0100 0000 00 00 0000 +200
000000: 00000200 bytes, vendor 1234, device 5678, class 020000, x86
image at 000200: no signature
program: image at 000200: no signature

55aa +19
image at 000000: no data structure
program: image at 000000: no data structure

55aa +18 f0ff +200
image at 000000: no data structure
program: image at 000000: no data structure

55aa +18 1c00 +1c 50434953 3412 7856 0000 1800 00 000002 0100 0000 00 80 0000 +200
image at 000000: no data structure
program: image at 000000: no data structure

55aa +18 1c00 +1c 50434952 3412 7856 0000 1800 00 000002 0100 0000 00 80 00
image at 000000: no data structure
program: image at 000000: no data structure

55aa +18 e901 +1e9 50434952 3412 7856 0000 1800 00 000002 0100 0000 00 80 0000 +400
image at 000000: no data structure
program: image at 000000: no data structure

55aa +18 1c00 +1c 50434952 3412 7856 0000 1800 00 000002 0000 0000 00 80 0000 +200
image at 000000: length 0
program: image at 000000: length 0

55aa3400 +18 1c00 +1c 50434952 3412 7856 0000 1800 00 000002 0200 0000 01 80 0000 f1 +3ff
image at 000000: cut off by the end of the ROM
program: image at 000000: cut off by the end of the ROM

55aa 50434952 3412 7856 0000 1800 00 000002 0100 0000 00 80 0200
image at 000000: cut off by the end of the ROM
program: image at 000000: cut off by the end of the ROM

55aa0002 +18 1c00 +1c 50434952 3412 7856 0000 1800 00 000002 0100 0000 01 80 0000 +200
image at 000000: FCode program outside of the image
program: image at 000000: FCode program outside of the image

55aa3400 +18 1c00 +1c 50434952 3412 7856 0000 1800 00 000002 0100 0000 01 00 0000 f1080123 +200 55aa +21a
000000: 00000200 bytes, vendor 1234, device 5678, class 020000, Open Firmware, FCode at 000034
image at 000200: no data structure
program 01cc f1080123";

/// The bytes of a ROM.
fn rom_of(alloc: Global, words: &str) -> Option<Vec<u8>> {
    let mut rom = Vec::new(alloc);
    for word in words.split_whitespace() {
        match word.strip_prefix('+') {
            Some(place) => rom.resize(usize::from_str_radix(place, 16).ok()?, 0).ok()?,
            None => rom.extend_from_slice(&hex::decode(alloc, word).ok()?).ok()?,
        }
    }
    Some(rom)
}

/// What is said of a ROM.
fn said_of(alloc: Global, rom: &[u8]) -> Option<String> {
    let (text, fault) = rom_text(alloc, rom).ok()?;
    let mut said = String::from_utf8(text).ok()?;
    if let Some(fault) = fault {
        said.push_str(&format!(in alloc; "{fault}\n").ok()?).ok()?;
    }
    let program = match fcode_of(rom) {
        Ok(None) => format!(in alloc; "no program").ok()?,
        Ok(Some(bytes)) => {
            let first = hex::encode(alloc, &bytes[..bytes.len().min(4)]).ok()?;
            format!(in alloc; "program {:04x} {first}", bytes.len()).ok()?
        }
        Err(fault) => format!(in alloc; "program: {fault}").ok()?,
    };
    said.push_str(&program).ok()?;
    Some(said)
}

/// Whether a case holds.
fn holds(alloc: Global, case: &str) -> Option<bool> {
    let (words, lines) = case.split_once('\n')?;
    let rom = rom_of(alloc, words)?;
    Some(said_of(alloc, &rom)?.as_str() == lines)
}

/// How many images the ROM of the first case has.
fn count_of_first(alloc: Global) -> Option<usize> {
    let (words, _) = ROMS.split_once('\n')?;
    let (images, _) = rom_images(alloc, &rom_of(alloc, words)?).ok()?;
    Some(images.len())
}

#[test]
fn images(rt: HostRuntime) {
    assert!(rt; count_of_first(rt.alloc()) == Some(2));
    images_are_read();
    images_adjoin();
    pieces_are_read();
    programs_are_first();
}

#[test]
fn roms(rt: HostRuntime) {
    for case in ROMS.split("\n\n") {
        assert!(rt; holds(rt.alloc(), case) == Some(true), "{case}");
    }
}
