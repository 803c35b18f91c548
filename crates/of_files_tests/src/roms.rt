use of_files::{Messages, program};
use of_inspect::{check, pci};
use std::alloc::Global;
use std::process::Abort;
use std::test::Fail;

/// The first bytes of a ROM of two images of 512 bytes each, of which the second has an FCode program, in hexadecimal
/// digits: those of the first image, and those of the second (PCI Local Bus Specification 3.0, 6.3.1).
const IMAGES: [&str; 2] = [
    "55aa0100 00000000 00000000 00000000 00000000 00000000 1c000000 \
50434952 34121111 00001800 00000002 01000000 00000000 cb",
    "55aa3400 00000000 00000000 00000000 00000000 00000000 1c000000 \
50434952 34121111 00001800 00000002 01000000 01800000 f108020a0000000da7a81e9d00",
];

/// What `pci` prints of it.
const LINES: &str = "\
000000: 00000200 bytes, vendor 1234, device 1111, class 020000, x86
000200: 00000200 bytes, vendor 1234, device 1111, class 020000, Open Firmware, FCode at 000234
";

/// Puts the bytes of hexadecimal digits behind others, and zeros up to a multiple of 512 bytes.
fn push_image(alloc: Global, rom: &mut Vec<u8>, digits: &str) -> Result<(), Fail> {
    let mut dense = String::new(alloc);
    for part in digits.split(' ') {
        dense.push_str(part)?;
    }
    let bytes = hex::decode(alloc, dense.as_bytes())?;
    rom.extend_from_slice(&bytes)?;
    for _ in 0..512 {
        if rom.len() % 512 != 0 {
            rom.push(0)?;
        }
    }
    Ok(())
}

/// The ROM.
fn rom(alloc: Global) -> Result<Vec<u8>, Fail> {
    let mut rom = Vec::new(alloc);
    for digits in IMAGES {
        push_image(alloc, &mut rom, digits)?;
    }
    Ok(rom)
}

#[test]
fn a_program_is_found(rt: HostRuntime) -> Result<(), Fail> {
    let rom = rom(rt.alloc())?;
    let mut file = rom.as_slice();
    let mut said = Vec::new(rt.alloc());
    let mut errors = Messages::new(&mut said);
    let found = program(rt.alloc(), "a.pci", &mut file, &mut errors);
    let found = found.unwrap_or(Vec::new(rt.alloc()));
    assert_eq!(rt; found.len(), 512 - 0x34);
    let five = b"\xf1\x08\x02\x0a\0\0\0\x0d\xa7\xa8\x1e\x9d\0\0".as_slice();
    assert!(rt; found.starts_with(five));
    Ok(())
}

/// The status of a look at the images of a ROM, what is printed and what is said.
fn listed(alloc: Global, rom: &[u8]) -> Result<(u8, Vec<u8>, Vec<u8>), Fail> {
    let mut file = rom;
    let mut out = Vec::new(alloc);
    let mut said = Vec::new(alloc);
    let status = pci(
        alloc,
        "a.pci",
        &mut file,
        &mut out,
        &mut Messages::new(&mut said),
    );
    Ok((status.code(), out, said))
}

/// Whether a ROM up to this length is listed so.
fn lists(
    rt: &impl Abort,
    alloc: Global,
    length: usize,
    wanted: (u8, &str, &str),
) -> Result<(), Fail> {
    let rom = rom(alloc)?;
    let (code, out, said) = listed(alloc, rom.get(..length).unwrap_or(&rom))?;
    assert_eq!(rt; code, wanted.0);
    assert_eq!(rt; out.as_slice(), wanted.1.as_bytes());
    assert_eq!(rt; said.as_slice(), wanted.2.as_bytes());
    Ok(())
}

#[test]
fn images_are_listed(rt: HostRuntime) -> Result<(), Fail> {
    lists(&rt, rt.alloc(), 1024, (0, LINES, ""))
}

/// What stands before an image that can't be read is listed.
#[test]
fn images_before_a_fault_are_listed(rt: HostRuntime) -> Result<(), Fail> {
    let first = LINES.split_inclusive('\n').next().unwrap_or("");
    let cut = "ofw: a.pci: image at 000200: cut off by the end of the ROM\n";
    lists(&rt, rt.alloc(), 1023, (1, first, cut))
}

/// The status of a look at an image, and what is printed.
#[test]
fn an_image_is_checked(rt: HostRuntime) {
    let mut file = b"f10800000000000dc0".as_slice();
    let mut out = Vec::new(rt.alloc());
    let mut said = Vec::new(rt.alloc());
    let mut errors = Messages::new(&mut said);
    let status = check(rt.alloc(), "a.hex", &mut file, &mut out, &mut errors);
    assert_eq!(rt; status.code(), 1);
    let first = b"000002: the header says the sum 0000, and it is 00c0\n".as_slice();
    assert!(rt; out.starts_with(first));
}
