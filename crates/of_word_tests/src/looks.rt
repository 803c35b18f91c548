//! Images and what is found of them, worked out by hand from the bytes (IEEE 1275-1994, 5.2.2, 5.2.2.5, 5.3.3).
use of_check::{
    bound_cuts_nothing, clean_images_are_listed, finding_lines, findings, findings_are_ordered,
    plain_items_fit,
};
use std::alloc::Global;

/// Images in hexadecimal, each with what is found of it, and an empty line between two.
const IMAGES: &str = "\
f108020a0000000da7a81e9d00

f108020b0000000da7a81e9d00
000002: the header says the sum 020b, and it is 020a

f108020a0000000ea7a81e9d00
000004: the header says 0000000e bytes, and the image is cut at 0000000d

f108020a0000000ca7a81e9d00
000004: the header says 0000000c bytes, and 00000001 stand behind them

f108020a0000000ba7a81e9d00
000002: the header says the sum 020a, and it is 016d
000004: the header says 0000000b bytes, and 00000002 stand behind them

f108020a00000007a7a81e9d00
000002: the header says the sum 020a, and it is 0000
000004: the header says 00000007 bytes, and 00000006 stand behind them

f10800200000000e100000001000

f10800200000000e1000000010
000004: the header says 0000000e bytes, and the image is cut at 0000000d
00000d: the image ends without end0 or end1

f10800200000000e10000000
000002: the header says the sum 0020, and it is 0010
000004: the header says 0000000e bytes, and the image is cut at 0000000c
000008: the image ends in this token

f10800200000000e10
000002: the header says the sum 0020, and it is 0010
000004: the header says 0000000e bytes, and the image is cut at 00000009
000008: the image ends in this token

f10800200000000e
000002: the header says the sum 0020, and it is 0000
000004: the header says 0000000e bytes, and the image is cut at 00000008
000008: the image ends without end0 or end1

f1080020000000
000000: image shorter than its header

f00800200000000e100000001000
000000: start0 images are not read

4108020a0000000da7a81e9d00
000000: bad start byte 41

f10802020000000c13fff000
000008: the offset -16 of bbranch leads outside

f10802100000000c13fffe00
000008: the offset -2 of bbranch leads outside

f10802110000000c13ffff00

f10800160000000c13000300
000008: the offset 3 of bbranch leads outside

f10800150000000c13000200

fd080563000000191380148015801680178018801c80c68000
000008: the offset -128 of bbranch leads outside
00000a: the offset -128 of b?branch leads outside
00000c: the offset -128 of b(loop) leads outside
00000e: the offset -128 of b(+loop) leads outside
000010: the offset -128 of b(do) leads outside
000012: the offset -128 of b(?do) leads outside
000014: the offset -128 of b(of) leads outside
000016: the offset -128 of b(endof) leads outside

fd0802ce0000000dcc13fff000
000009: the offset -16 of bbranch leads outside

f108024c00000011b50800b7130003c200
00000b: the definition of this b(:) has no reading

f10802fe00000012b50800b7130003b2c200

f108044700000011b50800b713ffffc200
00000b: the definition of this b(:) has no reading

f10804f700000012b50800b7b113fffec200

f10802510000000fb50800b71bc200
00000b: the definition of this b(:) has no reading

f108046200000014b50800b717000315fffec200

f108026600000014b50800b7170003150001c200
00000b: the definition of this b(:) has no reading

f108018f0000000eb50800b71b00

f108032300000011b50800b71bb71bc200
00000d: the definition of this b(:) has no reading

f10823160000008eb50800b714007f14007b14007714007314006f14006b14006714006314005f14005b1400571400531400\
4f14004b14004714004314003f14003b14003714003314002f14002b14002714002314001f14001b14001714001314000f14\
000b140007140003b2b2b2b2b2b2b2b2b2b2b2b2b2b2b2b2b2b2b2b2b2b2b2b2b2b2b2b2b2b2b2b2c200

f108245f00000092b50800b714008314007f14007b14007714007314006f14006b14006714006314005f14005b1400571400\
5314004f14004b14004714004314003f14003b14003714003314002f14002b14002714002314001f14001b14001714001314\
000f14000b140007140003b2b2b2b2b2b2b2b2b2b2b2b2b2b2b2b2b2b2b2b2b2b2b2b2b2b2b2b2b2b2b2b2b2c200
00000b: the definition of this b(:) has no reading

f108043800000011b50800b713fff0c200
00000b: the definition of this b(:) has no reading
00000c: the offset -16 of bbranch leads outside

f10800080000000b080000
000008: 800 is used before it is made

f108023e00000010b50800b7c2080000

f10801e300000011b601610801b9080100

f108039f00000010ca000fffb90fff00

f108010e0000000b0fff00
000008: fff is used before it is made

f10801060000000b07ff00

f10800190000000c11080000

f10800210000000e110800080000
00000b: 800 is used before it is made

f10800080000000c00080000

f10801070000000cff080000";

/// The lines of an image's findings.
fn lines_of(alloc: Global, digits: &str) -> Option<Vec<u8>> {
    let image = hex::decode(alloc, digits).ok()?;
    let found = findings(alloc, &image).ok()?;
    finding_lines(alloc, &found).ok()
}

/// The digits of a case's image, and the lines behind them, the last without its end.
fn halves(case: &str) -> (&str, &str) {
    match case.split_once('\n') {
        Some(halves) => halves,
        None => (case, ""),
    }
}

/// Whether a case's image has the findings that its lines say.
fn holds(alloc: Global, case: &str) -> bool {
    let (digits, lines) = halves(case);
    match lines_of(alloc, digits) {
        Some(found) => match found.as_slice() {
            [whole @ .., b'\n'] => whole == lines.as_bytes(),
            _ => found.is_empty() && lines.is_empty(),
        },
        None => false,
    }
}

#[test]
fn images(rt: HostRuntime) {
    for case in IMAGES.split("\n\n") {
        assert!(rt; holds(rt.alloc(), case), "{case}");
    }
}

/// The laws hold of all images.
#[test]
fn laws() {
    bound_cuts_nothing();
    clean_images_are_listed();
    findings_are_ordered();
    plain_items_fit();
}
