//! Listings that were worked out by hand from the bytes of images (IEEE 1275-1994, 5.2.2).
use crate::rows::{Rows, check, check_cases, field, natural, word};
use of_detok::{
    DetokFault, Extras, bound_cuts_nothing, definitions, definitions_are_taken, listing,
    listings_read_back, partial_listing, read_listing,
};
use of_stream::StreamFault;
use std::alloc::{AllocError, Global};
use std::test::Fail;

/// Images in hexadecimal, each with its listing, and an empty line between two. The first is
/// `2 3 + .`; the second has every kind of operand and three lines behind its end; in the third
/// branches lead forward; in the fourth, offsets have one byte and behind `offset16` two.
const LISTINGS: &str = "\
f108020a0000000da7a81e9d00
000000: f108020a0000000d  start1
000008: a7  2
000009: a8  3
00000a: 1e  +
00000b: 9d  .
00000c: 00  end0

f308101b000000541000000000\
10deadbeef119d12056122007f7e1200b6036162630800ca000801\
13fff01480000ffffeff\
000102030405060708090a0b0c0d0e0f101112131415161718191a1b1c1d1e1f20
000000: f308101b00000054  start4 (sum 101a) (bytes 00000053)
000008: 1000000000  b(lit) 00000000
00000d: 10deadbeef  b(lit) deadbeef
000012: 119d  b(') 09d
000014: 12056122007f7e  b(\") \"a\"..~\"
00001b: 1200  b(\") \"\"
00001d: b6036162630800  named-token \"abc\" 800
000024: ca000801  external-token \"\" 801
000028: 13fff0  bbranch -> 000019
00002b: 148000  b?branch -> ff802c
00002e: 0fff  fcode-fff
000030: fe  fcode-0fe
000031: ff  end1
000032: 000102030405060708090a0b0c0d0e0f  trailing
000042: 101112131415161718191a1b1c1d1e1f  trailing
000052: 20  trailing

f10806640000001cb50800b7140006a6130004b2a7b2c2a508009d00
000000: f10806640000001c  start1 (sum 0662)
000008: b50800  new-token 800
00000b: b7  b(:)
00000c: 140006  b?branch -> 000013
00000f: a6  1
000010: 130004  bbranch -> 000015
000013: b2  b(>resolve)
000014: a7  2
000015: b2  b(>resolve)
000016: c2  b(;)
000017: a5  0
000018: 0800  fcode-800
00001a: 9d  .
00001b: 00  end0

fd0803880000001213051480cc13fffe00
000000: fd08038800000012  version1 (bytes 00000011)
000008: 1305  bbranch -> 00000e
00000a: 1480  b?branch -> ffff8b
00000c: cc  offset16
00000d: 13fffe  bbranch -> 00000c
000010: 00  end0

f200000000000009ff
000000: f200000000000009  start2 (sum 00ff)
000008: ff  end1

f10800cc0000000acc00
000000: f10800cc0000000a  start1
000008: cc  offset16
000009: 00  end0";

/// The digits of a case's image, and its listing.
fn halves(case: &str) -> (&str, &str) {
    case.split_once('\n').unwrap_or(("", ""))
}

/// Images with their listings, which end in no newline.
#[derive(Clone, Copy)]
struct ListingRows;

impl Rows for ListingRows {
    fn holds(&mut self, alloc: Global, case: &str) -> Option<bool> {
        let (digits, lines) = halves(case);
        let image = hex::decode(alloc, digits).ok()?;
        let listed = listing(alloc, &image, Extras::default()).ok()?;
        Some(listed.strip_suffix(b"\n") == Some(lines.as_bytes()))
    }
}

#[test]
fn listings(rt: HostRuntime) {
    check_cases(&rt, rt.alloc(), &mut ListingRows, LISTINGS);
}

/// The listings read back, without their last newline.
#[derive(Clone, Copy)]
struct ImageRows;

impl Rows for ImageRows {
    fn holds(&mut self, alloc: Global, case: &str) -> Option<bool> {
        let (digits, lines) = halves(case);
        let image = hex::decode(alloc, digits).ok()?;
        let read = read_listing(alloc, lines.as_bytes()).ok()?;
        Some(read.as_slice() == image.as_slice())
    }
}

#[test]
fn images(rt: HostRuntime) {
    check_cases(&rt, rt.alloc(), &mut ImageRows, LISTINGS);
}

/// Digits of an image, and behind them a byte so many times.
fn image_with(alloc: Global, digits: &str, byte: u8, count: usize) -> Option<Vec<u8>> {
    let mut image = hex::decode(alloc, digits).ok()?;
    for _ in 0..count {
        image.push(byte).ok()?;
    }
    Some(image)
}

/// `end0` and 259 bytes of FE behind it: their sum, 65,786, is 00fa in sixteen bits.
#[test]
fn sums_have_sixteen_bits(rt: HostRuntime) {
    assert!(rt; has_sixteen_bits(rt.alloc()) == Some(true));
}

/// Whether its listing says no other sum.
fn has_sixteen_bits(alloc: Global) -> Option<bool> {
    let image = image_with(alloc, "f10800fa0000010c00", 0xfe, 259)?;
    let listed = listing(alloc, &image, Extras::default()).ok()?;
    Some(listed.starts_with(b"000000: f10800fa0000010c  start1\n000008: 00  end0\n"))
}

/// The listing, indented, of an image that ends in the token 1 within so many marks.
fn within_marks(alloc: Global, count: usize) -> Option<Vec<u8>> {
    let mut image = image_with(alloc, "f108000000000000", 0xb1, count)?;
    image.push(0xa6).ok()?;
    let extras = Extras {
        names: false,
        indents: true,
    };
    let (listed, _) = partial_listing(alloc, &image, extras).ok()?;
    Some(listed)
}

/// Marks, the place of the token within them, and by how many structures its line is indented.
const DEEP: &str = "\
31 000027 31
32 000028 32
33 000029 32
";

/// The last line of such a listing.
fn last_line(alloc: Global, place: &str, depth: u32) -> Result<String, AllocError> {
    let mut last = format!(in alloc; "{place}: a6  ")?;
    for _ in 0..depth {
        last.push_str("  ")?;
    }
    last.push_str("1\n")?;
    Ok(last)
}

/// Structures within others.
#[derive(Clone, Copy)]
struct DeepRows;

impl Rows for DeepRows {
    fn holds(&mut self, alloc: Global, line: &str) -> Option<bool> {
        let listed = within_marks(alloc, natural(word(line, 0))? as usize)?;
        let last = last_line(alloc, word(line, 1), natural(word(line, 2))?).ok()?;
        Some(listed.ends_with(last.as_bytes()))
    }
}

/// Each open structure indents by two, the 33rd no more, since a definition has no more open at once.
#[test]
fn deep_structures_are_indented(rt: HostRuntime) {
    check(&rt, rt.alloc(), &mut DeepRows, DEEP);
}

/// Whether a listing reads back to its image.
fn reads_back(alloc: Global, listed: &[u8], image: &[u8]) -> Option<bool> {
    Some(read_listing(alloc, listed).ok()?.as_slice() == image)
}

/// Whether such an image has such a listing.
fn is_long(alloc: Global) -> Option<bool> {
    let mut image = image_with(alloc, "f108000000000000", 0xa6, 100_000)?;
    image.push(0x00).ok()?;
    let listed = listing(alloc, &image, Extras::default()).ok()?;
    let ends = listed.ends_with(b"\n0186a7: a6  1\n0186a8: 00  end0\n");
    Some(ends && reads_back(alloc, &listed, &image)?)
}

/// 100,000 tokens and `end0` behind them, each on a line of its own, that read back.
#[test]
fn a_long_image(rt: HostRuntime) {
    assert!(rt; is_long(rt.alloc()) == Some(true));
}

/// Damaged images, each with its lines up to the fault, indented and with the names that it gives; an empty line
/// between two. A name is said behind the FCode that has it, until `new-token` takes that away.
const PARTIAL: &str = "\
fd08000000000000b601610800b9ca01620801b70800b114080801c3080013f5b2c2b50800b70800080112ff
000000: fd08000000000000  version1 (sum 0a81) (bytes 0000002c)
000008: b601610800  named-token \"a\" 800
00000d: b9  b(variable)
00000e: ca01620801  external-token \"b\" 801
000013: b7  b(:)
000014: 0800    fcode-800 a
000016: b1    b(<mark)
000017: 1408      b?branch -> 000020
000019: 0801        fcode-801 b
00001b: c30800        b(to) 800 a
00001e: 13f5      bbranch -> 000014
000020: b2    b(>resolve)
000021: c2  b(;)
000022: b50800  new-token 800
000025: b7  b(:)
000026: 0800    fcode-800
000028: 0801    fcode-801 b

fd08000000000000c4a71c05a8c603c5b604220a7800080208021705a615fe12ff
000000: fd08000000000000  version1 (sum 081a) (bytes 00000021)
000008: c4  b(case)
000009: a7    2
00000a: 1c05    b(of) -> 000010
00000c: a8      3
00000d: c603    b(endof) -> 000011
00000f: c5  b(endcase)
000010: b604220a78000802  named-token \"\".x.\" 802
000018: 0802  fcode-802 \".x.
00001a: 1705  b(do) -> 000020
00001c: a6    1
00001d: 15fe  b(loop) -> 00001c
";

/// A text without the newline at its end.
fn without_newline(text: &[u8]) -> &[u8] {
    text.strip_suffix(b"\n").unwrap_or(text)
}

/// Whether the fault of a listing comes where the image ends to which it reads back.
fn ends_at_fault(alloc: Global, listed: &[u8], fault: Option<StreamFault>) -> Option<bool> {
    let end = read_listing(alloc, listed).ok()?.len();
    Some(fault == Some(StreamFault::Ended(end)))
}

/// Damaged images.
#[derive(Clone, Copy)]
struct PartialRows;

impl Rows for PartialRows {
    fn holds(&mut self, alloc: Global, case: &str) -> Option<bool> {
        let extras = Extras {
            names: true,
            indents: true,
        };
        let (digits, lines) = halves(case);
        let image = hex::decode(alloc, digits).ok()?;
        let (listed, fault) = partial_listing(alloc, &image, extras).ok()?;
        let is_listed = without_newline(&listed) == without_newline(lines.as_bytes());
        Some(is_listed && ends_at_fault(alloc, &listed, fault)?)
    }
}

#[test]
fn partial_listings(rt: HostRuntime) {
    check_cases(&rt, rt.alloc(), &mut PartialRows, PARTIAL);
}

/// Images without a listing, and what is wrong with them.
const FAULTS: &str = "\
f1080000000000 Some(Stream(Short))
f1 Some(Stream(Short))
f008000000000000 Some(Stream(Start0))
00080000000000000000 Some(Stream(BadStart(0)))
f108000000000000 Some(Stream(Ended(8)))
f108000000000000a7a8 Some(Stream(Ended(10)))
f108000000000000a712056162 Some(Stream(Ended(9)))
";

/// Images without a listing.
#[derive(Clone, Copy)]
struct FaultRows;

impl Rows for FaultRows {
    fn holds(&mut self, alloc: Global, line: &str) -> Option<bool> {
        let (digits, wanted) = line.split_once(' ')?;
        let image = hex::decode(alloc, digits).ok()?;
        let fault = listing(alloc, &image, Extras::default()).err();
        Some(format!(in alloc; "{fault:?}").ok()?.as_str() == wanted)
    }
}

#[test]
fn images_without_listing(rt: HostRuntime) {
    check(&rt, rt.alloc(), &mut FaultRows, FAULTS);
}

/// Texts, a line each, where `/` stands for a newline, and behind `|` the bytes that they mean, or
/// the number of the first line that is none of a listing.
const TEXTS: &str = "\
|
000000: f1  /|f1
000000: f1  |f1
000000: F1aB  not read/000002: 00  |f1ab00
000000: 00112233445566778899  /00000A: aa  /00000b: bb  |00112233445566778899aabb
000000: 20  20  \r/|20
/|BadLine(1)
000000: f  |BadLine(1)
000000: f1f  |BadLine(1)
000000:   |BadLine(1)
000000: f1 |BadLine(1)
000000: f1 x|BadLine(1)
000000: f1|BadLine(1)
000000: g1  |BadLine(1)
000000- f1  |BadLine(1)
00000: f1  |BadLine(1)
000001: f1  |BadLine(1)
000000: f1  /000002: 00  /|BadLine(2)
000000: f1  //000001: 00  |BadLine(2)
000000: f1  /000001: 00  /x|BadLine(3)
";

/// Whether a text means these bytes, in hexadecimal, or this is wrong with it.
fn is_meant(alloc: Global, text: &[u8], wanted: &str) -> Option<bool> {
    match read_listing(alloc, text) {
        Ok(image) => Some(hex::encode(alloc, &image).ok()?.as_str() == wanted),
        Err(fault) => Some(format!(in alloc; "{fault:?}").ok()?.as_str() == wanted),
    }
}

/// Texts as listings.
#[derive(Clone, Copy)]
struct ReadingRows;

impl Rows for ReadingRows {
    fn holds(&mut self, alloc: Global, line: &str) -> Option<bool> {
        let text = field(line, 0).replace(alloc, "/", "\n").ok()?;
        is_meant(alloc, text.as_bytes(), field(line, 1))
    }
}

#[test]
fn readings(rt: HostRuntime) {
    check(&rt, rt.alloc(), &mut ReadingRows, TEXTS);
}

/// What the faults say, a line each.
const FAULT_TEXTS: &str = "\
image ended in the token at 000009
line 3: not a line of a listing
out of memory
";

#[test]
fn faults(rt: HostRuntime) -> Result<(), Fail> {
    let said = format!(in rt.alloc();
        "{}\n{}\n{}\n",
        DetokFault::from(StreamFault::Ended(9)),
        DetokFault::BadLine(3),
        DetokFault::NoMemory
    )?;
    assert!(rt; said.as_str() == FAULT_TEXTS);
    Ok(())
}

/// Images, behind a colon what of each makes words, and behind a second one what is wrong with it. The first have no
/// words, where operands look like defining tokens, too; then each defining token comes once; a definition has such
/// tokens within; offsets have one byte, and two behind `offset16`; images end in `end1`, and in the middle of a token;
/// the last have no header.
const DEFINITIONS: &str = "\
f10800000000000900:f10800000000000900:None
f108020a0000000da7a81e9d00:f108020a0000000d00:None
f10800000000000010b7bbc2ca1202b7c211b7c308000801c2c000:f10800000000000000:None
f108000000000000b50800b7a81ec200:f108000000000000b50800b7a81ec200:None
f108000000000000a5b50800a6b6036162630801a7ca01780802cca800\
:f108000000000000b50800ca036162630801ca01780802cc00:None
f108000000000000b50800c0a5b8b50801b9b50802a5bab50803bbc0b50804bcb50805a7bdb50806a5a8be4600\
:f108000000000000b50800bbb50801bbb50802bbb50803bbb50804bbb50805bbb50806bb00:None
f108000000000000b50800b710c2c2c2c21202c2b711c2ca01c20801c30801b8b9babbbcbdbeb7ccc0c2c2a500\
:f108000000000000b50800b710c2c2c2c21202c2b711c2ca01c20801c30801b8b9babbbcbdbeb7ccc0c200:None
fd08000000000000b50800b71403a6b2c2a51402cca5140003b50801b7140004a6b2c200\
:fd08000000000000b50800b71403a6b2c2ccb50801b7140004a6b2c200:None
f208000000000000ca01610800b70800c20800ffb50801b7c200:f208000000000000ca01610800b70800c200:None
f308000000000000b7c2b7:f308000000000000b7c2b700:Some(Ended(11))
f108000000000000:f10800000000000000:Some(Ended(8))
f108000000000000b50800b7a612056162:f108000000000000b50800b7a600:Some(Ended(13))
f108000000000000b50800b910000000:f108000000000000b50800bb00:Some(Ended(12))
f108000000000000a5b6036162:f10800000000000000:Some(Ended(9))
f108000000000000b50800b708:f108000000000000b50800b700:Some(Ended(12))
f1080000000000::Some(Short)
::Some(Short)
f008000000000000b50800b7c200::Some(Start0)
00080000000000000000::Some(BadStart(0))
";

/// Images as their definitions.
#[derive(Clone, Copy)]
struct DefinitionRows;

impl Rows for DefinitionRows {
    fn holds(&mut self, alloc: Global, line: &str) -> Option<bool> {
        let (digits, wanted) = line.split_once(':')?;
        let image = hex::decode(alloc, digits).ok()?;
        let (taken, fault) = definitions(alloc, &image).ok()?;
        let digits = hex::encode(alloc, &taken).ok()?;
        Some(format!(in alloc; "{digits}:{fault:?}").ok()?.as_str() == wanted)
    }
}

#[test]
fn images_as_definitions(rt: HostRuntime) {
    check(&rt, rt.alloc(), &mut DefinitionRows, DEFINITIONS);
}

const ONE: &[u8] = &[0xf1, 0, 0, 0, 0, 0, 0, 9, 0];

const ONE_LISTED: &[u8] = b"000000: f100000000000009  start1\n000008: 00  end0\n";

/// Whether the image is listed, once no growth is refused, and until then the answer is NoMemory.
fn is_listed_at_last(alloc: Global) -> bool {
    for _ in 0..99 {
        match listing(alloc, ONE, Extras::default()) {
            Ok(text) => return text.as_slice() == ONE_LISTED,
            Err(DetokFault::NoMemory) => {}
            Err(DetokFault::Stream(_) | DetokFault::BadLine(_)) => return false,
        }
    }
    false
}

/// The same of the text, where it is read.
fn is_read_at_last(alloc: Global) -> bool {
    for _ in 0..99 {
        match read_listing(alloc, ONE_LISTED) {
            Ok(image) => return image.as_slice() == ONE,
            Err(DetokFault::NoMemory) => {}
            Err(DetokFault::Stream(_) | DetokFault::BadLine(_)) => return false,
        }
    }
    false
}

/// The same of the definitions of the image, which has none.
fn is_taken_at_last(alloc: Global) -> bool {
    for _ in 0..99 {
        match definitions(alloc, ONE) {
            Ok((image, fault)) => return image.as_slice() == ONE && fault == None,
            Err(DetokFault::NoMemory) => {}
            Err(DetokFault::Stream(_) | DetokFault::BadLine(_)) => return false,
        }
    }
    false
}

#[test]
fn refused_memory(rt: HostRuntime) {
    assert!(rt; is_listed_at_last(rt.alloc()));
    assert!(rt; is_read_at_last(rt.alloc()));
    assert!(rt; is_taken_at_last(rt.alloc()));
}

/// The laws hold.
#[test]
fn laws() {
    bound_cuts_nothing();
    definitions_are_taken();
    listings_read_back();
}
