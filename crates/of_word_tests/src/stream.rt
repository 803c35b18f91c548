//! Images and tokens by bytes that were worked out by hand (IEEE 1275-1994, 5.2.2).
use crate::rows::{Rows, check, decimal, hexadecimal, natural, word};
use of_cells::Cell;
use of_fcodes::FCode;
use of_stream::{
    Argument, HEADER_LENGTH, OffsetSize, Stream, StreamFault, Token, open, target_at,
    tokens_read_back, tokens_stand_alone,
};
use std::alloc::Global;
use std::test::Fail;

/// Images and what is wrong with their headers, a line each.
const HEADERS: &str = "\
f108000000000000 Ok(Two)
f20901010101010100 Ok(Two)
f300000000000000 Ok(Two)
fd00000000000000 Ok(One)
f000000000000000 Err(Start0)
ff00000000000000 Err(BadStart(255))
ff000000000000 Err(Short)
f1 Err(Short)
";

/// Headers.
#[derive(Clone, Copy)]
struct HeaderRows;

impl Rows for HeaderRows {
    fn holds(&mut self, alloc: Global, line: &str) -> Option<bool> {
        let image = hex::decode(alloc, word(line, 0)).ok()?;
        let size = open(&image).map(|stream| stream.first_size());
        Some(format!(in alloc; "{size:?}").ok()?.as_str() == word(line, 1))
    }
}

#[test]
fn headers(rt: HostRuntime) {
    check(&rt, rt.alloc(), &mut HeaderRows, HEADERS);
    assert!(rt; HEADER_LENGTH == 8);
}

/// Tokens: their bytes, the number of bytes of an offset, the FCode, and what stands behind it.
const TOKENS: &str = "\
00 2 000 Nothing
1e 1 01e Nothing
0240 2 240 Nothing
0fff 2 fff Nothing
1080000001 1 010 Literal(Cell(2147483649))
110800 2 011 FCode(FCode(2048))
12026869 2 012 String([104,105])
1200 1 012 String([])
ca01781e 2 0ca Named([120],FCode(30))
13fffe 2 013 Offset(-2)
14fe 1 014 Offset(-2)
1c1234 2 01c Offset(4660)
137f 1 013 Offset(127)
138000 2 013 Offset(-32768)
";

/// The size of so many bytes.
fn size_of(word: &str) -> OffsetSize {
    if word == "1" {
        OffsetSize::One
    } else {
        OffsetSize::Two
    }
}

/// Whether this is said of a token: its FCode, and without spaces what stands behind it.
fn is_said(alloc: Global, token: &Token<'_>, wanted: &str) -> Option<bool> {
    let argument = format!(in alloc; "{:?}", token.argument).ok()?;
    let argument = argument.replace(alloc, ", ", ",").ok()?;
    let is_code = hexadecimal(word(wanted, 0)) == Some(u32::from(token.code.0));
    Some(is_code && argument.as_str() == word(wanted, 1))
}

/// Tokens as they are read.
#[derive(Clone, Copy)]
struct TokenRows;

impl Rows for TokenRows {
    fn holds(&mut self, alloc: Global, line: &str) -> Option<bool> {
        let (bytes, rest) = line.split_once(' ')?;
        let (size, wanted) = rest.split_once(' ')?;
        let image = hex::decode(alloc, bytes).ok()?;
        let stream = Stream { image: &image };
        let (token, next) = stream.token_at(0, size_of(size)).ok()?;
        Some(next == image.len() && is_said(alloc, &token, wanted)?)
    }
}

#[test]
fn tokens(rt: HostRuntime) {
    check(&rt, rt.alloc(), &mut TokenRows, TOKENS);
}

/// The bytes of a token as it is written, where it can be.
fn written(alloc: Global, token: &Token<'_>, size: OffsetSize) -> Option<Vec<u8>> {
    if !token.is_encodable(size) {
        return None;
    }
    let mut out = Vec::new(alloc);
    token.put(size, &mut out).ok()?;
    Some(out)
}

/// Whether the token of these bytes has them again where it is written.
fn is_written_again(alloc: Global, image: &[u8], size: OffsetSize) -> Option<bool> {
    let (token, next) = Stream { image }.token_at(0, size).ok()?;
    Some(token.length(size) == next && written(alloc, &token, size)?.as_slice() == image)
}

/// Tokens as they are written.
#[derive(Clone, Copy)]
struct ByteRows;

impl Rows for ByteRows {
    fn holds(&mut self, alloc: Global, line: &str) -> Option<bool> {
        let image = hex::decode(alloc, word(line, 0)).ok()?;
        is_written_again(alloc, &image, size_of(word(line, 1)))
    }
}

#[test]
fn bytes(rt: HostRuntime) {
    check(&rt, rt.alloc(), &mut ByteRows, TOKENS);
}

/// Whether a token of this FCode has bytes.
fn has_bytes(code: u16, argument: Argument<'_>, size: OffsetSize) -> bool {
    let token = Token {
        code: FCode(code),
        argument,
    };
    token.is_encodable(size)
}

/// Tokens that have no bytes: 0x00F begins an FCode of two bytes, `b(lit)` has a cell and `dup`
/// none, and 128 is no offset of one byte.
#[test]
fn no_bytes(rt: HostRuntime) {
    let one = OffsetSize::One;
    assert!(rt; !has_bytes(0x00f, Argument::Nothing, one));
    assert!(rt; !has_bytes(0x010, Argument::Nothing, one));
    assert!(rt; !has_bytes(0x047, Argument::Literal(Cell(1)), one));
    assert!(rt; !has_bytes(0x013, Argument::Offset(128), one));
    assert!(rt; has_bytes(0x013, Argument::Offset(128), OffsetSize::Two));
}

/// Whether the image ends in the token at a position.
fn is_cut(image: &[u8], position: usize, size: OffsetSize) -> bool {
    let fault = Stream { image }.token_at(position, size).err();
    fault == Some(StreamFault::Ended(position))
}

/// Each token without its last byte, and one past the end.
#[derive(Clone, Copy)]
struct CutRows;

impl Rows for CutRows {
    fn holds(&mut self, alloc: Global, line: &str) -> Option<bool> {
        let image = hex::decode(alloc, word(line, 0)).ok()?;
        let size = size_of(word(line, 1));
        let short = &image[..image.len().saturating_sub(1)];
        Some(is_cut(short, 0, size) && is_cut(&image, usize::MAX, size))
    }
}

#[test]
fn cut(rt: HostRuntime) {
    check(&rt, rt.alloc(), &mut CutRows, TOKENS);
}

/// Offsets in an image of 20 bytes: the token's position, the offset, where it leads from the
/// image's first byte on, and where the image goes on.
const TARGETS: &str = "\
8 3 12 12
8 -1 8 8
8 -2 7 none
8 -9 0 none
8 -10 none none
10 8 19 19
10 9 20 none
12 0 13 13
12 -32768 none none
12 32767 32780 none
";

/// Whether a position is what a word says, or `none`.
fn is_position(found: Option<usize>, wanted: &str) -> bool {
    match found {
        Some(found) => match u32::try_from(found) {
            Ok(found) => natural(wanted) == Some(found),
            Err(_) => false,
        },
        None => wanted == "none",
    }
}

/// Targets.
#[derive(Clone, Copy)]
struct TargetRows;

impl Rows for TargetRows {
    fn holds(&mut self, _alloc: Global, line: &str) -> Option<bool> {
        let stream = Stream { image: &[0; 20] };
        let position = natural(word(line, 0))? as usize;
        let by = i16::try_from(decimal(word(line, 1))?).ok()?;
        if position >= 20 {
            return None;
        }
        let is_target = is_position(target_at(position, by), word(line, 2));
        Some(is_target && is_position(stream.landing(position, by), word(line, 3)))
    }
}

#[test]
fn targets(rt: HostRuntime) {
    check(&rt, rt.alloc(), &mut TargetRows, TARGETS);
}

/// FCodes, whether they end an image, and the size of offsets behind them where it was one byte.
const SIZES: &str = "\
000 true One
0ff true One
0cc false Two
0fe false One
1cc false One
";

/// Sizes of offsets.
#[derive(Clone, Copy)]
struct SizeRows;

impl Rows for SizeRows {
    fn holds(&mut self, _alloc: Global, line: &str) -> Option<bool> {
        let token = Token {
            code: FCode(u16::try_from(hexadecimal(word(line, 0))?).ok()?),
            argument: Argument::Nothing,
        };
        let is_two = token.size_behind(OffsetSize::One) == OffsetSize::Two;
        let is_end = token.is_end() == (word(line, 1) == "true");
        Some(is_end && is_two == (word(line, 2) == "Two"))
    }
}

#[test]
fn sizes(rt: HostRuntime) {
    check(&rt, rt.alloc(), &mut SizeRows, SIZES);
    assert!(rt; OffsetSize::One.bytes() == 1 && OffsetSize::Two.bytes() == 2);
}

/// What the faults say, a line each.
const FAULTS: &str = "\
bad start byte 0a
start0 images are not read
image shorter than its header
image ended in the token at 00001f
";

#[test]
fn faults(rt: HostRuntime) -> Result<(), Fail> {
    let said = format!(in rt.alloc();
        "{}\n{}\n{}\n{}\n",
        StreamFault::BadStart(10),
        StreamFault::Start0,
        StreamFault::Short,
        StreamFault::Ended(31)
    )?;
    assert!(rt; said.as_str() == FAULTS);
    Ok(())
}

/// The laws hold.
#[test]
fn laws() {
    tokens_stand_alone();
    tokens_read_back();
}
