//! Where control goes on, by what tokens behind a header print.

use crate::running::{bytes_of, printed_by};
use std::alloc::Global;
use std::test::Fail;

/// Loops of definitions: `?do` skips its loop, `leave` goes past the one that it stands in, and a mark is found at its
/// own position and at the next.
const LOOPS: &str = "\
b50800 b7 a5 a5 180007 19 9d 15fffc c2 0800 a6 9d 00|1 
b50800 b7 a6 a5 170005 a6 a5 170005 89 1b 15fffc 1000000007 9d 15fffc 1000000008 9d c2 0800|\
7 fault -26: loop parameters unavailable$
b50800 b7 b1 a6 13fffd c2 a7 9d 00|2 
b50800 b7 b1 a6 13ffff c2 a7 9d 00|fault -22: control structure mismatch$
16fffd|fault -4: stack underflow$
a6 16fffd|fault -26: loop parameters unavailable$
";

/// `execute`, `catch` and defers: three in a row, full stacks, and words that aren't executed.
const EXECUTING: &str = "\
b50800 bc b50801 bc 111e c30800 110800 c30801 a6 a7 0801 9d 00|3 
b50800 bc b50801 bc b50802 bc 111e c30800 110800 c30801 110801 c30802 a6 a7 0802 9d 00|3 
10000000ff a5 170000 19 15fffe 117b 0217 9d 00|0 
10000000fd a6 30 a6 1f 47 34 14fff9 46 117b 0217 9d 00|0 
10c0000528 1d|fault -14: compile-only word$
10c00004a0 1d|fault -14: compile-only word$
1000001234 de|fault -263: bad handle$
1000001234 86|fault -263: bad handle$
1111 de|fault -32: invalid name argument$
1111 86|fault -31: not a created word$
";

/// FCodes that aren't assigned, behind `b(')` and `b(to)`, interpreted and compiled.
const NAMING: &str = "\
c30800|fault -4: stack underflow$
a6 c30800|fault -256: fcode not assigned$
110800|fault -256: fcode not assigned$
b50800 b7 110801|fault -256: fcode not assigned$
b50800 b7 c30801|fault -256: fcode not assigned$
a6 b50800 b7 c30801|fault -256: fcode not assigned$
";

/// The end of an image inside another leaves the pictured text; a named word is a method of the package that is active
/// at its `b(:)`, whatever is active at its `b(;)`.
const ENDING: &str = "\
96 a7 99 120bf108000000000000 a6 9d 00 46 a6 023e 97 90 00|1 2
b50800 b7 011f c2 110800 a4 1000000800 db ca03666f6f0801 b7 0800 c2 1203666f6f 10d0000008 0207 9f 00|-3ffffad0 -1 
b50800 b7 011f c2 110800 a4 1000000800 db ca03666f6f0801 b7 0800 c2 1203666f6f 10d000000c 0207 9f 00|0 
";

/// The first line whose tokens print something else, with what they print; nothing where there is none.
fn other(alloc: Global, lines: &str) -> Result<String, Fail> {
    for line in lines.lines() {
        let (tokens, wanted) = line.split_once('|').unwrap_or(("", ""));
        let image = bytes_of(alloc, &format!(in alloc; "f108000000000000{tokens}")?)?;
        let printed = printed_by(alloc, &image, 2999)?;
        if printed.as_str() != wanted {
            return Ok(format!(in alloc; "{line} prints {printed}")?);
        }
    }
    Ok(String::new(alloc))
}

#[test]
fn loops(rt: HostRuntime) -> Result<(), Fail> {
    assert_eq!(rt; other(rt.alloc(), LOOPS)?.as_str(), "");
    Ok(())
}

#[test]
fn executing(rt: HostRuntime) -> Result<(), Fail> {
    assert_eq!(rt; other(rt.alloc(), EXECUTING)?.as_str(), "");
    Ok(())
}

#[test]
fn naming(rt: HostRuntime) -> Result<(), Fail> {
    assert_eq!(rt; other(rt.alloc(), NAMING)?.as_str(), "");
    Ok(())
}

#[test]
fn ending(rt: HostRuntime) -> Result<(), Fail> {
    assert_eq!(rt; other(rt.alloc(), ENDING)?.as_str(), "");
    Ok(())
}
