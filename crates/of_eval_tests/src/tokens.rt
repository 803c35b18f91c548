//! Tokens behind a header, and what they make.

use crate::running::{bytes_of, shown};
use std::alloc::Global;
use std::test::Fail;

/// The words over the return stack, and what they throw. The image's own source lies beneath all that these words
/// put there.
const RETURNS: &str = "\
a6 30 31 9d 00|5 0/0 1 
a6 30 32 31 9d 9d 00|7 0/0 1 1 
a6 30 00|3 0/0 
30|1 0/0 fault -4: stack underflow$
31|1 0/0 fault -25: return stack imbalance$
32|1 0/0 fault -25: return stack imbalance$
33|1 0/0 fault -25: return stack imbalance$
19|1 0/0 fault -26: loop parameters unavailable$
1a|1 0/0 fault -26: loop parameters unavailable$
89|1 0/0 fault -26: loop parameters unavailable$
a8 a5 170000 31|4 0/0 fault -25: return stack imbalance$
a8 a5 170000 1a|4 0/0 fault -26: loop parameters unavailable$
a7 a5 170000 a8 a6 170000 1a 9d 19 9d 00|11 0/0 0 1 
a7 a5 170000 a6 30 19 9d 00|8 0/0 0 
a7 a5 170000 a6 30 89|6 0/0 fault -26: loop parameters unavailable$
a7 a5 170000 89 19|5 0/0 fault -26: loop parameters unavailable$
b50800 b7 19 c2 a7 a5 170000 0800|9 0/0 fault -26: loop parameters unavailable$
b50800 b7 a6 30 c2 0800|9 0/0 fault -25: return stack imbalance$
b50800 b7 a7 a5 170007 19 33 15fffc c2 0800|15 0/0 fault -25: return stack imbalance$
b50800 b7 a7 a5 170007 19 89 33 15fffb c2 0800 9d 00|19 0/0 0 
b50800 b7 a6 9d 33 a7 9d c2 0800 00|13 0/0 1 
a6 1130 0217 9d 9d 00|6 0/0 -19 1 
1131 0217 9d 00|4 0/0 -19 
a6 30 13fffd|764 0/0 fault -5: return stack overflow$
";

/// `execute` and `catch`, and what is thrown under them.
const EXECUTING: &str = "\
a6 a7 111e 1d 9d 00|6 0/0 3 
a6 a7 111e 111d 1d 9d 00|7 0/0 3 
1d|1 0/0 fault -4: stack underflow$
a5 1d|2 0/0 fault -263: bad handle$
10c0000530 1d|2 0/0 fault -263: bad handle$
a6 10c0000530 111d 0217 9d 9d 9d 00|8 0/0 -107 -3ffffad0 1 
10c0000000 1d|2 0/0 fault -14: compile-only word$
1111 1d|2 0/0 fault -14: compile-only word$
11b7 1d|2 0/0 fault -14: compile-only word$
110800|1 0/0 fault -256: fcode not assigned$
0800|1 0/0 fault -256: fcode not assigned$
0217|1 0/0 fault -4: stack underflow$
a5 0217 9d 00|4 0/0 -107 
a6 a7 111e 0217 9d 9d 00|7 0/0 0 3 
a5 110218 0217 9d 00|5 0/0 0 
a6 a8 110218 0217 9f 00|6 3/0 1 0 3 
110216 0217 9d 00|4 0/0 -1 
1111 0217 9d 00|4 0/0 -e 
a5 1121 0217 9f 00|5 2/0 0 -4 
b50800 b7 a8 0218 c2 b50801 b7 110800 0217 9d a7 0218 c2 110801 0217 9d 00|24 0/0 3 2 
10000000ff a5 17 0000 19 15fffe 1147 0217 9d 00|517 255/0 -3 
a6 0218|2 0/0 fault 1: thrown by the program$
a7 a8 a4 0218|4 0/0 fault -1: abort$
0216|1 0/0 fault -1: abort$
a5 0218 00|3 0/0 
";

/// Words that images define, and words on words.
const DEFINING: &str = "\
a6 b50800 b8 0800 9d a7 c30800 0800 9d 00|10 0/0 1 2 
a6 b50800 b8 b50801 b7 c30800 c2 a7 0801 0800 9d 00|14 0/0 2 
a6 b50800 ba a7 c30800|5 0/0 fault -32: invalid name argument$
a6 c31e|2 0/0 fault -32: invalid name argument$
a6 c30800|2 0/0 fault -256: fcode not assigned$
a6 b50800 b8 c30800|4 0/0 fault -4: stack underflow$
b50800 bc 111e c30800 a6 a7 0800 9d 00|9 0/0 3 
b50800 bc 0800|3 0/0 fault -263: bad handle$
b50800 bc 110800 c30800 0800|5 0/0 fault -263: bad handle$
b50800 b9 a8 0800 72 0800 6d 9d 00|9 0/0 3 
b50800 bb a7 d3 0800 6d 9d 00|8 0/0 2 
a5 a8 b50800 be 9d a6 0800 9d 00|9 0/0 3 1 
1000000009 b50800 bd ad 9b 0800 9b 00|8 0/0 100009 100000 
a6 ca01780800 ba 0800 9d 00|6 0/0 1 
a6 ca000800|2 0/0 fault -16: zero-length name$
b507ff|1 0/0 fault -24: invalid numeric argument$
b7|1 0/0 fault -29: compiler nesting$
a6 b8|2 0/0 fault -29: compiler nesting$
b50800 b9 b9|3 0/0 fault -29: compiler nesting$
c2|1 0/0 fault -29: compiler nesting$
b50800 b7 b50801|3 0/0 fault -29: compiler nesting$
b50800 b7 b7|3 0/0 fault -29: compiler nesting$
b50800 b7 00|3 0/0 fault -29: compiler nesting$
b50800 b7 ff|3 0/0 fault -29: compiler nesting$
b50800 b7 0801|3 0/0 fault -256: fcode not assigned$
";

/// What stands in definitions: calls, strings, and words that are executed while they are compiled.
const COMPILING: &str = "\
dd|1 0/0 fault -14: compile-only word$
111e dd|2 0/0 fault -14: compile-only word$
b50800 b7 a5 dd c2 110800 a4 1000000800 db b50801 b7 0800|14 0/0 fault -263: bad handle$
b50800 b7 a6 9d c2 110800 a4 1000000800 db b50801 b7 0800 c2 0801 00|19 0/0 1 
b50800 b7 a6 9d c2 110800 a5 1000000800 db b50801 b7 0800 c2 0801 00|20 0/0 1 
dc 6d 9d 00|4 0/0 0 
b50800 b7 dc 6d 9d c2 110800 a4 1000000800 db b50801 b7 0800 c2 0800 00|24 0/0 -1 0 
b50801 b7 1000000800 da 46 1d c2 110801 a4 1000000801 db b50800 b7 0801|18 0/0 fault -29: compiler nesting$
b50800 b7 a8 0218 c2 b50801 b7 110800 0217 9d c2 110801 a4 1000000801 db b50802 b7 0801 a6 9d c2 0802 00|32 0/0 3 1 
12024142 9d 9b 00|4 0/0 2 60000a 
12024142 90 00|3 0/0 AB
b50800 b7 12024142 90 c2 0800 0800 00|14 0/0 ABAB
b50800 b7 12024142 c2 0800 9d 9b ad 9b 00|12 0/0 2 100000 100004 
";

/// Branches, loops and cases in images and in definitions.
const CONTROL: &str = "\
a5 a5 170008 19 9d a4 16fffc 00|8 0/0 0 
a5 a7 170008 19 9d a4 16fffc 00|16 0/0 2 1 0 
a8 a5 170008 19 9d a7 16fffc 00|12 0/0 0 2 
b50800 b7 a5 a5 170008 19 9d a4 16fffc c2 0800 00|20 0/0 0 
b50800 b7 a5 a7 170008 19 9d a4 16fffc c2 0800 00|28 0/0 2 1 0 
b50800 b7 a8 a5 170008 19 9d a7 16fffc c2 0800 00|24 0/0 0 2 
a5 a5 180007 19 9d 15fffd 00|4 0/0 
15fffd|1 0/0 fault -26: loop parameters unavailable$
a6 16fffd|2 0/0 fault -26: loop parameters unavailable$
a8 a5 170008 19 9d 1b 15fffc a6 9d 00|9 0/0 0 1 
b50800 b7 a8 a5 170008 19 9d 1b 15fffc c2 0800 00|19 0/0 0 
1b|1 0/0 fault -26: loop parameters unavailable$
a8 a5 177fff 1b|4 0/0 fault -257: image ended$
a8 a5 170003 1b|4 0/0 fault -257: image ended$
a8 a5 17fffc 1b|4 0/0 fault -257: image ended$
b50800 b7 1b c2|4 0/0 fault -22: control structure mismatch$
a7 c4 a6 1c0007 a8 9d c6000e a7 1c0007 a6 9d c60005 a5 9d c5 00|10 0/0 1 
a6 c4 a6 1c0007 a8 9d c6000e a7 1c0007 a6 9d c60005 a5 9d c5 00|8 0/0 3 
a8 c4 a6 1c0007 a8 9d c6000e a7 1c0007 a6 9d c60005 a5 9d c5 00|10 0/0 0 
b50800 b7 c4 a6 1c0005 a7 9d c60005 a7 1c0005 a8 9d c60005 a5 9d c5 c2 a6 0800 a7 0800 a8 0800 00|46 0/0 2 3 0 
c5|1 0/0 fault -4: stack underflow$
b50800 b7 c4 c2|4 0/0 fault -22: control structure mismatch$
b50800 b7 b1 c2|4 0/0 fault -22: control structure mismatch$
";

/// The first line whose tokens make something else behind a header, with what they make; nothing where there is none.
pub(crate) fn differing(alloc: Global, lines: &str) -> Result<String, Fail> {
    for line in lines.lines() {
        let (tokens, wanted) = line.split_once('|').unwrap_or(("", ""));
        let digits = format!(in alloc; "f108000000000000{tokens}")?;
        let image = bytes_of(alloc, &digits)?;
        let made = shown(alloc, &image, 2999)?;
        if made.as_str() != wanted {
            return Ok(format!(in alloc; "{line} makes {made}")?);
        }
    }
    Ok(String::new(alloc))
}

#[test]
fn returns(rt: HostRuntime) -> Result<(), Fail> {
    assert_eq!(rt; differing(rt.alloc(), RETURNS)?.as_str(), "");
    Ok(())
}

#[test]
fn executing(rt: HostRuntime) -> Result<(), Fail> {
    assert_eq!(rt; differing(rt.alloc(), EXECUTING)?.as_str(), "");
    Ok(())
}

#[test]
fn defining(rt: HostRuntime) -> Result<(), Fail> {
    assert_eq!(rt; differing(rt.alloc(), DEFINING)?.as_str(), "");
    Ok(())
}

#[test]
fn compiling(rt: HostRuntime) -> Result<(), Fail> {
    assert_eq!(rt; differing(rt.alloc(), COMPILING)?.as_str(), "");
    Ok(())
}

#[test]
fn control(rt: HostRuntime) -> Result<(), Fail> {
    assert_eq!(rt; differing(rt.alloc(), CONTROL)?.as_str(), "");
    Ok(())
}
