//! `$find`, `immediate`, `]` and `words`, which images run by their tokens or by their execution tokens.

use crate::running::{bytes_of, is_immediate_left};
use crate::tokens::differing;
use std::alloc::Global;
use std::test::Fail;

/// What names find: written words whatever the case, methods of the active package, global words where none hides
/// them; and names that find nothing, as those do that only images have. The stack has room for `false` or not.
const FINDING: &str = "\
1203647570 cb 9d 9b 00|5 0/0 -1 c0000130 
1203445570 cb 9d 9b 00|5 0/0 -1 c0000130 
1203647570 10c00002fc 1d 9d 9b 00|6 0/0 -1 c0000130 
12027a7a cb 9d 9d 9b 00|6 0/0 0 2 60000a 
120662286c697429 cb 9d 9d 9b 00|6 0/0 0 6 60000a 
a5 a5 cb 9d 9d 9d 00|7 0/0 0 0 0 
a5 a6 cb|3 0/0 fault -9: invalid memory address$
cb|1 0/0 fault -4: stack underflow$
a5 cb|2 0/0 fault -4: stack underflow$
10000000fe a5 17 0000 19 15fffe a5 a5 cb|514 0/0 fault -3: stack overflow$
10000000fe a5 17 0000 19 15fffe 1203647570 cb 9d 9b 00|516 254/0 -1 c0000130 
a6 ca01780800 ba 120178 cb 9d 9b 00|8 0/0 -1 c000052c 
10c000045c 1d a6 ca01780800 ba 120158 cb 9d 9b 00|10 0/0 -1 c000052c 
10c000045c 1d a6 ca036475700800 ba 1203647570 cb 9d 9b 00|10 0/0 -1 c000052c 
a6 ca01780800 ba 011f 10c000045c 1d a7 ca01780801 ba 120178 cb 9d 9b 0127 120178 cb 9d 9b 00\
|19 0/0 -1 c0000530 -1 c000052c 
";

#[test]
fn finding(rt: HostRuntime) -> Result<(), Fail> {
    assert_eq!(rt; differing(rt.alloc(), FINDING)?.as_str(), "");
    Ok(())
}

/// `immediate` touches no token, so one of its word is appended as before; `]` goes on where a definition is open.
const COMPILING: &str = "\
10c0000454 1d|2 0/0 fault -263: bad handle$
b50800 b7 a6 9d c2 10c0000454 1d b50801 b7 0800 c2 a7 9d 0801 00|20 0/0 2 1 
b50800 b9 10c0000454 1d 1000000800 da 9d 46 00|9 0/0 0 
10c0000458 1d|2 0/0 fault -14: compile-only word$
10c0000458 0217 9d dc 6d 9d 00|7 0/0 -e 0 
10c0000458 a4 1000000800 db b50801 b7 0800 a6 9d c2 a7 9d 0801 00|17 0/0 2 1 
b50800 b7 10c0000458 1d dc 6d 9d c2 110800 a4 1000000800 db b50801 b7 0800 c2 00|23 0/0 -1 
";

#[test]
fn compiling(rt: HostRuntime) -> Result<(), Fail> {
    assert_eq!(rt; differing(rt.alloc(), COMPILING)?.as_str(), "");
    Ok(())
}

/// `words` prints the methods of the active package, or else the global words: each name once, at the place where it
/// was first given, the newest place first, and as it was spelt last. A nameless word has none, and a method is no
/// global word.
const NAMES: &str = "\
10c0000470 1d 00|3 0/0 $
a6 ca01780800 ba 10c0000470 1d 00|6 0/0 x $
a6 ca01780800 ba a7 ca01790801 ba 10c0000470 1d 00|9 0/0 y x $
a6 ca01780800 ba a7 ca01790801 ba a8 ca01580802 ba 10c0000470 1d 00|12 0/0 y X $
a6 b50800 ba 10c0000470 1d 00|6 0/0 $
ca01780800 b7 10c0000470 1d c2 0800 00|10 0/0 x $
10c000045c 1d 10c0000470 1d 00|5 0/0 $
10c000045c 1d a6 ca01780800 ba a7 ca01790801 ba 10c0000470 1d 00|11 0/0 y x $
10c000045c 1d a6 ca01780800 ba a7 ca01790801 ba a8 ca01580802 ba 10c0000470 1d 00|14 0/0 y X $
a6 ca01780800 ba 10c000045c 1d 10c0000470 1d 00|8 0/0 $
";

#[test]
fn names(rt: HostRuntime) -> Result<(), Fail> {
    assert_eq!(rt; differing(rt.alloc(), NAMES)?.as_str(), "");
    Ok(())
}

/// Tokens behind a header, the execution token of an own word, and whether that is executed while words are compiled.
const IMMEDIATE: &str = "\
b50800 b9 00|c000052c|no
b50800 b9 10c0000454 1d 00|c000052c|yes
b50800 b9 b50801 b9 10c0000454 1d 00|c000052c|no
b50800 b9 b50801 b9 10c0000454 1d 00|c0000530|yes
b50800 b9 10c0000454 1d b50801 b9 00|c000052c|yes
b50800 b9 10c0000454 1d b50801 b9 00|c0000530|no
";

/// The first line whose image leaves its word otherwise; nothing where there is none.
fn otherwise_left(alloc: Global, lines: &str) -> Result<String, Fail> {
    for line in lines.lines() {
        let mut parts = line.split('|');
        let tokens = parts.next().unwrap_or("");
        let xt = u32::from_str_radix(parts.next().unwrap_or(""), 16)?;
        let wanted = parts.next() == Some("yes");
        let image = bytes_of(alloc, &format!(in alloc; "f108000000000000{tokens}")?)?;
        if is_immediate_left(alloc, &image, xt)? != wanted {
            return Ok(line.to_string(alloc)?);
        }
    }
    Ok(String::new(alloc))
}

/// `immediate` marks the newest word, and no other.
#[test]
fn immediate(rt: HostRuntime) -> Result<(), Fail> {
    assert_eq!(rt; otherwise_left(rt.alloc(), IMMEDIATE)?.as_str(), "");
    Ok(())
}
