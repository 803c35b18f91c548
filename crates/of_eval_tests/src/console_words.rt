//! Words of the console that have no FCode, which images run by their execution tokens.

use crate::tokens::differing;
use std::test::Fail;

/// Each line runs one or more of them: `1+` to `2-`, `true`, `false`, `<<`, `>>`, `not`, `struct`, `s>d`, `*/` and
/// `*/mod`.
const NUMBERS: &str = "\
a8 10c0000400 1d 9d 00|5 0/0 4 
a8 10c0000404 1d 9d 00|5 0/0 2 
1000000005 10c0000408 1d 9d 00|5 0/0 7 
a5 10c000040c 1d 9d 00|5 0/0 -2 
10c0000410 1d 9d 00|4 0/0 -1 
10c0000414 1d 9d 00|4 0/0 0 
a6 a8 10c0000418 1d 9d 00|6 0/0 8 
a4 a6 10c000041c 1d 9b 00|6 0/0 7fffffff 
a5 10c0000420 1d 9d 00|5 0/0 -1 
10c0000424 1d 9d 00|4 0/0 0 
a4 10c0000444 1d 9d 9d 00|6 0/0 -1 -1 
a8 10c0000444 1d 9d 9d 00|6 0/0 0 3 
1000000007 a8 a7 10c0000448 1d 9d 00|7 0/0 a 
1000000007 a8 a7 10c000044c 1d 9d 9d 00|8 0/0 a 1 
a6 a7 a5 10c0000448 1d|5 0/0 fault -10: division by zero$
a6 a7 10c000044c 1d|4 0/0 fault -4: stack underflow$
10c0000400 1d|2 0/0 fault -4: stack underflow$
";

#[test]
fn numbers(rt: HostRuntime) -> Result<(), Fail> {
    assert_eq!(rt; differing(rt.alloc(), NUMBERS)?.as_str(), "");
    Ok(())
}

/// `space`, `spaces`, `allot`, `align`, `erase`, `hex`, `decimal`, `device-end`, `pwd`, `ls`,
/// `.properties`, `show-devs` and `fcode-debug?`.
const BOARD: &str = "\
10c0000428 1d a6 9d 00|5 0/0  1 
a8 10c000042c 1d a6 9d 00|6 0/0    1 
a4 10c000042c 1d a6 9d 00|6 0/0 1 
ad a8 10c0000430 1d ad 9b 9b 00|8 0/0 100003 100000 
a4 10c0000430 1d|3 0/0 fault -8: dictionary overflow$
a6 10c0000430 1d 10c0000434 1d ad 9b 00|8 0/0 100004 
a4 ad 72 ad a7 10c0000438 1d ad 6d 9b 00|11 0/0 ffff 
10c0000440 1d 100000000c 9d 00|5 0/0 12 
10c0000440 1d 10c000043c 1d 100000000c 9d 00|7 0/0 c 
10c0000460 1d 00|3 0/0 /slot$
10c0000464 1d 00|3 0/0 
10c0000468 1d 00|3 0/0 name \"slot\"$
10c000045c 1d 10c0000468 1d|4 0/0 fault -259: no such node$
10c0000450 1d 9d 00|4 0/0 0 
a4 1000500004 72 10c0000450 1d 9d 00|7 0/0 -1 
011f 12046469736b 0201 0127 10c0000464 1d 00|7 0/0 d000000c disk$
10c000046c 1d 00|3 0/0 /$/packages$/slot$
10c000045c 1d 10c0000460 1d|4 0/0 fault -259: no such node$
10c000045c 1d 10c0000464 1d|4 0/0 fault -259: no such node$
";

#[test]
fn board(rt: HostRuntime) -> Result<(), Fail> {
    assert_eq!(rt; differing(rt.alloc(), BOARD)?.as_str(), "");
    Ok(())
}
