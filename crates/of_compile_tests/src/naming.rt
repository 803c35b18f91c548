//! The defining words of a text, by worked lines: `text:value:seven` is `value seven`, `find:` gives the execution
//! token of a name, `does:` what its word keeps with the number of its kind, and `now:` whether it is immediate.

use crate::defining::{Bench, holds};
use std::test::Fail;

/// The words of a line, and behind `->` the cells that are left, or a throw. First what each word makes; then each
/// fault with each word, alone and with the faults that stand behind it.
const LINES: &str = "\
5 text:constant:five find:FIVE does:five -> c000052c 5 2
7 text:value:seven find:seven does:seven -> c0000530 7 3
text:variable:counter find:counter does:counter -> c0000534 100000 4
text:create:table find:table does:table -> c0000538 100004 5
text:defer:later find:later does:later -> c000053c 0 6
9 text:buffer:room find:room does:room -> c0000540 100004 7
2 3 text:field:part find:part does:part -> 5 c0000544 2 8
1 text:constant:Five find:five does:five -> c0000548 1 2
new:800 text:create:next may: find:next does:next -> ffffffff c000054c 100010 5
800 get-token -> throw -256
4 constant 800 get-token kind:800 -> c0000550 0 4 2
now:five now:next now:missing -> 0 0 0
immediate now:five now:next -> 0 0
text:colon:loop open: find:loop may: -> c0000554 0 0
text:colon:next -> throw -29
5 text:value:next -> throw -29
5 text:constant:next -> throw -29
text:variable:next -> throw -29
text:create:next -> throw -29
text:defer:next -> throw -29
5 text:buffer:next -> throw -29
5 5 text:field:next -> throw -29
text:colon: -> throw -29
text:value: -> throw -29
text:constant: -> throw -29
text:variable: -> throw -29
text:create: -> throw -29
text:defer: -> throw -29
text:buffer: -> throw -29
text:field: -> throw -29
; open: find:loop now:loop does:loop -> 0 c0000554 0 0 1
immediate now:loop flag:loop now:next -> ffffffff ffffffff 0
text:value:next -> throw -4
text:value: -> throw -4
text:constant:next -> throw -4
text:constant: -> throw -4
text:buffer:next -> throw -4
text:buffer: -> throw -4
5 text:field:next -> throw -4
5 text:field: -> throw -4
text:colon: -> throw -16
5 text:value: -> throw -16
5 text:constant: -> throw -16
text:variable: -> throw -16
text:create: -> throw -16
text:defer: -> throw -16
5 text:buffer: -> throw -16
5 5 text:field: -> throw -16
text:colon:abcdefghijklmnopqrstuvwxyz123456 -> throw -19
5 text:value:abcdefghijklmnopqrstuvwxyz123456 -> throw -19
5 text:constant:abcdefghijklmnopqrstuvwxyz123456 -> throw -19
text:variable:abcdefghijklmnopqrstuvwxyz123456 -> throw -19
text:create:abcdefghijklmnopqrstuvwxyz123456 -> throw -19
text:defer:abcdefghijklmnopqrstuvwxyz123456 -> throw -19
5 text:buffer:abcdefghijklmnopqrstuvwxyz123456 -> throw -19
5 5 text:field:abcdefghijklmnopqrstuvwxyz123456 -> throw -19
6 text:constant:abcdefghijklmnopqrstuvwxyz12345 find:abcdefghijklmnopqrstuvwxyz12345 -> c0000558
3fff1 text:buffer:more -> throw -8
fffffffc text:buffer: -> throw -16
3fff0 text:buffer:rest does:rest -> 100010 7
text:variable:more -> throw -8
1 text:buffer:more -> throw -8
text:create:last find:last does:last -> c0000560 140000 5
crowd text:variable: -> throw -16
text:colon:next -> throw -8
5 text:value:next -> throw -8
5 text:constant:next -> throw -8
text:variable:next -> throw -8
text:create:next -> throw -8
text:defer:next -> throw -8
5 text:buffer:next -> throw -8
5 5 text:field:next -> throw -8
text:colon: -> throw -16
5 text:value: -> throw -16
5 text:constant: -> throw -16
text:variable: -> throw -16
text:create: -> throw -16
text:defer: -> throw -16
5 text:buffer: -> throw -16
5 5 text:field: -> throw -16
text:value:next -> throw -4
find:next now:loop does:five -> c000054c ffffffff 1 2
";

#[test]
fn lines(rt: HostRuntime) -> Result<(), Fail> {
    let mut bench = Bench::new(rt.alloc())?;
    for line in LINES.lines() {
        assert!(rt; holds(&mut bench, line), "{line}");
    }
    Ok(())
}
