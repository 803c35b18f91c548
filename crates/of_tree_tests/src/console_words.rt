//! The console's ordinary words without an FCode, over the board.

use crate::ordinary::PrintingRows;
use crate::rows::check;
use of_words::{
    console_words_are_sequences, console_words_keep_the_space, console_words_throw_listed,
};
use std::test::Fail;

/// Small sums and differences, each with what it prints, which is nothing, and what it leaves.
const SUMS: &str = "\
%7 1+||8
%ffffffff 1+||0
%1 %7 1+||1 8
*100 1+||256 cells
1+||throws -4
%7 1-||6
%0 1-||ffffffff
%1 %7 1-||1 6
*100 1-||256 cells
1-||throws -4
%7 2+||9
%ffffffff 2+||1
2+||throws -4
%7 2-||5
%1 2-||ffffffff
2-||throws -4
";

/// Words that leave a constant, words over bits, and doubles of cells.
const CONSTANTS: &str = "\
true||ffffffff
*ff true||256 cells
*100 true||256 cells throws -3
%5 false||5 0
*100 false||256 cells throws -3
%5 struct||5 0
*100 struct||256 cells throws -3
%1 %4 <<||10
%80000001 %1 <<||2
%1 %1f <<||80000000
%1 %20 <<||0
%1 <<||1 throws -4
<<||throws -4
%80000000 %4 '>>||8000000
%ffffffff %1f '>>||1
%ffffffff %20 '>>||0
%1 '>>||1 throws -4
'>>||throws -4
%0 not||ffffffff
%5 %f0f0f0f0 not||5 f0f0f0f
not||throws -4
%5 s>d||5 0
%0 s>d||0 0
%7fffffff s>d||7fffffff 0
%80000000 s>d||80000000 ffffffff
%ffffffff s>d||ffffffff ffffffff
*ff s>d||256 cells
*100 s>d||256 cells throws -3
s>d||throws -4
";

/// Products that are divided, as 42 by 4, and 21 and -21 by 2 and by -2. The greatest number squared is 2^62-2^32+1.
const DIVIDED: &str = "\
%7 %6 %4 '*/||a
%fffffff9 %3 %2 '*/||fffffff5
%7 %3 %fffffffe '*/||fffffff5
%fffffff9 %3 %fffffffe '*/||a
%0 %5 %fffffffd '*/||0
%10000 %10000 %10 '*/||10000000
%10000 %10000 %1 '*/||0
%7fffffff %7fffffff %7fffffff '*/||7fffffff
%80000000 %80000000 %80000000 '*/||80000000
%80000000 %ffffffff %1 '*/||80000000
%9 %7 %6 %4 '*/||9 a
*fd %7 %6 %4 '*/||254 cells
%1 %2 %0 '*/||1 2 0 throws -10
%1 %0 '*/||1 0 throws -4
%0 '*/||0 throws -4
'*/||throws -4
%7 %6 %4 '*/mod||2 a
%fffffff9 %3 %2 '*/mod||1 fffffff5
%7 %3 %fffffffe '*/mod||ffffffff fffffff5
%fffffff9 %3 %fffffffe '*/mod||ffffffff a
%12345678 %10000 %10000 '*/mod||0 12345678
%7fffffff %7fffffff %40000000 '*/mod||1 fffffffc
%9 %7 %6 %4 '*/mod||9 2 a
*fd %7 %6 %4 '*/mod||255 cells
%1 %2 %0 '*/mod||1 2 0 throws -10
%1 %0 '*/mod||1 0 throws -4
%0 '*/mod||0 throws -4
'*/mod||throws -4
";

/// Words that print blanks.
const BLANKS: &str = "\
space| |
%5 space| |5
*100 space| |256 cells
%41 emit space %42 emit|A B|
%3 spaces|   |
%41 emit %2 spaces %42 emit|A  B|
%5 %1 spaces| |5
%0 spaces||
%5 %0 spaces||5
%ffffffff spaces||
%80000000 spaces||
*100 spaces||255 cells
spaces||throws -4
";

/// Words that move `here`, which is at 100000 first and at 140000 last.
const MOVED: &str = "\
%5 allot here||100005
%5 allot %fffffffe allot here||100003
%0 allot here||100000
%40000 allot here||140000
%3fffd allot %3 allot here||140000
%3fffd allot %4 allot||4 throws -8
%40001 allot||40001 throws -8
%ffffffff allot||ffffffff throws -8
%7fffffff allot||7fffffff throws -8
%80000000 allot||80000000 throws -8
*100 allot||255 cells
allot||throws -4
align here||100000
%1 allot align here||100004
%2 allot align here||100004
%3 allot align here||100004
%4 allot align here||100004
%5 allot align here||100008
%3fffd allot align here||140000
%40000 allot align here||140000
%11223344 %100000 ! %1 allot align %100000 '@||11223344
*100 align||256 cells
";

/// Bytes that are erased.
const ERASED: &str = "\
%ffffffff %100000 ! %100001 %2 erase %100000 '@||ff0000ff
%5 %100000 %4 erase||5
%13fffc %4 erase||
*fe %100000 %4 erase||254 cells
%100000 %0 erase||
%200000 %0 erase||
%0 %0 erase||
%0 %1 erase||0 1 throws -9
%13ffff %2 erase||13ffff 2 throws -9
%400000 %1 erase||400000 1 throws -9
%100000 %ffffffff erase||100000 ffffffff throws -9
%21ffff %2 erase||21ffff 2 throws -9
%200000 %1 erase||200000 1 throws -20
%600000 %4 erase||600000 4 throws -20
%1 erase||1 throws -4
erase||throws -4
";

/// The cells `base` and behind it, at 500000 and 500004.
const CELLS: &str = "\
decimal %ff .|255 |
decimal %500000 '@||a
%5 decimal||5
*100 decimal||256 cells
decimal hex %ff .|ff |
hex %500000 '@||10
%0 %500000 ! hex %ff .|ff |
*100 hex||256 cells
fcode-debug?||0
%7 %5 %500004 ! fcode-debug?||7 5
*ff fcode-debug?||256 cells
*100 fcode-debug?||256 cells throws -3
";

/// Words on the device tree, whose nodes are `/`, `/packages` and `/slot` at first.
const TREE: &str = "\
@0 pwd|/~|
@2 pwd|/slot~|
@2 *100 pwd|/slot~|256 cells
@2 %5 pwd %41 emit|/slot~A|5
pwd||throws -259
@0 ls|d0000004 packages~d0000008 slot~|
@2 %5 ls||5
ls||throws -259
@2 .properties|name \"slot\"~|
@2 \"v \"x property %1 encode-int \"y property .properties|name \"slot\"~x 76~y 00000001~|
.properties||throws -259
show-devs|/~/packages~/slot~|
@2 %5 show-devs|/~/packages~/slot~|5
@2 new-device \"disk device-name pwd|/slot/disk~|
@2 new-device \"disk device-name finish-device pwd ls|/slot~d000000c disk~|
@2 new-device \"disk device-name show-devs|/~/packages~/slot~/slot/disk~|
@2 pwd device-end pwd|/slot~|throws -259
@2 device-end ls||throws -259
@2 device-end .properties||throws -259
@2 %5 device-end show-devs|/~/packages~/slot~|5
device-end||
";

/// Words that work on more than the board.
const NOT_RUN: &str = "\
immediate||throws -256
']||throws -256
%5 words||5 throws -256
";

#[test]
fn sums(rt: HostRuntime) -> Result<(), Fail> {
    check::<PrintingRows, _>(&rt, rt.alloc(), &[SUMS])
}

#[test]
fn constants(rt: HostRuntime) -> Result<(), Fail> {
    check::<PrintingRows, _>(&rt, rt.alloc(), &[CONSTANTS])
}

#[test]
fn quotients(rt: HostRuntime) -> Result<(), Fail> {
    check::<PrintingRows, _>(&rt, rt.alloc(), &[DIVIDED])
}

#[test]
fn blanks(rt: HostRuntime) -> Result<(), Fail> {
    check::<PrintingRows, _>(&rt, rt.alloc(), &[BLANKS, NOT_RUN])
}

#[test]
fn moves(rt: HostRuntime) -> Result<(), Fail> {
    check::<PrintingRows, _>(&rt, rt.alloc(), &[MOVED])
}

#[test]
fn bytes(rt: HostRuntime) -> Result<(), Fail> {
    check::<PrintingRows, _>(&rt, rt.alloc(), &[ERASED])
}

#[test]
fn trees(rt: HostRuntime) -> Result<(), Fail> {
    check::<PrintingRows, _>(&rt, rt.alloc(), &[TREE])
}

#[test]
fn cells(rt: HostRuntime) -> Result<(), Fail> {
    check::<PrintingRows, _>(&rt, rt.alloc(), &[CELLS])
}

#[test]
fn laws() {
    console_words_are_sequences();
    console_words_throw_listed();
    console_words_keep_the_space();
}
