//! Images whose steps ask the outside: what is asked, and what a run leaves, whose questions get these answers.
use crate::rows::{Rows, check, halves};
use crate::shared::{after_answers, bytes_of, image_of, push_bytes};
use of_asking::{Answer, Query};
use of_machine::{End, ScriptMachine};
use std::alloc::Global;
use std::test::Fail;

/// Whole images, behind `|` the answers to their questions, and behind a second one what their runs of 999 steps at
/// most leave: the steps, the end and the depth of the return stack; the console; all questions; and the data stack.
/// The end is `done`, `limit`, or `out` where no answer fits. An answer is `done`, `fault` or a number.
const ROWS: &str = "\
f108016300000011108000000002349d00|5|4 done 0|5 |read 4 80000000|
f108016300000011108000000002349d00|0|4 done 0|0 |read 4 80000000|
f108016300000011108000000002349d00|fault|2 done 0|fault -258: bus fault$|read 4 80000000|
f108016300000011108000000002349d00||1 out 2||read 4 80000000|80000000
f108016300000011108000000002349d00|done|1 out 2||read 4 80000000|80000000
f108000000000000 1080000000 0222 9d 00|fault|4 done 0|0 |peek 4 80000000|
f108000000000000 1080000000 0222 9d 00||1 out 2||peek 4 80000000|80000000
f108000000000000 1080000000 0230 9d 00|1ff|1 out 2||read 1 80000000|80000000
f108000000000000 1080000000 47 1000000005 49 0225 9d 46 00|fault|8 done 0|0 |poke 4 80000000 5|
f108000000000000 1080000000 47 1000000005 49 0225 9d 46 00|done|8 done 0|-1 |poke 4 80000000 5|
f108000000000000 1080000001 0234 00||2 done 0|fault -23: address alignment exception$||
f108000000000000 1000000005 1080000000 0231 1080000000 0230 9d 0125 9d 00|done 5 0|9 done 0|5 0 |\
write 1 80000000 5, read 1 80000000, get-msecs|
";

/// Tokens behind a header, and in the same way what they leave: each word that asks, with each kind of answer that
/// fits. The number to be written is cut to the width.
const FITTING: &str = "\
1080000001 0230 00|0|3 done 0||read 1 80000001|0
1080000001 0230 00|ff|3 done 0||read 1 80000001|ff
1080000001 0230 00|fault|2 done 0|fault -258: bus fault$|read 1 80000001|
1080000002 0232 00|ffff|3 done 0||read 2 80000002|ffff
1080000002 0232 00|fault|2 done 0|fault -258: bus fault$|read 2 80000002|
1080000004 0234 00|ffffffff|3 done 0||read 4 80000004|ffffffff
1080000004 0234 00|fault|2 done 0|fault -258: bus fault$|read 4 80000004|
10bffffffc 0234 00|5|3 done 0||read 4 bffffffc|5
1012345678 1080000001 0231 00|done|4 done 0||write 1 80000001 78|
1012345678 1080000001 0231 00|fault|3 done 0|fault -258: bus fault$|write 1 80000001 78|
1012345678 1080000002 0233 00|done|4 done 0||write 2 80000002 5678|
1012345678 1080000002 0233 00|fault|3 done 0|fault -258: bus fault$|write 2 80000002 5678|
1012345678 1080000004 0235 00|done|4 done 0||write 4 80000004 12345678|
1012345678 1080000004 0235 00|fault|3 done 0|fault -258: bus fault$|write 4 80000004 12345678|
1080000003 0220 00|ff|3 done 0||peek 1 80000003|ff ffffffff
1080000003 0220 00|fault|3 done 0||peek 1 80000003|0
1080000006 0221 00|ffff|3 done 0||peek 2 80000006|ffff ffffffff
1080000006 0221 00|fault|3 done 0||peek 2 80000006|0
1080000008 0222 00|0|3 done 0||peek 4 80000008|0 ffffffff
1080000008 0222 00|fault|3 done 0||peek 4 80000008|0
10fedcba98 1080000003 0223 00|done|4 done 0||poke 1 80000003 98|ffffffff
10fedcba98 1080000003 0223 00|fault|4 done 0||poke 1 80000003 98|0
10fedcba98 1080000006 0224 00|done|4 done 0||poke 2 80000006 ba98|ffffffff
10fedcba98 1080000006 0224 00|fault|4 done 0||poke 2 80000006 ba98|0
10fedcba98 1080000008 0225 00|done|4 done 0||poke 4 80000008 fedcba98|ffffffff
10fedcba98 1080000008 0225 00|fault|4 done 0||poke 4 80000008 fedcba98|0
8e 00|0|2 done 0||key|0
8e 00|ff|2 done 0||key|ff
8d 00|0|2 done 0||key?|0
8d 00|1|2 done 0||key?|ffffffff
0125 00|0|2 done 0||get-msecs|0
0125 00|ffffffff|2 done 0||get-msecs|ffffffff
a5 0126 00|done|3 done 0||ms 0|
10fffffffe 0126 00|done|3 done 0||ms fffffffe|
";

/// The same where the answer doesn't fit, or is missing: all operands stay, and the question is open.
const MISFITS: &str = "\
1080000001 0230 00||1 out 2||read 1 80000001|80000001
1080000001 0230 00|100|1 out 2||read 1 80000001|80000001
1080000001 0230 00|done|1 out 2||read 1 80000001|80000001
1080000002 0232 00||1 out 2||read 2 80000002|80000002
1080000002 0232 00|10000|1 out 2||read 2 80000002|80000002
1080000002 0232 00|done|1 out 2||read 2 80000002|80000002
1080000004 0234 00||1 out 2||read 4 80000004|80000004
1080000004 0234 00|done|1 out 2||read 4 80000004|80000004
1012345678 1080000001 0231 00||2 out 2||write 1 80000001 78|12345678 80000001
1012345678 1080000001 0231 00|78|2 out 2||write 1 80000001 78|12345678 80000001
1012345678 1080000002 0233 00||2 out 2||write 2 80000002 5678|12345678 80000002
1012345678 1080000002 0233 00|0|2 out 2||write 2 80000002 5678|12345678 80000002
1012345678 1080000004 0235 00||2 out 2||write 4 80000004 12345678|12345678 80000004
1012345678 1080000004 0235 00|1|2 out 2||write 4 80000004 12345678|12345678 80000004
1080000003 0220 00||1 out 2||peek 1 80000003|80000003
1080000003 0220 00|100|1 out 2||peek 1 80000003|80000003
1080000003 0220 00|done|1 out 2||peek 1 80000003|80000003
1080000006 0221 00||1 out 2||peek 2 80000006|80000006
1080000006 0221 00|10000|1 out 2||peek 2 80000006|80000006
1080000006 0221 00|done|1 out 2||peek 2 80000006|80000006
1080000008 0222 00||1 out 2||peek 4 80000008|80000008
1080000008 0222 00|done|1 out 2||peek 4 80000008|80000008
10fedcba98 1080000003 0223 00||2 out 2||poke 1 80000003 98|fedcba98 80000003
10fedcba98 1080000003 0223 00|98|2 out 2||poke 1 80000003 98|fedcba98 80000003
10fedcba98 1080000006 0224 00||2 out 2||poke 2 80000006 ba98|fedcba98 80000006
10fedcba98 1080000006 0224 00|1|2 out 2||poke 2 80000006 ba98|fedcba98 80000006
10fedcba98 1080000008 0225 00||2 out 2||poke 4 80000008 fedcba98|fedcba98 80000008
10fedcba98 1080000008 0225 00|0|2 out 2||poke 4 80000008 fedcba98|fedcba98 80000008
8e 00||0 out 2||key|
8e 00|100|0 out 2||key|
8e 00|done|0 out 2||key|
8e 00|fault|0 out 2||key|
8d 00||0 out 2||key?|
8d 00|2|0 out 2||key?|
8d 00|done|0 out 2||key?|
8d 00|fault|0 out 2||key?|
0125 00||0 out 2||get-msecs|
0125 00|done|0 out 2||get-msecs|
0125 00|fault|0 out 2||get-msecs|
1000000005 0126 00||1 out 2||ms 5|5
1000000005 0126 00|5|1 out 2||ms 5|5
1000000005 0126 00|fault|1 out 2||ms 5|5
";

/// Addresses of the data space ask nothing, and take no answer.
const SPACE: &str = "\
1012345678 1000100000 72 1000100000 0234 00|5|6 done 0|||12345678
1012345678 1000100000 72 1000100002 0232 00||6 done 0|||5678
1012345678 1000100000 72 1000100003 0230 00|fault|6 done 0|||78
1012345678 1000100000 0235 1000100000 6d 00|fault|6 done 0|||12345678
1012345678 1000100000 0233 1000100000 6d 00||6 done 0|||56780000
1012345678 1000100001 0231 1000100000 6d 00|done|6 done 0|||780000
1012345678 1000100000 72 1000100000 0222 00||6 done 0|||12345678 ffffffff
1012345678 1000100000 72 1000100000 0221 00||6 done 0|||1234 ffffffff
1012345678 1000100000 72 1000100001 0220 00|fault|6 done 0|||34 ffffffff
1012345678 1000100000 0225 1000100000 6d 00||6 done 0|||ffffffff 12345678
1012345678 1000100000 0224 1000100000 6d 00||6 done 0|||ffffffff 56780000
1012345678 1000100001 0223 1000100000 6d 00|fault|6 done 0|||ffffffff 780000
1000100000 0230 8e 00|41|4 done 0||key|0 41
";

/// Faults that come before any question: -4, -9, -23 and -20; peeks and pokes answer false for -9 and -20.
const REFUSED: &str = "\
0230 00||1 done 0|fault -4: stack underflow$||
a6 0231 00||2 done 0|fault -4: stack underflow$||
0220 00||1 done 0|fault -4: stack underflow$||
a6 0225 00||2 done 0|fault -4: stack underflow$||
0126 00|done|1 done 0|fault -4: stack underflow$||
1080000001 0232 00|5|2 done 0|fault -23: address alignment exception$||
1080000002 0234 00||2 done 0|fault -23: address alignment exception$||
a6 1080000001 0233 00|done|3 done 0|fault -23: address alignment exception$||
a6 1080000002 0235 00||3 done 0|fault -23: address alignment exception$||
1080000001 0221 00|fault|2 done 0|fault -23: address alignment exception$||
1080000002 0222 00||2 done 0|fault -23: address alignment exception$||
a6 1080000001 0224 00|fault|3 done 0|fault -23: address alignment exception$||
a6 1080000002 0225 00||3 done 0|fault -23: address alignment exception$||
1000100001 0232 00||2 done 0|fault -23: address alignment exception$||
a6 1000100002 0235 00||3 done 0|fault -23: address alignment exception$||
1000100001 0221 00||2 done 0|fault -23: address alignment exception$||
a6 1000100001 0224 00||3 done 0|fault -23: address alignment exception$||
107fffffff 0230 00||2 done 0|fault -9: invalid memory address$||
10c0000000 0230 00|5|2 done 0|fault -9: invalid memory address$||
10bfffffff 0232 00||2 done 0|fault -9: invalid memory address$||
107ffffffe 0234 00||2 done 0|fault -9: invalid memory address$||
10bffffffd 0234 00||2 done 0|fault -9: invalid memory address$||
a6 10c0000000 0231 00||3 done 0|fault -9: invalid memory address$||
a6 10bfffffff 0233 00||3 done 0|fault -9: invalid memory address$||
a6 10bffffffe 0235 00||3 done 0|fault -9: invalid memory address$||
1000140000 0230 00||2 done 0|fault -9: invalid memory address$||
a6 1000140000 0231 00||3 done 0|fault -9: invalid memory address$||
a6 1000600000 0231 00||3 done 0|fault -20: write to a read-only location$||
a6 1000200000 0235 00||3 done 0|fault -20: write to a read-only location$||
10c0000000 0220 00|5|3 done 0|||0
10bfffffff 0221 00||3 done 0|||0
10bffffffd 0222 00||3 done 0|||0
1000140000 0220 00||3 done 0|||0
a6 10c0000000 0223 00|done|4 done 0|||0
a6 10bfffffff 0224 00||4 done 0|||0
a6 1000600000 0223 00||4 done 0|||0
a6 1000200000 0225 00||4 done 0|||0
";

/// A loop fills the stack with 255 cells or 256: -3 comes before the question, but where a peek finds a number.
const FULL: &str = "\
1000000100 a5 17 0006 19 15 fffe 8e 00|41|516 done 0|fault -3: stack overflow$||
1000000100 a5 17 0006 19 15 fffe 8d 00||516 done 0|fault -3: stack overflow$||
1000000100 a5 17 0006 19 15 fffe 0125 00||516 done 0|fault -3: stack overflow$||
1000000100 a5 17 0006 19 15 fffe 0126 00|done|517 done 0||ms ff|255 cells
10000000ff a5 17 0006 19 15 fffe 8e 00|41|515 done 0||key|256 cells
10000000ff a5 17 0006 19 15 fffe 8e 00||513 out 2||key|255 cells
10000000ff a5 17 0006 19 15 fffe 1080000001 0230 00|5|516 done 0||read 1 80000001|256 cells
10000000ff a5 17 0006 19 15 fffe 1080000001 0220 00|5|515 done 0|fault -3: stack overflow$|peek 1 80000001|
10000000ff a5 17 0006 19 15 fffe 1080000001 0220 00|fault|516 done 0||peek 1 80000001|256 cells
10000000ff a5 17 0006 19 15 fffe 1080000001 0220 00||514 out 2||peek 1 80000001|256 cells
";

/// `execute`, a defer and a definition run the word that asks. Only a definition makes a step of it of its own.
const EXECUTED: &str = "\
1080000000 11 0234 1d 00|5|4 done 0||read 4 80000000|5
1080000000 11 0234 1d 00|fault|3 done 0|fault -258: bus fault$|read 4 80000000|
1080000000 11 0234 1d 00||2 out 2||read 4 80000000|80000000 c00003e8
1080000000 11 0234 11 1d 1d 00|5|5 done 0||read 4 80000000|5
1080000000 11 0234 11 1d 1d 00|done|3 out 2||read 4 80000000|80000000 c00003e8 c000018c
1012345678 1080000001 11 0231 1d 00|done|5 done 0||write 1 80000001 78|
1012345678 1080000001 11 0231 1d 00|5|3 out 2||write 1 80000001 78|12345678 80000001 c00003ec
b50800 bc 11 8e c3 0800 0800 00|41|6 done 0||key|41
b50800 bc 11 8e c3 0800 0800 00||4 out 2||key|
b50800 bc b50801 bc 11 8e c3 0800 11 0800 c3 0801 0801 00|41|10 done 0||key|41
b50800 b7 8e c2 00|41|5 done 0|||
b50800 b7 8e c2 0800 00|41|8 done 0||key|41
b50800 b7 8e c2 0800 00||5 out 3||key|
b50800 b7 0234 c2 1080000000 0800 00|fault|7 done 0|fault -258: bus fault$|read 4 80000000|
b50800 b7 0234 c2 1080000000 0800 00|done|6 out 3||read 4 80000000|80000000
120af1080000000000008e00 46 a6 023e 00|41|7 done 0||key|41
120af1080000000000008e00 46 a6 023e 00||4 out 4||key|
";

/// `catch` catches a bus fault, and its handler is gone then. While the question is open there is no handler, unless
/// the word that asks stands in a definition.
const CAUGHT: &str = "\
1080000000 11 0234 0217 00|5|4 done 0||read 4 80000000|5 0
1080000000 11 0234 0217 00|fault|4 done 0||read 4 80000000|80000000 fffffefe
1080000000 11 0234 0217 00||2 out 2||read 4 80000000|80000000 c00003e8
1080000000 11 0234 0217 00|done|2 out 2||read 4 80000000|80000000 c00003e8
1012345678 1080000000 11 0235 0217 00|done|5 done 0||write 4 80000000 12345678|0
1012345678 1080000000 11 0235 0217 00|fault|5 done 0||write 4 80000000 12345678|12345678 80000000 fffffefe
1080000001 11 0220 0217 00|fault|4 done 0||peek 1 80000001|0 0
1080000000 11 0234 0217 a4 0218 00|fault|5 done 0|fault -1: abort$|read 4 80000000|
1080000000 11 0234 11 0217 0217 00|fault|5 done 0||read 4 80000000|80000000 fffffefe 0
1080000000 11 0234 11 0217 0217 00||3 out 2||read 4 80000000|80000000 c00003e8 c0000328
1080000000 11 0234 11 1d 0217 00|fault|5 done 0||read 4 80000000|80000000 0 fffffefe
b50800 b7 0234 c2 1080000000 11 0800 0217 00|5|10 done 0||read 4 80000000|5 0
b50800 b7 0234 c2 1080000000 11 0800 0217 00|fault|9 done 0||read 4 80000000|80000000 fffffefe
b50800 b7 0234 c2 1080000000 11 0800 0217 00||7 out 4||read 4 80000000|80000000
10000000ff a5 17 0006 19 15 fffe 11 8e 0217 9d 00|41|517 done 0|-3 |key|255 cells
";

/// Methods that ask: called as a defer, in the step of the call; or as a definition, in one of its own.
const METHODS: &str = "\
1080000000 11 0234 0203 0208 00|5|5 done 0||read 4 80000000|5
1080000000 11 0234 0203 0208 00|fault|4 done 0|fault -258: bus fault$|read 4 80000000|
1080000000 11 0234 0203 0208 00||3 out 2||read 4 80000000|80000000 c00003e8 e0000000
011f 1080000000 11 0234 020a 0208 0203 00|5|7 done 0||read 4 80000000|5 e0000004
011f 1080000000 11 0234 020a 11 0208 0217 0203 00|fault|8 done 0||read 4 80000000|80000000 0 0 fffffefe e0000004
ca016d0800 bc 11 0234 c3 0800 1080000000 12016d 0203 020e 00|5|9 done 0||read 4 80000000|5
ca016d0800 bc 11 0234 c3 0800 1080000000 12016d 0203 020e 00||7 out 2||read 4 80000000|80000000 60001b 1 e0000000
ca016d0800 b7 0234 c2 1080000000 12016d 0203 020e 00|5|11 done 0||read 4 80000000|5
ca016d0800 b7 0234 c2 1080000000 12016d 0203 020e 00||8 out 4||read 4 80000000|80000000
ca016d0800 bc 11 8e c3 0800 011f 12016d 0209 0203 00|41|9 done 0||key|41 e0000004
ca016d0800 bc 11 8e c3 0800 011f 12016d 0209 0203 00||6 out 2||key|600017 1
ca05636c6f73650800 bc 11 8e c3 0800 0203 0206 00|41|7 done 0||key|41
ca05636c6f73650800 bc 11 8e c3 0800 0203 0206 00||5 out 2||key|e0000000
ca05636c6f73650800 bc 11 8e c3 0800 0203 0206 0203 020b 00|41|8 done 0|fault -260: no such instance$|key|
ca05636c6f73650800 bc 11 0234 c3 0800 1080000000 0203 11 0206 0217 0203 020b 00|fault|\
11 done 0||read 4 80000000|80000000 0 fffffefe d0000008
";

/// `open-package` where `open` is a defer to a word that asks: the answer is its flag. No instance is made before.
const OPENED: &str = "\
ca046f70656e0800 bc 11 8e c3 0800 a5 a5 0203 020b 0205 00|41|10 done 0||key|e0000004
ca046f70656e0800 bc 11 8e c3 0800 a5 a5 0203 020b 0205 00|0|10 done 0||key|0
ca046f70656e0800 bc 11 8e c3 0800 a5 a5 0203 020b 0205 00||8 out 2||key|0 0 d0000008
ca046f70656e0800 bc 11 8e c3 0800 a5 a5 0203 020b 0205 00|done|8 out 2||key|0 0 d0000008
ca046f70656e0800 bc 11 8e c3 0800 a5 a5 0203 020b 0205 46 10e0000004 020b 00|41|13 done 0||key|d0000008
ca046f70656e0800 bc 11 8e c3 0800 a5 a5 0203 020b 0205 46 10e0000004 020b 00|0|\
12 done 0|fault -260: no such instance$|key|
ca046f70656e0800 bc 11 0234 c3 0800 1080000000 a5 a5 0203 020b 0205 00|5|11 done 0||read 4 80000000|e0000004
ca046f70656e0800 bc 11 0234 c3 0800 1080000000 a5 a5 0203 020b 0205 00|0|11 done 0||read 4 80000000|0
ca046f70656e0800 bc 11 0234 c3 0800 1080000000 a5 a5 0203 020b 0205 00|fault|\
10 done 0|fault -258: bus fault$|read 4 80000000|
ca046f70656e0800 bc 11 0234 c3 0800 1080000000 a5 a5 0203 020b 0205 00||\
9 out 2||read 4 80000000|80000000 0 0 d0000008
ca046f70656e0800 bc 11 0234 c3 0800 1080000000 a5 a5 0203 020b 11 0205 0217 10e0000004 020b 0203 00|fault|\
15 done 0||read 4 80000000|80000000 0 0 0 fffffefe d0000008 e0000000
ca046f70656e0800 bc 11 0126 c3 0800 a8 a5 a5 0203 020b 0205 00|done|10 done 0|fault -4: stack underflow$|ms 3|
ca046f70656e0800 bc 11 0126 c3 0800 a6 a8 a5 a5 0203 020b 0205 00|done|12 done 0||ms 3|e0000004
ca046f70656e0800 b7 8e c2 a5 a5 0203 020b 0205 00|41|12 done 0||key|e0000004
ca046f70656e0800 b7 8e c2 a5 a5 0203 020b 0205 00||9 out 4||key|
011f ca046f70656e0800 bc 11 8e c3 0800 0127 ca046f70656e0801 bc 11 0205 c3 0801 \
a5 a5 10d000000c a5 a5 0203 020b 0205 00|41|19 done 0||key|e0000008
011f ca046f70656e0800 bc 11 8e c3 0800 0127 ca046f70656e0801 bc 11 0205 c3 0801 \
a5 a5 10d000000c a5 a5 0203 020b 0205 00||17 out 2||key|0 0 d000000c 0 0 d0000008
ca046f70656e0800 bc 11 1d c3 0800 11 8e a5 a5 0203 020b 0205 00|41|11 done 0||key|e0000004
ca046f70656e0800 bc 11 1d c3 0800 11 8e a5 a5 0203 020b 0205 00||9 out 2||key|c0000270 0 0 d0000008
ca046f70656e0800 bc 11 0217 c3 0800 1080000000 11 0234 a5 a5 0203 020b 0205 00|fault|\
12 done 0||read 4 80000000|80000000 e0000004
ca046f70656e0800 bc 11 0217 c3 0800 1080000000 11 0234 a5 a5 0203 020b 0205 00|5|12 done 0||read 4 80000000|5 0
";

/// The k-th question gets the k-th answer, while answers fit.
const SEVERAL: &str = "\
8e 8e 00|41 42|3 done 0||key, key|41 42
8e 8e 00|41|1 out 2||key, key|41
8e 8e 8e 00|41 done 43|1 out 2||key, key|41
8e 00|41 done 42|2 done 0||key|41
a8 a5 17 0006 8e 15 fffe 00|41 42 43|10 done 0||key, key, key|41 42 43
a8 a5 17 0006 8e 15 fffe 00|41 42|7 out 3||key, key, key|41 42
1080000000 11 0234 0217 8e 00|fault 41|5 done 0||read 4 80000000, key|80000000 fffffefe 41
1080000000 0234 8e 00|fault 41|2 done 0|fault -258: bus fault$|read 4 80000000|
a8 9d 8e 00||2 out 2|3 |key|
";

/// The answer that a word stands for: `done`, `fault`, or a number in hexadecimal digits.
pub(crate) fn answer_of(word: &str) -> Result<Answer, Fail> {
    Ok(match word {
        "done" => Answer::Done,
        "fault" => Answer::BusFault,
        digits => Answer::Value(u32::from_str_radix(digits, 16)?),
    })
}

/// The answers that the words of a text stand for.
pub(crate) fn answers_of(alloc: Global, text: &str) -> Result<Vec<Answer>, Fail> {
    let mut answers = Vec::new(alloc);
    for word in text.split_whitespace() {
        answers.push(answer_of(word)?)?;
    }
    Ok(answers)
}

/// Appends a question: its kind; and its width in bytes, its address and its number, where it has them.
pub(crate) fn push_query(text: &mut String, query: Query) -> Result<(), Fail> {
    match query {
        Query::Read(width, a) => write!(text, "read {} {:x}", width.bytes(), a.0)?,
        Query::Write(width, a, x) => write!(text, "write {} {:x} {:x}", width.bytes(), a.0, x.0)?,
        Query::Peek(width, a) => write!(text, "peek {} {:x}", width.bytes(), a.0)?,
        Query::Poke(width, a, x) => write!(text, "poke {} {:x} {:x}", width.bytes(), a.0, x.0)?,
        Query::Key => text.push_str("key")?,
        Query::KeyReady => text.push_str("key?")?,
        Query::Milliseconds => text.push_str("get-msecs")?,
        Query::Wait(n) => write!(text, "ms {:x}", n.0)?,
    }
    Ok(())
}

/// Appends all questions so far.
fn push_asked(text: &mut String, machine: &ScriptMachine) -> Result<(), Fail> {
    for (place, query) in machine.asked().iter().enumerate() {
        if place != 0 {
            text.push_str(", ")?;
        }
        push_query(text, *query)?;
    }
    Ok(())
}

/// Appends the data stack, of a large one how many cells it has.
pub(crate) fn push_stack(text: &mut String, machine: &ScriptMachine) -> Result<(), Fail> {
    let cells = machine.stack();
    if cells.len() > 8 {
        write!(text, "{} cells", cells.len())?;
        return Ok(());
    }
    for (place, cell) in cells.iter().enumerate() {
        if place != 0 {
            text.push(' ')?;
        }
        write!(text, "{:x}", cell.0)?;
    }
    Ok(())
}

/// What the end of a run is called.
pub(crate) fn mark(end: End) -> &'static str {
    match end {
        End::Done => "done",
        End::LimitReached => "limit",
        End::AnswersOut => "out",
    }
}

/// Appends what a run leaves.
fn push_left(text: &mut String, machine: &ScriptMachine, end: End) -> Result<(), Fail> {
    write!(
        text,
        "{} {} {}|",
        machine.steps(),
        mark(end),
        machine.depth()
    )?;
    push_bytes(text, machine.console())?;
    text.push('|')?;
    push_asked(text, machine)?;
    text.push('|')?;
    push_stack(text, machine)
}

/// What a run leaves.
pub(crate) fn left(alloc: Global, machine: &ScriptMachine, end: End) -> Result<String, Fail> {
    let mut text = String::new(alloc);
    push_left(&mut text, machine, end)?;
    Ok(text)
}

/// What the run of an image leaves whose questions get these answers.
fn left_by(alloc: Global, image: &[u8], answers: &[Answer]) -> Result<String, Fail> {
    after_answers(alloc, image, answers, 999, |run| left(alloc, &run.0, run.1))
}

/// Whole images, the answers to their questions, and what their runs leave.
struct ImageRows;

impl Rows for ImageRows {
    fn given<'a>(alloc: Global, line: &'a str) -> Result<(String, &'a str), Fail> {
        let (digits, rest) = halves(line);
        let (answers, wanted) = halves(rest);
        let image = bytes_of(alloc, digits)?;
        Ok((
            left_by(alloc, &image, &answers_of(alloc, answers)?)?,
            wanted,
        ))
    }
}

/// The same of tokens behind a header.
struct TokenRows;

impl Rows for TokenRows {
    fn given<'a>(alloc: Global, line: &'a str) -> Result<(String, &'a str), Fail> {
        let (tokens, rest) = halves(line);
        let (answers, wanted) = halves(rest);
        let image = image_of(alloc, tokens)?;
        Ok((
            left_by(alloc, &image, &answers_of(alloc, answers)?)?,
            wanted,
        ))
    }
}

#[test]
fn rows(rt: HostRuntime) -> Result<(), Fail> {
    check::<ImageRows, _>(&rt, rt.alloc(), ROWS)
}

#[test]
fn answers_fit(rt: HostRuntime) -> Result<(), Fail> {
    check::<TokenRows, _>(&rt, rt.alloc(), FITTING)
}

#[test]
fn answers_do_not_fit(rt: HostRuntime) -> Result<(), Fail> {
    check::<TokenRows, _>(&rt, rt.alloc(), MISFITS)
}

#[test]
fn nothing_is_asked(rt: HostRuntime) -> Result<(), Fail> {
    check::<TokenRows, _>(&rt, rt.alloc(), SPACE)?;
    check::<TokenRows, _>(&rt, rt.alloc(), REFUSED)
}

#[test]
fn stacks_are_full(rt: HostRuntime) -> Result<(), Fail> {
    check::<TokenRows, _>(&rt, rt.alloc(), FULL)
}

#[test]
fn other_words_run_words_that_ask(rt: HostRuntime) -> Result<(), Fail> {
    check::<TokenRows, _>(&rt, rt.alloc(), EXECUTED)?;
    check::<TokenRows, _>(&rt, rt.alloc(), CAUGHT)
}

#[test]
fn methods_ask(rt: HostRuntime) -> Result<(), Fail> {
    check::<TokenRows, _>(&rt, rt.alloc(), METHODS)?;
    check::<TokenRows, _>(&rt, rt.alloc(), OPENED)
}

#[test]
fn answers_come_in_order(rt: HostRuntime) -> Result<(), Fail> {
    check::<TokenRows, _>(&rt, rt.alloc(), SEVERAL)
}
