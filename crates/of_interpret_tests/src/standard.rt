//! The examples that Forth 2012 gives for its words (annex F), those that fit the words here: lines of text, and the
//! data stack that they leave, bottom first. Numbers are hexadecimal, and division is floored.
use crate::reading::left_by;
use std::alloc::Global;
use std::test::Fail;

/// Bits and shifts (F.6.1.0720, 1720, 1980, 2490, 0320, 0330, 1805, 2162).
const BITS: &str = "\
0 0 and|0
0 1 and|0
1 0 and|0
1 1 and|1
0 invert 1 and|1
1 invert 1 and|0
0 invert|ffffffff
ffffffff invert|0
0 0 and|0
0 ffffffff and|0
ffffffff 0 and|0
ffffffff ffffffff and|ffffffff
0 0 or|0
0 ffffffff or|ffffffff
ffffffff 0 or|ffffffff
ffffffff ffffffff or|ffffffff
0 0 xor|0
0 ffffffff xor|ffffffff
ffffffff 0 xor|ffffffff
ffffffff ffffffff xor|0
0 2*|0
1 2*|2
4000 2*|8000
ffffffff 2* 1 xor|ffffffff
80000000 2*|0
0 2/|0
1 2/|0
4000 2/|2000
ffffffff 2/|ffffffff
ffffffff 1 xor 2/|ffffffff
80000000 2/ 80000000 and|80000000
1 0 lshift|1
1 1 lshift|2
1 2 lshift|4
1 f lshift|8000
ffffffff 1 lshift 1 xor|ffffffff
80000000 1 lshift|0
1 0 rshift|1
1 1 rshift|0
2 1 rshift|1
4 2 rshift|1
8000 f rshift|1
80000000 1 rshift 80000000 and|0
80000000 1 rshift 2*|80000000
";

/// Comparisons (F.6.1.0270, 0530, 0250, 0480, 0540, 2340, 1880, 1870; F.6.2.0500, 0260, 0280, 2350, 2440, 2298, 1485).
const COMPARISONS: &str = "\
0 0=|ffffffff
1 0=|0
2 0=|0
-1 0=|0
ffffffff 0=|0
80000000 0=|0
7fffffff 0=|0
0 0 =|ffffffff
1 1 =|ffffffff
-1 -1 =|ffffffff
1 0 =|0
-1 0 =|0
0 1 =|0
0 -1 =|0
0 0<|0
-1 0<|ffffffff
80000000 0<|ffffffff
1 0<|0
7fffffff 0<|0
0 1 <|ffffffff
1 2 <|ffffffff
-1 0 <|ffffffff
-1 1 <|ffffffff
80000000 0 <|ffffffff
80000000 7fffffff <|ffffffff
0 7fffffff <|ffffffff
0 0 <|0
1 1 <|0
1 0 <|0
2 1 <|0
0 -1 <|0
1 -1 <|0
0 80000000 <|0
7fffffff 80000000 <|0
7fffffff 0 <|0
0 1 >|0
1 2 >|0
-1 0 >|0
-1 1 >|0
80000000 0 >|0
80000000 7fffffff >|0
0 7fffffff >|0
0 0 >|0
1 1 >|0
1 0 >|ffffffff
2 1 >|ffffffff
0 -1 >|ffffffff
1 -1 >|ffffffff
0 80000000 >|ffffffff
7fffffff 80000000 >|ffffffff
7fffffff 0 >|ffffffff
0 1 u<|ffffffff
1 2 u<|ffffffff
0 7fffffff u<|ffffffff
0 ffffffff u<|ffffffff
7fffffff ffffffff u<|ffffffff
0 0 u<|0
1 1 u<|0
1 0 u<|0
2 1 u<|0
7fffffff 0 u<|0
ffffffff 0 u<|0
ffffffff 7fffffff u<|0
0 1 u>|0
1 2 u>|0
0 7fffffff u>|0
0 ffffffff u>|0
7fffffff ffffffff u>|0
0 0 u>|0
1 1 u>|0
1 0 u>|ffffffff
2 1 u>|ffffffff
7fffffff 0 u>|ffffffff
ffffffff 0 u>|ffffffff
ffffffff 7fffffff u>|ffffffff
0 0 <>|0
1 1 <>|0
-1 -1 <>|0
1 0 <>|ffffffff
-1 0 <>|ffffffff
0 1 <>|ffffffff
0 -1 <>|ffffffff
0 0<>|0
1 0<>|ffffffff
2 0<>|ffffffff
-1 0<>|ffffffff
80000000 0<>|ffffffff
7fffffff 0<>|ffffffff
0 0>|0
-1 0>|0
80000000 0>|0
1 0>|ffffffff
7fffffff 0>|ffffffff
0 1 min|0
1 2 min|1
-1 0 min|ffffffff
-1 1 min|ffffffff
80000000 0 min|80000000
80000000 7fffffff min|80000000
0 7fffffff min|0
0 0 min|0
1 1 min|1
1 0 min|0
2 1 min|1
0 -1 min|ffffffff
1 -1 min|ffffffff
0 80000000 min|80000000
7fffffff 80000000 min|80000000
7fffffff 0 min|0
0 1 max|1
1 2 max|2
-1 0 max|0
-1 1 max|1
80000000 0 max|0
80000000 7fffffff max|7fffffff
0 7fffffff max|7fffffff
0 0 max|0
1 1 max|1
1 0 max|1
2 1 max|2
0 -1 max|0
1 -1 max|1
0 80000000 max|0
7fffffff 80000000 max|7fffffff
7fffffff 0 max|7fffffff
0 0 0 within|0
0 0 7fffffff within|ffffffff
0 0 80000000 within|ffffffff
0 0 ffffffff within|ffffffff
0 7fffffff 0 within|0
0 7fffffff 7fffffff within|0
0 7fffffff 80000000 within|0
0 7fffffff ffffffff within|0
0 80000000 0 within|0
0 80000000 7fffffff within|ffffffff
0 80000000 80000000 within|0
0 80000000 ffffffff within|0
0 ffffffff 0 within|0
0 ffffffff 7fffffff within|ffffffff
0 ffffffff 80000000 within|ffffffff
0 ffffffff ffffffff within|0
7fffffff 0 0 within|0
7fffffff 0 7fffffff within|0
7fffffff 0 80000000 within|ffffffff
7fffffff 0 ffffffff within|ffffffff
7fffffff 7fffffff 0 within|ffffffff
7fffffff 7fffffff 7fffffff within|0
7fffffff 7fffffff 80000000 within|ffffffff
7fffffff 7fffffff ffffffff within|ffffffff
7fffffff 80000000 0 within|0
7fffffff 80000000 7fffffff within|0
7fffffff ffffffff 80000000 within|ffffffff
80000000 0 0 within|0
80000000 0 80000000 within|0
80000000 0 ffffffff within|ffffffff
80000000 80000000 0 within|ffffffff
80000000 ffffffff 7fffffff within|0
ffffffff 0 ffffffff within|0
ffffffff ffffffff 0 within|ffffffff
ffffffff ffffffff ffffffff within|0
ffffffff 7fffffff 0 within|ffffffff
true|ffffffff
false|0
";

/// Words on the stacks (F.6.1.1260, 1290, 1990, 2160, 2260, 0370, 0380, 0400, 0430, 0630, 1200, 0580, 2060, 2070;
/// F.6.2.1930, 2300, 2030, 2150; F.8.6.2.0420).
const STACKS: &str = "\
1 2 drop|1
0 drop|
1 dup|1 1
1 2 over|1 2 1
1 2 3 rot|2 3 1
1 2 swap|2 1
1 2 2drop|
1 2 2dup|1 2 1 2
1 2 3 4 2over|1 2 3 4 1 2
1 2 3 4 2swap|3 4 1 2
-1 ?dup|ffffffff ffffffff
0 ?dup|0
1 ?dup|1 1
0 1 depth|0 1 2
0 depth|0 1
depth|0
1 2 nip|2
1 2 3 nip|1 3
1 2 tuck|2 1 2
1 2 3 tuck|1 3 2 3
1 2 3 4 5 0 pick|1 2 3 4 5 5
1 2 3 4 5 1 pick|1 2 3 4 5 4
1 2 3 4 5 2 pick|1 2 3 4 5 3
1 2 3 4 5 3 pick|1 2 3 4 5 2
64 c8 12c 190 1f4 3 roll|64 12c 190 1f4 c8
64 c8 12c 190 1f4 2 roll|64 c8 190 1f4 12c
64 c8 12c 190 1f4 1 roll|64 c8 12c 1f4 190
64 c8 12c 190 1f4 0 roll|64 c8 12c 190 1f4
1 2 3 4 5 6 2rot|3 4 5 6 1 2
: gr1 >r r> ; 123 gr1|123
: gr2 >r r@ r> drop ; 123 gr2|123
: gr1 >r r> ; ffffffff gr1|ffffffff
";

/// Sums and products (F.6.1.0120, 0160, 0290, 0300, 0690, 1910, 2170, 0090, 2360; F.8.6.1.1040, 1050).
const SUMS: &str = "\
0 5 +|5
5 0 +|5
0 -5 +|fffffffb
-5 0 +|fffffffb
1 2 +|3
1 -2 +|ffffffff
-1 2 +|1
-1 -2 +|fffffffd
-1 1 +|0
7fffffff 1 +|80000000
0 5 -|fffffffb
5 0 -|5
0 -5 -|5
-5 0 -|fffffffb
1 2 -|ffffffff
1 -2 -|3
-1 2 -|fffffffd
-1 -2 -|1
0 1 -|ffffffff
80000000 1 -|7fffffff
0 1+|1
-1 1+|0
1 1+|2
7fffffff 1+|80000000
2 1-|1
1 1-|0
0 1-|ffffffff
80000000 1-|7fffffff
0 abs|0
-1 abs|1
1 abs|1
80000000 abs|80000000
0 negate|0
1 negate|ffffffff
-1 negate|1
2 negate|fffffffe
-2 negate|2
0 s>d|0 0
1 s>d|1 0
2 s>d|2 0
-1 s>d|ffffffff ffffffff
-2 s>d|fffffffe ffffffff
80000000 s>d|80000000 ffffffff
7fffffff s>d|7fffffff 0
0 0 *|0
0 1 *|0
1 0 *|0
1 2 *|2
2 1 *|2
3 3 *|9
-3 3 *|fffffff7
3 -3 *|fffffff7
-3 -3 *|9
80000000 1 rshift 2 *|80000000
80000000 2 rshift 4 *|80000000
80000000 1 rshift 80000000 or 2 *|80000000
0 0 um*|0 0
0 1 um*|0 0
1 0 um*|0 0
1 2 um*|2 0
2 1 um*|2 0
3 3 um*|9 0
80000000 1 rshift 2 um*|80000000 0
80000000 2 um*|0 1
80000000 4 um*|0 2
ffffffff 2 um*|fffffffe 1
ffffffff ffffffff um*|1 fffffffe
0 0 5 0 d+|5 0
-5 -1 0 0 d+|fffffffb ffffffff
1 0 2 0 d+|3 0
1 0 -2 -1 d+|ffffffff ffffffff
-1 -1 2 0 d+|1 0
-1 -1 -2 -1 d+|fffffffd ffffffff
-1 -1 1 0 d+|0 0
0 0 0 5 d+|0 5
-1 5 0 0 d+|ffffffff 5
0 0 0 -5 d+|0 fffffffb
0 -5 -1 0 d+|ffffffff fffffffb
0 1 0 2 d+|0 3
-1 1 0 -2 d+|ffffffff ffffffff
0 -1 0 2 d+|0 1
0 -1 -1 -2 d+|ffffffff fffffffd
-1 -1 0 1 d+|ffffffff 0
0 0 5 0 d-|fffffffb ffffffff
5 0 0 0 d-|5 0
0 0 -5 -1 d-|5 0
1 0 2 0 d-|ffffffff ffffffff
1 0 -2 -1 d-|3 0
-1 -1 2 0 d-|fffffffd ffffffff
-1 -1 -2 -1 d-|1 0
-1 -1 -1 -1 d-|0 0
0 0 0 5 d-|0 fffffffb
-1 5 0 0 d-|ffffffff 5
0 0 -1 -5 d-|1 4
0 -5 0 0 d-|0 fffffffb
-1 1 0 2 d-|ffffffff ffffffff
0 1 -1 -2 d-|1 2
0 -1 0 2 d-|0 fffffffd
0 -1 0 -2 d-|0 1
0 0 0 1 d-|0 ffffffff
";

/// Quotients (F.6.1.2370, 0230, 1890, 0240, 0100, 0110).
const QUOTIENTS: &str = "\
0 0 1 um/mod|0 0
1 0 1 um/mod|0 1
1 0 2 um/mod|1 0
3 0 2 um/mod|1 1
ffffffff 2 um* 2 um/mod|0 ffffffff
ffffffff 2 um* ffffffff um/mod|0 2
ffffffff ffffffff um* ffffffff um/mod|0 ffffffff
0 1 /|0
1 1 /|1
2 1 /|2
-1 1 /|ffffffff
-2 1 /|fffffffe
0 -1 /|0
1 -1 /|ffffffff
2 -1 /|fffffffe
-1 -1 /|1
-2 -1 /|2
2 2 /|1
-2 -2 /|1
7 3 /|2
7 -3 /|fffffffd
-7 3 /|fffffffd
-7 -3 /|2
7fffffff 1 /|7fffffff
80000000 1 /|80000000
7fffffff 7fffffff /|1
80000000 80000000 /|1
0 1 mod|0
1 1 mod|0
-1 1 mod|0
1 -1 mod|0
7 3 mod|1
7 -3 mod|fffffffe
-7 3 mod|2
-7 -3 mod|ffffffff
7fffffff 7fffffff mod|0
80000000 80000000 mod|0
0 1 /mod|0 0
7 3 /mod|1 2
7 -3 /mod|fffffffe fffffffd
-7 3 /mod|2 fffffffd
-7 -3 /mod|ffffffff 2
7fffffff 1 /mod|0 7fffffff
80000000 80000000 /mod|0 1
0 2 1 */|0
1 2 1 */|2
2 2 1 */|4
-1 2 1 */|fffffffe
0 2 -1 */|0
1 2 -1 */|fffffffe
-1 2 -1 */|2
2 2 2 */|2
7 2 3 */|4
7 2 -3 */|fffffffb
-7 2 3 */|fffffffb
-7 2 -3 */|4
7fffffff 2 7fffffff */|2
80000000 2 80000000 */|2
7 2 3 */mod|2 4
7 2 -3 */mod|ffffffff fffffffb
-7 2 3 */mod|1 fffffffb
-7 2 -3 */mod|fffffffe 4
7fffffff 2 7fffffff */mod|0 2
80000000 2 80000000 */mod|0 2
";

/// Memory (F.6.1.1650, 0150, 0860, 0650, 0010, 0130, 0870, 0850, 0705, 0706, 0880, 0890, 0897, 0898, 0710, 0310, 0350,
/// 0980, 1540, 1900; F.6.2.0825, 1350).
const MEMORY: &str = "\
here 1 allot here swap -|1
here 1 allot -1 allot here =|ffffffff
here 1 , here swap -|4
here 1 , 2 , dup @ swap cell+ @|1 2
here 0 , 5 over ! @|5
here 0 , dup 1 swap +! @|1
here 1 , dup -1 swap +! @|0
here 1 c, here swap -|1
here 1 c, 2 c, dup c@ swap char+ c@|1 2
here 0 c, 3 over c! c@|3
here 1 , 2 , 2@|2 1
here 0 , 0 , dup 5 6 rot 2! 2@|5 6
here 1 c, align here swap -|4
0 aligned|0
1 aligned|4
4 aligned|4
5 aligned|8
0 cell+|4
2 cells|8
0 char+|1
3 chars|3
here 0 , dup 4 41 fill @|41414141
here 7 , dup 0 41 fill @|7
here 12345678 , dup 1 41 fill @|41345678
here -1 , dup 4 erase @|0
here 12345678 , 0 , dup dup cell+ 4 move cell+ @|12345678
here 1020304 , dup dup 1+ 3 move @|1010203
here 1020304 , dup 1+ over 3 move @|2030404
here 3 c, 41 c, 42 c, 43 c, count swap c@|3 41
7f buffer: tbuf1 tbuf1 dup aligned =|ffffffff
7f buffer: tbuf1 111 tbuf1 ! tbuf1 @|111
";

/// Characters, strings, comments and numbers (F.6.1.0770, 0895, 2520, 2500, 2165, 0080, 0750, 1170; F.6.2.2535, 1660).
const TEXTS: &str = "\
bl|20
char X|58
char Hello|48
char ;|3b
: gc1 [char] X ; gc1|58
: gc2 [char] Hello ; gc2|48
: gc1 [char] X ; : gc3 [ gc1 ] literal ; gc3|58
: gc4 s\" XY\" ; gc4 swap drop|2
: gc4 s\" XY\" ; gc4 drop dup c@ swap char+ c@|58 59
: gc5 s\" A String\" ; gc5 drop c@|41
: gc6 s\" \" ; gc6 nip|0
( a comment)1234|1234
: pc1 ( a comment)1234 ; pc1|1234
1 \\ 2|1
decimal 255 hex|ff
hex base @ decimal base @ hex|10 a
h# ff d# 255|ff ff
s\" 123\" $number|123 0
s\" zz\" $number|ffffffff
1 DUP|1 1
: Foo 7 ; fOO|7
";

/// Words, and which of them run (F.6.1.0070, 1370, 2510, 1710, 1780, 2250, 0450, 0460, 0950, 2410, 1000, 0550;
/// F.6.2.2405, 2295, 1173, 0945).
const WORDS: &str = "\
: gt1 123 ; ' gt1 execute|123
: gt1 123 ; : gt2 ['] gt1 ; immediate gt2 execute|123
: gt1 123 ; : gt2 ['] gt1 ; immediate : gt3 gt2 literal ; gt3 ' gt1 =|ffffffff
s\" dup\" $find swap ' dup =|ffffffff ffffffff
s\" nonsense\" $find|500400 8 0
state @|0
: gt8 state @ ; immediate gt8|0
: gt8 state @ ; immediate : gt9 gt8 literal ; gt9 0=|0
: nop1 ; nop1|
: gdx 123 ; : gdx gdx 234 ; gdx|123 234
: iw 1 ; immediate iw|1
: iw 1 ; immediate : cw iw [ drop ] 2 ; cw|2
123 constant x123 x123|123
variable v1 123 v1 ! v1 @|123
variable v1 v1 @|0
create cr1 cr1 here =|ffffffff
create cr1 1 , cr1 @|1
create cr0 ' cr0 >body here =|ffffffff
111 value v1 v1|111
111 value v1 222 to v1 v1|222
111 value v1 : vd1 v1 ; 222 to v1 vd1|222
-999 value v2 : vd2 to v2 ; v2 -333 vd2 v2|fffff667 fffffccd
defer defer1 ' * to defer1 2 3 defer1|6
defer defer1 ' * to defer1 ' + to defer1 1 2 defer1|3
defer defer1 ' + to defer1 ' defer1 behavior ' + =|ffffffff
: t [ ' dup compile, ] ; 3 t|3 3
";

/// Control structures (F.6.1.1700, 1310, 2270, 0760, 2430, 2140, 2390, 2120, 1380; F.6.2.0700, 0873;
/// F.15.6.2.0702, 1020).
const CONTROL: &str = "\
: gi1 if 123 then ; 0 gi1|
: gi1 if 123 then ; 1 gi1|123
: gi1 if 123 then ; -1 gi1|123
: gi2 if 123 else 234 then ; 0 gi2|234
: gi2 if 123 else 234 then ; 1 gi2|123
: gi2 if 123 else 234 then ; -1 gi2|123
: melse if 1 else 2 else 3 else 4 else 5 then ; 0 melse|2 4
: melse if 1 else 2 else 3 else 4 else 5 then ; -1 melse|1 3 5
: gi3 begin dup 5 < while dup 1+ repeat ; 0 gi3|0 1 2 3 4 5
: gi3 begin dup 5 < while dup 1+ repeat ; 4 gi3|4 5
: gi3 begin dup 5 < while dup 1+ repeat ; 5 gi3|5
: gi3 begin dup 5 < while dup 1+ repeat ; 6 gi3|6
: gi5 begin dup 2 > while dup 5 < while dup 1+ repeat 123 else 345 then ; 1 gi5|1 345
: gi5 begin dup 2 > while dup 5 < while dup 1+ repeat 123 else 345 then ; 2 gi5|2 345
: gi5 begin dup 2 > while dup 5 < while dup 1+ repeat 123 else 345 then ; 3 gi5|3 4 5 123
: gi5 begin dup 2 > while dup 5 < while dup 1+ repeat 123 else 345 then ; 4 gi5|4 5 123
: gi5 begin dup 2 > while dup 5 < while dup 1+ repeat 123 else 345 then ; 5 gi5|5 123
: gi4 begin dup 1+ dup 5 > until ; 3 gi4|3 4 5 6
: gi4 begin dup 1+ dup 5 > until ; 5 gi4|5 6
: gi4 begin dup 1+ dup 5 > until ; 6 gi4|6 7
: gi6 dup if dup >r 1- recurse r> then ; 0 gi6|0
: gi6 dup if dup >r 1- recurse r> then ; 1 gi6|0 1
: gi6 dup if dup >r 1- recurse r> then ; 2 gi6|0 1 2
: gi6 dup if dup >r 1- recurse r> then ; 3 gi6|0 1 2 3
: gi6 dup if dup >r 1- recurse r> then ; 4 gi6|0 1 2 3 4
: ex1 1 exit 2 ; ex1|1
: ex2 if 1 exit then 2 ; 0 ex2 1 ex2|2 1
: ag begin dup 3 = if exit then 1+ again ; 0 ag|3
: pt1 ahead 1111 2222 then 3333 ; pt1|3333
: cr if if [ 1 ] cs-roll 1 then 2 then 3 ; 9 0 cr|9 2 3
: cr if if [ 1 ] cs-roll 1 then 2 then 3 ; 0 1 cr|3
: cr if if [ 1 ] cs-roll 1 then 2 then 3 ; 9 1 cr|1 2 3
: cs1 case 1 of 111 endof 2 of 222 endof 3 of 333 endof >r 999 r> endcase ; 1 cs1|111
: cs1 case 1 of 111 endof 2 of 222 endof 3 of 333 endof >r 999 r> endcase ; 2 cs1|222
: cs1 case 1 of 111 endof 2 of 222 endof 3 of 333 endof >r 999 r> endcase ; 3 cs1|333
: cs1 case 1 of 111 endof 2 of 222 endof 3 of 333 endof >r 999 r> endcase ; 4 cs1|999
";

/// A definition of two cases, one in the other (F.6.2.0873).
const NESTED_CASES: &str = "\
: cs2 >r case -1 of case r@ 1 of 64 endof 2 of c8 endof >r -12c r> endcase endof \
-2 of case r@ 1 of -63 endof >r -c7 r> endcase endof >r 12b r> endcase r> drop ;";

const CASES: &str = "\
-1 1 cs2|64
-1 2 cs2|c8
-1 3 cs2|fffffed4
-2 1 cs2|ffffff9d
-2 2 cs2|ffffff39
0 2 cs2|12b
";

/// Loops (F.6.1.1240, 1680, 1800, 0140, 1730, 1760, 2380; F.6.2.0620).
const LOOPS: &str = "\
: gd1 do i loop ; 4 1 gd1|1 2 3
: gd1 do i loop ; 2 -1 gd1|ffffffff 0 1
: gd1 do i loop ; 80000000 7fffffff gd1|7fffffff
: gd2 do i -1 +loop ; 1 4 gd2|4 3 2 1
: gd2 do i -1 +loop ; -1 2 gd2|2 1 0 ffffffff
: gd2 do i -1 +loop ; 7fffffff 80000000 gd2|80000000 7fffffff
: gd3 do 1 0 do j loop loop ; 4 1 gd3|1 2 3
: gd3 do 1 0 do j loop loop ; 2 -1 gd3|ffffffff 0 1
: gd3 do 1 0 do j loop loop ; 80000000 7fffffff gd3|7fffffff
: gd4 do 1 0 do j loop -1 +loop ; 1 4 gd4|4 3 2 1
: gd4 do 1 0 do j loop -1 +loop ; -1 2 gd4|2 1 0 ffffffff
: gd4 do 1 0 do j loop -1 +loop ; 7fffffff 80000000 gd4|80000000 7fffffff
: gd5 123 swap 0 do i 4 > if drop 234 leave then loop ; 1 gd5|123
: gd5 123 swap 0 do i 4 > if drop 234 leave then loop ; 5 gd5|123
: gd5 123 swap 0 do i 4 > if drop 234 leave then loop ; 6 gd5|234
: gd6 0 swap 0 do i 1+ 0 do i j + 3 = if i unloop i unloop exit then 1+ loop loop ; 1 gd6|1
: gd6 0 swap 0 do i 1+ 0 do i j + 3 = if i unloop i unloop exit then 1+ loop loop ; 2 gd6|3
: gd6 0 swap 0 do i 1+ 0 do i j + 3 = if i unloop i unloop exit then 1+ loop loop ; 3 gd6|4 1 2
: qd ?do i loop ; 789 789 qd|
: qd ?do i loop ; -9876 -9876 qd|
: qd ?do i loop ; 5 0 qd|0 1 2 3 4
: qd1 ?do i 10 +loop ; 50 1 qd1|1 11 21 31 41
: qd1 ?do i 10 +loop ; 50 0 qd1|0 10 20 30 40
: qd2 ?do i 3 > if leave else i then loop ; 5 -1 qd2|ffffffff 0 1 2 3
: qd3 ?do i 1 +loop ; 4 4 qd3|
: qd3 ?do i 1 +loop ; 4 1 qd3|1 2 3
: qd3 ?do i 1 +loop ; 2 -1 qd3|ffffffff 0 1
: qd4 ?do i -1 +loop ; 4 4 qd4|
: qd4 ?do i -1 +loop ; 1 4 qd4|4 3 2 1
: qd4 ?do i -1 +loop ; -1 2 qd4|2 1 0 ffffffff
: qd5 ?do i -10 +loop ; 1 50 qd5|50 40 30 20 10
: qd5 ?do i -10 +loop ; 0 50 qd5|50 40 30 20 10 0
: qd5 ?do i -10 +loop ; -25 10 qd5|10 0 fffffff0 ffffffe0
";

/// Loops of any step, which end after six turns: the counts, and behind them how many turns there were (F.6.1.0140).
const COUNTED: &str = "\
variable turns variable step : gd7 step ! 0 turns ! \
do 1 turns +! i turns @ 6 = if leave then step @ +loop turns @ ;";

const STEPS: &str = "\
4 4 -1 gd7|4 1
1 4 -1 gd7|4 3 2 1 4
4 1 -1 gd7|1 0 ffffffff fffffffe fffffffd fffffffc 6
4 1 0 gd7|1 1 1 1 1 1 6
0 0 0 gd7|0 0 0 0 0 0 6
1 4 0 gd7|4 4 4 4 4 4 6
1 4 1 gd7|4 5 6 7 8 9 6
4 1 1 gd7|1 2 3 3
4 4 1 gd7|4 5 6 7 8 9 6
2 -1 -1 gd7|ffffffff fffffffe fffffffd fffffffc fffffffb fffffffa 6
-1 2 -1 gd7|2 1 0 ffffffff 4
2 -1 0 gd7|ffffffff ffffffff ffffffff ffffffff ffffffff ffffffff 6
-1 2 0 gd7|2 2 2 2 2 2 6
-1 2 1 gd7|2 3 4 5 6 7 6
2 -1 1 gd7|ffffffff 0 1 3
-20 30 -10 gd7|30 20 10 0 fffffff0 ffffffe0 6
-20 31 -10 gd7|31 21 11 1 fffffff1 ffffffe1 6
-20 29 -10 gd7|29 19 9 fffffff9 ffffffe9 5
";

/// The same of `?do` (F.6.2.0620).
const COUNTED_IF: &str = "\
variable turns variable step : qd6 step ! 0 turns ! \
?do 1 turns +! i turns @ 6 = if leave then step @ +loop turns @ ;";

const STEPS_IF: &str = "\
4 4 -1 qd6|0
1 4 -1 qd6|4 3 2 1 4
4 1 -1 qd6|1 0 ffffffff fffffffe fffffffd fffffffc 6
4 1 0 qd6|1 1 1 1 1 1 6
0 0 0 qd6|0
1 4 0 qd6|4 4 4 4 4 4 6
1 4 1 qd6|4 5 6 7 8 9 6
4 1 1 qd6|1 2 3 3
4 4 1 qd6|0
2 -1 -1 qd6|ffffffff fffffffe fffffffd fffffffc fffffffb fffffffa 6
-1 2 -1 qd6|2 1 0 ffffffff 4
2 -1 0 qd6|ffffffff ffffffff ffffffff ffffffff ffffffff ffffffff 6
-1 2 0 qd6|2 2 2 2 2 2 6
-1 2 1 qd6|2 3 4 5 6 7 6
2 -1 1 qd6|ffffffff 0 1 3
";

/// Loops of large steps: how many turns they make (F.6.1.0140).
const LARGE: &str = "variable step : gd8 step ! do 1+ step @ +loop ;";

const LARGE_STEPS: &str = "\
0 ffffffff 0 1000000 gd8|100
0 0 ffffffff -1000000 gd8|100
0 7fffffff 80000000 1000000 gd8|100
0 80000000 7fffffff -1000000 gd8|100
";

/// Throws that are caught (F.9.6.1.2275).
const THROWS: &str = "\
: t1 9 ; : c1 1 2 3 ['] t1 catch ; c1|1 2 3 9 0
: t2 8 0 throw ; : c2 1 2 ['] t2 catch ; c2|1 2 8 0
: t3 7 8 9 63 throw ; : c3 1 2 ['] t3 catch ; c3|1 2 63
: t4 1- dup 0> if recurse else 3e7 throw -de then ; : c4 3 4 5 a ['] t4 catch -6f ; c4|3 4 5 0 3e7 ffffff91
: t5 2drop 2drop 270f throw ; : c5 1 2 3 4 ['] t5 catch depth >r drop 2drop 2drop r> ; c5|5
: t10 -1 throw ; : t11 ['] t10 catch 1 ; t11|ffffffff 1
' abort catch|ffffffff
";

/// What is printed (F.6.1.0490, 1670, 2210, 0030, 0050, 0040, 0180, 0190, 2320, 1320, 0990, 2220, 2230, 2310;
/// F.6.2.0210, 2330); an end of line as `$`.
const PRINTED: &str = "\
: gp1 <# 41 hold 42 hold 0 0 #> type ; gp1|BA
: gp2 <# -1 sign 0 sign -1 sign 0 0 #> type ; gp2|--
: gp3 <# 1 0 # # #> type ; gp3|01
: gp4 <# 1 0 #s #> type ; gp4|1
2 base ! -1 u.|11111111111111111111111111111111 
ffffffff decimal u.|4294967295 
ffffffff decimal .|-1 
41 emit 42 emit|AB
1 . cr 2 .|1 $2 
space 3 spaces 2 .|    2 
5 3 .r -5 4 .r|  5  -5
5 3 u.r|  5
: t .\" hello\" ; t t|hellohello
";

/// The lines that leave something else than they say, behind those of a beginning; nothing where there is none.
fn differing(alloc: Global, first: &str, table: &str) -> Result<String, Fail> {
    let mut all = String::new(alloc);
    for line in table.lines() {
        let (words, cells) = line.split_once('|').unwrap_or((line, ""));
        let found = left_by(alloc, &format!(in alloc; "{first}~{words}")?)?;
        let mut wanted = String::new(alloc);
        for cell in cells.split_whitespace() {
            wanted.push_str(&format!(in alloc; "{cell} ")?)?;
        }
        wanted.push('|')?;
        if found != wanted {
            all.push_str(&format!(in alloc; "{words}|{found}\n")?)?;
        }
    }
    Ok(all)
}

/// The lines that print something else than they say, or leave something; nothing where there is none.
fn misprinted(alloc: Global, table: &str) -> Result<String, Fail> {
    let mut all = String::new(alloc);
    for line in table.lines() {
        let (words, text) = line.split_once('|').unwrap_or((line, ""));
        let found = left_by(alloc, words)?;
        if found != format!(in alloc; "|{text}")? {
            all.push_str(&format!(in alloc; "{words}|{found}\n")?)?;
        }
    }
    Ok(all)
}

#[test]
fn bits(rt: HostRuntime) -> Result<(), Fail> {
    assert_eq!(rt; differing(rt.alloc(), "", BITS)?.as_str(), "");
    Ok(())
}

#[test]
fn comparisons(rt: HostRuntime) -> Result<(), Fail> {
    assert_eq!(rt; differing(rt.alloc(), "", COMPARISONS)?.as_str(), "");
    Ok(())
}

#[test]
fn sums(rt: HostRuntime) -> Result<(), Fail> {
    assert_eq!(rt; differing(rt.alloc(), "", SUMS)?.as_str(), "");
    Ok(())
}

#[test]
fn quotients(rt: HostRuntime) -> Result<(), Fail> {
    assert_eq!(rt; differing(rt.alloc(), "", QUOTIENTS)?.as_str(), "");
    Ok(())
}

#[test]
fn cells_and_memory(rt: HostRuntime) -> Result<(), Fail> {
    assert_eq!(rt; differing(rt.alloc(), "", STACKS)?.as_str(), "");
    assert_eq!(rt; differing(rt.alloc(), "", MEMORY)?.as_str(), "");
    Ok(())
}

#[test]
fn words_and_texts(rt: HostRuntime) -> Result<(), Fail> {
    assert_eq!(rt; differing(rt.alloc(), "", TEXTS)?.as_str(), "");
    assert_eq!(rt; differing(rt.alloc(), "", WORDS)?.as_str(), "");
    assert_eq!(rt; misprinted(rt.alloc(), PRINTED)?.as_str(), "");
    Ok(())
}

#[test]
fn control_structures(rt: HostRuntime) -> Result<(), Fail> {
    assert_eq!(rt; differing(rt.alloc(), "", CONTROL)?.as_str(), "");
    assert_eq!(rt; differing(rt.alloc(), NESTED_CASES, CASES)?.as_str(), "");
    assert_eq!(rt; differing(rt.alloc(), "", THROWS)?.as_str(), "");
    Ok(())
}

#[test]
fn loops(rt: HostRuntime) -> Result<(), Fail> {
    assert_eq!(rt; differing(rt.alloc(), "", LOOPS)?.as_str(), "");
    assert_eq!(rt; differing(rt.alloc(), COUNTED, STEPS)?.as_str(), "");
    assert_eq!(rt; differing(rt.alloc(), COUNTED_IF, STEPS_IF)?.as_str(), "");
    assert_eq!(rt; differing(rt.alloc(), LARGE, LARGE_STEPS)?.as_str(), "");
    Ok(())
}
