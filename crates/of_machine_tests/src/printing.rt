//! What the words print that show properties, nodes, names and definitions. Behind the lines, which a `~` sets apart,
//! stand between bars the answers, the end of the run, the console, the last question, and the data stack; on the
//! console `$` is the end of a line. Each row is worked by hand.
use crate::lines::{ImageRows, LineRows};
use crate::rows::check;
use std::test::Fail;

/// Values of no bytes, of a zero byte, of 3 to 9 bytes, in print with and without a zero byte, and of several strings;
/// the bytes next to those in print; properties that are set again or deleted, of several nodes, of a node without any;
/// and no node.
const PROPERTIES: &str = "\
dev /slot 0 0 encode-bytes s\" e\" property .properties||done|name \"slot\"$e$||
dev /slot here 0 c, 1 s\" z\" property .properties||done|name \"slot\"$z 00$||
dev /slot \" \" encode-string s\" z\" property .properties||done|name \"slot\"$z 00$||
dev /slot here 1 c, 2 c, 3 c, 3 s\" t\" property .properties||done|name \"slot\"$t 010203$||
dev /slot 12345678 encode-int s\" i\" property .properties||done|name \"slot\"$i 12345678$||
dev /slot 1 encode-int here 2 c, 1 encode+ s\" f\" property .properties||done|name \"slot\"$f 00000001 02$||
dev /slot 1 encode-int 2 encode-int encode+ s\" g\" property .properties||done|name \"slot\"$g 00000001 00000002$||
dev /slot 1 encode-int 2 encode-int encode+ here abcd c, 1 encode+ s\" n\" property .properties||done|\
name \"slot\"$n 00000001 00000002 cd$||
dev /slot s\" card\" encode-string s\" p\" property s\" card\" encode-bytes s\" q\" property .properties||done|\
name \"slot\"$p \"card\"$q 63617264$||
dev /slot s\" cards\" encode-bytes s\" q\" property s\" c\" encode-bytes s\" r\" property .properties||done|\
name \"slot\"$q 63617264 73$r 63$||
dev /slot s\" ab\" encode-string s\" cd\" encode-string encode+ s\" m\" property .properties||done|\
name \"slot\"$m 61620063 6400$||
dev /slot \" a\"(22)b (c)\" encode-string s\" q\" property .properties||done|name \"slot\"$q \"a\"b (c)\"$||
dev /slot here 20 c, 0 c, 2 s\" b\" property here 7e c, 0 c, 2 s\" c\" property .properties||done|\
name \"slot\"$b \" \"$c \"~\"$||
dev /slot here 1f c, 0 c, 2 s\" b\" property here 7f c, 0 c, 2 s\" c\" property .properties||done|\
name \"slot\"$b 1f00$c 7f00$||
dev /slot here 41 c, 0 c, 0 c, 3 s\" b\" property here 0 c, 41 c, 0 c, 3 s\" c\" property .properties||done|\
name \"slot\"$b 410000$c 004100$||
dev /slot here 41 c, a c, 42 c, 0 c, 4 s\" b\" property here 41 c, ff c, 0 c, 3 s\" c\" property .properties||done|\
name \"slot\"$b 410a4200$c 41ff00$||
dev /slot s\" m\" model s\" t\" device-type 1 2 3 reg .properties||done|\
name \"slot\"$model \"m\"$device_type \"t\"$reg 00000002 00000001 00000003$||
dev /slot 1 encode-int s\" a\" property 2 encode-int s\" b\" property~s\" a\" delete-property .properties\
~3 encode-int s\" a\" property .properties||done|name \"slot\"$b 00000002$name \"slot\"$b 00000002$a 00000003$||
dev /slot 1 encode-int s\" a\" property s\" card\" device-name .properties||done|name \"card\"$a 00000001$||
dev /slot 1 encode-int s\" abcdefghijklmnopqrstuvwxyz01234\" property .properties||done|\
name \"slot\"$abcdefghijklmnopqrstuvwxyz01234 00000001$||
dev /slot 1 encode-int s\" a\" property 2 encode-int s\" A\" property .properties||done|\
name \"slot\"$a 00000001$A 00000002$||
dev / .properties dev packages .properties dev ../slot .properties||done|\
name \"board\"$name \"packages\"$name \"slot\"$||
dev /slot new-device .properties s\" x\" device-name .properties||done|name \"x\"$||
dev /slot here 28 allot dup 28 0 fill 28 s\" l\" property .properties||done|name \"slot\"$\
l 00000000 00000000 00000000 00000000 00000000 00000000 00000000 00000000 00000000 00000000$||
dev /slot 12345678 encode-int s\" i\" property 2 base ! .properties||done|name \"slot\"$i 12345678$||
dev /packages new-device s\" p\" device-name : open true ; : put .properties pwd words ; finish-device device-end~\
s\" \" s\" p\" $open-package value x dev /slot~s\" put\" x $call-method device-end~s\" put\" x $call-method||done|\
name \"slot\"$/slot$$fault -259: no such node$||
: t .properties ; dev /slot t device-end t||done|name \"slot\"$fault -259: no such node$||
.properties||done|fault -259: no such node$||
";

/// Children and all nodes: without a name, with units of one to four cells, with names of 31 bytes and in either case,
/// in the order of their making; the paths by which they are made active; and no node.
const NODES: &str = "\
show-devs||done|/$/packages$/slot$||
dev /slot ls pwd||done|/slot$||
dev /slot new-device finish-device ls pwd show-devs||done|d000000c $/slot$/$/packages$/slot$/slot/$||
dev /slot new-device pwd new-device pwd show-devs||done|/slot/$/slot//$/$/packages$/slot$/slot/$/slot//$||
dev /slot new-device 1 2 3 reg finish-device ls show-devs||done|\
d000000c @2,1$/$/packages$/slot$/slot/@2,1$||
decimal dev / ls||done|d0000004 packages$d0000008 slot$||
dev /slot new-device s\" card\" device-name dead BEEF 1 reg decimal pwd finish-device ls||done|\
/slot/card@beef,dead$d000000c card@beef,dead$||
dev /slot 1 encode-int s\" #address-cells\" property~\
new-device s\" card\" device-name ff 10 reg finish-device ls||done|d000000c card@ff$||
dev /slot 3 encode-int s\" #address-cells\" property~\
new-device s\" card\" device-name 1 2 0 4 reg finish-device ls||done|d000000c card@0,2,1$||
dev /slot 4 encode-int s\" #address-cells\" property~\
new-device s\" card\" device-name 1 2 3 ffffffff 5 reg finish-device ls||done|d000000c card@ffffffff,3,2,1$||
dev /slot 5 encode-int s\" #address-cells\" property~\
new-device s\" card\" device-name 1 2 3 reg finish-device ls||done|d000000c card@2,1$||
dev /slot new-device s\" card\" device-name 1 encode-int s\" reg\" property finish-device ls||done|d000000c card$||
dev /slot new-device s\" card\" device-name 1 encode-int 2 encode-int encode+ s\" reg\" property finish-device ls\
||done|d000000c card@1,2$||
dev /slot new-device s\" abcdefghijklmnopqrstuvwxyz01234\" device-name pwd finish-device ls show-devs||done|\
/slot/abcdefghijklmnopqrstuvwxyz01234$d000000c abcdefghijklmnopqrstuvwxyz01234$\
/$/packages$/slot$/slot/abcdefghijklmnopqrstuvwxyz01234$||
dev /slot s\" abcdefghijklmnopqrstuvwxyz012345\" device-name||done|fault -32: invalid name argument$||
dev / new-device s\" b\" device-name finish-device new-device s\" B\" device-name finish-device~\
dev /b new-device s\" a\" device-name finish-device~dev / ls show-devs||done|\
d0000004 packages$d0000008 slot$d000000c b$d0000010 B$/$/packages$/slot$/b$/b/a$/B$||
dev /slot s\" card\" device-name pwd dev / ls||done|/card$d0000004 packages$d0000008 card$||
dev /slot new-device s\" card\" device-name 1 2 3 reg finish-device device-end~dev /slot/card pwd~\
dev /slot/card@2,1 pwd~dev /slot/@2,1 pwd~dev /slot/card:x pwd~dev .. pwd~dev card@2,1:x pwd~dev ../../slot pwd\
||done|/slot/card@2,1$/slot/card@2,1$/slot/card@2,1$/slot/card@2,1$/slot$/slot/card@2,1$/slot$||
dev /slot new-device s\" card\" device-name 1 2 3 reg finish-device ls~1 encode-int s\" #address-cells\" property ls\
||done|d000000c card@2,1$d000000c card@2$||
dev /slot 0 encode-int s\" #address-cells\" property~\
new-device s\" card\" device-name 1 2 3 reg finish-device ls||done|d000000c card@2,1$||
dev /slot here 1 c, 2 c, 3 c, 3 s\" #address-cells\" property~\
new-device s\" card\" device-name 1 2 3 reg finish-device ls||done|d000000c card@2,1$||
dev /slot s\" name\" delete-property pwd dev / ls show-devs||done|\
/$d0000004 packages$d0000008 $/$/packages$/$||
dev / s\" x\" device-name 1 2 3 reg pwd .properties show-devs||done|\
/$name \"x\"$reg 00000002 00000001 00000003$/$/packages$/slot$||
dev /slot new-device new-device nonsense~pwd show-devs||done|\
fault -13: undefined word$/slot$/$/packages$/slot$/slot/$/slot//$||
dev /slot nonsense~pwd||done|fault -13: undefined word$/slot$||
dev / pwd dev slot pwd dev .. pwd dev ..||done|/$/slot$/$fault -259: no such node$||
dev /Slot||done|fault -259: no such node$||
dev slot||done|fault -259: no such node$||
dev /slot device-end pwd||done|fault -259: no such node$||
pwd||done|fault -259: no such node$||
ls||done|fault -259: no such node$||
: t show-devs ; dev /slot : u pwd ls ; u device-end t||done|/slot$/$/packages$/slot$||
";

/// Names that are defined again, in the other case, too; of a package and of none; of each kind of word; of a word
/// whose definition is open, and of one that is abandoned.
const NAMES: &str = "\
words||done|$||
: a 1 ; : b 2 ; : a 3 ; words||done|b a $||
: a 1 ; : b 2 ; : A 3 ; words||done|b A $||
dev /slot : m 1 ; : n 2 ; : M 3 ; words device-end words||done|n M $$||
: g 1 ; dev /slot words : m 1 ; words device-end words||done|$m $g $||
: g 1 ; dev /slot : g 2 ; words device-end words||done|g $g $||
dev /slot : m 1 ; dev /packages : n 1 ; words dev /slot words||done|n $m $||
5 constant c 6 value v variable w create k defer d 8 buffer: q 0 4 field f drop : t ; words||done|t f q d k w v c $||
dev /slot 5 instance value v instance variable w 8 instance buffer: q instance defer d words||done|d q w v $||
: t [ words ] ; words||done|$t $||
: t 1 ; : t [ words ] 2 ; words||done|t $t $||
: t nonsense~words||done|fault -13: undefined word$$||
: a 1 ; : a nonsense~words||done|fault -13: undefined word$a $||
: a 1 ; : A nonsense~words||done|fault -13: undefined word$a $||
: a 1 ; s\" : A nonsense\" ' evaluate catch . . . words||done|-d 0 0 a $||
dev /slot : m 1 ; : M [ words ] 2 ; words||done|m $M $||
: abcdefghijklmnopqrstuvwxyz01234 ; words||done|abcdefghijklmnopqrstuvwxyz01234 $||
: dup 1 ; : DUP 2 ; words||done|DUP $||
: t words ; t dev /slot t||done|t $$||
";

/// Definitions and words of each kind: written words, numbers in each base, strings, stores, and words that another
/// hides or that a package has.
const SEEN: &str = "\
: t begin dup while 1- repeat ;~see t~3 t .||done|: t begin dup if 1- again then ;$0 ||
see dup see IF see : see ( see \\ see see see 1 see words||done|\
primitive dup$primitive if$primitive :$primitive ($primitive \\$primitive see$primitive 1$primitive words$||
see 5||done|fault -13: undefined word$||
see b(lit)||done|fault -13: undefined word$||
5 constant c 6 value v variable w create k defer d 8 buffer: q 0 4 field f drop~\
see C see V see W see K see D see Q see F||done|\
constant c$value v$variable w$create k$defer d$buffer q$field f$||
dev /slot 5 instance value v instance variable w 8 instance buffer: q instance defer d~\
see v see w see q see d||done|slot per instance v$slot per instance w$slot per instance q$slot per instance d$||
: t ; immediate see t||done|: t ;$||
: t [ see t ] ;~see t||done|fault -13: undefined word$fault -13: undefined word$||
: t -1 0 1 2 3 4 -2 ffffffff 80000000 ; see t||done|\
: t -1 0 1 2 3 h# 4 h# fffffffe h# ffffffff h# 80000000 ;$||
: t [ 5 ] literal h# a d# 10 [char] A ['] dup ; see t||done|: t h# 5 h# a h# a h# 41 h# c0000130 ;$||
: t ff ; : u base ! s\" see t\" evaluate ; 2 u 3 u h# 8 u h# a u h# 23 u h# 24 u||done|\
: t h# ff ;$: t h# ff ;$: t h# ff ;$: t h# ff ;$: t h# ff ;$: t h# ff ;$||
2 base ! : t 101 ; 3 base ! : u 2101 ; h# 8 base ! : v 17 ; h# 23 base ! : w yy ; see t see u see v see w||done|\
: t h# 5 ;$: u h# 40 ;$: v h# f ;$: w h# 4c8 ;$||
: t ff ; 0 base ! see t||done|: t h# ff ;$||
: a ; : t a 10 ; : a ; decimal see t||done|: t [ h# c000052c compile, ] h# 10 ;$||
: t .\" a b\" s\" (c)\" type ; see t||done|: t \" a b\" type \" (c)\" type ;$||
: t \" a\"(22)(b\"(80 ff)\" ; see t||done|: t \" a\"(22)(b\"(80)\"(ff)\" ;$||
: t s\" ab\" drop ; 58 t c! see t||done|: t \" Xb\" drop ;$||
: t s\" ab\" ; -4 allot 12345678 , see t||done|: t \" \"(12)4\" ;$||
: t if if if if if if if if if if if if if if if if if [ 10 ] cs-roll then dup then then then then then then \
then then then then then then then then then then ; see t||done|: t if if if if if if if if if if if if if if \
if if if [ h# 10 ] cs-roll then dup then then then then then then then then then then then then then then then \
then ;$||
: t 11111111 11111111 11111111 11111111 11111111 11111111 11111111 11111111 11111111 11111111 11111111 11111111 \
~11111111 11111111 11111111 11111111 11111111 11111111 11111111 11111111 11111111 11111111 11111111 11111111 ; \
see t||done|: t h# 11111111 h# 11111111 h# 11111111 h# 11111111 h# 11111111 h# 11111111 h# 11111111 h# 11111111 \
h# 11111111 h# 11111111 h# 11111111 h# 11111111 h# 11111111 h# 11111111 h# 11111111 h# 11111111 h# 11111111 h# \
11111111 h# 11111111 h# 11111111 h# 11111111 h# 11111111 h# 11111111 h# 11111111 ;$||
: t [ ' s\" compile, ' type compile, ' : compile, ' if compile, ] ; see t||done|\
: t [ h# c00004a4 compile, ] type [ h# c0000474 compile, ] [ h# c00004c8 compile, ] ;$||
: t 1 [ 1 ] literal ; see t : 1 5 ; see t||done|: t 1 h# 1 ;$: t [ h# c00002e0 compile, ] h# 1 ;$||
: t dup ; dev /slot : dup 1 ; see t see dup device-end see t see dup||done|\
: t [ h# c0000130 compile, ] ;$: dup 1 ;$: t dup ;$primitive dup$||
: ff 1 ; : t ff 10 ; see t||done|: t ff h# 10 ;$||
: Ff 1 ; : t fF FF ; see T||done|: t Ff Ff ;$||
: 5 dup ; : t 5 ; : 5 drop ; see t see 5||done|: t [ h# c000052c compile, ] ;$: 5 drop ;$||
: a1 ; : A1 ; : t a1 ; see t see a1||done|: t A1 ;$: A1 ;$||
: dup 1 ; : t dup ; see t see dup||done|: t dup ;$: dup 1 ;$||
: t dup ; : dup 1 ; see t||done|: t [ h# c0000130 compile, ] ;$||
: a dup ; dev /slot : t a ; see t : a drop ; see t see a||done|: t a ;$: t [ h# c000052c compile, ] ;$: a drop ;$||
dev /slot : m 1 ; : t m ; see t device-end see t||done|: t m ;$fault -13: undefined word$||
dev /slot : m 1 ; ' m device-end : t [ compile, ] ; see t dev /slot see t||done|\
: t [ h# c000052c compile, ] ;$: t m ;$||
dev /slot : m 1 ; dev /packages : m 2 ; : t m ; see t dev /slot see m see t||done|: t m ;$: m 1 ;$\
fault -13: undefined word$||
dev /slot 5 instance value v : t 6 to v v ; see t||done|: t h# 6 to v v ;$||
defer d 5 value v : t ['] dup to d to v d v ; see t||done|: t h# c0000130 to d to v d v ;$||
: t 3 0 do i j 1 ?do leave 2 +loop unloop exit loop ; see t||done|\
: t 3 0 do i j 1 ?do leave 2 +loop unloop exit loop ;$||
: t >r r@ r> recurse ; : u t t ; see u see t||done|: u t t ;$: t >r r@ r> recurse ;$||
: t~1~2 if~3 then~;~see t||done|: t 1 2 if 3 then ;$||
: abcdefghijklmnopqrstuvwxyz01234 ; : t abcdefghijklmnopqrstuvwxyz01234 ; see t||done|\
: t abcdefghijklmnopqrstuvwxyz01234 ;$||
: t see ; t||done|primitive ;$fault -13: undefined word$||
see||done|fault -16: zero-length name$||
s\" see dup\" evaluate s\" see\" evaluate||done|primitive dup$fault -16: zero-length name$||
";

/// Words that an image makes, of each kind; the same where each but the definition is made by `b(create)`; a definition
/// that calls a word without a name; and an image that evaluates such words, for whose node they print.
const MADE: &str = "\
f108000000000000ca01610800a5b8ca01620801b9ca01630802a6baca01640803bbca01650804bcca01660805a7bdca01670806a5a8be46\
ca01680807c0a5b8ca01690808b7080008071fc200|dev /slot see a see b see c see d see e see f see g~\
see h see i words device-end words see i||done|value a$variable b$constant c$create d$defer e$buffer f$field g$\
slot per instance h$: i a h - ;$i h g f e d c b a $$primitive i$||
f108000000000000ca01610800bbca01620801bbca01630802bbca01640803bbca01650804bbca01660805bbca01670806bb\
ca01680807bbca01690808b7080008071fc200|dev /slot see a see h see i||done|create a$create h$: i a h - ;$||
f108000000000000b50800b7a6c2ca01740801b70800080110000000ff12022241c200|dev /slot see t||done|\
: t [ h# c000052c compile, ] recurse h# ff \" \"(22)A\" ;$||
f108000000000000b50800a5b8ca01740801b7a6c308000800c200|dev /slot see t||done|\
: t 1 [ h# c000052c ] to, [ h# c000052c compile, ] ;$||
f108000000000000ca01610800b7c2ca01740801b7a6c30800a6c347c200|dev /slot see t||done|: t 1 to a 1 to dup ;$||
f108000000000000ca036120620800b7a6c2ca01740801b70800c2ca01760802b7a5c30800c200|dev /slot see t see v words||done|\
: t [ h# c000052c compile, ] ;$: v 0 [ h# c000052c ] to, ;$v t a b $||
f108000000000000a6100050000472b601610800b7c200|dev /slot words||done|a $||
f108000000000000ca01740800b7140007a6130005b2a7b2c200|dev /slot see t 0 t .~\
: u if 1 ahead [ h# 1 ] cs-roll then 2 then ; 0 u . see u||done|: t if 1 ahead [ h# 1 ] cs-roll then 2 then ;$2 \
2 : u if 1 ahead [ h# 1 ] cs-roll then 2 then ;$||
f108000000000000ca01740800b7140006a6130004b2a7b2c200|dev /slot see t 1 t .||done|\
: t if 1 ahead [ h# 1 ] cs-roll then 2 then ;$1 ||
f108000000000000ca01740800b71000000001a61147c200|dev /slot see t||done|: t h# 1 1 h# c0000130 ;$||
f1080000000000001209646576202f20707764cd00|pwd||done|/$fault -259: no such node$||
f108000000000000120e6465766963652d656e6420707764cd00|pwd||done|fault -259: no such node$fault -259: no such node$||
f108000000000000120b2e70726f70657274696573cd12117077642073686f772d6465767320736565cd00|||done|\
name \"slot\"$/slot$/$/packages$/slot$fault -16: zero-length name$||
f108000000000000ca01610800b7c2120b776f726473207365652061cd00|words||done|a $: a ;$$||
f108000000000000b601610800b7c200|words dev /slot words||done|$$||
";

#[test]
fn printing(rt: HostRuntime) -> Result<(), Fail> {
    check::<LineRows, _>(&rt, rt.alloc(), PROPERTIES)?;
    check::<LineRows, _>(&rt, rt.alloc(), NODES)?;
    check::<LineRows, _>(&rt, rt.alloc(), NAMES)?;
    check::<LineRows, _>(&rt, rt.alloc(), SEEN)?;
    check::<ImageRows, _>(&rt, rt.alloc(), MADE)
}
