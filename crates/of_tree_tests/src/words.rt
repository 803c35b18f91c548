//! Words that don't throw.

use crate::rows::check;
use crate::running::{Trial, WordRows};
use of_instances::{tree_words_throw_listed, words_keep_the_space};
use std::test::Fail;

/// Values at `here`, and what is read of them.
const ENCODED: &str = "\
%12345678 encode-int|100000 4|
>3fffc %5 encode-int|13fffc 4|
\"ab >3fffb encode-string|13fffd 3|
@2 >3fff8 %1 %2 encode-phys|13fff8 8|name=736c6f7400
\"ab encode-string|100002 3|
\"ab encode-bytes|100002 2|
%0 %0 encode-bytes|100000 0|
\"ab >3fffc encode-bytes|13fffe 2|
\"ab encode-bytes %7 encode-int encode+|100002 6|
%1 encode-int %2 encode-int encode+ decode-int|100004 4 1|
\"ab encode-string decode-string|100005 0 100002 2|
%ff encode-int decode-string|100001 3 100000 0|
@2 %1 %2 encode-phys|100000 8|name=736c6f7400
@2 %1 %2 encode-phys decode-int|100004 4 2|name=736c6f7400
@2 %1 %2 encode-phys decode-phys|100008 0 1 2|name=736c6f7400
@0 %1 %2 encode-phys|100000 8|name=626f61726400
@0 %1 encode-int \"#address-cells property @2 %7 encode-phys decode-phys|100016 0 7|name=736c6f7400
@2 %1 encode-int \"#address-cells property %7 %8 encode-phys|100012 8|name=736c6f7400 #address-cells=00000001
@2 %1 encode-int \"#address-cells property new-device %7 encode-phys|100012 4|
*fd %1 encode-int decode-int|256 cells|
";

/// Properties that are set and deleted. Those that `reg`, `model`, `device-type` and `device-name` set leave `here`
/// where it is.
const SET: &str = "\
@2 %5 encode-int \"x property||name=736c6f7400 x=00000005
@2 %0 %0 \"x property||name=736c6f7400 x=
@2 \"v \"x property \"wy \"y property \"u \"x property||name=736c6f7400 x=75 y=7779
@0 \"v \"x property @2||name=736c6f7400
@2 %1 %2 %100 reg||name=736c6f7400 reg=000000020000000100000100
@2 %1 %2 %100 reg %5 encode-int|100000 4|name=736c6f7400 reg=000000020000000100000100
@0 %1 encode-int \"#address-cells property @2 %9 %7 %3 reg|9|name=736c6f7400 reg=0000000700000003
@2 \"m1 model||name=736c6f7400 model=6d3100
@2 \"block device-type||name=736c6f7400 device_type=626c6f636b00
@2 \"disk device-name||name=6469736b00
@2 \"m model \"d device-name %5 encode-int|100002 4|name=6400 model=6d00
@2 %0 %0 model||name=736c6f7400 model=00
@2 \"m model \"name delete-property||model=6d00
@2 \"x delete-property||name=736c6f7400
@2 \"a/b delete-property %0 %0 delete-property||name=736c6f7400
";

/// Properties that are found. The names and values of the first nodes lie from 0x200010 to 0x200035.
const FOUND: &str = "\
@2 \"name get-my-property|200030 5 0|name=736c6f7400
@2 \"y get-my-property|ffffffff|name=736c6f7400
@2 %0 %0 get-my-property|ffffffff|name=736c6f7400
@2 \"a/b get-my-property|ffffffff|name=736c6f7400
@2 \"m model \"n model \"model get-my-property|200044 2 0|name=736c6f7400 model=6e00
@2 *fe \"y get-my-property|255 cells|name=736c6f7400
\"name %d0000004 get-package-property|200020 9 0|
\"x %d0000000 get-package-property|ffffffff|
*fd \"name %d0000004 get-package-property|256 cells|
%0 %0 %d0000008 next-property|20002c 4 ffffffff|
@2 \"m model \"name %d0000008 next-property|200038 5 ffffffff|name=736c6f7400 model=6d00
@2 \"m model \"model %d0000008 next-property|0|name=736c6f7400 model=6d00
\"x %d0000008 next-property|0|
@2 new-device %0 %0 %d000000c next-property|0|
";

/// Nodes that are made and found.
const NODES: &str = "\
@2 new-device||
@2 new-device \"v \"x property||x=76
@2 new-device finish-device||name=736c6f7400
@2 new-device new-device finish-device \"m model||model=6d00
@2 new-device @0 new-device finish-device||name=626f61726400
@2 new-device @0 new-device finish-device finish-device||name=736c6f7400
%d0000000 child|d0000004|
%d0000004 peer|d0000008|
%d0000008 peer|0|
%d0000008 child|0|
%d0000000 peer|0|
%0 peer|d0000000|
@2 new-device %d0000008 child|d000000c|
@2 new-device finish-device new-device %d000000c peer|d0000010|
%0 %0 find-package|d0000004 ffffffff|
\"x find-package|0|
@1 new-device \"disk device-name \"disk find-package|d000000c ffffffff|name=6469736b00
\"open %d0000008 find-method|0|
";

/// Images, which begin at `[` and end at `]`: at the end each `new-device` that was opened in the image is open no
/// more, also where the image finished older ones, and the package that was active before is active. So is the
/// instance, even if the image released it.
const IMAGES: &str = "\
@2 [ new-device ]||name=736c6f7400
@2 new-device [ new-device ] finish-device||name=736c6f7400
@2 new-device [ new-device new-device ] finish-device||name=736c6f7400
@2 new-device [ finish-device ] finish-device|throws -259|
@2 new-device [ finish-device new-device ] finish-device|throws -259|
@2 new-device \"v \"x property [ finish-device new-device \"w \"x property ]||x=76
@2 new-device new-device [ finish-device new-device ] finish-device||name=736c6f7400
@2 new-device new-device [ finish-device new-device ] finish-device finish-device|throws -259|name=736c6f7400
@2 new-device [ finish-device new-device ] new-device finish-device \"m model|100000 1 throws -260|
@2 new-device [ new-device ] new-device finish-device \"m model||model=6d00
[ @2 new-device ] new-device|throws -259|
";

#[test]
fn lines(rt: HostRuntime) -> Result<(), Fail> {
    let tables = [ENCODED, SET, FOUND, NODES, IMAGES];
    check::<WordRows, _>(&rt, rt.alloc(), &tables)
}

/// A method is found whatever the case of its name.
const METHODS: &str = "\
add_open d0000008 c000052c = done | 0 0 0/0
run \"OPEN %d0000008 find-method = c000052c ffffffff | 0 0 0/0
";

/// There are at most 1,024 nodes, three of them from the beginning. A `new-device` that is refused isn't counted.
const MANY_NODES: &str = "\
activate d0000008 - = done | d0000008 0 0/0
repeat 3fd new-device finish-device = | d0000008 0 0/1021
run new-device = throws -8 | d0000008 0 0/1021
";

#[test]
fn histories(rt: HostRuntime) -> Result<(), Fail> {
    check::<Trial, _>(&rt, rt.alloc(), &[METHODS, MANY_NODES])
}

#[test]
fn laws() {
    tree_words_throw_listed();
    words_keep_the_space();
}
