//! The words over instances that run no method, on the instances that `new-device` opens, and property words there.

use crate::rows::check;
use crate::running::{Trial, WordRows};
use std::test::Fail;

/// The current instance, the one that it was opened below, and packages of instances. An ihandle isn't used again, and
/// is that of none once its instance was released.
const HANDLES: &str = "\
my-self|0|
@2 my-self|0|name=736c6f7400
@2 new-device my-self|e0000000|
@2 new-device my-self my-parent|e0000000 0|
@2 new-device new-device my-self my-parent|e0000004 e0000000|
@2 new-device @1 new-device my-self my-parent|e0000004 e0000000|
@2 new-device @1 new-device finish-device my-self|e0000000|name=7061636b6167657300
@2 new-device finish-device my-self|0|name=736c6f7400
@2 new-device new-device finish-device my-self my-parent|e0000000 0|
@2 new-device new-device finish-device finish-device my-self|0|name=736c6f7400
@2 new-device finish-device new-device my-self my-parent|e0000004 0|
@2 new-device new-device finish-device new-device my-self my-parent|e0000008 e0000000|
@2 new-device my-self ihandle>phandle|d000000c|
@2 new-device @0 my-self ihandle>phandle|d000000c|name=626f61726400
@2 new-device new-device my-parent ihandle>phandle my-self ihandle>phandle|d000000c d0000010|
@2 new-device my-self finish-device ihandle>phandle|e0000000 throws -260|name=736c6f7400
@2 new-device my-self finish-device new-device ihandle>phandle|e0000000 throws -260|
*ff my-self|256 cells|
@2 new-device *ff my-parent|256 cells|
@2 new-device *ff my-self ihandle>phandle|256 cells|
";

/// Behind an image the current instance is the one that was current before it, even if that was released meanwhile;
/// what was opened in the image is released.
const IMAGES: &str = "\
@2 [ new-device my-self ] my-self|e0000000 0|name=736c6f7400
@2 new-device [ new-device my-self ] my-self|e0000004 e0000000|
@2 new-device [ new-device my-self ] ihandle>phandle|e0000004 throws -260|
@2 new-device [ new-device new-device my-self my-parent ] ihandle>phandle|e0000008 e0000004 throws -260|
@2 new-device [ new-device ] my-self ihandle>phandle|d000000c|
@2 new-device [ new-device ] new-device my-self my-parent|e0000008 e0000000|
@2 new-device [ finish-device new-device my-self ] my-self|e0000004 e0000000|
@2 new-device [ finish-device ] my-self ihandle>phandle|e0000000 throws -260|
@2 new-device [ finish-device ] new-device my-self my-parent|e0000004 e0000000|
@2 new-device [ new-device ] new-device my-args|300008 0|
@2 new-device [ finish-device new-device ] new-device my-args|300000 0|
";

/// Arguments stand in blocks of the instance region: each at the least address where it meets no other, of a length
/// that is a multiple of 8, and at least 8. `set-args` takes the new block before it gives the old one back.
const ARGUMENTS: &str = "\
@2 new-device my-args|300000 0|
@2 new-device new-device my-args|300008 0|
@2 new-device finish-device new-device my-args|300000 0|
@2 new-device new-device finish-device new-device my-args|300008 0|
@2 new-device \"ab %0 %0 set-args my-args|300008 2|
@2 new-device \"ab %0 %0 set-args new-device my-args|300000 0|
@2 new-device \"ab %0 %0 set-args \"c %0 %0 set-args my-args|300000 1|
@2 new-device \"ab %0 %0 set-args %0 %0 %0 %0 set-args my-args|300000 0|
@2 new-device \"ab %0 %0 set-args %0 %0 %0 %0 set-args new-device my-args|300008 0|
@2 new-device \"12345678 %0 %0 set-args new-device new-device my-args|300010 0|
@2 new-device \"123456789 %0 %0 set-args new-device new-device my-args|300018 0|
@2 new-device new-device \"123456789 %0 %0 set-args my-args|300010 9|
@2 new-device new-device \"123456789 %0 %0 set-args finish-device \"ab %0 %0 set-args my-args|300008 2|
@2 new-device \"ab %0 %0 set-args my-args drop c@ %300009 c@ %30000a c@|61 62 0|
@2 new-device \"ab %0 %0 set-args %7a %100000 c! my-args drop c@|61|
@2 new-device \"abc %0 %0 set-args my-args %0 %0 set-args my-args %300002 c@|300000 3 63|
@2 new-device %c0000000 %0 %5 %0 set-args my-args|300008 0|
@2 new-device %ff %300007 c! %300007 c@|ff|
@2 new-device %ff %300007 c! finish-device new-device %300007 c@|0|
@2 new-device %1234 %31fffc l! %31fffc l@|1234|
@2 new-device %100000 %1fff8 %0 %0 set-args my-args|300008 1fff8|
@2 new-device %100000 %1fff8 %0 %0 set-args new-device my-args|300000 0|
@2 new-device *fe my-args|256 cells|
";

/// Physical addresses, all 0 at first, and the texts that set them: numbers may have more digits than they need,
/// capital ones, and `-` in front.
const UNITS: &str = "\
@2 new-device my-unit|0 0|
@2 new-device my-address my-space|0 0|
@2 new-device %0 %0 \"1,abc00000 set-args my-unit|abc00000 1|
@2 new-device %0 %0 \"1,abc00000 set-args my-address|abc00000|
@2 new-device %0 %0 \"1,abc00000 set-args my-space|1|
@2 new-device %0 %0 \"1,2 set-args new-device my-unit|0 0|
@2 new-device %0 %0 \"1,2 set-args new-device finish-device my-unit|2 1|
@2 new-device %0 %0 \"1,2 set-args %0 %0 %0 %0 set-args my-unit|0 0|
@2 new-device %0 %0 \"1,2 set-args %0 %0 \"3,4 set-args my-unit|4 3|
@2 new-device \"ab \"1,2 set-args my-args my-unit|300008 2 2 1|
@2 new-device %0 %0 \"ffffffff,0 set-args my-unit|0 ffffffff|
@2 new-device %0 %0 \"-1,-80000000 set-args my-unit|80000000 ffffffff|
@2 new-device %0 %0 \"-0,-00000001 set-args my-unit|ffffffff 0|
@2 new-device %0 %0 \"FF,aB set-args my-unit|ab ff|
@2 new-device %0 %0 \"0000000001,00000000ffffffff set-args my-unit|ffffffff 1|
@2 new-device *fe my-unit|256 cells|
@2 new-device *ff my-address|256 cells|
@2 new-device *ff my-space|256 cells|
";

/// Addresses of as many cells as the parent's `#address-cells` says, 2 where that isn't 1 to 4.
const COUNTS: &str = "\
@2 %1 encode-int \"#address-cells property new-device my-unit|0|
@2 %1 encode-int \"#address-cells property new-device %0 %0 \"5 set-args my-unit|5|
@2 %1 encode-int \"#address-cells property new-device %0 %0 \"5 set-args my-address||
@2 %1 encode-int \"#address-cells property new-device %0 %0 \"5 set-args my-space|5|
@2 %1 encode-int \"#address-cells property new-device *100 my-address|256 cells|
@2 %1 encode-int \"#address-cells property new-device new-device my-unit|0 0|
@2 %1 encode-int \"#address-cells property new-device %7 encode-phys decode-phys|100016 0 7|
@2 %3 encode-int \"#address-cells property new-device my-unit|0 0 0|
@2 %3 encode-int \"#address-cells property new-device %0 %0 \"1,2,3 set-args my-unit|3 2 1|
@2 %3 encode-int \"#address-cells property new-device %0 %0 \"1,2,3 set-args my-address|3 2|
@2 %3 encode-int \"#address-cells property new-device %0 %0 \"1,2,3 set-args my-space|1|
@2 %3 encode-int \"#address-cells property new-device *fd my-unit|256 cells|
@2 %3 encode-int \"#address-cells property new-device %7 %8 %9 encode-phys|100012 c|
@2 %3 encode-int \"#address-cells property new-device %7 %8 %9 encode-phys decode-int|100016 8 9|
@2 %3 encode-int \"#address-cells property new-device %7 %8 %9 encode-phys decode-phys|10001e 0 7 8 9|
@2 %4 encode-int \"#address-cells property new-device my-unit|0 0 0 0|
@2 %4 encode-int \"#address-cells property new-device %0 %0 \"1,2,3,4 set-args my-unit|4 3 2 1|
@2 %4 encode-int \"#address-cells property new-device %0 %0 \"1,2,3,4 set-args my-address|4 3 2|
@2 %4 encode-int \"#address-cells property new-device %0 %0 \"1,2,3,4 set-args my-space|1|
@2 %4 encode-int \"#address-cells property new-device *fc my-unit|256 cells|
@2 %4 encode-int \"#address-cells property new-device %6 %7 %8 %9 encode-phys decode-phys|100022 0 6 7 8 9|
@2 %0 encode-int \"#address-cells property new-device my-unit|0 0|
@2 %5 encode-int \"#address-cells property new-device my-unit|0 0|
@2 \"abc \"#address-cells property new-device my-unit|0 0|
@2 new-device %3 encode-int \"#address-cells property my-unit|0 0|#address-cells=00000003
@2 new-device %3 encode-int \"#address-cells property new-device my-unit|0 0 0|
@0 %3 encode-int \"#address-cells property @2 new-device @1 my-unit|0 0|name=7061636b6167657300
";

/// Texts that are no addresses, for 1, 2, 3 and 4 cells; an address that is refused leaves the cells on the stack.
const BAD_UNITS: &str = "\
@2 new-device %0 %0 \"1 set-args|0 0 100000 1 throws -24|
@2 new-device %0 %0 \"1,2,3 set-args|0 0 100000 5 throws -24|
@2 new-device %0 %0 \"1, set-args|0 0 100000 2 throws -24|
@2 new-device %0 %0 \",2 set-args|0 0 100000 2 throws -24|
@2 new-device %0 %0 \", set-args|0 0 100000 1 throws -24|
@2 new-device %0 %0 \"1,2, set-args|0 0 100000 4 throws -24|
@2 new-device %0 %0 \",1,2 set-args|0 0 100000 4 throws -24|
@2 new-device %0 %0 \"1,,2 set-args|0 0 100000 4 throws -24|
@2 new-device %0 %0 \"1,g set-args|0 0 100000 3 throws -24|
@2 new-device %0 %0 \"1x,2 set-args|0 0 100000 4 throws -24|
@2 new-device %0 %0 \"1.2 set-args|0 0 100000 3 throws -24|
@2 new-device %0 %0 \"100000000,0 set-args|0 0 100000 b throws -24|
@2 new-device %0 %0 \"0,100000000 set-args|0 0 100000 b throws -24|
@2 new-device %0 %0 \"-80000001,0 set-args|0 0 100000 b throws -24|
@2 new-device %0 %0 \"-,1 set-args|0 0 100000 3 throws -24|
@2 new-device %0 %0 \"1,- set-args|0 0 100000 3 throws -24|
@2 new-device %0 %0 \"--1,2 set-args|0 0 100000 5 throws -24|
@2 new-device %0 %0 \"+1,2 set-args|0 0 100000 4 throws -24|
@2 %1 encode-int \"#address-cells property new-device %0 %0 \"1,2 set-args|0 0 100012 3 throws -24|
@2 %1 encode-int \"#address-cells property new-device %0 %0 \"1, set-args|0 0 100012 2 throws -24|
@2 %1 encode-int \"#address-cells property new-device %0 %0 \", set-args|0 0 100012 1 throws -24|
@2 %1 encode-int \"#address-cells property new-device %0 %0 \"100000000 set-args|0 0 100012 9 throws -24|
@2 %3 encode-int \"#address-cells property new-device %0 %0 \"1,2 set-args|0 0 100012 3 throws -24|
@2 %3 encode-int \"#address-cells property new-device %0 %0 \"1,2,3,4 set-args|0 0 100012 7 throws -24|
@2 %3 encode-int \"#address-cells property new-device %0 %0 \"1,2, set-args|0 0 100012 4 throws -24|
@2 %4 encode-int \"#address-cells property new-device %0 %0 \"1,2,3 set-args|0 0 100012 5 throws -24|
@2 %4 encode-int \"#address-cells property new-device %0 %0 \"1,2,3,4,5 set-args|0 0 100012 9 throws -24|
@2 %4 encode-int \"#address-cells property new-device %0 %0 \"1,2,3,4, set-args|0 0 100012 8 throws -24|
";

/// Of several faults the first of the order counts: -4, -260, -9, -24, -8, -3.
const FAULTS: &str = "\
*100 my-self|256 cells throws -3|
my-parent|throws -260|
@2 my-parent|throws -260|name=736c6f7400
*100 my-parent|256 cells throws -260|
@2 new-device *100 my-parent|256 cells throws -3|
@2 new-device [ finish-device ] my-parent|throws -260|
ihandle>phandle|throws -4|
@2 new-device ihandle>phandle|throws -4|
%0 ihandle>phandle|0 throws -260|
%e0000000 ihandle>phandle|e0000000 throws -260|
%d0000008 ihandle>phandle|d0000008 throws -260|
@2 new-device %e0000002 ihandle>phandle|e0000002 throws -260|
@2 new-device %e0000004 ihandle>phandle|e0000004 throws -260|
@2 new-device %dffffffc ihandle>phandle|dffffffc throws -260|
my-args|throws -260|
*ff my-args|255 cells throws -260|
@2 new-device *ff my-args|255 cells throws -3|
@2 new-device *100 my-args|256 cells throws -3|
@2 new-device [ finish-device ] my-args|throws -260|
my-unit|throws -260|
*ff my-unit|255 cells throws -260|
@2 new-device *ff my-unit|255 cells throws -3|
@2 new-device [ finish-device ] my-unit|throws -260|
@2 %3 encode-int \"#address-cells property new-device *fe my-unit|254 cells throws -3|
@2 %4 encode-int \"#address-cells property new-device *fd my-unit|253 cells throws -3|
my-address|throws -260|
*100 my-address|256 cells throws -260|
@2 new-device *100 my-address|256 cells throws -3|
@2 new-device [ finish-device ] my-address|throws -260|
@2 %4 encode-int \"#address-cells property new-device *fe my-address|254 cells throws -3|
my-space|throws -260|
*100 my-space|256 cells throws -260|
@2 new-device *100 my-space|256 cells throws -3|
@2 new-device [ finish-device ] my-space|throws -260|
";

/// Faults of `set-args` and, where the instance region is full, of `new-device`. 0x1FFF8 bytes fill the region behind
/// the block of the empty arguments.
const FULL: &str = "\
set-args|throws -4|
%1 %2 %3 set-args|1 2 3 throws -4|
@2 new-device %1 %2 %3 set-args|1 2 3 throws -4|
%c0000000 %1 %c0000000 %1 set-args|c0000000 1 c0000000 1 throws -260|
@2 new-device [ finish-device ] %c0000000 %1 %0 %0 set-args|c0000000 1 0 0 throws -260|
@2 new-device %c0000000 %1 \"x set-args|c0000000 1 100000 1 throws -9|
@2 new-device %0 %0 %c0000000 %1 set-args|0 0 c0000000 1 throws -9|
@2 new-device %100000 %40001 %0 %0 set-args|100000 40001 0 0 throws -9|
@2 new-device %100000 %1fff9 %c0000000 %1 set-args|100000 1fff9 c0000000 1 throws -9|
@2 new-device %100000 %1fff9 \"x set-args|100000 1fff9 100000 1 throws -24|
@2 new-device %100000 %1fff9 %0 %0 set-args|100000 1fff9 0 0 throws -8|
@2 new-device %100000 %1fff9 \"1,2 set-args|100000 1fff9 100000 3 throws -8|
@2 new-device new-device %100000 %1fff1 %0 %0 set-args|100000 1fff1 0 0 throws -8|
@2 new-device %100000 %1fff8 %0 %0 set-args new-device \"x %0 %0 set-args|100000 1 0 0 throws -8|
@2 new-device %100000 %1fff8 %0 %0 set-args new-device %0 %0 %0 %0 set-args|0 0 0 0 throws -8|
@2 new-device %100000 %1fff8 %0 %0 set-args new-device new-device|throws -8|
@2 new-device %100000 %1fff8 %0 %0 set-args new-device @2 new-device|throws -8|name=736c6f7400
";

/// Property words work on the package of the current instance, also where another one is active.
const PROPERTIES: &str = "\
@2 new-device \"v \"x property||x=76
@2 new-device @2 \"v \"x property||name=736c6f7400
@2 new-device @2 \"v \"x property @3||x=76
@2 new-device @2 \"v \"x property \"x get-my-property|20003c 1 0|name=736c6f7400
@2 new-device @2 \"m model @3||model=6d00
@2 new-device @2 \"t device-type @3||device_type=7400
@2 new-device @2 \"d device-name @3||name=6400
@2 new-device @2 %1 %2 %3 reg @3||reg=000000020000000100000003
@2 new-device @2 \"name get-my-property|ffffffff|name=736c6f7400
@2 new-device @2 \"m model \"model get-my-property|200040 2 0|name=736c6f7400
@2 new-device @2 \"name delete-property||name=736c6f7400
@2 new-device \"m model @2 \"model delete-property @3||
@2 new-device \"v \"x property new-device \"w \"x property @3||x=76
@2 new-device \"v \"x property new-device \"w \"x property @4||x=77
@2 new-device new-device finish-device \"v \"x property||x=76
@2 new-device new-device finish-device @1 \"v \"x property @3||x=76
@2 new-device finish-device \"v \"x property||name=736c6f7400 x=76
@2 new-device finish-device @1 \"v \"x property||name=7061636b6167657300 x=76
@2 new-device @400 \"v \"x property @3||x=76
@0 %1 encode-int \"#address-cells property @2 new-device @2 %7 %8 encode-phys|100012 8|name=736c6f7400
@0 %1 encode-int \"#address-cells property @2 new-device @2 %7 %8 encode-phys decode-phys|10001a 0 7 8|name=736c6f7400
@0 %1 encode-int \"#address-cells property @2 new-device @2 %7 %8 %9 reg @3||reg=000000080000000700000009
@2 new-device %0 %0 \"1,2 set-args my-unit encode-phys decode-int|100007 4 1|
@2 new-device %0 %0 \"1,2 set-args my-address my-space %100 reg||reg=000000010000000200000100
";

/// Where the current instance was released, property words throw -260: behind -4, before -9, -32, -262 and -8.
const RELEASED: &str = "\
@2 new-device [ finish-device ] \"v \"x property|100000 1 100001 1 throws -260|
@2 new-device [ finish-device ] \"v %1 property|100000 1 1 throws -4|
@2 new-device [ finish-device ] %c0000000 %1 \"a/b property|c0000000 1 100000 3 throws -260|
@2 new-device [ finish-device ] %c0000000 %1 model|c0000000 1 throws -260|
@2 new-device [ finish-device ] %1 model|1 throws -4|
@2 new-device [ finish-device ] \"t device-type|100000 1 throws -260|
@2 new-device [ finish-device ] \"a/b device-name|100000 3 throws -260|
@2 new-device [ finish-device ] %1 reg|1 throws -4|
@2 new-device [ finish-device ] %1 %2 reg|1 2 throws -260|
@2 new-device [ finish-device ] %c0000000 %1 get-my-property|c0000000 1 throws -260|
@2 new-device [ finish-device ] \"x delete-property|100000 1 throws -260|
@2 new-device [ finish-device ] encode-phys|throws -4|
@2 new-device [ finish-device ] %1 encode-phys|1 throws -260|
@2 new-device [ finish-device ] >40000 %1 %2 encode-phys|1 2 throws -260|
@2 new-device [ finish-device ] %1 decode-phys|1 throws -4|
@2 new-device [ finish-device ] %100000 %1 decode-phys|100000 1 throws -260|
@2 new-device [ finish-device ] @400 \"v \"x property|100000 1 100001 1 throws -260|
@2 new-device [ finish-device ] @2 \"m model|100000 1 throws -260|name=736c6f7400
";

#[test]
fn instances(rt: HostRuntime) -> Result<(), Fail> {
    check::<WordRows, _>(&rt, rt.alloc(), &[HANDLES, IMAGES, ARGUMENTS, UNITS])
}

#[test]
fn counts(rt: HostRuntime) -> Result<(), Fail> {
    check::<WordRows, _>(&rt, rt.alloc(), &[COUNTS, BAD_UNITS, FULL])
}

#[test]
fn faults(rt: HostRuntime) -> Result<(), Fail> {
    check::<WordRows, _>(&rt, rt.alloc(), &[FAULTS, PROPERTIES, RELEASED])
}

/// A refused `set-args` leaves arguments and address as they were.
const REFUSED_ARGUMENTS: &str = "\
run @2 new-device \"ab \"1,2 set-args = | d000000c e0000000 1/1 0
run \"cd \"3,4,5 set-args = 100005 2 100007 5 throws -24 | d000000c e0000000 1/1 0
run %100000 %1fff8 \"3,4 set-args = 100005 2 100007 5 100000 1fff8 10000c 3 throws -8 | d000000c e0000000 1/1 0
run 2drop 2drop 2drop 2drop my-args my-unit my-args drop c@ = 300008 2 2 1 61 | d000000c e0000000 1/1 0
";

/// A `new-device` that finds no room for its instance leaves no node, uses neither phandle nor ihandle, and is none to
/// finish.
const REFUSED_DEVICE: &str = "\
run @2 new-device %100000 %1fff8 %0 %0 set-args new-device new-device = throws -8 | d0000010 e0000004 2/2 0 1
child d0000010 = - | d0000010 e0000004 2/2 0 1
run finish-device new-device = | d0000014 e0000008 2/3 0 2
run my-self my-self ihandle>phandle my-args = e0000008 d0000014 300000 0 | d0000014 e0000008 2/3 0 2
";

/// `my-unit` reads as many cells as are counted then, of four that `set-args` filled from the front.
const COUNTS_CHANGE: &str = "\
run @2 new-device new-device %0 %0 \"1,2 set-args = | d0000010 e0000004 2/2 0 1
activate d0000010 e0000000 = done | d0000010 e0000000 2/2 0 1
run %4 encode-int \"#address-cells property = | d0000010 e0000000 2/2 0 1
activate d0000010 e0000004 = done | d0000010 e0000004 2/2 0 1
run my-unit my-address my-space = 0 0 2 1 0 0 2 1 | d0000010 e0000004 2/2 0 1
";

/// An instance of the root, which has no parent: two cells count.
const ROOT: &str = "\
run @0 %3 encode-int \"#address-cells property = | d0000000 0 0/0
open d0000000 = e0000000 | d0000000 0 0/0 0
activate d0000000 e0000000 = done | d0000000 e0000000 0/0 0
run my-unit %0 %0 \"1,2 set-args my-unit my-self ihandle>phandle = 0 0 2 1 d0000000 | d0000000 e0000000 0/0 0
";

/// Where an instance is current, property words need no active package, and `new-device` does.
const NO_PACKAGE: &str = "\
run @2 new-device = | d000000c e0000000 1/1 0
activate - e0000000 = done | 0 e0000000 1/1 0
run \"v \"x property \"x get-my-property new-device = 20003c 1 0 throws -259 | 0 e0000000 1/1 0
run my-parent = 20003c 1 0 0 | 0 e0000000 1/1 0
";

#[test]
fn histories(rt: HostRuntime) -> Result<(), Fail> {
    let tables = [
        REFUSED_ARGUMENTS,
        REFUSED_DEVICE,
        COUNTS_CHANGE,
        ROOT,
        NO_PACKAGE,
    ];
    check::<Trial, _>(&rt, rt.alloc(), &tables)
}
