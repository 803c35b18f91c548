//! Words that throw, and leave all as it was.

use crate::rows::check;
use crate::running::WordRows;
use std::test::Fail;

/// Of several faults the first of the order counts: -4, -259, -263, -9, -32, -24, -262, -8, -3.
const ENCODING: &str = "\
encode-int|throws -4|
>3fffd %5 encode-int|5 throws -8|
*ff %5 encode-int|256 cells throws -3|
*100 >40000 encode-int|256 cells throws -8|
%1 encode-string|1 throws -4|
%c0000000 %1 encode-string|c0000000 1 throws -9|
\"ab >3fffc encode-string|100000 2 throws -8|
%1 encode-bytes|1 throws -4|
>40000 %c0000000 %1 encode-bytes|c0000000 1 throws -9|
\"ab >3fffd encode-bytes|100000 2 throws -8|
encode-phys|throws -4|
%1 encode-phys|1 throws -259|
@2 encode-phys|throws -4|name=736c6f7400
@2 %1 encode-phys|1 throws -4|name=736c6f7400
@2 >3fff9 %1 %2 encode-phys|1 2 throws -8|name=736c6f7400
@0 %1 encode-int \"#address-cells property @2 *100 encode-phys|256 cells throws -3|name=736c6f7400
@400 %1 %2 encode-phys|1 2 throws -263|
%1 %2 %3 encode+|1 2 3 throws -4|
%1 %2 %4 %5 encode+|1 2 4 5 throws -24|
%1 decode-int|1 throws -4|
%c0000000 %1 decode-int|c0000000 1 throws -9|
%100000 %3 decode-int|100000 3 throws -262|
*fe %1 encode-int decode-int|256 cells throws -3|
%1 decode-string|1 throws -4|
%c0000000 %1 decode-string|c0000000 1 throws -9|
\"ab decode-string|100000 2 throws -262|
*fd \"a encode-string decode-string|255 cells throws -3|
@2 %1 decode-phys|1 throws -4|name=736c6f7400
%c0000000 %1 decode-phys|c0000000 1 throws -259|
@2 %c0000000 %1 decode-phys|c0000000 1 throws -9|name=736c6f7400
@2 %100000 %7 decode-phys|100000 7 throws -262|name=736c6f7400
@2 *fd %1 %2 encode-phys decode-phys|255 cells throws -3|name=736c6f7400
";

/// Words that set and delete properties; a second bad name of a node leaves the first.
const SETTING: &str = "\
@2 \"v %1 property|100000 1 1 throws -4|name=736c6f7400
%c0000000 %1 \"x property|c0000000 1 100000 1 throws -259|
@2 %c0000000 %1 \"a/b property|c0000000 1 100000 3 throws -9|name=736c6f7400
@2 \"v %c0000000 %20 property|100000 1 c0000000 20 throws -9|name=736c6f7400
@2 \"v \"a/b property|100000 1 100001 3 throws -32|name=736c6f7400
@2 \"v %0 %0 property|100000 1 0 0 throws -32|name=736c6f7400
@2 \"v \"12345678901234567890123456789012 property|100000 1 100001 20 throws -32|name=736c6f7400
@2 %100000 %20000 \"big property|100000 20000 100000 3 throws -8|name=736c6f7400
@2 %100000 %20000 \"a/b property|100000 20000 100000 3 throws -32|name=736c6f7400
@2 \"v \"name property|100000 1 100001 4 throws -32|name=736c6f7400
%1 reg|1 throws -4|
%1 %2 reg|1 2 throws -259|
@2 %1 %2 reg|1 2 throws -4|name=736c6f7400
@400 %1 %2 %3 reg|1 2 3 throws -263|
%1 model|1 throws -4|
%c0000000 %1 model|c0000000 1 throws -259|
@2 %c0000000 %1 model|c0000000 1 throws -9|name=736c6f7400
%1 device-type|1 throws -4|
%c0000000 %1 device-type|c0000000 1 throws -259|
@2 %c0000000 %1 device-type|c0000000 1 throws -9|name=736c6f7400
%1 device-name|1 throws -4|
%c0000000 %1 device-name|c0000000 1 throws -259|
@2 %c0000000 %1 device-name|c0000000 1 throws -9|name=736c6f7400
@2 \"a/b device-name|100000 3 throws -32|name=736c6f7400
@2 \"disk device-name \"a/b device-name|100004 3 throws -32|name=6469736b00
@2 %0 %0 device-name|0 0 throws -32|name=736c6f7400
%1 delete-property|1 throws -4|
%c0000000 %1 delete-property|c0000000 1 throws -259|
@2 %c0000000 %1 delete-property|c0000000 1 throws -9|name=736c6f7400
";

/// A value that fills the property region: from 0x20003C on, behind the name of three bytes, 0x1FFC4 bytes.
const FULL: &str = "\
@2 %100000 %1ffc5 \"big property|100000 1ffc5 100000 3 throws -8|name=736c6f7400
@2 %100000 %1ffc4 \"big property||name=736c6f7400 big=1ffc4 bytes
@2 %100000 %1ffc4 \"big property \"v \"x property|100003 1 100004 1 throws -8|name=736c6f7400 big=1ffc4 bytes
@2 %100000 %1ffc4 \"big property %1 %2 %3 reg|1 2 3 throws -8|name=736c6f7400 big=1ffc4 bytes
@2 %100000 %1ffc4 \"big property \"m model|100003 1 throws -8|name=736c6f7400 big=1ffc4 bytes
@2 %100000 %1ffc4 \"big property \"m device-type|100003 1 throws -8|name=736c6f7400 big=1ffc4 bytes
@2 %100000 %1ffc4 \"big property \"m device-name|100003 1 throws -8|name=736c6f7400 big=1ffc4 bytes
@2 %100000 %1ffc4 \"big property \"a/b device-name|100003 3 throws -32|name=736c6f7400 big=1ffc4 bytes
";

const FINDING: &str = "\
%1 get-my-property|1 throws -4|
%c0000000 %1 get-my-property|c0000000 1 throws -259|
@2 %c0000000 %1 get-my-property|c0000000 1 throws -9|name=736c6f7400
@2 *fe \"name get-my-property|256 cells throws -3|name=736c6f7400
%1 get-inherited-property|1 throws -4|
%c0000000 %1 get-inherited-property|c0000000 1 throws -259|
@2 %c0000000 %1 get-inherited-property|c0000000 1 throws -9|name=736c6f7400
@2 *fe \"name get-inherited-property|256 cells throws -3|name=736c6f7400
@2 \"q get-inherited-property|ffffffff|name=736c6f7400
%1 %2 get-package-property|1 2 throws -4|
%c0000000 %1 %d000000c get-package-property|c0000000 1 d000000c throws -263|
%c0000000 %1 %d0000008 get-package-property|c0000000 1 d0000008 throws -9|
%1 %2 next-property|1 2 throws -4|
%c0000000 %1 %d0000001 next-property|c0000000 1 d0000001 throws -263|
%c0000000 %1 %d0000000 next-property|c0000000 1 d0000000 throws -9|
";

const NODES: &str = "\
new-device|throws -259|
@400 new-device|throws -263|
@2 finish-device|throws -259|name=736c6f7400
@2 new-device finish-device finish-device|throws -259|name=736c6f7400
child|throws -4|
%0 child|0 throws -263|
peer|throws -4|
%1 peer|1 throws -263|
%1 find-package|1 throws -4|
%c0000000 %1 find-package|c0000000 1 throws -9|
%1 %2 find-method|1 2 throws -4|
%c0000000 %1 %0 find-method|c0000000 1 0 throws -263|
%c0000000 %1 %d0000000 find-method|c0000000 1 d0000000 throws -9|
close-package|throws -4|
%0 close-package|0 throws -260|
open-package|throws -4|
%1 %2 open-package|1 2 throws -4|
$open-package|throws -4|
%1 %2 %3 $open-package|1 2 3 throws -4|
";

/// The words that always run a method, where there is one, are as unassigned on the board alone.
const METHODS: &str = "\
call-package|throws -256|
$call-parent|throws -256|
$call-method|throws -256|
";

#[test]
fn lines(rt: HostRuntime) -> Result<(), Fail> {
    let tables = [ENCODING, SETTING, FULL, FINDING, NODES, METHODS];
    check::<WordRows, _>(&rt, rt.alloc(), &tables)
}
