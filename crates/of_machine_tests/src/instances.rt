//! Images that run in instances: what they print of these, and what is left behind their ends.
use crate::rows::check_on_machines;
use crate::tree::{PrintRows, TreeRows, check_in_turn};
use std::test::Fail;

/// Images loaded one after another, each behind the path of its node, and behind `|` what they print. A load opens an
/// instance of its node, and `new-device` one below that; `finish-device` brings back the one before.
const INSTANCES: &str = "\
/slot 0203 9b 020a 9b 00|e0000000 0
/slot 0203 020b 9b 00|d0000008
/packages 0203 020b 9b 00|d0000004
/ 0203 020b 9b 020d 9d 9d 00|d0000000 0 0
/slot 011f 0203 9b 020a 9b 0127 0203 9b 020a 9b 00|e0000004 e0000000 e0000000 0
/slot 011f 0203 020b 9b 020a 020b 9b 00|d000000c d0000008
/slot 011f 011f 0203 9b 020a 9b 0127 0203 9b 0127 0203 9b 00|e0000008 e0000004 e0000004 e0000000
/slot 011f 0127 011f 0203 9b 020a 9b 00|e0000008 e0000000
/slot 011f 0203 0127 020b 9b 00|fault -260: no such instance$
";

/// Several loads: an ihandle isn't used again, and behind its end an image's instances are none.
const LOADS: &str = "\
/slot 0203 9b 00 + /packages 0203 9b 020a 9b 0203 020b 9b 00|e0000000 e0000004 0 d0000004
/slot 011f 00 + /slot 0203 9b 020a 9b 00|e0000008 0
/slot 011f 0127 00 + /slot 0203 9b 020a 9b 00|e0000008 0
/slot 0203 00 + /slot 020b 9b 00|fault -260: no such instance$
/slot 0203 011f 00 + /slot 020b 9b 00|fault -260: no such instance$
/slot 011f 0203 00 + /slot 020b 9b 00|fault -260: no such instance$
/slot 011f 011f 0203 00 + /slot 020b 9b 00|fault -260: no such instance$
";

/// Throws that nothing catches, and what a later load finds: no current instance, and all blocks given back.
const THROWS: &str = "\
/slot a4 0218 00 + /slot 0203 9b 020a 9b 00|fault -1: abort$e0000004 0
/slot 011f a4 0218 00 + /slot 0203 9b 020a 9b 00|fault -1: abort$e0000008 0
/slot 011f 011f a4 0218 00 + /slot 0203 9b 020a 9b 0202 9b 9b 00|fault -1: abort$e000000c 0 0 300000
/slot a4 0218 00 + /slot 10e0000000 020b 00|fault -1: abort$fault -260: no such instance$
/slot 011f a4 0218 00 + /slot 10e0000004 020b 00|fault -1: abort$fault -260: no such instance$
/slot 011f 137fff 00 + /slot 0203 9b 020a 9b 00|fault -257: image ended$e0000008 0
";

/// Throws that `catch` takes: it brings back the instance, even if that was released meanwhile, and neither finishes a
/// `new-device` nor brings back the active package.
const CAUGHT: &str = "\
/slot b5 0800 b7 011f a4 0218 c2 11 0800 0217 9b 0203 9b 0127 0203 9b 00|ffffffff e0000000 e0000000
/slot b5 0800 b7 011f a4 0218 c2 11 0800 0217 9b 10e0000004 020b 9b 0127 10e0000004 020b 00|\
ffffffff d000000c fault -260: no such instance$
/slot b5 0800 b7 011f a4 0218 c2 11 0800 0217 46 00 + /slot 0203 9b 020a 9b 10e0000004 020b 00|\
e0000008 0 fault -260: no such instance$
/slot 011f b5 0800 b7 0127 a4 0218 c2 11 0800 0217 9b 0203 9b 020a 00|\
ffffffff e0000004 fault -260: no such instance$
/slot 011f b5 0800 b7 0127 a4 0218 c2 11 0800 0217 9b a5 0111 120161 0110 00|ffffffff fault -260: no such instance$
";

/// Arguments, none at first, and addresses, which `set-args` sets together.
const ARGUMENTS: &str = "\
/slot 0202 9b 9b 00|0 300000
/slot 00 + /slot 0202 9b 9b 00|0 300000
/slot 011f 0202 9b 9b 00|0 300008
/slot 011f 00 + /slot 011f 0202 9b 9b 00|0 300008
/slot 12026162 1203312c32 023f 0202 9b 9b 020d 9b 9b 0102 9b 0103 9b 00|2 300008 1 2 2 1
/slot 12026162 1203312c32 023f 0202 90 00|ab
/slot 12026162 1203312c32 023f 011f 0202 9b 9b 020d 9b 9b 0127 020d 9b 9b 00|0 300000 0 0 1 2
/slot 12026162 1203312c32 023f 00 + /slot 0202 9b 9b 020d 9b 9b 00|0 300000 0 0
/slot 12026162 120131 023f 00|fault -24: invalid numeric argument$
/slot a5 a5 a5 023f 00|fault -4: stack underflow$
/slot 1000000005 a6 a5 a5 023f 00|fault -9: invalid memory address$
";

#[test]
fn images_run_in_instances(rt: HostRuntime) -> Result<(), Fail> {
    check_on_machines::<PrintRows, _>(&rt, rt.alloc(), INSTANCES)
}

#[test]
fn loads_follow_loads(rt: HostRuntime) -> Result<(), Fail> {
    check_on_machines::<PrintRows, _>(&rt, rt.alloc(), LOADS)
}

#[test]
fn throws_release(rt: HostRuntime) -> Result<(), Fail> {
    check_on_machines::<PrintRows, _>(&rt, rt.alloc(), THROWS)
}

#[test]
fn catching_keeps_devices(rt: HostRuntime) -> Result<(), Fail> {
    check_on_machines::<PrintRows, _>(&rt, rt.alloc(), CAUGHT)
}

#[test]
fn arguments(rt: HostRuntime) -> Result<(), Fail> {
    check_on_machines::<PrintRows, _>(&rt, rt.alloc(), ARGUMENTS)
}

/// Images for nodes, and behind `|` what they print and the nodes that are there then: property words work on the
/// package of the current instance, also where a `new-device` that a throw left open has made another one active; and
/// an address has as many cells as the parent says.
const TREES: &str = "\
/slot b5 0800 b7 011f a4 0218 c2 11 0800 0217 46 a5 0111 120161 0110 00|;/slot name=736c6f7400 a=00000000;/slot/
/slot a8 0111 120e23616464726573732d63656c6c73 0110 011f 020d 9b 9b 9b 00|\
0 0 0 ;/slot name=736c6f7400 #address-cells=00000003;/slot/
/slot 011f 1200 1203312c32 023f 0102 0103 a8 0116 120163 0201 00|\
;/slot name=736c6f7400;/slot/c@1,2 reg=000000010000000200000003 name=6300
";

#[test]
fn property_words_work_on_instances(rt: HostRuntime) -> Result<(), Fail> {
    check_on_machines::<TreeRows, _>(&rt, rt.alloc(), TREES)
}

/// An image whose instances take their blocks.
const GROWING: &str = "\
12026162 1203312c32 023f 0202 9b 9b 011f 0202 9b 9b 0203 9b 00|\
2 300008 0 300000 e0000004 ;/slot name=736c6f7400;/slot/
";

/// Growths are refused in turn.
#[test]
fn refused_memory(rt: HostRuntime) -> Result<(), Fail> {
    check_in_turn(&rt, rt.alloc(), GROWING)
}
