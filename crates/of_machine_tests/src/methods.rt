//! Images whose words call methods: for which instance these run, and what comes back at their end.
use crate::rows::check_on_machines;
use crate::tree::{PrintRows, check_in_turn};
use std::test::Fail;

/// Images, and behind `|` what they print: a method's current instance is the one that it is called for, and the
/// caller's comes back at its end. The method `m` prints its instance. In the last three it does nothing: the operands
/// are gone, and what stood beneath them is there.
const CALLED: &str = "\
/slot ca016d0800 b7 0203 9b c2 12016d 0203 020e 00|e0000000
/slot ca016d0800 b7 0203 9b c2 12014d 0203 020e 00|e0000000
/slot ca016d0800 b7 0203 9b c2 011f 12016d 020a 020e 0203 9b 00|e0000000 e0000004
/slot ca016d0800 b7 0203 9b c2 011f 12016d 0209 0203 9b 00|e0000000 e0000004
/slot b5 0800 b7 0203 9b c2 011f 11 0800 020a 0208 0203 9b 00|e0000000 e0000004
/slot 011f 11 0203 020a 0208 9b 0203 9b 00|e0000000 e0000004
/slot a8 a7 011f 11 1e 020a 0208 9d 0203 9b 00|5 e0000004
/slot ca016d0800 b7 0203 9b 33 a5 9b c2 12016d 0203 020e 00|e0000000
/slot ca016d0800 bc b5 0801 b7 0203 9b c2 11 0801 c3 0800 011f 12016d 0209 0203 9b 00|e0000000 e0000004
/slot ca016d0800 b7 0203 9b c2 00 + /slot 12016d 0203 020e 00|e0000004
/slot 011f 11 0203 020a 11 0208 1d 9b 0203 9b 00|e0000000 e0000004
/slot 011f 11 0203 020a 11 0208 0217 9b 9b 0203 9b 00|0 e0000000 e0000004
/slot ca016d0800 b7 c2 a8 12016d 0203 020e 51 9d 9d 00|1 3
/slot ca016d0800 b7 c2 011f a8 12016d 0209 51 9d 9d 00|1 3
/slot b5 0800 b7 c2 a8 11 0800 0203 0208 51 9d 9d 00|1 3
";

/// Methods that call others: each `new-device`'s `m` prints its instance before and behind the call of its parent's.
const NESTED: &str = "\
/slot ca016d0800 b7 0203 9b c2 011f ca016d0801 b7 0203 9b 12016d 0209 0203 9b c2 011f 12016d 0209 0203 9b 00|\
e0000004 e0000000 e0000004 e0000008
/slot ca016d0800 b7 0203 9b c2 011f ca016d0801 b7 12016d 0209 0203 9b c2 \
011f ca016d0802 b7 12016d 0209 0203 9b c2 12016d 0203 020e 0203 9b 00|e0000000 e0000004 e0000008 e0000008
/slot ca016d0800 b7 0203 9b 011f 0203 9b c2 12016d 0203 020e 0203 9b 00|e0000000 e0000004 e0000000
";

/// Throws in methods: what `catch` found comes back; uncaught, nothing is current.
const THROWN: &str = "\
/slot b5 0800 b7 a4 0218 c2 b5 0801 b7 11 0800 020a 0208 c2 011f 11 0801 0217 9b 0203 9b 00|ffffffff e0000004
/slot b5 0800 b7 a4 0218 c2 b5 0801 b7 11 0800 0217 9b 0203 9b c2 011f 11 0801 020a 0208 0203 9b 00|\
ffffffff e0000000 e0000004
/slot b5 0800 b7 a4 0218 c2 011f 11 0800 020a 0208 00 + /slot 0203 9b 020a 9b 00|fault -1: abort$e0000008 0
/slot b5 0800 b7 11 0800 0203 0208 c2 0800 00|fault -5: return stack overflow$
/slot b5 0800 b7 11 0800 020a 0208 c2 011f 11 0800 0217 9d 0203 9b 00|-104 e0000004
/slot a6 11 30 0203 0208 00|fault -25: return stack imbalance$
/slot 11 33 0203 0208 00|fault -25: return stack imbalance$
/slot 11 b7 0203 0208 00|fault -14: compile-only word$
";

/// Calls that find no method, with the first fault that counts; nothing is taken then.
const REFUSED: &str = "\
/slot 0208 00|fault -4: stack underflow$
/slot a5 0208 00|fault -4: stack underflow$
/slot a5 a5 0208 00|fault -260: no such instance$
/slot a5 0203 0208 00|fault -263: bad handle$
/slot a5 0203 11 0208 0217 9d 9b 9b 00|-107 e0000000 0
/slot a5 a5 020e 00|fault -4: stack underflow$
/slot a5 a5 a5 020e 00|fault -260: no such instance$
/slot a5 a6 0203 020e 00|fault -9: invalid memory address$
/slot a5 a6 a5 020e 00|fault -260: no such instance$
/slot 12016d 0203 020e 00|fault -261: no such method$
/slot 12016d 0203 11 020e 0217 9d 9b 46 46 00|-105 e0000000
/slot 011f 0203 0127 12016d 4a 020e 00|fault -260: no such instance$
/slot a5 0209 00|fault -4: stack underflow$
/slot 12016d 0209 00|fault -260: no such instance$
/slot ca016d0800 b7 c2 12016d 0209 00|fault -260: no such instance$
/slot 011f ca016d0800 b7 c2 12016d 0209 00|fault -261: no such method$
/slot ca016d0800 b7 c2 011f a5 a6 0209 00|fault -9: invalid memory address$
";

/// `close-package`: the method `close` runs for the instance, if there is one, and then that is released; where it
/// throws, the instance stays open, and releasing twice does nothing.
const CLOSED: &str = "\
/slot 011f 0203 0206 0203 9b 0203 020b 00|e0000004 fault -260: no such instance$
/slot 011f 0203 0206 0127 0203 020b 9b 00|d0000008
/slot 011f 011f 0202 46 9b 00|300010
/slot 011f 0203 0206 011f 0202 46 9b 00|300008
/slot 011f ca05636c6f73650800 b7 0203 9b c2 0203 0206 0203 9b 0203 020b 00|\
e0000004 e0000004 fault -260: no such instance$
/slot ca05636c6f73650800 b7 0203 9b c2 011f 020a 0206 0203 9b 020a 020b 00 + /slot 0203 9b 00|\
e0000000 e0000004 fault -260: no such instance$e0000008
/slot ca05636c6f73650800 bc b5 0801 b7 11 7b c3 0800 0203 0206 c2 11 0801 c3 0800 0203 0206 0203 9b 0203 020b 00|\
e0000000 fault -260: no such instance$
/slot ca05636c6f73650800 b7 a4 0218 c2 b5 0801 b7 0203 0206 c2 11 0801 0217 9b 0203 020b 9b 00|ffffffff d0000008
/slot 011f a8 0203 0206 51 9d 9d 00|1 3
/slot ca05636c6f73650800 b7 c2 011f a8 020a 0206 51 9d 9d 00|1 3
/slot 0206 00|fault -4: stack underflow$
/slot a5 0206 00|fault -260: no such instance$
/slot 011f 0203 47 0206 0206 00|fault -260: no such instance$
/slot 011f 0203 11 0206 1d 0203 020b 00|fault -260: no such instance$
";

/// `get-inherited-property`: of the current instance's package, or of the nearest parent's that has it; the active
/// package matters not, and a released parent is missed only where one is looked for in it.
const INHERITED: &str = "\
/slot a6 0111 120161 0110 120161 021d 46 021b 9b 00|1
/slot a6 0111 120161 0110 011f 120161 021d 46 021b 9b 00|1
/slot a6 0111 120161 0110 011f 011f 120161 021d 46 021b 9b 00|1
/slot a6 0111 120161 0110 011f a7 0111 120161 0110 011f 120161 021d 46 021b 9b 00|2
/slot a6 0111 120161 0110 011f a7 0111 120161 0110 0127 120161 021d 46 021b 9b 00|1
/slot 011f 120161 021d 9d 00|-1
/slot b5 0800 b7 011f a7 0111 120161 0110 a4 0218 c2 a6 0111 120161 0110 11 0800 0217 46 120161 021d 46 021b 9b 00|1
/slot 011f b5 0800 b7 0127 a4 0218 c2 11 0800 0217 46 120161 021d 00|fault -260: no such instance$
/slot 011f b5 0800 b7 0127 a4 0218 c2 11 0800 0217 46 011f 120161 021d 00|fault -260: no such instance$
/slot 011f b5 0800 b7 0127 a4 0218 c2 11 0800 0217 46 011f a8 0111 120161 0110 120161 021d 46 021b 9b 00|3
/slot a6 021d 00|fault -4: stack underflow$
/slot a5 a6 021d 00|fault -9: invalid memory address$
";

#[test]
fn methods_run_for_instances(rt: HostRuntime) -> Result<(), Fail> {
    check_on_machines::<PrintRows, _>(&rt, rt.alloc(), CALLED)?;
    check_on_machines::<PrintRows, _>(&rt, rt.alloc(), NESTED)
}

#[test]
fn throws_leave_methods(rt: HostRuntime) -> Result<(), Fail> {
    check_on_machines::<PrintRows, _>(&rt, rt.alloc(), THROWN)?;
    check_on_machines::<PrintRows, _>(&rt, rt.alloc(), REFUSED)
}

#[test]
fn packages_are_closed(rt: HostRuntime) -> Result<(), Fail> {
    check_on_machines::<PrintRows, _>(&rt, rt.alloc(), CLOSED)
}

#[test]
fn properties_are_inherited(rt: HostRuntime) -> Result<(), Fail> {
    check_on_machines::<PrintRows, _>(&rt, rt.alloc(), INHERITED)
}

/// A method that takes memory, and a `close` that does.
const GROWING: &str = "\
ca016d0800 bc 11 011f c3 0800 12016d 0203 020e 0203 9b 11 0127 0203 0208 0203 9b \
ca05636c6f73650801 bc 11 011f c3 0801 0203 0206 0203 9b 00|\
e0000000 e0000000 e0000000 ;/slot name=736c6f7400;/slot/;/slot/
";

/// Growths are refused in turn: what called the method is undone, too.
#[test]
fn refused_memory(rt: HostRuntime) -> Result<(), Fail> {
    check_in_turn(&rt, rt.alloc(), GROWING)
}
