//! What is printed.

use of_board::Console;
use of_cells::Cell;
use of_stacks::Throw;
use std::alloc::AllocError;
use std::test::Fail;

/// Prints texts as they are, before a space, and at the right end of a width.
fn print_texts(console: &mut Console) -> Result<(), AllocError> {
    console.print(b"ab")?;
    console.print_spaced(b"12")?;
    console.print_at_right(5, b"-1")?;
    console.print_at_right(2, b"123")?;
    console.print_at_right(-1, b"4")
}

#[test]
fn texts(rt: HostRuntime) -> Result<(), Fail> {
    let mut console = Console::new(rt.alloc());
    assert!(rt; console.bytes() == "".as_bytes());
    print_texts(&mut console)?;
    assert!(rt; console.bytes() == "ab12    -11234".as_bytes());
    Ok(())
}

/// The bottom is printed first, each cell as a signed number.
#[test]
fn stacks(rt: HostRuntime) -> Result<(), Fail> {
    let mut console = Console::new(rt.alloc());
    console.print_stack(16, &[Cell(0x1a), Cell(0xffff_ffff)])?;
    console.print_stack(10, &[Cell(26)])?;
    assert!(rt; console.bytes() == "1a -1 26 ".as_bytes());
    Ok(())
}

/// Behind the room for it the text of a throw asks for no memory.
#[test]
fn faults(rt: HostRuntime) -> Result<(), Fail> {
    let mut console = Console::new(rt.alloc());
    console.make_ready()?;
    console.print_fault(Throw(-4));
    console.print(b"a")?;
    console.print_fault(Throw(-259));
    let printed = "fault -4: stack underflow\nafault -259: no such node\n";
    assert!(rt; console.bytes() == printed.as_bytes());
    Ok(())
}

/// There is no room at first, also where it is to be kept.
#[test]
fn no_room_at_first(rt: HostRuntime) -> Result<(), Fail> {
    let mut console = Console::new(rt.alloc());
    assert!(rt; !console.is_ready());
    console.keep_ready(true);
    assert!(rt; !console.is_ready());
    Ok(())
}

/// The room is there once it is made, until it is given up.
#[test]
fn rooms(rt: HostRuntime) -> Result<(), Fail> {
    let mut console = Console::new(rt.alloc());
    console.make_ready()?;
    console.keep_ready(true);
    assert!(rt; console.is_ready());
    console.keep_ready(false);
    assert!(rt; !console.is_ready());
    assert!(rt; console.bytes() == "".as_bytes());
    Ok(())
}

/// The text of a throw takes the room.
#[test]
fn faults_take_the_room(rt: HostRuntime) -> Result<(), Fail> {
    let mut console = Console::new(rt.alloc());
    console.print(b"a")?;
    assert!(rt; console.is_ready());
    console.print_fault(Throw(-1));
    assert!(rt; !console.is_ready());
    console.keep_ready(false);
    assert!(rt; !console.is_ready());
    assert!(rt; console.bytes() == "afault -1: abort\n".as_bytes());
    Ok(())
}
