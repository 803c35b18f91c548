//! Calls on instances, one a line, and what is shown of their answers.

use crate::rows::{Rows, check};
use crate::running::number;
use of_cells::Cell;
use of_ihandles::{
    InstanceFault, Instances, Template, blocks_are_owned, ihandles_are_new, instances_begin,
    instances_keep_the_space, slots_are_own,
};
use of_memory::Memory;
use of_nodes::{Phandle, Span};
use std::alloc::{AllocError, Global};
use std::test::Fail;

/// A call by its name and at most three words behind it. `-` stands for an empty text.
#[derive(Clone, Copy)]
pub(crate) struct Call<'a> {
    pub(crate) call: &'a str,
    pub(crate) first: &'a str,
    pub(crate) second: &'a str,
    pub(crate) third: &'a str,
}

impl Call<'_> {
    /// The call of a line.
    pub(crate) fn read(line: &str) -> Call<'_> {
        let mut words = line.split_whitespace();
        Call {
            call: words.next().unwrap_or(""),
            first: words.next().unwrap_or(""),
            second: words.next().unwrap_or(""),
            third: words.next().unwrap_or(""),
        }
    }

    /// The ihandle that it is given.
    fn ihandle(&self) -> Cell {
        Cell(number(self.first))
    }

    /// The package that it is given.
    pub(crate) fn package(&self) -> Phandle {
        Phandle(Cell(number(self.first)))
    }

    /// The number of the slot that it is given.
    fn slot(&self) -> usize {
        number(self.second) as usize
    }

    /// The template that it is given.
    fn template(&self) -> Template {
        match self.second {
            "value" => Template::Value(Cell(number(self.third))),
            _ => Template::Zeros(Cell(number(self.third))),
        }
    }
}

/// The bytes of a word, none where it is `-`.
fn text(word: &str) -> &[u8] {
    match word {
        "-" => b"",
        word => word.as_bytes(),
    }
}

/// The cells of a word, which stand between commas, none where it is `-`.
fn cells(alloc: Global, word: &str) -> Result<Vec<Cell>, AllocError> {
    let mut cells = Vec::new(alloc);
    if word != "-" {
        for digits in word.split(',') {
            cells.push(Cell(number(digits)))?;
        }
    }
    Ok(cells)
}

/// Where bytes stand, and how many there are.
fn shown_span(alloc: Global, span: Span) -> Result<String, AllocError> {
    format!(in alloc; "{:x} {:x}", span.address.0, span.length.0)
}

/// The bytes of a span as text.
fn shown_text(alloc: Global, memory: &Memory, span: Span) -> Result<String, AllocError> {
    match memory.slice(span.address, span.length) {
        Ok(bytes) => String::from_str(alloc, std::str::from_utf8(bytes).unwrap_or("")),
        Err(_) => String::from_str(alloc, "unreadable"),
    }
}

/// A physical address.
fn shown_unit(alloc: Global, unit: [Cell; 4]) -> Result<String, AllocError> {
    let [high, next, third, low] = unit;
    format!(in alloc; "{:x},{:x},{:x},{:x}", high.0, next.0, third.0, low.0)
}

/// The cell that a call asks for.
fn cell_of(instances: &Instances, memory: &Memory, call: &Call<'_>) -> Result<Cell, InstanceFault> {
    match call.call {
        "package" => Ok(instances.package(call.ihandle())?.0),
        "parent" => instances.parent(call.ihandle()),
        _ => instances.slot_at(memory, call.ihandle(), call.slot()),
    }
}

/// What a call that asks for something answers.
fn had(
    alloc: Global,
    instances: &Instances,
    memory: &Memory,
    call: &Call<'_>,
) -> Result<String, InstanceFault> {
    let ihandle = call.ihandle();
    Ok(match call.call {
        "package" | "parent" | "slot_at" => {
            format!(in alloc; "{:x}", cell_of(instances, memory, call)?.0)?
        }
        "unit" => shown_unit(alloc, instances.unit(ihandle)?)?,
        "args" => shown_span(alloc, instances.args(ihandle)?)?,
        "text" => shown_text(alloc, memory, instances.args(ihandle)?)?,
        "slot_span" => shown_span(alloc, instances.slot_span(ihandle, call.slot())?)?,
        _ => String::from_str(alloc, "no such call")?,
    })
}

/// Opens and closes an instance so many times.
fn cycle(
    instances: &mut Instances,
    memory: &mut Memory,
    package: Phandle,
    times: u32,
) -> Result<(), InstanceFault> {
    for _ in 0..times {
        let ihandle = instances.open(memory, package, Cell::ZERO, b"")?;
        instances.close(memory, ihandle)?;
    }
    Ok(())
}

/// Does what a call says that changes instances and answers nothing. Answers whether it is such a call.
fn change(
    instances: &mut Instances,
    memory: &mut Memory,
    call: &Call<'_>,
) -> Result<bool, InstanceFault> {
    let ihandle = call.ihandle();
    match call.call {
        "close" => instances.close(memory, ihandle)?,
        "release" => instances.release(memory, ihandle),
        "cycle" => cycle(instances, memory, call.package(), number(call.second))?,
        "set_slot" => {
            instances.set_slot(memory, ihandle, call.slot(), Cell(number(call.third)))?;
        }
        _ => return Ok(false),
    }
    Ok(true)
}

/// What a call that makes something answers, or else one that asks.
fn made(
    alloc: Global,
    instances: &mut Instances,
    memory: &mut Memory,
    call: &Call<'_>,
) -> Result<String, InstanceFault> {
    match call.call {
        "open" => {
            let parent = Cell(number(call.second));
            let ihandle = instances.open(memory, call.package(), parent, text(call.third))?;
            Ok(format!(in alloc; "{:x}", ihandle.0)?)
        }
        "slot" => {
            let slot = instances.slot(memory, call.package(), call.template())?;
            Ok(format!(in alloc; "{slot}")?)
        }
        "set_args" => {
            let unit = cells(alloc, call.third)?;
            instances.set_args(memory, call.ihandle(), text(call.second), &unit)?;
            Ok(String::from_str(alloc, "done")?)
        }
        _ => had(alloc, instances, memory, call),
    }
}

/// What a call answers, or why it is refused.
fn given(
    alloc: Global,
    instances: &mut Instances,
    memory: &mut Memory,
    call: &Call<'_>,
) -> Result<String, AllocError> {
    let answer = match change(instances, memory, call) {
        Ok(true) => return String::from_str(alloc, "done"),
        Ok(false) => made(alloc, instances, memory, call),
        Err(fault) => Err(fault),
    };
    match answer {
        Ok(text) => Ok(text),
        Err(fault) => format!(in alloc; "{fault}"),
    }
}

/// Instances and their memory. A line has a call, and behind `=` what it answers behind the lines before it.
#[derive(Drop)]
struct InstanceRows {
    instances: Instances,
    memory: Memory,
}

impl Rows for InstanceRows {
    fn new(alloc: Global) -> Result<InstanceRows, Fail> {
        let memory = Memory::new(alloc)?;
        let instances = Instances::new(alloc);
        Ok(InstanceRows { instances, memory })
    }

    fn halves(line: &str) -> (&str, &str) {
        line.split_once('=').unwrap_or(("", "none"))
    }

    fn given(&mut self, alloc: Global, call: &str) -> Result<String, Fail> {
        let call = Call::read(call);
        Ok(given(alloc, &mut self.instances, &mut self.memory, &call)?)
    }
}

#[test]
fn laws_hold() {
    blocks_are_owned();
    ihandles_are_new();
    instances_begin();
    instances_keep_the_space();
    slots_are_own();
}

/// A block has at least 8 bytes, at the least address where it meets no other; an ihandle isn't used again.
const OPENED: &str = "\
open d0000008 0 ab = e0000000
args e0000000 = 300000 2
text e0000000 = ab
package e0000000 = d0000008
parent e0000000 = 0
unit e0000000 = 0,0,0,0
open d000000c e0000000 - = e0000004
args e0000004 = 300008 0
parent e0000004 = e0000000
close e0000000 = done
close e0000000 = no such instance
args e0000000 = no such instance
package e0000000 = no such instance
parent e0000000 = no such instance
unit e0000000 = no such instance
set_args e0000000 x - = no such instance
open d0000008 e0000004 123456789 = e0000008
args e0000008 = 300010 9
text e0000008 = 123456789
open 0 5 abc = e000000c
args e000000c = 300000 3
package e000000c = 0
parent e000000c = 5
parent e0000004 = e0000000
args e0000002 = no such instance
args e0000010 = no such instance
args 0 = no such instance
args dffffffc = no such instance
";

/// A release gives the blocks back; a second one, and one of no instance, changes nothing.
const RELEASED: &str = "\
open d0000008 0 ab = e0000000
open d0000008 0 - = e0000004
release e0000000 = done
args e0000000 = no such instance
release e0000000 = done
release e0000008 = done
release e0000006 = done
release 0 = done
args e0000004 = 300008 0
open d0000008 0 cd = e0000008
args e0000008 = 300000 2
release e0000000 = done
text e0000008 = cd
close e0000000 = no such instance
slot d0000008 value 7 = 0
slot_span e0000004 0 = 300010 4
release e0000004 = done
open d000000c 0 - = e000000c
args e000000c = 300008 0
open d000000c 0 - = e0000010
args e0000010 = 300010 0
";

/// The live instances get a new slot's blocks oldest first, a new instance the blocks of its arguments and then of the
/// slots in the order of making.
const SLOTS: &str = "\
open d0000008 0 - = e0000000
open d000000c 0 - = e0000004
open d0000008 0 - = e0000008
slot d0000008 value 1234abcd = 0
slot_span e0000000 0 = 300018 4
slot_span e0000008 0 = 300020 4
slot_at e0000000 0 = 1234abcd
set_slot e0000000 0 5 = done
slot_at e0000000 0 = 5
slot_at e0000008 0 = 1234abcd
slot_at e0000004 0 = no such instance
slot_span e0000004 0 = no such instance
set_slot e0000004 0 7 = no such instance
slot_at e0000000 1 = no such instance
slot d000000c zeros 9 = 1
slot_span e0000004 1 = 300028 9
slot_at e0000004 1 = 0
slot d0000008 zeros 0 = 2
slot_span e0000000 2 = 300038 0
slot_span e0000008 2 = 300040 0
open d0000008 0 abc = e000000c
args e000000c = 300048 3
slot_span e000000c 0 = 300050 4
slot_span e000000c 2 = 300058 0
slot_at e000000c 0 = 1234abcd
text e000000c = abc
close e0000000 = done
slot_at e0000000 0 = no such instance
set_slot e0000000 0 5 = no such instance
open d000000c 0 - = e0000010
args e0000010 = 300000 0
slot_span e0000010 1 = 300060 9
slot d000000c value ffffffff = 3
slot_span e0000004 3 = 300018 4
slot_span e0000010 3 = 300038 4
slot_at e0000010 3 = ffffffff
set_slot e0000010 3 0 = done
set_slot e0000010 1 80000000 = done
slot_at e0000004 3 = ffffffff
slot_at e0000004 1 = 0
slot d0000010 value 1 = 4
slot_at e0000010 4 = no such instance
open d0000010 0 - = e0000014
slot_span e0000014 4 = 300078 4
slot_at e0000014 4 = 1
";

/// The new block is taken before the old one is given back.
const ARGUMENTS: &str = "\
open d0000008 0 ab = e0000000
set_args e0000000 cd 1,2 = done
args e0000000 = 300008 2
text e0000000 = cd
unit e0000000 = 1,2,0,0
set_args e0000000 - 1,2,3,4,5 = done
args e0000000 = 300000 0
unit e0000000 = 1,2,3,4
set_args e0000000 123456789 - = done
args e0000000 = 300008 9
text e0000000 = 123456789
unit e0000000 = 0,0,0,0
set_args e0000000 x ffffffff,0,1 = done
args e0000000 = 300000 1
unit e0000000 = ffffffff,0,1,0
open d0000008 0 - = e0000004
args e0000004 = 300008 0
set_args e0000008 x - = no such instance
";

/// An opening that takes the whole region, and then each of its blocks finds no room in turn; nothing is taken then.
const FULL: &str = "\
slot d0000008 zeros 1fff0 = 0
slot d0000008 value 7 = 1
open d0000008 0 12345678 = e0000000
text e0000000 = 12345678
slot_span e0000000 0 = 300008 1fff0
slot_span e0000000 1 = 31fff8 4
slot_at e0000000 1 = 7
open d000000c 0 - = no room for the instance
set_args e0000000 x 1 = no room for the instance
slot d0000008 zeros 0 = no room for the instance
slot d000000c value 1 = 2
text e0000000 = 12345678
unit e0000000 = 0,0,0,0
slot_at e0000000 1 = 7
slot_at e0000000 2 = no such instance
close e0000000 = done
open d0000008 0 123456789 = no room for the instance
args e0000004 = no such instance
open d0000008 0 - = e0000004
slot_span e0000004 1 = 31fff8 4
close e0000004 = done
slot d0000010 zeros 20001 = 3
open d0000010 0 - = no room for the instance
slot d0000014 zeros ffffffff = 4
open d0000014 0 - = no room for the instance
open d0000018 0 - = e0000008
slot d0000018 zeros 1fff9 = no room for the instance
slot d0000018 zeros 1fff8 = 5
slot_span e0000008 5 = 300008 1fff8
open d0000018 0 - = no room for the instance
";

/// There are 65,536 openings.
const OPENINGS: &str = "\
cycle d0000008 ffff = done
open d0000008 0 - = e003fffc
open d0000008 0 - = no room for the instance
";

#[test]
fn calls(rt: HostRuntime) -> Result<(), Fail> {
    let tables = [OPENED, RELEASED, SLOTS, ARGUMENTS, FULL, OPENINGS];
    check::<InstanceRows, _>(&rt, rt.alloc(), &tables)
}

/// Whether an opening and then a slot are made, or refused for memory alone, and no block is taken for what is
/// refused.
fn opens_or_takes_nothing(instances: &mut Instances, memory: &mut Memory) -> bool {
    let package = Phandle::of(2);
    let free = match instances.open(memory, package, Cell::ZERO, b"") {
        Ok(_) => Cell(0x30_0008),
        Err(InstanceFault::NoMemory) => Cell(0x30_0000),
        Err(_) => return false,
    };
    match instances.slot(memory, package, Template::Value(Cell::ONE)) {
        Ok(_) => true,
        Err(fault) => {
            fault == InstanceFault::NoMemory && memory.instance_take(Cell::ZERO) == Ok(free)
        }
    }
}

// To be run with one allocation after another refused.
#[test]
fn a_refused_growth_takes_no_block(rt: HostRuntime) -> Result<(), Fail> {
    let mut memory = Memory::new(rt.alloc())?;
    let mut instances = Instances::new(rt.alloc());
    assert!(rt; opens_or_takes_nothing(&mut instances, &mut memory));
    Ok(())
}
