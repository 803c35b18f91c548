use crate::rows::{Rows, check, hexadecimal, word};
use of_cells::Cell;
use of_memory::MemFault::{self, Address, Alignment, BadBlock, Full, NoMemory, ReadOnly};
use of_memory::{Memory, Width};
use std::alloc::Global;
use std::process::Abort;
use std::test::Fail;

/// The answer of a call that gives nothing.
fn nothing(answer: Result<(), MemFault>) -> Result<Cell, MemFault> {
    answer?;
    Ok(Cell(0))
}

/// The second address that a call answers.
fn second(answer: Result<(Cell, Cell), MemFault>) -> Result<Cell, MemFault> {
    Ok(answer?.1)
}

/// A call that reads or writes one number, and what it answers.
fn access(memory: &mut Memory, word: &str, x: Cell, y: Cell) -> Result<Cell, MemFault> {
    match word {
        "read8" => Ok(Cell(u32::from(memory.read8(x)?))),
        "read16" => Ok(Cell(u32::from(memory.read16(x)?))),
        "read32" => memory.read32(x),
        "write8" => nothing(memory.write8(x, (y.0 % 0x100) as u8)),
        "write16" => nothing(memory.write16(x, (y.0 % 0x1_0000) as u16)),
        "write32" => nothing(memory.write32(x, y)),
        "read" => nothing(memory.check_read(x, y, Width::Four)),
        "write" => nothing(memory.check_write(x, y, Width::Four)),
        _ => nothing(memory.check_write(x, y, Width::Two)),
    }
}

/// A call that changes what is taken of a region, and what it answers.
fn region(memory: &mut Memory, word: &str, x: Cell, y: Cell) -> Result<Cell, MemFault> {
    match word {
        "take" => memory.heap_take(x),
        "give" => nothing(memory.heap_give(x, y)),
        "instance" => memory.instance_take(x),
        "release" => nothing(memory.instance_give(x, y)),
        "allot" => nothing(memory.allot(x)),
        "here" => Ok(memory.here()),
        "room" => Ok(memory.image_room()),
        "latest" => Ok(memory.latest_start()),
        "fits" => Ok(Cell(u32::from(memory.image_fits(x.0 as usize)))),
        "end" => memory.end_of(x),
        "duplicate" => {
            let Ok(copy) = memory.duplicate() else {
                return Err(NoMemory);
            };
            *memory = copy;
            Ok(Cell(0))
        }
        "pop" => {
            memory.image_pop();
            Ok(Cell(0))
        }
        _ => {
            memory.set_state(x.0 != 0);
            Ok(Cell(0))
        }
    }
}

/// A call on a range, and what it answers.
fn range(memory: &mut Memory, word: &str, x: Cell, y: Cell, z: Cell) -> Result<Cell, MemFault> {
    match word {
        "fill" => nothing(memory.fill(x, y, (z.0 % 0x100) as u8)),
        "copy" => nothing(memory.copy(x, y, z)),
        _ => memory.image_push_from(x, y, Cell(z.0.max(1))),
    }
}

/// A call that is passed a text, and what it answers; of two addresses the second.
fn put(memory: &mut Memory, word: &str, x: Cell, y: Cell, text: &[u8]) -> Result<Cell, MemFault> {
    match word {
        "append" => memory.append(text),
        "append-copy" => memory.append_copy(x, y, text),
        "store" => nothing(memory.write_bytes(x, text)),
        "property" => memory.put_property(text),
        "named" => second(memory.put_named(text, b"val")),
        "is-latest" => Ok(Cell(u32::from(memory.latest_image() == text))),
        _ => memory.image_push(text),
    }
}

/// The text of a line, which is `-` where it is empty.
fn text_of(line: &str) -> &str {
    match word(line, 5) {
        "-" => "",
        text => text,
    }
}

/// The cell at a place of a line.
fn cell(line: &str, place: usize) -> Option<Cell> {
    Some(Cell(hexadecimal(word(line, place))?))
}

/// The call of a line, by the group of its word.
fn call(memory: &mut Memory, line: &str) -> Option<Result<Cell, MemFault>> {
    let name = word(line, 1);
    let (x, y, z) = (cell(line, 2)?, cell(line, 3)?, cell(line, 4)?);
    Some(match word(line, 0) {
        "access" => access(memory, name, x, y),
        "region" => region(memory, name, x, y),
        "range" => range(memory, name, x, y, z),
        _ => put(memory, name, x, y, text_of(line).as_bytes()),
    })
}

/// The name of a fault.
fn name_of(fault: MemFault) -> &'static str {
    match fault {
        Address => "Address",
        Alignment => "Alignment",
        ReadOnly => "ReadOnly",
        Full => "Full",
        BadBlock => "BadBlock",
        NoMemory => "NoMemory",
    }
}

/// Whether a call answers what a word says: a cell in hexadecimal, or a fault by its name.
fn is_said(answer: Result<Cell, MemFault>, wanted: &str) -> bool {
    match answer {
        Ok(found) => hexadecimal(wanted) == Some(found.0),
        Err(fault) => name_of(fault) == wanted,
    }
}

/// Calls in turn, a line each: the group, the word, three cells, a text, and what the call answers, in hexadecimal, or
/// a fault by its name. An empty text is `-`. After `duplicate` the calls go to the copy.
impl Rows for Memory {
    fn holds(&mut self, _alloc: Global, line: &str) -> Option<bool> {
        Some(is_said(call(self, line)?, word(line, 6)))
    }
}

/// The calls of a text on a new memory.
fn run(rt: &impl Abort, alloc: Global, lines: &str) -> Result<(), Fail> {
    let mut memory = Memory::new(alloc)?;
    check(rt, alloc, &mut memory, lines);
    Ok(())
}

/// The first and the last bytes of each region, and what lies beside them.
const EDGES: &str = "\
access read8 0 0 0 - Address
access read8 fffff 0 0 - Address
access read8 100000 0 0 - 0
access read8 13ffff 0 0 - 0
access read8 140000 0 0 - Address
access read8 1fffff 0 0 - Address
access read8 21ffff 0 0 - 0
access read8 220000 0 0 - Address
access read8 300000 0 0 - 0
access read8 31ffff 0 0 - 0
access read8 320000 0 0 - Address
access read8 400000 0 0 - Address
access read8 43ffff 0 0 - Address
access read8 500fff 0 0 - 0
access read8 501000 0 0 - Address
access read8 63ffff 0 0 - 0
access read8 640000 0 0 - Address
access read8 700000 0 0 - Address
access read8 80000000 0 0 - Address
access read8 c0000000 0 0 - Address
access read8 ffffffff 0 0 - Address
access read16 13fffe 0 0 - 0
access read16 13ffff 0 0 - Address
access read16 100001 0 0 - Alignment
access read32 13fffc 0 0 - 0
access read32 13fffe 0 0 - Address
access read32 13fffa 0 0 - Alignment
access read32 fffffffc 0 0 - Address
access write8 21ffff 1 0 - ReadOnly
access write8 600000 1 0 - ReadOnly
access write8 31ffff 1 0 - 0
access write16 200001 1 0 - Alignment
access write16 200000 1 0 - ReadOnly
access write32 13fffc 1 0 - 0
access write32 13fffe 1 0 - Address
access write32 63fffc 1 0 - ReadOnly
region end 100000 0 0 - 140000
region end 13ffff 0 0 - 140000
region end 21ffff 0 0 - 220000
region end 300004 0 0 - 320000
region end 500fff 0 0 - 501000
region end 501000 0 0 - Address
region end 600000 0 0 - 640000
region end 400000 0 0 - Address
region end 0 0 0 - Address
";

/// Numbers of one, two and four bytes, the highest byte first; the checks; the cell `base` at first.
const NUMBERS: &str = "\
access read32 500000 0 0 - 10
access read32 500004 0 0 - 0
access write32 100000 1020304 0 - 0
access write16 100004 abcd 0 - 0
access write8 100007 ef 0 - 0
access read8 100000 0 0 - 1
access read16 100002 0 0 - 304
access read8 100004 0 0 - ab
access read32 100004 0 0 - abcd00ef
access read 100000 8 0 - 0
access read 13fffc 8 0 - Address
access read 13fffa 8 0 - Address
access read 100002 8 0 - Alignment
access read c0000001 0 0 - 0
access write 100000 8 0 - 0
access write 200000 8 0 - ReadOnly
access write 600002 8 0 - Alignment
access write 600001 0 0 - 0
access write-two 100001 2 0 - Alignment
access write-two 100002 2 0 - 0
";

/// Ranges: filled, copied also where they overlap, and stored from a text.
const RANGES: &str = "\
access write32 100000 1020304 0 - 0
range copy 100000 100001 4 - 0
access read32 100000 0 0 - 1010203
access read8 100004 0 0 - 4
range copy 100002 100000 3 - 0
access read32 100000 0 0 - 2030403
range fill 100001 2 9 - 0
access read32 100000 0 0 - 2090903
range copy 200000 100000 4 - 0
range copy 100000 200000 4 - ReadOnly
range copy c0000000 200000 4 - Address
range copy 100000 21ffff 2 - Address
range copy 13ffff 100000 2 - Address
range copy c0000000 200000 0 - 0
range fill 13ffff 2 1 - Address
range fill 600000 1 1 - ReadOnly
range fill c0000000 0 1 - 0
range fill 100000 ffffffff 1 - Address
access read8 13ffff 0 0 - 0
put store 100008 0 0 abcd 0
access read32 100008 0 0 - 61626364
put store 13fffd 0 0 abcd Address
put store 200000 0 0 a ReadOnly
put store c0000000 0 0 - 0
access read8 13fffd 0 0 - 0
";

/// The heap: the least gap is taken, a given block can't be read, and one that is taken again is
/// zero. A range may cross from a live block into the next one, and not beyond the last.
const HEAP: &str = "\
region take 9 0 0 - 400000
region take 8 0 0 - 400010
region take 0 0 0 - 400018
region take 1 0 0 - 400020
region duplicate 0 0 0 - 0
range fill 400000 28 7 - 0
range fill 400000 29 7 - Address
region end 400012 0 0 - 400018
region give 400000 8 0 - BadBlock
region give 400008 8 0 - BadBlock
region give 400000 ffffffff 0 - BadBlock
region give 400010 5 0 - 0
region give 400000 10 0 - 0
access read8 400000 0 0 - Address
access read8 400018 0 0 - 7
region give 400000 10 0 - BadBlock
region take 19 0 0 - 400028
region take 11 0 0 - 400000
access read32 400014 0 0 - 0
region take 3ffb9 0 0 - Full
region take ffffffff 0 0 - Full
region take 3ffb8 0 0 - 400048
region take 0 0 0 - Full
region give 400020 1 0 - 0
region take 9 0 0 - Full
region take 8 0 0 - 400020
";

/// Blocks of the instance region: given back, their bytes stay until they are taken again.
const INSTANCES: &str = "\
region instance 4 0 0 - 300000
region instance c 0 0 - 300008
access write32 300000 5 0 - 0
region release 300000 9 0 - BadBlock
region release 300000 8 0 - 0
region duplicate 0 0 0 - 0
access read32 300000 0 0 - 5
region instance 8 0 0 - 300000
access read32 300000 0 0 - 0
region instance 1ffe9 0 0 - Full
region instance 1ffe8 0 0 - 300018
region instance 1 0 0 - Full
";

/// The data region: `here` moves within it, and bytes are appended from a text or from memory.
const DATA: &str = "\
region here 0 0 0 - 100000
put append 0 0 0 abc 100000
put append 0 0 0 de 100003
access read32 100000 0 0 - 61626364
put append-copy 100001 3 0 xy 100005
region duplicate 0 0 0 - 0
access read32 100004 0 0 - 65626364
access read16 100008 0 0 - 7879
region here 0 0 0 - 10000a
put append-copy 400000 1 0 - Address
put append-copy 100000 3ffff 0 - Full
put append-copy c0000000 0 0 z 10000a
region allot fffffffd 0 0 - 0
region here 0 0 0 - 100008
region allot fffffff7 0 0 - Full
region allot 80000000 0 0 - Full
region allot 7fffffff 0 0 - Full
region allot 3fff9 0 0 - Full
region allot 3fff7 0 0 - 0
put append 0 0 0 ab Full
put append 0 0 0 a 13ffff
put append 0 0 0 - 140000
put append 0 0 0 a Full
region allot fffc0000 0 0 - 0
region here 0 0 0 - 100000
";

/// Properties: their names and values stand one behind another.
const PROPERTIES: &str = "\
put property 0 0 0 name 200010
put property 0 0 0 board 200014
put named 0 0 0 ab 200020
access read16 20001c 0 0 - 6162
access read32 200020 0 0 - 76616c00
region state 1 0 0 - 0
access read32 200000 0 0 - ffffffff
region state 0 0 0 - 0
access read32 200000 0 0 - 0
";

/// Images, one after another. Of bytes that stand apart the first is taken, and then each so many
/// behind; the last image is copied to where its own bytes stand.
const IMAGES: &str = "\
region latest 0 0 0 - 600000
put is-latest 0 0 0 - 1
put image 0 0 0 abc 600000
put image 0 0 0 de 600003
region duplicate 0 0 0 - 0
put is-latest 0 0 0 de 1
region latest 0 0 0 - 600003
region fits 3fffb 0 0 - 1
region fits 3fffc 0 0 - 0
region room 0 0 0 - 3fffb
region pop 0 0 0 - 0
access read32 600000 0 0 - 61626300
put store 100000 0 0 p-q-r-s 0
range from 100000 4 2 - 600003
access read32 600000 0 0 - 61626370
access read32 600004 0 0 - 71727300
region pop 0 0 0 - 0
access read32 600004 0 0 - 0
range from 100000 1 ffffffff - 600003
range from 13ffff 2 1 - Address
range from 13fffd 2 2 - 600004
range from 13fffe 2 2 - Address
range from c0000000 0 1 - 600006
region pop 0 0 0 - 0
region pop 0 0 0 - 0
region pop 0 0 0 - 0
range from 600000 5 1 - 600003
access read32 600000 0 0 - 61626361
access read32 600004 0 0 - 62630000
region pop 0 0 0 - 0
region pop 0 0 0 - 0
access read32 600000 0 0 - 0
region pop 0 0 0 - 0
put image 0 0 0 abcdefgh 600000
range from 600004 5 2 - 600008
access read32 600004 0 0 - 65666768
access read32 600008 0 0 - 65670000
access read32 60000c 0 0 - 0
";

#[test]
fn edges_of_the_regions(rt: HostRuntime) -> Result<(), Fail> {
    run(&rt, rt.alloc(), EDGES)
}

#[test]
fn numbers_and_ranges(rt: HostRuntime) -> Result<(), Fail> {
    run(&rt, rt.alloc(), NUMBERS)?;
    run(&rt, rt.alloc(), RANGES)
}

#[test]
fn blocks(rt: HostRuntime) -> Result<(), Fail> {
    run(&rt, rt.alloc(), HEAP)?;
    run(&rt, rt.alloc(), INSTANCES)
}

#[test]
fn what_grows(rt: HostRuntime) -> Result<(), Fail> {
    run(&rt, rt.alloc(), DATA)?;
    run(&rt, rt.alloc(), PROPERTIES)?;
    run(&rt, rt.alloc(), IMAGES)
}

/// Puts a value of so many zeros, which stand from 0x100000 on.
fn put_zeros(memory: &mut Memory, alloc: Global, length: u32) -> Option<Cell> {
    let zeros = Vec::from_slice(alloc, memory.slice(Cell(0x10_0000), Cell(length)).ok()?).ok()?;
    memory.put_property(&zeros).ok()
}

/// Calls where 20 bytes are free.
const NEARLY_FULL_PROPERTIES: &str = "\
put named 0 0 0 ab Full
access read32 21fffc 0 0 - 0
put property 0 0 0 a 21fffc
put property 0 0 0 a Full
";

/// A name and a value are put together or not at all.
#[test]
fn properties_of_a_full_region(rt: HostRuntime) -> Result<(), Fail> {
    let mut memory = Memory::new(rt.alloc())?;
    assert!(rt; put_zeros(&mut memory, rt.alloc(), 0x1_ffec) == Some(Cell(0x20_0010)));
    check(&rt, rt.alloc(), &mut memory, NEARLY_FULL_PROPERTIES);
    Ok(())
}

/// Takes blocks of 8, 9 and 0 bytes, and answers the fault, if there is one, and what stands then where the addresses
/// go, 1 at first.
fn take_three(memory: &mut Memory) -> (Option<MemFault>, [Cell; 3]) {
    let mut addresses = [Cell(1); 3];
    let fault = memory
        .instance_take_all(&[Cell(8), Cell(9), Cell(0)], &mut addresses)
        .err();
    (fault, addresses)
}

/// Whether blocks of 8, 9 and 0 bytes are taken at these addresses.
fn are_taken(memory: &mut Memory, first: u32, second: u32, third: u32) -> bool {
    let (fault, addresses) = take_three(memory);
    fault == None && addresses == [Cell(first), Cell(second), Cell(third)]
}

/// Whether such blocks are refused for want of room, and no address is given.
fn are_refused(memory: &mut Memory) -> bool {
    let (fault, addresses) = take_three(memory);
    fault == Some(Full) && addresses == [Cell(1); 3]
}

/// Calls that leave 48 bytes, all of them 7, and what stands there once 32 were taken.
const NEARLY_FULL_INSTANCES: &str = "\
region instance 1ffd0 0 0 - 300000
range fill 31ffd0 30 7 - 0
";

const TAKEN: &str = "\
access read32 31ffd0 0 0 - 0
access read32 31ffd4 0 0 - 0
access read32 31ffd8 0 0 - 0
access read32 31ffdc 0 0 - 0
access read32 31ffe0 0 0 - 0
access read32 31ffe4 0 0 - 0
access read32 31ffe8 0 0 - 0
access read32 31ffec 0 0 - 0
access read32 31fff0 0 0 - 7070707
access read32 31fff4 0 0 - 7070707
access read32 31fff8 0 0 - 7070707
access read32 31fffc 0 0 - 7070707
";

/// Two instances with blocks of 8, 16 and 8 bytes where 48 are free: the first finds room, and the
/// second leaves the region byte for byte.
#[test]
fn instances_of_a_full_region(rt: HostRuntime) -> Result<(), Fail> {
    let mut memory = Memory::new(rt.alloc())?;
    check(&rt, rt.alloc(), &mut memory, NEARLY_FULL_INSTANCES);
    assert!(rt; are_taken(&mut memory, 0x31_ffd0, 0x31_ffd8, 0x31_ffe8));
    assert!(rt; are_refused(&mut memory));
    check(&rt, rt.alloc(), &mut memory, TAKEN);
    Ok(())
}

/// Makes a call so many times, and answers whether each gives what its line says.
fn holds_often(memory: &mut Memory, times: u32, line: &str) -> Option<bool> {
    for _ in 0..times {
        if !is_said(call(memory, line)?, word(line, 6)) {
            return Some(false);
        }
    }
    Some(true)
}

/// Takes so many blocks of 8 bytes of the instance region, and answers whether each finds room.
fn takes_blocks(memory: &mut Memory, count: u32) -> bool {
    for _ in 0..count {
        if memory.instance_take(Cell(8)).is_err() {
            return false;
        }
    }
    true
}

#[test]
fn every_mark_of_the_instance_region(rt: HostRuntime) -> Result<(), Fail> {
    let mut memory = Memory::new(rt.alloc())?;
    assert!(rt; takes_blocks(&mut memory, 16384));
    check(&rt, rt.alloc(), &mut memory, "region instance 8 0 0 - Full");
    Ok(())
}

#[test]
fn images_are_256_at_most(rt: HostRuntime) -> Result<(), Fail> {
    let mut memory = Memory::new(rt.alloc())?;
    let pushed = holds_often(&mut memory, 256, "put image 0 0 0 - 600000");
    assert!(rt; pushed == Some(true));
    check(
        &rt,
        rt.alloc(),
        &mut memory,
        "put image 0 0 0 - Full\nrange from 0 0 1 - Full",
    );
    Ok(())
}

/// Pushes an image of so many bytes of 1.
fn push_ones(memory: &mut Memory, alloc: Global, length: usize) -> Option<Cell> {
    let image = vec![in alloc; 1u8; length].ok()?;
    memory.image_push(&image).ok()
}

/// Calls where an image fills its region.
const FULL_IMAGES: &str = "\
put image 0 0 0 a Full
region pop 0 0 0 - 0
access read8 63ffff 0 0 - 0
";

#[test]
fn an_image_fills_its_region(rt: HostRuntime) -> Result<(), Fail> {
    let mut memory = Memory::new(rt.alloc())?;
    assert!(rt; push_ones(&mut memory, rt.alloc(), 0x4_0000) == Some(Cell(0x60_0000)));
    check(&rt, rt.alloc(), &mut memory, FULL_IMAGES);
    Ok(())
}

/// Takes a block of 8 bytes of the heap, and answers whether that is refused for memory alone.
fn is_refused(memory: &mut Memory) -> Option<bool> {
    match memory.heap_take(Cell(8)) {
        Ok(addr) if addr == Cell(0x40_0000) => Some(false),
        Err(fault) if fault == NoMemory => Some(true),
        _ => None,
    }
}

/// With each allocation refused in turn, making answers its error, and a refused block leaves the
/// heap as it was.
#[test]
fn refused_growth_changes_nothing(rt: HostRuntime) {
    let Ok(mut memory) = Memory::new(rt.alloc()) else {
        return;
    };
    match is_refused(&mut memory) {
        Some(true) => check(&rt, rt.alloc(), &mut memory, REFUSED),
        Some(false) => check(&rt, rt.alloc(), &mut memory, TAKEN_FIRST),
        None => assert!(rt; false),
    }
}

/// The next calls where the first block was refused, and where it was taken.
const REFUSED: &str = "\
access read8 400000 0 0 - Address
region take 8 0 0 - 400000
";

const TAKEN_FIRST: &str = "\
access read8 400000 0 0 - 0
region take 8 0 0 - 400008
";

/// The fault of a name.
fn fault_of(name: &str) -> MemFault {
    match name {
        "Address" => Address,
        "Alignment" => Alignment,
        "ReadOnly" => ReadOnly,
        "Full" => Full,
        "BadBlock" => BadBlock,
        _ => NoMemory,
    }
}

/// Faults by their names, and their texts.
const FAULT_TEXTS: &str = "\
Address invalid memory address
Alignment address alignment exception
ReadOnly write to a read-only location
Full no room in the region
BadBlock no such block
NoMemory out of memory
";

/// Faults.
#[derive(Clone, Copy)]
struct FaultRows;

impl Rows for FaultRows {
    fn holds(&mut self, alloc: Global, line: &str) -> Option<bool> {
        let (name, text) = line.split_once(' ')?;
        let said = format!(in alloc; "{}", fault_of(name)).ok()?;
        Some(said.as_str() == text)
    }
}

#[test]
fn texts_of_faults(rt: HostRuntime) {
    check(&rt, rt.alloc(), &mut FaultRows, FAULT_TEXTS);
}

#[test]
fn widths(rt: HostRuntime) {
    assert!(rt; Width::One.bytes() == 1 && Width::Two.bytes() == 2 && Width::Four.bytes() == 4);
}

#[test]
fn laws() {
    of_memory::writes_change_their_bytes();
    of_memory::reads_give_the_bytes();
    of_memory::spreads_give_the_bytes();
    of_memory::parts_are_good();
    of_memory::faults_stay();
    of_memory::ranges_are_placed();
    of_memory::scratch_is_open();
    of_memory::writes_join();
    of_memory::latest_is_pushed();
}
