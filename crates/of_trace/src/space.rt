//! What a step has changed in the data space.
use crate::json::{say_bytes, say_comma};
use of_cells::Cell;
use of_machine::ScriptMachine;
use of_memory::Memory;
use std::alloc::{AllocError, Global};
use std::io::{self, Write};

/// How many bytes are compared at once.
const PAGE: usize = 4096;

/// The heap, of which live blocks alone can be read.
const HEAP: (u32, u32) = (0x40_0000, 0x44_0000);

/// Where the bytes of a region stand that can be read in one, and how many there are.
#[derive(Clone, Copy)]
enum Region {
    /// What programs allot at `here`.
    Data,
    /// The cell `state`, and names and values of properties.
    Properties,
    /// The blocks of instances.
    Instances,
    /// The cells `base` and `fcode-debug?`, pictured text and interpreted strings.
    Scratch,
    /// The images that run.
    Images,
}

impl Region {
    /// Where it begins.
    fn start(self) -> u32 {
        match self {
            Region::Data => 0x10_0000,
            Region::Properties => 0x20_0000,
            Region::Instances => 0x30_0000,
            Region::Scratch => 0x50_0000,
            Region::Images => 0x60_0000,
        }
    }

    /// How many of its bytes are in use.
    fn used(self, memory: &Memory) -> u32 {
        match self {
            Region::Data => 0x4_0000,
            Region::Properties => match u32::try_from(memory.property_room()) {
                Ok(room) => 0x2_0000u32.saturating_sub(room),
                Err(_) => 0,
            },
            Region::Instances => 0x2_0000,
            Region::Scratch => 0x1000,
            Region::Images => 0x4_0000u32.saturating_sub(memory.image_room().0),
        }
    }
}

/// Bytes from an address on, as they were before.
#[derive(Drop)]
struct Held {
    address: u32,
    bytes: Vec<u8>,
}

/// Writes the bytes from a place on that have changed, behind others of which there are so many.
fn say_range(
    address: u32,
    place: usize,
    bytes: &[u8],
    count: usize,
    line: &mut Vec<u8>,
) -> io::Result<()> {
    say_comma(count, line)?;
    let first = match u32::try_from(place) {
        Ok(place) => address.wrapping_add(place),
        Err(_) => address,
    };
    write!(line, "{{\"address\":{first},\"bytes\":")?;
    say_bytes(bytes, line)?;
    write!(line, "}}")
}

/// What has been written of ranges that have changed.
#[derive(Clone, Copy)]
struct Ranges {
    /// How many were written.
    count: usize,
    /// Where one begins that isn't written yet, if one does.
    open: Option<usize>,
}

/// Ends the range that isn't written yet, if one isn't, before a place.
fn end_range(
    address: u32,
    new: &[u8],
    place: usize,
    ranges: Ranges,
    line: &mut Vec<u8>,
) -> io::Result<Ranges> {
    let Some(start) = ranges.open else {
        return Ok(ranges);
    };
    let bytes = new.get(start..place).unwrap_or(&[]);
    say_range(address, start, bytes, ranges.count, line)?;
    Ok(Ranges {
        count: ranges.count.saturating_add(1),
        open: None,
    })
}

/// Writes the ranges of a page that have changed, but for one that its end leaves open.
fn say_page(
    address: u32,
    old: &[u8],
    new: &[u8],
    first: usize,
    ranges: Ranges,
    line: &mut Vec<u8>,
) -> io::Result<Ranges> {
    let mut ranges = ranges;
    for place in first..first.saturating_add(PAGE).min(new.len()) {
        if old.get(place).unwrap_or(&0) == new.get(place).unwrap_or(&0) {
            ranges = end_range(address, new, place, ranges, line)?;
        } else if ranges.open.is_none() {
            ranges.open = Some(place);
        }
    }
    Ok(ranges)
}

/// Whether a page from a place on has stayed as it was. What wasn't in use before is 0.
fn stays(old: &[u8], new: &[u8], first: usize) -> bool {
    let end = first.saturating_add(PAGE).min(new.len());
    old.get(first..end) == new.get(first..end)
}

/// Writes the ranges of bytes from an address on that have changed, behind others of which there are so many, and gives
/// how many there are then.
fn say_ranges(
    address: u32,
    old: &[u8],
    new: &[u8],
    count: usize,
    line: &mut Vec<u8>,
) -> io::Result<usize> {
    let mut ranges = Ranges { count, open: None };
    for number in 0..new.len().div_ceil(PAGE) {
        let first = number.saturating_mul(PAGE);
        if stays(old, new, first) {
            ranges = end_range(address, new, first, ranges, line)?;
        } else {
            ranges = say_page(address, old, new, first, ranges, line)?;
        }
    }
    let ranges = end_range(address, new, new.len(), ranges, line)?;
    Ok(ranges.count)
}

/// Puts bytes in the place of the first of others, of which more may stay.
fn replace(old: &mut Vec<u8>, new: &[u8]) -> Result<(), AllocError> {
    if old.get(..new.len()) == Some(new) {
        return Ok(());
    }
    let kept = old.len().min(new.len());
    old[..kept].copy_from_slice(&new[..kept]);
    old.extend_from_slice(&new[kept..])
}

/// The bytes of the data space that can be read, as they were.
#[derive(Drop)]
pub(crate) struct Space {
    alloc: Global,
    regions: Vec<(Region, Vec<u8>)>,
    blocks: Vec<Held>,
}

/// The bytes of a region that are in use.
fn bytes_in(memory: &Memory, region: Region) -> &[u8] {
    match memory.slice(Cell(region.start()), Cell(region.used(memory))) {
        Ok(bytes) => bytes,
        Err(_) => &[],
    }
}

/// The bytes of the live block of the heap that begins at an address; none where none does.
fn bytes_of(memory: &Memory, address: u32) -> &[u8] {
    let (first, end) = HEAP;
    if address < first || address >= end {
        return &[];
    }
    let Ok(Cell(behind)) = memory.end_of(Cell(address)) else {
        return &[];
    };
    match memory.slice(Cell(address), Cell(behind.saturating_sub(address))) {
        Ok(bytes) => bytes,
        Err(_) => &[],
    }
}

impl Space {
    /// Nothing is known yet: all regions are empty.
    pub(crate) fn new(alloc: Global) -> Result<Space, AllocError> {
        let mut regions = Vec::new(alloc);
        for region in [
            Region::Data,
            Region::Properties,
            Region::Instances,
            Region::Scratch,
            Region::Images,
        ] {
            regions.push((region, Vec::new(alloc)))?;
        }
        Ok(Space {
            alloc,
            regions,
            blocks: Vec::new(alloc),
        })
    }

    /// Whether an address lies in a block that is known.
    fn has_block(&self, address: u32) -> bool {
        self.blocks.iter().any(|block| {
            let within = address.wrapping_sub(block.address);
            match usize::try_from(within) {
                Ok(within) => within < block.bytes.len(),
                Err(_) => false,
            }
        })
    }

    /// Takes a block in, if one begins at the cell that a step has left on top of the stack, as `alloc-mem` does.
    fn take_block(&mut self, machine: &ScriptMachine) -> Result<(), AllocError> {
        let Some(Cell(address)) = machine.stack().last().copied() else {
            return Ok(());
        };
        let bytes = bytes_of(machine.memory(), address);
        if bytes.is_empty() || self.has_block(address) {
            return Ok(());
        }
        let zeros = vec![in self.alloc; 0u8; bytes.len()]?;
        self.blocks.push(Held {
            address,
            bytes: zeros,
        })?;
        Ok(())
    }

    /// Writes the ranges of the regions that have changed, and gives how many there are.
    fn say_regions(&mut self, memory: &Memory, line: &mut Vec<u8>) -> io::Result<usize> {
        let mut count = 0;
        for (region, old) in self.regions.iter_mut() {
            let new = bytes_in(memory, *region);
            count = say_ranges(region.start(), old, new, count, line)?;
            replace(old, new)?;
        }
        Ok(count)
    }

    /// The same of blocks of the heap, behind so many. A block that is given back has no bytes.
    fn say_blocks(
        &mut self,
        memory: &Memory,
        before: usize,
        line: &mut Vec<u8>,
    ) -> io::Result<usize> {
        let mut count = before;
        for block in self.blocks.iter_mut() {
            let new = bytes_of(memory, block.address);
            count = say_ranges(block.address, &block.bytes, new, count, line)?;
            replace(&mut block.bytes, new)?;
            block.bytes.truncate(new.len());
        }
        self.blocks.retain(|block| !block.bytes.is_empty());
        Ok(count)
    }

    /// Writes the ranges of the data space that a step has changed, each with its address and its new bytes; nothing
    /// where none has.
    pub(crate) fn say(&mut self, machine: &ScriptMachine, line: &mut Vec<u8>) -> io::Result<()> {
        let memory = machine.memory();
        let mut ranges = Vec::new(self.alloc);
        let count = self.say_regions(memory, &mut ranges)?;
        self.take_block(machine)?;
        let count = self.say_blocks(memory, count, &mut ranges)?;
        if count == 0 {
            return Ok(());
        }
        write!(line, ",\"memory\":[")?;
        line.write_all(&ranges)?;
        write!(line, "]")
    }
}
