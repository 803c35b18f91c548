//! Accesses to the data space.
use of_cells::Cell;
use of_memory::{MemFault, Memory};
use std::alloc::Global;

/// Where the data region begins.
const DATA: u32 = 0x10_0000;

/// The cells that are visited, one after the other and then again: 64 KiB.
const CELLS: u32 = 0x4000;

/// Reads cells.
fn reads(alloc: Global, count: u32) -> Result<u32, MemFault> {
    let memory = Memory::new(alloc).map_err(|_| MemFault::NoMemory)?;
    let mut sum = 0u32;
    for i in 0..count {
        let cell = memory.read32(Cell(DATA + 4 * (i % CELLS)))?;
        sum = sum.wrapping_add(cell.0);
    }
    Ok(sum)
}

/// Writes cells.
fn writes(alloc: Global, count: u32) -> Result<u32, MemFault> {
    let mut memory = Memory::new(alloc).map_err(|_| MemFault::NoMemory)?;
    for i in 0..count {
        memory.write32(Cell(DATA + 4 * (i % CELLS)), Cell(i))?;
    }
    Ok(memory.read32(Cell(DATA))?.0)
}

/// Copies ranges of 256 bytes that overlap.
fn moves(alloc: Global, count: u32) -> Result<u32, MemFault> {
    let mut memory = Memory::new(alloc).map_err(|_| MemFault::NoMemory)?;
    for i in 0..count {
        let from = DATA + 4 * (i % CELLS);
        memory.copy(Cell(from), Cell(from + 64), Cell(256))?;
    }
    Ok(memory.read32(Cell(DATA))?.0)
}

/// How many blocks are live where bytes of the heap's last one are read.
const BLOCKS: u32 = 32_000;

/// Reads so many bytes, the eight from an address on in turn. It isn't in line, so that no address is known to it.
#[inline(never)]
fn bytes(memory: &Memory, addr: Cell, count: u32) -> Result<u32, MemFault> {
    let mut sum = 0u32;
    for i in 0..count {
        let at = Cell(addr.0.wrapping_add(i % 8));
        sum = sum.wrapping_add(u32::from(memory.read8(at)?));
    }
    Ok(sum)
}

/// Takes 32,000 blocks of the heap, and reads bytes of the last.
fn heap_reads(alloc: Global, count: u32) -> Result<u32, MemFault> {
    let mut memory = Memory::new(alloc).map_err(|_| MemFault::NoMemory)?;
    let mut last = Cell(DATA);
    for _ in 0..BLOCKS {
        last = memory.heap_take(Cell(8))?;
    }
    bytes(&memory, last, count)
}

/// Takes as many blocks of the heap, and reads bytes of the data region.
fn data_reads(alloc: Global, count: u32) -> Result<u32, MemFault> {
    let mut memory = Memory::new(alloc).map_err(|_| MemFault::NoMemory)?;
    for _ in 0..BLOCKS {
        let _ = memory.heap_take(Cell(8))?;
    }
    bytes(&memory, Cell(DATA), count)
}

/// Makes so many accesses of a kind, and answers a number that depends on all of them.
pub fn calls(alloc: Global, kind: &str, count: u32) -> Option<u32> {
    match kind {
        "read" => reads(alloc, count).ok(),
        "write" => writes(alloc, count).ok(),
        "move" => moves(alloc, count).ok(),
        "heap-byte" => heap_reads(alloc, count).ok(),
        "data-byte" => data_reads(alloc, count).ok(),
        _ => None,
    }
}
