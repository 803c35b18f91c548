//! Accesses to a plain vector, beside which those to the data space are timed.
use std::alloc::{AllocError, Global};

/// The cells that are visited, one after the other and then again: 64 KiB.
const CELLS: u32 = 0x4000;

/// Reads cells of a vector.
fn reads(alloc: Global, count: u32) -> Result<u32, AllocError> {
    let cells = vec![in alloc; 0u32; 0x4000]?;
    let mut sum = 0u32;
    for i in 0..count {
        if let Some(cell) = cells.get((i % CELLS) as usize) {
            sum = sum.wrapping_add(*cell);
        }
    }
    Ok(sum)
}

/// Writes cells of a vector.
fn writes(alloc: Global, count: u32) -> Result<u32, AllocError> {
    let mut cells = vec![in alloc; 0u32; 0x4000]?;
    for i in 0..count {
        if let Some(cell) = cells.get_mut((i % CELLS) as usize) {
            *cell = i;
        }
    }
    Ok(cells.iter().fold(0, |sum, cell| sum ^ cell))
}

/// Copies ranges of 256 bytes of a vector that overlap.
fn moves(alloc: Global, count: u32) -> Result<u32, AllocError> {
    let mut bytes = vec![in alloc; 0u8; 0x1_1000]?;
    for i in 0..count {
        let from = (4 * (i % CELLS)) as usize;
        let range = bytes.as_mut_slice();
        if from + 320 <= range.len() {
            range.copy_within(from..from + 256, from + 64);
        }
    }
    Ok(bytes.iter().fold(0, |sum, byte| sum ^ u32::from(*byte)))
}

/// Makes so many accesses of a kind, and answers a number that depends on all of them.
pub fn calls(alloc: Global, kind: &str, count: u32) -> Option<u32> {
    match kind {
        "read" => reads(alloc, count).ok(),
        "write" => writes(alloc, count).ok(),
        "move" => moves(alloc, count).ok(),
        _ => None,
    }
}
