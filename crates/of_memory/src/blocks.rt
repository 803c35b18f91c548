ghost use Rattle.std.specs.Prelude.{find, drop, ◌≡◌, ◌≢◌, ℕ, ◌+◌, ◌*◌, ◌%◌, ◌<◌, ◌≤◌, ◌^◌, vec_len, vec_capacity};
ghost use Rattle.std.specs.Prelude.{length, Some, None, Ok, Err, IfOk, IfSome, MatchOption};
ghost use Rattle.std.specs.List.{insert, position};
ghost use Rattle.of_memory.specs.Access.{all_from, end_found};
ghost use Rattle.of_memory.specs.Regions.{longest, heap_start, heap_limit};
ghost use Rattle.of_memory.specs.Blocks.{AreLaid, IsLeastFree, holds, is_block, is_live, least_free, rounded};
ghost use Rattle.of_memory.specs.BlockSearch.{IsFilled, IsGap, begun, block_at, find_room, first_end, reach};
ghost use Rattle.of_memory.specs.BlockCalls.{block_taken, block_given};
ghost use Rattle.of_cells.specs.Outcomes.{Becomes, MayAnswer};
ghost use Rattle.of_memory.specs.Outcomes.{IsForMemory, TakesNoMemory, address_of};

use crate::fault::MemFault;
use crate::regions::LONGEST;
use of_cells::Cell;

/// A live block.
#[derive(Clone, Copy)]
pub(crate) struct Block {
    pub(crate) at: u32,
    pub(crate) size: u32,
}

/// The live blocks of a region in order, and how many of the first stand right behind one another
/// from the beginning of the region on. A search for a gap passes these by.
#[derive(Drop)]
pub(crate) struct BlockList {
    pub(crate) blocks: Vec<Block>,
    pub(crate) filled: usize,
}

/// Where a block finds room: how many blocks stand before it, and its address.
#[derive(Clone, Copy)]
struct Gap {
    index: usize,
    at: u32,
}

/// The same, and how many of the first blocks stand right behind one another once it is there.
#[derive(Clone, Copy)]
struct Room {
    index: usize,
    at: u32,
    filled: usize,
}

/// The size of the block for so many bytes.
#[inline]
pub(crate) fn block_size(len: u32) -> u32
    requires { len ≤ longest }
    ensures { result ≡ rounded len }
{
    ((len + 7) / 8 * 8).max(8)
}

/// How many of the first blocks end no later than the address, by bisection.
fn ended_before(blocks: &[Block], addr: u32) -> usize
    requires { AreLaid heap_start heap_limit blocks.now }
    ensures within { result ≤ length blocks.now }
    ensures reach { reach (drop result blocks.now) addr ≡ reach blocks.now addr }
    ensures holder { find (holds addr) (drop result blocks.now) ≡ find (holds addr) blocks.now }
{
    let mut low = 0;
    let mut high = blocks.len();
    while low < high {
        let middle = low + (high - low) / 2;
        let b = blocks[middle];
        if b.at <= addr && addr - b.at >= b.size {
            low = middle + 1;
        } else {
            high = middle;
        }
    }
    low
}

/// Whether the blocks, one after another, hold all of `len` bytes. Only those that hold them are
/// visited.
#[tactic(auto, using(crate::proofs::Laid::heap_block))]
#[inline(never)]
pub(crate) fn covers(blocks: &[Block], addr: u32, len: u32) -> bool
    requires laid { AreLaid heap_start heap_limit blocks.now }
    requires fits { addr + len ≤ heap_limit }
    ensures { result ≡ all_from (is_live blocks.now) addr len }
{
    let mut next = addr;
    let mut i = ended_before(blocks, addr);
    while i < blocks.len() && next - addr < len {
        let b = blocks[i];
        if next < b.at {
            return false;
        }
        if next - b.at < b.size {
            next = b.at + b.size;
        }
        i += 1;
    }
    next - addr >= len
}

/// Where the block that holds the address ends.
#[tactic(auto, using(crate::proofs::Laid::heap_block))]
pub(crate) fn block_end(blocks: &[Block], addr: u32) -> Result<Cell, MemFault>
    requires { AreLaid heap_start heap_limit blocks.now }
    ensures { result ≡ end_found (find (holds addr) blocks.now) }
{
    let mut i = ended_before(blocks, addr);
    while i < blocks.len() {
        let b = blocks[i];
        if addr < b.at {
            return Err(MemFault::Address);
        }
        if addr - b.at < b.size {
            return Ok(Cell(b.at + b.size));
        }
        i += 1;
    }
    Err(MemFault::Address)
}

/// The first gap of `size` bytes between `low` and `high`.
fn first_gap(blocks: &[Block], low: u32, high: u32, size: u32) -> Option<Gap>
    requires laid { AreLaid low high blocks.now }
    requires fits { high + size < 2 ^ 32 }
    requires some { 0 < size }
    requires eighths { size % 8 ≡ 0 }
    ensures none { result ≡ None → least_free low high blocks.now size ≡ None }
    ensures some { IfSome result (λ g. IsGap low high blocks.now size g.index g.at) }
    ensures first { IfSome result (λ g. g.index ≡ 0 → g.at ≡ low) }
{
    let mut next = low;
    for (i, b) in blocks.iter().enumerate() {
        if next + size <= b.at {
            return Some(Gap { index: i, at: next });
        }
        next = b.at + b.size;
    }
    if next + size <= high {
        Some(Gap {
            index: blocks.len(),
            at: next,
        })
    } else {
        None
    }
}

/// Where the first `count` blocks end; `low`, if there are none.
fn first_end(blocks: &[Block], low: u32, count: usize) -> u32
    requires within { count ≤ length blocks.now }
    requires fits { first_end low blocks.now count < 2 ^ 32 }
    ensures { result ≡ first_end low blocks.now count }
{
    if count == 0 {
        return low;
    }
    let b = blocks[count - 1];
    b.at + b.size
}

/// The first room for `size` bytes between `low` and `high`. It is sought behind the first `filled`
/// blocks, and behind those that stand right behind them.
fn first_room(blocks: &[Block], filled: usize, low: u32, high: u32, size: u32) -> Option<Room>
    requires laid { AreLaid low high blocks.now }
    requires filled { IsFilled low blocks.now filled }
    requires fits { high + size < 2 ^ 32 }
    requires some { 0 < size }
    requires eighths { size % 8 ≡ 0 }
    ensures none { result ≡ None → least_free low high blocks.now size ≡ None }
    ensures some { IfSome result (λ r. IsGap low high blocks.now size r.index r.at) }
    ensures filled { IfSome result (λ r. IsFilled low (insert blocks.now r.index (block_at r.at size)) r.filled) }
{
    let mut count = filled;
    let mut next = first_end(blocks, low, filled);
    while count < blocks.len() && blocks[count].at == next {
        next += blocks[count].size;
        count += 1;
    }
    let gap = first_gap(&blocks[count..], next, high, size)?;
    if gap.index > 0 {
        return Some(Room {
            index: count + gap.index,
            at: gap.at,
            filled: count,
        });
    }
    Some(Room {
        index: count,
        at: gap.at,
        filled: count + 1,
    })
}

/// Takes a block for `len` bytes between `low` and `high`, at the least free address.
#[tactic(auto, using(crate::proofs::Free::too_long))]
pub(crate) fn take_block(
    list: &mut BlockList,
    low: u32,
    high: u32,
    len: u32,
) -> Result<Cell, MemFault>
    requires laid { AreLaid low high list.old.blocks.items }
    requires filled { IsFilled low list.old.blocks.items list.old.filled }
    requires short { high ≤ low + longest }
    requires fits { high + longest < 2 ^ 31 }
    ensures taken { let old = list.old.blocks.items in
        MayAnswer IsForMemory (block_taken low high old len) old list.new.blocks.items (address_of result) }
    ensures laid { AreLaid low high list.new.blocks.items }
    ensures filled { IsFilled low list.new.blocks.items list.new.filled }
    ensures least { IfOk result (λ a. IsLeastFree low high list.old.blocks.items (rounded len) a.0) }
    ensures from { IfOk result (λ a. low ≤ a.0) }
    ensures to { IfOk result (λ a. a.0 + rounded len ≤ high) }
    ensures short { IfOk result (λ a. len ≤ longest) }
    ensures room { high ≤ low + 8 * vec_capacity list.old.blocks → result ≢ Err MemFault.NoMemory }
    ensures capacity { vec_capacity list.old.blocks ≤ vec_capacity list.new.blocks }
{
    if len > LONGEST {
        return Err(MemFault::Full);
    }
    let size = block_size(len);
    let Some(room) = first_room(&list.blocks, list.filled, low, high, size) else {
        return Err(MemFault::Full);
    };
    list.blocks.insert(room.index, Block { at: room.at, size })?;
    list.filled = room.filled;
    Ok(Cell(room.at))
}

/// How many of the first blocks begin before the address, by bisection.
fn begun_before(blocks: &[Block], addr: u32) -> usize
    requires { AreLaid 0 (2 ^ 32) blocks.now }
    ensures { result ≡ begun addr blocks.now }
{
    let mut low = 0;
    let mut high = blocks.len();
    while low < high {
        let middle = low + (high - low) / 2;
        if blocks[middle].at < addr {
            low = middle + 1;
        } else {
            high = middle;
        }
    }
    low
}

/// Which block stands at `addr` with `size` bytes.
fn block_index(blocks: &[Block], addr: u32, size: u32) -> Option<usize>
    requires { AreLaid 0 (2 ^ 32) blocks.now }
    ensures value { result ≡ position (is_block addr size) blocks.now }
    ensures within { IfSome result (λ i. i < length blocks.now) }
{
    let i = begun_before(blocks, addr);
    if i < blocks.len() && blocks[i].at == addr && blocks[i].size == size {
        return Some(i);
    }
    None
}

/// Gives back the block for `len` bytes at `addr`, between `low` and `high`.
pub(crate) fn give_block(
    list: &mut BlockList,
    low: u32,
    high: u32,
    addr: u32,
    len: u32,
) -> Result<(), MemFault>
    requires laid { AreLaid low high list.old.blocks.items }
    requires filled { IsFilled low list.old.blocks.items list.old.filled }
    requires short { high ≤ low + longest }
    ensures given { let old = list.old.blocks.items in
        Becomes (block_given old addr len) old list.new.blocks.items result }
    ensures laid { AreLaid low high list.new.blocks.items }
    ensures filled { IsFilled low list.new.blocks.items list.new.filled }
    ensures memory { TakesNoMemory result }
    ensures capacity { vec_capacity list.old.blocks ≤ vec_capacity list.new.blocks }
{
    if len > LONGEST {
        return Err(MemFault::BadBlock);
    }
    let size = block_size(len);
    let Some(i) = block_index(&list.blocks, addr, size) else {
        return Err(MemFault::BadBlock);
    };
    list.blocks.remove(i);
    list.filled = list.filled.min(i);
    Ok(())
}

/// Whether blocks for all lengths find room, taken one after another. Each is given back at once,
/// so that the blocks are the same afterwards.
#[tactic(auto, using(crate::proofs::Free::too_long))]
pub(crate) fn has_room(list: &mut BlockList, low: u32, high: u32, lengths: &[Cell]) -> bool
    requires laid { AreLaid low high list.old.blocks.items }
    requires filled { IsFilled low list.old.blocks.items list.old.filled }
    requires short { high ≤ low + longest }
    requires fits { high + longest < 2 ^ 31 }
    requires room { high ≤ low + 8 * vec_capacity list.old.blocks }
    ensures value { result ≡ find_room low high list.old.blocks.items lengths.now }
    ensures same { list.new.blocks.items ≡ list.old.blocks.items }
    ensures filled { IsFilled low list.new.blocks.items list.new.filled }
    ensures capacity { vec_capacity list.old.blocks ≤ vec_capacity list.new.blocks }
{
    let [len, rest @ ..] = lengths else {
        return true;
    };
    if len.0 > LONGEST {
        return false;
    }
    let size = block_size(len.0);
    let Some(room) = first_room(&list.blocks, list.filled, low, high, size) else {
        return false;
    };
    // The list has room for every block of its region.
    let Ok(()) = list.blocks.insert(room.index, Block { at: room.at, size }) else {
        return false;
    };
    list.filled = room.filled;
    let all = has_room(list, low, high, rest);
    list.blocks.remove(room.index);
    list.filled = list.filled.min(room.index);
    all
}
