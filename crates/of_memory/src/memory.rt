ghost use Rattle.std.specs.Prelude.{◌≡◌, ◌+◌, ◌<◌, ◌≤◌, ◌++◌, length, take, drop, replicate, IfOk};
ghost use Rattle.byteorder.specs.Endian.{big_bytes};
ghost use Rattle.std.specs.List.{All};
ghost use Rattle.of_memory.specs.Regions.{byte_count};
ghost use Rattle.of_memory.specs.Access.{every, spread_over};
ghost use Rattle.of_memory.specs.DataSpace.{fresh, zeros_with, with_bytes};

use crate::blocks::BlockList;
use crate::gather::{gather, shift};
use crate::images::ImageEnds;
use crate::regions::{BASE_LOW, BYTES, DATA_START, FIRST_PROPERTY, place};
use byteorder::{BigEndian, ByteOrder};
use std::alloc::{AllocError, Global};
use std::marker::Model;

mod access;
mod checks;
mod data;
mod heap;
mod image;
mod instances;
mod properties;
mod ranges;

/// How many blocks find room in the instance region.
const MARKS: usize = 16384;

/// The data space: the bytes of the data, property, instance, heap, scratch and image regions, and
/// what is taken of each.
///
/// Only `new`, `duplicate` and `heap_take` take memory.
#[derive(Drop)]
pub struct Memory {
    bytes: Vec<u8>,
    here: u32,
    properties_end: u32,
    images: ImageEnds,
    heap: BlockList,
    instances: BlockList,
}

impl Model for Memory {
    ghost use Rattle.std.specs.Prelude.{◌≤◌, vec_capacity};
    ghost use Rattle.of_memory.specs.Regions.{heap_start, instance_start, instance_blocks};
    ghost use Rattle.of_memory.specs.BlockSearch.{IsFilled};
    ghost use Rattle.of_memory.specs.DataSpace.{DataSpace, IsSound};

    ghost Value = { DataSpace };

    ghost view = { λ m. record {
      bytes = m.bytes.items;
      here = m.here;
      properties_end = m.properties_end;
      images = m.images;
      heap = m.heap.blocks.items;
      instances = m.instances.blocks.items;
    } };

    ghost invariant = { λ m. IsSound (record {
      bytes = m.bytes.items;
      here = m.here;
      properties_end = m.properties_end;
      images = m.images;
      heap = m.heap.blocks.items;
      instances = m.instances.blocks.items;
    }) × ((instance_blocks ≤ vec_capacity m.instances.blocks)
        × IsFilled heap_start m.heap.blocks.items m.heap.filled
        × IsFilled instance_start m.instances.blocks.items m.instances.filled) };
}

/// So many zeros, but for one byte.
#[tactic(auto, unfolding(crate::specs::DataSpace::zeros_with))]
fn zeros_with(alloc: Global, count: usize, at: usize, value: u8) -> Result<Vec<u8>, AllocError>
    requires { at < count }
    ensures items { IfOk result (λ v. v.items ≡ zeros_with count at value) }
    ensures len { IfOk result (λ v. length v.items ≡ count) }
    ensures small { IfOk result (λ v. All (λ b. b < 256) v.items) }
{
    let mut bytes = vec![in alloc; 0u8; count]?;
    bytes[at] = value;
    Ok(bytes)
}

impl Memory {
    /// The data space at first: all bytes are 0, but the cell `base` at 0x500000 is 16.
    ///
    /// This takes all the memory that is ever needed, but for the list of the heap's blocks.
    #[tactic(auto, unfolding(crate::specs::DataSpace::fresh))]
    pub fn new(alloc: Global) -> Result<Memory, AllocError>
        ensures { IfOk result (λ m. m ≡ fresh) }
    {
        let bytes = zeros_with(alloc, BYTES, place(BASE_LOW), 16)?;
        let instances = Vec::with_capacity(alloc, MARKS)?;
        Ok(Memory {
            bytes,
            here: DATA_START,
            properties_end: FIRST_PROPERTY,
            images: ImageEnds::new(),
            heap: BlockList {
                blocks: Vec::new(alloc),
                filled: 0,
            },
            instances: BlockList {
                blocks: instances,
                filled: 0,
            },
        })
    }

    /// Another data space with the same bytes, `here`, images and live blocks.
    ///
    /// All memory for it is taken at once; the error says that there is none.
    pub fn duplicate(&self) -> Result<Memory, AllocError>
        ensures { IfOk result (λ m. m ≡ self.now) }
    {
        let alloc = *self.bytes.allocator();
        let bytes = Vec::from_slice(alloc, &self.bytes)?;
        let mut instances = Vec::with_capacity(alloc, MARKS)?;
        instances.extend_from_slice(&self.instances.blocks)?;
        Ok(Memory {
            bytes,
            here: self.here,
            properties_end: self.properties_end,
            images: self.images.duplicate()?,
            heap: BlockList {
                blocks: Vec::from_slice(alloc, &self.heap.blocks)?,
                filled: self.heap.filled,
            },
            instances: BlockList {
                blocks: instances,
                filled: self.instances.filled,
            },
        })
    }

    /// Overwrites the bytes from a place on.
    #[inline]
    fn put(&mut self, at: usize, new: &[u8])
        requires { at + length new.now ≤ byte_count }
        ensures { self.new ≡ with_bytes self.old at new.now }
    {
        let end = at + new.len();
        self.bytes[at..end].copy_from_slice(new);
    }

    /// Overwrites four bytes from a place on with a number, the high byte first.
    #[inline]
    fn put_cell(&mut self, at: usize, value: u32)
        requires { at + 4 ≤ byte_count }
        ensures { self.new ≡ with_bytes self.old at (big_bytes 4 value) }
    {
        let mut new = [0; 4];
        BigEndian::write_u32(&mut new, value);
        self.put(at, &new);
    }

    /// Sets `len` bytes from a place on to one value.
    fn set_all(&mut self, at: usize, len: usize, value: u8)
        requires { at + len ≤ byte_count }
        ensures { self.new ≡ with_bytes self.old at (replicate len value) }
    {
        self.bytes[at..at + len].fill(value);
    }

    /// Copies `len` bytes from one place to another, as if by way of a third.
    fn shift(&mut self, from: usize, to: usize, len: usize)
        requires from { from + len ≤ byte_count }
        requires to { to + len ≤ byte_count }
        ensures { self.new ≡ with_bytes self.old to (take len (drop from self.old.bytes)) }
    {
        shift(&mut self.bytes, from, to, len);
    }

    /// Copies `len` bytes from one place to another, as `shift` does, and then overwrites what
    /// follows with the tail.
    fn shift_with_tail(&mut self, from: usize, to: usize, len: usize, tail: &[u8])
        requires from { from + len ≤ byte_count }
        requires to { to + len + length tail.now ≤ byte_count }
        ensures { self.new ≡ with_bytes self.old to (take len (drop from self.old.bytes) ++ tail.now) }
    {
        // With a field used, the invariant is known: the bytes are as many as they are.
        let _ = &self.bytes;
        self.shift(from, to, len);
        self.put(to + len, tail);
    }

    /// Copies `len` bytes, the first at a place and each `spread` after the one before, to another
    /// place, as if by way of a third.
    fn gather(&mut self, from: usize, to: usize, len: usize, spread: usize)
        requires some { 1 ≤ spread }
        requires from { from + spread_over len spread ≤ byte_count }
        requires to { to + len ≤ byte_count }
        ensures { self.new ≡ with_bytes self.old to (every self.old.bytes from len spread) }
    {
        gather(&mut self.bytes, from, to, len, spread);
    }
}
