ghost use Rattle.std.specs.Prelude.{◌≡◌, ◌+◌, ◌*◌, ◌-◌, ◌<◌, ◌≤◌, take, drop, Some, None, Ok, Err, IfOk, IfSome};
ghost use Rattle.std.specs.Prelude.{IsSome, MatchResult};
ghost use Rattle.of_memory.specs.Regions.{place_of, byte_count};
ghost use Rattle.of_memory.specs.DataSpace.{IsSound};
ghost use Rattle.of_memory.specs.Access.{are_readable, read_fault, write_fault, read_bytes, read_spread, every};
ghost use Rattle.of_memory.specs.Access.{spread_over, unless, end_of};
ghost use Rattle.of_memory.specs.Outcomes.{TakesNoMemory};

use super::Memory;
use crate::blocks::{block_end, covers};
use crate::fault::MemFault;
use crate::regions::{DATA_LIMIT, DATA_START, LONGEST, Region, SPAN, may_write, place};
use crate::width::Width;
use of_cells::Cell;

impl Memory {
    /// Whether each of `len` bytes can be read.
    #[inline]
    fn is_readable(&self, addr: u32, len: u32) -> bool
        requires { 0 < len }
        ensures { result ≡ are_readable self.now addr len }
    {
        let Some(region) = Region::of(addr) else {
            return false;
        };
        let within = addr % SPAN;
        let size = region.size();
        if within >= size || len > size - within {
            return false;
        }
        if region.is_heap() {
            covers(&self.heap.blocks, addr, len)
        } else {
            true
        }
    }

    /// Where the bytes of a range stand that lies in the data region from a multiple of the width on: such a one can be
    /// read and written.
    #[inline(always)]
    #[tactic(auto, using(crate::proofs::DataRegion::in_data))]
    fn in_data(&self, addr: u32, len: u32, width: Width) -> Option<usize>
        requires { 0 < len }
        ensures read { IsSome result → read_fault self.now addr len width ≡ None }
        ensures write { IsSome result → write_fault self.now addr len width ≡ None }
        ensures place { IfSome result (λ at. at ≡ place_of addr) }
        ensures within { IfSome result (λ at. at + len ≤ byte_count) }
    {
        if addr < DATA_START || len > DATA_LIMIT - DATA_START || addr > DATA_LIMIT - len {
            return None;
        }
        if addr % width.bytes() != 0 {
            return None;
        }
        Some((addr - DATA_START) as usize)
    }

    /// The fault of a read in whichever region, if it has one.
    #[inline(never)]
    #[tactic(auto, using(crate::proofs::Faults::read_faults))]
    fn read_fault(&self, addr: u32, len: u32, width: Width) -> Option<MemFault>
        requires { 0 < len }
        ensures value { result ≡ read_fault self.now addr len width }
        ensures memory { result ≡ Some MemFault.NoMemory → ⊥ }
    {
        if !self.is_readable(addr, len) {
            return Some(MemFault::Address);
        }
        if addr % width.bytes() != 0 {
            return Some(MemFault::Alignment);
        }
        None
    }

    /// The fault of a write in whichever region, if it has one.
    #[inline(never)]
    #[tactic(auto, using(crate::proofs::Faults::write_faults))]
    fn write_fault(&self, addr: u32, len: u32, width: Width) -> Option<MemFault>
        requires { 0 < len }
        ensures value { result ≡ write_fault self.now addr len width }
        ensures memory { result ≡ Some MemFault.NoMemory → ⊥ }
    {
        if let Some(fault) = self.read_fault(addr, len, width) {
            return Some(fault);
        }
        if !may_write(addr) {
            return Some(MemFault::ReadOnly);
        }
        None
    }

    /// Where the bytes of a read stand. Most stand in the data region, where a few comparisons tell it.
    #[inline(always)]
    #[tactic(auto, using(crate::proofs::Faults::read_placed))]
    pub(super) fn to_read(&self, addr: u32, len: u32, width: Width) -> Result<usize, MemFault>
        requires { 0 < len }
        ensures value { result ≡ unless (read_fault self.now addr len width) (place_of addr) }
        ensures within { IfOk result (λ at. at + len ≤ byte_count) }
        ensures memory { TakesNoMemory result }
    {
        if let Some(at) = self.in_data(addr, len, width) {
            return Ok(at);
        }
        match self.read_fault(addr, len, width) {
            None => Ok(place(addr)),
            Some(fault) => Err(fault),
        }
    }

    /// Where the bytes of a write stand.
    #[inline(always)]
    #[tactic(auto, using(crate::proofs::Faults::write_placed))]
    pub(super) fn to_write(&self, addr: u32, len: u32, width: Width) -> Result<usize, MemFault>
        requires { 0 < len }
        ensures value { result ≡ unless (write_fault self.now addr len width) (place_of addr) }
        ensures within { IfOk result (λ at. at + len ≤ byte_count) }
        ensures memory { TakesNoMemory result }
    {
        if let Some(at) = self.in_data(addr, len, width) {
            return Ok(at);
        }
        match self.write_fault(addr, len, width) {
            None => Ok(place(addr)),
            Some(fault) => Err(fault),
        }
    }

    /// Where the bytes of a range stand, or any place where it has none.
    #[tactic(auto, using(crate::proofs::Nothing::slice_none))]
    pub(super) fn source(&self, addr: u32, len: u32) -> Result<usize, MemFault>
        ensures value { let bytes = read_bytes self.now addr len in
            MatchResult result (λ at. bytes ≡ Ok (take len (drop at self.now.bytes))) (λ e. bytes ≡ Err e) }
        ensures within { IfOk result (λ at. at + len ≤ byte_count) }
        ensures memory { TakesNoMemory result }
    {
        if len == 0 {
            return Ok(0);
        }
        self.to_read(addr, len, Width::One)
    }

    /// Where the first stands of `len` bytes, each `spread` after the one before, or any place where
    /// there are none.
    #[tactic(auto, using(crate::proofs::Spread::spread_facts, crate::proofs::Faults::long_fault))]
    pub(super) fn spread_source(&self, addr: u32, len: u32, spread: u32) -> Result<usize, MemFault>
        ensures value { let bytes = read_spread self.now addr len spread in
            MatchResult result (λ at. bytes ≡ Ok (every self.now.bytes at len spread)) (λ e. bytes ≡ Err e) }
        ensures within { IfOk result (λ at. at + spread_over len spread ≤ byte_count) }
        ensures memory { TakesNoMemory result }
    {
        if len == 0 {
            return Ok(0);
        }
        let over = u64::from(len - 1) * u64::from(spread) + 1;
        if over > u64::from(LONGEST) {
            return Err(MemFault::Address);
        }
        self.to_read(addr, over as u32, Width::One)
    }

    /// Whether a read of `len` bytes at a multiple of `width` would succeed, without making it.
    ///
    /// No bytes can always be read. Else the first of these counts: Address, if a byte can't be
    /// read; Alignment, if the address is no multiple of the width.
    #[tactic(auto, using(crate::proofs::Nothing::no_read_fault))]
    pub fn check_read(&self, addr: Cell, len: Cell, width: Width) -> Result<(), MemFault>
        ensures value { result ≡ unless (read_fault self.now addr.0 len.0 width) tt }
        ensures sound { IsSound self.now }
        ensures memory { TakesNoMemory result }
    {
        // With a field used, the invariant is known: `sound`.
        let _ = &self.bytes;
        if len.0 == 0 {
            return Ok(());
        }
        let _ = self.to_read(addr.0, len.0, width)?;
        Ok(())
    }

    /// Whether a write of `len` bytes at a multiple of `width` would succeed, without making it.
    ///
    /// No bytes can always be written. Else the first of these counts: Address, if a byte can't be
    /// read; Alignment, if the address is no multiple of the width; ReadOnly, if programs may only
    /// read the region.
    #[tactic(auto, using(crate::proofs::Nothing::no_write_fault))]
    pub fn check_write(&self, addr: Cell, len: Cell, width: Width) -> Result<(), MemFault>
        ensures value { result ≡ unless (write_fault self.now addr.0 len.0 width) tt }
        ensures sound { IsSound self.now }
        ensures memory { TakesNoMemory result }
    {
        // With a field used, the invariant is known: `sound`.
        let _ = &self.bytes;
        if len.0 == 0 {
            return Ok(());
        }
        let _ = self.to_write(addr.0, len.0, width)?;
        Ok(())
    }

    /// Where the region, or in the heap the live block, ends that holds the address.
    ///
    /// Address, if the byte there can't be read.
    pub fn end_of(&self, addr: Cell) -> Result<Cell, MemFault>
        ensures value { result ≡ end_of self.now addr.0 }
        ensures memory { TakesNoMemory result }
    {
        let Some(region) = Region::of(addr.0) else {
            return Err(MemFault::Address);
        };
        if region.is_heap() {
            return block_end(&self.heap.blocks, addr.0);
        }
        let within = addr.0 % SPAN;
        if within >= region.size() {
            return Err(MemFault::Address);
        }
        Ok(Cell(addr.0 - within + region.size()))
    }
}
