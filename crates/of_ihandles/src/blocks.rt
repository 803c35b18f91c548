ghost use Rattle.std.specs.Prelude.{◌≡◌, ◌≤◌, ◌-◌, ◌++◌, ◌∷◌, [], length, set, take, MatchOption, OnOk, OnErr, IfErr};
ghost use Rattle.std.specs.Prelude.{Ok, Err, vec_capacity, vec_len};
ghost use Rattle.std.specs.List.{slice_get};
ghost use Rattle.byteorder.specs.Endian.{big_bytes};
ghost use Rattle.of_memory.specs.DataSpace.{written};
ghost use Rattle.of_ihandles.specs.Blocks.{IsInRegion, all_begun, begun, blocks_taken, cell_at, copy_taken, given};
ghost use Rattle.of_ihandles.specs.Blocks.{given_all};
ghost use Rattle.of_ihandles.specs.Slots.{template_bytes};
ghost use Rattle.of_ihandles.specs.Blocks.{one_taken, span};
ghost use Rattle.of_ihandles.specs.Rooms.{nowhere};
ghost use Rattle.of_cells.specs.Outcomes.{Answers, MayAnswer};
ghost use Rattle.of_ihandles.specs.InstanceOutcomes.{IsForMemory};

use crate::instance_fault::InstanceFault;
use crate::slots::{Slot, Template};
use of_cells::Cell;
use of_memory::Memory;
use of_nodes::Span;
use std::alloc::Global;
use std::marker::Model;

/// Where the instance region begins.
const INSTANCE_START: u32 = 0x30_0000;

/// A block of the instance region, for so many bytes from an address on.
#[derive(Clone, Copy)]
pub struct Block {
    span: Span,
}

impl Model for Block {
    ghost use Rattle.of_nodes.specs.declared.properties.Span.{Span};
    ghost use Rattle.of_ihandles.specs.Blocks.{IsInRegion};

    ghost Value = { Span };

    ghost view = { λ b. b.span };

    ghost invariant = { λ b. IsInRegion b.span };

    ghost inverse = { λ s. record { span = s } };
}

/// The blocks of an instance's slots.
#[derive(Drop)]
pub struct Blocks {
    list: Vec<Block>,
}

impl Model for Blocks {
    ghost use Rattle.std.specs.Prelude.{List};
    ghost use Rattle.of_nodes.specs.declared.properties.Span.{Span};

    ghost Value = { List Span };

    ghost view = { λ b. b.list.items };
}

impl Block {
    /// The block at an address.
    fn new(address: Cell, length: Cell) -> Block
        requires { IsInRegion (span address length) }
        ensures { result ≡ span address length }
    {
        Block {
            span: Span { address, length },
        }
    }

    /// What stands in the place of a block until it is taken.
    pub(crate) fn nowhere() -> Block
        ensures { result ≡ nowhere }
    {
        Block::new(Cell(INSTANCE_START), Cell::ZERO)
    }

    /// Where it is.
    pub(crate) fn span(self) -> Span
        ensures { result ≡ self }
    {
        self.span
    }

    /// Its first cell.
    #[tactic(auto, using(crate::proofs::BlockAccess::access))]
    pub(crate) fn cell(self, memory: &Memory) -> Cell
        ensures { result ≡ cell_at memory.now self }
    {
        // It can be read.
        let Ok(value) = memory.read32(self.span.address) else {
            return Cell::ZERO;
        };
        value
    }

    /// Stores its first cell.
    #[tactic(auto, using(crate::proofs::BlockAccess::access))]
    pub(crate) fn set_cell(self, memory: &mut Memory, value: Cell)
        ensures { memory.new ≡ written memory.old self.address.0 (big_bytes 4 value.0) }
    {
        // It can be written.
        let Ok(()) = memory.write32(self.span.address, value) else {
            return;
        };
    }

    /// Stores bytes from its beginning on.
    #[tactic(auto, using(crate::proofs::BlockAccess::access))]
    pub(crate) fn write(self, memory: &mut Memory, bytes: &[u8])
        requires { length bytes.now ≤ self.length.0 }
        ensures { memory.new ≡ written memory.old self.address.0 bytes.now }
    {
        // They can be written.
        let Ok(()) = memory.write_bytes(self.span.address, bytes) else {
            return;
        };
    }

    /// Begins as a template, where it is all zeros.
    #[tactic(auto, using(crate::proofs::BlockAccess::written_none))]
    pub(crate) fn begin(self, memory: &mut Memory, template: Template)
        ensures { memory.new ≡ written memory.old self.address.0 (template_bytes template) }
    {
        match template {
            Template::Value(value) => self.set_cell(memory, value),
            Template::Zeros(_) => {}
        }
    }

    /// Gives it back to its region.
    pub(crate) fn give(self, memory: &mut Memory)
        ensures { memory.new ≡ given memory.old self }
    {
        let _ = memory.instance_give(self.span.address, self.span.length);
    }

    /// Takes a block for so many bytes, which are 0 then.
    ///
    /// Full, if it finds no room; then nothing is taken.
    #[tactic(auto, using(crate::proofs::BlockAccess::least_in_region))]
    pub(crate) fn take(memory: &mut Memory, length: Cell) -> Result<Block, InstanceFault>
        ensures { Answers (one_taken memory.old length) memory.old memory.new result }
    {
        match memory.instance_take(length) {
            Ok(address) => Ok(Block::new(address, length)),
            Err(_) => Err(InstanceFault::Full),
        }
    }
    /// Takes a block for bytes, and copies them there.
    ///
    /// Full, if it finds no room; then nothing changes.
    #[tactic(auto, using(crate::proofs::Opening::long_taken))]
    pub(crate) fn copy_of(memory: &mut Memory, bytes: &[u8]) -> Result<Block, InstanceFault>
        ensures { Answers (copy_taken memory.old bytes.now) memory.old memory.new result }
    {
        if bytes.len() > u32::MAX as usize {
            return Err(InstanceFault::Full);
        }
        let block = Block::take(memory, Cell(bytes.len() as u32))?;
        block.write(memory, bytes);
        Ok(block)
    }
}

/// Takes a block for each of the lengths, or none, and appends them.
///
/// Full, if one finds no room; then nothing changes.
#[tactic(auto, using(crate::proofs::BlocksTaken::taken_facts))]
fn take_all(
    memory: &mut Memory,
    lengths: &[Cell],
    addresses: &mut [Cell],
    list: &mut Vec<Block>,
) -> Result<(), InstanceFault>
    requires addresses { length lengths.now ≡ length addresses.old }
    requires empty { vec_len list.old ≡ 0 }
    requires room { length lengths.now ≤ vec_capacity list.old }
    ensures taken { OnOk result (blocks_taken memory.old lengths.now ≡ Ok (list.new.items, memory.new)) }
    ensures full { IfErr result (λ e. blocks_taken memory.old lengths.now ≡ Err e) }
    ensures unchanged { OnErr result (memory.new ≡ memory.old) }
{
    let Ok(()) = memory.instance_take_all(lengths, addresses) else {
        return Err(InstanceFault::Full);
    };
    for i in 0..lengths.len() {
        let address = addresses[i];
        let length = lengths[i];
        list.push_reserved(Block::new(address, length));
    }
    Ok(())
}

impl Blocks {
    /// The one at a place.
    pub(crate) fn at(&self, place: usize) -> Option<Block>
        ensures { result ≡ slice_get self.now place }
    {
        self.list.get(place).copied()
    }

    /// Appends one.
    ///
    /// NoMemory; then nothing changes.
    pub(crate) fn push(&mut self, block: Block) -> Result<(), InstanceFault>
        ensures pushed { OnOk result (self.new ≡ self.old ++ block ∷ []) }
        ensures refused { OnErr result (self.new ≡ self.old) }
        ensures memory { IfErr result (λ e. e ≡ InstanceFault.NoMemory) }
    {
        self.list.push(block)?;
        Ok(())
    }

    /// Takes the last one off.
    pub(crate) fn pop(&mut self)
        ensures { self.new ≡ take (length self.old - 1) self.old }
    {
        let _ = self.list.pop();
    }

    /// Puts one in place of the last.
    pub(crate) fn set_last(&mut self, block: Block)
        ensures { self.new ≡ set self.old (length self.old - 1) block }
    {
        let count = self.list.len();
        if count > 0 {
            self.list[count - 1] = block;
        }
    }

    /// Takes the first off, if there is one.
    #[tactic(auto, using(crate::proofs::BlockLists::first_off))]
    pub(crate) fn take_first(&mut self) -> Option<Block>
        ensures { MatchOption result ((self.old ≡ []) × (self.new ≡ [])) (λ b. self.old ≡ b ∷ self.new) }
    {
        if self.list.len() == 0 {
            return None;
        }
        Some(self.list.remove(0))
    }

    /// Gives all back to their region.
    #[tactic(auto, using(crate::proofs::BlockLists::given_step))]
    pub(crate) fn give(&self, memory: &mut Memory)
        ensures { memory.new ≡ given_all memory.old self.now }
    {
        for block in &self.list {
            block.give(memory);
        }
    }

    /// Begins all, which are all zeros, as one template.
    #[tactic(auto, using(crate::proofs::BlockLists::all_begun_step))]
    pub(crate) fn begin_all(&self, memory: &mut Memory, template: Template)
        ensures { memory.new ≡ all_begun memory.old self.now template }
    {
        for block in &self.list {
            block.begin(memory, template);
        }
    }

    /// Begins each, which is all zeros, as its slot's template.
    #[tactic(auto, using(crate::proofs::BlockLists::begun_facts))]
    pub(crate) fn begin_each(&self, memory: &mut Memory, slots: &[Slot])
        ensures { memory.new ≡ begun memory.old self.now slots.now }
    {
        let mut rest = self.list.as_slice();
        for slot in slots {
            let [first, others @ ..] = rest else {
                return;
            };
            first.begin(memory, slot.template);
            rest = others;
        }
    }

    /// Takes a block for each of the lengths, or none.
    ///
    /// Full, if one finds no room; or NoMemory. Then nothing is taken.
    pub(crate) fn take(
        alloc: Global,
        memory: &mut Memory,
        lengths: &[Cell],
    ) -> Result<Blocks, InstanceFault>
        ensures { MayAnswer IsForMemory (blocks_taken memory.old lengths.now) memory.old memory.new result }
    {
        let mut addresses = vec![in alloc; Cell::ZERO; lengths.len()]?;
        let mut list = Vec::with_capacity(alloc, lengths.len())?;
        take_all(memory, lengths, &mut addresses, &mut list)?;
        Ok(Blocks { list })
    }
}
