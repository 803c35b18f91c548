ghost use Rattle.std.specs.Prelude.{◌≡◌, ◌<◌, ◌-◌, ◌++◌, ◌∷◌, [], length, replicate, set, take, IfOk, IfErr, IfSome};
ghost use Rattle.std.specs.Prelude.{Some, None, Ok, Err, MatchResult, OnOk, OnErr, nat_le, true};
ghost use Rattle.of_ihandles.specs.Blocks.{span};
ghost use Rattle.of_cells.specs.Outcomes.{Answers, MayAnswer};
ghost use Rattle.of_ihandles.specs.InstanceOutcomes.{IsForMemory};
ghost use Rattle.of_ihandles.specs.Instances.{argument_span, arguments_set, closed, found, ihandle_of, lengths_of};
ghost use Rattle.of_ihandles.specs.Instances.{most_instances, no_instances, number_of, opened, package_of};
ghost use Rattle.of_ihandles.specs.Instances.{parent_of, released};
ghost use Rattle.of_ihandles.specs.Instances.{slot_block, slot_read, slot_stored, slotted, unit_of, units};
ghost use Rattle.of_ihandles.specs.Slots.{size_of, slots_of};

use crate::blocks::{Block, Blocks};
use crate::instance_fault::InstanceFault;
use crate::rooms::{add_rooms, drop_rooms, fill_rooms, open_count};
use crate::slots::{Slot, Template};
use of_cells::Cell;
use of_memory::Memory;
use of_nodes::{Phandle, Span};
use std::alloc::{AllocError, Global};
use std::marker::Model;

/// The ihandle of the first instance.
const FIRST: u32 = 0xe000_0000;

/// The most instances that are ever opened.
const MOST_INSTANCES: usize = 65_536;

/// An instance of a package that is open (IEEE 1275-1994, annex A, `open-package`).
#[derive(Drop)]
pub struct Instance {
    /// The package.
    pub package: Phandle,
    /// The ihandle that was given as its parent's, or 0.
    pub parent: Cell,
    /// Its physical address, the high cell first.
    pub unit: [Cell; 4],
    /// The block of its arguments.
    pub arguments: Block,
    /// The blocks of its slots, in the order of its package's slots.
    pub slots: Blocks,
}

impl Instance {
    /// Appends a block.
    ///
    /// NoMemory; then nothing changes.
    pub(crate) fn push_block(&mut self, block: Block) -> Result<(), InstanceFault>
        ensures pushed { OnOk result (self.new ≡ record self.old { slots = self.old.slots ++ block ∷ [] }) }
        ensures refused { OnErr result (self.new ≡ self.old) }
        ensures memory { IfErr result (λ e. e ≡ InstanceFault.NoMemory) }
    {
        self.slots.push(block)
    }

    /// Takes the last block off.
    pub(crate) fn pop_block(&mut self)
        ensures { self.new ≡ record self.old { slots = take (length self.old.slots - 1) self.old.slots } }
    {
        self.slots.pop();
    }

    /// Puts a block in place of the last.
    pub(crate) fn set_last_block(&mut self, block: Block)
        ensures { self.new ≡ record self.old { slots = set self.old.slots (length self.old.slots - 1) block } }
    {
        self.slots.set_last(block);
    }
}

/// Every instance that was ever opened, by its number, and the slots of all packages.
#[derive(Drop)]
pub struct Instances {
    made: Vec<Option<Instance>>,
    slots: Vec<Slot>,
    alloc: Global,
}

impl Model for Instances {
    ghost use Rattle.of_ihandles.specs.Table.{InstanceTable};

    ghost Value = { InstanceTable };

    ghost view = { λ t. record { made = t.made.items; slots = t.slots.items } };
}

/// The number of the instance with an ihandle, where so many were opened.
fn number_of(ihandle: Cell, count: usize) -> Option<usize>
    ensures value { result ≡ number_of count ihandle }
    ensures within { IfSome result (λ k. k < count) }
{
    if ihandle.0 < FIRST {
        return None;
    }
    let distance = ihandle.0 - FIRST;
    let number = (distance / 4) as usize;
    if distance % 4 == 0 && number < count {
        Some(number)
    } else {
        None
    }
}

/// The slots of a package, in the order of making.
fn slots_of(alloc: Global, slots: &[Slot], package: Phandle) -> Result<Vec<Slot>, AllocError>
    ensures { IfOk result (λ own. own.items ≡ slots_of «package» slots.now) }
{
    slots
        .iter()
        .filter(|slot| slot.package.0.0 == package.0.0)
        .copied()
        .collect(alloc)
}

/// How long the blocks of an instance with these slots are, that of its arguments first.
fn lengths_of(alloc: Global, arguments: Cell, slots: &[Slot]) -> Result<Vec<Cell>, AllocError>
    ensures { IfOk result (λ lengths. lengths.items ≡ lengths_of arguments slots.now) }
{
    let mut lengths = Vec::with_capacity(alloc, slots.len() + 1)?;
    lengths.push(arguments)?;
    for slot in slots {
        lengths.push(slot.template.size())?;
    }
    Ok(lengths)
}

/// How many slots a package has.
fn own_count(slots: &[Slot], package: Phandle) -> usize
    ensures { result ≡ length (slots_of «package» slots.now) }
{
    slots
        .iter()
        .filter(|slot| slot.package.0.0 == package.0.0)
        .count()
}

/// So many lengths that are the same.
fn same_lengths(alloc: Global, length: Cell, count: usize) -> Result<Vec<Cell>, AllocError>
    ensures { IfOk result (λ lengths. lengths.items ≡ replicate count length) }
{
    vec![in alloc; length; count]
}

/// Four cells that begin with the first of these, and else are 0.
fn unit_of(cells: &[Cell]) -> [Cell; 4]
    ensures { result ≡ unit_of cells.now }
{
    match cells {
        [] => [Cell::ZERO; 4],
        [high] => [*high, Cell::ZERO, Cell::ZERO, Cell::ZERO],
        [high, next] => [*high, *next, Cell::ZERO, Cell::ZERO],
        [high, next, third] => [*high, *next, *third, Cell::ZERO],
        [high, next, third, low, ..] => [*high, *next, *third, *low],
    }
}

impl Instances {
    /// No instances, and no slots.
    pub fn new(alloc: Global) -> Instances
        ensures { result ≡ no_instances }
    {
        Instances {
            made: Vec::new(alloc),
            slots: Vec::new(alloc),
            alloc,
        }
    }

    /// How many slots there are of all packages: the number of the next one.
    pub fn slot_count(&self) -> usize
        ensures { result ≡ length self.now.slots }
    {
        self.slots.len()
    }

    /// The live instance of an ihandle.
    ///
    /// NoInstance, if it is that of none.
    fn live(&self, ihandle: Cell) -> Result<&Instance, InstanceFault>
        ensures { MatchResult result (λ i. found self.now ihandle ≡ Some i.now)
            (λ e. (found self.now ihandle ≡ None) × (e ≡ InstanceFault.NoInstance)) }
    {
        let Some(number) = number_of(ihandle, self.made.len()) else {
            return Err(InstanceFault::NoInstance);
        };
        match &self.made[number] {
            Some(instance) => Ok(instance),
            None => Err(InstanceFault::NoInstance),
        }
    }

    /// The package of an instance (IEEE 1275-1994, annex A, `ihandle>phandle`).
    ///
    /// NoInstance, if the ihandle is that of no live instance.
    pub fn package(&self, ihandle: Cell) -> Result<Phandle, InstanceFault>
        ensures { result ≡ package_of self.now ihandle }
    {
        Ok(self.live(ihandle)?.package)
    }

    /// The ihandle of the parent that an instance was opened with, or 0 (IEEE 1275-1994, annex A, `my-parent`).
    /// The parent itself may have been released.
    ///
    /// NoInstance, if the ihandle is that of no live instance.
    pub fn parent(&self, ihandle: Cell) -> Result<Cell, InstanceFault>
        ensures { result ≡ parent_of self.now ihandle }
    {
        Ok(self.live(ihandle)?.parent)
    }

    /// Where the arguments of an instance stand, and how many bytes they have (IEEE 1275-1994, annex A,
    /// `my-args`).
    ///
    /// NoInstance, if the ihandle is that of no live instance.
    pub fn args(&self, ihandle: Cell) -> Result<Span, InstanceFault>
        ensures { result ≡ argument_span self.now ihandle }
    {
        Ok(self.live(ihandle)?.arguments.span())
    }

    /// The physical address of an instance, the high cell first (IEEE 1275-1994, annex A, `my-unit`).
    ///
    /// NoInstance, if the ihandle is that of no live instance.
    pub fn unit(&self, ihandle: Cell) -> Result<[Cell; 4], InstanceFault>
        ensures { result ≡ units self.now ihandle }
    {
        Ok(self.live(ihandle)?.unit)
    }

    /// The block of a slot in an instance.
    ///
    /// NoInstance, if the ihandle is that of no live instance, or the slot none of its package.
    fn block(&self, ihandle: Cell, slot: usize) -> Result<Block, InstanceFault>
        ensures { result ≡ slot_block self.now ihandle slot }
    {
        let instance = self.live(ihandle)?;
        let Some(slot) = self.slots.get(slot) else {
            return Err(InstanceFault::NoInstance);
        };
        if slot.package.0.0 != instance.package.0.0 {
            return Err(InstanceFault::NoInstance);
        }
        match instance.slots.at(slot.place) {
            Some(block) => Ok(block),
            None => Err(InstanceFault::NoInstance),
        }
    }

    /// Where the bytes of a slot in an instance stand, and how many there are.
    ///
    /// NoInstance, if the ihandle is that of no live instance, or the slot none of its package.
    pub fn slot_span(&self, ihandle: Cell, slot: usize) -> Result<Span, InstanceFault>
        ensures { result ≡ slot_block self.now ihandle slot }
    {
        Ok(self.block(ihandle, slot)?.span())
    }

    /// What a slot holds in an instance: its first cell.
    ///
    /// NoInstance, if the ihandle is that of no live instance, or the slot none of its package.
    pub fn slot_at(
        &self,
        memory: &Memory,
        ihandle: Cell,
        slot: usize,
    ) -> Result<Cell, InstanceFault>
        ensures { result ≡ slot_read memory.now self.now ihandle slot }
    {
        Ok(self.block(ihandle, slot)?.cell(memory))
    }

    /// Stores a cell in a slot of an instance.
    ///
    /// NoInstance, if the ihandle is that of no live instance, or the slot none of its package; then nothing
    /// changes.
    pub fn set_slot(
        &self,
        memory: &mut Memory,
        ihandle: Cell,
        slot: usize,
        value: Cell,
    ) -> Result<(), InstanceFault>
        ensures { Answers (slot_stored memory.old self.now ihandle slot value) memory.old memory.new result }
    {
        let block = self.block(ihandle, slot)?;
        block.set_cell(memory, value);
        Ok(())
    }

    /// Opens an instance of a package (IEEE 1275-1994, annex A, `open-package`): takes a block for a copy of the
    /// arguments, and one for each slot of the package, which begins as its template. The unit is four cells of 0.
    /// The package and the parent are kept as they are given, whether or not there are such.
    ///
    /// Full, if there were 65,536 openings, whatever memory there is, or a block finds no room; or NoMemory. Then
    /// nothing changes, in memory either.
    #[tactic(auto, using(crate::proofs::Opening::opening))]
    pub fn open(
        &mut self,
        memory: &mut Memory,
        package: Phandle,
        parent: Cell,
        arguments: &[u8],
    ) -> Result<Cell, InstanceFault>
        ensures outcome { let after = opened self.old memory.old «package» parent arguments.now in
            MayAnswer IsForMemory after (self.old, memory.old) (self.new, memory.new) result }
        ensures most { nat_le most_instances (length self.old.made) ≡ true → result ≡ Err InstanceFault.Full }
    {
        let count = self.made.len();
        if count >= MOST_INSTANCES || arguments.len() > u32::MAX as usize {
            return Err(InstanceFault::Full);
        }
        self.made.reserve(1)?;
        let own = slots_of(self.alloc, &self.slots, package)?;
        let lengths = lengths_of(self.alloc, Cell(arguments.len() as u32), &own)?;
        let mut blocks = Blocks::take(self.alloc, memory, &lengths)?;
        let Some(first) = blocks.take_first() else {
            return Err(InstanceFault::Full);
        };
        first.write(memory, arguments);
        blocks.begin_each(memory, &own);
        self.made.push_reserved(Some(Instance {
            package,
            parent,
            unit: [Cell::ZERO; 4],
            arguments: first,
            slots: blocks,
        }));
        Ok(Cell(FIRST + 4 * count as u32))
    }

    /// Releases an instance (IEEE 1275-1994, annex A, `close-package`): gives its blocks back. Its ihandle is never
    /// that of another.
    ///
    /// NoInstance, if the ihandle is that of no live instance; then nothing changes, in memory either.
    pub fn close(&mut self, memory: &mut Memory, ihandle: Cell) -> Result<(), InstanceFault>
        ensures { Answers (closed self.old memory.old ihandle) (self.old, memory.old) (self.new, memory.new) result }
    {
        let Some(number) = number_of(ihandle, self.made.len()) else {
            return Err(InstanceFault::NoInstance);
        };
        let Some(instance) = self.made[number].take() else {
            return Err(InstanceFault::NoInstance);
        };
        instance.arguments.give(memory);
        instance.slots.give(memory);
        Ok(())
    }

    /// Releases an instance as `close` does, and nothing where it was released already (IEEE 1275-1994, annex A,
    /// `finish-device`).
    pub fn release(&mut self, memory: &mut Memory, ihandle: Cell)
        ensures { released self.old memory.old ihandle ≡ (self.new, memory.new) }
    {
        // An instance that was released already is none to release.
        let _ = self.close(memory, ihandle);
    }

    /// Forgets the latest opening, as if it had never been; blocks that its instance has stay as they are in memory. It
    /// is for a caller who opened an instance and brings back the data space of before.
    pub fn take_back(&mut self)
        ensures { self.new ≡ record self.old { made = take (length self.old.made - 1) self.old.made } }
    {
        let _ = self.made.pop();
    }

    /// Gives an instance other arguments, which are copied, and another unit (IEEE 1275-1994, annex A, `set-args`):
    /// the first four of these cells, the high cell first, and 0 for those that are missing. The new block is taken
    /// before the old one is given back.
    ///
    /// NoInstance, if the ihandle is that of no live instance; Full, if the new block finds no room. Then nothing
    /// changes, in memory either.
    pub fn set_args(
        &mut self,
        memory: &mut Memory,
        ihandle: Cell,
        arguments: &[u8],
        unit: &[Cell],
    ) -> Result<(), InstanceFault>
        ensures { let after = arguments_set self.old memory.old ihandle arguments.now unit.now in
            Answers after (self.old, memory.old) (self.new, memory.new) result }
    {
        let Some(number) = number_of(ihandle, self.made.len()) else {
            return Err(InstanceFault::NoInstance);
        };
        let Some(instance) = &mut self.made[number] else {
            return Err(InstanceFault::NoInstance);
        };
        let copy = Block::copy_of(memory, arguments)?;
        instance.arguments.give(memory);
        instance.arguments = copy;
        instance.unit = unit_of(unit);
        Ok(())
    }

    /// Makes a slot of a package (IEEE 1275-1994, annex A, `instance`), and answers its number, which counts the
    /// slots of all packages: each live instance of the package gets a block, the oldest first, and each that is
    /// opened later. The block begins as the template.
    ///
    /// Full, if one of the blocks finds no room; or NoMemory. Then nothing changes, in memory either.
    #[tactic(auto, using(crate::proofs::RoomLoops::all_undone))]
    pub fn slot(
        &mut self,
        memory: &mut Memory,
        package: Phandle,
        template: Template,
    ) -> Result<usize, InstanceFault>
        ensures { let after = slotted self.old memory.old «package» template in
            MayAnswer IsForMemory after (self.old, memory.old) (self.new, memory.new) result }
    {
        let number = self.slots.len();
        let place = own_count(&self.slots, package);
        self.slots.reserve(1)?;
        let count = open_count(&self.made, package);
        let lengths = same_lengths(self.alloc, template.size(), count)?;
        add_rooms(&mut self.made, package)?;
        let blocks = match Blocks::take(self.alloc, memory, &lengths) {
            Ok(blocks) => blocks,
            Err(fault) => {
                let all = self.made.len();
                drop_rooms(&mut self.made, all, package);
                return Err(fault);
            }
        };
        blocks.begin_all(memory, template);
        fill_rooms(&mut self.made, package, &blocks);
        self.slots.push_reserved(Slot {
            package,
            place,
            template,
        });
        Ok(number)
    }
}
