//! Words of which each instance of a package has one of its own.
ghost use Rattle.std.specs.Prelude.{◌≡◌, ◌<◌, ◌≤◌, ◌⊎◌, length, drop, is_err, is_none, false, true, IfOk, IfErr, OnErr};
ghost use Rattle.std.specs.Prelude.{OnOk};
ghost use Rattle.std.specs.Prelude.{None, Some, Ok, Err};
ghost use Rattle.of_stacks.specs.Stacks.{Makes};
ghost use Rattle.of_stacks.specs.Throws.{compiler_nesting, dictionary_overflow, stack_underflow};
ghost use Rattle.of_stacks.specs.declared.stop.Stop.TheVariants.{NoMemory, Thrown};
ghost use Rattle.of_dict.specs.Words.{capacity, name_in, word_at};
ghost use Rattle.of_ihandles.specs.Instances.{slotted};
ghost use Rattle.of_compile.specs.Defining.{may_define};
ghost use Rattle.of_compile.specs.SlotWords.{awaited, begins, instance_said, slot_entry, slot_made, slot_making};
ghost use Rattle.of_compile.specs.SlotWords.{slot_naming_entry, slot_of, with_named_slot};
ghost use Rattle.of_compile.specs.Products.{slot_stop, with_pending_slot};
ghost use Rattle.of_compile.specs.Words.{name_fault, name_pending, named_at, named_next};

use crate::defining::DefiningWord;
use crate::words::{Words, name_fault};
use of_cells::Cell;
use of_dict::{CAPACITY, Kind, Name, Slot};
use of_fcodes::TokenEntry;
use of_ihandles::{InstanceFault, Instances, Template};
use of_memory::Memory;
use of_nodes::Phandle;
use of_stacks::{DataStack, Stop, Throw};

/// Why no slot was made.
fn slot_stop(fault: InstanceFault) -> Stop
    ensures { result ≡ slot_stop fault }
{
    match fault {
        InstanceFault::NoMemory => Stop::NoMemory,
        InstanceFault::Full | InstanceFault::NoInstance => {
            Stop::Thrown(Throw::DICTIONARY_OVERFLOW)
        }
    }
}

/// How a slot begins in each instance, and how many cells are taken for that.
#[derive(Clone, Copy)]
struct Beginning {
    template: Template,
    taken: usize,
}

/// What a slot begins as, by the cells on the stack; -4 where there is none that it takes.
fn begin_slot(slot: Slot, stack: &DataStack) -> Result<Beginning, Throw>
    ensures ok { IfOk result (λ b. slot_made slot stack.now ≡ Some (begins b.template (drop b.taken stack.now))) }
    ensures cells { IfOk result (λ b. b.taken ≤ length stack.now) }
    ensures err { IfErr result (λ t. (slot_made slot stack.now ≡ None) × (t ≡ stack_underflow)) }
{
    let (template, taken) = match slot {
        Slot::Value => (Template::Value(stack.peek()?), 1),
        Slot::Variable | Slot::Defer => (Template::Value(Cell(0)), 0),
        Slot::Buffer => (Template::Zeros(stack.peek()?), 1),
    };
    Ok(Beginning { template, taken })
}

impl DefiningWord {
    /// What the word makes one of each instance of, if `instance` comes before it.
    fn slot(self) -> Option<Slot>
        ensures { result ≡ slot_of self }
    {
        match self {
            DefiningWord::Value => Some(Slot::Value),
            DefiningWord::Variable => Some(Slot::Variable),
            DefiningWord::Buffer => Some(Slot::Buffer),
            DefiningWord::Defer => Some(Slot::Defer),
            DefiningWord::Colon
            | DefiningWord::Constant
            | DefiningWord::Create
            | DefiningWord::Field => None,
        }
    }
}

impl Words {
    /// `instance` ( -- ): the next `value`, `variable`, `buffer:` or `defer` is one of each instance of its package
    /// (IEEE 1275-1994, annex A). Neither the end of an image nor a throw changes that.
    pub fn instance(&mut self)
        ensures { self.new ≡ instance_said self.old }
    {
        self.waiting = true;
    }

    /// What a defining word makes one of each instance of, if `instance` waits for it.
    pub fn awaited(&self, word: DefiningWord) -> Option<Slot>
        ensures { result ≡ awaited word self.now }
    {
        if self.waiting { word.slot() } else { None }
    }

    /// Makes a word of the pending number and name of which each instance of a package has one of its own: the package
    /// gets a slot, and so does each of its live instances, the oldest first. `instance` waits no more. `here` is moved
    /// up to a multiple of 4.
    ///
    /// -29 while a definition is open or without a pending number, -4 without the cell that a `value` or `buffer:`
    /// takes, -259 without a package, -8 where 8,192 words or slots were made or the slot finds no room in an
    /// instance. A stop for memory may stand in place of the latter. A stop changes nothing, in memory either.
    pub fn define_slot(
        &mut self,
        slot: Slot,
        home: Option<Phandle>,
        stack: &mut DataStack,
        memory: &mut Memory,
        instances: &mut Instances,
    ) -> Result<(), Stop>
        ensures made { let old = slot_making self.old stack.old memory.old instances.old in
            let entry = slot_entry slot home old in
            Makes (may_define self.old) entry old (slot_making self.new stack.new memory.new instances.new) result }
        ensures named { OnOk result (named_next self.old.dictionary (name_pending self.old.pending)
            ≡ named_at self.new.dictionary (length self.old.dictionary)) }
        ensures nested { may_define self.old ≡ false → result ≡ Err (Thrown compiler_nesting) }
    {
        if self.defining.is_some() || self.pending.is_none() {
            return Err(Stop::Thrown(Throw::COMPILER_NESTING));
        }
        let beginning = match begin_slot(slot, stack) {
            Ok(beginning) => beginning,
            Err(fault) => return Err(Stop::Thrown(fault)),
        };
        let Some(package) = home else {
            return Err(Stop::Thrown(Throw::NO_NODE));
        };
        if self.dictionary.made() >= CAPACITY || instances.slot_count() >= CAPACITY {
            return Err(Stop::Thrown(Throw::DICTIONARY_OVERFLOW));
        }
        self.add_slot(slot, package, beginning.template, memory, instances)?;
        stack.drop_top(beginning.taken);
        let _ = memory.allot_zeros(Cell(0));
        Ok(())
    }

    /// Makes a word of the pending number and name that works on a new slot of a package. -8 where that finds no room.
    #[tactic(auto, using(crate::proofs::WordsLemmas::newest_pushed, crate::proofs::WordsLemmas::taken_back))]
    fn add_slot(
        &mut self,
        slot: Slot,
        package: Phandle,
        template: Template,
        memory: &mut Memory,
        instances: &mut Instances,
    ) -> Result<(), Stop>
        requires closed { self.old.defining ≡ None }
        requires pending { self.old.pending ≡ None → ⊥ }
        requires room { length self.old.dictionary < capacity }
        requires slots { length instances.old.slots < capacity }
        ensures ok { OnOk result (slotted instances.old memory.old «package» template
            ≡ Ok (length instances.old.slots, (instances.new, memory.new))) }
        ensures words { OnOk result (self.new
            ≡ with_pending_slot slot (length instances.old.slots) self.old.pending self.old) }
        ensures full { IfErr result (λ s. (s ≡ NoMemory) ⊎ ((s ≡ Thrown dictionary_overflow)
            × (is_err (slotted instances.old memory.old «package» template) ≡ true))) }
        ensures words_stay { OnErr result (self.new ≡ self.old) }
        ensures memory_stays { OnErr result (memory.new ≡ memory.old) }
        ensures instances_stay { OnErr result (instances.new ≡ instances.old) }
    {
        let Some(pending) = &self.pending else {
            return Ok(());
        };
        let kind = Kind::PerInstance {
            slot,
            number: instances.slot_count() as u32,
        };
        let name = pending.name.as_ref().map(Name::as_bytes);
        let Ok(word) = self.dictionary.add(name, kind) else {
            return Err(Stop::NoMemory);
        };
        match instances.slot(memory, package, template) {
            Ok(_) => {}
            Err(fault) => {
                self.dictionary.take_back();
                return Err(slot_stop(fault));
            }
        }
        self.table.set(
            pending.code,
            TokenEntry {
                xt: word.xt().0,
                immediate: false,
            },
        );
        self.pending = None;
        self.waiting = false;
        Ok(())
    }

    /// Makes a word of this name of which each instance of a package has one of its own, as a defining word of a text
    /// does, which neither needs nor takes a pending number; all else is as `define_slot` makes it.
    ///
    /// -29 while a definition is open, -4 without the cell that a `value` or `buffer:` takes, -259 without a package,
    /// -16 for a name without bytes, -19 for one of more than 31, -8 where 8,192 words or slots were made or the slot
    /// finds no room in an instance. A stop for memory may stand in place of the latter. A stop changes nothing, in
    /// memory either.
    pub fn define_named_slot(
        &mut self,
        slot: Slot,
        name: &[u8],
        home: Option<Phandle>,
        stack: &mut DataStack,
        memory: &mut Memory,
        instances: &mut Instances,
    ) -> Result<(), Stop>
        ensures made { let old = slot_making self.old stack.old memory.old instances.old in
            let entry = slot_naming_entry slot name.now home old in
            Makes (is_none self.old.defining) entry old (slot_making self.new stack.new memory.new instances.new)
            result }
        ensures named { OnOk result (name_in (word_at self.new.dictionary (length self.old.dictionary))
            ≡ Some name.now) }
        ensures closed { OnOk result (is_none self.old.defining ≡ true) }
        ensures room { OnOk result (length self.old.dictionary < capacity) }
    {
        if self.defining.is_some() {
            return Err(Stop::Thrown(Throw::COMPILER_NESTING));
        }
        let beginning = match begin_slot(slot, stack) {
            Ok(beginning) => beginning,
            Err(fault) => return Err(Stop::Thrown(fault)),
        };
        let Some(package) = home else {
            return Err(Stop::Thrown(Throw::NO_NODE));
        };
        if let Some(fault) = name_fault(Some(name)) {
            return Err(Stop::Thrown(fault));
        }
        if self.dictionary.made() >= CAPACITY || instances.slot_count() >= CAPACITY {
            return Err(Stop::Thrown(Throw::DICTIONARY_OVERFLOW));
        }
        self.add_named_slot(slot, name, package, beginning.template, memory, instances)?;
        stack.drop_top(beginning.taken);
        let _ = memory.allot_zeros(Cell(0));
        Ok(())
    }

    /// Makes a word of this name that works on a new slot of a package. -8 where that finds no room.
    #[tactic(auto, using(crate::proofs::WordsLemmas::slot_word_added))]
    fn add_named_slot(
        &mut self,
        slot: Slot,
        name: &[u8],
        package: Phandle,
        template: Template,
        memory: &mut Memory,
        instances: &mut Instances,
    ) -> Result<(), Stop>
        requires closed { self.old.defining ≡ None }
        requires room { length self.old.dictionary < capacity }
        requires slots { length instances.old.slots < capacity }
        requires fit { name_fault (Some name.now) ≡ None }
        ensures ok { OnOk result (slotted instances.old memory.old «package» template
            ≡ Ok (length instances.old.slots, (instances.new, memory.new))) }
        ensures words { OnOk result (self.new ≡ with_named_slot slot (length instances.old.slots) name.now self.old) }
        ensures named { OnOk result (name_in (word_at self.new.dictionary (length self.old.dictionary))
            ≡ Some name.now) }
        ensures full { IfErr result (λ s. (s ≡ NoMemory) ⊎ ((s ≡ Thrown dictionary_overflow)
            × (is_err (slotted instances.old memory.old «package» template) ≡ true))) }
        ensures words_stay { OnErr result (self.new ≡ self.old) }
        ensures memory_stays { OnErr result (memory.new ≡ memory.old) }
        ensures instances_stay { OnErr result (instances.new ≡ instances.old) }
    {
        let kind = Kind::PerInstance {
            slot,
            number: instances.slot_count() as u32,
        };
        if self.dictionary.add(Some(name), kind).is_err() {
            return Err(Stop::NoMemory);
        }
        if let Err(fault) = instances.slot(memory, package, template) {
            self.dictionary.take_back();
            return Err(slot_stop(fault));
        }
        self.waiting = false;
        Ok(())
    }
}
