//! The words that define, and the open definition's word.
ghost use Rattle.std.specs.Prelude.{◌≡◌, ◌≤◌, ◌<◌, ◌⊎◌, length, is_none, is_ok, false, true, IfOk, IfErr, OnErr, OnOk};
ghost use Rattle.std.specs.Prelude.{None, Some, Err};
ghost use Rattle.of_stacks.specs.Stacks.{Makes};
ghost use Rattle.of_stacks.specs.Throws.{compiler_nesting, stack_underflow};
ghost use Rattle.of_stacks.specs.declared.stop.Stop.TheVariants.{NoMemory, Thrown};
ghost use Rattle.of_code.specs.Code.{end_of};
ghost use Rattle.of_memory.specs.Growth.{aligned};
ghost use Rattle.of_dict.specs.Words.{capacity, name_in, word_at};
ghost use Rattle.of_compile.specs.Defining.{abandoned, closed, defining_entry, hidden_word, made_by, making};
ghost use Rattle.of_compile.specs.Defining.{may_define, naming_entry, opens, with_named};
ghost use Rattle.of_compile.specs.Products.{made_of, with_pending};
ghost use Rattle.of_compile.specs.Words.{name_fault, name_pending, named_at, named_next};

use crate::words::{Words, name_fault};
use of_cells::Cell;
use of_code::{CodeStore, Place};
use of_dict::{CAPACITY, Kind, Name, OwnWord};
use of_fcodes::TokenEntry;
use of_memory::Memory;
use of_stacks::{DataStack, Stop, Throw};
use std::alloc::AllocError;

/// A word that defines another one (IEEE 1275-1994, 5.3.3.1 and annex A).
#[derive(Clone, Copy, PartialEq, Eq)]
pub enum DefiningWord {
    /// `b(:)` ( -- ) opens a definition.
    Colon,
    /// `b(value)` ( x -- )
    Value,
    /// `b(constant)` ( x -- )
    Constant,
    /// `b(variable)` ( -- ) allots one cell of 0.
    Variable,
    /// `b(create)` ( -- )
    Create,
    /// `b(defer)` ( -- )
    Defer,
    /// `b(buffer:)` ( size -- ) allots so many bytes of 0.
    Buffer,
    /// `b(field)` ( offset size -- offset+size )
    Field,
}

/// What a defining word makes.
#[derive(Clone, Copy)]
struct Product {
    /// What the word does when it is executed.
    kind: Kind,
    /// How many bytes of 0 are its own.
    bytes: Cell,
    /// How many cells are taken from the stack.
    taken: usize,
    /// What is left on the stack in their place.
    left: Option<Cell>,
}

/// The next address that is a multiple of 4, where a word's data begin.
fn next_address(memory: &Memory) -> Cell
    ensures { result.0 ≡ aligned memory.now.here }
{
    Cell(memory.here().0.next_multiple_of(4))
}

impl Product {
    /// A word with so many bytes of its own that takes so many cells from the stack and leaves none.
    fn of(kind: Kind, bytes: Cell, taken: usize) -> Product
        ensures { result ≡ record { kind = kind; bytes = bytes; taken = taken; left = None } }
    {
        Product {
            kind,
            bytes,
            taken,
            left: None,
        }
    }

    /// Takes the word's cells from the stack, and leaves what it leaves.
    fn settle(self, stack: &mut DataStack)
        requires taken { self.taken ≤ length stack.old }
        requires one { self.left ≡ None ⊎ 1 ≤ self.taken }
        ensures { stack.new ≡ (made_of self stack.old).stack }
    {
        stack.drop_top(self.taken);
        if let Some(x) = self.left {
            stack.push(x);
        }
    }
}

impl DefiningWord {
    /// Whether the word opens a definition.
    fn opens(self) -> bool
        ensures { result ≡ opens self }
    {
        self == DefiningWord::Colon
    }

    /// What the word makes of the cells on the stack; -4 where they are too few.
    fn product(self, start: Place, here: Cell, stack: &DataStack) -> Result<Product, Throw>
        ensures ok { IfOk result (λ p. made_by self start.cell here.0 stack.now ≡ Some (made_of p stack.now)) }
        ensures cells { IfOk result (λ p. p.taken ≤ length stack.now) }
        ensures room { IfOk result (λ p. (p.left ≡ None) ⊎ (1 ≤ p.taken)) }
        ensures err { IfErr result (λ t. (made_by self start.cell here.0 stack.now ≡ None) × (t ≡ stack_underflow)) }
    {
        let none = Cell(0);
        let product = match self {
            DefiningWord::Colon => Product::of(Kind::Colon { start: start.cell }, none, 0),
            DefiningWord::Value => {
                let value = stack.peek()?;
                Product::of(Kind::Value { value }, none, 1)
            }
            DefiningWord::Constant => {
                let value = stack.peek()?;
                Product::of(Kind::Constant { value }, none, 1)
            }
            DefiningWord::Variable => Product::of(Kind::Variable { address: here }, Cell(4), 0),
            DefiningWord::Create => Product::of(Kind::Create { address: here }, none, 0),
            DefiningWord::Defer => Product::of(Kind::Defer { xt: none }, none, 0),
            DefiningWord::Buffer => Product::of(Kind::Buffer { address: here }, stack.peek()?, 1),
            DefiningWord::Field => {
                let (offset, size) = stack.top_two()?;
                Product {
                    kind: Kind::Field { offset },
                    bytes: none,
                    taken: 2,
                    left: Some(offset.add(size)),
                }
            }
        };
        Ok(product)
    }
}

impl Words {
    /// Whether a defining word makes a word, unless it finds too few cells or no room: no definition is open, and a
    /// number is pending.
    pub fn may_define(&self) -> bool
        ensures { result ≡ may_define self.now }
    {
        self.defining.is_none() && self.pending.is_some()
    }

    /// Defines a word, which gets the pending number and name (IEEE 1275-1994, 5.3.3.1). A
    /// definition's code begins at the end of the code. `here` is moved up to a multiple of 4 first.
    ///
    /// -29 while a definition is open or without a pending number, -4 where the word takes more cells than there are,
    /// -8 where 8,192 words were made or the data region has no room. A stop for memory comes only where none of these
    /// does. A stop changes nothing.
    pub fn define<C: CodeStore>(
        &mut self,
        word: DefiningWord,
        code: &C,
        stack: &mut DataStack,
        memory: &mut Memory,
    ) -> Result<(), Stop>
        ensures made { let old = making self.old stack.old memory.old in
            let entry = defining_entry word (end_of (C.code code.now)).cell old in
            Makes (is_ok entry) entry old (making self.new stack.new memory.new) result }
        ensures named { OnOk result (named_next self.old.dictionary (name_pending self.old.pending)
            ≡ named_at self.new.dictionary (length self.old.dictionary)) }
        ensures nested { may_define self.old ≡ false → result ≡ Err (Thrown compiler_nesting) }
        ensures may { IfErr result (λ s. s ≡ Thrown compiler_nesting → may_define self.old ≡ false) }
    {
        if self.defining.is_some() || self.pending.is_none() {
            return Err(Stop::Thrown(Throw::COMPILER_NESTING));
        }
        let product = match word.product(code.end(), next_address(memory), stack) {
            Ok(product) => product,
            Err(fault) => return Err(Stop::Thrown(fault)),
        };
        if self.dictionary.made() >= CAPACITY || memory.check_zeros(product.bytes).is_err() {
            return Err(Stop::Thrown(Throw::DICTIONARY_OVERFLOW));
        }
        self.add(word, product.kind)?;
        product.settle(stack);
        let _ = memory.allot_zeros(product.bytes);
        Ok(())
    }

    /// Defines a word of this name, as a defining word of a text does, which neither needs nor takes a pending number
    /// (Forth 2012, 6.1.0450, 6.1.0950; IEEE 1275-1994, annex A). A definition's code begins at the end of the code.
    /// `here` is moved up to a multiple of 4 first.
    ///
    /// -29 while a definition is open, -4 where the word takes more cells than there are, -16 for a name without bytes,
    /// -19 for one of more than 31, -8 where 8,192 words were made or the data region has no room. A stop for memory
    /// comes only where none of these does. A stop changes nothing.
    pub fn define_named<C: CodeStore>(
        &mut self,
        word: DefiningWord,
        name: &[u8],
        code: &C,
        stack: &mut DataStack,
        memory: &mut Memory,
    ) -> Result<(), Stop>
        ensures made { let old = making self.old stack.old memory.old in
            let entry = naming_entry word name.now (end_of (C.code code.now)).cell old in
            Makes (is_ok entry) entry old (making self.new stack.new memory.new) result }
        ensures named { OnOk result (name_in (word_at self.new.dictionary (length self.old.dictionary))
            ≡ Some name.now) }
        ensures closed { OnOk result (is_none self.old.defining ≡ true) }
        ensures room { OnOk result (length self.old.dictionary < capacity) }
    {
        if self.defining.is_some() {
            return Err(Stop::Thrown(Throw::COMPILER_NESTING));
        }
        let product = match word.product(code.end(), next_address(memory), stack) {
            Ok(product) => product,
            Err(fault) => return Err(Stop::Thrown(fault)),
        };
        if let Some(fault) = name_fault(Some(name)) {
            return Err(Stop::Thrown(fault));
        }
        if self.dictionary.made() >= CAPACITY || memory.check_zeros(product.bytes).is_err() {
            return Err(Stop::Thrown(Throw::DICTIONARY_OVERFLOW));
        }
        self.add_named(word, name, product.kind)?;
        product.settle(stack);
        let _ = memory.allot_zeros(product.bytes);
        Ok(())
    }

    /// Adds a word of a name. A refusal is one of memory.
    #[tactic(auto, using(crate::proofs::WordsLemmas::word_added))]
    fn add_named(&mut self, word: DefiningWord, name: &[u8], kind: Kind) -> Result<(), AllocError>
        requires closed { self.old.defining ≡ None }
        requires room { length self.old.dictionary < capacity }
        requires fit { name_fault (Some name.now) ≡ None }
        ensures ok { IfOk result (λ _. self.new ≡ with_named word kind name.now self.old) }
        ensures named { OnOk result (name_in (word_at self.new.dictionary (length self.old.dictionary))
            ≡ Some name.now) }
        ensures err { OnErr result (self.new ≡ self.old) }
    {
        let Ok(number) = self.dictionary.add(Some(name), kind) else {
            return Err(AllocError);
        };
        if word.opens() {
            self.dictionary.hide(number);
            self.defining = Some(number);
        }
        Ok(())
    }

    /// Adds a word of the pending number and name. A refusal is one of memory.
    #[tactic(auto, using(crate::proofs::WordsLemmas::newest_pushed, crate::proofs::WordsLemmas::changed_pushed))]
    fn add(&mut self, word: DefiningWord, kind: Kind) -> Result<(), AllocError>
        requires closed { self.old.defining ≡ None }
        requires room { length self.old.dictionary < capacity }
        ensures ok { IfOk result (λ _. self.new ≡ with_pending word kind self.old.pending self.old) }
        ensures err { OnErr result (self.new ≡ self.old) }
    {
        let Some(pending) = &self.pending else {
            return Ok(());
        };
        let name = pending.name.as_ref().map(Name::as_bytes);
        let Ok(number) = self.dictionary.add(name, kind) else {
            return Err(AllocError);
        };
        self.table.set(
            pending.code,
            TokenEntry {
                xt: number.xt().0,
                immediate: false,
            },
        );
        self.pending = None;
        if word.opens() {
            self.dictionary.hide(number);
            self.defining = Some(number);
        }
        Ok(())
    }

    /// The open definition is finished: its word is found by its name again, and none is open.
    pub(crate) fn close(&mut self)
        ensures { self.new ≡ closed self.old }
    {
        if let Some(word) = self.defining {
            self.dictionary.reveal(word);
            self.defining = None;
        }
    }

    /// Leaves a word out of every search of the dictionary, since it is found as a method of its package.
    #[tactic(auto, using(crate::proofs::WordsLemmas::newest_changed))]
    pub fn hide(&mut self, word: OwnWord)
        ensures { self.new ≡ hidden_word word.0 self.old }
    {
        self.dictionary.hide(word);
    }

    /// The open definition is given up: its word is no more, and the FCodes that name it are unassigned.
    pub(crate) fn abandon(&mut self)
        ensures { self.new ≡ abandoned self.old }
    {
        if let Some(word) = self.open_word() {
            self.dictionary.remove();
            self.table.clear(word.xt().0);
            self.defining = None;
        }
    }
}
