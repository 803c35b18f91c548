//! The open definition, as a word and as code: its end, giving it up, and calls that a word appends to it.
ghost use Rattle.std.specs.Prelude.{◌≡◌, ◌≤◌, ◌+◌, IfSome};
ghost use Rattle.of_cells.specs.Outcomes.{Becomes};
ghost use Rattle.of_dict.specs.Words.{name_in, word_at};
ghost use Rattle.of_compile.specs.Definitions.{closing_entry, compile_entry, given_up};

use crate::coding::Coding;
use crate::dictionary_words::is_word;
use crate::element::Element;
use crate::tokens::called;
use crate::words::Words;
use of_code::CodeStore;
use of_stacks::{DataStack, Throw};

/// `b(;)` ( -- ): the open definition is finished, and its word is found by its name (IEEE 1275-1994, annex A; Forth
/// 2012, 6.1.0460).
///
/// -29 where none is open, -22 exactly where its control isn't matched, -8 where the return would pass the last code
/// cell. A throw changes nothing.
#[tactic(auto, using(crate::proofs::Endings::closing_ends))]
pub fn end_definition<C: CodeStore>(words: &mut Words, coding: &mut Coding<C>) -> Result<(), Throw>
    requires { 1 ≤ coding.old.spare }
    ensures outcome { Becomes (closing_entry words.old coding.old.coding) (words.old, coding.old.coding)
        (words.new, coding.new.coding) result }
    ensures named { IfSome words.old.defining (λ n.
        name_in (word_at words.new.dictionary n) ≡ name_in (word_at words.old.dictionary n)) }
    ensures spare { coding.old.spare ≤ coding.new.spare + 1 }
{
    let Some(word) = words.open_word() else {
        return Err(Throw::COMPILER_NESTING);
    };
    match coding.semicolon(word.xt()) {
        Ok(()) => {
            words.close();
            Ok(())
        }
        Err(fault) => Err(fault),
    }
}

/// The open definition is given up, if there is one: its word and its code are no more, and the FCodes that name it
/// are unassigned.
pub fn abandon_definition<C: CodeStore>(words: &mut Words, coding: &mut Coding<C>)
    ensures outcome { (words.new, coding.new.coding) ≡ given_up words.old coding.old.coding }
    ensures spare { coding.old.spare ≤ coding.new.spare }
{
    if words.defining().is_some() {
        words.abandon();
        coding.abandon();
    }
}

/// `compile,` ( xt -- ) appends a call to the open definition (Forth 2012, 6.2.0945).
///
/// -14 where none is open, -4 without a cell, -263 where it is no word, -8 where the item would pass the last code
/// cell. A throw changes nothing.
#[tactic(auto, using(crate::proofs::Endings::compile_closed, crate::proofs::Endings::compile_unknown))]
pub fn compile_call<C: CodeStore>(
    words: &Words,
    coding: &mut Coding<C>,
    stack: &mut DataStack,
) -> Result<(), Throw>
    requires { 1 ≤ coding.old.spare }
    ensures outcome { Becomes (compile_entry words.now coding.old.coding stack.old) (coding.old.coding, stack.old)
        (coding.new.coding, stack.new) result }
    ensures spare { coding.old.spare ≤ coding.new.spare + 1 }
{
    if words.defining().is_none() {
        return Err(Throw::COMPILE_ONLY);
    }
    let xt = stack.peek()?;
    if !is_word(words.dictionary(), xt) {
        return Err(Throw::BAD_HANDLE);
    }
    match coding.compile(Element::Plain(called(xt))) {
        Ok(()) => {
            stack.drop_top(1);
            Ok(())
        }
        Err(fault) => Err(fault),
    }
}
