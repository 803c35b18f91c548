//! What tokens of the stream do: they define, compile, and go on elsewhere in the image.
ghost use Rattle.std.specs.Prelude.{◌≡◌, true, false, length, List, is_some, None, Err, IfSome, OnErr, OnOk};
ghost use Rattle.of_stacks.specs.declared.stop.Stop.TheVariants.{Thrown};
ghost use Rattle.of_stacks.specs.Throws.{compiler_nesting};
ghost use Rattle.of_stacks.specs.Loops.{loop_on_top};
ghost use Rattle.of_compile.specs.Elements.{CanBeStored, element_of, own_item};
ghost use Rattle.of_dict.specs.Words.{name_in, word_at};
ghost use Rattle.of_compile.specs.Defining.{may_define};
ghost use Rattle.of_compile.specs.Words.{name_pending, named_at, named_next};
ghost use Rattle.of_nodes.specs.declared.tree.Node.{Node};
ghost use Rattle.of_eval.specs.Methods.{hidden_if, with_tree};
ghost use Rattle.of_state.specs.State.{Ends, Leaves, flat_calls};
ghost use Rattle.of_eval.specs.Acts.{Appends};
ghost use Rattle.of_eval.specs.Defining.{define_entry, definition_ended, semicolon_entry, slot_word_defined};
ghost use Rattle.of_eval.specs.Defining.{word_defined, word_made_as};
ghost use Rattle.of_eval.specs.Doing.{IsWorked, acted, read_at};
ghost use Rattle.of_eval.specs.Items.{control_act};
ghost use Rattle.of_eval.specs.Tokens.{at_position, leave_act};

use crate::methods::{Former, make_method, take_back};
use of_code::CodeStore;
use of_compile::{DefiningWord, Element, end_definition};
use of_dict::{OwnWord, Slot};
use of_flow::{ControlWord, run_control};
use of_stacks::{Continuation, Input, LoopExit, Stop, Throw};
use of_state::Eval;
use of_stream::HEADER_LENGTH;

// ---- defining and compiling

/// Makes a word that is one of each instance of the active package, and no method yet.
fn make_slot_word<C: CodeStore>(eval: &mut Eval<C>, slot: Slot) -> Result<(), Stop>
    ensures outcome { (t : List Node) → Ends (may_define eval.old.words)
        (slot_word_defined slot (with_tree t eval.old)) (with_tree t eval.old) (with_tree t eval.new) result }
    ensures named { OnOk result (named_next eval.old.words.dictionary (name_pending eval.old.words.pending)
        ≡ named_at eval.new.words.dictionary (length eval.old.words.dictionary)) }
    ensures stopped { OnErr result (eval.new.words ≡ eval.old.words) }
    ensures nested { may_define eval.old.words ≡ false → result ≡ Err (Thrown compiler_nesting) }
    ensures tree { eval.new.board.tree ≡ eval.old.board.tree }
{
    eval.words.define_slot(
        slot,
        eval.board.active.package,
        &mut eval.board.stack,
        &mut eval.board.memory,
        &mut eval.board.instances,
    )
}

/// Makes a word of all instances, which is no method yet.
fn make_plain_word<C: CodeStore>(eval: &mut Eval<C>, word: DefiningWord) -> Result<(), Stop>
    ensures outcome { (t : List Node) → Ends (may_define eval.old.words)
        (word_made_as flat_calls word None (with_tree t eval.old)) (with_tree t eval.old) (with_tree t eval.new)
        result }
    ensures named { OnOk result (named_next eval.old.words.dictionary (name_pending eval.old.words.pending)
        ≡ named_at eval.new.words.dictionary (length eval.old.words.dictionary)) }
    ensures stopped { OnErr result (eval.new.words ≡ eval.old.words) }
    ensures nested { may_define eval.old.words ≡ false → result ≡ Err (Thrown compiler_nesting) }
    ensures tree { eval.new.board.tree ≡ eval.old.board.tree }
{
    eval.words.define(
        word,
        eval.coding.code(),
        &mut eval.board.stack,
        &mut eval.board.memory,
    )?;
    if word == DefiningWord::Colon {
        eval.flow.home = eval.board.active.package;
        eval.set_compiling(true);
    }
    Ok(())
}

/// Makes a word, which is no method yet: one of each instance, if `instance` waits for it.
fn make_word<C: CodeStore>(eval: &mut Eval<C>, word: DefiningWord) -> Result<(), Stop>
    ensures outcome { (t : List Node) → Ends (may_define eval.old.words)
        (word_defined flat_calls word (with_tree t eval.old)) (with_tree t eval.old) (with_tree t eval.new) result }
    ensures named { OnOk result (named_next eval.old.words.dictionary (name_pending eval.old.words.pending)
        ≡ named_at eval.new.words.dictionary (length eval.old.words.dictionary)) }
    ensures stopped { OnErr result (eval.new.words ≡ eval.old.words) }
    ensures nested { may_define eval.old.words ≡ false → result ≡ Err (Thrown compiler_nesting) }
    ensures tree { eval.new.board.tree ≡ eval.old.board.tree }
{
    match eval.words.awaited(word) {
        Some(slot) => make_slot_word(eval, slot),
        None => make_plain_word(eval, word),
    }
}

/// A defining word: `b(:)` to `b(field)`. Its word becomes a method, unless it opens a definition.
pub(crate) fn define<C: CodeStore>(eval: &mut Eval<C>, word: DefiningWord) -> Result<(), Stop>
    ensures { Ends (may_define eval.old.words) (define_entry flat_calls word eval.old) eval.old eval.new
        result }
{
    if word == DefiningWord::Colon {
        return make_word(eval, word);
    }
    if !eval.words.may_define() {
        return make_word(eval, word);
    }
    let Some((next, name)) = eval.words.named_next() else {
        return make_word(eval, word);
    };
    let home = eval.board.active.package;
    let former = make_method(&mut eval.board.tree, home, name, next.xt())?;
    match make_word(eval, word) {
        Ok(()) => {
            hide_method(eval, next, former);
            Ok(())
        }
        Err(stop) => {
            if let Some((_, name)) = eval.words.named_next() {
                take_back(&mut eval.board.tree, name, former);
            }
            Err(stop)
        }
    }
}

/// Leaves a word that became a method out of every search of the dictionary.
pub(crate) fn hide_method<C: CodeStore>(eval: &mut Eval<C>, word: OwnWord, former: Option<Former>)
    ensures { eval.new ≡ hidden_if (is_some former) word.0 eval.old }
{
    if former.is_some() {
        eval.words.hide(word);
    }
}

/// Ends the open definition, whose word is no method yet.
#[tactic(auto, using(crate::proofs::Endings::closing_leaves))]
fn end_open<C: CodeStore>(eval: &mut Eval<C>) -> Result<(), Stop>
    ensures outcome { (t : List Node) → Ends true (definition_ended flat_calls eval.old.words.defining
        (with_tree t eval.old)) (with_tree t eval.old) (with_tree t eval.new) result }
    ensures named { IfSome eval.old.words.defining (λ n. name_in (word_at eval.new.words.dictionary n)
        ≡ name_in (word_at eval.old.words.dictionary n)) }
    ensures stopped { OnErr result (eval.new.words ≡ eval.old.words) }
    ensures tree { eval.new.board.tree ≡ eval.old.board.tree }
{
    eval.coding.reserve(1)?;
    match end_definition(&mut eval.words, &mut eval.coding) {
        Ok(()) => {
            eval.set_compiling(false);
            Ok(())
        }
        Err(fault) => Err(Stop::Thrown(fault)),
    }
}

/// `b(;)` and `;` ( -- ) end the open definition, whose word becomes a method of the package that was active where it
/// was opened.
///
/// -29 where none is open, -22 exactly where its control isn't matched, -8 where the return would pass the last code
/// cell. Where that is thrown or no memory is found nothing has changed.
pub fn semicolon<C: CodeStore>(eval: &mut Eval<C>) -> Result<(), Stop>
    ensures { Ends (is_some eval.old.words.defining)
        (semicolon_entry flat_calls eval.old.words.defining eval.old) eval.old eval.new result }
{
    if eval.words.defining().is_none() {
        return Err(Stop::Thrown(Throw::COMPILER_NESTING));
    }
    let Some((word, name)) = eval.words.named_open() else {
        return end_open(eval);
    };
    let home = eval.flow.home;
    let former = make_method(&mut eval.board.tree, home, name, word.xt())?;
    match end_open(eval) {
        Ok(()) => {
            hide_method(eval, word, former);
            Ok(())
        }
        Err(stop) => {
            if let Some((_, name)) = eval.words.named_open() {
                take_back(&mut eval.board.tree, name, former);
            }
            Err(stop)
        }
    }
}

/// Appends an element to the open definition, for which memory is asked only where it has an item.
///
/// -8 where its item would pass the last code cell. Where that is thrown or no memory is found nothing has changed.
#[tactic(auto, unfolding(crate::specs::Doing::worked))]
pub fn compile<C: CodeStore>(eval: &mut Eval<C>, element: Element) -> Result<(), Stop>
    requires storable { CanBeStored (own_item (element_of element)) }
    ensures outcome { IsWorked (Appends (element_of element) eval.old.board.stack) eval.old eval.new result }
    ensures board { eval.new.board ≡ eval.old.board }
{
    eval.coding.reserve_for(element)?;
    eval.coding.compile(element)?;
    Ok(())
}

// ---- going on in an image

/// Goes on at a position of what is being read.
fn go_to<C: CodeStore>(eval: &mut Eval<C>, position: usize)
    ensures { eval.new ≡ read_at position eval.old }
{
    eval.flow.reading.input = match eval.flow.reading.input {
        Input::Image { size, .. } => Input::Image { size, position },
        Input::Text { .. } => Input::Text { position },
        Input::Nothing => Input::Nothing,
    };
}

/// Runs a word of control whose target is a position.
#[tactic(auto, using(crate::proofs::Registers::turns))]
pub(crate) fn turn_at<C: CodeStore>(
    eval: &mut Eval<C>,
    word: ControlWord,
    target: Option<usize>,
    exit: LoopExit,
) -> Result<(), Throw>
    ensures { Leaves (acted flat_calls (control_act word (at_position target) exit eval.old.board.stack
        eval.old.flow.items) eval.old) eval.new result }
{
    let goes = run_control(
        word,
        target.is_some(),
        exit,
        &mut eval.board.stack,
        &mut eval.flow.items,
    )?;
    if goes && let Some(position) = target {
        go_to(eval, position);
    }
    Ok(())
}

/// `b(leave)` ( -- ) drops the loop on top, and goes on behind its end.
///
/// -26 where no loop is on top, -257 where its end isn't in the image.
#[tactic(auto, unfolding(crate::specs::Doing::acted, crate::specs::Doing::worked))]
pub(crate) fn leave<C: CodeStore>(eval: &mut Eval<C>, size: usize) -> Result<(), Throw>
    ensures { Leaves (acted flat_calls (leave_act size eval.old.board.stack
        (loop_on_top eval.old.flow.items)) eval.old) eval.new result }
{
    let found = eval.flow.items.top_loop()?;
    match found.exit {
        LoopExit::Position(position) => {
            if position < HEADER_LENGTH || position >= size {
                return Err(Throw::IMAGE_ENDED);
            }
            let _ = eval.flow.items.pop();
            go_to(eval, position);
            Ok(())
        }
        LoopExit::Code(cell) => {
            let _ = eval.flow.items.pop();
            eval.flow.next = Continuation::Code(cell);
            Ok(())
        }
    }
}
