//! Words that a text defines, each with its name behind the defining word.
ghost use Rattle.std.specs.Prelude.{◌≡◌, ◌<◌, length, List, is_none, None, Some, true, OnErr, OnOk};
ghost use Rattle.of_dict.specs.Words.{capacity, name_in, word_at};
ghost use Rattle.of_nodes.specs.declared.tree.Node.{Node};
ghost use Rattle.of_state.specs.State.{Ends, flat_calls};
ghost use Rattle.of_eval.specs.Methods.{with_tree};
ghost use Rattle.of_eval.specs.Naming.{name_at, naming_done, slot_word_named, word_named, word_named_as};

use crate::defining_tokens::hide_method;
use crate::methods::{make_method, take_back};
use of_code::CodeStore;
use of_compile::DefiningWord;
use of_dict::{CAPACITY, OwnWord, Slot};
use of_stacks::Stop;
use of_state::Eval;
use of_text::Part;

/// Makes a word that is one of each instance of the active package, and no method yet.
fn make_named_slot<C: CodeStore>(eval: &mut Eval<C>, slot: Slot, name: Part) -> Result<(), Stop>
    ensures outcome { (t : List Node) → Ends (is_none eval.old.words.defining)
        (slot_word_named slot (name_at name eval.old) (with_tree t eval.old)) (with_tree t eval.old)
        (with_tree t eval.new) result }
    ensures named { OnOk result (name_in (word_at eval.new.words.dictionary (length eval.old.words.dictionary))
        ≡ Some (name_at name eval.old)) }
    ensures closed { OnOk result (is_none eval.old.words.defining ≡ true) }
    ensures room { OnOk result (length eval.old.words.dictionary < capacity) }
    ensures stopped { OnErr result (eval.new.words ≡ eval.old.words) }
    ensures tree { eval.new.board.tree ≡ eval.old.board.tree }
    ensures texts { eval.new.flow.texts ≡ eval.old.flow.texts }
{
    eval.words.define_named_slot(
        slot,
        name.of(eval.flow.texts.latest()),
        eval.board.active.package,
        &mut eval.board.stack,
        &mut eval.board.memory,
        &mut eval.board.instances,
    )
}

/// Makes a word of all instances, which is no method yet.
fn make_named_plain<C: CodeStore>(
    eval: &mut Eval<C>,
    word: DefiningWord,
    name: Part,
) -> Result<(), Stop>
    ensures outcome { (t : List Node) → Ends (is_none eval.old.words.defining)
        (word_named_as flat_calls word (name_at name eval.old) None (with_tree t eval.old)) (with_tree t eval.old)
        (with_tree t eval.new) result }
    ensures named { OnOk result (name_in (word_at eval.new.words.dictionary (length eval.old.words.dictionary))
        ≡ Some (name_at name eval.old)) }
    ensures closed { OnOk result (is_none eval.old.words.defining ≡ true) }
    ensures room { OnOk result (length eval.old.words.dictionary < capacity) }
    ensures stopped { OnErr result (eval.new.words ≡ eval.old.words) }
    ensures tree { eval.new.board.tree ≡ eval.old.board.tree }
    ensures texts { eval.new.flow.texts ≡ eval.old.flow.texts }
{
    eval.words.define_named(
        word,
        name.of(eval.flow.texts.latest()),
        eval.coding.code(),
        &mut eval.board.stack,
        &mut eval.board.memory,
    )?;
    if word == DefiningWord::Colon {
        eval.flow.home = eval.board.active.package;
        eval.set_compiling(true);
    }
    Ok(())
}

/// Makes a word, which is no method yet: one of each instance, if `instance` waits for it.
fn make_named<C: CodeStore>(eval: &mut Eval<C>, word: DefiningWord, name: Part) -> Result<(), Stop>
    ensures outcome { (t : List Node) → Ends (is_none eval.old.words.defining)
        (word_named flat_calls word (name_at name eval.old) (with_tree t eval.old)) (with_tree t eval.old)
        (with_tree t eval.new) result }
    ensures named { OnOk result (name_in (word_at eval.new.words.dictionary (length eval.old.words.dictionary))
        ≡ Some (name_at name eval.old)) }
    ensures closed { OnOk result (is_none eval.old.words.defining ≡ true) }
    ensures room { OnOk result (length eval.old.words.dictionary < capacity) }
    ensures stopped { OnErr result (eval.new.words ≡ eval.old.words) }
    ensures tree { eval.new.board.tree ≡ eval.old.board.tree }
    ensures texts { eval.new.flow.texts ≡ eval.old.flow.texts }
{
    match eval.words.awaited(word) {
        Some(slot) => make_named_slot(eval, slot, name),
        None => make_named_plain(eval, word, name),
    }
}

/// A defining word of a text, whose name stands at a part of the latest text: `:` to `field`. Its word becomes a method
/// of the active package, unless it opens a definition.
///
/// -29 while a definition is open, -4 without the cells that the word takes, -259 where `instance` waits for the word
/// and no package is active, -16 for a name without bytes, -19 for one of more than 31, -8 where 8,192 words were made,
/// or where the data region or an instance has no room. Where that is thrown or no memory is found nothing has changed.
pub fn define_named<C: CodeStore>(
    eval: &mut Eval<C>,
    word: DefiningWord,
    name: Part,
) -> Result<(), Stop>
    ensures { Ends (is_none eval.old.words.defining)
        (naming_done flat_calls word (name_at name eval.old) eval.old) eval.old eval.new result }
{
    if word == DefiningWord::Colon {
        return make_named(eval, word, name);
    }
    if eval.words.defining().is_some() {
        return make_named(eval, word, name);
    }
    let number = eval.words.dictionary().made();
    if number >= CAPACITY {
        return make_named(eval, word, name);
    }
    let next = OwnWord(number as u32);
    let home = eval.board.active.package;
    let text = name.of(eval.flow.texts.latest());
    let former = make_method(&mut eval.board.tree, home, text, next.xt())?;
    match make_named(eval, word, name) {
        Ok(()) => {
            hide_method(eval, next, former);
            Ok(())
        }
        Err(stop) => {
            let text = name.of(eval.flow.texts.latest());
            take_back(&mut eval.board.tree, text, former);
            Err(stop)
        }
    }
}
