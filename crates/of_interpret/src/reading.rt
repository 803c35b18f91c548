//! The word that comes next in a text.
ghost use Rattle.std.specs.Prelude.{◌≡◌};
ghost use Rattle.of_state.specs.State.{Halts, flat_calls};
ghost use Rattle.of_interpret.specs.Reading.{read_from, text_due, text_due_grows, word_at};

use crate::words::run_word;
use of_asking::Halt;
use of_code::CodeStore;
use of_stacks::Input;
use of_state::Eval;
use of_text::{Found, Names, read};

/// The word at a position of the latest text, with the position behind it and what it parses.
fn word_at<C: CodeStore>(eval: &Eval<C>, position: usize) -> Found
    ensures { result ≡ word_at position eval.now }
{
    let names = Names {
        tree: &eval.board.tree,
        home: eval.board.active.package,
        words: &eval.words,
    };
    read(
        &names,
        &eval.board.memory,
        eval.flow.texts.latest(),
        position,
    )
}

/// Reads the text on at a position.
fn read_from<C: CodeStore>(eval: &mut Eval<C>, position: usize)
    ensures { eval.new ≡ read_from position eval.old }
{
    eval.flow.reading.input = Input::Text { position };
}

/// Does what the word does that stands at a position of the latest text, or appends it; it is read with all that it
/// parses, and the text is read on behind that.
///
/// What the word throws, as the table of texts says. Where it asks or no memory is found nothing has changed.
#[inline(never)]
pub fn text_due<C: CodeStore>(eval: &mut Eval<C>, position: usize) -> Result<(), Halt>
    ensures { Halts (text_due_grows position eval.old) (text_due flat_calls position eval.old) eval.old eval.new
        result }
{
    let found = word_at(eval, position);
    let kept = eval.flow.reading;
    read_from(eval, found.next);
    match run_word(eval, found.word) {
        Ok(()) => Ok(()),
        Err(Halt::Thrown(fault)) => Err(Halt::Thrown(fault)),
        Err(halt) => {
            eval.flow.reading = kept;
            Err(halt)
        }
    }
}
