//! `see`: what a word does, as a text.
ghost use Rattle.std.specs.Prelude.{◌≡◌, IfOk};
ghost use Rattle.of_interpret.specs.TextActs.{IsSpoken, seen};
ghost use Rattle.of_interpret.specs.TextWords.{seeing};
ghost use Rattle.of_state.specs.State.{flat_calls};

use of_cells::Cell;
use of_code::CodeStore;
use of_see::see_text;
use of_stacks::{Stop, Throw};
use of_state::Eval;
use of_text::Names;
use std::alloc::AllocError;

/// What `see` prints of a word.
fn seen<C: CodeStore>(eval: &Eval<C>, xt: Cell) -> Result<Vec<u8>, AllocError>
    ensures { IfOk result (λ text. text.items ≡ seen flat_calls xt eval.now) }
{
    let alloc = eval.board.active.new_devices.alloc();
    let names = Names {
        tree: &eval.board.tree,
        home: eval.board.active.package,
        words: &eval.words,
    };
    see_text(alloc, &names, &eval.board.memory, eval.coding.code(), xt)
}

/// `see` ( -- ) prints what the word does that its name finds (IEEE 1275-1994, annex A, `see`; Forth 2012,
/// 15.6.1.2194), or throws what is wrong with the name.
#[tactic(auto, unfolding(crate::proofs::InFull::in_full))]
pub(crate) fn see<C: CodeStore>(eval: &mut Eval<C>, found: Result<Cell, Throw>) -> Result<(), Stop>
    ensures { IsSpoken (seeing found) eval.old eval.new result }
{
    let xt = match found {
        Ok(xt) => xt,
        Err(fault) => return Err(Stop::Thrown(fault)),
    };
    let text = seen(eval, xt)?;
    Ok(eval.board.console.print(&text)?)
}
