//! Compiling the elements of an open definition, and ending it. Each call is a function on code and openers.
ghost use Rattle.std.specs.Prelude.{◌≡◌, ◌≤◌, ◌+◌, is_some, length, true};
ghost use Rattle.of_code.specs.Items.{IsStorable, capacity, cells_of};
ghost use Rattle.of_control.specs.Openers.{after_taking, dest_index, orig_index, taken_place};
ghost use Rattle.of_control.specs.Element.{Back, Branch, Case, Do, EndCase, EndOf, Leave, Loop, Mark, Misfit, Of};
ghost use Rattle.of_control.specs.Element.{Resolve};
ghost use Rattle.of_compile.specs.Elements.{CanBeStored, element_of, own_item, plain_item};
ghost use Rattle.of_compile.specs.Coding.{IsAnsweredWithin, IsWithin, abandoning, cased, coding_of, compiled};
ghost use Rattle.of_compile.specs.Coding.{compiling, finishing, fits, looped, outcome_of};

use crate::appending::{fits, place_of, put};
use crate::element::{NOWHERE, branch_item, do_item, loop_item};
use crate::waiting::{Waiting, aim_from};
use crate::{Element, PlainItem};
use of_cells::Cell;
use of_code::{CodeStore, Item, Place};
use of_control::{Control, places_stay_within};
use of_stacks::Throw;

// Appends an item that fits nowhere: from now on the definition can't be finished.
fn append_misfit<C: CodeStore>(item: PlainItem, code: &mut C, control: &mut Control<32>)
    requires storable { IsStorable (plain_item item) }
    requires room { length (C.code code.old).cells + cells_of (plain_item item) ≤ capacity }
    requires memory { 1 ≤ C.spare code.old }
    ensures coding { compiled (Misfit item) (coding_of (C.code code.old) control.old)
        ≡ coding_of (C.code code.new) control.new }
    ensures spare { C.spare code.old ≤ C.spare code.new + 1 }
{
    put(item.item(), code);
    control.misfit();
}

// Appends a forward branch and opens it; its target is set where it is resolved.
fn append_branch<C: CodeStore>(
    on_zero: bool,
    target: Option<usize>,
    code: &mut C,
    control: &mut Control<32>,
)
    requires room { length (C.code code.old).cells + 2 ≤ capacity }
    requires memory { 1 ≤ C.spare code.old }
    ensures coding { compiled (Branch on_zero target) (coding_of (C.code code.old) control.old)
        ≡ coding_of (C.code code.new) control.new }
    ensures spare { C.spare code.old ≤ C.spare code.new + 1 }
{
    let at = code.end();
    put(branch_item(on_zero, NOWHERE), code);
    control.forward(at.cell as usize, target);
}

// Closes a forward branch, at a position or the latest.
fn take_orig(position: Option<usize>, control: &mut Control<32>) -> Option<usize>
    ensures answer { result ≡ taken_place (orig_index position) control.old }
    ensures state { control.new ≡ after_taking (orig_index position) control.old }
{
    match position {
        Some(position) => control.resolve(position),
        None => control.resolve_latest(),
    }
}

// Closes a forward branch, which goes to the end of the code so far.
#[tactic(auto, using(crate::proofs::WithinLemmas::answer_within))]
fn resolve<C: CodeStore>(position: Option<usize>, code: &mut C, control: &mut Control<32>)
    requires answered { IsAnsweredWithin (Resolve position) (coding_of (C.code code.old) control.old) }
    ensures coding { compiled (Resolve position) (coding_of (C.code code.old) control.old)
        ≡ coding_of (C.code code.new) control.new }
    ensures spare { C.spare code.old ≤ C.spare code.new + 1 }
{
    let end = code.end();
    if let Some(cell) = take_orig(position, control) {
        code.set_target(place_of(cell), end);
    }
}

// Opens a mark at the end of the code so far.
fn mark<C: CodeStore>(position: Option<usize>, code: &mut C, control: &mut Control<32>)
    ensures coding { compiled (Mark position) (coding_of (C.code code.old) control.old)
        ≡ coding_of (C.code code.new) control.new }
    ensures spare { C.spare code.old ≤ C.spare code.new + 1 }
{
    let end = code.end();
    control.mark(end.cell as usize, position);
}

// Closes a mark, by a branch back to a target or by one to the latest.
fn take_dest(target: Option<usize>, control: &mut Control<32>) -> Option<usize>
    ensures answer { result ≡ taken_place (dest_index target) control.old }
    ensures state { control.new ≡ after_taking (dest_index target) control.old }
{
    match target {
        Some(target) => control.backward(target),
        None => control.backward_latest(),
    }
}

// Closes a mark and appends the branch back to it.
#[tactic(auto, using(crate::proofs::WithinLemmas::answer_within))]
fn append_back<C: CodeStore>(
    on_zero: bool,
    target: Option<usize>,
    code: &mut C,
    control: &mut Control<32>,
)
    requires answered { IsAnsweredWithin (Back on_zero target) (coding_of (C.code code.old) control.old) }
    requires room { length (C.code code.old).cells + 2 ≤ capacity }
    requires memory { 1 ≤ C.spare code.old }
    ensures coding { compiled (Back on_zero target) (coding_of (C.code code.old) control.old)
        ≡ coding_of (C.code code.new) control.new }
    ensures spare { C.spare code.old ≤ C.spare code.new + 1 }
{
    match take_dest(target, control) {
        Some(cell) => put(branch_item(on_zero, place_of(cell)), code),
        None => put(branch_item(on_zero, NOWHERE), code),
    }
}

// Appends a `do` and opens its loop; the `do` gets its target from the `loop`.
fn append_do<C: CodeStore>(asks: bool, code: &mut C, control: &mut Control<32>)
    requires room { length (C.code code.old).cells + 2 ≤ capacity }
    requires memory { 1 ≤ C.spare code.old }
    ensures coding { compiled (Do asks) (coding_of (C.code code.old) control.old)
        ≡ coding_of (C.code code.new) control.new }
    ensures spare { C.spare code.old ≤ C.spare code.new + 1 }
{
    let at = code.end();
    put(do_item(asks, NOWHERE), code);
    control.open_do(at.cell as usize);
}

// Appends the end of a loop whose `do` is at a cell; `do` and `leave`s go past it, and it goes back past the `do`.
fn end_loop<C: CodeStore>(adds: bool, cell: usize, code: &mut C)
    requires within { cell ≤ length (C.code code.old).cells }
    requires room { length (C.code code.old).cells + 2 ≤ capacity }
    requires memory { 1 ≤ C.spare code.old }
    ensures code { C.code code.new ≡ looped adds cell (C.code code.old) }
    ensures spare { C.spare code.old ≤ C.spare code.new + 1 }
{
    let past = Place {
        cell: code.end().cell + 2,
    };
    let opener = place_of(cell);
    code.set_target(opener, past);
    aim_from(Waiting::Leaves, opener, past, code);
    put(loop_item(adds, place_of(cell + 2)), code);
}

// Closes a loop and appends its end.
#[tactic(auto, using(crate::proofs::WithinLemmas::answer_before))]
fn append_loop<C: CodeStore>(adds: bool, code: &mut C, control: &mut Control<32>)
    requires answered { IsAnsweredWithin (Loop adds) (coding_of (C.code code.old) control.old) }
    requires room { length (C.code code.old).cells + 2 ≤ capacity }
    requires memory { 1 ≤ C.spare code.old }
    ensures coding { compiled (Loop adds) (coding_of (C.code code.old) control.old)
        ≡ coding_of (C.code code.new) control.new }
    ensures spare { C.spare code.old ≤ C.spare code.new + 1 }
{
    match control.close_do() {
        Some(cell) => end_loop(adds, cell, code),
        None => put(loop_item(adds, NOWHERE), code),
    }
}

// Appends a `leave`, which gets its target from the `loop`.
fn append_leave<C: CodeStore>(code: &mut C, control: &mut Control<32>)
    requires room { length (C.code code.old).cells + 2 ≤ capacity }
    requires memory { 1 ≤ C.spare code.old }
    ensures coding { compiled Leave (coding_of (C.code code.old) control.old)
        ≡ coding_of (C.code code.new) control.new }
    ensures spare { C.spare code.old ≤ C.spare code.new + 1 }
{
    put(Item::Leave(NOWHERE), code);
    control.leave();
}

// Opens a case at the end of the code so far.
fn open_case<C: CodeStore>(code: &mut C, control: &mut Control<32>)
    ensures coding { compiled Case (coding_of (C.code code.old) control.old)
        ≡ coding_of (C.code code.new) control.new }
    ensures spare { C.spare code.old ≤ C.spare code.new + 1 }
{
    let at = code.end();
    control.open_case(at.cell as usize);
}

// Appends an `of` and opens its part of the case.
fn append_of<C: CodeStore>(code: &mut C, control: &mut Control<32>)
    requires room { length (C.code code.old).cells + 2 ≤ capacity }
    requires memory { 1 ≤ C.spare code.old }
    ensures coding { compiled Of (coding_of (C.code code.old) control.old)
        ≡ coding_of (C.code code.new) control.new }
    ensures spare { C.spare code.old ≤ C.spare code.new + 1 }
{
    let at = code.end();
    put(Item::Of(NOWHERE), code);
    control.of(at.cell as usize);
}

// Closes a part of a case, whose `of` goes past the `endof`, and appends the `endof`, which gets its target from the
// `endcase`.
#[tactic(auto, using(crate::proofs::WithinLemmas::answer_within))]
fn append_endof<C: CodeStore>(code: &mut C, control: &mut Control<32>)
    requires answered { IsAnsweredWithin EndOf (coding_of (C.code code.old) control.old) }
    requires room { length (C.code code.old).cells + 2 ≤ capacity }
    requires memory { 1 ≤ C.spare code.old }
    ensures coding { compiled EndOf (coding_of (C.code code.old) control.old)
        ≡ coding_of (C.code code.new) control.new }
    ensures spare { C.spare code.old ≤ C.spare code.new + 1 }
{
    let past = Place {
        cell: code.end().cell + 2,
    };
    if let Some(cell) = control.endof() {
        code.set_target(place_of(cell), past);
    }
    put(Item::EndOf(NOWHERE), code);
}

// Appends the end of a case that began at a place; the `endof`s go past it.
fn end_case<C: CodeStore>(began: Place, code: &mut C)
    requires room { length (C.code code.old).cells + 1 ≤ capacity }
    requires memory { 1 ≤ C.spare code.old }
    ensures code { C.code code.new ≡ cased began.cell (C.code code.old) }
    ensures spare { C.spare code.old ≤ C.spare code.new + 1 }
{
    let past = Place {
        cell: code.end().cell + 1,
    };
    aim_from(Waiting::Arms, began, past, code);
    put(Item::EndCase, code);
}

// Closes a case and appends its end.
#[tactic(auto, using(crate::proofs::WithinLemmas::answer_within))]
fn append_endcase<C: CodeStore>(code: &mut C, control: &mut Control<32>)
    requires answered { IsAnsweredWithin EndCase (coding_of (C.code code.old) control.old) }
    requires room { length (C.code code.old).cells + 1 ≤ capacity }
    requires memory { 1 ≤ C.spare code.old }
    ensures coding { compiled EndCase (coding_of (C.code code.old) control.old)
        ≡ coding_of (C.code code.new) control.new }
    ensures spare { C.spare code.old ≤ C.spare code.new + 1 }
{
    match control.close_case() {
        Some(cell) => end_case(place_of(cell), code),
        None => put(Item::EndCase, code),
    }
}

// Compiles an element whose item fits.
fn compile_fitting<C: CodeStore>(element: Element, code: &mut C, control: &mut Control<32>)
    requires storable { CanBeStored (own_item (element_of element)) }
    requires answered { IsAnsweredWithin (element_of element) (coding_of (C.code code.old) control.old) }
    requires room { fits (own_item (element_of element)) (C.code code.old) ≡ true }
    requires memory { is_some (own_item (element_of element)) ≡ true → 1 ≤ C.spare code.old }
    ensures coding { compiled (element_of element) (coding_of (C.code code.old) control.old)
        ≡ coding_of (C.code code.new) control.new }
    ensures spare { C.spare code.old ≤ C.spare code.new + 1 }
{
    match element {
        Element::Plain(item) => put(item.item(), code),
        Element::Branch(on_zero, target) => append_branch(on_zero, target, code, control),
        Element::Resolve(position) => resolve(position, code, control),
        Element::Mark(position) => mark(position, code, control),
        Element::Back(on_zero, target) => append_back(on_zero, target, code, control),
        Element::Roll(n) => control.roll(n),
        Element::Do(asks) => append_do(asks, code, control),
        Element::Loop(adds) => append_loop(adds, code, control),
        Element::Leave => append_leave(code, control),
        Element::Case => open_case(code, control),
        Element::Of => append_of(code, control),
        Element::EndOf => append_endof(code, control),
        Element::EndCase => append_endcase(code, control),
        Element::Misfit(item) => append_misfit(item, code, control),
    }
}

/// Compiles an element. Where its item would pass the last code cell, this throws -8, and nothing is changed.
#[tactic(auto, unfolding(crate::specs::Coding::compiling))]
pub(crate) fn compile<C: CodeStore>(
    element: Element,
    code: &mut C,
    control: &mut Control<32>,
) -> Result<(), Throw>
    requires storable { CanBeStored (own_item (element_of element)) }
    requires within { IsWithin (coding_of (C.code code.old) control.old) }
    requires memory { is_some (own_item (element_of element)) ≡ true → 1 ≤ C.spare code.old }
    ensures outcome { compiling (element_of element) (coding_of (C.code code.old) control.old)
        ≡ outcome_of (C.code code.new) control.new result }
    ensures within { IsWithin (coding_of (C.code code.new) control.new) }
    ensures spare { C.spare code.old ≤ C.spare code.new + 1 }
{
    places_stay_within::<PlainItem, 32>();
    if !fits(element.own_item(), code) {
        return Err(Throw::DICTIONARY_OVERFLOW);
    }
    compile_fitting(element, code, control);
    Ok(())
}

/// Ends the definition as the word `xt`. Where control isn't matched, this throws -22, and where the return would pass
/// the last code cell -8; then nothing is changed.
#[tactic(auto, unfolding(crate::specs::Coding::finishing), using(crate::proofs::WithinLemmas::closed_within))]
pub(crate) fn semicolon<C: CodeStore>(
    xt: Cell,
    code: &mut C,
    control: &mut Control<32>,
) -> Result<(), Throw>
    requires within { IsWithin (coding_of (C.code code.old) control.old) }
    requires memory { 1 ≤ C.spare code.old }
    ensures outcome { finishing xt (coding_of (C.code code.old) control.old)
        ≡ outcome_of (C.code code.new) control.new result }
    ensures within { IsWithin (coding_of (C.code code.new) control.new) }
    ensures spare { C.spare code.old ≤ C.spare code.new + 1 }
{
    if !control.is_closed() {
        return Err(Throw::CONTROL_MISMATCH);
    }
    match code.finish(xt) {
        Ok(()) => Ok(()),
        Err(_) => Err(Throw::DICTIONARY_OVERFLOW),
    }
}

/// Forgets the open definition.
pub(crate) fn abandon<C: CodeStore>(code: &mut C, control: &mut Control<32>)
    ensures coding { abandoning (coding_of (C.code code.old) control.old) ≡ coding_of (C.code code.new) control.new }
    ensures within { IsWithin (coding_of (C.code code.new) control.new) }
    ensures spare { C.spare code.old ≤ C.spare code.new }
{
    code.abandon();
    control.reset();
}
