//! Code by hand-worked places: the numbers of cells are counted from the items' lengths.

use crate::rows::{Rows, check, hexadecimal, word};
use of_cells::Cell;
use of_code::{
    CodeFault, CodeStore, Item, ListCode, Place, abandoned_items_are_forgotten,
    appended_items_are_found, finished_words_are_bound, targets_change_alone,
};
use std::alloc::Global;
use std::test::Fail;

/// A kind of item a line: its name, its cell or its target, the place where it begins behind the
/// lines before, how many cells it takes, its target, and its cell or target once the new target is
/// 1d; all numbers in hexadecimal.
const ITEMS: &str = "\
operation c0000000 0 1 none c0000000
literal 7 1 2 none 7
string 100000 3 3 none 100000
call c000052c 6 1 none c000052c
store 7 7 2 none 7
branch 10000 9 2 10000 1d
branch-if-zero 1e b 2 1e 1d
do 1e d 2 1e 1d
question-do 0 f 2 0 1d
loop f 11 2 f 1d
plus-loop f 13 2 f 1d
leave 1e 15 2 1e 1d
of 1e 17 2 1e 1d
end-of 1e 19 2 1e 1d
end-case 0 1b 1 none 0
return 0 1c 1 none 0
";

/// ItemRows that some store can't hold, and their cell or their target.
const MISFITS: &str = "\
operation bfffffff
operation c000052c
call c0000528
branch 10001
branch-if-zero 10001
do 10001
question-do 10001
loop 10001
plus-loop 10001
leave 10001
of 10001
end-of ffffffff
";

/// The item of a name with a cell or a target; a string has 5 bytes.
fn item_of(name: &str, x: u32) -> Item {
    let to = Place { cell: x };
    match name {
        "operation" => Item::Operation(Cell(x)),
        "literal" => Item::Literal(Cell(x)),
        "string" => Item::String {
            address: Cell(x),
            length: Cell(5),
        },
        "call" => Item::Call(Cell(x)),
        "store" => Item::Store(Cell(x)),
        "branch" => Item::Branch(to),
        "branch-if-zero" => Item::BranchIfZero(to),
        "do" => Item::Do(to),
        "question-do" => Item::QuestionDo(to),
        "loop" => Item::Loop(to),
        "plus-loop" => Item::PlusLoop(to),
        "leave" => Item::Leave(to),
        "of" => Item::Of(to),
        "end-of" => Item::EndOf(to),
        "end-case" => Item::EndCase,
        _ => Item::Return,
    }
}

/// The number at a place of a line, in hexadecimal.
fn number(line: &str, at: usize) -> Option<u32> {
    hexadecimal(word(line, at))
}

/// The place that a word names, or none.
fn place_of(word: &str) -> Option<Option<Place>> {
    if word == "none" {
        return Some(None);
    }
    let cell = hexadecimal(word)?;
    Some(Some(Place { cell }))
}

/// A line of the items.
#[derive(Clone, Copy)]
struct Case {
    item: Item,
    place: Place,
    count: u32,
    target: Option<Place>,
    changed: Item,
}

const NEW_TARGET: Place = Place { cell: 0x1d };

/// Reads a line of the items.
fn case_of(line: &str) -> Option<Case> {
    let cell = number(line, 2)?;
    Some(Case {
        item: item_of(word(line, 0), number(line, 1)?),
        place: Place { cell },
        count: number(line, 3)?,
        target: place_of(word(line, 4))?,
        changed: item_of(word(line, 0), number(line, 5)?),
    })
}

/// Whether an item is what its line says.
fn is_as_said(case: &Case) -> bool {
    case.item.cells() == case.count
        && case.item.target_of() == case.target
        && case.item.with_target(NEW_TARGET) == case.changed
}

/// ItemRows by themselves.
#[derive(Clone, Copy)]
struct ItemRows;

impl Rows for ItemRows {
    fn holds(&mut self, _alloc: Global, line: &str) -> Option<bool> {
        Some(is_as_said(&case_of(line)?))
    }
}

#[test]
fn items(rt: HostRuntime) {
    check(&rt, rt.alloc(), &mut ItemRows, ITEMS);
}

/// ItemRows that some store can't hold.
#[derive(Clone, Copy)]
struct MisfitRows;

impl Rows for MisfitRows {
    fn holds(&mut self, _alloc: Global, line: &str) -> Option<bool> {
        Some(!item_of(word(line, 0), number(line, 1)?).is_storable())
    }
}

#[test]
fn misfits(rt: HostRuntime) {
    check(&rt, rt.alloc(), &mut MisfitRows, MISFITS);
}

/// Appends an item, and answers whether it begins where its line says.
fn is_placed(code: &mut ListCode, case: &Case) -> Result<bool, CodeFault> {
    if !case.item.is_storable() {
        return Ok(false);
    }
    let place = code.append(case.item)?;
    Ok(place == case.place && code.item_at(place) == Some(case.item))
}

/// Sets the new target, and answers whether the item is then what its line says.
fn is_retargeted(code: &mut ListCode, case: &Case) -> bool {
    code.set_target(case.place, NEW_TARGET);
    code.item_at(case.place) == Some(case.changed)
}

/// ItemRows in a store.
#[derive(Drop)]
struct StoredRows {
    code: ListCode,
}

impl Rows for StoredRows {
    fn holds(&mut self, _alloc: Global, line: &str) -> Option<bool> {
        let case = case_of(line)?;
        let is_placed = is_placed(&mut self.code, &case) == Ok(true);
        Some(is_placed && is_retargeted(&mut self.code, &case))
    }
}

#[test]
fn places(rt: HostRuntime) {
    let code = ListCode::new(rt.alloc());
    check(&rt, rt.alloc(), &mut StoredRows { code }, ITEMS);
}

/// What a call answers, and none where it gives no place.
fn called(code: &mut ListCode, call: &str, x: u32) -> Result<Option<Place>, CodeFault> {
    match call {
        "literal" => Ok(Some(code.append(Item::Literal(Cell(x)))?)),
        "finish" => {
            code.finish(Cell(x))?;
            Ok(None)
        }
        "abandon" => {
            code.abandon();
            Ok(None)
        }
        "start" => Ok(code.start_of(Cell(x))),
        "opened" => Ok(Some(code.opened())),
        "next" => Ok(code.item_and_next(Place { cell: x }).map(|found| found.1)),
        _ => Ok(Some(code.end())),
    }
}

/// Calls in turn, a line each: the call, a number and the answer, in hexadecimal. There are two
/// words, of which the second is abandoned once, and then the first is defined again.
const WORDS: &str = "\
opened 0 0
literal 1 0
finish c0002000 none
next 0 2
next 1 none
next 2 3
next 3 none
opened 0 3
literal 2 3
literal 3 5
abandon 0 none
next 3 none
start c0002004 none
literal 9 3
finish c0002004 none
start c0002000 0
start c0002004 3
end 0 6
finish c0002000 none
start c0002000 6
end 0 7
";

/// The same with code whose last cell alone is free: it can be used, and no item passes it.
const LAST_CELL: &str = "\
end 0 ffff
literal 1 Full
finish c0002000 none
end 0 10000
literal 1 Full
finish c0002004 Full
start c0002004 none
start c0002000 0
opened 0 10000
end 0 10000
";

/// The answer that a word says.
fn answer_of(word: &str) -> Option<Result<Option<Place>, CodeFault>> {
    if word == "Full" {
        return Some(Err(CodeFault::Full));
    }
    Some(Ok(place_of(word)?))
}

/// The calls of a script.
#[derive(Drop)]
struct ScriptRows {
    code: ListCode,
}

impl Rows for ScriptRows {
    fn holds(&mut self, _alloc: Global, line: &str) -> Option<bool> {
        let given = called(&mut self.code, word(line, 0), number(line, 1)?);
        Some(given == answer_of(word(line, 2))?)
    }
}

#[test]
fn words(rt: HostRuntime) {
    let code = ListCode::new(rt.alloc());
    check(&rt, rt.alloc(), &mut ScriptRows { code }, WORDS);
}

/// Appends strings until there is room for less than one.
fn fill(code: &mut ListCode) -> Result<(), CodeFault> {
    let string = item_of("string", 0x10_0000);
    for _ in 0..65_535 / 3 {
        if string.is_storable() {
            code.append(string)?;
        }
    }
    Ok(())
}

#[test]
fn last_cell(rt: HostRuntime) {
    let mut code = ListCode::new(rt.alloc());
    assert!(rt; fill(&mut code).is_ok());
    check(&rt, rt.alloc(), &mut ScriptRows { code }, LAST_CELL);
}

/// Makes room, at once or after one refusal, and answers whether the code stayed as it was.
fn has_room(code: &mut ListCode) -> bool {
    let before = code.end();
    if code.reserve(2).is_ok() {
        return true;
    }
    code.end() == before && code.reserve(2).is_ok()
}

/// Whether a word of one item is taken.
fn takes_word(code: &mut ListCode, n: u32) -> bool {
    code.append(Item::Literal(Cell(n))).is_ok() && code.finish(Cell(n)).is_ok()
}

/// Where allocations are refused, one or another, none is behind `reserve`.
#[test]
fn memory(rt: HostRuntime) {
    let mut code = ListCode::new(rt.alloc());
    for n in 0..40u32 {
        assert!(rt; has_room(&mut code) && takes_word(&mut code, n));
    }
}

#[test]
fn faults(rt: HostRuntime) -> Result<(), Fail> {
    let said = format!(in rt.alloc(); "{}; {}", CodeFault::Full, CodeFault::NoMemory)?;
    assert!(rt; said.as_str() == "the code is full; out of memory");
    Ok(())
}

/// The laws hold.
#[test]
fn laws() {
    appended_items_are_found();
    targets_change_alone();
    finished_words_are_bound();
    abandoned_items_are_forgotten();
}
