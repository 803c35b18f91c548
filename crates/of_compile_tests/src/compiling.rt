//! Definitions compiled element by element, with the cells that they come to. Positions and targets are those of the
//! bytes of the images from which the elements come; cells are counted by hand from the lengths of the items.
ghost use Rattle.std.specs.Prelude.{◌≤◌};

use of_cells::Cell;
use of_code::{CodeStore, Item, ListCode, Place};
use of_compile::{
    Coding, Element, PlainItem, compiles_reading, definitions_come_and_go, places_are_numbered,
    runs_by_structure, structures_are_flat, words_get_their_names,
};
use of_stacks::Throw;
use std::alloc::Global;
use std::process::Abort;
use std::test::Fail;

const OPERATION: Cell = Cell(0xc000_0010);

const OWN_WORD: Cell = Cell(0xc000_052c);

/// An image with two arms, whose branches go to the byte behind their resolves; the second branch is the latest where
/// the first is resolved. It stands behind a word of three cells.
const TWO_ARMS: &str = "\
literal
semicolon 1 ok
?branch 20
operation
branch 22
resolve 19
operation
resolve 21
end 9
semicolon 2 ok
start 1 0
start 2 3
at 3 branch-if-zero 8
at 4 none
at 5 operation
at 6 branch 9
at 8 operation
at 9 return
";

/// The same with branches that go to their resolves.
const EARLY_TARGETS: &str = "\
?branch 19
operation
branch 21
resolve 19
operation
resolve 21
semicolon 1 ok
at 0 branch-if-zero 5
at 2 operation
at 3 branch 6
at 5 operation
at 6 return
";

/// A branch into a loop, whose definition is abandoned then.
const BRANCH_INTO_LOOP: &str = "\
?branch 17
mark 15
resolve 16
operation
?back 16
end 5
semicolon 1 -22
end 5
abandon
end 0
start 1 none
semicolon 1 ok
";

/// A resolve whose branch goes into a string before it.
const TARGET_INSIDE_STRING: &str = "\
?branch 17
string
resolve 18
end 5
semicolon 1 -22
";

/// A call that an immediate word appends between a branch and its resolve, in the third of three words.
const MACRO_BEFORE_RESOLVE: &str = "\
operation
operation
semicolon 1 ok
literal
operation
semicolon 2 ok
?branch 44
call
resolve 43
semicolon 3 ok
start 3 7
at 7 branch-if-zero 10
at 9 call
at 10 return
";

/// `do leave begin 1 while repeat leave +loop`, as text compiles it.
const LEAVES: &str = "\
do
leave
mark
operation
?branch
back
resolve
leave
+loop
semicolon 1 ok
at 0 do 13
at 2 leave 13
at 4 operation
at 5 branch-if-zero 9
at 7 branch 4
at 9 leave 13
at 11 plus-loop 2
at 13 return
";

/// A loop in a loop, each with a `leave`.
const NESTED_LOOPS: &str = "\
do
?do
leave
loop
leave
loop
semicolon 1 ok
at 0 do 12
at 2 question-do 8
at 4 leave 8
at 6 loop 4
at 8 leave 12
at 10 loop 2
at 12 return
";

/// `if 1 else 1 then` and a rolled branch, as text compiles them.
const ROLLED: &str = "\
?branch
operation
branch
roll 1
resolve
operation
resolve
semicolon 1 ok
at 0 branch-if-zero 5
at 3 branch 6
at 6 return
";

/// A case with two parts.
const CASE: &str = "\
case
operation
of
operation
endof
operation
of
endof
operation
endcase
semicolon 1 ok
at 1 of 6
at 3 operation
at 4 end-of 13
at 7 of 11
at 9 end-of 13
at 12 end-case
at 13 return
";

/// A case in a part of a case.
const NESTED_CASES: &str = "\
case
of
case
of
endof
endcase
endof
endcase
semicolon 1 ok
at 0 of 9
at 2 of 6
at 4 end-of 7
at 6 end-case
at 7 end-of 10
at 9 end-case
at 10 return
";

/// Items that fit nowhere take cells, and a definition with one has no end.
const MISFITS: &str = "\
operation
misfit
operation
end 4
semicolon 1 -22
abandon
end 0
loop
leave
endof
endcase
end 7
semicolon 1 -22
abandon
store
semicolon 1 ok
at 0 store
at 2 return
";

/// The last cell alone is free: only what passes it is refused, and then nothing has changed.
const LAST_CELL: &str = "\
end 65535
literal -8
leave -8
?branch -8
end 65535
semicolon 1 ok
end 65536
operation -8
semicolon 2 -8
mark
semicolon 2 -22
abandon
end 65536
start 2 none
";

/// A plain item of a name.
fn plain(name: &str) -> PlainItem {
    match name {
        "literal" => PlainItem::Literal(Cell(7)),
        "string" => PlainItem::String {
            address: Cell(0x10_0000),
            length: Cell(1),
        },
        "call" => PlainItem::Call(OWN_WORD),
        "store" => PlainItem::Store(OWN_WORD),
        _ => PlainItem::Operation(OPERATION),
    }
}

/// An element of a name with a target or position.
fn element(name: &str, x: Option<usize>) -> Element {
    match name {
        "?branch" => Element::Branch(true, x),
        "branch" => Element::Branch(false, x),
        "resolve" => Element::Resolve(x),
        "mark" => Element::Mark(x),
        "?back" => Element::Back(true, x),
        "back" => Element::Back(false, x),
        "roll" => Element::Roll(x.unwrap_or(0)),
        "?do" => Element::Do(true),
        "do" => Element::Do(false),
        "+loop" => Element::Loop(true),
        "loop" => Element::Loop(false),
        "leave" => Element::Leave,
        "case" => Element::Case,
        "of" => Element::Of,
        "endof" => Element::EndOf,
        "endcase" => Element::EndCase,
        "misfit" => Element::Misfit(PlainItem::Literal(Cell(7))),
        _ => Element::Plain(plain(name)),
    }
}

/// The item of a name with a target, if it is one.
fn item(name: &str, to: Place) -> Option<Item> {
    match name {
        "none" => None,
        "branch" => Some(Item::Branch(to)),
        "branch-if-zero" => Some(Item::BranchIfZero(to)),
        "do" => Some(Item::Do(to)),
        "question-do" => Some(Item::QuestionDo(to)),
        "loop" => Some(Item::Loop(to)),
        "plus-loop" => Some(Item::PlusLoop(to)),
        "leave" => Some(Item::Leave(to)),
        "of" => Some(Item::Of(to)),
        "end-of" => Some(Item::EndOf(to)),
        "end-case" => Some(Item::EndCase),
        "call" => Some(Item::Call(OWN_WORD)),
        "store" => Some(Item::Store(OWN_WORD)),
        "operation" => Some(Item::Operation(OPERATION)),
        _ => Some(Item::Return),
    }
}

/// A line of a script: an element or a call with its number, what it is to answer, and the target of an item.
#[derive(Clone, Copy)]
struct Line<'a> {
    name: &'a str,
    x: Option<u32>,
    answer: &'a str,
    target: Option<u32>,
}

/// The number that a word is, or none.
fn number(word: &str) -> Result<Option<u32>, Fail> {
    match word {
        "" | "none" => Ok(None),
        digits => Ok(Some(digits.parse()?)),
    }
}

/// Reads a line; an element that is refused has no number.
fn line_of(line: &str) -> Result<Line<'_>, Fail> {
    let mut words = line.split_whitespace();
    let name = words.next().unwrap_or("");
    let second = words.next().unwrap_or("");
    if second == "-8" {
        return Ok(Line {
            name,
            x: None,
            answer: second,
            target: None,
        });
    }
    let x = number(second)?;
    let answer = words.next().unwrap_or("");
    let target = number(words.next().unwrap_or(""))?;
    Ok(Line {
        name,
        x,
        answer,
        target,
    })
}

/// What an element or the end of a definition is to answer.
fn wanted(word: &str) -> Result<(), Throw> {
    match word {
        "-8" => Err(Throw::DICTIONARY_OVERFLOW),
        "-22" => Err(Throw::CONTROL_MISMATCH),
        _ => Ok(()),
    }
}

/// Whether the code is what a line says.
fn is_shown(code: &ListCode, line: &Line) -> Result<bool, Fail> {
    let cell = line.x.unwrap_or(0);
    let to = Place {
        cell: line.target.unwrap_or(0),
    };
    match line.name {
        "at" => Ok(code.item_at(Place { cell }) == item(line.answer, to)),
        "start" => Ok(code.start_of(Cell(cell)) == number(line.answer)?.map(|cell| Place { cell })),
        _ => Ok(code.end() == Place { cell }),
    }
}

/// Compiles an element for which there is memory, and answers whether it was as wanted.
fn is_compiled(
    coding: &mut Coding<ListCode>,
    element: Element,
    wanted: Result<(), Throw>,
) -> Result<bool, Fail> {
    coding.reserve_for(element)?;
    Ok(element.is_storable() && coding.compile(element) == wanted)
}

/// The same of the end of the definition.
fn is_ended(
    coding: &mut Coding<ListCode>,
    xt: Cell,
    wanted: Result<(), Throw>,
) -> Result<bool, Fail> {
    coding.reserve(1)?;
    Ok(coding.semicolon(xt) == wanted)
}

/// Whether a line is so.
fn is_so(coding: &mut Coding<ListCode>, line: &Line) -> Result<bool, Fail> {
    match line.name {
        "at" | "start" | "end" => is_shown(coding.code(), line),
        "abandon" => {
            coding.abandon();
            Ok(true)
        }
        "semicolon" => is_ended(coding, Cell(line.x.unwrap_or(0)), wanted(line.answer)),
        _ => {
            let element = element(line.name, line.x.map(|x| x as usize));
            is_compiled(coding, element, wanted(line.answer))
        }
    }
}

/// Sees that each line of a script is so.
fn run_on(rt: &impl Abort, coding: &mut Coding<ListCode>, script: &str) -> Result<(), Fail> {
    for text in script.lines() {
        let line = line_of(text)?;
        assert!(rt; is_so(coding, &line)?, "{text}");
    }
    Ok(())
}

/// The same in an empty store.
fn run(rt: &impl Abort, alloc: Global, script: &str) -> Result<(), Fail> {
    let mut coding = Coding::new(ListCode::new(alloc));
    run_on(rt, &mut coding, script)
}

/// Branches with the targets of an image.
#[test]
fn image_branches(rt: HostRuntime) -> Result<(), Fail> {
    run(&rt, rt.alloc(), TWO_ARMS)?;
    run(&rt, rt.alloc(), EARLY_TARGETS)?;
    run(&rt, rt.alloc(), BRANCH_INTO_LOOP)?;
    run(&rt, rt.alloc(), TARGET_INSIDE_STRING)?;
    run(&rt, rt.alloc(), MACRO_BEFORE_RESOLVE)
}

/// Structures as text compiles them.
#[test]
fn structures(rt: HostRuntime) -> Result<(), Fail> {
    run(&rt, rt.alloc(), LEAVES)?;
    run(&rt, rt.alloc(), NESTED_LOOPS)?;
    run(&rt, rt.alloc(), ROLLED)?;
    run(&rt, rt.alloc(), CASE)?;
    run(&rt, rt.alloc(), NESTED_CASES)?;
    run(&rt, rt.alloc(), MISFITS)
}

/// Opens `count` branches from position 12 on, 3 bytes each, and then resolves them, a byte each; branch `i`, from 1,
/// goes to the byte behind its resolve.
fn branches(rt: &impl Abort, alloc: Global, count: usize) -> Result<Coding<ListCode>, Fail>
    requires { count ≤ 33 }
{
    let mut coding = Coding::new(ListCode::new(alloc));
    let first = 12 + 3 * count;
    for i in 1..=count {
        let target = first + count + 1 - i;
        assert!(rt;
            is_compiled(&mut coding, Element::Branch(true, Some(target)), Ok(()))?,
            "{i}"
        );
    }
    for j in 0..count {
        assert!(rt;
            is_compiled(&mut coding, Element::Resolve(Some(first + j)), Ok(()))?,
            "{j}"
        );
    }
    Ok(coding)
}

/// 32 branches may be open at once, 33 not.
#[test]
fn thirty_two_branches(rt: HostRuntime) -> Result<(), Fail> {
    let mut coding = branches(&rt, rt.alloc(), 32)?;
    for k in 0..32u32 {
        let item = coding.code().item_at(Place { cell: 2 * k });
        assert_eq!(rt; item, Some(Item::BranchIfZero(Place { cell: 64 })), "{k}");
    }
    run_on(&rt, &mut coding, "semicolon 1 ok\nat 64 return\n")?;
    let mut coding = branches(&rt, rt.alloc(), 33)?;
    run_on(&rt, &mut coding, "end 66\nsemicolon 1 -22\n")
}

/// What passes the last cell is refused.
#[test]
fn last_cell(rt: HostRuntime) -> Result<(), Fail> {
    let mut coding = Coding::new(ListCode::new(rt.alloc()));
    for n in 0..65_535 / 3u32 {
        assert!(rt;
            is_compiled(&mut coding, element("string", None), Ok(()))?,
            "{n}"
        );
    }
    run_on(&rt, &mut coding, LAST_CELL)
}

/// A call of a written word can't be stored.
#[test]
fn is_storable(rt: HostRuntime) {
    assert!(rt; !Element::Plain(PlainItem::Call(OPERATION)).is_storable());
    assert!(rt; !Element::Misfit(PlainItem::Operation(OWN_WORD)).is_storable());
}

/// The laws hold.
#[test]
fn laws() {
    compiles_reading();
    structures_are_flat();
    definitions_come_and_go();
    places_are_numbered();
    runs_by_structure();
    words_get_their_names();
}
