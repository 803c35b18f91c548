//! Ordinary words over the board.

use crate::rows::{Rows, check};
use crate::running::{Trial, left, number};
use of_board::Board;
use of_cells::Cell;
use of_fcodes::{PrimitiveWord, StacksWord};
use of_stacks::{DataStack, Stop};
use of_words::{difference, exchange, is_less, run_primitive, sum};
use std::alloc::{AllocError, Global};
use std::test::Fail;

/// Lines of words, each with what it prints and what it leaves. Numbers are printed in hexadecimal at first.
const LINES: &str = "\
%ff . %ffffffff . %ffffffff u.|ff -1 ffffffff |
%ff %6 .r %ffffffff %2 u.r|    ffffffffff|
%1 %2a .s|1 2a |1 2a
%141 emit %42 emit cr|AB~|
\"abc type %0 %0 type|abc|
%ff . .|ff |throws -4
%7 %2 - %3 +||8
%8 alloc-mem %8 free-mem||
%1 child||1 throws -263
key||throws -256
";

/// What is printed, each newline as `~`, and what words leave.
fn shown(alloc: Global, board: &Board, ended: Result<(), Stop>) -> Result<String, AllocError> {
    let mut text = String::new(alloc);
    for byte in board.console.bytes() {
        match *byte {
            b'\n' => text.push('~')?,
            byte => text.push(char::from(byte))?,
        }
    }
    let left = left(alloc, board, ended)?;
    write!(text, "|{}", left.trim_end())?;
    Ok(text)
}

/// What words print and leave.
fn printed_and_left(alloc: Global, trial: &mut Trial, words: &str) -> Result<String, Fail> {
    let ended = trial.run_all(words);
    Ok(shown(alloc, &trial.board, ended)?)
}

/// The same on a new board.
fn given(alloc: Global, words: &str) -> Result<String, Fail> {
    let mut trial = Trial::begun(alloc)?;
    printed_and_left(alloc, &mut trial, words)
}

/// Lines of words, each on a new board. A line is given whole, since blanks count where it prints them.
#[derive(Drop)]
pub(crate) struct PrintingRows;

impl Rows for PrintingRows {
    fn new(_alloc: Global) -> Result<PrintingRows, Fail> {
        Ok(PrintingRows)
    }

    fn halves(line: &str) -> (&str, &str) {
        let (words, _) = line.split_once('|').unwrap_or(("", ""));
        (words, line)
    }

    fn given(&mut self, alloc: Global, call: &str) -> Result<String, Fail> {
        let shown = given(alloc, call)?;
        Ok(format!(in alloc; "{call}|{shown}")?)
    }
}

#[test]
fn lines(rt: HostRuntime) -> Result<(), Fail> {
    check::<PrintingRows, _>(&rt, rt.alloc(), &[LINES])
}

/// The words that stand where they are called, each behind the cells that it finds and before those that it leaves.
const INLINE: &str = "\
7 2 7 2 7 2|sum|7 2 7 2 9
7 2 7 2|difference|7 2 5
7 2|exchange|2 7
2 7|is_less|ffffffff
";

/// Runs the word of a name that stands where it is called, behind some cells.
fn run_inline(stack: &mut DataStack, cells: &str, name: &str) -> Result<(), Stop> {
    for digits in cells.split_whitespace() {
        stack.try_push(Cell(number(digits)))?;
    }
    match name {
        "sum" => sum(stack)?,
        "difference" => difference(stack)?,
        "exchange" => exchange(stack)?,
        _ => is_less(stack)?,
    }
    Ok(())
}

/// What a word that stands where it is called leaves.
fn left_inline(alloc: Global, cells: &str, name: &str) -> Result<String, Fail> {
    let mut stack = DataStack::new();
    run_inline(&mut stack, cells, name)?;
    let mut text = String::new(alloc);
    for cell in stack.cells() {
        write!(text, "{:x} ", cell.0)?;
    }
    Ok(text)
}

/// Lines with cells, a word that stands where it is called, and what it leaves.
#[derive(Drop)]
struct InlineRows;

impl Rows for InlineRows {
    fn new(_alloc: Global) -> Result<InlineRows, Fail> {
        Ok(InlineRows)
    }

    fn halves(line: &str) -> (&str, &str) {
        line.rsplit_once('|').unwrap_or(("", "none"))
    }

    fn given(&mut self, alloc: Global, call: &str) -> Result<String, Fail> {
        let (cells, name) = call.split_once('|').unwrap_or(("", ""));
        left_inline(alloc, cells, name)
    }
}

#[test]
fn inline(rt: HostRuntime) -> Result<(), Fail> {
    check::<InlineRows, _>(&rt, rt.alloc(), &[INLINE])
}

/// Runs `dup` as a primitive, behind a 3.
fn double(board: &mut Board) -> Result<(), Stop> {
    board.stack.try_push(Cell(3))?;
    run_primitive(PrimitiveWord::Stacks(StacksWord::Dup), board)
}

/// What that leaves.
fn doubled_on(alloc: Global, board: &mut Board) -> Result<String, Fail> {
    let ended = double(board);
    Ok(left(alloc, board, ended)?)
}

/// The same on a new board.
fn doubled(alloc: Global) -> Result<String, Fail> {
    let mut trial = Trial::begun(alloc)?;
    doubled_on(alloc, &mut trial.board)
}

#[test]
fn primitives(rt: HostRuntime) -> Result<(), Fail> {
    assert!(rt; doubled(rt.alloc())?.as_str() == "3 3 ");
    Ok(())
}
