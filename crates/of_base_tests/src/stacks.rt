use crate::rows::{Rows, check, decimal, natural, word};
use of_cells::Cell;
use of_stacks::{CAPACITY, DataStack, Throw, first_fault_counts, order_is_written, text_of};
use std::alloc::Global;

/// Makes a call on the stack, and answers the cell that it gives, or 0.
fn call(stack: &mut DataStack, name: &str, n: u32) -> Result<Cell, Throw> {
    let depth = stack.depth();
    match name {
        "push" => {
            stack.try_push(Cell(n))?;
            return Ok(Cell::ZERO);
        }
        "pop" => return stack.pop(),
        "peek" => return stack.peek(),
        "under" => return stack.under(n as usize),
        "replace-top" if depth >= 1 => stack.replace_top(Cell(n)),
        "replace-two" if depth >= 2 => stack.replace_two(Cell(n)),
        "drop" if n as usize <= depth => stack.drop_top(n as usize),
        "take-out" if (n as usize) < depth => return Ok(stack.take_out(n as usize)),
        "room" if n <= 256 => {
            stack.room_for(n as usize)?;
            return Ok(Cell::ZERO);
        }
        _ => return Err(Throw::ABORT),
    }
    Ok(Cell::ZERO)
}

/// Calls in turn on one stack: the call, its number, the cell or throw that it answers, and the
/// stack that it leaves, the top last.
const CALLS: &str = "\
pop 0 -4
peek 0 -4
push 7 0 7
push 8 0 7 8
push 9 0 7 8 9
peek 0 9 7 8 9
under 0 9 7 8 9
under 2 7 7 8 9
under 3 -4 7 8 9
room 253 0 7 8 9
room 254 -3 7 8 9
take-out 1 8 7 9
replace-top 4 0 7 4
push 5 0 7 4 5
replace-two 6 0 7 6
push 3 0 7 6 3
drop 2 0 7
pop 0 7
";

/// Makes the call of a line, and answers what it gives.
fn answer(stack: &mut DataStack, line: &str) -> Option<i64> {
    match call(stack, word(line, 0), natural(word(line, 1))?) {
        Ok(x) => Some(i64::from(x.0)),
        Err(t) => Some(i64::from(t.0)),
    }
}

/// The stack of the cells that words name, the top last.
pub(crate) fn cells_of(words: &str) -> Option<DataStack> {
    let mut stack = DataStack::new();
    for word in words.split_whitespace() {
        stack.try_push(Cell(natural(word)?)).ok()?;
    }
    Some(stack)
}

/// Whether a stack has the cells that words name, the top last.
pub(crate) fn has_cells(stack: &DataStack, words: &str) -> bool {
    match cells_of(words) {
        Some(wanted) => stack.cells() == wanted.cells(),
        None => false,
    }
}

impl Rows for DataStack {
    fn holds(&mut self, _alloc: Global, line: &str) -> Option<bool> {
        if answer(self, line)? != decimal(word(line, 2))? {
            return Some(false);
        }
        Some(has_cells(self, line.splitn(4, ' ').nth(3).unwrap_or("")))
    }
}

#[test]
fn calls(rt: HostRuntime) {
    check(&rt, rt.alloc(), &mut DataStack::new(), CALLS);
}

/// Whether 2 and 3, and with them 1, are on top of a stack of three cells.
fn three_on_top(stack: &DataStack) -> bool {
    stack.top_two() == Ok((Cell(2), Cell(3)))
        && stack.top_three() == Ok((Cell(1), Cell(2), Cell(3)))
        && stack.top_four() == Err(Throw(-4))
}

/// Whether 1, 2, 3 and 4 are on top of a stack.
fn four_on_top(stack: &DataStack) -> bool {
    stack.top_four() == Ok((Cell(1), Cell(2), Cell(3), Cell(4)))
}

#[test]
fn top_cells(rt: HostRuntime) {
    assert!(rt; DataStack::new().top_two() == Err(Throw(-4)));
    assert!(rt; three_on_top(&cells_of("1 2 3").unwrap_or(DataStack::new())));
    assert!(rt; four_on_top(&cells_of("1 2 3 4").unwrap_or(DataStack::new())));
}

#[test]
fn holds_256_cells(rt: HostRuntime) {
    let mut stack = DataStack::new();
    for _ in 0..CAPACITY {
        assert!(rt; stack.try_push(Cell(7)).is_ok());
    }
    assert!(rt; stack.try_push(Cell(8)) == Err(Throw(-3)));
    assert!(rt; stack.depth() == 256);
}

/// The texts of the throws, as the table of this board has them.
const TEXTS: &str = "\
-1 abort
-3 stack overflow
-4 stack underflow
-5 return stack overflow
-6 return stack underflow
-8 dictionary overflow
-9 invalid memory address
-10 division by zero
-13 undefined word
-14 compile-only word
-16 zero-length name
-17 pictured output overflow
-19 name too long
-20 write to a read-only location
-22 control structure mismatch
-23 address alignment exception
-24 invalid numeric argument
-25 return stack imbalance
-26 loop parameters unavailable
-29 compiler nesting
-31 not a created word
-32 invalid name argument
-256 fcode not assigned
-257 image ended
-258 bus fault
-259 no such node
-260 no such instance
-261 no such method
-262 property value too short
-263 bad handle
7 thrown by the program
-2147483648 thrown by the program
";

/// TextRows of throws.
#[derive(Clone, Copy)]
struct TextRows;

impl Rows for TextRows {
    fn holds(&mut self, _alloc: Global, line: &str) -> Option<bool> {
        let (code, text) = line.split_once(' ')?;
        Some(text_of(code.parse::<i32>().ok()?) == text)
    }
}

#[test]
fn texts(rt: HostRuntime) {
    check(&rt, rt.alloc(), &mut TextRows, TEXTS);
}

/// The faults that a word finds, and the one that it throws.
const FAULTS: &str = "\
-10 -4 throws -4
-3 -8 throws -8
-20 -9 throws -9
-3 -24 -20 -9 throws -9
-8 -263 -29 -4 throws -29
-10 throws -10
";

/// The throw that a word names.
fn throw_of(word: &str) -> Option<Throw> {
    Some(Throw(word.parse::<i32>().ok()?))
}

/// The faults of a line, with none behind each.
fn faults_of(alloc: Global, faults: &str) -> Option<Vec<Option<Throw>>> {
    let mut found = Vec::new(alloc);
    for word in faults.split_whitespace() {
        found.push(Some(throw_of(word)?)).ok()?;
        found.push(None).ok()?;
    }
    Some(found)
}

/// FaultRows that count.
#[derive(Clone, Copy)]
struct FaultRows;

impl Rows for FaultRows {
    fn holds(&mut self, alloc: Global, line: &str) -> Option<bool> {
        let (faults, wanted) = line.split_once(" throws ")?;
        let wanted = throw_of(wanted)?;
        Some(Throw::counting(&faults_of(alloc, faults)?) == Some(wanted))
    }
}

#[test]
fn the_first_fault_counts(rt: HostRuntime) {
    check(&rt, rt.alloc(), &mut FaultRows, FAULTS);
}

#[test]
fn no_fault_counts_where_there_is_none(rt: HostRuntime) {
    assert!(rt; Throw::counting(&[None]) == None);
    first_fault_counts();
    order_is_written();
}
