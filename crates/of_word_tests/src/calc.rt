use crate::rows::{Rows, check, decimal, hexadecimal, natural, word};
use of_calc::{arrange, calculate, calculations_throw_listed, compare, split};
use of_cells::Cell;
use of_fcodes::{PrimitiveWord, Word, word_with_name};
use of_stacks::{DataStack, Throw};
use std::alloc::Global;

/// Runs the word of a name over the stack.
fn run(name: &str, stack: &mut DataStack) -> Result<(), Throw> {
    match word_with_name(name.as_bytes()) {
        Some(Word::Primitive(PrimitiveWord::Arithmetic(word))) => calculate(word, stack),
        Some(Word::Primitive(PrimitiveWord::Comparing(word))) => compare(word, stack),
        Some(Word::Primitive(PrimitiveWord::Splitting(word))) => split(word, stack),
        Some(Word::Primitive(PrimitiveWord::Stacks(word))) => arrange(word, stack),
        _ => Err(Throw::ABORT),
    }
}

/// The stack of cells in hexadecimal digits.
pub(crate) fn stack_of(cells: &str) -> Option<DataStack> {
    let mut stack = DataStack::new();
    for word in cells.split_whitespace() {
        stack.try_push(Cell(hexadecimal(word)?)).ok()?;
    }
    Some(stack)
}

/// Whether this is what was thrown, an empty text where nothing was.
fn is_thrown(ended: Result<(), Throw>, wanted: &str) -> bool {
    match ended {
        Ok(()) => wanted == "",
        Err(fault) => decimal(wanted) == Some(i64::from(fault.0)),
    }
}

/// Whether these cells are left, and what stands behind `throws` was thrown.
pub(crate) fn is_left(stack: &DataStack, ended: Result<(), Throw>, after: &str) -> Option<bool> {
    let (cells, thrown) = after.split_once("throws").unwrap_or((after, ""));
    let wanted = stack_of(cells)?;
    Some(stack.cells() == wanted.cells() && is_thrown(ended, thrown.trim()))
}

/// Whether the word of a name leaves this of a stack.
fn leaves(before: &str, name: &str, after: &str) -> Option<bool> {
    let mut stack = stack_of(before)?;
    let ended = run(name, &mut stack);
    is_left(&stack, ended, after)
}

/// Lines with a stack, the top last, a word, and what it leaves or throws.
#[derive(Clone, Copy)]
struct WordRows;

impl Rows for WordRows {
    fn holds(&mut self, _alloc: Global, line: &str) -> Option<bool> {
        let (before, rest) = line.split_once(':')?;
        let (name, after) = rest.split_once("--")?;
        leaves(before, name.trim(), after)
    }
}

/// Worked out by hand from the definitions of the standards; the divisions also with another Forth system.
const ARITHMETIC: &str = "\
9 ffffffff 2 : + -- 9 1
1 2 : - -- ffffffff
fffffffd 7 : * -- ffffffeb
c a : and -- 8
c a : or -- e
c a : xor -- 6
ffffffff 1 : min -- ffffffff
ffffffff 1 : max -- 1
fffffff6 7 : / -- fffffffe
80000000 ffffffff : / -- 80000000
fffffff6 7 : mod -- 4
a fffffff9 : /mod -- fffffffc fffffffe
fffffff6 7 : u/mod -- 1 24924923
0 : invert -- ffffffff
5 : negate -- fffffffb
fffffffb : abs -- 5
fffffffb : 2/ -- fffffffd
fffffffb : u2/ -- 7ffffffd
80000003 : 2* -- 6
3 4 : lshift -- 30
3 20 : lshift -- 0
80000000 1f : rshift -- 1
80000000 1f : >>a -- ffffffff
ffffffff ffffffff : um* -- 1 fffffffe
3 5 7 : um/mod -- 2 b6db6db7
3 9 2 : um/mod -- 1 80000001
ffffffff 1 1 2 : d+ -- 0 4
0 4 1 2 : d- -- ffffffff 1
8 0 4 1 2 : d- -- 8 ffffffff 1
1 : + -- 1 throws -4
: abs -- throws -4
0 : / -- 0 throws -4
5 0 : / -- 5 0 throws -10
5 0 : mod -- 5 0 throws -10
5 0 : u/mod -- 5 0 throws -10
5 0 0 : um/mod -- 5 0 0 throws -10
1 2 3 : d+ -- 1 2 3 throws -4
";

#[test]
fn arithmetic(rt: HostRuntime) {
    check(&rt, rt.alloc(), &mut WordRows, ARITHMETIC);
}

/// Worked out by hand from the definitions of the standards.
const COMPARISONS: &str = "\
7 0 : 0= -- 7 ffffffff
80000000 : 0= -- 0
0 : 0<> -- 0
5 : 0<> -- ffffffff
80000000 : 0< -- ffffffff
0 : 0< -- 0
0 : 0<= -- ffffffff
1 : 0<= -- 0
1 : 0> -- ffffffff
0 : 0> -- 0
0 : 0>= -- ffffffff
ffffffff : 0>= -- 0
ffffffff 0 : < -- ffffffff
0 0 : < -- 0
0 ffffffff : > -- ffffffff
1 2 : > -- 0
3 3 : = -- ffffffff
3 4 : = -- 0
3 4 : <> -- ffffffff
3 3 : <> -- 0
2 2 : >= -- ffffffff
ffffffff 2 : >= -- 0
2 2 : <= -- ffffffff
3 2 : <= -- 0
ffffffff 0 : u> -- ffffffff
ffffffff 0 : u<= -- 0
0 ffffffff : u< -- ffffffff
0 ffffffff : u>= -- 0
9 5 1 5 : between -- 9 ffffffff
1 1 5 : between -- ffffffff
6 1 5 : between -- 0
ffffffff fffffffe 0 : between -- ffffffff
1 1 5 : within -- ffffffff
5 1 5 : within -- 0
ffffffff fffffffe 1 : within -- ffffffff
2 fffffffe 1 : within -- 0
: 0= -- throws -4
1 : < -- 1 throws -4
1 2 : within -- 1 2 throws -4
";

#[test]
fn comparisons(rt: HostRuntime) {
    check(&rt, rt.alloc(), &mut WordRows, COMPARISONS);
}

/// Worked out by hand from the definitions of the standards.
const SPLITS: &str = "\
12345678 : lwsplit -- 5678 1234
99995678 77771234 : wljoin -- 12345678
12345678 : lbsplit -- 78 56 34 12
978 956 934 912 : bljoin -- 12345678
99991234 : wbsplit -- 34 12
934 912 : bwjoin -- 1234
99991234 : wbflip -- 3412
12345678 : lwflip -- 56781234
12345678 : lbflip -- 78563412
1 ff : lbflip -- 1 ff000000
: lbflip -- throws -4
1 : wljoin -- 1 throws -4
1 2 3 : bljoin -- 1 2 3 throws -4
: lwsplit -- throws -4
";

#[test]
fn splits(rt: HostRuntime) {
    check(&rt, rt.alloc(), &mut WordRows, SPLITS);
}

/// Worked out by hand from the definitions of the standards.
const ARRANGEMENTS: &str = "\
1 2 : drop -- 1
1 2 : dup -- 1 2 2
1 2 : over -- 1 2 1
1 2 : swap -- 2 1
9 1 2 3 : rot -- 9 2 3 1
9 1 2 3 : -rot -- 9 3 1 2
1 2 : tuck -- 2 1 2
1 2 : nip -- 2
7 8 9 0 : pick -- 7 8 9 9
7 8 9 2 : pick -- 7 8 9 7
7 8 9 0 : roll -- 7 8 9
7 8 9 2 : roll -- 8 9 7
0 : ?dup -- 0
5 : ?dup -- 5 5
: depth -- 0
4 5 : depth -- 4 5 2
1 2 3 : 2drop -- 1
1 2 : 2dup -- 1 2 1 2
1 2 3 4 : 2over -- 1 2 3 4 1 2
1 2 3 4 : 2swap -- 3 4 1 2
9 1 2 3 4 5 6 : 2rot -- 9 3 4 5 6 1 2
: drop -- throws -4
1 : swap -- 1 throws -4
1 2 : rot -- 1 2 throws -4
: pick -- throws -4
7 1 : pick -- 7 1 throws -4
7 ffffffff : pick -- 7 ffffffff throws -4
7 8 2 : roll -- 7 8 2 throws -4
1 : 2dup -- 1 throws -4
1 2 3 : 2over -- 1 2 3 throws -4
1 2 3 4 5 : 2rot -- 1 2 3 4 5 throws -4
";

#[test]
fn arrangements(rt: HostRuntime) {
    check(&rt, rt.alloc(), &mut WordRows, ARRANGEMENTS);
}

/// Words whose results find no room throw -3; with just enough room they run. `2dup`, `2over` and `lbsplit` want room
/// for more than one cell. A word, how many cells there are, and how many of them make room.
const FULL: &str = "\
dup 256 1
over 256 1
tuck 256 1
?dup 256 1
depth 256 1
lwsplit 256 1
wbsplit 256 1
2dup 255 2
2over 255 2
lbsplit 255 2
";

/// A stack of so many fives.
fn fives(count: u32) -> Option<DataStack> {
    let mut stack = DataStack::new();
    for _ in 0..count {
        stack.try_push(Cell(5)).ok()?;
    }
    Some(stack)
}

/// Whether a word finds no room on a stack of so many cells, and changes nothing.
fn finds_no_room(name: &str, stack: &mut DataStack, count: u32) -> bool {
    run(name, stack) == Err(Throw(-3)) && stack.depth() == count as usize
}

/// Whether a word runs where so many cells less are on a stack.
fn runs_without(name: &str, stack: &mut DataStack, room: u32) -> bool {
    if stack.depth() < room as usize {
        return false;
    }
    stack.drop_top(room as usize);
    run(name, stack) == Ok(())
}

/// Full stacks.
#[derive(Clone, Copy)]
struct FullRows;

impl Rows for FullRows {
    fn holds(&mut self, _alloc: Global, line: &str) -> Option<bool> {
        let (name, count) = (word(line, 0), natural(word(line, 1))?);
        let mut stack = fives(count)?;
        let is_full = finds_no_room(name, &mut stack, count);
        Some(is_full && runs_without(name, &mut stack, natural(word(line, 2))?))
    }
}

#[test]
fn full_stacks(rt: HostRuntime) {
    check(&rt, rt.alloc(), &mut FullRows, FULL);
}

#[test]
fn throws_are_listed() {
    calculations_throw_listed();
}
