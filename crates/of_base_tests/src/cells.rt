use crate::rows::{Rows, check, decimal, hexadecimal, word};
use of_cells::{Cell, Double, floored_division, joins_of_splits, splits_of_joins};
use std::alloc::Global;

/// What an operation on one cell gives; 0 for an unknown one.
fn of_one(name: &str, x: Cell) -> Cell {
    match name {
        "negate" => x.negate(),
        "abs" => x.abs(),
        "invert" => x.invert(),
        "byte1" => x.low_byte(),
        "byte2" => x.second_byte(),
        "byte3" => x.third_byte(),
        "byte4" => x.high_byte(),
        "low" => x.low_half(),
        "high" => x.high_half(),
        "wbflip" => x.flip_half(),
        "lwflip" => x.flip_halves(),
        "lbflip" => x.flip_bytes(),
        _ => Cell::ZERO,
    }
}

/// Operation, cell and result, worked out by hand.
const OF_ONE: &str = "\
negate 5 fffffffb
abs fffffffb 5
abs 80000000 80000000
invert 0 ffffffff
byte1 12345678 78
byte2 12345678 56
byte3 12345678 34
byte4 12345678 12
low 12345678 5678
high 12345678 1234
wbflip 12345678 7856
lwflip 12345678 56781234
lbflip 12345678 78563412
";

/// The cell at a place of a line.
fn cell(line: &str, place: usize) -> Option<Cell> {
    Some(Cell(hexadecimal(word(line, place))?))
}

/// Operations on one cell.
#[derive(Clone, Copy)]
struct OneCellRows;

impl Rows for OneCellRows {
    fn holds(&mut self, _alloc: Global, line: &str) -> Option<bool> {
        let x = cell(line, 1)?;
        Some(of_one(word(line, 0), x) == cell(line, 2)?)
    }
}

#[test]
fn one_cell(rt: HostRuntime) {
    check(&rt, rt.alloc(), &mut OneCellRows, OF_ONE);
}

/// What an operation on two cells gives, the divisor being no zero; 0 for an unknown one.
fn of_two(name: &str, x: Cell, y: Cell) -> Cell {
    match name {
        "+" => x.add(y),
        "-" => x.sub(y),
        "*" => x.mul(y),
        "min" => x.min(y),
        "max" => x.max(y),
        "and" => x.and(y),
        "or" => x.or(y),
        "xor" => x.xor(y),
        "lshift" => x.shift_left(y),
        "rshift" => x.shift_right(y),
        ">>a" => x.shift_right_keeping_sign(y),
        "bwjoin" => Cell::from_two_bytes(x, y),
        "wljoin" => Cell::from_halves(x, y),
        _ => Cell::ZERO,
    }
}

/// Operation, two cells and result, worked out by hand.
const OF_TWO: &str = "\
+ ffffffff 2 1
- 1 2 ffffffff
* 10000 10001 10000
min fffffffb 3 fffffffb
max fffffffb 3 3
and c a 8
or c a e
xor c a 6
lshift 3 1f 80000000
lshift 3 20 0
rshift 80000000 1f 1
rshift 80000000 20 0
>>a 80000000 1e fffffffe
>>a 80000000 63 ffffffff
bwjoin 178 56 5678
wljoin 15678 1234 12345678
";

/// Operations on two cells.
#[derive(Clone, Copy)]
struct TwoCellRows;

impl Rows for TwoCellRows {
    fn holds(&mut self, _alloc: Global, line: &str) -> Option<bool> {
        let (x, y) = (cell(line, 1)?, cell(line, 2)?);
        Some(of_two(word(line, 0), x, y) == cell(line, 3)?)
    }
}

#[test]
fn two_cells(rt: HostRuntime) {
    check(&rt, rt.alloc(), &mut TwoCellRows, OF_TWO);
}

#[test]
fn four_bytes(rt: HostRuntime) {
    let joined = Cell::from_four_bytes(Cell(0x78), Cell(0x56), Cell(0x34), Cell(0x12));
    assert!(rt; joined == Cell(0x1234_5678));
}

/// Whether a comparison holds; false for an unknown one.
fn holds(name: &str, x: Cell, y: Cell) -> bool {
    match name {
        "<" => x.is_less(y),
        ">" => x.is_greater(y),
        "<=" => x.is_at_most(y),
        ">=" => x.is_at_least(y),
        "u<" => x.is_below(y),
        "u>" => x.is_above(y),
        "u<=" => x.is_not_above(y),
        "u>=" => x.is_not_below(y),
        _ => false,
    }
}

/// Comparison, and in turn whether it holds of -1 and 1, of 1 and -1, and of -1 and -1.
const COMPARISONS: &str = "\
< 1 0 0
> 0 1 0
<= 1 0 1
>= 0 1 1
u< 0 1 0
u> 1 0 0
u<= 0 1 1
u>= 1 0 1
";

/// Whether a comparison holds of two cells as the word at a place of a line says, 1 or 0.
fn is_as_said(line: &str, place: usize, x: Cell, y: Cell) -> bool {
    holds(word(line, 0), x, y) == (word(line, place) == "1")
}

/// Comparisons of two cells.
#[derive(Clone, Copy)]
struct ComparisonRows;

impl Rows for ComparisonRows {
    fn holds(&mut self, _alloc: Global, line: &str) -> Option<bool> {
        let (less, more) = (Cell(0xffff_ffff), Cell(1));
        let is_said = is_as_said(line, 1, less, more)
            && is_as_said(line, 2, more, less)
            && is_as_said(line, 3, less, less);
        Some(is_said)
    }
}

#[test]
fn comparisons(rt: HostRuntime) {
    check(&rt, rt.alloc(), &mut ComparisonRows, COMPARISONS);
}

#[test]
fn ranges_flags_and_signs(rt: HostRuntime) {
    let (less, more) = (Cell(0xffff_ffff), Cell(1));
    assert!(rt; more.is_between(less, more) && !Cell(2).is_between(less, more));
    assert!(rt; Cell(0).is_within(less, more) && !more.is_within(less, more));
    assert!(rt; Cell::flag(true) == Cell(0xffff_ffff) && Cell::flag(false) == Cell(0));
    assert!(rt; Cell(2).is_true() && !Cell::ZERO.is_true());
    assert!(rt; Cell(0xffff_fffe).signed() == -2);
}

/// Dividend, divisor, rest and quotient, as in the table of Forth 2012, 3.2.2.1.
const FLOORED: &str = "\
10 7 3 1
-10 7 4 -2
10 -7 -4 -2
-10 -7 -3 1
-2147483648 -1 0 -2147483648
";

/// The cell of the signed number at a place of a line, in decimal digits.
fn signed(line: &str, place: usize) -> Option<Cell> {
    let n = i32::try_from(decimal(word(line, place))?).ok()?;
    Some(Cell(n.cast_unsigned()))
}

/// Rest and quotient of a division, and those of the product by 1, the divisor being no zero.
fn parts(n: Cell, d: Cell) -> [Cell; 4] {
    if d.0 == 0 {
        return [Cell::ZERO; 4];
    }
    let one = Cell::ONE;
    [
        n.modulo(d),
        n.div(d),
        n.scaled_modulo(one, d),
        n.scaled_div(one, d),
    ]
}

/// Divisions.
#[derive(Clone, Copy)]
struct DivisionRows;

impl Rows for DivisionRows {
    fn holds(&mut self, _alloc: Global, line: &str) -> Option<bool> {
        let [rest, quotient, scaled_rest, scaled_quotient] = parts(
            signed(line, 0)?,
            signed(line, 1)?,
        );
        let (wanted_rest, wanted_quotient) = (signed(line, 2)?, signed(line, 3)?);
        let is_rest = rest == wanted_rest && scaled_rest == wanted_rest;
        Some(is_rest && quotient == wanted_quotient && scaled_quotient == wanted_quotient)
    }
}

#[test]
fn division(rt: HostRuntime) {
    check(&rt, rt.alloc(), &mut DivisionRows, FLOORED);
}

#[test]
fn unsigned_division(rt: HostRuntime) {
    let (n, d) = (Cell(0xffff_fff0), Cell(7));
    assert!(rt; n.unsigned_modulo(d) == Cell(2));
    assert!(rt; n.unsigned_div(d) == Cell(0x2492_4922));
    assert!(rt; Cell(0x7fff_ffff).scaled_div(Cell(6), d) == Cell(0x6db6_db6c));
}

#[test]
fn doubles(rt: HostRuntime) {
    let most = Double::product(Cell::TRUE, Cell::TRUE);
    assert!(rt; most.low == Cell(1) && most.high == Cell(0xffff_fffe));
    assert!(rt; most.number() == 0xffff_fffe_0000_0001);
    assert!(rt; Double::new(0x1_0000_0002).high == Cell(1));
    assert!(rt; Double::extend(Cell(0xffff_fffe)).high == Cell::TRUE);
}

#[test]
fn sums_and_parts_of_doubles(rt: HostRuntime) {
    let five = Double::new(0x5_0000_0003);
    assert!(rt; five.modulo(Cell(2)) == Cell(1) && five.div(Cell(2)) == Cell(0x8000_0001));
    let one = Double::new(1);
    assert!(rt; Double::new(u64::MAX).add(one) == Double::new(0));
    assert!(rt; Double::new(0).sub(one) == Double::new(u64::MAX));
}

#[test]
fn laws() {
    floored_division();
    joins_of_splits();
    splits_of_joins();
}
