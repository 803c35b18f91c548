ghost use Rattle.std.specs.Prelude.{◌≡◌, ◌≢◌};
ghost use Rattle.of_cells.specs.Outcomes.{Becomes};
ghost use Rattle.of_calc.specs.Arithmetic.{arithmetic_entry, calculation};
ghost use Rattle.of_calc.specs.Shapes.{made, shape_of, of_one, of_two, quotient_of, rest_of, wide_of, wide_quotient_of};
ghost use Rattle.of_calc.specs.Shapes.{wide_rest_of, of_doubles};

use crate::shapes::Shape;
use of_cells::{Cell, Double};
use of_fcodes::ArithmeticWord;
use of_stacks::{DataStack, Throw};

/// What the word takes and leaves.
#[tactic(auto, unfolding(crate::specs::Arithmetic::calculation))]
#[inline]
fn shape_of(word: ArithmeticWord) -> Shape
    ensures { result ≡ shape_of (calculation word) }
{
    match word {
        ArithmeticWord::Plus => Shape::Two,
        ArithmeticWord::Minus => Shape::Two,
        ArithmeticWord::Times => Shape::Two,
        ArithmeticWord::And => Shape::Two,
        ArithmeticWord::Or => Shape::Two,
        ArithmeticWord::Xor => Shape::Two,
        ArithmeticWord::Min => Shape::Two,
        ArithmeticWord::Max => Shape::Two,
        ArithmeticWord::Slash => Shape::Quotient,
        ArithmeticWord::Mod => Shape::Quotient,
        ArithmeticWord::SlashMod => Shape::Parts,
        ArithmeticWord::UnsignedSlashMod => Shape::Parts,
        ArithmeticWord::Invert => Shape::One,
        ArithmeticWord::Negate => Shape::One,
        ArithmeticWord::Abs => Shape::One,
        ArithmeticWord::Half => Shape::One,
        ArithmeticWord::UnsignedHalf => Shape::One,
        ArithmeticWord::Twice => Shape::One,
        ArithmeticWord::LeftShift => Shape::Two,
        ArithmeticWord::RightShift => Shape::Two,
        ArithmeticWord::SignedShift => Shape::Two,
        ArithmeticWord::WideTimes => Shape::Wide,
        ArithmeticWord::WideSlashMod => Shape::WideParts,
        ArithmeticWord::DoublePlus => Shape::Doubles,
        ArithmeticWord::DoubleMinus => Shape::Doubles,
    }
}

/// What the word makes of a cell; words of other shapes are not asked.
#[tactic(auto, unfolding(crate::specs::Arithmetic::calculation))]
#[inline]
fn of_one(word: ArithmeticWord, x: Cell) -> Cell
    ensures { result ≡ of_one (calculation word) x }
{
    match word {
        ArithmeticWord::Invert => x.invert(),
        ArithmeticWord::Negate => x.negate(),
        ArithmeticWord::Abs => x.abs(),
        ArithmeticWord::Half => x.shift_right_keeping_sign(Cell::ONE),
        ArithmeticWord::UnsignedHalf => x.shift_right(Cell::ONE),
        ArithmeticWord::Twice => x.shift_left(Cell::ONE),
        _ => x,
    }
}

/// What the word makes of two cells; words of other shapes are not asked.
#[tactic(auto, unfolding(crate::specs::Arithmetic::calculation))]
#[inline]
fn of_two(word: ArithmeticWord, x: Cell, y: Cell) -> Cell
    ensures { result ≡ of_two (calculation word) x y }
{
    match word {
        ArithmeticWord::Plus => x.add(y),
        ArithmeticWord::Minus => x.sub(y),
        ArithmeticWord::Times => x.mul(y),
        ArithmeticWord::And => x.and(y),
        ArithmeticWord::Or => x.or(y),
        ArithmeticWord::Xor => x.xor(y),
        ArithmeticWord::Min => x.min(y),
        ArithmeticWord::Max => x.max(y),
        ArithmeticWord::LeftShift => x.shift_left(y),
        ArithmeticWord::RightShift => x.shift_right(y),
        ArithmeticWord::SignedShift => x.shift_right_keeping_sign(y),
        _ => x,
    }
}

/// The quotient that the word gives; words of other shapes are not asked.
#[tactic(auto, unfolding(crate::specs::Arithmetic::calculation))]
#[inline]
fn quotient_of(word: ArithmeticWord, n: Cell, d: Cell) -> Cell
    requires { d.0 ≢ 0 }
    ensures { result ≡ quotient_of (calculation word) n d }
{
    match word {
        ArithmeticWord::Slash => n.div(d),
        ArithmeticWord::Mod => n.modulo(d),
        ArithmeticWord::SlashMod => n.div(d),
        ArithmeticWord::UnsignedSlashMod => n.unsigned_div(d),
        _ => n,
    }
}

/// The rest that the word gives; words of other shapes are not asked.
#[tactic(auto, unfolding(crate::specs::Arithmetic::calculation))]
#[inline]
fn rest_of(word: ArithmeticWord, n: Cell, d: Cell) -> Cell
    requires { d.0 ≢ 0 }
    ensures { result ≡ rest_of (calculation word) n d }
{
    match word {
        ArithmeticWord::SlashMod => n.modulo(d),
        ArithmeticWord::UnsignedSlashMod => n.unsigned_modulo(d),
        _ => n,
    }
}

/// The double that the word makes of two cells; words of other shapes are not asked.
#[tactic(auto, unfolding(crate::specs::Arithmetic::calculation))]
fn wide_of(word: ArithmeticWord, x: Cell, y: Cell) -> Double
    ensures { result ≡ wide_of (calculation word) x y }
{
    match word {
        ArithmeticWord::WideTimes => Double::product(x, y),
        _ => Double { low: x, high: y },
    }
}

/// The quotient of a double that the word gives; words of other shapes are not asked.
#[tactic(auto, unfolding(crate::specs::Arithmetic::calculation))]
fn wide_quotient_of(word: ArithmeticWord, n: Double, d: Cell) -> Cell
    requires { d.0 ≢ 0 }
    ensures { result ≡ wide_quotient_of (calculation word) n d }
{
    match word {
        ArithmeticWord::WideSlashMod => n.div(d),
        _ => d,
    }
}

/// The rest of a double that the word gives; words of other shapes are not asked.
#[tactic(auto, unfolding(crate::specs::Arithmetic::calculation))]
fn wide_rest_of(word: ArithmeticWord, n: Double, d: Cell) -> Cell
    requires { d.0 ≢ 0 }
    ensures { result ≡ wide_rest_of (calculation word) n d }
{
    match word {
        ArithmeticWord::WideSlashMod => n.modulo(d),
        _ => d,
    }
}

/// The double that the word makes of two; words of other shapes are not asked.
#[tactic(auto, unfolding(crate::specs::Arithmetic::calculation))]
#[inline]
fn of_doubles(word: ArithmeticWord, x: Double, y: Double) -> Double
    ensures { result ≡ of_doubles (calculation word) x y }
{
    match word {
        ArithmeticWord::DoublePlus => x.add(y),
        ArithmeticWord::DoubleMinus => x.sub(y),
        _ => x,
    }
}

/// ( n d -- rest quotient )
#[inline(never)]
fn divide_with_rest(word: ArithmeticWord, stack: &mut DataStack) -> Result<(), Throw>
    ensures { Becomes (made Shape.Parts (calculation word) stack.old) stack.old stack.new result }
{
    let (n, d) = stack.top_two()?;
    if d.0 == 0 {
        return Err(Throw::DIVISION_BY_ZERO);
    }
    stack.replace_two(rest_of(word, n, d));
    stack.push(quotient_of(word, n, d));
    Ok(())
}

/// ( x y -- d )
#[inline(never)]
fn multiply_wide(word: ArithmeticWord, stack: &mut DataStack) -> Result<(), Throw>
    ensures { Becomes (made Shape.Wide (calculation word) stack.old) stack.old stack.new result }
{
    let (x, y) = stack.top_two()?;
    let product = wide_of(word, x, y);
    stack.replace_two(product.low);
    stack.push(product.high);
    Ok(())
}

/// ( d u -- rest quotient )
#[inline(never)]
fn divide_wide(word: ArithmeticWord, stack: &mut DataStack) -> Result<(), Throw>
    ensures { Becomes (made Shape.WideParts (calculation word) stack.old) stack.old stack.new result }
{
    let (low, high, divisor) = stack.top_three()?;
    if divisor.0 == 0 {
        return Err(Throw::DIVISION_BY_ZERO);
    }
    let dividend = Double { low, high };
    stack.drop_top(3);
    stack.push(wide_rest_of(word, dividend, divisor));
    stack.push(wide_quotient_of(word, dividend, divisor));
    Ok(())
}

/// ( d d -- d )
#[inline(never)]
fn calculate_doubles(word: ArithmeticWord, stack: &mut DataStack) -> Result<(), Throw>
    ensures { Becomes (made Shape.Doubles (calculation word) stack.old) stack.old stack.new result }
{
    let (low, high, other_low, other_high) = stack.top_four()?;
    let other = Double {
        low: other_low,
        high: other_high,
    };
    let answer = of_doubles(word, Double { low, high }, other);
    stack.drop_top(4);
    stack.push(answer.low);
    stack.push(answer.high);
    Ok(())
}

/// Runs a word of a shape.
#[inline]
fn calculate_shape(shape: Shape, word: ArithmeticWord, stack: &mut DataStack) -> Result<(), Throw>
    ensures { Becomes (made shape (calculation word) stack.old) stack.old stack.new result }
{
    match shape {
        Shape::One => {
            let x = stack.peek()?;
            stack.replace_top(of_one(word, x));
        }
        Shape::Two => {
            let (x, y) = stack.top_two()?;
            stack.replace_two(of_two(word, x, y));
        }
        Shape::Quotient => {
            let (n, d) = stack.top_two()?;
            if d.0 == 0 {
                return Err(Throw::DIVISION_BY_ZERO);
            }
            stack.replace_two(quotient_of(word, n, d));
        }
        Shape::Parts => divide_with_rest(word, stack)?,
        Shape::Wide => multiply_wide(word, stack)?,
        Shape::WideParts => divide_wide(word, stack)?,
        Shape::Doubles => calculate_doubles(word, stack)?,
    }
    Ok(())
}

/// Runs a word of the group Arithmetic over the data stack; a throw changes nothing.
///
/// -4 where a cell is missing, and then -10 where a divisor is 0.
#[tactic(auto, using(crate::proofs::ShapeLemmas::calculated_made))]
#[inline]
pub fn calculate(word: ArithmeticWord, stack: &mut DataStack) -> Result<(), Throw>
    ensures { Becomes (arithmetic_entry word stack.old) stack.old stack.new result }
{
    calculate_shape(shape_of(word), word, stack)
}
