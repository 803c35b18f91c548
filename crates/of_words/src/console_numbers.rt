// The console's words over the data stack alone.

ghost use Rattle.std.specs.Prelude.{◌≡◌, ◌∷◌, false, true};
ghost use Rattle.of_words.specs.ConsoleWords.{decreased, doubled, increased, on_board, scaled, scaled_parts};
ghost use Rattle.of_calc.specs.Arithmetic.{arithmetic_entry};
ghost use Rattle.of_stacks.specs.Stacks.{Makes, within};

use of_board::Board;
use of_calc::calculate;
use of_cells::{Cell, Double};
use of_fcodes::ArithmeticWord;
use of_stacks::{Stop, Throw};

/// `1+` and `2+` ( x -- y ) add the number; -4 where the cell is missing
pub(crate) fn increase(by: Cell, board: &mut Board) -> Result<(), Stop>
    ensures value { Makes false (on_board board.old (increased by board.old.stack)) board.old board.new result }
    ensures ready { board.old.console.ready ≡ true → board.new.console.ready ≡ true }
{
    let x = board.stack.peek()?;
    board.stack.replace_top(x.add(by));
    Ok(())
}

/// `1-` and `2-` ( x -- y ) take the number away; -4 where the cell is missing
pub(crate) fn decrease(by: Cell, board: &mut Board) -> Result<(), Stop>
    ensures value { Makes false (on_board board.old (decreased by board.old.stack)) board.old board.new result }
    ensures ready { board.old.console.ready ≡ true → board.new.console.ready ≡ true }
{
    let x = board.stack.peek()?;
    board.stack.replace_top(x.sub(by));
    Ok(())
}

/// `true`, `false`, `struct` and `fcode-debug?` ( -- x ) push a cell; -3 where there is no room
pub(crate) fn push(x: Cell, board: &mut Board) -> Result<(), Stop>
    ensures value { Makes false (on_board board.old (within (x ∷ board.old.stack))) board.old board.new result }
    ensures ready { board.old.console.ready ≡ true → board.new.console.ready ≡ true }
{
    board.stack.try_push(x)?;
    Ok(())
}

/// `<<` and `>>` ( x u -- y ) are `lshift` and `rshift`, and `not` ( x -- y ) is `invert`; -4 where a cell is missing
pub(crate) fn calculate_on(word: ArithmeticWord, board: &mut Board) -> Result<(), Stop>
    ensures value { Makes false (on_board board.old (arithmetic_entry word board.old.stack))
        board.old board.new result }
    ensures ready { board.old.console.ready ≡ true → board.new.console.ready ≡ true }
{
    calculate(word, &mut board.stack)?;
    Ok(())
}

/// `s>d` ( n -- d ) makes a double of a signed cell; -4 where that is missing, -3 where there is no room
pub(crate) fn extend(board: &mut Board) -> Result<(), Stop>
    ensures value { Makes false (on_board board.old (doubled board.old.stack)) board.old board.new result }
    ensures ready { board.old.console.ready ≡ true → board.new.console.ready ≡ true }
{
    let n = board.stack.peek()?;
    board.stack.try_push(Double::extend(n).high)?;
    Ok(())
}

/// `*/` ( x y d -- quotient ) divides the product; -4 where a cell is missing, -10 where the divisor is 0
pub(crate) fn scale(board: &mut Board) -> Result<(), Stop>
    ensures value { Makes false (on_board board.old (scaled board.old.stack)) board.old board.new result }
    ensures ready { board.old.console.ready ≡ true → board.new.console.ready ≡ true }
{
    let (x, y, d) = board.stack.top_three()?;
    if d.0 == 0 {
        return Err(Stop::Thrown(Throw::DIVISION_BY_ZERO));
    }
    board.stack.drop_top(2);
    board.stack.replace_top(x.scaled_div(y, d));
    Ok(())
}

/// `*/mod` ( x y d -- rest quotient ) divides the product; -4 where a cell is missing, -10 where the divisor is 0
pub(crate) fn scale_with_rest(board: &mut Board) -> Result<(), Stop>
    ensures value { Makes false (on_board board.old (scaled_parts board.old.stack)) board.old board.new result }
    ensures ready { board.old.console.ready ≡ true → board.new.console.ready ≡ true }
{
    let (x, y, d) = board.stack.top_three()?;
    if d.0 == 0 {
        return Err(Stop::Thrown(Throw::DIVISION_BY_ZERO));
    }
    board.stack.drop_top(1);
    board.stack.replace_two(x.scaled_modulo(y, d));
    board.stack.push(x.scaled_div(y, d));
    Ok(())
}
