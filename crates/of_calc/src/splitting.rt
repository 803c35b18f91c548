ghost use Rattle.std.specs.Prelude.{◌≡◌};
ghost use Rattle.of_cells.specs.Outcomes.{Becomes};
ghost use Rattle.of_calc.specs.Splitting.{splitting_entry};

use of_cells::Cell;
use of_fcodes::SplittingWord;
use of_stacks::{DataStack, Throw};

// ( x -- y )
macro_rules! flipped {
    ($stack:ident, $operation:ident) => {{
        let x = $stack.peek()?;
        $stack.replace_top(x.$operation());
    }};
}

// ( x -- low high )
macro_rules! split_in_two {
    ($stack:ident, $low:ident, $high:ident) => {{
        let x = $stack.peek()?;
        $stack.room_for(1)?;
        $stack.replace_top(x.$low());
        $stack.push(x.$high());
    }};
}

// ( low high -- x )
macro_rules! joined {
    ($stack:ident, $join:ident) => {{
        let (low, high) = $stack.top_two()?;
        $stack.replace_two(Cell::$join(low, high));
    }};
}

/// Runs a word of the group Splitting over the data stack; a throw changes nothing.
///
/// -4 where a cell is missing, -3 where there is no room for the parts.
#[tactic(auto, unfolding(crate::specs::Splitting::splitting_entry))]
#[inline]
pub fn split(word: SplittingWord, stack: &mut DataStack) -> Result<(), Throw>
    ensures { Becomes (splitting_entry word stack.old) stack.old stack.new result }
{
    match word {
        SplittingWord::Lwsplit => split_in_two!(stack, low_half, high_half),
        SplittingWord::Wljoin => joined!(stack, from_halves),
        SplittingWord::Lbsplit => {
            let x = stack.peek()?;
            stack.room_for(3)?;
            stack.replace_top(x.low_byte());
            stack.push(x.second_byte());
            stack.push(x.third_byte());
            stack.push(x.high_byte());
        }
        SplittingWord::Bljoin => {
            let (low, second, third, high) = stack.top_four()?;
            stack.drop_top(3);
            stack.replace_top(Cell::from_four_bytes(low, second, third, high));
        }
        SplittingWord::Wbsplit => split_in_two!(stack, low_byte, second_byte),
        SplittingWord::Bwjoin => joined!(stack, from_two_bytes),
        SplittingWord::Wbflip => flipped!(stack, flip_half),
        SplittingWord::Lwflip => flipped!(stack, flip_halves),
        SplittingWord::Lbflip => flipped!(stack, flip_bytes),
    }
    Ok(())
}
