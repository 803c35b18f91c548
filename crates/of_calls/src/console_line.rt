ghost use Rattle.std.specs.Prelude.{◌≡◌, ◌⊎◌, Ok, Err, IfOk, IfErr};
ghost use Rattle.of_calls.specs.ConsoleLines.{line_in};

use crate::fault::TextFault;
use crate::line::Line;
use of_source::Place;
use std::alloc::Global;

/// How many bytes a console line has at most.
const LONGEST: usize = 255;

/// A line as a console line.
#[tactic(auto, unfolding(crate::specs::ConsoleLines::line_in))]
pub(crate) fn line_in(alloc: Global, line: Line<'_>) -> Result<Vec<u8>, TextFault>
    ensures ok { IfOk result (λ bytes. line_in line.entry.number line.entry.text.now ≡ Ok bytes.items) }
    ensures err { IfErr result (λ f. (f ≡ TextFault.NoMemory)
        ⊎ (line_in line.entry.number line.entry.text.now ≡ Err f)) }
{
    if line.text.len() > LONGEST {
        return Err(TextFault::TooLong(Place {
            line: line.number,
            column: LONGEST + 1,
        }));
    }
    match line.text.to_vec(alloc) {
        Ok(bytes) => Ok(bytes),
        Err(_) => Err(TextFault::NoMemory),
    }
}
