ghost use Rattle.std.specs.Prelude.{◌≡◌};
ghost use Rattle.of_calls.specs.Answers.{answer_in};

use crate::fault::TextFault;
use crate::line::{Line, is_same};
use of_asking::Answer;

/// The answer of a line.
#[tactic(auto, unfolding(crate::specs::Answers::answer_in))]
pub(crate) fn answer_in(line: Line<'_>) -> Result<Answer, TextFault>
    ensures { result ≡ answer_in line.entry.number line.entry.text.now }
{
    let word = line.word(0);
    if is_same(word, "v") {
        let number = line.number(1)?;
        line.ended(2, Answer::Value(number.0))
    } else if is_same(word, "done") {
        line.ended(1, Answer::Done)
    } else if is_same(word, "fault") {
        line.ended(1, Answer::BusFault)
    } else {
        Err(TextFault::Unknown(line.place(0)))
    }
}
