//! What answers the questions of a run, from a file: answers, or the devices of a board.
ghost use Rattle.std.specs.Prelude.{◌≡◌, Ok, IfOk, IfErr, IfSome, OnOk};
ghost use Rattle.of_calls.specs.Answers.{parsed_answers};
ghost use Rattle.of_calls.specs.Boards.{parsed_board};
ghost use Rattle.of_files.specs.Handed.{FaultsAnswers, FaultsAnswersWith, FaultsBoard, FaultsBoardWith};

use crate::fault::{Fault, no_answers, no_board};
use crate::input::read_whole;
use crate::messages::Messages;
use crate::output::report;
use of_arguments::Status;
use of_asking::Answer;
use of_calls::{parse_answers, parse_board};
use of_devices::Part;
use std::alloc::Global;
use std::io::{Read, Write};

/// The answers of a file.
#[tactic(auto, using(crate::proofs::Replies::answers_read, crate::proofs::Replies::answers_refused))]
fn read_answers<R: Read>(alloc: Global, file: &mut R) -> Result<Vec<Answer>, Fault>
    ensures ok { IfOk result (λ answers. IfSome (R.remaining file.old) (λ text.
        parsed_answers text ≡ Ok answers.items)) }
    ensures err { IfErr result (λ f. IfSome (R.remaining file.old) (λ text. FaultsAnswers text f)) }
{
    let text = read_whole(alloc, file)?;
    match parse_answers(alloc, &text) {
        Ok(answers) => Ok(answers),
        Err(fault) => Err(no_answers(fault)),
    }
}

/// The answers of the file at a path, for a run, or the status of the fault that the file has.
///
/// The fault is said on the error output, behind the path: of a text that has no answers with line and column.
pub fn answers<R: Read, E: Write>(
    alloc: Global,
    path: &str,
    file: &mut R,
    errors: &mut Messages<E>,
) -> Result<Vec<Answer>, Status>
    ensures ok { IfOk result (λ answers. IfSome (R.remaining file.old) (λ text.
        parsed_answers text ≡ Ok answers.items)) }
    ensures silent { OnOk result (errors.new ≡ errors.old) }
    ensures err { IfErr result (λ s. IfSome (R.remaining file.old) (λ text. FaultsAnswersWith text s)) }
{
    match read_answers(alloc, file) {
        Ok(answers) => Ok(answers),
        Err(fault) => Err(report(path, fault, errors)),
    }
}

/// The devices of a file.
#[tactic(auto, using(crate::proofs::Replies::board_read, crate::proofs::Replies::board_refused))]
fn read_board<R: Read>(alloc: Global, file: &mut R) -> Result<Vec<Part>, Fault>
    ensures ok { IfOk result (λ parts. IfSome (R.remaining file.old) (λ text.
        parsed_board text ≡ Ok parts.items)) }
    ensures err { IfErr result (λ f. IfSome (R.remaining file.old) (λ text. FaultsBoard text f)) }
{
    let text = read_whole(alloc, file)?;
    match parse_board(alloc, &text) {
        Ok(parts) => Ok(parts),
        Err(fault) => Err(no_board(fault)),
    }
}

/// The devices of the file at a path, for a run, or the status of the fault that the file has.
///
/// The fault is said on the error output, behind the path: of a text that has no devices with line and column.
pub fn board<R: Read, E: Write>(
    alloc: Global,
    path: &str,
    file: &mut R,
    errors: &mut Messages<E>,
) -> Result<Vec<Part>, Status>
    ensures ok { IfOk result (λ parts. IfSome (R.remaining file.old) (λ text.
        parsed_board text ≡ Ok parts.items)) }
    ensures silent { OnOk result (errors.new ≡ errors.old) }
    ensures err { IfErr result (λ s. IfSome (R.remaining file.old) (λ text. FaultsBoardWith text s)) }
{
    match read_board(alloc, file) {
        Ok(parts) => Ok(parts),
        Err(fault) => Err(report(path, fault, errors)),
    }
}
