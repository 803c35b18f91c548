ghost use Rattle.std.specs.Prelude.{◌≡◌, IfErr, IfOk, None, OnOk, map};
ghost use Rattle.of_calls.specs.Scripts.{command_of};
ghost use Rattle.of_machine.specs.Runs.{script_refusal};
ghost use Rattle.of_machine.specs.States.{Refuses};
ghost use Rattle.of_script.specs.Scripts.{Debugs, Plays, PlaysWhole};

use crate::commands::carry_out;
use of_asking::Answer;
use of_calls::{ScriptCommand, ScriptFault};
use of_code::CodeStore;
use of_debug::Debugger;
use of_machine::loaded_machine;
use of_refusal::Refusal;
use std::alloc::Global;

/// What was printed under a script.
#[derive(Drop)]
pub struct Played {
    /// A line for each state that was shown, and behind a whole script the console bytes.
    pub text: Vec<u8>,
    /// Why the script was given up, if it was.
    pub wrong: Option<ScriptFault>,
}

/// Carries out the commands of a script, up to one that is given up.
///
/// Each `in`, `over`, `out` and `go` prints the state that it leads to, also where no step can be made. Where a script
/// is given up for memory, it is one of these: none was found for its steps, or for the text of its state.
#[tactic(auto, using(crate::proofs::PlayLemmas::plays))]
pub fn play<C: CodeStore>(
    alloc: Global,
    debugger: &mut Debugger<'_, C>,
    script: &[ScriptCommand],
) -> Played
    ensures { Plays 1 (map command_of script.now) debugger.old debugger.new result.text.items result.wrong }
{
    let mut text = Vec::new(alloc);
    let mut line = 1usize;
    let mut rest = script;
    while let Some((command, more)) = rest.split_first() {
        match carry_out(alloc, debugger, line, command) {
            Ok(said) => {
                if text.extend_from_slice(said.as_bytes()).is_err() {
                    return Played {
                        text,
                        wrong: Some(ScriptFault::NoMemory),
                    };
                }
            }
            Err(fault) => {
                return Played {
                    text,
                    wrong: Some(fault),
                };
            }
        }
        line += 1;
        rest = more;
    }
    Played { text, wrong: None }
}

/// The same with the console bytes behind the text of a whole script.
fn play_whole<C: CodeStore + Drop>(
    alloc: Global,
    mut debugger: Debugger<'_, C>,
    script: &[ScriptCommand],
) -> Played
    ensures { PlaysWhole (map command_of script.now) debugger.entry result.text.items result.wrong }
{
    let mut played = play(alloc, &mut debugger, script);
    let (_, machine) = debugger.shown();
    if played.wrong.is_none() && played.text.extend_from_slice(machine.console()).is_err() {
        played.wrong = Some(ScriptFault::NoMemory);
    }
    played
}

/// Runs an image for `/slot` on a new machine, for at most `limit` steps, under the commands of a script: the console
/// lines are handed in and the answers given as in a run. What is printed is a line for each state that is shown, and
/// behind a whole script what the machine printed. The script is given up at the first command that can't be carried
/// out.
///
/// ImageTooLong over 256 KiB, then LineTooLong where a line has more than 255 bytes, then BadStart where the header
/// can't be read, and NoMemory.
pub fn debug_image(
    alloc: Global,
    image: &[u8],
    lines: &[Vec<u8>],
    answers: &[Answer],
    limit: u64,
    script: &[ScriptCommand],
) -> Result<Played, Refusal>
    ensures accepted { OnOk result (script_refusal image.now (map (λ l. l.items) lines.now) ≡ None) }
    ensures ok { IfOk result (λ p. Debugs image.now (map (λ l. l.items) lines.now) answers.now limit
        (map command_of script.now) p.text.items p.wrong) }
    ensures err { IfErr result (λ e. Refuses (script_refusal image.now (map (λ l. l.items) lines.now)) e) }
{
    let machine = loaded_machine(alloc, image, lines)?;
    let debugger = Debugger::new(machine, lines, answers, &[], limit);
    Ok(play_whole(alloc, debugger, script))
}
