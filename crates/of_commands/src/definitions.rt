//! What `see` prints of the definitions that an image makes.
ghost use Rattle.std.specs.Prelude.{◌≡◌, ◌⊎◌, [], ◌∷◌, IfOk, IfErr};
ghost use Rattle.of_detok.specs.Definitions.{definitions_of};
ghost use Rattle.of_commands.specs.Definitions.{Sees, SeesShown, all_definitions, definition_text, dev_slot};
ghost use Rattle.of_commands.specs.Definitions.{shown_lines};
ghost use Rattle.of_runs.specs.Runs.{IsRefusedFor};

use of_cells::Cell;
use of_detok::definitions;
use of_dict::{CAPACITY, OwnWord};
use of_files::{Fault, refused};
use of_machine::{ScriptMachine, run_script};
use of_stream::StreamFault;
use std::alloc::Global;

/// How many steps the run of the definitions makes at most.
const MOST_STEPS: u64 = 1_000_000;

/// What `see` prints of a word that is a finished colon definition; of another one nothing.
fn definition_text(alloc: Global, machine: &ScriptMachine, xt: Cell) -> Result<Vec<u8>, Fault>
    ensures ok { IfOk result (λ text. text.items ≡ definition_text machine.now xt) }
    ensures err { IfErr result (λ f. f ≡ Fault.NoMemory) }
{
    if machine.items(xt).is_none() {
        return Ok(Vec::new(alloc));
    }
    match machine.see(alloc, xt) {
        Ok(text) => Ok(text),
        Err(_) => Err(Fault::NoMemory),
    }
}

/// What `see` prints of all own words that are finished colon definitions, in the order in which they were made.
fn all_definitions(alloc: Global, machine: &ScriptMachine) -> Result<Vec<u8>, Fault>
    ensures ok { IfOk result (λ text. text.items ≡ all_definitions machine.now) }
    ensures err { IfErr result (λ f. f ≡ Fault.NoMemory) }
{
    let mut text = Vec::new(alloc);
    for number in 0..machine.made().min(CAPACITY) {
        let definition = definition_text(alloc, machine, OwnWord(number as u32).xt())?;
        if text.extend_from_slice(&definition).is_err() {
            return Err(Fault::NoMemory);
        }
    }
    Ok(text)
}

/// What `see` prints of the definitions that the run of an image makes, behind `dev /slot`, so that the names of its
/// words are found; an image of no bytes isn't run.
fn see_definitions(alloc: Global, image: &[u8]) -> Result<Vec<u8>, Fault>
    ensures ok { IfOk result (λ text. Sees image.now text.items) }
    ensures err { IfErr result (λ f. IsRefusedFor image.now (dev_slot ∷ []) f ⊎ (f ≡ Fault.NoMemory)) }
{
    if image.is_empty() {
        return Ok(Vec::new(alloc));
    }
    let Ok(line) = Vec::from_slice(alloc, b"dev /slot") else {
        return Err(Fault::NoMemory);
    };
    match run_script(alloc, image, &[line], &[], &[], MOST_STEPS) {
        Ok((machine, _)) => all_definitions(alloc, &machine),
        Err(refusal) => Err(refused(image.len(), refusal)),
    }
}

/// What of an image is run to see its definitions, and what is wrong behind it, if anything.
fn shown_definitions(
    alloc: Global,
    image: &[u8],
    partial: bool,
) -> Result<(Vec<u8>, Option<StreamFault>), Fault>
    ensures ok { IfOk result (λ r. shown_lines partial (definitions_of image.now) ≡ (r.0.items, r.1)) }
    ensures err { IfErr result (λ f. f ≡ Fault.NoMemory) }
{
    match definitions(alloc, image) {
        Ok((_, Some(fault))) if !partial => Ok((Vec::new(alloc), Some(fault))),
        Ok(defining) => Ok(defining),
        Err(_) => Err(Fault::NoMemory),
    }
}

/// The definitions that are shown of an image, as `see` prints them, and what is wrong behind them, if anything.
pub(crate) fn list_definitions(
    alloc: Global,
    image: &[u8],
    partial: bool,
) -> Result<(Vec<u8>, Option<StreamFault>), Fault>
    ensures ok { IfOk result (λ r. SeesShown partial image.now (r.0.items, r.1)) }
    ensures err { IfErr result (λ f.
        IsRefusedFor (shown_lines partial (definitions_of image.now)).0 (dev_slot ∷ []) f ⊎ (f ≡ Fault.NoMemory)) }
{
    let (defining, wrong) = shown_definitions(alloc, image, partial)?;
    match see_definitions(alloc, &defining) {
        Ok(text) => Ok((text, wrong)),
        Err(fault) => Err(fault),
    }
}
