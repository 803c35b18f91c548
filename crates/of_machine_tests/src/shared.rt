//! Machines and texts that the tests share. The functions here have no contracts, so the proof of a test carries
//! nothing of the machine's own, which are long.
use hex::decode;
use of_asking::Answer;
use of_client::ClientCall;
use of_machine::{End, ScriptMachine, run_script, script_machine};
use std::alloc::Global;
use std::test::Fail;

/// Bytes from hexadecimal digits, among which blanks may stand.
pub(crate) fn bytes_of(alloc: Global, digits: &str) -> Result<Vec<u8>, Fail> {
    let packed: String = digits.chars().filter(|c| *c != ' ').collect(alloc)?;
    Ok(decode(alloc, packed)?)
}

/// Tokens, in such digits, as an image of them with a header.
pub(crate) fn image_of(alloc: Global, tokens: &str) -> Result<Vec<u8>, Fail> {
    bytes_of(
        alloc,
        format!(in alloc; "f108000000000000{tokens}")?.as_str(),
    )
}

/// A machine on which nothing ran yet.
pub(crate) fn new_machine(alloc: Global) -> Result<ScriptMachine, Fail> {
    Ok(script_machine(alloc)?)
}

/// What is done with a value, which is let go then. It is any value here: where a function has a machine as its own,
/// its proof goes through all that a machine holds wherever the function may end.
pub(crate) fn lend<V: Drop, T, F: FnOnce(&mut V) -> T>(mut value: V, act: F) -> T
    requires { F.IsAlwaysCallable act }
{
    act(&mut value)
}

/// What is done with a machine on which nothing ran yet.
pub(crate) fn on_machine<T, F: FnOnce(&mut ScriptMachine) -> Result<T, Fail>>(
    alloc: Global,
    act: F,
) -> Result<T, Fail>
    requires { F.IsAlwaysCallable act }
{
    lend(new_machine(alloc)?, act)
}

/// The same, if memory is found for a machine.
pub(crate) fn on_machine_if_room<T, F: FnOnce(&mut ScriptMachine) -> T>(
    alloc: Global,
    act: F,
) -> Option<T>
    requires { F.IsAlwaysCallable act }
{
    match script_machine(alloc) {
        Ok(machine) => Some(lend(machine, act)),
        Err(_) => None,
    }
}

/// Loads an image for the node at a path.
pub(crate) fn load(machine: &mut ScriptMachine, image: &[u8], path: &str) -> Result<(), Fail> {
    machine.load(image, path)?;
    Ok(())
}

/// Loads an image of tokens for the node at a path.
pub(crate) fn load_tokens(
    alloc: Global,
    machine: &mut ScriptMachine,
    tokens: &str,
    path: &str,
) -> Result<(), Fail> {
    let image = image_of(alloc, tokens)?;
    load(machine, &image, path)
}

/// Makes so many steps at most.
pub(crate) fn run_on(machine: &mut ScriptMachine, limit: u64) -> Result<(), Fail> {
    machine.run(limit)?;
    Ok(())
}

/// A machine on which something ran, and how that ended.
pub(crate) type Run = (ScriptMachine, End);

/// The run of an image for `/slot`, whose questions get these answers, with these clients.
pub(crate) fn run_with(
    alloc: Global,
    image: &[u8],
    answers: &[Answer],
    calls: &[(u64, ClientCall)],
    limit: u64,
) -> Result<Run, Fail> {
    Ok(run_script(alloc, image, &[], answers, calls, limit)?)
}

/// What is seen of a machine on which an image has run for `/slot`, for so many steps at most, and of the end.
pub(crate) fn after_run<T, F: FnOnce(&mut Run) -> Result<T, Fail>>(
    alloc: Global,
    image: &[u8],
    limit: u64,
    see: F,
) -> Result<T, Fail>
    requires { F.IsAlwaysCallable see }
{
    after_answers(alloc, image, &[], limit, see)
}

/// The same where questions are answered.
pub(crate) fn after_answers<T, F: FnOnce(&mut Run) -> Result<T, Fail>>(
    alloc: Global,
    image: &[u8],
    answers: &[Answer],
    limit: u64,
    see: F,
) -> Result<T, Fail>
    requires { F.IsAlwaysCallable see }
{
    lend(run_with(alloc, image, answers, &[], limit)?, see)
}

/// A byte as a character, an end of line as `$`.
pub(crate) fn shown_byte(byte: u8) -> char {
    if byte == b'\n' { '$' } else { char::from(byte) }
}

/// Appends characters, an end of line as `$`.
pub(crate) fn push_bytes(text: &mut String, bytes: &[u8]) -> Result<(), Fail> {
    for byte in bytes {
        text.push(shown_byte(*byte))?;
    }
    Ok(())
}

/// What is on the console, an end of line as `$`.
pub(crate) fn printed(alloc: Global, machine: &ScriptMachine) -> Result<String, Fail> {
    let mut text = String::new(alloc);
    push_bytes(&mut text, machine.console())?;
    Ok(text)
}
