//! Commands that the tests run, and what these leave on their outputs. The functions here have no contracts, so the
//! proof of a test carries nothing of the commands' own, which are long.
use crate::doubles::{Screen, blank_screen, reader_of, without_lines};
use of_arguments::{Request, Status, parse, status_of};
use of_asking::Answer;
use of_commands::answer;
use of_files::{Messages, answers, lines};
use of_runs::{Answerer, Outside};
use std::alloc::Global;
use std::io::{Read, Write};
use std::test::Fail;

/// What a command prints to, and what it says to.
#[derive(Drop)]
pub(crate) struct Outputs {
    pub(crate) out: Screen,
    pub(crate) errors: Screen,
}

/// Outputs to which nothing was written yet, where a write of what is printed fails.
pub(crate) fn blank_outputs(alloc: Global, fails_at: u32) -> Outputs {
    Outputs {
        out: blank_screen(alloc, fails_at),
        errors: blank_screen(alloc, 9999),
    }
}

/// What is done with a value, which is let go then. It is any value here: where a function has one as its own, its
/// proof goes through all that the value holds wherever the function may end.
pub(crate) fn lend<V: Drop, T, F: FnOnce(&mut V) -> T>(mut value: V, act: F) -> T
    requires { F.IsAlwaysCallable act }
{
    act(&mut value)
}

/// The text on a screen.
pub(crate) fn text_on(screen: &Screen) -> &str {
    std::str::from_utf8(&screen.text).unwrap_or("no text")
}

/// The number of a status, what is printed and what is said, with `|` between.
pub(crate) fn outcome(alloc: Global, code: u8, printed: &str, said: &str) -> Result<String, Fail> {
    Ok(format!(in alloc; "{code}|{printed}|{said}")?)
}

/// The same of what stands on outputs.
pub(crate) fn left(alloc: Global, code: u8, outputs: &Outputs) -> Result<String, Fail> {
    outcome(alloc, code, text_on(&outputs.out), text_on(&outputs.errors))
}

/// What is left by what is done on outputs to which nothing was written yet, and gives the number of a status.
pub(crate) fn left_by<F: FnOnce(&mut Outputs) -> u8>(
    alloc: Global,
    fails_at: u32,
    act: F,
) -> Result<String, Fail>
    requires { F.IsAlwaysCallable act }
{
    let mut outputs = blank_outputs(alloc, fails_at);
    let code = act(&mut outputs);
    left(alloc, code, &outputs)
}

/// The number of a status and what is printed, with `|` between.
pub(crate) fn printed(alloc: Global, code: u8, outputs: &Outputs) -> Result<String, Fail> {
    let text = text_on(&outputs.out);
    Ok(format!(in alloc; "{code}|{text}")?)
}

/// The console lines of a text, or the status of the fault that it has.
pub(crate) fn lines_in(
    alloc: Global,
    text: &str,
    errors: &mut Screen,
) -> Result<Vec<Vec<u8>>, Status> {
    let mut file = reader_of(text.as_bytes(), 9999);
    lines(alloc, "a.lines", &mut file, &mut Messages::new(errors))
}

/// The answers of a text, of which a read fails, or the status of the fault that it has.
pub(crate) fn answers_in(
    alloc: Global,
    text: &str,
    fails_at: u32,
    errors: &mut Screen,
) -> Result<Vec<Answer>, Status> {
    let mut file = reader_of(text.as_bytes(), fails_at);
    answers(alloc, "a.answers", &mut file, &mut Messages::new(errors))
}

/// The words of a command line.
pub(crate) fn words_of(alloc: Global, line: &str) -> Result<Vec<String>, Fail> {
    let mut words = Vec::new(alloc);
    for word in line.split(' ') {
        words.push(String::from_str(alloc, word)?)?;
    }
    Ok(words)
}

/// What the words of a command line ask for, or the status of words with which the program ends.
pub(crate) fn requested<'a>(
    alloc: Global,
    words: &'a [String],
) -> Result<Option<Request<'a>>, Status> {
    match parse(alloc, words) {
        Ok(request) => Ok(request),
        Err(error) => Err(status_of(&error)),
    }
}

/// Does what is asked for, and gives the number of the status.
pub(crate) fn answered<R: Read, W: Write, E: Write>(
    alloc: Global,
    request: Request<'_>,
    outside: Outside<'_>,
    file: &mut R,
    out: &mut W,
    errors: &mut E,
) -> u8 {
    let mut said = Messages::new(errors);
    answer(alloc, request, outside, file, out, &mut said).code()
}

/// Does what the words of a command line ask for, and gives the number of the status.
pub(crate) fn code_by<R: Read, W: Write, E: Write>(
    alloc: Global,
    words: &[String],
    outside: Outside<'_>,
    file: &mut R,
    out: &mut W,
    errors: &mut E,
) -> u8 {
    match requested(alloc, words) {
        Ok(Some(request)) => answered(alloc, request, outside, file, out, errors),
        Ok(None) => Status::Usage.code(),
        Err(status) => status.code(),
    }
}

/// Does what words ask for, behind the program's name, and gives the number of the status.
pub(crate) fn code_of<R: Read, W: Write, E: Write>(
    alloc: Global,
    words: &str,
    file: &mut R,
    out: &mut W,
    errors: &mut E,
) -> Result<u8, Fail> {
    let line = format!(in alloc; "ofw {words}")?;
    let words = words_of(alloc, line.as_str())?;
    let outside = without_lines(Answerer::Answers(&[]));
    Ok(code_by(alloc, &words, outside, file, out, errors))
}

/// The same where what is printed and said goes to outputs.
pub(crate) fn code_on<R: Read>(
    alloc: Global,
    words: &str,
    file: &mut R,
    outputs: &mut Outputs,
) -> Result<u8, Fail> {
    code_of(alloc, words, file, &mut outputs.out, &mut outputs.errors)
}
