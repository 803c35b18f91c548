//! `client`: a run, and then the replies to a client's calls.
ghost use Rattle.std.specs.Prelude.{◌≡◌, false, true, is_some, map, Ok, IfOk, IfErr, IfSome, OnOk, OnErr};
ghost use Rattle.std.specs.Io.KnownBytes.{Appends};
ghost use Rattle.std.specs.String.{string_bytes};
ghost use Rattle.of_client.specs.Services.{service_of};
ghost use Rattle.of_machine.specs.States.{reply_shown};
ghost use Rattle.of_commands.specs.Clients.{AnswersCalls, AnswersClient, PrintsCalls, bytes_shown};
ghost use Rattle.of_commands.specs.Clients.{reply_line, reply_lines, served_all};
ghost use Rattle.of_files.specs.Messages.{AppendsPart, bad_start_of};
ghost use Rattle.of_files.specs.Saying.{Said};
ghost use Rattle.of_files.specs.Faults.{is_done};
ghost use Rattle.of_commands.specs.Runs.{IsCut};

use crate::engine::{Run, explain_end, run_file};
use hex::encode;
use of_arguments::Status;
use of_client::{ClientCall, ClientReply};
use of_files::{Fault, Messages, read_calls, report, write_whole};
use of_machine::ScriptMachine;
use std::alloc::Global;
use std::io::{Read, Write};

/// What `client` was asked for.
#[derive(Clone, Copy)]
pub struct ClientRun<'a> {
    /// The run behind which the calls are answered.
    pub run: Run<'a>,
    /// The path of the file of calls.
    pub calls: &'a str,
}

/// Answers calls one after the other.
fn serve(machine: &mut ScriptMachine, calls: &[ClientCall]) -> Result<(), Fault>
    ensures ok { OnOk result (machine.new ≡ served_all machine.old (map service_of calls.now)) }
    ensures err { IfErr result (λ f. f ≡ Fault.NoMemory) }
{
    let mut rest = calls;
    while let [call, more @ ..] = rest {
        if machine.client(call).is_err() {
            return Err(Fault::NoMemory);
        }
        rest = more;
    }
    Ok(())
}

/// The bytes of a reply behind a space, where it has some.
fn bytes_shown(alloc: Global, bytes: &[u8]) -> Result<String, Fault>
    ensures ok { IfOk result (λ text. string_bytes text ≡ bytes_shown bytes.now) }
    ensures err { IfErr result (λ f. f ≡ Fault.NoMemory) }
{
    let mut text = String::new(alloc);
    if bytes.is_empty() {
        return Ok(text);
    }
    let Ok(digits) = encode(alloc, bytes) else {
        return Err(Fault::NoMemory);
    };
    if text.push(' ').is_err() || text.push_str(&digits).is_err() {
        return Err(Fault::NoMemory);
    }
    Ok(text)
}

/// A reply as a line: its number in 8 hexadecimal digits, and its bytes.
fn reply_line(alloc: Global, reply: &ClientReply) -> Result<String, Fault>
    ensures ok { IfOk result (λ line. string_bytes line ≡ reply_line (reply_shown reply.now)) }
    ensures err { IfErr result (λ f. f ≡ Fault.NoMemory) }
{
    let bytes = bytes_shown(alloc, &reply.bytes)?;
    let Ok(mut line) = encode(alloc, reply.number.0.to_be_bytes()) else {
        return Err(Fault::NoMemory);
    };
    if line.push_str(&bytes).is_err() || line.push('\n').is_err() {
        return Err(Fault::NoMemory);
    }
    Ok(line)
}

/// A line for each reply.
fn reply_lines(alloc: Global, replies: &[ClientReply]) -> Result<String, Fault>
    ensures ok { IfOk result (λ text. string_bytes text ≡ reply_lines (map reply_shown replies.now)) }
    ensures err { IfErr result (λ f. f ≡ Fault.NoMemory) }
{
    let mut text = String::new(alloc);
    let mut rest = replies;
    while let [reply, more @ ..] = rest {
        let line = reply_line(alloc, reply)?;
        if text.push_str(&line).is_err() {
            return Err(Fault::NoMemory);
        }
        rest = more;
    }
    Ok(text)
}

/// Answers calls, and prints a line for each reply.
fn print_replies<W: Write>(
    alloc: Global,
    machine: &mut ScriptMachine,
    calls: &[ClientCall],
    out: &mut W,
) -> Result<(), Fault>
    ensures ok { OnOk result (Appends (W.contents out.old) (W.contents out.new)
        (reply_lines (served_all machine.old (map service_of calls.now)).replies)) }
    ensures err { OnErr result (AppendsPart (W.contents out.old) (W.contents out.new)
        (reply_lines (served_all machine.old (map service_of calls.now)).replies)) }
    ensures fault { IfErr result IsCut }
{
    serve(machine, calls)?;
    let text = reply_lines(alloc, machine.replies())?;
    write_whole(out, text.as_bytes())
}

/// Runs the image of a file, prints what it prints and what calls are answered then, and explains how the run ended,
/// where that is asked for.
#[tactic(auto, using(crate::proofs::Faults::run_begins))]
fn run_calls<R: Read, W: Write, E: Write>(
    alloc: Global,
    run: Run<'_>,
    file: &mut R,
    calls: &[ClientCall],
    out: &mut W,
    errors: &mut Messages<E>,
) -> Result<Status, Fault>
    ensures printed { IfSome (R.remaining file.old) (λ bytes.
        PrintsCalls (map service_of calls.now) bytes run.entry.outside run.entry.limit
        (W.contents out.old) (W.contents out.new) result) }
    ensures silent { run.entry.explain ≡ false → errors.new ≡ errors.old }
    ensures unsaid { IfErr result (λ f. is_some (bad_start_of f) ≡ true → errors.new ≡ errors.old) }
{
    match run_file(alloc, run, file, out) {
        Ok((image, mut machine, end)) => match print_replies(alloc, &mut machine, calls, out) {
            Ok(()) => explain_end(alloc, run, &image, &machine, end, errors),
            Err(fault) => Err(fault),
        },
        Err(fault) => Err(fault),
    }
}

/// The same, with the status, and with the fault said on the error output.
#[tactic(auto, using(crate::proofs::Called::called_done))]
fn answer_calls<R: Read, W: Write, E: Write>(
    alloc: Global,
    run: Run<'_>,
    file: &mut R,
    calls: &[ClientCall],
    out: &mut W,
    errors: &mut Messages<E>,
) -> Status
    ensures answered { IfSome (R.remaining file.old) (λ bytes.
        AnswersCalls (map service_of calls.now) bytes run.entry.outside run.entry.limit
        (W.contents out.old) (W.contents out.new)
        (Said E.contents errors.old errors.new) result) }
    ensures silent { is_done result ≡ true → run.entry.explain ≡ false → errors.new ≡ errors.old }
{
    match run_calls(alloc, run, file, calls, out, errors) {
        Ok(status) => status,
        Err(fault) => report(run.image, fault, errors),
    }
}

/// Runs the image of a file for at most `limit` steps, answers the calls of another file, and gives the status of the
/// run. What the run printed is printed, and then a line for each reply: its number in 8 hexadecimal digits, and
/// behind a space its bytes, where it has some.
///
/// The questions of the run are answered by what it is given for that. The calls are read before the run begins. With
/// a fault of their file or of the image nothing is printed. What is wrong is said on the error output, behind the path
/// of the file that it is in; and how the run ended, where that is to be explained. Else nothing is said.
#[tactic(auto, using(crate::proofs::Called::answers))]
pub fn client<C: Read, R: Read, W: Write, E: Write>(
    alloc: Global,
    asked: &ClientRun<'_>,
    calls: &mut C,
    image: &mut R,
    out: &mut W,
    errors: &mut Messages<E>,
) -> Status
    ensures answered { IfSome (C.remaining calls.old) (λ text. IfSome (R.remaining image.old) (λ bytes.
        AnswersClient text bytes asked.now.run.outside asked.now.run.limit
        (W.contents out.old) (W.contents out.new)
        (Said E.contents errors.old errors.new) result)) }
    ensures silent { is_done result ≡ true → asked.now.run.explain ≡ false → errors.new ≡ errors.old }
{
    match read_calls(alloc, calls) {
        Ok(list) => answer_calls(alloc, asked.run, image, &list, out, errors),
        Err(fault) => report(asked.calls, fault, errors),
    }
}
