//! Images under the scripts of a debugger.
use crate::doubles::{Screen, reader_of};
use crate::shared::{Outputs, answers_in, blank_outputs, left, lend, lines_in, printed};
use crate::tables::{Rows, agree, check, number, replaced};
use of_arguments::Status;
use of_asking::Answer;
use of_calls::ScriptCommand;
use of_commands::{DebugRun, debug};
use of_files::{Messages, rom, script};
use std::alloc::Global;
use std::io::Write;
use std::process::Abort;
use std::test::Fail;

/// The name of an image, console lines, answers, the limit and a script, with `,` for a newline; the number of the
/// status; and what is printed and said, with `/` for a newline.
const CASES: &str = "\
five|||99|in,in,over,go 9,in|0|@1 [ 2 ]/@2 [ 2 3 ]/@3 [ 5 ]/@5 [ ]/@5 [ ]/5 |
five|||0|in,over,out,go 3,go 0|0|@0 [ ]/@0 [ ]/@0 [ ]/@0 [ ]/@0 [ ]/|
five|||99|go 0,go 2,go 0|0|@0 [ ]/@2 [ 2 3 ]/@2 [ 2 3 ]/|
five|7||99|out,out,out|0|@5 [ ]/@7 [ 7 ]/@7 [ 7 ]/5 |
five|||99||0||
five|||99|in,jump|1||ofw: a.script:2:1: unknown command/
five|||99|in,,in|1||ofw: a.script:2:1: unknown command/
five|||99|go a|1||ofw: a.script:1:4: bad number: decimal digits up to 4294967295/
five|||99|go|1||ofw: a.script:1:3: bad number: decimal digits up to 4294967295/
five|||99|in 1|1||ofw: a.script:1:4: more than the command takes/
five|||99|in,break t 0,in|1|@1 [ 2 ]/|ofw: a.script:2: no such word/
five|||99|go 9,break t 0|1|@5 [ ]/|ofw: a.script:2: no such word/
five|||99|in,clear #800 0,in|1|@1 [ 2 ]/|ofw: a.script:2: no such word/
five|||99|break #1000 0|1||ofw: a.script:1: no such word/
five|||99|break dup 0|1||ofw: a.script:1: no colon definition/
five|||99|clear #1e 0|1||ofw: a.script:1: no colon definition/
bus||v 2a|99|in,in,in|0|@1 [ 80000000 ]/@2 [ 2a ]/@3 [ ]/2a |
bus|||99|in,in,go 9|0|@1 [ 80000000 ]/@1 [ 80000000 ]/@1 [ 80000000 ]/|
bus||done|99|go 9,over|0|@1 [ 80000000 ]/@1 [ 80000000 ]/|
bad|||99|in|1||ofw: bad start byte 39/
loops|||99|go 17,break #800 7,go 100,go 100,go 100,go 100|0|\
@17 [ 5 ]/@24 [ 4 ffffffff ]/@33 [ 3 ffffffff ]/@42 [ 2 0 ]/@46 [ ]/2 |
loops|||99|go 17,out,in,over|0|@17 [ 5 ]/@44 [ 2 ]/@45 [ ]/@46 [ ]/2 |
loops|||99|go 16,over,in|0|@16 [ 5 ]/@44 [ 2 ]/@45 [ ]/2 |
loops|||99|go 20,break #800 7,go 100|0|@20 [ 5 1 ]/@24 [ 4 ffffffff ]/|
loops|||99|go 17,break #800 7,break #800 7,clear #800 7,clear #800 7,go 100|0|@17 [ 5 ]/@46 [ ]/2 |
loops|||99|go 17,break #800 7,break #800 9,clear #800 7,go 100,over|0|@17 [ 5 ]/@43 [ 2 ]/@44 [ 2 ]/|
loops|||99|go 17,break #800 7,out|0|@17 [ 5 ]/@44 [ 2 ]/|
loops|||20|go 100,in,out|0|@20 [ 5 1 ]/@20 [ 5 1 ]/@20 [ 5 1 ]/|
loops|||99|break #800 0|1||ofw: a.script:1: no such word/
loops|||99|go 17,break #800 10|1|@17 [ 5 ]/|ofw: a.script:2: no such item/
loops|||99|go 17,clear #800 10|1|@17 [ 5 ]/|ofw: a.script:2: no such item/
empty|: t 1 2 3 4 5 6 7 8 9 a b c d e f 10 11 ;||99|\
go 20,break t 0,break t 1,break t 2,break t 3,break t 4,break t 5,break t 6,break t 7,break t 8,break t 9,break t 10,\
break t 11,break t 12,break t 13,break t 14,break t 15,break t 3,break t 16,in|1|\
@20 [ ]/|ofw: a.script:19: too many marks/";

/// The image of a name: `2 3 + .`, a read of a device that is printed, one that begins with no start byte, nothing, and
/// `: t begin dup while 1- dup 2 <> while repeat then ; 5 t .`
fn image_of(name: &str) -> &str {
    match name {
        "five" => "f108020a0000000da7a81e9d00",
        "bus" => "f108016300000011108000000002349d00",
        "bad" => "3908000000000000",
        "loops" =>
            "f108097e00000028b50800b7b14714000fa61f47a73d14000613fff3b2b2c2100000000508009d00",
        _ => "f10800000000000900",
    }
}

/// What was read of a file without a fault.
fn had<T: Drop>(read: Result<T, Status>) -> Result<T, Fail> {
    match read {
        Ok(read) => Ok(read),
        Err(_) => Err(Fail::new("a file with a fault")),
    }
}

/// A field of a case, by its place.
pub(crate) fn field(case: &str, place: usize) -> &str {
    case.split('|').nth(place).unwrap_or("")
}

/// The image of digits.
fn image_in(alloc: Global, digits: &str, errors: &mut Screen) -> Result<Vec<u8>, Status> {
    let mut file = reader_of(digits.as_bytes(), 9999);
    rom(alloc, "a.hex", &mut file, &mut Messages::new(errors))
}

/// The commands of a script.
fn script_in(alloc: Global, text: &str, errors: &mut Screen) -> Result<Vec<ScriptCommand>, Status> {
    let mut file = reader_of(text.as_bytes(), 9999);
    script(alloc, "a.script", &mut file, &mut Messages::new(errors))
}

/// What is run under a script.
#[derive(Drop)]
pub(crate) struct Subject {
    pub(crate) image: Vec<u8>,
    pub(crate) lines: Vec<Vec<u8>>,
    pub(crate) answers: Vec<Answer>,
}

/// What a case says that is run, each part from its file.
pub(crate) fn subject_of(alloc: Global, case: &str, errors: &mut Screen) -> Result<Subject, Fail> {
    Ok(Subject {
        image: had(image_in(alloc, image_of(field(case, 0)), errors))?,
        lines: had(lines_in(alloc, field(case, 1), errors))?,
        answers: had(answers_in(alloc, field(case, 2), 9999, errors))?,
    })
}

/// Runs an image under commands, and gives the number of the status.
fn debugged<W: Write, E: Write>(
    alloc: Global,
    asked: DebugRun<'_>,
    out: &mut W,
    errors: &mut E,
) -> u8 {
    let mut said = Messages::new(errors);
    debug(alloc, asked, out, &mut said).code()
}

/// Runs what a case says under commands, and gives the number of the status.
fn code_under(
    alloc: Global,
    subject: &Subject,
    limit: u32,
    commands: &[ScriptCommand],
    outputs: &mut Outputs,
) -> u8 {
    let asked = DebugRun {
        path: "a.hex",
        image: &subject.image,
        lines: &subject.lines,
        answers: &subject.answers,
        limit: u64::from(limit),
        script: "a.script",
        commands,
    };
    let Outputs { out, errors } = outputs;
    debugged(alloc, asked, out, errors)
}

/// Runs what a case says under its script, and gives the number of the status.
fn code_by(alloc: Global, subject: &Subject, limit: u32, text: &str, outputs: &mut Outputs) -> u8 {
    match script_in(alloc, text, &mut outputs.errors) {
        Ok(commands) => code_under(alloc, subject, limit, &commands, outputs),
        Err(status) => status.code(),
    }
}

/// Runs the image of a case under its script, and gives the number of the status.
fn run(alloc: Global, case: &str, outputs: &mut Outputs) -> Result<u8, Fail> {
    let limit = number(field(case, 3))?;
    let text = replaced(alloc, field(case, 4), ",", "\n")?;
    let subject = subject_of(alloc, case, &mut outputs.errors)?;
    Ok(code_by(alloc, &subject, limit, text.as_str(), outputs))
}

/// What a case leaves on outputs.
fn left_by(alloc: Global, case: &str, outputs: &mut Outputs) -> Result<String, Fail> {
    let code = run(alloc, case, outputs)?;
    left(alloc, code, outputs)
}

/// Images under scripts.
struct ScriptRows;

impl Rows for ScriptRows {
    fn given(alloc: Global, line: &str) -> Result<(String, String), Fail> {
        let left = lend(
            blank_outputs(alloc, 9999),
            |outputs| left_by(alloc, line, outputs),
        )?;
        let wanted = line.splitn(6, '|').nth(5).unwrap_or("");
        Ok((left, replaced(alloc, wanted, "/", "\n")?))
    }
}

#[test]
fn scripts(rt: HostRuntime) -> Result<(), Fail> {
    check::<ScriptRows, _>(&rt, rt.alloc(), CASES)
}

/// A case, and what is printed of it, 18 bytes.
const WRITTEN: &str = "five|||99|go 3,out,";

const WHOLE: &str = "@3 [ 5 ]\n@5 [ ]\n5 ";

/// What is printed of a case, with the number of the status.
fn printed_by(alloc: Global, case: &str, outputs: &mut Outputs) -> Result<String, Fail> {
    let code = run(alloc, case, outputs)?;
    printed(alloc, code, outputs)
}

/// The first bytes of a text.
fn first_of(text: &str, count: u32) -> &str {
    let bytes = text.as_bytes();
    std::str::from_utf8(bytes.get(..count as usize).unwrap_or(bytes)).unwrap_or("")
}

/// Sees that what went out is the first of what is printed, where a write fails.
fn check_cut<R: Abort>(rt: &R, alloc: Global, fails_at: u32) -> Result<(), Fail> {
    let printed = lend(
        blank_outputs(alloc, fails_at),
        |outputs| printed_by(alloc, WRITTEN, outputs),
    )?;
    let wanted = format!(in alloc; "1|{}", first_of(WHOLE, fails_at))?;
    agree(rt, WRITTEN, printed.as_str(), wanted.as_str());
    Ok(())
}

/// A write that fails: what went out is the first of what is printed.
#[test]
fn writes(rt: HostRuntime) -> Result<(), Fail> {
    for fails_at in 0..18 {
        check_cut(&rt, rt.alloc(), fails_at)?;
    }
    Ok(())
}
