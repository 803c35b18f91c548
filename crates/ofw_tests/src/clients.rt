use crate::doubles::{no_listings, reader_of, without_lines};
use crate::shared::{Outputs, left_by, outcome};
use crate::tables::{Rows, agree, check, halves};
use of_asking::Answer;
use of_client::{names_are_met, values_are_got};
use of_commands::{ClientRun, Run, client};
use of_files::Messages;
use of_runs::{Answerer, Outside};
use std::alloc::Global;
use std::io::{Read, Write};
use std::process::Abort;
use std::test::Fail;

/// The image of an empty program, and one that prints `5 ` by its fourth step of five.
const EMPTY: &str = "f10800000000000900";

const FIVE: &str = "f108020a0000000da7a81e9d00";

/// The image of a program that reads from a device and prints what it read.
const BUS_READ: &str = "f108016300000011108000000002349d00";

/// The calls of a client, the image, what devices answer, the read of the calls and the write that fail, the limit of
/// steps, whether the end is explained, the number of the status, what goes out, and what is said.
#[derive(Clone, Copy)]
struct Case<'a> {
    calls: &'a str,
    image: &'a str,
    outside: Outside<'a>,
    read: u32,
    write: u32,
    limit: u64,
    explain: bool,
    status: u8,
    printed: &'a str,
    said: &'a str,
}

/// A case whose reads and writes don't fail, with a run of at most 99 steps.
fn whole<'a>(
    calls: &'a str,
    image: &'a str,
    status: u8,
    printed: &'a str,
    said: &'a str,
) -> Case<'a> {
    Case {
        calls,
        image,
        outside: without_lines(Answerer::Answers(&[])),
        read: 9999,
        write: 9999,
        limit: 99,
        explain: false,
        status,
        printed,
        said,
    }
}

/// What is asked for by a case.
fn asked<'a>(case: &Case<'a>) -> ClientRun<'a> {
    let run = Run {
        image: "a.hex",
        outside: case.outside,
        limit: case.limit,
        listings: no_listings(),
        explain: case.explain,
    };
    ClientRun {
        run,
        calls: "a.calls",
    }
}

/// Makes calls, and gives the number of the status.
fn called<C: Read, R: Read, W: Write, E: Write>(
    alloc: Global,
    asked: &ClientRun<'_>,
    calls: &mut C,
    image: &mut R,
    out: &mut W,
    errors: &mut E,
) -> u8 {
    let mut said = Messages::new(errors);
    client(alloc, asked, calls, image, out, &mut said).code()
}

/// Does what is asked for by a case, and gives the number of the status.
fn code_of(alloc: Global, case: &Case<'_>, outputs: &mut Outputs) -> u8 {
    let mut calls = reader_of(case.calls.as_bytes(), case.read);
    let mut image = reader_of(case.image.as_bytes(), 9999);
    let Outputs { out, errors } = outputs;
    called(alloc, &asked(case), &mut calls, &mut image, out, errors)
}

/// What a case leaves, and what it says that it leaves.
fn outcomes(alloc: Global, case: &Case<'_>) -> Result<(String, String), Fail> {
    let left = left_by(alloc, case.write, |outputs| code_of(alloc, case, outputs))?;
    let wanted = outcome(alloc, case.status, case.printed, case.said)?;
    Ok((left, wanted))
}

/// Sees that a case does what it says.
fn holds<R: Abort>(rt: &R, alloc: Global, case: &Case<'_>) -> Result<(), Fail> {
    let (left, wanted) = outcomes(alloc, case)?;
    agree(rt, case.calls, left.as_str(), wanted.as_str());
    Ok(())
}

/// The calls of the worked example, a line for each service or more, and the lines that answer them.
const WORKED: &str = "\
finddevice /slot
child d0000000
peer d0000008
parent d0000008
getprop d0000008 name 3
getproplen d0000008 reg
nextprop d0000008
nextprop d0000008 name
instance-to-package 0
package-to-path d0000008 20";

const ANSWERED: &str = "\
d0000008
d0000004
00000000
d0000000
00000005 736c6f
ffffffff
00000001 6e616d65
00000000
ffffffff
00000005 2f736c6f74
";

#[test]
fn worked_example(rt: HostRuntime) -> Result<(), Fail> {
    holds(&rt, rt.alloc(), &whole(WORKED, EMPTY, 0, ANSWERED, ""))
}

/// Texts of calls that have no fault, and what is printed for each behind `:`, with a blank for a newline.
const LINES: &str = "\
:
finddevice /slot:d0000008
finddevice:ffffffff
finddevice /:d0000000
  finddevice\t/slot :d0000008
child D0000000:d0000004
child 00000000d0000000:d0000004
getproplen d0000008:ffffffff
getproplen d0000008 name:00000005
getprop d0000008 3:ffffffff
getprop d0000008 name 0:00000005
getprop d0000008 name ffffffff:00000005 736c6f7400
getprop d0000008 3 3:ffffffff
package-to-path d0000008 0:00000005
package-to-path d0000000 9:00000001 2f
peer 0:d0000000
parent d0000000:00000000
child 1:ffffffff";

/// Texts that have a fault: its line and column, and what is wrong, behind `|`.
const FAULTS: &str = "\
find /slot|1:1: unknown service
Child d0000000|1:1: unknown service
# a comment|1:1: unknown service
  childs d0000000|1:3: unknown service
child|1:6: bad number: hexadecimal digits up to ffffffff
child zz|1:7: bad number: hexadecimal digits up to ffffffff
child -1|1:7: bad number: hexadecimal digits up to ffffffff
child 0x10|1:7: bad number: hexadecimal digits up to ffffffff
child 100000000|1:7: bad number: hexadecimal digits up to ffffffff
child d0000000 d0000004|1:16: more than the service takes
finddevice / \r|1:14: more than the service takes
finddevice /slot\r|1:12: bad name: a carriage return stands in it
finddevice \r /|1:12: bad name: a carriage return stands in it
getproplen d0000008 na\rme|1:21: bad name: a carriage return stands in it
getprop d0000008 name\r 4|1:18: bad name: a carriage return stands in it
getprop d0000008 3\r|1:18: bad number: hexadecimal digits up to ffffffff
nextprop d0000008 \r|1:19: bad name: a carriage return stands in it
child d0000000\r|1:7: bad number: hexadecimal digits up to ffffffff
  |1:3: unknown service
finddevice / /|1:14: more than the service takes
getprop d0000008|1:17: bad number: hexadecimal digits up to ffffffff
getprop d0000008 name|1:18: bad number: hexadecimal digits up to ffffffff
getprop d0000008 name 3 4|1:25: more than the service takes
getprop d0000008 name x|1:23: bad number: hexadecimal digits up to ffffffff
package-to-path d0000008|1:25: bad number: hexadecimal digits up to ffffffff
nextprop d0000008 name x|1:24: more than the service takes";

/// Calls that have no fault.
struct GoodCalls;

impl Rows for GoodCalls {
    fn given(alloc: Global, line: &str) -> Result<(String, String), Fail> {
        let (calls, wanted) = halves(line, ':');
        let end = if wanted.is_empty() { "" } else { "\n" };
        let printed = format!(in alloc; "{wanted}{end}")?;
        outcomes(alloc, &whole(calls, EMPTY, 0, printed.as_str(), ""))
    }
}

/// Calls that have a fault.
struct BadCalls;

impl Rows for BadCalls {
    fn given(alloc: Global, line: &str) -> Result<(String, String), Fail> {
        let (calls, wanted) = halves(line, '|');
        let said = format!(in alloc; "ofw: a.calls:{wanted}\n")?;
        outcomes(alloc, &whole(calls, FIVE, 1, "", said.as_str()))
    }
}

#[test]
fn lines(rt: HostRuntime) -> Result<(), Fail> {
    check::<GoodCalls, _>(&rt, rt.alloc(), LINES)
}

#[test]
fn faults(rt: HostRuntime) -> Result<(), Fail> {
    check::<BadCalls, _>(&rt, rt.alloc(), FAULTS)
}

/// The first fault of several lines counts; a line without words is one. An empty piece behind the last newline is no
/// line.
#[test]
fn several_lines(rt: HostRuntime) -> Result<(), Fail> {
    let calls = "child d0000000\npeer x\nzork\n";
    let said = "ofw: a.calls:2:6: bad number: hexadecimal digits up to ffffffff\n";
    holds(&rt, rt.alloc(), &whole(calls, FIVE, 1, "", said))?;
    let calls = "child d0000000\n\npeer x\n";
    let said = "ofw: a.calls:2:1: unknown service\n";
    holds(&rt, rt.alloc(), &whole(calls, FIVE, 1, "", said))?;
    let calls = "child d0000000\n \t\npeer 0\n";
    let said = "ofw: a.calls:2:3: unknown service\n";
    holds(&rt, rt.alloc(), &whole(calls, FIVE, 1, "", said))?;
    let calls = "child d0000000\n\n";
    let said = "ofw: a.calls:2:1: unknown service\n";
    holds(&rt, rt.alloc(), &whole(calls, FIVE, 1, "", said))?;
    let calls = "finddevice /slot\nfinddevice /\n";
    let printed = "5 d0000008\nd0000000\n";
    holds(&rt, rt.alloc(), &whole(calls, FIVE, 0, printed, ""))
}

/// The calls are made however the run ended, and its end can be explained.
#[test]
fn ends(rt: HostRuntime) -> Result<(), Fail> {
    let mut cut = whole("child d0000000\n", FIVE, 3, "5 d0000004\n", "");
    cut.limit = 4;
    holds(&rt, rt.alloc(), &cut)?;
    let said = "ofw: a.hex: done after 5 steps\nofw: a.hex: stack:\n";
    let mut done = whole("child d0000000\n", FIVE, 0, "5 d0000004\n", said);
    done.explain = true;
    holds(&rt, rt.alloc(), &done)
}

/// Sees that calls are made behind what devices answered.
fn holds_with<R: Abort>(rt: &R, alloc: Global, answers: &[Answer]) -> Result<(), Fail> {
    let read = whole("child d0000000\n", BUS_READ, 0, "5 d0000004\n", "");
    let outside = without_lines(Answerer::Answers(answers));
    holds(rt, alloc, &Case { outside, ..read })
}

/// The calls are made behind what devices answered, also where an answer is missing.
#[test]
fn answers_of_devices(rt: HostRuntime) -> Result<(), Fail> {
    holds_with(&rt, rt.alloc(), &[Answer::Value(5)])?;
    let out = whole("child d0000000\n", BUS_READ, 4, "d0000004\n", "");
    holds(&rt, rt.alloc(), &out)
}

/// What is wrong is said with the path of the file that it is in, and the calls come first.
#[test]
fn files(rt: HostRuntime) -> Result<(), Fail> {
    let said = "ofw: a.hex: image shorter than its header\n";
    holds(&rt, rt.alloc(), &whole("child 0", "f108", 1, "", said))?;
    let said = "ofw: bad start byte ff\n";
    let bad = whole("child 0", "ffffffffffffffff", 1, "", said);
    holds(&rt, rt.alloc(), &bad)?;
    let said = "ofw: a.calls:1:1: unknown service\n";
    let bad = whole("x", "ffffffffffffffff", 1, "", said);
    holds(&rt, rt.alloc(), &bad)
}

#[test]
fn reads_and_writes_that_fail(rt: HostRuntime) -> Result<(), Fail> {
    let said = "ofw: a.calls: other error\n";
    let mut unread = whole("child d0000000", FIVE, 1, "", said);
    unread.read = 1;
    holds(&rt, rt.alloc(), &unread)?;
    let said = "ofw: the output can't be written: other error\n";
    let mut unwritten = whole("child d0000000", FIVE, 1, "5 d00", said);
    unwritten.write = 5;
    holds(&rt, rt.alloc(), &unwritten)
}

#[test]
fn laws_of_the_services() {
    names_are_met();
    values_are_got();
}
