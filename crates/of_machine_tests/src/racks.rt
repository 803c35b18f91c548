//! Runs whose questions devices answer.
use crate::lines::lines_of;
use crate::questions::left;
use crate::rows::{Rows, check, halves};
use crate::shared::{Run, bytes_of, image_of, lend};
use of_asking::{Answer, Query};
use of_cells::Cell;
use of_client::ClientCall;
use of_devices::{AddressRange, Clock, DeviceMemory, Keyboard, Part, Rack, ask};
use of_machine::run_rack;
use of_nodes::Phandle;
use of_refusal::Refusal;
use std::alloc::Global;
use std::test::Fail;

/// Devices, tokens, a limit of steps, and what the run leaves: the steps, the end and the depth of the return stack;
/// the console; all questions; and the data stack. `memory` has sixteen bytes from 80000000 on, the first of them 1, 2,
/// 3 and 4; at 80000000 to 80000003 every access of `broken` faults; on `keys` A and B were typed.
const ROWS: &str = "\
memory clock|1000000005 1080000000 0231 1080000000 0230 9d 0125 9d 00|99|9 done 0|5 0 |\
write 1 80000000 5, read 1 80000000, get-msecs|
memory|1080000000 0234 1080000002 0232 1080000003 0230 00|99|7 done 0||\
read 4 80000000, read 2 80000002, read 1 80000003|1020304 304 4
memory|1080000004 0234 00|99|3 done 0||read 4 80000004|0
memory|1080000010 0230 00|99|2 done 0|fault -258: bus fault$|read 1 80000010|
memory|1080000010 0220 00|99|3 done 0||peek 1 80000010|0
memory|107ffffffe 0220 00|99|3 done 0|||0
memory|a6 1080000010 0223 00|99|4 done 0||poke 1 80000010 1|0
memory|10fedcba98 1080000004 0233 1080000004 0234 00|99|6 done 0||write 2 80000004 ba98, read 4 80000004|ba980000
memory|10fedcba98 1080000004 0225 1080000004 0222 00|99|6 done 0||\
poke 4 80000004 fedcba98, peek 4 80000004|ffffffff fedcba98 ffffffff
memory broken|1080000000 0230 00|99|3 done 0||read 1 80000000|1
broken memory|1080000000 0230 00|99|2 done 0|fault -258: bus fault$|read 1 80000000|
broken memory|1080000004 0230 00|99|3 done 0||read 1 80000004|0
keys|8d 8e 8d 8e 8d 8e 00|99|7 done 0||key?, key, key?, key, key?, key|ffffffff 41 ffffffff 42 0 0
clock|0125 0125 0125 00|99|4 done 0||get-msecs, get-msecs, get-msecs|0 1 2
clock clock|0125 0125 00|99|3 done 0||get-msecs, get-msecs|0 1
|8e 8d 0125 a8 0126 00|99|6 done 0||key, key?, get-msecs, ms 3|0 0 0
|1080000000 0230 00|99|2 done 0|fault -258: bus fault$|read 1 80000000|
|1080000000 0220 00|99|3 done 0||peek 1 80000000|0
clock|0125 a8 0125 00|0|0 limit 2|||
clock|0125 a8 0125 00|1|1 limit 2||get-msecs|0
clock|0125 a8 0125 00|2|2 limit 2||get-msecs|0 3
clock|0125 a8 0125 00|3|3 limit 2||get-msecs, get-msecs|0 3 1
clock|0125 a8 0125 00|4|4 done 0||get-msecs, get-msecs|0 3 1
keys|11 8e 1d 11 8e 0217 00|99|5 done 0||key, key|41 42 0
broken|1080000000 11 0234 0217 00|99|4 done 0||read 4 80000000|80000000 fffffefe
";

/// The device that a word stands for.
fn part_of(alloc: Global, word: &str) -> Result<Part, Fail> {
    let address = Cell(0x8000_0000);
    Ok(match word {
        "memory" => Part::Memory(DeviceMemory::new(alloc, address, 16, &[1, 2, 3, 4])?),
        "broken" => Part::Broken(AddressRange { address, length: 4 }),
        "keys" => Part::Keyboard(Keyboard::new(alloc, b"AB")?),
        _ => Part::Clock(Clock::new()),
    })
}

/// The devices that words stand for.
pub(crate) fn rack_of(alloc: Global, devices: &str) -> Result<Rack, Fail> {
    let mut rack: Rack = Vec::new(alloc);
    for word in devices.split_whitespace() {
        rack.push(Box::new(alloc, part_of(alloc, word)?)?)?;
    }
    Ok(rack)
}

/// What the run of an image and lines on these devices leaves.
fn left_with(
    alloc: Global,
    image: &[u8],
    lines: &[Vec<u8>],
    rack: &mut Rack,
    limit: u64,
) -> Result<String, Fail> {
    lend(
        run_rack(alloc, image, lines, rack, &[], limit)?,
        |run| left(alloc, &run.0, run.1),
    )
}

/// What a run on the devices of a line leaves.
fn left_on(alloc: Global, devices: &str, tokens: &str, limit: u64) -> Result<String, Fail> {
    let image = image_of(alloc, tokens)?;
    let mut rack = rack_of(alloc, devices)?;
    left_with(alloc, &image, &[], &mut rack, limit)
}

/// What lines leave on these devices behind an image that does nothing.
fn left_by_lines(alloc: Global, devices: &str, text: &str) -> Result<String, Fail> {
    let image = image_of(alloc, "00")?;
    let lines = lines_of(alloc, text)?;
    let mut rack = rack_of(alloc, devices)?;
    left_with(alloc, &image, &lines, &mut rack, 999)
}

/// Runs on devices.
struct DeviceRows;

impl Rows for DeviceRows {
    fn given<'a>(alloc: Global, line: &'a str) -> Result<(String, &'a str), Fail> {
        let (devices, rest) = halves(line);
        let (tokens, rest) = halves(rest);
        let (limit, wanted) = halves(rest);
        Ok((left_on(alloc, devices, tokens, limit.parse()?)?, wanted))
    }
}

/// Devices, lines that a `~` sets apart, and what their run leaves.
const LINES: &str = "\
memory clock|5 80000000 rb! 80000000 rb@ . get-msecs .|10 done 0|5 0 |\
write 1 80000000 5, read 1 80000000, get-msecs|
keys|key~key|5 done 0||key, key|41 42
clock|get-msecs nonsense~get-msecs|5 done 0|fault -13: undefined word$|get-msecs, get-msecs|1
";

/// Lines on devices.
struct LineRows;

impl Rows for LineRows {
    fn given<'a>(alloc: Global, line: &'a str) -> Result<(String, &'a str), Fail> {
        let (devices, rest) = halves(line);
        let (text, wanted) = halves(rest);
        Ok((left_by_lines(alloc, devices, text)?, wanted))
    }
}

#[test]
fn devices_answer_lines(rt: HostRuntime) -> Result<(), Fail> {
    check::<LineRows, _>(&rt, rt.alloc(), LINES)
}

/// The first device that takes a question answers it, and what it answers may depend on the questions before.
#[test]
fn devices_answer(rt: HostRuntime) -> Result<(), Fail> {
    check::<DeviceRows, _>(&rt, rt.alloc(), ROWS)
}

/// Digits of an image, a limit of steps, and behind `|` the steps that are made, or why the image is refused, and what
/// the clock of the run answers next. A client asks for the child of `/slot` at 0, and at 2; the replies stand between.
const LEFT: &str = "\
f108000000000000 0125 011f 0125 00|0|0 00000000 0
f108000000000000 0125 011f 0125 00|1|1 00000000 1
f108000000000000 0125 011f 0125 00|2|2 00000000 d000000c 1
f108000000000000 0125 011f 0125 00|3|3 00000000 d000000c 2
f108000000000000 0125 011f 0125 00|99|4 00000000 d000000c 2
ff|99|bad start 0
f108|99|bad start 0
";

/// Appends what a run leaves.
fn push_run(text: &mut String, run: &Result<Run, Refusal>) -> Result<(), Fail> {
    let machine = match run {
        Ok((machine, _)) => machine,
        Err(Refusal::BadStart(_)) => {
            text.push_str("bad start")?;
            return Ok(());
        }
        Err(_) => {
            text.push_str("refused")?;
            return Ok(());
        }
    };
    write!(text, "{}", machine.steps())?;
    for reply in machine.replies() {
        write!(text, " {:08x}", reply.number.0)?;
    }
    Ok(())
}

/// What a run leaves.
fn run_text(alloc: Global, run: &Result<Run, Refusal>) -> Result<String, Fail> {
    let mut text = String::new(alloc);
    push_run(&mut text, run)?;
    Ok(text)
}

/// The clients of these runs.
fn clients(alloc: Global) -> Result<Vec<(u64, ClientCall)>, Fail> {
    Ok(vec![in alloc;
        (0, ClientCall::Child(Phandle::of(2))),
        (2, ClientCall::Child(Phandle::of(2))),
    ]?)
}

/// Appends what a clock answers.
fn push_time(text: &mut String, answer: Answer) -> Result<(), Fail> {
    match answer {
        Answer::Value(time) => write!(text, " {time}")?,
        Answer::Done | Answer::BusFault => {}
    }
    Ok(())
}

/// What the run of an image leaves, and what its clock answers next.
fn next_time(alloc: Global, digits: &str, limit: u64) -> Result<String, Fail> {
    let image = bytes_of(alloc, digits)?;
    let calls = clients(alloc)?;
    let mut rack: Rack = Vec::new(alloc);
    rack.push(Box::new(alloc, Part::Clock(Clock::new()))?)?;
    let run = run_rack(alloc, &image, &[], &mut rack, &calls, limit);
    let mut text = lend(run, |run| run_text(alloc, run))?;
    push_time(&mut text, ask(&mut rack, Query::Milliseconds))?;
    Ok(text)
}

/// Runs on a clock.
struct ClockRows;

impl Rows for ClockRows {
    fn given<'a>(alloc: Global, line: &'a str) -> Result<(String, &'a str), Fail> {
        let (digits, rest) = halves(line);
        let (limit, wanted) = halves(rest);
        Ok((next_time(alloc, digits, limit.parse()?)?, wanted))
    }
}

/// Devices are left as the questions of the run leave them; an image that is refused asks nothing.
#[test]
fn devices_are_left(rt: HostRuntime) -> Result<(), Fail> {
    check::<ClockRows, _>(&rt, rt.alloc(), LEFT)
}
