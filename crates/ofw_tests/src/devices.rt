use crate::doubles::{Screen, blank_screen, no_listings, reader_of, without_lines};
use crate::shared::{Outputs, answered, answers_in, left_by, lend, outcome, text_on};
use crate::tables::{Rows, agree, check, halves, replaced};
use of_arguments::{Outside as Asked, Request, Status};
use of_devices::{Board, Part, standard_board};
use of_files::{Messages, board};
use of_runs::{Answerer, Outside};
use std::alloc::Global;
use std::process::Abort;
use std::test::Fail;

/// The image of a program that reads 32 bits at 0x80000000 and prints them by `.`.
const BUS_READ: &str = "f108016300000011108000000002349d00";

/// Which file says what answers a run.
#[derive(Clone, Copy)]
enum Kind {
    Answers,
    Board,
}

/// Runs the image, for at most 99 steps, and gives the number of the status.
fn code_with(alloc: Global, outside: Outside, explain: bool, outputs: &mut Outputs) -> u8 {
    let mut image = reader_of(BUS_READ.as_bytes(), 9999);
    let request = Request::Run {
        image: "a.hex",
        lines: None,
        outside: Asked::Standard,
        limit: 99,
        listings: no_listings(),
        explain,
        pci: false,
        trace: None,
        strict: false,
    };
    let Outputs { out, errors } = outputs;
    answered(alloc, request, outside, &mut image, out, errors)
}

/// The devices of a text.
fn parts_in(alloc: Global, text: &str, errors: &mut Screen) -> Result<Vec<Part>, Status> {
    let mut file = reader_of(text.as_bytes(), 9999);
    board(alloc, "a.board", &mut file, &mut Messages::new(errors))
}

/// Runs the image with the answers of a text, and gives the number of the status.
fn code_by_answers(alloc: Global, text: &str, explain: bool, outputs: &mut Outputs) -> u8 {
    match answers_in(alloc, text, 9999, &mut outputs.errors) {
        Ok(list) => code_with(
            alloc,
            without_lines(Answerer::Answers(&list)),
            explain,
            outputs,
        ),
        Err(status) => status.code(),
    }
}

/// Runs the image on a board, and gives the number of the status.
fn code_on_board(alloc: Global, board: &Board, explain: bool, outputs: &mut Outputs) -> u8 {
    let outside = without_lines(Answerer::Board(board));
    code_with(alloc, outside, explain, outputs)
}

/// Runs the image on the devices of a text, and gives the number of the status.
fn code_by_board(alloc: Global, text: &str, explain: bool, outputs: &mut Outputs) -> u8 {
    match parts_in(alloc, text, &mut outputs.errors) {
        Ok(parts) => {
            let board = Board { parts };
            code_on_board(alloc, &board, explain, outputs)
        }
        Err(status) => status.code(),
    }
}

/// Runs the image with what a text says, and gives the number of the status.
fn code_by(alloc: Global, (kind, text): (Kind, &str), explain: bool, outputs: &mut Outputs) -> u8 {
    match kind {
        Kind::Answers => code_by_answers(alloc, text, explain, outputs),
        Kind::Board => code_by_board(alloc, text, explain, outputs),
    }
}

/// What a run of the image with what a text says, with `,` for a newline, leaves.
fn run(alloc: Global, (kind, written): (Kind, &str), explain: bool) -> Result<String, Fail> {
    let text = replaced(alloc, written, ",", "\n")?;
    let said = (kind, text.as_str());
    left_by(
        alloc,
        9999,
        |outputs| code_by(alloc, said, explain, outputs),
    )
}

/// Answers, with `,` for a newline, the number of the status, and what is printed, with `;` for a newline.
const RUNS: &str = "\
v 5|0|5 |
v 5,|0|5 |
v 00000005,done,|0|5 |
 v\t5 ,|0|5 |
v FFFFffff|0|-1 |
fault|0|fault -258: bus fault;
|4|
done|4|
done,v 5|4|";

/// Devices in the same way. The first device that knows a question answers it.
const BOARDS: &str = "\
memory 80000000 4|0|0 |
memory 80000000 1000 00000005,clock|0|5 |
memory 80000000 4 00000005,fault 80000000 4,|0|5 |
fault 80000003 1,memory 80000000 4|0|fault -258: bus fault;
fault 80000004 4,memory 80000000 4|0|0 |
memory 80000000 3|0|fault -258: bus fault;
memory 80000001 4|0|fault -258: bus fault;
keys 41,clock|0|fault -258: bus fault;
|0|fault -258: bus fault;";

/// What the run of a line leaves, and what the line says that it leaves.
fn run_of(alloc: Global, kind: Kind, line: &str) -> Result<(String, String), Fail> {
    let (text, rest) = halves(line, '|');
    let (code, rest) = halves(rest, '|');
    let (printed, _) = halves(rest, '|');
    let left = run(alloc, (kind, text), false)?;
    let printed = replaced(alloc, printed, ";", "\n")?;
    Ok((left, format!(in alloc; "{code}|{printed}|")?))
}

/// Runs with answers.
struct AnswerRuns;

impl Rows for AnswerRuns {
    fn given(alloc: Global, line: &str) -> Result<(String, String), Fail> {
        run_of(alloc, Kind::Answers, line)
    }
}

/// Runs on devices.
struct BoardRuns;

impl Rows for BoardRuns {
    fn given(alloc: Global, line: &str) -> Result<(String, String), Fail> {
        run_of(alloc, Kind::Board, line)
    }
}

#[test]
fn runs(rt: HostRuntime) -> Result<(), Fail> {
    check::<AnswerRuns, _>(&rt, rt.alloc(), RUNS)?;
    check::<BoardRuns, _>(&rt, rt.alloc(), BOARDS)
}

/// What a run of the image on a board leaves.
fn left_on(alloc: Global, board: &Board) -> Result<String, Fail> {
    left_by(
        alloc,
        9999,
        |outputs| code_on_board(alloc, board, false, outputs),
    )
}

/// The standard board has zeros at 0x80000000.
#[test]
fn the_standard_board(rt: HostRuntime) -> Result<(), Fail> {
    let alloc = rt.alloc();
    let parts = standard_board(alloc)?;
    let left = lend(Board { parts }, |board| left_on(alloc, board))?;
    agree(&rt, "the standard board", left.as_str(), "0|0 |");
    Ok(())
}

/// Texts of answers that have a fault, with `,` for a newline: its line and column, and what is wrong, behind `|`.
const FAULTS: &str = "\
,|1:1: unknown answer
v 5,,|2:1: unknown answer
  ,v 5|1:3: unknown answer
v|1:2: bad number: hexadecimal digits up to ffffffff
v ,v 5|1:3: bad number: hexadecimal digits up to ffffffff
v 100000000|1:3: bad number: hexadecimal digits up to ffffffff
v -1|1:3: bad number: hexadecimal digits up to ffffffff
v 5\r|1:3: bad number: hexadecimal digits up to ffffffff
v 5 6|1:5: more than the answer takes
done,fault 1|2:7: more than the answer takes
x|1:1: unknown answer
V 5|1:1: unknown answer
v5|1:1: unknown answer
done\r|1:1: unknown answer
v 5,v 6,Done|3:1: unknown answer";

/// Texts of devices that have a fault, in the same way.
const BAD_BOARDS: &str = "\
,|1:1: unknown device
clock,,|2:1: unknown device
clocks|1:1: unknown device
clock 1|1:7: more than the device takes
memory|1:7: bad number: hexadecimal digits up to ffffffff
memory 80000000 4 0|1:19: bad number: hexadecimal digits up to ffffffff
memory 80000000 4 00,fault 80000000|2:15: bad number: hexadecimal digits up to ffffffff
keys 41 42|1:9: more than the device takes
clock\r|1:1: unknown device";

/// What the run of a line leaves, and what the line says is wrong in the file at a path.
fn fault_of(
    alloc: Global,
    (kind, path): (Kind, &str),
    line: &str,
) -> Result<(String, String), Fail> {
    let (text, wrong) = halves(line, '|');
    let left = run(alloc, (kind, text), false)?;
    Ok((left, format!(in alloc; "1||ofw: {path}:{wrong}\n")?))
}

/// Answers that have a fault.
struct AnswerFaults;

impl Rows for AnswerFaults {
    fn given(alloc: Global, line: &str) -> Result<(String, String), Fail> {
        fault_of(alloc, (Kind::Answers, "a.answers"), line)
    }
}

/// Devices that have a fault.
struct BoardFaults;

impl Rows for BoardFaults {
    fn given(alloc: Global, line: &str) -> Result<(String, String), Fail> {
        fault_of(alloc, (Kind::Board, "a.board"), line)
    }
}

#[test]
fn faults(rt: HostRuntime) -> Result<(), Fail> {
    check::<AnswerFaults, _>(&rt, rt.alloc(), FAULTS)?;
    check::<BoardFaults, _>(&rt, rt.alloc(), BAD_BOARDS)
}

/// Sees what a run leaves whose end is explained.
fn explains<R: Abort>(
    rt: &R,
    alloc: Global,
    (kind, text): (Kind, &str),
    (code, printed, said): (u8, &str, &str),
) -> Result<(), Fail> {
    let left = run(alloc, (kind, text), true)?;
    let wanted = outcome(alloc, code, printed, said)?;
    agree(rt, text, left.as_str(), wanted.as_str());
    Ok(())
}

/// A run that ends at a question without an answer says which token asks.
#[test]
fn ends(rt: HostRuntime) -> Result<(), Fail> {
    let said =
        "ofw: a.hex: answers out after 1 steps; next: `rl@` at 00000d\nofw: a.hex: stack: 80000000\n";
    let done = (Kind::Answers, "done");
    explains(&rt, rt.alloc(), done, (4, "", said))?;
    let said = "ofw: a.hex: done after 4 steps\nofw: a.hex: stack:\n";
    let five = (Kind::Answers, "v 5");
    explains(&rt, rt.alloc(), five, (0, "5 ", said))?;
    let memory = (Kind::Board, "memory 80000000 4 00000005");
    explains(&rt, rt.alloc(), memory, (0, "5 ", said))
}

/// A file of answers that can't be read has a fault, and the image isn't read.
#[test]
fn a_read_that_fails(rt: HostRuntime) {
    let mut screen = blank_screen(rt.alloc(), 99);
    let unread = answers_in(rt.alloc(), "v 5", 0, &mut screen);
    assert_eq!(rt; unread.err(), Some(Status::Fault));
    agree(
        &rt,
        "v 5",
        text_on(&screen),
        "ofw: a.answers: other error\n",
    );
}
