//! Sessions on the console.
use crate::doubles::{Screen, blank_screen, reader_of};
use crate::shared::{Outputs, left_by, lend};
use crate::tables::{Rows, agree, check, halves, replaced};
use of_arguments::Status;
use of_commands::{ConsoleRun, console};
use of_devices::{Board, standard_board};
use of_files::{Messages, rom};
use std::alloc::Global;
use std::io::Write;
use std::test::Fail;

/// Lines with `,` for a newline; the number of the status; and what is printed and said, with `/` for a newline. Each
/// line makes at most 99 steps.
const SESSIONS: &str = "\
|0|ok /|
,|0|ok ok /|
3 4 + .,|0|ok 7 /ok /|
3 4 + .|0|ok 7 /ok /|
: sq dup *,; 5 sq,.,|0|ok ok ok 19 /ok /|
5 .~,6 .~,|0|ok 5 /ok 6 /ok /|
: t 2 0 do 3 0 do i . leave loop 9 . loop ; t,|0|ok 0 9 0 9 /ok /|
1 nonsense 2,.,|0|ok fault -13: undefined word/ok fault -4: stack underflow/ok /|
.\" a\" cr .\" b\" cr,|0|ok a/b/ok /|
80000000 rl@ .,7 80000000 rl! 80000000 rl@ .,|0|ok 0 /ok 7 /ok /|
: t begin again ; t,1 .,,|0|ok ok ok ok /|\
ofw: limit reached after 99 steps: an empty line lets it go on/\
ofw: the line before still runs: an empty line lets it go on/\
ofw: limit reached after 99 steps: an empty line lets it go on/
: t 0 begin 1 + dup 18 = until ; t,,. 1 .,|0|ok ok ok 18 1 /ok /|\
ofw: limit reached after 99 steps: an empty line lets it go on/";

/// The board of which nothing is said.
fn plain_board(alloc: Global) -> Result<Board, Fail> {
    Ok(Board {
        parts: standard_board(alloc)?,
    })
}

/// Runs a console that reads the lines of a text, and gives the number of the status.
fn talked<W: Write, E: Write>(
    alloc: Global,
    begun: ConsoleRun<'_>,
    text: &str,
    out: &mut W,
    errors: &mut E,
) -> u8 {
    let mut lines = text.as_bytes();
    let mut said = Messages::new(errors);
    console(alloc, begun, &mut lines, out, &mut said).code()
}

/// The same where what is printed and said goes to outputs.
fn code_of(alloc: Global, begun: ConsoleRun<'_>, text: &str, outputs: &mut Outputs) -> u8 {
    let Outputs { out, errors } = outputs;
    talked(alloc, begun, text, out, errors)
}

/// What a console with a board leaves, behind an image, if there is one.
fn left_with(
    alloc: Global,
    image: Option<(&str, &[u8])>,
    text: &str,
    board: &Board,
) -> Result<String, Fail> {
    let begun = ConsoleRun {
        image,
        board,
        limit: 99,
    };
    left_by(alloc, 9999, |outputs| code_of(alloc, begun, text, outputs))
}

/// What an image, if there is one, and the lines of a text leave.
fn run(alloc: Global, image: Option<(&str, &[u8])>, text: &str) -> Result<String, Fail> {
    lend(
        plain_board(alloc)?,
        |board| left_with(alloc, image, text, board),
    )
}

/// The lines of a session, as they are read.
fn lines_of(alloc: Global, written: &str) -> Result<String, Fail> {
    let text = replaced(alloc, written, ",", "\n")?;
    replaced(alloc, text.as_str(), "~", "\r")
}

/// Sessions.
struct SessionRows;

impl Rows for SessionRows {
    fn given(alloc: Global, line: &str) -> Result<(String, String), Fail> {
        let (written, wanted) = halves(line, '|');
        let text = lines_of(alloc, written)?;
        let left = run(alloc, None, text.as_str())?;
        Ok((left, replaced(alloc, wanted, "/", "\n")?))
    }
}

#[test]
fn sessions(rt: HostRuntime) -> Result<(), Fail> {
    check::<SessionRows, _>(&rt, rt.alloc(), SESSIONS)
}

/// An image is run first: its words are methods of `/slot`. One that begins with another byte is refused.
#[test]
fn images(rt: HostRuntime) -> Result<(), Fail> {
    // : nine 9 ; 8 .
    let image = [
        0xf1, 0x08, 0, 0, 0, 0, 0, 0x25, 0xca, 4, b'n', b'i', b'n', b'e', 8, 0, 0xb7, 0x10, 0, 0,
        0, 9, 0xc2, 0x10, 0, 0, 0, 8, 0x9d, 0,
    ];
    let left = run(rt.alloc(), Some(("a.rom", &image)), "dev /slot nine .\n")?;
    agree(&rt, "nine", left.as_str(), "0|8 \nok 9 \nok \n|");
    let left = run(rt.alloc(), Some(("a.rom", b"99999999")), "1 .\n")?;
    agree(
        &rt,
        "99999999",
        left.as_str(),
        "1||ofw: bad start byte 39\n",
    );
    Ok(())
}

/// The image of the file at a path, or the status of the fault that the file has.
fn image_at(
    alloc: Global,
    path: &str,
    text: &[u8],
    fails_at: u32,
    errors: &mut Screen,
) -> Result<Vec<u8>, Status> {
    let mut file = reader_of(text, fails_at);
    rom(alloc, path, &mut file, &mut Messages::new(errors))
}

/// The image of a file in digits; and a file that can't be read.
#[test]
fn files(rt: HostRuntime) {
    let mut errors = blank_screen(rt.alloc(), 9999);
    let image = image_at(
        rt.alloc(),
        "a.hex",
        b"f108 0000\n0000000900",
        9999,
        &mut errors,
    );
    let image = image.unwrap_or(Vec::new(rt.alloc()));
    let wanted = b"\xf1\x08\0\0\0\0\0\x09\0".as_slice();
    assert_eq!(rt; image.as_slice(), wanted);
    let broken = image_at(rt.alloc(), "b.hex", b"f1080000", 0, &mut errors);
    assert_eq!(rt; broken.err(), Some(Status::Fault));
}
