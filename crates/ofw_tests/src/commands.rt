use crate::doubles::{Endless, Screen, blank_screen, reader_of};
use crate::shared::{Outputs, blank_outputs, code_on, left, lend, outcome, text_on};
use crate::tables::{Rows, agree, check_line, halves, number};
use of_arguments::Status;
use of_files::{Fault, Messages, image, keep, report};
use of_stream::StreamFault;
use std::alloc::Global;
use std::io::Write;
use std::process::Abort;
use std::test::Fail;

/// The words of a command line, the read and the write that fail, the number of the status, what is said, what goes
/// out, and the file.
#[derive(Clone, Copy)]
struct Case<'a> {
    words: &'a str,
    read: u32,
    write: u32,
    status: &'a str,
    said: &'a str,
    printed: &'a str,
    file: &'a str,
}

/// The case of fields between `|`.
fn case_of(text: &str) -> Result<Case<'_>, Fail> {
    let (words, rest) = halves(text, '|');
    let (read, rest) = halves(rest, '|');
    let (write, rest) = halves(rest, '|');
    let (status, rest) = halves(rest, '|');
    let (said, rest) = halves(rest, '|');
    let (printed, file) = halves(rest, '|');
    Ok(Case {
        words,
        read: number(read)?,
        write: number(write)?,
        status,
        said,
        printed,
        file,
    })
}

/// A text without the newline at its end.
fn without_newline(text: &str) -> &str {
    text.strip_suffix("\n").unwrap_or(text)
}

/// What a case leaves on outputs, without the newlines at the ends.
fn left_by(alloc: Global, case: &Case<'_>, outputs: &mut Outputs) -> Result<String, Fail> {
    let mut file = reader_of(case.file.as_bytes(), case.read);
    let code = code_on(alloc, case.words, &mut file, outputs)?;
    let printed = without_newline(text_on(&outputs.out));
    let said = without_newline(text_on(&outputs.errors));
    outcome(alloc, code, printed, said)
}

/// What is to be left by a case.
fn wanted(alloc: Global, case: &Case<'_>) -> Result<String, Fail> {
    let Case {
        status,
        printed,
        said,
        ..
    } = *case;
    Ok(format!(in alloc; "{status}|{printed}|{said}")?)
}

/// Commands.
struct CommandRows;

impl Rows for CommandRows {
    fn given(alloc: Global, line: &str) -> Result<(String, String), Fail> {
        let case = case_of(line)?;
        let left = lend(
            blank_outputs(alloc, case.write),
            |outputs| left_by(alloc, &case, outputs),
        )?;
        Ok((left, wanted(alloc, &case)?))
    }
}

/// Cases, each ended by `;`, with fields as those of `Case`.
const CASES: &str = "\
run a.hex --limit 9|99|99|0||5 |f108020a0000000da7a81e9d00;
run a.hex --limit 9|99|99|0||5 | f1 08 020a
0000000d a7a81e9d00
;
run a.hex --limit 4|99|99|3||5 |f108020a0000000da7a81e9d00;
run a.hex --limit 0|99|99|3|||f108020a0000000da7a81e9d00;
run a.hex --limit 9 --explain|99|99|0|ofw: a.hex: done after 5 steps
ofw: a.hex: stack:|5 |f108020a0000000da7a81e9d00;
run a.hex --limit 3 --explain|99|99|3|ofw: a.hex: limit reached after 3 steps; next: `.` at 00000b
ofw: a.hex: stack: 5||f108020a0000000da7a81e9d00;
run a.hex --limit 9 --explain|99|99|0|ofw: a.hex: `@` at 000009: fault -9: invalid memory address
ofw: a.hex: stack:|fault -9: invalid memory address|f10800000000000ba76d00;
run a.hex --limit 9 --explain|99|99|0|ofw: a.hex: `end0` at 00000c: fault -29: compiler nesting
ofw: a.hex: stack:|fault -29: compiler nesting|f108000000000000b50800b700;
run a.hex --limit 9 --explain|99|99|0|ofw: a.hex: at the end of the image, behind `2` at 000008: fault -257: image ended
ofw: a.hex: stack:|fault -257: image ended|f108000000000000a710;
run a.hex --limit 9 --explain|99|99|0|ofw: a.hex: at the end of the image, behind `0` at 00000c: fault -257: image ended
ofw: a.hex: stack:|fault -257: image ended|f108000000000000b50800b7a5;
run a.hex --limit 4 --explain|99|99|3|\
ofw: a.hex: limit reached after 4 steps; next: at the end of the image, behind `0` at 00000d
ofw: a.hex: stack:||f108000000000000b50800b7a5a5;
run a.hex --limit 99 --explain|99|99|0|\
ofw: a.hex: item 1 of `inner`, behind `fcode-802` at 00003f: fault -4: stack underflow
ofw: a.hex: return stack: item 4 of `outer`, loop 0 of 3, item 2 of `main`, 7
ofw: a.hex: stack:|fault -4: stack underflow|\
f10811dc00000042ca05696e6e65720800b74646c2ca056f757465720801b7a8a517000819080015fffcc2\
ca046d61696e0802b710000000073008013146c2080200;
run a.hex --limit 9|99|99|1|ofw: bad start byte ff||ffffffffffffffff;
run a.hex --limit 9|99|99|1|ofw: a.hex: image shorter than its header||f108;
run a.hex --limit 9|99|99|1|ofw: a.hex: image shorter than its header||;
run a.hex --limit 9|99|99|1|ofw: a.hex:2:4: 'z' is no hexadecimal digit||f1
08 zz;
run a.hex --limit 9|99|99|1|ofw: a.hex:3:9: 'x' is no hexadecimal digit||f108

020a000 x;
run a.hex --limit 9|99|99|1|ofw: a.hex:1:1: byte ef, as of a byte order mark, is no hexadecimal digit||\u{feff}f108;
run a.hex --limit 9|99|99|1|ofw: a.hex:1:3: byte 00 is no hexadecimal digit||f1\x00;
run a.hex --limit 9|99|99|1|ofw: a.hex: an odd number of hexadecimal digits||f10;
run a.hex --limit 9|2|99|1|ofw: a.hex: other error||f108020a0000000da7a81e9d00;
run a.hex --limit 9|99|1|1|ofw: the output can't be written: other error|5|f108020a0000000da7a81e9d00;
detok a.hex|99|999|0||000000: f108020a0000000d  start1
000008: a7  2
000009: a8  3
00000a: 1e  +
00000b: 9d  .
00000c: 00  end0|f108020a0000000da7a81e9d00;
detok a.hex|99|999|1|ofw: a.hex: image ended in the token at 000009||f10800a700000009a7;
detok a.hex --names --indent --partial|99|999|1|ofw: a.hex: image ended in the token at 00001c|\
000000: fd08000000000000  version1 (sum 071c) (bytes 0000001c)
000008: b604616464330800  named-token \"add3\" 800
000010: b7  b(:)
000011: a8    3
000012: 1e    +
000013: c2  b(;)
000014: a7  2
000015: 1406  b?branch -> 00001c
000017: a7    2
000018: 0800    fcode-800 add3
00001a: b2  b(>resolve)
00001b: 9d  .|fd08000000000000b604616464330800b7a81ec2a71406a70800b29d;
detok a.hex|99|999|1|ofw: a.hex:2:1: 'x' is no hexadecimal digit||f108
x;
detok a.hex|99|2|1|ofw: the output can't be written: other error|00|f108020a0000000da7a81e9d00;
tok card.fs|99|999|0||f108075c000000211204636172640201b604616464330800b7a81ec2a708009d00|fcode-version2
\" card\" device-name : add3 3 + ; 2 add3 . fcode-end;
tok card.fs|99|999|1|ofw: card.fs:2:3: unknown word
ofw:   5 zork fcode-end
ofw:     ^^^^
ofw: no word that is known here has this name, and it is no number||fcode-version2
5 zork fcode-end;
check a.hex|99|99|0|||f108020a0000000da7a81e9d00;
check a.hex|99|999|1||000002: the header says the sum 020b, and it is 02b1
00000d: the image ends without end0 or end1|f108020b0000000da7a81e9da7;
check a.hex|99|99|1||000002: the header says the sum 020b, and it is 020a|f108020b0000000da7a81e9d00;
check a.hex|99|3|1|ofw: the output can't be written: other error|000|f108020b0000000da7a81e9d00;
check a.hex|99|99|1|ofw: a.hex:1:1: 'x' is no hexadecimal digit||x;
pci a.rom|99|99|1|ofw: a.rom: image at 000000: no signature||none;
tok card.fs|2|999|1|ofw: card.fs: other error||fcode-version2 fcode-end;
tok card.fs|99|3|1|ofw: the output can't be written: other error|f10|fcode-version2 fcode-end";

#[test]
fn statuses(rt: HostRuntime) -> Result<(), Fail> {
    for case in CASES.split(";\n") {
        check_line::<CommandRows, _>(&rt, rt.alloc(), case)?;
    }
    Ok(())
}

/// What the run of an image that isn't written in digits leaves.
fn left_by_binary(alloc: Global, outputs: &mut Outputs) -> Result<String, Fail> {
    let mut file = reader_of(b"\xf1\x08\x02\x0a\0\0\0\x0d\xa7\xa8\x1e\x9d\0", 99);
    let code = code_on(alloc, "run five.rom --limit 9", &mut file, outputs)?;
    left(alloc, code, outputs)
}

#[test]
fn binary_images(rt: HostRuntime) -> Result<(), Fail> {
    let alloc = rt.alloc();
    let left = lend(
        blank_outputs(alloc, 99),
        |outputs| left_by_binary(alloc, outputs),
    )?;
    agree(&rt, "five.rom", left.as_str(), "0|5 |");
    Ok(())
}

/// The image of a source, or the status of the fault that it has.
fn made(alloc: Global, source: &[u8], errors: &mut Screen) -> Result<Vec<u8>, Status> {
    let mut file = reader_of(source, 99);
    image(alloc, "a.fs", &mut file, &mut Messages::new(errors))
}

/// Keeps an image, and gives the status.
fn kept(image: &[u8], out: &mut Screen, errors: &mut Screen) -> Status {
    keep("a.rom", image, out, &mut Messages::new(errors))
}

#[test]
fn an_image_is_kept(rt: HostRuntime) {
    let mut out = blank_screen(rt.alloc(), 99);
    let mut errors = blank_screen(rt.alloc(), 0);
    let made = made(rt.alloc(), b"fcode-version2 fcode-end", &mut errors);
    let made = made.unwrap_or(Vec::new(rt.alloc()));
    let wanted = b"\xf1\x08\0\0\0\0\0\x09\0".as_slice();
    assert_eq!(rt; made.as_slice(), wanted);
    assert_eq!(rt; kept(&made, &mut out, &mut errors), Status::Done);
    assert_eq!(rt; out.text.as_slice(), wanted);
}

/// What is wrong with a source whose image is to be kept is said with its path, line and column.
#[test]
fn an_image_that_cannot_be_made(rt: HostRuntime) {
    let mut screen = blank_screen(rt.alloc(), 999);
    let made = made(rt.alloc(), b"fcode-version2 zork fcode-end", &mut screen);
    assert_eq!(rt; made.err(), Some(Status::Fault));
    let said = "ofw: a.fs:1:16: unknown word\n";
    assert!(rt; text_on(&screen).starts_with(said));
}

/// After how many reads a file is given up that gives a byte for ever, and what the run of its image leaves.
fn given_up(alloc: Global, byte: u8, outputs: &mut Outputs) -> Result<String, Fail> {
    let mut file = Endless { byte, reads: 0 };
    let code = code_on(alloc, "run /dev/zero --limit 9", &mut file, outputs)?;
    let left = left(alloc, code, outputs)?;
    Ok(format!(in alloc; "{} reads|{left}", file.reads)?)
}

/// Sees when a file is given up that gives a byte for ever, and what is said then.
fn give_up<R: Abort>(rt: &R, alloc: Global, byte: u8, wanted: &str) -> Result<(), Fail> {
    let given = lend(
        blank_outputs(alloc, 0),
        |outputs| given_up(alloc, byte, outputs),
    )?;
    agree(rt, "/dev/zero", given.as_str(), wanted);
    Ok(())
}

/// A text is refused at its first byte, not at its end.
#[test]
fn endless_zeros(rt: HostRuntime) -> Result<(), Fail> {
    let wanted = "1 reads|1||ofw: /dev/zero:1:1: byte 00 is no hexadecimal digit\n";
    give_up(&rt, rt.alloc(), 0, wanted)
}

#[test]
fn endless_file(rt: HostRuntime) -> Result<(), Fail> {
    let wanted = "16777216 reads|1||ofw: /dev/zero: doesn't end after 16777216 reads\n";
    give_up(&rt, rt.alloc(), b'0', wanted)
}

/// Says a fault of the file at a path, and gives the status.
fn told<E: Write>(path: &str, fault: Fault, errors: &mut Messages<E>) -> Status {
    report(path, fault, errors)
}

/// Says a fault of the file at a path, where a write fails: the number of its status, and what was said.
fn reported(alloc: Global, path: &str, fault: Fault, fails_at: u32) -> Result<String, Fail> {
    let mut screen = blank_screen(alloc, fails_at);
    let code = told(path, fault, &mut Messages::new(&mut screen)).code();
    let said = text_on(&screen);
    Ok(format!(in alloc; "{code} {said}")?)
}

/// Sees what is said of a fault of the file at a path, where a write fails.
fn says<R: Abort>(
    rt: &R,
    alloc: Global,
    (path, fault): (&str, Fault),
    fails_at: u32,
    wanted: &str,
) -> Result<(), Fail> {
    let said = reported(alloc, path, fault, fails_at)?;
    agree(rt, path, said.as_str(), wanted);
    Ok(())
}

#[test]
fn reports(rt: HostRuntime) -> Result<(), Fail> {
    let fault = ("", Fault::NoMemory);
    says(&rt, rt.alloc(), fault, 999, "5 ofw: no memory\n")?;
    let fault = ("", Fault::ArgumentNotText);
    says(
        &rt,
        rt.alloc(),
        fault,
        999,
        "2 ofw: an argument is not text\n",
    )?;
    let fault = ("a.rom", Fault::TooLong(262_145));
    let wanted = "1 ofw: a.rom: image of 262145 bytes, of which 262144 fit\n";
    says(&rt, rt.alloc(), fault, 999, wanted)
}

#[test]
fn a_report_that_is_cut(rt: HostRuntime) -> Result<(), Fail> {
    let fault = ("a.rom", Fault::Unlisted(StreamFault::BadStart(0x0a)));
    says(&rt, rt.alloc(), fault, 999, "1 ofw: bad start byte 0a\n")?;
    says(&rt, rt.alloc(), fault, 3, "1 ofw")
}

/// Once a write has failed, nothing more is said.
#[test]
fn a_line_behind_a_failed_write(rt: HostRuntime) {
    let mut screen = blank_screen(rt.alloc(), 3);
    let mut errors = Messages::new(&mut screen);
    let fault = Fault::Unlisted(StreamFault::BadStart(0x0a));
    assert_eq!(rt; told("", fault, &mut errors), Status::Fault);
    assert_eq!(rt; told("", fault, &mut errors), Status::Fault);
    assert_eq!(rt; told("", Fault::NoMemory, &mut errors), Status::NoMemory);
    agree(&rt, "", text_on(&screen), "ofw");
}
