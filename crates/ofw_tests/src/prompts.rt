//! Images under a debugger that is led by lines.
use crate::debugs::{Subject, field, subject_of};
use crate::shared::{Outputs, blank_outputs, left, lend};
use crate::tables::{Rows, check, number, replaced};
use of_commands::{PromptRun, prompt};
use of_files::Messages;
use std::alloc::Global;
use std::io::Write;
use std::test::Fail;

/// The name of an image, console lines, answers, the limit and lines for the debugger, with `,` for a newline; the
/// number of the status; and what is printed and said, with `/` for a newline, `~` for `/`, and `>` for `debug> `.
const SESSIONS: &str = "\
five|||99||0|>/|
five|||99|quit|0|>|
five|||99|in,in,over,go 9,in,|0|>@1 [ 2 ]/>@2 [ 2 3 ]/>@3 [ 5 ]/>5 /@5 [ ]/>@5 [ ]/>/|
five|||99|,in,quit,in|0|>>@1 [ 2 ]/>|
five|||2|go 9,go 9|0|>@2 [ 2 3 ]/>@2 [ 2 3 ]/>/|
five|||99|jump,go,go a,in 1,break t 0,break dup 0,in|0|>unknown word: ? shows the commands/\
>bad number: ? shows the commands/>bad number: ? shows the commands/>a word too many: ? shows the commands/\
>no such word/>no colon definition/>@1 [ 2 ]/>/|
five|||99|where,in,where,list,go 9,where|0|>`2` at 000008/>@1 [ 2 ]/>`3` at 000009/>no definition runs/\
>5 /@5 [ ]/>at the end of the image/>/|
bad|||99|in|1||ofw: bad start byte 39/
bus||v 2a|99|in,in,in|0|>@1 [ 80000000 ]/>@2 [ 2a ]/>2a /@3 [ ]/>/|
loops|||99|go 17,break #800 7,go 100,list,where|0|>@17 [ 5 ]/>>@24 [ 4 ffffffff ]/\
>: h# c000052c begin dup if 1 - dup 2 <> if again then then ;/next: item 7/marked: item 7/\
>item 7 of `fcode-800`, behind `fcode-800` at 000024/>/|
loops|||99|go 17,break #800 7,break #800 1,clear #800 7,list|0|>@17 [ 5 ]/>>>>\
: h# c000052c begin dup if 1 - dup 2 <> if again then then ;/next: item 0/marked: item 1/>/|
empty|: t 2 0 do 5 >r r> drop loop ; t||99|go 17,where|0|>@17 [ ]/>item 5 of `t`/return stack: 5, loop 0 of 2/>/|
loops|||99|go 17,break #800 10,clear #800 10,go 2|0|>@17 [ 5 ]/>no such item/>no such item/>@19 [ 5 ]/>/|
empty|: t 1 2 3 4 5 6 7 8 9 a b c d e f 10 11 ;||99|\
go 20,break t 0,break t 1,break t 2,break t 3,break t 4,break t 5,break t 6,break t 7,break t 8,break t 9,break t 10,\
break t 11,break t 12,break t 13,break t 14,break t 15,break t 3,break t 16|0|\
>@20 [ ]/>>>>>>>>>>>>>>>>>>too many marks/>/|
five|||99|mem 200010 14,mem 1ffffe 3,mem 0,mem 0 1001,mem 0 0|0|\
>00200010: 6e 61 6d 65 62 6f 61 72 64 00 00 00 6e 61 6d 65/00200020: 70 61 63 6b/\
>001ffffe: -- -- 00/>an address and a length up to 1000 are wanted, in hexadecimal digits/\
>an address and a length up to 1000 are wanted, in hexadecimal digits/\
>an address and a length up to 1000 are wanted, in hexadecimal digits/>/|
five|||99|tree|0|>~/name \"board\"/~packages/name \"packages\"/~slot/name \"slot\"/>/|";

/// Leads a debugger of an image by the lines of a text, and gives the number of the status.
fn prompted<W: Write, E: Write>(
    alloc: Global,
    asked: PromptRun<'_>,
    text: &str,
    out: &mut W,
    errors: &mut E,
) -> u8 {
    let mut lines = text.as_bytes();
    let mut said = Messages::new(errors);
    prompt(alloc, asked, &mut lines, out, &mut said).code()
}

/// The same of what a case says, where what is printed and said goes to outputs.
fn code_by(alloc: Global, subject: &Subject, limit: u32, text: &str, outputs: &mut Outputs) -> u8 {
    let asked = PromptRun {
        path: "a.hex",
        image: &subject.image,
        lines: &subject.lines,
        answers: &subject.answers,
        limit: u64::from(limit),
    };
    let Outputs { out, errors } = outputs;
    prompted(alloc, asked, text, out, errors)
}

/// What a case leaves on outputs.
fn left_by(alloc: Global, case: &str, outputs: &mut Outputs) -> Result<String, Fail> {
    let limit = number(field(case, 3))?;
    let text = replaced(alloc, field(case, 4), ",", "\n")?;
    let subject = subject_of(alloc, case, &mut outputs.errors)?;
    let code = code_by(alloc, &subject, limit, text.as_str(), outputs);
    left(alloc, code, outputs)
}

/// Sessions with a debugger.
struct PromptRows;

impl Rows for PromptRows {
    fn given(alloc: Global, line: &str) -> Result<(String, String), Fail> {
        let left = lend(
            blank_outputs(alloc, 9999),
            |outputs| left_by(alloc, line, outputs),
        )?;
        let shown = replaced(alloc, left.as_str(), "debug> ", ">")?;
        let wanted = line.splitn(6, '|').nth(5).unwrap_or("");
        let lines = replaced(alloc, wanted, "/", "\n")?;
        Ok((shown, replaced(alloc, lines.as_str(), "~", "/")?))
    }
}

#[test]
fn sessions(rt: HostRuntime) -> Result<(), Fail> {
    check::<PromptRows, _>(&rt, rt.alloc(), SESSIONS)
}
