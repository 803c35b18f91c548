//! Console lines: what a run leaves to which lines are handed in, one behind the other, and which lines are refused.
use crate::questions::{answers_of, mark, push_query, push_stack};
use crate::rows::{Rows, check, halves};
use crate::shared::{Run, bytes_of, lend, on_machine, push_bytes, run_on};
use of_asking::Answer;
use of_machine::{End, LONGEST_LINE, ScriptMachine, run_script};
use of_refusal::Refusal;
use std::alloc::Global;
use std::test::Fail;

/// An image that does nothing.
const EMPTY: &str = "f10800000000000900";

/// Lines that are handed in behind that image, which a `~` sets apart; behind `|` the answers to their questions; and
/// behind a second one what the run leaves: the end, the console, the last question, and the data stack.
const LINES: &str = "\
: a1 0 0 do i . -1 +loop ; a1~: b1 3 0 do i . 2 +loop ; b1~: c1 0 2 do i . -1 +loop ; c1||done|0 0 2 2 1 0 ||
: t drop drop 7 throw ; 1 2 ' t catch . . .||done|7 0 0 ||
dev /slot 1 encode-int s\" a\" property 2 encode-int s\" b\" property\
~3 encode-int s\" c\" property 4 encode-int s\" a\" property .properties\
||done|name \"slot\"$a 00000004$b 00000002$c 00000003$||
dev /slot 1 encode-int over >r s\" a\" property 9 r> ! .properties~9 s\" a\" get-my-property drop drop !\
||done|name \"slot\"$a 00000001$fault -20: write to a read-only location$||
dev /packages new-device s\" p\" device-name instance variable v : open true ; : put v ! ; : got v @ ; \
finish-device device-end\
~s\" \" s\" p\" $open-package value x1 s\" \" s\" p\" $open-package value x2\
~5 s\" put\" x1 $call-method 7 s\" put\" x2 $call-method s\" got\" x1 $call-method . s\" got\" x2 $call-method .\
~s\" got\" $call-parent||done|5 7 fault -260: no such instance$||
80000000 rl@ .|fault|done|fault -258: bus fault$|read 4 80000000|
80000000 rl@ .||out||read 4 80000000|80000000
80000000 lpeek .|fault|done|0 |peek 4 80000000|
80000000 rb@ .|1ff|out||read 1 80000000|80000000
80000000 dup 5 swap lpoke . drop|fault|done|0 |poke 4 80000000 5|
80000000 dup 5 swap lpoke . drop|done|done|-1 |poke 4 80000000 5|
80000001 rl@||done|fault -23: address alignment exception$||
: f 4 0 do i here i + c! loop ; f here here 1+ 3 move here 3 + c@ .||done|2 ||
8 alloc-mem 8 free-mem||done|||
nonsense||done|fault -13: undefined word$||
defer x ' x to x x||done|fault -263: bad handle$||
: k case 1 of 61 emit endof 2 of 62 emit endof 3f emit endcase ;~1 k 2 k 3 k||done|ab?||
dev / ls pwd||done|d0000004 packages$d0000008 slot$/$||
: w 1 ; : z 2 ; words||done|z w $||
: asks key . ; asks asks 5|41 42|done|41 42 |key|5
: asks key . ; ' asks catch 5|41|done|41 |key|0 5
~ ~1||done|||1
1~2 nonsense 3~4||done|fault -13: undefined word$||4
";

/// Lines that evaluate texts.
const EVALUATED: &str = "\
s\" 2 3 + .\" evaluate||done|5 ||
s\" : x if nonsense\" ' evaluate catch . . . 1 .||done|-d 0 0 1 ||
: t s\" 7 .\" evaluate ; t||done|7 ||
s\" : sq dup * ;\" evaluate 5 sq||done|||19
s\" : u\" evaluate 1||done|fault -29: compiler nesting$||
s\" : u\" ' evaluate catch . 2drop u||done|-1d fault -13: undefined word$||
: t [ here 0 evaluate ] ;||done|fault -29: compiler nesting$||
: t 3 0 do s\" 1 drop\" evaluate i . loop ; t||done|0 1 2 ||
: t s\" t\" evaluate ; t||done|fault -5: return stack overflow$||
s\" 1 throw\" ' evaluate catch . 2drop||done|1 ||
s\" dup\" ' evaluate catch . 2drop||done|-4 ||
s\" nonsense\" evaluate 1~2||done|fault -13: undefined word$||2
s\" 1 \\ 2\" evaluate 3||done|||1 3
s\" 1 ( 2\" evaluate 3||done|||1 3
s\" key\" evaluate .|41|done|41 |key|
s\" key\" evaluate .||out||key|
0 0 evaluate 3||done|||3
0 1 evaluate||done|fault -9: invalid memory address$||
1 evaluate||done|fault -4: stack underflow$||
evaluate||done|fault -4: stack underflow$||
: t [ evaluate ] ;||done|fault -29: compiler nesting$||
' evaluate execute||done|fault -4: stack underflow$||
: d ?dup if 1- recurse else s\" 1\" evaluate . then ; fc d||done|1 ||
: d ?dup if 1- recurse else s\" 1\" evaluate . then ; fd d||done|fault -5: return stack overflow$||
: d ?dup if 1- recurse else 0 1 evaluate then ; fe d||done|fault -9: invalid memory address$||
: d ?dup if 1- recurse else 0 1 evaluate then ; ff d||done|fault -5: return stack overflow$||
";

/// A line that is cut in every place; and behind these the same texts evaluated, which leave no definition open.
const CUT: &str = "\
||done|||
:||done|fault -16: zero-length name$||
: ||done|fault -16: zero-length name$||
: k||done|||
: k ||done|||
: k 6||done|||
: k 61||done|||
: k 61 ||done|||
: k 61 ;||done|||
: k 61 ; ||done|||
: k 61 ; k||done|||61
: k 61 ; k ||done|||61
: k 61 ; k e||done|||61 e
: k 61 ; k em||done|fault -13: undefined word$||
: k 61 ; k emi||done|fault -13: undefined word$||
: k 61 ; k emit||done|a||
: k 61 ; k emit ||done|a||
: k 61 ; k emit (||done|a||
: k 61 ; k emit ( ||done|a||
: k 61 ; k emit ( a||done|a||
: k 61 ; k emit ( a)||done|a||
: k 61 ; k emit ( a) ||done|a||
: k 61 ; k emit ( a) 7||done|a||7
s\" :\" evaluate||done|fault -16: zero-length name$||
s\" : \" evaluate||done|fault -16: zero-length name$||
s\" : k\" evaluate||done|fault -29: compiler nesting$||
s\" : k \" evaluate||done|fault -29: compiler nesting$||
s\" : k 6\" evaluate||done|fault -29: compiler nesting$||
s\" : k 61\" evaluate||done|fault -29: compiler nesting$||
s\" : k 61 \" evaluate||done|fault -29: compiler nesting$||
s\" : k 61 ;\" evaluate||done|||
s\" : k 61 ; \" evaluate||done|||
s\" : k 61 ; k\" evaluate||done|||61
s\" : k 61 ; k \" evaluate||done|||61
s\" : k 61 ; k e\" evaluate||done|||61 e
s\" : k 61 ; k em\" evaluate||done|fault -13: undefined word$||
s\" : k 61 ; k emi\" evaluate||done|fault -13: undefined word$||
s\" : k 61 ; k emit\" evaluate||done|a||
s\" : k 61 ; k emit \" evaluate||done|a||
s\" : k 61 ; k emit (\" evaluate||done|a||
s\" : k 61 ; k emit ( \" evaluate||done|a||
s\" : k 61 ; k emit ( a\" evaluate||done|a||
s\" : k 61 ; k emit ( a)\" evaluate||done|a||
s\" : k 61 ; k emit ( a) \" evaluate||done|a||
s\" : k 61 ; k emit ( a) 7\" evaluate||done|a||7
";

/// Whole images, and lines behind them.
const IMAGES: &str = "\
f108075c000000211204636172640201b604616464330800b7a81ec2a708009d00|show-devs||done|5 /$/packages$/card$||
f108020a0000000da7a81e9d00|.\" x\"||done|5 x||
f108016c0000000ca6a52100|.\" x\"||done|fault -10: division by zero$x||
";

/// The lines of a text, which a `~` sets apart.
pub(crate) fn lines_of(alloc: Global, text: &str) -> Result<Vec<Vec<u8>>, Fail> {
    let mut lines = Vec::new(alloc);
    for line in text.split('~') {
        lines.push(Vec::from_slice(alloc, line.as_bytes())?)?;
    }
    Ok(lines)
}

/// The run of an image and lines.
fn run_lines(
    alloc: Global,
    image: &[u8],
    lines: &[Vec<u8>],
    answers: &[Answer],
    limit: u64,
) -> Result<Run, Fail> {
    Ok(run_script(alloc, image, lines, answers, &[], limit)?)
}

/// Appends what a run leaves.
fn push_left(text: &mut String, machine: &ScriptMachine, end: End) -> Result<(), Fail> {
    write!(text, "{}|", mark(end))?;
    push_bytes(text, machine.console())?;
    text.push('|')?;
    if let Some(query) = machine.asked().last() {
        push_query(text, *query)?;
    }
    text.push('|')?;
    push_stack(text, machine)
}

/// What a run leaves.
fn left_text(alloc: Global, machine: &ScriptMachine, end: End) -> Result<String, Fail> {
    let mut text = String::new(alloc);
    push_left(&mut text, machine, end)?;
    Ok(text)
}

/// What the run of an image and lines leaves whose questions get these answers.
fn left(alloc: Global, image: &str, text: &str, answers: &str) -> Result<String, Fail> {
    let image = bytes_of(alloc, image)?;
    let lines = lines_of(alloc, text)?;
    let answers = answers_of(alloc, answers)?;
    lend(
        run_lines(alloc, &image, &lines, &answers, 1_000_000)?,
        |run| left_text(alloc, &run.0, run.1),
    )
}

/// Lines behind an image that does nothing.
pub(crate) struct LineRows;

impl Rows for LineRows {
    fn given<'a>(alloc: Global, line: &'a str) -> Result<(String, &'a str), Fail> {
        let (text, rest) = halves(line);
        let (answers, wanted) = halves(rest);
        Ok((left(alloc, EMPTY, text, answers)?, wanted))
    }
}

/// Lines behind an image.
pub(crate) struct ImageRows;

impl Rows for ImageRows {
    fn given<'a>(alloc: Global, line: &'a str) -> Result<(String, &'a str), Fail> {
        let (image, rest) = halves(line);
        let (text, rest) = halves(rest);
        let (answers, wanted) = halves(rest);
        Ok((left(alloc, image, text, answers)?, wanted))
    }
}

#[test]
fn lines(rt: HostRuntime) -> Result<(), Fail> {
    check::<LineRows, _>(&rt, rt.alloc(), LINES)?;
    check::<LineRows, _>(&rt, rt.alloc(), EVALUATED)?;
    check::<LineRows, _>(&rt, rt.alloc(), CUT)?;
    check::<ImageRows, _>(&rt, rt.alloc(), IMAGES)
}

/// Limits of a run of the lines `1 2` and `3`, and what it makes: the steps, the end, and the depth of the data stack.
/// The end of an image and of a line are steps of their own.
const LIMITS: &str = "\
0|0 limit 0
1|1 limit 0
3|3 limit 2
4|4 limit 2
5|5 limit 3
6|6 done 3
7|6 done 3
";

/// What a run makes.
fn made_text(alloc: Global, machine: &ScriptMachine, end: End) -> Result<String, Fail> {
    let mut text = String::new(alloc);
    write!(
        text,
        "{} {} {}",
        machine.steps(),
        mark(end),
        machine.stack().len()
    )?;
    Ok(text)
}

/// What a run of those lines makes.
fn made(alloc: Global, limit: u64) -> Result<String, Fail> {
    let image = bytes_of(alloc, EMPTY)?;
    let lines = lines_of(alloc, "1 2~3")?;
    lend(
        run_lines(alloc, &image, &lines, &[], limit)?,
        |run| made_text(alloc, &run.0, run.1),
    )
}

/// Limits.
struct LimitRows;

impl Rows for LimitRows {
    fn given<'a>(alloc: Global, line: &'a str) -> Result<(String, &'a str), Fail> {
        let (limit, wanted) = halves(line);
        Ok((made(alloc, limit.parse()?)?, wanted))
    }
}

#[test]
fn limits(rt: HostRuntime) -> Result<(), Fail> {
    check::<LimitRows, _>(&rt, rt.alloc(), LIMITS)
}

/// A word so many times, behind a beginning and before an end.
fn repeated(
    alloc: Global,
    first: &str,
    word: &str,
    count: usize,
    last: &str,
) -> Result<String, Fail> {
    let mut text = String::new(alloc);
    text.push_str(first)?;
    for _ in 0..count {
        text.push_str(word)?;
    }
    text.push_str(last)?;
    Ok(text)
}

/// What a definition of so many branches leaves, all of which are open at once.
fn nested(alloc: Global, count: usize) -> Result<String, Fail> {
    let opened = repeated(alloc, ": t", " if", count, "~")?;
    let lines = repeated(alloc, opened.as_str(), "then ", count, ";")?;
    left(alloc, EMPTY, lines.as_str(), "")
}

/// Of control structures 32 are open at once.
#[test]
fn branches_nest(rt: HostRuntime) -> Result<(), Fail> {
    let text = nested(rt.alloc(), 32)?;
    assert_eq!(rt; text.as_str(), "done|||");
    let text = nested(rt.alloc(), 33)?;
    assert_eq!(rt;
        text.as_str(),
        "done|fault -22: control structure mismatch$||"
    );
    Ok(())
}

/// The refusal of an image and a line of so many blanks, if they aren't run.
fn refusal(alloc: Global, image: &str, length: usize) -> Result<Option<Refusal>, Fail> {
    let image = bytes_of(alloc, image)?;
    let mut lines = Vec::new(alloc);
    lines.push(vec![in alloc; b' '; length]?)?;
    Ok(run_script(alloc, &image, &lines, &[], &[], 9).err())
}

/// A line has at most 255 bytes; one that is longer is refused before the image is read.
#[test]
fn long_lines(rt: HostRuntime) -> Result<(), Fail> {
    assert!(rt; refusal(rt.alloc(), EMPTY, 255)? == None);
    assert!(rt; refusal(rt.alloc(), EMPTY, 256)? == Some(Refusal::LineTooLong));
    assert!(rt; refusal(rt.alloc(), "ff", 256)? == Some(Refusal::LineTooLong));
    Ok(())
}

/// What a machine is answered to which a line is handed in.
fn answer(machine: &mut ScriptMachine, text: &[u8]) -> Result<(), Refusal> {
    machine.line(text)
}

/// What a machine answers to a long line, a line, and one while that is read; and how deep its data stack is then.
fn answers_on(
    machine: &mut ScriptMachine,
    long: &[u8],
) -> Result<(Option<Refusal>, Option<Refusal>, usize), Fail> {
    let first = answer(machine, long).err();
    answer(machine, b"1 2")?;
    let second = answer(machine, long).err();
    run_on(machine, 9)?;
    answer(machine, b"3")?;
    run_on(machine, 9)?;
    Ok((first, second, machine.stack().len()))
}

/// The same of a new machine.
fn answers(alloc: Global) -> Result<(Option<Refusal>, Option<Refusal>, usize), Fail> {
    let long = vec![in alloc; b' '; LONGEST_LINE + 1]?;
    on_machine(alloc, |machine| answers_on(machine, &long))
}

#[test]
fn lines_are_refused(rt: HostRuntime) -> Result<(), Fail> {
    let (first, second, depth) = answers(rt.alloc())?;
    assert!(rt; first == Some(Refusal::LineTooLong));
    assert!(rt; second == Some(Refusal::Busy));
    assert!(rt; depth == 3);
    Ok(())
}
