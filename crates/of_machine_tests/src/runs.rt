use crate::rows::{Rows, check, halves};
use crate::shared::{Run, after_run, bytes_of, image_of, lend, push_bytes};
use hex::decode;
use of_machine::{End, ScriptMachine, calls_agree, run_script, runs_agree};
use std::alloc::Global;
use std::test::Fail;

/// What stands behind the steps of a run.
fn mark(end: End) -> &'static str {
    match end {
        End::Done => " ",
        End::LimitReached => "+ ",
        End::AnswersOut => "? ",
    }
}

/// Appends the steps that were made, the end of the run, and the console; an end of line as `$`.
fn push_run(text: &mut String, machine: &ScriptMachine, end: End) -> Result<(), Fail> {
    write!(text, "{}", machine.steps())?;
    text.push_str(mark(end))?;
    push_bytes(text, machine.console())
}

/// The steps that were made, the end of the run, and the console.
pub(crate) fn text_of(alloc: Global, machine: &ScriptMachine, end: End) -> Result<String, Fail> {
    let mut text = String::new(alloc);
    push_run(&mut text, machine, end)?;
    Ok(text)
}

/// What an image prints in a run of so many steps at most, with the steps made and the end.
fn shown(alloc: Global, image: &[u8], limit: u64) -> Result<String, Fail> {
    after_run(alloc, image, limit, |run| text_of(alloc, &run.0, run.1))
}

/// Whole images, and what their runs of 999 steps at most make: the steps, and the console.
const IMAGES: &str = "\
f108020a0000000da7a81e9d00|5 5 
f208020a0000000da7a81e9d00|5 5 
f10800000000000900|1 
f10801f2000000111080000000a4219d00|5 -80000000 
f108016c0000000ca6a52100|3 fault -10: division by zero$
f10803f700000012a5140005a69db2a79d00|5 2 
f10801910000000c137fff00|1 fault -257: image ended$
f108013e0000001010000000088b9b00|4 400000 
f1080a270000001aa6d0a7d0a8d0ada81fada71fa878ad719d00|18 3 
fd0804c300000013cca5140005a69db2a79d00|6 2 
f108064900000021b50800b7464610000000070218c2a6a711080002179d9d9d00|19 7 0 0 
f10806640000001cb50800b7140007a6130005b2a7b2c2a508009d00|16 2 
f108024600000012b50800b70800c2080000|259 fault -5: return stack overflow$
f10800ad0000000e0203020b9b00|4 d0000008 
f10801490000000d020d9d9d00|4 0 0 
";

/// Images.
struct ImageRows;

impl Rows for ImageRows {
    fn given<'a>(alloc: Global, line: &'a str) -> Result<(String, &'a str), Fail> {
        let (image, wanted) = halves(line);
        Ok((shown(alloc, &bytes_of(alloc, image)?, 999)?, wanted))
    }
}

#[test]
fn images(rt: HostRuntime) -> Result<(), Fail> {
    check::<ImageRows, _>(&rt, rt.alloc(), IMAGES)
}

/// Tokens behind a header, and what they make: numbers in the base, at the right of a width, the
/// whole stack, characters and bytes; and throws, which end the image.
const TOKENS: &str = "\
a49b00|3 ffffffff 
a49d00|3 -1 
10 00000010 a8 9c 00|4  10
a4 10 00000005 9e 00|4    -1
10 00001234 a8 9e 00|4 1234
a7 a4 9e 00|4 2
9f00|2 
a6 a4 9f 00|4 1 -1 
10 00000141 8f 00|3 A
9200|2 $
10 00100000 a5 90 00|4 
10 000000ff a7 a0 72 9d 00|6 11111111 
10 0000000a a0 72 10 000000ff 9d 00|6 255 
a5 96 9a 97 90 00|6 0
10 00001234 a5 96 c8 c9 90 00|7 1234
a5 8b a5 8b 9f 00|6 400000 400008 
a5 8b a5 8c 00|5 
a6 a7 a8 4a 9f 00|6 2 3 1 
12053220 33202b cd 9d 00|8 5 
cd00|1 fault -4: stack underflow$
9d00|1 fault -4: stack underflow$
a69e00|2 fault -4: stack underflow$
a69000|2 fault -4: stack underflow$
8f00|1 fault -4: stack underflow$
8b00|1 fault -4: stack underflow$
a4a69000|3 fault -9: invalid memory address$
a48b00|2 fault -8: dictionary overflow$
015000|1 fault -256: fcode not assigned$
1d00|1 fault -4: stack underflow$
a6a5a0729d00|5 fault -24: invalid numeric argument$
a6a0729d00|4 fault -4: stack underflow$
a6a6a0729d00|5 fault -24: invalid numeric argument$
a58c00|2 fault -4: stack underflow$
";

/// Tokens.
struct TokenRows;

impl Rows for TokenRows {
    fn given<'a>(alloc: Global, line: &'a str) -> Result<(String, &'a str), Fail> {
        let (tokens, wanted) = halves(line);
        Ok((shown(alloc, &image_of(alloc, tokens)?, 99)?, wanted))
    }
}

#[test]
fn tokens(rt: HostRuntime) -> Result<(), Fail> {
    runs_agree();
    calls_agree();
    check::<TokenRows, _>(&rt, rt.alloc(), TOKENS)
}

/// Limits of a run of `2 3 + .`, and what it makes; with `+` where the limit was reached.
const LIMITS: &str = "\
0|0+ 
3|3+ 
4|4+ 5 
5|5 5 
";

/// Limits.
struct LimitRows;

impl Rows for LimitRows {
    fn given<'a>(alloc: Global, line: &'a str) -> Result<(String, &'a str), Fail> {
        let (limit, wanted) = halves(line);
        let image = decode(alloc, "f108020a0000000da7a81e9d00")?;
        Ok((shown(alloc, &image, limit.parse()?)?, wanted))
    }
}

#[test]
fn limits(rt: HostRuntime) -> Result<(), Fail> {
    check::<LimitRows, _>(&rt, rt.alloc(), LIMITS)
}

/// Whether a run threw -257.
fn has_ended(machine: &ScriptMachine) -> bool {
    machine.console().ends_with(b"fault -257: image ended\n")
}

/// The run of an image, if it begins.
fn begun(alloc: Global, image: &[u8]) -> Option<Run> {
    run_script(alloc, image, &[], &[], &[], 99).ok()
}

/// Whether an image that is cut off throws -257, or has no whole header.
fn is_cut(alloc: Global, image: &[u8]) -> bool {
    match begun(alloc, image) {
        Some(run) => lend(run, |run| has_ended(&run.0)),
        None => image.len() < 8,
    }
}

/// An image cut at every length throws -257, or begins with no whole header.
#[test]
fn cuts(rt: HostRuntime) -> Result<(), Fail> {
    let image = decode(rt.alloc(), "f10803f700000012a5140005a69db2a79d00")?;
    for length in 0..image.len() {
        assert!(rt; is_cut(rt.alloc(), &image[..length]), "{length}");
    }
    Ok(())
}
