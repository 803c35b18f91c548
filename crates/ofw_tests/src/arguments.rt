use crate::shared::{requested, words_of};
use crate::tables::{Rows, check, halves};
use of_argument_laws::lines_ask;
use of_arguments::{Guide, Listing, Listings, Outside, Product, Request};
use std::alloc::{AllocError, Global};
use std::test::Fail;

/// Words of a command line, and behind `:` what they ask for, if anything: the image, for a client the calls, for a
/// debugger the script, and for a run the file of answers, if there is one, and the limit; then the file of console
/// lines.
const LINES: &str = "\
ofw run a.hex:a.hex 1000000
ofw run a.hex --limit 0:a.hex 0
ofw run a.hex --limit 1000000000:a.hex 1000000000
ofw run a.hex --limit 1000000001:
ofw run a.hex --limit 10k:a.hex 10000
ofw run a.hex --limit=2M:a.hex 2000000
ofw run a.hex --limit 1000000k:a.hex 1000000000
ofw run a.hex --limit 1000001k:
ofw run a.hex --limit 1000M:a.hex 1000000000
ofw run a.hex --limit 1001M:
ofw run a.hex --limit 2m:
ofw run a.hex --limit 2K:
ofw run a.hex --limit k:
ofw run a.hex --limit 10kk:
ofw run a.hex --limit 18446744073709551616:
ofw console --limit 3k:console no image 3000
ofw debug a.hex --script a.script --limit 1M:debug a.hex a.script 1000000
ofw run a.hex --trace a.json:a.hex 1000000 trace a.json
ofw run --trace a.json --strict a.hex --limit 5 --pci:a.hex 5 pci trace a.json strict
ofw run a.hex --trace:
ofw run a.hex --trace a.json --trace b.json:
ofw run a.hex --strict:a.hex 1000000 strict
ofw client a.hex --calls a.calls --strict --limit 1k:a.hex a.calls 1000 strict
ofw client a.hex --calls a.calls --trace a.json:
ofw debug a.hex --interactive --strict:
ofw tok a.fs --strict:
ofw run a.hex --steps 5:
ofw detok a.hex:a.hex
ofw detok a.hex --names:a.hex names
ofw detok --indent a.hex --partial:a.hex indents partial
ofw detok a.hex --names --names:
ofw run --explain a.hex --limit 5:a.hex 5 explained
ofw run --tree a.hex:a.hex 1000000 tree
ofw run a.hex --explain --limit 5 --tree:a.hex 5 explained tree
ofw run a.hex --tree --tree:
ofw client a.hex --calls a.calls --tree:
ofw run a.hex --words:a.hex 1000000 words
ofw run - --tree:- 1000000 tree
ofw run a.hex --see dup:a.hex 1000000 see dup
ofw run --see dup a.hex --words --tree --limit 5 --explain:a.hex 5 explained tree words see dup
ofw run a.hex --see=-rot:a.hex 1000000 see -rot
ofw run a.hex --see -rot:
ofw run a.hex --see:
ofw run a.hex --see dup --see drop:
ofw run a.hex --words --words:
ofw run a.hex --state:a.hex 1000000 state
ofw run --state --see dup --tree a.hex:a.hex 1000000 tree see dup state
ofw run a.hex --state --state:
ofw client a.hex --calls a.calls --state:
ofw client a.hex --calls a.calls --words:
ofw client a.hex --calls a.calls --see dup:
ofw tok a.fs --see dup:
ofw detok a.hex --see:a.hex definitions
ofw detok --see a.hex --partial:a.hex definitions partial
ofw detok a.hex --see --names:
ofw detok a.hex --indent --see:
ofw detok a.hex --see --see:
ofw detok a.hex --words:
ofw run a.hex --answers a.answers:a.hex answers a.answers 1000000
ofw run --answers a.answers a.hex --limit 5 --explain:a.hex answers a.answers 5 explained
ofw run a.hex --answers:
ofw run a.hex --board a.board:a.hex board a.board 1000000
ofw run a.hex --lines a.lines:a.hex 1000000 lines a.lines
ofw run --lines a.lines a.hex --limit 5 --tree:a.hex 5 tree lines a.lines
ofw run a.hex --lines:
ofw run a.hex --lines a.lines --lines b.lines:
ofw client a.hex --calls a.calls --lines a.lines:a.hex a.calls 1000000 lines a.lines
ofw tok a.fs --lines a.lines:
ofw run --explain --board a.board a.hex --limit 5:a.hex board a.board 5 explained
ofw run a.hex --board:
ofw run a.hex --board a.board --board b.board:
ofw run a.hex --board a.board --answers a.answers:
ofw client a.hex --calls a.calls --board a.board:a.hex a.calls board a.board 1000000
ofw client a.hex --calls a.calls --board a.board --answers a.answers:
ofw tok a.fs --board a.board:
ofw run a.hex --answers a.answers --answers b.answers:
ofw client a.hex --calls a.calls --answers a.answers:a.hex a.calls answers a.answers 1000000
ofw tok a.fs --answers a.answers:
ofw detok a.hex --answers a.answers:
ofw run a.hex --names:
ofw client a.hex --calls a.calls:a.hex a.calls 1000000
ofw client --calls a.calls a.hex --limit 5 --explain:a.hex a.calls 5 explained
ofw client a.hex:
ofw client --calls a.calls:
ofw client a.hex --calls a.calls --calls b.calls:
ofw client a.hex b.hex --calls a.calls:
ofw client a.hex --calls a.calls --limit 1000000001:
ofw run a.hex --calls a.calls:
ofw console:console no image 1000000
ofw console a.hex:console a.hex 1000000
ofw console --limit 5 --board a.board a.hex:console a.hex board a.board 5
ofw console --board a.board:console no image board a.board 1000000
ofw console a.hex b.hex:
ofw console --lines a.lines:
ofw console --limit 1000000001:
ofw debug a.hex --script a.script:debug a.hex a.script 1000000
ofw debug a.hex --interactive:debug a.hex the terminal 1000000
ofw debug a.hex --interactive --script a.script:
ofw debug --lines a.lines a.hex --script a.s --answers a.a --limit 5:debug a.hex a.s answers a.a 5 lines a.lines
ofw debug a.hex:
ofw debug a.hex --script a.script --script b.script:
ofw debug a.hex --script a.script --board a.board:
ofw tok a.fs:a.fs
ofw tok:
ofw tok a.fs --limit 5:
ofw tok a.fs --output a.rom:a.fs a.rom
ofw tok a.fs -o a.rom:a.fs a.rom
ofw tok - --output -:- -
ofw tok a.fs --symbols:a.fs symbols
ofw tok a.fs --symbols --output a.rom:
ofw tok a.fs --listing:a.fs listing
ofw tok a.fs --listing --symbols:
ofw tok a.fs --listing --output a.rom:
ofw detok a.hex --symbols:
ofw tok --output a.rom:
ofw detok a.hex --limit 5:
ofw walk a.hex:
ofw run a.hex --limit=7:a.hex 7
ofw run a.hex --limit 7 --limit 8:
ofw run a.hex b.hex:
ofw run -a.hex:
ofw run ./-a.hex:./-a.hex 1000000
ofw run a.rom --pci:a.rom 1000000 pci
ofw check a.hex:check a.hex
ofw check a.rom --pci:check a.rom pci
ofw check a.hex --partial:
ofw pci a.rom:images of a.rom
ofw pci:
ofw:";

/// Words of a command line that ask for no file, and behind `:` how the program ends.
const STATUSES: &str = "\
ofw --help:Some(Done)
ofw --version:Some(Done)
ofw help:Some(Done)
ofw run --help:Some(Done)
ofw detok --help:Some(Done)
ofw:Some(Usage)
ofw walk:Some(Usage)
ofw tok:Some(Usage)
ofw client --help:Some(Done)
ofw client a.hex:Some(Usage)
ofw debug --help:Some(Done)
ofw debug a.hex --script a.script --board a.board:Some(Usage)
ofw run a.hex --steps 5:Some(Usage)
ofw run a.hex:None
";

/// Appends a name behind a blank, where a flag is given.
fn push_flag(text: &mut String, is_given: bool, name: &str) -> Result<(), AllocError> {
    if is_given {
        return write!(text, " {name}");
    }
    Ok(())
}

/// Appends a name and what is said with it, behind a blank each, if something is.
fn push_said(text: &mut String, name: &str, said: Option<&str>) -> Result<(), AllocError> {
    match said {
        Some(said) => write!(text, " {name} {said}"),
        None => Ok(()),
    }
}

/// Appends what answers the questions of a run, where that is a file.
fn push_outside(text: &mut String, outside: Outside) -> Result<(), AllocError> {
    match outside {
        Outside::Standard => Ok(()),
        Outside::Answers(path) => push_said(text, "answers", Some(path)),
        Outside::Board(path) => push_said(text, "board", Some(path)),
    }
}

/// Appends a path, and what a run behind it asks for.
fn push_run(
    text: &mut String,
    path: &str,
    outside: Outside,
    limit: u64,
    explain: bool,
) -> Result<(), AllocError> {
    text.push_str(path)?;
    push_outside(text, outside)?;
    write!(text, " {limit}")?;
    push_flag(text, explain, "explained")
}

/// Appends what is to be printed behind a run.
fn push_listings(text: &mut String, listings: Listings) -> Result<(), AllocError> {
    push_flag(text, listings.tree, "tree")?;
    push_flag(text, listings.words, "words")?;
    push_said(text, "see", listings.see)?;
    push_flag(text, listings.state, "state")
}

/// Appends what a console asks for.
fn push_console(
    text: &mut String,
    image: &str,
    board: Option<&str>,
    limit: u64,
) -> Result<(), AllocError> {
    write!(text, "console {image}")?;
    push_said(text, "board", board)?;
    write!(text, " {limit}")
}

/// What leads a debugger.
fn guide_text(guide: Guide<'_>) -> &str {
    match guide {
        Guide::Script(path) => path,
        Guide::Terminal => "the terminal",
    }
}

/// Appends what a run under a debugger asks for.
fn push_debug(
    text: &mut String,
    (image, script): (&str, &str),
    lines: Option<&str>,
    answers: Option<&str>,
    limit: u64,
) -> Result<(), AllocError> {
    write!(text, "debug {image} {script}")?;
    push_said(text, "answers", answers)?;
    write!(text, " {limit}")?;
    push_said(text, "lines", lines)
}

/// Appends what is listed of an image.
fn push_listing(text: &mut String, listing: Listing) -> Result<(), AllocError> {
    match listing {
        Listing::Tokens(extras) => {
            push_flag(text, extras.names, "names")?;
            push_flag(text, extras.indents, "indents")
        }
        Listing::Definitions => push_flag(text, true, "definitions"),
    }
}

/// Appends what is made of a source.
fn push_tok(text: &mut String, source: &str, product: Product) -> Result<(), AllocError> {
    text.push_str(source)?;
    match product {
        Product::Digits => Ok(()),
        Product::File(output) => write!(text, " {output}"),
        Product::Symbols => push_flag(text, true, "symbols"),
        Product::Listing => push_flag(text, true, "listing"),
    }
}

/// Appends what a listing of an image asks for.
fn push_detok(
    text: &mut String,
    image: &str,
    listing: Listing,
    partial: bool,
    pci: bool,
) -> Result<(), AllocError> {
    text.push_str(image)?;
    push_listing(text, listing)?;
    push_flag(text, partial, "partial")?;
    push_flag(text, pci, "pci")
}

/// Appends what a look at an image asks for.
fn push_check(text: &mut String, image: &str, pci: bool) -> Result<(), AllocError> {
    write!(text, "check {image}")?;
    push_flag(text, pci, "pci")
}

/// Appends what a request for a run asks for, or for a run and a client's calls.
fn push_running(text: &mut String, request: Request) -> Result<(), AllocError> {
    match request {
        Request::Run {
            image,
            lines,
            outside,
            limit,
            listings,
            explain,
            pci,
            trace,
            strict,
        } => {
            push_run(text, image, outside, limit, explain)?;
            push_listings(text, listings)?;
            push_said(text, "lines", lines)?;
            push_flag(text, pci, "pci")?;
            push_said(text, "trace", trace)?;
            push_flag(text, strict, "strict")
        }
        Request::Client {
            image,
            calls,
            lines,
            outside,
            limit,
            explain,
            strict,
        } => {
            write!(text, "{image} ")?;
            push_run(text, calls, outside, limit, explain)?;
            push_said(text, "lines", lines)?;
            push_flag(text, strict, "strict")
        }
        _ => Ok(()),
    }
}

/// Appends what a request asks for, as it stands behind `:`.
fn push_request(text: &mut String, request: Request) -> Result<(), AllocError> {
    match request {
        Request::Run { .. } | Request::Client { .. } => push_running(text, request),
        Request::Console {
            image,
            board,
            limit,
        } => push_console(text, image.unwrap_or("no image"), board, limit),
        Request::Debug {
            image,
            guide,
            lines,
            answers,
            limit,
        } => push_debug(text, (image, guide_text(guide)), lines, answers, limit),
        Request::Tok { source, product } => push_tok(text, source, product),
        Request::Detok {
            image,
            listing,
            partial,
            pci,
        } => push_detok(text, image, listing, partial, pci),
        Request::Check { image, pci } => push_check(text, image, pci),
        Request::Pci { rom } => write!(text, "images of {rom}"),
    }
}

/// What the words of a line ask for, as it stands behind `:`.
fn asked(alloc: Global, words: &[String]) -> Result<String, Fail> {
    let mut text = String::new(alloc);
    if let Ok(Some(request)) = requested(alloc, words) {
        push_request(&mut text, request)?;
    }
    Ok(text)
}

/// How the program ends by the words of a line alone, as it stands behind `:`.
fn ended(alloc: Global, words: &[String]) -> Result<String, Fail> {
    let status = requested(alloc, words).err();
    Ok(format!(in alloc; "{status:?}")?)
}

/// What words ask for.
struct AskedRows;

impl Rows for AskedRows {
    fn given(alloc: Global, line: &str) -> Result<(String, String), Fail> {
        let (words, wanted) = halves(line, ':');
        let words = words_of(alloc, words)?;
        Ok((asked(alloc, &words)?, String::from_str(alloc, wanted)?))
    }
}

/// How the program ends by words alone.
struct EndedRows;

impl Rows for EndedRows {
    fn given(alloc: Global, line: &str) -> Result<(String, String), Fail> {
        let (words, wanted) = halves(line, ':');
        let words = words_of(alloc, words)?;
        Ok((ended(alloc, &words)?, String::from_str(alloc, wanted)?))
    }
}

#[test]
fn statuses(rt: HostRuntime) -> Result<(), Fail> {
    check::<EndedRows, _>(&rt, rt.alloc(), STATUSES)
}

#[test]
fn arguments(rt: HostRuntime) -> Result<(), Fail> {
    check::<AskedRows, _>(&rt, rt.alloc(), LINES)?;
    lines_ask();
    Ok(())
}
