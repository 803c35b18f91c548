//! Nests of control words: the definition that a console line makes of one is done item by item as that which an image
//! makes that is tokenized of the same words, with the same stack before each item; what `see` prints of it makes a
//! definition of which `see` prints the same; and, of nests of up to five words, one that is done item by item alike.
use of_machine::{ScriptMachine, script_machine};
use of_refusal::Refusal;
use of_see_runs::{printed_words_are_remade, see_reads_back};
use of_source::parse;
use of_tok::tokenize;
use std::alloc::Global;
use std::process::Abort;
use std::test::Fail;

/// A longer nest isn't tried.
const LONGEST: usize = 7;

/// Structures, behind each word of which a nest stands.
const STRUCTURES: &str = "\
if then
if else then
begin again
begin until
begin while repeat
do loop
do +loop
?do loop
?do +loop
do leave loop
case endcase
case of endof endcase
";

/// Numbers that stand on the stack at first.
const STACKS: [&str; 2] = ["1 0 3 0 1 2 0 1", "0 1 0 3 1 0 1 0"];

/// Words that close all that they open, and how many they are.
#[derive(Drop)]
struct Nest {
    text: String,
    length: usize,
}

/// Appends what begins with these words, goes on with another one and ends with a nest.
fn push_behind(
    alloc: Global,
    all: &mut Vec<Nest>,
    begun: &Nest,
    word: &str,
    nests: &[Nest],
) -> Result<(), Fail> {
    for nest in nests {
        let length = begun.length.saturating_add(nest.length).saturating_add(1);
        if length <= LONGEST {
            let (first, last) = (begun.text.as_str(), nest.text.as_str());
            let text = format!(in alloc; "{first}{word} {last}")?;
            all.push(Nest { text, length })?;
        }
    }
    Ok(())
}

/// What begins so, each with a word and a nest behind it.
fn go_on(alloc: Global, begun: &[Nest], word: &str, nests: &[Nest]) -> Result<Vec<Nest>, Fail> {
    let mut all = Vec::new(alloc);
    for first in begun {
        push_behind(alloc, &mut all, first, word, nests)?;
    }
    Ok(all)
}

/// The empty nest alone.
fn empty(alloc: Global) -> Result<Vec<Nest>, Fail> {
    let mut all = Vec::new(alloc);
    all.push(Nest {
        text: String::new(alloc),
        length: 0,
    })?;
    Ok(all)
}

/// A structure with one of these nests behind each of its words.
fn filled(alloc: Global, structure: &str, nests: &[Nest]) -> Result<Vec<Nest>, Fail> {
    let mut begun = empty(alloc)?;
    for word in structure.split_whitespace() {
        begun = go_on(alloc, &begun, word, nests)?;
    }
    Ok(begun)
}

/// The empty nest, and the structures with these nests behind their words.
fn nested(alloc: Global, nests: &[Nest]) -> Result<Vec<Nest>, Fail> {
    let mut all = empty(alloc)?;
    for structure in STRUCTURES.lines() {
        for nest in filled(alloc, structure, nests)? {
            all.push(nest)?;
        }
    }
    Ok(all)
}

/// All nests: of seven words at most, in which there are three structures at most.
fn all_nests(alloc: Global) -> Result<Vec<Nest>, Fail> {
    let mut nests = empty(alloc)?;
    for _ in 0..3 {
        nests = nested(alloc, &nests)?;
    }
    Ok(nests)
}

/// Makes a step.
fn step(machine: &mut ScriptMachine) -> Result<(), Fail> {
    machine.run(1)?;
    Ok(())
}

/// Goes on until an item comes next.
fn find_item(machine: &mut ScriptMachine) -> Result<(), Fail> {
    for _ in 0..60 {
        if machine.place().is_some() {
            break;
        }
        step(machine)?;
    }
    Ok(())
}

/// Appends the number of the item that comes next, and the data stack.
fn push_spot(text: &mut String, machine: &ScriptMachine) -> Result<(), Fail> {
    if let Some(place) = machine.place() {
        write!(text, "{}:", place.item)?;
        for cell in machine.stack() {
            write!(text, "{} ", cell.0)?;
        }
    }
    Ok(())
}

/// The items that are done, ten at most, each with the stack before it.
fn trace(alloc: Global, machine: &mut ScriptMachine) -> Result<String, Fail> {
    let mut text = String::new(alloc);
    find_item(machine)?;
    for _ in 0..10 {
        push_spot(&mut text, machine)?;
        step(machine)?;
    }
    Ok(text)
}

/// Begins a line.
fn read(machine: &mut ScriptMachine, line: &str) -> Result<(), Refusal> {
    machine.line(line.as_bytes())
}

/// Begins an image.
fn load(machine: &mut ScriptMachine, image: &[u8]) -> Result<(), Fail> {
    machine.load(image, "/slot")?;
    Ok(())
}

/// A machine on which nothing ran yet.
fn new_machine(alloc: Global) -> Result<ScriptMachine, Fail> {
    Ok(script_machine(alloc)?)
}

/// What is done with a value, which is let go then. It is any value here: where a function has a machine as its own,
/// its proof goes through all that a machine holds wherever the function may end.
fn lend<V: Drop, T, F: FnOnce(&mut V) -> Result<T, Fail>>(mut value: V, act: F) -> Result<T, Fail>
    requires { F.IsAlwaysCallable act }
{
    act(&mut value)
}

/// Puts a value in the place of another one, which is let go.
fn replace<V: Drop>(place: &mut V, value: V) {
    *place = value;
}

/// What a line does on a machine.
fn traced(alloc: Global, machine: &mut ScriptMachine, line: &str) -> Result<String, Fail> {
    read(machine, line)?;
    trace(alloc, machine)
}

/// The same on a new machine.
fn trace_line(alloc: Global, line: &str) -> Result<String, Fail> {
    lend(new_machine(alloc)?, |machine| traced(alloc, machine, line))
}

/// What a line does that defines a nest and runs it on these numbers.
fn by_line(alloc: Global, nest: &str, numbers: &str) -> Result<String, Fail> {
    let line = format!(in alloc; "{numbers} : t {nest}; t")?;
    trace_line(alloc, line.as_str())
}

/// What a line prints on a machine.
fn printed_behind(alloc: Global, machine: &mut ScriptMachine, line: &str) -> Result<String, Fail> {
    read(machine, line)?;
    machine.run(60)?;
    let mut text = String::new(alloc);
    let shown = std::str::from_utf8(machine.console()).unwrap_or("");
    text.push_str(shown)?;
    Ok(text)
}

/// What `see` prints of the definition that a line makes of a nest.
fn printed(alloc: Global, nest: &str) -> Result<String, Fail> {
    let line = format!(in alloc; ": t {nest}; see t")?;
    lend(
        new_machine(alloc)?,
        |machine| printed_behind(alloc, machine, line.as_str()),
    )
}

/// What a line does that defines a nest anew, by what `see` prints of it, and runs it on these numbers.
fn by_see(alloc: Global, nest: &str, numbers: &str) -> Result<String, Fail> {
    let text = printed(alloc, nest)?;
    let line = format!(in alloc; "{numbers} {text} t")?;
    trace_line(alloc, line.as_str())
}

/// What `see` prints of the word `t`.
fn seen(alloc: Global, machine: &ScriptMachine) -> Result<Vec<u8>, Fail> {
    match machine.word(b"t") {
        Some(xt) => Ok(machine.see(alloc, xt)?),
        None => Ok(Vec::new(alloc)),
    }
}

/// What `see` prints of the word `t` that a line makes.
fn seen_behind(alloc: Global, machine: &mut ScriptMachine, line: &[u8]) -> Result<Vec<u8>, Fail> {
    machine.line(line)?;
    machine.run(60)?;
    seen(alloc, machine)
}

/// The image of a source.
fn image_of(alloc: Global, text: &str) -> Result<Vec<u8>, Fail> {
    let source = parse(alloc, text.as_bytes())?;
    Ok(tokenize(alloc, &source)?)
}

/// What an image does on a machine.
fn trace_image(alloc: Global, machine: &mut ScriptMachine, image: &[u8]) -> Result<String, Fail> {
    load(machine, image)?;
    trace(alloc, machine)
}

/// What an image does that defines a nest and runs it on these numbers.
fn by_image(alloc: Global, nest: &str, numbers: &str) -> Result<String, Fail> {
    let text = format!(in alloc; "fcode-version2 headerless {numbers} : t {nest}; t fcode-end")?;
    let image = image_of(alloc, text.as_str())?;
    lend(
        new_machine(alloc)?,
        |machine| trace_image(alloc, machine, &image),
    )
}

/// Sees that a nest is done alike on each stack.
fn check_nest<R: Abort>(rt: &R, alloc: Global, nest: &str) -> Result<(), Fail> {
    for numbers in STACKS {
        let (read, loaded) = (
            by_line(alloc, nest, numbers)?,
            by_image(alloc, nest, numbers)?,
        );
        assert!(rt; !read.is_empty(), "{nest}");
        assert!(rt;
            read.as_str() == loaded.as_str(),
            "{nest}: {read}: {loaded}"
        );
    }
    Ok(())
}

/// Sees that what `see` prints of a nest is done as the nest, on each stack.
fn check_printed<R: Abort>(rt: &R, alloc: Global, nest: &str) -> Result<(), Fail> {
    for numbers in STACKS {
        let (read, seen) = (
            by_line(alloc, nest, numbers)?,
            by_see(alloc, nest, numbers)?,
        );
        assert!(rt; read.as_str() == seen.as_str(), "{nest}: {read}: {seen}");
    }
    Ok(())
}

/// Sees that what `see` prints of a nest makes a word more, of which it prints the same.
fn check_again<R: Abort>(
    rt: &R,
    alloc: Global,
    machine: &mut ScriptMachine,
    nest: &str,
) -> Result<(), Fail> {
    let line = format!(in alloc; ": t {nest};")?;
    let first = seen_behind(alloc, machine, line.as_bytes())?;
    let made = machine.made();
    let again = seen_behind(alloc, machine, &first)?;
    assert_eq!(rt; machine.made(), made.saturating_add(1), "{nest}");
    assert!(rt; first == again, "{nest}");
    Ok(())
}

/// There are 6,949 of them, by the lengths of what stands behind each word.
#[test]
fn nests_are_done_alike(rt: HostRuntime) -> Result<(), Fail> {
    let nests = all_nests(rt.alloc())?;
    assert_eq!(rt; nests.len(), 6_949);
    for nest in &nests {
        check_nest(&rt, rt.alloc(), nest.text.as_str())?;
    }
    Ok(())
}

/// Those of up to five words.
#[test]
fn printed_nests_are_done_alike(rt: HostRuntime) -> Result<(), Fail> {
    let nests = all_nests(rt.alloc())?;
    for nest in &nests {
        if nest.length <= 5 {
            check_printed(&rt, rt.alloc(), nest.text.as_str())?;
        }
    }
    Ok(())
}

/// Sees the same of all nests; a machine takes 2,000, since its code has room for so many.
fn check_all_again<R: Abort>(
    rt: &R,
    alloc: Global,
    machine: &mut ScriptMachine,
) -> Result<(), Fail> {
    for nest in all_nests(alloc)? {
        if machine.made() >= 4_000 {
            replace(machine, new_machine(alloc)?);
        }
        check_again(rt, alloc, machine, nest.text.as_str())?;
    }
    Ok(())
}

/// All of them.
#[test]
fn printed_nests_print_alike(rt: HostRuntime) -> Result<(), Fail> {
    let alloc = rt.alloc();
    lend(
        new_machine(alloc)?,
        |machine| check_all_again(&rt, alloc, machine),
    )
}

/// Sees that the name of two nests is listed once.
fn check_listed<R: Abort>(rt: &R, alloc: Global, machine: &mut ScriptMachine) -> Result<(), Fail> {
    check_again(rt, alloc, machine, "if then ")?;
    check_again(rt, alloc, machine, "do loop ")?;
    assert_eq!(rt; machine.words(alloc)?.as_slice(), b"t \n".as_slice());
    Ok(())
}

/// The name of all of them is listed once.
#[test]
fn the_name_is_listed_once(rt: HostRuntime) -> Result<(), Fail> {
    let alloc = rt.alloc();
    lend(
        new_machine(alloc)?,
        |machine| check_listed(&rt, alloc, machine),
    )
}

/// The laws hold.
#[test]
fn laws() {
    printed_words_are_remade();
    see_reads_back();
}
