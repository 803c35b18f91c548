//! What stands next in a text, by worked lines. The execution tokens of written words are those of their list, from
//! c0000000 on, four apart; own words begin at c000052c.

use of_cells::Cell;
use of_code::ListCode;
use of_compile::{DefiningWord, Words};
use of_memory::Memory;
use of_nodes::{Phandle, Tree};
use of_stacks::{DataStack, Throw};
use of_text::{Names, Part, TextWord, read, stream_words_have_no_name};
use std::alloc::Global;
use std::process::Abort;
use std::test::Fail;

/// The root, which is the package of the rows.
const ROOT: Phandle = Phandle(Cell(0xd000_0000));

/// `m` where the package is active whose method `ping` is c0000530, else `g`; the number in `base`; a text, a position,
/// what stands next, and the position behind that. All numbers but positions are in hexadecimal; `!` stands before a
/// throw, and `~` for the end of a line.
///
/// The global words: `ping` c000052c, `pong` c0000530, `10` c0000534, `Mixed` c0000538, and `now` c000053c, which is
/// immediate.
const READ: &str = r#"g|10|ping|0|found c000052c no|4
m|10|ping|0|found c0000530 no|4
m|10|pong|0|found c0000530 no|4
g|10| PING x|0|found c000052c no|5
g|10|mixed|0|found c0000538 no|5
g|10|now|0|found c000053c yes|3
g|10|10|0|found c0000534 no|2
g|10|11|0|number 11|2
g|a|11|0|number b|2
g|10|-1|0|found c00002d8 no|2
g|10|-2|0|number fffffffe|2
g|10|ffffffff|0|number ffffffff|8
g|10|100000000|0|number !-13|9
g|1|11|0|number !-24|2
g|1|nope|0|number !-24|4
g|25|dup|0|found c0000130 no|3
g|10|nope|0|number !-13|4
g|10|dup|0|found c0000130 no|3
g|10|Dup|0|found c0000130 no|3
g|10|1+|0|found c0000400 no|2
g|10|immediate|0|found c0000454 no|9
g|10|instance|0|found c0000318 no|8
g|10|b(lit)|0|number !-13|6
g|10|new-token|0|number !-13|9
g|10||0|end|0
g|10|  |0|end|2
g|10|dup|9|end|9
g|10|dup swap|3|found c0000138 no|8
g|10|dup~swap|3|found c0000138 no|8
g|10|: ping dup|0|colon 2 6|6
g|10|constant  x|0|constant 10 11|11
g|10|value x|0|value 6 7|7
g|10|variable x|0|variable 9 10|10
g|10|create x|0|create 7 8|8
g|10|defer x|0|defer 6 7|7
g|10|buffer: x|0|buffer 8 9|9
g|10|field~x|0|field 6 7|7
g|10|:|0|colon 1 1|1
g|10|: |0|colon 2 2|2
g|10|' dup|0|tick c0000130|5
m|10|' ping|0|tick c0000530|6
g|10|' if|0|tick c00004c8|4
g|10|' b(lit)|0|tick !-13|8
g|10|' 11|0|tick !-13|4
g|10|' 10|0|tick c0000534|4
g|10|'|0|tick !-16|1
g|10|to pong|0|to c0000530|7
g|10|to nope|0|to !-13|7
g|10|to|0|to !-16|2
g|10|see now|0|see c000053c|7
g|10|dev /slot x|0|device 4 9|9
g|10|dev|0|device 3 3|3
g|10|s" hello" dup|0|plain 3 8|9
g|10|s"  hello" dup|0|plain 3 9|10
g|10|s" a~b|0|plain 3 6|6
g|10|s""a"|0|number !-13|5
g|10|s"|0|plain 2 2|2
g|10|s" |0|plain 3 3|3
g|10|." x"|0|printed 3 4|5
g|10|" a"(41)b" dup|0|quoted 2|10
g|10|" a" (41)|0|quoted 2|4
g|10|" open|0|quoted 2|6
g|10|h# 1f|0|number 1f|5
g|1|h# 1f|0|number 1f|5
g|10|d# 31|0|number 1f|5
g|10|d# 1f|0|number !-13|5
g|10|h#|0|number !-13|2
g|10|char a|0|char 61|6
g|10|char ab|0|char 61|7
g|10|char|0|char !-16|4
g|10|['] dup|0|bracket-tick c0000130|7
g|10|[char] ab|0|bracket-char 61|9
g|10|[char]|0|bracket-char !-16|6
g|10|( a~comment) dup|0|comment|12
g|10|( open|0|comment|6
g|10|()|0|number !-13|2
g|10|\ line~dup|0|comment|7
g|10|\~dup|0|comment|2
g|10|\|0|comment|1
g|10|if dup|0|compiling 132|2
g|10|;|0|compiling 131|1
g|10|[|0|compiling 146|1
g|10|recurse|0|compiling 144|7
"#;

/// Names, whether the package is active (`m`) or not (`g`), and what each finds, in hexadecimal, or `none`.
const FOUND: &str = "\
g ping c000052c
m ping c0000530
g MIXED c0000538
g if c00004c8
g dup c0000130
g b(lit) none
g 11 none
";

/// Defines a constant.
fn define(
    words: &mut Words,
    name: &str,
    stack: &mut DataStack,
    memory: &mut Memory,
    alloc: Global,
) -> Result<(), Fail> {
    stack.try_push(Cell(0))?;
    let code = ListCode::new(alloc);
    words.define_named(
        DefiningWord::Constant,
        name.as_bytes(),
        &code,
        stack,
        memory,
    )?;
    Ok(())
}

/// The words of the rows.
fn defined(memory: &mut Memory, alloc: Global) -> Result<Words, Fail> {
    let mut words = Words::new(alloc)?;
    let mut stack = DataStack::new();
    for name in "ping pong 10 Mixed now".split_whitespace() {
        define(&mut words, name, &mut stack, memory, alloc)?;
    }
    words.make_immediate()?;
    Ok(words)
}

/// The tree of the rows, with the package that has the method.
fn planted(memory: &mut Memory, alloc: Global) -> Result<Tree, Fail> {
    let mut tree = Tree::new(alloc, memory)?;
    tree.add_method(ROOT, b"ping", Cell(0xc000_0530))?;
    Ok(tree)
}

/// A number or execution token, or the throw in its place.
fn answer(alloc: Global, kind: &str, given: Result<Cell, Throw>) -> Result<String, Fail> {
    match given {
        Ok(Cell(x)) => Ok(format!(in alloc; "{kind} {x:x}")?),
        Err(Throw(number)) => Ok(format!(in alloc; "{kind} !{number}")?),
    }
}

/// The name of a defining word.
fn named(word: DefiningWord) -> &'static str {
    match word {
        DefiningWord::Colon => "colon",
        DefiningWord::Constant => "constant",
        DefiningWord::Value => "value",
        DefiningWord::Variable => "variable",
        DefiningWord::Create => "create",
        DefiningWord::Defer => "defer",
        DefiningWord::Buffer => "buffer",
        DefiningWord::Field => "field",
    }
}

/// A word of a text, as a row has it.
fn shown(alloc: Global, word: TextWord) -> Result<String, Fail> {
    match word {
        TextWord::End => Ok("end".to_string(alloc)?),
        TextWord::Comment => Ok("comment".to_string(alloc)?),
        TextWord::Found {
            xt,
            immediate: true,
        } => Ok(format!(in alloc; "found {:x} yes", xt.0)?),
        TextWord::Found {
            xt,
            immediate: false,
        } => Ok(format!(in alloc; "found {:x} no", xt.0)?),
        TextWord::Number(number) => answer(alloc, "number", number),
        TextWord::Tick(xt) => answer(alloc, "tick", xt),
        TextWord::To(xt) => answer(alloc, "to", xt),
        TextWord::See(xt) => answer(alloc, "see", xt),
        TextWord::Char(byte) => answer(alloc, "char", byte),
        TextWord::BracketTick(xt) => answer(alloc, "bracket-tick", xt),
        TextWord::BracketChar(byte) => answer(alloc, "bracket-char", byte),
        TextWord::Defining(word, part) => {
            Ok(format!(in alloc; "{} {} {}", named(word), part.begin, part.end)?)
        }
        TextWord::Device(part) => Ok(format!(in alloc; "device {} {}", part.begin, part.end)?),
        TextWord::Plain(part) => Ok(format!(in alloc; "plain {} {}", part.begin, part.end)?),
        TextWord::Printed(part) => Ok(format!(in alloc; "printed {} {}", part.begin, part.end)?),
        TextWord::Quoted(begin) => Ok(format!(in alloc; "quoted {begin}")?),
        TextWord::Compiling(word) => Ok(format!(in alloc; "compiling {:x}", word as u16)?),
    }
}

/// What the texts of rows are read over.
#[derive(Drop)]
struct Scene {
    tree: Tree,
    words: Words,
    memory: Memory,
}

impl Scene {
    fn new(alloc: Global) -> Result<Scene, Fail> {
        let mut memory = Memory::new(alloc)?;
        let tree = planted(&mut memory, alloc)?;
        let words = defined(&mut memory, alloc)?;
        Ok(Scene {
            tree,
            words,
            memory,
        })
    }

    /// Where names are looked up: with the package active (`m`) or not.
    fn names(&self, mark: &str) -> Names<'_> {
        let home = if mark == "m" { Some(ROOT) } else { None };
        Names {
            tree: &self.tree,
            home,
            words: &self.words,
        }
    }

    /// What stands next in a text, with the position behind it.
    fn read(
        &self,
        alloc: Global,
        mark: &str,
        text: &str,
        at: usize,
    ) -> Result<(String, usize), Fail> {
        let text: Vec<u8> = text
            .bytes()
            .map(|byte| if byte == b'~' { b'\n' } else { byte })
            .collect(alloc)?;
        let found = read(&self.names(mark), &self.memory, &text, at);
        Ok((shown(alloc, found.word)?, found.next))
    }
}

/// Reads a row's text.
fn row(rt: &impl Abort, alloc: Global, line: &str, scene: &mut Scene) -> Result<(), Fail> {
    let fields: Vec<&str> = line.split('|').collect(alloc)?;
    let [mark, base, text, at, wanted, next] = fields.as_slice() else {
        return Err(Fail::new("a line of another form"));
    };
    scene
        .memory
        .write32(Cell(0x50_0000), Cell(u32::from_str_radix(base, 16)?))?;
    let (word, behind) = scene.read(alloc, mark, text, at.parse()?)?;
    assert_eq!(rt; &word.as_str(), wanted, "{line}");
    assert_eq!(rt; behind, next.parse::<usize>()?, "{line}");
    Ok(())
}

#[test]
fn words_of_texts(rt: HostRuntime) -> Result<(), Fail> {
    let mut scene = Scene::new(rt.alloc())?;
    for line in READ.lines() {
        row(&rt, rt.alloc(), line, &mut scene)?;
    }
    Ok(())
}

/// What a name finds, and the bytes of the name as a part of the row.
fn find(rt: &impl Abort, alloc: Global, line: &str, scene: &Scene) -> Result<(), Fail> {
    let fields: Vec<&str> = line.split_whitespace().collect(alloc)?;
    let [mark, name, wanted] = fields.as_slice() else {
        return Err(Fail::new("a line of another form"));
    };
    let part = Part {
        begin: 2,
        end: 2 + name.len(),
    };
    let found = match scene.names(mark).xt(part.of(line.as_bytes())) {
        Some(xt) => format!(in alloc; "{:x}", xt.0)?,
        None => "none".to_string(alloc)?,
    };
    assert_eq!(rt; &found.as_str(), wanted, "{line}");
    Ok(())
}

#[test]
fn names_of_texts(rt: HostRuntime) -> Result<(), Fail> {
    let scene = Scene::new(rt.alloc())?;
    for line in FOUND.lines() {
        find(&rt, rt.alloc(), line, &scene)?;
    }
    stream_words_have_no_name();
    Ok(())
}
