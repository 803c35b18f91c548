//! The words that define, and the words on words and numbers, by worked lines: what is left on the stack, or the
//! throw. Execution tokens and addresses are counted by hand: own words begin at c000052c, four apart, and the data
//! region at 100000.

use of_cells::Cell;
use of_code::ListCode;
use of_compile::{
    Coding, DefiningWord, TokenMaker, Words, abandon_definition, compile_call, end_definition,
};
use of_dict::{Kind, OwnWord};
use of_fcodes::FCode;
use of_memory::Memory;
use of_stacks::{DataStack, Stop, Throw};
use std::alloc::{AllocError, Global};
use std::test::Fail;

/// What the words of a line work on.
#[derive(Drop)]
pub(crate) struct Bench {
    words: Words,
    coding: Coding<ListCode>,
    stack: DataStack,
    memory: Memory,
}

impl Bench {
    pub(crate) fn new(alloc: Global) -> Result<Bench, AllocError> {
        Ok(Bench {
            words: Words::new(alloc)?,
            coding: Coding::new(ListCode::new(alloc)),
            stack: DataStack::new(),
            memory: Memory::new(alloc)?,
        })
    }

    /// Runs a word of a line, and answers its throw.
    fn run(&mut self, word: &str) -> Result<(), Stop> {
        match u32::from_str_radix(word, 16) {
            Ok(number) => Ok(self.stack.try_push(Cell(number))?),
            Err(_) => self.named(word),
        }
    }

    /// A word of dictionary and stack, or one with parts behind colons.
    fn named(&mut self, word: &str) -> Result<(), Stop> {
        match word {
            "get-token" => Ok(self.words.get_token(&mut self.stack)?),
            "set-token" => Ok(self.words.set_token(&mut self.stack)?),
            "behavior" => Ok(self.words.behavior(&mut self.stack)?),
            ">body" => Ok(self.words.to_body(&mut self.stack)?),
            "body>" => Ok(self.words.from_body(&mut self.stack)?),
            "immediate" => Ok(self.words.make_immediate()?),
            "drop" => {
                self.stack.pop()?;
                Ok(())
            }
            "fill" => self.fill(),
            "crowd" => self.crowd(),
            _ => self.coded(word),
        }
    }

    /// Pushes cells of 0 until there are 256.
    fn fill(&mut self) -> Result<(), Stop> {
        for _ in self.stack.depth()..256 {
            self.stack.try_push(Cell(0))?;
        }
        Ok(())
    }

    /// Makes words without a name until 8,192 were made.
    fn crowd(&mut self) -> Result<(), Stop> {
        for _ in self.words.dictionary().made()..8192 {
            self.parted("new:fff")?;
            self.defining("create")?;
        }
        Ok(())
    }

    /// A word of the open definition.
    fn coded(&mut self, word: &str) -> Result<(), Stop> {
        self.coding.reserve(1)?;
        match word {
            ";" => Ok(end_definition(&mut self.words, &mut self.coding)?),
            "compile," => Ok(compile_call(&self.words, &mut self.coding, &mut self.stack)?),
            "give-up" => {
                abandon_definition(&mut self.words, &mut self.coding);
                Ok(())
            }
            "debug" => {
                let _ = self.memory.write32(Cell(0x50_0004), Cell(1));
                Ok(())
            }
            _ => self.defining(word),
        }
    }

    /// A defining word of an image.
    fn defining(&mut self, word: &str) -> Result<(), Stop> {
        let Some(defining) = defining_word(word) else {
            return self.parted(word);
        };
        self.words.define(
            defining,
            self.coding.code(),
            &mut self.stack,
            &mut self.memory,
        )
    }

    /// A defining word of a text.
    fn naming(&mut self, word: &str, name: &[u8]) -> Result<(), Stop> {
        let Some(defining) = defining_word(word) else {
            return Ok(());
        };
        self.words.define_named(
            defining,
            name,
            self.coding.code(),
            &mut self.stack,
            &mut self.memory,
        )
    }

    /// A word with an FCode, a name or a word behind it: `new:800`, `external:801:abc`, `to:800`, `find:abc`,
    /// `flag:abc`, `kind:800`, `does:abc`, `text:constant:abc`.
    fn parted(&mut self, word: &str) -> Result<(), Stop> {
        let mut parts = word.split(':');
        let kind = parts.next().unwrap_or("");
        let text = parts.next().unwrap_or("");
        let code = FCode(u16::from_str_radix(text, 16).unwrap_or(0));
        let name = parts.next().unwrap_or("").as_bytes();
        let xt = self.xt_of(code);
        match kind {
            "new" => Ok(self.words.announce(TokenMaker::New, code, &self.memory)?),
            "named" => Ok(
                self.words
                    .announce(TokenMaker::Named(name), code, &self.memory)?,
            ),
            "external" => Ok(
                self.words
                    .announce(TokenMaker::External(name), code, &self.memory)?,
            ),
            "to" => Ok(self.words.store(xt, &mut self.stack)?),
            "kind" => self.push_kind(xt),
            "does" => self.push_kind(self.found(text)),
            "text" => self.naming(text, name),
            "word" => Ok(self.stack.try_push(Cell::flag(self.words.is_word(xt)))?),
            "hide" => {
                if let Some(word) = self.words.dictionary().find(text.as_bytes()) {
                    self.words.hide(word);
                }
                Ok(())
            }
            _ => {
                let asked = self.asked(kind, text);
                Ok(self.stack.try_push(asked)?)
            }
        }
    }

    /// What a line asks of the words: an execution token, or 0, or whether a defining word makes a word, or whether a
    /// word is immediate.
    fn asked(&self, kind: &str, text: &str) -> Cell {
        match kind {
            "open" => self.words.open_xt().unwrap_or(Cell::ZERO),
            "opened" => xt_of(self.words.named_open().map(|word| word.0)),
            "next" => xt_of(self.words.named_next().map(|word| word.0)),
            "may" => Cell::flag(self.words.may_define()),
            "find" => self.found(text),
            "now" => Cell::flag(self.words.is_immediate_at(self.found(text))),
            _ => self.flag_of(text),
        }
    }

    /// The execution token of the word of a name, or 0.
    fn found(&self, name: &str) -> Cell {
        xt_of(self.words.dictionary().find(name.as_bytes()))
    }

    /// Pushes what the own word of an execution token keeps, and the number of its kind.
    fn push_kind(&mut self, xt: Cell) -> Result<(), Stop> {
        let (kept, number) = match self.words.kind_at(xt) {
            Some(Kind::Colon { start }) => (Cell(start), 1),
            Some(Kind::Constant { value }) => (value, 2),
            Some(Kind::Value { value }) => (value, 3),
            Some(Kind::Variable { address }) => (address, 4),
            Some(Kind::Create { address }) => (address, 5),
            Some(Kind::Defer { xt }) => (xt, 6),
            Some(Kind::Buffer { address }) => (address, 7),
            Some(Kind::Field { offset }) => (offset, 8),
            _ => (Cell(0), 9),
        };
        self.stack.try_push(kept)?;
        Ok(self.stack.try_push(Cell(number))?)
    }

    /// What an FCode names, or 0.
    fn xt_of(&self, code: FCode) -> Cell {
        match self.words.table().get(code) {
            Some(entry) => Cell(entry.xt),
            None => Cell(0),
        }
    }

    /// Whether the word of a name is immediate.
    fn flag_of(&self, name: &str) -> Cell {
        match self.words.dictionary().find(name.as_bytes()) {
            Some(word) => Cell::flag(self.words.dictionary().is_immediate(word)),
            None => Cell(0),
        }
    }
}

/// The defining word of a name.
fn defining_word(name: &str) -> Option<DefiningWord> {
    match name {
        "colon" => Some(DefiningWord::Colon),
        "value" => Some(DefiningWord::Value),
        "constant" => Some(DefiningWord::Constant),
        "variable" => Some(DefiningWord::Variable),
        "create" => Some(DefiningWord::Create),
        "defer" => Some(DefiningWord::Defer),
        "buffer" => Some(DefiningWord::Buffer),
        "field" => Some(DefiningWord::Field),
        _ => None,
    }
}

/// The execution token of a word that was found, or 0.
fn xt_of(word: Option<OwnWord>) -> Cell {
    match word {
        Some(OwnWord(number)) => Cell(0xc000_052c_u32.wrapping_add(number.wrapping_mul(4))),
        None => Cell(0),
    }
}

/// The words of a line, and behind `->` the cells that are left, or a throw.
const LINES: &str = "\
new:800 5 constant 800 get-token kind:800 -> c000052c 0 5 2
open: word:800 word:801 -> 0 ffffffff 0
5 constant -> throw -29
external:801:abc 7 value find:ABC -> c0000530
kind:801 9 to:801 kind:801 -> 7 3 9 3
801 get-token drop behavior -> throw -32
new:802 variable 802 get-token drop >body -> 100000
new:803 create 803 get-token drop >body -> 100004
100004 body> -> c0000538
100000 body> -> c0000534
800 get-token drop >body -> throw -31
5 body> -> throw -263
9 body> -> throw -263
new:804 9 buffer new:805 create 805 get-token drop >body -> 100010
kind:802 kind:803 kind:804 -> 100000 4 100004 5 100004 7
new:806 2 3 field kind:806 -> 5 2 8
new:807 defer 807 get-token drop behavior -> 0
c0000080 to:807 807 get-token drop behavior -> c0000080
5 to:800 -> throw -32
to:801 -> throw -4
to:800 -> throw -4
new:7ff -> throw -24
external:808: -> throw -16
external:700: -> throw -16
external:808:abcdefghijklmnopqrstuvwxyz123456 -> throw -19
named:808:hidden 1 constant find:hidden -> 0
debug named:809:shown 1 constant find:shown -> c0000550
new:80a value -> throw -4
5 value 80a get-token -> c0000554 0
80b get-token -> throw -256
ffff get-token -> throw -256
; -> throw -29
c0000080 compile, -> throw -14
compile, -> throw -14
external:80c:loop colon open: find:loop may: 80c get-token -> c0000558 0 0 c0000558 0
new:80d -> throw -29
1 constant -> throw -29
5 compile, -> throw -263
compile, -> throw -4
c0000080 compile, ; find:loop flag:loop kind:80c -> c0000558 0 0 1
immediate flag:loop 80c get-token -> ffffffff c0000558 0
next: opened: hide:loop find:loop -> 0 0 0
external:80d:gone colon c0000558 compile, give-up 80d get-token -> throw -256
external:80e:next next: colon opened: next: ; kind:80e -> c0000560 c0000560 0 2 1
may: new:80f next: may: -> 0 0 ffffffff
find:gone new:80d 1 constant 80d get-token -> 0 c0000564 0
c0000080 1 810 set-token 810 get-token -> c0000080 ffffffff
c0000530 0 810 set-token 810 get-token -> c0000530 0
5 1 810 set-token -> throw -263
c000055c 1 810 set-token -> throw -263
c0000568 1 810 set-token -> throw -263
c0000080 1 7ff set-token -> throw -24
5 1 7ff set-token -> throw -263
c0000080 1 1000 set-token -> throw -24
1 810 set-token -> throw -4
c0000080 >body -> throw -31
c0000080 behavior -> throw -32
1234 >body -> throw -263
1234 behavior -> throw -263
c0001000 >body -> throw -263
c0001000 behavior -> throw -263
>body -> throw -4
behavior -> throw -4
1234 body> -> throw -263
new:811 create new:812 create 100010 body> -> c000056c
new:813 fffffffc buffer -> throw -8
fill drop 800 get-token -> throw -3
fill drop 80b get-token -> throw -256
crowd fff get-token -> c0008528 0
constant -> throw -29
new:800 constant -> throw -4
5 constant -> throw -8
800 get-token kind:800 -> c000052c 0 5 2
";

/// The throw of a line's words, or none.
fn run_words(bench: &mut Bench, words: &str) -> i64 {
    for word in words.split_whitespace() {
        match bench.run(word) {
            Ok(()) => {}
            Err(Stop::Thrown(Throw(number))) => return i64::from(number),
            Err(Stop::NoMemory) => return 1,
        }
    }
    0
}

/// Whether the cells of a stack, the top last, are those of a text.
fn leaves(stack: &DataStack, text: &str) -> bool {
    let mut cells = stack.cells().iter();
    for word in text.split_whitespace() {
        match (cells.next(), u32::from_str_radix(word, 16)) {
            (Some(cell), Ok(number)) if cell.0 == number => {}
            _ => return false,
        }
    }
    cells.next().is_none()
}

/// Whether a line's words leave or throw what stands behind them.
pub(crate) fn holds(bench: &mut Bench, line: &str) -> bool {
    let Some((words, expected)) = line.split_once(" -> ") else {
        return false;
    };
    bench.stack.cut_to(0);
    let thrown = run_words(bench, words);
    match expected.strip_prefix("throw ") {
        Some(number) => number.parse() == Ok(thrown),
        None => thrown == 0 && leaves(&bench.stack, expected),
    }
}

#[test]
fn lines(rt: HostRuntime) -> Result<(), Fail> {
    let mut bench = Bench::new(rt.alloc())?;
    for line in LINES.lines() {
        assert!(rt; holds(&mut bench, line), "{line}");
    }
    Ok(())
}
