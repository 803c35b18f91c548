//! What `see` prints, by worked lines. Own words begin at c000052c, four apart. A definition is compiled from its line
//! by the words that stand next in it; what is printed of each is worked by hand from the rules of `see`.

use of_cells::Cell;
use of_code::ListCode;
use of_compile::{
    Coding, DefiningWord, Element, PlainItem, TokenMaker, Words, called, compile_call,
    end_definition, text_elements,
};
use of_fcodes::{CompilingWord, FCode};
use of_memory::Memory;
use of_nodes::{Phandle, Tree};
use of_scan::Rest;
use of_see::{
    begins_are_counted, plain_items_are_listed, see_text, strings_read_back, thens_are_counted,
    words_read_back,
};
use of_see_laws::{
    printed_definitions_have_their_bodies, printed_elements_have_the_body, text_scans_back,
};
use of_stacks::DataStack;
use of_text::{Found, Names, Part, TextWord, read};
use std::alloc::Global;
use std::process::Abort;
use std::test::Fail;

/// The root, which is the package of the lines.
const ROOT: Phandle = Phandle(Cell(0xd000_0000));

/// Branches, loops and cases. Behind `=` stands what the `see` above it prints.
const STRUCTURES: &str = "\
: t begin dup while 1- repeat ;
see t
= : t begin dup if 1- again then ;
: t if dup if drop else swap then then ;
see t
= : t if dup if drop ahead [ h# 1 ] cs-roll then swap then then ;
: t if if ahead [ h# 2 ] cs-roll then dup then then ;
see t
= : t if if ahead [ h# 2 ] cs-roll then dup then then ;
: t if if ahead [ h# 1 ] cs-roll then dup [ h# 1 ] cs-roll then swap then ;
see t
= : t if if ahead [ h# 1 ] cs-roll then dup [ h# 1 ] cs-roll then swap then ;
: t begin begin dup until swap again ;
see t
= : t begin begin dup until swap again ;
: t begin dup begin swap until again ;
see t
= : t begin dup begin swap until again ;
: t if drop then begin dup until ;
see t
= : t if drop then begin dup until ;
: t begin again ;
see t
= : t begin again ;
: t begin dup while swap while 1- repeat then ;
see t
= : t begin dup if swap if 1- again then then ;
: t 10 0 do i 4 = if leave then loop ;
see t
= : t h# 10 0 do i h# 4 = if leave then loop ;
: t ?do do leave 2 +loop leave loop ;
see t
= : t ?do do leave 2 +loop leave loop ;
: t case 4 of dup endof 5 of drop endof swap endcase ;
see t
= : t h# 4 case of dup endof h# 5 of drop endof swap endcase ;
: t case dup endcase ;
see t
= : t dup case endcase ;
: t case 4 of case 5 of 1 endof endcase endof endcase ;
see t
= : t h# 4 case of h# 5 case of 1 endof endcase endof endcase ;
: t case 4 of endof case 5 of endof endcase endcase ;
see t
= : t h# 4 case of endof h# 5 case of endof endcase endcase ;
: t case 4 of endof endcase case 5 of endof endcase ;
see t
= : t h# 4 case of endof endcase h# 5 case of endof endcase ;
: t case 4 of if exit then endof endcase ;
see t
= : t h# 4 case of if exit then endof endcase ;
: t ;
see t
= : t ;
";

/// Literals, strings, and words by their names or by their execution tokens.
const WORDS: &str = "\
: t 10 -2 ffffffff 3 ;
see t
= : t h# 10 h# fffffffe h# ffffffff 3 ;
base a
: u 26 ;
see u
= : u h# 1a ;
base 10
: s \" a\"(22 0a 7f ff)b(c) ~\" type ;
see s
= : s \" a\"(22)\"(0a)\"(7f)\"(ff)b(c) ~\" type ;
: empty \" \" ;
see EMPTY
= : empty \" \" ;
: r dup if 1- recurse then ;
see r
= : r dup if 1- recurse then ;
: Deep t EMPTY ;
see deep
= : Deep t empty ;
: t ;
see deep
= : Deep [ h# c000052c compile, ] empty ;
see t
= : t ;
immediate
: calls [ h# c0000544 compile, ] ;
see calls
= : calls [ h# c0000544 compile, ] ;
: written [ h# c00004c8 compile, h# c0000474 compile, h# c0000008 compile, h# c0000130 compile, ] ;
see written
= : written [ h# c00004c8 compile, ] [ h# c0000474 compile, ] [ h# c0000008 compile, ] dup ;
: two_words ;
: one [ h# c0000550 compile, ] ;
see one
= : one [ h# c0000550 compile, ] ;
: over ;
: hides [ h# c0000134 compile, ] over ;
see hides
= : hides [ h# c0000134 compile, ] over ;
";

/// Stores, and words that are no colon definitions.
const STORES: &str = "\
4 value Speed
: t 5 to speed speed ;
see t
= : t h# 5 to Speed Speed ;
see SPEED
= value Speed
: now 5 to speed speed ; immediate
see now
= : now h# 5 to Speed Speed ;
defer later
immediate
: u to later ;
see u
= : u to later ;
see later
= defer later
4 value speed
see t
= : t h# 5 [ h# c000052c ] to, [ h# c000052c compile, ] ;
: itself [ h# c0000544 ] to, ;
see itself
= : itself [ h# c0000544 ] to, ;
4 constant Five
see five
= constant Five
variable x
see x
= variable x
create y
see y
= create y
4 buffer: room
see room
= buffer room
8 4 field >part
see >part
= field >part
see dup
= primitive dup
see IF
= primitive if
nameless
xt c000055c
= constant h# c000055c
xt c0000560
=
xt 5
=
";

/// Methods of a package, which are found where it is active.
const METHODS: &str = "\
: ping ;
: t ping ;
: Ping ;
method ping
see t
= : t ping ;
home
see t
= : t [ h# c000052c compile, ] ;
: u ping ;
see u
= : u Ping ;
see ping
= : Ping ;
global
see u
= : u [ h# c0000534 compile, ] ;
see t
= : t ping ;
";

/// What lines are done on.
trait Lines {
    /// What is there before the first line.
    fn new(alloc: Global) -> Result<Self, Fail>;

    /// Does what a line says that prints nothing.
    fn line(&mut self, line: &str, alloc: Global) -> Result<(), Fail>;

    /// What a line prints, if it prints something.
    fn printed(&self, line: &str, alloc: Global) -> Result<Option<String>, Fail>;

    /// What is printed of a definition that is compiled from a text.
    fn again(&mut self, text: &str, alloc: Global) -> Result<String, Fail>;
}

/// What the lines work on.
#[derive(Drop)]
struct Scene {
    tree: Tree,
    home: Option<Phandle>,
    words: Words,
    memory: Memory,
    coding: Coding<ListCode>,
    stack: DataStack,
    compiling: bool,
}

impl Scene {
    fn names(&self) -> Names<'_> {
        Names {
            tree: &self.tree,
            home: self.home,
            words: &self.words,
        }
    }

    /// Appends an element to the open definition.
    fn append(&mut self, element: Element) -> Result<(), Fail> {
        self.coding.reserve_for(element)?;
        if !element.is_storable() {
            return Err(Fail::new("an element that can't be stored"));
        }
        Ok(self.coding.compile(element)?)
    }

    fn append_all(&mut self, elements: &[Element]) -> Result<(), Fail> {
        for element in elements {
            self.append(*element)?;
        }
        Ok(())
    }

    /// A number is compiled in a definition, but for one between brackets.
    fn number(&mut self, x: Cell) -> Result<(), Fail> {
        if self.words.defining().is_some() && self.compiling {
            return self.append(Element::Plain(PlainItem::Literal(x)));
        }
        Ok(self.stack.try_push(x)?)
    }

    /// A word that is found is compiled, but for those that the lines execute.
    fn found(&mut self, xt: Cell) -> Result<(), Fail> {
        let found = Some(xt);
        if found == self.names().xt(b"compile,") {
            self.coding.reserve(1)?;
            return Ok(compile_call(&self.words, &mut self.coding, &mut self.stack)?);
        }
        if found == self.names().xt(b"]") {
            self.compiling = true;
            return Ok(());
        }
        if found == self.names().xt(b"immediate") {
            return Ok(self.words.make_immediate()?);
        }
        if self.words.defining().is_none() || !self.compiling {
            return Err(Fail::new("a word that is executed"));
        }
        self.append(Element::Plain(called(xt)))
    }

    /// A defining word; `_` in the name stands for a blank.
    fn define(&mut self, word: DefiningWord, name: &[u8], alloc: Global) -> Result<(), Fail> {
        let name: Vec<u8> = name
            .iter()
            .map(|byte| if *byte == b'_' { b' ' } else { *byte })
            .collect(alloc)?;
        Ok(
            self.words.define_named(
                word,
                &name,
                self.coding.code(),
                &mut self.stack,
                &mut self.memory,
            )?,
        )
    }

    /// A string in a definition.
    fn string(&mut self, text: &[u8], begin: usize) -> Result<(), Fail> {
        let Some(bytes) = Rest::behind(text, begin).quoted_bytes() else {
            return Err(Fail::new("a string that is too long"));
        };
        let length = Cell(bytes.len() as u32);
        let address = self.memory.append(bytes.as_slice())?;
        self.append(Element::Plain(PlainItem::String { address, length }))
    }

    /// A word that serves while words are compiled.
    fn control(&mut self, word: CompilingWord) -> Result<(), Fail> {
        match word {
            CompilingWord::Semicolon => {
                self.coding.reserve(1)?;
                Ok(end_definition(&mut self.words, &mut self.coding)?)
            }
            CompilingWord::Recurse => match self.words.open_xt() {
                Some(xt) => self.append(Element::Plain(called(xt))),
                None => Err(Fail::new("nothing is open")),
            },
            CompilingWord::ControlRoll => {
                let later = self.stack.pop()?;
                self.append(Element::Roll(later.0 as usize))
            }
            CompilingWord::CommaTo => {
                let xt = self.stack.pop()?;
                self.append(Element::Plain(PlainItem::Store(xt)))
            }
            CompilingWord::LeaveCompiling => {
                self.compiling = false;
                Ok(())
            }
            word => self.append_all(text_elements(word)),
        }
    }

    /// Does what stands next in a text.
    fn word(&mut self, text: &[u8], found: Found, alloc: Global) -> Result<(), Fail> {
        match found.word {
            TextWord::Found { xt, .. } => self.found(xt),
            TextWord::Number(Ok(x)) => self.number(x),
            TextWord::Defining(word, name) => self.define(word, name.of(text), alloc),
            TextWord::To(Ok(xt)) => self.append(Element::Plain(PlainItem::Store(xt))),
            TextWord::Quoted(begin) => self.string(text, begin),
            TextWord::Compiling(word) => self.control(word),
            _ => Err(Fail::new("a word of another kind")),
        }
    }

    /// Does what a text says.
    fn text(&mut self, text: &[u8], alloc: Global) -> Result<(), Fail> {
        let mut at = 0;
        for _ in 0..text.len() {
            let found = read(&self.names(), &self.memory, text, at);
            if !matches!(found.word, TextWord::End) {
                self.word(text, found, alloc)?;
            }
            at = found.next;
        }
        Ok(())
    }

    /// A constant without a name.
    fn nameless(&mut self) -> Result<(), Fail> {
        self.words
            .announce(TokenMaker::New, FCode(0x800), &self.memory)?;
        self.stack.try_push(Cell(4))?;
        Ok(
            self.words.define(
                DefiningWord::Constant,
                self.coding.code(),
                &mut self.stack,
                &mut self.memory,
            )?,
        )
    }

    /// Makes the newest word a method of the package.
    fn method(&mut self, name: &str) -> Result<(), Fail> {
        let Some(word) = self.words.dictionary().newest() else {
            return Err(Fail::new("no word"));
        };
        self.tree.add_method(ROOT, name.as_bytes(), word.xt())?;
        self.words.hide(word);
        Ok(())
    }

    /// The execution token that a line prints a word of, if it does.
    fn shown(&self, line: &str) -> Result<Option<Cell>, Fail> {
        match line.split_once(' ').unwrap_or((line, "")) {
            ("see", name) => Ok(self.names().xt(name.as_bytes())),
            ("xt", digits) => Ok(Some(Cell(u32::from_str_radix(digits, 16)?))),
            _ => Ok(None),
        }
    }

    /// What `see` prints of a word.
    fn see(&self, xt: Cell, alloc: Global) -> Result<String, Fail> {
        let text = see_text(alloc, &self.names(), &self.memory, self.coding.code(), xt)?;
        Ok(String::from_utf8(text)?)
    }
}

impl Lines for Scene {
    fn new(alloc: Global) -> Result<Scene, Fail> {
        let mut memory = Memory::new(alloc)?;
        Ok(Scene {
            tree: Tree::new(alloc, &mut memory)?,
            home: None,
            words: Words::new(alloc)?,
            memory,
            coding: Coding::new(ListCode::new(alloc)),
            stack: DataStack::new(),
            compiling: true,
        })
    }

    fn line(&mut self, line: &str, alloc: Global) -> Result<(), Fail> {
        match line.split_once(' ').unwrap_or((line, "")) {
            ("base", digits) => {
                let base = Cell(u32::from_str_radix(digits, 16)?);
                Ok(self.memory.write32(Cell(0x50_0000), base)?)
            }
            ("method", name) => self.method(name),
            ("nameless", _) => self.nameless(),
            ("home", _) => {
                self.home = Some(ROOT);
                Ok(())
            }
            ("global", _) => {
                self.home = None;
                Ok(())
            }
            ("see", _) | ("xt", _) | ("=", _) => Ok(()),
            _ => self.text(line.as_bytes(), alloc),
        }
    }

    fn printed(&self, line: &str, alloc: Global) -> Result<Option<String>, Fail> {
        match self.shown(line)? {
            Some(xt) => Ok(Some(self.see(xt, alloc)?)),
            None => Ok(None),
        }
    }

    fn again(&mut self, text: &str, alloc: Global) -> Result<String, Fail> {
        self.text(text.as_bytes(), alloc)?;
        match self.words.dictionary().newest() {
            Some(word) => self.see(word.xt(), alloc),
            None => Err(Fail::new("no word")),
        }
    }
}

/// What the first lines of a script leave.
fn replayed<T: Lines + Drop>(alloc: Global, script: &str, count: usize) -> Result<T, Fail> {
    let mut scene = T::new(alloc)?;
    for line in script.lines().take(count) {
        scene.line(line, alloc)?;
    }
    Ok(scene)
}

/// Sees that a text is what a line wants, and that a definition prints the same when that is compiled.
fn check<T: Lines>(
    rt: &impl Abort,
    alloc: Global,
    scene: &mut T,
    text: &str,
    wanted: &str,
) -> Result<(), Fail> {
    assert_eq!(rt; text.trim_end(), wanted.trim_start());
    assert_eq!(rt; text.ends_with('\n'), !wanted.is_empty(), "{wanted}");
    if text.starts_with(": ") {
        let again = scene.again(text, alloc)?;
        assert_eq!(rt; again.as_str(), text);
    }
    Ok(())
}

/// Sees that each line prints what stands below it.
fn run<T: Lines + Drop>(rt: &impl Abort, alloc: Global, script: &str) -> Result<(), Fail> {
    let mut scene: T = replayed(alloc, script, 0)?;
    let mut printed: Option<String> = None;
    for (index, line) in script.lines().enumerate() {
        if let Some(wanted) = line.strip_prefix('=') {
            let Some(text) = &printed else {
                return Err(Fail::new("nothing was printed"));
            };
            let mut before: T = replayed(alloc, script, index)?;
            check(rt, alloc, &mut before, text, wanted)?;
        }
        printed = scene.printed(line, alloc)?;
        scene.line(line, alloc)?;
    }
    Ok(())
}

#[test]
fn structures(rt: HostRuntime) -> Result<(), Fail> {
    run::<Scene>(&rt, rt.alloc(), STRUCTURES)
}

#[test]
fn words_and_literals(rt: HostRuntime) -> Result<(), Fail> {
    run::<Scene>(&rt, rt.alloc(), WORDS)
}

#[test]
fn stores_and_kinds(rt: HostRuntime) -> Result<(), Fail> {
    run::<Scene>(&rt, rt.alloc(), STORES)
}

/// The laws hold.
#[test]
fn laws() {
    plain_items_are_listed();
    begins_are_counted();
    thens_are_counted();
    words_read_back();
    strings_read_back();
    printed_elements_have_the_body();
    printed_definitions_have_their_bodies();
    text_scans_back();
}

#[test]
fn methods(rt: HostRuntime) -> Result<(), Fail> {
    run::<Scene>(&rt, rt.alloc(), METHODS)
}
