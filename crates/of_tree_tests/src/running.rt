//! How a line of words is run, and what is shown of what it leaves.

use crate::rows::Rows;
use of_board::{Active, Board, Console};
use of_cells::Cell;
use of_fcodes::{PropertiesWord, TreeWord, Word, word_with_name};
use of_format::Pictured;
use of_ihandles::Instances;
use of_instances::{run_properties_word, run_tree_word};
use of_memory::Memory;
use of_nodes::{Phandle, Property, Tree};
use of_stacks::{DataStack, Stop, Throw};
use std::alloc::{AllocError, Global};
use std::test::Fail;

/// The board that the words run over, and what was there when the latest image began.
#[derive(Drop)]
pub(crate) struct Trial {
    pub(crate) board: Board,
    /// How many `new-device`s had ever been opened.
    ever: usize,
    /// The active package.
    before: Option<Phandle>,
    /// The current instance.
    outer: Cell,
}

impl Trial {
    /// The first tree, with no active package and no instance.
    pub(crate) fn begun(alloc: Global) -> Result<Trial, Fail> {
        let mut memory = Memory::new(alloc)?;
        let tree = Tree::new(alloc, &mut memory)?;
        let board = Board {
            stack: DataStack::new(),
            memory,
            pictured: Pictured::new(),
            console: Console::new(alloc),
            tree,
            active: Active::new(alloc),
            instances: Instances::new(alloc),
        };
        Ok(Trial {
            board,
            ever: 0,
            before: None,
            outer: Cell::ZERO,
        })
    }

    /// Runs the word of a name.
    pub(crate) fn run(&mut self, name: &str) -> Result<(), Stop> {
        match word_with_name(name.as_bytes()) {
            Some(Word::Properties(word)) => run_of_properties(word, &mut self.board),
            Some(Word::Tree(word)) => run_of_tree(word, &mut self.board),
            Some(word) => run_ordinary(word, &mut self.board),
            None => Err(Stop::NoMemory),
        }
    }

    /// Notes what is there when an image begins. No instance is opened for it.
    fn begin(&mut self) {
        self.ever = self.board.active.new_devices.ever();
        self.before = self.board.active.package;
        self.outer = self.board.active.my_self;
    }

    /// Brings back, as the end of a load does, what was there when the image began.
    fn end(&mut self) {
        self.board.active.my_self = self.outer;
        self.board.leave_image(self.ever, self.before, Cell::ZERO);
    }

    /// Puts a text at `here` and its address and length on the stack.
    fn push_text(&mut self, text: &str) -> Result<(), Stop> {
        let Ok(address) = self.board.memory.append(text.as_bytes()) else {
            return Err(Stop::NoMemory);
        };
        self.board.stack.try_push(address)?;
        self.board.stack.try_push(Cell(text.len() as u32))?;
        Ok(())
    }

    /// Runs what one word of a line stands for. `%1f` is a number, `"text` the address and the length of a text
    /// at `here`, `>1f` moves `here` up, `*1f` stands for so many cells of 0, and `@2` makes node 2 active; all
    /// numbers are hexadecimal. `[` and `]` are the beginning and the end of an image. `'` stands before the name of a
    /// word that begins as one of these.
    fn run_word(&mut self, word: &str) -> Result<(), Stop> {
        if let Some(text) = word.strip_prefix('"') {
            return self.push_text(text);
        }
        if let Some(name) = word.strip_prefix('\'') {
            return self.run(name);
        }
        if let Some(digits) = word.strip_prefix('%') {
            self.board.stack.try_push(Cell(number(digits)))?;
            return Ok(());
        }
        if let Some(digits) = word.strip_prefix('>') {
            let _ = self.board.memory.allot(Cell(number(digits)));
            return Ok(());
        }
        if let Some(digits) = word.strip_prefix('*') {
            for _ in 0..number(digits) {
                self.board.stack.try_push(Cell::ZERO)?;
            }
            return Ok(());
        }
        if let Some(digits) = word.strip_prefix('@') {
            let handle = number(digits).wrapping_mul(4).wrapping_add(0xd000_0000);
            self.board.active.package = Some(Phandle(Cell(handle)));
            return Ok(());
        }
        match word {
            "[" => self.begin(),
            "]" => self.end(),
            _ => return self.run(word),
        }
        Ok(())
    }

    /// Runs words in turn.
    pub(crate) fn run_all(&mut self, words: &str) -> Result<(), Stop> {
        for word in words.split_whitespace() {
            self.run_word(word)?;
        }
        Ok(())
    }
}

/// Runs a word over properties. The functions below have no contracts, so that `run` carries nothing of the words' own.
fn run_of_properties(word: PropertiesWord, board: &mut Board) -> Result<(), Stop> {
    run_properties_word(word, board)
}

/// Runs a word over the tree.
fn run_of_tree(word: TreeWord, board: &mut Board) -> Result<(), Stop> {
    run_tree_word(word, board)
}

/// Runs any other word.
fn run_ordinary(word: Word, board: &mut Board) -> Result<(), Stop> {
    of_words::run_word(word, board)
}

/// A number in hexadecimal digits.
pub(crate) fn number(digits: &str) -> u32 {
    u32::from_str_radix(digits, 16).unwrap_or(0)
}

/// The cells of the stack, or how many there are where they are more than 8, and what was thrown.
pub(crate) fn left(
    alloc: Global,
    board: &Board,
    ended: Result<(), Stop>,
) -> Result<String, AllocError> {
    let mut text = String::new(alloc);
    let depth = board.stack.depth();
    if depth > 8 {
        write!(text, "{depth} cells ")?;
    } else {
        for x in board.stack.cells() {
            write!(text, "{:x} ", x.0)?;
        }
    }
    match ended {
        Ok(()) => {}
        Err(Stop::Thrown(Throw(code))) => write!(text, "throws {code}")?,
        Err(Stop::NoMemory) => text.push_str("finds no memory")?,
    }
    Ok(text)
}

/// The bytes of a value in hexadecimal digits, or how many there are where they are more than 16.
fn show_value(text: &mut String, value: &[u8]) -> Result<(), AllocError> {
    if value.len() > 16 {
        return write!(text, "{:x} bytes ", value.len());
    }
    for byte in value {
        write!(text, "{byte:02x}")?;
    }
    text.push(' ')
}

/// A property's name and value.
fn show_property(text: &mut String, memory: &Memory, property: Property) -> Result<(), Fail> {
    let Property { name, value } = property;
    for byte in memory.slice(name.address, name.length)? {
        text.push(char::from(*byte))?;
    }
    text.push('=')?;
    let value = memory.slice(value.address, value.length)?;
    show_value(text, value)?;
    Ok(())
}

/// The properties of the active package in their order.
fn show_properties(text: &mut String, board: &Board) -> Result<(), Fail> {
    let Some(node) = board.active.package else {
        return Ok(());
    };
    let mut name: &[u8] = &[];
    for _ in 0..9 {
        let Ok(Some(property)) = board.tree.next_property(node, name) else {
            return Ok(());
        };
        show_property(text, &board.memory, property)?;
        name = board
            .memory
            .slice(property.name.address, property.name.length)?;
    }
    Ok(())
}

/// What is left, without the blank at its end, and a bar behind it.
fn with_bar(alloc: Global, left: &str) -> Result<String, AllocError> {
    format!(in alloc; "{}|", left.trim_end())
}

/// What words leave, and the properties of the package that is active then.
fn shown(alloc: Global, board: &Board, ended: Result<(), Stop>) -> Result<String, Fail> {
    let left = left(alloc, board, ended)?;
    let mut text = with_bar(alloc, left.as_str())?;
    show_properties(&mut text, board)?;
    Ok(text)
}

/// The same behind words.
fn left_by(alloc: Global, trial: &mut Trial, words: &str) -> Result<String, Fail> {
    let ended = trial.run_all(words);
    shown(alloc, &trial.board, ended)
}

/// The same on a new board.
fn given(alloc: Global, words: &str) -> Result<String, Fail> {
    let mut trial = Trial::begun(alloc)?;
    left_by(alloc, &mut trial, words)
}

/// Lines of words, each on a new board. Behind `|` a line has what they leave, and the properties of the package that
/// is active then.
#[derive(Drop)]
pub(crate) struct WordRows;

impl Rows for WordRows {
    fn new(_alloc: Global) -> Result<WordRows, Fail> {
        Ok(WordRows)
    }

    fn halves(line: &str) -> (&str, &str) {
        line.split_once('|').unwrap_or(("", "none"))
    }

    fn given(&mut self, alloc: Global, call: &str) -> Result<String, Fail> {
        given(alloc, call)
    }
}
