// What is printed goes behind what the console has. Each call makes its room first, and room for
// the text of a throw with it, so that a throw never asks for memory.

ghost use Rattle.std.specs.Prelude.{◌≡◌, ◌+◌, ◌*◌, ◌≤◌, ◌++◌, [], ◌∷◌, length, reverse, replicate, true, OnOk, OnErr};
ghost use Rattle.std.specs.Prelude.{vec_len, vec_capacity};
ghost use Rattle.of_cells.specs.Numbers.{signed};
ghost use Rattle.of_board.specs.Text.{spaced, cell_text, stack_text, padding, at_right, fault_text};
ghost use Rattle.of_board.specs.Text.{nothing_printed, printed, made_ready, ready_kept, fault_printed};

use of_cells::Cell;
use of_format::signed_text;
use of_stacks::{Throw, text_of};
use std::alloc::{AllocError, Global};
use std::marker::Model;

/// How many bytes the text of a throw has at most.
const LONGEST_FAULT: usize = 72;

/// How many bytes a cell has at most as `.s` prints it.
const LONGEST_CELL: usize = 34;

/// The console: all bytes that were printed, and whether there is room for the text of one more
/// throw. A refused growth changes nothing.
#[derive(Drop)]
pub struct Console {
    bytes: Vec<u8>,
    ready: bool,
}

// Clauses see what was printed.
impl Model for Console {
    ghost use Rattle.std.specs.Prelude.{◌+◌, ◌≤◌, vec_len, vec_capacity};
    ghost use Rattle.of_board.specs.Text.{Printed, room_kept};

    ghost Value = { Printed };

    ghost view = { λ c. record { text = c.bytes.items; ready = c.ready } };

    ghost invariant = { λ c. vec_len c.bytes + room_kept c.ready ≤ vec_capacity c.bytes };
}

/// Appends bytes, for which there must be room.
fn push_all(bytes: &mut Vec<u8>, text: &[u8])
    requires { vec_len bytes.old + length text.now ≤ vec_capacity bytes.old }
    ensures text { bytes.new.items ≡ bytes.old.items ++ text.now }
    ensures len { vec_len bytes.new ≡ vec_len bytes.old + length text.now }
    ensures capacity { vec_capacity bytes.new ≡ vec_capacity bytes.old }
{
    for byte in text {
        bytes.push_reserved(*byte);
    }
}

/// How many spaces stand before so many bytes in a width; a negative width wants none.
fn padding(width: i32, length: usize) -> usize
    ensures { result ≡ padding width length }
{
    if width < 0 {
        return 0;
    }
    (width as usize).saturating_sub(length)
}

impl Console {
    /// A console on which nothing was printed.
    pub fn new(alloc: Global) -> Console
        ensures { result ≡ nothing_printed }
    {
        Console {
            bytes: Vec::new(alloc),
            ready: false,
        }
    }

    /// All bytes printed so far.
    pub fn bytes(&self) -> &[u8]
        ensures { result.now ≡ self.now.text }
    {
        &self.bytes
    }

    /// Whether there is room for the text of a throw.
    pub fn is_ready(&self) -> bool
        ensures { result ≡ self.now.ready }
    {
        let Console { ready, .. } = self;
        *ready
    }

    /// Gives up the room for the text of a throw, unless it is to be kept.
    pub fn keep_ready(&mut self, keep: bool)
        ensures { self.new ≡ ready_kept self.old keep }
    {
        if !keep {
            self.ready = false;
        }
    }

    /// Makes room for the text of a throw.
    pub fn make_ready(&mut self) -> Result<(), AllocError>
        ensures ok { OnOk result (self.new ≡ made_ready self.old) }
        ensures err { OnErr result (self.new ≡ self.old) }
    {
        self.bytes.reserve(LONGEST_FAULT)?;
        self.ready = true;
        Ok(())
    }

    /// Prints a text, and makes room for the text of a throw behind it, as each print does.
    pub fn print(&mut self, text: &[u8]) -> Result<(), AllocError>
        ensures ok { OnOk result (self.new ≡ printed self.old text.now) }
        ensures err { OnErr result (self.new ≡ self.old) }
    {
        self.bytes.reserve(text.len() + LONGEST_FAULT)?;
        push_all(&mut self.bytes, text);
        self.ready = true;
        Ok(())
    }

    /// Prints a text and a space.
    pub fn print_spaced(&mut self, text: &[u8]) -> Result<(), AllocError>
        requires { length text.now ≤ 64 }
        ensures ok { OnOk result (self.new ≡ printed self.old (spaced text.now)) }
        ensures err { OnErr result (self.new ≡ self.old) }
    {
        self.bytes.reserve(text.len() + 1 + LONGEST_FAULT)?;
        push_all(&mut self.bytes, text);
        self.bytes.push_reserved(b' ');
        self.ready = true;
        Ok(())
    }

    /// Prints a text at the right end of a width, with spaces before it. It is never cut.
    pub fn print_at_right(&mut self, width: i32, text: &[u8]) -> Result<(), AllocError>
        requires { length text.now ≤ 64 }
        ensures ok { OnOk result (self.new ≡ printed self.old (at_right width text.now)) }
        ensures err { OnErr result (self.new ≡ self.old) }
    {
        let spaces = padding(width, text.len());
        self.bytes.reserve(spaces + text.len() + LONGEST_FAULT)?;
        for _ in 0..spaces {
            self.bytes.push_reserved(b' ');
        }
        push_all(&mut self.bytes, text);
        self.ready = true;
        Ok(())
    }

    /// Prints the cells of a stack, the bottom first, each as a signed number and a space.
    pub fn print_stack(&mut self, base: u32, cells: &[Cell]) -> Result<(), AllocError>
        requires least { 2 ≤ base }
        requires most { base ≤ 36 }
        requires few { length cells.now ≤ 256 }
        ensures ok { OnOk result (self.new ≡ printed self.old (stack_text base (reverse cells.now))) }
        ensures err { OnErr result (self.new ≡ self.old) }
    {
        self.bytes
            .reserve(LONGEST_CELL * cells.len() + LONGEST_FAULT)?;
        for x in cells {
            push_all(&mut self.bytes, signed_text(*x, base).as_bytes());
            self.bytes.push_reserved(b' ');
        }
        self.ready = true;
        Ok(())
    }

    /// Prints what a throw prints that nothing catches, for which there must be room.
    #[inline(never)]
    pub fn print_fault(&mut self, fault: Throw)
        requires { self.old.ready ≡ true }
        ensures { self.new ≡ fault_printed self.old fault }
    {
        push_all(&mut self.bytes, b"fault ");
        let number = signed_text(Cell(fault.0.cast_unsigned()), 10);
        push_all(&mut self.bytes, number.as_bytes());
        push_all(&mut self.bytes, b": ");
        push_all(&mut self.bytes, text_of(fault.0).as_bytes());
        self.bytes.push_reserved(b'\n');
        self.ready = false;
    }
}
