//! What the return stack holds.
ghost use Rattle.std.specs.Prelude.{◌≡◌};
ghost use Rattle.of_stacks.specs.Returns.{is_due};

use of_cells::Cell;
use of_stream::OffsetSize;

/// Where control goes on.
#[derive(Clone, Copy, Debug, PartialEq, Eq)]
pub enum Continuation {
    /// At the item of compiled code that begins in the code cell of this number.
    Code(u32),
    /// In what is being read.
    Source,
}

/// Where control goes on behind a loop.
#[derive(Clone, Copy, Debug, PartialEq, Eq)]
pub enum LoopExit {
    /// At the item of compiled code that begins in the code cell of this number.
    Code(u32),
    /// At this position of the image that is being read.
    Position(usize),
}

/// The parameters of a counted loop (Forth 2012, 6.1.1240).
#[derive(Clone, Copy, Debug, PartialEq, Eq)]
pub struct LoopParameters {
    /// What `i` reads.
    pub index: Cell,
    /// Where the index ends.
    pub limit: Cell,
    /// Where `leave` goes.
    pub exit: LoopExit,
}

/// What `catch` keeps, so that a throw gives it back (Forth 2012, 9.6.1.0875).
#[derive(Clone, Copy, Debug, PartialEq, Eq)]
pub struct ExceptionFrame {
    /// How many cells the data stack has without the execution token that `catch` takes.
    pub depth: u8,
    /// The current instance, or 0.
    pub my_self: Cell,
    /// The execution token of the definition that is open, if one is.
    pub opened: Option<Cell>,
    /// Where control goes on behind `catch`.
    pub resume: Continuation,
}

/// What tokens or words are read from.
#[derive(Clone, Copy, Debug, PartialEq, Eq)]
pub enum Input {
    /// Nothing is read.
    Nothing,
    /// A line of the console or an evaluated text.
    Text {
        /// How many bytes have been read.
        position: usize,
    },
    /// An image.
    Image {
        /// How many bytes an offset has there.
        size: OffsetSize,
        /// The position of the next token.
        position: usize,
    },
}

/// What is being read, as long as nothing that is read within it stands above.
#[derive(Clone, Copy, Debug, PartialEq, Eq)]
pub struct Reading {
    /// From what, and how far.
    pub input: Input,
    /// The execution token of the definition that was open when it began, if one was.
    pub opened: Option<Cell>,
}

/// What a word that runs another one has still to do when that one has ended.
#[derive(Clone, Copy, Debug, PartialEq, Eq)]
pub enum Due {
    /// `call-package`, `$call-method` or `$call-parent`: the current instance as before.
    Method {
        /// The current instance before, or 0.
        my_self: Cell,
    },
    /// `open-package` or `$open-package`, when `open` answers: the current instance as before; the
    /// new one is the result, or is released where the answer is false.
    Open {
        /// The current instance before, or 0.
        my_self: Cell,
        /// The new instance.
        instance: Cell,
    },
    /// `close-package`, when `close` has ended: the current instance as before, and the other one
    /// is released.
    Close {
        /// The current instance before, or 0.
        my_self: Cell,
        /// The instance to be released.
        instance: Cell,
    },
    /// The load of an image, when that ends: active package and current instance as before, the
    /// `new-device`s that were opened since are open no more, and the image's instance is released.
    Load {
        /// The active package before, if there was one.
        active: Option<Cell>,
        /// The current instance before, or 0.
        my_self: Cell,
        /// The instance of the image's node.
        instance: Cell,
        /// How many `new-device`s were ever opened before.
        new_devices: usize,
    },
}

/// An item of the return stack (Forth 2012, 3.2.3.3).
#[derive(Clone, Copy, Debug, PartialEq, Eq)]
pub enum ReturnItem {
    /// Where control goes on when a word has ended.
    Return(Continuation),
    /// A counted loop.
    Loop(LoopParameters),
    /// A cell that a program put there.
    User(Cell),
    /// A `catch`.
    Handler(ExceptionFrame),
    /// The end of an image or text: what is read on with then.
    Source(Reading),
    /// What is due when a word has ended.
    Caller(Due),
}

impl ReturnItem {
    /// Whether the item is worked off when the word above it has ended: a handler or a caller.
    #[inline]
    pub fn is_due(&self) -> bool
        ensures { result ≡ is_due self.now }
    {
        matches!(self, ReturnItem::Handler(_) | ReturnItem::Caller(_))
    }
}

impl Default for ReturnItem {
    fn default() -> Self {
        ReturnItem::User(Cell::ZERO)
    }
}
