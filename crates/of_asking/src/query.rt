ghost use Rattle.std.specs.Prelude.{◌≡◌};
ghost use Rattle.of_asking.specs.Questions.{fits, fits_read, fits_width, fits_write, is_below, is_done};

use of_cells::Cell;
use of_memory::Width;

/// What a word asks the outside (IEEE 1275-1994, 5.3.7.3 and annex A). An address is a device's and a multiple of the
/// width.
#[derive(Clone, Copy)]
pub enum Query {
    /// `rb@`, `rw@` and `rl@`: the number at an address. Answered by a Value of that width, or BusFault.
    Read(Width, Cell),
    /// `rb!`, `rw!` and `rl!`: to write a number, which has that width, at an address. Answered by Done or BusFault.
    Write(Width, Cell, Cell),
    /// `cpeek`, `wpeek` and `lpeek`: the number at an address, if a device is there. Answered as Read.
    Peek(Width, Cell),
    /// `cpoke`, `wpoke` and `lpoke`: to write a number at an address, if a device is there. Answered as Write.
    Poke(Width, Cell, Cell),
    /// `key`: the next key. Answered by a Value up to 255.
    Key,
    /// `key?`: whether there is a key. Answered by the Value 0 or 1.
    KeyReady,
    /// `get-msecs`: the time in milliseconds. Answered by any Value.
    Milliseconds,
    /// `ms`: to wait so many milliseconds. Answered by Done.
    Wait(Cell),
}

/// What a question is answered.
#[derive(Clone, Copy)]
pub enum Answer {
    /// What was read, the key, whether there is one (1) or none (0), or the time.
    Value(u32),
    /// It is written, or the time is over.
    Done,
    /// No device is there.
    BusFault,
}

/// Whether a number has so many bytes at most.
fn fits_width(width: Width, x: u32) -> bool
    ensures { result ≡ fits_width width x }
{
    match width {
        Width::One => x < 0x100,
        Width::Two => x < 0x1_0000,
        Width::Four => true,
    }
}

/// Whether an answer to a read fits.
fn fits_read(width: Width, answer: Answer) -> bool
    ensures { result ≡ fits_read width answer }
{
    match answer {
        Answer::Value(x) => fits_width(width, x),
        Answer::Done => false,
        Answer::BusFault => true,
    }
}

/// Whether an answer to a write fits.
fn fits_write(answer: Answer) -> bool
    ensures { result ≡ fits_write answer }
{
    match answer {
        Answer::Value(_) => false,
        Answer::Done => true,
        Answer::BusFault => true,
    }
}

/// Whether an answer is a number below a limit.
fn is_below(limit: u64, answer: Answer) -> bool
    ensures { result ≡ is_below limit answer }
{
    match answer {
        Answer::Value(x) => u64::from(x) < limit,
        Answer::Done => false,
        Answer::BusFault => false,
    }
}

/// Whether an answer says that the time is over.
fn is_done(answer: Answer) -> bool
    ensures { result ≡ is_done answer }
{
    match answer {
        Answer::Value(_) => false,
        Answer::Done => true,
        Answer::BusFault => false,
    }
}

/// Whether an answer fits a question.
///
/// A Read or Peek takes a Value within the width, or BusFault; a Write or Poke Done or BusFault; Key a Value up to 255,
/// KeyReady 0 or 1, Milliseconds any Value, and Wait Done.
pub fn is_fitting(query: Query, answer: Answer) -> bool
    ensures { result ≡ fits query answer }
{
    match query {
        Query::Read(width, _) => fits_read(width, answer),
        Query::Write(_, _, _) => fits_write(answer),
        Query::Peek(width, _) => fits_read(width, answer),
        Query::Poke(_, _, _) => fits_write(answer),
        Query::Key => is_below(0x100, answer),
        Query::KeyReady => is_below(2, answer),
        Query::Milliseconds => is_below(0x1_0000_0000, answer),
        Query::Wait(_) => is_done(answer),
    }
}
