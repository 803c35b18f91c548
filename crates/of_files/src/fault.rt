ghost use Rattle.std.specs.Prelude.{◌≡◌, option_map};
ghost use Rattle.of_files.specs.Messages.{start_byte_of};
ghost use Rattle.of_files.specs.Faults.{no_calls};
ghost use Rattle.of_files.specs.Faults.{given_up, no_script};
ghost use Rattle.of_files.specs.Faults.{no_answers, no_board, no_image, no_lines, no_source, place_at, text_place_of};

use of_arguments::Status;
use of_calls::{ScriptFault, TextFault};
use of_refusal::Refusal;
use of_rom::RomFault;
use of_source::{Place, SourceFault, place_in};
use of_stream::StreamFault;
use of_tok::TokFault;
use thiserror::Error;

/// Why the program can't do what it was asked.
#[derive(Clone, Copy, Debug, Error)]
pub enum Fault {
    /// An argument isn't text.
    #[error("an argument is not text")]
    ArgumentNotText,
    /// A file can't be opened, with the system's number of the reason, if there is one.
    #[error("can't be opened")]
    Unopened(Option<i32>),
    /// A read of a file failed, with the system's number of the reason.
    #[error("can't be read")]
    Unread(Option<i32>),
    /// A file was given up.
    #[error("doesn't end after 16777216 reads")]
    Endless,
    /// A byte of an image's text is no hexadecimal digit.
    #[error("byte {byte:02x} is no hexadecimal digit")]
    BadDigit {
        /// Where it stands.
        place: Place,
        /// The byte.
        byte: u8,
    },
    /// The last byte of the image has one digit.
    #[error("an odd number of hexadecimal digits")]
    OddDigits,
    /// An image has so many bytes, more than the monitor takes.
    #[error("image of {0} bytes, of which 262144 fit")]
    TooLong(usize),
    /// The monitor refuses the image for another reason.
    #[error(transparent)]
    Refused(Refusal),
    /// The image has no listing.
    #[error(transparent)]
    Unlisted(StreamFault),
    /// A text is no source.
    #[error("{fault}")]
    NoSource {
        /// Where the word stands that fits nowhere.
        place: Place,
        /// What is wrong with it.
        fault: SourceFault,
    },
    /// The offset of the word of a source at this place doesn't fit its size.
    #[error("offset too long")]
    OffsetTooLong(Place),
    /// A source has no image for another reason.
    #[error(transparent)]
    NoImage(TokFault),
    /// A text has no calls.
    #[error(transparent)]
    NoCalls(TextFault),
    /// A text has no answers.
    #[error(transparent)]
    NoAnswers(TextFault),
    /// A text has no devices.
    #[error(transparent)]
    NoBoard(TextFault),
    /// A text has no console lines.
    #[error(transparent)]
    NoLines(TextFault),
    /// A text is no script of a debugger.
    #[error(transparent)]
    NoScript(TextFault),
    /// A script was given up.
    #[error(transparent)]
    GivenUp(ScriptFault),
    /// A file is no ROM of a PCI card.
    #[error(transparent)]
    NoRom(RomFault),
    /// No image in the ROM of a PCI card is for Open Firmware.
    #[error("no image in the ROM is for Open Firmware")]
    NoProgram,
    /// A word is asked for by a name that none has.
    #[error("no word has the name that --see asks for")]
    NoWord,
    /// An image is to be written over its source.
    #[error("the output is the source itself")]
    OutputIsSource,
    /// A limit isn't written as one.
    #[error("a limit is a number up to 1000000000, or of thousands as 10k, or of millions as 2M")]
    BadLimit,
    /// A run has ended by a throw that nothing caught, where that is to be a fault.
    #[error("the run ended by a throw that nothing caught")]
    Uncaught,
    /// Two things are to be made of a source.
    #[error("--output, --symbols and --listing exclude each other")]
    TwoProducts,
    /// A file of answers and one of devices are given.
    #[error("--answers and --board exclude each other")]
    TwoOutsides,
    /// The definitions of an image are asked for, and what is said of its tokens.
    #[error("--see excludes --names and --indent")]
    TwoListings,
    /// A debugger is to be led by a script and by the terminal, or by none of both.
    #[error("a debugger is led by --script or by --interactive")]
    NoGuide,
    /// A write failed, with the system's number of the reason.
    #[error("the output can't be written")]
    Unwritten(Option<i32>),
    /// A write to the file at a path failed, with the system's number of the reason.
    #[error("can't be written")]
    Unkept(Option<i32>),
    /// A growth of memory was refused.
    #[error("no memory")]
    NoMemory,
}

/// The byte that begins no image, where that is the fault.
fn start_byte(fault: StreamFault) -> Option<u8>
    ensures { result ≡ start_byte_of fault }
{
    match fault {
        StreamFault::BadStart(byte) => Some(byte),
        StreamFault::Start0 | StreamFault::Short | StreamFault::Ended(_) => None,
    }
}

/// What is wrong with a word of a source.
fn wrong_of(fault: SourceFault) -> &'static str {
    match fault {
        SourceFault::Unclosed(_) => "unclosed",
        SourceFault::Unknown(_) => "unknown word",
        SourceFault::BadNumber(_) => "bad number",
        SourceFault::TooLong(_) => "too long: a name has at most 31 bytes, a string 255",
        SourceFault::NoMemory => "no memory",
    }
}

/// The fault of a text whose word at a position fits nowhere.
fn fault_at(text: &[u8], position: usize, fault: SourceFault) -> Fault
    ensures { result ≡ Fault.NoSource (place_at text.now position) fault }
{
    Fault::NoSource {
        place: place_in(text, position),
        fault,
    }
}

/// The fault of a text that is no source.
pub(crate) fn no_source(text: &[u8], fault: SourceFault) -> Fault
    ensures { result ≡ no_source text.now fault }
{
    match fault {
        SourceFault::Unclosed(position) => fault_at(text, position, fault),
        SourceFault::Unknown(position) => fault_at(text, position, fault),
        SourceFault::BadNumber(position) => fault_at(text, position, fault),
        SourceFault::TooLong(position) => fault_at(text, position, fault),
        SourceFault::NoMemory => Fault::NoMemory,
    }
}

/// The fault of a text whose source has no image.
pub(crate) fn no_image(text: &[u8], fault: TokFault) -> Fault
    ensures { result ≡ no_image text.now fault }
{
    match fault {
        TokFault::OffsetTooLong(position) => Fault::OffsetTooLong(place_in(text, position)),
        TokFault::TooManyWords => Fault::NoImage(fault),
        TokFault::ImageTooLong => Fault::NoImage(fault),
        TokFault::NoMemory => Fault::NoMemory,
    }
}

/// The fault of a text that has no calls.
pub(crate) fn no_calls(fault: TextFault) -> Fault
    ensures { result ≡ no_calls fault }
{
    match fault {
        TextFault::Unknown(_) => Fault::NoCalls(fault),
        TextFault::BadName(_) => Fault::NoCalls(fault),
        TextFault::BadNumber(_) => Fault::NoCalls(fault),
        TextFault::TooMany(_) => Fault::NoCalls(fault),
        TextFault::TooLong(_) => Fault::NoCalls(fault),
        TextFault::NoMemory => Fault::NoMemory,
    }
}

/// The fault of a text that has no answers.
pub(crate) fn no_answers(fault: TextFault) -> Fault
    ensures { result ≡ no_answers fault }
{
    match fault {
        TextFault::Unknown(_) => Fault::NoAnswers(fault),
        TextFault::BadName(_) => Fault::NoAnswers(fault),
        TextFault::BadNumber(_) => Fault::NoAnswers(fault),
        TextFault::TooMany(_) => Fault::NoAnswers(fault),
        TextFault::TooLong(_) => Fault::NoAnswers(fault),
        TextFault::NoMemory => Fault::NoMemory,
    }
}

/// The fault of a text that has no devices.
pub(crate) fn no_board(fault: TextFault) -> Fault
    ensures { result ≡ no_board fault }
{
    match fault {
        TextFault::Unknown(_) => Fault::NoBoard(fault),
        TextFault::BadName(_) => Fault::NoBoard(fault),
        TextFault::BadNumber(_) => Fault::NoBoard(fault),
        TextFault::TooMany(_) => Fault::NoBoard(fault),
        TextFault::TooLong(_) => Fault::NoBoard(fault),
        TextFault::NoMemory => Fault::NoMemory,
    }
}

/// The fault of a text that has no console lines.
pub(crate) fn no_lines(fault: TextFault) -> Fault
    ensures { result ≡ no_lines fault }
{
    match fault {
        TextFault::Unknown(_) => Fault::NoLines(fault),
        TextFault::BadName(_) => Fault::NoLines(fault),
        TextFault::BadNumber(_) => Fault::NoLines(fault),
        TextFault::TooMany(_) => Fault::NoLines(fault),
        TextFault::TooLong(_) => Fault::NoLines(fault),
        TextFault::NoMemory => Fault::NoMemory,
    }
}

/// The fault of a text that is no script.
pub(crate) fn no_script(fault: TextFault) -> Fault
    ensures { result ≡ no_script fault }
{
    match fault {
        TextFault::Unknown(_) => Fault::NoScript(fault),
        TextFault::BadName(_) => Fault::NoScript(fault),
        TextFault::BadNumber(_) => Fault::NoScript(fault),
        TextFault::TooMany(_) => Fault::NoScript(fault),
        TextFault::TooLong(_) => Fault::NoScript(fault),
        TextFault::NoMemory => Fault::NoMemory,
    }
}

/// The fault of a script that was given up.
pub fn given_up(fault: ScriptFault) -> Fault
    ensures { result ≡ given_up fault }
{
    match fault {
        ScriptFault::Unknown(_) => Fault::GivenUp(fault),
        ScriptFault::NoWord(_) => Fault::GivenUp(fault),
        ScriptFault::NoItem(_) => Fault::GivenUp(fault),
        ScriptFault::TooMany(_) => Fault::GivenUp(fault),
        ScriptFault::NoMemory => Fault::NoMemory,
    }
}

/// What is said of a number that can't be read, where numbers have hexadecimal digits.
const HEXADECIMAL: &str = "bad number: hexadecimal digits up to ffffffff";

/// The same, where they have decimal digits.
const DECIMAL: &str = "bad number: decimal digits up to 4294967295";

/// The place in a text of calls, of answers, of devices, of lines or of commands that has this fault, and what is wrong
/// there: what is said of a first word that is unknown, of a number and of a word too many depends on the text.
fn text_place(
    fault: TextFault,
    unknown: &'static str,
    number: &'static str,
    too_many: &'static str,
) -> Option<(Place, &'static str)>
    ensures { option_map (λ found. found.0) result ≡ text_place_of fault }
{
    match fault {
        TextFault::Unknown(place) => Some((place, unknown)),
        TextFault::BadName(place) => Some((place, "bad name: a carriage return stands in it")),
        TextFault::BadNumber(place) => Some((place, number)),
        TextFault::TooMany(place) => Some((place, too_many)),
        TextFault::TooLong(place) => Some((place, "line too long: a line has at most 255 bytes")),
        TextFault::NoMemory => None,
    }
}

impl Fault {
    ghost use Rattle.of_files.specs.Messages.{bad_start_of};
    ghost use Rattle.of_files.specs.Faults.{source_place_of, status_of};

    /// The first byte of the image, where it is the byte that is wrong.
    pub(crate) fn bad_start(self) -> Option<u8>
        ensures { result ≡ bad_start_of self }
    {
        match self {
            Fault::Refused(Refusal::BadStart(fault)) => start_byte(fault),
            Fault::Unlisted(fault) => start_byte(fault),
            _ => None,
        }
    }

    /// The place in a text that has this fault, and what is wrong there.
    pub(crate) fn source_place(self) -> Option<(Place, &'static str)>
        ensures { option_map (λ found. found.0) result ≡ source_place_of self }
    {
        match self {
            Fault::NoSource { place, fault } => Some((place, wrong_of(fault))),
            Fault::OffsetTooLong(place) => Some((
                place,
                "offset too long: 16 bits hold -32768 to 32767, 8 bits -128 to 127",
            )),
            Fault::NoCalls(fault) => {
                text_place(
                    fault,
                    "unknown service",
                    HEXADECIMAL,
                    "more than the service takes",
                )
            }
            Fault::NoAnswers(fault) => {
                text_place(
                    fault,
                    "unknown answer",
                    HEXADECIMAL,
                    "more than the answer takes",
                )
            }
            Fault::NoBoard(fault) => {
                text_place(
                    fault,
                    "unknown device",
                    HEXADECIMAL,
                    "more than the device takes",
                )
            }
            Fault::NoLines(fault) => {
                text_place(fault, "unknown word", HEXADECIMAL, "a word too many")
            }
            Fault::NoScript(fault) => {
                text_place(
                    fault,
                    "unknown command",
                    DECIMAL,
                    "more than the command takes",
                )
            }
            _ => None,
        }
    }

    /// How the program ends with this fault.
    pub(crate) fn status(self) -> Status
        ensures { result ≡ status_of self }
    {
        match self {
            Fault::ArgumentNotText => Status::Usage,
            Fault::NoMemory => Status::NoMemory,
            Fault::Refused(Refusal::NoMemory) => Status::NoMemory,
            Fault::NoImage(TokFault::NoMemory) => Status::NoMemory,
            Fault::Unopened(_) => Status::Fault,
            Fault::Unread(_) => Status::Fault,
            Fault::Endless => Status::Fault,
            Fault::BadDigit { .. } => Status::Fault,
            Fault::OddDigits => Status::Fault,
            Fault::TooLong(_) => Status::Fault,
            Fault::Refused(Refusal::Busy) => Status::Fault,
            Fault::Refused(Refusal::NotAsked) => Status::Fault,
            Fault::Refused(Refusal::WrongAnswer) => Status::Fault,
            Fault::Refused(Refusal::ImageTooLong) => Status::Fault,
            Fault::Refused(Refusal::LineTooLong) => Status::Fault,
            Fault::Refused(Refusal::BadStart(_)) => Status::Fault,
            Fault::Refused(Refusal::NoNode) => Status::Fault,
            Fault::Unlisted(_) => Status::Fault,
            Fault::NoSource { .. } => Status::Fault,
            Fault::OffsetTooLong(_) => Status::Fault,
            Fault::NoImage(_) => Status::Fault,
            Fault::NoCalls(_) => Status::Fault,
            Fault::NoAnswers(_) => Status::Fault,
            Fault::NoBoard(_) => Status::Fault,
            Fault::NoLines(_) => Status::Fault,
            Fault::NoScript(_) => Status::Fault,
            Fault::GivenUp(_) => Status::Fault,
            Fault::NoRom(_) => Status::Fault,
            Fault::NoProgram => Status::Fault,
            Fault::NoWord => Status::Fault,
            Fault::OutputIsSource => Status::Usage,
            Fault::BadLimit => Status::Usage,
            Fault::Uncaught => Status::Fault,
            Fault::TwoProducts => Status::Usage,
            Fault::TwoOutsides => Status::Usage,
            Fault::TwoListings => Status::Usage,
            Fault::NoGuide => Status::Usage,
            Fault::Unwritten(_) => Status::Fault,
            Fault::Unkept(_) => Status::Fault,
        }
    }
}
