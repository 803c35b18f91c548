use of_detok::Extras;

/// What answers the questions of a run.
#[derive(Clone, Copy)]
pub enum Outside<'a> {
    /// The standard board: device memory and a clock.
    Standard,
    /// The answers of the file at a path, in order.
    Answers(&'a str),
    /// The devices of the file at a path.
    Board(&'a str),
}

/// What is printed behind what a run prints.
#[derive(Clone, Copy)]
pub struct Listings<'a> {
    /// Whether the device tree is.
    pub tree: bool,
    /// Whether the words are, as `words` prints them.
    pub words: bool,
    /// The name of a word that is, as `see` prints it, if one is.
    pub see: Option<&'a str>,
    /// Whether the state is: the data stack, how deep the return stack is, `here`, and how many own words there are.
    pub state: bool,
}

/// What is listed of an image.
#[derive(Clone, Copy)]
pub enum Listing {
    /// Its tokens, a line each, and what is said beyond names and operands.
    Tokens(Extras),
    /// Its own definitions, as `see` prints them.
    Definitions,
}

/// What leads a debugger.
#[derive(Clone, Copy)]
pub enum Guide<'a> {
    /// The script at a path.
    Script(&'a str),
    /// The commands on the standard input, as they come.
    Terminal,
}

/// What is made of a source.
#[derive(Clone, Copy)]
pub enum Product<'a> {
    /// Its image, printed in hexadecimal digits.
    Digits,
    /// Its image, written to the file at a path.
    File(&'a str),
    /// The names and FCodes of its own words, printed.
    Symbols,
    /// The listing of its image with the lines of the source beside it, printed.
    Listing,
}

/// What the arguments ask for.
#[derive(Clone, Copy)]
pub enum Request<'a> {
    /// Run an image.
    Run {
        /// The path of the image.
        image: &'a str,
        /// The path of the file of console lines that are read behind it, if there are some.
        lines: Option<&'a str>,
        /// What answers its questions.
        outside: Outside<'a>,
        /// How many steps the run makes at most.
        limit: u64,
        /// What is printed behind what the run prints.
        listings: Listings<'a>,
        /// Whether its end is explained on the error output.
        explain: bool,
        /// Whether the file is the ROM of a PCI card, of which the FCode program is run.
        pci: bool,
        /// The path of the file that is to hold a line for each step, if one is.
        trace: Option<&'a str>,
        /// Whether a throw that nothing catches, where it is the last step, is a fault.
        strict: bool,
    },
    /// Run an image, and then answer a client's calls.
    Client {
        /// The path of the image.
        image: &'a str,
        /// The path of the file of calls.
        calls: &'a str,
        /// The path of the file of console lines that are read behind the image, if there are some.
        lines: Option<&'a str>,
        /// What answers its questions.
        outside: Outside<'a>,
        /// How many steps the run makes at most.
        limit: u64,
        /// Whether its end is explained on the error output.
        explain: bool,
        /// Whether a throw that nothing catches, where it is the last step, is a fault.
        strict: bool,
    },
    /// Read lines and run each.
    Console {
        /// The path of the image that is run first, if there is one.
        image: Option<&'a str>,
        /// The path of the file of devices that answer questions, in place of the standard board.
        board: Option<&'a str>,
        /// How many steps are made at most for the image, and for each line.
        limit: u64,
    },
    /// Run an image under a debugger.
    Debug {
        /// The path of the image.
        image: &'a str,
        /// What leads the debugger.
        guide: Guide<'a>,
        /// The path of the file of console lines that are read behind the image, if there is one.
        lines: Option<&'a str>,
        /// The path of the file of answers, if there is one.
        answers: Option<&'a str>,
        /// How many steps are made at most.
        limit: u64,
    },
    /// Make the image of a source.
    Tok {
        /// The path of the source.
        source: &'a str,
        /// What is made of it.
        product: Product<'a>,
    },
    /// List an image.
    Detok {
        /// The path of the image.
        image: &'a str,
        /// What is listed.
        listing: Listing,
        /// Whether what stands before a token that can't be read is listed.
        partial: bool,
        /// Whether the file is the ROM of a PCI card, of which the FCode program is listed.
        pci: bool,
    },
    /// Look an image over, and say what is wrong with it.
    Check {
        /// The path of the image.
        image: &'a str,
        /// Whether the file is the ROM of a PCI card, of which the FCode program is looked over.
        pci: bool,
    },
    /// List the images in the ROM of a PCI card.
    Pci {
        /// The path of the ROM.
        rom: &'a str,
    },
}
