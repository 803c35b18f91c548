ghost use Rattle.std.specs.Prelude.{◌≡◌, IfOk, Some, codes, false, map, option_map};
ghost use Rattle.clap.specs.Words.{App, fault_of, first_of, rule_of, FailsBy, found_of, rows_of, with_subcommand};
ghost use Rattle.clap.specs.Values.{kind_of};
ghost use Rattle.std.specs.String.{string_bytes};
ghost use Rattle.of_arguments.specs.Asked.{appendix_of, asked, guide_shown, product_shown, shown};
ghost use Rattle.of_arguments.specs.Statuses.{unasked};
ghost use Rattle.of_arguments.specs.CommandLine.{IsBuilt, answers_rule, asked_by, asks, board_rule, calls_rule};
ghost use Rattle.of_arguments.specs.CommandLine.{appendix_in, client_app, client_asked, console_app, console_asked};
ghost use Rattle.of_arguments.specs.CommandLine.{debug_app, debug_asked, guide_in, script_rule};
ghost use Rattle.of_arguments.specs.CommandLine.{detok_app, detok_asked, first_image_rule};
ghost use Rattle.of_arguments.specs.CommandLine.{extras_in, flag_rule, has_flag, image_rule, is_true, limit_in};
ghost use Rattle.of_arguments.specs.CommandLine.{limit_rule, lines_rule, listing_in, listing_of, ofw_app};
ghost use Rattle.of_arguments.specs.CommandLine.{outside_in};
ghost use Rattle.of_arguments.specs.CommandLine.{option_rule, output_rule, path_rule, product_in, product_of};
ghost use Rattle.of_arguments.specs.CommandLine.{run_app, run_asked, running_app, showing_app, strict_rule};
ghost use Rattle.of_arguments.specs.CommandLine.{check_app, check_asked, pci_app, pci_rule, rom_rule, see_rule};
ghost use Rattle.of_arguments.specs.CommandLine.{source_rule, tok_app, tok_asked, trace_rule};

use crate::limits::limit_of;
use crate::request::{Guide, Listing, Listings, Outside, Product, Request};
use crate::status::Status;
use clap::error::ErrorKind;
use clap::{Arg, ArgAction, ArgMatches, Command, Error};
use of_detok::Extras;
use std::alloc::{AllocError, Global};

/// How many steps a run makes where no limit is given.
const DEFAULT_LIMIT: u64 = 1_000_000;

/// What the help of `run` ends with.
const RUN_HELP: &str = "\
Example: ofw run card.rom --limit 5000 --explain

The file is a ROM as it stands where it begins with f0 to f3 or fd, else hexadecimal digits. With --lines the next line
of a file is read as soon as nothing runs, as on a console; a line has at most 255 bytes. What the run asks of the
outside (keys, registers of devices, time) is answered by a board: 4096 zero bytes of device memory at 80000000 and a
clock. With --board it has the devices of a file, the first of which that knows a question answers it: a line is
`memory ADDRESS LENGTH` or `memory ADDRESS LENGTH BYTES`, `fault ADDRESS LENGTH`, `keys BYTES` or `clock`, with
hexadecimal digits. With --answers the k-th line of a file is for the k-th question: `v NUMBER`, with hexadecimal
digits, `done` or `fault`. With --tree each node's path is printed then, and its properties behind it, as text or in
hexadecimal digits; with --words what the console's `words` would print then; and with --see what its `see` would print
of the word of that name. The words of an image are methods of /slot, so names find them behind a console line
`dev /slot`. A name that begins with a hyphen stands behind --see and an equals sign. With --state the data stack is
printed, the bottom first, how many items the return stack has, where `here` is, and how many own words were made, each
number in 8 hexadecimal digits. With --pci the file is the ROM of a PCI card as it stands, and the FCode program of its
first image for Open Firmware is run. With --trace a line of JSON is written to a file for each step: where it was made,
the data stack behind it, and what it has changed. With --strict the status is 1 where the run ends by a throw that
nothing catches.

Status: 0 done, 1 fault of input or output, 2 usage, 3 limit reached, 4 answers out, 5 no memory";

/// What the help of `client` ends with.
const CLIENT_HELP: &str = "\
Example: ofw client card.rom --calls card.calls

The image, the lines, the board and the answers are read as for run. A line of the calls is one of these, with numbers
in hexadecimal digits: finddevice PATH, child PH, peer PH, parent PH, getproplen PH NAME, getprop PH NAME ROOM,
nextprop PH NAME, instance-to-package IH, package-to-path PH ROOM. With --strict the status is 1 where the run ends by a
throw that nothing catches.

Status: 0 done, 1 fault of input or output, 2 usage, 3 limit reached, 4 answers out, 5 no memory";

/// What the help of `console` ends with.
const CONSOLE_HELP: &str = "\
Example: ofw console card.rom

The image, if one is given, is run first, as for run. Then lines are read up to the end of the input, and each is run
as soon as it is read; what it prints is printed, and `ok` where the next one is awaited. A line that makes as many
steps as --limit allows is stopped there, and an empty line lets it go on. A line has at most 255 bytes. What is asked
of the outside is answered by the board, or with --board by the devices of a file, as for run.

Status: 0 done, 1 fault of input or output, 2 usage, 5 no memory";

/// What the help of `debug` ends with.
const DEBUG_HELP: &str = "\
Example: ofw debug card.rom --script card.script

The image, the lines and the answers are read as for run, but without --answers no question is answered. A line of the
script is one of these: `in` makes one step, `over` makes steps until the return stack is no deeper, `out` until it is
shallower, `break W K` marks item K of the colon definition W, from 0, `clear W K` takes the mark away, and `go N` makes
at most N steps up to a marked item. W is a name, or # and an FCode number in hexadecimal digits; K and N are decimal.
Each of `in`, `over`, `out` and `go` prints the number of steps made and the data stack, the bottom first. The console
bytes follow at the end. With --interactive the commands are lines of the standard input, each carried out as soon as it
is read, and there are more: `?` shows them.

Status: 0 the script was carried out, 1 fault of input or output, 2 usage, 5 no memory";

/// What the help of `tok` ends with.
const TOK_HELP: &str = "\
Example: ofw tok card.fs --output card.rom

With --symbols the FCodes and names of the words that the source makes are printed in place of the image, one a line,
with --listing the image's listing, and beside each line the line of the source that it comes from.

Status: 0 done, 1 fault of input or output, 2 usage, 5 no memory";

/// What the help of `detok` ends with.
const DETOK_HELP: &str = "\
Example: ofw detok card.rom --names --indent

The file is a ROM as it stands where it begins with f0 to f3 or fd, else hexadecimal digits. With --see the listing has
no tokens, but the definitions that they make, each as the console's `see` prints it; nothing else of the image is run.
With --pci the file is the ROM of a PCI card as it stands, and the FCode program of its first image for Open Firmware is
listed.

Status: 0 done, 1 fault of input or output, 2 usage, 5 no memory";

/// What the help of `check` ends with.
const CHECK_HELP: &str = "\
Example: ofw check card.rom

The image is read as for run, or with --pci from the ROM of a PCI card, and not run. A line is printed for each thing
that is wrong with it, with the position in the image: a checksum or a length that isn't that of the image, a token that
can't be read, a branch out of the image, a definition whose control structures don't close, an FCode of the image's own
that is used before it is made.

Status: 0 nothing is wrong, 1 something is, or fault of input or output, 2 usage, 5 no memory";

/// What the help of `pci` ends with.
const PCI_HELP: &str = "\
Example: ofw pci card.rom

A line is printed for each image in the ROM, up to the last: where it begins, its length, the vendor and the device that
it is for, the class, what runs it, and of one for Open Firmware where its FCode program begins. Numbers are
hexadecimal.

Status: 0 done, 1 fault of input or output, 2 usage, 5 no memory";

/// An argument that is the path of a file.
fn path_argument<'a>(alloc: Global, name: &'a str, shown: &'a str, help: &'a str) -> Arg<'a>
    ensures { (rule_of result ≡ path_rule name.now) × (result.global ≡ false) }
{
    Arg::new(alloc, name)
        .value_name(shown)
        .help(help)
        .required(true)
        .action(ArgAction::Set)
}

/// An option with a value, by its name behind two hyphens.
fn option_argument<'a>(alloc: Global, name: &'a str, shown: &'a str, help: &'a str) -> Arg<'a>
    ensures { (rule_of result ≡ option_rule name.now) × (result.global ≡ false) }
{
    Arg::new(alloc, name)
        .long(name)
        .value_name(shown)
        .help(help)
        .action(ArgAction::Set)
}

/// `IMAGE`
fn image_argument<'a>(alloc: Global) -> Arg<'a>
    ensures { (rule_of result ≡ image_rule) × (result.global ≡ false) }
{
    let help = "the image: a ROM, or its bytes in hexadecimal digits";
    path_argument(alloc, "image", "IMAGE", help)
}

/// `[IMAGE]`
fn first_image_argument<'a>(alloc: Global) -> Arg<'a>
    ensures { (rule_of result ≡ first_image_rule) × (result.global ≡ false) }
{
    Arg::new(alloc, "image")
        .value_name("IMAGE")
        .help("an image that is run first: a ROM, or its bytes in hexadecimal digits")
        .action(ArgAction::Set)
}

/// `SOURCE`
fn source_argument<'a>(alloc: Global) -> Arg<'a>
    ensures { (rule_of result ≡ source_rule) × (result.global ≡ false) }
{
    path_argument(alloc, "source", "SOURCE", "the source, in words")
}

/// `ROM`
fn rom_argument<'a>(alloc: Global) -> Arg<'a>
    ensures { (rule_of result ≡ rom_rule) × (result.global ≡ false) }
{
    path_argument(alloc, "rom", "ROM", "the ROM of a PCI card, as it stands")
}

/// `--calls FILE`
fn calls_argument<'a>(alloc: Global) -> Arg<'a>
    ensures { (rule_of result ≡ calls_rule) × (result.global ≡ false) }
{
    path_argument(alloc, "calls", "FILE", "the calls of a client, one a line").long("calls")
}

/// `--script FILE`
fn script_argument<'a>(alloc: Global) -> Arg<'a>
    ensures { (rule_of result ≡ script_rule) × (result.global ≡ false) }
{
    option_argument(
        alloc,
        "script",
        "FILE",
        "the script of a debugger, one command a line",
    )
}

/// `--lines FILE`
fn lines_argument<'a>(alloc: Global) -> Arg<'a>
    ensures { (rule_of result ≡ lines_rule) × (result.global ≡ false) }
{
    option_argument(
        alloc,
        "lines",
        "FILE",
        "console lines that are read behind the image",
    )
}

/// `--see NAME`
fn see_argument<'a>(alloc: Global) -> Arg<'a>
    ensures { (rule_of result ≡ see_rule) × (result.global ≡ false) }
{
    option_argument(
        alloc,
        "see",
        "NAME",
        "prints the word of this name behind what the run prints",
    )
}

/// `--answers FILE`
fn answers_argument<'a>(alloc: Global) -> Arg<'a>
    ensures { (rule_of result ≡ answers_rule) × (result.global ≡ false) }
{
    option_argument(alloc, "answers", "FILE", "what is answered, one a line")
}

/// `--board FILE`
fn board_argument<'a>(alloc: Global) -> Arg<'a>
    ensures { (rule_of result ≡ board_rule) × (result.global ≡ false) }
{
    option_argument(
        alloc,
        "board",
        "FILE",
        "the devices of the board, one a line",
    )
}

/// `--output FILE`, or `-o FILE`
fn output_argument<'a>(alloc: Global) -> Arg<'a>
    ensures { (rule_of result ≡ output_rule) × (result.global ≡ false) }
{
    option_argument(
        alloc,
        "output",
        "FILE",
        "writes the image to this file, as bytes, and prints nothing",
    )
    .short('o')
}

/// `--limit N`
fn limit_argument<'a>(alloc: Global) -> Arg<'a>
    ensures { (rule_of result ≡ limit_rule) × (result.global ≡ false) }
{
    option_argument(
        alloc,
        "limit",
        "N",
        "the most steps, 0 to 1000000000, or thousands as 10k, or millions as 2M (1M where it is left out)",
    )
}

/// `--trace FILE`
fn trace_argument<'a>(alloc: Global) -> Arg<'a>
    ensures { (rule_of result ≡ trace_rule) × (result.global ≡ false) }
{
    option_argument(
        alloc,
        "trace",
        "FILE",
        "writes a line for each step to this file",
    )
}

/// `--strict`
fn strict_flag<'a>(alloc: Global) -> Arg<'a>
    ensures { (rule_of result ≡ strict_rule) × (result.global ≡ false) }
{
    flag(
        alloc,
        "strict",
        "ends with status 1 where the run ends by a throw",
    )
}

/// A flag.
fn flag<'a>(alloc: Global, name: &'a str, help: &'a str) -> Arg<'a>
    ensures { (rule_of result ≡ flag_rule name.now) × (result.global ≡ false) }
{
    Arg::new(alloc, name)
        .long(name)
        .help(help)
        .action(ArgAction::SetTrue)
}

/// `--pci`
fn pci_flag<'a>(alloc: Global) -> Arg<'a>
    ensures { (rule_of result ≡ pci_rule) × (result.global ≡ false) }
{
    flag(
        alloc,
        "pci",
        "takes the FCode program out of the ROM of a PCI card",
    )
}

/// `ofw run IMAGE [--lines FILE] [--answers FILE | --board FILE] [--limit N]`
fn running_command<'a>(alloc: Global) -> Result<Command<'a>, AllocError>
    ensures { IfOk result (IsBuilt running_app) }
{
    Command::new(alloc, "run")
        .about("Runs an image and prints what it prints")
        .after_help(RUN_HELP)
        .arg(image_argument(alloc))?
        .arg(lines_argument(alloc))?
        .arg(answers_argument(alloc))?
        .arg(board_argument(alloc))?
        .arg(limit_argument(alloc))
}

/// The same, with `[--tree] [--words] [--see NAME] [--state]`
fn showing_command<'a>(alloc: Global) -> Result<Command<'a>, AllocError>
    ensures { IfOk result (IsBuilt showing_app) }
{
    running_command(alloc)?
        .arg(flag(
            alloc,
            "tree",
            "prints the device tree behind what the run prints",
        ))?
        .arg(flag(
            alloc,
            "words",
            "prints the words behind what the run prints",
        ))?
        .arg(see_argument(alloc))?
        .arg(flag(
            alloc,
            "state",
            "prints the stacks, here and the words' number behind what the run prints",
        ))
}

/// And with `[--explain] [--pci] [--trace FILE] [--strict]`
fn run_command<'a>(alloc: Global) -> Result<Command<'a>, AllocError>
    ensures { IfOk result (IsBuilt run_app) }
{
    showing_command(alloc)?
        .arg(flag(
            alloc,
            "explain",
            "says on the error output how the run ended",
        ))?
        .arg(pci_flag(alloc))?
        .arg(trace_argument(alloc))?
        .arg(strict_flag(alloc))
}

/// `ofw client IMAGE --calls FILE [--lines FILE] [--answers FILE | --board FILE] [--limit N] [--explain] [--strict]`
fn client_command<'a>(alloc: Global) -> Result<Command<'a>, AllocError>
    ensures { IfOk result (IsBuilt client_app) }
{
    Command::new(alloc, "client")
        .about("Runs an image, and then prints what a client's calls are answered")
        .after_help(CLIENT_HELP)
        .arg(image_argument(alloc))?
        .arg(calls_argument(alloc))?
        .arg(lines_argument(alloc))?
        .arg(answers_argument(alloc))?
        .arg(board_argument(alloc))?
        .arg(limit_argument(alloc))?
        .arg(flag(
            alloc,
            "explain",
            "says on the error output how the run ended",
        ))?
        .arg(strict_flag(alloc))
}

/// `ofw console [IMAGE] [--board FILE] [--limit N]`
fn console_command<'a>(alloc: Global) -> Result<Command<'a>, AllocError>
    ensures { IfOk result (IsBuilt console_app) }
{
    Command::new(alloc, "console")
        .about("Reads lines and runs each, as a boot monitor's console does")
        .after_help(CONSOLE_HELP)
        .arg(first_image_argument(alloc))?
        .arg(board_argument(alloc))?
        .arg(limit_argument(alloc))
}

/// `ofw debug IMAGE (--script FILE | --interactive) [--lines FILE] [--answers FILE] [--limit N]`
fn debug_command<'a>(alloc: Global) -> Result<Command<'a>, AllocError>
    ensures { IfOk result (IsBuilt debug_app) }
{
    Command::new(alloc, "debug")
        .about("Runs an image under a debugger")
        .after_help(DEBUG_HELP)
        .arg(image_argument(alloc))?
        .arg(script_argument(alloc))?
        .arg(flag(
            alloc,
            "interactive",
            "reads the commands from the standard input",
        ))?
        .arg(lines_argument(alloc))?
        .arg(answers_argument(alloc))?
        .arg(limit_argument(alloc))
}

/// `ofw tok SOURCE [--output FILE | --symbols | --listing]`
fn tok_command<'a>(alloc: Global) -> Result<Command<'a>, AllocError>
    ensures { IfOk result (IsBuilt tok_app) }
{
    Command::new(alloc, "tok")
        .about("Prints the image of a source, in hexadecimal")
        .after_help(TOK_HELP)
        .arg(source_argument(alloc))?
        .arg(output_argument(alloc))?
        .arg(flag(
            alloc,
            "symbols",
            "prints the FCodes and names of the words that the source makes",
        ))?
        .arg(flag(
            alloc,
            "listing",
            "prints the listing of the image, with the lines of the source beside it",
        ))
}

/// `ofw detok IMAGE [[--names] [--indent] | --see] [--partial] [--pci]`
fn detok_command<'a>(alloc: Global) -> Result<Command<'a>, AllocError>
    ensures { IfOk result (IsBuilt detok_app) }
{
    Command::new(alloc, "detok")
        .about("Prints the listing of an image, a line for each token")
        .after_help(DETOK_HELP)
        .arg(image_argument(alloc))?
        .arg(flag(
            alloc,
            "names",
            "says the names that the image gives to its words",
        ))?
        .arg(flag(
            alloc,
            "indent",
            "indents definitions and control structures",
        ))?
        .arg(flag(alloc, "see", "lists the definitions in place of the tokens"))?
        .arg(flag(alloc, "partial", "lists a damaged image up to its fault"))?
        .arg(pci_flag(alloc))
}

/// `ofw check IMAGE [--pci]`
fn check_command<'a>(alloc: Global) -> Result<Command<'a>, AllocError>
    ensures { IfOk result (IsBuilt check_app) }
{
    Command::new(alloc, "check")
        .about("Says what is wrong with an image, without running it")
        .after_help(CHECK_HELP)
        .arg(image_argument(alloc))?
        .arg(pci_flag(alloc))
}

/// `ofw pci ROM`
fn pci_command<'a>(alloc: Global) -> Result<Command<'a>, AllocError>
    ensures { IfOk result (IsBuilt pci_app) }
{
    Command::new(alloc, "pci")
        .about("Lists the images in the ROM of a PCI card")
        .after_help(PCI_HELP)
        .arg(rom_argument(alloc))
}

/// A command with one more subcommand, if there was memory for it.
fn with_subcommand<'a>(
    command: Command<'a>,
    subcommand: Result<Command<'a>, AllocError>,
) -> Result<Command<'a>, AllocError>
    ensures { (a b : App) → IsBuilt a command.entry → IfOk subcommand.entry (IsBuilt b)
        → IfOk result (IsBuilt (with_subcommand a b.top)) }
{
    match subcommand {
        Ok(subcommand) => command.subcommand(subcommand),
        Err(error) => Err(error),
    }
}

/// `ofw`, with one of its subcommands
fn command<'a>(alloc: Global) -> Result<Command<'a>, AllocError>
    ensures { IfOk result (IsBuilt ofw_app) }
{
    let command = Command::new(alloc, "ofw")
        .about("An Open Firmware boot monitor on a simulated board")
        .version("0.1")
        .subcommand_required(true);
    let command = with_subcommand(command, run_command(alloc))?;
    let command = with_subcommand(command, client_command(alloc))?;
    let command = with_subcommand(command, console_command(alloc))?;
    let command = with_subcommand(command, debug_command(alloc))?;
    let command = with_subcommand(command, tok_command(alloc))?;
    let command = with_subcommand(command, detok_command(alloc))?;
    let command = with_subcommand(command, check_command(alloc))?;
    with_subcommand(command, pci_command(alloc))
}

/// The value that a subcommand was given for an argument, as text.
fn value<'a>(matches: &ArgMatches<'a>, name: &str) -> Option<&'a str>
    ensures { option_map (λ text. text.now) result ≡ first_of name.now (rows_of (found_of matches.now)) }
{
    matches.get_str(name)
}

/// The limit that a subcommand was given, or the one that stands where it is left out; nothing, where the text gives
/// none.
fn step_limit(matches: &ArgMatches) -> Option<u64>
    ensures { result ≡ limit_in (rows_of (found_of matches.now)) }
{
    match value(matches, "limit") {
        Some(text) => limit_of(text),
        None => Some(DEFAULT_LIMIT),
    }
}

/// The value of a flag, as the text of one.
fn is_true(value: Option<&str>) -> bool
    ensures { result ≡ is_true (option_map (λ text. text.now) value.entry) }
{
    match value {
        Some(text) => text == "true",
        None => false,
    }
}

/// Whether a flag was given; its value is read as its text.
fn has_flag(matches: &ArgMatches, name: &str) -> bool
    ensures { result ≡ has_flag name.now (rows_of (found_of matches.now)) }
{
    is_true(value(matches, name))
}

/// What is to answer the questions of a run; nothing, where both files are given.
fn outside<'a>(matches: &ArgMatches<'a>) -> Option<Outside<'a>>
    ensures { option_map shown result ≡ outside_in (rows_of (found_of matches.now)) }
{
    match (value(matches, "answers"), value(matches, "board")) {
        (None, None) => Some(Outside::Standard),
        (Some(path), None) => Some(Outside::Answers(path)),
        (None, Some(path)) => Some(Outside::Board(path)),
        (Some(_), Some(_)) => None,
    }
}

/// What is to be printed behind what a run prints.
fn listings<'a>(matches: &ArgMatches<'a>) -> Listings<'a>
    ensures { appendix_of result ≡ appendix_in (rows_of (found_of matches.now)) }
{
    Listings {
        tree: has_flag(matches, "tree"),
        words: has_flag(matches, "words"),
        see: value(matches, "see"),
        state: has_flag(matches, "state"),
    }
}

/// What `run` asks for with an image.
fn run_request<'a>(image: &'a str, matches: &ArgMatches<'a>) -> Option<Request<'a>>
    ensures { option_map asked result ≡ run_asked (rows_of (found_of matches.now)) image.now }
{
    Some(Request::Run {
        image,
        lines: value(matches, "lines"),
        outside: outside(matches)?,
        limit: step_limit(matches)?,
        listings: listings(matches),
        explain: has_flag(matches, "explain"),
        pci: has_flag(matches, "pci"),
        trace: value(matches, "trace"),
        strict: has_flag(matches, "strict"),
    })
}

/// What `client` asks for with an image.
fn client_request<'a>(image: &'a str, matches: &ArgMatches<'a>) -> Option<Request<'a>>
    ensures { option_map asked result ≡ client_asked (rows_of (found_of matches.now)) image.now }
{
    Some(Request::Client {
        image,
        calls: value(matches, "calls")?,
        lines: value(matches, "lines"),
        outside: outside(matches)?,
        limit: step_limit(matches)?,
        explain: has_flag(matches, "explain"),
        strict: has_flag(matches, "strict"),
    })
}

/// What `console` asks for.
fn console_request<'a>(matches: &ArgMatches<'a>) -> Option<Request<'a>>
    ensures { option_map asked result ≡ console_asked (rows_of (found_of matches.now)) }
{
    Some(Request::Console {
        image: value(matches, "image"),
        board: value(matches, "board"),
        limit: step_limit(matches)?,
    })
}

/// What is to lead a debugger: a script or the terminal; nothing, where both are given, or none.
fn guide<'a>(matches: &ArgMatches<'a>) -> Option<Guide<'a>>
    ensures { option_map guide_shown result ≡ guide_in (rows_of (found_of matches.now)) }
{
    match (value(matches, "script"), has_flag(matches, "interactive")) {
        (Some(path), false) => Some(Guide::Script(path)),
        (None, true) => Some(Guide::Terminal),
        (Some(_), true) => None,
        (None, false) => None,
    }
}

/// What `debug` asks for with an image.
fn debug_request<'a>(image: &'a str, matches: &ArgMatches<'a>) -> Option<Request<'a>>
    ensures { option_map asked result ≡ debug_asked (rows_of (found_of matches.now)) image.now }
{
    Some(Request::Debug {
        image,
        guide: guide(matches)?,
        lines: value(matches, "lines"),
        answers: value(matches, "answers"),
        limit: step_limit(matches)?,
    })
}

/// What is to be made of a source; nothing, where two products are asked for.
fn product_of<'a>(output: Option<&'a str>, symbols: bool, listing: bool) -> Option<Product<'a>>
    ensures { option_map product_shown result
        ≡ product_of (option_map (λ text. text.now) output.entry) symbols listing }
{
    match (output, symbols, listing) {
        (None, false, false) => Some(Product::Digits),
        (None, true, false) => Some(Product::Symbols),
        (None, false, true) => Some(Product::Listing),
        (Some(path), false, false) => Some(Product::File(path)),
        (None, true, true) | (Some(_), true, _) | (Some(_), false, true) => None,
    }
}

/// What is to be made of the source of `tok`.
fn product<'a>(matches: &ArgMatches<'a>) -> Option<Product<'a>>
    ensures { option_map product_shown result ≡ product_in (rows_of (found_of matches.now)) }
{
    product_of(
        value(matches, "output"),
        has_flag(matches, "symbols"),
        has_flag(matches, "listing"),
    )
}

/// What `tok` asks for with a source.
fn tok_request<'a>(source: &'a str, matches: &ArgMatches<'a>) -> Option<Request<'a>>
    ensures { option_map asked result ≡ tok_asked (rows_of (found_of matches.now)) source.now }
{
    Some(Request::Tok {
        source,
        product: product(matches)?,
    })
}

/// What is to be said of tokens beyond names and operands.
fn extras(matches: &ArgMatches) -> Extras
    ensures { result ≡ extras_in (rows_of (found_of matches.now)) }
{
    Extras {
        names: has_flag(matches, "names"),
        indents: has_flag(matches, "indent"),
    }
}

/// What is to be listed: definitions, or tokens with what is said of them; nothing, where both are asked for.
fn listing_of(see: bool, extras: Extras) -> Option<Listing>
    ensures { result ≡ listing_of see extras }
{
    match (see, extras.names || extras.indents) {
        (true, true) => None,
        (true, false) => Some(Listing::Definitions),
        (false, _) => Some(Listing::Tokens(extras)),
    }
}

/// What `detok` asks for with an image.
fn detok_request<'a>(image: &'a str, matches: &ArgMatches<'a>) -> Option<Request<'a>>
    ensures { option_map asked result ≡ detok_asked (rows_of (found_of matches.now)) image.now }
{
    Some(Request::Detok {
        image,
        listing: listing_of(has_flag(matches, "see"), extras(matches))?,
        partial: has_flag(matches, "partial"),
        pci: has_flag(matches, "pci"),
    })
}

/// What `check` asks for with an image.
fn check_request<'a>(image: &'a str, matches: &ArgMatches<'a>) -> Request<'a>
    ensures { asked result ≡ check_asked (rows_of (found_of matches.now)) image.now }
{
    Request::Check {
        image,
        pci: has_flag(matches, "pci"),
    }
}

/// What a subcommand asks for.
fn request_of<'a>(name: &str, matches: &ArgMatches<'a>) -> Option<Request<'a>>
    ensures { option_map asked result ≡ asked_by (name.now, rows_of (found_of matches.now)) }
{
    if name == "tok" {
        return tok_request(value(matches, "source")?, matches);
    }
    if name == "console" {
        return console_request(matches);
    }
    if name == "pci" {
        return Some(Request::Pci {
            rom: value(matches, "rom")?,
        });
    }
    let image = value(matches, "image")?;
    match name {
        "run" => run_request(image, matches),
        "client" => client_request(image, matches),
        "debug" => debug_request(image, matches),
        "detok" => detok_request(image, matches),
        "check" => Some(check_request(image, matches)),
        _ => None,
    }
}

/// What the words of a command line ask for, the program's name first.
///
/// An error is a call for help or a fault of the words: another subcommand or option, a word too many, no image, no
/// file of calls for `client`, a limit given twice. `None` stands for a limit that is no number from 0 to
/// 1,000,000,000, nor one of thousands with `k` or of millions with `M`, for a run with a file of answers and one of
/// devices, of which one alone can answer, for a debugger with a script and a terminal, of which one alone can lead it,
/// or with none of these, for a source of which two things are to be made, and for a listing of definitions with what
/// is said of tokens.
#[tactic(auto, using(crate::proofs::Requests::ofw_is_simple, crate::proofs::Requests::ofw_is_free))]
pub fn parse<'a>(alloc: Global, words: &'a [String]) -> Result<Option<Request<'a>>, Error>
    ensures ok { IfOk result (λ request. option_map asked request ≡ asks (map string_bytes words.now)) }
    ensures err { FailsBy (fault_of ofw_app (map string_bytes words.now)) result }
{
    let matches = command(alloc)?.try_get_matches_from(words)?;
    match matches.subcommand() {
        Some((name, matches)) => Ok(request_of(name, matches)),
        None => Ok(None),
    }
}

/// How the program ends where a command line asks for nothing: done after a call for help or for the version.
pub fn status_of(error: &Error) -> Status
    ensures { result ≡ unasked (kind_of error.now) }
{
    match error.kind() {
        ErrorKind::DisplayHelp | ErrorKind::DisplayVersion => Status::Done,
        ErrorKind::OutOfMemory => Status::NoMemory,
        _ => Status::Usage,
    }
}
