//! `ofw`: an Open Firmware boot monitor on a simulated board.
#![tactic(auto)]

use clap::Error;
use of_arguments::{
    Guide, Listings, Outside as Asked, Product, Request, Status, limit_of, parse, status_of,
};
use of_asking::Answer;
use of_calls::ScriptCommand;
use of_commands::{ClientRun, ConsoleRun, DebugRun, PromptRun, Run};
use of_devices::{Board, standard_board};
use of_files::{Fault, Messages, SourceList};
use of_runs::{Answerer, Outside};
use of_trace::{TraceFault, trace_answered, trace_on_board};
use std::fs::{self, File};
use std::io::{BufReader, Read, Stderr};
use std::os::unix::fs::MetadataExt;
use std::process::ExitCode;
use std::{env, io};

/// The error output, for messages.
fn messages(rt: &HostRuntime) -> Messages<Stderr> {
    Messages::new(rt.stderr())
}

/// Says what is wrong with the file at a path, and gives the status.
fn report(rt: &HostRuntime, path: &str, fault: Fault) -> Status {
    of_files::report(path, fault, &mut messages(rt))
}

/// The path that stands for the standard input, and for the standard output.
const STANDARD: &str = "-";

/// Whether at a path stands something else than a file with bytes, as a device, a pipe or a link.
fn is_special(rt: &HostRuntime, path: &str) -> bool {
    match fs::symlink_metadata(rt, path) {
        Ok(found) => !found.is_file(),
        Err(_) => false,
    }
}

/// Writes an image to the file at a path.
fn write(rt: &HostRuntime, path: &str, image: &[u8], shown: &str) -> Status {
    match File::create(rt, path) {
        Ok(mut out) => of_files::keep(shown, image, &mut out, &mut messages(rt)),
        Err(error) => unopened(rt, shown, &error),
    }
}

/// Writes an image to a file beside that at a path, and then puts it in its place: so the file is whole, or as it was.
fn replace(rt: &HostRuntime, path: &str, image: &[u8]) -> Status {
    let Ok(mut beside) = String::from_str(rt.alloc(), path) else {
        return report(rt, "", Fault::NoMemory);
    };
    if beside.push_str(".new").is_err() {
        return report(rt, "", Fault::NoMemory);
    }
    let status = write(rt, &beside, image, path);
    if status != Status::Done {
        let _ = fs::remove_file(rt, beside.as_str());
        return status;
    }
    match fs::rename(rt, beside.as_str(), path) {
        Ok(()) => Status::Done,
        Err(error) => unopened(rt, path, &error),
    }
}

/// Whether two paths lead to one file, where the system can tell that.
fn are_same(rt: &HostRuntime, one: &str, other: &str) -> bool {
    match (fs::metadata(rt, one), fs::metadata(rt, other)) {
        (Ok(one), Ok(other)) => one.dev() == other.dev() && one.ino() == other.ino(),
        _ => one == other,
    }
}

/// Writes the image of a source to the file at a path, which is made anew, or to the standard output.
fn keep<R: Read>(rt: &HostRuntime, source: &str, file: &mut R, output: &str) -> Status {
    if source != STANDARD && output != STANDARD && are_same(rt, source, output) {
        return report(rt, output, Fault::OutputIsSource);
    }
    let image = match of_files::image(rt.alloc(), source, file, &mut messages(rt)) {
        Ok(image) => image,
        Err(status) => return status,
    };
    if output == STANDARD {
        return of_files::keep("", &image, &mut rt.stdout(), &mut messages(rt));
    }
    if is_special(rt, output) {
        return write(rt, output, &image, output);
    }
    replace(rt, output, &image)
}

/// Says why the file at a path can't be opened.
fn unopened(rt: &HostRuntime, path: &str, error: &io::Error) -> Status {
    let fault = match error.kind() {
        io::ErrorKind::OutOfMemory => Fault::NoMemory,
        _ => Fault::Unopened(error.raw_os_error()),
    };
    report(rt, path, fault)
}

/// What answers the questions of a run, read whole.
#[derive(Drop)]
enum Source {
    /// Answers, in order.
    Answers(Vec<Answer>),
    /// The devices of a board.
    Board(Board),
}

/// The answers of the file at a path.
fn read_answers(rt: &HostRuntime, path: &str) -> Result<Vec<Answer>, Status> {
    match File::open(rt, path) {
        Ok(mut file) => of_files::answers(rt.alloc(), path, &mut file, &mut messages(rt)),
        Err(error) => Err(unopened(rt, path, &error)),
    }
}

/// The board of the file at a path.
fn read_board(rt: &HostRuntime, path: &str) -> Result<Source, Status> {
    match File::open(rt, path) {
        Ok(mut file) => {
            let parts = of_files::board(rt.alloc(), path, &mut file, &mut messages(rt))?;
            Ok(Source::Board(Board { parts }))
        }
        Err(error) => Err(unopened(rt, path, &error)),
    }
}

/// What answers the questions of a run, or the status of what is wrong with its file.
fn read_outside(rt: &HostRuntime, asked: Asked) -> Result<Source, Status> {
    match asked {
        Asked::Standard => match standard_board(rt.alloc()) {
            Ok(parts) => Ok(Source::Board(Board { parts })),
            Err(_) => Err(report(rt, "", Fault::NoMemory)),
        },
        Asked::Answers(path) => Ok(Source::Answers(read_answers(rt, path)?)),
        Asked::Board(path) => read_board(rt, path),
    }
}

/// The console lines of the file at a path; none where no file is given.
fn read_lines(rt: &HostRuntime, path: Option<&str>) -> Result<Vec<Vec<u8>>, Status> {
    let Some(path) = path else {
        return Ok(Vec::new(rt.alloc()));
    };
    match File::open(rt, path) {
        Ok(mut file) => of_files::lines(rt.alloc(), path, &mut file, &mut messages(rt)),
        Err(error) => Err(unopened(rt, path, &error)),
    }
}

/// What is handed in to a run, read whole.
#[derive(Drop)]
struct Handed {
    /// Its console lines.
    lines: Vec<Vec<u8>>,
    /// What answers its questions.
    source: Source,
}

/// What is handed in to a run, or the status of what is wrong with a file.
fn read_handed(rt: &HostRuntime, lines: Option<&str>, asked: Asked) -> Result<Handed, Status> {
    let lines = read_lines(rt, lines)?;
    let source = read_outside(rt, asked)?;
    Ok(Handed { lines, source })
}

/// The same, for the commands.
fn lend(handed: &Handed) -> Outside<'_> {
    let answerer = match &handed.source {
        Source::Answers(answers) => Answerer::Answers(answers),
        Source::Board(board) => Answerer::Board(board),
    };
    Outside {
        lines: &handed.lines,
        answerer,
    }
}

/// Opens both files of a client, runs the image and answers the calls.
fn client(rt: &HostRuntime, asked: &ClientRun) -> Status {
    let mut calls = match File::open(rt, asked.calls) {
        Ok(file) => file,
        Err(error) => return unopened(rt, asked.calls, &error),
    };
    let mut image = match File::open(rt, asked.run.image) {
        Ok(file) => file,
        Err(error) => return unopened(rt, asked.run.image, &error),
    };
    let (mut out, mut errors) = (rt.stdout(), messages(rt));
    of_commands::client(
        rt.alloc(),
        asked,
        &mut calls,
        &mut image,
        &mut out,
        &mut errors,
    )
}

/// Says that a run which is done has ended by a throw, if it has, and gives the status that is then.
fn judge(rt: &HostRuntime, path: &str, image: &[u8], outside: Outside, limit: u64) -> Status {
    match of_commands::ends_by_throw(rt.alloc(), image, outside, limit) {
        Ok(false) => Status::Done,
        Ok(true) => report(rt, path, Fault::Uncaught),
        Err(fault) => report(rt, path, fault),
    }
}

/// Runs an image, and answers the calls of a file; where that is strict, a throw at the end of the run is a fault.
fn call_strictly<'a>(
    rt: &HostRuntime,
    image: &'a str,
    calls: &'a str,
    handed: &'a Handed,
    limit: u64,
    explain: bool,
) -> Status {
    let status = call(rt, image, calls, handed, limit, explain);
    if status != Status::Done {
        return status;
    }
    match read_rom(rt, image) {
        Ok(bytes) => judge(rt, image, &bytes, lend(handed), limit),
        Err(status) => status,
    }
}

/// Runs an image, and answers the calls of a file.
fn call<'a>(
    rt: &HostRuntime,
    image: &'a str,
    calls: &'a str,
    handed: &'a Handed,
    limit: u64,
    explain: bool,
) -> Status {
    let outside = lend(handed);
    let run = Run {
        image,
        outside,
        limit,
        listings: Listings {
            tree: false,
            words: false,
            see: None,
            state: false,
        },
        explain,
    };
    client(rt, &ClientRun { run, calls })
}

/// The image of the file at a path, for a console.
fn read_rom(rt: &HostRuntime, path: &str) -> Result<Vec<u8>, Status> {
    match File::open(rt, path) {
        Ok(mut file) => of_files::rom(rt.alloc(), path, &mut file, &mut messages(rt)),
        Err(error) => Err(unopened(rt, path, &error)),
    }
}

/// The devices that answer a console: those of the file at a path, or the standard board.
fn read_devices(rt: &HostRuntime, path: Option<&str>) -> Result<Board, Status> {
    let asked = match path {
        Some(path) => Asked::Board(path),
        None => Asked::Standard,
    };
    match read_outside(rt, asked)? {
        Source::Board(board) => Ok(board),
        Source::Answers(_) => Err(Status::Usage),
    }
}

/// Runs an image, if there is one, and then the lines of the standard input, as they come.
fn converse(rt: &HostRuntime, image: Option<(&str, &[u8])>, board: &Board, limit: u64) -> Status {
    let Ok(mut lines) = BufReader::new(rt.alloc(), rt.stdin()) else {
        return report(rt, "", Fault::NoMemory);
    };
    let console = ConsoleRun {
        image,
        board,
        limit,
    };
    let (mut out, mut errors) = (rt.stdout(), messages(rt));
    of_commands::console(rt.alloc(), console, &mut lines, &mut out, &mut errors)
}

/// Reads the files of a console, and begins it.
fn console(rt: &HostRuntime, path: Option<&str>, board: Option<&str>, limit: u64) -> Status {
    let board = match read_devices(rt, board) {
        Ok(board) => board,
        Err(status) => return status,
    };
    let Some(path) = path else {
        return converse(rt, None, &board, limit);
    };
    match read_rom(rt, path) {
        Ok(image) => converse(rt, Some((path, &image)), &board, limit),
        Err(status) => status,
    }
}

/// The commands of the script at a path.
fn read_script(rt: &HostRuntime, path: &str) -> Result<Vec<ScriptCommand>, Status> {
    match File::open(rt, path) {
        Ok(mut file) => of_files::script(rt.alloc(), path, &mut file, &mut messages(rt)),
        Err(error) => Err(unopened(rt, path, &error)),
    }
}

/// What an image runs with under a debugger, read whole.
#[derive(Drop)]
struct Debugged {
    /// The image.
    image: Vec<u8>,
    /// Its console lines.
    lines: Vec<Vec<u8>>,
    /// What is answered, in order.
    answers: Vec<Answer>,
}

/// Reads the files with which an image runs under a debugger.
fn read_debugged(
    rt: &HostRuntime,
    image: &str,
    lines: Option<&str>,
    answers: Option<&str>,
) -> Result<Debugged, Status> {
    let image = read_rom(rt, image)?;
    let lines = read_lines(rt, lines)?;
    let answers = match answers {
        Some(path) => read_answers(rt, path)?,
        None => Vec::new(rt.alloc()),
    };
    Ok(Debugged {
        image,
        lines,
        answers,
    })
}

/// Runs an image under a script.
fn debug(rt: &HostRuntime, path: &str, script: &str, limit: u64, debugged: &Debugged) -> Status {
    let commands = match read_script(rt, script) {
        Ok(commands) => commands,
        Err(status) => return status,
    };
    let run = DebugRun {
        path,
        image: &debugged.image,
        lines: &debugged.lines,
        answers: &debugged.answers,
        limit,
        script,
        commands: &commands,
    };
    let (mut out, mut errors) = (rt.stdout(), messages(rt));
    of_commands::debug(rt.alloc(), run, &mut out, &mut errors)
}

/// Runs an image under commands that are lines of the standard input.
fn prompt(rt: &HostRuntime, path: &str, limit: u64, debugged: &Debugged) -> Status {
    let Ok(mut lines) = BufReader::new(rt.alloc(), rt.stdin()) else {
        return report(rt, "", Fault::NoMemory);
    };
    let run = PromptRun {
        path,
        image: &debugged.image,
        lines: &debugged.lines,
        answers: &debugged.answers,
        limit,
    };
    let (mut out, mut errors) = (rt.stdout(), messages(rt));
    of_commands::prompt(rt.alloc(), run, &mut lines, &mut out, &mut errors)
}

/// Lists what is asked for of the source of a file.
fn list<R: Read>(rt: &HostRuntime, path: &str, list: SourceList, file: &mut R) -> Status {
    let (mut out, mut errors) = (rt.stdout(), messages(rt));
    of_files::list(rt.alloc(), path, list, file, &mut out, &mut errors)
}

/// Does with a file what was asked for.
fn perform_on<R: Read>(
    rt: &HostRuntime,
    request: Request,
    outside: Outside,
    file: &mut R,
) -> Status {
    let (mut out, mut errors) = (rt.stdout(), messages(rt));
    if let Request::Tok { source, product } = request {
        match product {
            Product::File(output) => return keep(rt, source, file, output),
            Product::Symbols => return list(rt, source, SourceList::Symbols, file),
            Product::Listing => return list(rt, source, SourceList::Tokens, file),
            Product::Digits => {}
        }
    }
    of_commands::answer(rt.alloc(), request, outside, file, &mut out, &mut errors)
}

/// Opens the file at a path, or takes the standard input, and does with it what was asked for.
fn perform(rt: &HostRuntime, path: &str, request: Request, outside: Outside) -> Status {
    if path == STANDARD {
        return perform_on(rt, request, outside, &mut rt.stdin());
    }
    match File::open(rt, path) {
        Ok(mut file) => perform_on(rt, request, outside, &mut file),
        Err(error) => unopened(rt, path, &error),
    }
}

/// The FCode program in the ROM at a path, or in that on the standard input.
fn read_program(rt: &HostRuntime, path: &str) -> Result<Vec<u8>, Status> {
    if path == STANDARD {
        return of_files::program(rt.alloc(), path, &mut rt.stdin(), &mut messages(rt));
    }
    match File::open(rt, path) {
        Ok(mut file) => of_files::program(rt.alloc(), path, &mut file, &mut messages(rt)),
        Err(error) => Err(unopened(rt, path, &error)),
    }
}

/// Does what was asked for with the file at a path, or with the FCode program in the ROM that it is.
fn perform_in(
    rt: &HostRuntime,
    path: &str,
    pci: bool,
    request: Request,
    outside: Outside,
) -> Status {
    if !pci {
        return perform(rt, path, request, outside);
    }
    match read_program(rt, path) {
        Ok(program) => perform_on(rt, request, outside, &mut program.as_slice()),
        Err(status) => status,
    }
}

/// The bytes of the file at a path, or of the standard input, or the FCode program in the ROM that it is.
fn read_bytes(rt: &HostRuntime, path: &str, pci: bool) -> Result<Vec<u8>, Status> {
    if pci {
        return read_program(rt, path);
    }
    if path == STANDARD {
        return match of_files::read_whole(rt.alloc(), &mut rt.stdin()) {
            Ok(bytes) => Ok(bytes),
            Err(fault) => Err(report(rt, path, fault)),
        };
    }
    match File::open(rt, path) {
        Ok(mut file) => match of_files::read_whole(rt.alloc(), &mut file) {
            Ok(bytes) => Ok(bytes),
            Err(fault) => Err(report(rt, path, fault)),
        },
        Err(error) => Err(unopened(rt, path, &error)),
    }
}

/// What is wanted of a run beside what it prints.
#[derive(Clone, Copy)]
struct Watched<'a> {
    /// The path of its image.
    path: &'a str,
    /// Whether that is a ROM, of which the FCode program is run.
    pci: bool,
    /// How many steps it makes at most.
    limit: u64,
    /// The path of its trace, if one is wanted.
    trace: Option<&'a str>,
    /// Whether a throw at its end is a fault.
    strict: bool,
}

/// Writes a line for each step of a run to the file at a path, which was opened, and gives the status: that of the run,
/// or of what is wrong with the trace.
fn trace(
    rt: &HostRuntime,
    path: &str,
    image: &[u8],
    outside: Outside,
    limit: u64,
    file: &mut File,
) -> Result<(), Status> {
    let (alloc, lines) = (rt.alloc(), outside.lines);
    let traced = match outside.answerer {
        Answerer::Answers(answers) => trace_answered(alloc, image, lines, answers, limit, file),
        Answerer::Board(board) => trace_on_board(alloc, image, lines, board, limit, file),
    };
    match traced {
        Ok(_) | Err(TraceFault::Refused(_)) => Ok(()),
        Err(TraceFault::Unwritten(code)) => Err(report(rt, path, Fault::Unkept(code))),
        Err(TraceFault::NoMemory) => Err(report(rt, path, Fault::NoMemory)),
    }
}

/// The file of a trace, made anew, with its path, if one is wanted.
fn open_trace<'a>(
    rt: &HostRuntime,
    path: Option<&'a str>,
) -> Result<Option<(&'a str, File)>, Status> {
    let Some(path) = path else {
        return Ok(None);
    };
    match File::create(rt, path) {
        Ok(file) => Ok(Some((path, file))),
        Err(error) => Err(unopened(rt, path, &error)),
    }
}

/// Does what is wanted of a run beside what it prints, once that has ended with a status.
fn watch(
    rt: &HostRuntime,
    watched: Watched,
    outside: Outside,
    mut bytes: &[u8],
    file: Option<(&str, File)>,
    status: Status,
) -> Status {
    let image = match of_files::read_image(rt.alloc(), &mut bytes) {
        Ok(image) => image,
        Err(_) => return status,
    };
    if let Some((path, mut file)) = file {
        if let Err(status) = trace(rt, path, &image, outside, watched.limit, &mut file) {
            return status;
        }
    }
    if watched.strict && status == Status::Done {
        return judge(rt, watched.path, &image, outside, watched.limit);
    }
    status
}

/// Runs an image, of which more is wanted than what it prints.
fn run_watched(rt: &HostRuntime, watched: Watched, request: Request, outside: Outside) -> Status {
    let bytes = match read_bytes(rt, watched.path, watched.pci) {
        Ok(bytes) => bytes,
        Err(status) => return status,
    };
    let file = match open_trace(rt, watched.trace) {
        Ok(file) => file,
        Err(status) => return status,
    };
    let status = perform_on(rt, request, outside, &mut bytes.as_slice());
    match status {
        Status::Done | Status::LimitReached | Status::AnswersOut => {
            watch(rt, watched, outside, &bytes, file, status)
        }
        Status::Fault | Status::Usage | Status::NoMemory => status,
    }
}

/// Runs an image.
fn run(rt: &HostRuntime, watched: Watched, request: Request, outside: Outside) -> Status {
    if watched.trace.is_none() && !watched.strict {
        return perform_in(rt, watched.path, watched.pci, request, outside);
    }
    run_watched(rt, watched, request, outside)
}

/// The same, where nothing is run.
fn translate(rt: &HostRuntime, path: &str, pci: bool, request: Request) -> Status {
    let nothing = Outside {
        lines: &[],
        answerer: Answerer::Answers(&[]),
    };
    perform_in(rt, path, pci, request, nothing)
}

/// Does what was asked for with a run, where what is handed in to it can be had.
fn run_request(rt: &HostRuntime, request: Request) -> Status {
    let Request::Run {
        image,
        lines,
        outside,
        limit,
        pci,
        trace,
        strict,
        ..
    } = request
    else {
        return Status::Usage;
    };
    let watched = Watched {
        path: image,
        pci,
        limit,
        trace,
        strict,
    };
    match read_handed(rt, lines, outside) {
        Ok(handed) => run(rt, watched, request, lend(&handed)),
        Err(status) => status,
    }
}

/// Does what was asked for, where what is handed in to a run can be had.
fn answer(rt: &HostRuntime, request: Request) -> Status {
    match request {
        Request::Run { .. } => run_request(rt, request),
        Request::Client {
            image,
            calls,
            lines,
            outside,
            limit,
            explain,
            strict,
        } => match read_handed(rt, lines, outside) {
            Ok(handed) if strict => call_strictly(rt, image, calls, &handed, limit, explain),
            Ok(handed) => call(rt, image, calls, &handed, limit, explain),
            Err(status) => status,
        },
        Request::Console {
            image,
            board,
            limit,
        } => console(rt, image, board, limit),
        Request::Debug {
            image,
            guide,
            lines,
            answers,
            limit,
        } => match read_debugged(rt, image, lines, answers) {
            Ok(debugged) => match guide {
                Guide::Script(script) => debug(rt, image, script, limit, &debugged),
                Guide::Terminal => prompt(rt, image, limit, &debugged),
            },
            Err(status) => status,
        },
        Request::Tok { source, .. } => translate(rt, source, false, request),
        Request::Detok { image, pci, .. } => translate(rt, image, pci, request),
        Request::Check { image, pci } => translate(rt, image, pci, request),
        Request::Pci { rom } => translate(rt, rom, false, request),
    }
}

/// The words of the command line.
fn words(rt: &HostRuntime) -> Result<Vec<String>, Fault> {
    let words = match env::args(rt) {
        Ok(words) => words,
        Err(error) => {
            return Err(match error.kind() {
                io::ErrorKind::OutOfMemory => Fault::NoMemory,
                _ => Fault::ArgumentNotText,
            });
        }
    };
    match words.collect(rt.alloc()) {
        Ok(words) => Ok(words),
        Err(_) => Err(Fault::NoMemory),
    }
}

/// Says what a command line that asks for nothing gets: help, the version, or what is wrong with it.
fn answer_nothing(rt: &HostRuntime, error: &Error) -> Status {
    let status = status_of(error);
    if status == Status::NoMemory {
        return report(rt, "", Fault::NoMemory);
    }
    match error.print(rt) {
        Ok(()) => status,
        Err(fault) => match fault.kind() {
            io::ErrorKind::OutOfMemory => report(rt, "", Fault::NoMemory),
            _ => Status::Fault,
        },
    }
}

/// Whether a word is a limit that isn't written as one, behind `--limit` or in one word with it.
fn is_bad_limit(word: &str, before: &str) -> bool {
    if before == "--limit" {
        return limit_of(word).is_none();
    }
    match word.strip_prefix("--limit=") {
        Some(text) => limit_of(text).is_none(),
        None => false,
    }
}

/// Whether a limit among the words isn't written as one.
fn has_bad_limit(words: &[String]) -> bool {
    let mut before = "";
    for word in words {
        if is_bad_limit(word, before) {
            return true;
        }
        before = word;
    }
    false
}

/// The fault of words that ask for two things of which one alone can be had, or of which one must be, or for a limit
/// that is none.
fn excluded(words: &[String]) -> Fault {
    if has_bad_limit(words) {
        return Fault::BadLimit;
    }
    match words.get(1) {
        Some(name) if name.as_str() == "tok" => Fault::TwoProducts,
        Some(name) if name.as_str() == "detok" => Fault::TwoListings,
        Some(name) if name.as_str() == "debug" => Fault::NoGuide,
        _ => Fault::TwoOutsides,
    }
}

/// Does what the words ask for, or says why it can't be done.
fn obey(rt: &HostRuntime, words: &[String]) -> Status {
    match parse(rt.alloc(), words) {
        Ok(Some(request)) => answer(rt, request),
        Ok(None) => report(rt, "", excluded(words)),
        Err(error) => answer_nothing(rt, &error),
    }
}

fn main(rt: HostRuntime) -> ExitCode {
    let status = match words(&rt) {
        Ok(words) => obey(&rt, &words),
        Err(fault) => report(&rt, "", fault),
    };
    ExitCode::from(status.code())
}
