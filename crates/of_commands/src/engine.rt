ghost use Rattle.std.specs.Prelude.{◌≡◌, Ok, None, IfOk, IfErr, IfSome, is_some, true, false};
ghost use Rattle.std.specs.Io.KnownBytes.{Appends};
ghost use Rattle.of_arguments.specs.Asked.{appendix_of, asked, no_appendix};
ghost use Rattle.of_detok.specs.Listing.{listed_so_far};
ghost use Rattle.of_files.specs.Messages.{bad_start_of};
ghost use Rattle.of_files.specs.Faults.{EndsWith};
ghost use Rattle.of_files.specs.Saying.{Said};
ghost use Rattle.of_commands.specs.Definitions.{shown_lines};
ghost use Rattle.of_commands.specs.Listings.{listed_behind};
ghost use Rattle.of_commands.specs.Runs.{EndsPart, Fails, FaultsImage, FaultsListing, Lists, ListsFile, ListsImage};
ghost use Rattle.of_commands.specs.Runs.{ListsPart, Prints, RunsFile, end_status, run_end};
ghost use Rattle.of_runs.specs.Runs.{console_of};
ghost use Rattle.of_commands.specs.Runs.{Does, is_explained};
ghost use Rattle.of_files.specs.Faults.{is_done};

use crate::definitions::list_definitions;
use crate::explain::say_end;
use crate::listings::{no_listings, print_listings, run_end};
use of_arguments::{Listing, Listings, Request, Status};
use of_detok::{Extras, partial_listing};
use of_files::{Fault, Messages, read_image, report, tok, write_whole};
use of_inspect::{check, pci};
use of_machine::{End, ScriptMachine};
use of_runs::Outside;
use of_stream::StreamFault;
use std::alloc::Global;
use std::io::{Read, Write};

/// What a run is asked for.
#[derive(Clone, Copy)]
pub struct Run<'a> {
    /// The path of the image.
    pub image: &'a str,
    /// The console lines that are read behind it, and what answers its questions.
    pub outside: Outside<'a>,
    /// How many steps the run makes at most.
    pub limit: u64,
    /// What is printed behind what the run prints.
    pub listings: Listings<'a>,
    /// Whether its end is explained on the error output.
    pub explain: bool,
}

/// Runs the image of a file for at most `limit` steps, prints what the run prints as it comes, and gives the image,
/// too.
#[tactic(auto, using(crate::proofs::Faults::run_unread, crate::proofs::Faults::run_given_up))]
pub(crate) fn run_file<R: Read, W: Write>(
    alloc: Global,
    run: Run<'_>,
    file: &mut R,
    out: &mut W,
) -> Result<(Vec<u8>, ScriptMachine, End), Fault>
    ensures ok { IfOk result (λ r. IfSome (R.remaining file.old) (λ bytes.
        RunsFile bytes run.entry.outside run.entry.limit r.1 r.2)) }
    ensures printed { IfOk result (λ r. Appends (W.contents out.old) (W.contents out.new) (console_of r.1)) }
    ensures err { IfErr result (λ f. IfSome (R.remaining file.old) (λ bytes.
        Fails bytes run.entry.outside run.entry.limit (W.contents out.old) (W.contents out.new) f)) }
{
    let image = read_image(alloc, file)?;
    match of_runs::print_run(alloc, &image, run.outside, run.limit, out) {
        Ok((machine, end)) => Ok((image, machine, end)),
        Err(fault) => Err(fault),
    }
}

/// The status of a run's end.
fn end_status(end: End) -> Status
    ensures { result ≡ end_status end }
{
    match end {
        End::Done => Status::Done,
        End::LimitReached => Status::LimitReached,
        End::AnswersOut => Status::AnswersOut,
    }
}

/// Says how a run ended, where that is to be explained.
pub(crate) fn explain_end<E: Write>(
    alloc: Global,
    run: Run<'_>,
    image: &[u8],
    machine: &ScriptMachine,
    end: End,
    errors: &mut Messages<E>,
) -> Result<Status, Fault>
    ensures ok { IfOk result (λ s. s ≡ end_status end) }
    ensures err { IfErr result (λ f. f ≡ Fault.NoMemory) }
    ensures silent { run.entry.explain ≡ false → errors.new ≡ errors.old }
{
    if run.explain {
        say_end(alloc, run, image, machine, end, errors)?;
    }
    Ok(end_status(end))
}

/// Prints what is listed behind what a run printed, and then says how it ended, where that is to be explained.
///
/// NoWord, once that is done, where a word is asked for by a name that none has.
#[tactic(auto, using(crate::proofs::Faults::all_are_part, crate::proofs::Faults::run_ended))]
fn print_end<W: Write, E: Write>(
    alloc: Global,
    run: Run<'_>,
    image: &[u8],
    machine: &ScriptMachine,
    end: End,
    out: &mut W,
    errors: &mut Messages<E>,
) -> Result<Status, Fault>
    ensures ok { IfOk result (λ s. Appends (W.contents out.old) (W.contents out.new)
        (listed_behind (appendix_of run.entry.listings) machine.now)
        × (run_end (appendix_of run.entry.listings) machine.now (end_status end) ≡ Ok s)) }
    ensures err { IfErr result (λ f. EndsPart (appendix_of run.entry.listings) machine.now end
        (W.contents out.old) (W.contents out.new) f) }
    ensures silent { run.entry.explain ≡ false → errors.new ≡ errors.old }
{
    print_listings(alloc, run.listings, machine, out)?;
    let status = explain_end(alloc, run, image, machine, end, errors)?;
    run_end(run.listings, machine, status)
}

/// Runs the image of a file for at most `limit` steps, prints what the run prints as it comes, and behind it what is
/// listed, explains how it ended, where that is asked for, and gives the status.
///
/// The file is the image as it stands where it begins with a start word, 0xF0 to 0xF3 or 0xFD, and
/// else a text of hexadecimal digits. With a fault of the file nothing is printed.
#[tactic(auto, using(crate::proofs::Faults::run_printed))]
fn print_run<R: Read, W: Write, E: Write>(
    alloc: Global,
    run: Run<'_>,
    file: &mut R,
    out: &mut W,
    errors: &mut Messages<E>,
) -> Result<Status, Fault>
    ensures printed { IfSome (R.remaining file.old) (λ bytes.
        Prints (appendix_of run.entry.listings) bytes run.entry.outside run.entry.limit
        (W.contents out.old) (W.contents out.new) result) }
    ensures silent { run.entry.explain ≡ false → errors.new ≡ errors.old }
    ensures unsaid { IfErr result (λ f. is_some (bad_start_of f) ≡ true → errors.new ≡ errors.old) }
{
    match run_file(alloc, run, file, out) {
        Ok((image, machine, end)) => print_end(alloc, run, &image, &machine, end, out, errors),
        Err(fault) => Err(fault),
    }
}

/// The lines that are shown of an image's tokens, and what is wrong behind them, if anything.
fn list_tokens(
    alloc: Global,
    image: &[u8],
    extras: Extras,
    partial: bool,
) -> Result<(Vec<u8>, Option<StreamFault>), Fault>
    ensures ok { IfOk result (λ r. shown_lines partial (listed_so_far extras image.now) ≡ (r.0.items, r.1)) }
    ensures err { IfErr result (λ f. f ≡ Fault.NoMemory) }
{
    match partial_listing(alloc, image, extras) {
        Ok((_, Some(fault))) if !partial => Ok((Vec::new(alloc), Some(fault))),
        Ok(listed) => Ok(listed),
        Err(_) => Err(Fault::NoMemory),
    }
}

/// The lines that are shown of an image, and what is wrong behind them, if anything.
fn list_image(
    alloc: Global,
    image: &[u8],
    listing: Listing,
    partial: bool,
) -> Result<(Vec<u8>, Option<StreamFault>), Fault>
    ensures ok { IfOk result (λ r. ListsImage listing partial image.now (r.0.items, r.1)) }
    ensures err { IfErr result (λ f. FaultsImage listing partial image.now f) }
{
    match listing {
        Listing::Tokens(extras) => list_tokens(alloc, image, extras, partial),
        Listing::Definitions => list_definitions(alloc, image, partial),
    }
}

/// The lines that are shown of the image of a file, and what is wrong behind them, if anything.
#[tactic(auto, using(crate::proofs::Faults::listing_unread, crate::proofs::Faults::listing_refused))]
fn list_file<R: Read>(
    alloc: Global,
    file: &mut R,
    listing: Listing,
    partial: bool,
) -> Result<(Vec<u8>, Option<StreamFault>), Fault>
    ensures ok { IfOk result (λ r. IfSome (R.remaining file.old) (λ bytes.
        ListsFile listing partial bytes (r.0.items, r.1))) }
    ensures err { IfErr result (λ f. IfSome (R.remaining file.old) (λ bytes.
        FaultsListing listing partial bytes f)) }
{
    let image = read_image(alloc, file)?;
    match list_image(alloc, &image, listing, partial) {
        Ok(listed) => Ok(listed),
        Err(fault) => Err(fault),
    }
}

/// Prints lines, and answers what is wrong behind them, if anything.
fn print_lines<W: Write>(
    lines: &[u8],
    wrong: Option<StreamFault>,
    out: &mut W,
) -> Result<Status, Fault>
    ensures ok { IfOk result (λ s. (s ≡ Status.Done) × (wrong ≡ None)
        × Appends (W.contents out.old) (W.contents out.new) lines.now) }
    ensures err { IfErr result (λ f. ListsPart (lines.now, wrong) (W.contents out.old) (W.contents out.new) f) }
{
    match write_whole(out, lines) {
        Ok(()) => match wrong {
            None => Ok(Status::Done),
            Some(fault) => Err(Fault::Unlisted(fault)),
        },
        Err(fault) => Err(fault),
    }
}

/// Prints the listing of the image of a file, of its tokens or of its definitions.
///
/// The file is read as for `run`. Where a token can't be read, nothing is printed, unless a part is asked for: then the
/// lines before it are.
fn detok<R: Read, W: Write>(
    alloc: Global,
    file: &mut R,
    listing: Listing,
    partial: bool,
    out: &mut W,
) -> Result<Status, Fault>
    ensures { IfSome (R.remaining file.old) (λ bytes.
        Lists listing partial bytes (W.contents out.old) (W.contents out.new) result) }
{
    match list_file(alloc, file, listing, partial) {
        Ok((lines, wrong)) => print_lines(&lines, wrong, out),
        Err(fault) => Err(fault),
    }
}

/// Prints the listing of the image of a file, and gives the status; a fault is said on the error output.
#[tactic(auto, using(crate::proofs::Ends::ended, crate::proofs::Ends::not_ended))]
fn answer_listing<R: Read, W: Write, E: Write>(
    alloc: Global,
    path: &str,
    file: &mut R,
    listing: Listing,
    partial: bool,
    out: &mut W,
    errors: &mut Messages<E>,
) -> Status
    ensures answered { IfSome (R.remaining file.old) (λ bytes. EndsWith
        (Lists listing partial bytes (W.contents out.old) (W.contents out.new))
        (Said E.contents errors.old errors.new) result) }
    ensures silent { is_done result ≡ true → errors.new ≡ errors.old }
{
    match detok(alloc, file, listing, partial, out) {
        Ok(status) => status,
        Err(fault) => report(path, fault, errors),
    }
}

/// Runs the image of a file, prints what it prints, and gives the status; a fault is said on the error output.
#[tactic(auto, using(crate::proofs::Ends::ended, crate::proofs::Ends::not_ended))]
fn answer_run<R: Read, W: Write, E: Write>(
    alloc: Global,
    run: Run<'_>,
    file: &mut R,
    out: &mut W,
    errors: &mut Messages<E>,
) -> Status
    ensures answered { IfSome (R.remaining file.old) (λ bytes. EndsWith
        (Prints (appendix_of run.entry.listings) bytes run.entry.outside run.entry.limit
        (W.contents out.old) (W.contents out.new))
        (Said E.contents errors.old errors.new) result) }
    ensures silent { is_done result ≡ true → run.entry.explain ≡ false → errors.new ≡ errors.old }
{
    match print_run(alloc, run, file, out, errors) {
        Ok(status) => status,
        Err(fault) => report(run.image, fault, errors),
    }
}

/// A run of the image at a path, of which nothing is listed behind what it prints.
fn bare_run<'a>(image: &'a str, outside: Outside<'a>, limit: u64, explain: bool) -> Run<'a>
    ensures outside { result.outside ≡ outside.entry }
    ensures limit { result.limit ≡ limit }
    ensures listings { appendix_of result.listings ≡ no_appendix }
    ensures explain { result.explain ≡ explain }
{
    Run {
        image,
        outside,
        limit,
        listings: no_listings(),
        explain,
    }
}

/// Does what was asked for with the file at its path, and gives the status. Of `client`, `console` and `debug` this is
/// the run of the image alone, and where the FCode program of a ROM is asked for, the file is that program. The
/// questions of a run are answered by `outside`.
///
/// What is wrong is said on the error output, behind the path of the file; and how a run ended, where that is to be
/// explained. Else nothing is said.
pub fn answer<R: Read, W: Write, E: Write>(
    alloc: Global,
    request: Request<'_>,
    outside: Outside<'_>,
    file: &mut R,
    out: &mut W,
    errors: &mut Messages<E>,
) -> Status
    ensures answered { IfSome (R.remaining file.old) (λ bytes. EndsWith
        (Does (asked request.entry) outside.entry bytes (W.contents out.old) (W.contents out.new))
        (Said E.contents errors.old errors.new) result) }
    ensures silent { is_done result ≡ true → is_explained (asked request.entry) ≡ false → errors.new ≡ errors.old }
{
    match request {
        Request::Run {
            image,
            limit,
            listings,
            explain,
            ..
        } => {
            let run = Run {
                image,
                outside,
                limit,
                listings,
                explain,
            };
            answer_run(alloc, run, file, out, errors)
        }
        Request::Client {
            image,
            limit,
            explain,
            ..
        } => {
            let run = bare_run(image, outside, limit, explain);
            answer_run(alloc, run, file, out, errors)
        }
        Request::Console { image, limit, .. } => {
            let run = bare_run(image.unwrap_or(""), outside, limit, false);
            answer_run(alloc, run, file, out, errors)
        }
        Request::Debug { image, limit, .. } => {
            let run = bare_run(image, outside, limit, false);
            answer_run(alloc, run, file, out, errors)
        }
        Request::Tok { source, .. } => tok(alloc, source, file, out, errors),
        Request::Detok {
            image,
            listing,
            partial,
            ..
        } => answer_listing(alloc, image, file, listing, partial, out, errors),
        Request::Check { image, .. } => check(alloc, image, file, out, errors),
        Request::Pci { rom } => pci(alloc, rom, file, out, errors),
    }
}
