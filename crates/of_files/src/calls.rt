//! The calls of a client, from a file.
ghost use Rattle.std.specs.Prelude.{◌≡◌, Ok, IfOk, IfErr, IfSome, map};
ghost use Rattle.of_calls.specs.Calls.{parsed};
ghost use Rattle.of_client.specs.Services.{service_of};
ghost use Rattle.of_files.specs.Handed.{FaultsCalls};

use crate::fault::{Fault, no_calls};
use crate::input::read_whole;
use of_calls::parse;
use of_client::ClientCall;
use std::alloc::Global;
use std::io::Read;

/// The calls of a file.
#[tactic(auto, using(crate::proofs::Replies::calls_read, crate::proofs::Replies::calls_refused))]
pub fn read_calls<C: Read>(alloc: Global, file: &mut C) -> Result<Vec<ClientCall>, Fault>
    ensures ok { IfOk result (λ calls. IfSome (C.remaining file.old) (λ text.
        parsed text ≡ Ok (map service_of calls.items))) }
    ensures err { IfErr result (λ f. IfSome (C.remaining file.old) (λ text. FaultsCalls text f)) }
{
    let text = read_whole(alloc, file)?;
    match parse(alloc, &text) {
        Ok(calls) => Ok(calls),
        Err(fault) => Err(no_calls(fault)),
    }
}
