ghost use Rattle.std.specs.Prelude.{◌≡◌, ◌⊎◌, Ok, Err, IfOk, IfErr};
ghost use Rattle.of_client.specs.Services.{service_of};
ghost use Rattle.of_calls.specs.Calls.{asked, before_room, call_in, name_before_room, of_handle};

use crate::fault::TextFault;
use crate::line::Line;
use crate::service::{HandleKind, Kind, kind_of};
use of_cells::Cell;
use of_client::ClientCall;
use of_nodes::Phandle;
use std::alloc::Global;

/// How many words of `getprop` stand before the room: the name may be left out.
fn before_room(line: Line<'_>) -> usize
    ensures { result ≡ before_room line.entry.text.now }
{
    if line.ends(3) { 2 } else { 3 }
}

/// The name that `getprop` is given.
///
/// BadName where a carriage return stands in it.
fn name_before_room<'a>(line: Line<'a>) -> Result<&'a [u8], TextFault>
    ensures ok { IfOk result (λ n. name_before_room line.entry.number line.entry.text.now ≡ Ok n.now) }
    ensures err { IfErr result (λ f. name_before_room line.entry.number line.entry.text.now ≡ Err f) }
{
    if line.ends(3) { Ok(&[]) } else { line.text(2) }
}

/// What a service of a line is asked with a handle.
#[tactic(auto, unfolding(crate::specs::Calls::of_handle))]
fn of_handle(
    alloc: Global,
    kind: HandleKind,
    handle: Cell,
    line: Line<'_>,
) -> Result<ClientCall, TextFault>
    ensures ok { IfOk result (λ c. of_handle kind handle line.entry.number line.entry.text.now ≡ Ok (service_of c)) }
    ensures err { IfErr result (λ f. (f ≡ TextFault.NoMemory)
        ⊎ (of_handle kind handle line.entry.number line.entry.text.now ≡ Err f)) }
{
    match kind {
        HandleKind::Child => line.ended(2, ClientCall::Child(Phandle(handle))),
        HandleKind::Peer => line.ended(2, ClientCall::Peer(Phandle(handle))),
        HandleKind::Parent => line.ended(2, ClientCall::Parent(Phandle(handle))),
        HandleKind::GetPropLen => {
            let name = Vec::from_slice(alloc, line.text(2)?)?;
            line.ended(3, ClientCall::GetPropLen(Phandle(handle), name))
        }
        HandleKind::GetProp => {
            let name = Vec::from_slice(alloc, name_before_room(line)?)?;
            let room = line.number(before_room(line))?;
            line.ended(4, ClientCall::GetProp(Phandle(handle), name, room.0))
        }
        HandleKind::NextProp => {
            let name = Vec::from_slice(alloc, line.text(2)?)?;
            line.ended(3, ClientCall::NextProp(Phandle(handle), name))
        }
        HandleKind::InstanceToPackage => line.ended(2, ClientCall::InstanceToPackage(handle)),
        HandleKind::PackageToPath => {
            let room = line.number(2)?;
            line.ended(3, ClientCall::PackageToPath(Phandle(handle), room.0))
        }
    }
}

/// What a service of a line is asked.
#[tactic(auto, unfolding(crate::specs::Calls::asked))]
fn asked(alloc: Global, kind: Kind, line: Line<'_>) -> Result<ClientCall, TextFault>
    ensures ok { IfOk result (λ c. asked kind line.entry.number line.entry.text.now ≡ Ok (service_of c)) }
    ensures err { IfErr result (λ f. (f ≡ TextFault.NoMemory)
        ⊎ (asked kind line.entry.number line.entry.text.now ≡ Err f)) }
{
    match kind {
        Kind::FindDevice => {
            let path = Vec::from_slice(alloc, line.text(1)?)?;
            line.ended(2, ClientCall::FindDevice(path))
        }
        Kind::OfHandle(kind) => of_handle(alloc, kind, line.number(1)?, line),
    }
}

/// The call of a line.
#[tactic(auto, unfolding(crate::specs::Calls::call_in))]
pub(crate) fn call_in(alloc: Global, line: Line<'_>) -> Result<ClientCall, TextFault>
    ensures ok { IfOk result (λ c. call_in line.entry.number line.entry.text.now ≡ Ok (service_of c)) }
    ensures err { IfErr result (λ f. (f ≡ TextFault.NoMemory)
        ⊎ (call_in line.entry.number line.entry.text.now ≡ Err f)) }
{
    match kind_of(line.word(0)) {
        Some(kind) => asked(alloc, kind, line),
        None => Err(TextFault::Unknown(line.place(0))),
    }
}
