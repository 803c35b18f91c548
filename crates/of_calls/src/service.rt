ghost use Rattle.std.specs.Prelude.{◌≡◌};
ghost use Rattle.of_calls.specs.Calls.{handle_kind_of, kind_of};

use crate::line::is_same;

/// A service, by its name alone (IEEE 1275-1994, 6.3.2.1 and 6.3.2.2).
#[derive(Clone, Copy)]
pub enum Kind {
    /// `finddevice`
    FindDevice,
    /// One that takes a handle first.
    OfHandle(HandleKind),
}

/// A service that takes a handle first.
#[derive(Clone, Copy)]
pub enum HandleKind {
    /// `child`
    Child,
    /// `peer`
    Peer,
    /// `parent`
    Parent,
    /// `getproplen`
    GetPropLen,
    /// `getprop`
    GetProp,
    /// `nextprop`
    NextProp,
    /// `instance-to-package`
    InstanceToPackage,
    /// `package-to-path`
    PackageToPath,
}

/// The service of a name.
#[tactic(auto, unfolding(crate::specs::Calls::kind_of))]
pub(crate) fn kind_of(name: &[u8]) -> Option<Kind>
    ensures { result ≡ kind_of name.now }
{
    if is_same(name, "finddevice") {
        return Some(Kind::FindDevice);
    }
    match handle_kind_of(name) {
        Some(kind) => Some(Kind::OfHandle(kind)),
        None => None,
    }
}

/// The service of a name that takes a handle first.
#[tactic(auto, unfolding(crate::specs::Calls::handle_kind_of))]
fn handle_kind_of(name: &[u8]) -> Option<HandleKind>
    ensures { result ≡ handle_kind_of name.now }
{
    if is_same(name, "child") {
        Some(HandleKind::Child)
    } else if is_same(name, "peer") {
        Some(HandleKind::Peer)
    } else if is_same(name, "parent") {
        Some(HandleKind::Parent)
    } else if is_same(name, "getproplen") {
        Some(HandleKind::GetPropLen)
    } else if is_same(name, "getprop") {
        Some(HandleKind::GetProp)
    } else if is_same(name, "nextprop") {
        Some(HandleKind::NextProp)
    } else if is_same(name, "instance-to-package") {
        Some(HandleKind::InstanceToPackage)
    } else if is_same(name, "package-to-path") {
        Some(HandleKind::PackageToPath)
    } else {
        None
    }
}
