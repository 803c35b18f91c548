ghost use Rattle.std.specs.Prelude.{◌≡◌, ◌<◌, ◌≤◌, true, IfSome};
ghost use Rattle.of_devices.specs.Ranges.{accessed, contains, end_of, meets, range_of};

use of_asking::Query;
use of_cells::Cell;
use of_memory::Width;

/// A range of addresses.
#[derive(Clone, Copy)]
pub struct AddressRange {
    /// The first address.
    pub address: Cell,
    /// How many bytes the range has. None of those beyond address 0xFFFFFFFF is ever accessed.
    pub length: usize,
}

impl AddressRange {
    /// The number behind the last of its addresses.
    fn end(self) -> u128
        ensures { result ≡ end_of self }
    {
        u128::from(self.address.0) + self.length as u128
    }

    /// Whether each address of another range is one of this.
    pub(crate) fn contains(self, other: AddressRange) -> bool
        ensures { result ≡ contains self other }
    {
        self.address.0 <= other.address.0 && other.end() <= self.end()
    }

    /// Whether an address is in both ranges.
    pub(crate) fn meets(self, other: AddressRange) -> bool
        ensures { result ≡ meets self other }
    {
        u128::from(self.address.0) < other.end()
            && u128::from(other.address.0) < self.end()
            && self.length > 0
            && other.length > 0
    }
}

/// The addresses of an access.
fn range_of(width: Width, address: Cell) -> AddressRange
    ensures { result ≡ range_of width address }
{
    AddressRange {
        address,
        length: width.bytes() as usize,
    }
}

/// The addresses that a question accesses over the bus; None where it accesses none.
pub(crate) fn accessed(query: Query) -> Option<AddressRange>
    ensures { result ≡ accessed query }
{
    match query {
        Query::Read(width, address) => Some(range_of(width, address)),
        Query::Write(width, address, _) => Some(range_of(width, address)),
        Query::Peek(width, address) => Some(range_of(width, address)),
        Query::Poke(width, address, _) => Some(range_of(width, address)),
        Query::Key => None,
        Query::KeyReady => None,
        Query::Milliseconds => None,
        Query::Wait(_) => None,
    }
}
