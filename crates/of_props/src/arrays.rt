ghost use Rattle.std.specs.Prelude.{◌≡◌, ◌≤◌, length, IfOk, MatchResult, Ok, Err};
ghost use Rattle.of_props.specs.Arrays.{behind, bytes_of, front, joined};

use crate::fault::PropFault;
use of_cells::Cell;
use of_memory::Memory;

/// An encoded property: so many bytes of memory from an address on (IEEE 1275-1994, 3.2.2.1).
#[derive(Clone, Copy, Debug, PartialEq, Eq)]
pub struct Array {
    /// The address of the first byte.
    pub address: Cell,
    /// How many bytes there are.
    pub length: Cell,
}

impl Array {
    /// The first `count` bytes.
    pub(crate) fn front(self, count: u32) -> Array
        requires { count ≤ self.length.0 }
        ensures { result ≡ front self count }
    {
        Array {
            address: self.address,
            length: Cell(count),
        }
    }

    /// What follows the first `count` bytes.
    pub(crate) fn behind(self, count: u32) -> Array
        requires { count ≤ self.length.0 }
        ensures { result ≡ behind self count }
    {
        Array {
            address: self.address.add(Cell(count)),
            length: Cell(self.length.0 - count),
        }
    }

    /// The bytes of the array, which are less than 2^32, or Address.
    #[tactic(auto, using(crate::proofs::Readable::reads))]
    pub(crate) fn bytes(self, memory: &Memory) -> Result<&[u8], PropFault>
        ensures value { let bytes = bytes_of memory.now self in
            MatchResult result (λ s. bytes ≡ Ok s.now) (λ e. bytes ≡ Err e) }
        ensures few { IfOk result (λ s. length s.now ≤ self.length.0) }
    {
        match memory.slice(self.address, self.length) {
            Ok(bytes) => Ok(bytes),
            // The address is the only fault of bytes.
            Err(_) => Err(PropFault::Address),
        }
    }
}

/// Two arrays, the second directly behind the first, as one (IEEE 1275-1994, annex A, `encode+`).
///
/// NotAdjacent, if the second doesn't begin where the first ends, modulo 2^32. Memory isn't looked at.
pub fn join(first: Array, second: Array) -> Result<Array, PropFault>
    ensures { result ≡ joined first second }
{
    if first.address.add(first.length) != second.address {
        return Err(PropFault::NotAdjacent);
    }
    Ok(Array {
        address: first.address,
        length: first.length.add(second.length),
    })
}
