// A law has no parameters and does nothing: its contract is the law.
ghost use Rattle.of_props.specs.Laws.{ArraysAdjoin, DecodingsAreRefused, EncodingsAreRefused};
ghost use Rattle.of_props.specs.RoundTrips.{BytesReadBack, CellsReadBack, IntsReadBack, StringsReadBack};

use of_memory::{ranges_are_placed, writes_join};

/// Bytes that were encoded are those of their array.
#[tactic(auto, using(crate::proofs::Encoded::bytes_read_back))]
pub fn bytes_read_back()
    ensures { BytesReadBack }
{
    writes_join();
}

/// A number that was encoded decodes to itself, and what is left is what followed.
#[tactic(auto, using(crate::proofs::ReadingBack::ints_read_back))]
pub fn ints_read_back()
    ensures { IntsReadBack }
{
    writes_join();
}

/// A string without a zero byte that was encoded decodes to itself, and what is left is what followed.
#[tactic(auto, using(crate::proofs::StringsBack::strings_read_back))]
pub fn strings_read_back()
    ensures { StringsReadBack }
{
    writes_join();
    ranges_are_placed();
}

/// A physical address that was encoded decodes to its cells, and what is left is what followed.
#[tactic(auto, using(crate::proofs::ReadingBack::cells_read_back))]
pub fn cells_read_back()
    ensures { CellsReadBack }
{
    writes_join();
}

/// Two arrays are joined exactly where the second begins behind the last byte of the first, and have the bytes of
/// both then.
#[tactic(auto, using(crate::proofs::Adjoining::arrays_adjoin))]
pub fn arrays_adjoin()
    ensures { ArraysAdjoin }
{
    ranges_are_placed();
}

/// A byte that can't be read counts before a value that is too short, and no other array is refused.
#[tactic(auto, using(crate::proofs::Refused::decodings_are_refused))]
pub fn decodings_are_refused()
    ensures { DecodingsAreRefused }
{
    ranges_are_placed();
}

/// A byte that can't be read counts before want of room.
#[tactic(auto, using(crate::proofs::Refused::encodings_are_refused))]
pub fn encodings_are_refused()
    ensures { EncodingsAreRefused }
{
    ranges_are_placed();
}
