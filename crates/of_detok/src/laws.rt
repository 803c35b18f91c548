// A function without parameters does nothing: its contract is a law.

ghost use Rattle.of_detok.specs.Listing.{BoundCutsNothing};
ghost use Rattle.of_detok.specs.Parts.{TakesDefinitions};
ghost use Rattle.of_detok.specs.Reading.{ListingReadsBack};

use of_stream::{tokens_read_back, tokens_stand_alone};

/// The definition of a listing bounds the number of tokens by that of the bytes, and the bound cuts
/// nothing: with a larger one each image has the same lines.
pub fn bound_cuts_nothing()
    ensures { BoundCutsNothing }
{
    tokens_stand_alone();
}

/// The listing of an image of bytes means that image.
pub fn listings_read_back()
    ensures { ListingReadsBack }
{
    tokens_stand_alone();
}

/// The definitions of an image are its own: from a `b(:)` to its `b(;)` each token is kept as it stands, and outside
/// each that says or makes a word, `named-token` as `external-token`, and no other. At most a byte more is taken than
/// the image has.
pub fn definitions_are_taken()
    ensures { TakesDefinitions }
{
    tokens_read_back();
    tokens_stand_alone();
}
