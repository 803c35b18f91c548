// A function without parameters does nothing: its contract is a law.

ghost use Rattle.of_check.specs.Law.{CleanImagesAreListed, FindingsAreOrdered};
ghost use Rattle.of_check.specs.Structures.{PlainItemsFit};
ghost use Rattle.of_check.specs.Tokens.{BoundCutsNothing};

use of_compile::PlainItem;
use of_control::closed_is_read;
use of_stream::tokens_stand_alone;

/// The definition of an image's tokens bounds their number by that of the bytes, and the bound cuts nothing: with a
/// larger one each image has the same tokens.
pub fn bound_cuts_nothing()
    ensures { BoundCutsNothing }
{
    tokens_stand_alone();
}

/// What a definition has between its words of control doesn't matter to whether it has a body.
pub fn plain_items_fit()
    ensures { PlainItemsFit }
{
    closed_is_read::<PlainItem, 32>();
}

/// Nothing is found exactly of an image whose header can be read and says its sum and length, whose tokens up to an end
/// token can all be read, each of whose offsets leads to where a token may stand, whose definitions all have bodies,
/// and whose own FCodes are all made before they are used. Such an image has a whole listing.
pub fn clean_images_are_listed()
    ensures { CleanImagesAreListed }
{
    closed_is_read::<PlainItem, 32>();
}

/// The findings of an image stand in the order of their positions.
pub fn findings_are_ordered()
    ensures { FindingsAreOrdered }
{
    tokens_stand_alone();
}
