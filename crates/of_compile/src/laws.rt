//! What holds of all definitions.
ghost use Rattle.of_compile.specs.StructuredLaw.{StructuresAreFlat};
ghost use Rattle.of_compile.specs.Law.{CompilesReading};
ghost use Rattle.of_compile.specs.LifeLaw.{DefinitionsComeAndGo};
ghost use Rattle.of_compile.specs.NamesLaw.{WordsGetTheirNames};
ghost use Rattle.of_compile.specs.PlacesLaw.{PlacesAreNumbered};
ghost use Rattle.of_compile.specs.RunsLaw.{RunsByStructure};

use crate::PlainItem;
use of_control::{
    calls_follow_matching, closed_is_read, compiled_is_flat, runs_by_places, runs_by_points,
};
use of_dict::changes_are_found;
use of_fcodes::table_is_map;

/// A definition can be finished exactly where its elements have a body, and its code is then that body laid out where
/// it began. Its cells are those of its elements. Once it is abandoned, the code is what was there before.
pub fn compiles_reading()
    ensures { CompilesReading }
{
    calls_follow_matching::<PlainItem, 32>();
    closed_is_read::<PlainItem, 32>();
    compiled_is_flat::<PlainItem, 32>();
}

/// Compiling an element, ending or abandoning a definition and fetching an item of a finished word do to the code what
/// they do to the definitions by structure: bodies for finished words, elements for the open definition.
pub fn structures_are_flat()
    ensures { StructuresAreFlat }
{
    compiles_reading();
    closed_is_read::<PlainItem, 32>();
    runs_by_places::<PlainItem>();
}

/// The items of a finished word's body are its items from number 0 on, its return the last, each at its own place, with
/// the number by which the structure takes it there; no other place is one of an item. A finished word has the items of
/// its body and the return; of several words with one execution token the latest counts.
pub fn places_are_numbered()
    ensures { PlacesAreNumbered }
{
    compiles_reading();
    structures_are_flat();
}

/// What is fetched at the place of a point that is reached in the body of a finished word is what the body's structure
/// takes at that point, and behind it comes the place of the next point: a finished word runs as its structure reads.
pub fn runs_by_structure()
    ensures { RunsByStructure }
{
    runs_by_places::<PlainItem>();
    runs_by_points::<PlainItem>();
}

/// While a definition is open, its number names it and its name isn't found; once it is ended, its name is found and is
/// it; once it is abandoned, all names are found as before and no FCode names it. Where none is open, `b(;)` throws -29
/// and giving up changes nothing.
pub fn definitions_come_and_go()
    ensures { DefinitionsComeAndGo }
{
    changes_are_found();
    table_is_map();
}

/// A defining word of a text throws -29 in a definition, else -4 where the stack has too few cells, else -16 or -19 for
/// its name, else -8 for want of room. Else it makes one word, the newest, which has the name, and is hidden exactly
/// where it opens a definition; the older words, the token table and the pending number are as they were.
pub fn words_get_their_names()
    ensures { WordsGetTheirNames }
{
    changes_are_found();
}
