ghost use Rattle.std.specs.Prelude.{◌≡◌};
ghost use Rattle.of_stacks.specs.Stacks.{Makes};
ghost use Rattle.of_instances.specs.PropertyWords.{properties_entry, properties_grows};

use crate::encoding::{
    decode_int, decode_phys, decode_string, encode_bytes, encode_int, encode_phys, encode_plus,
    encode_string,
};
use crate::finding::{
    get_inherited_property, get_my_property, get_package_property, next_property,
};
use crate::setting::{delete_property, set_property, set_reg, set_string};
use of_board::Board;
use of_fcodes::PropertiesWord;
use of_stacks::Stop;

/// Runs a word of the group Properties; a stop changes nothing. The words that set and get properties without a
/// phandle work on the package of the current instance, and on the active one where no instance is current.
///
/// -4 where a cell is missing, then -259 where there is no such package, -260 where that instance was released, -263
/// where a handle is of no node, -9 where a range can't be read, -32 for a bad name, -24 where two arrays aren't
/// adjacent, -262 where an array is too short, -8 where a region has no room, and -3 where the stack has none.
/// `get-inherited-property` throws -260 also where a parent of the current instance was released, before a property of
/// the name was found. NoMemory may stand in place of any other answer of a word that sets a property.
#[tactic(auto, unfolding(crate::specs::PropertyWords::properties_entry))]
pub fn run_properties_word(word: PropertiesWord, board: &mut Board) -> Result<(), Stop>
    ensures value { Makes (properties_grows word) (properties_entry word board.old) board.old board.new result }
    ensures console { board.new.console ≡ board.old.console }
{
    match word {
        PropertiesWord::Property => set_property(board)?,
        PropertiesWord::EncodeInt => encode_int(board)?,
        PropertiesWord::EncodeString => encode_string(board)?,
        PropertiesWord::EncodeBytes => encode_bytes(board)?,
        PropertiesWord::EncodePhys => encode_phys(board)?,
        PropertiesWord::EncodePlus => encode_plus(board)?,
        PropertiesWord::DecodeInt => decode_int(board)?,
        PropertiesWord::DecodeString => decode_string(board)?,
        PropertiesWord::DecodePhys => decode_phys(board)?,
        PropertiesWord::Reg => set_reg(board)?,
        PropertiesWord::Model => set_string(b"model", board)?,
        PropertiesWord::DeviceType => set_string(b"device_type", board)?,
        PropertiesWord::DeviceName => set_string(b"name", board)?,
        PropertiesWord::GetMyProperty => get_my_property(board)?,
        PropertiesWord::GetInheritedProperty => get_inherited_property(board)?,
        PropertiesWord::GetPackageProperty => get_package_property(board)?,
        PropertiesWord::DeleteProperty => delete_property(board)?,
        PropertiesWord::NextProperty => next_property(board)?,
    }
    Ok(())
}
