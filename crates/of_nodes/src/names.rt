ghost use Rattle.std.specs.Prelude.{◌≡◌};
ghost use Rattle.std.specs.List.{list_all};
ghost use Rattle.of_nodes.specs.Names.{is_name, is_name_byte, is_name_value, may_hold};

/// The most bytes of a name.
const LONGEST: usize = 31;

/// Whether a byte may stand in a name.
fn is_name_byte(byte: u8) -> bool
    ensures { result ≡ is_name_byte byte }
{
    0x21 <= byte && byte <= 0x7e && byte != b'/' && byte != b':' && byte != b'@'
}

/// Whether all bytes may stand in a name.
fn are_name_bytes(bytes: &[u8]) -> bool
    ensures { result ≡ list_all is_name_byte bytes.now }
{
    bytes.iter().all(|byte| is_name_byte(*byte))
}

/// Whether a text is a good name of a node or of a property: 1 to 31 bytes of 0x21 to 0x7E without
/// `/`, `:` and `@` (IEEE 1275-1994, 3.2.1.1 and 3.2.2.1.1).
pub(crate) fn is_name(text: &[u8]) -> bool
    ensures { result ≡ is_name text.now }
{
    1 <= text.len() && text.len() <= LONGEST && are_name_bytes(text)
}

/// Whether a value is a good name and one zero byte.
fn is_name_value(value: &[u8]) -> bool
    ensures { result ≡ is_name_value value.now }
{
    let count = value.len();
    1 <= count && value[count - 1] == 0 && is_name(&value[..count - 1])
}

/// Whether a property may have a name and a value: the name is good, and the value of `name`, the name
/// of a node, is a good name and one zero byte (IEEE 1275-1994, 3.2.1.1 and 3.2.2.1.1).
pub(crate) fn may_hold(name: &[u8], value: &[u8]) -> bool
    ensures { result ≡ may_hold name.now value.now }
{
    is_name(name) && (name != b"name".as_slice() || is_name_value(value))
}
