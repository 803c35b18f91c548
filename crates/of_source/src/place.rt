ghost use Rattle.std.specs.Prelude.{◌≡◌, length, take_while, reverse, not, nat_eq};
ghost use Rattle.std.specs.List.{count_by};
ghost use Rattle.of_source.specs.Places.{line_at, column_at};

/// Where a byte of a text stands.
#[derive(Clone, Copy, Debug, PartialEq, Eq)]
pub struct Place {
    /// The line, from 1.
    pub line: usize,
    /// The column in bytes, from 1.
    pub column: usize,
}

/// How many bytes 0x0A a text has.
fn line_ends(text: &[u8]) -> usize
    ensures { result ≡ count_by (λ b. nat_eq b 10) text.now }
{
    text.iter().filter(|byte| **byte == b'\n').count()
}

/// How many bytes a text has behind its last 0x0A.
fn behind_last(text: &[u8]) -> usize
    ensures { result ≡ length (take_while (λ b. not (nat_eq b 10)) (reverse text.now)) }
{
    text.iter().rev().take_while(|byte| **byte != b'\n').count()
}

/// The line and the column of a position in a text: how many bytes stand before it. Behind the end of the text all do.
pub fn place_in(text: &[u8], position: usize) -> Place
    ensures line { result.line ≡ line_at text.now position }
    ensures column { result.column ≡ column_at text.now position }
{
    let before = text.get(..position).unwrap_or(text);
    Place {
        line: 1 + line_ends(before),
        column: 1 + behind_last(before),
    }
}
