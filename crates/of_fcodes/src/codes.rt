ghost use Rattle.std.specs.Prelude.{◌≡◌, map, slice_get};
ghost use Rattle.std.specs.Option.{option_copied, option_map, option_map_or};
ghost use Rattle.std.specs.Str.{str_eq_ignore_ascii_case};
ghost use Rattle.of_fcodes.specs.Rows.{Row, rows};
ghost use Rattle.of_fcodes.specs.Index.{found_among};
ghost use Rattle.of_fcodes.specs.Lookup.{row_placed, row_numbered, word_numbered, operand_numbered, name_numbered};
ghost use Rattle.of_fcodes.specs.Lookup.{number_named, row_shown};

use crate::index::{ROW_ORDER, ROW_STARTS, places_of};
use crate::operand::Operand;
use crate::table::{PLACES, ROWS, Row};
use crate::words::Word;

/// The number of an FCode, 0x000 to 0xFFF (IEEE 1275-1994, 5.2.2.2).
#[derive(Clone, Copy, Debug, PartialEq, Eq)]
pub struct FCode(pub u16);

/// The row to which the place of a number leads, where both are there.
#[inline]
fn row_at<'a>(rows: &'a [Row], places: &[u16], number: u16) -> Option<&'a Row>
    ensures { option_map row_shown (option_copied result) ≡ row_placed (map row_shown rows.now) places.now number }
{
    let number = usize::from(number);
    if number >= places.len() {
        return None;
    }
    let place = usize::from(places[number]);
    if place >= rows.len() {
        return None;
    }
    Some(&rows[place])
}

/// The rows of the table.
#[inline]
fn table() -> &'static [Row]
    ensures { map row_shown result.now ≡ rows }
{
    &ROWS
}

/// The row of an FCode, if it has one, in constant time.
#[inline]
fn row_of(code: FCode) -> Option<&'static Row>
    ensures { option_map row_shown (option_copied result) ≡ row_numbered code.0 }
{
    row_at(table(), &PLACES, code.0)
}

/// The word that an FCode names, if it is listed, in constant time.
#[inline]
pub fn word_of(code: FCode) -> Option<Word>
    ensures { result ≡ word_numbered code.0 }
{
    match row_of(code) {
        Some(row) => Some(row.2),
        None => None,
    }
}

/// What stands behind an FCode in an image, in constant time; nothing where it isn't listed.
#[inline]
pub fn operand_of(code: FCode) -> Operand
    ensures { result ≡ operand_numbered code.0 }
{
    match row_of(code) {
        Some(row) => row.3,
        None => Operand::Nothing,
    }
}

/// The name of an FCode, if it is listed, in constant time.
pub fn name_of(code: FCode) -> Option<&'static str>
    ensures { option_map (λ name. name.now) result ≡ name_numbered code.0 }
{
    match row_of(code) {
        Some(row) => Some(row.1),
        None => None,
    }
}

/// Whether two names differ at most in the case of their ASCII letters.
pub fn is_same_name(name: &[u8], other: &[u8]) -> bool
    ensures { result ≡ str_eq_ignore_ascii_case name.now other.now }
{
    name.eq_ignore_ascii_case(other)
}

/// The row at a place, if there is one.
#[inline]
fn row_placed_at(rows: &[Row], place: usize) -> Option<&Row>
    ensures { option_map row_shown (option_copied result) ≡ slice_get (map row_shown rows.now) place }
{
    rows.get(place)
}

/// The number of the first row at these places that bears a name, whatever the case of its letters.
fn number_among(places: &[u16], name: &[u8]) -> Option<u16>
    ensures { result ≡ found_among (λ (r : Row). r.name) (λ r. r.number) (map (slice_get rows) places.now) name.now }
{
    match places {
        [] => None,
        [place, rest @ ..] => {
            if let Some(row) = row_placed_at(table(), usize::from(*place)) {
                if is_same_name(row.1.as_bytes(), name) {
                    return Some(row.0);
                }
            }
            number_among(rest, name)
        }
    }
}

/// The FCode of a name, whatever the case of its ASCII letters, if it is listed, in constant time.
#[tactic(auto, using(crate::proofs::IndexLemmas::rows_hashed))]
pub fn fcode_of(name: &[u8]) -> Option<FCode>
    ensures { option_map (λ code. code.0) result ≡ number_named name.now }
{
    let number = number_among(places_of(&ROW_ORDER, &ROW_STARTS, name), name)?;
    Some(FCode(number))
}
