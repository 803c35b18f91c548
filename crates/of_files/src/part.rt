ghost use Rattle.std.specs.Prelude.{◌≡◌, ◌⊎◌, ◌≤◌, ◌+◌, ◌*◌, ◌<◌, ◌^◌, [], ◌++◌, List, ℕ, length, None, Ok, Err};
ghost use Rattle.std.specs.Prelude.{IfOk, IfErr, OnOk};
ghost use Rattle.of_files.specs.Files.{dense, image_with, counted, is_binary, is_text, past, stray_from, IsStray};

use crate::fault::Fault;
use crate::place::{behind, first_place};
use hex::FromHexError;
use of_source::Place;
use std::alloc::Global;

/// What was read of the file of an image.
#[derive(Drop)]
pub enum Part {
    /// Nothing.
    Nothing,
    /// The first bytes of an image.
    Binary(Vec<u8>),
    /// The digits of a text, with the place behind them.
    Digits(Vec<u8>, Place),
}

/// Whether a file is an image as it stands, by its first byte.
fn is_binary(file: &[u8]) -> bool
    ensures { result ≡ is_binary file.now }
{
    matches!(file, [0xf0..=0xf3 | 0xfd, ..])
}

/// Whether a byte may stand in a text of digits.
fn is_text(byte: u8) -> bool
    ensures { result ≡ is_text byte }
{
    byte.is_ascii_whitespace() || byte.is_ascii_hexdigit()
}

/// Takes the digits of a text that begins at a place, and gives the place behind it.
fn take_digits(digits: &mut Vec<u8>, place: Place, text: &[u8]) -> Result<Place, Fault>
    requires lines { place.line + length text.now < 2 ^ 64 }
    requires columns { place.column + length text.now < 2 ^ 64 }
    ensures none { IfOk result (λ p. stray_from place text.now ≡ None) }
    ensures digits { OnOk result (digits.new.items ≡ digits.old.items ++ dense text.now) }
    ensures place { IfOk result (λ p. p ≡ past text.now place) }
    ensures few { IfOk result (λ p. p.line + p.column ≤ place.line + place.column + 2 * length text.now) }
    ensures err { IfErr result (IsStray (stray_from place text.now)) }
{
    let mut here = place;
    let mut rest = text;
    while let [byte, tail @ ..] = rest {
        if !is_text(*byte) {
            return Err(Fault::BadDigit {
                place: here,
                byte: *byte,
            });
        }
        if !byte.is_ascii_whitespace() && digits.push(*byte).is_err() {
            return Err(Fault::NoMemory);
        }
        here = behind(here, *byte);
        rest = tail;
    }
    Ok(here)
}

/// The first part of a file.
#[tactic(auto, using(crate::proofs::Reading::parts))]
fn first_part(alloc: Global, bytes: &[u8]) -> Result<Part, Fault>
    requires { 2 + length bytes.now < 2 ^ 64 }
    ensures ok { IfOk result (λ p. (rest : List ℕ) → image_with p rest ≡ image_with Part.Nothing (bytes.now ++ rest)) }
    ensures few { IfOk result (λ p. counted p ≤ 2 + 2 * length bytes.now) }
    ensures err { IfErr result (λ f. (f ≡ Fault.NoMemory)
        ⊎ ((rest : List ℕ) → image_with Part.Nothing (bytes.now ++ rest) ≡ Err f)) }
{
    if bytes.is_empty() {
        return Ok(Part::Nothing);
    }
    if is_binary(bytes) {
        return match Vec::from_slice(alloc, bytes) {
            Ok(image) => Ok(Part::Binary(image)),
            Err(_) => Err(Fault::NoMemory),
        };
    }
    let mut digits = Vec::new(alloc);
    match take_digits(&mut digits, first_place(), bytes) {
        Ok(place) => Ok(Part::Digits(digits, place)),
        Err(fault) => Err(fault),
    }
}

impl Part {
    /// With the next bytes of the file.
    ///
    /// BadDigit at a byte that can't stand in a text of digits; NoMemory.
    #[tactic(auto, using(crate::proofs::Reading::parts))]
    pub(crate) fn with(self, alloc: Global, bytes: &[u8]) -> Result<Part, Fault>
        requires { counted self + length bytes.now < 2 ^ 64 }
        ensures ok { IfOk result (λ p. (rest : List ℕ)
            → image_with p rest ≡ image_with self (bytes.now ++ rest)) }
        ensures few { IfOk result (λ p. counted p ≤ counted self + 2 * length bytes.now) }
        ensures err { IfErr result (λ f. (f ≡ Fault.NoMemory)
            ⊎ ((rest : List ℕ) → image_with self (bytes.now ++ rest) ≡ Err f)) }
    {
        match self {
            Part::Nothing => first_part(alloc, bytes),
            Part::Binary(mut image) => match image.extend_from_slice(bytes) {
                Ok(()) => Ok(Part::Binary(image)),
                Err(_) => Err(Fault::NoMemory),
            },
            Part::Digits(mut digits, place) => match take_digits(&mut digits, place, bytes) {
                Ok(place) => Ok(Part::Digits(digits, place)),
                Err(fault) => Err(fault),
            },
        }
    }

    /// The image of a file of which all was read.
    ///
    /// OddDigits where the last byte has one digit; NoMemory.
    #[tactic(auto, using(crate::proofs::Reading::all_read))]
    pub(crate) fn whole(self, alloc: Global) -> Result<Vec<u8>, Fault>
        ensures ok { IfOk result (λ image. image_with self [] ≡ Ok image.items) }
        ensures err { IfErr result (λ f. (f ≡ Fault.NoMemory) ⊎ (image_with self [] ≡ Err f)) }
    {
        match self {
            Part::Nothing => Ok(Vec::new(alloc)),
            Part::Binary(image) => Ok(image),
            Part::Digits(digits, _) => match hex::decode(alloc, digits.as_slice()) {
                Ok(image) => Ok(image),
                Err(FromHexError::OutOfMemory) => Err(Fault::NoMemory),
                Err(_) => Err(Fault::OddDigits),
            },
        }
    }
}
