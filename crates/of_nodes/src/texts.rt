ghost use Rattle.std.specs.Prelude.{◌≡◌, ◌<◌, ◌==◌, length, option_map, IfSome};
ghost use Rattle.std.specs.List.{position};
ghost use Rattle.of_nodes.specs.Texts.{before, behind};

/// Where a byte stands first.
fn place_of(text: &[u8], byte: u8) -> Option<usize>
    ensures place { result ≡ position (λ b. b == byte) text.now }
    ensures within { IfSome result (λ i. i < length text.now) }
{
    text.iter().position(|b| *b == byte)
}

/// What stands before the first of a byte, or all.
#[tactic(auto, using(crate::proofs::TextParts::befores))]
pub fn before(text: &[u8], byte: u8) -> &[u8]
    ensures { result.now ≡ before byte text.now }
{
    match place_of(text, byte) {
        Some(place) => &text[..place],
        None => text,
    }
}

/// What stands behind the first of a byte, if there is one.
#[tactic(auto, using(crate::proofs::TextParts::behinds))]
pub fn behind(text: &[u8], byte: u8) -> Option<&[u8]>
    ensures value { option_map (λ s. s.now) result ≡ behind byte text.now }
    ensures shorter { IfSome result (λ s. length s.now < length text.now) }
{
    match place_of(text, byte) {
        Some(place) => Some(&text[place + 1..]),
        None => None,
    }
}
