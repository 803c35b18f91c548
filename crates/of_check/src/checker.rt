ghost use Rattle.std.specs.Prelude.{◌≡◌, ◌<◌, ◌≤◌, ◌++◌, [], length, IfOk, OnOk};
ghost use Rattle.of_stream.specs.Decoding.{argument_shown, token_shown};
ghost use Rattle.of_stream.specs.Image.{first_size, header_length};
ghost use Rattle.of_stream.specs.Sizes.{size_behind};
ghost use Rattle.of_check.specs.Tokens.{Standing, tokens_from, tokens_of};
ghost use Rattle.of_check.specs.Findings.{branch_finding, definition_finding, end_finding, findings_of, listed};
ghost use Rattle.of_check.specs.Findings.{stream_findings};
ghost use Rattle.of_check.specs.Table.{findings_in, none_made, standing, use_in};

use crate::definition::is_unnested;
use crate::finding::Finding;
use crate::header::{length_finding, sum_finding};
use crate::made::{Made, is_own};
use of_stream::{Argument, HEADER_LENGTH, OffsetSize, Stream, Token, open, tokens_stand_alone};
use std::alloc::{AllocError, Global};

/// A token with its position, the position behind it, and the size of the offsets there.
#[derive(Clone, Copy)]
struct Spot<'a> {
    position: usize,
    token: Token<'a>,
    next: usize,
    size: OffsetSize,
}

/// Appends a finding, if there is one.
fn push_if(out: &mut Vec<Finding>, finding: Option<Finding>) -> Result<(), AllocError>
    ensures { OnOk result (out.new.items ≡ out.old.items ++ listed finding) }
{
    match finding {
        Some(finding) => {
            out.push(finding)?;
            Ok(())
        }
        None => Ok(()),
    }
}

/// Whether the token is a word that isn't made.
fn use_finding(made: &Made, spot: Spot<'_>) -> Option<Finding>
    ensures { result ≡ use_in made.now (standing spot.entry.position spot.entry.token) }
{
    if !is_own(spot.token.code) || made.has(spot.token.code) {
        return None;
    }
    Some(Finding::Unmade {
        position: spot.position,
        code: spot.token.code,
    })
}

/// Whether the offset of the token leads outside.
fn branch_finding(stream: Stream<'_>, spot: Spot<'_>) -> Option<Finding>
    requires { spot.position < length stream.image.now }
    ensures { result ≡ branch_finding (length stream.entry.image.now)
        (standing spot.entry.position spot.entry.token) (argument_shown spot.entry.token.argument) }
{
    match spot.token.argument {
        Argument::Offset(by) => match stream.landing(spot.position, by) {
            Some(_) => None,
            None => Some(Finding::Outside {
                position: spot.position,
                code: spot.token.code,
                by,
            }),
        },
        _ => None,
    }
}

/// Whether the token opens a definition that is no nest.
fn definition_finding(stream: Stream<'_>, spot: Spot<'_>) -> Option<Finding>
    ensures { result ≡ definition_finding (standing spot.entry.position spot.entry.token)
        (tokens_from stream.entry.image.now (length stream.entry.image.now) spot.entry.next spot.entry.size).tokens }
{
    if spot.token.code.0 == 0x0b7 && is_unnested(stream, spot.next, spot.size) {
        return Some(Finding::Unnested(spot.position));
    }
    None
}

/// Appends what is found at a token.
#[tactic(auto, using(std::proofs::lemmas::List::append_assoc))]
fn push_token(
    out: &mut Vec<Finding>,
    stream: Stream<'_>,
    made: &Made,
    spot: Spot<'_>,
) -> Result<(), AllocError>
    requires { spot.position < length stream.image.now }
    ensures { OnOk result (out.new.items ≡ out.old.items ++ findings_in (length stream.entry.image.now) made.now
        (standing spot.entry.position spot.entry.token)
        (tokens_from stream.entry.image.now (length stream.entry.image.now) spot.entry.next spot.entry.size).tokens) }
{
    push_if(out, use_finding(made, spot))?;
    push_if(out, branch_finding(stream, spot))?;
    push_if(out, definition_finding(stream, spot))
}

/// Appends what is found at the tokens, and answers where none can be read, if there is such a position. A token has a
/// byte at least, so there are no more tokens than bytes.
fn push_tokens(
    out: &mut Vec<Finding>,
    stream: Stream<'_>,
    made: Made,
) -> Result<Option<usize>, AllocError>
    requires long { header_length ≤ length stream.image.now }
    requires none { made ≡ none_made }
    ensures { IfOk result (λ unread. out.new.items ++ listed (end_finding (length stream.entry.image.now) unread)
        ≡ out.old.items ++ stream_findings (length stream.entry.image.now) [] (tokens_of stream.entry.image.now)) }
{
    let mut made = made;
    let mut position = HEADER_LENGTH;
    let mut size = stream.first_size();
    tokens_stand_alone();
    for _ in 0..stream.image.len() {
        let (token, next) = match stream.token_at(position, size) {
            Ok(read) => read,
            Err(_) => return Ok(Some(position)),
        };
        let behind = token.size_behind(size);
        let spot = Spot {
            position,
            token,
            next,
            size: behind,
        };
        push_token(out, stream, &made, spot)?;
        if token.is_end() {
            return Ok(None);
        }
        made.pass(token);
        position = next;
        size = behind;
    }
    Ok(Some(position))
}

/// What is found where no token can be read.
fn end_finding(image: &[u8], unread: Option<usize>) -> Option<Finding>
    ensures { result ≡ end_finding (length image.now) unread }
{
    let position = unread?;
    if position < image.len() {
        return Some(Finding::Unread(position));
    }
    Some(Finding::Endless(position))
}

/// What is wrong with an image, in the order of its bytes, found without running it (IEEE 1275-1994, 5.2.2, 5.2.2.5,
/// 5.3.3).
///
/// Of an image that can't be opened that is all. Else it is said where the header's sum or length isn't that of the
/// image; of each token up to the first `end0` or `end1` where its offset leads outside of the tokens, where it opens a
/// definition that is no nest of control structures, and where it is an own FCode that no token before it makes; and
/// where a token can't be read, behind which there is no more. Nothing is read behind the end token.
///
/// A definition reaches from a `b(:)` to the next `b(;)`, with no other `b(:)` and no end token between. Own FCodes
/// behind `b(')` and `b(to)` are not looked at. An error is for memory alone.
#[tactic(auto, unfolding(crate::specs::Findings::findings_of))]
pub fn findings(alloc: Global, image: &[u8]) -> Result<Vec<Finding>, AllocError>
    ensures { IfOk result (λ found. found.items ≡ findings_of image.now) }
{
    let mut out = Vec::new(alloc);
    let stream = match open(image) {
        Ok(stream) => stream,
        Err(fault) => {
            out.push(Finding::Unopened(fault))?;
            return Ok(out);
        }
    };
    push_if(&mut out, sum_finding(image))?;
    push_if(&mut out, length_finding(image))?;
    let unread = push_tokens(&mut out, stream, Made::none(alloc)?)?;
    push_if(&mut out, end_finding(image, unread))?;
    Ok(out)
}
