// What a header says of the bytes behind it.

ghost use Rattle.std.specs.Prelude.{◌≡◌, ◌-◌, ◌%◌, ◌≤◌, drop, length, take};
ghost use Rattle.std.specs.List.{sum};
ghost use Rattle.of_stream.specs.Image.{header_length};
ghost use Rattle.of_detok.specs.Labels.{said_length, said_sum};
ghost use Rattle.of_check.specs.Findings.{actual_sum, length_finding, sum_finding};

use crate::finding::Finding;
use of_stream::HEADER_LENGTH;

/// The checksum that a header says.
fn said_sum(image: &[u8]) -> usize
    requires { header_length ≤ length image.now }
    ensures { result ≡ said_sum image.now }
{
    usize::from(image[2]) * 0x100 + usize::from(image[3])
}

/// The length that a header says.
fn said_length(image: &[u8]) -> usize
    requires { header_length ≤ length image.now }
    ensures { result ≡ said_length image.now }
{
    let high = usize::from(image[4]) * 0x100 + usize::from(image[5]);
    (high * 0x100 + usize::from(image[6])) * 0x100 + usize::from(image[7])
}

/// The bytes behind the header, up to its length.
#[tactic(auto, using(std::proofs::lemmas::List::take_min))]
fn counted(image: &[u8]) -> &[u8]
    requires { header_length ≤ length image.now }
    ensures { result.now ≡ take (said_length image.now - header_length) (drop header_length image.now) }
{
    let rest = &image[HEADER_LENGTH..];
    let length = said_length(image).saturating_sub(HEADER_LENGTH);
    &rest[..length.min(rest.len())]
}

/// The low sixteen bits of the sum of bytes.
fn low_sum(bytes: &[u8]) -> usize
    ensures { result ≡ sum bytes.now % 65536 }
{
    let mut sum = 0;
    for byte in bytes {
        sum = (sum + usize::from(*byte)) % 0x1_0000;
    }
    sum
}

/// Whether the header says another sum.
#[tactic(auto, unfolding(crate::specs::Findings::actual_sum))]
pub fn sum_finding(image: &[u8]) -> Option<Finding>
    requires { header_length ≤ length image.now }
    ensures { result ≡ sum_finding (said_sum image.now) (actual_sum image.now) }
{
    let said = said_sum(image);
    let actual = low_sum(counted(image));
    if said == actual {
        return None;
    }
    Some(Finding::Sum { said, actual })
}

/// Whether the header says another length.
pub fn length_finding(image: &[u8]) -> Option<Finding>
    requires { header_length ≤ length image.now }
    ensures { result ≡ length_finding (said_length image.now) (length image.now) }
{
    let said = said_length(image);
    let actual = image.len();
    if said > actual {
        return Some(Finding::Cut { said, actual });
    }
    if said < actual {
        return Some(Finding::Longer {
            said,
            more: actual - said,
        });
    }
    None
}
