//! Limits of steps, as text.
ghost use Rattle.std.specs.Prelude.{◌≡◌, ◌<◌};
ghost use Rattle.of_arguments.specs.CommandLine.{limit_of, number_upto, times_before};

/// How many steps a limit has at most.
const MOST_STEPS: u64 = 1_000_000_000;

/// The number that a text has in decimal digits, where it is no greater than `most`.
fn number_upto(text: &str, most: u64) -> Option<u64>
    ensures { result ≡ number_upto most text.now }
{
    match text.parse::<u64>() {
        Ok(number) => { if number <= most { Some(number) } else { None } }
        Err(_) => None,
    }
}

/// The number that a text has before its last character, if that is `unit`, times `each`, where that is no greater than
/// 1,000,000,000.
fn times_before(text: &str, unit: char, each: u64) -> Option<u64>
    requires some { 0 < each }
    requires ascii { unit < 128 }
    ensures { result ≡ times_before each unit text.now }
{
    let Some(digits) = text.strip_suffix(unit) else {
        return None;
    };
    match number_upto(digits, MOST_STEPS / each) {
        Some(number) => Some(number * each),
        None => None,
    }
}

/// The limit that a text gives: a number from 0 to 1,000,000,000, or of thousands, behind which `k` stands, or of
/// millions, behind which `M` does.
pub fn limit_of(text: &str) -> Option<u64>
    ensures { result ≡ limit_of text.now }
{
    if let Some(number) = number_upto(text, MOST_STEPS) {
        return Some(number);
    }
    if let Some(number) = times_before(text, 'k', 1000) {
        return Some(number);
    }
    times_before(text, 'M', 1_000_000)
}
