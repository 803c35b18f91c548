//! Names found among 4,000.
use of_cells::Cell;
use of_dict::{Dict, DictFault, Kind, OwnWord};
use std::alloc::Global;

/// How many words there are.
const WORDS: u32 = 4000;

/// The name of a word: eight bytes.
fn spelt(number: u32) -> [u8; 8] {
    let thousands = b'0' + (number / 1000 % 10) as u8;
    let hundreds = b'0' + (number / 100 % 10) as u8;
    let tens = b'0' + (number / 10 % 10) as u8;
    let ones = b'0' + (number % 10) as u8;
    [b'w', b'o', b'r', b'd', thousands, hundreds, tens, ones]
}

/// Makes so many words.
pub fn make_words(dict: &mut Dict, count: u32) -> Result<(), DictFault> {
    for number in 0..count {
        let value = Cell(number);
        dict.add(Some(&spelt(number)), Kind::Constant { value })?;
    }
    Ok(())
}

/// Spells names, and adds up their last bytes: what the other loops spend beside their calls.
fn spell(count: u32) -> u32 {
    let mut sum = 0u32;
    for i in 0..count {
        sum = sum.wrapping_add(u32::from(spelt(i % WORDS)[7]));
    }
    sum
}

/// Finds names, and adds up their numbers.
fn find(dict: &Dict, count: u32) -> u32 {
    let mut sum = 0u32;
    for i in 0..count {
        if let Some(word) = dict.find(&spelt(i % WORDS)) {
            sum = sum.wrapping_add(word.0);
        }
    }
    sum
}

/// Looks for names that no word has, and counts those that are found.
fn miss(dict: &Dict, count: u32) -> u32 {
    let mut sum = 0u32;
    for i in 0..count {
        if dict.find(&spelt(i % WORDS + WORDS)).is_some() {
            sum = sum.wrapping_add(1);
        }
    }
    sum
}

/// Changes what values give, as `to` does.
fn store(dict: &mut Dict, count: u32) -> u32 {
    for i in 0..count {
        let value = Cell(i);
        dict.set_kind(OwnWord(i % WORDS), Kind::Value { value });
    }
    match dict.kind_of(OwnWord(0)) {
        Some(Kind::Value { value }) => value.0,
        _ => 0,
    }
}

/// Makes so many calls of a kind, and answers a number that depends on all of them.
pub fn calls(alloc: Global, kind: &str, count: u32) -> Option<u32> {
    let mut dict = Dict::new(alloc);
    make_words(&mut dict, WORDS).ok()?;
    match kind {
        "spell" => Some(spell(count)),
        "find" => Some(find(&dict, count)),
        "miss" => Some(miss(&dict, count)),
        "store" => Some(store(&mut dict, count)),
        _ => None,
    }
}
