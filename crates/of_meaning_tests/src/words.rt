//! Where control goes, by counting words that open and words that close (Forth 2012, 3.2.3.2).

/// What opens a branch that isn't taken where the top of the stack is 0, and what closes the latest one.
const BRANCHES: (&[&str], &[&str]) = (&["if", "while"], &["then", "repeat"]);

const BEGINS: (&[&str], &[&str]) = (&["begin"], &["until", "again", "repeat"]);

const LOOPS: (&[&str], &[&str]) = (&["do", "?do"], &["loop", "+loop"]);

const CASES: (&[&str], &[&str]) = (&["case"], &["endcase"]);

const ARMS: (&[&str], &[&str]) = (&["of"], &["endof"]);

/// The words of a program.
pub type Words<'a> = &'a [&'a str];

/// Whether a word is one of these.
fn is_one(word: &str, list: &[&str]) -> bool {
    list.iter().any(|other| *other == word)
}

/// The place behind the closer of what is open at a place; `also` closes it, too.
fn behind(words: Words<'_>, from: usize, pair: (&[&str], &[&str]), also: &[&str]) -> usize {
    let (openers, closers) = pair;
    let mut open = 0u32;
    for (place, word) in words.iter().enumerate() {
        if place < from {
            continue;
        }
        let closes = is_one(word, closers);
        if open == 0 && (closes || is_one(word, also)) {
            return place.saturating_add(1);
        }
        if closes {
            open = open.saturating_sub(1);
        } else if is_one(word, openers) {
            open = open.saturating_add(1);
        }
    }
    words.len()
}

/// The place behind the opener of what is open before a place.
fn start(words: Words<'_>, before: usize, pair: (&[&str], &[&str])) -> usize {
    let (openers, closers) = pair;
    let mut open = 0u32;
    for back in 0..before {
        let place = before - 1 - back;
        let word = words.get(place).copied().unwrap_or("");
        if is_one(word, closers) {
            open = open.saturating_add(1);
        } else if is_one(word, openers) {
            if open == 0 {
                return place.saturating_add(1);
            }
            open = open.saturating_sub(1);
        }
    }
    words.len()
}

/// Behind what closes the branch of an `if`, a `while` or an `else` that stands before a place: an `else`, which opens
/// one in its place, a `then` or a `repeat`.
pub fn past_branch(words: Words<'_>, from: usize) -> usize {
    behind(words, from, BRANCHES, &["else"])
}

/// Behind the `begin` that is closed at a place.
pub fn begin_of(words: Words<'_>, place: usize) -> usize {
    start(words, place, BEGINS)
}

/// Behind the `do` that is closed at a place.
pub fn do_of(words: Words<'_>, place: usize) -> usize {
    start(words, place, LOOPS)
}

/// Behind the loop that is open at a place.
pub fn past_loop(words: Words<'_>, from: usize) -> usize {
    behind(words, from, LOOPS, &[])
}

/// Behind the `endof` of the `of` that is open at a place.
pub fn past_arm(words: Words<'_>, from: usize) -> usize {
    behind(words, from, ARMS, &[])
}

/// Behind the `endcase` of the `case` that is open at a place.
pub fn past_case(words: Words<'_>, from: usize) -> usize {
    behind(words, from, CASES, &[])
}

/// Behind the definition that begins at a place.
pub fn past_definition(words: Words<'_>, from: usize) -> usize {
    behind(words, from, (&[], &[";"]), &[])
}

/// Where the words of a definition begin.
pub fn body_of(words: Words<'_>, name: &str) -> Option<usize> {
    let mut is_colon = false;
    for (place, word) in words.iter().enumerate() {
        if is_colon && *word == name {
            return Some(place.saturating_add(1));
        }
        is_colon = *word == ":";
    }
    None
}
