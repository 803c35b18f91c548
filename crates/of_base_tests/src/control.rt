//! Calls of `Control` with the answers that the rules give, worked out by hand.
use crate::rows::{Rows, check, natural, word};
use of_control::{
    Control, calls_follow_matching, closed_is_read, compiled_is_flat, items_are_counted,
    items_are_flat, jumps_stay_inside, matching_is_decided, one_reading, places_stay_within,
};
use std::alloc::Global;

/// Calls in turn, a line each: the call, its two numbers, and the answer, which of `closed` is 1
/// where all is closed.
const CALLS: &str = "\
forward 0 10 none
forward 4 14 none
resolve 10 none 0
resolve 14 none 4
closed 0 none 1
forward 0 9 none
forward 4 9 none
resolve 9 none 4
resolve 9 none 0
closed 0 none 1
forward 0 9 none
forward 4 8 none
resolve 8 none 4
resolve 8 none 0
closed 0 none 1
forward 0 9 none
forward 4 10 none
resolve 8 none 0
resolve 8 none none
closed 0 none none
reset 0 none none
forward 0 none none
forward 3 none none
roll 1 none none
then 0 none 0
then 0 none 3
closed 0 none 1
mark 0 7 none
forward 2 20 none
back 8 none 0
resolve 20 none 2
mark 5 none none
again 0 none 5
closed 0 none 1
mark 6 none none
do 7 none none
again 0 none none
loop 0 none none
reset 0 none none
do 1 none none
case 2 none none
of 3 none none
leave 0 none none
endof 0 none 3
endcase 0 none 2
loop 0 none 1
closed 0 none 1
leave 0 none none
closed 0 none none
reset 0 none none
of 0 none none
closed 0 none none
reset 0 none none
misfit 0 none none
closed 0 none none
";

/// The same where the branches 0 to 31 are open already, one of which is closed by a roll; then
/// there is room for one structure more.
const LIMIT: &str = "\
roll 31 none none
then 0 none 0
case 40 none none
endcase 0 none 40
case 40 none none
do 41 none none
loop 0 none none
";

/// Opens a structure, or makes another call that answers nothing.
fn open(control: &mut Control<32>, call: &str, x: usize, y: Option<usize>) {
    match call {
        "forward" => control.forward(x, y),
        "mark" => control.mark(x, y),
        "do" => control.open_do(x),
        "case" => control.open_case(x),
        "of" => control.of(x),
        "leave" => control.leave(),
        "roll" => control.roll(x),
        "misfit" => control.misfit(),
        _ => control.reset(),
    }
}

/// What a call answers.
fn called(control: &mut Control<32>, call: &str, x: usize, y: Option<usize>) -> Option<usize> {
    match call {
        "resolve" => control.resolve(x),
        "then" => control.resolve_latest(),
        "back" => control.backward(x),
        "again" => control.backward_latest(),
        "loop" => control.close_do(),
        "endof" => control.endof(),
        "endcase" => control.close_case(),
        "closed" => control.is_closed().then_some(1),
        _ => {
            open(control, call, x, y);
            None
        }
    }
}

/// The number of a word, or none.
fn number(word: &str) -> Option<Option<usize>> {
    if word == "none" || word == "" {
        return Some(None);
    }
    Some(Some(natural(word)? as usize))
}

impl Rows for Control<32> {
    fn holds(&mut self, _alloc: Global, line: &str) -> Option<bool> {
        let x = number(word(line, 1))?.unwrap_or(0);
        let y = number(word(line, 2))?;
        Some(called(self, word(line, 0), x, y) == number(word(line, 3))?)
    }
}

/// Branches with targets, as an image resolves them, and rolled, as text does; marks; loops and
/// cases; and what fits nowhere.
#[test]
fn calls(rt: HostRuntime) {
    check(&rt, rt.alloc(), &mut Control::new(), CALLS);
}

/// 32 structures may be open at once, 33 not.
#[test]
fn limit(rt: HostRuntime) {
    let mut control = Control::new();
    for at in 0..32 {
        control.forward(at, None);
    }
    check(&rt, rt.alloc(), &mut control, LIMIT);
}

/// The laws hold of any plain items and limit.
#[test]
fn laws() {
    calls_follow_matching::<u8, 32>();
    closed_is_read::<u8, 32>();
    items_are_flat::<u8, 32>();
    compiled_is_flat::<u8, 32>();
    items_are_counted::<u8, 32>();
    jumps_stay_inside::<u8, 32>();
    matching_is_decided::<u8, 32>();
    one_reading::<u8, 32>();
    places_stay_within::<u8, 32>();
}
