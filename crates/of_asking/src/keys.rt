ghost use Rattle.std.specs.Prelude.{◌≡◌};
ghost use Rattle.of_asking.specs.Keys.{keys_entry, milliseconds_entry, one_more, wait_entry};
ghost use Rattle.of_asking.specs.Questions.{Tells};

use crate::answers::{ask, drop_done, push_ready, push_value};
use crate::halt::Halt;
use crate::query::{Answer, Query};
use of_board::Board;
use of_fcodes::KeysWord;

/// `key?` ( -- f ) whether there is a key; -3 where there is no room for the flag.
fn key_ready(reply: Option<Answer>, board: &mut Board) -> Result<(), Halt>
    ensures value { Tells (one_more Query.KeyReady reply board.old) board.old board.new result }
    ensures console { board.new.console ≡ board.old.console }
{
    board.stack.room_for(1)?;
    push_ready(ask(reply, Query::KeyReady)?, &mut board.stack)?;
    Ok(())
}

/// `key` ( -- char ) the next key; -3 where there is no room for it.
fn key(reply: Option<Answer>, board: &mut Board) -> Result<(), Halt>
    ensures value { Tells (one_more Query.Key reply board.old) board.old board.new result }
    ensures console { board.new.console ≡ board.old.console }
{
    board.stack.room_for(1)?;
    push_value(ask(reply, Query::Key)?, &mut board.stack)?;
    Ok(())
}

/// `get-msecs` ( -- x ) the time in milliseconds; -3 where there is no room for it.
pub(crate) fn milliseconds(reply: Option<Answer>, board: &mut Board) -> Result<(), Halt>
    ensures value { Tells (milliseconds_entry reply board.old) board.old board.new result }
    ensures console { board.new.console ≡ board.old.console }
{
    board.stack.room_for(1)?;
    push_value(ask(reply, Query::Milliseconds)?, &mut board.stack)?;
    Ok(())
}

/// `ms` ( n -- ) waits so many milliseconds.
pub(crate) fn wait(reply: Option<Answer>, board: &mut Board) -> Result<(), Halt>
    ensures value { Tells (wait_entry board.old.stack reply board.old) board.old board.new result }
    ensures console { board.new.console ≡ board.old.console }
{
    let n = board.stack.peek()?;
    drop_done(ask(reply, Query::Wait(n))?, 1, &mut board.stack)?;
    Ok(())
}

/// Runs `key?` ( -- f ) or `key` ( -- char ) with the answer at hand, or asks; a halt changes nothing
/// (IEEE 1275-1994, annex A).
///
/// -3 where the stack has no room, which comes before the question. An answer that doesn't fit (`is_fitting`) is taken
/// as it is, or throws -258.
#[tactic(auto, unfolding(crate::specs::Keys::keys_entry))]
#[inline(never)]
pub fn run_keys_word(word: KeysWord, reply: Option<Answer>, board: &mut Board) -> Result<(), Halt>
    ensures value { Tells (keys_entry word reply board.old) board.old board.new result }
    ensures console { board.new.console ≡ board.old.console }
{
    match word {
        KeysWord::KeyReady => key_ready(reply, board),
        KeysWord::Key => key(reply, board),
    }
}
