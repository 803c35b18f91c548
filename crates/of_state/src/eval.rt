use of_asking::Answer;
use of_board::Board;
use of_code::CodeStore;
use of_compile::{Coding, Words};
use of_flow::Flow;
use std::marker::Model;

/// The state of the machine, over a store of code.
#[derive(Drop)]
pub struct Eval<C: CodeStore> {
    /// What words work on: data stack, data space, pictured text, console, device tree, instances.
    pub board: Board,
    /// Where control is: return stack, what is read, what comes next.
    pub flow: Flow,
    /// Dictionary, token table, pending number, open definition.
    pub words: Words,
    /// The code of definitions, and what is open in the open one.
    pub coding: Coding<C>,
    /// The answer at hand, while a step is made that has asked.
    pub reply: Option<Answer>,
}

// Clauses see a state whose code is cells.
impl<C: CodeStore> Model for Eval<C> {
    ghost use Rattle.std.specs.Prelude.{◌≡◌, true};
    ghost use Rattle.of_compile.specs.Coding.{Coding};
    ghost use Rattle.of_state.specs.State.{State};

    ghost Value = { State Coding };

    ghost view = { λ e. record {
      board = e.board;
      flow = e.flow;
      words = e.words;
      code = e.coding.coding;
      reply = e.reply;
    } };

    // what runs has room for the text of a throw
    ghost invariant = { λ e. e.flow.is_running ≡ true → e.board.console.ready ≡ true };
}
