//! Calls on one board, one a line, and what is active behind each.

use crate::instances::Call;
use crate::rows::Rows;
use crate::running::{Trial, left, number};
use of_board::{Board, DeviceFault};
use of_cells::Cell;
use of_ihandles::{InstanceFault, Template};
use of_nodes::Phandle;
use of_stacks::Stop;
use std::alloc::{AllocError, Global};
use std::test::Fail;

/// What a call answers.
#[derive(Clone, Copy)]
enum Answer {
    Done,
    Nothing,
    Truth(bool),
    Number(usize),
}

impl Answer {
    /// A handle or an address.
    fn of_cell(cell: Cell) -> Answer {
        Answer::Number(cell.0 as usize)
    }

    /// As text.
    fn shown(self, alloc: Global) -> Result<String, AllocError> {
        match self {
            Answer::Done => String::from_str(alloc, "done"),
            Answer::Nothing => String::from_str(alloc, "-"),
            Answer::Truth(truth) => format!(in alloc; "{truth}"),
            Answer::Number(number) => format!(in alloc; "{number:x}"),
        }
    }
}

/// A package by the bits of its phandle, none where they are 0.
fn package(bits: u32) -> Option<Phandle> {
    match bits {
        0 => None,
        bits => Some(Phandle(Cell(bits))),
    }
}

/// What a call on the instances answers: `open` has a package, `slot` a package and how many zeros, `take` takes the
/// least block.
fn on_instances(board: &mut Board, call: &Call<'_>) -> Result<Answer, InstanceFault> {
    let Board {
        instances,
        memory,
        ..
    } = board;
    match call.call {
        "open" => {
            let ihandle = instances.open(memory, call.package(), Cell::ZERO, b"")?;
            Ok(Answer::of_cell(ihandle))
        }
        "slot" => {
            let zeros = Template::Zeros(Cell(number(call.second)));
            let slot = instances.slot(memory, call.package(), zeros)?;
            Ok(Answer::Number(slot))
        }
        "take" => match memory.instance_take(Cell::ZERO) {
            Ok(address) => Ok(Answer::of_cell(address)),
            Err(_) => Ok(Answer::Nothing),
        },
        _ => Ok(Answer::Nothing),
    }
}

/// What a call on the tree answers: `add_node` and `child` have a node, `add_open` a node and the xt of its method
/// `open`.
fn on_tree(board: &mut Board, call: &Call<'_>) -> Result<Answer, DeviceFault> {
    let node = call.package();
    match call.call {
        "add_node" => Ok(Answer::of_cell(board.tree.add_node(node)?.0)),
        "child" => match board.tree.child(node)? {
            Some(child) => Ok(Answer::of_cell(child.0)),
            None => Ok(Answer::Nothing),
        },
        "add_open" => {
            board
                .tree
                .add_method(node, b"open", Cell(number(call.second)))?;
            Ok(Answer::Done)
        }
        _ => match on_instances(board, call) {
            Ok(answer) => Ok(answer),
            Err(fault) => Err(DeviceFault::Instance(fault)),
        },
    }
}

/// What a call answers: `open_device` has a package, `leave_image` a count, a package and an ihandle, `activate` the
/// package and the instance that are active then.
fn on_board(board: &mut Board, call: &Call<'_>) -> Result<Answer, DeviceFault> {
    match call.call {
        "open_device" => board.open_device(call.package())?,
        "finish_device" => return Ok(Answer::Truth(board.finish_device())),
        "finish_all" => board.finish_all(),
        "leave_image" => {
            let before = package(number(call.second));
            board.leave_image(
                number(call.first) as usize,
                before,
                Cell(number(call.third)),
            );
        }
        "activate" => {
            board.active.package = package(number(call.first));
            board.active.my_self = Cell(number(call.second));
        }
        _ => return on_tree(board, call),
    }
    Ok(Answer::Done)
}

/// Runs words in turn so many times, until they throw.
fn repeat(trial: &mut Trial, times: u32, words: &str) -> Result<(), Stop> {
    for _ in 0..times {
        trial.run_all(words)?;
    }
    Ok(())
}

/// Runs the words of a line: those behind `run`, or behind `repeat` and how many times.
fn run(trial: &mut Trial, line: &str) -> Option<Result<(), Stop>> {
    if let Some(words) = line.strip_prefix("run ") {
        return Some(trial.run_all(words));
    }
    let (times, words) = line.strip_prefix("repeat ")?.split_once(' ')?;
    Some(repeat(trial, number(times), words))
}

/// What a line's call answers, or what its words leave.
fn answered(alloc: Global, trial: &mut Trial, line: &str) -> Result<String, AllocError> {
    if let Some(ended) = run(trial, line) {
        return left(alloc, &trial.board, ended);
    }
    match on_board(&mut trial.board, &Call::read(line)) {
        Ok(answer) => answer.shown(alloc),
        Err(fault) => format!(in alloc; "{fault}"),
    }
}

/// Which of the first five instances are live, by their numbers.
fn live(alloc: Global, board: &Board) -> Result<String, AllocError> {
    let mut text = String::new(alloc);
    for number in 0..5u32 {
        let ihandle = Cell(number.wrapping_mul(4).wrapping_add(0xe000_0000));
        if board.instances.package(ihandle).is_ok() {
            write!(text, " {number}")?;
        }
    }
    Ok(text)
}

/// The active package and the current instance, each 0 where there is none, how many `new-device`s are open of how
/// many that ever were, and the live instances.
fn active(alloc: Global, board: &Board) -> Result<String, AllocError> {
    let package = match board.active.package {
        Some(Phandle(Cell(bits))) => bits,
        None => 0,
    };
    let my_self = board.active.my_self.0;
    let open = board.active.new_devices.len();
    let ever = board.active.new_devices.ever();
    let live = live(alloc, board)?;
    format!(in alloc; "{package:x} {my_self:x} {open}/{ever}{live}")
}

/// Lines in turn on one board. A line has a call, and behind `=` what it answers on the board that the lines before it
/// have made of the first board, and what is active then.
impl Rows for Trial {
    fn new(alloc: Global) -> Result<Trial, Fail> {
        Trial::begun(alloc)
    }

    fn halves(line: &str) -> (&str, &str) {
        line.split_once(" =").unwrap_or(("", "none"))
    }

    fn given(&mut self, alloc: Global, call: &str) -> Result<String, Fail> {
        let answer = answered(alloc, self, call)?;
        let active = active(alloc, &self.board)?;
        Ok(format!(in alloc; "{} | {active}", answer.trim_end())?)
    }
}
