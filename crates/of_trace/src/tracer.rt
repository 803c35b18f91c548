//! The lines of a trace.
use crate::asks::{say_answer, say_query};
use crate::fault::TraceFault;
use crate::json::{say_comma, say_text};
use crate::places::{line_position, say_place};
use crate::space::Space;
use crate::tree::Properties;
use of_asking::{Answer, Query};
use of_devices::{Board, Device};
use of_machine::ScriptMachine;
use std::alloc::{AllocError, Global};
use std::io::{self, ErrorKind, Write};

/// What answers the questions of a run.
#[derive(Drop)]
pub(crate) enum Source<'a> {
    /// These answers, in order.
    Answers(&'a [Answer]),
    /// A board like that of the run.
    Board(Board),
}

/// A run as it was before its next step, and how its lines are written.
#[derive(Drop)]
pub(crate) struct Tracer<'a> {
    alloc: Global,
    lines: &'a [Vec<u8>],
    source: Source<'a>,
    /// How many console lines were handed in.
    read: usize,
    /// Where the next step is made.
    place: Vec<u8>,
    steps: u64,
    asked: usize,
    printed: usize,
    space: Space,
    tree: Properties,
}

/// The fault of a line that can't be made or written.
fn fault_of(error: &io::Error) -> TraceFault {
    match error.kind() {
        ErrorKind::OutOfMemory => TraceFault::NoMemory,
        _ => TraceFault::Unwritten(error.raw_os_error()),
    }
}

impl<'a> Tracer<'a> {
    /// The tracer of a run that has made no step, of these lines and with these answers.
    pub(crate) fn new(
        alloc: Global,
        lines: &'a [Vec<u8>],
        source: Source<'a>,
        machine: &ScriptMachine,
    ) -> Result<Tracer<'a>, TraceFault> {
        let Ok(space) = Space::new(alloc) else {
            return Err(TraceFault::NoMemory);
        };
        let mut tracer = Tracer {
            alloc,
            lines,
            source,
            read: 0,
            place: Vec::new(alloc),
            steps: 0,
            asked: 0,
            printed: 0,
            space,
            tree: Properties::new(alloc),
        };
        let mut unwritten = Vec::new(alloc);
        match tracer.pass(machine, &mut unwritten) {
            Ok(()) => Ok(tracer),
            Err(error) => Err(fault_of(&error)),
        }
    }

    /// The console line that was handed in last, if one was.
    fn line(&self) -> &[u8] {
        match self.read.checked_sub(1) {
            Some(number) => match self.lines.get(number) {
                Some(line) => line,
                None => &[],
            },
            None => &[],
        }
    }

    /// The answer to the question that was asked behind so many others.
    fn answer(&mut self, query: Query, number: usize) -> Option<Answer> {
        match &mut self.source {
            Source::Answers(answers) => answers.get(number).copied(),
            Source::Board(board) => Some(board.answer(query)),
        }
    }

    /// Writes what was asked since, and what was answered, where the step was made.
    fn say_asked(&mut self, machine: &ScriptMachine, line: &mut Vec<u8>) -> io::Result<()> {
        let Some(query) = machine.asked().get(self.asked).copied() else {
            return Ok(());
        };
        write!(line, ",\"asks\":")?;
        say_query(query, line)?;
        if machine.question().is_none() {
            if let Some(answer) = self.answer(query, self.asked) {
                write!(line, ",\"answer\":")?;
                say_answer(answer, line)?;
            }
        }
        Ok(())
    }

    /// Writes the data stack, the bottom first.
    fn say_stack(&self, machine: &ScriptMachine, line: &mut Vec<u8>) -> io::Result<()> {
        write!(line, ",\"stack\":[")?;
        for (place, cell) in machine.stack().iter().enumerate() {
            say_comma(place, line)?;
            write!(line, "{number}", number = cell.0)?;
        }
        write!(line, "]")
    }

    /// Writes what was printed since, if anything was.
    fn say_printed(&self, machine: &ScriptMachine, line: &mut Vec<u8>) -> io::Result<()> {
        let text = machine.console().get(self.printed..).unwrap_or(&[]);
        if text.is_empty() {
            return Ok(());
        }
        write!(line, ",\"console\":")?;
        say_text(text, line)
    }

    /// Writes what has changed in the data space and in the tree, and takes the machine as it is now for what it was
    /// before the next step.
    fn pass(&mut self, machine: &ScriptMachine, line: &mut Vec<u8>) -> io::Result<()> {
        self.space.say(machine, line)?;
        self.tree.say(machine, line)?;
        self.say_printed(machine, line)?;
        if line_position(machine) == Some(0) {
            self.read = self.read.saturating_add(1);
        }
        self.steps = machine.steps();
        self.asked = machine.asked().len();
        self.printed = machine.console().len();
        let mut place = Vec::new(self.alloc);
        say_place(machine, self.line(), &mut place)?;
        self.place = place;
        Ok(())
    }

    /// Writes the line of the step that was made since, or that asks what isn't answered; nothing where there is none.
    fn say_step(&mut self, machine: &ScriptMachine, line: &mut Vec<u8>) -> io::Result<()> {
        let is_made = machine.steps() > self.steps;
        if !is_made && machine.asked().len() == self.asked {
            return Ok(());
        }
        let number = self.steps.saturating_add(1);
        write!(line, "{{\"step\":{number},\"at\":")?;
        line.write_all(&self.place)?;
        self.say_asked(machine, line)?;
        if is_made {
            self.say_stack(machine, line)?;
            self.pass(machine, line)?;
        }
        writeln!(line, "}}")
    }

    /// Writes the line of the step that was made since to the trace.
    pub(crate) fn look<T: Write>(
        &mut self,
        machine: &ScriptMachine,
        trace: &mut T,
    ) -> Result<(), TraceFault> {
        let mut line = Vec::new(self.alloc);
        if let Err(error) = self.say_step(machine, &mut line) {
            return Err(fault_of(&error));
        }
        match trace.write_all(&line) {
            Ok(()) => Ok(()),
            Err(error) => Err(fault_of(&error)),
        }
    }
}
