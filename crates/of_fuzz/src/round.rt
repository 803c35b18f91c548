//! A round: random inputs of a seed, and each comparison of them.
use crate::fault::{Fault, View};
use crate::given::{Given, random_given};
use crate::program::{Program, random_program};
use crate::tally::{Tally, add};
use crate::{debugged, halves, lists, sources, stores};
use arrayvec::ArrayVec;
use of_random::Numbers;
use std::alloc::{AllocError, Global};
use std::fmt;

/// What is compared.
#[derive(Clone, Copy, Default)]
pub enum Comparison {
    /// Machines over both stores of code.
    #[default]
    Images,
    /// Listings and what they read back as.
    Lists,
    /// Images of sources and console lines.
    Sources,
    /// A debugger and runs of as many steps.
    Debugger,
    /// Runs that are divided and runs in whole.
    Halves,
}

/// How many comparisons there are.
const COMPARISONS: usize = 5;

impl Comparison {
    /// What it is called.
    fn name(self) -> &'static str {
        match self {
            Comparison::Images => "images",
            Comparison::Lists => "lists",
            Comparison::Sources => "sources",
            Comparison::Debugger => "debugger",
            Comparison::Halves => "halves",
        }
    }
}

/// A difference that a comparison found.
#[derive(Clone, Copy, Default)]
pub struct Difference {
    comparison: Comparison,
    view: View,
}

impl fmt::Display for Difference {
    fn fmt<W: fmt::Write>(&self, f: &mut fmt::Formatter<W>) -> fmt::Result {
        write!(f, "{}: {} differ", self.comparison.name(), self.view)
    }
}

/// The differences that a round found.
#[derive(Drop)]
pub struct Differences {
    /// They, in the order of the comparisons.
    pub found: ArrayVec<Difference, COMPARISONS>,
}

impl Differences {
    /// What a comparison answers; or its difference is noted.
    fn note<T>(
        &mut self,
        comparison: Comparison,
        answer: Result<T, Fault>,
    ) -> Result<Option<T>, AllocError> {
        match answer {
            Ok(answer) => Ok(Some(answer)),
            Err(Fault::NoMemory) => Err(AllocError),
            Err(Fault::Differs(view)) => {
                let _ = self.found.try_push(Difference { comparison, view });
                Ok(None)
            }
        }
    }
}

/// The random inputs of a round, and the numbers that come behind those of which they are made.
#[derive(Drop)]
pub struct Inputs {
    /// A program.
    pub program: Program,
    /// What a run is given.
    pub given: Given,
    numbers: Numbers,
}

/// The inputs of the round of a seed.
pub fn inputs_of(alloc: Global, seed: u64) -> Result<Inputs, AllocError> {
    let mut numbers = Numbers::new(seed);
    let program = random_program(alloc, &mut numbers)?;
    let given = random_given(alloc, &mut numbers, &program)?;
    Ok(Inputs {
        program,
        given,
        numbers,
    })
}

/// Makes the round of a seed, counts what it compares, and answers which differences it finds.
pub fn round(alloc: Global, seed: u64, tally: &mut Tally) -> Result<Differences, AllocError> {
    let Inputs {
        program,
        given,
        mut numbers,
    } = inputs_of(alloc, seed)?;
    let mut differences = Differences {
        found: ArrayVec::new(),
    };
    add(&mut tally.rounds, 1);
    add(&mut tally.bytes, given.image.len() as u64);
    let stores = stores::compare(alloc, &given, &mut numbers);
    if let Some(ending) = differences.note(Comparison::Images, stores)? {
        tally.stores.count(ending);
    }
    let lists = lists::compare(alloc, &given.image);
    if let Some(true) = differences.note(Comparison::Lists, lists)? {
        add(&mut tally.listed, 1);
    }
    let sources = sources::compare(alloc, &program);
    if let Some(Some(ending)) = differences.note(Comparison::Sources, sources)? {
        add(&mut tally.sources, 1);
        tally.runs.count(ending);
    }
    let debugged = debugged::compare(alloc, &given, &mut numbers);
    if let Some(debugged) = differences.note(Comparison::Debugger, debugged)? {
        add(&mut tally.states, debugged.states);
        add(&mut tally.steps, debugged.steps);
    }
    let halves = halves::compare(alloc, &given, &mut numbers);
    if let Some(ending) = differences.note(Comparison::Halves, halves)? {
        tally.halves.count(ending);
    }
    if !differences.found.is_empty() {
        add(&mut tally.differing, 1);
    }
    Ok(differences)
}
