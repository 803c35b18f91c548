//! What a run is given: an image, the console lines behind it, and answers.
use crate::program::Program;
use of_asking::Answer;
use of_machine::{End, ScriptMachine, run_script};
use of_random::{Numbers, random_image};
use of_refusal::Refusal;
use std::alloc::{AllocError, Global};

/// What a run is given.
#[derive(Drop)]
pub struct Given {
    /// The image.
    pub image: Vec<u8>,
    /// The console lines.
    pub lines: Vec<Vec<u8>>,
    /// The answers to its questions.
    pub answers: Vec<Answer>,
}

/// A machine on which something ran, and how that ended, or why nothing ran.
pub type Run = Result<(ScriptMachine, End), Refusal>;

/// Console lines.
const LINES: [&str; 24] = [
    "1 2 + .",
    ": sq dup * ; 5 sq .",
    ": t 3 0 do i . loop ; t",
    "words",
    "show-devs",
    "dev /slot .properties",
    "dev / ls pwd",
    "device-end",
    "see sq see word-1",
    ": u ['] sq catch . ; 7 u . 1 u",
    "word-1 word-2",
    "' word-1 catch .",
    "5 throw",
    "nonsense 3",
    "100000 20 + c@ .",
    "key . key? .",
    "80000000 rb@ . 80000004 rl@ .",
    "get-msecs . 5 ms",
    ": begun 1 if 2 .",
    "else 3 . then ; begun",
    "7 value seven seven . 8 to seven seven .",
    "\" 1 2 + . \" evaluate",
    ".s 2drop",
    "",
];

/// How many answers are at hand.
const ANSWERS: usize = 8;

/// An answer, mostly one that fits many questions.
pub fn random_answer(numbers: &mut Numbers) -> Answer {
    match numbers.below(8) {
        0..=2 => Answer::Value(numbers.word() & 1),
        3 => Answer::Value(u32::from(numbers.byte())),
        4 => Answer::Value(numbers.word()),
        5 | 6 => Answer::Done,
        _ => Answer::BusFault,
    }
}

/// Up to three console lines.
fn random_lines(alloc: Global, numbers: &mut Numbers) -> Result<Vec<Vec<u8>>, AllocError> {
    let mut lines = Vec::new(alloc);
    for _ in 0..numbers.below(4) {
        let line = numbers.one_of(&LINES, "");
        lines.push(line.as_bytes().to_vec(alloc)?)?;
    }
    Ok(lines)
}

/// What a random run is given: any image, or now and then that of the program's source.
pub fn random_given(
    alloc: Global,
    numbers: &mut Numbers,
    program: &Program,
) -> Result<Given, AllocError> {
    let image = match &program.image {
        Some(image) if numbers.one_in(4) => image.as_slice().to_vec(alloc)?,
        _ => random_image(alloc, numbers)?,
    };
    let lines = random_lines(alloc, numbers)?;
    let mut answers = Vec::new(alloc);
    for _ in 0..ANSWERS {
        answers.push(random_answer(numbers))?;
    }
    Ok(Given {
        image,
        lines,
        answers,
    })
}

impl Given {
    /// The run of so many steps at most.
    pub fn run(&self, alloc: Global, limit: u64) -> Run {
        run_script(alloc, &self.image, &self.lines, &self.answers, &[], limit)
    }
}
