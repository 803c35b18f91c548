use of_asking::Answer;
use of_devices::Board;

/// What is handed in to a run beside its image.
#[derive(Clone, Copy)]
pub struct Outside<'a> {
    /// Console lines, one after another, each as soon as nothing runs.
    pub lines: &'a [Vec<u8>],
    /// What answers the questions of the run.
    pub answerer: Answerer<'a>,
}

/// What answers the questions of a run.
#[derive(Clone, Copy)]
pub enum Answerer<'a> {
    /// These answers, in order.
    Answers(&'a [Answer]),
    /// Devices as those of this board, from which the run begins.
    Board(&'a Board),
}
