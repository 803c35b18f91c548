//! The output on which the program says what is wrong.
ghost use Rattle.std.specs.Prelude.{◌≡◌, false};
ghost use Rattle.of_files.specs.Messages.{Says};

use crate::output::write_whole;
use std::io::{Error, ErrorKind, Result, Write};

/// An output for messages, to which nothing goes any more once a write has failed.
#[derive(Drop)]
pub struct Messages<W> {
    out: W,
    failed: bool,
}

impl<W: Write> Messages<W> {
    /// An output for messages to which nothing was written yet.
    pub fn new(out: W) -> Messages<W>
        ensures out { result.out ≡ out }
        ensures failed { result.failed ≡ false }
    {
        Messages { out, failed: false }
    }

    /// Says a line, in as many writes as it takes, unless a write fails or one has failed before.
    #[tactic(auto, using(crate::proofs::Written::none_said))]
    pub(crate) fn say(&mut self, line: &[u8])
        ensures { Says (W.contents self.old.out) (W.contents self.new.out) self.new.failed line.now }
    {
        if self.failed {
            return;
        }
        match write_whole(&mut self.out, line) {
            Ok(()) => {}
            Err(_) => self.failed = true,
        }
    }
}

impl<W: Write> Write for Messages<W> {
    ghost contents = { λ m. W.contents m.out };

    fn write(&mut self, buf: &[u8]) -> Result<usize> {
        if self.failed {
            return Err(Error::from(ErrorKind::Other));
        }
        let written = self.out.write(buf);
        self.failed = written.is_err();
        written
    }

    fn flush(&mut self) -> Result<()> {
        self.out.flush()
    }
}
