//! Readers and writers that fail where a test wants it, and what is handed in to a run.
use of_arguments::Listings;
use of_runs::{Answerer, Outside};
use std::alloc::Global;
use std::io::{Error, ErrorKind, Read, Result, Write};

/// A reader that gives up to seven bytes a read, and fails at a read, counted from 0.
#[derive(Drop)]
pub(crate) struct Paper<'a> {
    pub(crate) text: &'a [u8],
    pub(crate) reads: u32,
    pub(crate) fails_at: u32,
}

impl Read for Paper<'_> {
    fn read(&mut self, buf: &mut [u8]) -> Result<usize> {
        if self.reads == self.fails_at {
            return Err(Error::from(ErrorKind::Other));
        }
        self.reads = self.reads.saturating_add(1);
        let count = self.text.len().min(buf.len()).min(7);
        buf[..count].copy_from_slice(&self.text[..count]);
        self.text = &self.text[count..];
        Ok(count)
    }
}

/// What is handed in to a run without console lines.
pub(crate) fn without_lines<'a>(answerer: Answerer<'a>) -> Outside<'a> {
    Outside {
        lines: &[],
        answerer,
    }
}

/// Nothing is listed behind a run.
pub(crate) fn no_listings<'a>() -> Listings<'a> {
    Listings {
        tree: false,
        words: false,
        see: None,
        state: false,
    }
}

/// A reader of a text.
pub(crate) fn reader_of(text: &[u8], fails_at: u32) -> Paper<'_> {
    Paper {
        text,
        reads: 0,
        fails_at,
    }
}

/// A reader that gives the same byte for ever, one a read.
#[derive(Drop)]
pub(crate) struct Endless {
    pub(crate) byte: u8,
    pub(crate) reads: u32,
}

impl Read for Endless {
    fn read(&mut self, buf: &mut [u8]) -> Result<usize> {
        if buf.is_empty() {
            return Ok(0);
        }
        buf[0] = self.byte;
        self.reads = self.reads.saturating_add(1);
        Ok(1)
    }
}

/// A writer that takes a byte a write, and fails at a write, counted from 0.
#[derive(Drop)]
pub(crate) struct Screen {
    pub(crate) text: Vec<u8>,
    pub(crate) writes: u32,
    pub(crate) fails_at: u32,
}

impl Write for Screen {
    fn write(&mut self, buf: &[u8]) -> Result<usize> {
        if self.writes == self.fails_at {
            return Err(Error::from(ErrorKind::Other));
        }
        self.writes = self.writes.saturating_add(1);
        if buf.is_empty() {
            return Ok(0);
        }
        self.text.push(buf[0])?;
        Ok(1)
    }

    fn flush(&mut self) -> Result<()> {
        Ok(())
    }
}

/// A writer on which nothing was written yet.
pub(crate) fn blank_screen(alloc: Global, fails_at: u32) -> Screen {
    Screen {
        text: Vec::new(alloc),
        writes: 0,
        fails_at,
    }
}
