//! When the console bytes of a run go out.
use crate::doubles::{blank_screen, reader_of};
use crate::shared::{code_of, lend};
use crate::tables::agree;
use std::alloc::{AllocError, Global};
use std::io::{Result as Done, Write};
use std::process::Abort;
use std::test::Fail;

/// A writer that counts what goes out, and keeps how much had, each time that it is flushed.
#[derive(Drop)]
struct Pages {
    gone: usize,
    flushed: Vec<usize>,
}

impl Write for Pages {
    fn write(&mut self, buf: &[u8]) -> Done<usize> {
        self.gone = self.gone.saturating_add(buf.len());
        Ok(buf.len())
    }

    fn flush(&mut self) -> Done<()> {
        self.flushed.push(self.gone)?;
        Ok(())
    }
}

/// Does what words ask for of an image, and gives the number of the status.
fn code_on_pages(alloc: Global, words: &str, image: &str, pages: &mut Pages) -> Result<u8, Fail> {
    let mut file = reader_of(image.as_bytes(), 999);
    let mut errors = blank_screen(alloc, 99);
    code_of(alloc, words, &mut file, pages, &mut errors)
}

/// Appends numbers.
fn push_numbers(text: &mut String, numbers: &[usize]) -> Result<(), AllocError> {
    for number in numbers {
        write!(text, "{number} ")?;
    }
    Ok(())
}

/// How many bytes of an image's run had gone out at each flush, and the number of its status.
fn flushed(alloc: Global, words: &str, image: &str, pages: &mut Pages) -> Result<String, Fail> {
    let code = code_on_pages(alloc, words, image, pages)?;
    let mut text = String::new(alloc);
    push_numbers(&mut text, &pages.flushed)?;
    write!(text, "{code}")?;
    Ok(text)
}

/// Sees how many bytes of an image's run had gone out at each flush, and the number of its status.
fn flushes<R: Abort>(
    rt: &R,
    alloc: Global,
    words: &str,
    image: &str,
    wanted: &str,
) -> Result<(), Fail> {
    let blank = Pages {
        gone: 0,
        flushed: Vec::new(alloc),
    };
    let given = lend(blank, |pages| flushed(alloc, words, image, pages))?;
    agree(rt, words, given.as_str(), wanted);
    Ok(())
}

/// A loop of three steps, of which the second prints a byte: what was printed goes out each million steps.
#[test]
fn a_loop_prints_as_it_goes(rt: HostRuntime) -> Result<(), Fail> {
    let words = "run loop.hex --limit 2500000";
    let image = "f10800000000000010000000418f13fff9";
    flushes(&rt, rt.alloc(), words, image, "0 333333 666667 833333 3")
}

/// What an image prints that ends goes out at its end.
#[test]
fn an_image_prints_at_its_end(rt: HostRuntime) -> Result<(), Fail> {
    let image = "f108020a0000000da7a81e9d00";
    flushes(&rt, rt.alloc(), "run five.hex", image, "0 2 0")
}
