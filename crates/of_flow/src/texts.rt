//! The texts that are being read.
ghost use Rattle.std.specs.Prelude.{◌≡◌, [], ◌∷◌, drop, OnOk, OnErr};
ghost use Rattle.of_flow.specs.Texts.{latest_text};

use std::alloc::{AllocError, Global};
use std::marker::Model;

/// The bytes of a text that is being read.
#[derive(Drop)]
struct Text {
    bytes: Vec<u8>,
}

// Clauses see the bytes.
impl Model for Text {
    ghost use Rattle.std.specs.Prelude.{ℕ, List};

    ghost Value = { List ℕ };

    ghost view = { λ t. t.bytes.items };
}

/// The texts that are being read: a console line, and those that `evaluate` runs inside what is read
/// (Forth 2012, 6.1.1360).
#[derive(Drop)]
pub struct Texts {
    texts: Vec<Text>,
    alloc: Global,
}

// Clauses see the texts, the latest first.
impl Model for Texts {
    ghost use Rattle.std.specs.Prelude.{ℕ, List, reverse};

    ghost Value = { List (List ℕ) };

    ghost view = { λ t. reverse t.texts.items };
}

impl Texts {
    /// No text is read. Nothing is allocated yet.
    pub fn new(alloc: Global) -> Texts
        ensures { result ≡ [] }
    {
        Texts {
            texts: Vec::new(alloc),
            alloc,
        }
    }

    /// A text begins to be read, of which a copy is kept.
    ///
    /// An error is for memory alone. It changes nothing.
    pub fn push(&mut self, text: &[u8]) -> Result<(), AllocError>
        ensures ok { OnOk result (self.new ≡ text.now ∷ self.old) }
        ensures err { OnErr result (self.new ≡ self.old) }
    {
        let bytes = text.to_vec(self.alloc)?;
        self.texts.push(Text { bytes })?;
        Ok(())
    }

    /// The latest text is read no more, if one is read.
    pub fn pop(&mut self)
        ensures { self.new ≡ drop 1 self.old }
    {
        let _ = self.texts.pop();
    }

    /// No text is read any more.
    pub fn clear(&mut self)
        ensures { self.new ≡ [] }
    {
        self.texts.clear();
    }

    /// The bytes of the latest text; none where no text is read.
    pub fn latest(&self) -> &[u8]
        ensures { result.now ≡ latest_text self.now }
    {
        match self.texts.last() {
            Some(text) => text.bytes.as_slice(),
            None => &[],
        }
    }
}
