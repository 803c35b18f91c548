//! What the console's listings say of a machine's words.
ghost use Rattle.std.specs.Prelude.{◌≡◌, IfOk, length, option_copied};
ghost use Rattle.of_compile.specs.Words.{own_word};
ghost use Rattle.of_dict.specs.Words.{name_in};
ghost use Rattle.of_fcodes.specs.Finding.{word_with_xt};
ghost use Rattle.of_interpret.specs.TextActs.{names_in, seen};
ghost use Rattle.of_machine.specs.Views.{word_named, words_listed};
ghost use Rattle.of_see.specs.SeeText.{name_at};
ghost use Rattle.of_state.specs.State.{flat_calls};

use super::Machine;
use of_cells::Cell;
use of_code::CodeStore;
use of_console::words_text;
use of_dict::{Dict, OwnWord};
use of_fcodes::word_with_xt;
use of_see::see_text;
use of_text::Names;
use std::alloc::{AllocError, Global};

/// The name of the own word that has an execution token.
#[tactic(auto, using(crate::proofs::OwnNumbers::own_is, crate::proofs::OwnNumbers::own_none))]
fn own_name(dictionary: &Dict, xt: Cell) -> Option<&[u8]>
    ensures { option_copied result ≡ name_in (own_word dictionary.now xt.0) }
{
    match OwnWord::with_xt(xt) {
        Some(word) => dictionary.name_of(word),
        None => None,
    }
}

impl<C: CodeStore> Machine<C> {
    /// Where names are looked up.
    fn names(&self) -> Names<'_>
        ensures { result ≡ names_in self.now.eval }
    {
        Names {
            tree: self.eval.tree(),
            home: self.eval.active_package(),
            words: self.eval.words(),
        }
    }

    /// The execution token of the word that a name finds, if there is one. The search order is the active package,
    /// whose methods come first, then own words, the newest first, then the written words that a text has (IEEE
    /// 1275-1994, 5.3.2 and 5.3.3.1; Forth 2012, 16.3.3). The case of ASCII letters doesn't count (Forth 2012, 3.4.2).
    pub fn word(&self, name: &[u8]) -> Option<Cell>
        ensures { result ≡ word_named self.now.eval name.now }
    {
        self.names().xt(name)
    }

    /// The name of the word of an execution token, as it was spelt, if it has one: `see` prints it by that.
    pub fn name(&self, xt: Cell) -> Option<&[u8]>
        ensures { option_copied result ≡ name_at self.now.eval.words.dictionary xt.0 }
    {
        match word_with_xt(xt.0) {
            Some(word) => Some(word.name().as_bytes()),
            None => own_name(self.eval.words().dictionary(), xt),
        }
    }

    /// How many own words were made; the execution token of the k-th is that of `OwnWord(k)`.
    pub fn made(&self) -> usize
        ensures { result ≡ length self.now.eval.words.dictionary }
    {
        self.eval.words().dictionary().made()
    }

    /// What `see` prints of the word of an execution token (IEEE 1275-1994, annex A, `see`; Forth 2012, 15.6.1.2194): a
    /// colon definition as a text that compiles again, any other word as what it does and its name, on one line each.
    /// Nothing, where no word has the execution token.
    ///
    /// An error is for memory alone.
    pub fn see(&self, alloc: Global, xt: Cell) -> Result<Vec<u8>, AllocError>
        ensures { IfOk result (λ text. text.items ≡ seen flat_calls xt self.now.eval) }
    {
        let code = self.eval.coding.code();
        see_text(alloc, &self.names(), self.eval.memory(), code, xt)
    }

    /// What `words` prints (Forth 2012, 15.6.1.2465; IEEE 1275-1994, annex A, `words`): the names of the active
    /// package's methods, or without one those of own words, each with a space, the newest place first, and a newline.
    ///
    /// An error is for memory alone.
    pub fn words(&self, alloc: Global) -> Result<Vec<u8>, AllocError>
        ensures { IfOk result (λ text. text.items ≡ words_listed self.now.eval) }
    {
        let home = self.eval.active_package();
        let dictionary = self.eval.words().dictionary();
        words_text(alloc, self.eval.tree(), home, dictionary)
    }
}
