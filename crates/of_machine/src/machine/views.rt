ghost use Rattle.std.specs.Prelude.{◌≡◌, length, map, reverse};
ghost use Rattle.of_state.specs.Views.{item_behind, items_of_word, next_item, next_token, next_word};
ghost use Rattle.of_machine.specs.States.{is_running, reply_shown};
ghost use Rattle.of_machine.specs.Views.{byte_of, xt_numbered};

use super::Machine;
use of_asking::Query;
use of_cells::Cell;
use of_client::ClientReply;
use of_code::{CodeStore, ItemPlace, Place, item_place};
use of_fcodes::FCode;
use of_memory::Memory;
use of_nodes::Tree;
use of_stacks::{Continuation, Reading, ReturnItem};

impl<C: CodeStore> Machine<C> {
    /// The cells of the data stack, the bottom first.
    pub fn stack(&self) -> &[Cell]
        ensures { reverse result.now ≡ self.now.eval.board.stack }
    {
        self.eval.stack()
    }

    /// The byte at an address of the data space, if it can be read.
    pub fn byte(&self, addr: Cell) -> Option<u8>
        ensures { result ≡ byte_of self.now.eval.board.memory addr.0 }
    {
        match self.eval.memory().read8(addr) {
            Ok(byte) => Some(byte),
            Err(_) => None,
        }
    }

    /// The data space.
    pub fn memory(&self) -> &Memory
        ensures { result.now ≡ self.now.eval.board.memory }
    {
        self.eval.memory()
    }

    /// What clients were answered, the first first.
    pub fn replies(&self) -> &[ClientReply]
        ensures { map reply_shown result.now ≡ self.now.replies }
    {
        &self.replies
    }

    /// What was asked, the first first.
    pub fn asked(&self) -> &[Query]
        ensures { result.now ≡ self.now.asked }
    {
        &self.asked
    }

    /// The question that is open, if one is: the last that was asked.
    pub fn question(&self) -> Option<Query>
        ensures { result ≡ self.now.waiting }
    {
        self.waiting
    }

    /// The device tree (IEEE 1275-1994, 3.2.1).
    pub fn tree(&self) -> &Tree
        ensures { result.now ≡ self.now.eval.board.tree }
    {
        self.eval.tree()
    }

    /// All bytes printed so far.
    pub fn console(&self) -> &[u8]
        ensures { result.now ≡ self.now.eval.board.console.text }
    {
        self.eval.console()
    }

    /// How many steps were made.
    pub fn steps(&self) -> u64
        ensures { result ≡ self.now.steps }
    {
        self.steps
    }

    /// Whether something runs.
    pub fn is_running(&self) -> bool
        ensures { result ≡ is_running self.now }
    {
        self.eval.is_running()
    }

    /// The execution token that an FCode names, if it is assigned.
    pub fn token(&self, code: FCode) -> Option<Cell>
        ensures { result ≡ xt_numbered self.now.eval.words code.0 }
    {
        match self.eval.words().table().get(code) {
            Some(entry) => Some(Cell(entry.xt)),
            None => None,
        }
    }

    /// How many items the return stack has.
    pub fn depth(&self) -> usize
        ensures { result ≡ length self.now.eval.flow.items }
    {
        self.eval.depth()
    }

    /// The items of the return stack, the bottom first (Forth 2012, 3.2.3.3).
    pub fn returns(&self) -> &[ReturnItem]
        ensures { reverse result.now ≡ self.now.eval.flow.items }
    {
        self.eval.flow.items.items()
    }

    /// What is being read, and how far: the image or text whose tokens or words run, or that goes on behind the
    /// definition which runs.
    pub fn reading(&self) -> Reading
        ensures { result ≡ self.now.eval.flow.reading }
    {
        self.eval.flow.reading
    }

    /// The item of a finished definition at which control goes on, by its word and number, where it goes on in one.
    pub fn resumed(&self, next: Continuation) -> Option<ItemPlace>
        ensures { result ≡ item_behind next self.now.eval.code }
    {
        match next {
            Continuation::Source => None,
            Continuation::Code(cell) => item_place(self.eval.coding.code(), Place { cell }),
        }
    }

    /// The token that comes next, behind its position in the image that is read. None where nothing runs, where a
    /// definition goes on, and where the image ends before the token does.
    pub fn next_token(&self) -> Option<(usize, FCode)>
        ensures { result ≡ next_token self.now.eval }
    {
        self.eval.next_token()
    }

    /// The position in the text that is read at which its next word is looked for. None where nothing runs, where a
    /// definition goes on, and where no text is read.
    pub fn next_word(&self) -> Option<usize>
        ensures { result ≡ next_word self.now.eval }
    {
        self.eval.next_word()
    }

    /// The item of a definition that comes next, by its word and number. None where nothing runs, where a token of an
    /// image comes next, and where no item of a finished definition begins.
    pub fn place(&self) -> Option<ItemPlace>
        ensures { result ≡ next_item self.now.eval }
    {
        self.eval.place()
    }

    /// How many items the colon definition of an execution token has, its return counted. None for what is no colon
    /// definition, and for one that isn't finished.
    pub fn items(&self, xt: Cell) -> Option<usize>
        ensures { result ≡ items_of_word self.now.eval xt }
    {
        self.eval.items(xt)
    }
}
