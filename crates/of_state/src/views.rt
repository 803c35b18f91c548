ghost use Rattle.std.specs.Prelude.{◌≡◌, length, reverse};
ghost use Rattle.of_state.specs.Views.{items_of_word, next_item, next_token, next_word};

use crate::eval::Eval;
use of_cells::Cell;
use of_code::{CodeStore, ItemPlace, Place, item_count, item_place};
use of_compile::Words;
use of_fcodes::FCode;
use of_ihandles::Instances;
use of_memory::Memory;
use of_nodes::{Phandle, Tree};
use of_stacks::{Continuation, Input};
use of_stream::Stream;

impl<C: CodeStore> Eval<C> {
    /// The cells of the data stack, the bottom first.
    pub fn stack(&self) -> &[Cell]
        ensures { reverse result.now ≡ self.now.board.stack }
    {
        self.board.stack.cells()
    }

    /// How many items the return stack has.
    pub fn depth(&self) -> usize
        ensures { result ≡ length self.now.flow.items }
    {
        self.flow.items.depth()
    }

    /// The data space.
    pub fn memory(&self) -> &Memory
        ensures { result.now ≡ self.now.board.memory }
    {
        &self.board.memory
    }

    /// The device tree.
    pub fn tree(&self) -> &Tree
        ensures { result.now ≡ self.now.board.tree }
    {
        &self.board.tree
    }

    /// The instances.
    pub fn instances(&self) -> &Instances
        ensures { result.now ≡ self.now.board.instances }
    {
        &self.board.instances
    }

    /// The active package, if there is one.
    pub fn active_package(&self) -> Option<Phandle>
        ensures { result ≡ self.now.board.active.«package» }
    {
        self.board.active.package
    }

    /// All bytes printed so far.
    pub fn console(&self) -> &[u8]
        ensures { result.now ≡ self.now.board.console.text }
    {
        self.board.console.bytes()
    }

    /// Whether something runs.
    pub fn is_running(&self) -> bool
        ensures { result ≡ self.now.flow.is_running }
    {
        self.flow.is_running
    }

    /// The words that images define.
    pub fn words(&self) -> &Words
        ensures { result.now ≡ self.now.words }
    {
        &self.words
    }

    /// The token that comes next, behind its position in the image that is read. None where nothing runs, where a
    /// definition goes on, and where the image ends before the token does.
    pub fn next_token(&self) -> Option<(usize, FCode)>
        ensures { result ≡ next_token self.now }
    {
        if !self.flow.is_running {
            return None;
        }
        let (Continuation::Source, Input::Image { size, position }) = (
            self.flow.next,
            self.flow.reading.input,
        ) else {
            return None;
        };
        let image = self.board.memory.latest_image();
        match (Stream { image }).token_at(position, size) {
            Ok((token, _)) => Some((position, token.code)),
            Err(_) => None,
        }
    }

    /// The position in the text that is read at which its next word is looked for. None where nothing runs, where a
    /// definition goes on, and where no text is read.
    pub fn next_word(&self) -> Option<usize>
        ensures { result ≡ next_word self.now }
    {
        match (
            self.flow.is_running,
            self.flow.next,
            self.flow.reading.input,
        ) {
            (true, Continuation::Source, Input::Text { position }) => Some(position),
            _ => None,
        }
    }

    /// The item of a definition that comes next, by its word and number. None where nothing runs, where a token of an
    /// image comes next, and where no item of a finished definition begins.
    pub fn place(&self) -> Option<ItemPlace>
        ensures { result ≡ next_item self.now }
    {
        if !self.flow.is_running {
            return None;
        }
        match self.flow.next {
            Continuation::Source => None,
            Continuation::Code(cell) => item_place(self.coding.code(), Place { cell }),
        }
    }

    /// How many items the colon definition of an execution token has, its return counted. None for what is no colon
    /// definition, and for one that isn't finished.
    pub fn items(&self, xt: Cell) -> Option<usize>
        ensures { result ≡ items_of_word self.now xt }
    {
        item_count(self.coding.code(), xt)
    }
}
