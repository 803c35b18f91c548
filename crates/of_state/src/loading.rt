//! The evaluator as it is made, and images that begin to run on it.
ghost use Rattle.std.specs.Prelude.{◌≡◌, ◌⊎◌, [], Some, None, Ok, true, false, is_ok, length, IfOk, IfErr, OnOk, OnErr};
ghost use Rattle.of_memory.specs.Growth.{image_fits};
ghost use Rattle.of_compile.specs.Coding.{coding_of};
ghost use Rattle.of_board.specs.Text.{made_ready};
ghost use Rattle.of_state.specs.Loading.{begun, cell_of, first_state, instance_on, line_begun, load_fault};

use crate::eval::Eval;
use crate::load_fault::LoadFault;
use crate::throwing::NOTHING_READ;
use of_board::{Active, Board, Console};
use of_cells::Cell;
use of_code::CodeStore;
use of_compile::{Coding, Words};
use of_flow::{Flow, Texts};
use of_format::Pictured;
use of_ihandles::{InstanceFault, Instances};
use of_memory::Memory;
use of_nodes::{Phandle, Tree};
use of_stacks::{Continuation, DataStack, Due, Input, Reading, ReturnItem, ReturnStack};
use of_stream::{HEADER_LENGTH, Stream};
use std::alloc::{AllocError, Global};

/// The cell of a package, if there is one.
fn cell_of(node: Option<Phandle>) -> Option<Cell>
    ensures { result ≡ cell_of node }
{
    match node {
        Some(node) => Some(node.0),
        None => None,
    }
}

impl<C: CodeStore + Drop> Eval<C> {
    /// Nothing runs, nothing is defined, over a store of code that holds nothing yet.
    ///
    /// An error is for memory alone.
    pub fn new(alloc: Global, code: C) -> Result<Eval<C>, AllocError>
        ensures { IfOk result (λ e. e ≡ first_state (coding_of (C.code code) (Some []))) }
    {
        let mut memory = Memory::new(alloc)?;
        let Ok(tree) = Tree::new(alloc, &mut memory) else {
            return Err(AllocError);
        };
        let words = Words::new(alloc)?;
        Ok(Eval {
            board: Board {
                stack: DataStack::new(),
                memory,
                pictured: Pictured::new(),
                console: Console::new(alloc),
                tree,
                active: Active::new(alloc),
                instances: Instances::new(alloc),
            },
            flow: Flow {
                items: ReturnStack::new(alloc)?,
                reading: NOTHING_READ,
                is_running: false,
                next: Continuation::Source,
                is_compiling: false,
                home: None,
                texts: Texts::new(alloc),
                strings: 0,
            },
            words,
            coding: Coding::new(code),
            reply: None,
        })
    }
}

/// Opens an instance of a package below the current one, and makes room for the text of a throw.
fn open_instance(board: &mut Board, node: Phandle) -> Result<Cell, LoadFault>
    ensures opened { IfOk result (λ instance.
        instance_on node board.old ≡ Ok (instance, (board.new.instances, board.new.memory))) }
    ensures left { OnOk result (board.new ≡ record board.old {
      memory = board.new.memory;
      instances = board.new.instances;
      console = made_ready board.old.console;
    }) }
    ensures refused { IfErr result (λ e. (e ≡ LoadFault.NoMemory)
        ⊎ ((e ≡ LoadFault.NoInstance) × (is_ok (instance_on node board.old) ≡ false))) }
    ensures unchanged { OnErr result (board.new ≡ board.old) }
{
    let keep = board.console.is_ready();
    if board.console.make_ready().is_err() {
        return Err(LoadFault::NoMemory);
    }
    let below = board.active.my_self;
    match board.instances.open(&mut board.memory, node, below, &[]) {
        Ok(instance) => Ok(instance),
        Err(InstanceFault::NoMemory) => {
            board.console.keep_ready(keep);
            Err(LoadFault::NoMemory)
        }
        Err(_) => {
            board.console.keep_ready(keep);
            Err(LoadFault::NoInstance)
        }
    }
}

impl<C: CodeStore> Eval<C> {
    /// Begins to run an image for a package, where nothing runs: an instance of the package is opened below the current
    /// one, the image's bytes are copied into the image region, package and instance are active, and room is made for
    /// the text of a throw.
    ///
    /// ImageTooLong where the image region has no room, then NoInstance where the instance finds none; NoMemory may
    /// stand in place of NoInstance. A refusal changes nothing.
    pub fn begin_image(&mut self, image: &[u8], node: Phandle) -> Result<(), LoadFault>
        ensures begun { OnOk result (self.new ≡ begun image.now node self.old) }
        ensures accepted { OnOk result (load_fault image.now node self.old ≡ None) }
        ensures refused { IfErr result (λ e. (load_fault image.now node self.old ≡ Some e)
            ⊎ ((e ≡ LoadFault.NoMemory) × (image_fits self.old.board.memory (length image.now) ≡ true))) }
        ensures unchanged { OnErr result (self.new ≡ self.old) }
    {
        if !self.board.memory.image_fits(image.len()) {
            return Err(LoadFault::ImageTooLong);
        }
        let before = self.board.active.package;
        let outer_self = self.board.active.my_self;
        let instance = open_instance(&mut self.board, node)?;
        let _ = self.board.memory.image_push(image);
        let outer = self.flow.reading;
        self.board.active.package = Some(node);
        self.board.active.my_self = instance;
        self.flow.items.clear();
        self.flow.items.push(ReturnItem::Caller(Due::Load {
            active: cell_of(before),
            my_self: outer_self,
            instance,
            new_devices: self.board.active.new_devices.ever(),
        }));
        self.flow.items.push(ReturnItem::Source(outer));
        self.flow.reading = Reading {
            input: Input::Image {
                size: (Stream { image }).first_size(),
                position: HEADER_LENGTH,
            },
            opened: self.words.open_xt(),
        };
        self.flow.is_running = true;
        self.flow.next = Continuation::Source;
        Ok(())
    }

    /// Begins to read a console line, where nothing runs: a copy of it is kept, and room is made for the text of a
    /// throw. Words are compiled on, where an earlier line left a definition open.
    ///
    /// An error is for memory alone. It changes nothing.
    pub fn begin_line(&mut self, text: &[u8]) -> Result<(), AllocError>
        ensures begun { OnOk result (self.new ≡ line_begun text.now self.old) }
        ensures unchanged { OnErr result (self.new ≡ self.old) }
    {
        let keep = self.board.console.is_ready();
        self.board.console.make_ready()?;
        if self.flow.texts.push(text).is_err() {
            self.board.console.keep_ready(keep);
            return Err(AllocError);
        }
        let before = self.flow.reading;
        self.flow.items.clear();
        self.flow.items.push(ReturnItem::Source(before));
        self.flow.reading = Reading {
            input: Input::Text { position: 0 },
            opened: self.words.open_xt(),
        };
        self.flow.is_running = true;
        self.flow.next = Continuation::Source;
        Ok(())
    }
}
