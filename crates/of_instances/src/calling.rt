//! The words that call a method: what they run, and for which instance.
ghost use Rattle.std.specs.Prelude.{◌≡◌, IfOk, IfSome};
ghost use Rattle.of_instances.specs.Calling.{TakesOperands, call_method_entry, call_package_entry, call_parent_entry};
ghost use Rattle.of_instances.specs.Calling.{Opens, calling_entry, close_package_entry, method_of, open_named_entry};
ghost use Rattle.of_instances.specs.Calling.{open_in, open_package_entry};
ghost use Rattle.of_instances.specs.Reading.{text_at};
ghost use Rattle.of_instances.specs.declared.calling.Callee.{Callee};
ghost use Rattle.of_stacks.specs.declared.return_item.Due.{Due};

use crate::faults::{instance_stop, of_instance, of_tree};
use crate::reading::{package_at, text_at};
use of_board::Board;
use of_cells::Cell;
use of_nodes::Phandle;
use of_stacks::{Due, Stop, Throw};

/// A word that calls a method (IEEE 1275-1994, annex A).
#[derive(Clone, Copy)]
pub enum CallingWord {
    /// `call-package` ( .. xt ih -- .. )
    Package,
    /// `$call-method` ( .. s n ih -- .. )
    Method,
    /// `$call-parent` ( .. s n -- .. )
    Parent,
    /// `close-package` ( ih -- )
    Close,
    /// `open-package` ( s n ph -- ih or 0 )
    Open,
    /// `$open-package` ( args n name n -- ih or 0 )
    OpenNamed,
}

/// The cells that such a word takes, the topmost last.
#[derive(Clone, Copy)]
pub enum Operands {
    /// ( x -- )
    One(Cell),
    /// ( x y -- )
    Two(Cell, Cell),
    /// ( x y z -- )
    Three(Cell, Cell, Cell),
    /// ( x y z u -- )
    Four(Cell, Cell, Cell, Cell),
}

/// For which instance a method runs.
#[derive(Clone, Copy)]
pub enum Callee {
    /// For one that there is.
    Live {
        /// The instance.
        instance: Cell,
        /// What is due when the method has ended.
        due: Due,
    },
    /// For a new one, which is the word's result where the method answers true.
    New {
        /// Its package.
        package: Phandle,
        /// Where its arguments stand.
        address: Cell,
        /// How many bytes they have.
        length: Cell,
    },
}

/// What such a word runs.
#[derive(Clone, Copy)]
pub struct MethodCall {
    /// The execution token.
    pub xt: Cell,
    /// What the word takes.
    pub operands: Operands,
    /// The instance that is the current one meanwhile.
    pub callee: Callee,
}

/// The method with a name of an instance's package; -260 without that instance, -261 without a method, -9 where a byte
/// of the name can't be read.
fn method_of(board: &Board, ihandle: Cell, address: Cell, length: Cell) -> Result<Cell, Throw>
    ensures { result ≡ method_of board.now ihandle address length }
{
    let package = of_instance(board.instances.package(ihandle))?;
    let name = text_at(&board.memory, address, length)?;
    match of_tree(board.tree.method(package, name))? {
        Some(xt) => Ok(xt),
        None => Err(Throw::NO_METHOD),
    }
}

/// An instance for which a method runs, behind which the current one comes back.
fn method_for(instance: Cell, board: &Board) -> Callee
    ensures { result ≡ Callee.Live instance (Due.Method board.now.active.my_self) }
{
    Callee::Live {
        instance,
        due: Due::Method {
            my_self: board.active.my_self,
        },
    }
}

/// `call-package` ( .. xt ih -- .. ) runs the word of an execution token for an instance.
#[tactic(auto, unfolding(crate::specs::Calling::call_package_entry))]
fn call_package(board: &Board) -> Result<Option<MethodCall>, Throw>
    ensures found { result ≡ call_package_entry board.now.stack board.now }
    ensures taken { TakesOperands board.now.stack result }
{
    let (xt, instance) = board.stack.top_two()?;
    of_instance(board.instances.package(instance))?;
    Ok(Some(MethodCall {
        xt,
        operands: Operands::Two(xt, instance),
        callee: method_for(instance, board),
    }))
}

/// `$call-method` ( .. s n ih -- .. ) runs a method of an instance's package for it.
#[tactic(auto, unfolding(crate::specs::Calling::call_method_entry))]
fn call_method(board: &Board) -> Result<Option<MethodCall>, Throw>
    ensures found { result ≡ call_method_entry board.now.stack board.now }
    ensures taken { TakesOperands board.now.stack result }
{
    let (address, length, instance) = board.stack.top_three()?;
    let xt = method_of(board, instance, address, length)?;
    Ok(Some(MethodCall {
        xt,
        operands: Operands::Three(address, length, instance),
        callee: method_for(instance, board),
    }))
}

/// `$call-parent` ( .. s n -- .. ) runs a method of the package of the current instance's parent for that.
#[tactic(auto, unfolding(crate::specs::Calling::call_parent_entry))]
fn call_parent(board: &Board) -> Result<Option<MethodCall>, Throw>
    ensures found { result ≡ call_parent_entry board.now.stack board.now }
    ensures taken { TakesOperands board.now.stack result }
{
    let (address, length) = board.stack.top_two()?;
    let instance = of_instance(board.instances.parent(board.active.my_self))?;
    let xt = method_of(board, instance, address, length)?;
    Ok(Some(MethodCall {
        xt,
        operands: Operands::Two(address, length),
        callee: method_for(instance, board),
    }))
}

/// `close-package` ( ih -- ) runs the method `close` of an instance's package for it, if there is one.
#[tactic(auto, unfolding(crate::specs::Calling::close_package_entry))]
fn close_package(board: &Board) -> Result<Option<MethodCall>, Throw>
    ensures found { result ≡ close_package_entry board.now.stack board.now }
    ensures taken { TakesOperands board.now.stack result }
{
    let instance = board.stack.peek()?;
    let package = of_instance(board.instances.package(instance))?;
    let Some(xt) = of_tree(board.tree.method(package, b"close"))? else {
        return Ok(None);
    };
    Ok(Some(MethodCall {
        xt,
        operands: Operands::One(instance),
        callee: Callee::Live {
            instance,
            due: Due::Close {
                my_self: board.active.my_self,
                instance,
            },
        },
    }))
}

/// What opens a package: its method `open`, for a new instance with arguments in memory; none where it has none, -9
/// where a byte of the arguments can't be read.
fn opening(
    package: Phandle,
    address: Cell,
    length: Cell,
    operands: Operands,
    board: &Board,
) -> Result<Option<MethodCall>, Throw>
    ensures found { result ≡ open_in board.now «package» address length operands
        (text_at board.now.memory address length) }
    ensures taken { IfOk result (λ o. IfSome o (λ m. m.operands ≡ operands)) }
{
    text_at(&board.memory, address, length)?;
    let Some(xt) = of_tree(board.tree.method(package, b"open"))? else {
        return Ok(None);
    };
    Ok(Some(MethodCall {
        xt,
        operands,
        callee: Callee::New {
            package,
            address,
            length,
        },
    }))
}

/// `open-package` ( s n ph -- ih or 0 ) runs the method `open` of a package, if there is one.
#[tactic(auto, unfolding(crate::specs::Calling::open_package_entry))]
fn open_package(board: &Board) -> Result<Option<MethodCall>, Throw>
    ensures found { result ≡ open_package_entry board.now.stack board.now }
    ensures taken { TakesOperands board.now.stack result }
{
    let (address, length, handle) = board.stack.top_three()?;
    let package = package_at(&board.tree, handle)?;
    let operands = Operands::Three(address, length, handle);
    opening(package, address, length, operands, board)
}

/// `$open-package` ( args n name n -- ih or 0 ) runs the method `open` of the package of a path below `/packages`, if
/// there is one.
#[tactic(auto, unfolding(crate::specs::Calling::open_named_entry))]
fn open_named(board: &Board) -> Result<Option<MethodCall>, Throw>
    ensures found { result ≡ open_named_entry board.now.stack board.now }
    ensures taken { TakesOperands board.now.stack result }
{
    let (address, length, path, count) = board.stack.top_four()?;
    let name = text_at(&board.memory, path, count)?;
    let Some(package) = board.tree.find_package(&board.memory, name) else {
        text_at(&board.memory, address, length)?;
        return Ok(None);
    };
    let operands = Operands::Four(address, length, path, count);
    opening(package, address, length, operands, board)
}

/// What a word that calls a method runs, for which instance, what it takes and what is due then; none where it runs no
/// method, and `run_tree_word` does what is left to do. Nothing has changed.
///
/// -4 where a cell is missing, then -260 where the instance is missing, for `$call-parent` the current one or its
/// parent, -261 where its package has no method of the name, -263 where there is no package to open, and -9 where a
/// byte of a name or of arguments can't be read. Whether the number is a word isn't looked at.
pub fn find_call(word: CallingWord, board: &Board) -> Result<Option<MethodCall>, Throw>
    ensures found { result ≡ calling_entry word board.now }
    ensures taken { TakesOperands board.now.stack result }
{
    match word {
        CallingWord::Package => call_package(board),
        CallingWord::Method => call_method(board),
        CallingWord::Parent => call_parent(board),
        CallingWord::Close => close_package(board),
        CallingWord::Open => open_package(board),
        CallingWord::OpenNamed => open_named(board),
    }
}

/// Opens an instance of a package below the current one, with a copy of arguments that stand in memory (IEEE 1275-1994,
/// annex A, `open-package`); answers its ihandle.
///
/// -9 where a byte of the arguments can't be read, -8 where the instance finds no room; or NoMemory, in place of any
/// other answer. Then nothing has changed.
pub fn open_instance(
    board: &mut Board,
    package: Phandle,
    address: Cell,
    length: Cell,
) -> Result<Cell, Stop>
    ensures { Opens «package» address length board.old board.new result }
{
    let me = board.active.my_self;
    let arguments = Vec::from_slice(
        board.active.new_devices.alloc(),
        text_at(&board.memory, address, length)?,
    )?;
    match board
        .instances
        .open(&mut board.memory, package, me, arguments.as_slice())
    {
        Ok(ihandle) => Ok(ihandle),
        Err(fault) => Err(instance_stop(fault)),
    }
}
