ghost use Rattle.std.specs.Prelude.{◌≡◌};
ghost use Rattle.of_stacks.specs.Order.{rank, later_rank, counted};

/// What a word throws: a number by which the fault is known (Forth 2012, 9.3.5, table 9.1, and
/// below -255 the numbers of this board).
#[derive(Clone, Copy, Debug, PartialEq, Eq)]
pub struct Throw(pub i32);

impl Throw {
    ghost use Rattle.std.specs.Prelude.{Some, None};
    ghost use Rattle.of_stacks.specs.Order.{first_of, counting};

    /// `abort` was executed.
    pub const ABORT: Throw = Throw(-1);

    /// A stack has no room for what is pushed.
    pub const STACK_OVERFLOW: Throw = Throw(-3);

    /// A stack has fewer cells than the word takes.
    pub const STACK_UNDERFLOW: Throw = Throw(-4);

    /// The return stack has no room for what is pushed.
    pub const RETURN_STACK_OVERFLOW: Throw = Throw(-5);

    /// The return stack has fewer items than the word takes.
    pub const RETURN_STACK_UNDERFLOW: Throw = Throw(-6);

    /// No room is left for words, data, properties, nodes or instances.
    pub const DICTIONARY_OVERFLOW: Throw = Throw(-8);

    /// A byte of an access lies outside every region and live block.
    pub const INVALID_ADDRESS: Throw = Throw(-9);

    /// A divisor is 0.
    pub const DIVISION_BY_ZERO: Throw = Throw(-10);

    /// A word of a text is neither known nor a number.
    pub const UNDEFINED_WORD: Throw = Throw(-13);

    /// A word that only compiles, parses or controls was executed elsewhere.
    pub const COMPILE_ONLY: Throw = Throw(-14);

    /// A name is empty.
    pub const EMPTY_NAME: Throw = Throw(-16);

    /// The pictured text is full.
    pub const PICTURED_OVERFLOW: Throw = Throw(-17);

    /// A name is longer than 31 bytes.
    pub const LONG_NAME: Throw = Throw(-19);

    /// A write goes to a read-only region.
    pub const READ_ONLY: Throw = Throw(-20);

    /// The control structures of a definition don't match.
    pub const CONTROL_MISMATCH: Throw = Throw(-22);

    /// An address isn't a multiple of the width of the access.
    pub const ALIGNMENT: Throw = Throw(-23);

    /// A number can't be used for what it is given for.
    pub const INVALID_ARGUMENT: Throw = Throw(-24);

    /// The topmost item of the return stack is of another kind than the word takes.
    pub const RETURN_STACK_IMBALANCE: Throw = Throw(-25);

    /// No loop is open whose index could be read.
    pub const LOOP_UNAVAILABLE: Throw = Throw(-26);

    /// A definition is open, or none is, where the word wants the opposite.
    pub const COMPILER_NESTING: Throw = Throw(-29);

    /// `>body` of a word that `create` didn't make.
    pub const NOT_CREATED: Throw = Throw(-31);

    /// A name can't name what it is given for.
    pub const INVALID_NAME: Throw = Throw(-32);

    /// No word is assigned to an FCode.
    pub const NOT_ASSIGNED: Throw = Throw(-256);

    /// An image ends within a token, or control leaves it.
    pub const IMAGE_ENDED: Throw = Throw(-257);

    /// A device answered an access with a fault.
    pub const BUS_FAULT: Throw = Throw(-258);

    /// No such node, or no active package.
    pub const NO_NODE: Throw = Throw(-259);

    /// No such instance, or none where one is needed.
    pub const NO_INSTANCE: Throw = Throw(-260);

    /// A package has no such method.
    pub const NO_METHOD: Throw = Throw(-261);

    /// An encoded property is shorter than what is decoded from it.
    pub const SHORT_PROPERTY: Throw = Throw(-262);

    /// A number is no word, or no node.
    pub const BAD_HANDLE: Throw = Throw(-263);

    /// Of two faults of one word, the one that it throws.
    ///
    /// A word used where it can't be comes first, then what is missing on a stack, then handles,
    /// addresses, names and numbers; what finds no room comes last.
    fn first_of(self, other: Throw) -> Throw
        ensures { result ≡ first_of self other }
    {
        if rank(self.0) <= rank(other.0) {
            self
        } else {
            other
        }
    }

    /// Of the faults that a word finds, the one that it throws, if there is one.
    pub fn counting(faults: &[Option<Throw>]) -> Option<Throw>
        ensures { result ≡ counting faults.now }
    {
        match faults {
            [] => None,
            [fault, others @ ..] => counted(*fault, Throw::counting(others)),
        }
    }
}

/// The fault that counts of one that may be found and of those behind it.
fn counted(fault: Option<Throw>, later: Option<Throw>) -> Option<Throw>
    ensures { result ≡ counted fault later }
{
    match (fault, later) {
        (None, later) => later,
        (Some(fault), None) => Some(fault),
        (Some(fault), Some(later)) => Some(fault.first_of(later)),
    }
}

/// Where the throw stands in the order of faults, from the addresses on.
#[tactic(auto, unfolding(crate::specs::Order::later_rank))]
fn later_rank(code: i32) -> u8
    ensures { result ≡ later_rank code }
{
    match code {
        -9 => 10,
        -23 => 11,
        -20 => 12,
        -16 => 13,
        -13 => 14,
        -19 => 15,
        -32 => 16,
        -24 => 17,
        -262 => 18,
        -5 => 20,
        -8 => 21,
        -3 => 22,
        _ => 19,
    }
}

/// Where the throw stands in the order of faults: of two the one of lesser rank counts.
#[tactic(auto, unfolding(crate::specs::Order::rank))]
fn rank(code: i32) -> u8
    ensures { result ≡ rank code }
{
    match code {
        -14 => 0,
        -29 => 1,
        -4 => 2,
        -6 => 3,
        -25 => 4,
        -26 => 5,
        -259 => 6,
        -260 => 7,
        -263 => 8,
        -261 => 9,
        _ => later_rank(code),
    }
}
