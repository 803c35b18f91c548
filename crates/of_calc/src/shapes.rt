/// What a word of the group Arithmetic takes from the data stack and leaves there.
#[derive(Clone, Copy)]
pub(crate) enum Shape {
    /// ( x -- y )
    One,
    /// ( x y -- z )
    Two,
    /// ( n d -- q ) by a divisor.
    Quotient,
    /// ( n d -- rest quotient ) by a divisor.
    Parts,
    /// ( x y -- d )
    Wide,
    /// ( d u -- rest quotient ) by a divisor.
    WideParts,
    /// ( d d -- d )
    Doubles,
}

/// How many cells a comparison takes.
#[derive(Clone, Copy)]
pub(crate) enum Taken {
    One,
    Two,
    Three,
}
