/// What stands behind an FCode in an image, as part of its token.
#[derive(Clone, Copy, Debug, PartialEq, Eq)]
pub enum Operand {
    /// Nothing.
    Nothing,
    /// A cell in four bytes, the most significant first.
    Literal,
    /// A byte with the length, and so many bytes.
    String,
    /// An FCode.
    FCode,
    /// A string, and then an FCode.
    Named,
    /// A signed offset of one or two bytes, counted from its own first byte.
    Offset,
}
