/// How a written word is used.
#[derive(Clone, Copy, Debug, PartialEq, Eq)]
pub enum Class {
    /// A token of an image, which acts on the image that is read: its execution token can't be
    /// executed.
    Stream,
    /// A word that is executed, or appended while a definition is compiled.
    Ordinary,
    /// A word of the console that reads more of its text, in both states.
    Parsing,
    /// A word of the console that serves only while a definition is compiled.
    CompileOnly,
}
