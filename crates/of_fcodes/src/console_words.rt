//! The words of the console that have no FCode.

/// Further ordinary words of the console, which have no FCode.
/// Each has its number in the list of written words.
#[derive(Clone, Copy)]
pub enum ConsoleWord {
    /// `1+`
    OnePlus = 256,
    /// `1-`
    OneMinus = 257,
    /// `2+`
    TwoPlus = 258,
    /// `2-`
    TwoMinus = 259,
    /// `true`
    True = 260,
    /// `false`
    False = 261,
    /// `<<`
    ShiftLeft = 262,
    /// `>>`
    ShiftRight = 263,
    /// `not`
    Not = 264,
    /// `struct`
    Struct = 265,
    /// `space`
    Space = 266,
    /// `spaces`
    Spaces = 267,
    /// `allot`
    Allot = 268,
    /// `align`
    Align = 269,
    /// `erase`
    Erase = 270,
    /// `hex`
    Hex = 271,
    /// `decimal`
    Decimal = 272,
    /// `s>d`
    SingleToDouble = 273,
    /// `*/`
    TimesSlash = 274,
    /// `*/mod`
    TimesSlashMod = 275,
    /// `fcode-debug?`
    FcodeDebug = 276,
    /// `device-end`
    DeviceEnd = 279,
    /// `pwd`
    PrintPath = 280,
    /// `ls`
    PrintChildren = 281,
    /// `.properties`
    PrintProperties = 282,
    /// `show-devs`
    ShowDevices = 283,
}

/// Words of the console that read more of its text.
/// Each has its number in the list of written words.
#[derive(Clone, Copy)]
pub enum ParsingWord {
    /// `:`
    Colon = 285,
    /// `constant`
    Constant = 286,
    /// `value`
    Value = 287,
    /// `variable`
    Variable = 288,
    /// `create`
    Create = 289,
    /// `defer`
    Defer = 290,
    /// `buffer:`
    Buffer = 291,
    /// `field`
    Field = 292,
    /// `'`
    Tick = 293,
    /// `dev`
    Device = 294,
    /// `see`
    See = 295,
    /// `to`
    To = 296,
    /// `s"`
    SourceString = 297,
    /// `"`
    String = 298,
    /// `."`
    PrintString = 299,
    /// `h#`
    Hexadecimal = 300,
    /// `d#`
    DecimalNumber = 301,
    /// `char`
    Char = 302,
    /// `(`
    Comment = 303,
    /// `\`
    LineComment = 304,
}

/// Words of the console that serve while a definition is compiled, and only then.
/// Each has its number in the list of written words.
#[derive(Clone, Copy)]
pub enum CompilingWord {
    /// `;`
    Semicolon = 305,
    /// `if`
    If = 306,
    /// `else`
    Else = 307,
    /// `then`
    Then = 308,
    /// `ahead`
    Ahead = 309,
    /// `begin`
    Begin = 310,
    /// `while`
    While = 311,
    /// `repeat`
    Repeat = 312,
    /// `until`
    Until = 313,
    /// `again`
    Again = 314,
    /// `do`
    Do = 315,
    /// `?do`
    QuestionDo = 316,
    /// `loop`
    Loop = 317,
    /// `+loop`
    PlusLoop = 318,
    /// `leave`
    Leave = 319,
    /// `case`
    Case = 320,
    /// `of`
    Of = 321,
    /// `endof`
    EndOf = 322,
    /// `endcase`
    EndCase = 323,
    /// `recurse`
    Recurse = 324,
    /// `literal`
    Literal = 325,
    /// `[`
    LeaveCompiling = 326,
    /// `[']`
    BracketTick = 327,
    /// `[char]`
    BracketChar = 328,
    /// `cs-roll`
    ControlRoll = 329,
    /// `to,`
    CommaTo = 330,
}
