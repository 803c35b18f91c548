use crate::console_words::{CompilingWord, ConsoleWord, ParsingWord};

/// A written word, by its group.
#[derive(Clone, Copy)]
pub enum Word {
    /// Stream, control and defining tokens: they act on the image that is read.
    Stream(StreamWord),
    /// Words over the data stack, the data space and the pictured text.
    Primitive(PrimitiveWord),
    /// What prints to the console.
    Printing(PrintingWord),
    /// What takes a block of the heap.
    Heap(HeapWord),
    /// What asks for input.
    Keys(KeysWord),
    /// The return stack, and what begins or ends a word.
    Returns(ReturnsWord),
    /// Words, tokens and their tables.
    Dictionary(DictionaryWord),
    /// `abort`, `catch` and `throw`.
    Throws(ThrowsWord),
    /// Properties of packages.
    Properties(PropertiesWord),
    /// Packages and instances.
    Tree(TreeWord),
    /// Accesses to devices, and time.
    Devices(DevicesWord),
    /// Further ordinary words of the console, which have no FCode.
    Console(ConsoleWord),
    /// Words of the console that read more of its text.
    Parsing(ParsingWord),
    /// Words of the console that serve while a definition is compiled, and only then.
    Compiling(CompilingWord),
}

/// A word over the data stack, the data space and the pictured text, by its group.
#[derive(Clone, Copy)]
pub enum PrimitiveWord {
    /// Arithmetic and logic over the data stack.
    Arithmetic(ArithmeticWord),
    /// Comparisons, which give flags.
    Comparing(ComparingWord),
    /// The data stack alone.
    Stacks(StacksWord),
    /// Sizes and addresses.
    Addresses(AddressesWord),
    /// Reads and writes of the data space.
    Memory(MemoryWord),
    /// Splits and joins of cells.
    Splitting(SplittingWord),
    /// Characters and strings.
    Text(TextWord),
    /// Numbers as text, and the numbers that have FCodes of their own.
    Numbers(NumbersWord),
}

/// Stream, control and defining tokens: they act on the image that is read.
/// Each has its number in the list of written words.
#[derive(Clone, Copy)]
pub enum StreamWord {
    /// `end0`
    End0 = 0,
    /// `end1`
    End1 = 1,
    /// `b(lit)`
    Literal = 2,
    /// `b(')`
    Tick = 3,
    /// `b(")`
    String = 4,
    /// `bbranch`
    Branch = 5,
    /// `b?branch`
    BranchIfZero = 6,
    /// `b(loop)`
    Loop = 7,
    /// `b(+loop)`
    PlusLoop = 8,
    /// `b(do)`
    Do = 9,
    /// `b(?do)`
    QuestionDo = 10,
    /// `b(leave)`
    Leave = 11,
    /// `b(case)`
    Case = 12,
    /// `b(of)`
    Of = 13,
    /// `b(endof)`
    EndOf = 14,
    /// `b(endcase)`
    EndCase = 15,
    /// `b(<mark)`
    Mark = 16,
    /// `b(>resolve)`
    Resolve = 17,
    /// `new-token`
    NewToken = 18,
    /// `named-token`
    NamedToken = 19,
    /// `external-token`
    ExternalToken = 20,
    /// `b(:)`
    Colon = 21,
    /// `b(;)`
    Semicolon = 22,
    /// `b(value)`
    Value = 23,
    /// `b(constant)`
    Constant = 24,
    /// `b(variable)`
    Variable = 25,
    /// `b(create)`
    Create = 26,
    /// `b(defer)`
    Defer = 27,
    /// `b(buffer:)`
    Buffer = 28,
    /// `b(field)`
    Field = 29,
    /// `b(to)`
    To = 30,
    /// `offset16`
    Offset16 = 31,
}

/// Arithmetic and logic over the data stack.
/// Each has its number in the list of written words.
#[derive(Clone, Copy)]
pub enum ArithmeticWord {
    /// `+`
    Plus = 32,
    /// `-`
    Minus = 33,
    /// `*`
    Times = 34,
    /// `and`
    And = 35,
    /// `or`
    Or = 36,
    /// `xor`
    Xor = 37,
    /// `min`
    Min = 38,
    /// `max`
    Max = 39,
    /// `/`
    Slash = 40,
    /// `mod`
    Mod = 41,
    /// `/mod`
    SlashMod = 42,
    /// `u/mod`
    UnsignedSlashMod = 43,
    /// `invert`
    Invert = 44,
    /// `negate`
    Negate = 45,
    /// `abs`
    Abs = 46,
    /// `2/`
    Half = 47,
    /// `u2/`
    UnsignedHalf = 48,
    /// `2*`
    Twice = 49,
    /// `lshift`
    LeftShift = 50,
    /// `rshift`
    RightShift = 51,
    /// `>>a`
    SignedShift = 52,
    /// `um*`
    WideTimes = 53,
    /// `um/mod`
    WideSlashMod = 54,
    /// `d+`
    DoublePlus = 55,
    /// `d-`
    DoubleMinus = 56,
}

/// Comparisons, which give flags.
/// Each has its number in the list of written words.
#[derive(Clone, Copy)]
pub enum ComparingWord {
    /// `0=`
    IsZero = 57,
    /// `0<>`
    IsNotZero = 58,
    /// `0<`
    IsNegative = 59,
    /// `0<=`
    IsNotPositive = 60,
    /// `0>`
    IsPositive = 61,
    /// `0>=`
    IsNotNegative = 62,
    /// `<`
    IsLess = 63,
    /// `>`
    IsGreater = 64,
    /// `=`
    IsEqual = 65,
    /// `<>`
    IsNotEqual = 66,
    /// `>=`
    IsAtLeast = 67,
    /// `<=`
    IsAtMost = 68,
    /// `u>`
    IsAbove = 69,
    /// `u<=`
    IsNotAbove = 70,
    /// `u<`
    IsBelow = 71,
    /// `u>=`
    IsNotBelow = 72,
    /// `between`
    Between = 73,
    /// `within`
    Within = 74,
}

/// The data stack alone.
/// Each has its number in the list of written words.
#[derive(Clone, Copy)]
pub enum StacksWord {
    /// `drop`
    Drop = 75,
    /// `dup`
    Dup = 76,
    /// `over`
    Over = 77,
    /// `swap`
    Swap = 78,
    /// `rot`
    Rot = 79,
    /// `-rot`
    MinusRot = 80,
    /// `tuck`
    Tuck = 81,
    /// `nip`
    Nip = 82,
    /// `pick`
    Pick = 83,
    /// `roll`
    Roll = 84,
    /// `?dup`
    QuestionDup = 85,
    /// `depth`
    Depth = 86,
    /// `2drop`
    TwoDrop = 87,
    /// `2dup`
    TwoDup = 88,
    /// `2over`
    TwoOver = 89,
    /// `2swap`
    TwoSwap = 90,
    /// `2rot`
    TwoRot = 91,
}

/// Sizes and addresses.
/// Each has its number in the list of written words.
#[derive(Clone, Copy)]
pub enum AddressesWord {
    /// `/c`
    ByteSize = 100,
    /// `/w`
    WordSize = 101,
    /// `/l`
    LongSize = 102,
    /// `/n`
    CellSize = 103,
    /// `ca+`
    ByteIndexed = 104,
    /// `wa+`
    WordIndexed = 105,
    /// `la+`
    LongIndexed = 106,
    /// `na+`
    CellIndexed = 107,
    /// `char+`
    NextByte = 108,
    /// `wa1+`
    NextWord = 109,
    /// `la1+`
    NextLong = 110,
    /// `cell+`
    NextCell = 111,
    /// `chars`
    Bytes = 112,
    /// `/w*`
    Words = 113,
    /// `/l*`
    Longs = 114,
    /// `cells`
    Cells = 115,
    /// `aligned`
    Aligned = 116,
    /// `here`
    Here = 117,
    /// `bounds`
    Bounds = 118,
}

/// Reads and writes of the data space.
/// Each has its number in the list of written words.
#[derive(Clone, Copy)]
pub enum MemoryWord {
    /// `on`
    On = 119,
    /// `off`
    Off = 120,
    /// `+!`
    PlusStore = 121,
    /// `@`
    Fetch = 122,
    /// `l@`
    FetchLong = 123,
    /// `w@`
    FetchWord = 124,
    /// `<w@`
    FetchSignedWord = 125,
    /// `c@`
    FetchByte = 126,
    /// `!`
    Store = 127,
    /// `l!`
    StoreLong = 128,
    /// `w!`
    StoreWord = 129,
    /// `c!`
    StoreByte = 130,
    /// `2@`
    FetchTwo = 131,
    /// `2!`
    StoreTwo = 132,
    /// `move`
    Move = 133,
    /// `fill`
    Fill = 134,
    /// `comp`
    Compare = 135,
    /// `c,`
    CommaByte = 136,
    /// `w,`
    CommaWord = 137,
    /// `l,`
    CommaLong = 138,
    /// `,`
    Comma = 139,
    /// `free-mem`
    FreeMem = 141,
}

/// Splits and joins of cells.
/// Each has its number in the list of written words.
#[derive(Clone, Copy)]
pub enum SplittingWord {
    /// `lwsplit`
    Lwsplit = 142,
    /// `wljoin`
    Wljoin = 143,
    /// `lbsplit`
    Lbsplit = 144,
    /// `bljoin`
    Bljoin = 145,
    /// `wbsplit`
    Wbsplit = 146,
    /// `bwjoin`
    Bwjoin = 147,
    /// `wbflip`
    Wbflip = 148,
    /// `lwflip`
    Lwflip = 149,
    /// `lbflip`
    Lbflip = 150,
}

/// Characters and strings.
/// Each has its number in the list of written words.
#[derive(Clone, Copy)]
pub enum TextWord {
    /// `upc`
    UpperCase = 151,
    /// `lcc`
    LowerCase = 152,
    /// `pack`
    Pack = 153,
    /// `count`
    Count = 154,
    /// `bl`
    Blank = 160,
    /// `bs`
    Backspace = 161,
    /// `bell`
    Bell = 162,
    /// `left-parse-string`
    LeftParseString = 163,
    /// `parse-2int`
    ParseTwoInts = 164,
}

/// Numbers as text, and the numbers that have FCodes of their own.
/// Each has its number in the list of written words.
#[derive(Clone, Copy)]
pub enum NumbersWord {
    /// `<#`
    Begin = 165,
    /// `hold`
    Hold = 166,
    /// `sign`
    Sign = 167,
    /// `#`
    NextDigit = 168,
    /// `#s`
    AllDigits = 169,
    /// `#>`
    End = 170,
    /// `u#`
    UnsignedDigit = 171,
    /// `u#s`
    UnsignedDigits = 172,
    /// `u#>`
    UnsignedEnd = 173,
    /// `base`
    Base = 179,
    /// `$number`
    ParseNumber = 180,
    /// `digit`
    Digit = 181,
    /// `-1`
    MinusOne = 182,
    /// `0`
    Zero = 183,
    /// `1`
    One = 184,
    /// `2`
    Two = 185,
    /// `3`
    Three = 186,
    /// `noop`
    Noop = 187,
    /// `fcode-revision`
    FcodeRevision = 188,
}

/// What prints to the console.
/// Each has its number in the list of written words.
#[derive(Clone, Copy)]
pub enum PrintingWord {
    /// `emit`
    Emit = 157,
    /// `type`
    Type = 158,
    /// `cr`
    CarriageReturn = 159,
    /// `.`
    Dot = 174,
    /// `u.`
    UnsignedDot = 175,
    /// `.r`
    DotRight = 176,
    /// `u.r`
    UnsignedDotRight = 177,
    /// `.s`
    DotStack = 178,
}

/// What takes a block of the heap.
/// Each has its number in the list of written words.
#[derive(Clone, Copy)]
pub enum HeapWord {
    /// `alloc-mem`
    AllocMem = 140,
}

/// What asks for input.
/// Each has its number in the list of written words.
#[derive(Clone, Copy)]
pub enum KeysWord {
    /// `key?`
    KeyReady = 155,
    /// `key`
    Key = 156,
}

/// The return stack, and what begins or ends a word.
/// Each has its number in the list of written words.
#[derive(Clone, Copy)]
pub enum ReturnsWord {
    /// `>r`
    ToReturn = 92,
    /// `r>`
    FromReturn = 93,
    /// `r@`
    FetchReturn = 94,
    /// `unloop`
    Unloop = 95,
    /// `i`
    Index = 96,
    /// `j`
    OuterIndex = 97,
    /// `exit`
    Exit = 98,
    /// `execute`
    Execute = 99,
}

/// Words, tokens and their tables.
/// Each has its number in the list of written words.
#[derive(Clone, Copy)]
pub enum DictionaryWord {
    /// `body>`
    FromBody = 189,
    /// `>body`
    ToBody = 190,
    /// `$find`
    Find = 191,
    /// `evaluate`
    Evaluate = 192,
    /// `get-token`
    GetToken = 193,
    /// `set-token`
    SetToken = 194,
    /// `state`
    State = 195,
    /// `compile,`
    CompileComma = 196,
    /// `behavior`
    Behavior = 197,
    /// `instance`
    Instance = 198,
    /// `ferror`
    Error = 199,
    /// `byte-load`
    ByteLoad = 200,
    /// `immediate`
    Immediate = 277,
    /// `]`
    EnterCompiling = 278,
    /// `words`
    PrintWords = 284,
}

/// `abort`, `catch` and `throw`.
/// Each has its number in the list of written words.
#[derive(Clone, Copy)]
pub enum ThrowsWord {
    /// `abort`
    Abort = 201,
    /// `catch`
    Catch = 202,
    /// `throw`
    Throw = 203,
}

/// Properties of packages.
/// Each has its number in the list of written words.
#[derive(Clone, Copy)]
pub enum PropertiesWord {
    /// `property`
    Property = 204,
    /// `encode-int`
    EncodeInt = 205,
    /// `encode-string`
    EncodeString = 206,
    /// `encode-bytes`
    EncodeBytes = 207,
    /// `encode-phys`
    EncodePhys = 208,
    /// `encode+`
    EncodePlus = 209,
    /// `decode-int`
    DecodeInt = 210,
    /// `decode-string`
    DecodeString = 211,
    /// `decode-phys`
    DecodePhys = 212,
    /// `reg`
    Reg = 213,
    /// `model`
    Model = 214,
    /// `device-type`
    DeviceType = 215,
    /// `device-name`
    DeviceName = 216,
    /// `get-my-property`
    GetMyProperty = 217,
    /// `get-inherited-property`
    GetInheritedProperty = 218,
    /// `get-package-property`
    GetPackageProperty = 219,
    /// `delete-property`
    DeleteProperty = 220,
    /// `next-property`
    NextProperty = 221,
}

/// Packages and instances.
/// Each has its number in the list of written words.
#[derive(Clone, Copy)]
pub enum TreeWord {
    /// `new-device`
    NewDevice = 222,
    /// `finish-device`
    FinishDevice = 223,
    /// `child`
    Child = 224,
    /// `peer`
    Peer = 225,
    /// `find-package`
    FindPackage = 226,
    /// `open-package`
    OpenPackage = 227,
    /// `$open-package`
    OpenNamedPackage = 228,
    /// `close-package`
    ClosePackage = 229,
    /// `find-method`
    FindMethod = 230,
    /// `call-package`
    CallPackage = 231,
    /// `$call-parent`
    CallParent = 232,
    /// `$call-method`
    CallMethod = 233,
    /// `my-self`
    MySelf = 234,
    /// `my-parent`
    MyParent = 235,
    /// `ihandle>phandle`
    PackageOf = 236,
    /// `my-args`
    MyArgs = 237,
    /// `set-args`
    SetArgs = 238,
    /// `my-unit`
    MyUnit = 239,
    /// `my-address`
    MyAddress = 240,
    /// `my-space`
    MySpace = 241,
}

/// Accesses to devices, and time.
/// Each has its number in the list of written words.
#[derive(Clone, Copy)]
pub enum DevicesWord {
    /// `cpeek`
    PeekByte = 242,
    /// `wpeek`
    PeekWord = 243,
    /// `lpeek`
    PeekLong = 244,
    /// `cpoke`
    PokeByte = 245,
    /// `wpoke`
    PokeWord = 246,
    /// `lpoke`
    PokeLong = 247,
    /// `rb@`
    ReadByte = 248,
    /// `rw@`
    ReadWord = 249,
    /// `rl@`
    ReadLong = 250,
    /// `rb!`
    WriteByte = 251,
    /// `rw!`
    WriteWord = 252,
    /// `rl!`
    WriteLong = 253,
    /// `get-msecs`
    Milliseconds = 254,
    /// `ms`
    Wait = 255,
}
