//! The words of random sources.

/// Words that open nothing and close nothing.
pub(super) const PLAIN: [&str; 40] = [
    "dup",
    "drop",
    "swap",
    "over",
    "+",
    "-",
    "1 +",
    "1 -",
    "0=",
    ".",
    "0",
    "1",
    "2",
    "3",
    "dup .",
    "over .",
    "rot",
    "nip",
    "tuck",
    "2dup",
    "depth .",
    "*",
    "max",
    "and",
    "xor",
    "5 /",
    "7 mod",
    "0<",
    "=",
    "<",
    "u.",
    ".s",
    "h# ffffffff",
    "d# 100",
    "1 pick",
    "?dup",
    "lshift",
    "invert",
    "negate",
    "2 u.r",
];

/// Words over what is defined before all else.
pub(super) const DATA: [&str; 14] = [
    "number .",
    "dup to number",
    "number 1 + to number",
    "place @ .",
    "dup place !",
    "5 place +!",
    "place off",
    "four .",
    "bytes 3 + c@ .",
    "dup bytes 5 + c!",
    "bytes 8 erase",
    "table @ .",
    "later .",
    "0 >second .",
];

/// Phrases that print, or run something else.
pub(super) const RUNNING: [&str; 9] = [
    "\" 1 2 + . \" evaluate",
    "\" dup . 1 - \" evaluate",
    "0 throw",
    "\" text\" type",
    ".\" printed\"",
    "\" a\"(41 42)b\" type",
    "d# 120 emit",
    "<# 1 0 # #s #> type",
    "\" 12\" $number .",
];

/// What is defined before all else.
pub(super) const BEFORE: [&str; 7] = [
    "5 value number",
    "variable place",
    "4 constant four",
    "8 buffer: bytes",
    "create table 7 , 8 ,",
    "defer later ' four to later",
    "struct 4 field >first 4 field >second drop",
];
