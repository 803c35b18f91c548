//! The written words: their numbers, execution tokens, names and classes; and the FCodes, the words
//! that they name, and what stands behind each in an image; and the table of what each FCode names at
//! a moment.
#![tactic(auto)]

mod class;
mod codes;
mod console_words;
mod index;
mod laws;
mod list;
mod operand;
mod table;
mod token_table;
mod words;
mod written;

pub use class::Class;
pub use codes::{FCode, fcode_of, name_of, operand_of, word_of};
pub use console_words::{CompilingWord, ConsoleWord, ParsingWord};
pub use laws::{names_and_numbers, table_is_map, written_words_are_found};
pub use operand::Operand;
pub use token_table::{TokenEntry, TokenTable};
pub use words::{
    AddressesWord, ArithmeticWord, ComparingWord, DevicesWord, DictionaryWord, HeapWord, KeysWord,
    MemoryWord, NumbersWord, PrimitiveWord, PrintingWord, PropertiesWord, ReturnsWord,
    SplittingWord, StacksWord, StreamWord, TextWord, ThrowsWord, TreeWord, Word,
};
pub use written::{FIRST_OWN, FIRST_WRITTEN, word_with_name, word_with_xt};
