use crate::rows::{Rows, check, hexadecimal, word};
use of_fcodes::{FCode, FIRST_OWN, TokenEntry, TokenTable, table_is_map};
use std::alloc::Global;
use std::test::Fail;

/// Whether an entry is what a line says behind its number: an execution token, and `immediate`; or `-`.
fn is_entry(entry: Option<TokenEntry>, line: &str) -> bool {
    match entry {
        Some(entry) => {
            hexadecimal(word(line, 1)) == Some(entry.xt)
                && entry.immediate == (word(line, 2) == "immediate")
        }
        None => word(line, 1) == "-",
    }
}

/// FCodes with what they name at first: the written word of their name, by its place in the list of the words.
const FIRST: &str = "\
000 c0000000
0ff c0000004
01e c0000080
033 c0000188
002 -
241 -
800 -
fff -
";

impl Rows for TokenTable {
    fn holds(&mut self, _alloc: Global, line: &str) -> Option<bool> {
        let code = u16::try_from(hexadecimal(word(line, 0))?).ok()?;
        Some(is_entry(self.get(FCode(code)), line))
    }
}

#[test]
fn first_entries(rt: HostRuntime) -> Result<(), Fail> {
    let mut table = TokenTable::new(rt.alloc())?;
    check(&rt, rt.alloc(), &mut table, FIRST);
    table_is_map();
    Ok(())
}

/// Some of them once two FCodes name the first own word, and then once that is cleared.
const SET: &str = "\
fff c000052c immediate
801 -
";

const CLEARED: &str = "\
800 -
fff -
01e c0000080
";

/// Has two FCodes name the first own word.
fn set_two(table: &mut TokenTable) {
    let own = TokenEntry {
        xt: FIRST_OWN,
        immediate: true,
    };
    table.set(FCode(0x800), own);
    table.set(FCode(0xfff), own);
}

#[test]
fn entries_are_set_and_cleared(rt: HostRuntime) -> Result<(), Fail> {
    let mut table = TokenTable::new(rt.alloc())?;
    set_two(&mut table);
    check(&rt, rt.alloc(), &mut table, SET);
    table.clear(FIRST_OWN);
    check(&rt, rt.alloc(), &mut table, CLEARED);
    Ok(())
}

#[test]
fn refused_memory(rt: HostRuntime) {
    if let Ok(table) = TokenTable::new(rt.alloc()) {
        assert!(rt; table.get(FCode(0)).is_some());
    }
}
