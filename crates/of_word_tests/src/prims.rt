use crate::calc::{is_left, stack_of};
use crate::rows::{Rows, check, hexadecimal};
use of_cells::Cell;
use of_fcodes::{AddressesWord, MemoryWord, NumbersWord, TextWord, Word, word_with_name};
use of_format::Pictured;
use of_memory::{MemFault, Memory};
use of_prims::{
    fetch, fetch_byte, prim, prims_throw_listed, run_address_word, run_memory_word,
    run_number_word, run_text_word, store, store_byte, throw_of,
};
use of_stacks::{DataStack, Throw};
use std::alloc::Global;

/// What stands from 0x100000 on: two cells, two texts with commas, and a text with its length.
const BYTES: &[u8] = b"\x12\x34\x56\x78\x9a\xbc\xde\xf0ab,1F,-2\x05hello\0\0-ff zz12";

/// The parts that a word runs over.
#[derive(Drop)]
struct Parts {
    stack: DataStack,
    memory: Memory,
    pictured: Pictured,
}

/// A memory with the bytes above, and `here` at 0x100000.
fn memory_of_bytes(alloc: Global) -> Option<Memory> {
    let mut memory = Memory::new(alloc).ok()?;
    memory.append(BYTES).ok()?;
    memory.allot(Cell(0xffff_ffe0)).ok()?;
    Some(memory)
}

/// A stack of cells in hexadecimal digits over such a memory.
fn parts_of(alloc: Global, cells: &str) -> Option<Parts> {
    let stack = stack_of(cells)?;
    let memory = memory_of_bytes(alloc)?;
    let pictured = Pictured::new();
    Some(Parts {
        stack,
        memory,
        pictured,
    })
}

/// Runs the word of a name.
fn run(parts: &mut Parts, name: &str) -> Result<(), Throw> {
    match word_with_name(name.as_bytes()) {
        Some(Word::Primitive(word)) => {
            prim(
                word,
                &mut parts.stack,
                &mut parts.memory,
                &mut parts.pictured,
            )
        }
        _ => Err(Throw::ABORT),
    }
}

/// Runs words in turn; `%` begins a number that is pushed.
fn run_all(parts: &mut Parts, words: &str) -> Result<(), Throw> {
    for word in words.split_whitespace() {
        match word.strip_prefix('%') {
            Some(digits) => parts
                .stack
                .try_push(Cell(hexadecimal(digits).unwrap_or(0)))?,
            None => run(parts, word)?,
        }
    }
    Ok(())
}

/// Whether the first twelve bytes from 0x100000 on are these, where they have changed, and an empty text where not.
fn has_bytes(alloc: Global, memory: &Memory, wanted: &str) -> Option<bool> {
    let bytes = memory.slice(Cell(0x10_0000), Cell(12)).ok()?;
    if wanted == "" {
        return Some(bytes == &BYTES[..12]);
    }
    Some(hex::decode(alloc, wanted).ok()?.as_slice() == bytes)
}

/// Whether these cells are left, what stands behind `throws` was thrown, and the first twelve bytes are those that
/// stand behind `mem`.
fn are_left(alloc: Global, parts: &Parts, ended: Result<(), Throw>, after: &str) -> Option<bool> {
    let (stack, bytes) = after.split_once("mem").unwrap_or((after, ""));
    Some(is_left(&parts.stack, ended, stack)? && has_bytes(alloc, &parts.memory, bytes.trim())?)
}

/// Lines with a stack, the top last, words, and what they leave: the cells of the stack in hexadecimal digits, what was
/// thrown, and the first twelve bytes from 0x100000 on where they have changed.
#[derive(Clone, Copy)]
struct PrimRows;

impl Rows for PrimRows {
    fn holds(&mut self, alloc: Global, line: &str) -> Option<bool> {
        let (before, rest) = line.split_once(':')?;
        let (words, after) = rest.split_once("--")?;
        let mut parts = parts_of(alloc, before)?;
        let ended = run_all(&mut parts, words);
        are_left(alloc, &parts, ended, after)
    }
}

/// Worked out by hand from the definitions of the standards.
const WORDS: &str = "\
: /c -- 1
: /w -- 2
: /l -- 4
9 : /n -- 9 4
100 3 : ca+ -- 103
100 3 : wa+ -- 106
100 ffffffff : la+ -- fc
100 3 : na+ -- 10c
7 : char+ -- 8
7 : wa1+ -- 9
7 : la1+ -- b
fffffffe : cell+ -- 2
5 : chars -- 5
5 : /w* -- a
5 : /l* -- 14
40000001 : cells -- 4
0 : aligned -- 0
1 : aligned -- 4
8 : aligned -- 8
fffffffd : aligned -- 0
: here -- 100000
100 8 : bounds -- 108 100
100000 : @ -- 12345678
100004 : l@ -- 9abcdef0
100004 : w@ -- 9abc
100004 : <w@ -- ffff9abc
100002 : <w@ -- 5678
100003 : c@ -- 78
100000 : 2@ -- 9abcdef0 12345678
100000 100004 4 : comp -- ffffffff
100004 100000 4 : comp -- 1
100016 10000d 0 : comp -- 0
100016 100017 1 : comp -- 0
100000 100000 20 : comp -- 0
c0000000 5 0 : comp -- 0
c0000000 5 0 : move --
61 : upc -- 41
7b : upc -- 7b
161 : upc -- 161
5a : lcc -- 7a
40 : lcc -- 40
100010 : count -- 100011 5
: bl -- 20
: bs -- 8
: bell -- 7
100008 8 2c : left-parse-string -- 10000b 5 100008 2
100008 8 12c : left-parse-string -- 10000b 5 100008 2
100008 3 2c : left-parse-string -- 10000b 0 100008 2
100008 8 71 : left-parse-string -- 100010 0 100008 8
5 0 2c : left-parse-string -- 5 0 5 0
100008 5 : parse-2int -- 1f ab
10000b 5 : parse-2int -- fffffffe 1f
10000b 2 : parse-2int -- 0 1f
100018 3 : parse-2int -- 0 ffffff01
: base -- 500000
100018 3 : $number -- ffffff01 0
100019 2 : $number -- ff 0
10001c 2 : $number -- ffffffff
5 0 : $number -- ffffffff
46 10 : digit -- f ffffffff
46 a : digit -- 46 0
: -1 -- ffffffff
: 0 -- 0
: 1 -- 1
: 2 -- 2
: 3 -- 3
6 : noop -- 6
: fcode-revision -- 30000
1 2 : - -- ffffffff
ffffffff 2 : < -- ffffffff
1 2 : swap -- 2 1
12345678 : lwsplit -- 5678 1234
";

#[test]
fn words(rt: HostRuntime) {
    check(&rt, rt.alloc(), &mut PrimRows, WORDS);
}

/// Words that store; the bytes stand in the order of their addresses.
const STORES: &str = "\
100000 : on -- mem ffffffff9abcdef061622c31
100000 : off -- mem 000000009abcdef061622c31
2 100000 : +! -- mem 1234567a9abcdef061622c31
5 100000 : ! -- mem 000000059abcdef061622c31
5 100000 : l! -- mem 000000059abcdef061622c31
12345 100002 : w! -- mem 123423459abcdef061622c31
1ff 100001 : c! -- mem 12ff56789abcdef061622c31
1 2 100000 : 2! -- mem 000000020000000161622c31
100000 100001 4 : move -- mem 1212345678bcdef061622c31
100001 100000 4 : move -- mem 3456789a9abcdef061622c31
100001 2 1aa : fill -- mem 12aaaa789abcdef061622c31
c0000000 0 1 : fill --
1ab : c, -- mem ab3456789abcdef061622c31
1abcd : w, -- mem abcd56789abcdef061622c31
5 : l, -- mem 000000059abcdef061622c31
5 : , -- mem 000000059abcdef061622c31
100000 100000 0 : comp -- 0
11223344 5566 77 : c, w, , here -- 100007 mem 77556611223344f061622c31
100011 5 100000 : pack -- 100000 mem 0568656c6c6fdef061622c31
100000 3 100000 : pack -- 100000 mem 031234569abcdef061622c31
5 0 13ffff : pack -- 13ffff
";

#[test]
fn stores(rt: HostRuntime) {
    check(&rt, rt.alloc(), &mut PrimRows, STORES);
}

/// Numbers pictured digit by digit.
const PICTURED: &str = "\
4d2 0 : <# # -- 4d 0
4d2 0 : <# # # -- 4 0
4d2 0 : <# # # #s -- 0 0
4d2 0 : <# # # #s %158 hold %3 sign %fffffffd sign #> -- 5000fb 5
4d2 0 : <# # # #s %158 hold %fffffffd sign #> drop dup c@ swap char+ c@ -- 2d 58
4d2 0 : <# #s #> drop dup c@ swap 2 + c@ -- 34 32
fab : <# u# -- fa
fab : <# u# u#s u#> -- 5000fd 3
fab : <# u#s u#> + 1 - c@ -- 62
";

#[test]
fn pictured_text(rt: HostRuntime) {
    check(&rt, rt.alloc(), &mut PrimRows, PICTURED);
}

/// Words that throw, and leave all as it was.
const FAULTS: &str = "\
1 : ca+ -- 1 throws -4
: aligned -- throws -4
100000 : ! -- 100000 throws -4
1 13fffc : 2! -- 1 13fffc throws -4
c0000000 : @ -- c0000000 throws -9
13fffe : @ -- 13fffe throws -9
100002 : @ -- 100002 throws -23
100001 : w@ -- 100001 throws -23
400000 : c@ -- 400000 throws -9
13fffc : 2@ -- 13fffc throws -9
100002 : 2@ -- 100002 throws -23
fffffffc : 2@ -- fffffffc throws -9
1 200010 : +! -- 1 200010 throws -20
1 200011 : +! -- 1 200011 throws -23
1 200000 : ! -- 1 200000 throws -20
1 600000 : c! -- 1 600000 throws -20
1 2 13fffc : 2! -- 1 2 13fffc throws -9
1 2 200000 : 2! -- 1 2 200000 throws -20
13ffff 100000 2 : move -- 13ffff 100000 2 throws -9
200000 1 0 : fill -- 200000 1 0 throws -20
100000 c0000000 1 : comp -- 100000 c0000000 1 throws -9
400000 8 : free-mem -- 400000 8 throws -24
100000 100 100100 : pack -- 100000 100 100100 throws -24
c0000000 100 100000 : pack -- c0000000 100 100000 throws -9
100000 ffffffff 100000 : pack -- 100000 ffffffff 100000 throws -9
100000 100 200000 : pack -- 100000 100 200000 throws -20
c0000000 : count -- c0000000 throws -9
13ffff 2 20 : left-parse-string -- 13ffff 2 20 throws -9
100008 8 : parse-2int -- 100008 8 throws -24
5 0 : parse-2int -- 5 0 throws -24
13ffff 2 : $number -- 13ffff 2 throws -9
1 : # -- 1 throws -4
";

#[test]
fn faults(rt: HostRuntime) {
    check(&rt, rt.alloc(), &mut PrimRows, FAULTS);
}

/// Words whose results find no room throw -3, and change nothing.
const FULL: &str = "/c\nhere\n2@\ncount\nleft-parse-string\nbell\nu#>\nbase\n0";

/// Fills the stack with 256 cells: 254 addresses, 0, and an address.
fn fill(stack: &mut DataStack) -> Result<(), Throw> {
    for _ in 0..254 {
        stack.try_push(Cell(0x10_0000))?;
    }
    stack.try_push(Cell(0))?;
    stack.try_push(Cell(0x10_0000))
}

/// Words on a full stack, one a line.
#[derive(Clone, Copy)]
struct FullRows;

impl Rows for FullRows {
    fn holds(&mut self, alloc: Global, line: &str) -> Option<bool> {
        let mut parts = parts_of(alloc, "")?;
        fill(&mut parts.stack).ok()?;
        Some(run(&mut parts, line) == Err(Throw(-3)) && parts.stack.depth() == 256)
    }
}

#[test]
fn full_stacks(rt: HostRuntime) {
    check(&rt, rt.alloc(), &mut FullRows, FULL);
}

/// Whether a cell finds no room where three bytes are free, and a half does.
fn a_half_fits(parts: &mut Parts) -> bool {
    parts.memory.allot(Cell(0x3_fffd)).is_ok()
        && run(parts, ",") == Err(Throw(-8))
        && run(parts, "w,") == Ok(())
}

#[test]
fn a_full_data_region(rt: HostRuntime) {
    assert!(rt; parts_of(rt.alloc(), "1").is_some_and(|mut parts| a_half_fits(&mut parts)));
}

/// Whether a block is taken, and given back.
fn gives_back(parts: &mut Parts) -> bool {
    parts.memory.heap_take(Cell(16)).is_ok()
        && run(parts, "free-mem") == Ok(())
        && parts.memory.read8(Cell(0x40_0000)).is_err()
}

#[test]
fn blocks_are_given_back(rt: HostRuntime) {
    let parts = parts_of(rt.alloc(), "400000 9");
    assert!(rt; parts.is_some_and(|mut parts| gives_back(&mut parts)));
}

/// Holds 127 characters.
fn hold_127(parts: &mut Parts) -> Result<(), Throw> {
    for _ in 0..127 {
        parts.pictured.hold(&mut parts.memory, b'x')?;
    }
    Ok(())
}

/// Whether a text is full where it has 127 characters and one more is held.
fn is_full(parts: &mut Parts) -> bool {
    hold_127(parts) == Ok(())
        && run_all(parts, "#s") == Err(Throw(-17))
        && run_all(parts, "# #") == Err(Throw(-17))
        && run_all(parts, "%41 hold") == Err(Throw(-17))
}

/// Whether a bad base is said then.
fn is_bad_base(parts: &mut Parts) -> bool {
    parts.memory.write32(Cell(0x50_0000), Cell(37)).is_ok()
        && run(parts, "#") == Err(Throw(-24))
        && parts.pictured.len() == 128
}

/// A bad base comes before a full text, and neither changes anything.
#[test]
fn full_texts_and_bad_bases(rt: HostRuntime) {
    let parts = parts_of(rt.alloc(), "12 0");
    assert!(rt; parts.is_some_and(|mut parts| is_full(&mut parts) && is_bad_base(&mut parts)));
}

#[test]
fn faults_of_the_data_space(rt: HostRuntime) {
    assert!(rt; throw_of(MemFault::Address) == Throw(-9));
    assert!(rt; throw_of(MemFault::Alignment) == Throw(-23));
    assert!(rt; throw_of(MemFault::ReadOnly) == Throw(-20));
    assert!(rt; throw_of(MemFault::Full) == Throw(-8));
    assert!(rt; throw_of(MemFault::BadBlock) == Throw(-24));
    prims_throw_listed();
}

/// Stores, and fetches a byte.
fn store_both(stack: &mut DataStack, memory: &mut Memory) -> Result<(), Throw> {
    store(stack, memory)?;
    store_byte(stack, memory)?;
    fetch_byte(stack, memory)
}

/// Fetches the cell at 0x100004.
fn fetch_five(stack: &mut DataStack, memory: &Memory) -> Result<(), Throw> {
    stack.try_push(Cell(0x10_0004))?;
    fetch(stack, memory)
}

/// Whether both leave what they should.
fn stores_and_fetches(alloc: Global, parts: &mut Parts) -> Option<bool> {
    let ended = store_both(&mut parts.stack, &mut parts.memory);
    if !are_left(alloc, parts, ended, "34 mem 123456ff0000000561622c31")? {
        return Some(false);
    }
    let ended = fetch_five(&mut parts.stack, &parts.memory);
    Some(ended == Ok(()) && parts.stack.peek() == Ok(Cell(5)))
}

#[test]
fn words_by_themselves(rt: HostRuntime) {
    let parts = parts_of(rt.alloc(), "100001 1ff 100003 5 100004");
    let holds = parts.is_some_and(|mut parts| stores_and_fetches(rt.alloc(), &mut parts)
        == Some(true));
    assert!(rt; holds);
}

/// Runs a word of each of four groups.
fn run_groups(parts: &mut Parts) -> Result<(), Throw> {
    let Parts {
        stack,
        memory,
        pictured,
    } = parts;
    run_address_word(AddressesWord::NextByte, stack, memory)?;
    run_memory_word(MemoryWord::FetchByte, stack, memory)?;
    run_text_word(TextWord::UpperCase, stack, memory)?;
    run_number_word(NumbersWord::One, stack, memory, pictured)
}

/// Whether they leave what they should.
fn groups_run(alloc: Global, parts: &mut Parts) -> bool {
    let ended = run_groups(parts);
    are_left(alloc, parts, ended, "42 1") == Some(true)
}

#[test]
fn groups_by_themselves(rt: HostRuntime) {
    let parts = parts_of(rt.alloc(), "100008");
    assert!(rt; parts.is_some_and(|mut parts| groups_run(rt.alloc(), &mut parts)));
}
