//! A store in bytes beside one in a list, and the bytes of a definition that were worked out by hand.
ghost use Rattle.std.specs.Prelude.{◌≢◌, Err};
ghost use Rattle.of_code.specs.Items.{IsStorable};
ghost use Rattle.of_code.specs.declared.fault.CodeFault.TheVariants.{NoMemory};

use of_cell_code::CellCode;
use of_cells::Cell;
use of_code::{CAPACITY, CodeFault, CodeStore, Item, ListCode, Place};
use std::alloc::{AllocError, Global};
use std::process::Abort;
use std::test::Fail;

/// A call of a store.
#[derive(Clone, Copy)]
enum Call {
    Append(Item),
    SetTarget(u32, u32),
    Finish(u32),
    Abandon,
}

const TO: Place = Place { cell: 3 };

/// The address 0x100000 and five bytes.
const TEXT: Item = Item::String {
    address: Cell(0x10_0000),
    length: Cell(5),
};

/// Two words with an item of each kind, targets that are changed or that nothing has, an abandoned definition, and the
/// first word once more.
#[rattlefmt::skip]
const CALLS: [Call; 38] = [
    Call::Append(Item::Operation(Cell(0xc000_0000))),
    Call::Append(Item::Literal(Cell(0xffff_ffff))),
    Call::Append(TEXT),
    Call::Append(Item::Call(Cell(0xc000_052c))),
    Call::Append(Item::Store(Cell(0xc000_0530))),
    Call::Append(Item::Branch(TO)),
    Call::Append(Item::BranchIfZero(TO)),
    Call::Append(Item::EndCase),
    Call::SetTarget(0, 9),
    Call::SetTarget(1, 9),
    Call::SetTarget(9, 65_536),
    Call::SetTarget(10, 7),
    Call::SetTarget(11, 0),
    Call::SetTarget(60_000, 7),
    Call::Finish(0xc000_2000),
    Call::Append(Item::Do(TO)),
    Call::Append(Item::QuestionDo(TO)),
    Call::Append(Item::Loop(TO)),
    Call::Append(Item::PlusLoop(TO)),
    Call::Append(Item::Leave(TO)),
    Call::Append(Item::Of(TO)),
    Call::Append(Item::EndOf(TO)),
    Call::SetTarget(15, 15),
    Call::SetTarget(17, 18),
    Call::SetTarget(19, 65_535),
    Call::SetTarget(27, 0),
    Call::Abandon,
    Call::Append(Item::Of(Place { cell: 65_536 })),
    Call::Append(Item::Return),
    Call::Finish(0xc000_2004),
    Call::Abandon,
    Call::Finish(0xc000_2000),
    Call::Append(TEXT),
    Call::Append(Item::EndOf(TO)),
    Call::Abandon,
    Call::Append(Item::Operation(Cell(0xc000_0528))),
    Call::Append(Item::Call(Cell(0xffff_fffc))),
    Call::SetTarget(15, 1),
];

/// Makes a call, and answers the place of an item that was appended.
fn answer<C: CodeStore>(code: &mut C, call: Call) -> Result<Option<Place>, CodeFault> {
    match call {
        Call::Append(item) => {
            if !item.is_storable() {
                return Ok(None);
            }
            Ok(Some(code.append(item)?))
        }
        Call::SetTarget(at, to) => {
            if to <= 65_536 {
                code.set_target(Place { cell: at }, Place { cell: to });
            }
            Ok(None)
        }
        Call::Finish(xt) => {
            code.finish(Cell(xt))?;
            Ok(None)
        }
        Call::Abandon => {
            code.abandon();
            Ok(None)
        }
    }
}

/// The word in which a place lies, with its beginning.
fn word_at<C: CodeStore>(code: &C, place: Place) -> Option<(Cell, Place)> {
    let word = code.word_at(place)?;
    Some((word.xt, word.place))
}

/// Whether two stores answer alike of a place.
fn is_alike_at(bytes: &CellCode, list: &ListCode, place: Place) -> bool {
    bytes.item_at(place) == list.item_at(place)
        && bytes.item_and_next(place) == list.item_and_next(place)
        && word_at(bytes, place) == word_at(list, place)
}

/// Whether two stores answer alike of all places and of three words.
fn is_alike(bytes: &CellCode, list: &ListCode) -> bool {
    bytes.opened() == list.opened()
        && bytes.end() == list.end()
        && [0xc000_2000, 0xc000_2004, 0xc000_2008]
            .iter()
            .all(|xt| bytes.start_of(Cell(*xt)) == list.start_of(Cell(*xt)))
        && (0..65_540).all(|cell| is_alike_at(bytes, list, Place { cell }))
}

/// What each call answers, and what the stores hold behind it.
#[test]
fn calls(rt: HostRuntime) -> Result<(), Fail> {
    let mut bytes = CellCode::new(rt.alloc())?;
    let mut list = ListCode::new(rt.alloc());
    for (n, call) in CALLS.iter().enumerate() {
        let wanted = answer(&mut list, *call);
        assert!(rt; answer(&mut bytes, *call) == wanted, "call {n}");
        assert!(rt; is_alike(&bytes, &list), "behind call {n}");
    }
    Ok(())
}

/// A store of which all but some cells are in use.
fn with_free_cells(alloc: Global, free: usize) -> Result<CellCode, AllocError> {
    let mut code = CellCode::new(alloc)?;
    for _ in free..CAPACITY {
        let _ = answer(&mut code, Call::Append(Item::EndCase));
    }
    Ok(code)
}

/// With so many free cells, which of the items of three, two and one cell and the return is taken.
#[rattlefmt::skip]
const LAST_CELLS: [(usize, [bool; 4]); 4] = [
    (0, [false, false, false, false]),
    (1, [false, false, true, false]),
    (2, [false, true, false, false]),
    (3, [true, false, false, false]),
];

#[test]
fn last_cells(rt: HostRuntime) -> Result<(), Fail> {
    let calls = [
        Call::Append(TEXT),
        Call::Append(Item::Literal(Cell(7))),
        Call::Append(Item::EndCase),
        Call::Finish(0xc000_2000),
    ];
    for (free, wanted) in LAST_CELLS {
        let mut code = with_free_cells(rt.alloc(), free)?;
        for (call, fits) in calls.iter().zip(wanted) {
            assert!(rt;
                answer(&mut code, *call).is_ok() == fits,
                "{free} free cells"
            );
        }
        assert!(rt; code.end().cell == 65_536 && code.bytes().len() == 262_144);
    }
    Ok(())
}

/// A word in cells. The branch at cell 5 goes to cell 11, five cells behind its second one, and that at cell 8 goes to
/// cell 2, seven cells before its second one.
#[rattlefmt::skip]
const WORD: [u8; 48] = [
    // cell 0: the literal 12345678
    0x00, 0x00, 0x00, 0x01, 0x12, 0x34, 0x56, 0x78,
    // cell 2: the string of five bytes at 100010
    0x00, 0x00, 0x00, 0x02, 0x00, 0x10, 0x00, 0x10, 0x00, 0x00, 0x00, 0x05,
    // cell 5: the branch to cell 11 at 0
    0x00, 0x00, 0x00, 0x05, 0x00, 0x00, 0x00, 0x05,
    // cell 7: the operation c0000004
    0xc0, 0x00, 0x00, 0x04,
    // cell 8: the branch to cell 2
    0x00, 0x00, 0x00, 0x04, 0xff, 0xff, 0xff, 0xf9,
    // cell 10: the call of c0002000
    0xc0, 0x00, 0x20, 0x00,
    // cell 11: the return
    0x00, 0x00, 0x00, 0x00,
];

#[test]
fn bytes(rt: HostRuntime) -> Result<(), Fail> {
    let mut code = CellCode::new(rt.alloc())?;
    let calls = [
        Call::Append(Item::Literal(Cell(0x1234_5678))),
        Call::Append(Item::String {
            address: Cell(0x10_0010),
            length: Cell(5),
        }),
        Call::Append(Item::BranchIfZero(Place { cell: 0 })),
        Call::Append(Item::Operation(Cell(0xc000_0004))),
        Call::Append(Item::Branch(Place { cell: 2 })),
        Call::Append(Item::Call(Cell(0xc000_2000))),
        Call::SetTarget(5, 11),
        Call::Finish(0xc000_2004),
    ];
    for call in calls {
        assert!(rt; answer(&mut code, call).is_ok());
    }
    assert!(rt; code.bytes() == WORD.as_slice());
    Ok(())
}

/// Appends an item, for which there always is memory.
fn append(code: &mut CellCode, item: Item) -> Result<Place, CodeFault>
    requires { IsStorable item }
    ensures { result ≢ Err NoMemory }
{
    code.append(item)
}

/// Finishes a word, for which there always is memory.
fn finish(code: &mut CellCode, xt: Cell) -> Result<(), CodeFault>
    ensures { result ≢ Err NoMemory }
{
    code.finish(xt)
}

/// Words of one item, as many as the store can hold, and one more.
#[test]
fn words(rt: HostRuntime) -> Result<(), Fail> {
    let mut code = CellCode::new(rt.alloc())?;
    for n in 0..32_768u32 {
        assert!(rt; append(&mut code, Item::EndCase).is_ok() && finish(&mut code, Cell(n)).is_ok());
    }
    assert!(rt; append(&mut code, Item::EndCase) == Err(CodeFault::Full));
    assert!(rt; code.start_of(Cell(32_767)) == Some(Place { cell: 65_534 }));
    Ok(())
}
