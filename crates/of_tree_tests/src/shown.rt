//! What the console prints of the device tree.

use crate::calls::TreeRows;
use crate::rows::{Rows, check};
use hex::decode;
use of_cells::Cell;
use of_console::{
    children_are_listed, devs_text, ls_text, properties_are_listed, properties_text, pwd_text,
    tree_text, values_are_shown,
};
use of_console_laws::{listings_are_lines, names_stay};
use of_memory::Memory;
use of_nodes::{NodeFault, Phandle, Tree};
use std::alloc::{AllocError, Global};
use std::test::Fail;

/// The node `/slot`.
const SLOT: Phandle = Phandle(Cell(0xd000_0008));

#[test]
fn laws_hold() {
    children_are_listed();
    listings_are_lines();
    names_stay();
    properties_are_listed();
    values_are_shown();
}

/// Values in hexadecimal digits, and behind `|` what stands behind a property's name.
const VALUES: &str = "\
|
00| 00
20| 20
41| 41
0041| 0041
4100| \"A\"
2000| \" \"
7e00| \"~\"
7f00| 7f00
1f00| 1f00
8000| 8000
2200| \"\"\"
410a00| 410a00
410000| 410000
6361726400| \"card\"
63617264| 63617264
6361726473| 63617264 73
00000001| 00000001
0000000102| 00000001 02
0000000100000002| 00000001 00000002
000000010000000200| 00000001 00000002 00
DEADbeef| deadbeef
61006200| 61006200
6162630061626300| 61626300 61626300";

/// The properties of `/slot`, where a property has a value.
fn slot_with(alloc: Global, rows: &mut TreeRows, value: &[u8]) -> Result<Vec<u8>, NodeFault> {
    let TreeRows { tree, memory } = rows;
    tree.set_property(memory, SLOT, b"v", value)?;
    properties_text(alloc, memory, tree, SLOT)
}

/// Whether a value stands so behind the name of a property of `/slot`.
fn is_said(alloc: Global, text: &[u8], shown: &str) -> Result<bool, Fail> {
    let wanted = format!(in alloc; "name \"slot\"\nv{shown}\n")?;
    Ok(text == wanted.as_bytes())
}

/// Whether the value of these digits is shown so.
fn is_shown(alloc: Global, digits: &str, shown: &str) -> Result<bool, Fail> {
    let mut rows = TreeRows::new(alloc)?;
    let value = decode(alloc, digits)?;
    let text = slot_with(alloc, &mut rows, &value)?;
    is_said(alloc, &text, shown)
}

#[test]
fn shown_values(rt: HostRuntime) -> Result<(), Fail> {
    for line in VALUES.lines() {
        let (digits, shown) = line.split_once('|').unwrap_or(("", "none"));
        assert!(rt; is_shown(rt.alloc(), digits, shown)?, "{line}");
    }
    Ok(())
}

/// A text in print on one line, each end of a line as `;`.
pub(crate) fn on_one_line(alloc: Global, text: &[u8]) -> Result<String, AllocError> {
    let mut line = String::new(alloc);
    for byte in text {
        line.push(if *byte == b'\n' {
            ';'
        } else {
            char::from(*byte)
        })?;
    }
    Ok(line)
}

/// The properties of `/slot` in print.
fn slot_shown(alloc: Global, rows: &TreeRows) -> Result<String, Fail> {
    let text = properties_text(alloc, &rows.memory, &rows.tree, SLOT)?;
    Ok(on_one_line(alloc, &text)?)
}

/// The path of a node, its children or the paths of all nodes in print, as a call says.
fn found_shown(alloc: Global, rows: &TreeRows, call: &str) -> Result<String, Fail> {
    let TreeRows { tree, memory } = rows;
    let (word, digits) = call.split_once(' ').unwrap_or((call, ""));
    let node = Phandle(Cell(u32::from_str_radix(digits.trim_end(), 16).unwrap_or(0)));
    let text = match word {
        "pwd" => pwd_text(memory, tree, node)?,
        "ls" => ls_text(alloc, memory, tree, node)?,
        _ => devs_text(alloc, memory, tree)?,
    };
    Ok(on_one_line(alloc, &text)?)
}

/// A tree in print.
fn tree_shown(alloc: Global, rows: &TreeRows) -> Result<String, Fail> {
    let text = tree_text(alloc, &rows.memory, &rows.tree)?;
    Ok(on_one_line(alloc, &text)?)
}

/// Calls on a tree, and what is in print of it: `slot` stands for the properties of `/slot`, `tree` for all, `devs` for
/// all paths, `pwd` and `ls` for the path and the children of a node.
#[derive(Drop)]
struct PrintRows {
    rows: TreeRows,
}

impl Rows for PrintRows {
    fn new(alloc: Global) -> Result<PrintRows, Fail> {
        let rows = TreeRows::new(alloc)?;
        Ok(PrintRows { rows })
    }

    fn halves(line: &str) -> (&str, &str) {
        TreeRows::halves(line)
    }

    fn given(&mut self, alloc: Global, call: &str) -> Result<String, Fail> {
        match call {
            "slot " => slot_shown(alloc, &self.rows),
            "tree " => tree_shown(alloc, &self.rows),
            _ if call.starts_with("pwd ") || call.starts_with("ls ") || call == "devs " => {
                found_shown(alloc, &self.rows, call)
            }
            _ => self.rows.given(alloc, call),
        }
    }
}

/// Properties, of which one is set again.
const SET_AGAIN: &str = "\
set_property d0000008 a #1 = done
set_property d0000008 b #2 = done
set_property d0000008 c #3 = done
set_property d0000008 a #4 = done
slot = name \"slot\";a 00000004;b 00000002;c 00000003;
";

/// A property that is set again keeps its place.
#[test]
fn properties_stand_in_order(rt: HostRuntime) -> Result<(), Fail> {
    check::<PrintRows, _>(&rt, rt.alloc(), &[SET_AGAIN])
}

#[test]
fn no_node_has_no_text(rt: HostRuntime) -> Result<(), Fail> {
    let mut memory = Memory::new(rt.alloc())?;
    let tree = Tree::new(rt.alloc(), &mut memory)?;
    let none = Phandle(Cell(0xd000_000c));
    assert!(rt; properties_text(rt.alloc(), &memory, &tree, none).is_err());
    assert!(rt; pwd_text(&memory, &tree, none).is_err());
    assert!(rt; ls_text(rt.alloc(), &memory, &tree, none).is_err());
    Ok(())
}

/// The tree at first, and behind it one with nodes below `/packages` and `/slot`.
const TREES: &str = "\
tree = /;name \"board\";/packages;name \"packages\";/slot;name \"slot\";
add_node d0000008 = d000000c
set_property d000000c name card~ = done
add_node d000000c = d0000010
add_node d0000004 = d0000014
set_property d0000014 name disk~ = done
tree = /;name \"board\";/packages;name \"packages\";/packages/disk;name \"disk\";\
/slot;name \"slot\";/slot/card;name \"card\";/slot/card/;
";

#[test]
fn trees_are_shown(rt: HostRuntime) -> Result<(), Fail> {
    check::<PrintRows, _>(&rt, rt.alloc(), &[TREES])
}

/// The first nodes, and behind them those below `/packages` and `/slot`: one without a name, and one with a unit
/// address.
const LISTED: &str = "\
pwd d0000000 = /;
pwd d0000008 = /slot;
ls d0000000 = d0000004 packages;d0000008 slot;
ls d0000004 = 
devs = /;/packages;/slot;
add_node d0000008 = d000000c
set_property d000000c name card~ = done
set_property d000000c reg #2,1,3 = done
add_node d0000004 = d0000010
add_node d000000c = d0000014
add_node d0000008 = d0000018
set_property d0000018 name disk~ = done
pwd d000000c = /slot/card@2,1;
pwd d0000014 = /slot/card@2,1/;
ls d0000008 = d000000c card@2,1;d0000018 disk;
ls d000000c = d0000014 ;
ls d0000018 = 
devs = /;/packages;/packages/;/slot;/slot/card@2,1;/slot/card@2,1/;/slot/disk;
";

#[test]
fn nodes_are_listed(rt: HostRuntime) -> Result<(), Fail> {
    check::<PrintRows, _>(&rt, rt.alloc(), &[LISTED])
}
