use crate::calls::TreeRows;
use crate::rows::check;
use of_cells::Cell;
use of_memory::{
    Memory, changes_stay_sound, images_change_by_images_alone, properties_change_by_puts_alone,
};
use of_nodes::{
    NodeFault, Phandle, Tree, after_runs, before, behind, components_are_meant, first_paths_find,
    methods_are_found, paths_find, properties_are_found, properties_keep_the_space, stored_stays,
    tree_finds, tree_is_shown, ways_lead,
};
use std::alloc::Global;
use std::test::Fail;

#[test]
fn laws_hold() {
    after_runs();
    changes_stay_sound();
    components_are_meant();
    first_paths_find();
    images_change_by_images_alone();
    methods_are_found();
    paths_find();
    properties_are_found();
    properties_change_by_puts_alone();
    properties_keep_the_space();
    stored_stays();
    tree_finds();
    tree_is_shown();
    ways_lead();
}

/// A text is parted at the first of a byte.
#[test]
fn texts_are_parted(rt: HostRuntime) {
    assert!(rt; before(b"disk:a:b", b':') == b"disk".as_slice());
    assert!(rt; before(b"disk", b':') == b"disk".as_slice());
    let rest = behind(b"disk:a:b", b':').unwrap_or(b"none");
    assert!(rt; rest == b"a:b".as_slice());
    assert!(rt; behind(b"disk", b':').is_none());
}

/// The tree at first, and a node that is added to it.
const FIRST: &str = "\
parent d0000000 = -
child d0000000 = d0000004
peer d0000004 = d0000008
peer d0000008 = -
parent d0000008 = d0000000
child d000000c = no such node
add_node d0000008 = d000000c
set_property d000000c reg 1234 = done
property d000000c reg = 200038 3 20003c 4
next_property d000000c - = 200038 3 20003c 4
next_property d000000c reg = -
property_at d000000c 0 = 200038 3 20003c 4
property_at d000000c 1 = -
property_at d0000010 0 = no such node
property_count d000000c = 1
property_count d0000010 = no such node
delete_property d000000c reg = done
property d000000c reg = -
property_at d000000c 0 = -
property_count d000000c = 0
";

/// A node that is taken back is none, and its phandle is that of the next.
const TAKEN_BACK: &str = "\
add_and_take_back d0000008 = d000000c
child d0000008 = -
parent d000000c = no such node
peer d0000008 = -
add_node d0000004 = d000000c
child d0000008 = -
child d0000004 = d000000c
add_and_take_back d0000004 = d0000010
peer d000000c = -
add_and_take_back d000000c = d0000010
child d000000c = -
after d000000c = d0000008
add_and_take_back d0000010 = no such node
parent d000000c = d0000004
add_node d000000c = d0000010
";

/// Two cards, two nodes of one name, each with one below it, a node without a name, and two packages of one name.
/// Paths, from the root or from `/packages`, lead to them: the oldest of a name counts, of packages the newest.
const PATHS: &str = "\
add_node d0000008 = d000000c
set_property d000000c name card~ = done
set_property d000000c reg #1,0,100 = done
add_node d0000008 = d0000010
set_property d0000010 name card~ = done
set_property d0000010 reg #2,a0,100 = done
add_node d0000008 = d0000014
set_property d0000014 name disk~ = done
add_node d0000008 = d0000018
set_property d0000018 name disk~ = done
add_node d0000014 = d000001c
set_property d000001c name part~ = done
set_property d000001c reg #3 = done
add_node d0000018 = d0000020
set_property d0000020 name part~ = done
add_node d0000004 = d0000024
add_node d0000004 = d0000028
set_property d0000028 name p~ = done
add_node d0000004 = d000002c
set_property d000002c name p~ = done
find / = d0000000
find /slot = d0000008
find /slot/card = d000000c
find /slot/card@1,0 = d000000c
find /slot/card@2,a0 = d0000010
find /slot/@2,a0 = d0000010
find /slot/@2,A0 = -
find /slot/card@2,A0 = -
find /slot/card@ = -
find /slot/card@02,a0 = -
find /slot/disk@1,0 = -
find /slot/card@2,a0:1,x = d0000010
find /slot:9600,8/disk:a = d0000014
find /slot/disk:a@1 = d0000014
find /slot/card:a@2,a0 = d000000c
find /slot/disk/part = d000001c
find /slot//part = -
find /slot/ = -
find //slot = -
find slot = -
find /SLOT = -
find /packages/ = d0000024
find /packages/p = d0000028
find /packages/: = d0000024
find_from d0000008 - = d0000008
find_from d0000008 card@2,a0 = d0000010
find_from d0000018 ../disk/part = d000001c
find_from d000001c .. = d0000014
find_from d0000024 ../.. = d0000000
find_from d0000024 ../../.. = -
find_from d0000000 .. = -
find_from d0000008 ../packages/p = d0000028
find_from d0000008 ./card = -
find_from d0000008 /card = -
find_from d0000040 card = no such node
find_package - = d0000004
find_package p = d000002c
find_package p:x = d000002c
find_package / = -
find_package /p = -
find_package packages = -
after d0000000 = d0000004
after d0000004 = d0000024
after d0000024 = d0000028
after d000002c = d0000008
after d0000010 = d0000014
after d0000014 = d000001c
after d000001c = d0000018
after d0000020 = -
after d0000030 = no such node
path_of d0000000 = /
component_of d0000000 =
component_of d0000010 = card@2,a0
component_of d0000018 = disk
component_of d0000024 =
component_of d0000040 = no such node
path_of d0000010 = /slot/card@2,a0
path_of d0000018 = /slot/disk
path_of d000001c = /slot/disk/part
path_of d0000024 = /packages/
path_of d000002c = /packages/p
";

/// A path has the unit addresses, and a unit address as many cells as the parent says, 2 where it says nothing.
const UNITS: &str = "\
add_node d0000008 = d000000c
set_property d000000c name card~ = done
set_property d000000c reg #1,abc00000,100 = done
path_of d000000c = /slot/card@1,abc00000
set_property d0000008 #address-cells #3 = done
address_cells d0000008 = 3
address_cells d000000c = 2
path_of d000000c = /slot/card@1,abc00000,100
set_property d000000c reg #1,2,3,4 = done
set_property d0000008 #address-cells #4 = done
address_cells d0000008 = 4
path_of d000000c = /slot/card@1,2,3,4
find /slot/card@1,2,3,4 = d000000c
set_property d0000008 #address-cells #5 = done
address_cells d0000008 = 2
set_property d0000008 #address-cells #0 = done
address_cells d0000008 = 2
set_property d0000008 #address-cells #1,1 = done
address_cells d0000008 = 2
set_property d0000008 #address-cells 1 = done
address_cells d0000008 = 2
path_of d000000c = /slot/card@1,2
";

/// A property that is set again keeps its name and its place among the others, and puts its value alone.
const REPLACED: &str = "\
add_node d0000008 = d000000c
set_property d000000c name board~ = done
property d000000c name = 200038 4 20003c 6
set_property d000000c name card~ = done
property d000000c name = 200038 4 200044 5
property d000000c Name = -
set_property d000000c reg - = done
set_property d000000c name c~ = done
next_property d000000c - = 200038 4 200050 2
next_property d000000c name = 20004c 3 200050 0
next_property d000000c reg = -
delete_property d000000c name = done
property d000000c name = -
next_property d000000c - = 20004c 3 200050 0
";

/// Names that are refused: nothing is set, and nothing is taken from the property region.
const REFUSED: &str = "\
set_property d0000008 a/b 1234 = invalid name argument
set_property d0000008 name a/b~ = invalid name argument
set_property d0000008 name ab = invalid name argument
property d0000008 name = 20002c 4 200030 5
set_property d0000008 reg 1234 = done
property d0000008 reg = 200038 3 20003c 4
set_property d000000c reg 1234 = no such node
set_property d0000008 0123456789012345678901234567890 1 = done
set_property d0000008 01234567890123456789012345678901 1 = invalid name argument
set_property d0000008 !0[`{|}~ 1 = done
set_property d0000008 @ 1 = invalid name argument
set_property d0000008 : 1 = invalid name argument
";

/// Methods are found whatever the case of their names; the newest of a name counts, until it is taken back.
const METHODS: &str = "\
add_method d0000008 Open c0000000 = done
add_method d0000008 OPEN c0000004 = done
method d0000008 open = c0000004
method d0000008 - = -
add_method d0000008 Close c0000008 = done
method_at d0000008 0 = open c0000004
method_at d0000008 1 = close c0000008
method_at d0000008 2 = -
method_at d000000c 0 = no such node
take_back_method d0000008 close - = done
take_back_method d0000008 open c0000000 = done
method d0000008 OPEN = c0000000
take_back_method d0000008 Open - = done
method d0000008 open = -
add_method d0000008 - c0000008 = invalid name argument
add_method d0000008 abcdefghijklmnopqrstuvwxyzabcde c000000c = done
method d0000008 Abcdefghijklmnopqrstuvwxyzabcde = c000000c
add_method d0000008 abcdefghijklmnopqrstuvwxyzabcdef c0000010 = invalid name argument
method d0000008 abcdefghijklmnopqrstuvwxyzabcdef = -
method 0 open = no such node
";

/// The property region is filled to its last byte: `!1ffc4` stands for so many bytes of 1.
const FULL: &str = "\
set_property d0000008 a !1ffc5 = no room for the property
set_property d0000008 a !1ffc4 = done
byte 21ffff = 1
set_property d0000008 b - = no room for the property
";

/// There are 1,024 nodes, three of them from the beginning.
const MANY: &str = "\
add_nodes d0000000 3fd = d0000ffc
add_node d0000000 = too many nodes
peer d0000ffc = -
set_property d0000ffc name last~ = done
path_of d0000ffc = /last
add_method d0000ffc open 1 = done
method d0000ffc open = 1
";

#[test]
fn calls(rt: HostRuntime) -> Result<(), Fail> {
    let tables = [
        FIRST, TAKEN_BACK, PATHS, UNITS, REPLACED, REFUSED, METHODS, FULL, MANY,
    ];
    check::<TreeRows, _>(&rt, rt.alloc(), &tables)
}

/// Whether a property is set, or else refused for memory alone, and nothing is put for it.
fn sets_or_puts_nothing(tree: &mut Tree, memory: &mut Memory) -> bool {
    let slot = Phandle::of(2);
    match tree.set_property(memory, slot, b"reg", b"1234") {
        Ok(()) => true,
        Err(fault) => {
            fault == NodeFault::NoMemory
                && tree.property(slot, b"reg") == Ok(None)
                && memory.put_property(b"") == Ok(Cell(0x20_0038))
        }
    }
}

/// Whether a node is added, or else refused for memory alone, and there is none.
fn adds_or_changes_nothing(tree: &mut Tree) -> bool {
    let slot = Phandle::of(2);
    match tree.add_node(slot) {
        Ok(_) => true,
        Err(fault) => fault == NodeFault::NoMemory && tree.child(slot) == Ok(None),
    }
}

// To be run with one allocation after another refused.
#[test]
fn a_refused_growth_changes_nothing(rt: HostRuntime) -> Result<(), Fail> {
    let mut memory = Memory::new(rt.alloc())?;
    let mut tree = Tree::new(rt.alloc(), &mut memory)?;
    assert!(rt; sets_or_puts_nothing(&mut tree, &mut memory));
    assert!(rt; adds_or_changes_nothing(&mut tree));
    Ok(())
}

/// Fills the property region but for so many bytes, of 131,056.
fn leave(alloc: Global, memory: &mut Memory, room: usize) -> Result<(), Fail> {
    let value = vec![in alloc; 1u8; 131_056usize.saturating_sub(room)]?;
    memory.put_property(value.as_slice())?;
    Ok(())
}

/// Whether a tree finds no room in a property region, of which it takes nothing then.
fn finds_no_room(alloc: Global, memory: &mut Memory) -> bool {
    let refused = Tree::new(alloc, memory);
    matches!(&refused, Err(NodeFault::PropertyFull)) && memory.property_room() == 36
}

/// The names of the first three nodes take 37 bytes; where there are 36, none is put.
#[test]
fn a_tree_without_room(rt: HostRuntime) -> Result<(), Fail> {
    let mut memory = Memory::new(rt.alloc())?;
    assert!(rt; memory.property_room() == 0x1fff0);
    leave(rt.alloc(), &mut memory, 36)?;
    assert!(rt; memory.property_room() == 36);
    assert!(rt; finds_no_room(rt.alloc(), &mut memory));
    Ok(())
}
