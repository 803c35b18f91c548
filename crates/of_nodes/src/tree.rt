ghost use Rattle.std.specs.Prelude.{◌≡◌, ◌<◌, ◌≤◌, ◌+◌, ◌-◌, ◌⊎◌, ◌∷◌, ◌++◌, [], List, max, length, drop};
ghost use Rattle.std.specs.Prelude.{take, nat_le, codes};
ghost use Rattle.std.specs.Prelude.{option_map};
ghost use Rattle.std.specs.Prelude.{Ok, Err, IfErr, IfOk, IfSome, MatchResult, OnErr, OnOk, vec_capacity, vec_len};
ghost use Rattle.std.specs.Option.{option_or};
ghost use Rattle.of_nodes.specs.Lookup.{found, package_found, way_found};
ghost use Rattle.of_nodes.specs.Nodes.{AreNodes, AreRooted, after_found, behind_in, child_from, child_found};
ghost use Rattle.of_nodes.specs.Nodes.{first_tree, method_added, method_found};
ghost use Rattle.of_nodes.specs.Nodes.{method_placed, method_taken_back, most_nodes, named_child, next_found};
ghost use Rattle.of_nodes.specs.Nodes.{node_added, node_at, number_of, parent_found, peer_found, property_deleted};
ghost use Rattle.of_nodes.specs.Nodes.{properties_counted, property_found, property_placed, then_child};
ghost use Rattle.of_nodes.specs.Nodes.{tree_property_set};
ghost use Rattle.of_cells.specs.Outcomes.{Answers, MayAnswer, MayBecome};
ghost use Rattle.of_nodes.specs.Outcomes.{IsForMemory};
ghost use Rattle.of_nodes.specs.Paths.{cells_found, component_found, path_found};

use crate::components::address_cells;
use crate::fault::NodeFault;
use crate::lookup::{Age, found_below, found_by};
use crate::methods::{Methods, is_method_name};
use crate::names::may_hold;
use crate::paths::{push_component, push_path};
use crate::phandles::Phandle;
use crate::properties::{Place, Properties, Property};
use of_cells::Cell;
use of_memory::Memory;
use std::alloc::Global;
use std::marker::Model;

/// The most nodes that are ever made.
const MOST_NODES: usize = 1024;

/// The number of `/`.
const ROOT: usize = 0;

/// The number of `/packages`.
const PACKAGES: usize = 1;

/// How many bytes of the property region the names of the first three nodes take: each begins at a multiple
/// of 4, behind the name `name`.
const FIRST_NAMES: usize = 37;

/// A node of the device tree (IEEE 1275-1994, 3.2.1).
#[derive(Drop)]
pub struct Node {
    /// The number of the node above it; the root's is its own.
    pub parent: usize,
    /// Its properties.
    pub properties: Properties,
    /// Its methods.
    pub methods: Methods,
}

/// The nodes of a device tree by their numbers, the root first.
#[derive(Drop)]
pub struct Tree {
    nodes: Vec<Node>,
    alloc: Global,
}

impl Model for Tree {
    ghost use Rattle.std.specs.Prelude.{List};
    ghost use Rattle.of_nodes.specs.declared.tree.Node.{Node};
    ghost use Rattle.of_nodes.specs.Nodes.{AreNodes};

    ghost Value = { List Node };

    ghost view = { λ t. t.nodes.items };

    ghost invariant = { λ t. AreNodes t.nodes.items };
}

/// The first node from a number on, the root left out, that has the parent.
fn next_child(nodes: &[Node], from: usize, parent: usize) -> Option<usize>
    ensures value { result ≡ child_from from (drop from nodes.now) parent }
    ensures within { IfSome result (λ i. i < length nodes.now) }
{
    for i in from..nodes.len() {
        if nodes[i].parent == parent {
            return Some(i);
        }
    }
    None
}

/// The node of a number.
#[tactic(auto, using(crate::proofs::NodeLists::node_read))]
pub(crate) fn node_at(nodes: &[Node], number: usize) -> &Node
    requires { number < length nodes.now }
    ensures { result.now ≡ node_at nodes.now number }
{
    &nodes[number]
}

/// The node behind all that is below one, which is at most so many levels below the root, if there is one.
#[tactic(auto, using(crate::proofs::NodeLists::parent_within))]
fn behind_all(nodes: &[Node], most: usize, number: usize) -> Option<usize>
    requires nodes { AreNodes nodes.now }
    requires within { number < length nodes.now }
    ensures value { result ≡ behind_in nodes.now most number }
    ensures within { IfSome result (λ i. i < length nodes.now) }
{
    if most == 0 || number == 0 {
        return None;
    }
    let parent = node_at(nodes, number).parent;
    match next_child(nodes, number + 1, parent) {
        Some(peer) => Some(peer),
        None => behind_all(nodes, most - 1, parent),
    }
}

/// The next node in preorder, if there is one.
fn next_node(nodes: &[Node], number: usize) -> Option<usize>
    requires nodes { AreNodes nodes.now }
    requires within { number < length nodes.now }
    ensures value { result ≡ option_or (child_from 1 (drop 1 nodes.now) number) (behind_in nodes.now number number) }
    ensures within { IfSome result (λ i. i < length nodes.now) }
{
    match next_child(nodes, 1, number) {
        Some(child) => Some(child),
        None => behind_all(nodes, number, number),
    }
}

/// Whether there are as many nodes as are ever made.
fn are_all(nodes: &[Node]) -> bool
    ensures { result ≡ nat_le most_nodes (length nodes.now) }
{
    nodes.len() >= MOST_NODES
}

/// Makes a node with a name, for which there is room.
#[tactic(auto, using(crate::proofs::NodeLists::rooted_more, crate::proofs::FirstTree::named))]
fn push_named(
    nodes: &mut Vec<Node>,
    alloc: Global,
    memory: &mut Memory,
    name: Place,
    value: &[u8],
) -> Result<(), NodeFault>
    requires room { vec_len nodes.old < vec_capacity nodes.old }
    requires name { name ≡ codes "name" }
    requires rooted { AreRooted 0 nodes.old.items }
    ensures made { OnOk result
        (named_child nodes.old.items memory.old 0 value.now ≡ Ok (nodes.new.items, memory.new)) }
    ensures refused { IfErr result (λ e. named_child nodes.old.items memory.old 0 value.now ≡ Err e) }
    ensures unchanged { OnErr result (memory.new ≡ memory.old) }
    ensures still_rooted { OnOk result (AreRooted 0 nodes.new.items) }
    ensures len { OnOk result (vec_len nodes.new ≡ vec_len nodes.old + 1) }
    ensures capacity { OnOk result (vec_capacity nodes.new ≡ vec_capacity nodes.old) }
{
    let properties = name.filled(memory, value)?;
    let methods = Methods::new(alloc);
    nodes.push_reserved(Node {
        parent: ROOT,
        properties,
        methods,
    });
    Ok(())
}

/// Places for the names of the first three nodes, taken before anything changes.
#[derive(Drop)]
struct FirstNames {
    root: Place,
    packages: Place,
    slot: Place,
}

impl FirstNames {
    /// Places for the property `name`, three times; NoMemory.
    fn new(alloc: Global) -> Result<FirstNames, NodeFault>
        ensures root { IfOk result (λ p. p.root ≡ codes "name") }
        ensures packages { IfOk result (λ p. p.packages ≡ codes "name") }
        ensures slot { IfOk result (λ p. p.slot ≡ codes "name") }
        ensures refused { IfErr result (λ e. e ≡ NodeFault.NoMemory) }
    {
        let root = Place::new(alloc, b"name")?;
        let packages = Place::new(alloc, b"name")?;
        let slot = Place::new(alloc, b"name")?;
        Ok(FirstNames {
            root,
            packages,
            slot,
        })
    }
}

/// Makes `/packages` and `/slot`, for which there is room.
#[tactic(auto, using(crate::proofs::FirstTree::thens))]
fn push_packages(
    nodes: &mut Vec<Node>,
    alloc: Global,
    memory: &mut Memory,
    packages: Place,
    slot: Place,
) -> Result<(), NodeFault>
    requires room { vec_len nodes.old + 1 < vec_capacity nodes.old }
    requires packages { packages ≡ codes "name" }
    requires slot { slot ≡ codes "name" }
    requires rooted { AreRooted 0 nodes.old.items }
    ensures made { let first = named_child nodes.old.items memory.old 0 (codes "packages" ++ 0 ∷ []) in
        OnOk result (then_child first (codes "slot" ++ 0 ∷ []) ≡ Ok (nodes.new.items, memory.new)) }
    ensures refused { let first = named_child nodes.old.items memory.old 0 (codes "packages" ++ 0 ∷ []) in
        IfErr result (λ e. then_child first (codes "slot" ++ 0 ∷ []) ≡ Err e) }
    ensures still_rooted { OnOk result (AreRooted 0 nodes.new.items) }
    ensures len { OnOk result (vec_len nodes.new ≡ vec_len nodes.old + 2) }
{
    push_named(nodes, alloc, memory, packages, b"packages\0")?;
    push_named(nodes, alloc, memory, slot, b"slot\0")?;
    Ok(())
}

/// Makes the first three nodes, for which there is room.
#[tactic(auto, using(crate::proofs::FirstTree::first_thens))]
fn push_first(
    nodes: &mut Vec<Node>,
    alloc: Global,
    memory: &mut Memory,
    names: FirstNames,
) -> Result<(), NodeFault>
    requires room { vec_len nodes.old + 2 < vec_capacity nodes.old }
    requires none { nodes.old.items ≡ [] }
    requires root { names.root ≡ codes "name" }
    requires packages { names.packages ≡ codes "name" }
    requires slot { names.slot ≡ codes "name" }
    ensures made { OnOk result (first_tree memory.old ≡ Ok (nodes.new.items, memory.new)) }
    ensures refused { IfErr result (λ e. first_tree memory.old ≡ Err e) }
    ensures nodes { OnOk result (AreNodes nodes.new.items) }
{
    push_named(nodes, alloc, memory, names.root, b"board\0")?;
    push_packages(nodes, alloc, memory, names.packages, names.slot)
}

impl Tree {
    /// The tree at first: `/`, which has the name `board`, and its children `/packages` and `/slot`.
    ///
    /// PropertyFull, if the names don't fit into the property region; or NoMemory. Then nothing changes, in
    /// memory either.
    #[tactic(auto, using(crate::proofs::FirstTree::refusals))]
    pub fn new(alloc: Global, memory: &mut Memory) -> Result<Tree, NodeFault>
        ensures made { IfOk result (λ t. first_tree memory.old ≡ Ok (t, memory.new)) }
        ensures refused { IfErr result (λ e. (e ≡ NodeFault.NoMemory) ⊎ (first_tree memory.old ≡ Err e)) }
        ensures unchanged { OnErr result (memory.new ≡ memory.old) }
    {
        let mut nodes = Vec::with_capacity(alloc, 3)?;
        let names = FirstNames::new(alloc)?;
        if memory.property_room() < FIRST_NAMES {
            return Err(NodeFault::PropertyFull);
        }
        // There is room, so none is refused.
        push_first(&mut nodes, alloc, memory, names)?;
        Ok(Tree { nodes, alloc })
    }

    /// The number of the node with a phandle.
    ///
    /// NoNode, if there is no such node.
    fn number_of(&self, node: Phandle) -> Result<usize, NodeFault>
        ensures found { IfOk result (λ i. number_of (length self.now) node ≡ Some i) }
        ensures none { IfErr result (λ e. (e ≡ NodeFault.NoNode) × (number_of (length self.now) node ≡ None)) }
        ensures within { IfOk result (λ i. i < length self.now) }
    {
        match node.number(self.nodes.len()) {
            Some(number) => Ok(number),
            None => Err(NodeFault::NoNode),
        }
    }

    /// How many nodes there are: the first three at least and at most 1,024, each made after the one above it.
    pub fn node_count(&self) -> usize
        ensures count { result ≡ length self.now }
        ensures nodes { AreNodes self.now }
    {
        self.nodes.as_slice().len()
    }

    /// The node above a node; the root has none.
    ///
    /// NoNode, if there is no such node.
    #[tactic(auto, using(crate::proofs::NodeLists::parent_small))]
    pub fn parent(&self, node: Phandle) -> Result<Option<Phandle>, NodeFault>
        ensures { result ≡ parent_found self.now node }
    {
        let number = self.number_of(node)?;
        if number == 0 {
            return Ok(None);
        }
        Ok(Some(Phandle::of(node_at(&self.nodes, number).parent)))
    }

    /// The oldest child of a node, if it has one (IEEE 1275-1994, annex A, `child`).
    ///
    /// NoNode, if there is no such node.
    pub fn child(&self, node: Phandle) -> Result<Option<Phandle>, NodeFault>
        ensures { result ≡ child_found self.now node }
    {
        let number = self.number_of(node)?;
        match next_child(&self.nodes, 1, number) {
            Some(child) => Ok(Some(Phandle::of(child))),
            None => Ok(None),
        }
    }

    /// The next younger child of the same parent, if there is one (IEEE 1275-1994, annex A, `peer`); the
    /// root has none.
    ///
    /// NoNode, if there is no such node.
    pub fn peer(&self, node: Phandle) -> Result<Option<Phandle>, NodeFault>
        ensures { result ≡ peer_found self.now node }
    {
        let number = self.number_of(node)?;
        if number == 0 {
            return Ok(None);
        }
        let parent = node_at(&self.nodes, number).parent;
        match next_child(&self.nodes, number + 1, parent) {
            Some(peer) => Ok(Some(Phandle::of(peer))),
            None => Ok(None),
        }
    }

    /// The next node in preorder, if there is one: the oldest child, or else the node behind all that is below
    /// this one.
    ///
    /// NoNode, if there is no such node.
    pub fn after(&self, node: Phandle) -> Result<Option<Phandle>, NodeFault>
        ensures { result ≡ after_found self.now node }
    {
        let number = self.number_of(node)?;
        match next_node(&self.nodes, number) {
            Some(next) => Ok(Some(Phandle::of(next))),
            None => Ok(None),
        }
    }

    /// Makes a node without properties and methods, the last child of its parent.
    ///
    /// NoNode, if the parent is none; TooManyNodes, if there are 1,024; or NoMemory. Then nothing changes.
    #[tactic(auto, using(crate::proofs::NodeLists::added))]
    pub fn add_node(&mut self, parent: Phandle) -> Result<Phandle, NodeFault>
        ensures outcome { MayAnswer IsForMemory (node_added self.old parent) self.old self.new result }
        ensures more { OnOk result (3 < length self.new) }
    {
        let count = self.nodes.len();
        let parent = self.number_of(parent)?;
        if are_all(&self.nodes) {
            return Err(NodeFault::TooManyNodes);
        }
        let properties = Properties::new(self.alloc);
        let methods = Methods::new(self.alloc);
        self.nodes.push(Node {
            parent,
            properties,
            methods,
        })?;
        Ok(Phandle::of(count))
    }

    /// Takes back the node that was made last, which is none of the first three.
    #[tactic(auto, using(crate::proofs::NodeLists::taken_back))]
    pub fn take_back_node(&mut self)
        requires { 3 < length self.old }
        ensures { self.new ≡ take (length self.old - 1) self.old }
    {
        self.nodes.truncate(self.nodes.len() - 1);
    }

    /// The property of a node, if it has one of the name.
    ///
    /// NoNode, if there is no such node.
    pub fn property(&self, node: Phandle, name: &[u8]) -> Result<Option<Property>, NodeFault>
        ensures { result ≡ property_found self.now node name.now }
    {
        let number = self.number_of(node)?;
        Ok(node_at(&self.nodes, number).properties.get(name))
    }

    /// The property of a node behind that of the name, or its first where the name is empty, if there is
    /// one (IEEE 1275-1994, annex A, `next-property`).
    ///
    /// NoNode, if there is no such node.
    pub fn next_property(&self, node: Phandle, name: &[u8]) -> Result<Option<Property>, NodeFault>
        ensures { result ≡ next_found self.now node name.now }
    {
        let number = self.number_of(node)?;
        Ok(node_at(&self.nodes, number).properties.next(name))
    }

    /// How many properties a node has.
    ///
    /// NoNode, if there is no such node.
    pub fn property_count(&self, node: Phandle) -> Result<usize, NodeFault>
        ensures { result ≡ properties_counted self.now node }
    {
        let number = self.number_of(node)?;
        Ok(node_at(&self.nodes, number).properties.count())
    }

    /// The property at a place in the order of a node, the first at 0, if it has so many.
    ///
    /// NoNode, if there is no such node.
    pub fn property_at(&self, node: Phandle, place: usize) -> Result<Option<Property>, NodeFault>
        ensures { result ≡ property_placed self.now node place }
    {
        let number = self.number_of(node)?;
        Ok(node_at(&self.nodes, number).properties.at(place))
    }

    /// Sets a property of a node to a value (IEEE 1275-1994, annex A, `property`), which is copied into
    /// the property region, after its name if the property is new. A property that is there keeps its
    /// place.
    ///
    /// NoNode, if there is no such node; BadName, if the name isn't good, or it is `name` and the value
    /// isn't a good name and one zero byte; PropertyFull, if the bytes don't fit; or NoMemory. Then
    /// nothing changes, in memory either.
    pub fn set_property(
        &mut self,
        memory: &mut Memory,
        node: Phandle,
        name: &[u8],
        value: &[u8],
    ) -> Result<(), NodeFault>
        ensures { let after = tree_property_set memory.old self.old node name.now value.now in
            MayBecome IsForMemory after (self.old, memory.old) (self.new, memory.new) result }
    {
        let number = self.number_of(node)?;
        if !may_hold(name, value) {
            return Err(NodeFault::BadName);
        }
        let node = &mut self.nodes[number];
        node.properties.set(self.alloc, memory, name, value)
    }

    /// Takes a property out of a node, if it has one of the name (IEEE 1275-1994, annex A,
    /// `delete-property`). The others keep their order.
    ///
    /// NoNode, if there is no such node; then nothing changes.
    pub fn delete_property(&mut self, node: Phandle, name: &[u8]) -> Result<(), NodeFault>
        ensures { Answers (property_deleted self.old node name.now) self.old self.new result }
    {
        let number = self.number_of(node)?;
        let node = &mut self.nodes[number];
        node.properties.remove(name);
        Ok(())
    }

    /// The execution token of the method of a node, if it has one of the name, whatever the case of ASCII
    /// letters (IEEE 1275-1994, annex A, `find-method`).
    ///
    /// NoNode, if there is no such node.
    pub fn method(&self, node: Phandle, name: &[u8]) -> Result<Option<Cell>, NodeFault>
        ensures { result ≡ method_found self.now node name.now }
    {
        let number = self.number_of(node)?;
        Ok(node_at(&self.nodes, number).methods.get(name))
    }

    /// The name, in lower case, and the execution token of the method at a place in the order of a node, the
    /// first at 0, if it has so many.
    ///
    /// NoNode, if there is no such node.
    pub fn method_at(&self, node: Phandle, place: usize) -> Result<Option<(&[u8], Cell)>, NodeFault>
        ensures { MatchResult result
            (λ found. method_placed self.now node place ≡ Ok (option_map (λ e. (e.0.now, e.1)) found))
            (λ fault. method_placed self.now node place ≡ Err fault) }
    {
        let number = self.number_of(node)?;
        Ok(node_at(&self.nodes, number).methods.at(place))
    }

    /// Makes a word the method of a name of a node. A name that is there keeps its place.
    ///
    /// NoNode, if there is no such node; BadName, if the name doesn't have 1 to 31 bytes; or NoMemory.
    /// Then nothing changes.
    pub fn add_method(&mut self, node: Phandle, name: &[u8], xt: Cell) -> Result<(), NodeFault>
        ensures { MayBecome IsForMemory (method_added self.old node name.now xt) self.old self.new result }
    {
        let number = self.number_of(node)?;
        if !is_method_name(name) {
            return Err(NodeFault::BadName);
        }
        let node = &mut self.nodes[number];
        node.methods.set(self.alloc, name, xt)
    }

    /// Undoes the latest `add_method`, of this name and node, where the name had this method before, if any.
    ///
    /// Where there is no such node, or the name can't be a method's, nothing changes.
    pub fn take_back_method(&mut self, node: Phandle, name: &[u8], before: Option<Cell>)
        ensures value { self.new ≡ method_taken_back self.old node name.now before }
        ensures undone { (t : List Node) (xt : Cell) → method_found t node name.now ≡ Ok before
            → method_added t node name.now xt ≡ Ok self.old → self.new ≡ t }
    {
        let Ok(number) = self.number_of(node) else {
            return;
        };
        if is_method_name(name) {
            let node = &mut self.nodes[number];
            node.methods.take_back(name, before);
        }
    }

    /// The path of a node: `/` and, from the root's child on down, the components with `/` between. A
    /// component is the node's name, and `@` and its unit address if it has one (IEEE 1275-1994, 3.2.1.1).
    ///
    /// NoNode, if there is no such node; or NoMemory.
    pub fn path_of(&self, memory: &Memory, node: Phandle) -> Result<Vec<u8>, NodeFault>
        ensures found { IfOk result (λ path. path_found memory.now self.now node ≡ Ok path.items) }
        ensures refused { IfErr result (λ e. (e ≡ NodeFault.NoMemory)
            ⊎ (path_found memory.now self.now node ≡ Err e)) }
    {
        let number = self.number_of(node)?;
        let mut path = Vec::new(self.alloc);
        if number == 0 {
            path.push(b'/')?;
        }
        push_path(memory, &self.nodes, number, number, &mut path)?;
        Ok(path)
    }

    /// How a node stands in a path: its name, and `@` and its unit address if it has one (IEEE 1275-1994,
    /// 3.2.1.1). The root stands in none, and has the empty text.
    ///
    /// NoNode, if there is no such node; or NoMemory.
    #[tactic(auto, using(crate::proofs::NodeLists::parent_within))]
    pub fn component_of(&self, memory: &Memory, node: Phandle) -> Result<Vec<u8>, NodeFault>
        ensures found { IfOk result (λ text. component_found memory.now self.now node ≡ Ok text.items) }
        ensures refused { IfErr result (λ e. (e ≡ NodeFault.NoMemory)
            ⊎ (component_found memory.now self.now node ≡ Err e)) }
    {
        let number = self.number_of(node)?;
        let mut text = Vec::new(self.alloc);
        if number > 0 {
            let node = node_at(&self.nodes, number);
            let above = node_at(&self.nodes, node.parent);
            push_component(memory, above, node, &mut text)?;
        }
        Ok(text)
    }

    /// The node of a path, if there is one (IEEE 1275-1994, 4.3.1). The path begins with `/`; each component
    /// is `name`, `name@unit` or `@unit`, perhaps with `:` and arguments behind, and stands for the oldest
    /// child that it fits.
    pub fn find(&self, memory: &Memory, path: &[u8]) -> Option<Phandle>
        ensures { result ≡ found memory.now self.now path.now }
    {
        if path.len() == 0 || path[0] != b'/' {
            return None;
        }
        match found_below(memory, &self.nodes, Age::Oldest, ROOT, &path[1..]) {
            Some(number) => Some(Phandle::of(number)),
            None => None,
        }
    }

    /// The node that a path leads to from a node on, if there is one. The path doesn't begin with `/`, and the
    /// empty one is the node's own; a component `..` stands for the node above, which the root has none of, and
    /// each other for the oldest child that it fits, as in [`Tree::find`].
    ///
    /// NoNode, if there is no such node.
    pub fn find_from(
        &self,
        memory: &Memory,
        node: Phandle,
        path: &[u8],
    ) -> Result<Option<Phandle>, NodeFault>
        ensures { result ≡ way_found memory.now self.now node path.now }
    {
        let number = self.number_of(node)?;
        match found_by(memory, &self.nodes, number, path) {
            Some(found) => Ok(Some(Phandle::of(found))),
            None => Ok(None),
        }
    }

    /// The node of a path below `/packages`, if there is one (IEEE 1275-1994, annex A, `find-package`). The
    /// path doesn't begin with `/`, and the empty one is that of `/packages`; each component stands for the
    /// newest child that it fits, as in [`Tree::find`].
    pub fn find_package(&self, memory: &Memory, path: &[u8]) -> Option<Phandle>
        ensures { result ≡ package_found memory.now self.now path.now }
    {
        match found_below(memory, &self.nodes, Age::Newest, PACKAGES, path) {
            Some(number) => Some(Phandle::of(number)),
            None => None,
        }
    }

    /// How many cells the addresses of a node's children have: its `#address-cells` if that is 4 bytes that
    /// hold 1 to 4, else 2 (IEEE 1275-1994, annex A, `#address-cells`).
    ///
    /// NoNode, if there is no such node.
    pub fn address_cells(&self, memory: &Memory, node: Phandle) -> Result<usize, NodeFault>
        ensures value { result ≡ cells_found memory.now self.now node }
        ensures few { IfOk result (λ count. count ≤ 4) }
    {
        let number = self.number_of(node)?;
        Ok(address_cells(memory, node_at(&self.nodes, number)))
    }
}
