use of_cells::Cell;
use of_nodes::Phandle;

/// What a client asks of the device tree (IEEE 1275-1994, 6.3.2.1 and 6.3.2.2). Handles and names are as the client
/// gives them, and may be bad.
#[derive(Drop)]
pub enum ClientCall {
    /// `finddevice`: the phandle of a path.
    FindDevice(Vec<u8>),
    /// `child`: the first child of a node.
    Child(Phandle),
    /// `peer`: the next sibling of a node, or the root for 0.
    Peer(Phandle),
    /// `parent`: the node above one.
    Parent(Phandle),
    /// `getproplen`: how many bytes the value of a property has.
    GetPropLen(Phandle, Vec<u8>),
    /// `getprop`: the value of a property, at most so many bytes of it.
    GetProp(Phandle, Vec<u8>, u32),
    /// `nextprop`: the name of the property behind that of a name, or of the first for the empty name.
    NextProp(Phandle, Vec<u8>),
    /// `instance-to-package`: the phandle of an ihandle's package.
    InstanceToPackage(Cell),
    /// `package-to-path`: the path of a node, at most so many bytes of it.
    PackageToPath(Phandle, u32),
}

/// What a client is answered: a number, and bytes beside it where the service gives some.
#[derive(Drop)]
pub struct ClientReply {
    /// A handle or a length, 1 for a name that was found, 0 for none, or -1 as 0xFFFFFFFF.
    pub number: Cell,
    /// The bytes of a value, a name or a path.
    pub bytes: Vec<u8>,
}
