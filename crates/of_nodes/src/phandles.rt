ghost use Rattle.std.specs.Prelude.{◌≡◌, ◌<◌, IfSome};
ghost use Rattle.of_nodes.specs.Nodes.{most_nodes, number_of, phandle_of};

use of_cells::Cell;

/// The phandle of the first node.
const FIRST: u32 = 0xd000_0000;

/// A node's handle (IEEE 1275-1994, 3.2.1): 0xD0000000 and four times the node's number, which counts
/// the nodes made before it.
#[derive(Clone, Copy, Debug, PartialEq, Eq)]
pub struct Phandle(pub Cell);

impl Phandle {
    /// The phandle of the node with a number.
    pub fn of(number: usize) -> Phandle
        requires { number < most_nodes }
        ensures { result ≡ phandle_of number }
    {
        Phandle(Cell(FIRST + 4 * number as u32))
    }

    /// The number of the node, where there are `count` nodes and the phandle is that of one.
    pub(crate) fn number(self, count: usize) -> Option<usize>
        ensures value { result ≡ number_of count self }
        ensures within { IfSome result (λ i. i < count) }
    {
        if self.0.0 < FIRST {
            return None;
        }
        let distance = self.0.0 - FIRST;
        let number = (distance / 4) as usize;
        if distance % 4 == 0 && number < count {
            Some(number)
        } else {
            None
        }
    }
}
