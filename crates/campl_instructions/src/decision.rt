//! Decisions.
use sqlite_items::Items;

/// What a test asks of a value.
#[derive(Clone, Copy, Debug, PartialEq, Eq)]
pub enum Head {
    Int(i64),
    Char(char),
    Truth(bool),
    Nil,
    Cell,
    Pair,
    /// A constructor's number and its number of parts.
    Built(u32, u32),
}

/// A place in values: a value's number, and then numbers of parts, all from 0.
pub type Spot = Items<u32>;

/// A node of a decision's tree. The nodes behind it go by how many stand between: 0 is the next one. One that isn't there is
/// as good as `Fail`.
pub enum Node {
    /// The row with this number, and the place of each of its variables.
    Row(u32, Items<Spot>),
    /// A test of the value at a place, with the node behind it for yes and that for no.
    Test(Spot, Head, u32, u32),
    /// No row.
    Fail,
}

impl Drop for Node {
    fn drop(self) {
        match self {
            Node::Row(_, spots) => drop(spots),
            Node::Test(spot, _, _, _) => drop(spot),
            Node::Fail => {}
        }
    }
}

/// Finds a row for values.
#[derive(Drop)]
pub struct Decision {
    /// The number of values.
    pub width: u32,
    /// The number of variables of each row.
    pub bound: Items<u32>,
    /// The tree, whose root is the first node.
    pub nodes: Items<Node>,
}
