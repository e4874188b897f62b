ghost use Rattle.std.specs.Prelude.{◌≡◌};
ghost use Rattle.nodes.specs.Tables.{cleared};

use crate::node::{Entry, Node};
use keys::partial::PartialKey;

/// The most nodes of a table that an index uses.
pub const MOST_NODES: usize = 4096;

/// What an unused place of a node holds.
pub const NO_ENTRY: Entry = Entry {
    number: 0,
    partial: PartialKey {
        offset: 0,
        length: 0,
        bits: 0,
    },
};

/// An unused node.
pub const ZERO_NODE: Node = Node {
    count: 0,
    entries: [NO_ENTRY; 7],
    children: [0; 8],
};

/// Takes a table for an index: the nodes that it may use are set to zero, the others stay.
pub fn clear(table: &mut [Node])
    ensures { table.new ≡ cleared table.old }
{
    let most = table.len().min(MOST_NODES);
    table[..most].fill(ZERO_NODE);
}
