use keys::partial::PartialKey;

/// A record in a node, with what the node keeps of its key.
#[derive(Clone, Copy, Debug, PartialEq)]
pub struct Entry {
    pub number: u16,
    pub partial: PartialKey,
}

/// A node: 1 to 7 records in key order, and in an inner node one child more than records. Unused places hold zero.
// Kept: arrays with a count beside them, and children by number, since a table is fixed memory that is handed in, whatever it holds.
#[derive(Clone, Copy, Debug, PartialEq)]
pub struct Node {
    pub count: u8,
    pub entries: [Entry; 7],
    pub children: [u16; 8],
}
