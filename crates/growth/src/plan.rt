use nodes::node::Entry;

/// What an entry is to write at a height: the entry of the record that comes there, and the following one as it becomes.
#[derive(Clone, Copy)]
pub struct Line {
    pub entry: Entry,
    pub follower: Entry,
}

/// What an entry is to write: a line for each height that a record comes to. At a new root nothing follows.
// Kept: fixed memory, with no heap, for 7 levels and a new root.
#[derive(Clone, Copy)]
pub struct Plan {
    pub lines: [Line; 8],
}
