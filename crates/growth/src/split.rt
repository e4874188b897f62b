ghost use Rattle.std.specs.Prelude.{◌≡◌, ◌+◌, ◌<◌, ◌≤◌, length, take, drop, slice_set};
ghost use Rattle.nodes.specs.Tables.{held, links, packed};
ghost use Rattle.std.specs.List.{insert};

use crate::shift::{copy_part, shift_in};
use nodes::node::{Entry, Node};
use nodes::table::NO_ENTRY;

/// The records of a full node.
pub const FULL: u8 = 7;

/// Of a full node's records and one more, the first four remain, and the one at this place moves up.
pub const MOVES_UP: usize = 4;

// The place of the first that goes right.
const RIGHT_FROM: usize = 5;

// A node of these entries and links.
pub(crate) fn node_of(entries: &[Entry], links: &[u16]) -> Node
    requires few { length entries.now ≤ 7 }
    requires one_more { length links.now ≡ length entries.now + 1 }
    ensures { result ≡ packed entries.now links.now }
{
    let mut held = [NO_ENTRY; 7];
    let mut children = [0; 8];
    copy_part(entries, 0, entries.len(), NO_ENTRY, &mut held);
    copy_part(links, 0, links.len(), 0, &mut children);
    Node {
        count: entries.len() as u8,
        entries: held,
        children,
    }
}

// All places of a node and one more, for one entry more and the link to its right.
#[derive(Clone, Copy)]
struct Overfull {
    entries: [Entry; 8],
    links: [u16; 9],
}

impl Overfull {
    // Kept: a place, an entry and a link are put together at each call, and nothing carries them on.
    #[inline(always)]
    fn new(n: &Node, i: usize, e: Entry, right: u16) -> Overfull
        requires { i ≤ 7 }
        ensures entries { result.entries ≡ insert n.now.entries i e }
        ensures links { result.links ≡ insert n.now.children (i + 1) right }
        ensures long { (length n.now.entries ≡ 7) × (length n.now.children ≡ 8) }
    {
        let mut entries = [NO_ENTRY; 8];
        let mut links = [0; 9];
        shift_in(&n.entries, i, e, &mut entries);
        shift_in(&n.children, i + 1, right, &mut links);
        Overfull { entries, links }
    }
}

/// A node that is not full, with one entry more and the link to its right.
pub fn put_in(n: &Node, i: usize, e: Entry, right: u16) -> Node
    requires few { n.now.count < 7 }
    requires place { i ≤ n.now.count }
    ensures { result ≡ packed (insert (held n.now) i e) (insert (links n.now) (i + 1) right) }
{
    let wide = Overfull::new(n, i, e, right);
    let count = usize::from(n.count) + 1;
    node_of(&wide.entries[..count], &wide.links[..count + 1])
}

/// A node that was full, in two.
#[derive(Clone, Copy)]
pub struct Halves {
    pub left: Node,
    pub right: Node,
}

/// A full node with one entry more and the link to its right, in two: four entries remain, the fifth is left out, three go
/// right.
pub fn split_in(n: &Node, i: usize, e: Entry, link: u16) -> Halves
    requires full { n.now.count ≡ 7 }
    requires place { i ≤ 7 }
    ensures left { result.left ≡ packed (take 4 (insert (held n.now) i e)) (take 5 (insert (links n.now) (i + 1) link)) }
    ensures right { result.right ≡ packed (drop 5 (insert (held n.now) i e)) (drop 5 (insert (links n.now) (i + 1) link)) }
{
    let wide = Overfull::new(n, i, e, link);
    Halves {
        left: node_of(&wide.entries[..MOVES_UP], &wide.links[..=MOVES_UP]),
        right: node_of(&wide.entries[RIGHT_FROM..], &wide.links[RIGHT_FROM..]),
    }
}

/// The node with another entry at the place, if one is there.
pub fn renewed(n: &Node, i: usize, next: Entry) -> Node
    requires few { n.now.count ≤ 7 }
    requires long { n.now.count ≡ length (held n.now) }
    ensures count { result.count ≡ n.now.count }
    ensures entries { held result ≡ slice_set (held n.now) i next }
    ensures links { links result ≡ links n.now }
{
    let mut m = *n;
    if i < usize::from(n.count) {
        m.entries[i] = next;
    }
    m
}
