ghost use Rattle.std.specs.Prelude.{◌≡◌, ℕ, ◌-◌, ◌≤◌, [], ◌∷◌, length, Option, slice_index_or};
ghost use Rattle.descent.specs.Reading.{Adds, DescentOf, Filled, Readable, records_after};
ghost use Rattle.growth.specs.Commits.{tree_at};
ghost use Rattle.keys.specs.Digits.{Digits};
ghost use Rattle.keys.specs.declared.comparison.Comparison.{Comparison};
ghost use Rattle.nodes.specs.Tables.{no_node};
ghost use Rattle.nodes.specs.Trees.{records};
ghost use Rattle.search.specs.Walk.{rest};

use crate::descent::Descent;
use growth::commit::{Top, node_at};
use growth::path::Waypoint;
use nodes::node::Node;

/// How many records a walk gave, and whether there are more.
// Kept: both are told, whatever the other is, so `more` is no mark of whether `count` is there.
#[derive(Clone, Copy)]
pub struct Walked {
    pub count: usize,
    pub more: bool,
}

// Puts a record after those in the list; where it has no place left, there are more.
fn put_record(list: &mut [u16], so_far: Walked, number: u16) -> Walked
    ensures { Adds (number ∷ []) list.old so_far list.new result }
{
    let count = so_far.count;
    if count < list.len() {
        list[count] = number;
        Walked {
            count: count + 1,
            more: false,
        }
    } else {
        Walked { count, more: true }
    }
}

// Adds the records of a whole tree.
#[cycle(walk)]
fn walk_below(table: &[Node], top: Top, list: &mut [u16], so_far: Walked) -> Walked
    requires { Readable table.now top.used top.levels top.root }
    ensures { Adds (records top.levels (tree_at table.now top)) list.old so_far list.new result }
{
    if top.levels == 0 || so_far.more {
        return so_far;
    }
    let n = node_at(table, top.root);
    let walked = walk_below(table, top.under(n.children[0]), list, so_far);
    walk_after(table, top, &n, 0, list, walked)
}

// Adds the records after a place of a tree's root, which is this node: whoever has it at hand lends it, so that none is copied twice.
#[cycle(walk)]
#[inline(always)]
fn walk_after(
    table: &[Node],
    top: Top,
    n: &Node,
    place: u8,
    list: &mut [u16],
    so_far: Walked,
) -> Walked
    requires some { 1 ≤ top.levels }
    requires readable { Readable table.now top.used top.levels top.root }
    requires root { n.now ≡ slice_index_or table.now top.root no_node }
    requires few { n.now.count ≤ 7 }
    requires within { place ≤ n.now.count }
    ensures { Adds (records_after table.now (top.levels - 1) top.root place) list.old so_far list.new result }
{
    let (first, end) = (usize::from(place), usize::from(n.count));
    let entries = &n.entries[first..end];
    let children = &n.children[first + 1..=end];
    let mut walked = so_far;
    for (entry, &root) in entries.iter().zip(children) {
        walked = put_record(list, walked, entry.number);
        walked = walk_below(table, top.under(root), list, walked);
    }
    walked
}

/// The first records from where a search ended, the one found or the one above the gap, in ascending order, as many as the list
/// has places for.
// Kept: the list is memory handed in, so how many it took is told beside it.
pub fn walk(table: &[Node], top: Top, descent: &Descent, list: &mut [u16]) -> Walked
    requires deep { top.levels ≤ 7 }
    requires readable { Readable table.now top.used top.levels top.root }
    requires searched { (s : Digits) × ((fetch : ℕ → Option Comparison) × DescentOf s fetch top.levels (tree_at table.now top) descent.now) }
    ensures { (s : Digits) (fetch : ℕ → Option Comparison) → DescentOf s fetch top.levels (tree_at table.now top) descent.now → Filled list.old (rest s fetch top.levels (tree_at table.now top) 0) list.new result }
{
    let mut walked = Walked {
        count: 0,
        more: false,
    };
    // Kept: `h` is a height before it is an index, and the levels of each part are made of it.
    for h in descent.bottom..top.levels {
        let Waypoint { node, place } = descent.path[usize::from(h)];
        let part = Top {
            levels: h + 1,
            root: node,
            ..top
        };
        let n = node_at(table, node);
        walked = walk_after(table, part, &n, place, list, walked);
    }
    walked
}
