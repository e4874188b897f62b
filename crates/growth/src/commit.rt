ghost use Rattle.std.specs.Prelude.{◌≡◌, ◌+◌, ◌-◌, ◌<◌, ◌≤◌, true, length, slice_index_or};
ghost use Rattle.growth.specs.Commits.{Committed, Entered, Once, Ready, tree_at};
ghost use Rattle.growth.specs.Growth.{need, row};
ghost use Rattle.growth.specs.Paths.{entries_of, followers_of, places_of};
ghost use Rattle.growth.specs.Theorems.{Grows, KeepsFaith};
ghost use Rattle.nodes.specs.Tables.{Packed, held, no_node};
ghost use Rattle.nodes.specs.Trees.{shaped};

use crate::path::Waypoint;
use crate::plan::{Line, Plan};
use crate::split::{FULL, node_of, put_in, renewed, split_in};
use nodes::node::Node;

/// How a tree stands in a table: its levels, the node of its root, and the nodes in use, which are the table's first.
// Kept: apart from the table, which is borrowed, here to read and there to write; a struct that borrows is two values in a clause.
// Kept: no invariant says that it has 7 levels at most, since growth may give one more.
#[derive(Clone, Copy)]
pub struct Top {
    pub levels: u8,
    pub root: u16,
    pub used: u16,
}

impl Top {
    /// The tree one level below, with its root at this node.
    pub fn under(self, root: u16) -> Top
        requires { 1 ≤ self.levels }
        ensures { result ≡ record { levels = self.levels - 1; root = root; used = self.used } }
    {
        Top {
            levels: self.levels - 1,
            root,
            ..self
        }
    }
}

/// What a plan written into a tree gives: the node to the right of what rises, if something does, and the nodes in use.
#[derive(Clone, Copy)]
pub struct Rise {
    pub right: Option<u16>,
    pub used: u16,
}

/// The node `at`, which is in use.
pub fn node_at(table: &[Node], at: u16) -> Node
    requires within { at < length table.now }
    requires packs { Packed (slice_index_or table.now at no_node) }
    ensures value { result ≡ slice_index_or table.now at no_node }
    ensures few { result.count ≤ 7 }
    ensures long { result.count ≡ length (held result) }
{
    table[usize::from(at)]
}

/// Writes a plan into a tree at the places of a path, from the leaf up. A tree under another stands under a top of its own.
pub fn commit_below(table: &mut [Node], top: Top, path: &[Waypoint], plan: &Plan) -> Rise
    requires deep { top.levels ≤ 7 }
    requires placed { top.levels ≤ length path.now }
    requires ready { Ready table.old top.used (places_of path.now) top.levels top.root }
    requires room { top.used + (row (places_of path.now) top.levels (tree_at table.old top)).nodes ≤ length table.old }
    ensures { Entered table.old table.new top.used (entries_of plan.now) (followers_of plan.now) (places_of path.now) top.levels top.root result.right result.used }
{
    if top.levels == 0 {
        return Rise {
            right: Some(0),
            used: top.used,
        };
    }
    let levels = top.levels - 1;
    let h = usize::from(levels);
    let place = usize::from(path[h].place);
    let Line { entry, follower } = plan.lines[h];
    let n = node_at(table, top.root);
    let root = n.children[place];
    let below = commit_below(table, top.under(root), path, plan);
    let Some(right) = below.right else {
        return below;
    };
    let fresh = below.used;
    let m = renewed(&n, place, follower);
    if n.count < FULL {
        table[usize::from(top.root)] = put_in(&m, place, entry, right);
        return Rise {
            right: None,
            used: fresh,
        };
    }
    let halves = split_in(&m, place, entry, right);
    table[usize::from(top.root)] = halves.left;
    table[usize::from(fresh)] = halves.right;
    Rise {
        right: Some(fresh),
        used: fresh + 1,
    }
}

/// Writes a plan into a whole tree. Where something rises from the root it goes to a new root, which takes its node last.
pub fn commit(table: &mut [Node], top: Top, path: &[Waypoint], plan: &Plan) -> Top
    requires deep { top.levels ≤ 7 }
    requires placed { top.levels ≤ length path.now }
    requires ready { Ready table.old top.used (places_of path.now) top.levels top.root }
    requires room { top.used + need (places_of path.now) top.levels (tree_at table.old top) ≤ length table.old }
    ensures written { Committed table.old table.new top (entries_of plan.now) (followers_of plan.now) (places_of path.now) result }
    ensures once { Once table.old top → Once table.new result }
    ensures shape { shaped top.levels 1 (tree_at table.old top) ≡ true → shaped result.levels 1 (tree_at table.new result) ≡ true }
    ensures growth { Grows table.old table.new top (entries_of plan.now) (followers_of plan.now) (places_of path.now) result }
    ensures faith { KeepsFaith table.old table.new top (entries_of plan.now) (followers_of plan.now) (places_of path.now) result }
{
    let rise = commit_below(table, top, path, plan);
    let last = rise.used;
    let Some(right) = rise.right else {
        return Top { used: last, ..top };
    };
    let entry = plan.lines[usize::from(top.levels)].entry;
    table[usize::from(last)] = node_of(&[entry], &[top.root, right]);
    Top {
        levels: top.levels + 1,
        root: last,
        used: last + 1,
    }
}
