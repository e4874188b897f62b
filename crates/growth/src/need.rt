ghost use Rattle.std.specs.Prelude.{◌≡◌, ℕ, ◌≤◌, List, length};
ghost use Rattle.growth.specs.Commits.{need_way};
ghost use Rattle.growth.specs.Growth.{need};
ghost use Rattle.growth.specs.Paths.{nodes_of};
ghost use Rattle.growth.specs.Routes.{Along, PathIn, way};
ghost use Rattle.nodes.specs.Trees.{Tree};

use crate::path::Waypoint;
use crate::split::FULL;
use nodes::node::Node;

/// The nodes that an entry at the end of a path takes: one for each full node in an unbroken row from the leaf up, and one more if
/// that row includes the root, or there is none.
pub fn need_nodes(table: &[Node], path: &[Waypoint]) -> u16
    requires deep { length path.now ≤ 7 }
    requires known { PathIn table.now (nodes_of path.now) }
    ensures value { result ≡ need_way (way table.now (nodes_of path.now)) (length path.now) }
    ensures law { (ps : List ℕ) (t : Tree (length path.now)) → Along (way table.now (nodes_of path.now)) ps (length path.now) t → result ≡ need ps (length path.now) t }
    ensures few { result ≤ 8 }
{
    for (h, waypoint) in path.iter().enumerate() {
        if table[usize::from(waypoint.node)].count < FULL {
            return h as u16;
        }
    }
    path.len() as u16 + 1
}
