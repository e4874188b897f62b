ghost use Rattle.std.specs.Prelude.{◌≡◌, ◌≤◌, length};
ghost use Rattle.growth.specs.Commits.{Ready};
ghost use Rattle.growth.specs.Paths.{nodes_of, places_of};
ghost use Rattle.growth.specs.Routes.{Trail};
ghost use Rattle.plans.specs.Entries.{Enters};
ghost use Rattle.plans.specs.Planning.{ItsKey};

use crate::plan::{Entering, make_plan};
use growth::commit::{Top, commit};
use growth::need::need_nodes;
use growth::path::Waypoint;
use nodes::node::Node;
use store::reading::ReadingStore;
use store::refusal::Refusal;

/// Enters a record at the end of a path. Refused where fewer nodes are unused than needed, and then where the store lacks a
/// record that the entry is to read; nothing is written before that.
pub fn enter_at<S: ReadingStore>(
    table: &mut [Node],
    top: Top,
    path: &[Waypoint],
    entering: Entering<'_>,
    store: &mut S,
) -> Result<Top, Refusal>
    requires deep { top.levels ≤ 7 }
    requires path { length path.now ≡ top.levels }
    requires ready { Ready table.old top.used (places_of path.now) top.levels top.root }
    requires trail { Trail table.old (nodes_of path.now) (places_of path.now) top.levels top.root }
    requires limit { entering.limit ≤ length table.old }
    requires own { ItsKey (S.ReadingStore.meaning store.old) entering.number entering.key.now }
    ensures { Enters entering.entry.shape.partial entering.entry.limit (S.ReadingStore.meaning store.old) entering.entry.number entering.entry.offset table.old top (places_of path.now) result table.new (S.ReadingStore.meaning store.new) }
{
    let wanted = u32::from(top.used) + u32::from(need_nodes(table, path));
    if wanted > u32::from(entering.limit) {
        return Err(Refusal::NodesSpent);
    }
    let planned = make_plan(table, path, entering, store);
    let plan = planned.map_err(|missing| Refusal::PartialKeyMissing(missing.number))?;
    Ok(commit(table, top, path, &plan))
}
