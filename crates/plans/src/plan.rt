ghost use Rattle.std.specs.Prelude.{◌≤◌, length};
ghost use Rattle.growth.specs.Paths.{nodes_of, places_of};
ghost use Rattle.growth.specs.Routes.{way};
ghost use Rattle.plans.specs.Planning.{ItsKey, Passable, Plans};

use crate::entry::entry_at;
use crate::step::{following, moved_up, refill};
use growth::path::Waypoint;
use growth::plan::{Line, Plan};
use growth::split::FULL;
use keys::key::WIDEST;
use nodes::node::Node;
use nodes::shape::Shape;
use nodes::table::NO_ENTRY;
use search::neighbour::Neighbour;
use store::reading::{Missing, ReadingStore};

/// What is entered: a record with its key, the offset of that to the key before its place, the shape of the index, and the nodes
/// that may be in use.
// Kept: that it is the key of its record is asked where it is used, since it is a fact of the store as well.
#[derive(Clone, Copy)]
pub struct Entering<'a> {
    pub number: u16,
    pub key: &'a [u8],
    pub offset: u16,
    pub shape: Shape,
    pub limit: u16,
}

const NOTHING: Plan = Plan {
    lines: [Line {
        entry: NO_ENTRY,
        follower: NO_ENTRY,
    }; 8],
};

/// What an entry at the end of a path is to write, from the leaf up; or the first record that it is to read and that the store
/// lacks.
pub fn make_plan<S: ReadingStore>(
    table: &[Node],
    path: &[Waypoint],
    entering: Entering<'_>,
    store: &mut S,
) -> Result<Plan, Missing>
    requires deep { length path.now ≤ 7 }
    requires way { Passable table.now (nodes_of path.now) (places_of path.now) (length path.now) }
    requires own { ItsKey (S.ReadingStore.meaning store.old) entering.number entering.key.now }
    ensures { Plans entering.entry.shape.partial (S.ReadingStore.meaning store.old) entering.entry.number entering.entry.offset (way table.now (nodes_of path.now)) (places_of path.now) (length path.now) result (S.ReadingStore.meaning store.new) }
{
    let mut plan = NOTHING;
    let mut up = Neighbour {
        number: entering.number,
        offset: entering.offset,
    };
    let mut buffer = [0; WIDEST];
    let key = &mut buffer[..entering.key.len()];
    key.copy_from_slice(entering.key);
    for (h, waypoint) in path.iter().enumerate() {
        let n = table[usize::from(waypoint.node)];
        let i = usize::from(waypoint.place);
        let entries = &n.entries[..usize::from(n.count)];
        let entry = entry_at(key, up, entering.shape);
        let follower = following(entries, i, up, key, entering.shape, store)?;
        plan.lines[h] = Line { entry, follower };
        if n.count < FULL {
            return Ok(plan);
        }
        up = moved_up(&n.entries, i, entry, follower);
        refill(up.number, entering, key, store)?;
    }
    plan.lines[path.len()].entry = entry_at(key, up, entering.shape);
    Ok(plan)
}
