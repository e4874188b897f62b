ghost use Rattle.growth.specs.Theorems.{EntryFaithful, EntryLawful, EntryPlaced, LevelsBound, LevelsFew, NodesCounted, PlanBuilds, PlanStands, PlanTraces, RecordsFew, TableFaithful};

/// A faithful tree that grows at the place of a key stays faithful.
pub fn growth_keeps_faith()
    ensures { EntryFaithful }
{}

/// Its records are then the old ones, with the new one after those of smaller key.
pub fn growth_keeps_order()
    ensures { EntryPlaced }
{}

/// Over any store, growth keeps the shape lawful, adds the record, takes the nodes that it needs, and fetches at most two
/// records for each level, all of the tree.
pub fn growth_is_lawful()
    ensures { EntryLawful }
{}

/// A tree that grows has as many nodes more as it took.
pub fn growth_counts_nodes()
    ensures { NodesCounted }
{}

/// A tree of L levels has at least 2 × 4^(L − 1) − 1 records.
pub fn levels_want_records()
    ensures { LevelsBound }
{}

/// A tree of at most 4,096 nodes has at most 7 levels.
pub fn levels_are_few()
    ensures { LevelsFew }
{}

/// A tree has at most 7 records for each of its nodes.
pub fn records_are_few()
    ensures { RecordsFew }
{}

/// A plan reads what growth reads.
pub fn plan_reads_as_growth()
    ensures { PlanTraces }
{}

/// The writes by a plan are those of growth, below the root and at it.
pub fn plan_writes_as_growth()
    ensures below { PlanBuilds }
    ensures whole { PlanStands }
{}

/// A plan written into a faithful tree of a table leaves it faithful.
pub fn plan_keeps_faith()
    ensures { TableFaithful }
{}
