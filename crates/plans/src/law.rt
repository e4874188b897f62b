ghost use Rattle.plans.specs.Reads.{EndsAtTheMissing, ReadsAll};

/// Reads of a list of records go through exactly if the store holds them all, and else end at the first that it lacks.
pub fn reads_end_at_the_missing()
    ensures all { ReadsAll }
    ensures first { EndsAtTheMissing }
{}
