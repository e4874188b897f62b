ghost use Rattle.search.specs.Example.{ExampleStands};
ghost use Rattle.search.specs.NodeLaw.{BitsScanAlike, NodeSearchRight, PlaceSplits};
ghost use Rattle.search.specs.TreeLaw.{Grows, HeadLaw, LookupRight, NamesOwn, ReadsFew, StoreLookupRight, StoreWalkRight, WalkOwn, WalkRight, WinnerRight};

/// In every true node the search finds the key or its place, with the offset to the key under it; the place splits the
/// node's keys into smaller and greater ones; and on bits the scan upward stops at the first offset below its own.
pub fn finds_the_place()
    ensures finds { NodeSearchRight }
    ensures splits { PlaceSplits }
    ensures bits { BitsScanAlike }
{}

/// Over a faithful tree the search and the walk give what the plain list gives, and the winner is the greatest record not
/// above the key that shares the head. Over any tree and store the search fetches at most one key a level, and an answer
/// names records of the tree. A store that grew keeps a tree faithful.
pub fn searches_as_the_list()
    ensures lookup { LookupRight }
    ensures walk { WalkRight }
    ensures store { (StoreLookupRight) × (StoreWalkRight) }
    ensures winner { WinnerRight }
    ensures head { HeadLaw }
    ensures reads { ReadsFew }
    ensures names { (NamesOwn) × (WalkOwn) }
    ensures grows { Grows }
    ensures example { ExampleStands }
{}
