//! Laws of the definitions, each on a function that does nothing.
ghost use Rattle.match_trees.specs.TreeLaws.{EntryLaws, GrowthLaws, PathLaws, ShareFronts, WayLaws};

/// What each path is.
pub fn path_law<L>()
    ensures { PathLaws L }
{}

/// Ways are of one node each, as their fronts are.
pub fn way_law<L>()
    ensures { WayLaws L }
{}

/// What stood stays where nodes come, and where later nodes are cut.
pub fn growth_law<L>()
    ensures { GrowthLaws L }
{}

/// What stood stays where entries come.
pub fn entry_law()
    ensures { EntryLaws }
{}

/// Two ways share exactly the nodes at which their common fronts end.
pub fn sharing_law<L>()
    ensures { ShareFronts L }
{}
