// The laws of trees by name.
ghost use Rattle.isolation.specs.Named.Laws.{EntersAsItself, GrowthKeeps, IsDoneByName, IsMadeByName, IsSeenByName, ProperIsKnown};

/// The bytes, sizes and text of a tree, and how it stands to another, are functions of the trees by name alone.
pub fn what_is_seen_is_named()
    ensures { IsSeenByName }
{}

/// A known tree by name stays where more names and more shared binaries stand after those that there are.
pub fn growth_keeps_named_trees()
    ensures { GrowthKeeps }
{}

/// A proper tree is known: its atoms and funs have names, its shared binaries bytes.
pub fn proper_trees_are_known()
    ensures { ProperIsKnown }
{}

/// Parts that are picked, maps with a pair more and trees of many places are, by name, what is done to the trees by name.
pub fn what_is_done_is_named()
    ensures { IsDoneByName }
{}

/// What a written term makes is, by name, made of the registers by name, and so is what is wrong with its maps.
pub fn what_is_made_is_named()
    ensures { IsMadeByName }
{}

/// A tree by name that enters a state, its names and byte lists added where they are new, is by name what entered.
pub fn named_trees_enter()
    ensures { EntersAsItself }
{}
