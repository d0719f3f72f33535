ghost use Rattle.object_walks.specs.Laws as law;

/// What an identifier stands for doesn't depend on where it is met: where it has a tree, it has the same one everywhere.
pub fn tree_is_one()
    ensures { law.TreeIsOne }
{}

/// Where an identifier has a tree, each identifier in its object has one by itself, and the tree is what the object gives with those.
pub fn parts_are_walked()
    ensures { law.PartsAreWalked }
{}

/// What an identifier resolves to is the tree that it is walked to.
pub fn resolved_is_walked()
    ensures { law.ResolvedIsWalked }
{}
