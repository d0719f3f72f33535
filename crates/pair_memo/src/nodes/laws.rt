ghost use Rattle.std.specs.Prelude.{◌≡◌, Ok, true};
ghost use Rattle.object_formats.specs.Objects.{hash};
ghost use Rattle.pair_memo.specs.nodes.Seen.{is_seen, shape_in};
ghost use Rattle.object_walks.specs.Resolving.{resolved};
ghost use Rattle.type_object.specs.Pools.{Texts};
ghost use Rattle.type_trees.specs.Bridge.{shape};
ghost use Rattle.type_trees.specs.Trees.{Tree};
ghost use Rattle.type_trees.specs.declared.types.HashId.{HashId};

/// An identifier that resolves is seen, with the shape of its type.
#[tactic(auto, using(crate::proofs::OfNodes::Resolved::resolved_seen))]
pub fn resolved_is_seen()
    ensures { (pool : Texts) (id : HashId) (t : Tree) → resolved pool id ≡ Ok t → (is_seen pool (hash id) ≡ true) × (shape_in pool (hash id) ≡ shape t) }
{}
