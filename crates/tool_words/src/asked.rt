ghost use Rattle.std.specs.Prelude.{◌≡◌, ◌≤◌, true};
ghost use Rattle.type_trees.specs.Ids.{is_object_kind};

use type_trees::HashId;

/// How objects are served: by 1 to 64 workers, which take 0 to 1,000,000 links each.
#[derive(Debug, Clone, Copy, PartialEq, Eq)]
pub struct Service {
    pub workers: u32,
    pub turns: u32,
    ghost some: { 1 ≤ workers },
    ghost few: { workers ≤ 64 },
    ghost turns_within: { turns ≤ 1000000 },
}

/// The identifier of an object, whose kind is 0xF1 or 0xF2.
#[derive(Debug, Clone, Copy, PartialEq, Eq)]
pub struct AskedId {
    pub id: HashId,
    ghost known: { is_object_kind id.kind ≡ true },
}
