ghost use Rattle.std.specs.Prelude.{◌≡◌};
ghost use Rattle.type_object.specs.References.{is_among};
ghost use Rattle.object_walks.specs.Walking.{ids};

use type_trees::HashId;

/// The identifiers that a place stands in, the innermost first.
#[derive(Drop)]
pub(crate) enum Inside<'a> {
    Nothing,
    Of { id: HashId, within: &'a Inside<'a> },
}

impl Inside<'_> {
    /// Whether the identifier is among them.
    pub(crate) fn has(&self, id: &HashId) -> bool
        ensures { result ≡ is_among id.now (ids self.now) }
    {
        match self {
            Inside::Nothing => false,
            Inside::Of { id: first, within } => id == first || within.has(id),
        }
    }
}
