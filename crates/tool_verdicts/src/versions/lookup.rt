//! The types of a version by their names.
ghost use Rattle.std.specs.Prelude.{◌≡◌, IfSome};
ghost use Rattle.std.specs.Option.{option_map};
ghost use Rattle.idl_types.specs.State.{declared};
ghost use Rattle.tool_types.specs.Declaring.{AreIdentified, Identifies};
ghost use Rattle.tool_types.specs.names.Names as names;
ghost use Rattle.tool_verdicts.specs.Reports.{tree_of};

use type_resolve::Identifiers;
use type_trees::Named;

/// A type of a version, and its identifiers.
#[derive(Clone, Copy)]
pub(crate) struct VersionType<'a> {
    pub(crate) named: &'a Named,
    pub(crate) ids: Identifiers,
}

/// The first type of that name among types that stand beside their identifiers.
pub(crate) fn type_by_name<'a>(
    name: &[u8],
    types: &'a [Named],
    ids: &[Identifiers],
) -> Option<VersionType<'a>>
    requires { AreIdentified (declared types.now) ids.now }
    ensures found { option_map tree_of result ≡ names.type_by_name name.now (declared types.now) }
    ensures identified { IfSome result (λ found. Identifies (tree_of found) found.ids) }
{
    for (at, named) in types.iter().enumerate() {
        if named.name.octets() == name {
            let ids = ids[at];
            return Some(VersionType { named, ids });
        }
    }
    None
}
