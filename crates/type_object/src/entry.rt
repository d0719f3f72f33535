ghost use Rattle.std.specs.Prelude.{◌≡◌, ◌≤◌, length, true};
ghost use Rattle.object_formats.specs.Tables.{text_of, is_well_formed};
ghost use Rattle.object_formats.specs.View as view;

use object_formats::TypeObject;
use xt_lists::Text;

/// A text and its object.
#[derive(Drop)]
pub(crate) struct Entry {
    pub(crate) octets: Text,
    pub(crate) object: TypeObject,
    ghost text: { octets ≡ text_of (view.object object) },
    ghost well_formed: { is_well_formed (view.object object) ≡ true },
    ghost short: { length octets ≤ 131072 },
}

/// What becomes of a text that is added, if it is an object's.
#[derive(Clone, Copy, PartialEq, Eq)]
pub(crate) enum Placed {
    /// It is there already.
    Present,
    /// Another text has its identifier.
    Clash,
    /// There is no room for it.
    Full,
    /// It is added.
    Free,
}
