use object_formats::{ObjectCase, ObjectMember, TypeIdentifier};
use type_trees::HashId;
use xt_lists::Row;

/// The identifiers of a type: the hashes of its minimal and of its complete object.
#[derive(Debug, Clone, Copy, PartialEq, Eq)]
pub struct Identifiers {
    pub minimal: HashId,
    pub complete: HashId,
}

/// What a type is named by inside minimal and inside complete objects.
#[derive(Drop)]
pub(crate) struct Sides {
    /// Whether no hash stands in it.
    pub(crate) plain: bool,
    pub(crate) minimal: TypeIdentifier,
    pub(crate) complete: TypeIdentifier,
}

/// Members in minimal and in complete objects.
#[derive(Drop)]
pub(crate) struct MemberSides {
    pub(crate) minimal: Row<ObjectMember>,
    pub(crate) complete: Row<ObjectMember>,
}

/// Cases in minimal and in complete objects.
#[derive(Drop)]
pub(crate) struct CaseSides {
    pub(crate) minimal: Row<ObjectCase>,
    pub(crate) complete: Row<ObjectCase>,
}
