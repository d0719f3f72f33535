ghost use Rattle.std.specs.Prelude.{◌≡◌};
ghost use Rattle.object_formats.specs.View as view;
ghost use Rattle.pair_memo.specs.nodes.Seen.{part_in, arm_in};
ghost use Rattle.pair_memo.specs.nodes.Views.{part_view, arm_view};

use object_formats::{ObjectCase, ObjectMember, TypeIdentifier};
use object_walks::{has_flag, try_of};
use type_trees::name_number;
use xt_shapes::Try;

/// A member of a structure, with its name hashed and the identifier of its type.
#[derive(Clone, Copy)]
pub struct Part<'p> {
    pub id: u32,
    pub hash: u32,
    pub tc: Try,
    pub optional: bool,
    pub must_understand: bool,
    pub key: bool,
    pub ty: &'p TypeIdentifier,
}

/// A case of a union, likewise.
#[derive(Clone, Copy)]
pub struct Arm<'p> {
    pub id: u32,
    pub hash: u32,
    pub tc: Try,
    pub labels: &'p [i32],
    pub is_default: bool,
    pub ty: &'p TypeIdentifier,
}

pub(crate) fn part_of<'p>(member: &'p ObjectMember) -> Part<'p>
    ensures { part_view result ≡ part_in (view.member member.now) }
{
    Part {
        id: member.id,
        hash: name_number(&member.name),
        tc: try_of(member.flags),
        optional: has_flag(member.flags, 0x08),
        must_understand: has_flag(member.flags, 0x10),
        key: has_flag(member.flags, 0x20),
        ty: &member.ty,
    }
}

pub(crate) fn arm_of<'p>(case: &'p ObjectCase) -> Arm<'p>
    ensures { arm_view result ≡ arm_in (view.case case.now) }
{
    Arm {
        id: case.id,
        hash: name_number(&case.name),
        tc: try_of(case.flags),
        labels: case.labels.as_slice(),
        is_default: has_flag(case.flags, 0x40),
        ty: &case.ty,
    }
}
