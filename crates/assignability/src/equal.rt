ghost use Rattle.std.specs.Prelude.{◌≡◌, ◌&&◌};
ghost use Rattle.xcdr_model.specs.Equivalence as spec;
ghost use Rattle.type_trees.specs.Bridge.{type_shape, members_shape, cases_shape, member_head, case_head};
ghost use Rattle.xt_shapes.specs.Kinds.{as_array as array_in, as_map as map_in, as_sequence as sequence_in, as_structure as structure_in, as_union as union_in};
ghost use Rattle.type_trees.specs.Parts.{sequence_parts, array_parts, map_parts, structure_parts, union_parts};

use node_judge::{same_case_head, same_dims, same_flags, same_head, same_literals};
use type_trees::{
    Case, Member, XType, as_array, as_enum, as_map, as_mask, as_prim, as_seq, as_str, as_struct,
    as_union,
};

#[cycle(equivalent)]
fn same_member(left: &Member, right: &Member) -> bool
    ensures { result ≡ (spec.same_head (member_head left.now) (member_head right.now) && spec.same_shape (type_shape left.now.ty) (type_shape right.now.ty)) }
{
    same_head(left, right) && equivalent(&left.ty, &right.ty)
}

#[cycle(equivalent)]
fn same_members(left: &[Member], right: &[Member]) -> bool
    ensures { result ≡ spec.same_members (members_shape left.now) (members_shape right.now) }
{
    if left.len() != right.len() {
        return false;
    }
    for at in 0..left.len() {
        if !same_member(&left[at], &right[at]) {
            return false;
        }
    }
    true
}

#[cycle(equivalent)]
fn same_case(left: &Case, right: &Case) -> bool
    ensures { result ≡ (spec.same_case_head (case_head left.now) (case_head right.now) && spec.same_shape (type_shape left.now.ty) (type_shape right.now.ty)) }
{
    same_case_head(left, right) && equivalent(&left.ty, &right.ty)
}

#[cycle(equivalent)]
fn same_cases(left: &[Case], right: &[Case]) -> bool
    ensures { result ≡ spec.same_cases (cases_shape left.now) (cases_shape right.now) }
{
    if left.len() != right.len() {
        return false;
    }
    for at in 0..left.len() {
        if !same_case(&left[at], &right[at]) {
            return false;
        }
    }
    true
}

/// Whether two types are equal behind aliases, in the hashes of names and in all but the names of types.
#[cycle(equivalent)]
#[tactic(auto, using(type_trees::proofs::Views::tree_rules))]
pub fn equivalent(left: &XType, right: &XType) -> bool
    ensures { result ≡ spec.same_shape (type_shape left.now) (type_shape right.now) }
{
    match left {
        XType::Prim(prim) => match as_prim(right) {
            Some(other) => *prim == other,
            None => false,
        },
        XType::Str(bound) => match as_str(right) {
            Some(other) => *bound == other,
            None => false,
        },
        XType::Enum(kind) => match as_enum(right) {
            Some(other) => kind.ext == other.ext
                && kind.bits == other.bits
                && same_literals(kind.literals.as_slice(), other.literals.as_slice()),
            None => false,
        },
        XType::Mask(kind) => match as_mask(right) {
            Some(other) => kind.bits == other.bits
                && same_flags(kind.flags.as_slice(), other.flags.as_slice()),
            None => false,
        },
        XType::Seq(kind) => match as_seq(right) {
            Some(other) => kind.bound == other.bound
                && kind.elem.tc == other.elem.tc
                && equivalent(&kind.elem.ty, &other.elem.ty),
            None => false,
        },
        XType::Array(kind) => match as_array(right) {
            Some(other) => same_dims(kind.dims.as_slice(), other.dims.as_slice())
                && kind.elem.tc == other.elem.tc
                && equivalent(&kind.elem.ty, &other.elem.ty),
            None => false,
        },
        XType::Map(kind) => match as_map(right) {
            Some(other) => kind.bound == other.bound
                && kind.key.tc == other.key.tc
                && equivalent(&kind.key.ty, &other.key.ty)
                && kind.value.tc == other.value.tc
                && equivalent(&kind.value.ty, &other.value.ty),
            None => false,
        },
        XType::Struct(kind) => match as_struct(right) {
            Some(other) => kind.ext == other.ext
                && same_members(kind.members.as_slice(), other.members.as_slice()),
            None => false,
        },
        XType::Union(kind) => match as_union(right) {
            Some(other) => kind.ext == other.ext
                && kind.disc_key == other.disc_key
                && equivalent(&kind.disc, &other.disc)
                && same_cases(kind.cases.as_slice(), other.cases.as_slice()),
            None => false,
        },
        XType::Alias(kind) => equivalent(&kind.ty, right),
    }
}
