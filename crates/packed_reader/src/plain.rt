// Types whose values can be packed.
ghost use Rattle.std.specs.Prelude.{◌≡◌};
ghost use Rattle.type_trees.specs.Bridge.{type_shape, members_shape, cases_shape};
ghost use Rattle.packed_reader.specs.Plain as spec;

use type_trees::{Case, Member, XType};

#[cycle(packable)]
#[tactic(auto, using(type_trees::proofs::Views::tree_rules))]
fn may_all_be_packed(unions: bool, members: &[Member]) -> bool
    ensures { result ≡ spec.may_all_be_packed unions (members_shape members.now) }
{
    for member in members {
        if !may_be_packed(unions, &member.ty) {
            return false;
        }
    }
    true
}

#[cycle(packable)]
#[tactic(auto, using(type_trees::proofs::Views::tree_rules))]
fn may_each_be_packed(unions: bool, cases: &[Case]) -> bool
    ensures { result ≡ spec.may_each_be_packed unions (cases_shape cases.now) }
{
    for case in cases {
        if !may_be_packed(unions, &case.ty) {
            return false;
        }
    }
    true
}

// Whether values have no map, and no union but where these are taken.
#[cycle(packable)]
#[tactic(auto, using(type_trees::proofs::Views::tree_rules))]
fn may_be_packed(unions: bool, ty: &XType) -> bool
    ensures { result ≡ spec.may_be_packed unions (type_shape ty.now) }
{
    match ty {
        XType::Prim(_) | XType::Str(_) | XType::Enum(_) | XType::Mask(_) => true,
        XType::Seq(kind) => may_be_packed(unions, &kind.elem.ty),
        XType::Array(kind) => may_be_packed(unions, &kind.elem.ty),
        XType::Struct(kind) => may_all_be_packed(unions, kind.members.as_slice()),
        XType::Union(kind) => unions && may_each_be_packed(unions, kind.cases.as_slice()),
        XType::Alias(kind) => may_be_packed(unions, &kind.ty),
        XType::Map(_) => false,
    }
}

/// Whether samples of that type may be plain: none of a type with a map is read by `read_plain`, but where maps are absent or none come. It
/// goes over the type once, so that a caller asks it once a type, and not once a sample.
pub fn may_be_plain(ty: &XType) -> bool
    ensures { result ≡ spec.may_be_plain (type_shape ty.now) }
{
    may_be_packed(true, ty)
}

/// Whether texts of values of that type may be read from a tape of their tokens: none is of a type with a map or a union, but where these
/// are absent or none come. It goes over the type once.
pub fn may_be_taped(ty: &XType) -> bool
    ensures { result ≡ spec.may_be_taped (type_shape ty.now) }
{
    may_be_packed(false, ty)
}
