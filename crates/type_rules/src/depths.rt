ghost use Rattle.std.specs.Prelude.{◌≡◌, ◌∷◌, ◌<◌, ◌≤◌, ◌+◌, length, IfSome};
ghost use Rattle.std.specs.Option.{option_map};
ghost use Rattle.type_rules.specs.Valid as spec;
ghost use Rattle.type_trees.specs.View.{tree, members_tree, cases_tree};

use type_trees::{Case, Member, Path, XType};
use xt_shapes::Step;

#[cycle(deep)]
fn deep_beneath(step: Step, ty: &XType, levels: u32) -> Option<Path>
    requires { levels < 16 }
    ensures value { result ≡ option_map (λ p. step ∷ p) (spec.first_deep levels (tree ty.now)) }
    ensures short { IfSome result (λ p. length p ≤ levels + 1) }
{
    match first_deep(ty, levels) {
        None => None,
        Some(mut path) => {
            path.push_front(step);
            Some(path)
        }
    }
}

#[cycle(deep)]
fn deep_members(members: &[Member], levels: u32) -> Option<Path>
    requires { levels < 16 }
    ensures value { result ≡ spec.deep_members levels (members_tree members.now) }
    ensures short { IfSome result (λ p. length p ≤ levels + 1) }
{
    for member in members {
        if let Some(path) = deep_beneath(Step::Member(member.id), &member.ty, levels) {
            return Some(path);
        }
    }
    None
}

#[cycle(deep)]
fn deep_cases(cases: &[Case], levels: u32) -> Option<Path>
    requires { levels < 16 }
    ensures value { result ≡ spec.deep_cases levels (cases_tree cases.now) }
    ensures short { IfSome result (λ p. length p ≤ levels + 1) }
{
    for case in cases {
        if let Some(path) = deep_beneath(Step::Member(case.id), &case.ty, levels) {
            return Some(path);
        }
    }
    None
}

#[cycle(deep)]
#[tactic(auto, using(type_trees::proofs::Views::tree_rules, crate::proofs::DeepSteps::deep_rules))]
fn deep_inside(ty: &XType, levels: u32) -> Option<Path>
    requires { levels < 16 }
    ensures value { result ≡ spec.deep_inside levels (tree ty.now) }
    ensures short { IfSome result (λ p. length p ≤ levels + 1) }
{
    match ty {
        XType::Prim(_) | XType::Str(_) | XType::Enum(_) | XType::Mask(_) => None,
        XType::Seq(kind) => deep_beneath(Step::Element, &kind.elem.ty, levels),
        XType::Array(kind) => deep_beneath(Step::Element, &kind.elem.ty, levels),
        XType::Map(kind) => {
            if let Some(path) = deep_beneath(Step::Key, &kind.key.ty, levels) {
                return Some(path);
            }
            deep_beneath(Step::Entry, &kind.value.ty, levels)
        }
        XType::Struct(kind) => deep_members(kind.members.as_slice(), levels),
        XType::Union(kind) => {
            if let Some(path) = deep_beneath(Step::Disc, &kind.disc, levels) {
                return Some(path);
            }
            deep_cases(kind.cases.as_slice(), levels)
        }
        XType::Alias(kind) => first_deep(&kind.ty, levels),
    }
}

/// The first node, in declared order, that has `levels` nodes above it.
#[cycle(deep)]
#[tactic(auto, using(crate::proofs::DeepSteps::deep_zero, crate::proofs::DeepSteps::deep_below))]
pub fn first_deep(ty: &XType, levels: u32) -> Option<Path>
    requires { levels ≤ 16 }
    ensures value { result ≡ spec.first_deep levels (tree ty.now) }
    ensures short { IfSome result (λ p. length p ≤ levels) }
{
    if levels == 0 {
        return Some(Path::empty());
    }
    deep_inside(ty, levels - 1)
}
