ghost use Rattle.std.specs.Prelude.{◌≡◌};
ghost use Rattle.type_trees.specs.View.{tree, members_tree, cases_tree};
ghost use Rattle.xt_shapes.specs.NodeRules.{is_float};
ghost use Rattle.dynamic_data.specs.numbers.Kinds as spec;

use type_trees::{Case, Member, XType};
use xt_shapes::Prim;

fn is_float(prim: Prim) -> bool
    ensures { result ≡ is_float prim }
{
    matches!(prim, Prim::Float32 | Prim::Float64)
}

#[cycle(has_floats)]
#[tactic(auto, using(type_trees::proofs::Views::tree_rules))]
fn members_have_floats(members: &[Member]) -> bool
    ensures { result ≡ spec.members_have_floats (members_tree members.now) }
{
    for member in members {
        if has_floats(&member.ty) {
            return true;
        }
    }
    false
}

#[cycle(has_floats)]
#[tactic(auto, using(type_trees::proofs::Views::tree_rules))]
fn cases_have_floats(cases: &[Case]) -> bool
    ensures { result ≡ spec.cases_have_floats (cases_tree cases.now) }
{
    for case in cases {
        if has_floats(&case.ty) {
            return true;
        }
    }
    false
}

/// Whether a float stands anywhere in a type. Where none does, `with_numbers` keeps what `to_json` writes, and `from_numbers` reads
/// what `from_json` does.
#[cycle(has_floats)]
#[tactic(auto, using(type_trees::proofs::Views::tree_rules))]
pub fn has_floats(ty: &XType) -> bool
    ensures { result ≡ spec.has_floats (tree ty.now) }
{
    match ty {
        XType::Prim(prim) => is_float(*prim),
        XType::Str(_) | XType::Enum(_) | XType::Mask(_) => false,
        XType::Seq(kind) => has_floats(&kind.elem.ty),
        XType::Array(kind) => has_floats(&kind.elem.ty),
        XType::Map(kind) => has_floats(&kind.key.ty) || has_floats(&kind.value.ty),
        XType::Struct(kind) => members_have_floats(kind.members.as_slice()),
        XType::Union(kind) => cases_have_floats(kind.cases.as_slice()),
        XType::Alias(kind) => has_floats(&kind.ty),
    }
}
