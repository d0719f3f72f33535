ghost use Rattle.std.specs.Prelude.{◌≡◌, min};
ghost use Rattle.type_trees.specs.View.{tree, members_tree, cases_tree};
ghost use Rattle.type_trees.specs.sizes.TypeNodes as spec;

use crate::sizes::weights::{TOO_MANY, capped};
use crate::{Case, Member, XType};

#[cycle(nodes)]
#[tactic(auto, using(crate::proofs::Views::tree_rules))]
fn capped_member_nodes(members: &[Member]) -> u64
    ensures { result ≡ min 65537 (spec.member_nodes (members_tree members.now)) }
{
    let mut sum = 0;
    for member in members {
        sum = capped(sum + capped_nodes(&member.ty));
    }
    sum
}

#[cycle(nodes)]
#[tactic(auto, using(crate::proofs::Views::tree_rules))]
fn capped_case_nodes(cases: &[Case]) -> u64
    ensures { result ≡ min 65537 (spec.case_nodes (cases_tree cases.now)) }
{
    let mut sum = 0;
    for case in cases {
        sum = capped(sum + capped_nodes(&case.ty));
    }
    sum
}

/// The number of nodes of `ty`, or `TOO_MANY` where it is that or more.
#[cycle(nodes)]
#[tactic(auto, using(crate::proofs::Views::tree_rules))]
pub fn capped_nodes(ty: &XType) -> u64
    ensures { result ≡ min 65537 (spec.nodes (tree ty.now)) }
{
    match ty {
        XType::Prim(_) | XType::Str(_) | XType::Enum(_) | XType::Mask(_) => 1,
        XType::Seq(kind) => capped(1 + capped_nodes(&kind.elem.ty)),
        XType::Array(kind) => capped(1 + capped_nodes(&kind.elem.ty)),
        XType::Map(kind) => {
            capped(1 + capped_nodes(&kind.key.ty) + capped_nodes(&kind.value.ty))
        }
        XType::Struct(kind) => capped(1 + capped_member_nodes(kind.members.as_slice())),
        XType::Union(kind) => {
            capped(1 + capped_nodes(&kind.disc) + capped_case_nodes(kind.cases.as_slice()))
        }
        XType::Alias(kind) => capped(1 + capped_nodes(&kind.ty)),
    }
}
