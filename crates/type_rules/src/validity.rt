ghost use Rattle.std.specs.Prelude.{◌≡◌, ◌∷◌, [], ◌<◌, ◌≤◌, ◌+◌, length, IfSome};
ghost use Rattle.std.specs.Option.{option_map};
ghost use Rattle.type_rules.specs.Places as place;
ghost use Rattle.type_rules.specs.Valid as spec;
ghost use Rattle.type_rules.specs.Faults.{fault_view, error_view};
ghost use Rattle.type_trees.specs.View.{tree, members_tree, cases_tree};

use crate::depths::first_deep;
use node_rules::failing_rule;
use type_trees::sizes::{capped_nodes, capped_weight};
use type_trees::{Case, Member, Path, XType};
use xt_shapes::Step;

/// The first rule that a type breaks, as 3 for V3, and the steps to the node where. An alias adds no step.
#[derive(Debug, Drop)]
pub struct TypeFault {
    pub rule: u8,
    pub node: Path,
}

/// A rule that fails at a type's own node.
pub fn fault_here(rule: u8) -> TypeFault
    ensures rule { result.rule ≡ rule }
    ensures node { result.node ≡ [] }
{
    TypeFault {
        rule,
        node: Path::empty(),
    }
}

// The fault of a type one step below.
fn fault_beneath(step: Step, fault: TypeFault) -> TypeFault
    requires { length fault.node < 16 }
    ensures rule { result.rule ≡ fault.rule }
    ensures node { result.node ≡ step ∷ fault.node }
{
    let TypeFault { rule, mut node } = fault;
    node.push_front(step);
    TypeFault { rule, node }
}

#[cycle(check)]
#[tactic(auto, using(crate::proofs::FaultSteps::fault_rules))]
fn check_beneath(step: Step, ty: &XType) -> Option<TypeFault>
    requires { place.depth (tree ty.now) ≤ 15 }
    ensures value { fault_view result ≡ option_map (spec.fault_beneath (step ∷ [])) (spec.first_fault (tree ty.now)) }
    ensures short { IfSome result (λ f. length f.node ≤ place.depth (tree ty.now)) }
{
    match check_nodes(ty) {
        None => None,
        Some(fault) => Some(fault_beneath(step, fault)),
    }
}

#[cycle(check)]
#[tactic(auto, using(type_trees::proofs::Views::tree_rules, crate::proofs::FaultSteps::fault_rules))]
fn check_members(members: &[Member]) -> Option<TypeFault>
    requires { place.members_depth (members_tree members.now) ≤ 15 }
    ensures value { fault_view result ≡ spec.members_fault (members_tree members.now) }
    ensures short { IfSome result (λ f. length f.node ≤ place.members_depth (members_tree members.now)) }
{
    for member in members {
        if let Some(fault) = check_beneath(Step::Member(member.id), &member.ty) {
            return Some(fault);
        }
    }
    None
}

#[cycle(check)]
#[tactic(auto, using(type_trees::proofs::Views::tree_rules, crate::proofs::FaultSteps::fault_rules))]
fn check_cases(cases: &[Case]) -> Option<TypeFault>
    requires { place.cases_depth (cases_tree cases.now) ≤ 15 }
    ensures value { fault_view result ≡ spec.cases_fault (cases_tree cases.now) }
    ensures short { IfSome result (λ f. length f.node ≤ place.cases_depth (cases_tree cases.now)) }
{
    for case in cases {
        if let Some(fault) = check_beneath(Step::Member(case.id), &case.ty) {
            return Some(fault);
        }
    }
    None
}

#[cycle(check)]
#[tactic(auto, using(type_trees::proofs::Views::tree_rules, crate::proofs::FaultSteps::fault_rules))]
fn check_inside(ty: &XType) -> Option<TypeFault>
    requires { place.depth (tree ty.now) ≤ 16 }
    ensures value { fault_view result ≡ spec.fault_inside (tree ty.now) }
    ensures short { IfSome result (λ f. length f.node < place.depth (tree ty.now)) }
{
    match ty {
        XType::Prim(_) | XType::Str(_) | XType::Enum(_) | XType::Mask(_) => None,
        XType::Seq(kind) => check_beneath(Step::Element, &kind.elem.ty),
        XType::Array(kind) => check_beneath(Step::Element, &kind.elem.ty),
        XType::Map(kind) => {
            if let Some(fault) = check_beneath(Step::Key, &kind.key.ty) {
                return Some(fault);
            }
            check_beneath(Step::Entry, &kind.value.ty)
        }
        XType::Struct(kind) => check_members(kind.members.as_slice()),
        XType::Union(kind) => {
            if let Some(fault) = check_beneath(Step::Disc, &kind.disc) {
                return Some(fault);
            }
            check_cases(kind.cases.as_slice())
        }
        XType::Alias(kind) => check_nodes(&kind.ty),
    }
}

/// The first node, in declared order, where a rule other than V15 and V16 fails, and the first rule there.
#[cycle(check)]
#[tactic(auto, using(crate::proofs::FaultSteps::fault_rules))]
pub fn check_nodes(ty: &XType) -> Option<TypeFault>
    requires { place.depth (tree ty.now) ≤ 16 }
    ensures value { fault_view result ≡ spec.first_fault (tree ty.now) }
    ensures short { IfSome result (λ f. length f.node < place.depth (tree ty.now)) }
{
    match failing_rule(ty) {
        Some(rule) => Some(fault_here(rule)),
        None => check_inside(ty),
    }
}

// Whether there are at most 65,536 nodes, and the weight isn't greater.
#[tactic(auto, using(node_rules::proofs::Limits::within_test))]
fn is_small(ty: &XType) -> bool
    ensures { result ≡ spec.is_small (tree ty.now) }
{
    capped_nodes(ty) <= 65_536 && capped_weight(ty) <= 65_536
}

/// Whether `ty` is valid (DDS-XTypes 1.3, 7.2.2, and this profile's own limits), or else its first fault. V15 comes first, at the first
/// node in declared order that has 16 nodes above it; then V16, at the empty path, where there are more than 65,536 nodes or the
/// weight is greater; then the first node in declared order, a node before the types in it, that breaks a rule, and there the rule with
/// the lowest number. V17 speaks of texts and objects, and is not met here. It takes any type and no memory.
#[tactic(auto, using(crate::proofs::DeepSteps::shallow), unfolding(crate::specs::Valid::type_fault))]
pub fn check_type(ty: &XType) -> Result<(), TypeFault>
    ensures { error_view result ≡ spec.type_fault (tree ty.now) }
{
    if let Some(node) = first_deep(ty, 16) {
        return Err(TypeFault { rule: 15, node });
    }
    if !is_small(ty) {
        return Err(fault_here(16));
    }
    match check_nodes(ty) {
        Some(fault) => Err(fault),
        None => Ok(()),
    }
}
