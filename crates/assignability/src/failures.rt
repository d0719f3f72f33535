ghost use Rattle.std.specs.Prelude.{◌≡◌, ◌<◌, ◌≤◌, length, IfSome, None, max, false};
ghost use Rattle.std.specs.Option.{option_map};
ghost use Rattle.assignability.specs.Views.{failure_view, disc_depth, bodies_depth};
ghost use Rattle.type_rules.specs.Places.{depth, members_depth, cases_depth};
ghost use Rattle.type_trees.specs.Bridge.{type_shape, members_shape, cases_shape};
ghost use Rattle.type_trees.specs.Parts.{map_parts, union_parts};
ghost use Rattle.type_trees.specs.View.{tree, members_tree, cases_tree};
ghost use Rattle.xcdr_model.specs.Failure as spec;
ghost use Rattle.xcdr_model.specs.Rules.{label_sets as labels_match};
ghost use Rattle.xt_shapes.specs.Select.{shape_at};

use crate::delimited::delimited;
use crate::enums::enum_failure;
use crate::equal::equivalent;
use crate::met::{is_met, is_met_by};
use crate::tops::top_failure;
use crate::verdict::{Failure, beneath, here};
use node_judge::{
    common_member, has_label, holds_bound, ids_within, label_sets, needs_within, same_case_names,
    same_dims, same_ext, same_names, same_places,
};
use type_trees::{
    Case, MapType, Member, UnionType, XType, as_array, as_enum, as_map, as_mask, as_prim, as_seq,
    as_str, as_struct, as_union, case_at, default_case, member_at, select,
};
use xcdr_model::{Policy, Rule};
use xt_shapes::{Ext, Rep, Step};

#[cycle(failure)]
#[tactic(auto, using(node_judge::proofs::Failing::step_rules))]
fn plain_beneath(
    policy: &Policy,
    rep: Rep,
    step: Step,
    left: &XType,
    right: &XType,
) -> Option<Failure>
    requires shallow { depth (tree left.now) ≤ 15 }
    ensures value { failure_view result ≡ spec.step step (spec.failure policy.now rep false (type_shape left.now) (type_shape right.now)) }
    ensures short { IfSome result (λ f. length f.path ≤ depth (tree left.now)) }
{
    match failure(policy, rep, false, left, right) {
        None => None,
        Some(found) => Some(beneath(step, found)),
    }
}

#[cycle(failure)]
#[tactic(auto, using(node_judge::proofs::Failing::step_rules, node_judge::proofs::Failing::strong_is))]
fn strong_beneath(
    policy: &Policy,
    rep: Rep,
    step: Step,
    left: &XType,
    right: &XType,
) -> Option<Failure>
    requires shallow { depth (tree left.now) ≤ 15 }
    ensures value { failure_view result ≡ spec.step step (spec.strong rep (type_shape left.now) (type_shape right.now) (spec.failure policy.now rep false (type_shape left.now) (type_shape right.now))) }
    ensures short { IfSome result (λ f. length f.path ≤ depth (tree left.now)) }
{
    if equivalent(left, right) {
        return None;
    }
    if !delimited(rep, right) {
        return Some(beneath(step, here(Rule::NotDelimited)));
    }
    plain_beneath(policy, rep, step, left, right)
}

#[cycle(failure)]
fn pair_failure(policy: &Policy, rep: Rep, left: &Member, right: &Member) -> Option<Failure>
    requires shallow { depth (tree left.now.ty) ≤ 15 }
    ensures value { failure_view result ≡ spec.step (Step.Member left.now.id) (spec.strong rep (type_shape left.now.ty) (type_shape right.now.ty) (spec.failure policy.now rep false (type_shape left.now.ty) (type_shape right.now.ty))) }
    ensures short { IfSome result (λ f. length f.path ≤ depth (tree left.now.ty)) }
{
    strong_beneath(policy, rep, Step::Member(left.id), &left.ty, &right.ty)
}

#[cycle(failure)]
#[tactic(auto, using(type_trees::proofs::Views::tree_rules))]
fn index_failure(policy: &Policy, rep: Rep, left: &[Member], right: &[Member]) -> Option<Failure>
    requires { members_depth (members_tree left.now) ≤ 15 }
    ensures value { failure_view result ≡ spec.index_failure policy.now rep (members_shape left.now) (members_shape right.now) }
    ensures short { IfSome result (λ f. length f.path ≤ members_depth (members_tree left.now)) }
{
    for at in 0..left.len() {
        if at >= right.len() {
            return None;
        }
        if let Some(found) = pair_failure(policy, rep, &left[at], &right[at]) {
            return Some(found);
        }
    }
    None
}

#[cycle(failure)]
#[tactic(auto, using(node_judge::proofs::Failing::step_rules))]
fn member_failure(policy: &Policy, rep: Rep, member: &Member, others: &[Member]) -> Option<Failure>
    requires shallow { depth (tree member.now.ty) ≤ 15 }
    ensures value { failure_view result ≡ spec.if_some (shape_at (members_shape others.now) member.now.id) (λ u. spec.step (Step.Member member.now.id) (spec.failure policy.now rep false (type_shape member.now.ty) u)) }
    ensures short { IfSome result (λ f. length f.path ≤ depth (tree member.now.ty)) }
{
    match member_at(others, member.id) {
        None => None,
        Some(other) => plain_beneath(policy, rep, Step::Member(member.id), &member.ty, &other.ty),
    }
}

#[cycle(failure)]
#[tactic(auto, using(type_trees::proofs::Views::tree_rules))]
fn id_failure(policy: &Policy, rep: Rep, left: &[Member], right: &[Member]) -> Option<Failure>
    requires { members_depth (members_tree left.now) ≤ 15 }
    ensures value { failure_view result ≡ spec.id_failure policy.now rep (members_shape left.now) (members_shape right.now) }
    ensures short { IfSome result (λ f. length f.path ≤ members_depth (members_tree left.now)) }
{
    for member in left {
        if let Some(found) = member_failure(policy, rep, member, right) {
            return Some(found);
        }
    }
    None
}

#[cycle(failure)]
#[tactic(auto, using(crate::proofs::Heads::head_rules, node_judge::proofs::Failing::step_rules, node_judge::proofs::Failing::end_rules))]
fn structure_ends(
    policy: &Policy,
    rep: Rep,
    ext: Ext,
    left: &[Member],
    right: &[Member],
) -> Option<Failure>
    requires { members_depth (members_tree left.now) ≤ 15 }
    ensures value { failure_view result ≡ spec.structure_ends policy.now rep ext (members_shape left.now) (members_shape right.now) }
    ensures short { IfSome result (λ f. length f.path ≤ members_depth (members_tree left.now)) }
{
    match ext {
        Ext::Final => {
            if !(ids_within(left, right) && ids_within(right, left)) {
                return Some(here(Rule::MemberSet));
            }
            if !same_places(left, right) {
                return Some(here(Rule::MemberIndex));
            }
            index_failure(policy, rep, left, right)
        }
        Ext::Appendable => {
            if !same_places(left, right) {
                return Some(here(Rule::MemberIndex));
            }
            index_failure(policy, rep, left, right)
        }
        Ext::Mutable => id_failure(policy, rep, left, right),
    }
}

#[cycle(failure)]
#[tactic(auto, using(crate::proofs::Heads::head_rules, node_judge::proofs::Failing::step_rules, node_judge::proofs::Failing::structure_rules_is))]
fn structure_failure(
    policy: &Policy,
    rep: Rep,
    top: bool,
    ext: Ext,
    left: &[Member],
    other: Ext,
    right: &[Member],
) -> Option<Failure>
    requires { members_depth (members_tree left.now) ≤ 15 }
    ensures value { failure_view result ≡ spec.structure_rules policy.now top ext (members_shape left.now) other (members_shape right.now) (spec.structure_ends policy.now rep ext (members_shape left.now) (members_shape right.now)) }
    ensures short { IfSome result (λ f. length f.path ≤ members_depth (members_tree left.now)) }
{
    if ext != other {
        return Some(here(Rule::Extensibility));
    }
    if !policy.ignore_member_names && !same_names(left, right) {
        return Some(here(Rule::Names));
    }
    if !common_member(left, right) {
        return Some(here(Rule::CommonMember));
    }
    if !(needs_within(left, right) && needs_within(right, left)) {
        return Some(here(Rule::MustUnderstand));
    }
    if let Some(found) = top_failure(top, left, right) {
        return Some(found);
    }
    structure_ends(policy, rep, ext, left, right)
}

#[cycle(failure)]
#[tactic(auto, using(node_judge::proofs::Failing::step_rules))]
fn map_failure(policy: &Policy, rep: Rep, left: &MapType, right: &MapType) -> Option<Failure>
    requires key { depth (tree left.now.key.ty) ≤ 15 }
    requires value { depth (tree left.now.value.ty) ≤ 15 }
    ensures value { failure_view result ≡ spec.map_rules policy.now rep (map_parts left.now) (map_parts right.now) }
    ensures short { IfSome result (λ f. length f.path ≤ max (depth (tree left.now.key.ty)) (depth (tree left.now.value.ty))) }
{
    if !policy.ignore_sequence_bounds && !holds_bound(left.bound, right.bound) {
        return Some(here(Rule::Bound));
    }
    if let Some(found) = strong_beneath(policy, rep, Step::Key, &left.key.ty, &right.key.ty) {
        return Some(found);
    }
    strong_beneath(policy, rep, Step::Entry, &left.value.ty, &right.value.ty)
}

#[cycle(failure)]
#[tactic(auto, using(node_judge::proofs::Failing::step_rules))]
fn case_beneath(policy: &Policy, rep: Rep, case: &Case, other: Option<&Case>) -> Option<Failure>
    requires shallow { depth (tree case.now.ty) ≤ 15 }
    ensures value { failure_view result ≡ spec.if_some (option_map (λ c. type_shape c.now.ty) other.entry) (λ u. spec.step (Step.Member case.now.id) (spec.failure policy.now rep false (type_shape case.now.ty) u)) }
    ensures short { IfSome result (λ f. length f.path ≤ depth (tree case.now.ty)) }
{
    match other {
        None => None,
        Some(other) => plain_beneath(policy, rep, Step::Member(case.id), &case.ty, &other.ty),
    }
}

#[cycle(failure)]
#[tactic(auto, using(type_trees::proofs::Views::tree_rules))]
fn case_failure(
    policy: &Policy,
    rep: Rep,
    left: &[Case],
    id: u32,
    other: Option<&Case>,
) -> Option<Failure>
    requires { cases_depth (cases_tree left.now) ≤ 15 }
    ensures value { failure_view result ≡ spec.case_failure policy.now rep (cases_shape left.now) id (option_map (λ c. type_shape c.now.ty) other.entry) }
    ensures short { IfSome result (λ f. length f.path ≤ cases_depth (cases_tree left.now)) }
{
    for case in left {
        if case.id == id {
            return case_beneath(policy, rep, case, other);
        }
    }
    None
}

/// The failure at the cases that `label` selects. No pair of cases is tried again that a label before it selects.
#[cycle(failure)]
#[tactic(auto, using(node_judge::proofs::Failing::step_rules, node_judge::proofs::Failing::case_pair_is))]
fn label_failure(
    policy: &Policy,
    rep: Rep,
    left: &[Case],
    right: &[Case],
    tried: &[Case],
    before: &[i32],
    label: i32,
) -> Option<Failure>
    requires shallow { cases_depth (cases_tree left.now) ≤ 15 }
    requires tried { spec.first_of (spec.label_failure policy.now rep (cases_shape left.now) (cases_shape right.now)) (spec.all_labels (cases_shape tried.now)) ≡ None }
    requires passed { spec.first_of (spec.label_failure policy.now rep (cases_shape left.now) (cases_shape right.now)) before.now ≡ None }
    ensures value { failure_view result ≡ spec.label_failure policy.now rep (cases_shape left.now) (cases_shape right.now) label }
    ensures short { IfSome result (λ f. length f.path ≤ cases_depth (cases_tree left.now)) }
{
    if has_label(tried, label) {
        return None;
    }
    match select(left, i128::from(label)) {
        None => None,
        Some(id) => match select(right, i128::from(label)) {
            None => None,
            Some(other) => {
                if is_met(left, right, before, id, other) {
                    return None;
                }
                if is_met_by(left, right, tried, other, id, other) {
                    return None;
                }
                case_failure(policy, rep, left, id, case_at(right, other))
            }
        },
    }
}

#[cycle(failure)]
fn labels_failure(
    policy: &Policy,
    rep: Rep,
    left: &[Case],
    right: &[Case],
    tried: &[Case],
    labels: &[i32],
) -> Option<Failure>
    requires shallow { cases_depth (cases_tree left.now) ≤ 15 }
    requires tried { spec.first_of (spec.label_failure policy.now rep (cases_shape left.now) (cases_shape right.now)) (spec.all_labels (cases_shape tried.now)) ≡ None }
    ensures value { failure_view result ≡ spec.first_of (spec.label_failure policy.now rep (cases_shape left.now) (cases_shape right.now)) labels.now }
    ensures short { IfSome result (λ f. length f.path ≤ cases_depth (cases_tree left.now)) }
{
    let mut at = 0;
    for label in labels {
        if let Some(found) = label_failure(policy, rep, left, right, tried, &labels[..at], *label) {
            return Some(found);
        }
        at += 1;
    }
    None
}

/// The first failure at a label of one side's cases. A label of the cases that were tried is not tried again.
#[cycle(failure)]
fn side_failure(
    policy: &Policy,
    rep: Rep,
    left: &[Case],
    right: &[Case],
    tried: &[Case],
    side: &[Case],
) -> Option<Failure>
    requires shallow { cases_depth (cases_tree left.now) ≤ 15 }
    requires tried { spec.first_of (spec.label_failure policy.now rep (cases_shape left.now) (cases_shape right.now)) (spec.all_labels (cases_shape tried.now)) ≡ None }
    ensures value { failure_view result ≡ spec.first_of (spec.label_failure policy.now rep (cases_shape left.now) (cases_shape right.now)) (spec.all_labels (cases_shape side.now)) }
    ensures short { IfSome result (λ f. length f.path ≤ cases_depth (cases_tree left.now)) }
{
    for case in side {
        if let Some(found) = labels_failure(
            policy,
            rep,
            left,
            right,
            tried,
            case.labels.as_slice(),
        ) {
            return Some(found);
        }
    }
    None
}

/// The failure at the two defaults, unless a label selects them.
#[cycle(failure)]
#[tactic(auto, using(node_judge::proofs::Failing::step_rules))]
fn default_failure(policy: &Policy, rep: Rep, left: &[Case], right: &[Case]) -> Option<Failure>
    requires shallow { cases_depth (cases_tree left.now) ≤ 15 }
    requires left { spec.first_of (spec.label_failure policy.now rep (cases_shape left.now) (cases_shape right.now)) (spec.all_labels (cases_shape left.now)) ≡ None }
    requires right { spec.first_of (spec.label_failure policy.now rep (cases_shape left.now) (cases_shape right.now)) (spec.all_labels (cases_shape right.now)) ≡ None }
    ensures value { failure_view result ≡ spec.default_failure policy.now rep (cases_shape left.now) (cases_shape right.now) }
    ensures short { IfSome result (λ f. length f.path ≤ cases_depth (cases_tree left.now)) }
{
    match default_case(left) {
        None => None,
        Some(id) => match default_case(right) {
            None => None,
            Some(other) => {
                if is_met_by(left, right, right, other, id, other) {
                    return None;
                }
                if is_met_by(left, right, left, id, id, other) {
                    return None;
                }
                case_failure(policy, rep, left, id, case_at(right, other))
            }
        },
    }
}

#[cycle(failure)]
#[tactic(auto, using(node_judge::proofs::Failing::step_rules, crate::proofs::FailureSteps::first_of_append, node_judge::proofs::Failing::first_of_none))]
fn cases_failure(policy: &Policy, rep: Rep, left: &[Case], right: &[Case]) -> Option<Failure>
    requires { cases_depth (cases_tree left.now) ≤ 15 }
    ensures value { failure_view result ≡ spec.cases_failure policy.now rep (cases_shape left.now) (cases_shape right.now) }
    ensures short { IfSome result (λ f. length f.path ≤ cases_depth (cases_tree left.now)) }
{
    if let Some(found) = side_failure(policy, rep, left, right, &[], right) {
        return Some(found);
    }
    if let Some(found) = side_failure(policy, rep, left, right, right, left) {
        return Some(found);
    }
    default_failure(policy, rep, left, right)
}

/// The rules of unions behind those on the discriminator.
#[cycle(failure)]
#[tactic(auto, using(crate::proofs::Heads::head_rules, node_judge::proofs::Failing::step_rules))]
fn labels_rules(
    policy: &Policy,
    rep: Rep,
    ext: Ext,
    left: &[Case],
    right: &[Case],
) -> Option<Failure>
    requires { cases_depth (cases_tree left.now) ≤ 15 }
    ensures value { failure_view result ≡ spec.rule Rule.Labels (labels_match ext (cases_shape left.now) (cases_shape right.now)) (spec.cases_failure policy.now rep (cases_shape left.now) (cases_shape right.now)) }
    ensures short { IfSome result (λ f. length f.path ≤ cases_depth (cases_tree left.now)) }
{
    if !label_sets(ext, left, right) {
        return Some(here(Rule::Labels));
    }
    cases_failure(policy, rep, left, right)
}

#[cycle(failure)]
#[tactic(auto, using(crate::proofs::Heads::head_rules, node_judge::proofs::Failing::step_rules))]
fn union_failure(
    policy: &Policy,
    rep: Rep,
    top: bool,
    left: &UnionType,
    right: &UnionType,
) -> Option<Failure>
    requires disc { disc_depth left.now ≤ 15 }
    requires cases { bodies_depth left.now ≤ 15 }
    ensures value { failure_view result ≡ spec.union_rules policy.now rep top (union_parts left.now) (union_parts right.now) }
    ensures short { IfSome result (λ f. length f.path ≤ max (disc_depth left.now) (bodies_depth left.now)) }
{
    if !same_ext(left.ext, right.ext) {
        return Some(here(Rule::Extensibility));
    }
    if !policy.ignore_member_names
        && !same_case_names(left.cases.as_slice(), right.cases.as_slice())
    {
        return Some(here(Rule::Names));
    }
    if top && left.disc_key != right.disc_key {
        return Some(here(Rule::Discriminator));
    }
    if let Some(found) = strong_beneath(policy, rep, Step::Disc, &left.disc, &right.disc) {
        return Some(found);
    }
    labels_rules(
        policy,
        rep,
        left.ext,
        left.cases.as_slice(),
        right.cases.as_slice(),
    )
}

/// The first rule that fails at a pair of types, or in a pair inside.
#[cycle(failure)]
#[tactic(auto, using(type_trees::proofs::Views::tree_rules, node_judge::proofs::Failing::step_rules, node_judge::proofs::Failing::kind_rules))]
pub(crate) fn failure(
    policy: &Policy,
    rep: Rep,
    top: bool,
    left: &XType,
    right: &XType,
) -> Option<Failure>
    requires { depth (tree left.now) ≤ 16 }
    ensures value { failure_view result ≡ spec.failure policy.now rep top (type_shape left.now) (type_shape right.now) }
    ensures short { IfSome result (λ f. length f.path < depth (tree left.now)) }
{
    match left {
        XType::Prim(prim) => match as_prim(right) {
            Some(other) => if *prim == other {
                None
            } else {
                Some(here(Rule::Kind))
            },
            None => Some(here(Rule::Kind)),
        },
        XType::Str(bound) => match as_str(right) {
            Some(other) => if policy.ignore_string_bounds || holds_bound(*bound, other) {
                None
            } else {
                Some(here(Rule::Bound))
            },
            None => Some(here(Rule::Kind)),
        },
        XType::Enum(kind) => match as_enum(right) {
            Some(other) => enum_failure(kind, other),
            None => Some(here(Rule::Kind)),
        },
        XType::Mask(kind) => match as_mask(right) {
            Some(other) => if kind.bits == other.bits {
                None
            } else {
                Some(here(Rule::BitBound))
            },
            None => Some(here(Rule::Kind)),
        },
        XType::Seq(kind) => match as_seq(right) {
            Some(other) => if policy.ignore_sequence_bounds
                || holds_bound(kind.bound, other.bound)
            {
                strong_beneath(policy, rep, Step::Element, &kind.elem.ty, &other.elem.ty)
            } else {
                Some(here(Rule::Bound))
            },
            None => Some(here(Rule::Kind)),
        },
        XType::Array(kind) => match as_array(right) {
            Some(other) => if same_dims(kind.dims.as_slice(), other.dims.as_slice()) {
                strong_beneath(policy, rep, Step::Element, &kind.elem.ty, &other.elem.ty)
            } else {
                Some(here(Rule::Dimensions))
            },
            None => Some(here(Rule::Kind)),
        },
        XType::Map(kind) => match as_map(right) {
            Some(other) => map_failure(policy, rep, kind, other),
            None => Some(here(Rule::Kind)),
        },
        XType::Struct(kind) => match as_struct(right) {
            Some(other) => structure_failure(
                policy,
                rep,
                top,
                kind.ext,
                kind.members.as_slice(),
                other.ext,
                other.members.as_slice(),
            ),
            None => Some(here(Rule::Kind)),
        },
        XType::Union(kind) => match as_union(right) {
            Some(other) => union_failure(policy, rep, top, kind, other),
            None => Some(here(Rule::Kind)),
        },
        XType::Alias(kind) => failure(policy, rep, top, &kind.ty, right),
    }
}
