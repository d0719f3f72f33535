ghost use Rattle.std.specs.Prelude.{◌≡◌, map, ◌++◌};
ghost use Rattle.std.specs.Ordering.{int_eq};
ghost use Rattle.type_trees.specs.Bridge.{type_shape, cases_shape, literal_shape};
ghost use Rattle.xt_shapes.specs.Lists.{all};
ghost use Rattle.xt_shapes.specs.Select.{is_literal as among};
ghost use Rattle.xt_shapes.specs.Shape.{case_heads};
ghost use Rattle.xt_shapes.specs.Typing.{of_prim};
ghost use Rattle.xt_shapes.specs.NodeRules.{distinct};
ghost use Rattle.xt_shapes.specs.NodeRules as node;
ghost use Rattle.node_rules.specs.Rules as spec;

use crate::distinct::{Numbers, all_among, all_distinct};
use crate::kinds::is_discriminator;
use crate::literals::Values;
use crate::numbers::{has_literal, is_of_prim};
use type_trees::{Case, Literal, XType, as_enum, as_prim};
use xt_shapes::Prim;

/// Labels are looked for one by one among so many literals.
const MANY: usize = 64;

/// The labels of a case and then those of further cases.
#[derive(Clone, Copy)]
struct Labels<'a> {
    labels: &'a [i32],
    cases: &'a [Case],
}

impl Numbers for Labels<'_> {
    ghost left = { λ s. s.labels.now ++ node.labels_of (case_heads (cases_shape s.cases.now)) };

    #[tactic(auto, using(type_trees::proofs::Views::tree_rules))]
    fn take_first(&mut self) -> Option<i64> {
        while self.labels.is_empty() {
            let (case, others) = self.cases.split_first()?;
            self.labels = case.labels.as_slice();
            self.cases = others;
        }
        let (first, others) = self.labels.split_first()?;
        self.labels = others;
        Some(i64::from(*first))
    }
}

fn labels_apart(cases: &[Case]) -> bool
    ensures { result ≡ distinct int_eq (node.labels_of (case_heads (cases_shape cases.now))) }
{
    all_distinct(Labels { labels: &[], cases })
}

fn is_label_of(prim: Prim, label: i32) -> bool
    ensures { result ≡ of_prim prim label }
{
    is_of_prim(prim, i128::from(label))
}

fn all_of_prim(prim: Prim, labels: &[i32]) -> bool
    ensures { result ≡ all (of_prim prim) labels.now }
{
    for label in labels {
        if !is_label_of(prim, *label) {
            return false;
        }
    }
    true
}

fn all_literals(literals: &[Literal], labels: &[i32]) -> bool
    ensures { result ≡ all (among (map literal_shape literals.now)) labels.now }
{
    for label in labels {
        if !has_literal(literals, i128::from(*label)) {
            return false;
        }
    }
    true
}

/// Whether each label is a value of the discriminator.
fn are_values(disc: &XType, labels: &[i32]) -> bool
    ensures { result ≡ all (spec.is_value (type_shape disc.now)) labels.now }
{
    if !is_discriminator(disc) {
        return labels.is_empty();
    }
    if let Some(kind) = as_enum(disc) {
        return all_literals(kind.literals.as_slice(), labels);
    }
    match as_prim(disc) {
        Some(prim) => all_of_prim(prim, labels),
        None => labels.is_empty(),
    }
}

#[tactic(auto, using(type_trees::proofs::Views::tree_rules, crate::proofs::Labelled::all_append))]
fn each_is_value(disc: &XType, cases: &[Case]) -> bool
    ensures { result ≡ all (spec.is_value (type_shape disc.now)) (node.labels_of (case_heads (cases_shape cases.now))) }
{
    for case in cases {
        if !are_values(disc, case.labels.as_slice()) {
            return false;
        }
    }
    true
}

/// Whether each label is a value of the discriminator. Among many literals the labels are looked for by blocks.
fn labels_are_values(disc: &XType, cases: &[Case]) -> bool
    ensures { result ≡ all (spec.is_value (type_shape disc.now)) (node.labels_of (case_heads (cases_shape cases.now))) }
{
    match as_enum(disc) {
        Some(kind) => if kind.literals.len() > MANY {
            all_among(
                Labels { labels: &[], cases },
                Values(kind.literals.as_slice()),
            )
        } else {
            each_is_value(disc, cases)
        },
        None => each_is_value(disc, cases),
    }
}

/// Whether each case has a label or is the default.
#[tactic(auto, using(type_trees::proofs::Views::tree_rules))]
fn are_reached(cases: &[Case]) -> bool
    ensures { result ≡ all spec.is_reached (case_heads (cases_shape cases.now)) }
{
    for case in cases {
        if case.labels.len() == 0 && !case.is_default {
            return false;
        }
    }
    true
}

#[tactic(auto, using(type_trees::proofs::Views::tree_rules))]
fn has_default(cases: &[Case]) -> bool
    ensures { result ≡ spec.any_default_case (case_heads (cases_shape cases.now)) }
{
    for case in cases {
        if case.is_default {
            return true;
        }
    }
    false
}

#[tactic(auto, using(type_trees::proofs::Views::tree_rules))]
fn one_default(cases: &[Case]) -> bool
    ensures { result ≡ node.at_most_one (λ c. c.is_default) (case_heads (cases_shape cases.now)) }
{
    let mut rest = cases;
    while let Some((first, others)) = rest.split_first() {
        if first.is_default {
            return !has_default(others);
        }
        rest = others;
    }
    true
}

#[tactic(auto, using(type_trees::proofs::Views::tree_rules))]
fn has_label(cases: &[Case]) -> bool
    ensures { result ≡ spec.any_labelled (case_heads (cases_shape cases.now)) }
{
    for case in cases {
        if case.labels.len() > 0 {
            return true;
        }
    }
    false
}

/// Whether the labels are distinct values of a discriminator, each case has a label or is the default, one case at most is the
/// default, and there is a label.
pub fn labels_hold(disc: &XType, cases: &[Case]) -> bool
    ensures { result ≡ spec.labels_hold (type_shape disc.now) (case_heads (cases_shape cases.now)) }
{
    labels_apart(cases)
        && labels_are_values(disc, cases)
        && are_reached(cases)
        && one_default(cases)
        && has_label(cases)
}
