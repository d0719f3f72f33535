ghost use Rattle.std.specs.Prelude.{◌≡◌};
ghost use Rattle.assignability.specs.Met as own;
ghost use Rattle.type_trees.specs.Bridge.{cases_shape};
ghost use Rattle.xcdr_model.specs.Failure as spec;

use type_trees::{Case, select};

/// Whether `label` selects the case with that id.
fn selects(cases: &[Case], label: i32, id: u32) -> bool
    ensures { result ≡ spec.is_selected (cases_shape cases.now) label id }
{
    match select(cases, i128::from(label)) {
        Some(found) => found == id,
        None => false,
    }
}

/// Whether one of the labels selects the case `id` on the left and `other` on the right.
pub(crate) fn is_met(left: &[Case], right: &[Case], labels: &[i32], id: u32, other: u32) -> bool
    ensures { result ≡ spec.is_met (cases_shape left.now) (cases_shape right.now) labels.now id other }
{
    for label in labels {
        if selects(left, *label, id) && selects(right, *label, other) {
            return true;
        }
    }
    false
}

/// The same of the labels of the cases of `side` with the id `named`.
#[tactic(auto, using(type_trees::proofs::Views::tree_rules))]
pub(crate) fn is_met_by(
    left: &[Case],
    right: &[Case],
    side: &[Case],
    named: u32,
    id: u32,
    other: u32,
) -> bool
    ensures { result ≡ own.is_met_by (cases_shape left.now) (cases_shape right.now) (cases_shape side.now) named id other }
{
    for case in side {
        if case.id == named && is_met(left, right, case.labels.as_slice(), id, other) {
            return true;
        }
    }
    false
}
