ghost use Rattle.std.specs.Prelude.{◌≡◌, map};
ghost use Rattle.node_judge.specs.Bare.{bare_cases};
ghost use Rattle.xcdr_model.specs.Rules as spec;
ghost use Rattle.xt_shapes.specs.Lists as lists;
ghost use Rattle.xt_shapes.specs.Select as selected;

use crate::marks::same_marks;
use crate::views::CaseView;
use type_trees::is_label;
use xt_shapes::Ext;

/// Whether cases have the same name exactly where they have the same id.
pub fn same_case_names<T: CaseView>(left: &[T], right: &[T]) -> bool
    ensures { result ≡ spec.same_case_names (map T.head_of left.now) (map T.head_of right.now) }
{
    same_marks(left, right)
}

/// Whether a case has that label.
pub fn has_label<T: CaseView>(cases: &[T], label: i32) -> bool
    ensures { result ≡ spec.has_label (bare_cases (map T.head_of cases.now)) label }
{
    for case in cases {
        if is_label(case.labels(), i128::from(label)) {
            return true;
        }
    }
    false
}

fn has_default<T: CaseView>(cases: &[T]) -> bool
    ensures { result ≡ spec.has_default (bare_cases (map T.head_of cases.now)) }
{
    for case in cases {
        if case.is_default() {
            return true;
        }
    }
    false
}

fn all_labels<T: CaseView>(labels: &[i32], cases: &[T]) -> bool
    ensures { result ≡ lists.all (spec.has_label (bare_cases (map T.head_of cases.now))) labels.now }
{
    for label in labels {
        if !has_label(cases, *label) {
            return false;
        }
    }
    true
}

fn some_label<T: CaseView>(labels: &[i32], cases: &[T]) -> bool
    ensures { result ≡ lists.has (spec.has_label (bare_cases (map T.head_of cases.now))) labels.now }
{
    for label in labels {
        if has_label(cases, *label) {
            return true;
        }
    }
    false
}

fn labels_within<T: CaseView>(left: &[T], right: &[T]) -> bool
    ensures { result ≡ spec.labels_within (bare_cases (map T.head_of left.now)) (bare_cases (map T.head_of right.now)) }
{
    for case in left {
        if !all_labels(case.labels(), right) {
            return false;
        }
    }
    true
}

fn common_label<T: CaseView>(left: &[T], right: &[T]) -> bool
    ensures { result ≡ spec.common_label (bare_cases (map T.head_of left.now)) (bare_cases (map T.head_of right.now)) }
{
    for case in left {
        if some_label(case.labels(), right) {
            return true;
        }
    }
    false
}

/// Final unions have the same labels, the default among them, and appendable ones a common label.
pub fn label_sets<T: CaseView>(ext: Ext, left: &[T], right: &[T]) -> bool
    ensures { result ≡ spec.label_sets ext (bare_cases (map T.head_of left.now)) (bare_cases (map T.head_of right.now)) }
{
    match ext {
        Ext::Final => labels_within(left, right)
            && labels_within(right, left)
            && has_default(left) == has_default(right),
        Ext::Appendable => common_label(left, right),
        Ext::Mutable => false,
    }
}

fn labelled<T: CaseView>(cases: &[T], number: i32) -> Option<u32>
    ensures { result ≡ selected.labelled (bare_cases (map T.head_of cases.now)) number }
{
    for case in cases {
        if is_label(case.labels(), i128::from(number)) {
            return Some(case.id());
        }
    }
    None
}

/// The id of the default case.
pub fn default_case<T: CaseView>(cases: &[T]) -> Option<u32>
    ensures { result ≡ selected.default_case (bare_cases (map T.head_of cases.now)) }
{
    for case in cases {
        if case.is_default() {
            return Some(case.id());
        }
    }
    None
}

/// The id of the case that the number selects.
pub fn select<T: CaseView>(cases: &[T], number: i32) -> Option<u32>
    ensures { result ≡ selected.select (bare_cases (map T.head_of cases.now)) number }
{
    match labelled(cases, number) {
        Some(id) => Some(id),
        None => default_case(cases),
    }
}
