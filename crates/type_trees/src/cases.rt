ghost use Rattle.std.specs.Prelude.{◌≡◌, IfSome, Contains, IsTrue};
ghost use Rattle.std.specs.Ordering.{int_eq};
ghost use Rattle.std.specs.Option.{option_map};
ghost use Rattle.xt_shapes.specs.Lists.{has};
ghost use Rattle.xt_shapes.specs.Select as spec;
ghost use Rattle.type_trees.specs.Bridge.{type_shape, cases_shape, members_shape};

use crate::types::{Case, Member};

// Whether halving comes to the label, as it does wherever it is there and the labels rise.
fn is_met(labels: &[i32], label: &i32) -> bool
    ensures { IsTrue result → IsTrue (has (int_eq label.now) labels.now) }
{
    match labels.binary_search(label) {
        Ok(_) => true,
        Err(_) => false,
    }
}

fn is_listed(labels: &[i32], number: i128) -> bool
    ensures { result ≡ has (int_eq number) labels.now }
{
    for label in labels {
        if number == i128::from(*label) {
            return true;
        }
    }
    false
}

/// Whether the number is among the labels. Where they rise and it is, it is found by halving; else they are gone through.
pub fn is_label(labels: &[i32], number: i128) -> bool
    ensures { result ≡ has (int_eq number) labels.now }
{
    match i32::try_from(number) {
        Ok(label) if is_met(labels, &label) => true,
        _ => is_listed(labels, number),
    }
}

#[tactic(auto, using(crate::proofs::Views::tree_rules))]
fn labelled(cases: &[Case], number: i128) -> Option<u32>
    ensures { result ≡ spec.labelled (cases_shape cases.now) number }
{
    for case in cases {
        if is_label(case.labels.as_slice(), number) {
            return Some(case.id);
        }
    }
    None
}

/// The id of the default case.
#[tactic(auto, using(crate::proofs::Views::tree_rules))]
pub fn default_case(cases: &[Case]) -> Option<u32>
    ensures { result ≡ spec.default_case (cases_shape cases.now) }
{
    for case in cases {
        if case.is_default {
            return Some(case.id);
        }
    }
    None
}

/// The id of the case that the discriminator's `number` selects: the case that has it among its labels, else the default case.
/// It takes any number, value of the discriminator or not.
pub fn select(cases: &[Case], number: i128) -> Option<u32>
    ensures { result ≡ spec.select (cases_shape cases.now) number }
{
    match labelled(cases, number) {
        Some(id) => Some(id),
        None => default_case(cases),
    }
}

/// The first case with that id.
#[tactic(auto, using(crate::proofs::Views::tree_rules))]
pub fn case_at(cases: &[Case], id: u32) -> Option<&Case>
    ensures shape { option_map (λ c. type_shape c.now.ty) result ≡ spec.case_at (cases_shape cases.now) id }
    ensures id { IfSome result (λ c. c.now.id ≡ id) }
    ensures among { IfSome result (λ c. Contains cases.now c.now) }
{
    for case in cases {
        if case.id == id {
            return Some(case);
        }
    }
    None
}

/// Whether there is a member with that id.
#[tactic(auto, using(crate::proofs::Views::tree_rules))]
pub fn has_member(members: &[Member], id: u32) -> bool
    ensures { result ≡ spec.has_member (members_shape members.now) id }
{
    for member in members {
        if member.id == id {
            return true;
        }
    }
    false
}

/// The first member with that id.
#[tactic(auto, using(crate::proofs::Views::tree_rules))]
pub fn member_at(members: &[Member], id: u32) -> Option<&Member>
    ensures shape { option_map (λ m. type_shape m.now.ty) result ≡ spec.shape_at (members_shape members.now) id }
    ensures id { IfSome result (λ m. m.now.id ≡ id) }
    ensures among { IfSome result (λ m. Contains members.now m.now) }
{
    for member in members {
        if member.id == id {
            return Some(member);
        }
    }
    None
}
