//! How a guide is made of a type.
ghost use Rattle.std.specs.Prelude.{◌≡◌, ℤ, cond, IfOk, Some, map, option_and_then};
ghost use Rattle.std.specs.BTreeMap.{get};
ghost use Rattle.std.specs.Ordering.{int_cmp, int_eq, nat_cmp};
ghost use Rattle.xt_shapes.specs.Lists.{has};
ghost use Rattle.xt_shapes.specs.Select as shapes;
ghost use Rattle.type_trees.specs.Bridge.{literal_shape, shape, type_shape, cases_shape, members_shape};
ghost use Rattle.type_trees.specs.View.{union_tree};
ghost use Rattle.type_trees.specs.declared.types.MapType.{out-MapType};
ghost use Rattle.type_trees.specs.declared.types.UnionType.{out-UnionType};
ghost use Rattle.try_construct.specs.Guides.{HasValues, HasUnionGuides, Indexes, IsGuide, AreGuides, TellsLiterals, IsPlaces, case_index, knows_cases, part_at};

use crate::guides::{CaseIndex, Guide, Known};
use std::alloc::Global;
use std::collections::{BTreeMap, BTreeSet};
use type_trees::{Case, Elem, EnumType, Literal, MapType, Member, UnionType, XType, default_case};
use xt_lists::{OutOfMemory, Row};

// So many literals, cases or labels are gone through sooner than they are looked up.
const FEW: usize = 8;

// The values that literals have.
fn values_of(alloc: Global, literals: &[Literal]) -> Result<BTreeSet<i128>, OutOfMemory>
    ensures { IfOk result (HasValues (map literal_shape literals.now)) }
{
    let mut values = BTreeSet::new(alloc);
    let mut at = literals.len();
    'literals: while at > 0 {
        at -= 1;
        values.insert(i128::from(literals[at].value))?;
    }
    Ok(values)
}

#[tactic(auto, using(type_trees::proofs::Views::tree_rules))]
fn enum_guide(alloc: Global, kind: &EnumType) -> Result<Guide, OutOfMemory>
    ensures { IfOk result (TellsLiterals (map literal_shape kind.now.literals)) }
{
    if kind.literals.len() <= FEW {
        return Ok(Guide::nothing(alloc));
    }
    let values = values_of(alloc, kind.literals.as_slice())?;
    Ok(Guide {
        known: Known::Literals(values),
        parts: Row::new(alloc),
    })
}

// The positions of cases by their ids.
#[tactic(auto, using(crate::proofs::CasesByIndex::index_rules))]
fn places_of(alloc: Global, cases: &[Case]) -> Result<BTreeMap<u32, usize>, OutOfMemory>
    ensures { IfOk result (IsPlaces (cases_shape cases.now)) }
{
    let mut places = BTreeMap::new(alloc);
    let mut at = cases.len();
    // from the last, so that the first case with an id is kept
    'cases: while at > 0 {
        at -= 1;
        places.insert(cases[at].id, at)?;
    }
    Ok(places)
}

// The position of a case by its id.
fn place_in(places: &BTreeMap<u32, usize>, id: u32) -> Option<usize>
    ensures { result ≡ get nat_cmp places.now id }
{
    match places.get(&id) {
        Some(at) => Some(*at),
        None => None,
    }
}

// The labels select the case at that position, whatever was selected before.
fn add_labels(
    found: &[i32],
    at: usize,
    labels: &mut BTreeMap<i128, usize>,
) -> Result<(), OutOfMemory>
    ensures { IfOk result (λ u. (n : ℤ) → get int_cmp labels.new n ≡ cond (has (int_eq n) found.now) (Some at) (get int_cmp labels.old n)) }
{
    let mut left = found.len();
    'labels: while left > 0 {
        left -= 1;
        labels.insert(i128::from(found[left]), at)?;
    }
    Ok(())
}

// The positions of cases by their labels, given those by their ids.
#[tactic(auto, using(type_trees::proofs::Views::tree_rules))]
fn labels_of(
    alloc: Global,
    cases: &[Case],
    places: &BTreeMap<u32, usize>,
) -> Result<BTreeMap<i128, usize>, OutOfMemory>
    requires { IsPlaces (cases_shape cases.now) places.now }
    ensures { IfOk result (λ labels. (n : ℤ) → get int_cmp labels n ≡ option_and_then (case_index (cases_shape cases.now)) (shapes.labelled (cases_shape cases.now) n)) }
{
    let mut labels = BTreeMap::new(alloc);
    let mut at = cases.len();
    // from the last, so that the first case with a label is kept
    'cases: while at > 0 {
        at -= 1;
        let case = &cases[at];
        let first = place_in(places, case.id).unwrap();
        add_labels(case.labels.as_slice(), first, &mut labels)?;
    }
    Ok(labels)
}

// The position of the default case.
fn default_of(cases: &[Case], places: &BTreeMap<u32, usize>) -> Option<usize>
    requires { IsPlaces (cases_shape cases.now) places.now }
    ensures { result ≡ option_and_then (case_index (cases_shape cases.now)) (shapes.default_case (cases_shape cases.now)) }
{
    match default_case(cases) {
        Some(id) => place_in(places, id),
        None => None,
    }
}

impl CaseIndex {
    /// The index of a union's cases. It takes memory in the number of their labels.
    pub fn of(alloc: Global, cases: &[Case]) -> Result<CaseIndex, OutOfMemory>
        ensures { IfOk result (Indexes (cases_shape cases.now)) }
    {
        let places = places_of(alloc, cases)?;
        let labels = labels_of(alloc, cases, &places)?;
        let default = default_of(cases, &places);
        Ok(CaseIndex { labels, default })
    }
}

// Whether cases or the labels of one are so many that looking them up is sooner.
fn are_many(cases: &[Case]) -> bool {
    if cases.len() > FEW {
        return true;
    }
    for case in cases {
        if case.labels.len() > FEW {
            return true;
        }
    }
    false
}

// What is known of a union's cases.
fn known_of(alloc: Global, cases: &[Case]) -> Result<Known, OutOfMemory>
    ensures { IfOk result (λ known. knows_cases (cases_shape cases.now) known) }
{
    if !are_many(cases) {
        return Ok(Known::Nothing);
    }
    let index = CaseIndex::of(alloc, cases)?;
    Ok(Known::Cases(index))
}

// The guide of a collection by that of its elements.
#[cycle(guiding)]
fn elem_guide(alloc: Global, elem: &Elem) -> Result<Guide, OutOfMemory>
    ensures { IfOk result (λ g. IsGuide (type_shape elem.now.ty) (part_at g 0)) }
{
    let part = guide_of(alloc, &elem.ty)?;
    if !part.tells() {
        return Ok(part);
    }
    let mut parts = Row::new(alloc);
    parts.push(part)?;
    Ok(Guide {
        known: Known::Nothing,
        parts,
    })
}

#[cycle(guiding)]
fn map_guide(alloc: Global, kind: &MapType) -> Result<Guide, OutOfMemory>
    ensures { IfOk result (λ g. IsGuide (type_shape (out-MapType kind.now).key.ty) (part_at g 0) × IsGuide (type_shape (out-MapType kind.now).value.ty) (part_at g 1)) }
{
    let key = guide_of(alloc, &kind.key.ty)?;
    let value = guide_of(alloc, &kind.value.ty)?;
    let mut parts = Row::new(alloc);
    parts.push(key)?;
    parts.push(value)?;
    Ok(Guide {
        known: Known::Nothing,
        parts,
    })
}

#[cycle(guiding)]
fn members_guide(alloc: Global, members: &[Member]) -> Result<Guide, OutOfMemory>
    ensures { IfOk result (λ g. AreGuides (members_shape members.now) g 0) }
{
    let mut parts = Row::new(alloc);
    let mut tell = false;
    for member in members {
        let part = guide_of(alloc, &member.ty)?;
        tell = tell || part.tells();
        parts.push(part)?;
    }
    if !tell {
        return Ok(Guide::nothing(alloc));
    }
    Ok(Guide {
        known: Known::Nothing,
        parts,
    })
}

// The guides of a union's discriminator and of its cases.
#[cycle(guiding)]
fn union_parts(alloc: Global, kind: &UnionType) -> Result<Row<Guide>, OutOfMemory>
    ensures { IfOk result (HasUnionGuides (type_shape (out-UnionType kind.now).disc) (out-UnionType kind.now).cases) }
{
    let mut parts = Row::new(alloc);
    let disc = guide_of(alloc, &kind.disc)?;
    parts.push(disc)?;
    for case in kind.cases.as_slice() {
        let part = guide_of(alloc, &case.ty)?;
        parts.push(part)?;
    }
    Ok(parts)
}

#[cycle(guiding)]
fn union_guide(alloc: Global, kind: &UnionType) -> Result<Guide, OutOfMemory>
    ensures { IfOk result (IsGuide (shape (union_tree kind.now))) }
{
    let known = known_of(alloc, kind.cases.as_slice())?;
    let parts = union_parts(alloc, kind)?;
    Ok(Guide { known, parts })
}

#[cycle(guiding)]
#[tactic(auto, using(type_trees::proofs::Views::tree_rules))]
fn guide_of(alloc: Global, ty: &XType) -> Result<Guide, OutOfMemory>
    ensures { IfOk result (IsGuide (type_shape ty.now)) }
{
    match ty {
        XType::Prim(_) | XType::Str(_) | XType::Mask(_) => Ok(Guide::nothing(alloc)),
        XType::Enum(kind) => enum_guide(alloc, kind),
        XType::Seq(kind) => elem_guide(alloc, &kind.elem),
        XType::Array(kind) => elem_guide(alloc, &kind.elem),
        XType::Map(kind) => map_guide(alloc, kind),
        XType::Struct(kind) => members_guide(alloc, kind.members.as_slice()),
        XType::Union(kind) => union_guide(alloc, kind),
        XType::Alias(kind) => guide_of(alloc, &kind.ty),
    }
}

impl Guide {
    /// The guide of a type. It knows what is worth knowing beforehand, and nothing where memory is wanting. It takes memory in the size of
    /// the type.
    pub fn of(alloc: Global, ty: &XType) -> Guide
        ensures { IsGuide (type_shape ty.now) result }
    {
        match guide_of(alloc, ty) {
            Ok(guide) => guide,
            Err(_) => Guide::nothing(alloc),
        }
    }
}
