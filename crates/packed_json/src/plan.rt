//! What is settled of a type once: in which order its members' names come, what stands before each value, and which case of a union a number
//! selects.
ghost use Rattle.std.specs.Prelude.{◌≡◌, ◌<◌, ◌++◌, ◌∷◌, [], ℕ, Bool, length, map, IfSome};
ghost use Rattle.json.specs.Print.{quoted};
ghost use Rattle.serde_json.specs.Data.{Data};
ghost use Rattle.type_trees.specs.View.{tree, map_tree, struct_tree, union_tree};
ghost use Rattle.json_values.specs.Names.{name_text};
ghost use Rattle.packed_json.specs.Plans.{IsPlanOf, IsPlanned, IsOrderOf, PlansMembers, PlansCases, PlansLiterals, IsListPlanOf, entries_by, put_if, key_text, meaning, part, struct_meaning, list_meaning, literal_meaning};

use crate::texts::{put, put_quoted};
use std::alloc::Global;
use std::collections::BTreeMap;
use try_construct::CaseIndex;
use type_trees::{
    Case, Elem, EnumType, Literal, MapType, Member, Name, StructType, UnionType, XType,
};
use xt_lists::{Row, Text};
use xt_shapes::Prim;

/// How values of a type are written.
#[derive(Debug)]
#[cycle(plan)]
pub enum Plan {
    Prim(Prim),
    Text,
    Mask,
    /// The names of an enumeration's literals, in quotes, by their values.
    Enum(BTreeMap<i128, Text>),
    /// The items of a sequence or of an array.
    List(Box<Plan>),
    /// The pairs of a map.
    Map(Box<PlannedMap>),
    /// The members of a structure, in the order of their names.
    Struct(Row<PlannedMember>),
    /// The discriminator of a union and the value of the case that it selects.
    Union(Box<PlannedUnion>),
}

// By hand, so that it is proved here once, and not in each crate that lets one go.
impl Drop for Plan {
    #[cycle(dropping)]
    fn drop(self) {
        match self {
            Plan::Prim(_) => {}
            Plan::Text => {}
            Plan::Mask => {}
            Plan::Enum(_) => {}
            Plan::List(_) => {}
            Plan::Map(_) => {}
            Plan::Struct(_) => {}
            Plan::Union(_) => {}
        }
    }
}

/// How the keys of a map are written, and how the values.
#[derive(Debug, Drop)]
#[cycle(plan)]
pub struct PlannedMap {
    pub key: Plan,
    pub value: Plan,
}

/// How the discriminator of a union is written, which case its number selects, and how the value of each case is written, in declared order.
#[derive(Debug, Drop)]
#[cycle(plan)]
pub struct PlannedUnion {
    pub disc: Plan,
    pub index: CaseIndex,
    pub cases: Row<Plan>,
}

/// A member: its position in declared order, what stands before its value (a comma, its name in quotes and a colon; the first member that is
/// written goes without the comma), and how the value is written.
#[derive(Debug, Drop)]
#[cycle(plan)]
pub struct PlannedMember {
    pub at: usize,
    pub key: Text,
    pub plan: Plan,
}

// A name in quotes. A hashed name has none.
fn quoted_name(alloc: Global, name: &Name) -> Option<Text>
    ensures { IfSome result (λ text. text ≡ quoted (name_text name.now)) }
{
    let Name::Full(full) = name else {
        return None;
    };
    let mut text = Text::new(alloc);
    put_quoted(full.octets(), &mut text)?;
    Some(text)
}

// The names of literals, in quotes, by their values.
fn plan_literals(alloc: Global, literals: &[Literal]) -> Option<BTreeMap<i128, Text>>
    ensures { IfSome result (λ named. PlansLiterals literals.now named) }
{
    let mut named = BTreeMap::new(alloc);
    let mut at = literals.len();
    // from the last, so that the first literal with a value is kept
    'literals: while at > 0 {
        at -= 1;
        let literal = &literals[at];
        let text = quoted_name(alloc, &literal.name)?;
        let Ok(_) = named.insert(i128::from(literal.value), text) else {
            return None;
        };
    }
    Some(named)
}

// Lists a member under its name, which no other one has.
fn put_name<'n>(member: &'n Member, at: usize, order: &mut BTreeMap<&'n [u8], usize>) -> Option<()>
    ensures { IfSome result (λ u. (there : ℕ → Bool) (f : ℕ → Data) → entries_by there f order.new.entries ≡ put_if (there at) (name_text member.now.name) (f at) (entries_by there f order.old.entries)) }
{
    let Name::Full(full) = &member.name else {
        return None;
    };
    match order.insert(full.octets(), at) {
        Ok(None) => Some(()),
        Ok(Some(_)) | Err(_) => None,
    }
}

// The positions of members by their names.
fn order_of(alloc: Global, members: &[Member]) -> Option<BTreeMap<&[u8], usize>>
    ensures { IfSome result (λ order. IsOrderOf members.now order.entries) }
{
    let mut order = BTreeMap::new(alloc);
    for at in 0..members.len() {
        put_name(&members[at], at, &mut order)?;
    }
    Some(order)
}

// What stands before a member's value.
fn key_of(alloc: Global, name: &[u8]) -> Option<Text>
    ensures { IfSome result (λ text. text ≡ key_text name.now) }
{
    let mut text = Text::new(alloc);
    put(b",", &mut text)?;
    put_quoted(name, &mut text)?;
    put(b":", &mut text)?;
    Some(text)
}

#[cycle(planning)]
fn plan_member(alloc: Global, members: &[Member], name: &[u8], at: usize) -> Option<PlannedMember>
    ensures { IfSome result (λ p. IsPlanned members.now (name.entry, at) (part p)) }
{
    if at >= members.len() {
        return None;
    }
    let key = key_of(alloc, name)?;
    let plan = plan_of(alloc, &members[at].ty)?;
    Some(PlannedMember { at, key, plan })
}

#[cycle(planning)]
fn plan_members(
    alloc: Global,
    members: &[Member],
    order: &BTreeMap<&[u8], usize>,
) -> Option<Row<PlannedMember>>
    ensures { IfSome result (λ planned. PlansMembers members.now order.now.entries (map part planned)) }
{
    let mut planned = Row::new(alloc);
    for (name, at) in order.iter() {
        let member = plan_member(alloc, members, name, *at)?;
        let Ok(()) = planned.push(member) else {
            return None;
        };
    }
    Some(planned)
}

#[cycle(planning)]
fn plan_structure(alloc: Global, kind: &StructType) -> Option<Plan>
    ensures { IfSome result (λ plan. IsPlanOf (struct_tree kind.now) (meaning plan)) }
{
    let members = kind.members.as_slice();
    let order = order_of(alloc, members)?;
    let planned = plan_members(alloc, members, &order)?;
    Some(Plan::Struct(planned))
}

#[cycle(planning)]
fn plan_list(alloc: Global, elem: &Elem) -> Option<Plan>
    ensures { IfSome result (λ plan. IsListPlanOf (tree elem.now.ty) (meaning plan)) }
{
    let item = plan_of(alloc, &elem.ty)?;
    match Box::new(alloc, item) {
        Ok(item) => Some(Plan::List(item)),
        Err(_) => None,
    }
}

#[cycle(planning)]
fn plan_map(alloc: Global, kind: &MapType) -> Option<Plan>
    ensures { IfSome result (λ plan. IsPlanOf (map_tree kind.now) (meaning plan)) }
{
    let key = plan_of(alloc, &kind.key.ty)?;
    let value = plan_of(alloc, &kind.value.ty)?;
    match Box::new(alloc, PlannedMap { key, value }) {
        Ok(planned) => Some(Plan::Map(planned)),
        Err(_) => None,
    }
}

#[cycle(planning)]
fn plan_cases(alloc: Global, cases: &[Case]) -> Option<Row<Plan>>
    ensures { IfSome result (λ planned. PlansCases cases.now (map meaning planned)) }
{
    let mut planned = Row::new(alloc);
    for case in cases {
        let plan = plan_of(alloc, &case.ty)?;
        let Ok(()) = planned.push(plan) else {
            return None;
        };
    }
    Some(planned)
}

#[cycle(planning)]
fn plan_union(alloc: Global, kind: &UnionType) -> Option<Plan>
    ensures { IfSome result (λ plan. IsPlanOf (union_tree kind.now) (meaning plan)) }
{
    let disc = plan_of(alloc, &kind.disc)?;
    let Ok(index) = CaseIndex::of(alloc, kind.cases.as_slice()) else {
        return None;
    };
    let cases = plan_cases(alloc, kind.cases.as_slice())?;
    match Box::new(alloc, PlannedUnion { disc, index, cases }) {
        Ok(planned) => Some(Plan::Union(planned)),
        Err(_) => None,
    }
}

/// The plan of a type. None says nothing: the name of a member or of a literal is hashed or would be escaped, two members have one
/// name, or memory is wanting.
#[cycle(planning)]
#[tactic(auto, using(type_trees::proofs::Views::tree_rules))]
pub fn plan_of(alloc: Global, ty: &XType) -> Option<Plan>
    ensures { IfSome result (λ plan. IsPlanOf (tree ty.now) (meaning plan)) }
{
    match ty {
        XType::Prim(prim) => Some(Plan::Prim(*prim)),
        XType::Str(_) => Some(Plan::Text),
        XType::Mask(_) => Some(Plan::Mask),
        XType::Enum(kind) => {
            let named = plan_literals(alloc, kind.literals.as_slice())?;
            Some(Plan::Enum(named))
        }
        XType::Seq(kind) => {
            let plan = plan_list(alloc, &kind.elem)?;
            Some(plan)
        }
        XType::Array(kind) => {
            let plan = plan_list(alloc, &kind.elem)?;
            Some(plan)
        }
        XType::Map(kind) => plan_map(alloc, kind),
        XType::Struct(kind) => plan_structure(alloc, kind),
        XType::Union(kind) => plan_union(alloc, kind),
        XType::Alias(kind) => plan_of(alloc, &kind.ty),
    }
}
