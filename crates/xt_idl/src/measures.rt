//! How large declared types are, and which keys may have them: kept beside each declaration, so that no use looks into one again.
ghost use Rattle.std.specs.Prelude.{◌≡◌, ◌++◌, ◌+◌, ◌≤◌, min, map, slice_get, true, ◌*◌};
ghost use Rattle.xt_shapes.specs.Shape.{product};
ghost use Rattle.type_trees.specs.Trees as trees;
ghost use Rattle.type_trees.specs.View.{members_of, cases_of};
ghost use Rattle.idl_types.specs.Uses.{tree_at, whole};
ghost use Rattle.idl_types.specs.Definitions.{declared, defined, member_whole, case_whole, members_before};
ghost use Rattle.xt_idl.specs.Measures as spec;

use crate::known::Known;
use idl_types::{Definition, StructDefinition, UnionDefinition, Used, UsedCase, UsedMember};
use node_rules::is_map_key;
use type_trees::XType;
use type_trees::sizes::{TOO_MANY, elements_of};
use xt_lists::Text;
use xt_shapes::Prim;

/// One more than the depth that a valid type may have.
const TOO_DEEP: u64 = 17;

/// What the members of a structure come to.
#[derive(Clone, Copy)]
pub(crate) struct MembersMeasure {
    pub(crate) depth: u64,
    pub(crate) nodes: u64,
    pub(crate) weight: u64,
    pub(crate) has_key: bool,
    /// Whether each member is keyable and not optional.
    pub(crate) all_keyable: bool,
    /// Whether each key member is.
    pub(crate) keys_keyable: bool,
}

/// What the cases of a union come to.
#[derive(Clone, Copy)]
pub(crate) struct CasesMeasure {
    pub(crate) depth: u64,
    pub(crate) nodes: u64,
    /// The greatest weight of one.
    pub(crate) greatest: u64,
}

/// The depth, the number of nodes and the weight of a type, each up to one more than a valid type may have, and which keys may have it.
#[derive(Clone, Copy)]
pub(crate) struct Measure {
    pub(crate) depth: u64,
    pub(crate) nodes: u64,
    pub(crate) weight: u64,
    /// Whether it is, behind its aliases, a primitive, string, enumeration or bitmask.
    pub(crate) is_leaf: bool,
    /// Whether a key member may have it.
    pub(crate) is_keyable: bool,
    /// Whether a map may have it as its key.
    pub(crate) is_map_key: bool,
    /// Of a structure's members; of none for another type.
    pub(crate) members: MembersMeasure,
}

fn deep(depth: u64) -> u64
    ensures { result ≡ spec.deep depth }
{
    depth.min(TOO_DEEP)
}

fn large(count: u64) -> u64
    ensures { result ≡ spec.large count }
{
    count.min(TOO_MANY)
}

fn nothing() -> MembersMeasure
    ensures { result ≡ spec.nothing }
{
    MembersMeasure {
        depth: 0,
        nodes: 0,
        weight: 0,
        has_key: false,
        all_keyable: true,
        keys_keyable: true,
    }
}

/// Of a primitive, string, enumeration or bitmask.
fn of_leaf(is_map_key: bool) -> Measure
    ensures { result ≡ record { depth = 1; nodes = 1; weight = 1; is_leaf = true; is_keyable = true; is_map_key = is_map_key; members = spec.nothing } }
{
    Measure {
        depth: 1,
        nodes: 1,
        weight: 1,
        is_leaf: true,
        is_keyable: true,
        is_map_key,
        members: nothing(),
    }
}

fn of_prim(prim: Prim) -> Measure
    ensures { result ≡ spec.measured (trees.prim prim) }
{
    of_leaf(is_map_key(&XType::Prim(prim)))
}

/// Of a collection over so much.
fn of_collection(depth: u64, nodes: u64, weight: u64, is_keyable: bool) -> Measure
    requires deep { depth ≤ 17 }
    requires large { nodes ≤ 131074 }
    ensures { result ≡ spec.of_collection depth nodes weight is_keyable }
{
    Measure {
        depth: deep(1 + depth),
        nodes: large(1 + nodes),
        weight,
        is_leaf: false,
        is_keyable,
        is_map_key: false,
        members: nothing(),
    }
}

fn measure_of(measures: &[Measure], at: usize) -> Option<Measure>
    ensures { result ≡ slice_get measures.now at }
{
    measures.get(at).copied()
}

/// Of the type at a place.
#[tactic(auto, using(crate::proofs::Measuring::at_some, crate::proofs::Measuring::at_none))]
fn measure_at(known: &Known<'_>, at: usize) -> Measure
    ensures { result ≡ spec.measured (tree_at (declared known.now.types.now) at) }
{
    match measure_of(known.measures, at) {
        Some(measure) => measure,
        None => of_prim(Prim::Boolean),
    }
}

/// The weight of an array over an element's.
#[tactic(auto, using(type_trees::proofs::OfSizes::Capped::product_fits, crate::proofs::Measuring::elements_large))]
fn array_weight(dims: &[u32], weight: u64) -> u64
    requires { weight ≤ 65537 }
    ensures { result ≡ spec.large (1 + product dims.now * weight) }
{
    large(1 + large(elements_of(dims)) * weight)
}

/// Of a type where it is used.
#[tactic(auto, using(idl_types::proofs::Wholes::whole_rules, crate::proofs::Measuring::array_is))]
pub(crate) fn measure_use(known: &Known<'_>, used: &Used) -> Measure
    ensures { result ≡ spec.measured (whole (declared known.now.types.now) used.now) }
{
    match used {
        Used::Prim(prim) => of_prim(*prim),
        Used::Str(_) => of_leaf(true),
        Used::Seq { elem, .. } => {
            let elem = measure_use(known, elem);
            of_collection(elem.depth, elem.nodes, 1, elem.is_leaf)
        }
        Used::Array { dims, elem, .. } => {
            let elem = measure_use(known, elem);
            let weight = array_weight(dims.as_slice(), elem.weight);
            of_collection(elem.depth, elem.nodes, weight, elem.is_leaf)
        }
        Used::Map { key, value, .. } => {
            let key = measure_use(known, key);
            let value = measure_use(known, value);
            let depth = key.depth.max(value.depth);
            of_collection(depth, key.nodes + value.nodes, 1, false)
        }
        Used::Declared(at) => measure_at(known, *at),
    }
}

fn with_member(key: bool, optional: bool, measure: Measure, sum: MembersMeasure) -> MembersMeasure
    requires sum { sum.nodes ≤ 65537 × (sum.weight ≤ 65537) }
    requires measure { measure.nodes ≤ 65537 × (measure.weight ≤ 65537) }
    ensures { result ≡ spec.with_member key optional measure sum }
{
    let may_be_key = !optional && measure.is_keyable;
    MembersMeasure {
        depth: sum.depth.max(measure.depth),
        nodes: large(sum.nodes + measure.nodes),
        weight: large(sum.weight + measure.weight),
        has_key: sum.has_key || key,
        all_keyable: sum.all_keyable && may_be_key,
        keys_keyable: sum.keys_keyable && (!key || may_be_key),
    }
}

/// Of the members that a structure has from its base.
#[tactic(auto, using(crate::proofs::Measuring::base_is))]
fn measure_base(known: &Known<'_>, base: Option<usize>) -> MembersMeasure
    ensures { result ≡ spec.of_members (members_of (members_before (declared known.now.types.now) base)) }
{
    match base {
        None => nothing(),
        Some(at) => measure_at(known, at).members,
    }
}

/// Of a structure's members: those of its base, and its own.
fn measure_members(known: &Known<'_>, base: Option<usize>, own: &[UsedMember]) -> MembersMeasure
    ensures { let ts = declared known.now.types.now in result ≡ spec.of_members (members_of (members_before ts base ++ map (member_whole ts) own.now)) }
{
    let mut sum = measure_base(known, base);
    for member in own {
        let measure = measure_use(known, &member.used);
        sum = with_member(member.key, member.optional, measure, sum);
    }
    sum
}

fn of_structure(sum: MembersMeasure) -> Measure
    requires { sum.depth ≤ 17 × (sum.nodes ≤ 65537 × (sum.weight ≤ 65537)) }
    ensures { result ≡ spec.of_structure sum }
{
    Measure {
        depth: deep(1 + sum.depth),
        nodes: large(1 + sum.nodes),
        weight: large(1 + sum.weight),
        is_leaf: false,
        is_keyable: if sum.has_key {
            sum.keys_keyable
        } else {
            sum.all_keyable
        },
        is_map_key: false,
        members: sum,
    }
}

fn with_case(measure: Measure, sum: CasesMeasure) -> CasesMeasure
    requires { sum.nodes ≤ 65537 × (measure.nodes ≤ 65537) }
    ensures { result ≡ spec.with_case measure sum }
{
    CasesMeasure {
        depth: sum.depth.max(measure.depth),
        nodes: large(sum.nodes + measure.nodes),
        greatest: sum.greatest.max(measure.weight),
    }
}

fn measure_cases(known: &Known<'_>, cases: &[UsedCase]) -> CasesMeasure
    ensures { result ≡ spec.of_cases (cases_of (map (case_whole (declared known.now.types.now)) cases.now)) }
{
    let mut sum = CasesMeasure {
        depth: 0,
        nodes: 0,
        greatest: 0,
    };
    for case in cases {
        let measure = measure_use(known, &case.used);
        sum = with_case(measure, sum);
    }
    sum
}

fn of_union(disc: Measure, sum: CasesMeasure) -> Measure
    requires disc { disc.depth ≤ 17 × (disc.nodes ≤ 65537) }
    requires cases { sum.depth ≤ 17 × (sum.nodes ≤ 65537 × (sum.greatest ≤ 65537)) }
    ensures { result ≡ spec.of_union disc sum }
{
    Measure {
        depth: deep(1 + disc.depth.max(sum.depth)),
        nodes: large(1 + disc.nodes + sum.nodes),
        weight: large(2 + sum.greatest),
        is_leaf: false,
        is_keyable: false,
        is_map_key: false,
        members: nothing(),
    }
}

fn of_alias(measure: Measure) -> Measure
    requires { measure.depth ≤ 17 × (measure.nodes ≤ 65537) }
    ensures { result ≡ spec.of_alias measure }
{
    Measure {
        depth: deep(1 + measure.depth),
        nodes: large(1 + measure.nodes),
        weight: measure.weight,
        is_leaf: measure.is_leaf,
        is_keyable: measure.is_keyable,
        is_map_key: measure.is_map_key,
        members: nothing(),
    }
}

/// Of a structure.
#[tactic(auto, using(crate::proofs::Measuring::structure_is))]
fn measure_structure(known: &Known<'_>, name: &Text, kind: &StructDefinition) -> Measure
    ensures { result ≡ spec.measured (defined (declared known.now.types.now) name.now (Definition.Struct kind.now)) }
{
    of_structure(measure_members(known, kind.base, kind.members.as_slice()))
}

/// Of a union.
fn measure_union(known: &Known<'_>, name: &Text, kind: &UnionDefinition) -> Measure
    ensures { result ≡ spec.measured (defined (declared known.now.types.now) name.now (Definition.Union kind.now)) }
{
    let disc = measure_use(known, &kind.disc);
    of_union(disc, measure_cases(known, kind.cases.as_slice()))
}

/// Of a definition over the types that were declared before.
pub(crate) fn measure_definition(known: &Known<'_>, name: &Text, definition: &Definition) -> Measure
    ensures { result ≡ spec.measured (defined (declared known.now.types.now) name.now definition.now) }
{
    match definition {
        Definition::Enum(_) => of_leaf(true),
        Definition::Mask(_) => of_leaf(false),
        Definition::Struct(kind) => measure_structure(known, name, kind),
        Definition::Union(kind) => measure_union(known, name, kind),
        Definition::Alias(used) => of_alias(measure_use(known, used)),
    }
}
