ghost use Rattle.std.specs.Prelude.{◌≡◌, ◌++◌, ◌∷◌, [], map, IfOk};
ghost use Rattle.type_trees.specs.Trees as trees;
ghost use Rattle.type_trees.specs.View.{tree, elem_tree, member_tree, case_tree, members_of, cases_tree};
ghost use Rattle.object_formats.specs.View as view;
ghost use Rattle.object_walks.specs.Resolving as spec;
ghost use Rattle.object_walks.specs.Walking.{standing};

use crate::leaves::{ext_of, flags_of, has_flag, in_octet, literals_of, try_of};
use crate::structure_parts::StructureParts;
use object_formats::{ObjectCase, ObjectFlag, ObjectLiteral, ObjectMember};
use std::alloc::Global;
use type_trees::{
    AliasType, ArrayType, Case, Elem, EnumType, MapType, MaskType, Member, SeqType, StructType,
    UnionType, XType,
};
use type_values::{copy_name, copy_optional_text, copy_plain};
use xt_lists::{OutOfMemory, Row, Text};

#[tactic(auto, using(type_trees::proofs::Views::tree_rules))]
pub(crate) fn sequence_of(alloc: Global, bound: u32, elem: Elem) -> Result<XType, OutOfMemory>
    ensures { IfOk result (λ t. tree t ≡ trees.sequence bound (elem_tree elem).0 (elem_tree elem).1) }
{
    Ok(XType::Seq(Box::new(alloc, SeqType { bound, elem })?))
}

#[tactic(auto, using(type_trees::proofs::Views::tree_rules))]
pub(crate) fn array_of(alloc: Global, dims: &Row<u32>, elem: Elem) -> Result<XType, OutOfMemory>
    ensures { IfOk result (λ t. tree t ≡ trees.array dims.now (elem_tree elem).0 (elem_tree elem).1) }
{
    let dims = copy_plain(alloc, dims)?;
    Ok(XType::Array(Box::new(alloc, ArrayType { dims, elem })?))
}

#[tactic(auto, using(type_trees::proofs::Views::tree_rules))]
pub(crate) fn map_of(
    alloc: Global,
    bound: u32,
    key: Elem,
    value: Elem,
) -> Result<XType, OutOfMemory>
    ensures { IfOk result (λ t. tree t ≡ trees.map_of bound (elem_tree key).0 (elem_tree key).1 (elem_tree value).0 (elem_tree value).1) }
{
    Ok(XType::Map(Box::new(alloc, MapType { bound, key, value })?))
}

#[tactic(auto, using(type_trees::proofs::Views::tree_rules))]
pub(crate) fn alias_of(alloc: Global, name: &Option<Text>, ty: XType) -> Result<XType, OutOfMemory>
    ensures { IfOk result (λ t. tree t ≡ trees.alias name.now (tree ty)) }
{
    let name = copy_optional_text(alloc, name)?;
    Ok(XType::Alias(Box::new(alloc, AliasType { name, ty })?))
}

#[tactic(auto, using(type_trees::proofs::Views::tree_rules))]
pub(crate) fn enum_of(
    alloc: Global,
    name: &Option<Text>,
    flags: u16,
    bits: u16,
    literals: &[ObjectLiteral],
) -> Result<XType, OutOfMemory>
    ensures { IfOk result (λ t. tree t ≡ trees.enumeration name.now (spec.ext_of flags) (spec.in_octet bits) (map spec.literal_of literals.now)) }
{
    let kind = EnumType {
        name: copy_optional_text(alloc, name)?,
        ext: ext_of(flags),
        bits: in_octet(bits),
        literals: literals_of(alloc, literals)?,
    };
    Ok(XType::Enum(Box::new(alloc, kind)?))
}

#[tactic(auto, using(type_trees::proofs::Views::tree_rules))]
pub(crate) fn mask_of(
    alloc: Global,
    name: &Option<Text>,
    bits: u16,
    flags: &[ObjectFlag],
) -> Result<XType, OutOfMemory>
    ensures { IfOk result (λ t. tree t ≡ trees.bitmask name.now (spec.in_octet bits) (map spec.flag_of flags.now)) }
{
    let kind = MaskType {
        name: copy_optional_text(alloc, name)?,
        bits: in_octet(bits),
        flags: flags_of(alloc, flags)?,
    };
    Ok(XType::Mask(Box::new(alloc, kind)?))
}

#[tactic(auto, using(type_trees::proofs::Views::tree_rules))]
pub(crate) fn structure_of(
    alloc: Global,
    name: &Option<Text>,
    flags: u16,
    parts: StructureParts,
) -> Result<XType, OutOfMemory>
    ensures { IfOk result (λ t. tree t ≡ trees.structure (record { name = name.now; ext = spec.ext_of flags; nested = spec.bit flags 8; hashed_ids = spec.bit flags 16; bases = (standing parts).0 }) (members_of (standing parts).1)) }
{
    let name = copy_optional_text(alloc, name)?;
    let StructureParts { bases, members } = parts;
    let kind = StructType {
        name,
        ext: ext_of(flags),
        nested: has_flag(flags, 0x08),
        hashed_ids: has_flag(flags, 0x10),
        bases,
        members,
    };
    Ok(XType::Struct(Box::new(alloc, kind)?))
}

#[tactic(auto, using(type_trees::proofs::Views::tree_rules))]
pub(crate) fn union_of(
    alloc: Global,
    name: &Option<Text>,
    flags: u16,
    disc_flags: u16,
    disc: XType,
    cases: Row<Case>,
) -> Result<XType, OutOfMemory>
    ensures { IfOk result (λ t. tree t ≡ trees.union (record { name = name.now; ext = spec.ext_of flags; nested = spec.bit flags 8; hashed_ids = spec.bit flags 16; disc_key = spec.bit disc_flags 32 }) (tree disc) (cases_tree cases)) }
{
    let name = copy_optional_text(alloc, name)?;
    let kind = UnionType {
        name,
        ext: ext_of(flags),
        nested: has_flag(flags, 0x08),
        hashed_ids: has_flag(flags, 0x10),
        disc,
        disc_key: has_flag(disc_flags, 0x20),
        cases,
    };
    Ok(XType::Union(Box::new(alloc, kind)?))
}

#[tactic(auto, using(type_trees::proofs::Views::tree_rules))]
fn member_of(alloc: Global, object: &ObjectMember, ty: XType) -> Result<Member, OutOfMemory>
    ensures { IfOk result (λ m. member_tree m ≡ (spec.member_head (view.member object.now), tree ty)) }
{
    Ok(Member {
        id: object.id,
        name: copy_name(alloc, &object.name)?,
        ty,
        tc: try_of(object.flags),
        optional: has_flag(object.flags, 0x08),
        must_understand: has_flag(object.flags, 0x10),
        key: has_flag(object.flags, 0x20),
    })
}

/// Appends a member of this type.
pub(crate) fn push_member(
    alloc: Global,
    members: &mut Row<Member>,
    object: &ObjectMember,
    ty: XType,
) -> Result<(), OutOfMemory>
    ensures { IfOk result (λ u. map member_tree members.new ≡ map member_tree members.old ++ (spec.member_head (view.member object.now), tree ty) ∷ []) }
{
    let member = member_of(alloc, object, ty)?;
    members.push(member)
}

#[tactic(auto, using(type_trees::proofs::Views::tree_rules))]
fn case_of(alloc: Global, object: &ObjectCase, ty: XType) -> Result<Case, OutOfMemory>
    ensures { IfOk result (λ c. case_tree c ≡ (spec.case_head (view.case object.now), tree ty)) }
{
    let labels = copy_plain(alloc, &object.labels)?;
    let name = copy_name(alloc, &object.name)?;
    Ok(Case {
        id: object.id,
        name,
        ty,
        tc: try_of(object.flags),
        labels,
        is_default: has_flag(object.flags, 0x40),
    })
}

/// Appends a case of this type.
pub(crate) fn push_case(
    alloc: Global,
    cases: &mut Row<Case>,
    object: &ObjectCase,
    ty: XType,
) -> Result<(), OutOfMemory>
    ensures { IfOk result (λ u. map case_tree cases.new ≡ map case_tree cases.old ++ (spec.case_head (view.case object.now), tree ty) ∷ []) }
{
    let case = case_of(alloc, object, ty)?;
    cases.push(case)
}
