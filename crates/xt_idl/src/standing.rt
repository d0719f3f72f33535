//! What stands for a type where a definition uses it, and the members and cases with that.
ghost use Rattle.std.specs.Prelude.{◌≡◌, ◌++◌, map, Some, IfOk, OnOk};
ghost use Rattle.type_trees.specs.Trees as trees;
ghost use Rattle.type_trees.specs.View.{tree, member_tree, case_tree, struct_tree, union_tree, members_of, cases_of};
ghost use Rattle.idl_types.specs.Definitions.{member_head, case_head};
ghost use Rattle.xt_idl.specs.Standing.{stood_by};

use idl_types::{StructDefinition, UnionDefinition, Used, UsedCase, UsedMember, boxed};
use std::alloc::Global;
use type_trees::{
    ArrayType, Base, Case, Elem, MapType, Member, SeqType, StructType, UnionType, XType,
};
use type_values::{copy_name, copy_plain};
use xt_lists::{OutOfMemory, Row, Text};

/// What stands for a type where a definition uses it.
pub(crate) trait Stands {
    ghost use Rattle.std.specs.Prelude.{◌≡◌, IfOk};
    ghost use Rattle.type_trees.specs.Trees.{Tree};
    ghost use Rattle.type_trees.specs.View.{tree};
    ghost use Rattle.idl_types.specs.declared.uses.Used.{Used};

    ghost stood: { Self → Used → Tree };

    fn stand(&self, alloc: Global, used: &Used) -> Result<XType, OutOfMemory>
        ensures { IfOk result (λ t. tree t ≡ stood self.now used.now) };
}

/// What stands for the type that is declared at a place.
pub(crate) trait Places {
    ghost use Rattle.std.specs.Prelude.{◌≡◌, ℕ, IfOk};
    ghost use Rattle.type_trees.specs.Trees.{Tree};
    ghost use Rattle.type_trees.specs.View.{tree};

    ghost placed: { Self → ℕ → Tree };

    fn at(&self, alloc: Global, at: usize) -> Result<XType, OutOfMemory>
        ensures { IfOk result (λ t. tree t ≡ placed self.now at) };
}

/// A type with what stands at the places of the declared types in it.
#[tactic(auto, using(type_trees::proofs::Views::tree_rules, crate::proofs::Stood::stood_rules))]
pub(crate) fn with_places<P: Places>(
    alloc: Global,
    places: &P,
    used: &Used,
) -> Result<XType, OutOfMemory>
    ensures { IfOk result (λ t. tree t ≡ stood_by (P.placed places.now) used.now) }
{
    match used {
        Used::Prim(prim) => Ok(XType::Prim(*prim)),
        Used::Str(bound) => Ok(XType::Str(*bound)),
        Used::Seq { bound, tc, elem } => {
            let ty = with_places(alloc, places, elem)?;
            let elem = Elem { ty, tc: *tc };
            let kind = SeqType {
                bound: *bound,
                elem,
            };
            Ok(XType::Seq(boxed(alloc, kind)?))
        }
        Used::Array { dims, tc, elem } => {
            let ty = with_places(alloc, places, elem)?;
            let elem = Elem { ty, tc: *tc };
            let dims = copy_plain(alloc, dims)?;
            Ok(XType::Array(boxed(alloc, ArrayType { dims, elem })?))
        }
        Used::Map {
            bound,
            key_tc,
            key,
            tc,
            value,
        } => {
            let key = Elem {
                ty: with_places(alloc, places, key)?,
                tc: *key_tc,
            };
            let value = Elem {
                ty: with_places(alloc, places, value)?,
                tc: *tc,
            };
            let kind = MapType {
                bound: *bound,
                key,
                value,
            };
            Ok(XType::Map(boxed(alloc, kind)?))
        }
        Used::Declared(at) => places.at(alloc, *at),
    }
}

#[tactic(auto, using(type_trees::proofs::Views::tree_rules))]
fn member_of<S: Stands>(
    alloc: Global,
    stands: &S,
    member: &UsedMember,
) -> Result<Member, OutOfMemory>
    ensures { IfOk result (λ m. member_tree m ≡ (member_head member.now, S.stood stands.now member.now.used)) }
{
    Ok(Member {
        id: member.id,
        name: copy_name(alloc, &member.name)?,
        ty: stands.stand(alloc, &member.used)?,
        tc: member.tc,
        optional: member.optional,
        must_understand: member.must_understand,
        key: member.key,
    })
}

/// Appends a structure's own members.
#[tactic(auto, using(std::proofs::lemmas::List::map_push))]
pub(crate) fn append_members<S: Stands>(
    alloc: Global,
    stands: &S,
    own: &[UsedMember],
    members: &mut Row<Member>,
) -> Result<(), OutOfMemory>
    ensures { OnOk result (map member_tree members.new ≡ map member_tree members.old ++ map (λ m. (member_head m, S.stood stands.now m.used)) own.now) }
{
    for member in own {
        members.push(member_of(alloc, stands, member)?)?;
    }
    Ok(())
}

#[tactic(auto, using(type_trees::proofs::Views::tree_rules))]
fn case_of<S: Stands>(alloc: Global, stands: &S, case: &UsedCase) -> Result<Case, OutOfMemory>
    ensures { IfOk result (λ c. case_tree c ≡ (case_head case.now, S.stood stands.now case.now.used)) }
{
    Ok(Case {
        id: case.id,
        name: copy_name(alloc, &case.name)?,
        ty: stands.stand(alloc, &case.used)?,
        tc: case.tc,
        labels: copy_plain(alloc, &case.labels)?,
        is_default: case.is_default,
    })
}

#[tactic(auto, using(std::proofs::lemmas::List::map_push))]
pub(crate) fn cases_of<S: Stands>(
    alloc: Global,
    stands: &S,
    cases: &[UsedCase],
) -> Result<Row<Case>, OutOfMemory>
    ensures { IfOk result (λ row. map case_tree row ≡ map (λ c. (case_head c, S.stood stands.now c.used)) cases.now) }
{
    let mut row = Row::new(alloc);
    for case in cases {
        row.push(case_of(alloc, stands, case)?)?;
    }
    Ok(row)
}

#[tactic(auto, using(type_trees::proofs::Views::tree_rules))]
pub(crate) fn structure_of(
    name: Text,
    kind: &StructDefinition,
    bases: Row<Base>,
    members: Row<Member>,
) -> StructType
    ensures { struct_tree result ≡ trees.structure (record { name = Some name; ext = kind.now.ext; nested = kind.now.nested; hashed_ids = kind.now.hashed_ids; bases = bases }) (members_of (map member_tree members)) }
{
    StructType {
        name: Some(name),
        ext: kind.ext,
        nested: kind.nested,
        hashed_ids: kind.hashed_ids,
        bases,
        members,
    }
}

#[tactic(auto, using(type_trees::proofs::Views::tree_rules))]
pub(crate) fn union_of(
    name: Text,
    kind: &UnionDefinition,
    disc: XType,
    cases: Row<Case>,
) -> UnionType
    ensures { union_tree result ≡ trees.union (record { name = Some name; ext = kind.now.ext; nested = kind.now.nested; hashed_ids = kind.now.hashed_ids; disc_key = kind.now.disc_key }) (tree disc) (cases_of (map case_tree cases)) }
{
    UnionType {
        name: Some(name),
        ext: kind.ext,
        nested: kind.nested,
        hashed_ids: kind.hashed_ids,
        disc,
        disc_key: kind.disc_key,
        cases,
    }
}
