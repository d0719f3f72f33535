ghost use Rattle.std.specs.Prelude.{◌≡◌, All, map, true, IfOk};
ghost use Rattle.object_formats.specs.Tables.{is_well_formed};
ghost use Rattle.object_formats.specs.View.{identifier, member, case, object};
ghost use Rattle.type_object.specs.References as spec;
ghost use Rattle.type_trees.specs.Ids.{is_object_kind};

use indexmap::IndexSet;
use object_formats::{ObjectCase, ObjectMember, TypeIdentifier, TypeObject};
use std::alloc::Global;
use type_trees::HashId;
use xt_lists::{OutOfMemory, Row};

/// The hash identifiers in an object, each once, in the order of its text. In an object that was read, the kind of each is 0xF1 or 0xF2.
#[tactic(auto, unfolding(crate::specs::References::references))]
pub fn references(alloc: Global, ty: &TypeObject) -> Result<Row<HashId>, OutOfMemory>
    ensures ids { IfOk result (λ ids. ids ≡ spec.references (object ty.now)) }
    ensures kinds { is_well_formed (object ty.now) ≡ true → IfOk result (All (λ id. is_object_kind id.kind ≡ true)) }
{
    let mut seen = IndexSet::new(alloc);
    gather(&mut seen, ty)?;
    row_of(alloc, seen.as_slice())
}

fn gather(seen: &mut IndexSet<HashId>, ty: &TypeObject) -> Result<(), OutOfMemory>
    ensures { IfOk result (λ u. seen.new.keys ≡ spec.noted seen.old.keys (spec.in_order (object ty.now))) }
{
    match ty {
        TypeObject::Alias { related, .. } => gather_in(seen, related),
        TypeObject::Enum { .. } | TypeObject::Mask { .. } => Ok(()),
        TypeObject::Struct { base, members, .. } => {
            gather_in(seen, base)?;
            gather_members(seen, members.as_slice())
        }
        TypeObject::Union { disc, cases, .. } => {
            gather_in(seen, disc)?;
            gather_cases(seen, cases.as_slice())
        }
    }
}

fn gather_members(seen: &mut IndexSet<HashId>, members: &[ObjectMember]) -> Result<(), OutOfMemory>
    ensures { IfOk result (λ u. seen.new.keys ≡ spec.noted seen.old.keys (spec.member_hashes (map member members.now))) }
{
    for member in members {
        gather_in(seen, &member.ty)?;
    }
    Ok(())
}

fn gather_cases(seen: &mut IndexSet<HashId>, cases: &[ObjectCase]) -> Result<(), OutOfMemory>
    ensures { IfOk result (λ u. seen.new.keys ≡ spec.noted seen.old.keys (spec.case_hashes (map case cases.now))) }
{
    for case in cases {
        gather_in(seen, &case.ty)?;
    }
    Ok(())
}

#[tactic(auto, using(object_formats::proofs::Views::identifier_rules, crate::proofs::Noted::noted_append))]
fn gather_in(seen: &mut IndexSet<HashId>, ty: &TypeIdentifier) -> Result<(), OutOfMemory>
    ensures { IfOk result (λ u. seen.new.keys ≡ spec.noted seen.old.keys (spec.hashes (identifier ty.now))) }
{
    match ty {
        TypeIdentifier::None | TypeIdentifier::Prim(_) | TypeIdentifier::Str { .. } => Ok(()),
        TypeIdentifier::Seq { element, .. } | TypeIdentifier::Array { element, .. } => {
            gather_in(seen, element)
        }
        TypeIdentifier::Map { value, key, .. } => {
            gather_in(seen, value)?;
            gather_in(seen, key)
        }
        TypeIdentifier::Hash(id) => note(seen, id),
    }
}

fn note(seen: &mut IndexSet<HashId>, id: &HashId) -> Result<(), OutOfMemory>
    ensures { IfOk result (λ u. seen.new.keys ≡ spec.note seen.old.keys id.now) }
{
    seen.insert(*id)?;
    Ok(())
}

/// Identifiers as a list of their own.
pub fn row_of(alloc: Global, ids: &[HashId]) -> Result<Row<HashId>, OutOfMemory>
    ensures { IfOk result (λ row. row ≡ ids.now) }
{
    let mut row = Row::new(alloc);
    row.reserve(ids.len())?;
    for id in ids {
        row.push(*id)?;
    }
    Ok(row)
}
