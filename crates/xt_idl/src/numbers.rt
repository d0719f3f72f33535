//! The numbers of members, which are the hashes of their names and their ids: kept in sets beside each structure, so that no structure looks
//! at each member of its base.
ghost use Rattle.std.specs.Prelude.{◌≡◌, ◌++◌, ◌∷◌, ◌<◌, ◌&&◌, [], List, length, map, take, IfOk, OnOk};
ghost use Rattle.idl_types.specs.Uses.{tree_at};
ghost use Rattle.idl_types.specs.Definitions.{declared, members_on, members_before};
ghost use Rattle.xt_idl.specs.Numbers as spec;
ghost use Rattle.xt_idl.specs.Numbers.{Holds};

use crate::known::Known;
use idl_types::{Definition, UsedMember, declaration_at};
use std::alloc::Global;
use std::collections::BTreeSet;
use type_trees::name_number;
use xt_lists::OutOfMemory;

/// The hash of a member's name, and its id.
#[derive(Clone, Copy)]
pub(crate) struct MemberNumbers {
    pub(crate) hash: u32,
    pub(crate) id: u32,
}

/// The numbers of a structure's own members; none of another type.
#[derive(Drop)]
pub(crate) struct NumberSets {
    pub(crate) hashes: BTreeSet<u32>,
    pub(crate) ids: BTreeSet<u32>,
}

fn numbers_of(member: &UsedMember) -> MemberNumbers
    ensures { result ≡ spec.own_numbers member.now }
{
    MemberNumbers {
        hash: name_number(&member.name),
        id: member.id,
    }
}

impl NumberSets {
    /// Of no member. It takes no memory.
    fn new(alloc: Global) -> NumberSets
        ensures { Holds [] result }
    {
        NumberSets {
            hashes: BTreeSet::new(alloc),
            ids: BTreeSet::new(alloc),
        }
    }

    /// Whether no member has this hash or this id.
    fn lacks(&self, numbers: MemberNumbers) -> bool
        ensures { (ns : List spec.MemberNumbers) → Holds ns self.now → result ≡ spec.lacks numbers ns }
    {
        !self.hashes.contains(&numbers.hash) && !self.ids.contains(&numbers.id)
    }

    /// Takes the numbers of one member more, and says whether both are new.
    fn add(&mut self, numbers: MemberNumbers) -> Result<bool, OutOfMemory>
        ensures new { IfOk result (λ is_new. (ns : List spec.MemberNumbers) → Holds ns self.old → is_new ≡ spec.lacks numbers ns) }
        ensures holds { OnOk result ((ns : List spec.MemberNumbers) → Holds ns self.old → Holds (ns ++ numbers ∷ []) self.new) }
    {
        let has_new_hash = self.hashes.insert(numbers.hash)?;
        let has_new_id = self.ids.insert(numbers.id)?;
        Ok(has_new_hash && has_new_id)
    }
}

/// The numbers of the own members of the type at a place.
fn sets_at<'a>(known: &Known<'a>, at: usize) -> &'a NumberSets
    requires { at < length known.now.types.now }
    ensures { Holds (spec.numbers_own (tree_at (declared known.now.types.now) at)) result.now }
{
    &known.numbers[at]
}

/// Whether no member of the structure at a place has this hash or this id, those of its bases among them.
#[cycle(bases)]
fn lacks_at(known: &Known<'_>, at: usize, numbers: MemberNumbers) -> bool
    ensures { result ≡ spec.lacks numbers (spec.numbers_in (members_on (tree_at (declared known.now.types.now) at))) }
{
    let Some(declaration) = declaration_at(known.types, at) else {
        return true;
    };
    match &declaration.definition {
        Definition::Struct(kind) => {
            sets_at(known, at).lacks(numbers) && lacks_below(known, at, kind.base, numbers)
        }
        Definition::Enum(_) | Definition::Mask(_) | Definition::Union(_) | Definition::Alias(_) => {
            true
        }
    }
}

/// The same of the members that the structure at a place has from its base.
#[cycle(bases)]
fn lacks_below(known: &Known<'_>, at: usize, base: Option<usize>, numbers: MemberNumbers) -> bool
    ensures { result ≡ spec.lacks numbers (spec.numbers_in (members_before (declared (take at known.now.types.now)) base)) }
{
    match base {
        None => true,
        Some(place) => at <= place || lacks_at(known, place, numbers),
    }
}

/// The same of the members that a structure has from its base.
fn lacks_before(known: &Known<'_>, base: Option<usize>, numbers: MemberNumbers) -> bool
    ensures { result ≡ spec.lacks numbers (spec.numbers_in (members_before (declared known.now.types.now) base)) }
{
    match base {
        None => true,
        Some(at) => lacks_at(known, at, numbers),
    }
}

/// Whether members that were apart or not are so with one more, of which it is told whether its numbers are new among the own members.
fn stay_apart(
    known: &Known<'_>,
    base: Option<usize>,
    numbers: MemberNumbers,
    are_apart: bool,
    are_new: bool,
) -> bool
    ensures { result ≡ (are_apart && (are_new && spec.lacks numbers (spec.numbers_in (members_before (declared known.now.types.now) base)))) }
{
    are_apart && are_new && lacks_before(known, base, numbers)
}

/// The numbers of a structure's own members, and whether no two of its members have the same.
fn own_sets(
    alloc: Global,
    known: &Known<'_>,
    base: Option<usize>,
    own: &[UsedMember],
) -> Result<(NumberSets, bool), OutOfMemory>
    ensures sets { IfOk result (λ found. Holds (map spec.own_numbers own.now) found.0) }
    ensures apart { IfOk result (λ found. found.1 ≡ spec.apart_behind (spec.numbers_in (members_before (declared known.now.types.now) base)) (map spec.own_numbers own.now)) }
{
    let mut sets = NumberSets::new(alloc);
    let mut are_apart = true;
    for member in own {
        let numbers = numbers_of(member);
        let are_new = sets.add(numbers)?;
        are_apart = stay_apart(known, base, numbers, are_apart, are_new);
    }
    Ok((sets, are_apart))
}

/// The numbers of the own members of a definition, where it is a structure, and whether no two of its members have the same.
pub(crate) fn definition_sets(
    alloc: Global,
    known: &Known<'_>,
    definition: &Definition,
) -> Result<(NumberSets, bool), OutOfMemory>
    ensures sets { IfOk result (λ found. Holds (spec.defined_own definition.now) found.0) }
    ensures apart { IfOk result (λ found. found.1 ≡ spec.are_apart (declared known.now.types.now) definition.now) }
{
    match definition {
        Definition::Struct(kind) => own_sets(alloc, known, kind.base, kind.members.as_slice()),
        Definition::Enum(_) | Definition::Mask(_) | Definition::Union(_) | Definition::Alias(_) => {
            Ok((NumberSets::new(alloc), true))
        }
    }
}
