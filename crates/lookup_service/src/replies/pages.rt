ghost use Rattle.std.specs.Prelude.{◌≡◌, ◌≤◌, ◌<◌, ◌+◌, ◌^◌, true, not, List, length, map, filter, take, drop, IfOk};
ghost use Rattle.std.specs.List.{All};
ghost use Rattle.type_trees.specs.declared.types.HashId.{HashId};
ghost use Rattle.type_object.specs.References.{is_among};
ghost use Rattle.type_registry.specs.Passed.{known, Grows};
ghost use Rattle.type_lookup.specs.messages.Spelling.{IsNeeded, IsPoint, IsNeededInRange};
ghost use Rattle.type_object.specs.visits.Visits.{is_known};
ghost use Rattle.lookup_service.specs.replies.Replies.{depends, needed as needed_of, index_of as index_of_point, page as page_of, point_after as point_behind};

use crate::replies::visits::visit;
use std::alloc::Global;
use type_lookup::messages::Needed;
use type_object::visits::Ids;
use type_registry::{Naming, Pass, Registry};
use type_trees::HashId;
use xt_lists::{OutOfMemory, Row, Text};

const MOST_NEEDED: usize = 4096;

const PAGE: usize = 64;

/// The known objects that those of the asked identifiers refer to, without these, in the order of their first visits.
pub(crate) fn listed<'r, N: Naming>(
    alloc: Global,
    registry: &'r Registry<N>,
    pass: &mut Pass<'r, N>,
    asked: &[HashId],
) -> Result<Row<HashId>, OutOfMemory>
    requires registry { pass.old.registry ≡ registry.now }
    ensures depends { IfOk result (λ ids. ids ≡ depends (known pass.new) asked.now) }
    ensures known { IfOk result (λ ids. All (λ id. is_known (known pass.new) id ≡ true) ids) }
    ensures few { IfOk result (λ ids. length ids ≤ 4096) }
    ensures grows { Grows pass.old pass.new }
{
    let seen = visit(alloc, registry, pass, asked)?;
    let among = Ids::of(alloc, asked)?;
    let left = left_out(alloc, seen.as_slice(), &among)?;
    Ok(left)
}

/// The first of these identifiers that the set has not.
fn left_out(alloc: Global, ids: &[HashId], set: &Ids) -> Result<Row<HashId>, OutOfMemory>
    ensures left { IfOk result (λ left. left ≡ take 4096 (filter (λ id. not (is_among id set.now)) ids.now)) }
    ensures few { IfOk result (λ left. length left ≤ 4096) }
{
    let mut left = Row::new(alloc);
    'ids: for id in ids {
        if left.len() >= MOST_NEEDED {
            return Ok(left);
        }
        if set.contains(id) {
            continue;
        }
        left.push(*id)?;
    }
    Ok(left)
}

/// The index of a page's first entry.
pub(crate) fn index_of(point: &Text) -> usize
    requires { IsPoint point.now }
    ensures index { result ≡ index_of_point point.now }
    ensures range { result < 2 ^ 32 }
{
    let octets = point.octets();
    if octets.len() < 4 {
        return 0;
    }
    u32::from_le_bytes([octets[0], octets[1], octets[2], octets[3]]) as usize
}

/// The identifiers of the page that begins at this index.
pub(crate) fn page_ids(ids: &[HashId], index: usize) -> &[HashId]
    requires { index < 2 ^ 32 }
    ensures page { result.now ≡ take 64 (drop index ids.now) }
    ensures few { length result.now ≤ 64 }
{
    if ids.len() <= index {
        return &[];
    }
    let rest = &ids[index..];
    let count = rest.len().min(PAGE);
    &rest[..count]
}

/// The entries of a page.
pub(crate) fn entries<'r, N: Naming>(
    alloc: Global,
    registry: &'r Registry<N>,
    pass: &Pass<'r, N>,
    ids: &[HashId],
) -> Result<Row<Needed>, OutOfMemory>
    requires registry { pass.now.registry ≡ registry.now }
    requires known { All (λ id. is_known (known pass.now) id ≡ true) ids.now }
    ensures entries { IfOk result (λ needed. needed ≡ map (needed_of (known pass.now)) ids.now) }
    ensures good { IfOk result (λ needed. All IsNeeded needed) }
    ensures range { IfOk result (λ needed. All IsNeededInRange needed) }
    ensures count { IfOk result (λ needed. length needed ≡ length ids.now) }
{
    let mut entries = Row::new(alloc);
    'entries: for id in ids {
        entries.push(entry(registry, pass, id))?;
    }
    Ok(entries)
}

/// The entry of an identifier that the pass knows.
fn entry<'r, N: Naming>(registry: &'r Registry<N>, pass: &Pass<'r, N>, id: &HashId) -> Needed
    requires registry { pass.now.registry ≡ registry.now }
    requires known { is_known (known pass.now) id.now ≡ true }
    ensures entry { result ≡ needed_of (known pass.now) id.now }
    ensures good { IsNeeded result }
    ensures range { IsNeededInRange result }
{
    let finding = registry.find(pass, id).unwrap();
    Needed {
        id: *id,
        size: finding.octets().len() as u32,
    }
}

/// The continuation point of what follows the page that begins at this index.
pub(crate) fn point_after(alloc: Global, count: usize, index: usize) -> Result<Text, OutOfMemory>
    requires index { index < 2 ^ 32 }
    requires few { count ≤ 4096 }
    ensures point { IfOk result (λ point. (ids : List HashId) → length ids ≡ count → point ≡ point_behind ids index) }
    ensures size { IfOk result (λ point. IsPoint point) }
{
    if index + PAGE >= count {
        return Ok(Text::new(alloc));
    }
    Text::from_octets(alloc, &((index + PAGE) as u32).to_le_bytes())
}
