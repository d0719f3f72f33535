//! Two objects of a pool, judged by their identifiers under the standard policy.
ghost use Rattle.std.specs.Prelude.{◌≡◌, ◌<◌, true, IsOk};
ghost use Rattle.object_walks.specs.Resolving.{resolved};

use crate::objects::{COLOR, object};
use object_walks::resolve;
use pair_judge::{Steps, Verdict, judge_pairs};
use std::alloc::Global;
use std::marker::Brand;
use std::sync::ledger::{Blank, Ledger};
use type_object::Pool;
use type_trees::HashId;
use xt_shapes::Rep;

// Whether the object of an identifier resolves.
fn resolves(alloc: Global, pool: &Pool, id: &HashId) -> bool
    ensures { result ≡ true → IsOk (resolved pool.now id.now) }
{
    resolve(alloc, pool, id).is_ok()
}

// What is said of two objects of a pool, where both resolve: `yes`, or the rule that fails.
fn judged<L: Ledger>(
    alloc: Global,
    pool: &Pool,
    reader: &HashId,
    writer: &HashId,
    blank: Blank,
) -> Option<&'static str>
    requires name { blank.name ≡ L.name }
    requires parts { blank.parts ≡ L.parts }
    requires some { 0 < L.parts }
{
    if !resolves(alloc, pool, reader) || !resolves(alloc, pool, writer) {
        return None;
    }
    let mut steps = Steps::<L>::new(blank);
    match judge_pairs(alloc, Rep::Xcdr2, pool, reader, writer, &mut steps) {
        Ok(Verdict::Yes) => Some("yes"),
        Ok(Verdict::No { rule, path: _ }) => Some(rule.word()),
        Err(_) => None,
    }
}

// The same of the texts of two objects.
fn said(alloc: Global, reader: &[u8], writer: &[u8]) -> Option<&'static str> {
    let mut pool = Pool::new(alloc);
    let first = pool.add(reader).ok()?;
    let second = pool.add(writer).ok()?;
    judged::<Brand>(alloc, &pool, &first, &second, Blank::new(1))
}

// A structure is assignable from itself, and not from one whose member of the same id has another name.
#[test]
fn objects_are_judged(rt: HostRuntime) {
    let alloc = rt.alloc();
    let same = said(alloc, &COLOR, &COLOR);
    assert!(rt; same == Some("yes"));
    let other = said(alloc, &COLOR, &object(0));
    assert!(rt; other == Some("NAMES"));
}
