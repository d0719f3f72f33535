//! The registry: weak namings, passes, and threads that register the same objects.
ghost use Rattle.std.specs.Prelude.{◌≡◌, All, IfOk};

use crate::namings::{Alike, LastSix};
use crate::objects::{COLOR, object};
use object_formats::ObjectRule;
use std::alloc::Global;
use std::thread::{self, Threads};
use type_registry::{Finding, Kept, Md5Naming, Naming, Pass, RegisterFault, Registry, agree};
use type_trees::HashId;
use xt_lists::OutOfMemory;

fn id_of<N: Naming>(octets: &[u8]) -> HashId {
    HashId {
        kind: 0xF1,
        hash: N::name_of(octets),
    }
}

fn adds<'r, N: Naming>(
    registry: &'r Registry<N>,
    alloc: Global,
    pass: &mut Pass<'r, N>,
    octets: &[u8],
) -> bool
    requires { pass.old.registry ≡ registry.now }
    ensures { pass.new.registry ≡ registry.now }
{
    match registry.register(alloc, pass, octets) {
        Ok(Kept::Added(finding)) => finding.octets() == octets,
        _ => false,
    }
}

fn clashes<'r, N: Naming>(
    registry: &'r Registry<N>,
    alloc: Global,
    pass: &mut Pass<'r, N>,
    octets: &[u8],
    first: &[u8],
) -> bool
    requires { pass.old.registry ≡ registry.now }
    ensures { pass.new.registry ≡ registry.now }
{
    match registry.register(alloc, pass, octets) {
        Err(RegisterFault::Clash(finding)) => finding.octets() == first,
        _ => false,
    }
}

fn knows<'r, N: Naming>(
    registry: &'r Registry<N>,
    alloc: Global,
    pass: &mut Pass<'r, N>,
    octets: &[u8],
) -> bool
    requires { pass.old.registry ≡ registry.now }
    ensures { pass.new.registry ≡ registry.now }
{
    match registry.register(alloc, pass, octets) {
        Ok(Kept::Known(finding)) => finding.octets() == octets,
        _ => false,
    }
}

/// Whether one object is added and then known, and another one clashes with it.
fn keeps_the_first(registry: &Registry<Alike>, alloc: Global) -> bool {
    let mut pass = registry.pass(alloc);
    adds(registry, alloc, &mut pass, &COLOR)
        && knows(registry, alloc, &mut pass, &COLOR)
        && clashes(registry, alloc, &mut pass, &object(7), &COLOR)
}

/// Whether an object clashes with the first one under a pass that knew nothing.
fn clashes_anew(registry: &Registry<Alike>, alloc: Global, octets: &[u8], first: &[u8]) -> bool {
    let mut pass = registry.pass(alloc);
    clashes(registry, alloc, &mut pass, octets, first)
}

#[test]
fn equal_names_clash_with_the_first_object(rt: HostRuntime) {
    let registry: Registry<Alike> = Registry::new(rt.alloc());
    assert!(rt; keeps_the_first(&registry, rt.alloc()));
    assert!(rt; clashes_anew(&registry, rt.alloc(), &object(7), &COLOR));
}

/// Adds 64 objects, which have the same probed cells.
fn fills<'r>(registry: &'r Registry<LastSix>, alloc: Global, pass: &mut Pass<'r, LastSix>) -> bool
    requires { pass.old.registry ≡ registry.now }
    ensures { pass.new.registry ≡ registry.now }
{
    for last in 0..64u8 {
        if !adds(registry, alloc, pass, &object(last)) {
            return false;
        }
    }
    true
}

/// Whether no cell is left for an object, since 64 others stand there, of which this is the last.
fn is_full<'r>(
    registry: &'r Registry<LastSix>,
    alloc: Global,
    pass: &mut Pass<'r, LastSix>,
    octets: &[u8],
    last: &[u8],
) -> bool
    requires { pass.old.registry ≡ registry.now }
{
    match registry.register(alloc, pass, octets) {
        Err(RegisterFault::Full(trail)) => trail.len() == 64 && trail.at(63).octets == last,
        _ => false,
    }
}

/// Whether 64 objects are added, and then no cell is left for another one.
fn has_room_for_64(registry: &Registry<LastSix>, alloc: Global) -> bool {
    let mut pass = registry.pass(alloc);
    fills(registry, alloc, &mut pass)
        && is_full(registry, alloc, &mut pass, &object(64), &object(63))
}

#[test]
fn sixty_four_strangers_fill_the_probed_cells(rt: HostRuntime) {
    let registry: Registry<LastSix> = Registry::new(rt.alloc());
    assert!(rt; has_room_for_64(&registry, rt.alloc()));
    assert!(rt; is_found(&registry, rt.alloc(), &object(63)));
    assert!(rt; !is_found(&registry, rt.alloc(), &object(64)));
}

/// The finding of an object that is in the registry afterwards.
fn finding_of<'r, N: Naming>(
    registry: &'r Registry<N>,
    alloc: Global,
    pass: &mut Pass<'r, N>,
    octets: &[u8],
) -> Result<Finding<'r, N>, OutOfMemory>
    requires { pass.old.registry ≡ registry.now }
    ensures pass { pass.new.registry ≡ registry.now }
    ensures finding { IfOk result (λ f. f.registry ≡ registry.now) }
{
    match registry.register(alloc, pass, octets) {
        Ok(Kept::Added(finding)) => Ok(finding),
        Ok(Kept::Known(finding)) => Ok(finding),
        Err(_) => Err(OutOfMemory),
    }
}

/// Whether this pass finds what another one found.
fn finds<'r, N: Naming>(
    registry: &'r Registry<N>,
    pass: &Pass<'r, N>,
    found: &Finding<'r, N>,
) -> bool
    requires { (pass.now.registry ≡ registry.now) × (found.now.registry ≡ registry.now) }
{
    match registry.find(pass, &found.id()) {
        Some(own) => agree(&own, found) && own.octets() == found.octets() && own.id() == found.id(),
        None => false,
    }
}

/// Whether a pass that knew nothing finds what another one found, before and after it remembers it.
fn finds_anew<'r>(
    registry: &'r Registry<Md5Naming>,
    alloc: Global,
    found: &Finding<'r, Md5Naming>,
) -> bool
    requires { found.now.registry ≡ registry.now }
{
    let mut pass = registry.pass(alloc);
    finds(registry, &pass, found)
        && registry.remember(&mut pass, found).is_ok()
        && finds(registry, &pass, found)
}

/// Whether a finding is of that object.
fn is_of(found: &Finding<'_, Md5Naming>, octets: &[u8]) -> bool {
    found.octets() == octets && found.id() == id_of::<Md5Naming>(octets)
}

/// Whether an object that is registered is found as it is by another pass.
fn is_shared(registry: &Registry<Md5Naming>, alloc: Global) -> bool {
    let mut pass = registry.pass(alloc);
    match finding_of(registry, alloc, &mut pass, &COLOR) {
        Ok(found) => is_of(&found, &COLOR) && finds_anew(registry, alloc, &found),
        Err(_) => false,
    }
}

#[test]
fn another_pass_finds_what_the_first_registered(rt: HostRuntime) {
    let registry: Registry<Md5Naming> = Registry::new(rt.alloc());
    assert!(rt; is_shared(&registry, rt.alloc()));
}

/// Whether a pass finds nothing under the identifier of these octets.
fn finds_nothing<'r>(
    registry: &'r Registry<Md5Naming>,
    pass: &Pass<'r, Md5Naming>,
    octets: &[u8],
) -> bool
    requires { pass.now.registry ≡ registry.now }
{
    registry.find(pass, &id_of::<Md5Naming>(octets)).is_none()
}

/// Whether a text is refused since it ends too early, at this place.
fn is_short<'r>(
    registry: &'r Registry<Md5Naming>,
    alloc: Global,
    pass: &mut Pass<'r, Md5Naming>,
    octets: &[u8],
    at: u32,
) -> bool
    requires { pass.old.registry ≡ registry.now }
    ensures { pass.new.registry ≡ registry.now }
{
    match registry.register(alloc, pass, octets) {
        Err(RegisterFault::NotAnObject(fault)) => {
            fault.at == at && fault.rule == ObjectRule::Short
        }
        _ => false,
    }
}

/// Whether a text that ends too early is refused, and is found neither by the pass that handed it in nor by another.
fn is_not_kept(registry: &Registry<Md5Naming>, alloc: Global, octets: &[u8], at: u32) -> bool {
    let mut pass = registry.pass(alloc);
    is_short(registry, alloc, &mut pass, octets, at)
        && finds_nothing(registry, &pass, octets)
        && !is_found(registry, alloc, octets)
}

#[test]
fn a_text_that_is_cut_is_no_object(rt: HostRuntime) {
    let registry: Registry<Md5Naming> = Registry::new(rt.alloc());
    assert!(rt; is_not_kept(&registry, rt.alloc(), &COLOR[..38], 35));
}

// How many objects each of two threads registers.
const OBJECTS: u8 = 100;

/// Registers a hundred objects, in one order or the other.
fn register_all<'r, N: Naming>(
    registry: &'r Registry<N>,
    alloc: Global,
    down: bool,
) -> Result<Vec<Finding<'r, N>>, OutOfMemory>
    ensures { IfOk result (λ found. All (λ f. f.registry ≡ registry.now) found.items) }
{
    let mut pass = registry.pass(alloc);
    let mut found = Vec::new(alloc);
    for i in 0..OBJECTS {
        let last = if down { OBJECTS - 1 - i } else { i };
        let finding = finding_of(registry, alloc, &mut pass, &object(last))?;
        found.push(finding)?;
    }
    Ok(found)
}

/// Whether a pass finds the object.
fn finds_octets<'r, N: Naming>(registry: &'r Registry<N>, pass: &Pass<'r, N>, octets: &[u8]) -> bool
    requires { pass.now.registry ≡ registry.now }
{
    match registry.find(pass, &id_of::<N>(octets)) {
        Some(finding) => finding.octets() == octets,
        None => false,
    }
}

/// Whether a pass that knew nothing finds the object.
pub(crate) fn is_found<N: Naming>(registry: &Registry<N>, alloc: Global, octets: &[u8]) -> bool {
    let pass = registry.pass(alloc);
    finds_octets(registry, &pass, octets)
}

/// Whether two findings agree and are of one object, which a pass that knew nothing finds.
fn is_agreed<'r>(
    registry: &'r Registry<Md5Naming>,
    alloc: Global,
    first: &Finding<'r, Md5Naming>,
    second: &Finding<'r, Md5Naming>,
) -> bool
    requires { (first.now.registry ≡ registry.now) × (second.now.registry ≡ registry.now) }
{
    agree(first, second)
        && first.octets() == second.octets()
        && is_found(registry, alloc, first.octets())
}

/// Whether a hundred findings agree with a hundred in the other order.
fn are_agreed<'r>(
    registry: &'r Registry<Md5Naming>,
    alloc: Global,
    up: &[Finding<'r, Md5Naming>],
    down: &[Finding<'r, Md5Naming>],
) -> bool
    requires up { All (λ f. f.registry ≡ registry.now) up.now }
    requires down { All (λ f. f.registry ≡ registry.now) down.now }
{
    if up.len() != 100 || down.len() != 100 {
        return false;
    }
    for i in 0..100usize {
        if !is_agreed(registry, alloc, &up[i], &down[99 - i]) {
            return false;
        }
    }
    true
}

/// Whether two threads that register the same objects in turned orders agree on each.
fn agree_on_each(rt: &impl Threads, alloc: Global, registry: &Registry<Md5Naming>) -> bool {
    let (up, down) = thread::join(
        rt,
        move || -> Result<Vec<Finding<Md5Naming>>, OutOfMemory>
            ensures { IfOk result (λ found. All (λ f. f.registry ≡ registry.entry.now) found.items) }
        { register_all(registry, alloc, false) },
        move || -> Result<Vec<Finding<Md5Naming>>, OutOfMemory>
            ensures { IfOk result (λ found. All (λ f. f.registry ≡ registry.entry.now) found.items) }
        { register_all(registry, alloc, true) },
    );
    match (up, down) {
        (Ok(up), Ok(down)) => are_agreed(registry, alloc, &up, &down),
        _ => false,
    }
}

#[test]
fn threads_agree_on_each_object(rt: HostRuntime) {
    let registry: Registry<Md5Naming> = Registry::new(rt.alloc());
    assert!(rt; agree_on_each(&rt, rt.alloc(), &registry));
}

fn expect_send<T: Send>(_value: &T) {}

/// Whether a pass that could go to another thread, and knows nothing, finds nothing.
fn is_empty(registry: &Registry<Md5Naming>, alloc: Global) -> bool {
    let pass = registry.pass(alloc);
    pass.holds();
    expect_send(&pass);
    finds_nothing(registry, &pass, &COLOR)
}

#[test]
fn a_pass_may_go_to_another_thread(rt: HostRuntime) {
    let registry: Registry<Md5Naming> = Registry::new(rt.alloc());
    assert!(rt; is_empty(&registry, rt.alloc()));
}
