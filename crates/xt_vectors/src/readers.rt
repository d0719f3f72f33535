ghost use Rattle.std.specs.Prelude.{◌≡◌, ◌++◌, IfOk, OnOk, map};
ghost use Rattle.xt_vectors.specs.Draws.{next};
ghost use Rattle.xt_vectors.specs.Readers as spec;

use crate::draws::Draws;
use crate::plans::{Plan, Sort};
use std::alloc::Global;
use xt_lists::{OutOfMemory, Row};
use xt_shapes::Try;

/// How the reader's structure differs from the writer's.
#[derive(Clone, Copy)]
pub(crate) enum Change {
    Same,
    /// Without the last member, where there are two or more.
    Shorter,
    /// With one more member, a long.
    Longer,
    /// With bounds that are less by 3, and what becomes of what is past them.
    Tighter(Try),
    /// With enumerations that have lost their last literals.
    Fewer,
}

fn draw_try(draws: &mut Draws) -> Try
    ensures tc { result ≡ spec.try_drawn draws.old.state }
    ensures state { draws.new.state ≡ next draws.old.state }
{
    match draws.draw(3) {
        0 => Try::Discard,
        1 => Try::UseDefault,
        _ => Try::Trim,
    }
}

#[tactic(auto, unfolding(crate::specs::Readers::change_drawn))]
pub(crate) fn draw_change(draws: &mut Draws) -> Change
    ensures item { result ≡ (spec.change_drawn draws.old.state).0 }
    ensures state { draws.new.state ≡ (spec.change_drawn draws.old.state).1 }
{
    match draws.draw(5) {
        0 => Change::Same,
        1 => Change::Shorter,
        2 => Change::Longer,
        3 => Change::Tighter(draw_try(draws)),
        _ => Change::Fewer,
    }
}

/// The member with a bound less by 3, where it has one.
fn tighter(tc: Try, plan: Plan) -> Plan
    ensures { result ≡ spec.tighter tc plan }
{
    match plan.sort {
        Sort::Text(bound) => Plan {
            sort: Sort::Text(bound.saturating_sub(3)),
            tc,
            ..plan
        },
        Sort::Shorts(bound) => Plan {
            sort: Sort::Shorts(bound.saturating_sub(3)),
            tc,
            ..plan
        },
        Sort::Long | Sort::Octet | Sort::Literals(_) | Sort::Pair => plan,
    }
}

/// The member without its last literal, where it has literals.
fn fewer(plan: Plan) -> Plan
    ensures { result ≡ spec.fewer plan }
{
    match plan.sort {
        Sort::Literals(last) => Plan {
            sort: Sort::Literals(last.saturating_sub(1)),
            tc: Try::UseDefault,
            ..plan
        },
        Sort::Long | Sort::Octet | Sort::Text(_) | Sort::Shorts(_) | Sort::Pair => plan,
    }
}

fn changed(change: Change, plan: Plan) -> Plan
    ensures { result ≡ spec.changed change plan }
{
    match change {
        Change::Tighter(tc) => tighter(tc, plan),
        Change::Fewer => fewer(plan),
        Change::Same | Change::Shorter | Change::Longer => plan,
    }
}

/// One less, where there are two or more.
fn shorter(count: usize) -> usize
    ensures { result ≡ spec.shorter count }
{
    if 1 < count { count - 1 } else { count }
}

/// How many of so many members are kept.
fn kept(change: Change, count: usize) -> usize
    ensures { result ≡ spec.kept change count }
{
    match change {
        Change::Shorter => shorter(count),
        Change::Same | Change::Longer | Change::Tighter(_) | Change::Fewer => count,
    }
}

/// The members, each changed.
fn changed_plans(alloc: Global, change: Change, plans: &[Plan]) -> Result<Row<Plan>, OutOfMemory>
    ensures { IfOk result (λ all. all ≡ map (spec.changed change) plans.now) }
{
    let mut all = Row::new(alloc);
    for plan in plans {
        all.push(changed(change, *plan))?;
    }
    Ok(all)
}

/// Adds a long with this id, where the change adds a member.
fn add_plan(change: Change, id: u32, plans: &mut Row<Plan>) -> Result<(), OutOfMemory>
    ensures { OnOk result (plans.new ≡ plans.old ++ spec.added change id) }
{
    match change {
        Change::Longer => plans.push(Plan {
            id,
            sort: Sort::Long,
            tc: Try::Discard,
            optional: false,
            must_understand: false,
        }),
        Change::Same | Change::Shorter | Change::Tighter(_) | Change::Fewer => Ok(()),
    }
}

/// The members of the reader's structure. A further member has the id `id`.
#[tactic(auto, unfolding(crate::specs::Readers::reader_plans))]
pub(crate) fn reader_plans(
    alloc: Global,
    change: Change,
    id: u32,
    plans: &[Plan],
) -> Result<Row<Plan>, OutOfMemory>
    ensures { IfOk result (λ all. all ≡ spec.reader_plans change id plans.now) }
{
    let count = kept(change, plans.len());
    let mut all = changed_plans(alloc, change, &plans[..count])?;
    add_plan(change, id, &mut all)?;
    Ok(all)
}
