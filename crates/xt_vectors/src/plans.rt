ghost use Rattle.std.specs.Prelude.{◌≡◌, IfOk, OnOk};
ghost use Rattle.xt_vectors.specs.Draws.{next};
ghost use Rattle.xt_vectors.specs.Plans as spec;

use crate::draws::Draws;
use std::alloc::Global;
use xt_lists::{OutOfMemory, Row};
use xt_shapes::{Ext, Rep, Try};

/// What a member holds.
#[derive(Clone, Copy)]
pub(crate) enum Sort {
    Long,
    Octet,
    /// A string with its bound.
    Text(u8),
    /// A sequence of shorts with its bound.
    Shorts(u8),
    /// An enumeration, with the number of its last literal; the first has 0.
    Literals(u8),
    /// A structure of a long and a long long.
    Pair,
}

/// A member of a structure, without its type.
#[derive(Clone, Copy)]
pub(crate) struct Plan {
    pub(crate) id: u32,
    pub(crate) sort: Sort,
    pub(crate) tc: Try,
    pub(crate) optional: bool,
    pub(crate) must_understand: bool,
}

pub(crate) fn draw_ext(draws: &mut Draws) -> Ext
    ensures ext { result ≡ spec.ext_drawn draws.old.state }
    ensures state { draws.new.state ≡ next draws.old.state }
{
    match draws.draw(3) {
        0 => Ext::Final,
        1 => Ext::Appendable,
        _ => Ext::Mutable,
    }
}

pub(crate) fn draw_rep(draws: &mut Draws) -> Rep
    ensures rep { result ≡ spec.rep_drawn draws.old.state }
    ensures state { draws.new.state ≡ next draws.old.state }
{
    match draws.draw(2) {
        0 => Rep::Xcdr1,
        _ => Rep::Xcdr2,
    }
}

fn draw_bound(draws: &mut Draws) -> u8
    ensures bound { result ≡ spec.bound_drawn draws.old.state }
    ensures state { draws.new.state ≡ next draws.old.state }
{
    4 + draws.draw(5) as u8
}

fn draw_last(draws: &mut Draws) -> u8
    ensures last { result ≡ spec.last_drawn draws.old.state }
    ensures state { draws.new.state ≡ next draws.old.state }
{
    1 + draws.draw(3) as u8
}

#[tactic(auto, unfolding(crate::specs::Plans::sort_drawn))]
fn draw_sort(draws: &mut Draws) -> Sort
    ensures item { result ≡ (spec.sort_drawn draws.old.state).0 }
    ensures state { draws.new.state ≡ (spec.sort_drawn draws.old.state).1 }
{
    match draws.draw(6) {
        0 => Sort::Long,
        1 => Sort::Octet,
        2 => Sort::Text(draw_bound(draws)),
        3 => Sort::Shorts(draw_bound(draws)),
        4 => Sort::Literals(draw_last(draws)),
        _ => Sort::Pair,
    }
}

/// Whether a draw of four is 0.
fn draw_zero(draws: &mut Draws) -> bool
    ensures zero { result ≡ spec.is_zero draws.old.state }
    ensures state { draws.new.state ≡ next draws.old.state }
{
    draws.draw(4) == 0
}

#[tactic(auto, unfolding(crate::specs::Plans::plan_drawn))]
fn draw_plan(draws: &mut Draws, id: u32) -> Plan
    ensures item { result ≡ (spec.plan_drawn id draws.old.state).0 }
    ensures state { draws.new.state ≡ (spec.plan_drawn id draws.old.state).1 }
{
    let sort = draw_sort(draws);
    if draw_zero(draws) {
        return Plan {
            id,
            sort,
            tc: Try::Discard,
            optional: true,
            must_understand: draw_zero(draws),
        };
    }
    Plan {
        id,
        sort,
        tc: Try::Discard,
        optional: false,
        must_understand: false,
    }
}

/// The members of a structure, with the ids from 0 up.
pub(crate) fn draw_plans(
    alloc: Global,
    draws: &mut Draws,
    count: u32,
) -> Result<Row<Plan>, OutOfMemory>
    ensures item { IfOk result (λ plans. plans ≡ (spec.plans_drawn count draws.old.state).0) }
    ensures state { OnOk result (draws.new.state ≡ (spec.plans_drawn count draws.old.state).1) }
{
    let mut plans = Row::new(alloc);
    for id in 0..count {
        plans.push(draw_plan(draws, id))?;
    }
    Ok(plans)
}
