ghost use Rattle.std.specs.Prelude.{◌≡◌, IfOk, OnOk};
ghost use Rattle.type_trees.specs.View.{tree};
ghost use Rattle.xt_vectors.specs.Readers as readers;
ghost use Rattle.xt_vectors.specs.Types as types;
ghost use Rattle.xt_vectors.specs.Pairs as spec;

use crate::draws::Draws;
use crate::plans::{Plan, draw_ext, draw_plans, draw_rep};
use crate::readers::{Change, draw_change, reader_plans};
use crate::types::structure_of;
use crate::values::draw_slots;
use std::alloc::Global;
use type_trees::{Value, XType};
use xt_lists::OutOfMemory;
use xt_shapes::{Ext, Rep};

/// A reader's type and a writer's, with a value of the writer's.
#[derive(Drop)]
pub(crate) struct Evolved {
    pub(crate) rep: Rep,
    pub(crate) reader: XType,
    pub(crate) writer: XType,
    pub(crate) value: Value,
}

/// The reader's structure.
fn reader_of(
    alloc: Global,
    ext: Ext,
    change: Change,
    id: u32,
    plans: &[Plan],
) -> Result<XType, OutOfMemory>
    ensures { IfOk result (λ ty. tree ty ≡ types.structure_of ext (readers.reader_plans change id plans.now)) }
{
    let plans = reader_plans(alloc, change, id, plans)?;
    structure_of(alloc, ext, plans.as_slice())
}

#[tactic(auto, using(type_trees::proofs::Views::tree_rules), unfolding(crate::specs::Pairs::pair_from))]
fn draw_from(
    alloc: Global,
    draws: &mut Draws,
    ext: Ext,
    rep: Rep,
    id: u32,
    plans: &[Plan],
) -> Result<Evolved, OutOfMemory>
    ensures item { IfOk result (λ pair. spec.posed pair ≡ (spec.pair_from ext rep id plans.now draws.old.state).0) }
    ensures state { OnOk result (draws.new.state ≡ (spec.pair_from ext rep id plans.now draws.old.state).1) }
{
    let change = draw_change(draws);
    let slots = draw_slots(alloc, draws, plans)?;
    Ok(Evolved {
        rep,
        reader: reader_of(alloc, ext, change, id, plans)?,
        writer: structure_of(alloc, ext, plans)?,
        value: Value::Struct(slots),
    })
}

/// Draws a pair.
#[tactic(auto, unfolding(crate::specs::Pairs::pair_drawn))]
pub(crate) fn draw_pair(alloc: Global, draws: &mut Draws) -> Result<Evolved, OutOfMemory>
    ensures item { IfOk result (λ pair. spec.posed pair ≡ (spec.pair_drawn draws.old.state).0) }
    ensures state { OnOk result (draws.new.state ≡ (spec.pair_drawn draws.old.state).1) }
{
    let ext = draw_ext(draws);
    let rep = draw_rep(draws);
    let count = 1 + draws.draw(8);
    let plans = draw_plans(alloc, draws, count)?;
    draw_from(alloc, draws, ext, rep, count, plans.as_slice())
}
