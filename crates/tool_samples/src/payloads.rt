// Samples that stand in memory.
ghost use Rattle.std.specs.Prelude.{◌≡◌, IfOk, IfSome};
ghost use Rattle.type_trees.specs.View.{tree};
ghost use Rattle.type_trees.specs.Bridge.{type_shape};
ghost use Rattle.projection_laws.specs.Premises.{IsValid};
ghost use Rattle.xcdr_model.specs.Samples.{read_sample};
ghost use Rattle.try_construct.specs.Guides.{IsGuide};
ghost use Rattle.tool_samples.specs.Sampling.{IsPrepared, Taken};
ghost use Rattle.tool_samples.specs.lines.Lines.{sample_line};

use crate::forms::{Lines, Shows};
use crate::prepared::Prepared;
use packed_reader::read_plain;
use settled_parts::Outcome;
use std::alloc::Global;
use try_construct::Guide;
use type_trees::XType;
use xcdr_samples::read_guided;
use xt_lists::{OutOfMemory, Text};
use xt_shapes::Rep;
use xt_wire::cursor::{DecodeFault, SliceCursor};

/// What the reader's type makes of a sample.
pub fn taken(
    alloc: Global,
    rep: Rep,
    ty: &XType,
    guide: &Guide,
    sample: &[u8],
) -> Result<Outcome, DecodeFault>
    requires valid { IsValid ty.now }
    requires guide { IsGuide (type_shape ty.now) guide.now }
    ensures { Taken (read_sample rep (type_shape ty.now) sample.now) result }
{
    let mut cursor = SliceCursor::new(sample);
    read_guided(alloc, rep, ty, guide, &mut cursor)
}

// What is written of a plain sample. None says nothing.
fn plain_piece<F: Shows>(
    alloc: Global,
    form: &F,
    rep: Rep,
    ty: &XType,
    prepared: &Prepared,
    payload: &[u8],
) -> Option<Text>
    requires valid { IsValid ty.now }
    requires prepared { IsPrepared (tree ty.now) prepared.now }
    ensures { IfSome result (λ text. text ≡ F.piece form.now (tree ty.now) (read_sample rep (type_shape ty.now) payload.now)) }
{
    let Some(plan) = &prepared.plan else {
        return None;
    };
    if !prepared.may_be_plain {
        return None;
    }
    let value = read_plain(alloc, rep, ty, &prepared.guide, payload)?;
    let text = form.plain(alloc, ty, plan, &value, payload.len())?;
    Some(text)
}

// What is written of a sample that has to be read in general.
fn general_piece<F: Shows>(
    alloc: Global,
    form: &F,
    rep: Rep,
    ty: &XType,
    prepared: &Prepared,
    payload: &[u8],
) -> Result<Text, OutOfMemory>
    requires valid { IsValid ty.now }
    requires prepared { IsPrepared (tree ty.now) prepared.now }
    ensures { IfOk result (λ text. text ≡ F.piece form.now (tree ty.now) (read_sample rep (type_shape ty.now) payload.now)) }
{
    match taken(alloc, rep, ty, &prepared.guide, payload) {
        Ok(outcome) => form.outcome(alloc, ty, &prepared.plan, &outcome),
        Err(DecodeFault::Malformed { at, why }) => form.malformed(alloc, ty, at, why),
        Err(DecodeFault::ReadFault | DecodeFault::OutOfMemory) => Err(OutOfMemory),
    }
}

/// What is written of a sample.
pub(crate) fn payload_piece<F: Shows>(
    alloc: Global,
    form: &F,
    rep: Rep,
    ty: &XType,
    prepared: &Prepared,
    payload: &[u8],
) -> Result<Text, OutOfMemory>
    requires valid { IsValid ty.now }
    requires prepared { IsPrepared (tree ty.now) prepared.now }
    ensures { IfOk result (λ text. text ≡ F.piece form.now (tree ty.now) (read_sample rep (type_shape ty.now) payload.now)) }
{
    match plain_piece(alloc, form, rep, ty, prepared, payload) {
        Some(text) => Ok(text),
        None => general_piece(alloc, form, rep, ty, prepared, payload),
    }
}

/// The line of a sample that stands in memory, by its representation and the reader's type alone.
pub fn payload_line(
    alloc: Global,
    rep: Rep,
    ty: &XType,
    prepared: &Prepared,
    payload: &[u8],
) -> Result<Text, OutOfMemory>
    requires valid { IsValid ty.now }
    requires prepared { IsPrepared (tree ty.now) prepared.now }
    ensures { IfOk result (λ text. text ≡ sample_line rep (tree ty.now) payload.now) }
{
    payload_piece(alloc, &Lines, rep, ty, prepared, payload)
}
