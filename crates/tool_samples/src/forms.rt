//! What is written of a sample: a line of its value, or a sample of its value in another representation.
ghost use Rattle.std.specs.Prelude.{◌≡◌, ◌++◌, ◌∷◌, [], Ok, Err, IfOk, IfSome, codes};
ghost use Rattle.type_trees.specs.View.{tree, val};
ghost use Rattle.type_rules.specs.Valid.{type_fault};
ghost use Rattle.xcdr_model.specs.Samples.{sample};
ghost use Rattle.settled_parts.specs.Settling.{outcome_val};
ghost use Rattle.packed_reader.specs.View.{packed_val};
ghost use Rattle.packed_json.specs.Plans.{IsPlanOf, meaning};
ghost use Rattle.tool_samples.specs.Sampling.{PlansFor};
ghost use Rattle.tool_samples.specs.lines.Lines as lines;

use crate::lines::{MOST_OCTETS, malformed_text, outcome_text, plain_sample_record, sample_record};
use packed_json::{Plan, write_tree, write_value};
use packed_reader::Packed;
use settled_parts::Outcome;
use shape_laws::sample_sized;
use std::alloc::Global;
use tool_runs::output::{line, record};
use type_trees::{Value, XType};
use xcdr_model::Why;
use xcdr_writer::size_of_sample;
use xt_io::Kind;
use xt_lists::{OutOfMemory, Text};
use xt_shapes::Rep;

/// What is written of each sample that is read.
pub trait Shows {
    ghost use Rattle.std.specs.Prelude.{◌≡◌, ℕ, List, Result, Ok, Err, IfOk};
    ghost use Rattle.type_trees.specs.Trees.{Tree};
    ghost use Rattle.type_trees.specs.View.{tree};
    ghost use Rattle.settled_parts.specs.Settling.{outcome_val};
    ghost use Rattle.projection_laws.specs.Premises.{IsValid};
    ghost use Rattle.xcdr_model.specs.Samples as samples;
    ghost use Rattle.xcdr_model.specs.declared.malformed.Fault.{Fault};
    ghost use Rattle.std.specs.Prelude.{IfSome};
    ghost use Rattle.packed_reader.specs.View.{packed_val};
    ghost use Rattle.packed_json.specs.Plans.{IsPlanOf, meaning};
    ghost use Rattle.tool_runs.specs.declared.output.ending.Style.{Style};
    ghost use Rattle.tool_samples.specs.Sampling.{PlansFor};

    /// Whether lines or records are written.
    ghost style: { Style };

    /// The piece for what the reader's type makes of a sample.
    ghost piece: { Self → Tree → Result samples.Outcome Fault → List ℕ };

    /// The piece for a value, or for a sample that is discarded or must be understood. A value's may be made by the plan of its type.
    fn outcome(
        &self,
        alloc: Global,
        ty: &XType,
        plan: &Option<Plan>,
        outcome: &Outcome,
    ) -> Result<Text, OutOfMemory>
        requires valid { IsValid ty.now }
        requires planned { PlansFor (tree ty.now) plan.now }
        ensures { IfOk result (λ text. text ≡ piece self.now (tree ty.now) (Ok (outcome_val outcome.now))) };

    /// The piece for a plain value of a sample of so many octets, by the plan of its type. None says nothing.
    fn plain(
        &self,
        alloc: Global,
        ty: &XType,
        plan: &Plan,
        value: &Packed<'_>,
        octets: usize,
    ) -> Option<Text>
        requires { IsPlanOf (tree ty.now) (meaning plan.now) }
        ensures { IfSome result (λ text. text ≡ piece self.now (tree ty.now) (Ok (samples.sample (packed_val value.now)))) };

    /// The piece for a malformed sample: the place of the first fault, and why.
    fn malformed(&self, alloc: Global, ty: &XType, at: u64, why: Why) -> Result<Text, OutOfMemory>
        ensures { IfOk result (λ text. text ≡ piece self.now (tree ty.now) (Err (record { at = at; why = why }))) };
}

// The beginning of a line of about so many octets.
fn begun_line(alloc: Global, octets: usize) -> Option<Text>
    ensures { IfSome result (λ text. text ≡ codes "ok ") }
{
    let Ok(mut line) = Vec::with_capacity(alloc, octets) else {
        return None;
    };
    match line.extend_from_slice(b"ok ") {
        Ok(()) => Some(Text::from_vec(line)),
        Err(_) => None,
    }
}

// A line with its end.
fn ended_line(text: Text) -> Option<Text>
    ensures { IfSome result (λ line. line ≡ text ++ 10 ∷ []) }
{
    match line(text) {
        Ok(line) => Some(line),
        Err(_) => None,
    }
}

// The octets that memory is asked for at first for the line of a value.
const LINE: usize = 1_024;

/// The line of a value by the plan of its type. None says nothing.
pub(crate) fn tree_line(alloc: Global, _ty: &XType, plan: &Plan, value: &Value) -> Option<Text>
    requires { IsPlanOf (tree _ty.now) (meaning plan.now) }
    ensures { IfSome result (λ text. text ≡ lines.outcome_line (tree _ty.now) (Ok (sample (val value.now)))) }
{
    let mut text = begun_line(alloc, LINE)?;
    write_tree(plan, value, &mut text)?;
    ended_line(text)
}

// The line of what a reading came to, where that is a value and its type has a plan. None says nothing.
fn planned_line(alloc: Global, ty: &XType, plan: &Option<Plan>, outcome: &Outcome) -> Option<Text>
    requires { PlansFor (tree ty.now) plan.now }
    ensures { IfSome result (λ text. text ≡ lines.outcome_line (tree ty.now) (Ok (outcome_val outcome.now))) }
{
    match (plan, outcome) {
        (Some(plan), Outcome::Sample(value)) => tree_line(alloc, ty, plan, value),
        _ => None,
    }
}

/// A line for each sample, with its value as JSON.
#[derive(Debug, Clone, Copy)]
pub struct Lines;

impl Shows for Lines {
    ghost use Rattle.tool_runs.specs.declared.output.ending.Style.TheVariants as styles;
    ghost use Rattle.tool_samples.specs.lines.Lines.{outcome_line};

    ghost style = { styles.Lines };

    ghost piece = { λ s t read. outcome_line t read };

    fn outcome(
        &self,
        alloc: Global,
        ty: &XType,
        plan: &Option<Plan>,
        outcome: &Outcome,
    ) -> Result<Text, OutOfMemory> {
        match planned_line(alloc, ty, plan, outcome) {
            Some(text) => Ok(text),
            None => line(outcome_text(alloc, ty, outcome)?),
        }
    }

    // A line mostly has at most four times as many octets as its sample (octets have up to three digits and a comma each), so that its memory
    // is asked for once.
    fn plain(
        &self,
        alloc: Global,
        _ty: &XType,
        plan: &Plan,
        value: &Packed<'_>,
        octets: usize,
    ) -> Option<Text> {
        let mut text = begun_line(alloc, octets.min(MOST_OCTETS) * 4)?;
        write_value(plan, value, &mut text)?;
        ended_line(text)
    }

    fn malformed(
        &self,
        alloc: Global,
        _ty: &XType,
        at: u64,
        why: Why,
    ) -> Result<Text, OutOfMemory> {
        line(malformed_text(alloc, at, why)?)
    }
}

/// A sample of each value in a representation, or a Note of why there is none.
#[derive(Debug, Clone, Copy)]
pub struct Conversions {
    pub to: Rep,
}

impl Shows for Conversions {
    ghost use Rattle.tool_runs.specs.declared.output.ending.Style.TheVariants as styles;
    ghost use Rattle.tool_samples.specs.lines.Lines.{converted};

    ghost style = { styles.Records };

    ghost piece = { λ s t read. converted s.to t read };

    fn outcome(
        &self,
        alloc: Global,
        ty: &XType,
        _plan: &Option<Plan>,
        outcome: &Outcome,
    ) -> Result<Text, OutOfMemory> {
        match outcome {
            Outcome::Sample(value) => value_record(alloc, self.to, ty, value),
            Outcome::Discarded => record(alloc, Kind::Note, b"discarded"),
            Outcome::MustUnderstand => record(alloc, Kind::Note, b"must-understand"),
        }
    }

    fn plain(
        &self,
        alloc: Global,
        ty: &XType,
        _plan: &Plan,
        value: &Packed<'_>,
        octets: usize,
    ) -> Option<Text> {
        plain_record(alloc, self.to, ty, value, octets)
    }

    fn malformed(
        &self,
        alloc: Global,
        _ty: &XType,
        at: u64,
        why: Why,
    ) -> Result<Text, OutOfMemory> {
        let text = malformed_text(alloc, at, why)?;
        record(alloc, Kind::Note, text.octets())
    }
}

// The sample of a value, or a Note where it has too many octets.
fn value_record(alloc: Global, to: Rep, ty: &XType, value: &Value) -> Result<Text, OutOfMemory>
    ensures { IfOk result (λ text. text ≡ lines.converted to (tree ty.now) (Ok (sample (val value.now)))) }
{
    match size_of_sample(to, ty, value) {
        None => record(alloc, Kind::Note, b"too-large"),
        Some(_) => sample_record(alloc, to, ty, value),
    }
}

// The record of a plain value's sample, or a Note where the sample has too many octets. None says nothing.
fn plain_record(
    alloc: Global,
    to: Rep,
    ty: &XType,
    value: &Packed<'_>,
    octets: usize,
) -> Option<Text>
    ensures { IfSome result (λ text. text ≡ lines.converted to (tree ty.now) (Ok (sample (packed_val value.now)))) }
{
    sample_sized();
    let text = plain_sample_record(alloc, to, ty, value, octets)?;
    if text.len() <= MOST_OCTETS + 5 {
        return Some(text);
    }
    match record(alloc, Kind::Note, b"too-large") {
        Ok(note) => Some(note),
        Err(_) => None,
    }
}
