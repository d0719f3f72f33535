ghost use Rattle.std.specs.Prelude.{◌≡◌, IfOk, IfSome, Ok, Some};
ghost use Rattle.type_trees.specs.View.{tree, val};
ghost use Rattle.type_trees.specs.Bridge.{type_shape};
ghost use Rattle.projection_laws.specs.Premises.{IsValid};
ghost use Rattle.settled_parts.specs.Settling.{outcome_val};
ghost use Rattle.packed_reader.specs.View.{packed_val};
ghost use Rattle.xcdr_model.specs.Samples as samples;
ghost use Rattle.xcdr_model.specs.Samples.{read_sample};
ghost use Rattle.json_values.specs.Read.{read_as};
ghost use Rattle.json_values.specs.Steps.{FailsAs};
ghost use Rattle.json_values.specs.Written.{json_text};
ghost use Rattle.json_values.specs.declared.faults.ValueFault.TheVariants.{OutOfMemory as NoMemory};
ghost use Rattle.dynamic_data.specs.numbers.Kinds as kinds;
ghost use Rattle.std.proofs.Props.{props};
ghost use Rattle.try_construct.proofs.GuideProps.{guide_prop};
ghost use Rattle.tool_samples.specs.lines.Lines as lines;
ghost use Rattle.tool_runs.specs.output.Runs.{Comes};
ghost use Rattle.xt_calls.specs.Calls as spec;
ghost use Rattle.tool_samples.specs.Sampling.{IsPrepared, Taken};
ghost use Rattle.xt_calls.specs.Opened.{front};

use crate::answers::{
    Answer, DISCARDED, DONE, JSON, MALFORMED, MUST_UNDERSTAND, TOO_LARGE, refuse_words, said,
};
use crate::plain::{plain_answer, plain_written};
use crate::types::Types;
use crate::words::{Floats, pair_of};
use dynamic_data::{
    ValueFault, from_json, from_numbers, has_floats, plain_is_read, plain_is_shown, to_json,
    with_numbers,
};
use json::Scratch;
use packed_json::{read_taped, write_tree, write_value};
use packed_reader::{Packed, may_be_taped, read_plain};
use settled_parts::Outcome;
use std::alloc::Global;
use tool_runs::output::Stop;
use tool_samples::lines::malformed_text;
use tool_samples::{Prepared, taken};
use tool_verdicts::assignable;
use type_trees::{Value, XType};
use xcdr_model::Why;
use xcdr_writer::{size_of_sample, write_sample};
use xt_io::MemSink;
use xt_lists::{OutOfMemory, Text};
use xt_shapes::{Order, Rep};
use xt_wire::cursor::DecodeFault;

/// A reader's type, which is assignable from a writer's, and the representation of the writer's samples.
pub struct Reader {
    pub(crate) rep: Rep,
    pub(crate) ty: XType,
    prepared: Prepared,
    may_be_taped: bool,
    has_floats: bool,
    ghost valid: { IsValid ty },
    ghost guided: { IsPrepared (tree ty) prepared } by { Prim.hlevel (props, guide_prop) },
    ghost settled: { has_floats ≡ kinds.has_floats (tree ty) },
}

// By hand, so that it is proved here once, and not in each crate that lets one go.
impl Drop for Reader {
    fn drop(self) {
        let Reader {
            rep: _,
            ty: _,
            prepared: _,
            may_be_taped: _,
            has_floats: _,
        } = self;
    }
}

pub(crate) fn malformed(alloc: Global, at: u64, why: Why) -> Result<Answer, OutOfMemory>
    ensures { IfOk result (λ answer. answer ≡ spec.said 18 (lines.malformed_text (record { at = at; why = why }))) }
{
    let text = malformed_text(alloc, at, why)?;
    Ok(Answer {
        status: MALFORMED,
        text,
    })
}

// The sample of a value in little-endian order, or this answer where it is too large.
fn sample_of(
    alloc: Global,
    status: u32,
    text: &[u8],
    rep: Rep,
    ty: &XType,
    value: &Value,
) -> Result<Answer, OutOfMemory>
    ensures { IfOk result (λ answer. answer ≡ spec.sample_answer status text.now rep (tree ty.now) (val value.now)) }
{
    match size_of_sample(rep, ty, value) {
        None => said(alloc, status, text),
        Some(_) => {
            let mut sink = MemSink::new(alloc, usize::MAX, &[]);
            match write_sample(rep, ty, value, Order::Little, &mut sink) {
                Ok(()) => said(alloc, DONE, sink.octets()),
                Err(_) => Err(OutOfMemory),
            }
        }
    }
}

// What a sample came to, as a sample in a representation.
fn as_sample(alloc: Global, to: Rep, ty: &XType, outcome: &Outcome) -> Result<Answer, OutOfMemory>
    ensures { IfOk result (λ answer. answer ≡ spec.converted_answer to (tree ty.now) (Ok (outcome_val outcome.now))) }
{
    match outcome {
        Outcome::Sample(value) => sample_of(alloc, TOO_LARGE, b"too-large", to, ty, value),
        Outcome::Discarded => said(alloc, DISCARDED, b"discarded"),
        Outcome::MustUnderstand => said(alloc, MUST_UNDERSTAND, b"must-understand"),
    }
}

// An answer in JSON, with floats as they are asked.
fn shown(alloc: Global, floats: Floats, ty: &XType, plain: Answer) -> Result<Answer, OutOfMemory>
    requires { IsValid ty.now }
    ensures { IfOk result (spec.Shows floats (tree ty.now) plain) }
{
    match floats {
        Floats::Numbers if plain.status == DONE => {
            let text = with_numbers(alloc, ty, plain.text.octets())?;
            Ok(Answer { status: DONE, text })
        }
        Floats::Bits | Floats::Numbers => Ok(plain),
    }
}

fn refuse_value(alloc: Global, fault: ValueFault) -> Result<Answer, OutOfMemory>
    ensures answer { IfOk result (λ answer. answer ≡ spec.fault_answer fault) }
    ensures memory { IfOk result (λ _. fault ≡ NoMemory → ⊥) }
{
    match fault {
        ValueFault::NotJson => said(alloc, JSON, b"syntax"),
        ValueFault::Wrong { path, rule } => {
            let text = format!(in alloc; "{rule} {path}")?;
            said(alloc, JSON, text.as_bytes())
        }
        ValueFault::OutOfMemory => Err(OutOfMemory),
    }
}

impl Reader {
    /// The reader's type that a word names, where it is assignable from the writer's that another names.
    pub fn open(
        alloc: Global,
        types: &Types,
        reader: &[u8],
        writer: &[u8],
        rep: u32,
        flags: u32,
    ) -> Result<Reader, Stop>
        ensures comes { Comes (spec.reader_of (spec.pair_of reader.now writer.now rep flags) (front types.now)) (λ opened. tree opened.ty) result }
        ensures rep { IfOk result (λ opened. spec.rep_of rep ≡ Some opened.rep) }
    {
        let Some(pair) = pair_of(reader, writer, rep, flags) else {
            return Err(refuse_words(alloc));
        };
        let ty = assignable(alloc, &pair, types.declared.as_slice(), &types.pool)?;
        let prepared = Prepared::of(alloc, pair.rep, &ty);
        let may_be_taped = may_be_taped(&ty);
        let has_floats = has_floats(&ty);
        Ok(Reader {
            rep: pair.rep,
            ty,
            prepared,
            may_be_taped,
            has_floats,
        })
    }

    pub(crate) fn taken(&self, alloc: Global, sample: &[u8]) -> Result<Outcome, DecodeFault>
        ensures { Taken (read_sample self.now.rep (type_shape self.now.ty) sample.now) result }
    {
        taken(alloc, self.rep, &self.ty, &self.prepared.guide, sample)
    }

    // The value of a plain sample. None says nothing.
    fn plain<'s>(&self, alloc: Global, sample: &'s [u8]) -> Option<Packed<'s>>
        ensures { IfSome result (λ value. read_sample self.now.rep (type_shape self.now.ty) sample.now ≡ Ok (samples.sample (packed_val value))) }
    {
        if !self.prepared.may_be_plain {
            return None;
        }
        read_plain(alloc, self.rep, &self.ty, &self.prepared.guide, sample)
    }

    // A plain sample as JSON, by the plan of its type. None says nothing.
    fn read_plain(&self, alloc: Global, sample: &[u8]) -> Option<Answer>
        ensures { IfSome result (λ answer. answer ≡ spec.read_answer (tree self.now.ty) (read_sample self.now.rep (type_shape self.now.ty) sample.now)) }
    {
        let Some(plan) = &self.prepared.plan else {
            return None;
        };
        let value = self.plain(alloc, sample)?;
        let mut text = Text::new(alloc);
        write_value(plan, &value, &mut text)?;
        Some(Answer { status: DONE, text })
    }

    // The JSON of a value by the plan of its type. None says nothing.
    fn planned_json(&self, alloc: Global, value: &Value) -> Option<Text>
        ensures { IfSome result (λ text. text ≡ json_text (tree self.now.ty) (val value.now)) }
    {
        let Some(plan) = &self.prepared.plan else {
            return None;
        };
        let mut text = Text::new(alloc);
        write_tree(plan, value, &mut text)?;
        Some(text)
    }

    // The JSON of a value.
    fn json_of(&self, alloc: Global, value: &Value) -> Result<Text, OutOfMemory>
        ensures { IfOk result (λ text. text ≡ json_text (tree self.now.ty) (val value.now)) }
    {
        match self.planned_json(alloc, value) {
            Some(text) => Ok(text),
            None => to_json(alloc, &self.ty, value),
        }
    }

    // What a sample came to, as JSON.
    fn as_json(&self, alloc: Global, outcome: &Outcome) -> Result<Answer, OutOfMemory>
        ensures { IfOk result (λ answer. answer ≡ spec.read_answer (tree self.now.ty) (Ok (outcome_val outcome.now))) }
    {
        match outcome {
            Outcome::Sample(value) => {
                let text = self.json_of(alloc, value)?;
                Ok(Answer { status: DONE, text })
            }
            Outcome::Discarded => said(alloc, DISCARDED, b"discarded"),
            Outcome::MustUnderstand => said(alloc, MUST_UNDERSTAND, b"must-understand"),
        }
    }

    // The form that is worth its work: raw bits, also where numbers were asked, for a type without floats.
    fn form(&self, floats: Floats) -> Floats
        ensures { spec.StandsFor result floats (tree self.now.ty) }
    {
        plain_is_shown();
        plain_is_read();
        if self.has_floats {
            floats
        } else {
            Floats::Bits
        }
    }

    /// What the reader's type makes of a sample, as JSON.
    pub fn read(&self, alloc: Global, floats: Floats, sample: &[u8]) -> Result<Answer, OutOfMemory>
        ensures { IfOk result (spec.Shows floats (tree self.now.ty) (spec.read_answer (tree self.now.ty) (read_sample self.now.rep (type_shape self.now.ty) sample.now))) }
    {
        let plain = self.read_bits(alloc, sample)?;
        shown(alloc, self.form(floats), &self.ty, plain)
    }

    // The same, with floats as their raw bits.
    fn read_bits(&self, alloc: Global, sample: &[u8]) -> Result<Answer, OutOfMemory>
        ensures { IfOk result (λ answer. answer ≡ spec.read_answer (tree self.now.ty) (read_sample self.now.rep (type_shape self.now.ty) sample.now)) }
    {
        match self.read_plain(alloc, sample) {
            Some(answer) => Ok(answer),
            None => self.read_general(alloc, sample),
        }
    }

    // A sample that has to be read in general.
    fn read_general(&self, alloc: Global, sample: &[u8]) -> Result<Answer, OutOfMemory>
        ensures { IfOk result (λ answer. answer ≡ spec.read_answer (tree self.now.ty) (read_sample self.now.rep (type_shape self.now.ty) sample.now)) }
    {
        match self.taken(alloc, sample) {
            Ok(outcome) => self.as_json(alloc, &outcome),
            Err(DecodeFault::Malformed { at, why }) => malformed(alloc, at, why),
            Err(DecodeFault::ReadFault | DecodeFault::OutOfMemory) => Err(OutOfMemory),
        }
    }

    // A plain sample as a sample in a representation. None says nothing.
    fn convert_plain(&self, alloc: Global, to: Rep, sample: &[u8]) -> Option<Answer>
        ensures { IfSome result (λ answer. answer ≡ spec.converted_answer to (tree self.now.ty) (read_sample self.now.rep (type_shape self.now.ty) sample.now)) }
    {
        let value = self.plain(alloc, sample)?;
        plain_answer(alloc, to, &self.ty, &value, sample.len())
    }

    /// The same, as a sample in a representation.
    pub fn convert(&self, alloc: Global, to: Rep, sample: &[u8]) -> Result<Answer, OutOfMemory>
        ensures { IfOk result (λ answer. answer ≡ spec.converted_answer to (tree self.now.ty) (read_sample self.now.rep (type_shape self.now.ty) sample.now)) }
    {
        match self.convert_plain(alloc, to, sample) {
            Some(answer) => Ok(answer),
            None => self.convert_general(alloc, to, sample),
        }
    }

    // A sample that has to be converted in general.
    fn convert_general(&self, alloc: Global, to: Rep, sample: &[u8]) -> Result<Answer, OutOfMemory>
        ensures { IfOk result (λ answer. answer ≡ spec.converted_answer to (tree self.now.ty) (read_sample self.now.rep (type_shape self.now.ty) sample.now)) }
    {
        match self.taken(alloc, sample) {
            Ok(outcome) => as_sample(alloc, to, &self.ty, &outcome),
            Err(DecodeFault::Malformed { at, why }) => malformed(alloc, at, why),
            Err(DecodeFault::ReadFault | DecodeFault::OutOfMemory) => Err(OutOfMemory),
        }
    }

    // The sample of a text with raw bits for floats, read from a tape of its tokens. None says nothing.
    fn write_bits(&self, alloc: Global, to: Rep, json: &[u8]) -> Option<Answer>
        ensures { IfSome result (λ answer. answer ≡ spec.written_answer to (tree self.now.ty) (read_as (tree self.now.ty) json.now)) }
    {
        if !self.may_be_taped {
            return None;
        }
        let mut scratch = Scratch::new(alloc);
        let value = read_taped(alloc, &self.ty, json, &mut scratch)?;
        plain_written(alloc, to, &self.ty, &value, json.len())
    }

    // The sample of a text that is read from a tape of its tokens. None says nothing; it comes for floats as numbers, too.
    fn write_taped(&self, alloc: Global, to: Rep, floats: Floats, json: &[u8]) -> Option<Answer>
        ensures { IfSome result (λ answer. answer ≡ spec.written_answer to (tree self.now.ty) (spec.meaning floats (tree self.now.ty) json.now)) }
    {
        match floats {
            Floats::Bits => self.write_bits(alloc, to, json),
            Floats::Numbers => None,
        }
    }

    // The value that a text in JSON means.
    fn meaning(&self, alloc: Global, floats: Floats, json: &[u8]) -> Result<Value, ValueFault>
        ensures ok { IfOk result (λ value. spec.meaning floats (tree self.now.ty) json.now ≡ Ok (val value)) }
        ensures err { FailsAs (spec.meaning floats (tree self.now.ty) json.now) result }
    {
        match floats {
            Floats::Bits => from_json(alloc, &self.ty, json),
            Floats::Numbers => from_numbers(alloc, &self.ty, json),
        }
    }

    /// A value of the reader's type in JSON, as a sample in a representation.
    pub fn write(
        &self,
        alloc: Global,
        to: Rep,
        floats: Floats,
        json: &[u8],
    ) -> Result<Answer, OutOfMemory>
        ensures { IfOk result (λ answer. answer ≡ spec.written_answer to (tree self.now.ty) (spec.meaning floats (tree self.now.ty) json.now)) }
    {
        let form = self.form(floats);
        if let Some(answer) = self.write_taped(alloc, to, form, json) {
            return Ok(answer);
        }
        match self.meaning(alloc, form, json) {
            Ok(value) => sample_of(alloc, JSON, b"LARGE /", to, &self.ty, &value),
            Err(fault) => refuse_value(alloc, fault),
        }
    }
}
