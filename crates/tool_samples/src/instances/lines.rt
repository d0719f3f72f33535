ghost use Rattle.std.specs.Prelude.{◌≡◌, ◌<◌, ◌++◌, [], ◌∷◌, Some, IfOk, codes, length, slice_get};
ghost use Rattle.std.specs.Fmt.{decimal};
ghost use Rattle.hex.specs.Hex.{encode_lower};
ghost use Rattle.type_rules.specs.Valid.{type_fault};
ghost use Rattle.type_trees.specs.View.{tree, val};
ghost use Rattle.projection_laws.specs.Premises.{IsValid};
ghost use Rattle.xcdr_model.specs.KeyOctets as keys;
ghost use Rattle.tool_runs.specs.output.Outputs.{Output, after_pieces, finished};
ghost use Rattle.tool_runs.specs.output.Runs.{Steps, StopsWriting};
ghost use Rattle.tool_samples.specs.instances.Holding.{held_val, kept_in, value_read};
ghost use Rattle.tool_samples.specs.instances.Instancing as spec;
ghost use Rattle.type_trees.specs.Bridge.{type_shape};
ghost use Rattle.xcdr_model.specs.Samples.{read_sample};
ghost use Rattle.std.specs.Prelude.{IfSome};

use crate::forms::{Lines, Shows, tree_line};
use crate::instances::held::{Held, LastSamples};
use crate::lines::value_text;
use crate::payloads::taken;
use key_instances::octets::{hash_of, short_key};
use packed_reader::read_plain;
use settled_parts::Outcome;
use std::alloc::Global;
use tool_runs::output::{Halt, Stop, Style, line};
use tool_runs::say_pieces;
use type_trees::{Value, XType};
use xt_io::Sink;
use xt_lists::{OutOfMemory, Text};

fn instance_line(alloc: Global, ty: &XType, key: &[u8], count: u32) -> Result<Text, OutOfMemory>
    requires { IsValid ty.now }
    ensures { IfOk result (λ text. text ≡ spec.instance_line (tree ty.now) key.now count) }
{
    let hash = hash_of(short_key(ty), key);
    let digits = hex::encode(alloc, hash)?;
    let mut text = Text::from_octets(alloc, b"instance ")?;
    text.append(digits.as_bytes())?;
    let end = format!(in alloc; " {count}\n")?;
    text.append(end.as_bytes())?;
    Ok(text)
}

fn value_line(alloc: Global, ty: &XType, value: &Value) -> Result<Text, OutOfMemory>
    requires { IsValid ty.now }
    ensures { IfOk result (λ text. text ≡ spec.value_line (tree ty.now) (val value.now)) }
{
    line(value_text(alloc, ty, value)?)
}

impl LastSamples {
    // The line of a plain sample. None says nothing.
    fn plain_line(&self, alloc: Global, payload: &[u8]) -> Option<Text>
        ensures { IfSome result (λ text. text ≡ spec.value_line (tree self.now.ty) (value_read (read_sample self.now.rep (type_shape self.now.ty) payload.now))) }
    {
        match &self.prepared.plan {
            None => None,
            Some(plan) => {
                let value = read_plain(alloc, self.rep, &self.ty, &self.prepared.guide, payload)?;
                Lines.plain(alloc, &self.ty, plan, &value, payload.len())
            }
        }
    }

    // The line of a value by the plan of its type. None says nothing.
    fn planned_line(&self, alloc: Global, value: &Value) -> Option<Text>
        ensures { IfSome result (λ text. text ≡ spec.value_line (tree self.now.ty) (val value.now)) }
    {
        match &self.prepared.plan {
            None => None,
            Some(plan) => tree_line(alloc, &self.ty, plan, value),
        }
    }

    // The line of a sample that has a value, of which the octets are kept.
    fn octets_line(&self, alloc: Global, payload: &[u8]) -> Result<Text, OutOfMemory>
        ensures { IfOk result (λ text. text ≡ spec.value_line (tree self.now.ty) (value_read (read_sample self.now.rep (type_shape self.now.ty) payload.now))) }
    {
        if let Some(text) = self.plain_line(alloc, payload) {
            return Ok(text);
        }
        match taken(alloc, self.rep, &self.ty, &self.prepared.guide, payload) {
            Ok(Outcome::Sample(value)) => self.tree_line(alloc, &value),
            _ => Err(OutOfMemory),
        }
    }

    // The line of a value, by the plan of its type where there is one.
    fn tree_line(&self, alloc: Global, value: &Value) -> Result<Text, OutOfMemory>
        ensures { IfOk result (λ text. text ≡ spec.value_line (tree self.now.ty) (val value.now)) }
    {
        if let Some(text) = self.planned_line(alloc, value) {
            return Ok(text);
        }
        value_line(alloc, &self.ty, value)
    }

    fn held_line(&self, alloc: Global, held: &Held) -> Result<Text, OutOfMemory>
        ensures { IfOk result (λ text. text ≡ spec.value_line (tree self.now.ty) (held_val self.now.rep (tree self.now.ty) held.now)) }
    {
        match held {
            Held::Octets(payload) => self.octets_line(alloc, payload.octets()),
            Held::Value(value) => self.tree_line(alloc, value),
        }
    }

    fn say_value<K: Sink>(&self, alloc: Global, held: &Held, sink: &mut K) -> Result<(), Stop>
        ensures steps { (rest : Output) → Steps Style.Lines (Some (after_pieces (spec.value_line (tree self.now.ty) (held_val self.now.rep (tree self.now.ty) held.now) ∷ []) rest)) (Some rest) result (K.taken sink.old) (K.taken sink.new) }
        ensures stops { StopsWriting (K.faults sink.old) (K.faults sink.new) result }
        ensures same { K.name sink.new ≡ K.name sink.old }
    {
        match self.held_line(alloc, held) {
            Ok(piece) => say_pieces(sink, piece.octets()),
            Err(_) => Err(Stop::Halted(Halt::OutOfMemory)),
        }
    }

    // The values of the instance at a place, from the oldest on.
    fn say_values<K: Sink>(&self, alloc: Global, at: u32, sink: &mut K) -> Result<(), Stop>
        requires at { at < length (kept_in self.now) }
        ensures steps { (rest : Output) → Steps Style.Lines (Some (after_pieces (spec.values_at (tree self.now.ty) (slice_get (kept_in self.now) at)) rest)) (Some rest) result (K.taken sink.old) (K.taken sink.new) }
        ensures stops { StopsWriting (K.faults sink.old) (K.faults sink.new) result }
        ensures same { K.name sink.new ≡ K.name sink.old }
    {
        for index in 0..self.cache.count_at(at) {
            match self.say_value(alloc, self.cache.value_at(at, index), sink) {
                Ok(()) => {}
                Err(stop) => return Err(stop),
            }
        }
        Ok(())
    }

    // The line of the instance at a place.
    fn say_head<K: Sink>(&self, alloc: Global, at: u32, sink: &mut K) -> Result<(), Stop>
        requires at { at < length (kept_in self.now) }
        ensures steps { (rest : Output) → Steps Style.Lines (Some (after_pieces (spec.head_at (tree self.now.ty) (slice_get (kept_in self.now) at)) rest)) (Some rest) result (K.taken sink.old) (K.taken sink.new) }
        ensures stops { StopsWriting (K.faults sink.old) (K.faults sink.new) result }
        ensures same { K.name sink.new ≡ K.name sink.old }
    {
        let key = self.cache.key_at(at).octets();
        match instance_line(alloc, &self.ty, key, self.cache.count_at(at)) {
            Ok(piece) => say_pieces(sink, piece.octets()),
            Err(_) => Err(Stop::Halted(Halt::OutOfMemory)),
        }
    }

    fn say_instance<K: Sink>(&self, alloc: Global, at: u32, sink: &mut K) -> Result<(), Stop>
        requires at { at < length (kept_in self.now) }
        ensures steps { (rest : Output) → Steps Style.Lines (Some (after_pieces (spec.lines_at (tree self.now.ty) (slice_get (kept_in self.now) at)) rest)) (Some rest) result (K.taken sink.old) (K.taken sink.new) }
        ensures stops { StopsWriting (K.faults sink.old) (K.faults sink.new) result }
        ensures same { K.name sink.new ≡ K.name sink.old }
    {
        match self.say_head(alloc, at, sink) {
            Ok(()) => self.say_values(alloc, at, sink),
            Err(stop) => Err(stop),
        }
    }

    // Writes the line of each instance and of each of its values, in order.
    pub(crate) fn say_instances<K: Sink>(&self, alloc: Global, sink: &mut K) -> Result<(), Stop>
        ensures steps { Steps Style.Lines (Some (spec.instances_end (tree self.now.ty) (kept_in self.now))) (Some finished) result (K.taken sink.old) (K.taken sink.new) }
        ensures stops { StopsWriting (K.faults sink.old) (K.faults sink.new) result }
        ensures same { K.name sink.new ≡ K.name sink.old }
    {
        for at in 0..self.cache.len() {
            match self.say_instance(alloc, at, sink) {
                Ok(()) => {}
                Err(stop) => return Err(stop),
            }
        }
        Ok(())
    }
}
