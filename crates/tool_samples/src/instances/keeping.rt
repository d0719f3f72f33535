ghost use Rattle.std.specs.Prelude.{◌≡◌, ◌≤◌, ℕ, [], Some, IfOk};
ghost use Rattle.type_trees.specs.View.{tree};
ghost use Rattle.projection_laws.specs.Premises.{IsValid};
ghost use Rattle.xt_io.specs.Bundles.{nothing};
ghost use Rattle.tool_runs.specs.output.Outputs.{finished};
ghost use Rattle.tool_runs.specs.output.Runs.{Steps, StopsWriting};
ghost use Rattle.tool_samples.specs.instances.Holding.{kept_in};
ghost use Rattle.tool_samples.specs.instances.Instancing.{instances_body};

use crate::instances::held::LastSamples;
use crate::instances::putting::put_sample;
use crate::prepared::Prepared;
use key_instances::LastValues;
use std::alloc::Global;
use tool_runs::output::{Payloads, Stop, Style, is_sample};
use type_trees::XType;
use xt_io::{Head, Kind, Sink};
use xt_lists::OutOfMemory;
use xt_shapes::Rep;

impl LastSamples {
    /// Nothing is kept yet. Of each key the last `depth` samples will be, 1 to 1,024.
    pub fn new(alloc: Global, rep: Rep, ty: XType, depth: u32) -> Result<LastSamples, OutOfMemory>
        requires valid { IsValid ty }
        requires depth { (1 ≤ depth) × (depth ≤ 1024) }
        ensures rep { IfOk result (λ kept. kept.rep ≡ rep) }
        ensures ty { IfOk result (λ kept. kept.ty ≡ ty) }
        ensures depth { IfOk result (λ kept. kept.cache.depth ≡ depth) }
        ensures none { IfOk result (λ kept. kept_in kept ≡ []) }
    {
        let prepared = Prepared::of(alloc, rep, &ty);
        let cache = LastValues::new(alloc, depth, 65_536)?;
        Ok(LastSamples {
            rep,
            ty,
            prepared,
            cache,
        })
    }

    /// Writes for each instance, in the order of the keys' first puts, a line with the hash of its key and the number of its values, and a
    /// line for each value, from the oldest on.
    pub fn finish<K: Sink>(&self, alloc: Global, sink: &mut K) -> Result<(), Stop>
        ensures steps { (number : ℕ) → Steps Style.Lines (Some (instances_body self.now.cache.depth self.now.rep (tree self.now.ty) (kept_in self.now) number nothing)) (Some finished) result (K.taken sink.old) (K.taken sink.new) }
        ensures stops { StopsWriting (K.faults sink.old) (K.faults sink.new) result }
        ensures same { K.name sink.new ≡ K.name sink.old }
    {
        self.say_instances(alloc, sink)
    }
}

impl Payloads for LastSamples {
    ghost use Rattle.type_trees.specs.View.{tree};
    ghost use Rattle.xt_io.specs.declared.Kind.TheVariants.{Sample};
    ghost use Rattle.tool_runs.specs.declared.output.ending.Style.TheVariants.{Lines};
    ghost use Rattle.tool_runs.specs.output.Outputs.{taking, same_kind};
    ghost use Rattle.tool_runs.proofs.OfOutput.Turning.{run_at_fault, run_at_other};
    ghost use Rattle.tool_samples.specs.instances.Holding.{kept_in};
    ghost use Rattle.tool_samples.specs.instances.Instancing.{instances_turn, instances_end, instances_body};

    ghost style = { Lines };

    ghost kinds = { λ kind. same_kind kind Sample };

    ghost to_write = { λ s k bundle. instances_body s.cache.depth s.rep (tree s.ty) (kept_in s) k bundle };

    fn takes(kind: Kind) -> bool {
        is_sample(kind)
    }

    fn take<K: Sink>(
        &mut self,
        alloc: Global,
        _number: u32,
        _head: Head,
        payload: &[u8],
        _sink: &mut K,
    ) -> Result<(), Stop> {
        put_sample(
            alloc,
            self.rep,
            &self.ty,
            &self.prepared,
            payload,
            &mut self.cache,
        )
    }

    ghost at_fault = { λ s k fault. run_at_fault Lines (taking Sample (instances_turn s.cache.depth s.rep (tree s.ty))) (instances_end (tree s.ty)) (kept_in s) k fault };

    ghost at_other = { λ s k item more other. run_at_other Lines Sample (instances_turn s.cache.depth s.rep (tree s.ty)) (instances_end (tree s.ty)) (kept_in s) k item more other };
}
