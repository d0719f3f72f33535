ghost use Rattle.std.specs.Prelude.{◌≡◌, is_some};
ghost use Rattle.type_trees.specs.Bridge.{type_shape};
ghost use Rattle.packed_reader.specs.Plain.{may_be_taped};
ghost use Rattle.projection_laws.specs.Premises.{IsValid};

use crate::values::writing::write_value;
use json::Scratch;
use packed_reader::may_be_taped;
use std::alloc::Global;
use tool_runs::output::{Payloads, Stop};
use type_trees::XType;
use xt_io::{Head, Kind, Sink};
use xt_shapes::Rep;

/// A sample for each JSON value of a type, in a representation.
#[derive(Drop)]
pub struct Values {
    ty: XType,
    rep: Rep,
    scratch: Option<Scratch>,
    ghost valid: { IsValid ty },
}

// What texts of the type are read from a tape with, where that may be.
fn scratch_for(alloc: Global, ty: &XType) -> Option<Scratch>
    ensures { is_some result ≡ may_be_taped (type_shape ty.now) }
{
    if may_be_taped(ty) {
        Some(Scratch::new(alloc))
    } else {
        None
    }
}

impl Values {
    /// It takes no memory; what is read later is read in memory of this allocator. Texts are read from a tape only where no union and no
    /// map stands in the type.
    pub fn new(alloc: Global, ty: XType, rep: Rep) -> Values
        requires { IsValid ty }
        ensures ty { result.ty ≡ ty }
        ensures rep { result.rep ≡ rep }
    {
        let scratch = scratch_for(alloc, &ty);
        Values { ty, rep, scratch }
    }
}

impl Payloads for Values {
    ghost use Rattle.type_trees.specs.View.{tree};
    ghost use Rattle.xt_io.specs.declared.Kind.TheVariants.{Json};
    ghost use Rattle.tool_runs.specs.declared.output.ending.Style.TheVariants.{Records};
    ghost use Rattle.tool_runs.specs.output.Outputs.{run, taking, finished, same_kind};
    ghost use Rattle.tool_runs.proofs.OfOutput.Turning.{run_at_fault, run_at_other};
    ghost use Rattle.tool_samples.specs.lines.Lines.{write_turn};

    ghost style = { Records };

    ghost kinds = { λ kind. same_kind kind Json };

    ghost to_write = { λ s k bundle. run Records (taking Json (write_turn s.rep (tree s.ty))) (λ u. finished) tt k bundle };

    fn takes(kind: Kind) -> bool {
        match kind {
            Kind::Json => true,
            Kind::Object | Kind::Idl | Kind::Sample | Kind::Note => false,
        }
    }

    fn take<K: Sink>(
        &mut self,
        alloc: Global,
        number: u32,
        _head: Head,
        payload: &[u8],
        sink: &mut K,
    ) -> Result<(), Stop> {
        let Values { ty, rep, scratch } = self;
        write_value(alloc, ty, *rep, number, payload, scratch, sink)
    }

    ghost at_fault = { λ s k fault. run_at_fault Records (taking Json (write_turn s.rep (tree s.ty))) (λ u. finished) tt k fault };

    ghost at_other = { λ s k item more other. run_at_other Records Json (write_turn s.rep (tree s.ty)) (λ u. finished) tt k item more other };
}
