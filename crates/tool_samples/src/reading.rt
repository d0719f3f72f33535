ghost use Rattle.std.specs.Prelude.{◌≡◌};
ghost use Rattle.type_trees.specs.View.{tree};
ghost use Rattle.projection_laws.specs.Premises.{IsValid};
ghost use Rattle.std.proofs.Props.{props};
ghost use Rattle.try_construct.proofs.GuideProps.{guide_prop};
ghost use Rattle.tool_samples.specs.Sampling.{IsPrepared};

use crate::forms::Shows;
use crate::prepared::Prepared;
use crate::sampling::sample_piece;
use std::alloc::Global;
use tool_runs::output::{Block, Stop, Turns, is_sample};
use type_trees::XType;
use xt_io::{BundleReader, Head, Kind, Source};
use xt_lists::Text;
use xt_shapes::Rep;

/// A piece for each sample, by its representation and the reader's type, in the form that is asked.
#[derive(Drop)]
pub struct Samples<F> {
    rep: Rep,
    ty: XType,
    form: F,
    prepared: Prepared,
    ghost valid: { IsValid ty },
    ghost guided: { IsPrepared (tree ty) prepared } by { Prim.hlevel (props, guide_prop) },
}

impl<F: Shows + Drop> Samples<F> {
    /// Before any sample, with what is made of the type once.
    pub fn prepared(alloc: Global, rep: Rep, ty: XType, form: F) -> Samples<F>
        requires { IsValid ty }
        ensures rep { result.rep ≡ rep }
        ensures ty { result.ty ≡ ty }
        ensures form { result.form ≡ form }
    {
        let prepared = Prepared::of(alloc, rep, &ty);
        Samples {
            rep,
            ty,
            form,
            prepared,
        }
    }
}

impl<F: Shows + Drop> Turns for Samples<F> {
    ghost use Rattle.type_trees.specs.View.{tree};
    ghost use Rattle.xt_io.specs.declared.Kind.TheVariants.{Sample};
    ghost use Rattle.tool_runs.specs.output.Outputs.{run, taking, finished, same_kind};
    ghost use Rattle.tool_runs.proofs.OfOutput.Turning.{run_at_fault, run_at_other};
    ghost use Rattle.tool_samples.specs.lines.Lines.{shown_turn};

    ghost style = { F.style };

    ghost kinds = { λ kind. same_kind kind Sample };

    ghost to_write = { λ s k bundle. run F.style (taking Sample (shown_turn s.rep (F.piece s.form (tree s.ty)) (tree s.ty))) (λ u. finished) tt k bundle };

    fn takes(kind: Kind) -> bool {
        is_sample(kind)
    }

    fn turn<S: Source>(
        &mut self,
        alloc: Global,
        _number: u32,
        head: Head,
        reader: BundleReader<S>,
        gathered: &mut Text,
        block: &mut Block,
    ) -> (BundleReader<S>, Result<(), Stop>) {
        let (back, shown) = sample_piece(
            alloc,
            &self.form,
            self.rep,
            &self.ty,
            &self.prepared,
            head,
            reader,
            gathered,
        );
        match shown {
            Err(stop) => (back, Err(stop)),
            Ok(piece) => match block.put(piece) {
                Ok(()) => (back, Ok(())),
                Err(halt) => (back, Err(Stop::Halted(halt))),
            },
        }
    }

    ghost at_fault = { λ s k fault. run_at_fault F.style (taking Sample (shown_turn s.rep (F.piece s.form (tree s.ty)) (tree s.ty))) (λ u. finished) tt k fault };

    ghost at_other = { λ s k item more other. run_at_other F.style Sample (shown_turn s.rep (F.piece s.form (tree s.ty)) (tree s.ty)) (λ u. finished) tt k item more other };
}
