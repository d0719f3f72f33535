ghost use Rattle.std.specs.Prelude.{◌≡◌};
ghost use Rattle.type_trees.specs.View.{tree};
ghost use Rattle.projection_laws.specs.Premises.{IsValid};
ghost use Rattle.std.proofs.Props.{props};
ghost use Rattle.try_construct.proofs.GuideProps.{guide_prop};
ghost use Rattle.tool_samples.specs.Sampling.{IsPrepared};

use crate::prepared::Prepared;
use key_instances::LastValues;
use type_trees::{Value, XType};
use xt_lists::Text;
use xt_shapes::Rep;

/// What is kept of a sample: its octets where it is plain, else the value that the reader's type makes of it.
#[derive(Debug, Drop)]
pub enum Held {
    Octets(Text),
    Value(Value),
}

/// The last samples of each of at most 65,536 keys, as the reader's type sees the samples of a representation. Nothing is written of them
/// before the end.
#[derive(Drop)]
pub struct LastSamples {
    pub(crate) rep: Rep,
    pub(crate) ty: XType,
    pub(crate) prepared: Prepared,
    pub(crate) cache: LastValues<Held>,
    ghost valid: { IsValid ty },
    ghost guided: { IsPrepared (tree ty) prepared } by { Prim.hlevel (props, guide_prop) },
    ghost most: { cache.most ≡ 65536 },
}
