// A reader of recordings.
ghost use Rattle.type_trees.specs.View.{tree};
ghost use Rattle.projection_laws.specs.Premises.{IsValid};
ghost use Rattle.std.specs.Option.{ForSome};
ghost use Rattle.object_walks.specs.Resolving.{resolved};
ghost use Rattle.xt_recorder.specs.Judged.{IsSo, IsJudgedAs};

use crate::found::Found;
use type_object::Pool;
use type_trees::{HashId, XType};
use xt_shapes::Rep;

/// The stream that the samples belong to.
#[derive(Clone, Copy, PartialEq, Eq)]
pub(crate) struct Stream {
    pub(crate) rep: Rep,
    pub(crate) yes: bool,
}

/// A reader's type, with an identifier that the objects resolve to it where one is known, the objects so far, and the stream, once there was one. What was found of the last stream's type is kept, so that many
/// streams of a type cost one verdict; it is forgotten where an object comes that was not there.
pub struct Replayer {
    pub(crate) reader: XType,
    pub(crate) id: Option<HashId>,
    pub(crate) pool: Pool,
    pub(crate) stream: Option<Stream>,
    pub(crate) last: Option<Found>,
    ghost valid: { IsValid reader },
    ghost known: { ForSome id (λ id. IsJudgedAs (tree reader) (resolved pool id)) },
    ghost so: { ForSome last (λ found. IsSo (tree reader) pool found) },
}

// By hand, so that it is proved here once, and not in each crate that lets one go.
impl Drop for Replayer {
    fn drop(self) {
        let Replayer {
            reader: _,
            id: _,
            pool: _,
            stream: _,
            last: _,
        } = self;
    }
}
