// What records come to.
use assignability::Verdict;
use object_walks::ResolveFault;
use settled_parts::Outcome;
use type_object::PoolFault;
use type_trees::HashId;
use xcdr_model::Why;
use xt_shapes::Rep;

/// What a record comes to.
#[derive(Debug, Drop)]
pub enum Replayed {
    /// Nothing that is told: an object, a Note that begins no stream, or a sample of a stream that the reader's type isn't assignable from.
    Nothing,
    /// A stream begins: its type and representation, and whether the reader's type is assignable.
    Stream {
        id: HashId,
        rep: Rep,
        verdict: Verdict,
    },
    /// A sample, as the reader's type sees it.
    Read(Outcome),
    /// A malformed sample: the place of its first fault, and why.
    Malformed {
        at: u64,
        why: Why,
    },
}

/// Why a record is refused.
#[derive(Debug, Drop)]
pub enum ReplayFault {
    /// A text or a value, or a sample before the first stream.
    Misplaced,
    /// The object is not added to the pool.
    Pool(PoolFault),
    /// The stream's type does not resolve.
    Resolve(ResolveFault),
    /// The stream's type is, behind aliases, no structure or union.
    Top(HashId),
    OutOfMemory,
}
