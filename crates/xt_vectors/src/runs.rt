ghost use Rattle.std.specs.Prelude.{◌≡◌, IfOk};
ghost use Rattle.xt_vectors.specs.Runs as spec;

use crate::draws::Draws;
use crate::findings::{Finding, try_pair};
use crate::laws::each_is_sound;
use crate::pairs::draw_pair;
use md5::{Digest, Md5};
use std::alloc::Global;
use xt_lists::OutOfMemory;

/// What was found of many pairs.
#[derive(Debug, Clone, Copy, PartialEq, Eq)]
pub struct Summary {
    pub pairs: u32,
    /// The pairs whose reader's type is assignable from the writer's; of each of these the value was written and read.
    pub yes: u32,
    pub no: u32,
    /// How many samples gave a value, were discarded, or had a member that must be understood.
    pub ok: u32,
    pub discarded: u32,
    pub must_understand: u32,
    /// The MD5 of all samples, one after another.
    pub digest: [u8; 16],
}

#[derive(Clone, Copy)]
struct Counts {
    yes: u32,
    no: u32,
    ok: u32,
    discarded: u32,
    must_understand: u32,
}

impl Counts {
    fn none() -> Counts
        ensures { result ≡ spec.none }
    {
        Counts {
            yes: 0,
            no: 0,
            ok: 0,
            discarded: 0,
            must_understand: 0,
        }
    }

    fn with(self, finding: Finding) -> Counts
        requires { spec.IsBelow self 4294967295 }
        ensures { result ≡ spec.counted finding self }
    {
        match finding {
            Finding::No => Counts {
                no: self.no + 1,
                ..self
            },
            Finding::Read => Counts {
                yes: self.yes + 1,
                ok: self.ok + 1,
                ..self
            },
            Finding::Discarded => Counts {
                yes: self.yes + 1,
                discarded: self.discarded + 1,
                ..self
            },
            Finding::MustUnderstand => Counts {
                yes: self.yes + 1,
                must_understand: self.must_understand + 1,
                ..self
            },
        }
    }

    fn summary(self, pairs: u32, digest: [u8; 16]) -> Summary
        ensures { result ≡ spec.summed pairs self digest }
    {
        Summary {
            pairs,
            yes: self.yes,
            no: self.no,
            ok: self.ok,
            discarded: self.discarded,
            must_understand: self.must_understand,
            digest,
        }
    }
}

/// Draws `count` pairs of types from a seed, each with a value of the writer's type; judges each under the standard policy (DDS-XTypes
/// 1.3, 7.2.4), and on Yes writes the value's sample in little-endian order (7.4 and 7.6.3.1.2) and reads it by the reader's type alone.
///
/// The seed and the count alone decide the summary. The only refusal is want of memory.
pub fn run(alloc: Global, seed: u64, count: u32) -> Result<Summary, OutOfMemory>
    ensures { IfOk result (λ summary. summary ≡ spec.summary seed count) }
{
    let mut draws = Draws::new(seed);
    let mut hasher = Md5::new();
    let mut counts = Counts::none();
    each_is_sound();
    for _turn in 0..count {
        let pair = draw_pair(alloc, &mut draws)?;
        counts = counts.with(try_pair(alloc, &pair, &mut hasher)?);
    }
    Ok(counts.summary(count, hasher.finalize()))
}
