// Plain samples, which are converted and written without a value of each part.
ghost use Rattle.std.specs.Prelude.{◌≡◌, IfSome, Ok};
ghost use Rattle.type_trees.specs.View.{tree};
ghost use Rattle.xcdr_model.specs.Samples.{sample};
ghost use Rattle.packed_reader.specs.View.{packed_val};
ghost use Rattle.xt_calls.specs.Calls.{converted_answer, written_answer};

use crate::answers::{Answer, DONE, TOO_LARGE, said};
use packed_reader::Packed;
use shape_laws::sample_sized;
use std::alloc::Global;
use tool_samples::lines::{MOST_OCTETS, plain_sample};
use type_trees::XType;
use xt_shapes::Rep;

/// A plain value as a sample in a representation, or that this has too many octets; by the octets of the sample that was read.
/// None says nothing.
pub(crate) fn plain_answer(
    alloc: Global,
    to: Rep,
    ty: &XType,
    value: &Packed<'_>,
    read: usize,
) -> Option<Answer>
    ensures { IfSome result (λ answer. answer ≡ converted_answer to (tree ty.now) (Ok (sample (packed_val value.now)))) }
{
    sample_sized();
    let text = plain_sample(alloc, to, ty, value, read)?;
    if text.len() <= MOST_OCTETS {
        return Some(Answer { status: DONE, text });
    }
    match said(alloc, TOO_LARGE, b"too-large") {
        Ok(answer) => Some(answer),
        Err(_) => None,
    }
}

/// A plain value that a JSON text of so many octets means, as a sample in a representation. None says nothing; it comes for a sample of too many
/// octets, too.
pub(crate) fn plain_written(
    alloc: Global,
    to: Rep,
    ty: &XType,
    value: &Packed<'_>,
    read: usize,
) -> Option<Answer>
    ensures { IfSome result (λ answer. answer ≡ written_answer to (tree ty.now) (Ok (packed_val value.now))) }
{
    sample_sized();
    let text = plain_sample(alloc, to, ty, value, read)?;
    if text.len() <= MOST_OCTETS {
        Some(Answer { status: DONE, text })
    } else {
        None
    }
}
