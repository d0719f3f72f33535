//! Whole samples.
ghost use Rattle.std.specs.Prelude.{◌≡◌, ◌++◌, ◌∷◌, [], IfSome};
ghost use Rattle.xt_shapes.specs.declared.leaves.Order.TheVariants.{Little};
ghost use Rattle.xcdr_model.specs.SampleSpelling.{fixed_sample, identifier};
ghost use Rattle.type_trees.specs.Bridge.{type_shape};
ghost use Rattle.packed_reader.specs.View.{packed_val};

use crate::body::Body;
use crate::writing::write_value;
use packed_reader::Packed;
use type_trees::XType;
use xcdr_writer::identifier_of;
use xt_shapes::{Order, Rep};
use xt_wire::numbers::padding;

// Appends the encapsulation, which counts no padding yet.
fn begun(rep: Rep, ty: &XType, front: Vec<u8>) -> Option<Vec<u8>>
    ensures { IfSome result (λ all. all.items ≡ front.items ++ 0 ∷ identifier rep (type_shape ty.now) Little ∷ 0 ∷ 0 ∷ []) }
{
    let mut all = front;
    match all.extend_from_slice(&[0, identifier_of(rep, ty, Order::Little), 0, 0]) {
        Ok(()) => Some(all),
        Err(_) => None,
    }
}

/// Appends the little-endian sample of a value in that representation: the encapsulation, its body, and zeros up to a multiple of 4, which
/// the last option octet counts. None says nothing: it comes where value and type don't fit each other, for maps, and where
/// memory is wanting.
pub fn write_plain(rep: Rep, ty: &XType, value: &Packed<'_>, front: Vec<u8>) -> Option<Vec<u8>>
    ensures { IfSome result (λ all. all.items ≡ front.items ++ fixed_sample rep Little (type_shape ty.now) (packed_val value.now)) }
{
    let all = begun(rep, ty, front)?;
    let mut body = Body::new(all);
    let begin = body.len();
    write_value(rep, ty, value, &mut body)?;
    let zeros = padding(4, body.place());
    body.align(4)?;
    let mut all = body.end();
    all[begin - 1] = zeros as u8;
    Some(all)
}
