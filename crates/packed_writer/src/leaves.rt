//! What has no parts.
ghost use Rattle.std.specs.Prelude.{◌≡◌, IfSome};
ghost use Rattle.xt_shapes.specs.declared.leaves.Order.TheVariants.{Little};
ghost use Rattle.xt_shapes.specs.Vals as vals;
ghost use Rattle.xcdr_model.specs.FixedSpelling.{number_fixed, scalar_fixed, text_fixed};
ghost use Rattle.xcdr_model.specs.Numbers as numbers;
ghost use Rattle.type_trees.specs.Bridge.{type_shape};
ghost use Rattle.packed_reader.specs.View.{packed_val};
ghost use Rattle.xcdr_writer.specs.Parts as parts;
ghost use Rattle.xcdr_writer.specs.Parts.{presence_fixed};
ghost use Rattle.xt_wire.specs.numbers.Units.{IsUnit};
ghost use Rattle.packed_writer.specs.Appending.{Appends};

use crate::body::Body;
use packed_reader::Packed;
use type_trees::XType;
use xcdr_writer::most_of;
use xt_shapes::Rep;
use xt_wire::numbers::scalar_size;
use xt_wire::writer::raw;

// The number of a value that is one.
#[inline(always)]
#[tactic(auto, using(packed_reader::proofs::Views::packed_rules))]
fn number_in(value: &Packed<'_>) -> Option<i128>
    ensures { IfSome result (λ i. i ≡ vals.number_in (packed_val value.now)) }
{
    match value {
        Packed::Natural(number) => Some(i128::from(*number)),
        Packed::Whole(number) => Some(i128::from(*number)),
        Packed::Text(_) => None,
        Packed::Numbers(_) | Packed::Own(_) | Packed::List(_) => None,
        Packed::Struct(_) | Packed::Union(_) => None,
    }
}

/// A number, in `size` octets: 1, 2, 4 or 8.
#[inline(always)]
fn put_number(rep: Rep, size: u32, number: i128, out: &mut Body) -> Option<()>
    requires { IsUnit size }
    ensures { IfSome result (λ u. Appends (number_fixed (parts.most_of rep) Little size (numbers.raw size number)) out.old out.new) }
{
    out.number(most_of(rep), size, raw(size, number))
}

/// The number of a value that is one, in `size` octets: 1, 2, 4 or 8.
#[inline(always)]
pub(crate) fn write_scalar(rep: Rep, size: u32, value: &Packed<'_>, out: &mut Body) -> Option<()>
    requires { IsUnit size }
    ensures { let number = numbers.raw size (vals.number_in (packed_val value.now)) in
        IfSome result (λ u. Appends (number_fixed (parts.most_of rep) Little size number) out.old out.new) }
{
    put_number(rep, size, number_in(value)?, out)
}

/// A union's discriminator, where its type has numbers.
pub(crate) fn write_disc(rep: Rep, ty: &XType, disc: i128, out: &mut Body) -> Option<()>
    ensures { IfSome result (λ u. Appends (scalar_fixed (parts.most_of rep) Little (type_shape ty.now) disc) out.old out.new) }
{
    match scalar_size(ty) {
        0 => None,
        size => put_number(rep, size, disc, out),
    }
}

/// A count of 32 bits.
#[inline(always)]
pub(crate) fn put_count(count: u64, out: &mut Body) -> Option<()>
    ensures { IfSome result (λ u. Appends (number_fixed 4 Little 4 count) out.old out.new) }
{
    out.number(4, 4, u128::from(count))
}

/// The octet of XCDR2 that tells whether an optional member is present.
#[inline(always)]
pub(crate) fn put_presence(optional: bool, present: bool, out: &mut Body) -> Option<()>
    ensures { IfSome result (λ u. Appends (presence_fixed Little optional present) out.old out.new) }
{
    if optional {
        return out.number(4, 1, u128::from(present));
    }
    Some(())
}

// A string: the count of its octets with the NUL, the octets, and the NUL.
fn put_text(octets: &[u8], out: &mut Body) -> Option<()>
    ensures { IfSome result (λ u. Appends (text_fixed Little octets.now) out.old out.new) }
{
    out.number(4, 4, octets.len() as u128 + 1)?;
    out.put(octets)?;
    out.put(&[0])
}

#[tactic(auto, using(packed_reader::proofs::Views::packed_rules))]
pub(crate) fn write_text(value: &Packed<'_>, out: &mut Body) -> Option<()>
    ensures { IfSome result (λ u. Appends (text_fixed Little (vals.octets_in (packed_val value.now))) out.old out.new) }
{
    match value {
        Packed::Text(octets) => put_text(octets, out),
        Packed::Natural(_) | Packed::Whole(_) => None,
        Packed::Numbers(_) | Packed::Own(_) | Packed::List(_) => None,
        Packed::Struct(_) | Packed::Union(_) => None,
    }
}
