// What has no parts.
ghost use Rattle.std.specs.Prelude.{◌≡◌, ◌<◌, ◌^◌, ◌==◌, ◌&&◌, nat_lt, map, Ok, IfSome};
ghost use Rattle.xt_shapes.specs.declared.leaves.Rep.{Rep};
ghost use Rattle.xt_shapes.specs.Lists.{has};
ghost use Rattle.xt_shapes.specs.Shape as model;
ghost use Rattle.type_trees.specs.Bridge.{type_shape, literal_shape, flag_shape};
ghost use Rattle.xt_shapes.specs.Sizes as sizes;
ghost use Rattle.xt_shapes.specs.Vals.{int};
ghost use Rattle.try_construct.specs.Guides.{IsGuide, TellsLiterals};
ghost use Rattle.xcdr_model.specs.Xcdr2Reading.{present_at};
ghost use Rattle.packed_reader.specs.View.{packed_val};
ghost use Rattle.packed_reader.specs.Spots.{spot_of};
ghost use Rattle.packed_reader.specs.Reads.{Reads};
ghost use Rattle.packed_reader.specs.Unions.{ReadsNumber};

use crate::ahead::Ahead;
use crate::numbers::{next_aligned, next_octets, next_word};
use crate::values::Packed;
use try_construct::Guide;
use type_trees::{EnumType, MaskType, XType};
use type_values::{fits_bits, is_past};
use xt_shapes::{Order, Prim, Rep};
use xt_wire::numbers::{enum_size, enum_value, is_boolean, mask_size, prim_size, prim_value};

#[inline(always)]
fn number_packed<'a>(number: i128) -> Option<Packed<'a>>
    ensures { IfSome result (λ v. packed_val v ≡ int number) }
{
    match u64::try_from(number) {
        Ok(natural) => Some(Packed::Natural(natural)),
        Err(_) => match i64::try_from(number) {
            Ok(whole) => Some(Packed::Whole(whole)),
            Err(_) => None,
        },
    }
}

// Whether the number is none of the two values of a boolean.
#[inline(always)]
fn is_no_truth(prim: Prim, number: u64) -> bool
    ensures { result ≡ (sizes.is_boolean prim && nat_lt 1 number) }
{
    is_boolean(prim) && number > 1
}

// The number of a primitive.
#[inline(always)]
fn prim_number<'a>(
    rep: Rep,
    order: Order,
    prim: Prim,
    ahead: Ahead<'a>,
) -> Option<(i128, Ahead<'a>)>
    ensures { IfSome result (λ x. ReadsNumber rep order (model.prim prim) (spot_of ahead.entry) x.0 (spot_of x.1)) }
{
    let (number, behind) = next_aligned(rep, order, prim_size(prim), ahead)?;
    if is_no_truth(prim, number) {
        return None;
    }
    Some((prim_value(prim, number), behind))
}

#[inline(always)]
pub(crate) fn read_prim<'a>(
    rep: Rep,
    order: Order,
    prim: Prim,
    ahead: Ahead<'a>,
) -> Option<(Packed<'a>, Ahead<'a>)>
    ensures { IfSome result (λ x. Reads rep order (model.prim prim) (spot_of ahead.entry) (packed_val x.0) (spot_of x.1)) }
{
    let (number, behind) = prim_number(rep, order, prim, ahead)?;
    let value = number_packed(number)?;
    Some((value, behind))
}

// The number of an enumeration, where a literal has it.
#[inline(always)]
fn enum_number<'a>(
    rep: Rep,
    order: Order,
    kind: &EnumType,
    guide: &Guide,
    ahead: Ahead<'a>,
) -> Option<(i128, Ahead<'a>)>
    requires { TellsLiterals (map literal_shape kind.now.literals) guide.now }
    ensures { IfSome result (λ x. ReadsNumber rep order (model.enumeration kind.now.ext kind.now.bits (map literal_shape kind.now.literals)) (spot_of ahead.entry) x.0 (spot_of x.1)) }
{
    let size = enum_size(kind.bits);
    let (number, behind) = next_aligned(rep, order, size, ahead)?;
    let value = enum_value(size, number);
    if !guide.is_literal(kind.literals.as_slice(), value) {
        return None;
    }
    Some((value, behind))
}

#[inline(always)]
pub(crate) fn read_enum<'a>(
    rep: Rep,
    order: Order,
    kind: &EnumType,
    guide: &Guide,
    ahead: Ahead<'a>,
) -> Option<(Packed<'a>, Ahead<'a>)>
    requires { TellsLiterals (map literal_shape kind.now.literals) guide.now }
    ensures { IfSome result (λ x. Reads rep order (model.enumeration kind.now.ext kind.now.bits (map literal_shape kind.now.literals)) (spot_of ahead.entry) (packed_val x.0) (spot_of x.1)) }
{
    let (number, behind) = enum_number(rep, order, kind, guide, ahead)?;
    let value = number_packed(number)?;
    Some((value, behind))
}

/// The number of a union's discriminator: of a primitive, or of an enumeration that has such a literal.
#[tactic(auto, using(type_trees::proofs::Views::tree_rules))]
pub(crate) fn read_disc<'a>(
    rep: Rep,
    order: Order,
    ty: &XType,
    guide: &Guide,
    ahead: Ahead<'a>,
) -> Option<(i128, Ahead<'a>)>
    requires { IsGuide (type_shape ty.now) guide.now }
    ensures { IfSome result (λ x. ReadsNumber rep order (type_shape ty.now) (spot_of ahead.entry) x.0 (spot_of x.1)) }
{
    match ty {
        XType::Prim(prim) => prim_number(rep, order, *prim, ahead),
        XType::Enum(kind) => enum_number(rep, order, kind, guide, ahead),
        XType::Alias(kind) => read_disc(rep, order, &kind.ty, guide, ahead),
        XType::Str(_) | XType::Mask(_) | XType::Seq(_) | XType::Array(_) => None,
        XType::Map(_) | XType::Struct(_) | XType::Union(_) => None,
    }
}

#[inline(always)]
pub(crate) fn read_mask<'a>(
    rep: Rep,
    order: Order,
    kind: &MaskType,
    ahead: Ahead<'a>,
) -> Option<(Packed<'a>, Ahead<'a>)>
    ensures { IfSome result (λ x. Reads rep order (model.bitmask kind.now.bits (map flag_shape kind.now.flags)) (spot_of ahead.entry) (packed_val x.0) (spot_of x.1)) }
{
    let (number, behind) = next_aligned(rep, order, mask_size(kind.bits), ahead)?;
    if !fits_bits(kind.bits, i128::from(number)) {
        return None;
    }
    Some((Packed::Natural(number), behind))
}

/// The octet that tells in XCDR2 whether an optional member is there (7.4.3.5).
#[inline(always)]
pub(crate) fn read_presence<'a>(order: Order, ahead: Ahead<'a>) -> Option<(bool, Ahead<'a>)>
    ensures { IfSome result (λ x. present_at order (spot_of ahead.entry) ≡ Ok (x.0, spot_of x.1)) }
{
    let (number, behind) = next_aligned(Rep::Xcdr2, order, 1, ahead)?;
    if number > 1 {
        return None;
    }
    Some((number == 1, behind))
}

fn has_nul(octets: &[u8]) -> bool
    ensures { result ≡ has (λ b. b == 0) octets.now }
{
    for octet in octets {
        if *octet == 0 {
            return true;
        }
    }
    false
}

#[inline(always)]
pub(crate) fn read_text<'a>(
    order: Order,
    bound: u32,
    ahead: Ahead<'a>,
) -> Option<(Packed<'a>, Ahead<'a>)>
    ensures { IfSome result (λ x. (r : Rep) → Reads r order (model.str bound) (spot_of ahead.entry) (packed_val x.0) (spot_of x.1)) }
{
    let (count, inside) = next_word(order, ahead)?;
    if count == 0 {
        return None;
    }
    let (octets, behind) = next_octets(count, inside)?;
    let (text, end) = octets.split_at((count - 1) as usize);
    if is_past(bound, text.len()) {
        return None;
    }
    if has_nul(text) {
        return None;
    }
    if !has_nul(end) {
        return None;
    }
    Some((Packed::Text(text), behind))
}
