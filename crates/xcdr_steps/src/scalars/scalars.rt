// Primitives, enumerations and bitmasks as numbers (DDS-XTypes 1.3, 7.4).
ghost use Rattle.std.specs.Prelude.{◌≡◌, ◌^◌, ◌&&◌, nat_lt, nat_le};
ghost use Rattle.xt_wire.specs.numbers.Units.{IsUnit};
ghost use Rattle.xt_wire.specs.cursor.Decoding.{Decodes};
ghost use Rattle.xt_shapes.specs.Sizes as values;
ghost use Rattle.xcdr_model.specs.Xcdr2Reading.{present_at};
ghost use Rattle.xcdr_steps.specs.scalars.Scalars.{prim_at, enum_at, mask_at};

use xcdr_model::Why;
use xt_shapes::Prim;
use xt_wire::cursor::{Cursor, DecodeFault, read_placed};
use xt_wire::numbers::{enum_size, enum_value, is_boolean, mask_size, prim_size, prim_value};

fn is_no_boolean(prim: Prim, number: u64) -> bool
    ensures { result ≡ (values.is_boolean prim && nat_lt 1 number) }
{
    is_boolean(prim) && number > 1
}

#[tactic(auto, using(crate::proofs::OfScalars::MaskSteps::mask_rules))]
fn is_past_bits(bits: u8, number: u64) -> bool
    ensures { result ≡ nat_le (2 ^ bits) number }
{
    if bits >= 64 {
        return false;
    }
    number >> bits != 0
}

/// Reads a primitive, aligned to its size and at most to `most`. A boolean is 0 or 1 (Boolean).
#[inline(always)]
pub fn read_prim<C: Cursor>(cursor: &mut C, most: u32, prim: Prim) -> Result<i128, DecodeFault>
    requires { IsUnit most }
    ensures { Decodes (λ i. i) (prim_at most prim) (C.state cursor.old) (C.state cursor.new) result }
{
    let placed = read_placed(cursor, most, prim_size(prim))?;
    if is_no_boolean(prim, placed.number) {
        return Err(DecodeFault::Malformed {
            at: placed.at,
            why: Why::Boolean,
        });
    }
    Ok(prim_value(prim, placed.number))
}

/// Reads the number of an enumeration with that bit bound, literal or not.
#[inline(always)]
pub fn read_enum<C: Cursor>(cursor: &mut C, most: u32, bits: u8) -> Result<i128, DecodeFault>
    requires { IsUnit most }
    ensures { Decodes (λ i. i) (enum_at most bits) (C.state cursor.old) (C.state cursor.new) result }
{
    let size = enum_size(bits);
    let placed = read_placed(cursor, most, size)?;
    Ok(enum_value(size, placed.number))
}

/// Reads a bitmask with that bit bound, which has no bit at or above it (Mask).
pub fn read_mask<C: Cursor>(cursor: &mut C, most: u32, bits: u8) -> Result<i128, DecodeFault>
    requires { IsUnit most }
    ensures { Decodes (λ i. i) (mask_at most bits) (C.state cursor.old) (C.state cursor.new) result }
{
    let placed = read_placed(cursor, most, mask_size(bits))?;
    if is_past_bits(bits, placed.number) {
        return Err(DecodeFault::Malformed {
            at: placed.at,
            why: Why::Mask,
        });
    }
    Ok(i128::from(placed.number))
}

/// Reads the octet that says whether an optional member is there: 0 or 1 (Boolean).
pub fn read_presence<C: Cursor>(cursor: &mut C) -> Result<bool, DecodeFault>
    ensures { Decodes (λ b. b) present_at (C.state cursor.old) (C.state cursor.new) result }
{
    let placed = read_placed(cursor, 4, 1)?;
    if placed.number > 1 {
        return Err(DecodeFault::Malformed {
            at: placed.at,
            why: Why::Boolean,
        });
    }
    Ok(placed.number == 1)
}
