// Texts: octets that end in NUL behind their count (DDS-XTypes 1.3, 7.4).
ghost use Rattle.std.specs.Prelude.{◌≡◌, ◌≤◌, ◌<◌, ◌==◌, ◌||◌, ◌+◌, not, length, take};
ghost use Rattle.xt_shapes.specs.Lists.{has};
ghost use Rattle.xcdr_model.specs.Xcdr2Reading.{text_at};
ghost use Rattle.xt_wire.specs.cursor.Decoding.{Decodes};
ghost use Rattle.xt_wire.specs.cursor.Placing.{placed_view};
ghost use Rattle.xcdr_steps.specs.scalars.Texts.{counted_text};

use std::alloc::Global;
use xcdr_model::Why;
use xt_wire::cursor::{Cursor, DecodeFault, Placed, read_octets, read_placed};

fn has_nul(octets: &[u8]) -> bool
    ensures { result ≡ has (λ b. b == 0) octets.now }
{
    for octet in octets {
        if *octet == 0 {
            return true;
        }
    }
    false
}

// Whether these octets are a text of `count` octets and a NUL.
fn is_text(octets: &[u8], count: usize) -> bool
    requires { length octets.now ≡ count + 1 }
    ensures { result ≡ not (has (λ b. b == 0) (take count octets.now) || not (has (λ b. b == 0) octets.now)) }
{
    !has_nul(&octets[..count]) && has_nul(octets)
}

// Reads the octets of a text, whose count was read, and the NUL behind them.
fn read_counted<C: Cursor>(
    alloc: Global,
    cursor: &mut C,
    count: Placed,
) -> Result<Vec<u8>, DecodeFault>
    requires some { 0 < count.number }
    requires at { (C.state cursor.old).origin ≤ count.at }
    ensures { Decodes (λ v. v.items) (counted_text (placed_view (C.state cursor.old) count)) (C.state cursor.old) (C.state cursor.new) result }
{
    let at = cursor.place();
    if cursor.region_end() - at < count.number {
        return Err(DecodeFault::Malformed {
            at,
            why: Why::Short,
        });
    }
    let mut octets = vec![in alloc; 0u8; count.number as usize]?;
    read_octets(cursor, &mut octets)?;
    let length = count.number as usize - 1;
    if !is_text(&octets, length) {
        return Err(DecodeFault::Malformed {
            at: count.at,
            why: Why::Str,
        });
    }
    octets.truncate(length);
    Ok(octets)
}

/// Reads a text: a count of octets with the NUL, these octets, and NUL. Str comes at the count where that is 0, where the last
/// octet isn't NUL, and where one before is.
pub fn read_text<C: Cursor>(alloc: Global, cursor: &mut C) -> Result<Vec<u8>, DecodeFault>
    ensures { Decodes (λ v. v.items) text_at (C.state cursor.old) (C.state cursor.new) result }
{
    let count = read_placed(cursor, 4, 4)?;
    if count.number == 0 {
        return Err(DecodeFault::Malformed {
            at: count.at,
            why: Why::Str,
        });
    }
    read_counted(alloc, cursor, count)
}
