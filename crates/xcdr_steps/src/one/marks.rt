// The headers of parameters (DDS-XTypes 1.3, 7.4.1.2: the parameter list, its ids and flags).
ghost use Rattle.std.specs.Prelude.{◌≡◌, ◌≤◌, IfOk, take, drop};
ghost use Rattle.xcdr_model.specs.Xcdr1Reading as spec;
ghost use Rattle.xt_wire.specs.cursor.Decoding.{Decodes};
ghost use Rattle.xcdr_steps.specs.one.Marks.{mark_view, marked_view, opening_view, told_long, opening_at, long_at, behind_opening, marked_at};
ghost use Rattle.xt_wire.specs.declared.cursor.faults.DecodeFault.TheVariants.{Malformed};

use xcdr_model::Why;
use xt_shapes::Order;
use xt_wire::cursor::{Cursor, DecodeFault, read_align, read_octets};
use xt_wire::numbers::number;

/// What a header says: whether it has the extended form, the id, the must_understand mark, and how many octets the content has.
#[derive(Clone, Copy, Debug)]
pub struct Mark {
    pub extended: bool,
    pub id: u32,
    pub must: bool,
    pub length: u64,
}

/// A header, and the place of its first octet behind the padding.
#[derive(Clone, Copy, Debug)]
pub struct Marked {
    pub at: u64,
    pub mark: Mark,
}

// The first four octets of a header, and the place of the first.
#[derive(Clone, Copy)]
struct Opening {
    at: u64,
    octets: [u8; 4],
}

fn read_opening<C: Cursor>(cursor: &mut C) -> Result<Opening, DecodeFault>
    ensures at { IfOk result (λ x. (C.state cursor.old).origin ≤ x.at) }
    ensures value { Decodes (opening_view (C.state cursor.old)) opening_at (C.state cursor.old) (C.state cursor.new) result }
{
    read_align(cursor, 4, 4)?;
    let at = cursor.place();
    let mut octets = [0u8; 4];
    read_octets(cursor, &mut octets)?;
    Ok(Opening { at, octets })
}

// What the short form says.
fn short_mark(order: Order, octets: &[u8; 4]) -> Mark
    ensures { mark_view result ≡ spec.short_mark order octets.now }
{
    let word = number(order, &octets[..2]);
    Mark {
        extended: false,
        id: (word % 0x4000) as u32,
        must: word / 0x4000 % 2 == 1,
        length: number(order, &octets[2..4]),
    }
}

// What the extended form says, by its last eight octets.
fn long_mark(order: Order, octets: &[u8; 8]) -> Mark
    ensures { mark_view result ≡ told_long order octets.now }
{
    let word = number(order, &octets[..4]);
    Mark {
        extended: true,
        id: (word % 0x1000_0000) as u32,
        must: word / 0x4000_0000 % 2 == 1,
        length: number(order, &octets[4..8]),
    }
}

fn malformed(at: u64, why: Why) -> DecodeFault
    ensures { result ≡ Malformed at why }
{
    DecodeFault::Malformed { at, why }
}

// Reads the rest of the extended form. Where fewer than eight octets are left, the header is Short at its first.
fn read_long<C: Cursor>(cursor: &mut C, opening: Opening) -> Result<Mark, DecodeFault>
    requires { (C.state cursor.old).origin ≤ opening.at }
    ensures { Decodes mark_view (long_at (opening_view (C.state cursor.old) opening)) (C.state cursor.old) (C.state cursor.new) result }
{
    if cursor.region_end() - cursor.place() < 8 {
        return Err(malformed(opening.at, Why::Short));
    }
    let mut octets = [0u8; 8];
    read_octets(cursor, &mut octets)?;
    let order = cursor.order();
    if number(order, &opening.octets[2..4]) != 8 {
        return Err(malformed(opening.at, Why::Parameter));
    }
    Ok(long_mark(order, &octets))
}

fn read_form<C: Cursor>(cursor: &mut C, opening: Opening) -> Result<Mark, DecodeFault>
    requires { (C.state cursor.old).origin ≤ opening.at }
    ensures { Decodes mark_view (behind_opening (opening_view (C.state cursor.old) opening)) (C.state cursor.old) (C.state cursor.new) result }
{
    let order = cursor.order();
    if number(order, &opening.octets[..2]) % 0x4000 == 0x3F01 {
        return read_long(cursor, opening);
    }
    Ok(short_mark(order, &opening.octets))
}

/// Reads a parameter's header behind its padding. It is Short at its first octet where fewer octets than its form has are there, and
/// Parameter there where the extended form has another length than 8.
pub fn read_mark<C: Cursor>(cursor: &mut C) -> Result<Marked, DecodeFault>
    ensures at { IfOk result (λ x. (C.state cursor.old).origin ≤ x.at) }
    ensures value { Decodes (marked_view (C.state cursor.old)) marked_at (C.state cursor.old) (C.state cursor.new) result }
{
    let opening = read_opening(cursor)?;
    let at = opening.at;
    let mark = read_form(cursor, opening)?;
    Ok(Marked { at, mark })
}
