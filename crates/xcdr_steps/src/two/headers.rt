// The headers of a mutable structure's members (DDS-XTypes 1.3, 7.4.3.4: EMHEADER, its length code and NEXTINT).
ghost use Rattle.std.specs.Prelude.{◌≡◌, ◌≤◌, ◌<◌, ◌^◌, IfOk, nat_le};
ghost use Rattle.xcdr_steps.specs.again.Peeking.{HoldsAtMost, unheld};
ghost use Rattle.xt_wire.specs.cursor.Decoding.{Decodes};
ghost use Rattle.xt_wire.specs.cursor.Standing.{Stayed, room, pad_of};
ghost use Rattle.xt_wire.specs.cursor.Placing.{placed_view};
ghost use Rattle.xcdr_steps.specs.reading.Headings.{header_view, next_view, content_length, IsHeld};
ghost use Rattle.xcdr_steps.specs.two.Headers.{length_at, checked_header, header_at, next_at, peeked_at, counted_content};

use crate::again::Peeking;
use crate::reading::{Header, Heading};
use xcdr_model::Why;
use xt_wire::cursor::{Cursor, DecodeFault, Placed, cut, read_number, read_placed};
use xt_wire::numbers::{number, padding};

// Ids are below this number, which the header's mark and length code stand above.
const ID_LIMIT: u64 = 0x1000_0000;

// Reads the next four octets as a number, before which the cursor stays: they are the content's first.
fn read_ahead<C: Peeking>(cursor: &mut C) -> Result<u64, DecodeFault>
    ensures below { IfOk result (λ n. n < 256 ^ 4) }
    ensures held { IfOk result (λ _. HoldsAtMost 4 (C.state cursor.old) (C.state cursor.new)) }
    ensures value { Decodes (λ n. n) peeked_at (C.state cursor.old) (unheld (C.state cursor.old) (C.state cursor.new)) result }
{
    match cursor.peek() {
        Ok(octets) => Ok(number(cursor.order(), &octets)),
        Err(fault) => Err(cut(fault)),
    }
}

// The octets of a content whose count is the content's first number, under the length codes 5 to 7.
fn counted_length(code: u64, count: u64) -> u64
    requires { count < 256 ^ 4 }
    ensures { result ≡ counted_content code count }
{
    if code == 5 {
        return 4 + count;
    }
    if code == 6 {
        return 4 + count * 4;
    }
    4 + count * 8
}

// Octets of a content under the length codes 0 to 3.
fn short_length(code: u64) -> u64
    requires { code < 4 }
    ensures { result ≡ 2 ^ code }
{
    match code {
        0 => 1,
        1 => 2,
        2 => 4,
        _ => 8,
    }
}

// Reads how many octets a member's content has, by the header's length code.
fn read_length<C: Peeking>(cursor: &mut C, code: u64) -> Result<u64, DecodeFault>
    ensures held { IfOk result (λ n. HoldsAtMost n (C.state cursor.old) (C.state cursor.new)) }
    ensures value { Decodes (λ n. n) (length_at code) (C.state cursor.old) (unheld (C.state cursor.old) (C.state cursor.new)) result }
{
    if code < 4 {
        return Ok(short_length(code));
    }
    if code == 4 {
        return read_number(cursor, 4, 4);
    }
    let count = read_ahead(cursor)?;
    Ok(counted_length(code, count))
}

// The header of this word, whose content has that many octets of the region.
fn checked<C: Cursor>(cursor: &C, word: Placed, length: u64) -> Result<Header, DecodeFault>
    requires { (C.state cursor.now).origin ≤ word.at }
    ensures room { IfOk result (λ h. h.length ≤ room (C.state cursor.now)) }
    ensures at { IfOk result (λ h. (C.state cursor.now).origin ≤ h.at) }
    ensures length { IfOk result (λ h. h.length ≡ length) }
    ensures value { Decodes (header_view (C.state cursor.now)) (checked_header (placed_view (C.state cursor.now) word) length) (C.state cursor.now) (C.state cursor.now) result }
{
    let id = word.number % ID_LIMIT;
    if id == ID_LIMIT - 1 {
        return Err(DecodeFault::Malformed {
            at: word.at,
            why: Why::MemberId,
        });
    }
    if cursor.region_end() - cursor.place() < length {
        return Err(DecodeFault::Malformed {
            at: word.at,
            why: Why::MemberSize,
        });
    }
    Ok(Header {
        at: word.at,
        id: id as u32,
        must: word.number / 0x8000_0000 == 1,
        length,
    })
}

// Reads a member's header.
fn read_header<C: Peeking>(cursor: &mut C) -> Result<Header, DecodeFault>
    ensures room { IfOk result (λ h. h.length ≤ room (C.state cursor.new)) }
    ensures at { IfOk result (λ h. (C.state cursor.new).origin ≤ h.at) }
    ensures held { IfOk result (λ h. HoldsAtMost h.length (C.state cursor.old) (C.state cursor.new)) }
    ensures value { Decodes (header_view (C.state cursor.old)) header_at (C.state cursor.old) (unheld (C.state cursor.old) (C.state cursor.new)) result }
{
    let word = read_placed(cursor, 4, 4)?;
    let length = read_length(cursor, word.number / ID_LIMIT % 8)?;
    checked(cursor, word, length)
}

// Whether the region ends before the next place whose distance from the origin is a multiple of 4.
fn has_padding_alone<C: Cursor>(cursor: &mut C) -> bool
    ensures stayed { Stayed (C.state cursor.old) (C.state cursor.new) }
    ensures ended { result ≡ nat_le (room (C.state cursor.old)) (pad_of 4 (C.state cursor.old)) }
{
    let origin = cursor.restart();
    cursor.resume(origin);
    let place = cursor.place();
    cursor.region_end() - place <= padding(4, place - origin)
}

/// Reads what comes next: a member's header, or the end where the region ends before one. MemberId comes where no member can have the id,
/// MemberSize where the content passes the region. Of the content some octets may be held, which are given again.
pub fn next_header<C: Peeking>(cursor: &mut C) -> Result<Heading, DecodeFault>
    ensures within { IfOk result (IsHeld (C.state cursor.new)) }
    ensures held { IfOk result (λ x. HoldsAtMost (content_length x) (C.state cursor.old) (C.state cursor.new)) }
    ensures value { Decodes (next_view (C.state cursor.old)) next_at (C.state cursor.old) (unheld (C.state cursor.old) (C.state cursor.new)) result }
{
    if has_padding_alone(cursor) {
        return Ok(Heading::End);
    }
    let header = read_header(cursor)?;
    Ok(Heading::Member(header))
}
