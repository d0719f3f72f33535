// The headers of optional members (DDS-XTypes 1.3, 7.4.1).
ghost use Rattle.std.specs.Prelude.{◌≡◌, ◌≤◌, IfOk};
ghost use Rattle.xt_wire.specs.cursor.Standing.{room};
ghost use Rattle.xt_wire.specs.cursor.Decoding.{Decodes};
ghost use Rattle.xt_wire.specs.declared.cursor.faults.DecodeFault.TheVariants.{Malformed};
ghost use Rattle.xcdr_steps.specs.one.Marks.{mark_view, marked_view};
ghost use Rattle.xcdr_steps.specs.one.Own.{named, own_checked, own_length};

use crate::one::kinds::{is_end, is_ignored, is_no_id};
use crate::one::marks::{Mark, Marked, read_mark};
use xcdr_model::Why;
use xt_wire::cursor::{Cursor, DecodeFault};

// Whether the header is that of the member with this id: the list's end and an ignored parameter never are.
fn is_named(mark: Mark, id: u32) -> bool
    ensures { result ≡ named (mark_view mark) id }
{
    mark.id == id && !(is_end(mark) || is_ignored(mark))
}

fn malformed(at: u64, why: Why) -> Result<u64, DecodeFault>
    ensures { result ≡ Err (Malformed at why) }
{
    Err(DecodeFault::Malformed { at, why })
}

// The length of this header's content, which has that many octets of the region.
fn checked_own<C: Cursor>(cursor: &C, header: Marked, id: u32) -> Result<u64, DecodeFault>
    requires { (C.state cursor.now).origin ≤ header.at }
    ensures room { IfOk result (λ n. n ≤ room (C.state cursor.now)) }
    ensures value { Decodes (λ n. n) (own_checked id (marked_view (C.state cursor.now) header)) (C.state cursor.now) (C.state cursor.now) result }
{
    if !is_named(header.mark, id) {
        return malformed(header.at, Why::Parameter);
    }
    if is_no_id(header.mark) {
        return malformed(header.at, Why::MemberId);
    }
    if cursor.region_end() - cursor.place() < header.mark.length {
        return malformed(header.at, Why::MemberSize);
    }
    Ok(header.mark.length)
}

/// Reads the header of the optional member with this id, and tells how many octets its content has: 0 where the member is absent. A fault is
/// at the header's first octet: Parameter where it is another's, MemberId where no member has the id, MemberSize where the content passes the
/// region.
pub fn read_own<C: Cursor>(cursor: &mut C, id: u32) -> Result<u64, DecodeFault>
    ensures room { IfOk result (λ n. n ≤ room (C.state cursor.new)) }
    ensures value { Decodes (λ n. n) (own_length id) (C.state cursor.old) (C.state cursor.new) result }
{
    let header = read_mark(cursor)?;
    checked_own(cursor, header, id)
}
