// What comes next in a parameter list (DDS-XTypes 1.3, 7.4.1.2).
ghost use Rattle.std.specs.Prelude.{◌≡◌, ◌≤◌, IfOk};
ghost use Rattle.xcdr_steps.specs.reading.Headings.{next_view, IsHeld};
ghost use Rattle.xt_wire.specs.cursor.Standing.{room};
ghost use Rattle.xt_wire.specs.cursor.Decoding.{Decodes};
ghost use Rattle.xt_wire.specs.declared.cursor.faults.DecodeFault.TheVariants.{Malformed};
ghost use Rattle.xcdr_steps.specs.one.Marks.{marked_view};
ghost use Rattle.xcdr_steps.specs.one.Parameters.{with_content, parameter_of, parameter_at};

use crate::one::kinds::{is_end, is_ignored, is_no_id};
use crate::one::marks::{Marked, read_mark};
use crate::reading::{Header, Heading};
use xcdr_model::Why;
use xt_wire::cursor::{Cursor, DecodeFault};

fn malformed(at: u64, why: Why) -> Result<Heading, DecodeFault>
    ensures { result ≡ Err (Malformed at why) }
{
    Err(DecodeFault::Malformed { at, why })
}

// That, where the content has as many octets of the region as the header counts.
fn sized<C: Cursor>(cursor: &C, header: Marked, heading: Heading) -> Result<Heading, DecodeFault>
    requires { (C.state cursor.now).origin ≤ header.at }
    ensures same { IfOk result (λ x. x ≡ heading) }
    ensures room { IfOk result (λ _. header.mark.length ≤ room (C.state cursor.now)) }
    ensures value { Decodes (next_view (C.state cursor.now)) (λ o s. with_content (marked_view (C.state cursor.now) header) (next_view (C.state cursor.now) heading) s) (C.state cursor.now) (C.state cursor.now) result }
{
    if cursor.region_end() - cursor.place() < header.mark.length {
        return malformed(header.at, Why::MemberSize);
    }
    Ok(heading)
}

// What the header says.
fn heading_of<C: Cursor>(cursor: &C, header: Marked) -> Result<Heading, DecodeFault>
    requires { (C.state cursor.now).origin ≤ header.at }
    ensures held { IfOk result (IsHeld (C.state cursor.now)) }
    ensures value { Decodes (next_view (C.state cursor.now)) (parameter_of (marked_view (C.state cursor.now) header)) (C.state cursor.now) (C.state cursor.now) result }
{
    let Marked { at, mark } = header;
    if is_end(mark) {
        return Ok(Heading::End);
    }
    if is_ignored(mark) {
        return sized(cursor, header, Heading::Ignored(mark.length));
    }
    if is_no_id(mark) {
        return malformed(at, Why::MemberId);
    }
    let member = Header {
        at,
        id: mark.id,
        must: mark.must,
        length: mark.length,
    };
    sized(cursor, header, Heading::Member(member))
}

/// Reads what comes next in a parameter list: its end, a parameter to pass over, or a member's header. A fault of the id or the length is
/// at the header's first octet: MemberId where no member has the id, MemberSize where the content passes the region.
pub fn read_parameter<C: Cursor>(cursor: &mut C) -> Result<Heading, DecodeFault>
    ensures held { IfOk result (IsHeld (C.state cursor.new)) }
    ensures value { Decodes (next_view (C.state cursor.old)) parameter_at (C.state cursor.old) (C.state cursor.new) result }
{
    let header = read_mark(cursor)?;
    heading_of(cursor, header)
}
