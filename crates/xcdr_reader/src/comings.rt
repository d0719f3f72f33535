// What comes of a member that stands in declared order (DDS-XTypes 1.3, 7.4.1.1 and 7.4.3).
ghost use Rattle.std.specs.Prelude.{IfOk};
ghost use Rattle.xt_wire.specs.cursor.Decoding.{Decodes};
ghost use Rattle.xcdr_reader.specs.Comings.{Fits, presence_read, own_read, optional_read, coming_read};

use crate::modes::Mode;
use xcdr_steps::one::read_own;
use xcdr_steps::reading::has_ended;
use xcdr_steps::scalars::read_presence;
use xt_wire::cursor::{Cursor, DecodeFault};

/// What comes of a member.
#[derive(Clone, Copy)]
pub(crate) enum Coming {
    /// Nothing.
    Absent,
    /// The value, without a header.
    Here,
    /// A content of so many octets, behind the member's own header.
    Content(u64),
}

// Reads the octet that says whether an optional member is there.
fn read_present<C: Cursor>(cursor: &mut C) -> Result<Coming, DecodeFault>
    ensures fits { IfOk result (Fits (C.state cursor.new)) }
    ensures value { Decodes (λ x. x) presence_read (C.state cursor.old) (C.state cursor.new) result }
{
    let there = read_presence(cursor)?;
    if there {
        return Ok(Coming::Here);
    }
    Ok(Coming::Absent)
}

// Reads the header of an optional member.
fn read_header<C: Cursor>(cursor: &mut C, id: u32) -> Result<Coming, DecodeFault>
    ensures fits { IfOk result (Fits (C.state cursor.new)) }
    ensures value { Decodes (λ x. x) (own_read id) (C.state cursor.old) (C.state cursor.new) result }
{
    let length = read_own(cursor, id)?;
    if length == 0 {
        return Ok(Coming::Absent);
    }
    Ok(Coming::Content(length))
}

fn read_optional<C: Cursor>(cursor: &mut C, mode: Mode, id: u32) -> Result<Coming, DecodeFault>
    ensures fits { IfOk result (Fits (C.state cursor.new)) }
    ensures value { Decodes (λ x. x) (optional_read mode id) (C.state cursor.old) (C.state cursor.new) result }
{
    match mode {
        Mode::Two => read_present(cursor),
        Mode::Inner => read_header(cursor, id),
        Mode::Tail => read_header(cursor, id),
    }
}

/// Reads what comes of the member with this id, which is optional or not, where the region may end before it or not.
pub(crate) fn read_coming<C: Cursor>(
    cursor: &mut C,
    mode: Mode,
    cut: bool,
    optional: bool,
    id: u32,
) -> Result<Coming, DecodeFault>
    ensures fits { IfOk result (Fits (C.state cursor.new)) }
    ensures value { Decodes (λ x. x) (coming_read mode cut optional id) (C.state cursor.old) (C.state cursor.new) result }
{
    if has_ended(cursor, cut) {
        return Ok(Coming::Absent);
    }
    if !optional {
        return Ok(Coming::Here);
    }
    read_optional(cursor, mode, id)
}
