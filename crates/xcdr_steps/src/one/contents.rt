// Contents, which are read from an origin of their own (DDS-XTypes 1.3, 7.4.1.2).
ghost use Rattle.std.specs.Prelude.{◌≤◌, IfOk, IfErr};
ghost use Rattle.xt_wire.specs.cursor.Standing.{room};
ghost use Rattle.xt_wire.specs.cursor.Decoding.{Fails};
ghost use Rattle.xcdr_steps.specs.one.Contents.{Opened, MayClose, Closes};

use xcdr_model::Why;
use xt_wire::cursor::{Cursor, DecodeFault, Outer, enter_part, leave_part};

/// A content that was begun, and what ending it brings back.
#[derive(Clone, Copy, Debug)]
pub struct Content {
    pub outer: Outer,
    pub origin: u64,
}

/// Makes the next octets the region, and the present place the origin of alignment.
pub fn open_content<C: Cursor>(cursor: &mut C, length: u64) -> Result<Content, DecodeFault>
    requires { length ≤ room (C.state cursor.old) }
    ensures opened { IfOk result (Opened length (C.state cursor.old) (C.state cursor.new)) }
    ensures fault { IfErr result (Fails (C.state cursor.old) (C.state cursor.new)) }
{
    let origin = cursor.restart();
    let outer = enter_part(cursor, length)?;
    Ok(Content { outer, origin })
}

/// Ends a content, of which at most `spare` octets may be left (LengthRest): they are passed over, and region and origin are as before.
pub fn close_content<C: Cursor>(
    cursor: &mut C,
    content: Content,
    spare: u64,
) -> Result<(), DecodeFault>
    requires { MayClose content (C.state cursor.old) }
    ensures { Closes spare content (C.state cursor.old) (C.state cursor.new) result }
{
    let at = cursor.place();
    if cursor.region_end() - at > spare {
        return Err(DecodeFault::Malformed {
            at,
            why: Why::LengthRest,
        });
    }
    leave_part(cursor, content.outer)?;
    cursor.resume(content.origin);
    Ok(())
}
