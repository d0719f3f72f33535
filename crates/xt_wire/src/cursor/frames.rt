// The regions that bound the octets of a part.
ghost use Rattle.std.specs.Prelude.{◌≡◌, IfOk, IfErr};
ghost use Rattle.xt_wire.specs.cursor.Frames.{Framed, Opened, OpenFails, Undelimited, MayClose, MayLeave, Closes, ClosesFilled};

use crate::cursor::cursor::{Cursor, Outer};
use crate::cursor::faults::DecodeFault;
use crate::cursor::reading::{enter_part, leave_part, read_dheader};
use xcdr_model::Why;

/// How the octets of a part are bounded.
#[derive(Clone, Copy, Debug, PartialEq, Eq)]
pub enum Framing {
    /// By the region around it alone.
    Open,
    /// By a region of its own; what is left of it is passed over.
    Passed,
    /// By a region of its own, which must be used up.
    Filled,
}

/// A region that was entered for a part.
#[derive(Clone, Copy, Debug)]
pub struct Frame {
    pub framing: Framing,
    pub outer: Outer,
}

/// Begins a part: reads the count of its octets and makes these the region, where it has a region of its own.
pub fn open_frame<C: Cursor>(cursor: &mut C, framing: Framing) -> Result<Frame, DecodeFault>
    ensures opened { IfOk result (λ x. Opened x.framing (C.state cursor.old) (C.state cursor.new) x.outer) }
    ensures framing { IfOk result (λ x. x.framing ≡ framing) }
    ensures fault { IfErr result (OpenFails framing (C.state cursor.old) (C.state cursor.new)) }
{
    match framing {
        Framing::Open => Ok(Frame {
            framing,
            outer: Outer {
                end: cursor.region_end(),
            },
        }),
        Framing::Passed => open_region(cursor, framing),
        Framing::Filled => open_region(cursor, framing),
    }
}

fn open_region<C: Cursor>(cursor: &mut C, framing: Framing) -> Result<Frame, DecodeFault>
    ensures framed { IfOk result (λ x. Framed (C.state cursor.old) (C.state cursor.new) x.outer) }
    ensures framing { IfOk result (λ x. x.framing ≡ framing) }
    ensures fault { IfErr result (Undelimited (C.state cursor.old) (C.state cursor.new)) }
{
    let count = read_dheader(cursor)?;
    let outer = enter_part(cursor, count)?;
    Ok(Frame { framing, outer })
}

/// Ends a part whose region was entered: what is left of it is passed over, or must be nothing.
pub fn close_frame<C: Cursor>(cursor: &mut C, frame: Frame) -> Result<(), DecodeFault>
    requires { MayClose frame.framing frame.outer (C.state cursor.old) }
    ensures { Closes frame.framing frame.outer (C.state cursor.old) (C.state cursor.new) result }
{
    match frame.framing {
        Framing::Open => Ok(()),
        Framing::Passed => leave_part(cursor, frame.outer),
        Framing::Filled => leave_filled(cursor, frame.outer),
    }
}

fn leave_filled<C: Cursor>(cursor: &mut C, outer: Outer) -> Result<(), DecodeFault>
    requires { MayLeave outer (C.state cursor.old) }
    ensures { ClosesFilled outer (C.state cursor.old) (C.state cursor.new) result }
{
    let at = cursor.place();
    if at < cursor.region_end() {
        return Err(DecodeFault::Malformed {
            at,
            why: Why::LengthRest,
        });
    }
    leave_part(cursor, outer)
}
