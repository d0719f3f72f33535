// Samples that were begun.
ghost use Rattle.std.specs.Prelude.{IfOk, IfErr};
ghost use Rattle.xcdr_samples.specs.frames.Frames.{Begun, Unbegun, MayEnd, Ends};

use crate::frames::heads::read_head;
use xcdr_model::Why;
use xt_shapes::{Ext, Order, Rep};
use xt_wire::cursor::{Cursor, DecodeFault, Outer, enter_part};

/// A sample whose body is the cursor's region, and what ending it brings back.
#[derive(Clone, Copy, Debug)]
pub struct OpenSample {
    pub outer: Outer,
    pub padding: u8,
    pub origin: u64,
    pub order: Order,
}

/// Begins the sample that the cursor's region is, for a reader of this extensibility: reads the encapsulation and makes the body
/// without the counted padding the region, which begins at its own origin and has the order that the identifier tells.
pub fn open_sample<C: Cursor>(cursor: &mut C, rep: Rep, ext: Ext) -> Result<OpenSample, DecodeFault>
    ensures begun { IfOk result (Begun rep ext (C.state cursor.old) (C.state cursor.new)) }
    ensures fault { IfErr result (Unbegun rep ext (C.state cursor.old) (C.state cursor.new)) }
{
    let head = read_head(cursor, rep, ext)?;
    let order = cursor.order();
    cursor.set_order(head.order);
    let origin = cursor.restart();
    let left = cursor.region_end() - cursor.place() - u64::from(head.padding);
    let outer = enter_part(cursor, left)?;
    Ok(OpenSample {
        outer,
        padding: head.padding,
        origin,
        order,
    })
}

/// Ends a sample whose value was read: passes the padding, and brings region, origin and order back. It is malformed where octets of
/// the body are left.
pub fn close_sample<C: Cursor>(cursor: &mut C, sample: OpenSample) -> Result<(), DecodeFault>
    requires { MayEnd sample (C.state cursor.old) }
    ensures { Ends sample (C.state cursor.old) (C.state cursor.new) result }
{
    let at = cursor.place();
    if at < cursor.region_end() {
        return Err(DecodeFault::Malformed {
            at,
            why: Why::Trailing,
        });
    }
    cursor.leave(sample.outer);
    if cursor.pass(u64::from(sample.padding)).is_err() {
        return Err(DecodeFault::ReadFault);
    }
    cursor.resume(sample.origin);
    cursor.set_order(sample.order);
    Ok(())
}
