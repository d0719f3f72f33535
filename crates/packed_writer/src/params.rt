//! Headers of parameters in XCDR1 (DDS-XTypes 1.3, 7.4.1.2). Their length is set when the content stands behind them.
ghost use Rattle.std.specs.Prelude.{◌≡◌, IfSome};
ghost use Rattle.xt_shapes.specs.declared.leaves.Order.TheVariants.{Little};
ghost use Rattle.xcdr_model.specs.FixedSpelling.{end_fixed};
ghost use Rattle.packed_writer.specs.Appending.{Appends};
ghost use Rattle.packed_writer.specs.Params.{short_begun, long_begun};

use crate::body::Body;
use xcdr_writer::marked;

/// The short form, behind its padding: the member's id, and two octets for the content's length.
pub(crate) fn put_short(must: bool, id: u32, out: &mut Body) -> Option<()>
    ensures { IfSome result (λ u. Appends (short_begun must id) out.old out.new) }
{
    out.align(4)?;
    out.digits(2, marked(must, 0x4000, id) as u128)?;
    out.digits(2, 0)
}

/// The extended form, behind its padding: its id 0x3F01, marked, and its length 8, the member's id, and four octets for the content's length.
pub(crate) fn put_long(must: bool, id: u32, out: &mut Body) -> Option<()>
    ensures { IfSome result (λ u. Appends (long_begun must id) out.old out.new) }
{
    out.align(4)?;
    out.digits(2, 0x7F01)?;
    out.digits(2, 8)?;
    out.digits(4, marked(must, 0x4000_0000, id) as u128)?;
    out.digits(4, 0)
}

/// The end of a list of parameters, behind its padding: the id 0x3F02, marked, and the length 0.
pub(crate) fn put_end(out: &mut Body) -> Option<()>
    ensures { IfSome result (λ u. Appends (end_fixed Little) out.old out.new) }
{
    out.align(4)?;
    out.digits(2, 0x7F02)?;
    out.digits(2, 0)
}
