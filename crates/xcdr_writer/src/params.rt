//! The headers of parameters in XCDR1 (DDS-XTypes 1.3, 7.4.1.2).
ghost use Rattle.std.specs.Prelude.{◌≡◌, ◌+◌, ◌*◌, ◌^◌, ◌≤◌};
ghost use Rattle.xcdr_model.specs.FixedSpelling.{end_fixed, header_fixed};
ghost use Rattle.xcdr_model.specs.Numbers.{octets};
ghost use Rattle.xcdr_model.specs.Xcdr2Spelling.{bit};
ghost use Rattle.xt_wire.specs.numbers.Units.{IsUnit};
ghost use Rattle.xt_wire.specs.writer.Writing.{Puts};
ghost use Rattle.xcdr_writer.specs.Parts.{short_header, long_header, header_behind};

use crate::forms::is_short;
use xt_outside::{Failed, Sink};
use xt_wire::writer::Writer;

/// An id below the must_understand mark.
pub fn marked(must: bool, mark: u64, id: u32) -> u64
    requires { mark ≤ 2 ^ 30 }
    ensures { result ≡ bit must * mark + id }
{
    if must {
        mark + u64::from(id)
    } else {
        u64::from(id)
    }
}

fn put_number<K: Sink>(size: u32, number: u64, out: &mut Writer<K>) -> Result<(), Failed>
    requires { IsUnit size }
    ensures { Puts (λ p. octets out.old.order size number) out.old out.new result }
{
    out.digits(size, u128::from(number))
}

/// The short form: bit 14 of the first number is set where the member must be understood, and bits 13 to 0 are its id. The second is the
/// content's length.
fn put_short<K: Sink>(must: bool, id: u32, length: u64, out: &mut Writer<K>) -> Result<(), Failed>
    ensures { Puts (λ p. short_header out.old.order must id length) out.old out.new result }
{
    let member = marked(must, 0x4000, id);
    put_number(2, member, out)?;
    put_number(2, length, out)
}

/// The extended form: its id 0x3F01, marked, and its length 8, then a number of 32 bits, of which bit 30 is set where the member must be
/// understood and the rest is its id, and the content's length.
fn put_long<K: Sink>(must: bool, id: u32, length: u64, out: &mut Writer<K>) -> Result<(), Failed>
    ensures { Puts (λ p. long_header out.old.order must id length) out.old out.new result }
{
    let member = marked(must, 0x4000_0000, id);
    put_number(2, 0x7F01, out)?;
    put_number(2, 8, out)?;
    put_number(4, member, out)?;
    put_number(4, length, out)
}

fn put_form<K: Sink>(must: bool, id: u32, length: u64, out: &mut Writer<K>) -> Result<(), Failed>
    ensures { Puts (λ p. header_fixed out.old.order must id length) out.old out.new result }
{
    if is_short(id, length) {
        put_short(must, id, length, out)
    } else {
        put_long(must, id, length, out)
    }
}

/// A parameter's header, behind its padding: the short form where it holds the id and the length, else the extended one.
pub(crate) fn put_header<K: Sink>(
    must: bool,
    id: u32,
    length: u64,
    out: &mut Writer<K>,
) -> Result<(), Failed>
    ensures { Puts (header_behind out.old.order must id length) out.old out.new result }
{
    out.align(4)?;
    put_form(must, id, length, out)
}

/// The end of a list of parameters, behind its padding: the id 0x3F02, marked, and the length 0.
pub(crate) fn put_end<K: Sink>(out: &mut Writer<K>) -> Result<(), Failed>
    ensures { Puts (end_fixed out.old.order) out.old out.new result }
{
    out.align(4)?;
    put_number(2, 0x7F02, out)?;
    put_number(2, 0, out)
}
