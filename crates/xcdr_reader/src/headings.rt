// What comes next among the members of a mutable structure, and what is left of a region (DDS-XTypes 1.3, 7.4.1.2 and 7.4.3.4).
ghost use Rattle.std.specs.Prelude.{IfOk};
ghost use Rattle.xt_wire.specs.cursor.Decoding.{Decodes};
ghost use Rattle.xcdr_steps.specs.again.Peeking.{HoldsAtMost, unheld};
ghost use Rattle.xcdr_steps.specs.reading.Headings.{next_view, content_length, IsHeld};
ghost use Rattle.xcdr_model.specs.Xcdr1Reading.{at_end_of};
ghost use Rattle.xcdr_reader.specs.Modes.{next_in, to_end};

use crate::modes::Mode;
use xcdr_steps::again::Peeking;
use xcdr_steps::one::read_parameter;
use xcdr_steps::reading::Heading;
use xcdr_steps::two::next_header;
use xt_wire::cursor::{Cursor, DecodeFault, read_pass};

/// Reads the next member's header, or what else stands there. Of the content behind it some octets may be held, which are given again.
pub(crate) fn next_heading<C: Peeking>(cursor: &mut C, mode: Mode) -> Result<Heading, DecodeFault>
    ensures within { IfOk result (IsHeld (C.state cursor.new)) }
    ensures held { IfOk result (λ x. HoldsAtMost (content_length x) (C.state cursor.old) (C.state cursor.new)) }
    ensures value { Decodes (next_view (C.state cursor.old)) (next_in mode) (C.state cursor.old) (unheld (C.state cursor.old) (C.state cursor.new)) result }
{
    match mode {
        Mode::Two => next_header(cursor),
        Mode::Inner => read_parameter(cursor),
        Mode::Tail => read_parameter(cursor),
    }
}

fn pass_left<C: Cursor>(cursor: &mut C) -> Result<(), DecodeFault>
    ensures { Decodes (λ u. u) (λ o s. at_end_of tt s) (C.state cursor.old) (C.state cursor.new) result }
{
    let left = cursor.region_end() - cursor.place();
    read_pass(cursor, left)
}

/// Passes over what is left of the region, where no count of its octets does.
pub(crate) fn pass_rest<C: Cursor>(cursor: &mut C, mode: Mode) -> Result<(), DecodeFault>
    ensures { Decodes (λ u. u) (λ o s. to_end mode tt s) (C.state cursor.old) (C.state cursor.new) result }
{
    match mode {
        Mode::Two => Ok(()),
        Mode::Inner => pass_left(cursor),
        Mode::Tail => pass_left(cursor),
    }
}
