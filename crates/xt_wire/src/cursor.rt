//! Octets in regions: a cursor that goes over them, and what decoders read with it.

mod cursor;
mod faults;
mod frames;
mod reading;
mod slice;

pub use cursor::{Cursor, CutFault, Outer};
pub use faults::{DecodeFault, cut};
pub use frames::{Frame, Framing, close_frame, open_frame};
pub use reading::{
    Placed, enter_part, leave_part, read_align, read_dheader, read_number, read_octets, read_pass,
    read_placed,
};
pub use slice::SliceCursor;
