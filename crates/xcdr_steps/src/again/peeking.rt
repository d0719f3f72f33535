ghost use Rattle.xcdr_steps.specs.again.Peeking.{Peeks};

use xt_wire::cursor::{Cursor, CutFault};

/// A cursor that gives octets again which it read.
pub trait Peeking: Cursor {
    /// The next four octets, before which the cursor stays.
    fn peek(&mut self) -> Result<[u8; 4], CutFault>
        ensures { Peeks (Self.state self.old) (Self.state self.new) result };
}
