ghost use Rattle.std.specs.Prelude.{◌≡◌, ◌≤◌, ◌<◌, ◌-◌, ℕ, length, min};
ghost use Rattle.xt_wire.specs.cursor.Standing.{Standing, Stands, GoesOn, Gives, IsKept, IsEntered, HasEnd, HasOrigin, HasOrder, pad_of};
ghost use Rattle.xt_wire.specs.numbers.Units.{IsUnit};

use thiserror::Error;
use xt_shapes::Order;

/// Why a cursor did not go on.
#[derive(Clone, Copy, Debug, PartialEq, Eq, Error)]
pub enum CutFault {
    /// The region has too few octets.
    #[error("too few octets are left at octet {at}")]
    Short { at: u64 },
    /// The device failed.
    #[error("reading failed")]
    Fault,
}

/// The end of the region around the one that was entered.
#[derive(Clone, Copy, Debug, PartialEq, Eq)]
pub struct Outer {
    pub end: u64,
}

/// A place in octets, in a region of them.
pub trait Cursor {
    /// Where it stands, in which region, and the octets ahead where they are told.
    ghost state: { Self → Standing };

    /// The place, counted from the first octet of all.
    fn place(&self) -> u64
        ensures { result ≡ (state self.now).place };

    /// The place where the region ends.
    fn region_end(&self) -> u64
        ensures { result ≡ (state self.now).region_end };

    /// The order of a number's octets.
    fn order(&self) -> Order
        ensures { result ≡ (state self.now).order };

    fn set_order(&mut self, order: Order)
        ensures { HasOrder order (state self.old) (state self.new) };

    /// Goes on to the first place whose distance from the origin is a multiple of the lesser number.
    fn align(&mut self, to: u32, most: u32) -> Result<(), CutFault>
        requires to { IsUnit to }
        requires most { IsUnit most }
        ensures { GoesOn (pad_of (min to most) (state self.old)) (state self.old).region_end (state self.old) (state self.new) result };

    /// Reads as many octets as the slice has. Where the region has fewer, the slice is unchanged.
    fn take(&mut self, into: &mut [u8]) -> Result<(), CutFault>
        ensures moves { GoesOn (length into.new) (state self.old).place (state self.old) (state self.new) result }
        ensures octets { Gives (state self.old) into.new result }
        ensures short { IsKept into.old into.new result };

    /// Goes this many octets on.
    fn pass(&mut self, count: u64) -> Result<(), CutFault>
        ensures { GoesOn count (state self.old).place (state self.old) (state self.new) result };

    /// Makes the next octets the region, and answers the old end.
    fn enter(&mut self, length: u64) -> Result<Outer, CutFault>
        ensures { IsEntered length (state self.old) (state self.new) result };

    /// Brings an old end back.
    fn leave(&mut self, outer: Outer)
        requires ahead { (state self.old).place ≤ outer.end }
        requires within { outer.end ≤ (state self.old).whole }
        ensures { HasEnd outer.end (state self.old) (state self.new) };

    /// Makes the present place the origin of alignment, and answers the old one.
    fn restart(&mut self) -> u64
        ensures origin { result ≡ (state self.old).origin }
        ensures value { HasOrigin (state self.old).place (state self.old) (state self.new) };

    /// Takes an origin back.
    fn resume(&mut self, origin: u64)
        requires { origin ≤ (state self.old).place }
        ensures { HasOrigin origin (state self.old) (state self.new) };

    /// The place is in the region, the region in the whole, and the origin not ahead.
    ghost stands: { (c : Self) → Stands (state c) };
}
