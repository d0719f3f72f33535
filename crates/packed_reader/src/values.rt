// Values that lend their texts, and mostly their numbers, from octets that were read.
use xt_lists::{Row, Text};
use xt_shapes::{Order, Prim};

/// So many numbers of a primitive, one after another, as the octets that hold them.
#[derive(Debug, Clone, Copy)]
pub struct Numbers<'a> {
    pub prim: Prim,
    pub order: Order,
    pub count: u64,
    pub octets: &'a [u8],
}

/// So many numbers of a primitive, one after another, with the little-endian octets that hold them.
#[derive(Debug, Drop)]
pub struct OwnNumbers {
    pub prim: Prim,
    pub count: u64,
    pub octets: Text,
}

impl OwnNumbers {
    ghost use Rattle.std.specs.Prelude.{◌≡◌};
    ghost use Rattle.packed_reader.specs.View.{numbers_of, own_numbers};

    /// The same numbers, lent.
    pub fn lent(&self) -> Numbers<'_>
        ensures { numbers_of result ≡ own_numbers self.now }
    {
        Numbers {
            prim: self.prim,
            order: Order::Little,
            count: self.count,
            octets: self.octets.octets(),
        }
    }
}

/// A value over the octets that it was read from.
#[derive(Debug)]
#[cycle(packed)]
pub enum Packed<'a> {
    Natural(u64),
    Whole(i64),
    /// Octets without NUL.
    Text(&'a [u8]),
    /// A sequence or an array of numbers.
    Numbers(Numbers<'a>),
    /// The same, of numbers that weren't read from octets.
    Own(OwnNumbers),
    /// A sequence, or an array in row-major order.
    List(Row<Packed<'a>>),
    /// One slot for each member, in declared order.
    Struct(Row<PackedSlot<'a>>),
    Union(Box<PackedUnion<'a>>),
}

// By hand, so that it is proved here once, and not in each crate that lets one go.
impl Drop for Packed<'_> {
    #[cycle(dropping)]
    fn drop(self) {
        match self {
            Packed::Natural(_) => {}
            Packed::Whole(_) => {}
            Packed::Text(_) => {}
            Packed::Numbers(_) => {}
            Packed::Own(_) => {}
            Packed::List(_) => {}
            Packed::Struct(_) => {}
            Packed::Union(_) => {}
        }
    }
}

/// A union's value: its discriminator, and the value of the case that it selects. The body is absent where it selects none.
#[derive(Debug, Drop)]
#[cycle(packed)]
pub struct PackedUnion<'a> {
    pub disc: i128,
    pub body: PackedSlot<'a>,
}

/// The value of a member, or of a union's case. Only an optional member is absent.
#[derive(Debug, Drop)]
#[cycle(packed)]
pub enum PackedSlot<'a> {
    Absent,
    Present(Packed<'a>),
}
