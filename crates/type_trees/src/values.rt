use xt_lists::{Row, Text};

/// A value. A primitive, enumeration or bitmask is an `Int`: a float its raw bits as an unsigned number, a char8 its octet, a
/// boolean 0 or 1, an enumeration its literal's value, a bitmask the number whose set bits are the
/// positions of its flags.
#[derive(Debug)]
#[cycle(values)]
pub enum Value {
    Int(i128),
    /// Octets without NUL.
    Str(Text),
    /// A sequence, or an array in row-major order.
    List(Row<Value>),
    Map(Row<Pair>),
    /// One slot for each member, in declared order.
    Struct(Row<Slot>),
    Union(Box<UnionValue>),
}

/// An entry of a map.
#[derive(Debug)]
#[cycle(values)]
pub struct Pair {
    pub key: Value,
    pub value: Value,
}

/// The value of a member. Only an optional member is absent.
#[derive(Debug, Drop)]
#[cycle(values)]
pub enum Slot {
    Absent,
    Present(Value),
}

/// A union's discriminator and the value of the case that it selects; without such a case the body is absent.
#[derive(Debug)]
#[cycle(values)]
pub struct UnionValue {
    pub disc: i128,
    pub body: Slot,
}

// How values are let go: by hand, so that it is proved here once, and not in each crate that lets one go.
impl Drop for Value {
    #[cycle(dropping_values)]
    fn drop(self) {
        match self {
            Value::Int(_) => {}
            Value::Str(_) => {}
            Value::List(_) => {}
            Value::Map(_) => {}
            Value::Struct(_) => {}
            Value::Union(_) => {}
        }
    }
}

impl Drop for Pair {
    #[cycle(dropping_values)]
    fn drop(self) {
        let Pair { key: _, value: _ } = self;
    }
}

impl Drop for UnionValue {
    #[cycle(dropping_values)]
    fn drop(self) {
        let UnionValue { disc: _, body: _ } = self;
    }
}
