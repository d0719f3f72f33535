use xt_lists::Row;
use xt_shapes::{Primitive, Try};

/// A type where a definition uses it (OMG IDL 4.2, 7.4.1). A declared type stands as its place, so that it is neither copied nor looked into.
#[derive(Debug, Drop)]
pub enum Used {
    Prim(Primitive),
    /// A string of octets with its bound; 0 is none.
    Str(u32),
    /// A sequence; a bound of 0 is none.
    Seq {
        bound: u32,
        tc: Try,
        elem: Box<Used>,
    },
    Array {
        dims: Row<u32>,
        tc: Try,
        elem: Box<Used>,
    },
    /// A map; a bound of 0 is none.
    Map {
        bound: u32,
        key_tc: Try,
        key: Box<Used>,
        tc: Try,
        value: Box<Used>,
    },
    /// The type that the text declares at this place, counted from 0.
    Declared(usize),
}
