//! Types and values as decoding sees them (DDS-XTypes 1.3, 7.2 and 7.3.4): the small enumerations that they are made of, and in
//! `specs/` their definitions: shapes, values, which values a type has, defaults, selection, sizes and weights.
#![tactic(auto)]

mod leaves;

pub use leaves::{Ext, Order, Primitive, Primitive as Prim, Rep, Step, Try};
