use crate::finding::Finding;
use crate::naming::Naming;
use crate::trail::Trail;
use type_object::Fault as ObjectFault;

/// An object that is in the registry, under its identifier.
#[derive(Drop)]
pub enum Kept<'r, N: Naming> {
    /// This call found no object of the identifier; what stands there now has the octets that were handed in.
    Added(Finding<'r, N>),
    /// It was there, with the octets that were handed in.
    Known(Finding<'r, N>),
}

/// Why an object is not in the registry. The first that holds is answered.
#[derive(Drop)]
pub enum RegisterFault<'r, N: Naming> {
    /// The octets are no object's text; this is their first fault.
    NotAnObject(ObjectFault),
    /// Other octets stand under the identifier.
    Clash(Finding<'r, N>),
    /// All 64 probed cells of the identifier are full, each with another one.
    Full(Trail<'r, N>),
    OutOfMemory,
}

/// Where the probes of an identifier ended.
#[derive(Drop)]
pub(crate) enum Settled<'r, N: Naming> {
    /// At a cell that was empty and holds the octets now.
    Added(Finding<'r, N>),
    /// At a cell that held the octets.
    Known(Finding<'r, N>),
    /// At a cell that holds other octets under the identifier.
    Clash(Finding<'r, N>),
    /// Nowhere: each is full with another identifier.
    Full(Trail<'r, N>),
}
