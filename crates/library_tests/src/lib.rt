//! What only a user of the library sees: adapters, cursors, threads, links to the service itself, weak namings, and types that no text
//! can write. The crate has tests alone.
#![tactic(auto)]

#[cfg(test)]
mod adapters;
#[cfg(test)]
mod bundles;
#[cfg(test)]
mod calls;
#[cfg(test)]
mod cells;
#[cfg(test)]
mod clashes;
#[cfg(test)]
mod cursors;
#[cfg(test)]
mod fetches;
#[cfg(test)]
mod namings;
#[cfg(test)]
mod objects;
#[cfg(test)]
mod pairs;
#[cfg(test)]
mod pushes;
#[cfg(test)]
mod registries;
#[cfg(test)]
mod replays;
#[cfg(test)]
mod unwritten;
#[cfg(test)]
mod workers;
