//! Values of octets, by the reader's type alone, in XCDR1 and XCDR2 (extended CDR, encoding versions 1 and 2: DDS-XTypes 1.3, 7.4).
#![tactic(auto)]

mod blocks;
mod body;
mod comings;
mod decode;
mod headings;
mod known;
mod leaves;
mod modes;

pub use body::{decode_guided, decode_value, decode1, decode2};
