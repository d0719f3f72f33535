//! The words of lines, the verdict and the outcomes of samples; and the records of samples.

mod outcomes;
mod records;
mod verdicts;

pub use outcomes::{malformed_text, outcome_text, value_text};
pub use records::{MOST_OCTETS, plain_sample, plain_sample_record, sample_record, say_sample};
pub use verdicts::no_text;
