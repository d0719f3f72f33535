//! What calls give.
use assignability::Verdict;
use std::alloc::{AllocError, Global};
use type_rules::TypeFault;
use xt_wire::cursor::DecodeFault;

/// What a call gives, in print, to be compared with what is wanted.
pub enum Answer {
    /// What is said in words that are fixed.
    Word(&'static str),
    /// What is made up: IDL, JSON, octets in hexadecimal, a number or a fault.
    Text(String),
}

// By hand, so that it is one step wherever one is let go.
impl Drop for Answer {
    fn drop(self) {
        match self {
            Answer::Word(_) => {}
            Answer::Text(_) => {}
        }
    }
}

impl Answer {
    /// Whether it is so.
    pub fn is(so: bool) -> Answer {
        Answer::Word(if so { "true" } else { "false" })
    }

    pub fn count(alloc: Global, count: u64) -> Result<Answer, AllocError> {
        Ok(Answer::Text(format!(in alloc; "{count}")?))
    }

    pub fn broken(alloc: Global, fault: &TypeFault) -> Result<Answer, AllocError> {
        Ok(Answer::Text(fault_told(alloc, fault)?))
    }

    pub fn judged(alloc: Global, verdict: &Verdict) -> Result<Answer, AllocError> {
        match verdict {
            Verdict::Yes => Ok(Answer::Word("yes")),
            Verdict::No { rule, path } => {
                Ok(Answer::Text(format!(in alloc; "no {rule} {path}")?))
            }
        }
    }

    /// The JSON of a value that was read.
    pub fn read(alloc: Global, json: &str) -> Result<Answer, AllocError> {
        Ok(Answer::Text(format!(in alloc; "ok {json}")?))
    }

    /// Why no value was read.
    pub fn unread(alloc: Global, fault: DecodeFault) -> Result<Answer, AllocError> {
        match fault {
            DecodeFault::Malformed { at, why } => {
                Ok(Answer::Text(format!(in alloc; "malformed {at} {why}")?))
            }
            DecodeFault::ReadFault => Ok(Answer::Word("read-fault")),
            DecodeFault::OutOfMemory => Ok(Answer::Word("out of memory")),
        }
    }

    pub fn as_str(&self) -> &str {
        match self {
            Answer::Word(word) => word,
            Answer::Text(text) => text.as_str(),
        }
    }
}

/// The rule of valid types that a type breaks, and the node.
pub fn fault_told(alloc: Global, fault: &TypeFault) -> Result<String, AllocError> {
    format!(in alloc; "V{} {}", fault.rule, fault.node)
}
