//! Why a call has no answer.
use crate::answers::fault_told;
use dynamic_data::ValueFault;
use hex::FromHexError;
use std::alloc::{AllocError, AllocFailed, Global};
use thiserror::Error;
use type_rules::TypeFault;
use xt_idl::IdlFault;
use xt_lists::OutOfMemory;

/// Why a call has no answer. It is printed in the answer's place.
#[derive(Debug, Error)]
pub enum Trouble {
    /// The text declares no types, a type breaks a rule, or the JSON gives no value.
    #[error("{0}")]
    Faulty(String),
    /// The octets are no hexadecimal.
    #[error("no hexadecimal")]
    Hex,
    /// The call isn't known, or a text that it needs is none.
    #[error("what?")]
    Words,
    /// A sample has another size than was told.
    #[error("another size")]
    Size,
    #[error("out of memory")]
    OutOfMemory,
}

// By hand, so that it is one step wherever one is let go.
impl Drop for Trouble {
    fn drop(self) {
        match self {
            Trouble::Faulty(_) => {}
            Trouble::Hex => {}
            Trouble::Words => {}
            Trouble::Size => {}
            Trouble::OutOfMemory => {}
        }
    }
}

impl Trouble {
    pub fn idl(alloc: Global, fault: &IdlFault) -> Trouble {
        Trouble::told(format!(in alloc; "idl {fault}"))
    }

    pub fn invalid(alloc: Global, fault: &TypeFault) -> Trouble {
        Trouble::told(fault_told(alloc, fault))
    }

    pub fn json(alloc: Global, fault: &ValueFault) -> Trouble {
        Trouble::told(format!(in alloc; "json {fault}"))
    }

    fn told(text: Result<String, AllocError>) -> Trouble {
        match text {
            Ok(text) => Trouble::Faulty(text),
            Err(_) => Trouble::OutOfMemory,
        }
    }
}

impl From<OutOfMemory> for Trouble {
    fn from(_: OutOfMemory) -> Trouble {
        Trouble::OutOfMemory
    }
}

impl From<AllocError> for Trouble {
    fn from(_: AllocError) -> Trouble {
        Trouble::OutOfMemory
    }
}

impl<T: Drop> From<AllocFailed<T>> for Trouble {
    fn from(_: AllocFailed<T>) -> Trouble {
        Trouble::OutOfMemory
    }
}

impl From<FromHexError> for Trouble {
    fn from(_: FromHexError) -> Trouble {
        Trouble::Hex
    }
}
