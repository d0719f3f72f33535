//! Why the cases can't be run to their end.
use std::alloc::{AllocError, AllocFailed};
use std::io;
use thiserror::Error;
use xt_lists::OutOfMemory;

/// What ends the program before the last case.
#[derive(Debug, Error)]
pub enum Trouble {
    /// The line is none of a case, or may not stand where it stands.
    #[error("no line of a case, or out of its place: {0}")]
    Line(String),
    /// The case of this name has no status.
    #[error("no status: {0}")]
    Unfinished(String),
    /// The input or the output failed.
    #[error("{0}")]
    Io(io::ErrorKind),
    #[error("out of memory")]
    OutOfMemory,
}

// By hand, so that it is one step wherever one is let go.
impl Drop for Trouble {
    fn drop(self) {
        match self {
            Trouble::Line(_) => {}
            Trouble::Unfinished(_) => {}
            Trouble::Io(_) => {}
            Trouble::OutOfMemory => {}
        }
    }
}

impl From<OutOfMemory> for Trouble {
    fn from(_: OutOfMemory) -> Trouble {
        Trouble::OutOfMemory
    }
}

impl From<AllocError> for Trouble {
    fn from(_: AllocError) -> Trouble {
        Trouble::OutOfMemory
    }
}

impl<T: Drop> From<AllocFailed<T>> for Trouble {
    fn from(_: AllocFailed<T>) -> Trouble {
        Trouble::OutOfMemory
    }
}

impl From<io::Error> for Trouble {
    fn from(error: io::Error) -> Trouble {
        Trouble::Io(error.kind())
    }
}
