//! How a session ends.

/// How a session ended. Only after Closed and Limit may the link be used again.
#[derive(Clone, Copy, Debug, PartialEq, Eq)]
pub enum Ended {
    /// The peer ended between two frames.
    Closed,
    /// The link failed, in a read or in a write.
    LinkFault,
    /// What begins at this octet of the session's input is no frame of a request: it is cut by the input's end, too long, no message, or a
    /// reply.
    BadFrame { at: u64 },
    /// 65,536 requests were answered.
    Limit,
    /// Memory was wanting.
    OutOfMemory,
}
