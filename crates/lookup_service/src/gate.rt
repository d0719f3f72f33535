//! A place where a session stops before each reply.
ghost use Rattle.std.specs.Prelude.{⊤, ℕ};

/// What a session calls once before it sends each reply. It may be called by several threads at once.
pub trait Gate: Sync {
    /// What holds once the gate was called for the request of this number. Where the gate is any, it holds by that call alone.
    ghost asked: { Self → ℕ → Type 0 } = { λ _ _. ⊤ };

    /// `request` is the number of the session's request that is to be replied to, counted from 0.
    fn before_reply(&self, request: u64)
        ensures { asked self.now request };
}

/// A gate that lets every reply pass.
#[derive(Clone, Copy, Debug)]
pub struct NoGate;

impl Gate for NoGate {
    fn before_reply(&self, _request: u64) {}
}
