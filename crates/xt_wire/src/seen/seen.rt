ghost use Rattle.std.specs.Prelude.{◌≡◌};
ghost use Rattle.std.specs.Borrow.{ftrue};

use std::marker::{Model, PhantomData};

/// What was seen behind a reference, which clauses read as `value`. It takes no octets, and does nothing when it runs.
#[derive(Drop)]
pub struct Seen<T> {
    of: PhantomData<T>,
    pub ghost value: { T } by { T.code },
}

impl<T> Model for Seen<T> {
    ghost also_owns = { λ _. ftrue };
}

impl<T> Seen<T> {
    /// The value as it is now.
    pub fn now(value: &T) -> Seen<T>
        ensures { result.value ≡ value.now }
    {
        Seen { of: PhantomData }
    }
}
