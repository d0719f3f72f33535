ghost use Rattle.std.specs.Prelude.{◌≡◌, ℕ, List, [], ◌∷◌, ◌++◌};
ghost use Rattle.std.specs.declared.option.Option.TheVariants.{Some};
ghost use base.Stored.{coded×, coded_ℕ, coded_list};
ghost use denote.Sharing.{said};
ghost use Rattle.type_registry.specs.notes.Facts.{knows, AgreeOn};

use once_cell::race::Note;
use std::marker::{Model, PhantomData};

/// What was read in any number of `OnceBox`es: the cell's name and the value, for each in the order in which it was learned. It takes
/// no bytes. A `Note` can be read only by `&mut`; this can be copied and compared by `&`, so values that threads share may hold it.
pub struct Knowledge<T> {
    marker: PhantomData<T>,
    pub ghost facts: { List (ℕ × T) } by { coded_list (coded× coded_ℕ T.code) },
}

impl<T> Model for Knowledge<T> {
    ghost also_owns = { λ k. knows T.row k.facts };

    ghost also_shares = { λ k _ κ. said (knows T.row k.facts) κ };
}

impl<T> Knowledge<T> {
    /// Nothing.
    pub fn empty() -> Knowledge<T>
        ensures { result.facts ≡ [] }
    {
        Knowledge {
            marker: PhantomData,
        }
    }

    /// What `note` knows: its cell holds this value.
    pub fn of(note: &mut Note<T>, value: &T) -> Knowledge<T>
        requires { note.old.known ≡ Some value.now }
        ensures { (result.facts ≡ (note.old.cell, value.now) ∷ []) × (note.new ≡ note.old) }
    {
        let _ = value;
        Knowledge {
            marker: PhantomData,
        }
    }

    /// What both know, the facts of `self` first.
    pub fn and(self, other: Knowledge<T>) -> Knowledge<T>
        ensures { result.facts ≡ self.facts ++ other.facts }
    {
        let Knowledge { marker: _ } = self;
        let Knowledge { marker: _ } = other;
        Knowledge {
            marker: PhantomData,
        }
    }

    /// The same once more.
    pub fn again(&self) -> Knowledge<T>
        ensures { result.facts ≡ self.now.facts }
    {
        Knowledge {
            marker: PhantomData,
        }
    }

    /// A cell holds one value, so what two know of one cell is the same.
    pub fn agrees(&self, other: &Knowledge<T>)
        ensures { AgreeOn self.now.facts other.now.facts }
    {}
}

impl<T> Drop for Knowledge<T> {
    fn drop(self) {
        let Self { marker: _ } = self;
    }
}

unsafe impl<T> Send for Knowledge<T> {}

unsafe impl<T> Sync for Knowledge<T> {}
