// A borrowed source, sink or link is one too. It goes by its borrow and by the name of what was lent, so both are known when it is
// given back.
ghost use Rattle.std.specs.Prelude.{◌∷◌};

use crate::links::Link;
use crate::octets::{Failed, Sink, Source};

impl<S: Source> Source for &mut S {
    ghost left = { λ s. S.left s.now };

    ghost faults = { λ s. S.faults s.now };

    ghost name = { λ s. s.ghost_name ∷ S.name s.now };

    ghost behind = { λ s. S.behind s.now };

    fn read(&mut self, into: &mut [u8]) -> Result<usize, Failed> {
        Source::read(&mut **self, into)
    }

    fn at_hand(&self) -> usize {
        Source::at_hand(&**self)
    }
}

impl<K: Sink> Sink for &mut K {
    ghost taken = { λ k. K.taken k.now };

    ghost faults = { λ k. K.faults k.now };

    ghost name = { λ k. k.ghost_name ∷ K.name k.now };

    fn write(&mut self, from: &[u8]) -> Result<usize, Failed> {
        Sink::write(&mut **self, from)
    }
}

impl<L: Link> Link for &mut L {
    ghost left = { λ l. L.left l.now };

    ghost got = { λ l. L.got l.now };

    ghost taken = { λ l. L.taken l.now };

    ghost faults = { λ l. L.faults l.now };

    ghost name = { λ l. l.ghost_name ∷ L.name l.now };

    fn read(&mut self, into: &mut [u8]) -> Result<usize, Failed> {
        Link::read(&mut **self, into)
    }

    fn write(&mut self, from: &[u8]) -> Result<usize, Failed> {
        Link::write(&mut **self, from)
    }
}
