ghost use Rattle.std.specs.Prelude.{◌≡◌, IfOk};
ghost use Rattle.type_registry.specs.Held.{IsNamed, held};

use crate::naming::Naming;
use std::alloc::Global;
use std::marker::{Model, PhantomData};
use type_trees::HashId;
use xt_lists::{OutOfMemory, Text};

/// What a full cell holds: the text of an object under its identifier.
#[derive(Drop)]
pub struct Entry<N: Naming> {
    id: HashId,
    octets: Text,
    naming: PhantomData<N>,
}

impl<N: Naming> Model for Entry<N> {
    ghost use Rattle.type_registry.specs.Held.{Held, IsNamed};

    ghost Value = { Held };

    ghost view = { λ e. record { id = e.id; octets = e.octets } };

    ghost invariant = { λ e. IsNamed N.name (record { id = e.id; octets = e.octets }) };
}

impl<N: Naming> Entry<N> {
    /// An entry of its own memory, with a copy of the text.
    pub(crate) fn boxed(
        alloc: Global,
        id: HashId,
        octets: &[u8],
    ) -> Result<Box<Entry<N>>, OutOfMemory>
        requires { IsNamed N.name (held id octets.now) }
        ensures { IfOk result (λ e. e.value ≡ held id octets.now) }
    {
        let octets = Text::from_octets(alloc, octets)?;
        let entry = Entry {
            id,
            octets,
            naming: PhantomData,
        };
        Ok(Box::new(alloc, entry)?)
    }

    pub(crate) fn id(&self) -> HashId
        ensures id { result ≡ self.now.id }
        ensures named { IsNamed N.name self.now }
    {
        self.id
    }

    pub(crate) fn octets(&self) -> &[u8]
        ensures { result.now ≡ self.now.octets }
    {
        self.octets.octets()
    }
}
