ghost use Rattle.std.specs.Prelude.{◌≡◌, ◌∷◌, ◌++◌, [], IfOk, OnOk, OnErr};
ghost use Rattle.std.specs.Option.{option_map};
ghost use Rattle.type_mirror.specs.pairs.Pairs.{IsDistinct, object_at, taken, gave, after, answer};
ghost use Rattle.type_mirror.specs.pairs.Laws.{KeepsObjects, ClashesDiffer, EndsAsUnion};

use crate::pairs::laws::pairs_agree;
use std::alloc::Global;
use type_lookup::messages::Fetched;
use type_trees::HashId;
use xt_lists::{OutOfMemory, Row, Text};

/// One of two sides.
#[derive(Debug, Clone, Copy, PartialEq, Eq)]
pub enum Side {
    A,
    B,
}

/// One side gives the object of an identifier to the other.
#[derive(Debug, Clone, Copy, PartialEq, Eq)]
pub struct Give {
    pub from: Side,
    pub id: HashId,
}

/// What became of it.
#[derive(Debug, Clone, Copy, PartialEq, Eq)]
pub enum Gave {
    /// The other side had no such object, and took it.
    Added,
    /// It had the same.
    Known,
    /// It had another under the identifier.
    Clash,
    /// The giving side has no such object.
    Lacking,
}

/// Two sides, each a finite map from identifiers to objects.
#[derive(Debug, Drop)]
pub struct Pair {
    a: Row<Fetched>,
    b: Row<Fetched>,
}

impl Pair {
    /// It takes no memory.
    pub fn new(a: Row<Fetched>, b: Row<Fetched>) -> Pair
        requires a { IsDistinct a }
        requires b { IsDistinct b }
        ensures { result ≡ record { a = a; b = b } }
    {
        Pair { a, b }
    }

    /// One side gives. Where memory is wanting nothing changes.
    pub fn step(&mut self, alloc: Global, give: &Give) -> Result<Gave, OutOfMemory>
        ensures answer { IfOk result (λ gave. gave ≡ answer self.old give.now) }
        ensures state { OnOk result (self.new ≡ after self.old give.now) }
        ensures kept { OnErr result (self.new ≡ self.old) }
        // Over every list of gives: no side loses or changes an object, and a clash is only of octets that differed at the start.
        ensures keeps { KeepsObjects }
        ensures clashes { ClashesDiffer }
        // Without one, and with all given, both sides end as the union.
        ensures union { EndsAsUnion }
    {
        pairs_agree();
        let gave = match give.from {
            Side::A => hand(alloc, &self.a, &mut self.b, &give.id)?,
            Side::B => hand(alloc, &self.b, &mut self.a, &give.id)?,
        };
        Ok(gave)
    }
}

/// Gives the object of an identifier to those that take it.
fn hand(
    alloc: Global,
    giver: &Row<Fetched>,
    taker: &mut Row<Fetched>,
    id: &HashId,
) -> Result<Gave, OutOfMemory>
    ensures gave { IfOk result (λ g. g ≡ gave (object_at id.now giver.now) (object_at id.now taker.old)) }
    ensures taken { OnOk result (taker.new ≡ taken id.now (object_at id.now giver.now) (object_at id.now taker.old) taker.old) }
    ensures kept { OnErr result (taker.new ≡ taker.old) }
{
    let Some(octets) = find(giver.as_slice(), id) else {
        return Ok(Gave::Lacking);
    };
    if let Some(there) = find(taker.as_slice(), id) {
        if there == octets {
            return Ok(Gave::Known);
        }
        return Ok(Gave::Clash);
    }
    let octets = Text::from_octets(alloc, octets)?;
    taker.push(Fetched { id: *id, octets })?;
    Ok(Gave::Added)
}

/// The octets of the first object with an identifier.
fn find<'a>(objects: &'a [Fetched], id: &HashId) -> Option<&'a [u8]>
    ensures { option_map (λ octets. octets.now) result ≡ object_at id.now objects.now }
{
    for object in objects {
        if object.id == *id {
            return Some(object.octets.octets());
        }
    }
    None
}
