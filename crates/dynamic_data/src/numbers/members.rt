ghost use Rattle.std.specs.Prelude.{◌≡◌, ◌<◌, true, length, IfOk, IfSome};
ghost use Rattle.type_trees.specs.View.{members_tree};
ghost use Rattle.json_values.specs.Names.{members_have_text_names};
ghost use Rattle.dynamic_data.specs.numbers.Places.{place_of, HoldsPlaces, Finds};

use json_values::{is_named, key_of};
use std::alloc::Global;
use std::collections::BTreeMap;
use type_trees::Member;
use xt_lists::OutOfMemory;

// Members are looked through one by one where they, or the keys, are so few.
const FEW: usize = 16;

/// The place of the first member with that name.
pub fn place_among(members: &[Member], name: &str) -> Option<usize>
    ensures { result ≡ place_of members.now name.now }
{
    members
        .iter()
        .position(|member| is_named(&member.name, name.as_bytes()))
}

// The places of members by their names.
fn places_of(alloc: Global, members: &[Member]) -> Result<BTreeMap<String, usize>, OutOfMemory>
    requires { members_have_text_names (members_tree members.now) ≡ true }
    ensures { IfOk result (HoldsPlaces members.now) }
{
    let mut places = BTreeMap::new(alloc);
    let mut at = members.len();
    // from the last, so that the first member with a name is kept
    'members: while at > 0 {
        at -= 1;
        let name = key_of(alloc, &members[at].name)?;
        places.insert(name, at)?;
    }
    Ok(places)
}

/// How the members of a structure are found by their names.
#[derive(Drop)]
pub(crate) enum Finder {
    OneByOne,
    ByIndex(BTreeMap<String, usize>),
}

impl Finder {
    /// The finder for an object of so many keys. It takes memory in the number of members only where both are many.
    pub(crate) fn new(alloc: Global, members: &[Member], keys: usize) -> Result<Finder, OutOfMemory>
        requires { members_have_text_names (members_tree members.now) ≡ true }
        ensures { IfOk result (Finds members.now) }
    {
        if members.len() <= FEW || keys <= FEW {
            return Ok(Finder::OneByOne);
        }
        Ok(Finder::ByIndex(places_of(alloc, members)?))
    }

    /// The place of the first member with that name.
    pub(crate) fn place(&self, members: &[Member], name: &str) -> Option<usize>
        requires { Finds members.now self.now }
        ensures place { result ≡ place_of members.now name.now }
        ensures within { IfSome result (λ at. at < length members.now) }
    {
        match self {
            Finder::OneByOne => place_among(members, name),
            Finder::ByIndex(places) => places.get(name).copied(),
        }
    }
}
