ghost use Rattle.std.specs.Prelude.{◌≡◌, ℕ, pos, map};
ghost use Rattle.type_trees.specs.declared.types.Name.{Name as AnyName};
ghost use Rattle.type_trees.specs.Bridge as hashed;
ghost use Rattle.xt_shapes.specs.Lists.{all};
ghost use Rattle.node_rules.specs.Names as named;
ghost use Rattle.xt_shapes.specs.NodeRules as node;

use crate::distinct::{Numbers, all_distinct};
use crate::octets::name_fits;
use type_trees::{Case, Flag, Literal, Member, Name, name_number};

/// An item with a name: a member, case, literal or flag.
pub trait HasName {
    ghost name_of: { Self → AnyName };

    fn name(&self) -> &Name
        ensures { result.now ≡ name_of self.now };
}

/// An item with an id: a member or case.
pub trait HasId {
    ghost id_of: { Self → ℕ };

    fn id(&self) -> u32
        ensures { result ≡ id_of self.now };
}

impl HasName for Member {
    ghost name_of = { λ m. m.name };

    fn name(&self) -> &Name {
        &self.name
    }
}

impl HasName for Case {
    ghost name_of = { λ c. c.name };

    fn name(&self) -> &Name {
        &self.name
    }
}

impl HasName for Literal {
    ghost name_of = { λ l. l.name };

    fn name(&self) -> &Name {
        &self.name
    }
}

impl HasName for Flag {
    ghost name_of = { λ f. f.name };

    fn name(&self) -> &Name {
        &self.name
    }
}

impl HasId for Member {
    ghost id_of = { λ m. m.id };

    fn id(&self) -> u32 {
        self.id
    }
}

impl HasId for Case {
    ghost id_of = { λ c. c.id };

    fn id(&self) -> u32 {
        self.id
    }
}

/// The hashes of items' names.
#[derive_where(Clone, Copy)]
struct Hashes<'a, T>(&'a [T]);

impl<T: HasName> Numbers for Hashes<'_, T> {
    ghost left = { λ s. map (λ x. pos (hashed.name_number (T.name_of x))) s.0.now };

    fn take_first(&mut self) -> Option<i64> {
        let (first, others) = self.0.split_first()?;
        self.0 = others;
        Some(i64::from(name_number(first.name())))
    }
}

/// The ids of items.
#[derive_where(Clone, Copy)]
struct Ids<'a, T>(&'a [T]);

impl<T: HasId> Numbers for Ids<'_, T> {
    ghost left = { λ s. map (λ x. pos (T.id_of x)) s.0.now };

    fn take_first(&mut self) -> Option<i64> {
        let (first, others) = self.0.split_first()?;
        self.0 = others;
        Some(i64::from(first.id()))
    }
}

/// Whether the items' names are names.
pub fn names_fit<T: HasName>(items: &[T]) -> bool
    ensures { result ≡ all (λ x. named.name_fits (T.name_of x)) items.now }
{
    for item in items {
        if !name_fits(item.name()) {
            return false;
        }
    }
    true
}

/// Whether the items' names have distinct hashes.
pub fn hashes_apart<T: HasName>(items: &[T]) -> bool
    ensures { result ≡ node.hashes_apart (map (λ x. hashed.name_number (T.name_of x)) items.now) }
{
    all_distinct(Hashes(items))
}

fn ids_low<T: HasId>(items: &[T]) -> bool
    ensures { result ≡ all node.is_low (map (λ x. T.id_of x) items.now) }
{
    for item in items {
        if item.id() >= 0x0fff_ffff {
            return false;
        }
    }
    true
}

/// Whether the items' ids are below 0x0FFFFFFF and distinct.
pub fn ids_fit<T: HasId>(items: &[T]) -> bool
    ensures { result ≡ node.ids_fit (map (λ x. T.id_of x) items.now) }
{
    ids_low(items) && all_distinct(Ids(items))
}
