ghost use Rattle.std.specs.Prelude.{◌≡◌, pos, map, nat_eq};
ghost use Rattle.std.specs.Ordering.{int_eq};
ghost use Rattle.type_trees.specs.Bridge.{literal_shape, flag_shape};
ghost use Rattle.xt_shapes.specs.Lists.{all};
ghost use Rattle.xt_shapes.specs.NodeRules.{distinct};
ghost use Rattle.xt_shapes.specs.NodeRules as node;
ghost use Rattle.node_rules.specs.Rules as spec;

use crate::distinct::{Numbers, all_distinct};
use type_trees::{EnumType, Flag, Literal, MaskType};
use xt_shapes::Ext;

/// The values of literals.
#[derive(Clone, Copy)]
pub(crate) struct Values<'a>(pub(crate) &'a [Literal]);

impl Numbers for Values<'_> {
    ghost left = { λ s. map (λ l. l.value) (map literal_shape s.0.now) };

    fn take_first(&mut self) -> Option<i64> {
        let (first, others) = self.0.split_first()?;
        self.0 = others;
        Some(i64::from(first.value))
    }
}

/// The positions of flags.
#[derive(Clone, Copy)]
struct Positions<'a>(&'a [Flag]);

impl Numbers for Positions<'_> {
    ghost left = { λ s. map (λ f. pos f.position) (map flag_shape s.0.now) };

    fn take_first(&mut self) -> Option<i64> {
        let (first, others) = self.0.split_first()?;
        self.0 = others;
        Some(i64::from(first.position))
    }
}

/// Whether an enumeration of so many bits may have a literal of that value.
fn value_fits(bits: u8, value: i32) -> bool
    ensures { result ≡ node.value_fits bits value }
{
    if bits >= 32 {
        return true;
    }
    match u32::try_from(value) {
        Ok(number) => number < 1 << bits,
        Err(_) => false,
    }
}

fn values_fit(bits: u8, literals: &[Literal]) -> bool
    ensures { result ≡ all (λ l. node.value_fits bits l.value) (map literal_shape literals.now) }
{
    for literal in literals {
        if !value_fits(bits, literal.value) {
            return false;
        }
    }
    true
}

fn has_default(literals: &[Literal]) -> bool
    ensures { result ≡ spec.any_default (map literal_shape literals.now) }
{
    for literal in literals {
        if literal.is_default {
            return true;
        }
    }
    false
}

fn defaults_fit(literals: &[Literal]) -> bool
    ensures { result ≡ node.at_most_one (λ l. l.is_default) (map literal_shape literals.now) }
{
    let mut rest = literals;
    while let Some((first, others)) = rest.split_first() {
        if first.is_default {
            return !has_default(others);
        }
        rest = others;
    }
    true
}

fn values_apart(literals: &[Literal]) -> bool
    ensures { result ≡ distinct int_eq (map (λ l. l.value) (map literal_shape literals.now)) }
{
    all_distinct(Values(literals))
}

/// Whether an enumeration is FINAL or APPENDABLE, has 1 to 32 bits and distinct values that fit them, and one default at most.
pub fn enum_fits(kind: &EnumType) -> bool
    ensures { result ≡ node.enum_fits kind.now.ext kind.now.bits (map literal_shape kind.now.literals) }
{
    let literals = kind.literals.as_slice();
    kind.ext != Ext::Mutable
        && 1 <= kind.bits
        && kind.bits <= 32
        && values_fit(kind.bits, literals)
        && values_apart(literals)
        && defaults_fit(literals)
}

fn positions_fit(bits: u8, flags: &[Flag]) -> bool
    ensures { result ≡ all (λ f. spec.position_fits bits f.position) (map flag_shape flags.now) }
{
    for flag in flags {
        if flag.position >= bits {
            return false;
        }
    }
    true
}

fn positions_apart(flags: &[Flag]) -> bool
    ensures { result ≡ distinct nat_eq (map (λ f. f.position) (map flag_shape flags.now)) }
{
    all_distinct(Positions(flags))
}

/// Whether a bitmask has 1 to 64 bits and distinct positions below them.
pub fn mask_fits(kind: &MaskType) -> bool
    ensures { result ≡ node.mask_fits kind.now.bits (map flag_shape kind.now.flags) }
{
    let flags = kind.flags.as_slice();
    1 <= kind.bits && kind.bits <= 64 && positions_fit(kind.bits, flags) && positions_apart(flags)
}
