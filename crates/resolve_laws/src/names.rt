ghost use Rattle.std.specs.Prelude.{◌≡◌, true, ◌&&◌};
ghost use Rattle.xt_shapes.specs.Lists.{all};
ghost use Rattle.object_formats.specs.Tables.{has_name};
ghost use Rattle.type_trees.specs.View.{tree, members_tree, cases_tree};
ghost use Rattle.resolve_laws.specs.Named as spec;

use type_trees::{Base, Case, Flag, Literal, Member, Name, XType};

/// A number of 32 bits is one, as the laws ask.
fn word(number: u32)
    ensures { spec.is_word number ≡ true }
{}

/// The same of a number with a sign.
fn signed_word(number: i32)
    ensures { spec.is_signed_word number ≡ true }
{}

fn words(dims: &[u32])
    ensures { all spec.is_word dims.now ≡ true }
{
    for dim in dims {
        word(*dim);
    }
}

fn signed_words(labels: &[i32])
    ensures { all spec.is_signed_word labels.now ≡ true }
{
    for label in labels {
        signed_word(*label);
    }
}

fn is_full(name: &Name) -> bool
    ensures { result ≡ spec.is_full name.now }
{
    matches!(name, Name::Full(_))
}

fn literals_named(literals: &[Literal]) -> bool
    ensures named { result ≡ all (λ l. spec.is_full l.name) literals.now }
    ensures numbers { all (λ l. spec.is_signed_word l.value) literals.now ≡ true }
{
    let mut named = true;
    for literal in literals {
        signed_word(literal.value);
        named = named && is_full(&literal.name);
    }
    named
}

fn flags_named(flags: &[Flag]) -> bool
    ensures { result ≡ all (λ f. spec.is_full f.name) flags.now }
{
    for flag in flags {
        if !is_full(&flag.name) {
            return false;
        }
    }
    true
}

fn bases_named(bases: &[Base]) -> bool
    ensures { result ≡ all (λ b. has_name b.name) bases.now }
{
    for base in bases {
        if base.name.is_none() {
            return false;
        }
    }
    true
}

#[cycle(names)]
#[tactic(auto, using(type_trees::proofs::Views::tree_rules))]
fn members_named(members: &[Member]) -> bool
    ensures named { result ≡ spec.are_named (members_tree members.now) }
    ensures numbers { spec.members_fit (members_tree members.now) ≡ true }
{
    let mut named = true;
    for member in members {
        let inner = is_named(&member.ty);
        named = named && inner && is_full(&member.name);
    }
    named
}

#[cycle(names)]
#[tactic(auto, using(type_trees::proofs::Views::tree_rules))]
fn cases_named(cases: &[Case]) -> bool
    ensures named { result ≡ spec.cases_named (cases_tree cases.now) }
    ensures numbers { spec.cases_fit (cases_tree cases.now) ≡ true }
{
    let mut named = true;
    for case in cases {
        signed_words(case.labels.as_slice());
        let inner = is_named(&case.ty);
        named = named && inner && is_full(&case.name);
    }
    named
}

/// Whether each enumeration, bitmask, structure, union, alias and base in a type has a name, and each member, case, literal and flag a
/// name in full: so it is with the types of a text. It is what `resolves_to_itself` asks of a valid type; what it asks of numbers, each type
/// has.
#[cycle(names)]
#[tactic(auto, using(type_trees::proofs::Views::tree_rules))]
pub fn is_named(ty: &XType) -> bool
    ensures named { result ≡ spec.is_named (tree ty.now) }
    ensures numbers { spec.numbers_fit (tree ty.now) ≡ true }
{
    match ty {
        XType::Prim(_) => true,
        XType::Str(bound) => {
            word(*bound);
            true
        }
        XType::Enum(kind) => {
            let parts = literals_named(kind.literals.as_slice());
            kind.name.is_some() && parts
        }
        XType::Mask(kind) => kind.name.is_some() && flags_named(kind.flags.as_slice()),
        XType::Seq(kind) => {
            word(kind.bound);
            is_named(&kind.elem.ty)
        }
        XType::Array(kind) => {
            words(kind.dims.as_slice());
            is_named(&kind.elem.ty)
        }
        XType::Map(kind) => {
            word(kind.bound);
            let key = is_named(&kind.key.ty);
            let value = is_named(&kind.value.ty);
            key && value
        }
        XType::Struct(kind) => {
            let parts = members_named(kind.members.as_slice());
            kind.name.is_some() && bases_named(kind.bases.as_slice()) && parts
        }
        XType::Union(kind) => {
            let disc = is_named(&kind.disc);
            let parts = cases_named(kind.cases.as_slice());
            kind.name.is_some() && disc && parts
        }
        XType::Alias(kind) => {
            let related = is_named(&kind.ty);
            kind.name.is_some() && related
        }
    }
}
