ghost use Rattle.std.specs.Prelude.{◌≡◌, ◌++◌, [], codes, map, length, slice_get, OnOk, IfOk, drop, ◌≤◌};
ghost use Rattle.std.specs.Option.{option_copied, option_map};
ghost use Rattle.type_trees.specs.View.{tree, members_tree, struct_tree, union_tree};
ghost use Rattle.idl_printer.specs.Parts.{members_behind};
ghost use Rattle.idl_printer.specs.Lines as spec;

use crate::modules::{endings, last_name, openings};
use crate::parts::{all_cases, all_flags, all_literals, all_members};
use crate::uses::{declarator, reference, used_type};
use crate::words::{append_if, ext_word, number};
use std::alloc::Global;
use type_trees::{
    AliasType, Base, EnumType, MaskType, Member, Named, StructType, UnionType, XType,
};
use xt_lists::{OutOfMemory, Row, Text};
use xt_shapes::Ext;

fn bits_note(out: &mut Text, bits: u32) -> Result<(), OutOfMemory>
    ensures { OnOk result (out.new ≡ out.old ++ spec.bits_text bits) }
{
    out.append(b"@bit_bound(")?;
    number(out, bits)?;
    out.append(b") ")
}

fn aggregate_notes(out: &mut Text, ext: Ext, nested: bool, hashed: bool) -> Result<(), OutOfMemory>
    ensures { OnOk result (out.new ≡ out.old ++ spec.aggregate_notes ext nested hashed) }
{
    out.append(ext_word(ext))?;
    append_if(out, nested, b"@nested ")?;
    append_if(out, hashed, b"@autoid(HASH) ")
}

/// The innermost base.
fn last_base(bases: &[Base]) -> Option<&Base>
    ensures { option_map (λ b. b.now) result ≡ spec.last_base bases.now }
{
    bases.last()
}

#[tactic(auto, using(crate::proofs::Joins::joins))]
fn base_clause(base: Option<&Base>, out: &mut Text) -> Result<(), OutOfMemory>
    ensures { OnOk result (out.new ≡ out.old ++ spec.base_text (option_map (λ b. b.now) base.entry)) }
{
    match base {
        None => Ok(()),
        Some(base) => {
            out.append(b": ")?;
            reference(&base.name, out)?;
            out.append(b" ")
        }
    }
}

/// How many members come from bases.
fn count_of(base: Option<&Base>) -> usize
    ensures { result ≡ spec.count_of (option_map (λ b. b.now) base.entry) }
{
    match base {
        None => 0,
        Some(base) => base.count as usize,
    }
}

/// The members behind the first ones.
#[tactic(auto, using(crate::proofs::Behind::behind_some, crate::proofs::Behind::behind_all))]
fn members_behind(members: &[Member], count: usize) -> &[Member]
    ensures { members_tree result.now ≡ members_behind count (members_tree members.now) }
{
    if count < members.len() {
        &members[count..]
    } else {
        &[]
    }
}

fn struct_head(name: &[u8], base: Option<&Base>, out: &mut Text) -> Result<(), OutOfMemory>
    ensures { OnOk result (out.new ≡ out.old ++ spec.struct_head name.now (option_map (λ b. b.now) base.entry)) }
{
    out.append(b"struct ")?;
    out.append(name)?;
    out.append(b" ")?;
    base_clause(base, out)?;
    out.append(b"{ ")
}

#[tactic(auto, unfolding(crate::specs::Lines::own_members))]
fn own_members(base: Option<&Base>, members: &[Member], out: &mut Text) -> Result<(), OutOfMemory>
    ensures { OnOk result (out.new ≡ out.old ++ spec.own_members (option_map (λ b. b.now) base.entry) (members_tree members.now)) }
{
    all_members(members_behind(members, count_of(base)), out)
}

#[tactic(auto, using(crate::proofs::Joins::joins, type_trees::proofs::Views::tree_rules), unfolding(crate::specs::Lines::struct_text))]
fn structure(kind: &StructType, name: &[u8], out: &mut Text) -> Result<(), OutOfMemory>
    ensures { OnOk result (out.new ≡ out.old ++ spec.definition_text (struct_tree kind.now) name.now) }
{
    let base = last_base(kind.bases.as_slice());
    aggregate_notes(out, kind.ext, kind.nested, kind.hashed_ids)?;
    struct_head(name, base, out)?;
    own_members(base, kind.members.as_slice(), out)?;
    out.append(b"};")
}

#[tactic(auto, using(crate::proofs::Joins::joins), unfolding(crate::specs::Lines::union_head))]
fn union_head(disc: &XType, disc_key: bool, name: &[u8], out: &mut Text) -> Result<(), OutOfMemory>
    ensures { OnOk result (out.new ≡ out.old ++ spec.union_head name.now disc_key (tree disc.now)) }
{
    out.append(b"union ")?;
    out.append(name)?;
    out.append(b" switch (")?;
    append_if(out, disc_key, b"@key ")?;
    used_type(disc, out)?;
    out.append(b") { ")
}

#[tactic(auto, using(crate::proofs::Joins::joins, type_trees::proofs::Views::tree_rules), unfolding(crate::specs::Lines::union_text))]
fn union(kind: &UnionType, name: &[u8], out: &mut Text) -> Result<(), OutOfMemory>
    ensures { OnOk result (out.new ≡ out.old ++ spec.definition_text (union_tree kind.now) name.now) }
{
    aggregate_notes(out, kind.ext, kind.nested, kind.hashed_ids)?;
    union_head(&kind.disc, kind.disc_key, name, out)?;
    all_cases(&kind.disc, kind.cases.as_slice(), out)?;
    out.append(b"};")
}

/// A word, a name and the opening of braces.
#[tactic(auto, using(crate::proofs::Joins::joins), unfolding(crate::specs::Lines::opened))]
fn opened(out: &mut Text, word: &[u8], name: &[u8]) -> Result<(), OutOfMemory>
    ensures { OnOk result (out.new ≡ out.old ++ spec.opened word.now name.now) }
{
    out.append(word)?;
    out.append(name)?;
    out.append(b" { ")
}

#[tactic(auto, using(crate::proofs::Joins::joins), unfolding(crate::specs::Lines::enum_text))]
fn enumeration(kind: &EnumType, name: &[u8], out: &mut Text) -> Result<(), OutOfMemory>
    ensures { OnOk result (out.new ≡ out.old ++ spec.enum_text kind.now.ext kind.now.bits kind.now.literals name.now) }
{
    out.append(ext_word(kind.ext))?;
    bits_note(out, u32::from(kind.bits))?;
    opened(out, b"enum ", name)?;
    all_literals(kind.literals.as_slice(), out)?;
    out.append(b" };")
}

#[tactic(auto, using(crate::proofs::Joins::joins), unfolding(crate::specs::Lines::mask_text))]
fn bitmask(kind: &MaskType, name: &[u8], out: &mut Text) -> Result<(), OutOfMemory>
    ensures { OnOk result (out.new ≡ out.old ++ spec.mask_text kind.now.bits kind.now.flags name.now) }
{
    bits_note(out, u32::from(kind.bits))?;
    opened(out, b"bitmask ", name)?;
    all_flags(kind.flags.as_slice(), out)?;
    out.append(b" };")
}

#[tactic(auto, using(crate::proofs::Joins::joins))]
fn typedef(kind: &AliasType, name: &[u8], out: &mut Text) -> Result<(), OutOfMemory>
    ensures { OnOk result (out.new ≡ out.old ++ spec.alias_text (tree kind.now.ty) name.now) }
{
    out.append(b"typedef ")?;
    declarator(&kind.ty, name, out)?;
    out.append(b";")
}

/// A definition by its last name, with its annotations.
#[tactic(auto, using(crate::proofs::Joins::joins, type_trees::proofs::Views::tree_rules))]
fn definition(ty: &XType, name: &[u8], out: &mut Text) -> Result<(), OutOfMemory>
    ensures { OnOk result (out.new ≡ out.old ++ spec.definition_text (tree ty.now) name.now) }
{
    match ty {
        XType::Struct(kind) => structure(kind, name, out),
        XType::Union(kind) => union(kind, name, out),
        XType::Enum(kind) => enumeration(kind, name, out),
        XType::Mask(kind) => bitmask(kind, name, out),
        XType::Alias(kind) => typedef(kind, name, out),
        XType::Prim(_) | XType::Str(_) | XType::Seq(_) | XType::Array(_) | XType::Map(_) => Ok(()),
    }
}

/// A type inside the modules of its name.
#[tactic(auto, using(crate::proofs::Joins::joins), unfolding(crate::specs::Lines::line))]
fn one_line(named: &Named, out: &mut Text) -> Result<(), OutOfMemory>
    ensures { OnOk result (out.new ≡ out.old ++ spec.line named.now.name (tree named.now.ty)) }
{
    let full = named.name.octets();
    openings(full, out)?;
    definition(&named.ty, last_name(full), out)?;
    endings(full, out)?;
    out.append(b"\n")
}

#[tactic(auto, using(crate::proofs::Joins::joins))]
fn lines(types: &[Named], out: &mut Text) -> Result<(), OutOfMemory>
    ensures { OnOk result (out.new ≡ out.old ++ spec.printed (map (λ n. (n.name, tree n.ty)) types.now)) }
{
    for named in types {
        one_line(named, out)?;
    }
    Ok(())
}

/// The one text of a list of types (own; the grammar is that of OMG IDL 4.2, 7.4, with the annotations of DDS-XTypes 1.3, 7.3.1.2): for each
/// type, in the order of the list, one line with single spaces, ended by a line feed: the modules of its name, its annotations and its
/// definition. All ids, values and positions are written out. A structure with a base has the base's name and its own members alone.
pub fn print(alloc: Global, types: &Row<Named>) -> Result<Text, OutOfMemory>
    ensures { IfOk result (λ text. text ≡ spec.printed (map (λ n. (n.name, tree n.ty)) types.now)) }
{
    let mut out = Text::new(alloc);
    lines(types.as_slice(), &mut out)?;
    Ok(out)
}
