// Parts that have no parts.
ghost use Rattle.std.specs.Prelude.{◌≡◌, false, not, map};
ghost use Rattle.type_trees.specs.Bridge.{type_shape, literal_shape, flag_shape};
ghost use Rattle.xt_shapes.specs.Kinds.{is_number};
ghost use Rattle.xt_shapes.specs.Shape as model;
ghost use Rattle.xcdr_model.specs.Xcdr2Reading.{scalar_at};
ghost use Rattle.xcdr_model.specs.Xcdr1Reading.{is_open};
ghost use Rattle.xcdr_steps.specs.one.Contents.{spare};
ghost use Rattle.xcdr_reader.specs.Modes.{read_in, most};
ghost use Rattle.try_construct.specs.Guides.{TellsLiterals};
ghost use Rattle.settled_parts.specs.Parts.{part_of};
ghost use Rattle.xt_wire.specs.cursor.Decoding.{Decodes};
ghost use Rattle.xt_wire.specs.declared.cursor.faults.DecodeFault.TheVariants.{Malformed};
ghost use Rattle.xcdr_model.specs.declared.malformed.Why.TheVariants.{Short};

use crate::modes::Mode;
use settled_parts::{Part, text_from};
use std::alloc::Global;
use try_construct::Guide;
use type_trees::{EnumType, MaskType, XType};
use xcdr_model::Why;
use xcdr_steps::scalars::{read_enum, read_mask, read_prim, read_text};
use xt_shapes::{Ext, Prim};
use xt_wire::cursor::{Cursor, DecodeFault};

#[inline(always)]
pub(crate) fn read_prim_part<C: Cursor>(
    cursor: &mut C,
    mode: Mode,
    prim: Prim,
) -> Result<Part, DecodeFault>
    ensures { Decodes part_of (λ o s. read_in mode o (model.prim prim) s) (C.state cursor.old) (C.state cursor.new) result }
{
    let number = read_prim(cursor, mode.most(), prim)?;
    Ok(Part::number(number))
}

#[inline(always)]
pub(crate) fn read_enum_part<C: Cursor>(
    cursor: &mut C,
    mode: Mode,
    kind: &EnumType,
    guide: &Guide,
) -> Result<Part, DecodeFault>
    requires { TellsLiterals (map literal_shape kind.now.literals) guide.now }
    ensures { Decodes part_of (λ o s. read_in mode o (model.enumeration kind.now.ext kind.now.bits (map literal_shape kind.now.literals)) s) (C.state cursor.old) (C.state cursor.new) result }
{
    let number = read_enum(cursor, mode.most(), kind.bits)?;
    Ok(guide.enum_part(kind.literals.as_slice(), number))
}

pub(crate) fn read_mask_part<C: Cursor>(
    cursor: &mut C,
    mode: Mode,
    kind: &MaskType,
) -> Result<Part, DecodeFault>
    ensures { Decodes part_of (λ o s. read_in mode o (model.bitmask kind.now.bits (map flag_shape kind.now.flags)) s) (C.state cursor.old) (C.state cursor.new) result }
{
    let number = read_mask(cursor, mode.most(), kind.bits)?;
    Ok(Part::number(number))
}

#[inline(always)]
pub(crate) fn read_text_part<C: Cursor>(
    alloc: Global,
    cursor: &mut C,
    mode: Mode,
    bound: u32,
) -> Result<Part, DecodeFault>
    ensures { Decodes part_of (λ o s. read_in mode o (model.str bound) s) (C.state cursor.old) (C.state cursor.new) result }
{
    let octets = read_text(alloc, cursor)?;
    Ok(text_from(bound, octets))
}

pub(crate) fn short(at: u64) -> DecodeFault
    ensures { result ≡ Malformed at Short }
{
    DecodeFault::Malformed {
        at,
        why: Why::Short,
    }
}

fn read_enum_number<C: Cursor>(
    cursor: &mut C,
    mode: Mode,
    kind: &EnumType,
) -> Result<i128, DecodeFault>
    ensures { Decodes (λ i. i) (λ o s. scalar_at (most mode) o (model.enumeration kind.now.ext kind.now.bits (map literal_shape kind.now.literals)) s) (C.state cursor.old) (C.state cursor.new) result }
{
    read_enum(cursor, mode.most(), kind.bits)
}

fn read_mask_number<C: Cursor>(
    cursor: &mut C,
    mode: Mode,
    kind: &MaskType,
) -> Result<i128, DecodeFault>
    ensures { Decodes (λ i. i) (λ o s. scalar_at (most mode) o (model.bitmask kind.now.bits (map flag_shape kind.now.flags)) s) (C.state cursor.old) (C.state cursor.new) result }
{
    read_mask(cursor, mode.most(), kind.bits)
}

// A type that is no number has none.
fn read_no_number<C: Cursor>(cursor: &C, mode: Mode, ty: &XType) -> Result<i128, DecodeFault>
    requires { is_number (type_shape ty.now) ≡ false }
    ensures { Decodes (λ i. i) (λ o s. scalar_at (most mode) o (type_shape ty.now) s) (C.state cursor.now) (C.state cursor.now) result }
{
    Err(short(cursor.place()))
}

/// Reads a discriminator's number. No valid union has a discriminator that is no number (Short).
#[tactic(auto, using(type_trees::proofs::Views::tree_rules))]
pub(crate) fn read_disc<C: Cursor>(
    cursor: &mut C,
    mode: Mode,
    ty: &XType,
) -> Result<i128, DecodeFault>
    ensures { Decodes (λ i. i) (λ o s. scalar_at (most mode) o (type_shape ty.now) s) (C.state cursor.old) (C.state cursor.new) result }
{
    match ty {
        XType::Prim(prim) => read_prim(cursor, mode.most(), *prim),
        XType::Enum(kind) => read_enum_number(cursor, mode, kind),
        XType::Mask(kind) => read_mask_number(cursor, mode, kind),
        XType::Alias(kind) => read_disc(cursor, mode, &kind.ty),
        XType::Str(_)
        | XType::Seq(_)
        | XType::Array(_)
        | XType::Map(_)
        | XType::Struct(_)
        | XType::Union(_) => read_no_number(cursor, mode, ty),
    }
}

// Whether a parameter's content must be used up by a value of this type: by a union or an APPENDABLE structure.
#[tactic(auto, using(type_trees::proofs::Views::tree_rules))]
fn is_open_type(ty: &XType) -> bool
    ensures { result ≡ is_open (type_shape ty.now) }
{
    match ty {
        XType::Struct(kind) => kind.ext == Ext::Appendable,
        XType::Union(_) => true,
        XType::Alias(kind) => is_open_type(&kind.ty),
        XType::Prim(_)
        | XType::Str(_)
        | XType::Enum(_)
        | XType::Mask(_)
        | XType::Seq(_)
        | XType::Array(_)
        | XType::Map(_) => false,
    }
}

/// How many octets of a parameter's content may be left behind a value of this type.
pub(crate) fn spare_of(ty: &XType) -> u64
    ensures { result ≡ spare (not (is_open (type_shape ty.now))) }
{
    if is_open_type(ty) {
        return 0;
    }
    3
}
