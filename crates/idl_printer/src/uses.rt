ghost use Rattle.std.specs.Prelude.{◌≡◌, ◌++◌, codes, OnOk};
ghost use Rattle.type_trees.specs.View.{tree, elem_tree};
ghost use Rattle.idl_printer.specs.Words.{try_text};
ghost use Rattle.idl_printer.specs.Uses as spec;

use crate::words::{last_bound, number, prim_word, string_type, try_word};
use type_trees::{Elem, XType};
use xt_lists::{OutOfMemory, Text};

/// A type by its full name.
#[tactic(auto, using(crate::proofs::Joins::joins))]
pub(crate) fn reference(name: &Option<Text>, out: &mut Text) -> Result<(), OutOfMemory>
    ensures { OnOk result (out.new ≡ out.old ++ spec.reference_text name.now) }
{
    match name {
        None => Ok(()),
        Some(full) => {
            out.append(b"::")?;
            out.append(full.octets())
        }
    }
}

#[cycle(uses)]
#[tactic(auto, using(crate::proofs::Joins::joins, type_trees::proofs::Views::tree_rules))]
fn element(elem: &Elem, out: &mut Text) -> Result<(), OutOfMemory>
    ensures { OnOk result (out.new ≡ out.old ++ (try_text (elem_tree elem.now).0 ++ spec.type_text (elem_tree elem.now).1)) }
{
    out.append(try_word(elem.tc))?;
    used_type(&elem.ty, out)
}

/// A type where it is used.
#[cycle(uses)]
#[tactic(auto, using(crate::proofs::Joins::joins, type_trees::proofs::Views::tree_rules))]
pub(crate) fn used_type(ty: &XType, out: &mut Text) -> Result<(), OutOfMemory>
    ensures { OnOk result (out.new ≡ out.old ++ spec.type_text (tree ty.now)) }
{
    match ty {
        XType::Prim(kind) => out.append(prim_word(*kind)),
        XType::Str(bound) => string_type(out, *bound),
        XType::Seq(kind) => {
            out.append(b"sequence<")?;
            element(&kind.elem, out)?;
            last_bound(out, kind.bound)
        }
        XType::Map(kind) => {
            out.append(b"map<")?;
            element(&kind.key, out)?;
            out.append(b", ")?;
            element(&kind.value, out)?;
            last_bound(out, kind.bound)
        }
        XType::Array(_) => Ok(()),
        XType::Enum(kind) => reference(&kind.name, out),
        XType::Mask(kind) => reference(&kind.name, out),
        XType::Struct(kind) => reference(&kind.name, out),
        XType::Union(kind) => reference(&kind.name, out),
        XType::Alias(kind) => reference(&kind.name, out),
    }
}

#[tactic(auto, using(crate::proofs::Joins::joins))]
fn dimension(out: &mut Text, dim: u32) -> Result<(), OutOfMemory>
    ensures { OnOk result (out.new ≡ out.old ++ spec.dimension_text dim) }
{
    out.append(b"[")?;
    number(out, dim)?;
    out.append(b"]")
}

#[tactic(auto, using(crate::proofs::Joins::joins))]
fn dimensions(out: &mut Text, dims: &[u32]) -> Result<(), OutOfMemory>
    ensures { OnOk result (out.new ≡ out.old ++ spec.dims_text dims.now) }
{
    for dim in dims {
        dimension(out, *dim)?;
    }
    Ok(())
}

/// A name behind its type.
#[tactic(auto, using(crate::proofs::Joins::joins))]
fn behind_type(ty: &XType, name: &[u8], out: &mut Text) -> Result<(), OutOfMemory>
    ensures { OnOk result (out.new ≡ out.old ++ (spec.type_text (tree ty.now) ++ codes " " ++ name.now)) }
{
    used_type(ty, out)?;
    out.append(b" ")?;
    out.append(name)
}

/// Type, name and dimensions.
#[tactic(auto, using(crate::proofs::Joins::joins, type_trees::proofs::Views::tree_rules))]
pub(crate) fn declarator(ty: &XType, name: &[u8], out: &mut Text) -> Result<(), OutOfMemory>
    ensures { OnOk result (out.new ≡ out.old ++ spec.declarator_text (tree ty.now) name.now) }
{
    match ty {
        XType::Array(kind) => {
            behind_type(&kind.elem.ty, name, out)?;
            dimensions(out, kind.dims.as_slice())
        }
        XType::Prim(_)
        | XType::Str(_)
        | XType::Enum(_)
        | XType::Mask(_)
        | XType::Seq(_)
        | XType::Map(_)
        | XType::Struct(_)
        | XType::Union(_)
        | XType::Alias(_) => behind_type(ty, name, out),
    }
}
