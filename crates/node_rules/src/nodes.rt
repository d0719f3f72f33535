ghost use Rattle.std.specs.Prelude.{◌≡◌, ◌≤◌, length};
ghost use Rattle.xt_shapes.specs.Lists.{all};
ghost use Rattle.type_trees.specs.Bridge.{type_shape};
ghost use Rattle.node_rules.specs.Names as name;
ghost use Rattle.xt_shapes.specs.NodeRules as node;
ghost use Rattle.node_rules.specs.Rules as spec;
ghost use Rattle.node_rules.specs.Table as table;
ghost use Rattle.type_trees.specs.View.{tree, members_tree, cases_tree};
ghost use Rattle.type_trees.specs.declared.types.StructType.{out-StructType};
ghost use Rattle.type_trees.specs.declared.types.UnionType.{out-UnionType};

use crate::keys::{counted_keyable, keys_discard};
use crate::kinds::{is_discriminator, is_map_key};
use crate::labels::labels_hold;
use crate::literals::{enum_fits, mask_fits};
use crate::numbered::{hashes_apart, ids_fit, names_fit};
use crate::octets::scope_fits;
use crate::weights::is_light;
use type_trees::{
    ArrayType, Base, EnumType, MapType, MaskType, SeqType, StructType, UnionType, XType,
};
use xt_shapes::Ext;

fn all_positive(dims: &[u32]) -> bool
    ensures { result ≡ all spec.is_positive dims.now }
{
    for dim in dims {
        if *dim < 1 {
            return false;
        }
    }
    true
}

/// Whether there are 1 to 8 dimensions, each at least 1.
pub fn dims_fit(dims: &[u32]) -> bool
    ensures { result ≡ node.dims_fit dims.now }
{
    dims.len() > 0 && dims.len() <= 8 && all_positive(dims)
}

/// Whether the names of bases are names.
fn scopes_fit(bases: &[Base]) -> bool
    ensures { result ≡ all (λ b. name.scope_fits b.name) bases.now }
{
    for base in bases {
        if !scope_fits(&base.name) {
            return false;
        }
    }
    true
}

fn counts_rise(bases: &[Base], members: usize) -> bool
    ensures { result ≡ spec.counts_rise 0 bases.now members }
{
    let mut before = 0;
    for base in bases {
        if base.count <= before || base.count as usize >= members {
            return false;
        }
        before = base.count;
    }
    true
}

/// Whether there are at most 15 bases, whose counts rise from 1 to below the number of members.
fn bases_fit(bases: &[Base], members: usize) -> bool
    ensures { result ≡ spec.bases_fit bases.now members }
{
    bases.len() <= 15 && counts_rise(bases, members)
}

fn enum_names(kind: &EnumType) -> bool
    ensures { result ≡ table.enum_names kind.now.name kind.now.literals }
{
    scope_fits(&kind.name) && names_fit(kind.literals.as_slice())
}

fn mask_names(kind: &MaskType) -> bool
    ensures { result ≡ table.mask_names kind.now.name kind.now.flags }
{
    scope_fits(&kind.name) && names_fit(kind.flags.as_slice())
}

#[tactic(auto, using(type_trees::proofs::Views::tree_rules, crate::proofs::Members::member_names_fit))]
fn struct_names(kind: &StructType) -> bool
    ensures { let s = out-StructType kind.now in result ≡ table.struct_names (table.struct_head kind.now) (members_tree s.members) }
{
    scope_fits(&kind.name)
        && scopes_fit(kind.bases.as_slice())
        && names_fit(kind.members.as_slice())
}

#[tactic(auto, using(type_trees::proofs::Views::tree_rules, crate::proofs::Members::case_names_fit))]
fn union_names(kind: &UnionType) -> bool
    ensures { let u = out-UnionType kind.now in result ≡ table.union_names (table.union_head kind.now) (cases_tree u.cases) }
{
    scope_fits(&kind.name) && names_fit(kind.cases.as_slice())
}

/// The first rule that doesn't hold.
fn first_broken(rules: &[(u8, bool)]) -> Option<u8>
    ensures { result ≡ table.first_broken rules.now }
{
    for (rule, holds) in rules {
        if !*holds {
            return Some(*rule);
        }
    }
    None
}

fn enum_fault(kind: &EnumType) -> Option<u8>
    ensures { result ≡ table.first_broken (table.enum_rules kind.now.name kind.now.ext kind.now.bits kind.now.literals) }
{
    let literals = kind.literals.as_slice();
    let names = enum_names(kind);
    let hashes = hashes_apart(literals);
    let filled = literals.len() > 0;
    let fits = enum_fits(kind);
    first_broken(&[(1, names), (2, hashes), (4, filled), (5, fits)])
}

fn mask_fault(kind: &MaskType) -> Option<u8>
    ensures { result ≡ table.first_broken (table.mask_rules kind.now.name kind.now.bits kind.now.flags) }
{
    let flags = kind.flags.as_slice();
    let names = mask_names(kind);
    let hashes = hashes_apart(flags);
    let filled = flags.len() > 0;
    let fits = mask_fits(kind);
    first_broken(&[(1, names), (2, hashes), (4, filled), (6, fits)])
}

fn struct_fault(kind: &StructType) -> Option<u8>
    ensures { let s = out-StructType kind.now in result ≡ table.first_broken (table.struct_rules (table.struct_head kind.now) (members_tree s.members)) }
{
    let members = kind.members.as_slice();
    let names = struct_names(kind);
    let hashes = hashes_apart(members);
    let ids = ids_fit(members);
    let filled = members.len() > 0;
    let keyable = counted_keyable(true, members);
    let discard = keys_discard(members);
    let bases = bases_fit(kind.bases.as_slice(), members.len());
    first_broken(&[
        (1, names),
        (2, hashes),
        (3, ids),
        (4, filled),
        (12, keyable),
        (13, discard),
        (18, bases),
    ])
}

fn union_fault(kind: &UnionType) -> Option<u8>
    ensures { let u = out-UnionType kind.now in result ≡ table.first_broken (table.union_rules (table.union_head kind.now) (type_shape u.disc) (cases_tree u.cases)) }
{
    let cases = kind.cases.as_slice();
    let names = union_names(kind);
    let hashes = hashes_apart(cases);
    let ids = ids_fit(cases);
    let filled = cases.len() > 0;
    let closed = kind.ext != Ext::Mutable;
    let disc = is_discriminator(&kind.disc);
    let labels = labels_hold(&kind.disc, cases);
    first_broken(&[
        (1, names),
        (2, hashes),
        (3, ids),
        (4, filled),
        (9, closed),
        (10, disc),
        (11, labels),
    ])
}

fn map_fault(kind: &MapType) -> Option<u8>
    ensures { result ≡ table.first_broken (table.map_rules (type_shape kind.now.key.ty) (type_shape kind.now.value.ty)) }
{
    let key = is_map_key(&kind.key.ty);
    let light = is_light(&kind.key.ty) && is_light(&kind.value.ty);
    first_broken(&[(8, key), (14, light)])
}

fn array_fault(kind: &ArrayType) -> Option<u8>
    ensures { result ≡ table.first_broken (table.array_rules kind.now.dims (type_shape kind.now.elem.ty)) }
{
    let dims = dims_fit(kind.dims.as_slice());
    let light = is_light(&kind.elem.ty);
    first_broken(&[(7, dims), (14, light)])
}

/// The first rule that fails at the type's own node.
#[tactic(auto, using(type_trees::proofs::Views::tree_rules), unfolding(crate::specs::Table::failing))]
pub fn failing_rule(ty: &XType) -> Option<u8>
    ensures { result ≡ table.failing (tree ty.now) }
{
    match ty {
        XType::Prim(_) | XType::Str(_) => None,
        XType::Enum(kind) => enum_fault(kind),
        XType::Mask(kind) => mask_fault(kind),
        XType::Seq(kind) => first_broken(&[(14, is_light(&kind.elem.ty))]),
        XType::Array(kind) => array_fault(kind),
        XType::Map(kind) => map_fault(kind),
        XType::Struct(kind) => struct_fault(kind),
        XType::Union(kind) => union_fault(kind),
        XType::Alias(kind) => first_broken(&[(1, scope_fits(&kind.name))]),
    }
}
