ghost use Rattle.std.specs.Prelude.{◌≡◌, IfOk};
ghost use Rattle.std.specs.Option.{option_map};
ghost use Rattle.type_trees.specs.Trees.{structure};
ghost use Rattle.type_trees.specs.View.{struct_tree, members_tree};
ghost use Rattle.type_values.specs.BaseTrees.{base_tree};

use crate::copies::{copy_bases, copy_members, copy_optional_text};
use std::alloc::Global;
use type_trees::{Base, Member, StructType};
use xt_lists::{OutOfMemory, Row, Text};
use xt_shapes::Ext;

/// The base of a structure: the structure with its last base's name and flags, its extensibility and its first members, and with the
/// bases before the last (DDS-XTypes 1.3, 7.2.2.4.4). None where it has no base.
pub fn base_of(alloc: Global, structure: &StructType) -> Result<Option<StructType>, OutOfMemory>
    ensures { IfOk result (λ found. option_map (λ base. struct_tree base) found ≡ base_tree (struct_tree structure.now)) }
{
    let Some((last, before)) = structure.bases.as_slice().split_last() else {
        return Ok(None);
    };
    let own = structure.members.as_slice();
    let count = (last.count as usize).min(own.len());
    Ok(Some(structure_of(
        copy_optional_text(alloc, &last.name)?,
        structure.ext,
        last,
        copy_bases(alloc, before)?,
        copy_members(alloc, &own[..count])?,
    )))
}

// The structure with this base's flags.
#[tactic(auto, using(type_trees::proofs::Views::tree_rules))]
fn structure_of(
    name: Option<Text>,
    ext: Ext,
    base: &Base,
    bases: Row<Base>,
    members: Row<Member>,
) -> StructType
    ensures { struct_tree result ≡ structure (record { name = name; ext = ext; nested = base.now.nested; hashed_ids = base.now.hashed_ids; bases = bases }) (members_tree members) }
{
    StructType {
        name,
        ext,
        nested: base.nested,
        hashed_ids: base.hashed_ids,
        bases,
        members,
    }
}
