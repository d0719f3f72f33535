ghost use Rattle.std.specs.Prelude.{◌≡◌, [], IfOk};
ghost use Rattle.object_walks.specs.Resolving as spec;
ghost use Rattle.object_walks.specs.Walking.{standing};

use crate::leaves::has_flag;
use std::alloc::Global;
use type_trees::{Base, Member};
use type_values::copy_optional_text;
use xt_lists::{OutOfMemory, Row, Text};

/// What a structure has so far: its bases, the outermost first, and the members of these.
#[derive(Drop)]
pub(crate) struct StructureParts {
    pub(crate) bases: Row<Base>,
    pub(crate) members: Row<Member>,
}

impl StructureParts {
    pub(crate) fn new(alloc: Global) -> StructureParts
        ensures { standing result ≡ ([], []) }
    {
        StructureParts {
            bases: Row::new(alloc),
            members: Row::new(alloc),
        }
    }

    /// Appends a base that has all the members so far.
    pub(crate) fn push_base(
        &mut self,
        alloc: Global,
        name: &Option<Text>,
        flags: u16,
    ) -> Result<(), OutOfMemory>
        ensures { IfOk result (λ u. standing self.new ≡ spec.based name.now flags (standing self.old).0 (standing self.old).1) }
    {
        let Ok(count) = u32::try_from(self.members.len()) else {
            return Err(OutOfMemory);
        };
        let name = copy_optional_text(alloc, name)?;
        self.bases.push(Base {
            name,
            nested: has_flag(flags, 0x08),
            hashed_ids: has_flag(flags, 0x10),
            count,
        })
    }
}
