use crate::uses::Used;
use type_trees::{EnumType, MaskType, Name};
use xt_lists::{Row, Text};
use xt_shapes::{Ext, Try};

/// A member of a structure, as its definition has it.
#[derive(Debug, Drop)]
pub struct UsedMember {
    pub id: u32,
    pub name: Name,
    pub used: Used,
    pub tc: Try,
    pub optional: bool,
    pub must_understand: bool,
    pub key: bool,
}

/// A case of a union, as its definition has it.
#[derive(Debug, Drop)]
pub struct UsedCase {
    pub id: u32,
    pub name: Name,
    pub used: Used,
    pub tc: Try,
    pub labels: Row<i32>,
    pub is_default: bool,
}

/// A structure: the place of its base, and its own members.
#[derive(Debug, Drop)]
pub struct StructDefinition {
    pub ext: Ext,
    pub nested: bool,
    pub hashed_ids: bool,
    pub base: Option<usize>,
    pub members: Row<UsedMember>,
}

/// A union.
#[derive(Debug, Drop)]
pub struct UnionDefinition {
    pub ext: Ext,
    pub nested: bool,
    pub hashed_ids: bool,
    pub disc: Used,
    pub disc_key: bool,
    pub cases: Row<UsedCase>,
}

/// What a definition says besides the type's name.
#[derive(Debug)]
pub enum Definition {
    Enum(EnumType),
    Mask(MaskType),
    Struct(StructDefinition),
    Union(UnionDefinition),
    Alias(Used),
}

// By hand, so that it is proved here once, and not in each crate that lets one go.
impl Drop for Definition {
    fn drop(self) {
        match self {
            Definition::Enum(_) => {}
            Definition::Mask(_) => {}
            Definition::Struct(_) => {}
            Definition::Union(_) => {}
            Definition::Alias(_) => {}
        }
    }
}

/// A type that a text declares, under its full name.
#[derive(Debug, Drop)]
pub struct Declaration {
    pub name: Text,
    pub definition: Definition,
}
