use type_trees::{HashId, Name};
use xt_lists::{Row, Text};
use xt_shapes::Prim;

/// What a type is named by inside an object (DDS-XTypes 1.3, 7.3.4.2). Aliases, enumerations, bitmasks, structures and unions are
/// named by the hash of their own object.
#[derive(Debug)]
pub enum TypeIdentifier {
    /// No type: a structure without a base.
    None,
    Prim(Prim),
    /// A string; a bound of 0 is none.
    Str {
        bound: u32,
    },
    /// A sequence. `ek` is 0xF3 where no hash stands in its element, else the object's own kind; `flags` say what becomes of an
    /// element that can't be constructed.
    Seq {
        ek: u8,
        flags: u16,
        bound: u32,
        element: Box<TypeIdentifier>,
    },
    Array {
        ek: u8,
        flags: u16,
        dims: Row<u32>,
        element: Box<TypeIdentifier>,
    },
    /// A map; `flags` are those of its values.
    Map {
        ek: u8,
        flags: u16,
        bound: u32,
        value: Box<TypeIdentifier>,
        key_flags: u16,
        key: Box<TypeIdentifier>,
    },
    Hash(HashId),
}

/// A literal of an enumeration.
#[derive(Debug)]
pub struct ObjectLiteral {
    pub value: i32,
    /// DEFAULT (0x40), or 0.
    pub flags: u16,
    pub name: Name,
}

/// A flag of a bitmask.
#[derive(Debug)]
pub struct ObjectFlag {
    pub position: u16,
    pub name: Name,
}

/// A structure's own member.
#[derive(Debug)]
pub struct ObjectMember {
    pub id: u32,
    /// What becomes of a value that can't be constructed, in the lowest two bits (discard 1, use default 2, trim 3); OPTIONAL
    /// 0x08, MUST_UNDERSTAND 0x10, KEY 0x20.
    pub flags: u16,
    pub ty: TypeIdentifier,
    pub name: Name,
}

/// A case of a union.
#[derive(Debug)]
pub struct ObjectCase {
    pub id: u32,
    /// As a member's, with DEFAULT 0x40 alone.
    pub flags: u16,
    pub ty: TypeIdentifier,
    pub labels: Row<i32>,
    pub name: Name,
}

/// What a named type is, each type inside by its identifier (DDS-XTypes 1.3, 7.3.4.3). An object is minimal where its name is None:
/// then each name in it is hashed and each hash in it has the kind 0xF1. Else it is complete, with full names and the kind 0xF2.
///
/// A type's flags are its extensibility (final 1, appendable 2, mutable 4), and in complete objects NESTED 0x08 and AUTOID_HASH 0x10.
#[derive(Debug)]
pub enum TypeObject {
    Alias {
        name: Option<Text>,
        related: TypeIdentifier,
    },
    Enum {
        name: Option<Text>,
        flags: u16,
        bits: u16,
        literals: Row<ObjectLiteral>,
    },
    Mask {
        name: Option<Text>,
        bits: u16,
        flags: Row<ObjectFlag>,
    },
    /// A structure with its own members; those of its base stand in the base's object.
    Struct {
        name: Option<Text>,
        flags: u16,
        base: TypeIdentifier,
        members: Row<ObjectMember>,
    },
    Union {
        name: Option<Text>,
        flags: u16,
        /// DISCARD, and KEY (0x20) where the discriminator is a key.
        disc_flags: u16,
        disc: TypeIdentifier,
        cases: Row<ObjectCase>,
    },
}

// How objects are let go: by hand, so that it is proved here once, and not in each crate that lets one go.
impl Drop for TypeIdentifier {
    #[cycle(dropping)]
    fn drop(self) {
        match self {
            TypeIdentifier::None => {}
            TypeIdentifier::Prim(_) => {}
            TypeIdentifier::Str { bound: _ } => {}
            TypeIdentifier::Seq {
                ek: _,
                flags: _,
                bound: _,
                element: _,
            } => {}
            TypeIdentifier::Array {
                ek: _,
                flags: _,
                dims: _,
                element: _,
            } => {}
            TypeIdentifier::Map {
                ek: _,
                flags: _,
                bound: _,
                value: _,
                key_flags: _,
                key: _,
            } => {}
            TypeIdentifier::Hash(_) => {}
        }
    }
}

impl Drop for ObjectLiteral {
    fn drop(self) {
        let ObjectLiteral {
            value: _,
            flags: _,
            name: _,
        } = self;
    }
}

impl Drop for ObjectFlag {
    fn drop(self) {
        let ObjectFlag {
            position: _,
            name: _,
        } = self;
    }
}

impl Drop for ObjectMember {
    fn drop(self) {
        let ObjectMember {
            id: _,
            flags: _,
            ty: _,
            name: _,
        } = self;
    }
}

impl Drop for ObjectCase {
    fn drop(self) {
        let ObjectCase {
            id: _,
            flags: _,
            ty: _,
            labels: _,
            name: _,
        } = self;
    }
}

impl Drop for TypeObject {
    fn drop(self) {
        match self {
            TypeObject::Alias {
                name: _,
                related: _,
            } => {}
            TypeObject::Enum {
                name: _,
                flags: _,
                bits: _,
                literals: _,
            } => {}
            TypeObject::Mask {
                name: _,
                bits: _,
                flags: _,
            } => {}
            TypeObject::Struct {
                name: _,
                flags: _,
                base: _,
                members: _,
            } => {}
            TypeObject::Union {
                name: _,
                flags: _,
                disc_flags: _,
                disc: _,
                cases: _,
            } => {}
        }
    }
}
