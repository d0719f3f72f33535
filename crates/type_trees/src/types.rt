use xt_lists::{Row, Text};
use xt_shapes::{Ext, Primitive, Try};

/// The name of a member, case, literal or flag.
#[derive(Debug)]
pub enum Name {
    /// The name in full.
    Full(Text),
    /// Its hash alone, as a minimal TypeObject has it: the first four octets of the name's MD5, read as a little-endian number.
    Hashed(u32),
}

/// A type (DDS-XTypes 1.3, 7.2.2). A type that came from a minimal TypeObject has no name.
#[derive(Debug)]
#[cycle(types)]
pub enum XType {
    Prim(Primitive),
    /// A string of octets with its bound; 0 is none.
    Str(u32),
    Enum(Box<EnumType>),
    Mask(Box<MaskType>),
    Seq(Box<SeqType>),
    Array(Box<ArrayType>),
    Map(Box<MapType>),
    Struct(Box<StructType>),
    Union(Box<UnionType>),
    Alias(Box<AliasType>),
}

/// What a collection holds, and what becomes of a part that can't be constructed.
#[derive(Debug, Drop)]
#[cycle(types)]
pub struct Elem {
    pub ty: XType,
    pub tc: Try,
}

/// A literal of an enumeration.
#[derive(Debug)]
pub struct Literal {
    pub name: Name,
    pub value: i32,
    pub is_default: bool,
}

/// A flag of a bitmask.
#[derive(Debug)]
pub struct Flag {
    pub name: Name,
    pub position: u8,
}

/// An enumeration (7.2.2.4.1). Its values are held in 1, 2 or 4 octets, by its bits.
#[derive(Debug)]
pub struct EnumType {
    pub name: Option<Text>,
    pub ext: Ext,
    pub bits: u8,
    pub literals: Row<Literal>,
}

/// A bitmask (7.2.2.4.1). Its values are held in 1, 2, 4 or 8 octets, by its bits.
#[derive(Debug)]
pub struct MaskType {
    pub name: Option<Text>,
    pub bits: u8,
    pub flags: Row<Flag>,
}

/// A sequence (7.2.2.4.3); a bound of 0 is none.
#[derive(Debug)]
#[cycle(types)]
pub struct SeqType {
    pub bound: u32,
    pub elem: Elem,
}

/// An array (7.2.2.4.3), whose elements stand in row-major order.
#[derive(Debug)]
#[cycle(types)]
pub struct ArrayType {
    pub dims: Row<u32>,
    pub elem: Elem,
}

/// A map (7.2.2.4.3); a bound of 0 is none.
#[derive(Debug)]
#[cycle(types)]
pub struct MapType {
    pub bound: u32,
    pub key: Elem,
    pub value: Elem,
}

/// A member of a structure (7.2.2.4.4).
#[derive(Debug, Drop)]
#[cycle(types)]
pub struct Member {
    pub id: u32,
    pub name: Name,
    pub ty: XType,
    pub tc: Try,
    pub optional: bool,
    pub must_understand: bool,
    pub key: bool,
}

/// A base of a structure: the structure with this name that has its first `count` members.
#[derive(Debug)]
pub struct Base {
    pub name: Option<Text>,
    pub nested: bool,
    pub hashed_ids: bool,
    pub count: u32,
}

/// A structure (7.2.2.4.4), with the members of its bases first. The outermost base stands first.
#[derive(Debug)]
#[cycle(types)]
pub struct StructType {
    pub name: Option<Text>,
    pub ext: Ext,
    pub nested: bool,
    pub hashed_ids: bool,
    pub bases: Row<Base>,
    pub members: Row<Member>,
}

/// A case of a union: a member that its labels select, or the default (7.2.2.4.4).
#[derive(Debug)]
#[cycle(types)]
pub struct Case {
    pub id: u32,
    pub name: Name,
    pub ty: XType,
    pub tc: Try,
    pub labels: Row<i32>,
    pub is_default: bool,
}

/// A union (7.2.2.4.4).
#[derive(Debug)]
#[cycle(types)]
pub struct UnionType {
    pub name: Option<Text>,
    pub ext: Ext,
    pub nested: bool,
    pub hashed_ids: bool,
    pub disc: XType,
    pub disc_key: bool,
    pub cases: Row<Case>,
}

/// An alias (7.2.2.4.2).
#[derive(Debug)]
#[cycle(types)]
pub struct AliasType {
    pub name: Option<Text>,
    pub ty: XType,
}

/// A type under the name by which it is found.
#[derive(Debug, Drop)]
pub struct Named {
    pub name: Text,
    pub ty: XType,
}

/// The identifier of a TypeObject: its kind, 0xF1 for a minimal and 0xF2 for a complete object, and its equivalence hash, the first 14
/// octets of the object's MD5 (7.3.4).
#[derive(Debug, Clone, Copy, PartialEq, Eq, PartialOrd, Ord, Hash)]
pub struct HashId {
    pub kind: u8,
    pub hash: [u8; 14],
}

// How types are let go: by hand, so that it is proved here once, and not in each crate that lets one go.
impl Drop for Name {
    fn drop(self) {
        match self {
            Name::Full(_) => {}
            Name::Hashed(_) => {}
        }
    }
}

impl Drop for Literal {
    fn drop(self) {
        let Literal {
            name: _,
            value: _,
            is_default: _,
        } = self;
    }
}

impl Drop for Flag {
    fn drop(self) {
        let Flag {
            name: _,
            position: _,
        } = self;
    }
}

impl Drop for EnumType {
    fn drop(self) {
        let EnumType {
            name: _,
            ext: _,
            bits: _,
            literals: _,
        } = self;
    }
}

impl Drop for MaskType {
    fn drop(self) {
        let MaskType {
            name: _,
            bits: _,
            flags: _,
        } = self;
    }
}

impl Drop for Base {
    fn drop(self) {
        let Base {
            name: _,
            nested: _,
            hashed_ids: _,
            count: _,
        } = self;
    }
}

impl Drop for XType {
    #[cycle(dropping_types)]
    fn drop(self) {
        match self {
            XType::Prim(_) => {}
            XType::Str(_) => {}
            XType::Enum(_) => {}
            XType::Mask(_) => {}
            XType::Seq(_) => {}
            XType::Array(_) => {}
            XType::Map(_) => {}
            XType::Struct(_) => {}
            XType::Union(_) => {}
            XType::Alias(_) => {}
        }
    }
}

impl Drop for SeqType {
    #[cycle(dropping_types)]
    fn drop(self) {
        let SeqType { bound: _, elem: _ } = self;
    }
}

impl Drop for ArrayType {
    #[cycle(dropping_types)]
    fn drop(self) {
        let ArrayType { dims: _, elem: _ } = self;
    }
}

impl Drop for MapType {
    #[cycle(dropping_types)]
    fn drop(self) {
        let MapType {
            bound: _,
            key: _,
            value: _,
        } = self;
    }
}

impl Drop for StructType {
    #[cycle(dropping_types)]
    fn drop(self) {
        let StructType {
            name: _,
            ext: _,
            nested: _,
            hashed_ids: _,
            bases: _,
            members: _,
        } = self;
    }
}

impl Drop for Case {
    #[cycle(dropping_types)]
    fn drop(self) {
        let Case {
            id: _,
            name: _,
            ty: _,
            tc: _,
            labels: _,
            is_default: _,
        } = self;
    }
}

impl Drop for UnionType {
    #[cycle(dropping_types)]
    fn drop(self) {
        let UnionType {
            name: _,
            ext: _,
            nested: _,
            hashed_ids: _,
            disc: _,
            disc_key: _,
            cases: _,
        } = self;
    }
}

impl Drop for AliasType {
    #[cycle(dropping_types)]
    fn drop(self) {
        let AliasType { name: _, ty: _ } = self;
    }
}
