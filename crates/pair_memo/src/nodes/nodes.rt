ghost use Rattle.std.specs.Prelude.{◌≡◌, ◌++◌, map, true, IfOk, IsTrue};
ghost use Rattle.object_formats.specs.View as view;
ghost use Rattle.object_formats.specs.Objects.{hash};
ghost use Rattle.pair_memo.specs.nodes.Seen.{shape_in, is_seen, inherited, base_parts, all_parts, object_shape, object_test, arm_in, part_in};
ghost use Rattle.pair_memo.specs.nodes.Views.{node_shape, node_seen, part_view, arm_view};

use crate::nodes::parts::{Arm, Part, arm_of, part_of};
use object_formats::{
    ObjectCase, ObjectFlag, ObjectLiteral, ObjectMember, TypeIdentifier, TypeObject,
};
use object_walks::{ext_of, has_flag, in_octet, try_of};
use std::alloc::Global;
use type_object::Pool;
use type_trees::HashId;
use xt_lists::{OutOfMemory, Row};
use xt_shapes::{Ext, Prim, Try};

/// How many aliases may stand before a type.
const MOST: u32 = 16;

/// How many bases a structure may have.
const MOST_BASES: u32 = 15;

/// What an identifier stands for behind its aliases.
#[derive(Clone, Copy)]
pub enum Node<'p> {
    Prim(Prim),
    Str(u32),
    Enum {
        ext: Ext,
        bits: u8,
        literals: &'p [ObjectLiteral],
    },
    Mask {
        bits: u8,
        flags: &'p [ObjectFlag],
    },
    Seq {
        bound: u32,
        tc: Try,
        element: &'p TypeIdentifier,
    },
    Array {
        dims: &'p [u32],
        tc: Try,
        element: &'p TypeIdentifier,
    },
    Map {
        bound: u32,
        key_tc: Try,
        key: &'p TypeIdentifier,
        tc: Try,
        value: &'p TypeIdentifier,
    },
    /// A structure with its base and its own members.
    Struct {
        ext: Ext,
        base: &'p TypeIdentifier,
        own: &'p [ObjectMember],
    },
    Union {
        ext: Ext,
        key: bool,
        disc: &'p TypeIdentifier,
        cases: &'p [ObjectCase],
    },
}

/// What the type behind the identifier's aliases is.
pub fn node_of<'p>(pool: &'p Pool, ty: &'p TypeIdentifier) -> Result<Node<'p>, OutOfMemory>
    requires { IsTrue (is_seen pool.now (view.identifier ty.now)) }
    ensures shape { IfOk result (λ n. node_shape pool.now n ≡ shape_in pool.now (view.identifier ty.now)) }
    ensures seen { IfOk result (λ n. IsTrue (node_seen pool.now n)) }
{
    node_behind(pool, MOST, ty)
}

/// The same, behind at most so many aliases. No more stand before a type that an identifier resolves to.
#[cycle(aliases)]
#[tactic(auto, using(object_formats::proofs::Views::identifier_rules, crate::proofs::OfNodes::Levels::node_rules))]
fn node_behind<'p>(
    pool: &'p Pool,
    levels: u32,
    ty: &'p TypeIdentifier,
) -> Result<Node<'p>, OutOfMemory>
    requires { IsTrue (is_seen pool.now (view.identifier ty.now)) }
    ensures shape { IfOk result (λ n. node_shape pool.now n ≡ shape_in pool.now (view.identifier ty.now)) }
    ensures seen { IfOk result (λ n. IsTrue (node_seen pool.now n)) }
{
    match ty {
        TypeIdentifier::None => Err(OutOfMemory),
        TypeIdentifier::Prim(prim) => Ok(Node::Prim(*prim)),
        TypeIdentifier::Str { bound } => Ok(Node::Str(*bound)),
        TypeIdentifier::Seq {
            flags,
            bound,
            element,
            ..
        } => Ok(Node::Seq {
            bound: *bound,
            tc: try_of(*flags),
            element,
        }),
        TypeIdentifier::Array {
            flags,
            dims,
            element,
            ..
        } => Ok(Node::Array {
            dims: dims.as_slice(),
            tc: try_of(*flags),
            element,
        }),
        TypeIdentifier::Map {
            flags,
            bound,
            value,
            key_flags,
            key,
            ..
        } => Ok(Node::Map {
            bound: *bound,
            key_tc: try_of(*key_flags),
            key,
            tc: try_of(*flags),
            value,
        }),
        TypeIdentifier::Hash(id) => named(pool, levels, id),
    }
}

/// The same of an object.
#[cycle(aliases)]
#[tactic(auto, using(crate::proofs::OfNodes::Levels::node_rules))]
fn named<'p>(pool: &'p Pool, levels: u32, id: &HashId) -> Result<Node<'p>, OutOfMemory>
    requires { IsTrue (is_seen pool.now (hash id.now)) }
    ensures shape { IfOk result (λ n. node_shape pool.now n ≡ shape_in pool.now (hash id.now)) }
    ensures seen { IfOk result (λ n. IsTrue (node_seen pool.now n)) }
{
    match pool.get(id) {
        None => Err(OutOfMemory),
        Some(object) => object_node(pool, levels, object),
    }
}

#[cycle(aliases)]
fn object_node<'p>(
    pool: &'p Pool,
    levels: u32,
    object: &'p TypeObject,
) -> Result<Node<'p>, OutOfMemory>
    requires { object_test pool.now (λ t. is_seen pool.now t) (view.object object.now) ≡ true }
    ensures shape { IfOk result (λ n. node_shape pool.now n ≡ object_shape pool.now (λ t. shape_in pool.now t) (view.object object.now)) }
    ensures seen { IfOk result (λ n. IsTrue (node_seen pool.now n)) }
{
    match object {
        TypeObject::Alias { related, .. } => {
            if levels == 0 {
                return Err(OutOfMemory);
            }
            node_behind(pool, levels - 1, related)
        }
        TypeObject::Enum {
            flags,
            bits,
            literals,
            ..
        } => Ok(Node::Enum {
            ext: ext_of(*flags),
            bits: in_octet(*bits),
            literals: literals.as_slice(),
        }),
        TypeObject::Mask { bits, flags, .. } => Ok(Node::Mask {
            bits: in_octet(*bits),
            flags: flags.as_slice(),
        }),
        TypeObject::Struct {
            flags,
            base,
            members,
            ..
        } => Ok(Node::Struct {
            ext: ext_of(*flags),
            base,
            own: members.as_slice(),
        }),
        TypeObject::Union {
            flags,
            disc_flags,
            disc,
            cases,
            ..
        } => Ok(Node::Union {
            ext: ext_of(*flags),
            key: has_flag(*disc_flags, 0x20),
            disc,
            cases: cases.as_slice(),
        }),
    }
}

/// Appends the members.
fn push_own<'p>(row: &mut Row<Part<'p>>, own: &'p [ObjectMember]) -> Result<(), OutOfMemory>
    ensures { IfOk result (λ u. map part_view row.new ≡ map part_view row.old ++ map part_in (map view.member own.now)) }
{
    for member in own {
        row.push(part_of(member))?;
    }
    Ok(())
}

/// Appends the members that a structure has from its base; there may be `room` bases.
#[cycle(bases)]
#[tactic(auto, using(object_formats::proofs::Views::identifier_rules, crate::proofs::OfNodes::Levels::base_rules))]
fn push_inherited<'p>(
    pool: &'p Pool,
    room: u32,
    row: &mut Row<Part<'p>>,
    base: &'p TypeIdentifier,
) -> Result<(), OutOfMemory>
    ensures { IfOk result (λ u. map part_view row.new ≡ map part_view row.old ++ inherited room pool.now (view.identifier base.now)) }
{
    match base {
        TypeIdentifier::Hash(id) => {
            if room == 0 {
                return Err(OutOfMemory);
            }
            match pool.get(id) {
                None => Err(OutOfMemory),
                Some(object) => push_base(pool, room - 1, row, object),
            }
        }
        TypeIdentifier::None => Ok(()),
        TypeIdentifier::Prim(_)
        | TypeIdentifier::Str { .. }
        | TypeIdentifier::Seq { .. }
        | TypeIdentifier::Array { .. }
        | TypeIdentifier::Map { .. } => Err(OutOfMemory),
    }
}

/// Appends all members of a base; it may have `room` bases.
#[cycle(bases)]
#[tactic(auto, using(std::proofs::Common::append_assoc))]
fn push_base<'p>(
    pool: &'p Pool,
    room: u32,
    row: &mut Row<Part<'p>>,
    object: &'p TypeObject,
) -> Result<(), OutOfMemory>
    ensures { IfOk result (λ u. map part_view row.new ≡ map part_view row.old ++ base_parts (λ t. inherited room pool.now t) (Some (view.object object.now))) }
{
    match object {
        TypeObject::Struct { base, members, .. } => {
            push_inherited(pool, room, row, base)?;
            push_own(row, members.as_slice())
        }
        TypeObject::Alias { .. }
        | TypeObject::Enum { .. }
        | TypeObject::Mask { .. }
        | TypeObject::Union { .. } => Err(OutOfMemory),
    }
}

/// The members of a structure, those of its base in front of its own.
pub fn members_of<'p>(
    alloc: Global,
    pool: &'p Pool,
    base: &'p TypeIdentifier,
    own: &'p [ObjectMember],
) -> Result<Row<Part<'p>>, OutOfMemory>
    ensures { IfOk result (λ row. map part_view row ≡ all_parts pool.now (view.identifier base.now) (map view.member own.now)) }
{
    let mut row = Row::new(alloc);
    push_inherited(pool, MOST_BASES, &mut row, base)?;
    push_own(&mut row, own)?;
    Ok(row)
}

/// The cases of a union.
pub fn cases_of<'p>(alloc: Global, cases: &'p [ObjectCase]) -> Result<Row<Arm<'p>>, OutOfMemory>
    ensures { IfOk result (λ row. map arm_view row ≡ map arm_in (map view.case cases.now)) }
{
    let mut row = Row::new(alloc);
    for case in cases {
        row.push(arm_of(case))?;
    }
    Ok(row)
}
