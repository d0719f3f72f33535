ghost use Rattle.std.specs.Prelude.{◌≡◌, ◌≤◌, [], map, Result, MatchResult};
ghost use Rattle.type_trees.specs.View.{tree, elem_tree, member_tree, case_tree};
ghost use Rattle.object_formats.specs.View as view;
ghost use Rattle.object_walks.specs.Resolving as spec;
ghost use Rattle.object_walks.specs.Walking.{Answers, Finds, below, within, ids, standing};

use crate::inside::Inside;
use crate::leaves::{ext_of, has_ext, try_of};
use crate::nodes::{
    alias_of, array_of, enum_of, map_of, mask_of, push_case, push_member, sequence_of,
    structure_of, union_of,
};
use crate::place::Place;
use crate::stops::{Stop, at_node, beneath};
use crate::structure_parts::StructureParts;
use object_formats::{ObjectCase, ObjectMember, TypeIdentifier, TypeObject};
use std::alloc::Global;
use type_object::Pool;
use type_trees::{Case, Elem, HashId, Member, XType};
use xt_lists::{Row, Text};
use xt_shapes::{Ext, Step};

const MOST_NODES: u32 = 65_536;

const MOST_BASES: u32 = 15;

/// The object of an identifier that stands inside others.
fn follow<'p>(pool: &'p Pool, inside: &Inside<'_>, id: &HashId) -> Result<&'p TypeObject, Stop>
    ensures { Answers (λ object. view.object object.now) result (spec.follow pool.now (ids inside.now) id.now) }
{
    if inside.has(id) {
        return Err(Stop::Recursive(*id));
    }
    match pool.get(id) {
        Some(object) => Ok(object),
        None => Err(Stop::Missing(*id)),
    }
}

impl Place<'_> {
    /// The type of an identifier one level below.
    #[cycle(walk)]
    #[tactic(auto, using(crate::proofs::Walked::walk_rules))]
    fn walk(&self, nodes: &mut u32, ty: &TypeIdentifier) -> Result<XType, Stop>
        ensures { Finds tree result nodes.new (below self.now (within self.now) (view.identifier ty.now) nodes.old) }
    {
        if self.levels == 0 {
            return Err(at_node(15));
        }
        if MOST_NODES <= *nodes {
            return Err(Stop::OfWhole(16));
        }
        *nodes += 1;
        let place = Place {
            alloc: self.alloc,
            pool: self.pool,
            inside: self.inside,
            levels: self.levels - 1,
        };
        place.node(nodes, ty)
    }

    /// The type of an identifier at this place.
    #[cycle(walk)]
    #[tactic(auto, using(type_trees::proofs::Views::tree_rules, object_formats::proofs::Views::identifier_rules, crate::proofs::Ended::ended_rules))]
    fn node(&self, nodes: &mut u32, ty: &TypeIdentifier) -> Result<XType, Stop>
        ensures { Finds tree result nodes.new (spec.node self.now.pool.now (below self.now) (within self.now) (view.identifier ty.now) nodes.old) }
    {
        match ty {
            TypeIdentifier::None => Err(Stop::OfWhole(17)),
            TypeIdentifier::Prim(prim) => Ok(XType::Prim(*prim)),
            TypeIdentifier::Str { bound } => Ok(XType::Str(*bound)),
            TypeIdentifier::Seq {
                flags,
                bound,
                element,
                ..
            } => {
                let elem = self.part(Step::Element, nodes, *flags, element)?;
                Ok(sequence_of(self.alloc, *bound, elem)?)
            }
            TypeIdentifier::Array {
                flags,
                dims,
                element,
                ..
            } => {
                let elem = self.part(Step::Element, nodes, *flags, element)?;
                Ok(array_of(self.alloc, dims, elem)?)
            }
            TypeIdentifier::Map {
                flags,
                bound,
                value,
                key_flags,
                key,
                ..
            } => {
                let value = self.part(Step::Entry, nodes, *flags, value)?;
                let key = self.part(Step::Key, nodes, *key_flags, key)?;
                Ok(map_of(self.alloc, *bound, key, value)?)
            }
            TypeIdentifier::Hash(id) => self.named(nodes, id),
        }
    }

    /// A part a step below, with what its flags say.
    #[cycle(walk)]
    #[tactic(auto, using(type_trees::proofs::Views::tree_rules, crate::proofs::Ended::ended_rules, crate::proofs::Short::walk_short))]
    fn part(
        &self,
        step: Step,
        nodes: &mut u32,
        flags: u16,
        ty: &TypeIdentifier,
    ) -> Result<Elem, Stop>
        ensures { Finds elem_tree result nodes.new (spec.part (below self.now) step (within self.now) flags (view.identifier ty.now) nodes.old) }
    {
        match self.walk(nodes, ty) {
            Ok(ty) => Ok(Elem {
                ty,
                tc: try_of(flags),
            }),
            Err(stop) => Err(beneath(step, stop)),
        }
    }

    /// The type that the identifier of an object stands for.
    #[cycle(walk)]
    #[tactic(auto, using(crate::proofs::Ended::ended_rules))]
    fn named(&self, nodes: &mut u32, id: &HashId) -> Result<XType, Stop>
        ensures { Finds tree result nodes.new (spec.named self.now.pool.now (below self.now) (within self.now) id.now nodes.old) }
    {
        let object = follow(self.pool, self.inside, id)?;
        let inside = Inside::Of {
            id: *id,
            within: self.inside,
        };
        let place = Place {
            alloc: self.alloc,
            pool: self.pool,
            inside: &inside,
            levels: self.levels,
        };
        place.object(nodes, object)
    }

    #[cycle(walk)]
    #[tactic(auto, using(crate::proofs::Ended::ended_rules))]
    fn object(&self, nodes: &mut u32, object: &TypeObject) -> Result<XType, Stop>
        ensures { Finds tree result nodes.new (spec.of_object self.now.pool.now (below self.now) (within self.now) (view.object object.now) nodes.old) }
    {
        match object {
            TypeObject::Alias { name, related } => {
                let ty = self.walk(nodes, related)?;
                Ok(alias_of(self.alloc, name, ty)?)
            }
            TypeObject::Enum {
                name,
                flags,
                bits,
                literals,
            } => Ok(enum_of(self.alloc, name, *flags, *bits, literals.as_slice())?),
            TypeObject::Mask { name, bits, flags } => {
                Ok(mask_of(self.alloc, name, *bits, flags.as_slice())?)
            }
            TypeObject::Struct {
                name,
                flags,
                base,
                members,
            } => self.structure(nodes, name, *flags, base, members.as_slice()),
            TypeObject::Union {
                name,
                flags,
                disc_flags,
                disc,
                cases,
            } => {
                let Elem { ty: disc, tc: _ } = self.part(Step::Disc, nodes, *disc_flags, disc)?;
                let mut row = Row::new(self.alloc);
                self.cases(nodes, cases.as_slice(), &mut row)?;
                Ok(union_of(self.alloc, name, *flags, *disc_flags, disc, row)?)
            }
        }
    }

    /// A structure, with the members of its base in front of its own.
    #[cycle(walk)]
    #[tactic(auto, using(crate::proofs::Ended::ended_rules))]
    fn structure(
        &self,
        nodes: &mut u32,
        name: &Option<Text>,
        flags: u16,
        base: &TypeIdentifier,
        members: &[ObjectMember],
    ) -> Result<XType, Stop>
        ensures { Finds tree result nodes.new (spec.structure self.now.pool.now (below self.now) (within self.now) name.now flags (view.identifier base.now) (map view.member members.now) nodes.old) }
    {
        let mut parts = StructureParts::new(self.alloc);
        self.base(MOST_BASES, nodes, ext_of(flags), base, &mut parts)?;
        self.members(nodes, members, &mut parts.members)?;
        Ok(structure_of(self.alloc, name, flags, parts)?)
    }

    /// What a structure of extensibility `ext` has from its base; there may be `room` bases.
    #[cycle(walk)]
    #[tactic(auto, using(object_formats::proofs::Views::identifier_rules, crate::proofs::Ended::ended_rules, crate::proofs::Walked::base_rules))]
    fn base(
        &self,
        room: u32,
        nodes: &mut u32,
        ext: Ext,
        base: &TypeIdentifier,
        parts: &mut StructureParts,
    ) -> Result<(), Stop>
        requires { standing parts.old ≡ ([], []) }
        ensures { Finds (λ u. standing parts.new) result nodes.new (spec.bases room self.now.pool.now (below self.now) ext (within self.now) (view.identifier base.now) nodes.old) }
    {
        match base {
            TypeIdentifier::None => Ok(()),
            TypeIdentifier::Hash(id) => {
                if room == 0 {
                    return Err(at_node(18));
                }
                let object = follow(self.pool, self.inside, id)?;
                let inside = Inside::Of {
                    id: *id,
                    within: self.inside,
                };
                let place = Place {
                    alloc: self.alloc,
                    pool: self.pool,
                    inside: &inside,
                    levels: self.levels,
                };
                place.based(room - 1, nodes, ext, object, parts)
            }
            TypeIdentifier::Prim(_)
            | TypeIdentifier::Str { .. }
            | TypeIdentifier::Seq { .. }
            | TypeIdentifier::Array { .. }
            | TypeIdentifier::Map { .. } => Err(Stop::OfWhole(17)),
        }
    }

    /// What a structure of extensibility `ext` has from a base with this object; that may have `room` bases.
    #[cycle(walk)]
    #[tactic(auto, using(crate::proofs::Ended::ended_rules))]
    fn based(
        &self,
        room: u32,
        nodes: &mut u32,
        ext: Ext,
        object: &TypeObject,
        parts: &mut StructureParts,
    ) -> Result<(), Stop>
        requires { standing parts.old ≡ ([], []) }
        ensures { Finds (λ u. standing parts.new) result nodes.new (spec.of_base (below self.now) (spec.bases room self.now.pool.now (below self.now) ext (within self.now)) (within self.now) ext (view.object object.now) nodes.old) }
    {
        match object {
            TypeObject::Struct {
                name,
                flags,
                base,
                members,
            } => {
                if !has_ext(*flags, ext) {
                    return Err(Stop::OfWhole(17));
                }
                self.base(room, nodes, ext, base, parts)?;
                self.members(nodes, members.as_slice(), &mut parts.members)?;
                Ok(parts.push_base(self.alloc, name, *flags)?)
            }
            TypeObject::Alias { .. }
            | TypeObject::Enum { .. }
            | TypeObject::Mask { .. }
            | TypeObject::Union { .. } => Err(Stop::OfWhole(17)),
        }
    }

    /// Appends the members.
    #[cycle(walk)]
    #[tactic(auto, using(crate::proofs::Eached::loop_rules, crate::proofs::Ended::ended_rules))]
    fn members(
        &self,
        nodes: &mut u32,
        members: &[ObjectMember],
        row: &mut Row<Member>,
    ) -> Result<(), Stop>
        ensures { Finds (λ u. map member_tree row.new) result nodes.new (spec.behind (map member_tree row.old) (spec.members (below self.now) (within self.now) (map view.member members.now) nodes.old)) }
    {
        for member in members {
            let Elem { ty, tc: _ } = self.part(
                Step::Member(member.id),
                nodes,
                member.flags,
                &member.ty,
            )?;
            push_member(self.alloc, row, member, ty)?;
        }
        Ok(())
    }

    /// Appends the cases.
    #[cycle(walk)]
    #[tactic(auto, using(crate::proofs::Eached::loop_rules, crate::proofs::Ended::ended_rules))]
    fn cases(&self, nodes: &mut u32, cases: &[ObjectCase], row: &mut Row<Case>) -> Result<(), Stop>
        ensures { Finds (λ u. map case_tree row.new) result nodes.new (spec.behind (map case_tree row.old) (spec.cases (below self.now) (within self.now) (map view.case cases.now) nodes.old)) }
    {
        for case in cases {
            let Elem { ty, tc: _ } = self.part(Step::Member(case.id), nodes, case.flags, &case.ty)?;
            push_case(self.alloc, row, case, ty)?;
        }
        Ok(())
    }
}

/// The type of an identifier that stands in no other.
pub(crate) fn walk_from(alloc: Global, pool: &Pool, id: &HashId) -> Result<XType, Stop>
    ensures { Answers tree result (spec.walked pool.now id.now) }
{
    let mut nodes = 1;
    let place = Place {
        alloc,
        pool,
        inside: &Inside::Nothing,
        levels: 15,
    };
    place.named(&mut nodes, id)
}
