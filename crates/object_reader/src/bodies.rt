ghost use Rattle.std.specs.Prelude.{◌≡◌, ◌≤◌, IfOk, OnOk, length, map, slice_index, true};
ghost use Rattle.type_trees.specs.Ids.{is_object_kind};
ghost use Rattle.object_formats.specs.Format.{num, both, before, behind, counted, tagged};
ghost use Rattle.object_formats.specs.declared.faults.ObjectRule.TheVariants as rule;
ghost use Rattle.object_formats.specs.Tables as spec;
ghost use Rattle.object_formats.specs.View as view;
ghost use Rattle.object_formats.specs.View.{Answers};
ghost use Rattle.object_reader.specs.Reading.{Reads, ahead};

use crate::reader::Reader;
use object_formats::{
    Flags, Kind, ObjectCase, ObjectFault, ObjectFlag, ObjectLiteral, ObjectMember, ObjectRule,
    TypeIdentifier, TypeObject, own_kind,
};
use std::alloc::Global;
use xt_lists::{Row, Text};

const LIMIT: usize = 131_072;

fn kind_of(octet: u8) -> Option<Kind>
    ensures { result ≡ spec.kind_of octet }
{
    match octet {
        0x30 => Some(Kind::Alias),
        0x40 => Some(Kind::Enum),
        0x41 => Some(Kind::Mask),
        0x51 => Some(Kind::Struct),
        0x52 => Some(Kind::Union),
        _ => None,
    }
}

fn complete_of(octet: u8) -> Option<bool>
    ensures { result ≡ spec.complete_of octet }
{
    match octet {
        0xF1 => Some(false),
        0xF2 => Some(true),
        _ => None,
    }
}

impl<'a> Reader<'a> {
    /// The structure that a structure stands on, if any.
    #[tactic(auto, using(object_formats::proofs::Views::identifier_rules), unfolding(object_formats::specs::Tables::base))]
    fn base(&mut self, complete: bool) -> Result<TypeIdentifier, ObjectFault>
        ensures { Reads view.identifier (spec.base complete) (ahead self.old) result (ahead self.new) }
    {
        let place = self.at;
        let octet = self.octet()?;
        if octet == 0 {
            return Ok(TypeIdentifier::None);
        }
        if octet != own_kind(complete) {
            return Err(ObjectFault::Not {
                at: place,
                rule: ObjectRule::Base,
            });
        }
        self.hash(complete)
    }

    fn bits(&mut self, alloc: Global, complete: bool) -> Result<(u16, Option<Text>), ObjectFault>
        ensures { Reads (λ x. x) (both (num 2 2) (spec.detail complete)) (ahead self.old) result (ahead self.new) }
    {
        let bits = self.half()?;
        let name = self.detail(alloc, complete)?;
        Ok((bits, name))
    }

    fn bits_region(
        &mut self,
        alloc: Global,
        complete: bool,
    ) -> Result<(u16, Option<Text>), ObjectFault>
        ensures { Reads (λ x. x) (counted (both (num 2 2) (spec.detail complete))) (ahead self.old) result (ahead self.new) }
    {
        let mut region = self.open()?;
        let bits = region.inner.bits(alloc, complete)?;
        self.close(&region)?;
        Ok(bits)
    }

    fn detail_region(&mut self, alloc: Global, complete: bool) -> Result<Option<Text>, ObjectFault>
        ensures { Reads (λ x. x) (counted (spec.detail complete)) (ahead self.old) result (ahead self.new) }
    {
        let mut region = self.open()?;
        let name = region.inner.detail(alloc, complete)?;
        self.close(&region)?;
        Ok(name)
    }

    fn closed_identifier(
        &mut self,
        alloc: Global,
        complete: bool,
    ) -> Result<TypeIdentifier, ObjectFault>
        ensures { Reads view.identifier (behind (spec.identifier complete) (spec.closing complete)) (ahead self.old) result (ahead self.new) }
    {
        let ty = self.identifier(alloc, complete)?;
        self.closing(complete)?;
        Ok(ty)
    }

    fn related(&mut self, alloc: Global, complete: bool) -> Result<TypeIdentifier, ObjectFault>
        ensures { Reads view.identifier (counted (before spec.no_flags (behind (spec.identifier complete) (spec.closing complete)))) (ahead self.old) result (ahead self.new) }
    {
        let mut region = self.open()?;
        region.inner.no_flags()?;
        let ty = region.inner.closed_identifier(alloc, complete)?;
        self.close(&region)?;
        Ok(ty)
    }

    #[tactic(auto, using(object_formats::proofs::Views::identifier_rules), unfolding(object_formats::specs::Tables::alias_body))]
    fn alias_body(
        &mut self,
        alloc: Global,
        complete: bool,
    ) -> Result<(Option<Text>, TypeIdentifier), ObjectFault>
        ensures { Reads (λ x. (x.0, view.identifier x.1)) (spec.alias_body complete) (ahead self.old) result (ahead self.new) }
    {
        self.no_flags()?;
        let name = self.detail_region(alloc, complete)?;
        let related = self.related(alloc, complete)?;
        Ok((name, related))
    }

    #[tactic(auto, using(object_formats::proofs::Views::identifier_rules), unfolding(object_formats::specs::Tables::enum_body))]
    fn enum_body(
        &mut self,
        alloc: Global,
        complete: bool,
    ) -> Result<(u16, ((u16, Option<Text>), Row<ObjectLiteral>)), ObjectFault>
        ensures { Reads (λ x. x) (spec.enum_body complete) (ahead self.old) result (ahead self.new) }
    {
        let flags = self.flags(complete, Flags::Type)?;
        let bits = self.bits_region(alloc, complete)?;
        let literals = self.listed::<ObjectLiteral>(alloc, complete)?;
        Ok((flags, (bits, literals)))
    }

    fn mask_parts(
        &mut self,
        alloc: Global,
        complete: bool,
    ) -> Result<((u16, Option<Text>), Row<ObjectFlag>), ObjectFault>
        ensures { Reads (λ x. x) (before spec.no_flags (both (counted (both (num 2 2) (spec.detail complete))) (spec.listed (spec.flag complete)))) (ahead self.old) result (ahead self.new) }
    {
        self.no_flags()?;
        let bits = self.bits_region(alloc, complete)?;
        let flags = self.listed::<ObjectFlag>(alloc, complete)?;
        Ok((bits, flags))
    }

    #[tactic(auto, using(object_formats::proofs::Views::identifier_rules), unfolding(object_formats::specs::Tables::mask_body))]
    fn mask_body(
        &mut self,
        alloc: Global,
        complete: bool,
    ) -> Result<((u16, Option<Text>), Row<ObjectFlag>), ObjectFault>
        ensures { Reads (λ x. x) (spec.mask_body complete) (ahead self.old) result (ahead self.new) }
    {
        let mut region = self.open()?;
        let parts = region.inner.mask_parts(alloc, complete)?;
        self.close(&region)?;
        Ok(parts)
    }

    fn base_region(
        &mut self,
        alloc: Global,
        complete: bool,
    ) -> Result<(TypeIdentifier, Option<Text>), ObjectFault>
        ensures { Reads (λ x. (view.identifier x.0, x.1)) (counted (both (spec.base complete) (spec.detail complete))) (ahead self.old) result (ahead self.new) }
    {
        let mut region = self.open()?;
        let base = region.inner.base(complete)?;
        let name = region.inner.detail(alloc, complete)?;
        self.close(&region)?;
        Ok((base, name))
    }

    #[tactic(auto, using(object_formats::proofs::Views::identifier_rules), unfolding(object_formats::specs::Tables::struct_body))]
    fn struct_body(
        &mut self,
        alloc: Global,
        complete: bool,
    ) -> Result<(u16, ((TypeIdentifier, Option<Text>), Row<ObjectMember>)), ObjectFault>
        ensures { Reads (λ x. (x.0, ((view.identifier x.1.0.0, x.1.0.1), map view.member x.1.1))) (spec.struct_body complete) (ahead self.old) result (ahead self.new) }
    {
        let flags = self.flags(complete, Flags::Type)?;
        let base = self.base_region(alloc, complete)?;
        let members = self.listed::<ObjectMember>(alloc, complete)?;
        Ok((flags, (base, members)))
    }

    fn disc_region(
        &mut self,
        alloc: Global,
        complete: bool,
    ) -> Result<(u16, TypeIdentifier), ObjectFault>
        ensures { Reads (λ x. (x.0, view.identifier x.1)) (counted (both (spec.flags_of spec.disc_flags) (behind (spec.identifier complete) (spec.closing complete)))) (ahead self.old) result (ahead self.new) }
    {
        let mut region = self.open()?;
        let flags = region.inner.flags(complete, Flags::Discriminator)?;
        let ty = region.inner.closed_identifier(alloc, complete)?;
        self.close(&region)?;
        Ok((flags, ty))
    }

    #[tactic(auto, using(object_formats::proofs::Views::identifier_rules), unfolding(object_formats::specs::Tables::union_body))]
    fn union_body(
        &mut self,
        alloc: Global,
        complete: bool,
    ) -> Result<
        (
            u16,
            (Option<Text>, ((u16, TypeIdentifier), Row<ObjectCase>)),
        ),
        ObjectFault,
    >
        ensures { Reads (λ x. (x.0, (x.1.0, ((x.1.1.0.0, view.identifier x.1.1.0.1), map view.case x.1.1.1)))) (spec.union_body complete) (ahead self.old) result (ahead self.new) }
    {
        let flags = self.flags(complete, Flags::Type)?;
        let name = self.detail_region(alloc, complete)?;
        let disc = self.disc_region(alloc, complete)?;
        let cases = self.listed::<ObjectCase>(alloc, complete)?;
        Ok((flags, (name, (disc, cases))))
    }

    fn kinds(&mut self, alloc: Global, complete: bool) -> Result<TypeObject, ObjectFault>
        ensures { Reads view.object (spec.kinds complete) (ahead self.old) result (ahead self.new) }
    {
        let place = self.at;
        let octet = self.octet()?;
        match kind_of(octet) {
            None => Err(ObjectFault::Not {
                at: place,
                rule: ObjectRule::Kind,
            }),
            Some(Kind::Alias) => {
                let (name, related) = self.alias_body(alloc, complete)?;
                Ok(TypeObject::Alias { name, related })
            }
            Some(Kind::Enum) => {
                let (flags, ((bits, name), literals)) = self.enum_body(alloc, complete)?;
                Ok(TypeObject::Enum {
                    name,
                    flags,
                    bits,
                    literals,
                })
            }
            Some(Kind::Mask) => {
                let ((bits, name), flags) = self.mask_body(alloc, complete)?;
                Ok(TypeObject::Mask { name, bits, flags })
            }
            Some(Kind::Struct) => {
                let (flags, ((base, name), members)) = self.struct_body(alloc, complete)?;
                Ok(TypeObject::Struct {
                    name,
                    flags,
                    base,
                    members,
                })
            }
            Some(Kind::Union) => {
                let (flags, (name, ((disc_flags, disc), cases))) = self.union_body(
                    alloc, complete,
                )?;
                Ok(TypeObject::Union {
                    name,
                    flags,
                    disc_flags,
                    disc,
                    cases,
                })
            }
        }
    }

    fn owned(&mut self, alloc: Global) -> Result<TypeObject, ObjectFault>
        ensures { Reads view.object (tagged rule.Kind spec.complete_of spec.own spec.is_complete spec.kinds) (ahead self.old) result (ahead self.new) }
    {
        let place = self.at;
        let octet = self.octet()?;
        match complete_of(octet) {
            None => Err(ObjectFault::Not {
                at: place,
                rule: ObjectRule::Kind,
            }),
            Some(complete) => self.kinds(alloc, complete),
        }
    }

    #[tactic(auto, using(object_formats::proofs::Views::identifier_rules), unfolding(object_formats::specs::Tables::object))]
    fn object(&mut self, alloc: Global) -> Result<TypeObject, ObjectFault>
        ensures { Reads view.object spec.object (ahead self.old) result (ahead self.new) }
    {
        let mut region = self.open()?;
        let object = region.inner.owned(alloc)?;
        self.close(&region)?;
        Ok(object)
    }
}

/// The object of a text, or the text's first fault.
#[tactic(auto, unfolding(object_formats::specs::Tables::object_of))]
fn read(alloc: Global, octets: &[u8]) -> Result<TypeObject, ObjectFault>
    ensures { Answers view.object result (spec.object_of octets.now) }
{
    if LIMIT < octets.len() {
        return Err(ObjectFault::Not {
            at: 131_072,
            rule: ObjectRule::Long,
        });
    }
    let mut reader = Reader {
        at: 0,
        rest: octets,
    };
    let object = reader.object(alloc)?;
    if !reader.rest.is_empty() {
        return Err(ObjectFault::Not {
            at: reader.at,
            rule: ObjectRule::Trailing,
        });
    }
    Ok(object)
}

/// The object of a text, or the text's first fault. Each object has one text.
pub fn read_object(alloc: Global, octets: &[u8]) -> Result<TypeObject, ObjectFault>
    ensures exact { Answers view.object result (spec.object_of octets.now) }
    ensures well_formed { IfOk result (λ o. spec.is_well_formed (view.object o) ≡ true) }
    ensures written { IfOk result (λ o. octets.now ≡ spec.text_of (view.object o)) }
    ensures short { OnOk result (length octets.now ≤ 131072) }
    ensures kind { OnOk result (is_object_kind (slice_index octets.now 4) ≡ true) }
{
    read(alloc, octets)
}
