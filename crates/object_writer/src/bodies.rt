ghost use Rattle.std.specs.Prelude.{◌≡◌, ◌≤◌, length, map, IfOk, Ok, true};
ghost use Rattle.object_formats.specs.Format.{both, before, behind, counted, tagged, num};
ghost use Rattle.object_formats.specs.Tables as spec;
ghost use Rattle.object_formats.specs.View as view;
ghost use Rattle.object_formats.specs.declared.faults.ObjectRule.TheVariants as rule;
ghost use Rattle.object_writer.specs.Writing.{Writes};

use crate::writer::Writer;
use object_formats::{
    ObjectCase, ObjectFlag, ObjectLiteral, ObjectMember, TypeIdentifier, TypeObject, is_complete,
    own_kind,
};
use std::alloc::Global;
use xt_lists::{OutOfMemory, Row, Text};

impl Writer {
    #[tactic(auto, using(crate::proofs::Writes::then_behind))]
    fn closed_identifier(&mut self, complete: bool, ty: &TypeIdentifier) -> Result<(), OutOfMemory>
        ensures { Writes (behind (spec.identifier complete) (spec.closing complete)) (view.identifier ty.now) self.old result self.new }
    {
        self.identifier(complete, ty)?;
        self.closing(complete)
    }

    #[tactic(auto, using(object_formats::proofs::Views::identifier_rules), unfolding(object_formats::specs::Tables::base))]
    fn base(&mut self, complete: bool, base: &TypeIdentifier) -> Result<(), OutOfMemory>
        ensures { Writes (spec.base complete) (view.identifier base.now) self.old result self.new }
    {
        match base {
            TypeIdentifier::None => self.tag(0),
            TypeIdentifier::Hash(hash) => {
                self.tag(own_kind(complete))?;
                self.hash(complete, hash)
            }
            TypeIdentifier::Prim(_)
            | TypeIdentifier::Str { .. }
            | TypeIdentifier::Seq { .. }
            | TypeIdentifier::Array { .. }
            | TypeIdentifier::Map { .. } => self.tag(own_kind(complete)),
        }
    }

    fn bits_region(
        &mut self,
        complete: bool,
        bits: u16,
        name: &Option<Text>,
    ) -> Result<(), OutOfMemory>
        ensures { Writes (counted (both (num 2 2) (spec.detail complete))) (bits, name.now) self.old result self.new }
    {
        let start = self.open()?;
        self.half(bits)?;
        self.detail(complete, name)?;
        self.close(start)
    }

    fn detail_region(&mut self, complete: bool, name: &Option<Text>) -> Result<(), OutOfMemory>
        ensures { Writes (counted (spec.detail complete)) name.now self.old result self.new }
    {
        let start = self.open()?;
        self.detail(complete, name)?;
        self.close(start)
    }

    fn related_region(&mut self, complete: bool, ty: &TypeIdentifier) -> Result<(), OutOfMemory>
        ensures { Writes (counted (before spec.no_flags (behind (spec.identifier complete) (spec.closing complete)))) (view.identifier ty.now) self.old result self.new }
    {
        let start = self.open()?;
        self.no_flags()?;
        self.closed_identifier(complete, ty)?;
        self.close(start)
    }

    fn base_region(
        &mut self,
        complete: bool,
        base: &TypeIdentifier,
        name: &Option<Text>,
    ) -> Result<(), OutOfMemory>
        ensures { Writes (counted (both (spec.base complete) (spec.detail complete))) (view.identifier base.now, name.now) self.old result self.new }
    {
        let start = self.open()?;
        self.base(complete, base)?;
        self.detail(complete, name)?;
        self.close(start)
    }

    fn disc_region(
        &mut self,
        complete: bool,
        flags: u16,
        ty: &TypeIdentifier,
    ) -> Result<(), OutOfMemory>
        ensures { Writes (counted (both (spec.flags_of spec.disc_flags) (behind (spec.identifier complete) (spec.closing complete)))) (flags, view.identifier ty.now) self.old result self.new }
    {
        let start = self.open()?;
        self.half(flags)?;
        self.closed_identifier(complete, ty)?;
        self.close(start)
    }

    fn mask_parts(
        &mut self,
        complete: bool,
        bits: u16,
        name: &Option<Text>,
        flags: &Row<ObjectFlag>,
    ) -> Result<(), OutOfMemory>
        ensures { Writes (before spec.no_flags (both (counted (both (num 2 2) (spec.detail complete))) (spec.listed (spec.flag complete)))) ((bits, name.now), flags.now) self.old result self.new }
    {
        self.no_flags()?;
        self.bits_region(complete, bits, name)?;
        self.listed(complete, flags)
    }

    #[tactic(auto, unfolding(object_formats::specs::Tables::alias_body))]
    fn alias_body(
        &mut self,
        complete: bool,
        name: &Option<Text>,
        related: &TypeIdentifier,
    ) -> Result<(), OutOfMemory>
        ensures { Writes (spec.alias_body complete) (name.now, view.identifier related.now) self.old result self.new }
    {
        self.no_flags()?;
        self.detail_region(complete, name)?;
        self.related_region(complete, related)
    }

    #[tactic(auto, unfolding(object_formats::specs::Tables::enum_body))]
    fn enum_body(
        &mut self,
        complete: bool,
        name: &Option<Text>,
        flags: u16,
        bits: u16,
        literals: &Row<ObjectLiteral>,
    ) -> Result<(), OutOfMemory>
        ensures { Writes (spec.enum_body complete) (flags, ((bits, name.now), literals.now)) self.old result self.new }
    {
        self.half(flags)?;
        self.bits_region(complete, bits, name)?;
        self.listed(complete, literals)
    }

    #[tactic(auto, unfolding(object_formats::specs::Tables::mask_body))]
    fn mask_body(
        &mut self,
        complete: bool,
        name: &Option<Text>,
        bits: u16,
        flags: &Row<ObjectFlag>,
    ) -> Result<(), OutOfMemory>
        ensures { Writes (spec.mask_body complete) ((bits, name.now), flags.now) self.old result self.new }
    {
        let start = self.open()?;
        self.mask_parts(complete, bits, name, flags)?;
        self.close(start)
    }

    #[tactic(auto, unfolding(object_formats::specs::Tables::struct_body))]
    fn struct_body(
        &mut self,
        complete: bool,
        name: &Option<Text>,
        flags: u16,
        base: &TypeIdentifier,
        members: &Row<ObjectMember>,
    ) -> Result<(), OutOfMemory>
        ensures { Writes (spec.struct_body complete) (flags, ((view.identifier base.now, name.now), map view.member members.now)) self.old result self.new }
    {
        self.half(flags)?;
        self.base_region(complete, base, name)?;
        self.listed(complete, members)
    }

    #[tactic(auto, unfolding(object_formats::specs::Tables::union_body))]
    fn union_body(
        &mut self,
        complete: bool,
        name: &Option<Text>,
        flags: u16,
        disc_flags: u16,
        disc: &TypeIdentifier,
        cases: &Row<ObjectCase>,
    ) -> Result<(), OutOfMemory>
        ensures { Writes (spec.union_body complete) (flags, (name.now, ((disc_flags, view.identifier disc.now), map view.case cases.now))) self.old result self.new }
    {
        self.half(flags)?;
        self.detail_region(complete, name)?;
        self.disc_region(complete, disc_flags, disc)?;
        self.listed(complete, cases)
    }

    #[tactic(auto, using(object_formats::proofs::Views::identifier_rules))]
    fn body(&mut self, complete: bool, object: &TypeObject) -> Result<(), OutOfMemory>
        ensures { Writes (spec.body complete (spec.kind (view.object object.now))) (view.object object.now) self.old result self.new }
    {
        match object {
            TypeObject::Alias { name, related } => self.alias_body(complete, name, related),
            TypeObject::Enum {
                name,
                flags,
                bits,
                literals,
            } => { self.enum_body(complete, name, *flags, *bits, literals) }
            TypeObject::Mask { name, bits, flags } => {
                self.mask_body(complete, name, *bits, flags)
            }
            TypeObject::Struct {
                name,
                flags,
                base,
                members,
            } => { self.struct_body(complete, name, *flags, base, members) }
            TypeObject::Union {
                name,
                flags,
                disc_flags,
                disc,
                cases,
            } => { self.union_body(complete, name, *flags, *disc_flags, disc, cases) }
        }
    }

    #[tactic(auto, using(crate::proofs::Writes::then_tag))]
    fn kinds(&mut self, complete: bool, object: &TypeObject) -> Result<(), OutOfMemory>
        ensures { Writes (spec.kinds complete) (view.object object.now) self.old result self.new }
    {
        self.tag(kind_octet(object))?;
        self.body(complete, object)
    }

    #[tactic(auto, using(crate::proofs::Writes::then_tag))]
    fn owned(&mut self, object: &TypeObject) -> Result<(), OutOfMemory>
        ensures { Writes (tagged rule.Kind spec.complete_of spec.own spec.is_complete spec.kinds) (view.object object.now) self.old result self.new }
    {
        let complete = is_complete(object);
        self.tag(own_kind(complete))?;
        self.kinds(complete, object)
    }

    #[tactic(auto, unfolding(object_formats::specs::Tables::object))]
    fn object(&mut self, object: &TypeObject) -> Result<(), OutOfMemory>
        ensures { Writes spec.object (view.object object.now) self.old result self.new }
    {
        let start = self.open()?;
        self.owned(object)?;
        self.close(start)
    }
}

fn kind_octet(object: &TypeObject) -> u8
    ensures { result ≡ spec.kind_octet (spec.kind (view.object object.now)) }
{
    match object {
        TypeObject::Alias { .. } => 0x30,
        TypeObject::Enum { .. } => 0x40,
        TypeObject::Mask { .. } => 0x41,
        TypeObject::Struct { .. } => 0x51,
        TypeObject::Union { .. } => 0x52,
    }
}

/// The one text of an object. An object that is well formed, with a text of at most 131,072 octets, is what its text is read as.
#[tactic(auto, unfolding(object_formats::specs::Tables::text_of))]
pub fn write_object(alloc: Global, object: &TypeObject) -> Result<Text, OutOfMemory>
    ensures text { IfOk result (λ text. text ≡ spec.text_of (view.object object.now)) }
    ensures read_again { IfOk result (λ text. spec.is_well_formed (view.object object.now) ≡ true → length text ≤ 131072 → spec.object_of text ≡ Ok (view.object object.now)) }
{
    let mut writer = Writer::new(alloc);
    writer.object(object)?;
    Ok(writer.finish())
}
