ghost use Rattle.std.specs.Prelude.{◌≡◌};
ghost use Rattle.object_formats.specs.Format.{num, both, before, counted, several};
ghost use Rattle.object_formats.specs.Tables as spec;
ghost use Rattle.object_formats.specs.View as view;
ghost use Rattle.object_reader.specs.Reading.{Reads, ahead};

use crate::lists::Read;
use crate::reader::Reader;
use object_formats::{
    Flags, ObjectCase, ObjectFault, ObjectFlag, ObjectLiteral, ObjectMember, TypeIdentifier,
};
use std::alloc::Global;
use type_trees::Name;

impl Read for ObjectLiteral {
    #[tactic(auto, unfolding(object_formats::specs::Tables::literal))]
    fn read(
        reader: &mut Reader<'_>,
        alloc: Global,
        form: bool,
    ) -> Result<ObjectLiteral, ObjectFault> {
        let mut region = reader.open()?;
        let ((value, flags), name) = region.inner.literal_parts(alloc, form)?;
        reader.close(&region)?;
        Ok(ObjectLiteral { value, flags, name })
    }
}

impl Read for ObjectFlag {
    #[tactic(auto, unfolding(object_formats::specs::Tables::flag))]
    fn read(reader: &mut Reader<'_>, alloc: Global, form: bool) -> Result<ObjectFlag, ObjectFault> {
        let mut region = reader.open()?;
        let (position, name) = region.inner.flag_parts(alloc, form)?;
        reader.close(&region)?;
        Ok(ObjectFlag { position, name })
    }
}

impl Read for ObjectMember {
    #[tactic(auto, unfolding(object_formats::specs::Tables::member))]
    fn read(
        reader: &mut Reader<'_>,
        alloc: Global,
        form: bool,
    ) -> Result<ObjectMember, ObjectFault> {
        let mut region = reader.open()?;
        let member = region.inner.member_parts(alloc, form)?;
        reader.close(&region)?;
        Ok(member)
    }
}

impl Read for ObjectCase {
    #[tactic(auto, unfolding(object_formats::specs::Tables::case))]
    fn read(reader: &mut Reader<'_>, alloc: Global, form: bool) -> Result<ObjectCase, ObjectFault> {
        let mut region = reader.open()?;
        let case = region.inner.case_parts(alloc, form)?;
        reader.close(&region)?;
        Ok(case)
    }
}

impl<'a> Reader<'a> {
    #[tactic(auto, unfolding(object_formats::specs::Tables::identifier))]
    pub(crate) fn identifier(
        &mut self,
        alloc: Global,
        complete: bool,
    ) -> Result<TypeIdentifier, ObjectFault>
        ensures { Reads view.identifier (spec.identifier complete) (ahead self.old) result (ahead self.new) }
    {
        self.nested(alloc, complete, 16)
    }

    fn literal_value(&mut self) -> Result<(i32, u16), ObjectFault>
        ensures { Reads (λ x. x) (both spec.signed (spec.flags_of spec.literal_flags)) (ahead self.old) result (ahead self.new) }
    {
        let value = self.signed()?;
        let flags = self.flags(false, Flags::Literal)?;
        Ok((value, flags))
    }

    fn literal_parts(
        &mut self,
        alloc: Global,
        complete: bool,
    ) -> Result<((i32, u16), Name), ObjectFault>
        ensures { Reads (λ x. x) (both (counted (both spec.signed (spec.flags_of spec.literal_flags))) (spec.name complete)) (ahead self.old) result (ahead self.new) }
    {
        let mut region = self.open()?;
        let value = region.inner.literal_value()?;
        self.close(&region)?;
        let name = self.name(alloc, complete)?;
        Ok((value, name))
    }

    fn flag_parts(&mut self, alloc: Global, complete: bool) -> Result<(u16, Name), ObjectFault>
        ensures { Reads (λ x. x) (both (num 2 2) (before spec.no_flags (spec.name complete))) (ahead self.old) result (ahead self.new) }
    {
        let position = self.half()?;
        self.no_flags()?;
        let name = self.name(alloc, complete)?;
        Ok((position, name))
    }

    fn member_parts(&mut self, alloc: Global, complete: bool) -> Result<ObjectMember, ObjectFault>
        ensures { Reads view.member_fields (spec.member_fields complete) (ahead self.old) result (ahead self.new) }
    {
        let id = self.word()?;
        let flags = self.flags(complete, Flags::Member)?;
        let ty = self.identifier(alloc, complete)?;
        let name = self.name(alloc, complete)?;
        Ok(ObjectMember {
            id,
            flags,
            ty,
            name,
        })
    }

    fn case_parts(&mut self, alloc: Global, complete: bool) -> Result<ObjectCase, ObjectFault>
        ensures { Reads view.case_fields (spec.case_fields complete) (ahead self.old) result (ahead self.new) }
    {
        let id = self.word()?;
        let flags = self.flags(complete, Flags::Case)?;
        let ty = self.identifier(alloc, complete)?;
        let labels = self.several(alloc, complete)?;
        let name = self.name(alloc, complete)?;
        Ok(ObjectCase {
            id,
            flags,
            ty,
            labels,
            name,
        })
    }
}
