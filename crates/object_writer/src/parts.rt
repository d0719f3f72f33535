ghost use Rattle.std.specs.Prelude.{◌≡◌};
ghost use Rattle.object_formats.specs.Format.{num, both, before, counted, several};
ghost use Rattle.object_formats.specs.Tables as spec;
ghost use Rattle.object_formats.specs.View as view;
ghost use Rattle.object_writer.specs.Writing.{Writes};

use crate::lists::Write;
use crate::writer::Writer;
use object_formats::{ObjectCase, ObjectFlag, ObjectLiteral, ObjectMember};
use xt_lists::OutOfMemory;

impl Write for ObjectLiteral {
    fn write(&self, writer: &mut Writer, form: bool) -> Result<(), OutOfMemory> {
        let start = writer.open()?;
        writer.literal_parts(form, self)?;
        writer.close(start)
    }
}

impl Write for ObjectFlag {
    fn write(&self, writer: &mut Writer, form: bool) -> Result<(), OutOfMemory> {
        let start = writer.open()?;
        writer.flag_parts(form, self)?;
        writer.close(start)
    }
}

impl Write for ObjectMember {
    fn write(&self, writer: &mut Writer, form: bool) -> Result<(), OutOfMemory> {
        let start = writer.open()?;
        writer.member_parts(form, self)?;
        writer.close(start)
    }
}

impl Write for ObjectCase {
    fn write(&self, writer: &mut Writer, form: bool) -> Result<(), OutOfMemory> {
        let start = writer.open()?;
        writer.case_parts(form, self)?;
        writer.close(start)
    }
}

impl Writer {
    #[tactic(auto, using(crate::proofs::Writes::then_both))]
    fn literal_value(&mut self, literal: &ObjectLiteral) -> Result<(), OutOfMemory>
        ensures { Writes (both spec.signed (spec.flags_of spec.literal_flags)) (literal.now.value, literal.now.flags) self.old result self.new }
    {
        self.signed(literal.value)?;
        self.half(literal.flags)
    }

    fn literal_common(&mut self, literal: &ObjectLiteral) -> Result<(), OutOfMemory>
        ensures { Writes (counted (both spec.signed (spec.flags_of spec.literal_flags))) (literal.now.value, literal.now.flags) self.old result self.new }
    {
        let start = self.open()?;
        self.literal_value(literal)?;
        self.close(start)
    }

    #[tactic(auto, using(crate::proofs::Writes::then_both))]
    fn literal_parts(&mut self, complete: bool, literal: &ObjectLiteral) -> Result<(), OutOfMemory>
        ensures { Writes (both (counted (both spec.signed (spec.flags_of spec.literal_flags))) (spec.name complete)) ((literal.now.value, literal.now.flags), literal.now.name) self.old result self.new }
    {
        self.literal_common(literal)?;
        self.name(complete, &literal.name)
    }

    fn flag_parts(&mut self, complete: bool, flag: &ObjectFlag) -> Result<(), OutOfMemory>
        ensures { Writes (both (num 2 2) (before spec.no_flags (spec.name complete))) (flag.now.position, flag.now.name) self.old result self.new }
    {
        self.half(flag.position)?;
        self.no_flags()?;
        self.name(complete, &flag.name)
    }

    fn member_parts(&mut self, complete: bool, member: &ObjectMember) -> Result<(), OutOfMemory>
        ensures { Writes (spec.member_fields complete) (view.member_fields member.now) self.old result self.new }
    {
        self.word(member.id)?;
        self.half(member.flags)?;
        self.identifier(complete, &member.ty)?;
        self.name(complete, &member.name)
    }

    fn case_parts(&mut self, complete: bool, case: &ObjectCase) -> Result<(), OutOfMemory>
        ensures { Writes (spec.case_fields complete) (view.case_fields case.now) self.old result self.new }
    {
        self.word(case.id)?;
        self.half(case.flags)?;
        self.identifier(complete, &case.ty)?;
        self.several(complete, &case.labels)?;
        self.name(complete, &case.name)
    }
}
