ghost use Rattle.std.specs.Prelude.{◌≡◌, ◌++◌, length, IfOk};
ghost use Rattle.object_formats.specs.Format.{several, each_spelled};
ghost use Rattle.object_formats.specs.Tables as spec;
ghost use Rattle.object_writer.specs.Writing.{Writes};

use crate::writer::Writer;
use object_formats::Part;
use xt_lists::{OutOfMemory, Row};

/// A part that is written.
pub(crate) trait Write: Part {
    fn write(&self, writer: &mut Writer, form: bool) -> Result<(), OutOfMemory>
        ensures { Writes (Self.format form) (Self.seen self.now) writer.old result writer.new };
}

impl Write for u32 {
    fn write(&self, writer: &mut Writer, form: bool) -> Result<(), OutOfMemory> {
        writer.bound(form, *self)
    }
}

impl Write for i32 {
    fn write(&self, writer: &mut Writer, _form: bool) -> Result<(), OutOfMemory> {
        writer.signed(*self)
    }
}

impl Writer {
    fn each<P: Write>(&mut self, form: bool, parts: &[P]) -> Result<(), OutOfMemory>
        ensures { IfOk result (λ u. self.new ≡ self.old ++ each_spelled (P.format form) (length self.old) (P.all_seen parts.now)) }
    {
        for part in parts {
            part.write(self, form)?;
        }
        Ok(())
    }

    /// The count of the parts, and the parts.
    pub(crate) fn several<P: Write>(
        &mut self,
        form: bool,
        parts: &Row<P>,
    ) -> Result<(), OutOfMemory>
        ensures { Writes (several (P.format form)) (P.all_seen parts.now) self.old result self.new }
    {
        self.count(parts.len())?;
        self.each(form, parts.as_slice())
    }

    /// The same as a region.
    pub(crate) fn listed<P: Write>(&mut self, form: bool, parts: &Row<P>) -> Result<(), OutOfMemory>
        ensures { Writes (spec.listed (P.format form)) (P.all_seen parts.now) self.old result self.new }
    {
        let start = self.open()?;
        self.several(form, parts)?;
        self.close(start)
    }
}
