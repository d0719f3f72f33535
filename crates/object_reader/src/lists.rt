ghost use Rattle.std.specs.Prelude.{◌≡◌};
ghost use Rattle.object_formats.specs.Format.{each_at, several};
ghost use Rattle.object_formats.specs.Tables as spec;
ghost use Rattle.object_formats.specs.View.{Gives};
ghost use Rattle.object_reader.specs.Reading.{Reads, ahead};

use crate::reader::{Reader, push};
use object_formats::{ObjectFault, Part};
use std::alloc::Global;
use xt_lists::Row;

/// A part that is read.
pub(crate) trait Read: Part {
    fn read(reader: &mut Reader<'_>, alloc: Global, form: bool) -> Result<Self, ObjectFault>
        ensures { Reads Self.seen (Self.format form) (ahead reader.old) result (ahead reader.new) };
}

impl Read for u32 {
    fn read(reader: &mut Reader<'_>, _alloc: Global, form: bool) -> Result<u32, ObjectFault> {
        reader.bound(form)
    }
}

impl Read for i32 {
    fn read(reader: &mut Reader<'_>, _alloc: Global, _form: bool) -> Result<i32, ObjectFault> {
        reader.signed()
    }
}

impl<'a> Reader<'a> {
    fn each<P: Read>(
        &mut self,
        alloc: Global,
        form: bool,
        count: u32,
    ) -> Result<Row<P>, ObjectFault>
        ensures { Gives P.all_seen result (ahead self.new) (each_at (P.format form) count (ahead self.old)) }
    {
        let mut row = Row::new(alloc);
        for _ in 0..count {
            let part = P::read(self, alloc, form)?;
            push(&mut row, part)?;
        }
        Ok(row)
    }

    /// The count of the parts, and the parts.
    pub(crate) fn several<P: Read>(
        &mut self,
        alloc: Global,
        form: bool,
    ) -> Result<Row<P>, ObjectFault>
        ensures { Reads P.all_seen (several (P.format form)) (ahead self.old) result (ahead self.new) }
    {
        let count = self.word()?;
        self.each(alloc, form, count)
    }

    /// The same as a region.
    pub(crate) fn listed<P: Read>(
        &mut self,
        alloc: Global,
        form: bool,
    ) -> Result<Row<P>, ObjectFault>
        ensures { Reads P.all_seen (spec.listed (P.format form)) (ahead self.old) result (ahead self.new) }
    {
        let mut region = self.open()?;
        let parts = region.inner.several(alloc, form)?;
        self.close(&region)?;
        Ok(parts)
    }
}
