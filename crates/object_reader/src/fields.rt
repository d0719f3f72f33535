ghost use Rattle.std.specs.Prelude.{◌≡◌, IfOk, ◌++◌, ◌∷◌, []};
ghost use Rattle.object_formats.specs.declared.faults.ObjectRule.TheVariants.{Annotation};
ghost use Rattle.object_formats.specs.Format.{text, ended, exactly};
ghost use Rattle.object_formats.specs.Tables.{allowed, flags_of, no_flags, no_annotations, name, detail, closing, signed};
ghost use Rattle.object_reader.specs.Reading.{Reads, ahead};

use crate::reader::Reader;
use object_formats::{Flags, ObjectFault, ObjectRule, allows, has_nul};
use std::alloc::Global;
use type_trees::Name;
use xt_lists::{OutOfMemory, Text};

/// The text before the NUL that ends these octets, where it is their only one.
#[tactic(auto, using(object_formats::proofs::Texts::ended_again, crate::proofs::Ends::ended_nul, crate::proofs::Ends::ended_open, crate::proofs::Ends::ended_none))]
fn ended(alloc: Global, octets: &[u8]) -> Result<Option<Text>, OutOfMemory>
    ensures { IfOk result (λ text. text ≡ ended octets.now) }
{
    match octets.split_last() {
        None => Ok(None),
        Some((last, front)) => {
            if *last != 0 || has_nul(front) {
                return Ok(None);
            }
            Ok(Some(Text::from_octets(alloc, front)?))
        }
    }
}

impl<'a> Reader<'a> {
    pub(crate) fn flags(&mut self, complete: bool, kind: Flags) -> Result<u16, ObjectFault>
        ensures { Reads (λ x. x) (flags_of (allowed complete kind)) (ahead self.old) result (ahead self.new) }
    {
        let place = self.aligned(2);
        let flags = self.half()?;
        if !allows(complete, kind, flags) {
            return Err(ObjectFault::Not {
                at: place,
                rule: ObjectRule::Flags,
            });
        }
        Ok(flags)
    }

    pub(crate) fn no_flags(&mut self) -> Result<(), ObjectFault>
        ensures { Reads (λ x. tt) no_flags (ahead self.old) result (ahead self.new) }
    {
        let place = self.aligned(2);
        if self.half()? != 0 {
            return Err(ObjectFault::Not {
                at: place,
                rule: ObjectRule::Flags,
            });
        }
        Ok(())
    }

    fn annotation(&mut self) -> Result<(), ObjectFault>
        ensures { Reads (λ x. tt) (exactly 1 0 Annotation) (ahead self.old) result (ahead self.new) }
    {
        let place = self.aligned(1);
        if self.octet()? != 0 {
            return Err(ObjectFault::Not {
                at: place,
                rule: ObjectRule::Annotation,
            });
        }
        Ok(())
    }

    /// Two absent annotations.
    pub(crate) fn no_annotations(&mut self) -> Result<(), ObjectFault>
        ensures { Reads (λ x. tt) no_annotations (ahead self.old) result (ahead self.new) }
    {
        self.annotation()?;
        self.annotation()
    }

    #[tactic(auto, unfolding(object_formats::specs::Tables::closing))]
    pub(crate) fn closing(&mut self, complete: bool) -> Result<(), ObjectFault>
        ensures { Reads (λ x. tt) (closing complete) (ahead self.old) result (ahead self.new) }
    {
        if complete {
            self.no_annotations()
        } else {
            Ok(())
        }
    }

    #[tactic(auto, unfolding(object_formats::specs::Format::text))]
    pub(crate) fn text(&mut self, alloc: Global) -> Result<Text, ObjectFault>
        ensures { Reads (λ x. x) text (ahead self.old) result (ahead self.new) }
    {
        let place = self.aligned(4);
        let count = self.word()?;
        if count == 0 || 256 < count {
            return Err(ObjectFault::Not {
                at: place,
                rule: ObjectRule::Text,
            });
        }
        let octets = self.raw(count)?;
        match ended(alloc, octets) {
            Ok(Some(text)) => Ok(text),
            Ok(None) => Err(ObjectFault::Not {
                at: place,
                rule: ObjectRule::Text,
            }),
            Err(OutOfMemory) => Err(ObjectFault::OutOfMemory),
        }
    }

    #[tactic(auto, unfolding(object_formats::specs::Tables::name))]
    pub(crate) fn name(&mut self, alloc: Global, complete: bool) -> Result<Name, ObjectFault>
        ensures { Reads (λ x. x) (name complete) (ahead self.old) result (ahead self.new) }
    {
        if !complete {
            return Ok(Name::Hashed(self.loose_word()?));
        }
        let text = self.text(alloc)?;
        self.no_annotations()?;
        Ok(Name::Full(text))
    }

    /// A type's name, in complete objects.
    #[tactic(auto, unfolding(object_formats::specs::Tables::detail))]
    pub(crate) fn detail(
        &mut self,
        alloc: Global,
        complete: bool,
    ) -> Result<Option<Text>, ObjectFault>
        ensures { Reads (λ x. x) (detail complete) (ahead self.old) result (ahead self.new) }
    {
        if !complete {
            return Ok(None);
        }
        self.no_annotations()?;
        Ok(Some(self.text(alloc)?))
    }

    #[tactic(auto, unfolding(object_formats::specs::Tables::signed, object_formats::specs::Octets::with_sign))]
    pub(crate) fn signed(&mut self) -> Result<i32, ObjectFault>
        ensures { Reads (λ x. x) signed (ahead self.old) result (ahead self.new) }
    {
        let number = self.word()?;
        Ok(number.cast_signed())
    }
}
