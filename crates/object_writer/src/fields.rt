ghost use Rattle.std.specs.Prelude.{◌≡◌, Some};
ghost use Rattle.object_formats.specs.Format.{num, text};
ghost use Rattle.object_formats.specs.Octets.{without_sign};
ghost use Rattle.object_formats.specs.Tables as spec;
ghost use Rattle.object_writer.specs.Writing.{Writes};

use crate::writer::Writer;
use type_trees::Name;
use xt_lists::{OutOfMemory, Text};

#[tactic(auto, unfolding(object_formats::specs::Octets::without_sign))]
fn without_sign(number: i32) -> u32
    ensures { without_sign number ≡ Some result }
{
    if number >= 0 {
        number as u32
    } else {
        u32::MAX - (-(number + 1)) as u32
    }
}

impl Writer {
    /// Two absent annotations.
    #[tactic(auto, using(crate::proofs::Writes::then_before))]
    fn no_annotations(&mut self) -> Result<(), OutOfMemory>
        ensures { Writes spec.no_annotations tt self.old result self.new }
    {
        self.octet(0)?;
        self.octet(0)
    }

    pub(crate) fn no_flags(&mut self) -> Result<(), OutOfMemory>
        ensures { Writes spec.no_flags tt self.old result self.new }
    {
        self.half(0)
    }

    #[tactic(auto, using(crate::proofs::Writes::nothing_more), unfolding(object_formats::specs::Tables::closing))]
    pub(crate) fn closing(&mut self, complete: bool) -> Result<(), OutOfMemory>
        ensures { Writes (spec.closing complete) tt self.old result self.new }
    {
        if complete {
            self.no_annotations()
        } else {
            Ok(())
        }
    }

    /// How many follow. No text is so long that there are more than a count holds.
    pub(crate) fn count(&mut self, count: usize) -> Result<(), OutOfMemory>
        ensures { Writes (num 4 4) count self.old result self.new }
    {
        match u32::try_from(count) {
            Ok(count) => self.word(count),
            Err(_) => Err(OutOfMemory),
        }
    }

    #[tactic(auto, unfolding(object_formats::specs::Format::text))]
    fn string(&mut self, octets: &Text) -> Result<(), OutOfMemory>
        ensures { Writes text octets.now self.old result self.new }
    {
        match octets.len().checked_add(1) {
            Some(count) => {
                self.count(count)?;
                self.raw(octets.octets())?;
                self.octet(0)
            }
            None => Err(OutOfMemory),
        }
    }

    #[tactic(auto, using(crate::proofs::Writes::then_behind, crate::proofs::Writes::nothing_more), unfolding(object_formats::specs::Tables::name))]
    pub(crate) fn name(&mut self, complete: bool, name: &Name) -> Result<(), OutOfMemory>
        ensures { Writes (spec.name complete) name.now self.old result self.new }
    {
        match name {
            Name::Full(text) if complete => {
                self.string(text)?;
                self.no_annotations()
            }
            Name::Full(_) => Ok(()),
            Name::Hashed(_) if complete => self.no_annotations(),
            Name::Hashed(hash) => self.loose_word(*hash),
        }
    }

    /// A type's name.
    #[tactic(auto, using(crate::proofs::Writes::then_before, crate::proofs::Writes::nothing_more), unfolding(object_formats::specs::Tables::detail))]
    pub(crate) fn detail(&mut self, complete: bool, name: &Option<Text>) -> Result<(), OutOfMemory>
        ensures { Writes (spec.detail complete) name.now self.old result self.new }
    {
        match name {
            Some(text) if complete => {
                self.no_annotations()?;
                self.string(text)
            }
            _ => Ok(()),
        }
    }

    #[tactic(auto, unfolding(object_formats::specs::Tables::signed))]
    pub(crate) fn signed(&mut self, number: i32) -> Result<(), OutOfMemory>
        ensures { Writes spec.signed number self.old result self.new }
    {
        self.word(without_sign(number))
    }

    #[tactic(auto, using(crate::proofs::Writes::low_octet))]
    pub(crate) fn bound(&mut self, large: bool, bound: u32) -> Result<(), OutOfMemory>
        ensures { Writes (spec.bound large) bound self.old result self.new }
    {
        if large {
            self.word(bound)
        } else {
            self.octet((bound % 256) as u8)
        }
    }
}
