ghost use Rattle.std.specs.Prelude.{◌≡◌, ◌+◌, ◌-◌, ◌%◌, ◌/◌, ◌++◌, ◌∷◌, [], ◌<◌, ◌≤◌, length, take, drop, IfOk};
ghost use Rattle.object_formats.specs.Format.{num, aligned};
ghost use Rattle.object_formats.specs.Octets.{octets, zeros, padding};
ghost use Rattle.object_writer.specs.Writing.{Writes};

use byteorder::{ByteOrder, LittleEndian};
use std::alloc::Global;
use std::marker::Model;
use xt_lists::{OutOfMemory, Text};

/// The octets that are written so far.
#[derive(Drop)]
pub(crate) struct Writer {
    octets: Vec<u8>,
}

impl Model for Writer {
    ghost use Rattle.std.specs.Prelude.{List, ℕ};
    ghost use Rattle.std.specs.Coded.{coded_list, coded_ℕ};

    ghost Value = { List ℕ };

    ghost coded = { coded_list coded_ℕ };

    ghost view = { λ writer. writer.octets.items };
}

#[tactic(auto, unfolding(object_formats::specs::Octets::padding))]
fn padding(unit: usize, at: usize) -> usize
    requires positive { 0 < unit }
    ensures value { result ≡ padding unit at }
    ensures small { result < unit }
{
    (unit - at % unit) % unit
}

impl Writer {
    pub(crate) fn new(alloc: Global) -> Writer
        ensures { result ≡ [] }
    {
        Writer {
            octets: Vec::new(alloc),
        }
    }

    pub(crate) fn finish(self) -> Text
        ensures { result ≡ self }
    {
        let Writer { octets } = self;
        Text::from_vec(octets)
    }

    fn push(&mut self, octet: u8) -> Result<(), OutOfMemory>
        ensures { IfOk result (λ u. self.new ≡ self.old ++ octet ∷ []) }
    {
        self.octets.push(octet)?;
        Ok(())
    }

    /// Octets as they are.
    pub(crate) fn raw(&mut self, octets: &[u8]) -> Result<(), OutOfMemory>
        ensures { IfOk result (λ u. self.new ≡ self.old ++ octets.now) }
    {
        self.octets.extend_from_slice(octets)?;
        Ok(())
    }

    /// Zeros up to the next place that is a multiple of `unit`.
    #[tactic(auto, using(crate::proofs::Writes::zeros_more, crate::proofs::Writes::join), unfolding(object_formats::specs::Octets::zeros))]
    fn pad(&mut self, unit: usize) -> Result<(), OutOfMemory>
        requires { 0 < unit }
        ensures { IfOk result (λ u. self.new ≡ self.old ++ zeros (padding unit (length self.old))) }
    {
        let count = padding(unit, self.octets.len());
        for _ in 0..count {
            self.octets.push(0)?;
        }
        Ok(())
    }

    #[tactic(auto, using(crate::proofs::Writes::spell_octet))]
    pub(crate) fn octet(&mut self, number: u8) -> Result<(), OutOfMemory>
        ensures { Writes (num 1 1) number self.old result self.new }
    {
        self.push(number)
    }

    #[tactic(auto, using(crate::proofs::Writes::octets_two, crate::proofs::Writes::join), unfolding(object_formats::specs::Format::num))]
    pub(crate) fn half(&mut self, number: u16) -> Result<(), OutOfMemory>
        ensures { Writes (num 2 2) number self.old result self.new }
    {
        self.pad(2)?;
        self.raw(&half_octets(number))
    }

    #[tactic(auto, using(crate::proofs::Writes::octets_four, crate::proofs::Writes::join), unfolding(object_formats::specs::Format::num))]
    pub(crate) fn word(&mut self, number: u32) -> Result<(), OutOfMemory>
        ensures { Writes (num 4 4) number self.old result self.new }
    {
        self.pad(4)?;
        self.raw(&word_octets(number))
    }

    /// A hash, which is not aligned.
    #[tactic(auto, using(crate::proofs::Writes::spell_loose))]
    pub(crate) fn loose_word(&mut self, number: u32) -> Result<(), OutOfMemory>
        ensures { Writes (num 1 4) number self.old result self.new }
    {
        self.raw(&word_octets(number))
    }

    /// Begins a region behind the count of its octets, and gives the place where it begins. The count is 0 until the region is closed.
    #[tactic(auto, using(crate::proofs::Writes::count_has_four))]
    pub(crate) fn open(&mut self) -> Result<usize, OutOfMemory>
        ensures count { IfOk result (λ start. self.new ≡ self.old ++ (num 4 4).spell (length self.old) 0) }
        ensures start { IfOk result (λ start. start ≡ length self.new) }
        ensures room { IfOk result (λ start. 4 ≤ start) }
    {
        self.word(0)?;
        Ok(self.octets.len())
    }

    /// Ends the region that began there, and counts its octets.
    #[tactic(auto, using(crate::proofs::Writes::written_whole))]
    pub(crate) fn close(&mut self, start: usize) -> Result<(), OutOfMemory>
        requires room { 4 ≤ start }
        requires within { start ≤ length self.old }
        ensures { IfOk result (λ u. self.new ≡ take (start - 4) self.old ++ (octets 4 (length self.old - start) ++ drop start self.old)) }
    {
        let Ok(count) = u32::try_from(self.octets.len() - start) else {
            return Err(OutOfMemory);
        };
        put_word(self.octets.as_mut_slice(), start - 4, count);
        Ok(())
    }
}

#[tactic(auto, using(crate::proofs::Writes::octets_two))]
fn half_octets(number: u16) -> [u8; 2]
    ensures { result ≡ octets 2 number }
{
    let mut octets = [0; 2];
    LittleEndian::write_u16(&mut octets, number);
    octets
}

#[tactic(auto, using(crate::proofs::Writes::octets_four))]
fn word_octets(number: u32) -> [u8; 4]
    ensures { result ≡ octets 4 number }
{
    let mut octets = [0; 4];
    LittleEndian::write_u32(&mut octets, number);
    octets
}

/// Puts a number over the four octets at `at`.
fn put_word(text: &mut [u8], at: usize, number: u32)
    requires { at + 4 ≤ length text.old }
    ensures { text.new ≡ take at text.old ++ (octets 4 number ++ drop (at + 4) text.old) }
{
    text[at..at + 4].copy_from_slice(&word_octets(number));
}
