ghost use Rattle.std.specs.Prelude.{◌≡◌, ◌+◌, ◌≤◌, ◌<◌, length, take, IfOk, MatchResult, ◌++◌, ◌∷◌, []};
ghost use Rattle.object_formats.specs.Format.{spot, past, raw_at, num, aligned, closed};
ghost use Rattle.object_formats.specs.Octets.{number, padding};
ghost use Rattle.object_formats.specs.declared.faults.ObjectFault.TheVariants.{OutOfMemory};
ghost use Rattle.object_formats.specs.View.{Gives, Passes};

use byteorder::{ByteOrder, LittleEndian};
use object_formats::{ObjectFault, ObjectRule};
use std::alloc::Global;
use xt_lists::Row;

/// The octets of a region from a place on, which is counted from the text's first octet.
#[derive(Drop)]
pub(crate) struct Reader<'a> {
    pub(crate) at: u32,
    pub(crate) rest: &'a [u8],
    ghost bounded: { at + length rest.now ≤ 131072 },
}

/// A count of octets, its place, and a reader of what is there of them.
#[derive(Drop)]
pub(crate) struct Region<'a> {
    place: u32,
    count: u32,
    pub(crate) inner: Reader<'a>,
}

/// How many octets lead to the next place that is a multiple of `unit`.
#[tactic(auto, unfolding(object_formats::specs::Octets::padding))]
fn padding(unit: u32, at: u32) -> u32
    requires positive { 0 < unit }
    ensures value { result ≡ padding unit at }
    ensures small { result < unit }
{
    (unit - at % unit) % unit
}

impl<'a> Reader<'a> {
    ghost use Rattle.object_reader.specs.Reading.{Reads, ahead};

    /// The place of the next field of so many octets.
    #[tactic(auto, unfolding(object_formats::specs::Format::aligned))]
    pub(crate) fn aligned(&self, unit: u32) -> u32
        requires { (0 < unit) × (unit < 8) }
        ensures { result ≡ aligned unit self.now.at }
    {
        self.at + padding(unit, self.at)
    }

    /// Past so many octets of padding.
    fn skip(&mut self, count: u32) -> Result<(), ObjectFault>
        ensures { Passes result (ahead self.new) (past count self.old.at self.old.rest.now) }
    {
        for _ in 0..count {
            match self.rest.split_first() {
                None => {
                    return Err(ObjectFault::Not {
                        at: self.at,
                        rule: ObjectRule::Short,
                    });
                }
                Some((first, rest)) => {
                    if *first != 0 {
                        return Err(ObjectFault::Not {
                            at: self.at,
                            rule: ObjectRule::Padding,
                        });
                    }
                    self.at += 1;
                    self.rest = rest;
                }
            }
        }
        Ok(())
    }

    #[tactic(auto, unfolding(object_formats::specs::Format::raw_at))]
    pub(crate) fn raw(&mut self, count: u32) -> Result<&'a [u8], ObjectFault>
        ensures size { IfOk result (λ x. length x.now ≡ count) }
        ensures read { Gives (λ x. x.now) result (ahead self.new) (raw_at count (ahead self.old)) }
    {
        let size = count as usize;
        if self.rest.len() < size {
            return Err(ObjectFault::Not {
                at: self.at,
                rule: ObjectRule::Short,
            });
        }
        let (front, rest) = self.rest.split_at(size);
        self.at += count;
        self.rest = rest;
        Ok(front)
    }

    #[tactic(auto, unfolding(object_formats::specs::Format::num))]
    pub(crate) fn octet(&mut self) -> Result<u8, ObjectFault>
        ensures { Reads (λ x. x) (num 1 1) (ahead self.old) result (ahead self.new) }
    {
        self.skip(padding(1, self.at))?;
        let octets = self.raw(1)?;
        Ok(one(octets))
    }

    #[tactic(auto, unfolding(object_formats::specs::Format::num))]
    pub(crate) fn half(&mut self) -> Result<u16, ObjectFault>
        ensures { Reads (λ x. x) (num 2 2) (ahead self.old) result (ahead self.new) }
    {
        self.skip(padding(2, self.at))?;
        let octets = self.raw(2)?;
        Ok(two(octets))
    }

    #[tactic(auto, unfolding(object_formats::specs::Format::num))]
    pub(crate) fn word(&mut self) -> Result<u32, ObjectFault>
        ensures { Reads (λ x. x) (num 4 4) (ahead self.old) result (ahead self.new) }
    {
        self.skip(padding(4, self.at))?;
        Ok(four(self.raw(4)?))
    }

    /// The region that a count begins, and the place of the count and itself.
    pub(crate) fn open(&mut self) -> Result<Region<'a>, ObjectFault>
        ensures count { Reads (λ r. r.count) (num 4 4) (ahead self.old) result (ahead self.new) }
        ensures place { IfOk result (λ r. r.place ≡ aligned 4 self.old.at) }
        ensures inside { IfOk result (λ r. (r.inner.at ≡ self.new.at) × (r.inner.rest.now ≡ take r.count self.new.rest.now)) }
    {
        let place = self.aligned(4);
        let count = self.word()?;
        let size = (count as usize).min(self.rest.len());
        let inner = Reader {
            at: self.at,
            rest: &self.rest[..size],
        };
        Ok(Region {
            place,
            count,
            inner,
        })
    }

    /// Past a region that has to be used up.
    pub(crate) fn close(&mut self, region: &Region<'_>) -> Result<(), ObjectFault>
        ensures { Passes result (ahead self.new) (closed region.now.place region.now.count (ahead self.old) (spot region.now.inner.at region.now.inner.rest.now)) }
    {
        let size = region.count as usize;
        if !region.inner.rest.is_empty() || self.rest.len() < size {
            return Err(ObjectFault::Not {
                at: region.place,
                rule: ObjectRule::Delimiter,
            });
        }
        self.at += region.count;
        self.rest = &self.rest[size..];
        Ok(())
    }

    /// A hash, which is not aligned.
    #[tactic(auto, unfolding(object_formats::specs::Format::num))]
    pub(crate) fn loose_word(&mut self) -> Result<u32, ObjectFault>
        ensures { Reads (λ x. x) (num 1 4) (ahead self.old) result (ahead self.new) }
    {
        self.skip(padding(1, self.at))?;
        Ok(four(self.raw(4)?))
    }
}

#[tactic(auto, using(crate::proofs::Numbers::number_of_one))]
fn one(octets: &[u8]) -> u8
    requires one { length octets.now ≡ 1 }
    ensures value { result ≡ number octets.now }
{
    octets[0]
}

#[tactic(auto, using(crate::proofs::Numbers::number_of_two))]
fn two(octets: &[u8]) -> u16
    requires two { length octets.now ≡ 2 }
    ensures value { result ≡ number octets.now }
{
    LittleEndian::read_u16(octets)
}

#[tactic(auto, using(crate::proofs::Numbers::number_of_four))]
fn four(octets: &[u8]) -> u32
    requires four { length octets.now ≡ 4 }
    ensures value { result ≡ number octets.now }
{
    LittleEndian::read_u32(octets)
}

pub(crate) fn boxed<T>(alloc: Global, value: T) -> Result<Box<T>, ObjectFault>
where
    T: Drop,
    ensures { MatchResult result (λ b. b.value ≡ value) (λ e. e ≡ OutOfMemory) }
{
    match Box::new(alloc, value) {
        Ok(b) => Ok(b),
        Err(_) => Err(ObjectFault::OutOfMemory),
    }
}

pub(crate) fn push<T>(row: &mut Row<T>, item: T) -> Result<(), ObjectFault>
where
    T: Drop,
    ensures { MatchResult result (λ u. row.new ≡ row.old ++ item ∷ []) (λ e. e ≡ OutOfMemory) }
{
    match row.push(item) {
        Ok(_) => Ok(()),
        Err(_) => Err(ObjectFault::OutOfMemory),
    }
}
