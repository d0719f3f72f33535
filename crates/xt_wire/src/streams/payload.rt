ghost use Rattle.std.specs.Prelude.{◌≡◌, ◌+◌, ◌-◌, ◌≤◌, ◌<◌, ◌^◌, length, take, IfOk, OnOk, OnErr};
ghost use Rattle.xt_outside.specs.Outside.{Rose};
ghost use Rattle.xt_wire.specs.streams.Streams.{Streaming, IsRead, IsUnread, IsAlong, AreNext, faults_of};

use crate::seen::Seen;
use std::marker::Model;
use xt_io::BundleReader;
use xt_outside::{Failed, Source};

/// The payload of the last head that a reader gave, as it is read.
#[derive(Drop)]
pub(crate) struct Payload<S: Source> {
    reader: BundleReader<S>,
    // The reader before the first octet was read.
    began: Seen<BundleReader<S>>,
    read: u64,
    whole: u64,
    // How often a read met the end of the input. It stands still at the end of its type.
    cuts: u64,
}

impl<S: Source> Model for Payload<S> {
    ghost use Rattle.xt_wire.specs.streams.Streams.{Streaming, IsRead};

    ghost Value = { Streaming };

    ghost view = { λ p. record { began = p.began.value; reader = p.reader; read = p.read; whole = p.whole; cuts = p.cuts } };

    ghost invariant = { λ p. IsRead (record { began = p.began.value; reader = p.reader; read = p.read; whole = p.whole; cuts = p.cuts }) };
}

impl<S: Source> Payload<S> {
    /// The payload of this length, of which nothing was read.
    #[tactic(auto, using(crate::proofs::OfStreams::Streaming::enough_begins))]
    pub(crate) fn new(reader: BundleReader<S>, length: u32) -> Payload<S>
        requires { IsUnread length reader }
        ensures { result ≡ record { began = reader; reader = reader; read = 0; whole = length; cuts = 0 } }
    {
        let began = Seen::now(&reader);
        Payload {
            reader,
            began,
            read: 0,
            whole: u64::from(length),
            cuts: 0,
        }
    }

    /// How many octets were read.
    pub(crate) fn read(&self) -> u64
        ensures { result ≡ self.now.read }
    {
        self.read
    }

    /// Gives the reader back.
    pub(crate) fn end(self) -> BundleReader<S>
        ensures value { result ≡ self.reader }
        ensures read { IsRead self }
    {
        let Payload {
            reader,
            began: _,
            read: _,
            whole: _,
            cuts: _,
        } = self;
        reader
    }

    /// Reads some of the next octets to the front of the slice: at least one. It fails where the source does, and where the input
    /// ends here.
    fn read_some(&mut self, into: &mut [u8]) -> Result<usize, Failed>
        requires some { 0 < length into.old }
        requires within { self.old.read + length into.old ≤ self.old.whole }
        ensures along { IsAlong self.old self.new }
        ensures bound { IfOk result (λ n. (0 < n) × (n ≤ length into.new)) }
        ensures read { IfOk result (λ n. self.new.read ≡ self.old.read + n) }
        ensures octets { IfOk result (λ n. AreNext self.old (take n into.new)) }
        ensures stays { OnErr result (self.new.read ≡ self.old.read) }
        ensures rose { OnErr result (Rose (faults_of self.old) (faults_of self.new)) }
    {
        let count = self.reader.read(into)?;
        if count == 0 {
            self.cuts = self.cuts.saturating_add(1);
            return Err(Failed);
        }
        self.read += count as u64;
        Ok(count)
    }

    /// Fills the slice with the next octets. A failure comes after some of these.
    pub(crate) fn fill(&mut self, into: &mut [u8]) -> Result<(), Failed>
        requires { self.old.read + length into.old ≤ self.old.whole }
        ensures along { IsAlong self.old self.new }
        ensures read { OnOk result (self.new.read ≡ self.old.read + length into.new) }
        ensures later { self.old.read ≤ self.new.read }
        ensures within { self.new.read ≤ self.old.read + length into.new }
        ensures octets { AreNext self.old (take (self.new.read - self.old.read) into.new) }
        ensures rose { OnErr result (Rose (faults_of self.old) (faults_of self.new)) }
    {
        let mut at = 0;
        while at < into.len() {
            at += self.read_some(&mut into[at..])?;
        }
        Ok(())
    }
}
