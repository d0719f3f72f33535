//! The reader of bundles.
ghost use Rattle.std.specs.Prelude.{◌≡◌, ◌≤◌, ◌<◌, ◌+◌, ◌∷◌, ℕ, length, min, None, Some, Ok, Err, IfOk, IfErr, IfSome, IsErrOf};
ghost use Rattle.std.specs.Io.{ReadsAtMost};
ghost use Rattle.std.specs.Io.KnownBytes.{IsAtEnd, ReadConsumes};
ghost use Rattle.std.specs.Option.{option_map};
ghost use Rattle.xt_outside.specs.Outside.{HasCause, HasReadCause, KeepsRest, KeepsTold, TakesUpTo};
ghost use Rattle.xt_outside.specs.declared.records.RecordFault.TheVariants.{ReadFault, Truncated, OutOfMemory};
ghost use Rattle.xt_outside.specs.Bundles.{bundle, limit_of};
ghost use Rattle.xt_io.specs.Readers.{Steps, StepsToHead, Ends, CutsPayload, IsTold, PassesPending, Answers, given_by, pending_after, ReadsOn, inside, rest_of, first_fault};

use crate::filling::{fill, pass_payload, read_payload};
use crate::record::read_head;
use std::alloc::Global;
use std::marker::Model;
use xt_lists::Text;
use xt_outside::{Failed, Head, Item, RecordFault, Source};

const MOST_RECORDS: u32 = 1_048_576;

// The octets of a head.
const HEAD: usize = 5;

/// A payload that is being read: its head, and how many of its octets are left.
#[derive(Clone, Copy, Debug, PartialEq, Eq)]
pub struct Pending {
    pub head: Head,
    pub rest: u32,
}

/// Reads the records of a bundle, one after another. After a fault every call for a record, a head or a payload answers
/// that fault again.
///
/// A reader over a borrowed source gives it back by `end`.
#[derive(Drop)]
pub struct BundleReader<S: Source> {
    source: S,
    at: u64,
    more: u32,
    pending: Option<Pending>,
    fault: Option<RecordFault>,
}

impl<S: Source> Model for BundleReader<S> {
    ghost use Rattle.std.specs.Prelude.{◌≡◌, true, is_some};
    ghost use Rattle.xt_io.specs.Readers.{Reading, to_come, IsWithin, may_read};

    ghost Value = { Reading };

    ghost view = { λ r. record { ahead = to_come r.fault r.pending r.more r.at (S.left r.source); fault = r.fault; may_follow = r.more; pending = r.pending; left = S.left r.source; faults = S.faults r.source; name = S.name r.source } };

    ghost invariant = { λ r. IsWithin r.at r.more × (is_some r.pending ≡ true → may_read r.fault ≡ true) };
}

// Passes over what is left of a payload, if one is being read.
fn pass_pending<S: Source>(source: &mut S, pending: Option<Pending>) -> Result<(), RecordFault>
    ensures octets { IfOk result (λ _. PassesPending pending (S.left source.old) (S.left source.new)) }
    ensures cut { IfErr result (CutsPayload pending (S.left source.old)) }
    ensures no_memory { ¬ IsErrOf result OutOfMemory }
    ensures cause { HasReadCause (S.faults source.old) (S.faults source.new) result }
    ensures same { S.name source.new ≡ S.name source.old }
{
    match pending {
        Some(Pending { head, rest }) => pass_payload(source, head, rest),
        None => Ok(()),
    }
}

// Reads what is left of a payload, if one is being read.
fn read_pending<S: Source>(
    source: &mut S,
    pending: Option<Pending>,
    payload: &mut Text,
) -> Result<(), RecordFault>
    ensures octets { IfOk result (λ _. TakesUpTo (rest_of pending) (S.left source.old) (S.left source.new) payload.new) }
    ensures whole { IfOk result (λ _. length payload.new ≡ rest_of pending) }
    ensures cut { IfErr result (CutsPayload pending (S.left source.old)) }
    ensures cause { HasReadCause (S.faults source.old) (S.faults source.new) result }
    ensures same { S.name source.new ≡ S.name source.old }
{
    match pending {
        Some(Pending { head, rest }) => read_payload(source, head, rest, payload),
        None => {
            payload.clear();
            Ok(())
        }
    }
}

// A fault that was met, or this one.
fn first_of(met: Option<RecordFault>, fault: RecordFault) -> Option<RecordFault>
    ensures { result ≡ first_fault met fault }
{
    match met {
        Some(first) => Some(first),
        None => Some(fault),
    }
}

impl<S: Source> BundleReader<S> {
    /// A reader of the records of this source. It takes no memory.
    pub fn new(source: S) -> BundleReader<S>
        ensures records { result.ahead ≡ option_map bundle (S.left source) }
        ensures follow { result.may_follow ≡ 1048576 }
        ensures fault { result.fault ≡ None }
        ensures pending { result.pending ≡ None }
        ensures left { result.left ≡ S.left source }
        ensures faults { result.faults ≡ S.faults source }
        ensures same { result.name ≡ S.name source }
    {
        BundleReader {
            source,
            at: 0,
            more: MOST_RECORDS,
            pending: None,
            fault: None,
        }
    }

    /// Gives the source back, where the last read left it. It takes no memory.
    pub fn end(self) -> S
        ensures left { S.left result ≡ self.left }
        ensures faults { S.faults result ≡ self.faults }
        ensures same { S.name result ≡ self.name }
    {
        let BundleReader {
            source,
            at: _,
            more: _,
            pending: _,
            fault: _,
        } = self;
        source
    }

    /// The next record whole, or None exactly at the end of the input between two records.
    ///
    /// `TooMany` is tried first, then `UnknownKind`, and then the length is read. `TooMany` comes at record 1,048,577,
    /// `TooLong` where the length passes the limit of its kind, `Truncated` where the input ends inside a record,
    /// `ReadFault` only where the source failed, and `OutOfMemory` for want of memory. Every later call answers the
    /// same fault.
    pub fn next_item(&mut self, alloc: Global) -> Result<Option<Item>, RecordFault>
        // One step through the bundle, whatever way the source cuts the octets.
        ensures step { Steps self.old.ahead result self.new.ahead }
        ensures ended { result ≡ Ok None → IsAtEnd self.new.left }
        ensures fewer { IfOk result (λ found. self.new.may_follow + given_by found ≡ self.old.may_follow) }
        ensures pending { self.old.fault ≡ None → self.new.pending ≡ None }
        ensures answers { Answers self.old self.new result }
    {
        let Some(head) = self.next_head()? else {
            return Ok(None);
        };
        let payload = self.payload(alloc)?;
        Ok(Some(Item {
            kind: head.kind,
            at: head.at,
            payload,
        }))
    }

    /// The head of the next record, or None exactly at the end of the input between two records. What is left of the
    /// payload before it is passed over, which may meet the end of the input as well. Its faults are those of
    /// `next_item`, but it takes no memory.
    ///
    /// The payload is then read by `payload`, or through the reader as a `Source`.
    pub fn next_head(&mut self) -> Result<Option<Head>, RecordFault>
        ensures step { StepsToHead self.old.ahead result (inside self.new) self.new.ahead }
        ensures pending { self.old.fault ≡ None → self.new.pending ≡ pending_after result }
        ensures ended { result ≡ Ok None → IsAtEnd self.new.left }
        ensures fewer { IfOk result (λ found. self.new.may_follow + given_by found ≡ self.old.may_follow) }
        ensures no_memory { IsErrOf result OutOfMemory → self.old.fault ≡ Some OutOfMemory }
        // A payload is no longer than its kind's may be, also where the source tells no octets.
        ensures within { IfOk result (λ found. IfSome found (λ head. head.length ≤ limit_of head.kind)) }
        ensures answers { Answers self.old self.new result }
    {
        if let Some(fault) = self.fault {
            return Err(fault);
        }
        match self.advance() {
            Ok(head) => Ok(head),
            Err(fault) => {
                self.pending = None;
                self.fault = Some(fault);
                Err(fault)
            }
        }
    }

    /// What is left of the payload of the last head: nothing, where no head was given or its payload was read.
    ///
    /// It answers `Truncated` where the input ends before the payload, or where a read met that end before, `ReadFault`
    /// only where the source failed, also in an earlier read, and `OutOfMemory` for want of memory.
    pub fn payload(&mut self, alloc: Global) -> Result<Text, RecordFault>
        ensures octets { IfOk result (IsTold (inside self.old)) }
        ensures whole { IfOk result (λ t. length t ≡ rest_of self.old.pending) }
        ensures ahead { IfOk result (λ _. KeepsTold self.old.ahead self.new.ahead) }
        ensures pending { self.old.fault ≡ None → self.new.pending ≡ None }
        ensures ends { IfErr result (λ fault. Ends fault self.old.ahead) }
        ensures cut { self.old.fault ≡ None → IfErr result (CutsPayload self.old.pending self.old.left) }
        ensures follow { self.new.may_follow ≡ self.old.may_follow }
        ensures answers { Answers self.old self.new result }
    {
        let mut payload = Text::new(alloc);
        match self.payload_into(&mut payload) {
            Ok(()) => Ok(payload),
            Err(fault) => Err(fault),
        }
    }

    /// The same, in place of what the text held, whose memory is used again: so one text serves for many payloads. What it holds after a
    /// fault says nothing.
    pub fn payload_into(&mut self, payload: &mut Text) -> Result<(), RecordFault>
        ensures octets { IfOk result (λ _. IsTold (inside self.old) payload.new) }
        ensures whole { IfOk result (λ _. length payload.new ≡ rest_of self.old.pending) }
        ensures ahead { IfOk result (λ _. KeepsTold self.old.ahead self.new.ahead) }
        ensures pending { self.old.fault ≡ None → self.new.pending ≡ None }
        ensures ends { IfErr result (λ fault. Ends fault self.old.ahead) }
        ensures cut { self.old.fault ≡ None → IfErr result (CutsPayload self.old.pending self.old.left) }
        ensures follow { self.new.may_follow ≡ self.old.may_follow }
        ensures answers { Answers self.old self.new result }
    {
        if let Some(fault) = self.fault {
            return Err(fault);
        }
        let pending = self.pending;
        self.pending = None;
        match read_pending(&mut self.source, pending, payload) {
            Ok(()) => Ok(()),
            Err(fault) => {
                self.fault = Some(fault);
                Err(fault)
            }
        }
    }

    /// Passes over what is left of the payload of the last head: over nothing, where no head was given or its payload was read. It takes
    /// no memory, and its faults are those of `payload` but for want of memory.
    pub fn pass_payload(&mut self) -> Result<(), RecordFault>
        ensures octets { IfOk result (λ _. PassesPending self.old.pending self.old.left self.new.left) }
        ensures whole { IfOk result (λ _. IfSome (inside self.old) (λ octets. length octets ≡ rest_of self.old.pending)) }
        ensures ahead { IfOk result (λ _. KeepsTold self.old.ahead self.new.ahead) }
        ensures pending { self.old.fault ≡ None → self.new.pending ≡ None }
        ensures ends { IfErr result (λ fault. Ends fault self.old.ahead) }
        ensures cut { self.old.fault ≡ None → IfErr result (CutsPayload self.old.pending self.old.left) }
        ensures no_memory { IsErrOf result OutOfMemory → self.old.fault ≡ Some OutOfMemory }
        ensures follow { self.new.may_follow ≡ self.old.may_follow }
        ensures answers { Answers self.old self.new result }
    {
        if let Some(fault) = self.fault {
            return Err(fault);
        }
        let pending = self.pending;
        self.pending = None;
        match pass_pending(&mut self.source, pending) {
            Ok(()) => Ok(()),
            Err(fault) => {
                self.fault = Some(fault);
                Err(fault)
            }
        }
    }

    // How many octets are left of the payload of the last head.
    fn left_of_payload(&self) -> u32
        ensures { result ≡ rest_of self.now.pending }
    {
        match self.pending {
            Some(pending) => pending.rest,
            None => 0,
        }
    }

    /// Whether what is left of the payload of the last head is at hand (`Source::at_hand`), so that reading it waits for no device.
    pub fn has_payload(&self) -> bool {
        self.left_of_payload() as usize <= self.source.at_hand()
    }

    /// The same of what is left of that payload and the head behind it.
    pub fn has_head(&self) -> bool {
        self.left_of_payload() as usize + HEAD <= self.source.at_hand()
    }

    // The next head of a reader that met no fault.
    fn advance(&mut self) -> Result<Option<Head>, RecordFault>
        requires { self.old.fault ≡ None }
        ensures step { StepsToHead self.old.ahead result (inside self.new) self.new.ahead }
        ensures pending { IfOk result (λ _. self.new.pending ≡ pending_after result) }
        ensures ended { result ≡ Ok None → IsAtEnd self.new.left }
        ensures fewer { IfOk result (λ found. self.new.may_follow + given_by found ≡ self.old.may_follow) }
        ensures fault { self.new.fault ≡ None }
        ensures no_memory { ¬ IsErrOf result OutOfMemory }
        ensures within { IfOk result (λ found. IfSome found (λ head. head.length ≤ limit_of head.kind)) }
        ensures cause { HasReadCause self.old.faults self.new.faults result }
        ensures same { self.new.name ≡ self.old.name }
    {
        pass_pending(&mut self.source, self.pending)?;
        self.pending = None;
        if self.more == 0 {
            let mut octet = [0u8; 1];
            if fill(&mut self.source, &mut octet)? < 1 {
                return Ok(None);
            }
            return Err(RecordFault::TooMany { at: self.at });
        }
        match read_head(&mut self.source, self.at)? {
            None => Ok(None),
            Some(head) => {
                self.at += 5 + u64::from(head.length);
                self.more -= 1;
                self.pending = Some(Pending {
                    head,
                    rest: head.length,
                });
                Ok(Some(head))
            }
        }
    }
}

impl<S: Source> Source for BundleReader<S> {
    ghost left = { λ r. inside r };

    ghost faults = { λ r. r.faults };

    ghost name = { λ r. r.may_follow ∷ r.name };

    ghost behind = { λ r. r.ahead };

    /// Reads some octets of the payload of the last head. The end of the payload is the end of the input here, and so
    /// is the end of the source's input inside the payload.
    fn read(&mut self, into: &mut [u8]) -> Result<usize, Failed>
        ensures bound { ReadsAtMost result into.new }
        ensures octets { ReadConsumes (inside self.old) (inside self.new) result into.new }
        ensures rest { KeepsRest result into.old into.new }
        ensures behind { IfOk result (λ _. KeepsTold self.old.ahead self.new.ahead) }
        ensures same { self.new.may_follow ∷ self.new.name ≡ self.old.may_follow ∷ self.old.name }
        ensures cause { HasCause self.old.faults self.new.faults result }
        // Nothing happens where there is no room, or no payload to read.
        ensures idle { min (length into.new) (rest_of self.old.pending) ≡ 0 → (result ≡ Ok 0) × (self.new ≡ self.old) }
        // The payload is read on by so many octets. A failed read may be tried again.
        ensures went { IfOk result (λ n. 0 < n → ReadsOn n self.old.pending self.new.pending) }
        ensures retried { IfErr result (λ _. self.new.pending ≡ self.old.pending) }
        // A fault stays.
        ensures kept { IfSome self.old.fault (λ fault. self.new.fault ≡ Some fault) }
        // A read that failed is answered as a read fault by each later call for a record, a head or a payload.
        ensures failed { IfErr result (λ _. self.new.fault ≡ Some ReadFault) }
        // So is the end of the input inside the payload, where no read failed before.
        ensures met { result ≡ Ok 0 → 0 < length into.new → IfSome self.old.pending (λ p. 0 < p.rest → self.new.fault ≡ first_fault self.old.fault (Truncated p.head.at p.head.kind)) }
        ensures unmet { IfOk result (λ n. 0 < n → self.new.fault ≡ self.old.fault) }
    {
        let Some(pending) = self.pending else {
            return Ok(0);
        };
        let want = into.len().min(pending.rest as usize);
        if want == 0 {
            return Ok(0);
        }
        let count = match self.source.read(&mut into[..want]) {
            Ok(count) => count,
            Err(failed) => {
                self.fault = Some(RecordFault::ReadFault);
                return Err(failed);
            }
        };
        if count == 0 {
            self.pending = None;
            let cut = RecordFault::Truncated {
                at: pending.head.at,
                kind: pending.head.kind,
            };
            self.fault = first_of(self.fault, cut);
            return Ok(0);
        }
        self.pending = Some(Pending {
            head: pending.head,
            rest: pending.rest - count as u32,
        });
        Ok(count)
    }

    fn at_hand(&self) -> usize {
        (self.left_of_payload() as usize).min(self.source.at_hand())
    }
}
