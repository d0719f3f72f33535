// Recordings, read by a type of today.
ghost use Rattle.std.specs.Prelude.{◌≡◌, IfOk, IfErr, IfSome, OnErr, OnOk, Ok, Err, None, Some, true};
ghost use Rattle.type_trees.specs.Bridge.{type_shape};
ghost use Rattle.type_trees.specs.View.{tree};
ghost use Rattle.projection_laws.specs.Premises.{IsValid};
ghost use Rattle.type_trees.specs.samples.Tops.{is_top};
ghost use Rattle.xt_recorder.specs.Replays as spec;
ghost use Rattle.assignability.specs.Views.{verdict_view};
ghost use Rattle.xcdr_model.specs.Failure.{first_failure};
ghost use Rattle.xcdr_model.specs.Policies.{standard};
ghost use Rattle.type_object.specs.Faults as pool_faults;
ghost use Rattle.type_object.specs.Pools.{added};
ghost use Rattle.object_walks.specs.Resolving.{resolved};
ghost use Rattle.xcdr_model.specs.Samples.{read_sample};
ghost use Rattle.xt_recorder.specs.Streams.{stream_of};
ghost use Rattle.xt_recorder.specs.declared.replayed.ReplayFault.TheVariants as faults;
ghost use Rattle.xt_recorder.specs.Answers.{answer, Refuses};
ghost use Rattle.xt_recorder.specs.Judged.{judged};
ghost use Rattle.xt_recorder.specs.Replaying.{reader_of, state_of};

use crate::found::Found;
use crate::replayed::{ReplayFault, Replayed};
use crate::replayer::{Replayer, Stream};
use crate::streams::stream_of;
use assignability::{Verdict, judge};
use object_walks::{ResolveFault, resolve};
use pair_judge::{Policy, judge_ids};
use std::alloc::Global;
use type_object::{Pool, PoolFault};
use type_rules::is_within_limits;
use type_trees::samples::is_top;
use type_trees::{HashId, XType};
use xcdr_samples::read_sample;
use xt_io::{Item, Kind};
use xt_lists::OutOfMemory;
use xt_shapes::Rep;
use xt_wire::cursor::{DecodeFault, SliceCursor};

fn is_yes(verdict: &Verdict) -> bool
    ensures { result ≡ spec.is_yes (verdict_view verdict.now) }
{
    match verdict {
        Verdict::Yes => true,
        Verdict::No { .. } => false,
    }
}

impl Replayer {
    /// A reader of recordings, with the objects of a pool. It takes no memory.
    pub fn new(reader: XType, pool: Pool) -> Replayer
        requires valid { IsValid reader }
        requires top { is_top (type_shape reader) ≡ true }
        ensures reader { reader_of result ≡ tree reader }
        ensures state { state_of result ≡ record { pool = pool; stream = None } }
    {
        Replayer {
            reader,
            id: None,
            pool,
            stream: None,
            last: None,
        }
    }

    /// The same, where the objects resolve an identifier to the reader's type: whether it is assignable from a stream's is told by their objects then.
    pub fn by_id(reader: XType, id: HashId, pool: Pool) -> Replayer
        requires valid { IsValid reader }
        requires top { is_top (type_shape reader) ≡ true }
        requires resolves { resolved pool id ≡ Ok (tree reader) }
        ensures reader { reader_of result ≡ tree reader }
        ensures state { state_of result ≡ record { pool = pool; stream = None } }
    {
        Replayer {
            reader,
            id: Some(id),
            pool,
            stream: None,
            last: None,
        }
    }

    /// The reader's type.
    pub fn reader(&self) -> &XType
        ensures reader { tree result.now ≡ reader_of self.now }
        ensures valid { IsValid result.now }
    {
        &self.reader
    }

    /// The representation in which samples are read: that of a stream whose type the reader's is assignable from. None where there was no
    /// stream yet, or where the samples are passed over.
    pub fn reads_in(&self) -> Option<Rep>
        ensures { result ≡ spec.read_in (state_of self.now).stream }
    {
        match self.stream {
            Some(Stream { rep, yes: true }) => Some(rep),
            Some(Stream { yes: false, .. }) | None => None,
        }
    }

    // Adds an object. Where it was not there, what was found of a type is forgotten.
    fn add(&mut self, payload: &[u8]) -> Result<HashId, PoolFault>
        ensures ok { IfOk result (λ id. added self.old.pool payload.now ≡ Ok (id, self.new.pool)) }
        ensures err { IfErr result (λ fault. pool_faults.Refuses fault (added self.old.pool payload.now)) }
        ensures unchanged { OnErr result (self.new.pool ≡ self.old.pool) }
        ensures reader { reader_of self.new ≡ reader_of self.old }
        ensures stream { self.new.stream ≡ self.old.stream }
    {
        let count = self.pool.len();
        let added = self.pool.add(payload);
        if self.pool.len() != count {
            self.last = None;
        }
        added
    }

    fn object(&mut self, payload: &[u8]) -> Result<Replayed, ReplayFault>
        ensures ok { IfOk result (λ replayed. spec.object_taken (state_of self.old) (added self.old.pool payload.now) ≡ Ok (answer replayed, state_of self.new)) }
        ensures err { IfErr result (λ fault. Refuses fault (spec.object_taken (state_of self.old) (added self.old.pool payload.now))) }
        ensures reader { reader_of self.new ≡ reader_of self.old }
        ensures unchanged { OnErr result (state_of self.new ≡ state_of self.old) }
    {
        match self.add(payload) {
            Ok(_) => Ok(Replayed::Nothing),
            Err(PoolFault::OutOfMemory) => Err(ReplayFault::OutOfMemory),
            Err(fault) => Err(ReplayFault::Pool(fault)),
        }
    }

    // What was found of a type in a representation, where it is kept.
    fn kept(&self, id: &HashId, rep: Rep) -> Option<Verdict>
        ensures { IfSome result (λ verdict. judged (reader_of self.now) rep (resolved self.now.pool id.now) ≡ Some (verdict_view verdict)) }
    {
        match &self.last {
            Some(found) => found.verdict(id, rep),
            None => None,
        }
    }

    // Whether the reader's type is assignable from another: by their objects, where an identifier of the reader's is known.
    fn judge(&self, alloc: Global, rep: Rep, id: HashId, ty: &XType) -> Result<Verdict, OutOfMemory>
        requires { resolved self.now.pool id ≡ Ok (tree ty.now) }
        ensures { IfOk result (λ verdict. verdict_view verdict ≡ first_failure standard rep (type_shape self.now.reader) (type_shape ty.now)) }
    {
        match self.id {
            Some(own) => judge_ids(alloc, &Policy::standard(), rep, &self.pool, &own, &id),
            None => {
                is_within_limits();
                Ok(judge(rep, &self.reader, ty))
            }
        }
    }

    // Whether the reader's type is assignable from that of an identifier.
    fn judge_anew(&mut self, alloc: Global, id: HashId, rep: Rep) -> Result<Verdict, ReplayFault>
        ensures ok { IfOk result (λ verdict. judged (reader_of self.old) rep (resolved self.old.pool id) ≡ Some (verdict_view verdict)) }
        ensures err { IfErr result (λ fault. Refuses fault (spec.stream_begun (reader_of self.old) (state_of self.old) id rep (resolved self.old.pool id))) }
        ensures reader { reader_of self.new ≡ reader_of self.old }
        ensures state { state_of self.new ≡ state_of self.old }
    {
        let ty = match resolve(alloc, &self.pool, &id) {
            Ok(ty) => ty,
            Err(ResolveFault::OutOfMemory) => return Err(ReplayFault::OutOfMemory),
            Err(fault) => return Err(ReplayFault::Resolve(fault)),
        };
        if !is_top(&ty) {
            return Err(ReplayFault::Top(id));
        }
        let Ok(verdict) = self.judge(alloc, rep, id, &ty) else {
            return Err(ReplayFault::OutOfMemory);
        };
        self.last = Found::new(id, rep, &verdict);
        Ok(verdict)
    }

    // The verdict that is kept, or else a new one.
    fn verdict(&mut self, alloc: Global, id: HashId, rep: Rep) -> Result<Verdict, ReplayFault>
        ensures ok { IfOk result (λ verdict. judged (reader_of self.old) rep (resolved self.old.pool id) ≡ Some (verdict_view verdict)) }
        ensures err { IfErr result (λ fault. Refuses fault (spec.stream_begun (reader_of self.old) (state_of self.old) id rep (resolved self.old.pool id))) }
        ensures reader { reader_of self.new ≡ reader_of self.old }
        ensures state { state_of self.new ≡ state_of self.old }
    {
        match self.kept(&id, rep) {
            Some(verdict) => Ok(verdict),
            None => self.judge_anew(alloc, id, rep),
        }
    }

    fn begin(&mut self, alloc: Global, id: HashId, rep: Rep) -> Result<Replayed, ReplayFault>
        ensures ok { IfOk result (λ replayed. spec.stream_begun (reader_of self.old) (state_of self.old) id rep (resolved self.old.pool id) ≡ Ok (answer replayed, state_of self.new)) }
        ensures err { IfErr result (λ fault. Refuses fault (spec.stream_begun (reader_of self.old) (state_of self.old) id rep (resolved self.old.pool id))) }
        ensures reader { reader_of self.new ≡ reader_of self.old }
        ensures unchanged { OnErr result (state_of self.new ≡ state_of self.old) }
    {
        match self.verdict(alloc, id, rep) {
            Ok(verdict) => {
                let yes = is_yes(&verdict);
                self.stream = Some(Stream { rep, yes });
                Ok(Replayed::Stream { id, rep, verdict })
            }
            Err(fault) => Err(fault),
        }
    }

    fn note(&mut self, alloc: Global, payload: &[u8]) -> Result<Replayed, ReplayFault>
        ensures ok { IfOk result (λ replayed. spec.note_taken (reader_of self.old) (state_of self.old) (stream_of payload.now) ≡ Ok (answer replayed, state_of self.new)) }
        ensures err { IfErr result (λ fault. Refuses fault (spec.note_taken (reader_of self.old) (state_of self.old) (stream_of payload.now))) }
        ensures reader { reader_of self.new ≡ reader_of self.old }
        ensures unchanged { OnErr result (state_of self.new ≡ state_of self.old) }
    {
        match stream_of(alloc, payload) {
            Err(_) => Err(ReplayFault::OutOfMemory),
            Ok(None) => Ok(Replayed::Nothing),
            Ok(Some((id, rep))) => self.begin(alloc, id, rep),
        }
    }

    // What the reader's type makes of a sample.
    fn read(&self, alloc: Global, rep: Rep, payload: &[u8]) -> Result<Replayed, ReplayFault>
        ensures ok { IfOk result (λ replayed. answer replayed ≡ spec.sample_answer (read_sample rep (type_shape self.now.reader) payload.now)) }
        ensures err { IfErr result (λ fault. fault ≡ faults.OutOfMemory) }
    {
        let mut cursor = SliceCursor::new(payload);
        match read_sample(alloc, rep, &self.reader, &mut cursor) {
            Ok(outcome) => Ok(Replayed::Read(outcome)),
            Err(DecodeFault::Malformed { at, why }) => Ok(Replayed::Malformed { at, why }),
            Err(DecodeFault::ReadFault) => Err(ReplayFault::OutOfMemory),
            Err(DecodeFault::OutOfMemory) => Err(ReplayFault::OutOfMemory),
        }
    }

    fn sample(&self, alloc: Global, payload: &[u8]) -> Result<Replayed, ReplayFault>
        ensures ok { IfOk result (λ replayed. spec.sample_taken (reader_of self.now) (state_of self.now) (state_of self.now).stream payload.now ≡ Ok (answer replayed, state_of self.now)) }
        ensures err { IfErr result (λ fault. Refuses fault (spec.sample_taken (reader_of self.now) (state_of self.now) (state_of self.now).stream payload.now)) }
    {
        match self.stream {
            None => Err(ReplayFault::Misplaced),
            Some(Stream { yes: false, .. }) => Ok(Replayed::Nothing),
            Some(Stream { rep, yes: true }) => self.read(alloc, rep, payload),
        }
    }

    /// Takes the next record. After a fault the Replayer is unchanged.
    pub fn take(&mut self, alloc: Global, item: &Item) -> Result<Replayed, ReplayFault>
        ensures ok { IfOk result (λ replayed. spec.taken (reader_of self.old) (state_of self.old) item.now ≡ Ok (answer replayed, state_of self.new)) }
        ensures err { IfErr result (λ fault. Refuses fault (spec.taken (reader_of self.old) (state_of self.old) item.now)) }
        ensures reader { reader_of self.new ≡ reader_of self.old }
        ensures unchanged { OnErr result (state_of self.new ≡ state_of self.old) }
    {
        let payload = item.payload.octets();
        match item.kind {
            Kind::Object => self.object(payload),
            Kind::Note => self.note(alloc, payload),
            Kind::Sample => self.sample(alloc, payload),
            Kind::Idl => Err(ReplayFault::Misplaced),
            Kind::Json => Err(ReplayFault::Misplaced),
        }
    }
}
