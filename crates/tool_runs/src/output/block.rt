// What was written of a body and is still to be handed on.
ghost use Rattle.std.specs.Prelude.{◌≡◌, ◌++◌, [], false, nat_le, length, IfOk, OnOk, OnErr, Some};
ghost use Rattle.std.specs.Io.KnownBytes.{Appends, Keeps};
ghost use Rattle.xt_io.specs.Outside.{AppendsAll, AppendsPrefix, HasCause};
ghost use Rattle.tool_runs.specs.output.Blocks.{held, wanting, reached, Finishes, KeepsAnswer};
ghost use Rattle.tool_runs.specs.output.Runs.{HaltsWriting};
ghost use Rattle.tool_runs.specs.output.Texts.{octets_of};

use crate::output::halt::Halt;
use crate::output::saying::say;
use crate::output::stop::Stop;
use std::alloc::Global;
use xt_io::{Failed, Sink, write_whole};
use xt_lists::{OutOfMemory, Text};

// A block is handed on once it holds so many octets.
const BLOCK: usize = 65_536;

/// A sink in memory. It holds what it takes until that is handed on to another sink, and fails only where memory is wanting.
#[derive(Debug, Drop)]
pub struct Block {
    front: Vec<u8>,
    // a large text that stands behind the front as it was given
    large: Option<Text>,
    wanting: u64,
}

// The octets of a text, or none.
fn octets_in(large: &Option<Text>) -> &[u8]
    ensures { result.now ≡ octets_of large.now }
{
    match large {
        Some(text) => text.octets(),
        None => &[],
    }
}

// Writes octets, and others behind them.
fn write_both<K: Sink>(sink: &mut K, front: &[u8], behind: &[u8]) -> Result<(), Failed>
    ensures whole { OnOk result (AppendsAll (K.taken sink.old) (K.taken sink.new) (front.now ++ behind.now)) }
    ensures prefix { OnErr result (AppendsPrefix (K.taken sink.old) (K.taken sink.new) (front.now ++ behind.now)) }
    ensures same { K.name sink.new ≡ K.name sink.old }
    ensures cause { HasCause (K.faults sink.old) (K.faults sink.new) result }
{
    write_whole(sink, front)?;
    write_whole(sink, behind)
}

impl Block {
    /// An empty block, with memory for 65,536 octets.
    pub fn new(alloc: Global) -> Result<Block, OutOfMemory>
        ensures { IfOk result (λ block. held block ≡ []) }
    {
        let front = Vec::with_capacity(alloc, BLOCK)?;
        Ok(Block {
            front,
            large: None,
            wanting: 0,
        })
    }

    /// Whether it holds 65,536 octets or more.
    pub fn is_full(&self) -> bool
        ensures { result ≡ nat_le 65536 (length (held self.now)) }
    {
        self.front
            .len()
            .saturating_add(octets_in(&self.large).len())
            >= BLOCK
    }

    // Takes octets behind those that it holds.
    fn append(&mut self, from: &[u8]) -> Result<(), OutOfMemory>
        ensures ok { OnOk result (held self.new ≡ held self.old ++ from.now) }
        ensures err { OnErr result (held self.new ≡ held self.old) }
        ensures wanting { wanting self.new ≡ wanting self.old }
    {
        match &mut self.large {
            Some(text) => text.append(from),
            None => Ok(self.front.extend_from_slice(from)?),
        }
    }

    /// Takes a text. The octets of a large one aren't copied, where no other large one waits.
    pub fn put(&mut self, text: Text) -> Result<(), Halt>
        ensures text { OnOk result (Appends (Some (held self.old)) (Some (held self.new)) text) }
        ensures prefix { OnErr result (AppendsPrefix (Some (held self.old)) (Some (held self.new)) text) }
        ensures halts { HaltsWriting (wanting self.old) (wanting self.new) result }
    {
        if text.len() < BLOCK || self.large.is_some() {
            return say(self, text.octets());
        }
        self.large = Some(text);
        Ok(())
    }

    /// Hands on all that it holds in as few writes as the sink wants: none, where it holds nothing. Afterwards it holds nothing, also where the
    /// sink failed and took only some of the first octets.
    pub fn hand_on<K: Sink>(&mut self, sink: &mut K) -> Result<(), Failed>
        ensures whole { OnOk result (AppendsAll (K.taken sink.old) (K.taken sink.new) (held self.old)) }
        ensures prefix { OnErr result (AppendsPrefix (K.taken sink.old) (K.taken sink.new) (held self.old)) }
        ensures empty { held self.new ≡ [] }
        ensures wanting { wanting self.new ≡ wanting self.old }
        ensures same { K.name sink.new ≡ K.name sink.old }
        ensures cause { HasCause (K.faults sink.old) (K.faults sink.new) result }
    {
        let written = write_both(sink, self.front.as_slice(), octets_in(&self.large));
        self.front.clear();
        self.large = None;
        written
    }

    /// The same, unless this may wait.
    pub fn hand_on_unless<K: Sink>(&mut self, may_wait: bool, sink: &mut K) -> Result<(), Failed>
        ensures some { AppendsPrefix (K.taken sink.old) (K.taken sink.new) (held self.old) }
        ensures all { OnOk result (Keeps (reached (K.taken sink.old) (held self.old)) (reached (K.taken sink.new) (held self.new))) }
        ensures none { OnErr result (held self.new ≡ []) }
        ensures handed { may_wait ≡ false → held self.new ≡ [] }
        ensures wanting { wanting self.new ≡ wanting self.old }
        ensures same { K.name sink.new ≡ K.name sink.old }
        ensures cause { HasCause (K.faults sink.old) (K.faults sink.new) result }
    {
        if may_wait { Ok(()) } else { self.hand_on(sink) }
    }
}

impl Sink for Block {
    ghost use Rattle.std.specs.Prelude.{◌++◌, Some};
    ghost use Rattle.tool_runs.specs.output.Texts.{octets_of};

    ghost taken = { λ block. Some (block.front.items ++ octets_of block.large) };

    ghost faults = { λ block. block.wanting };

    fn write(&mut self, from: &[u8]) -> Result<usize, Failed> {
        match self.append(from) {
            Ok(()) => Ok(from.len()),
            Err(_) => {
                self.wanting = self.wanting.saturating_add(1);
                Err(Failed)
            }
        }
    }
}

/// Hands on what a block holds at the end of a run, and answers as the run did, or with the sink's fault.
pub fn finish<K: Sink>(block: Block, ran: Result<u32, Stop>, sink: &mut K) -> Result<u32, Stop>
    ensures finishes { Finishes ran result (K.taken sink.old) (K.taken sink.new) (held block) }
    ensures answer { KeepsAnswer (K.faults sink.old) (K.faults sink.new) ran result }
    ensures same { K.name sink.new ≡ K.name sink.old }
{
    let mut block = block;
    match block.hand_on(sink) {
        Ok(()) => ran,
        Err(_) => Err(Stop::Halted(Halt::WriteFault)),
    }
}
