ghost use Rattle.std.specs.Prelude.{◌≡◌};
ghost use Rattle.std.specs.Option.{option_map};
ghost use Rattle.tool_words.specs.Words as spec;
ghost use Rattle.tool_words.specs.View.{pair_view, command_view};

use crate::depths::Depth;
use crate::numbers::{count_below, long_number, number_below};
use crate::policies::policy_of;
use crate::references::{Reference, named_by};
use xcdr_model::Policy;
use xt_io::Kind;
use xt_lists::Word;
use xt_shapes::Rep;

/// A reader's type and a writer's, and under which representation and policy they are judged.
#[derive(Clone, Copy)]
pub struct Pair<'a> {
    pub reader: Reference<'a>,
    pub writer: Reference<'a>,
    pub rep: Rep,
    pub policy: Policy,
}

/// What a command line asks.
#[derive(Clone, Copy)]
pub enum Command<'a> {
    /// The objects of the types that texts declare.
    Compile,
    /// Whether the reader's type is assignable from the writer's.
    Judge(Pair<'a>),
    /// The writer's samples, each as the reader's type sees it.
    Read(Pair<'a>),
    /// Samples of JSON values.
    Write(Reference<'a>, Rep),
    /// The writer's samples as samples of the reader's type in another representation.
    Convert(Pair<'a>, Rep),
    /// The types that are declared.
    Show,
    /// The input as one record.
    Wrap(Kind),
    /// The last values of each key, as the reader's type sees them.
    Instances(Pair<'a>, Depth),
    /// The writer's samples behind the objects of their type.
    Record(Reference<'a>, Rep),
    /// Recordings, as the reader's type sees them.
    Replay(Reference<'a>),
    /// So many pairs of types from a seed.
    Make(u64, u32),
    /// What each version of the types changes for readers and writers of the one before.
    Compare(Rep, Policy),
}

fn rep_of(word: &[u8]) -> Option<Rep>
    ensures { result ≡ spec.rep_of word.now }
{
    if word == b"xcdr1".as_slice() {
        Some(Rep::Xcdr1)
    } else if word == b"xcdr2".as_slice() {
        Some(Rep::Xcdr2)
    } else {
        None
    }
}

fn kind_word(word: &[u8]) -> Option<Kind>
    ensures { result ≡ spec.kind_word word.now }
{
    if word == b"object".as_slice() {
        Some(Kind::Object)
    } else if word == b"sample".as_slice() {
        Some(Kind::Sample)
    } else if word == b"idl".as_slice() {
        Some(Kind::Idl)
    } else if word == b"json".as_slice() {
        Some(Kind::Json)
    } else {
        None
    }
}

fn pair_of<'a>(reader: &'a [u8], writer: &'a [u8], rep: &[u8], rest: &[Word]) -> Option<Pair<'a>>
    ensures { option_map pair_view result ≡ spec.pair_of reader.now writer.now rep.now rest.now }
{
    let reader = named_by(reader)?;
    let writer = named_by(writer)?;
    let rep = rep_of(rep)?;
    let policy = policy_of(rest)?;
    Some(Pair {
        reader,
        writer,
        rep,
        policy,
    })
}

#[tactic(auto, unfolding(crate::specs::Words::pair_words))]
fn pair_words(words: &[Word]) -> Option<Pair<'_>>
    ensures { option_map pair_view result ≡ spec.pair_words words.now }
{
    match words {
        [reader, writer, rep, rest @ ..] => {
            pair_of(reader.octets(), writer.octets(), rep.octets(), rest)
        }
        _ => None,
    }
}

#[tactic(auto, unfolding(crate::specs::Words::convert_words))]
fn convert_words(words: &[Word]) -> Option<Command<'_>>
    ensures { option_map command_view result ≡ spec.convert_words words.now }
{
    match words {
        [reader, writer, rep, to, rest @ ..] => {
            let to = rep_of(to.octets())?;
            let pair = pair_of(reader.octets(), writer.octets(), rep.octets(), rest)?;
            Some(Command::Convert(pair, to))
        }
        _ => None,
    }
}

#[tactic(auto, unfolding(crate::specs::Words::write_words))]
fn write_words(words: &[Word]) -> Option<Command<'_>>
    ensures { option_map command_view result ≡ spec.write_words words.now }
{
    match words {
        [ty, rep] => {
            let ty = named_by(ty.octets())?;
            let rep = rep_of(rep.octets())?;
            Some(Command::Write(ty, rep))
        }
        _ => None,
    }
}

#[tactic(auto, unfolding(crate::specs::Words::wrap_words))]
fn wrap_words(words: &[Word]) -> Option<Command<'_>>
    ensures { option_map command_view result ≡ spec.wrap_words words.now }
{
    match words {
        [kind] => match kind_word(kind.octets()) {
            Some(kind) => Some(Command::Wrap(kind)),
            None => None,
        },
        _ => None,
    }
}

fn depth_of(word: &[u8]) -> Option<Depth>
    ensures { option_map (λ depth. depth.count) result ≡ spec.depth_of word.now }
{
    let count = count_below(1025, word)?;
    Some(Depth { count })
}

#[tactic(auto, unfolding(crate::specs::Words::instances_words))]
fn instances_words(words: &[Word]) -> Option<Command<'_>>
    ensures { option_map command_view result ≡ spec.instances_words words.now }
{
    match words {
        [reader, writer, rep, depth] => {
            let pair = pair_of(reader.octets(), writer.octets(), rep.octets(), &[])?;
            let depth = depth_of(depth.octets())?;
            Some(Command::Instances(pair, depth))
        }
        _ => None,
    }
}

#[tactic(auto, unfolding(crate::specs::Words::record_words))]
fn record_words(words: &[Word]) -> Option<Command<'_>>
    ensures { option_map command_view result ≡ spec.record_words words.now }
{
    match words {
        [ty, rep] => {
            let ty = named_by(ty.octets())?;
            let rep = rep_of(rep.octets())?;
            Some(Command::Record(ty, rep))
        }
        _ => None,
    }
}

#[tactic(auto, unfolding(crate::specs::Words::replay_words))]
fn replay_words(words: &[Word]) -> Option<Command<'_>>
    ensures { option_map command_view result ≡ spec.replay_words words.now }
{
    match words {
        [ty] => {
            let ty = named_by(ty.octets())?;
            Some(Command::Replay(ty))
        }
        _ => None,
    }
}

#[tactic(auto, unfolding(crate::specs::Words::make_words))]
fn make_words(words: &[Word]) -> Option<Command<'_>>
    ensures { option_map command_view result ≡ spec.make_words words.now }
{
    match words {
        [seed, count] => {
            let seed = long_number(seed.octets())?;
            let count = number_below(100_001, count.octets())?;
            Some(Command::Make(seed, count))
        }
        _ => None,
    }
}

#[tactic(auto, unfolding(crate::specs::Words::compare_words))]
fn compare_words(words: &[Word]) -> Option<Command<'_>>
    ensures { option_map command_view result ≡ spec.compare_words words.now }
{
    match words {
        [rep, rest @ ..] => {
            let rep = rep_of(rep.octets())?;
            let policy = policy_of(rest)?;
            Some(Command::Compare(rep, policy))
        }
        _ => None,
    }
}

fn alone<'a>(command: Command<'a>, words: &[Word]) -> Option<Command<'a>>
    ensures { option_map command_view result ≡ spec.alone (command_view command.entry) words.now }
{
    if words.len() == 0 {
        Some(command)
    } else {
        None
    }
}

fn judge_words(words: &[Word]) -> Option<Command<'_>>
    ensures { option_map command_view result ≡ option_map spec.judge (spec.pair_words words.now) }
{
    let pair = pair_words(words)?;
    Some(Command::Judge(pair))
}

fn read_words(words: &[Word]) -> Option<Command<'_>>
    ensures { option_map command_view result ≡ option_map spec.read (spec.pair_words words.now) }
{
    let pair = pair_words(words)?;
    Some(Command::Read(pair))
}

#[tactic(auto, unfolding(crate::specs::Words::command_by))]
fn command_by<'a>(name: &[u8], words: &'a [Word]) -> Option<Command<'a>>
    ensures { option_map command_view result ≡ spec.command_by name.now words.now }
{
    if name == b"compile".as_slice() {
        alone(Command::Compile, words)
    } else if name == b"judge".as_slice() {
        judge_words(words)
    } else if name == b"read".as_slice() {
        read_words(words)
    } else if name == b"write".as_slice() {
        write_words(words)
    } else if name == b"convert".as_slice() {
        convert_words(words)
    } else if name == b"show".as_slice() {
        alone(Command::Show, words)
    } else if name == b"wrap".as_slice() {
        wrap_words(words)
    } else if name == b"instances".as_slice() {
        instances_words(words)
    } else if name == b"record".as_slice() {
        record_words(words)
    } else if name == b"replay".as_slice() {
        replay_words(words)
    } else if name == b"make".as_slice() {
        make_words(words)
    } else if name == b"compare".as_slice() {
        compare_words(words)
    } else {
        None
    }
}

/// What the words behind the program's name ask. None where they are no command.
#[tactic(auto, unfolding(crate::specs::Words::command_of))]
pub fn command_of(words: &[Word]) -> Option<Command<'_>>
    ensures { option_map command_view result ≡ spec.command_of words.now }
{
    match words {
        [] => None,
        [name, rest @ ..] => command_by(name.octets(), rest),
    }
}
