//! Words that ask peers over the net, or let them ask.
ghost use Rattle.std.specs.Prelude.{◌≡◌};
ghost use Rattle.std.specs.Option.{option_map};
ghost use Rattle.type_trees.specs.Ids.{id_of_digits};
ghost use Rattle.tool_words.specs.Words as spec;
ghost use Rattle.tool_words.specs.View.{net_view};

use crate::asked::{AskedId, Service};
use crate::numbers::{count_below, number_below};
use type_trees::HashId;
use xt_lists::Word;

/// What a command line asks of peers, or lets them ask, at an address.
#[derive(Clone, Copy)]
pub enum NetCommand<'a> {
    /// The objects of the types that are declared are served.
    Serve(&'a Word, Service),
    /// The object of an identifier, and all that it refers to, is fetched.
    Fetch(&'a Word, AskedId),
    /// The objects of the types that are declared are pushed.
    Mirror(&'a Word),
}

fn address_of(word: &Word) -> Option<&Word>
    ensures { option_map (λ to. to.now) result ≡ spec.address_of word.now }
{
    let size = word.octets().len();
    if 0 < size && size < 256 {
        Some(word)
    } else {
        None
    }
}

#[tactic(auto, unfolding(crate::specs::Words::serve_words))]
fn serve_words(words: &[Word]) -> Option<NetCommand<'_>>
    ensures { option_map net_view result ≡ spec.serve_words words.now }
{
    match words {
        [to, workers, turns] => {
            let to = address_of(to)?;
            let workers = count_below(65, workers.octets())?;
            let turns = number_below(1_000_001, turns.octets())?;
            Some(NetCommand::Serve(to, Service { workers, turns }))
        }
        _ => None,
    }
}

#[tactic(auto, using(crate::proofs::Known::known_kind))]
fn asked_id(digits: &[u8]) -> Option<AskedId>
    ensures { option_map (λ asked. asked.id) result ≡ id_of_digits digits.now }
{
    let id = HashId::from_digits(digits)?;
    Some(AskedId { id })
}

#[tactic(auto, unfolding(crate::specs::Words::fetch_words))]
fn fetch_words(words: &[Word]) -> Option<NetCommand<'_>>
    ensures { option_map net_view result ≡ spec.fetch_words words.now }
{
    match words {
        [to, id] => {
            let to = address_of(to)?;
            let asked = asked_id(id.octets())?;
            Some(NetCommand::Fetch(to, asked))
        }
        _ => None,
    }
}

#[tactic(auto, unfolding(crate::specs::Words::mirror_words))]
fn mirror_words(words: &[Word]) -> Option<NetCommand<'_>>
    ensures { option_map net_view result ≡ spec.mirror_words words.now }
{
    match words {
        [to] => {
            let to = address_of(to)?;
            Some(NetCommand::Mirror(to))
        }
        _ => None,
    }
}

#[tactic(auto, unfolding(crate::specs::Words::net_command_by))]
fn net_command_by<'a>(name: &[u8], words: &'a [Word]) -> Option<NetCommand<'a>>
    ensures { option_map net_view result ≡ spec.net_command_by name.now words.now }
{
    if name == b"serve".as_slice() {
        serve_words(words)
    } else if name == b"fetch".as_slice() {
        fetch_words(words)
    } else if name == b"mirror".as_slice() {
        mirror_words(words)
    } else {
        None
    }
}

/// What the words behind the program's name ask over a net. None where they are no such command.
#[tactic(auto, unfolding(crate::specs::Words::net_command_of))]
pub fn net_command_of(words: &[Word]) -> Option<NetCommand<'_>>
    ensures { option_map net_view result ≡ spec.net_command_of words.now }
{
    match words {
        [] => None,
        [name, rest @ ..] => net_command_by(name.octets(), rest),
    }
}
