ghost use Rattle.std.specs.Prelude.{◌≡◌, map};
ghost use Rattle.tool_words.specs.Words as spec;

use xcdr_model::Policy;
use xt_lists::Word;

// Whether the text begins so, and what follows.
#[tactic(auto, unfolding(crate::specs::Words::told))]
fn told<'a>(front: &[u8], text: &'a [u8]) -> (bool, &'a [u8])
    ensures { (result.0, result.1.now) ≡ spec.told front.now text.now }
{
    match text.strip_prefix(front) {
        Some(rest) => (true, rest),
        None => (false, text),
    }
}

fn settings_end(
    coercion: bool,
    strings: bool,
    sequences: bool,
    names: (bool, &[u8]),
) -> Option<Policy>
    ensures { result ≡ spec.settings_end coercion strings sequences (names.entry.0, names.entry.1.now) }
{
    if names.1.len() == 0 {
        Some(Policy {
            coercion,
            ignore_string_bounds: !strings,
            ignore_sequence_bounds: !sequences,
            ignore_member_names: names.0,
        })
    } else {
        None
    }
}

// The policy whose settings are these.
fn settings(coercion: bool, text: &[u8]) -> Option<Policy>
    ensures { result ≡ spec.settings coercion text.now }
{
    let (strings, text) = told(b",string-bounds", text);
    let (sequences, text) = told(b",sequence-bounds", text);
    settings_end(coercion, strings, sequences, told(b",any-names", text))
}

// `allow` or `disallow`, and settings.
#[tactic(auto, unfolding(crate::specs::Words::policy_word, crate::specs::Words::policy_behind))]
fn policy_word(word: &[u8]) -> Option<Policy>
    ensures { result ≡ spec.policy_word word.now }
{
    let (is_allow, rest) = told(b"allow", word);
    if is_allow {
        return settings(true, rest);
    }
    let (is_disallow, rest) = told(b"disallow", word);
    if is_disallow {
        return settings(false, rest);
    }
    None
}

/// The policy that the last word of a command names, or the standard's own where there is none.
#[tactic(auto, unfolding(crate::specs::Words::policy_of))]
pub fn policy_of(words: &[Word]) -> Option<Policy>
    ensures { result ≡ spec.policy_of words.now }
{
    match words {
        [] => Some(Policy::standard()),
        [word] => policy_word(word.octets()),
        _ => None,
    }
}
