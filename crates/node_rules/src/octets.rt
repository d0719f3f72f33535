ghost use Rattle.std.specs.Prelude.{◌≡◌};
ghost use Rattle.xt_shapes.specs.Lists.{all};
ghost use Rattle.node_rules.specs.Names as spec;

use type_trees::Name;
use xt_lists::Text;

fn is_letter(octet: u8) -> bool
    ensures { result ≡ spec.is_letter octet }
{
    matches!(octet, b'A'..=b'Z' | b'a'..=b'z')
}

fn is_word(octet: u8) -> bool
    ensures { result ≡ spec.is_word octet }
{
    is_letter(octet) || matches!(octet, b'0'..=b'9' | b'_')
}

fn are_words(octets: &[u8]) -> bool
    ensures { result ≡ all spec.is_word octets.now }
{
    for octet in octets {
        if !is_word(*octet) {
            return false;
        }
    }
    true
}

fn is_identifier(octets: &[u8]) -> bool
    ensures { result ≡ spec.is_identifier octets.now }
{
    match octets.split_first() {
        None => false,
        Some((first, others)) => is_letter(*first) && are_words(others),
    }
}

/// What may come next in a scoped name.
#[derive(Clone, Copy, PartialEq, Eq)]
enum Place {
    /// The first letter of an identifier.
    Start,
    /// More of an identifier, a colon or the end.
    Inside,
    /// A second colon.
    Colon,
}

/// Whether the octets are identifiers joined by `::`.
pub fn is_scoped(octets: &[u8]) -> bool
    ensures { result ≡ spec.is_scoped octets.now }
{
    let mut place = Place::Start;
    for octet in octets {
        place = match place {
            Place::Start if is_letter(*octet) => Place::Inside,
            Place::Inside if is_word(*octet) => Place::Inside,
            Place::Inside if *octet == b':' => Place::Colon,
            Place::Colon if *octet == b':' => Place::Start,
            _ => return false,
        };
    }
    place == Place::Inside
}

/// Whether the name of a member, case, literal or flag is an identifier of at most 255 octets. A hashed name is, as each `u32` is a
/// number of 32 bits.
pub fn name_fits(name: &Name) -> bool
    ensures { result ≡ spec.name_fits name.now }
{
    match name {
        Name::Full(text) => text.len() <= 255 && is_identifier(text.octets()),
        Name::Hashed(hash) => u64::from(*hash) <= u64::from(u32::MAX),
    }
}

/// Whether the name of a type or base is identifiers joined by `::`, of at most 255 octets in all. A missing name is.
pub fn scope_fits(name: &Option<Text>) -> bool
    ensures { result ≡ spec.scope_fits name.now }
{
    match name {
        Some(text) => text.len() <= 255 && is_scoped(text.octets()),
        None => true,
    }
}
