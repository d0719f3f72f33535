ghost use Rattle.std.specs.Prelude.{◌≡◌};
ghost use Rattle.object_formats.specs.Format.{text, has_nul};
ghost use Rattle.object_formats.specs.Tables as spec;

use crate::codes::Flags;
use type_trees::Name;
use xt_lists::Text;

fn extends(flags: u16) -> bool
    ensures { result ≡ spec.extends flags }
{
    flags == 1 || flags == 2 || flags == 4
}

/// Whether such flags may be set there.
#[tactic(auto, unfolding(crate::specs::Tables::type_flags, crate::specs::Tables::member_flags, crate::specs::Tables::case_flags, crate::specs::Tables::disc_flags, crate::specs::Tables::literal_flags))]
pub fn allows(complete: bool, kind: Flags, flags: u16) -> bool
    ensures { result ≡ spec.allowed complete kind flags }
{
    match kind {
        Flags::Element => 0 < flags && flags < 4,
        Flags::Literal => flags == 0 || flags == 0x40,
        Flags::Member => 0 < flags % 8 && flags % 8 < 4 && flags < 0x40,
        Flags::Case => 0 < flags % 0x40 && flags % 0x40 < 4 && flags < 0x80,
        Flags::Discriminator => flags == 1 || flags == 0x21,
        Flags::Type => extends(flags % 8) && flags < if complete { 0x20 } else { 8 },
    }
}

/// Whether these are good flags there.
#[tactic(auto, using(crate::proofs::Good::flags_good))]
pub(crate) fn are_flags(complete: bool, kind: Flags, flags: u16) -> bool
    ensures { result ≡ (spec.flags_of (spec.allowed complete kind)).good flags }
{
    allows(complete, kind, flags)
}

/// Whether a NUL is among the octets.
pub fn has_nul(octets: &[u8]) -> bool
    ensures { result ≡ has_nul octets.now }
{
    for octet in octets {
        if *octet == 0 {
            return true;
        }
    }
    false
}

#[tactic(auto, unfolding(crate::specs::Format::text))]
fn is_text(octets: &[u8]) -> bool
    ensures { result ≡ text.good octets.now }
{
    octets.len() <= 255 && !has_nul(octets)
}

/// Whether it is a good name of a part: in full in complete objects, and hashed in minimal ones. Each hash of 32 bits is good.
#[tactic(auto, using(crate::proofs::Good::full_good, crate::proofs::Good::hashed_good))]
pub(crate) fn is_name(complete: bool, name: &Name) -> bool
    ensures { result ≡ (spec.name complete).good name.now }
{
    match name {
        Name::Full(text) => complete && is_text(text.octets()),
        Name::Hashed(hash) => {
            let _hash = *hash;
            !complete
        }
    }
}

/// Whether it is a good name of a type, which complete objects have.
#[tactic(auto, using(crate::proofs::Good::named_good, crate::proofs::Good::unnamed_good))]
pub(crate) fn is_detail(complete: bool, name: &Option<Text>) -> bool
    ensures { result ≡ (spec.detail complete).good name.now }
{
    match name {
        Some(text) => complete && is_text(text.octets()),
        None => !complete,
    }
}
