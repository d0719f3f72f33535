ghost use Rattle.std.specs.Prelude.{◌≡◌};
ghost use Rattle.std.specs.Option.{option_map};
ghost use Rattle.tool_words.specs.View.{pair_view};
ghost use Rattle.xt_calls.specs.Calls as spec;

use tool_words::{Pair, named_by};
use xcdr_model::Policy;
use xt_shapes::Rep;

/// The representation of this number.
pub fn rep_of(code: u32) -> Option<Rep>
    ensures { result ≡ spec.rep_of code }
{
    if code == 1 {
        Some(Rep::Xcdr1)
    } else if code == 2 {
        Some(Rep::Xcdr2)
    } else {
        None
    }
}

/// How floats stand in JSON.
#[derive(Debug, Clone, Copy, PartialEq, Eq)]
pub enum Floats {
    /// As their raw bits, in texts of hexadecimal digits.
    Bits,
    /// As numbers, where they are finite.
    Numbers,
}

/// How floats stand in the JSON that these flags ask for.
pub fn floats_of(flags: u32) -> Option<Floats>
    ensures { result ≡ spec.floats_of flags }
{
    match flags {
        0 => Some(Floats::Bits),
        1 => Some(Floats::Numbers),
        _ => None,
    }
}

/// The representation of this number, and how floats stand in the JSON that flags ask for.
pub fn written_in(code: u32, flags: u32) -> Option<(Rep, Floats)>
    ensures { result ≡ spec.written_in code flags }
{
    let rep = rep_of(code)?;
    let floats = floats_of(flags)?;
    Some((rep, floats))
}

// The policy of these flags.
fn policy_of(flags: u32) -> Option<Policy>
    ensures { result ≡ spec.policy_of flags }
{
    if flags < 16 {
        Some(Policy {
            coercion: !(flags / 1 % 2 == 1),
            ignore_string_bounds: !(flags / 2 % 2 == 1),
            ignore_sequence_bounds: !(flags / 4 % 2 == 1),
            ignore_member_names: flags / 8 % 2 == 1,
        })
    } else {
        None
    }
}

/// The pair that words name, under the representation of a number and the policy of flags.
pub(crate) fn pair_of<'a>(
    reader: &'a [u8],
    writer: &'a [u8],
    rep: u32,
    flags: u32,
) -> Option<Pair<'a>>
    ensures { option_map pair_view result ≡ spec.pair_of reader.now writer.now rep flags }
{
    let reader = named_by(reader)?;
    let writer = named_by(writer)?;
    let rep = rep_of(rep)?;
    let policy = policy_of(flags)?;
    Some(Pair {
        reader,
        writer,
        rep,
        policy,
    })
}
