//! The headers of members of MUTABLE structures (DDS-XTypes 1.3, 7.4.3.4).
ghost use Rattle.std.specs.Prelude.{◌≡◌, ◌+◌, ◌*◌, ◌^◌, ◌≤◌};
ghost use Rattle.xt_shapes.specs.Select as spec;
ghost use Rattle.xcdr_model.specs.FixedSpelling.{code_of};
ghost use Rattle.xcdr_model.specs.Xcdr2Spelling.{bit};
ghost use Rattle.type_trees.specs.Bridge.{member_head};

use type_trees::Member;

/// The length code of a content that is a number of `size` octets; that of a content of any length is 4.
pub fn length_code(size: u32) -> u32
    ensures code { result ≡ code_of size }
    ensures most { result ≤ 4 }
{
    match size {
        1 => 0,
        2 => 1,
        4 => 2,
        8 => 3,
        _ => 4,
    }
}

/// Whether a reader that lacks the member must refuse the sample.
pub fn is_must(member: &Member) -> bool
    ensures { result ≡ spec.is_must (member_head member.now) }
{
    member.must_understand || member.key
}

fn mark_of(must: bool) -> u128
    ensures mark { result ≡ bit must * 2 ^ 31 }
    ensures most { result ≤ 2 ^ 31 }
{
    if must { 0x8000_0000 } else { 0 }
}

/// The member header of 32 bits: bit 31 is set where the member must be understood, bits 30 to 28 are the length code, and the
/// rest is the member's id.
pub fn header_of(must: bool, code: u32, id: u32) -> u128
    requires { code ≤ 4 }
    ensures { result ≡ bit must * 2 ^ 31 + code * 2 ^ 28 + id }
{
    mark_of(must) + u128::from(code) * 0x1000_0000 + u128::from(id)
}
