//! What the two representations do differently.
ghost use Rattle.std.specs.Prelude.{◌≡◌};
ghost use Rattle.xt_wire.specs.numbers.Units.{IsUnit};
ghost use Rattle.xcdr_writer.specs.Parts as parts;

use xt_shapes::Rep;

/// What numbers are aligned to at most.
#[inline(always)]
pub fn most_of(rep: Rep) -> u32
    ensures most { result ≡ parts.most_of rep }
    ensures unit { IsUnit result }
{
    match rep {
        Rep::Xcdr1 => 8,
        Rep::Xcdr2 => 4,
    }
}

/// Whether no count of octets stands before a part: one of XCDR1, or one that is `plain`.
pub fn is_bare(rep: Rep, plain: bool) -> bool
    ensures { result ≡ parts.is_bare rep plain }
{
    match rep {
        Rep::Xcdr1 => true,
        Rep::Xcdr2 => plain,
    }
}

/// Whether the short form of an XCDR1 header holds the member's id and the content's length.
pub fn is_short(id: u32, length: u64) -> bool
    ensures { result ≡ parts.is_short id length }
{
    id <= 0x3F00 && length < 0x1_0000
}
