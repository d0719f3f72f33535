// How values are read: in XCDR2, or in XCDR1 as inner values or tails (DDS-XTypes 1.3, 7.4.1 and 7.4.3).
ghost use Rattle.std.specs.Prelude.{◌≡◌, ◌&&◌};
ghost use Rattle.xt_wire.specs.numbers.Units.{IsUnit};
ghost use Rattle.type_trees.specs.Bridge.{type_shape};
ghost use Rattle.xcdr_reader.specs.Modes as spec;

use type_trees::XType;
use xcdr_steps::two::framing_of;
use xt_shapes::Rep;
use xt_wire::cursor::Framing;

/// How a value is read.
#[derive(Clone, Copy, Debug, PartialEq, Eq)]
pub enum Mode {
    /// In XCDR2.
    Two,
    /// In XCDR1, a value that has only its own octets: an element, a key, a map's value, or a member without a header.
    Inner,
    /// In XCDR1, a value that has the rest of its region: a body, or the content of a parameter.
    Tail,
}

impl Mode {
    /// How a body is read.
    pub(crate) fn of(rep: Rep) -> Mode
        ensures { result ≡ spec.mode_of rep }
    {
        match rep {
            Rep::Xcdr1 => Mode::Tail,
            Rep::Xcdr2 => Mode::Two,
        }
    }

    /// How elements, keys, map values and members without a header are read.
    pub(crate) fn inner(self) -> Mode
        ensures { result ≡ spec.inner self }
    {
        match self {
            Mode::Two => Mode::Two,
            Mode::Inner => Mode::Inner,
            Mode::Tail => Mode::Inner,
        }
    }

    /// The greatest alignment.
    pub(crate) fn most(self) -> u32
        ensures most { result ≡ spec.most self }
        ensures unit { IsUnit result }
    {
        match self {
            Mode::Two => 4,
            Mode::Inner => 8,
            Mode::Tail => 8,
        }
    }

    /// Whether the region of an APPENDABLE value may end before its last members.
    pub(crate) fn may_end(self) -> bool
        ensures { result ≡ spec.may_end self }
    {
        match self {
            Mode::Two => true,
            Mode::Inner => false,
            Mode::Tail => true,
        }
    }

    /// Whether a union's case that has the rest of the region, where it is `filled`, must use it up.
    pub(crate) fn fills(self, filled: bool) -> bool
        ensures { result ≡ (filled && spec.fills self) }
    {
        match self {
            Mode::Two => filled,
            Mode::Inner => false,
            Mode::Tail => false,
        }
    }

    /// How the octets of a value of this type are bounded.
    pub(crate) fn framing(self, ty: &XType) -> Framing
        ensures { result ≡ spec.framing_in self (type_shape ty.now) }
    {
        match self {
            Mode::Two => framing_of(ty),
            Mode::Inner => Framing::Open,
            Mode::Tail => Framing::Open,
        }
    }
}
