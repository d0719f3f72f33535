ghost use Rattle.std.specs.Prelude.{◌≡◌, ◌<◌, Some};
ghost use Rattle.json_values.specs.Words.{rule_text};
ghost use Rattle.json_values.specs.Steps.{fault_beneath, steps_of};
ghost use Rattle.json_values.specs.declared.faults.ValueFault.TheVariants.{OutOfMemory as NoMemory};

use std::fmt;
use thiserror::Error;
use type_trees::Path;
use xt_lists::OutOfMemory;
use xt_shapes::Step;

/// What a JSON value that is no value of a type breaks. At one place the rules are tried in this order.
#[derive(Debug, Clone, Copy, PartialEq, Eq)]
pub enum JsonRule {
    /// Another kind of JSON value.
    Kind,
    /// A key that is no member.
    Unknown,
    /// A member that isn't optional isn't there.
    Missing,
    /// A number that isn't whole, or doesn't fit.
    Range,
    /// A text that names no literal.
    Literal,
    /// A NUL in a string, or wrong hexadecimal.
    Text,
    /// More octets or items than the bound.
    Bound,
    /// Another number of items than an array has, or than the two of a map's pair.
    Count,
    /// A map's key that comes again.
    Twice,
    /// A union's body where no case is selected, or none where one is.
    Case,
}

impl JsonRule {
    /// The word that is printed for it.
    pub fn word(self) -> &'static str
        ensures { result.now ≡ rule_text self }
    {
        match self {
            JsonRule::Kind => "KIND",
            JsonRule::Unknown => "UNKNOWN",
            JsonRule::Missing => "MISSING",
            JsonRule::Range => "RANGE",
            JsonRule::Literal => "LITERAL",
            JsonRule::Text => "TEXT",
            JsonRule::Bound => "BOUND",
            JsonRule::Count => "COUNT",
            JsonRule::Twice => "TWICE",
            JsonRule::Case => "CASE",
        }
    }
}

impl fmt::Display for JsonRule {
    ghost output = { λ rule. Some (rule_text rule) };

    fn fmt<W: fmt::Write>(&self, f: &mut fmt::Formatter<W>) -> fmt::Result {
        f.write_str(self.word())
    }
}

/// Why a text gives no value.
#[derive(Debug, Drop, Error)]
pub enum ValueFault {
    /// `serde_json` has no reading of the text.
    #[error("not JSON")]
    NotJson,
    /// The first place that breaks a rule, in declared order, and the first rule that it breaks.
    #[error("{rule} {path}")]
    Wrong { path: Path, rule: JsonRule },
    #[error("out of memory")]
    OutOfMemory,
}

/// The fault, seen from above `step`.
#[inline(always)]
pub(crate) fn below(step: Step, fault: ValueFault) -> ValueFault
    requires { steps_of fault < 16 }
    ensures { result ≡ fault_beneath step fault }
{
    match fault {
        ValueFault::NotJson => ValueFault::NotJson,
        ValueFault::Wrong { mut path, rule } => {
            path.push_front(step);
            ValueFault::Wrong { path, rule }
        }
        ValueFault::OutOfMemory => ValueFault::OutOfMemory,
    }
}

impl From<OutOfMemory> for ValueFault {
    ghost from_gives = { λ _ fault. fault ≡ NoMemory };

    fn from(_memory: OutOfMemory) -> ValueFault {
        ValueFault::OutOfMemory
    }
}
