ghost use Rattle.std.specs.Prelude.{Some};
ghost use Rattle.idl_input.specs.FaultTexts.{fault_text};

use std::error::Error;
use std::fmt;
use type_rules::TypeFault;
use xt_annotations::Refused;
use xt_lists::OutOfMemory;

/// The first fault of a text, with its place.
#[derive(Debug, Drop)]
pub enum IdlFault {
    /// The first token with which the text so far begins no reading.
    Syntax { at: u32 },
    /// A name that isn't declared before.
    Unknown { at: u32 },
    /// A name that is declared again in its scope.
    Twice { at: u32 },
    /// A token of IDL that isn't in the profile.
    NotInProfile { at: u32 },
    /// An annotation that breaks the rule A1 to A9.
    Annotation { at: u32, rule: u8 },
    /// The name of a type that isn't valid.
    Invalid { at: u32, fault: TypeFault },
    OutOfMemory,
}

impl From<OutOfMemory> for IdlFault {
    ghost use Rattle.std.specs.Prelude.{◌≡◌};
    ghost use Rattle.idl_input.specs.declared.faults.IdlFault.TheVariants as fault;

    ghost from_gives = { λ _ e. e ≡ fault.OutOfMemory };

    fn from(_e: OutOfMemory) -> IdlFault {
        IdlFault::OutOfMemory
    }
}

impl From<Refused> for IdlFault {
    ghost use Rattle.std.specs.Prelude.{◌≡◌};
    ghost use Rattle.idl_input.specs.declared.faults.IdlFault.TheVariants as fault;

    ghost from_gives = { λ r e. e ≡ fault.Annotation r.at r.rule };

    fn from(refused: Refused) -> IdlFault {
        IdlFault::Annotation {
            at: refused.at,
            rule: refused.rule,
        }
    }
}

/// The place and a word, as `7 syntax`: `syntax`, `unknown`, `twice`, `profile`, or `A` or `V` and the rule's number.
impl fmt::Display for IdlFault {
    ghost output = { λ fault. Some (fault_text fault) };

    fn fmt<W: fmt::Write>(&self, f: &mut fmt::Formatter<W>) -> fmt::Result {
        match self {
            IdlFault::Syntax { at } => write!(f, "{at} syntax"),
            IdlFault::Unknown { at } => write!(f, "{at} unknown"),
            IdlFault::Twice { at } => write!(f, "{at} twice"),
            IdlFault::NotInProfile { at } => write!(f, "{at} profile"),
            IdlFault::Annotation { at, rule } => write!(f, "{at} A{rule}"),
            IdlFault::Invalid { at, fault } => write!(f, "{at} V{}", fault.rule),
            IdlFault::OutOfMemory => f.write_str("out of memory"),
        }
    }
}

impl Error for IdlFault {}
