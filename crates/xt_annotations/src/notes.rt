ghost use Rattle.std.specs.Prelude.{◌≡◌};

use thiserror::Error;
use xt_lists::{OutOfMemory, Text};
use xt_shapes::{Ext, Try};

/// What an annotation says (DDS-XTypes 1.3, 7.3.1.2). Without a parameter `@nested`, `@key`, `@optional` and `@must_understand` mean TRUE,
/// `@autoid` means HASH and `@try_construct` means USE_DEFAULT.
#[derive(Debug, Drop)]
pub enum Note {
    /// `@final`, `@appendable`, `@mutable` or `@extensibility`.
    Ext(Ext),
    Nested(bool),
    /// Whether ids are hashed.
    Autoid(bool),
    /// 0 to 0x0FFFFFFE.
    Id(u32),
    /// The text whose hash is the id. The empty text, as without a parameter, stands for the name of what is annotated.
    HashId(Text),
    Key(bool),
    Optional(bool),
    MustUnderstand(bool),
    TryConstruct(Try),
    /// 1 to 64.
    BitBound(u16),
    /// `@value`.
    Number(i32),
    DefaultLiteral,
    /// 0 to 63.
    Position(u16),
    /// It has no effect.
    Topic,
}

/// A note, and the place of its `@`.
#[derive(Debug, Drop)]
pub struct Placed {
    pub at: u32,
    pub note: Note,
}

/// A note, and the place behind its last token.
#[derive(Debug, Drop)]
pub struct Noted {
    pub placed: Placed,
    pub end: u32,
}

/// The rule that an annotation breaks, as 4 for A4, and the place of its `@`.
#[derive(Debug, Clone, Copy, PartialEq, Eq)]
pub struct Refused {
    pub at: u32,
    pub rule: u8,
}

/// Why no annotation was read.
#[derive(Debug, Drop, Error)]
pub enum NoteFault {
    #[error("{} A{}", .0.at, .0.rule)]
    Refused(Refused),
    #[error("out of memory")]
    OutOfMemory,
}

/// A rule, as 4 for A4, that an annotation breaks, or no memory.
#[derive(Debug, Clone, Copy)]
pub enum RuleFault {
    Rule(u8),
    Memory,
}

impl From<OutOfMemory> for RuleFault {
    ghost use Rattle.xt_annotations.specs.declared.notes.RuleFault.TheVariants.{Memory};

    ghost from_gives = { λ _ e. e ≡ Memory };

    fn from(_e: OutOfMemory) -> RuleFault {
        RuleFault::Memory
    }
}
