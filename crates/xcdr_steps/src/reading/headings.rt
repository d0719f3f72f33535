// What stands where the next member of a list may come (DDS-XTypes 1.3, 7.4.1.2 and 7.4.3.4).
ghost use Rattle.std.specs.Prelude.{◌≡◌, cond, Ok, Err};
ghost use Rattle.xcdr_model.specs.declared.malformed.Why.TheVariants.{Twice};
ghost use Rattle.xt_wire.specs.declared.cursor.faults.DecodeFault.TheVariants.{Malformed};

use xcdr_model::Why;
use xt_wire::cursor::DecodeFault;

/// A member's header: its place, the member's id, its must_understand mark, and how many octets the content has.
#[derive(Clone, Copy, Debug)]
pub struct Header {
    pub at: u64,
    pub id: u32,
    pub must: bool,
    pub length: u64,
}

impl Header {
    /// The index of the header's member, which may not have come before.
    pub fn once(self, at: usize, came: bool) -> Result<usize, DecodeFault>
        ensures { result ≡ cond came (Err (Malformed self.at Twice)) (Ok at) }
    {
        if came {
            return Err(DecodeFault::Malformed {
                at: self.at,
                why: Why::Twice,
            });
        }
        Ok(at)
    }
}

/// What stands where the next member of a list may come.
#[derive(Clone, Copy, Debug)]
pub enum Heading {
    /// The end of the list.
    End,
    /// As many octets of no member, which are passed over.
    Ignored(u64),
    /// A member's header, behind which its content stands.
    Member(Header),
}
