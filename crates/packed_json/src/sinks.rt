//! Where numbers are added: a text, or a block.
ghost use Rattle.std.specs.Prelude.{◌≡◌, ◌++◌, ℕ, List, take, IfSome};
ghost use Rattle.packed_json.specs.Plans.{key_behind};

use crate::block::Block;
use crate::texts::put;
use xt_lists::Text;

pub(crate) trait Sink {
    ghost held: { Self → List ℕ };

    /// Adds octets behind those that are there. None says nothing.
    fn add_octets(&mut self, octets: &[u8]) -> Option<()>
        ensures { IfSome result (λ u. held self.new ≡ held self.old ++ octets.now) };

    /// Adds the first of the octets, so many. All may be written, which takes few steps where their number is a constant. None says nothing.
    fn add_some(&mut self, octets: &[u8], count: usize) -> Option<()>
        ensures { IfSome result (λ u. held self.new ≡ held self.old ++ take count octets.now) };
}

impl Sink for Text {
    ghost held = { λ octets. octets };

    #[inline(always)]
    fn add_octets(&mut self, octets: &[u8]) -> Option<()> {
        put(octets, self)
    }

    #[inline(always)]
    fn add_some(&mut self, octets: &[u8], count: usize) -> Option<()> {
        if count > octets.len() {
            return None;
        }
        put(&octets[..count], self)
    }
}

impl Sink for Block {
    ghost held = { λ octets. octets };

    #[inline(always)]
    fn add_octets(&mut self, octets: &[u8]) -> Option<()> {
        if octets.len() > self.room() {
            return None;
        }
        self.add_all(octets);
        Some(())
    }

    #[inline(always)]
    fn add_some(&mut self, octets: &[u8], count: usize) -> Option<()> {
        if octets.len() > self.room() {
            return None;
        }
        if count > octets.len() {
            return None;
        }
        self.add_first(octets, count);
        Some(())
    }
}

/// What begins with a comma, behind others; or without its comma, behind none.
#[inline(always)]
pub(crate) fn add_behind_comma<S: Sink>(is_later: bool, octets: &[u8], out: &mut S) -> Option<()>
    ensures { IfSome result (λ u. S.held out.new ≡ S.held out.old ++ key_behind is_later octets.now) }
{
    if is_later {
        return out.add_octets(octets);
    }
    match octets {
        [] => Some(()),
        [_, rest @ ..] => out.add_octets(rest),
    }
}
