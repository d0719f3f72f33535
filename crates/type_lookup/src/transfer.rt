//! Reading and writing a number of octets on a link, in as many calls as it wants.
ghost use Rattle.std.specs.Prelude.{◌≡◌, ◌≤◌, ◌<◌, ◌++◌, ℕ, List, length, take, IfOk, IfErr};
ghost use Rattle.std.specs.Io.KnownBytes.{IsAtEnd, append_known};
ghost use Rattle.xt_io.specs.Outside.{HasCause};
ghost use Rattle.type_lookup.specs.Frames.{Took, TookSome};
ghost use Rattle.type_lookup.specs.Causes.{HasFrameCause, IsOutside};

use crate::faults::FrameFault;
use std::alloc::Global;
use xt_io::{Failed, Link};
use xt_lists::Text;

const CHUNK: usize = 4096;

/// Fills the slice, or as much of its front as there are octets left.
pub(crate) fn fill<L: Link>(link: &mut L, into: &mut [u8]) -> Result<usize, Failed>
    ensures bound { IfOk result (λ n. n ≤ length into.new) }
    ensures octets { IfOk result (λ n. Took (L.got link.old) (L.got link.new) (L.left link.old) (L.left link.new) (take n into.new)) }
    ensures some { IfErr result (λ _. TookSome (L.got link.old) (L.got link.new) (L.left link.old) (L.left link.new)) }
    ensures end { IfOk result (λ n. n < length into.new → IsAtEnd (L.left link.new)) }
    ensures taken { L.taken link.new ≡ L.taken link.old }
    ensures cause { HasCause (L.faults link.old) (L.faults link.new) result }
    ensures same { L.name link.new ≡ L.name link.old }
{
    let mut at = 0;
    while at < into.len() {
        let count = link.read(&mut into[at..])?;
        if count == 0 {
            return Ok(at);
        }
        at += count;
    }
    Ok(at)
}

/// Reads this many octets, or as many as there are left. Memory is taken only for octets that came.
pub(crate) fn read_text<L: Link>(
    alloc: Global,
    link: &mut L,
    most: usize,
) -> Result<Text, FrameFault>
    ensures octets { IfOk result (λ t. Took (L.got link.old) (L.got link.new) (L.left link.old) (L.left link.new) t) }
    ensures some { IfErr result (λ _. TookSome (L.got link.old) (L.got link.new) (L.left link.old) (L.left link.new)) }
    ensures within { IfOk result (λ t. length t ≤ most) }
    ensures end { IfOk result (λ t. length t < most → IsAtEnd (L.left link.new)) }
    ensures fault { IfErr result IsOutside }
    ensures taken { L.taken link.new ≡ L.taken link.old }
    ensures cause { HasFrameCause (L.faults link.old) (L.faults link.new) result }
    ensures same { L.name link.new ≡ L.name link.old }
{
    let mut text = Text::new(alloc);
    let mut chunk = [0u8; CHUNK];
    'chunks: while text.len() < most {
        let want = (most - text.len()).min(CHUNK);
        let count = fill(link, &mut chunk[..want])?;
        text.append(&chunk[..count])?;
        if count < want {
            return Ok(text);
        }
    }
    Ok(text)
}

/// Writes all of the octets, or some of the first ones and fails.
pub(crate) fn write_whole<L: Link>(link: &mut L, from: &[u8]) -> Result<(), Failed>
    ensures whole { IfOk result (λ _. L.taken link.new ≡ append_known (L.taken link.old) from.now) }
    ensures prefix { IfErr result (λ _. (some rest : List ℕ) × (from.now ≡ some ++ rest) × (L.taken link.new ≡ append_known (L.taken link.old) some)) }
    ensures got { L.got link.new ≡ L.got link.old }
    ensures left { L.left link.new ≡ L.left link.old }
    ensures cause { HasCause (L.faults link.old) (L.faults link.new) result }
    ensures same { L.name link.new ≡ L.name link.old }
{
    let mut rest = from;
    while !rest.is_empty() {
        let count = link.write(rest)?;
        rest = &rest[count..];
    }
    Ok(())
}
