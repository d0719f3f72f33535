//! Reading a number of octets, in as many calls as the source wants.
ghost use Rattle.std.specs.Prelude.{◌≡◌, ◌≤◌, ◌<◌, [], length, take, IfOk, IfErr, IsErrOf};
ghost use Rattle.std.specs.Io.KnownBytes.{IsAtEnd};
ghost use Rattle.xt_outside.specs.declared.records.RecordFault.TheVariants.{OutOfMemory};
ghost use Rattle.xt_outside.specs.Outside.{HasCause, HasReadCause, KeepsTold, TakesUpTo, Passes, PassesUpTo};
ghost use Rattle.xt_io.specs.Fronts.{IsOutside, IsCut};

use std::alloc::Global;
use xt_lists::Text;
use xt_outside::{Failed, Head, RecordFault, Source};

const CHUNK: usize = 4096;

const FEW: usize = 512;

/// Fills the slice, or as much of its front as there are octets left.
pub fn fill<S: Source>(source: &mut S, into: &mut [u8]) -> Result<usize, Failed>
    ensures bound { IfOk result (λ n. n ≤ length into.new) }
    ensures octets { IfOk result (λ n. TakesUpTo (length into.new) (S.left source.old) (S.left source.new) (take n into.new)) }
    ensures end { IfOk result (λ n. n < length into.new → IsAtEnd (S.left source.new)) }
    ensures behind { IfOk result (λ _. KeepsTold (S.behind source.old) (S.behind source.new)) }
    ensures cause { HasCause (S.faults source.old) (S.faults source.new) result }
    ensures same { S.name source.new ≡ S.name source.old }
{
    let mut at = 0;
    while at < into.len() {
        let count = source.read(&mut into[at..])?;
        if count == 0 {
            return Ok(at);
        }
        at += count;
    }
    Ok(at)
}

// The same of few octets, for which a small block is cleared.
fn read_few<S: Source>(source: &mut S, most: usize, text: &mut Text) -> Result<(), RecordFault>
    requires few { most ≤ 512 }
    requires empty { text.old ≡ [] }
    ensures octets { IfOk result (λ _. TakesUpTo most (S.left source.old) (S.left source.new) text.new) }
    ensures within { IfOk result (λ _. length text.new ≤ most) }
    ensures end { IfOk result (λ _. length text.new < most → IsAtEnd (S.left source.new)) }
    ensures fault { IfErr result IsOutside }
    ensures cause { HasReadCause (S.faults source.old) (S.faults source.new) result }
    ensures same { S.name source.new ≡ S.name source.old }
{
    let mut few = [0u8; FEW];
    let count = fill(source, &mut few[..most])?;
    text.append(&few[..count])?;
    Ok(())
}

/// Reads this many octets, or as many as there are left, in place of those that the text held. Its memory is used again, and more is taken
/// only for octets that came. What it holds after a fault says nothing.
pub(crate) fn read_into<S: Source>(
    source: &mut S,
    most: usize,
    text: &mut Text,
) -> Result<(), RecordFault>
    ensures octets { IfOk result (λ _. TakesUpTo most (S.left source.old) (S.left source.new) text.new) }
    ensures within { IfOk result (λ _. length text.new ≤ most) }
    ensures end { IfOk result (λ _. length text.new < most → IsAtEnd (S.left source.new)) }
    ensures fault { IfErr result IsOutside }
    ensures cause { HasReadCause (S.faults source.old) (S.faults source.new) result }
    ensures same { S.name source.new ≡ S.name source.old }
{
    text.clear();
    if most <= FEW {
        return read_few(source, most, text);
    }
    let mut chunk = [0u8; CHUNK];
    'chunks: while text.len() < most {
        let want = (most - text.len()).min(CHUNK);
        let count = fill(source, &mut chunk[..want])?;
        text.append(&chunk[..count])?;
        if count < want {
            return Ok(());
        }
    }
    Ok(())
}

/// Reads this many octets, or as many as there are left. Memory is taken only for octets that came.
pub fn read_text<S: Source>(alloc: Global, source: &mut S, most: usize) -> Result<Text, RecordFault>
    ensures octets { IfOk result (λ t. TakesUpTo most (S.left source.old) (S.left source.new) t) }
    ensures within { IfOk result (λ t. length t ≤ most) }
    ensures end { IfOk result (λ t. length t < most → IsAtEnd (S.left source.new)) }
    ensures fault { IfErr result IsOutside }
    ensures cause { HasReadCause (S.faults source.old) (S.faults source.new) result }
    ensures same { S.name source.new ≡ S.name source.old }
{
    let mut text = Text::new(alloc);
    read_into(source, most, &mut text)?;
    Ok(text)
}

/// Passes over this many octets, or over as many as there are left.
pub(crate) fn pass_over<S: Source>(source: &mut S, most: usize) -> Result<usize, Failed>
    ensures octets { IfOk result (λ n. PassesUpTo most (S.left source.old) (S.left source.new) n) }
    ensures within { IfOk result (λ n. n ≤ most) }
    ensures cause { HasCause (S.faults source.old) (S.faults source.new) result }
    ensures same { S.name source.new ≡ S.name source.old }
{
    let mut chunk = [0u8; CHUNK];
    let mut passed = 0;
    'chunks: while passed < most {
        let want = (most - passed).min(CHUNK);
        let count = fill(source, &mut chunk[..want])?;
        passed += count;
        if count < want {
            return Ok(passed);
        }
    }
    Ok(passed)
}

/// Passes over the rest of a payload, of which this many octets are left.
pub(crate) fn pass_payload<S: Source>(
    source: &mut S,
    head: Head,
    rest: u32,
) -> Result<(), RecordFault>
    ensures octets { IfOk result (λ _. Passes rest (S.left source.old) (S.left source.new)) }
    ensures cut { IfErr result (IsCut head rest (S.left source.old)) }
    ensures no_memory { ¬ IsErrOf result OutOfMemory }
    ensures cause { HasReadCause (S.faults source.old) (S.faults source.new) result }
    ensures same { S.name source.new ≡ S.name source.old }
{
    if rest == 0 {
        return Ok(());
    }
    let passed = pass_over(source, rest as usize)?;
    if passed < rest as usize {
        return Err(RecordFault::Truncated {
            at: head.at,
            kind: head.kind,
        });
    }
    Ok(())
}

/// Reads the rest of a payload, of which this many octets are left, in place of what the text held.
pub(crate) fn read_payload<S: Source>(
    source: &mut S,
    head: Head,
    rest: u32,
    payload: &mut Text,
) -> Result<(), RecordFault>
    ensures octets { IfOk result (λ _. TakesUpTo rest (S.left source.old) (S.left source.new) payload.new) }
    ensures whole { IfOk result (λ _. length payload.new ≡ rest) }
    ensures cut { IfErr result (IsCut head rest (S.left source.old)) }
    ensures cause { HasReadCause (S.faults source.old) (S.faults source.new) result }
    ensures same { S.name source.new ≡ S.name source.old }
{
    read_into(source, rest as usize, payload)?;
    if payload.len() < rest as usize {
        return Err(RecordFault::Truncated {
            at: head.at,
            kind: head.kind,
        });
    }
    Ok(())
}
