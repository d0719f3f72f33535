//! What is handed over to a session, and what comes of it.
ghost use Rattle.std.specs.Prelude.{◌≡◌, ◌≤◌, ◌++◌, false, IfOk, OnErr, length, take, drop};
ghost use Rattle.xt_io.specs.MemoryLinks.{link_text};
ghost use Rattle.lookup_service.specs.declared.ended.Ended.TheVariants.{Closed};
ghost use Rattle.lookup_service.specs.link.Loops.{HandsOver};

use crate::{Ended, NoGate, session};
use std::alloc::Global;
use type_registry::{Naming, Pass, Registry};
use xt_io::{MemLink, Script};
use xt_lists::{OutOfMemory, Row, Text};

/// Hands octets to a session over this pass: the link that took its replies, and how it ended.
pub(crate) fn hand_over<'r, N: Naming>(
    alloc: Global,
    registry: &'r Registry<N>,
    pass: &mut Pass<'r, N>,
    octets: &[u8],
) -> Result<(MemLink, Ended), OutOfMemory>
    requires { pass.old.registry ≡ registry.now }
    ensures handed { IfOk result (λ r. HandsOver N.name pass.old pass.new octets.now (link_text r.0) r.1) }
    ensures same { OnErr result (pass.new ≡ pass.old) }
    ensures registry { pass.new.registry ≡ pass.old.registry }
{
    let input = Text::from_octets(alloc, octets)?;
    pass.holds();
    let mut link = MemLink::new(
        alloc,
        Script {
            input,
            most: usize::MAX,
            fails: Row::new(alloc),
        },
    );
    let ended = session(alloc, registry, pass, &mut link, &NoGate);
    Ok((link, ended))
}

/// Appends the replies of a session, unless memory was wanting in it, and says whether more may be handed over: not after a bad frame.
pub(crate) fn keep(replies: &mut Text, link: &MemLink, ended: Ended) -> Result<bool, OutOfMemory>
    ensures kept { IfOk result (λ over. (replies.new ≡ replies.old ++ link_text link.now) × (over ≡ false → ended ≡ Closed)) }
    ensures same { OnErr result (replies.new ≡ replies.old) }
{
    match ended {
        Ended::Closed => {
            replies.append(link.octets())?;
            Ok(false)
        }
        Ended::BadFrame { .. } | Ended::Limit => {
            replies.append(link.octets())?;
            Ok(true)
        }
        Ended::LinkFault | Ended::OutOfMemory => Err(OutOfMemory),
    }
}

/// Copies the first octets to the front of the slice: as many as there are and as fit, and at most so many, and one at least.
pub(crate) fn give(octets: &[u8], most: usize, into: &mut [u8]) -> usize
    ensures within { result ≤ length octets.now }
    ensures fits { result ≤ length into.new }
    ensures front { take result into.new ≡ take result octets.now }
    ensures rest { drop result into.new ≡ drop result into.old }
{
    let count = octets.len().min(into.len()).min(most.max(1));
    into[..count].copy_from_slice(&octets[..count]);
    count
}
