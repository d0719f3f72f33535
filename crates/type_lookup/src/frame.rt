//! Frames on a link.
ghost use Rattle.std.specs.Prelude.{◌≡◌, ◌++◌, ℕ, List, [], IfOk, IfErr, IfSome, OnOk};
ghost use Rattle.std.specs.Int.{w32, from_be_bytes, to_be_bytes};
ghost use Rattle.std.specs.Io.KnownBytes.{append_known};
ghost use Rattle.type_lookup.specs.messages.Fields.{got, payload};
ghost use Rattle.type_lookup.specs.messages.Spelling.{HasFrame, frame_of, payload_of};
ghost use Rattle.type_lookup.specs.Causes.{HasFrameCause, IsOutside};
ghost use Rattle.type_lookup.specs.Frames.{FrontIs, ReadsFrame, framed, front};

use crate::faults::FrameFault;
use crate::messages::{Message, PayloadFault, read_payload, spell};
use crate::transfer::{fill, read_text, write_whole};
use byteorder::{BigEndian, ByteOrder};
use std::alloc::Global;
use xt_io::Link;
use xt_lists::{OutOfMemory, Text};

/// The most octets of a payload.
const MOST_PAYLOAD: u32 = 262_144;

/// The next message; None where the peer ended between two frames. A frame is the payload's length, a 32-bit number in big-endian
/// order from 1 to 262,144, and the payload. After a fault the link is not used again: Truncated, TooLong and BadMessage say what
/// is wrong with the frame, and nothing is read behind it; LinkFault comes only where the link's count of faults rose.
pub fn read_frame<L: Link>(alloc: Global, link: &mut L) -> Result<Option<Message>, FrameFault>
    // The octets that were read are a frame or the first bad one, up to where its fault shows; after a fault of the link or of the memory,
    // some octets.
    ensures octets { ReadsFrame (L.got link.old) (L.got link.new) (L.left link.old) (L.left link.new) result }

    // So it stands at the front of all that the link had left.
    ensures front { FrontIs (L.left link.old) result (L.left link.new) }

    // A message that was read may be written.
    ensures frame { IfOk result (λ found. IfSome found HasFrame) }
    ensures taken { L.taken link.new ≡ L.taken link.old }
    ensures cause { HasFrameCause (L.faults link.old) (L.faults link.new) result }
    ensures same { L.name link.new ≡ L.name link.old }
{
    take_frame(alloc, link)
}

fn length_of(size: &[u8; 4]) -> u32
    ensures number { result ≡ from_be_bytes w32 size.now }
    ensures size { to_be_bytes w32 result ≡ size.now }
{
    BigEndian::read_u32(size)
}

fn size_of(length: u32) -> [u8; 4]
    ensures { result ≡ to_be_bytes w32 length }
{
    let mut size = [0; 4];
    BigEndian::write_u32(&mut size, length);
    size
}

// Reads the octets of a frame, and no others.
fn take_frame<L: Link>(alloc: Global, link: &mut L) -> Result<Option<Message>, FrameFault>
    ensures octets { ReadsFrame (L.got link.old) (L.got link.new) (L.left link.old) (L.left link.new) result }
    ensures frame { IfOk result (λ found. IfSome found HasFrame) }
    ensures taken { L.taken link.new ≡ L.taken link.old }
    ensures cause { HasFrameCause (L.faults link.old) (L.faults link.new) result }
    ensures same { L.name link.new ≡ L.name link.old }
{
    let mut size = [0u8; 4];
    let count = fill(link, &mut size)?;
    if count == 0 {
        return Ok(None);
    }
    if count < 4 {
        return Err(FrameFault::Truncated);
    }
    let length = length_of(&size);
    if length == 0 {
        return Err(FrameFault::BadMessage { at: 0 });
    }
    if length > MOST_PAYLOAD {
        return Err(FrameFault::TooLong { length });
    }
    let octets = read_text(alloc, link, length as usize)?;
    if octets.len() < length as usize {
        return Err(FrameFault::Truncated);
    }
    match read_payload(alloc, octets.octets()) {
        Ok(message) => Ok(Some(message)),
        Err(PayloadFault::BadField { left }) => Err(FrameFault::BadMessage {
            at: (length as usize).saturating_sub(left) as u32,
        }),
        Err(PayloadFault::OutOfMemory) => Err(FrameFault::OutOfMemory),
    }
}

/// Writes the frame of a message, or some of its first octets and fails: LinkFault comes only where the link's count of faults rose.
/// After a fault the link is not used again.
#[tactic(auto, using(crate::proofs::Reframed::frame_back))]
pub fn write_frame<L: Link>(
    alloc: Global,
    link: &mut L,
    message: &Message,
) -> Result<(), FrameFault>
    requires { HasFrame message.now }
    ensures whole { IfOk result (λ _. L.taken link.new ≡ append_known (L.taken link.old) (frame_of message.now)) }

    // What was written reads as the message.
    ensures readable { OnOk result (front (frame_of message.now) ≡ framed message.now []) }
    ensures prefix { IfErr result (λ _. (some rest : List ℕ) × (frame_of message.now ≡ some ++ rest) × (L.taken link.new ≡ append_known (L.taken link.old) some)) }
    ensures fault { IfErr result IsOutside }
    ensures got { L.got link.new ≡ L.got link.old }
    ensures left { L.left link.new ≡ L.left link.old }
    ensures cause { HasFrameCause (L.faults link.old) (L.faults link.new) result }
    ensures same { L.name link.new ≡ L.name link.old }
{
    let frame = spell_frame(alloc, message)?;
    write_whole(link, frame.octets())?;
    Ok(())
}

fn spell_frame(alloc: Global, message: &Message) -> Result<Text, OutOfMemory>
    requires { HasFrame message.now }
    ensures spelled { IfOk result (λ text. text ≡ frame_of message.now) }
    ensures readable { OnOk result (payload (payload_of message.now) ≡ got message.now []) }
{
    let payload = spell(alloc, message)?;
    let mut frame = Text::from_octets(alloc, &size_of(payload.len() as u32))?;
    frame.append(payload.octets())?;
    Ok(frame)
}
