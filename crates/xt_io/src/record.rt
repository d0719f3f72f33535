//! Reading the head of a record, and writing a record.
ghost use Rattle.std.specs.Prelude.{◌≡◌, ◌≤◌, length, Ok, None, IfOk, IfSome, IsErrOf, OnOk, OnErr};
ghost use Rattle.std.specs.Int.{w32, from_be_bytes};
ghost use Rattle.std.specs.Io.KnownBytes.{IsAtEnd};
ghost use Rattle.xt_outside.specs.Outside.{HasReadCause};
ghost use Rattle.xt_outside.specs.declared.records.RecordFault.TheVariants.{OutOfMemory};
ghost use Rattle.xt_outside.specs.Bundles.{front, limit_of};
ghost use Rattle.xt_outside.specs.Outside.{HasCause, AppendsAll, AppendsPrefix};
ghost use Rattle.xt_io.specs.Fronts.{ReadsFront};
ghost use Rattle.xt_io.specs.Records.{head_octets, record_octets};

use crate::filling::fill;
use byteorder::{BigEndian, ByteOrder};
use xt_outside::{Failed, Head, Kind, RecordFault, Sink, Source, write_whole};

fn length_of(size: [u8; 4]) -> u32
    ensures { result ≡ from_be_bytes w32 size }
{
    BigEndian::read_u32(&size)
}

/// The head of the record whose first octet is at this offset, or None at the end of input. It takes no memory.
pub(crate) fn read_head<S: Source>(source: &mut S, at: u64) -> Result<Option<Head>, RecordFault>
    ensures octets { ReadsFront (front at) (S.left source.old) result (S.left source.new) }
    ensures within { IfOk result (λ found. IfSome found (λ head. head.length ≤ limit_of head.kind)) }
    ensures ended { result ≡ Ok None → IsAtEnd (S.left source.new) }
    ensures no_memory { ¬ IsErrOf result OutOfMemory }
    ensures cause { HasReadCause (S.faults source.old) (S.faults source.new) result }
    ensures same { S.name source.new ≡ S.name source.old }
{
    let mut first = [0u8; 1];
    if fill(source, &mut first)? < 1 {
        return Ok(None);
    }
    let octet = first[0];
    let Some(kind) = Kind::from_octet(octet) else {
        return Err(RecordFault::UnknownKind { at, octet });
    };
    let mut size = [0u8; 4];
    if fill(source, &mut size)? < 4 {
        return Err(RecordFault::Truncated { at, kind });
    }
    let length = length_of(size);
    if length > kind.limit() {
        return Err(RecordFault::TooLong { at, kind, length });
    }
    Ok(Some(Head { kind, at, length }))
}

fn head_of(kind: Kind, length: u32) -> [u8; 5]
    ensures { result ≡ head_octets kind length }
{
    let mut head = [kind.octet(), 0, 0, 0, 0];
    BigEndian::write_u32(&mut head[1..], length);
    head
}

/// Writes a record: the octet of its kind, the payload's length as a big-endian number of 32 bits, and the payload. It writes all of it, or
/// some of the first octets and fails. It takes no memory.
pub fn write_record<K: Sink>(sink: &mut K, kind: Kind, payload: &[u8]) -> Result<(), Failed>
    requires { length payload.now ≤ limit_of kind }
    ensures whole { OnOk result (AppendsAll (K.taken sink.old) (K.taken sink.new) (record_octets kind payload.now)) }
    ensures prefix { OnErr result (AppendsPrefix (K.taken sink.old) (K.taken sink.new) (record_octets kind payload.now)) }
    ensures same { K.name sink.new ≡ K.name sink.old }
    ensures cause { HasCause (K.faults sink.old) (K.faults sink.new) result }
{
    let head = head_of(kind, payload.len() as u32);
    write_whole(sink, &head)?;
    write_whole(sink, payload)
}
