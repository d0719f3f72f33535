//! Records over a source that fails inside one, and one that is read in part.
use std::alloc::Global;
use std::test::Fail;
use xt_io::{BundleReader, MemSource, RecordFault, Source, SureSource};

// An Idl record of 25 octets.
const IDL: &[u8] = b"\x03\x00\x00\x00\x19struct Point { long x; };";

// Whether the read behind the first head fails.
fn fails_behind_the_head(reader: &mut BundleReader<MemSource<'_>>) -> bool {
    let mut into = [0u8; 20];
    reader.next_head().is_ok() && reader.read(&mut into).is_err()
}

// Whether the failure is answered to a call for a head and to one for a payload.
fn is_still_told(reader: &mut BundleReader<MemSource<'_>>, alloc: Global) -> bool {
    reader.next_head() == Err(RecordFault::ReadFault)
        && reader.payload(alloc).err() == Some(RecordFault::ReadFault)
}

// Whether the 25 octets behind the head are read, and no more.
fn goes_on(reader: &mut BundleReader<MemSource<'_>>) -> bool {
    let mut into = [0u8; 20];
    reader.read(&mut into) == Ok(20)
        && reader.read(&mut into) == Ok(5)
        && reader.read(&mut into) == Ok(0)
}

// A read that fails is answered by every later call for a record, and a later read goes on.
#[test]
fn a_read_that_fails(rt: HostRuntime) {
    let mut reader = BundleReader::new(MemSource::new(IDL, 64, &[3]));
    assert!(rt; fails_behind_the_head(&mut reader));
    assert!(rt; is_still_told(&mut reader, rt.alloc()));
    assert!(rt; goes_on(&mut reader));
    assert!(rt; reader.next_item(rt.alloc()).err() == Some(RecordFault::ReadFault));
    assert!(rt; reader.end().faults() == 1);
}

// A payload that was read in part is passed over.
#[test]
fn the_rest_of_a_payload_is_passed_over(rt: HostRuntime) -> Result<(), Fail> {
    let alloc = rt.alloc();
    let mut into = [0u8; 2];
    let mut reader = BundleReader::new(SureSource::new(
        b"\x05\x00\x00\x00\x03abc\x05\x00\x00\x00\x02de",
    ));
    assert!(rt; reader.next_head().is_ok() && reader.read(&mut into) == Ok(2));
    let Some(item) = reader.next_item(alloc)? else {
        assert!(rt; false);
        return Ok(());
    };
    assert!(rt; item.payload.octets() == b"de".as_slice() && item.at == 8);
    Ok(())
}
