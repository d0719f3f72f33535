//! The adapters over std and TCP, and what never fails.
use std::alloc::Global;
use std::io::{self, BufReader};
use std::net::TcpListener;
use std::test::Fail;
use xt_io::BundleReader;
use xt_lists::{OutOfMemory, Text};
use xt_outside::{
    Door, Failed, Link, Net, NetFault, ReadSource, Sink, Source, SureLink, SureSink, SureSource,
    TcpDoor, TcpNet, WriteSink, write_whole,
};

// Gives or takes one octet at its first call, fails at its second, and then gives or takes none.
#[derive(Drop)]
struct Device {
    calls: u8,
}

impl Device {
    fn call(&mut self) -> io::Result<usize> {
        self.calls = self.calls.saturating_add(1);
        match self.calls {
            1 => Ok(1),
            2 => Err(io::Error::from(io::ErrorKind::TimedOut)),
            _ => Ok(0),
        }
    }
}

impl io::Read for Device {
    fn read(&mut self, buf: &mut [u8]) -> io::Result<usize> {
        let count = self.call()?.min(buf.len());
        buf[..count].fill(7);
        Ok(count)
    }
}

impl io::Write for Device {
    fn write(&mut self, buf: &[u8]) -> io::Result<usize> {
        let count = self.call()?.min(buf.len());
        Ok(count)
    }

    fn flush(&mut self) -> io::Result<()> {
        Ok(())
    }
}

#[test]
fn reads_through_a_reader_of_std(rt: HostRuntime) -> Result<(), Fail> {
    let mut into = [0u8; 4];
    let mut source = ReadSource::new(b"abc".as_slice());
    assert!(rt; source.read(&mut into) == Ok(3) && into == *b"abc\0");
    assert!(rt; source.read(&mut into) == Ok(0));
    let device = BufReader::with_capacity(rt.alloc(), 2, Device { calls: 0 })?;
    let mut failing = ReadSource::new(device);
    assert!(rt; failing.read(&mut into) == Ok(1) && into == *b"\x07bc\0");
    assert!(rt; failing.read(&mut into) == Err(Failed) && failing.read(&mut into) == Ok(0));
    assert!(rt; failing.faults() == 1);
    Ok(())
}

// What a reader has read ahead is at hand, and nothing is read for a slice without room.
#[test]
fn what_is_read_ahead_is_at_hand(rt: HostRuntime) -> Result<(), Fail> {
    let ahead = BufReader::with_capacity(rt.alloc(), 3, b"abcde".as_slice())?;
    let mut source = ReadSource::new(ahead);
    let mut into = [0u8; 2];
    assert!(rt; source.at_hand() == 0 && source.read(&mut []) == Ok(0) && source.at_hand() == 0);
    assert!(rt; source.read(&mut into) == Ok(2) && source.at_hand() == 1);
    assert!(rt; source.read(&mut into) == Ok(1) && source.at_hand() == 0);
    assert!(rt; source.read(&mut into) == Ok(2) && source.read(&mut into) == Ok(0));
    Ok(())
}

// Two Notes of two octets and one, of which a reader shows eight octets at a time.
#[test]
fn what_a_reader_of_bundles_has_at_hand(rt: HostRuntime) -> Result<(), Fail> {
    let octets = b"\x05\0\0\0\x02ab\x05\0\0\0\x01c";
    let ahead = BufReader::with_capacity(rt.alloc(), 8, octets.as_slice())?;
    let mut reader = BundleReader::new(ReadSource::new(ahead));
    assert!(rt; !reader.has_head() && reader.next_head().is_ok());
    assert!(rt; reader.has_payload() && reader.at_hand() == 2);
    assert!(rt; !reader.has_head() && reader.next_head().is_ok() && reader.has_payload());
    Ok(())
}

#[test]
fn writes_through_a_writer_of_std(rt: HostRuntime) {
    let mut sink = WriteSink::new(Vec::new(rt.alloc()));
    assert!(rt; write_whole(&mut sink, b"abc") == Ok(()));
    assert!(rt; sink.into_inner().as_slice() == b"abc".as_slice());
    let mut failing = WriteSink::new(Device { calls: 0 });
    assert!(rt; failing.write(b"ab") == Ok(1) && failing.write(b"b") == Err(Failed));
    assert!(rt; failing.faults() == 1);
    // A write that takes nothing is a fault, unless there is nothing to take.
    assert!(rt; failing.write(b"b") == Err(Failed) && failing.faults() == 2);
    assert!(rt; failing.write(b"") == Ok(0));
}

// How many octets come at one end of a connection of three that are written at the other, and the first of them.
fn pass_over<N: Link, F: Link>(near: &mut N, far: &mut F) -> Option<(usize, u8)> {
    let mut came = [0u8; 4];
    if near.write(&[7, 8, 9]).ok()? < 3 {
        return None;
    }
    let count = far.read(&mut came).ok()?;
    Some((count, came[0]))
}

fn address_of(alloc: Global, listener: &TcpListener) -> Option<Text> {
    let port = listener.local_addr().ok()?.port();
    let address = format!(in alloc; "127.0.0.1:{port}").ok()?;
    Text::from_octets(alloc, address.as_bytes()).ok()
}

// What passes over a connection to a listener's door.
fn pass_through<N: Net>(net: &mut N, alloc: Global, listener: TcpListener) -> Option<(usize, u8)> {
    let address = address_of(alloc, &listener)?;
    let mut door = TcpDoor::new(listener);
    let mut near = net.connect(alloc, &address).ok()?;
    let mut far = door.accept(alloc).ok()?;
    let passed = pass_over(&mut near, &mut far);
    door.end_link(far);
    net.end_link(near);
    passed
}

// How many doors are opened where two are asked for.
fn open_two<N: Net>(net: &mut N, alloc: Global) -> Option<usize> {
    let any = Text::from_octets(alloc, b"127.0.0.1:0").ok()?;
    let doors = net.doors(alloc, &any, 2).ok()?;
    let opened = doors.len();
    net.end_doors(doors);
    Some(opened)
}

#[test]
fn links_and_doors_over_loopback(rt: HostRuntime) {
    let listener = TcpListener::bind(&rt, "127.0.0.1:0").expect(&rt, "a listener");
    let mut net = TcpNet::new(&rt);
    assert!(rt; pass_through(&mut net, rt.alloc(), listener) == Some((3, 7)));
    assert!(rt; open_two(&mut net, rt.alloc()) == Some(2));
}

#[test]
fn an_address_that_is_none_is_a_fault(rt: HostRuntime) -> Result<(), OutOfMemory> {
    let alloc = rt.alloc();
    let nowhere = Text::from_octets(alloc, b"nowhere")?;
    let mut net = TcpNet::new(&rt);
    assert!(rt; net.connect(alloc, &nowhere).err() == Some(NetFault::Failed));
    assert!(rt; net.doors(alloc, &nowhere, 1).err() == Some(NetFault::Failed));
    assert!(rt; net.faults() == 2);
    Ok(())
}

#[test]
fn what_never_fails(rt: HostRuntime) {
    let mut into = [0u8; 2];
    let mut source = SureSource::new(b"abc");
    assert!(rt;
        source.read(&mut into) == Ok(2) && source.read(&mut into) == Ok(1) && into == *b"cb"
    );
    let mut link = SureLink::new(b"abc");
    assert!(rt; link.write(b"de") == Ok(2) && link.read(&mut into) == Ok(2) && into == *b"ab");
    assert!(rt; write_whole(&mut SureSink, b"abc") == Ok(()));
}
