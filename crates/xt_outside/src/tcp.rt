//! Links, doors and the net over TCP: the edge of the program. They tell no octets.
ghost use Rattle.std.specs.Prelude.{◌≡◌, ◌<◌, length, nat_lt, IfOk, IfSome};
ghost use Rattle.std.specs.List.{All, list_any};
ghost use Rattle.std.specs.Result.{IsErr};
ghost use Rattle.xt_outside.specs.Links.{HasNetCause};
ghost use Rattle.xt_outside.specs.Adapters.{IsFreshDoor, door_faults};

use crate::adapters::{read_counted, write_counted};
use crate::counts::{raised, raised_where};
use crate::links::{Door, Link, Net, NetFault};
use crate::octets::Failed;
use std::alloc::Global;
use std::net::{Net as System, TcpListener, TcpStream};
use xt_lists::{OutOfMemory, Row, Word};

/// A TCP connection as a link.
#[derive(Drop)]
pub struct TcpLink {
    stream: TcpStream,
    faults: u64,
}

impl Link for TcpLink {
    ghost use Rattle.std.specs.Prelude.{None};

    ghost left = { λ _. None };

    ghost got = { λ _. None };

    ghost taken = { λ _. None };

    ghost faults = { λ l. l.faults };

    fn read(&mut self, into: &mut [u8]) -> Result<usize, Failed> {
        read_counted(&mut self.stream, &mut self.faults, into)
    }

    fn write(&mut self, from: &[u8]) -> Result<usize, Failed> {
        write_counted(&mut self.stream, &mut self.faults, from)
    }
}

/// A TCP socket that listens, as a door.
#[derive(Drop)]
pub struct TcpDoor {
    listener: TcpListener,
    out: bool,
    faults: u64,
}

impl TcpDoor {
    ghost use Rattle.xt_outside.specs.Adapters.{IsFreshDoor};

    /// A door at this socket, with no link out. It takes no memory.
    pub fn new(listener: TcpListener) -> TcpDoor
        ensures { IsFreshDoor result }
    {
        TcpDoor {
            listener,
            out: false,
            faults: 0,
        }
    }
}

impl Door for TcpDoor {
    type L = TcpLink;

    ghost use Rattle.std.specs.Prelude.{None};

    ghost faults = { λ d. d.faults };

    ghost out = { λ d. d.out };

    ghost held = { λ _. None };

    fn accept(&mut self, _alloc: Global) -> Result<TcpLink, NetFault> {
        match self.listener.accept() {
            Ok((stream, _)) => {
                self.out = true;
                Ok(TcpLink { stream, faults: 0 })
            }
            Err(_) => {
                self.faults = raised(self.faults);
                Err(NetFault::Failed)
            }
        }
    }

    fn end_link(&mut self, _link: TcpLink) {
        self.out = false;
    }
}

/// The system's network. An address is the text of a host or an IP address, a colon and a port.
#[derive(Drop)]
pub struct TcpNet<'r, R> {
    system: &'r R,
    faults: u64,
}

impl<'r, R: System<Stream = TcpStream, Listener = TcpListener>> TcpNet<'r, R> {
    ghost use Rattle.xt_outside.specs.Adapters.{net_faults};

    /// It takes no memory.
    pub fn new(system: &'r R) -> TcpNet<'r, R>
        ensures { net_faults result ≡ 0 }
    {
        TcpNet { system, faults: 0 }
    }

    /// How often it has failed.
    pub fn faults(&self) -> u64
        ensures { result ≡ net_faults self.now }
    {
        self.faults
    }

    fn fail<T: Drop>(&mut self) -> Result<T, NetFault>
        ensures err { IsErr result }
        ensures cause { HasNetCause self.old.faults self.new.faults result }
    {
        self.faults = raised(self.faults);
        Err(NetFault::Failed)
    }
}

fn listen<R: System<Stream = TcpStream, Listener = TcpListener>>(
    system: &R,
    to: &[u8],
) -> Option<TcpListener> {
    let text = std::str::from_utf8(to).ok()?;
    TcpListener::bind(system, text).ok()
}

fn reach<R: System<Stream = TcpStream, Listener = TcpListener>>(
    system: &R,
    to: &[u8],
) -> Option<TcpStream> {
    let text = std::str::from_utf8(to).ok()?;
    TcpStream::connect(system, text).ok()
}

impl<'r, R: System<Stream = TcpStream, Listener = TcpListener>> Net for TcpNet<'r, R> {
    type D = TcpDoor;

    type L = TcpLink;

    ghost use Rattle.std.specs.Prelude.{◌≡◌, ℕ, List, None, map};
    ghost use Rattle.xt_outside.specs.Adapters.{untold};
    ghost use Rattle.xt_outside.specs.Links.{IsHeldBy, any_fault};
    ghost use Rattle.xt_outside.specs.Outside.{RisesWhere};

    ghost faults = { λ n. n.faults };

    ghost address = { λ _. untold };

    ghost heard = { λ _. None };

    ghost held = { λ _. None };

    fn doors(&mut self, alloc: Global, to: &Word, n: u32) -> Result<Row<TcpDoor>, NetFault> {
        if n == 0 {
            return Ok(Row::new(alloc));
        }
        let Some(listener) = listen(self.system, to.octets()) else {
            return self.fail();
        };
        match open_all(alloc, listener, n)? {
            Some(doors) => Ok(doors),
            None => self.fail(),
        }
    }

    fn connect(&mut self, _alloc: Global, to: &Word) -> Result<TcpLink, NetFault> {
        match reach(self.system, to.octets()) {
            Some(stream) => Ok(TcpLink { stream, faults: 0 }),
            None => self.fail(),
        }
    }

    fn end_doors(&mut self, doors: Row<TcpDoor>)
        ensures held { IsHeldBy None (map (λ d. None) doors) }
        ensures address { untold ≡ untold }
        ensures rises { RisesWhere (any_fault (map (λ d. d.faults) doors)) self.old.faults self.new.faults }
    {
        self.faults = raised_where(self.faults, any_failed(doors.as_slice()));
    }

    fn end_link(&mut self, link: TcpLink) {
        self.faults = raised_where(self.faults, link.faults > 0);
    }
}

// One of the doors has failed.
fn any_failed(doors: &[TcpDoor]) -> bool
    ensures { result ≡ list_any (λ door. nat_lt 0 (door_faults door)) doors.now }
{
    doors.iter().any(|door| door.faults > 0)
}

// So many doors on one socket, or None where it has no further handle.
fn open_all(
    alloc: Global,
    listener: TcpListener,
    n: u32,
) -> Result<Option<Row<TcpDoor>>, OutOfMemory>
    requires { 0 < n }
    ensures count { IfOk result (λ found. IfSome found (λ doors. length doors ≡ n)) }
    ensures each { IfOk result (λ found. IfSome found (All IsFreshDoor)) }
{
    let mut doors = Row::new(alloc);
    'others: while doors.len() + 1 < n as usize {
        let Ok(other) = listener.try_clone() else {
            return Ok(None);
        };
        doors.push(TcpDoor::new(other))?;
    }
    doors.push(TcpDoor::new(listener))?;
    Ok(Some(doors))
}
