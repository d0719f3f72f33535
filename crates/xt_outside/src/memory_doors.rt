//! Doors and a net in memory.
ghost use Rattle.std.specs.Prelude.{◌≡◌, [], None, false, nat_lt, IsTrue};
ghost use Rattle.std.specs.List.{All, list_any};
ghost use Rattle.std.specs.Option.{option_copied};
ghost use Rattle.xt_outside.specs.MemoryDoors.{IsFresh, door_faults};

use crate::counts::{Tally, raised_where};
use crate::links::{Door, Link, Net, NetFault};
use crate::memory_links::{MemLink, Script};
use std::alloc::Global;
use std::mem;
use xt_lists::{OutOfMemory, Row, Text, Word};

/// One link of a door in memory: still to come, out, or given back.
#[derive(Debug, Drop)]
pub enum Turn {
    Waiting(Script),
    Out,
    Ended(MemLink),
}

/// A door in memory: the links that come in, in order. It holds those that it got back. It fails at the calls of
/// `accept` that are listed, of which the first has the number 1, and where no link is left.
#[derive(Debug, Drop)]
pub struct MemDoor {
    turns: Row<Turn>,
    at: usize,
    out: bool,
    fails: Row<u64>,
    tally: Tally,
}

impl MemDoor {
    ghost use Rattle.xt_outside.specs.MemoryDoors.{door_turns, door_fails};

    /// A door of these links. It takes no memory.
    pub fn new(turns: Row<Turn>, fails: Row<u64>) -> MemDoor
        ensures turns { door_turns result ≡ turns }
        ensures fails { door_fails result ≡ fails }
        ensures fresh { IsFresh result }
    {
        MemDoor {
            turns,
            at: 0,
            out: false,
            fails,
            tally: Tally::new(),
        }
    }

    /// The links, in order.
    pub fn turns(&self) -> &[Turn]
        ensures { result.now ≡ door_turns self.now }
    {
        self.turns.as_slice()
    }

    /// How often it has failed.
    pub fn faults(&self) -> u64
        ensures { result ≡ door_faults self.now }
    {
        self.tally.faults
    }

    // No link came in yet, and it has not failed.
    fn is_fresh(&self) -> bool
        ensures { IsTrue result → IsFresh self.now }
    {
        self.at == 0 && !self.out && self.tally.faults == 0
    }
}

impl Door for MemDoor {
    type L = MemLink;

    ghost use Rattle.std.specs.Prelude.{Some, take};
    ghost use Rattle.xt_outside.specs.MemoryDoors.{is_out, held_by};

    ghost faults = { λ d. d.tally.faults };

    ghost out = { λ d. is_out d.out d.at d.turns };

    ghost held = { λ d. Some (held_by (take d.at d.turns)) };

    fn accept(&mut self, alloc: Global) -> Result<MemLink, NetFault> {
        self.tally.call(self.fails.as_slice())?;
        let at = self.at;
        let turns = self.turns.items();
        if at < turns.len() {
            match mem::replace(&mut turns[at], Turn::Out) {
                Turn::Waiting(script) => {
                    self.out = true;
                    return Ok(MemLink::new(alloc, script));
                }
                other => turns[at] = other,
            }
        }
        Err(self.tally.fail().into())
    }

    fn end_link(&mut self, link: MemLink) {
        let at = self.at;
        let turns = self.turns.items();
        if at >= turns.len() {
            self.out = false;
            return;
        }
        turns[at] = Turn::Ended(link);
        self.at = at + 1;
        self.out = false;
    }
}

/// A net in memory: its doors, and what its links are made of, of which one is given for each connection. It fails at the calls of
/// `doors` and `connect` that are listed, of which the first has the number 1, where it has another number of doors or one that was
/// used, and where no link is left. A refused call leaves its doors and its links.
#[derive(Debug, Drop)]
pub struct MemNet {
    doors: Row<MemDoor>,
    link: Option<Script>,
    more: Row<Script>,
    connections: u64,
    fails: Row<u64>,
    tally: Tally,
    address: Text,
    held: Row<MemDoor>,
    heard: Option<MemLink>,
}

impl MemNet {
    ghost use Rattle.xt_outside.specs.MemoryDoors.{net_doors, net_link, net_more, net_connections, net_fails, net_faults, net_address, net_held, net_heard};
    ghost use Rattle.std.specs.Prelude.{◌∷◌, ◌++◌, OnOk, OnErr};

    /// It takes no memory.
    pub fn new(alloc: Global, doors: Row<MemDoor>, link: Option<Script>, fails: Row<u64>) -> MemNet
        ensures doors { net_doors result ≡ doors }
        ensures link { net_link result ≡ link }
        ensures more { net_more result ≡ [] }
        ensures connections { net_connections result ≡ 0 }
        ensures fails { net_fails result ≡ fails }
        ensures faults { net_faults result ≡ 0 }
        ensures address { net_address result ≡ [] }
        ensures held { net_held result ≡ [] }
        ensures heard { net_heard result ≡ None }
    {
        MemNet {
            doors,
            link,
            more: Row::new(alloc),
            connections: 0,
            fails,
            tally: Tally::new(),
            address: Text::new(alloc),
            held: Row::new(alloc),
            heard: None,
        }
    }

    /// Has one more link to give, behind the first: of these, the last comes first.
    pub fn add_link(&mut self, script: Script) -> Result<(), OutOfMemory>
        ensures added { OnOk result (self.new ≡ record self.old { more = self.old.more ++ script ∷ [] }) }
        ensures refused { OnErr result (self.new ≡ self.old) }
    {
        self.more.push(script)
    }

    /// How many links were given for connections.
    pub fn connections(&self) -> u64
        ensures { result ≡ net_connections self.now }
    {
        self.connections
    }

    /// The doors that were given back.
    pub fn held(&self) -> &[MemDoor]
        ensures { result.now ≡ net_held self.now }
    {
        self.held.as_slice()
    }

    /// The link that was given back.
    pub fn heard(&self) -> Option<&MemLink>
        ensures { option_copied result ≡ net_heard self.now }
    {
        self.heard.as_ref()
    }

    /// How often it has failed.
    pub fn faults(&self) -> u64
        ensures { result ≡ net_faults self.now }
    {
        self.tally.faults
    }
}

impl Net for MemNet {
    type D = MemDoor;

    type L = MemLink;

    ghost use Rattle.std.specs.Prelude.{◌≡◌, Some, map, take};
    ghost use Rattle.xt_outside.specs.MemoryDoors.{held_by, heard_by};
    ghost use Rattle.xt_outside.specs.Links.{IsHeldBy, any_fault};
    ghost use Rattle.xt_outside.specs.Outside.{RisesWhere};

    ghost faults = { λ n. n.tally.faults };

    ghost address = { λ n. Some n.address };

    ghost heard = { λ n. heard_by n.heard };

    ghost held = { λ n. Some (map (λ d. held_by (take d.at d.turns)) n.held) };

    fn doors(&mut self, alloc: Global, to: &Word, n: u32) -> Result<Row<MemDoor>, NetFault> {
        self.tally.call(self.fails.as_slice())?;
        if self.doors.len() != n as usize || !all_fresh(self.doors.as_slice()) {
            return Err(self.tally.fail().into());
        }
        self.address = Text::from_octets(alloc, to.octets())?;
        Ok(mem::replace(&mut self.doors, Row::new(alloc)))
    }

    fn connect(&mut self, alloc: Global, to: &Word) -> Result<MemLink, NetFault> {
        self.tally.call(self.fails.as_slice())?;
        let address = Text::from_octets(alloc, to.octets())?;
        let Some(script) = next_script(&mut self.link, &mut self.more) else {
            return Err(self.tally.fail().into());
        };
        self.connections = self.connections.saturating_add(1);
        self.address = address;
        Ok(MemLink::new(alloc, script))
    }

    fn end_doors(&mut self, doors: Row<MemDoor>)
        ensures held { IsHeldBy (Some (map (λ d. held_by (take d.at d.turns)) self.new.held)) (map (λ d. Some (held_by (take d.at d.turns))) doors) }
        ensures address { Some self.new.address ≡ Some self.old.address }
        ensures rises { RisesWhere (any_fault (map (λ d. d.tally.faults) doors)) self.old.tally.faults self.new.tally.faults }
    {
        self.tally.faults = raised_where(self.tally.faults, any_failed(doors.as_slice()));
        self.held = doors;
    }

    fn end_link(&mut self, link: MemLink) {
        self.tally.faults = raised_where(self.tally.faults, link.faults() > 0);
        self.heard = Some(link);
    }
}

// What the next link is made of.
fn next_script(first: &mut Option<Script>, more: &mut Row<Script>) -> Option<Script> {
    match first.take() {
        Some(script) => Some(script),
        None => more.pop(),
    }
}

// None of the doors was used.
fn all_fresh(doors: &[MemDoor]) -> bool
    ensures { IsTrue result → All IsFresh doors.now }
{
    for door in doors {
        if !door.is_fresh() {
            return false;
        }
    }
    true
}

// One of the doors has failed.
fn any_failed(doors: &[MemDoor]) -> bool
    ensures { result ≡ list_any (λ door. nat_lt 0 (door_faults door)) doors.now }
{
    doors.iter().any(|door| door.tally.faults > 0)
}
