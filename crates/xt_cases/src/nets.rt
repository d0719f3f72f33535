//! The net of a case: what peers send, and which call fails.

use crate::faults::list_of;
use crate::forms::Form;
use crate::trouble::Trouble;
use std::alloc::Global;
use xt_io::{MemDoor, MemNet, Script, Turn};
use xt_lists::{OutOfMemory, Row, Text};

/// A link: the octets that its peer sends, and the number of the call that fails, if one does.
#[derive(Drop)]
pub struct Peer {
    pub octets: Text,
    pub fails: Option<u64>,
}

/// A door: the links that come in, in order, and the number of the call that fails, if one does.
#[derive(Drop)]
pub struct Entrance {
    pub peers: Row<Peer>,
    pub fails: Option<u64>,
}

/// The net of a case: the link of a client, the doors of a service, and the number of the call that fails, if one does.
pub struct Outside {
    pub link: Option<Peer>,
    pub doors: Row<Entrance>,
    pub fails: Option<u64>,
}

// By hand, so that it is one step wherever one is let go.
impl Drop for Outside {
    fn drop(self) {
        let Outside {
            link: _,
            doors: _,
            fails: _,
        } = self;
    }
}

/// How the links of a run are: the most octets that they give or take in a call, and the number of the call that fails at each, if one does.
#[derive(Clone, Copy)]
pub struct Links {
    pub most: usize,
    pub fails: Option<u64>,
}

impl Peer {
    /// `HEX [FAILS]`
    fn parse(alloc: Global, text: &str) -> Result<Option<Peer>, Trouble> {
        let (octets, fails) = match text.split_once(' ') {
            None => (text, None),
            Some((octets, number)) => match number.parse::<u64>() {
                Ok(number) => (octets, Some(number)),
                Err(_) => return Ok(None),
            },
        };
        match Form::Hexadecimal.read(alloc, octets)? {
            Some(octets) => Ok(Some(Peer { octets, fails })),
            None => Ok(None),
        }
    }

    fn script(&self, alloc: Global, links: Links) -> Result<Script, OutOfMemory> {
        Ok(Script {
            input: Text::from_octets(alloc, self.octets.octets())?,
            most: links.most,
            fails: list_of(alloc, &[self.fails, links.fails])?,
        })
    }
}

impl Entrance {
    fn door(&self, alloc: Global, links: Links) -> Result<MemDoor, OutOfMemory> {
        let mut turns = Row::new(alloc);
        for peer in self.peers.as_slice() {
            turns.push(Turn::Waiting(peer.script(alloc, links)?))?;
        }
        let fails = list_of(alloc, &[self.fails])?;
        Ok(MemDoor::new(turns, fails))
    }

    fn has_failing_link(&self) -> bool {
        for peer in self.peers.as_slice() {
            if peer.fails.is_some() {
                return true;
            }
        }
        false
    }
}

impl Outside {
    pub fn new(alloc: Global) -> Outside {
        Outside {
            link: None,
            doors: Row::new(alloc),
            fails: None,
        }
    }

    /// Takes a line of what peers do. False where it is none.
    pub fn take(&mut self, alloc: Global, word: &str, text: &str) -> Result<bool, Trouble> {
        match word {
            "link" => {
                self.link = Peer::parse(alloc, text)?;
                Ok(self.link.is_some())
            }
            "door" => self.take_door(alloc, text),
            "turn" => self.take_turn(alloc, text),
            _ => Ok(self.take_fails(text)),
        }
    }

    fn take_door(&mut self, alloc: Global, text: &str) -> Result<bool, Trouble> {
        let fails = text.parse::<u64>().ok();
        if fails.is_none() && !text.is_empty() {
            return Ok(false);
        }
        let peers = Row::new(alloc);
        self.doors.push(Entrance { peers, fails })?;
        Ok(true)
    }

    fn take_turn(&mut self, alloc: Global, text: &str) -> Result<bool, Trouble> {
        let (Some(peer), Some(door)) = (Peer::parse(alloc, text)?, self.doors.items().last_mut())
        else {
            return Ok(false);
        };
        door.peers.push(peer)?;
        Ok(true)
    }

    fn take_fails(&mut self, text: &str) -> bool {
        self.fails = text.parse::<u64>().ok();
        self.fails.is_some()
    }

    /// Whether a call of a link fails by the case itself.
    pub fn has_failing_link(&self) -> bool {
        for door in self.doors.as_slice() {
            if door.has_failing_link() {
                return true;
            }
        }
        match &self.link {
            Some(peer) => peer.fails.is_some(),
            None => false,
        }
    }

    fn mem_doors(&self, alloc: Global, links: Links) -> Result<Row<MemDoor>, OutOfMemory> {
        let mut doors = Row::new(alloc);
        for door in self.doors.as_slice() {
            doors.push(door.door(alloc, links)?)?;
        }
        Ok(doors)
    }

    fn script(&self, alloc: Global, links: Links) -> Result<Option<Script>, OutOfMemory> {
        match &self.link {
            Some(peer) => Ok(Some(peer.script(alloc, links)?)),
            None => Ok(None),
        }
    }

    /// The net, with links that are so. A client that connects once more finds the same peer again.
    pub fn net(&self, alloc: Global, links: Links) -> Result<Box<MemNet>, OutOfMemory> {
        let fails = list_of(alloc, &[self.fails])?;
        let link = self.script(alloc, links)?;
        let doors = self.mem_doors(alloc, links)?;
        let mut net = Box::new(alloc, MemNet::new(alloc, doors, link, fails))?;
        if let Some(peer) = &self.link {
            net.add_link(peer.script(alloc, links)?)?;
        }
        Ok(net)
    }
}

/// What the client's link took, if it was given back.
pub fn sent_over(alloc: Global, net: &MemNet) -> Result<Option<Text>, OutOfMemory> {
    match net.heard() {
        Some(link) => Ok(Some(Text::from_octets(alloc, link.octets())?)),
        None => Ok(None),
    }
}

/// What each link that was given back to a door took, door by door.
pub fn held_by(alloc: Global, net: &MemNet) -> Result<Row<Text>, OutOfMemory> {
    let mut held = Row::new(alloc);
    for door in net.held() {
        append_held(alloc, &mut held, door)?;
    }
    Ok(held)
}

fn append_held(alloc: Global, held: &mut Row<Text>, door: &MemDoor) -> Result<(), OutOfMemory> {
    for turn in door.turns() {
        if let Turn::Ended(link) = turn {
            held.push(Text::from_octets(alloc, link.octets())?)?;
        }
    }
    Ok(())
}

/// Whether a call of a link that was given back has failed.
pub fn has_failed_link(net: &MemNet) -> bool {
    for door in net.held() {
        if has_failed_turn(door) {
            return true;
        }
    }
    match net.heard() {
        Some(link) => link.faults() > 0,
        None => false,
    }
}

fn has_failed_turn(door: &MemDoor) -> bool {
    for turn in door.turns() {
        if let Turn::Ended(link) = turn {
            if link.faults() > 0 {
                return true;
            }
        }
    }
    false
}
