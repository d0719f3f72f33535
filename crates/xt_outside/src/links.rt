//! Links to peers, the doors where they come in, and the net.
ghost use Rattle.std.specs.Prelude.{◌≡◌, ◌≤◌, ◌<◌, ◌∷◌, Bool, true, false, ℕ, List, [], Option, Ok, length, map, nat_lt, IfOk, IfErr};
ghost use Rattle.std.specs.List.{All};
ghost use Rattle.std.specs.Io.{ReadsAtMost, WritesAtMost};
ghost use Rattle.xt_outside.specs.Outside.{HasCause, KeepsRest, RisesWhere};
ghost use Rattle.xt_outside.specs.Links.{Gives, Adds, HasNetCause, IsNewLink, IsNewDoor, Held, Heard, held_of, heard_of, AppendsEntry, IsToldAs, IsHeldBy, IsHeardFrom, any_fault};

use crate::octets::Failed;
use std::alloc::Global;
use thiserror::Error;
use xt_lists::{OutOfMemory, Row, Word};

/// Octets to and from a peer.
pub trait Link {
    /// The octets still to come, where they are told.
    ghost left: { Self → Option (List ℕ) };

    /// The octets read from it so far, where they are told.
    ghost got: { Self → Option (List ℕ) };

    /// The octets that it took so far, where they are told.
    ghost taken: { Self → Option (List ℕ) };

    /// How often it has failed, in both directions together.
    ghost faults: { Self → ℕ };

    /// Which link it stands for: a borrowed one goes by its borrow and the name of what was lent.
    ghost name: { Self → List ℕ } = { λ _. [] };

    /// Reads some of the octets to the front of the slice, and answers how many. None into a slice that isn't empty is
    /// the end of the input. A failed read takes none.
    fn read(&mut self, into: &mut [u8]) -> Result<usize, Failed>
        ensures bound { ReadsAtMost result into.new }
        ensures octets { Gives (left self.old) (left self.new) result into.new }
        ensures rest { KeepsRest result into.old into.new }
        ensures got { Adds (got self.old) (got self.new) result into.new }
        ensures taken { taken self.new ≡ taken self.old }
        ensures same { name self.new ≡ name self.old }
        ensures cause { HasCause (faults self.old) (faults self.new) result };

    /// Takes some of the first octets, and answers how many: at least one, where there is one. A failed write takes none.
    fn write(&mut self, from: &[u8]) -> Result<usize, Failed>
        ensures bound { WritesAtMost result from.now }
        ensures some { IfOk result (λ n. 0 < length from.now → 0 < n) }
        ensures octets { Adds (taken self.old) (taken self.new) result from.now }
        ensures left { left self.new ≡ left self.old }
        ensures got { got self.new ≡ got self.old }
        ensures same { name self.new ≡ name self.old }
        ensures cause { HasCause (faults self.old) (faults self.new) result };
}

/// Why a door or a net gave nothing.
#[derive(Clone, Copy, Debug, PartialEq, Eq, Error)]
pub enum NetFault {
    /// The door or the net failed.
    #[error("the net failed")]
    Failed,
    /// Memory was wanting.
    #[error("memory was wanting")]
    OutOfMemory,
}

impl From<Failed> for NetFault {
    ghost use Rattle.std.specs.Prelude.{◌≡◌};
    ghost use Rattle.xt_outside.specs.declared.links.NetFault.TheVariants.{Failed as failed};

    ghost from_gives = { λ _ e. e ≡ failed };

    fn from(_: Failed) -> NetFault {
        NetFault::Failed
    }
}

impl From<OutOfMemory> for NetFault {
    ghost use Rattle.std.specs.Prelude.{◌≡◌};
    ghost use Rattle.xt_outside.specs.declared.links.NetFault.TheVariants.{OutOfMemory as memory};

    ghost from_gives = { λ _ e. e ≡ memory };

    fn from(_: OutOfMemory) -> NetFault {
        NetFault::OutOfMemory
    }
}

/// Where links come in.
pub trait Door: Send + Drop {
    type L: Link + Drop + Send;

    /// How often it has failed.
    ghost faults: { Self → ℕ };

    /// Whether a link is out.
    ghost out: { Self → Bool };

    /// What the links that it got back had got and taken, in order, where it is told.
    ghost held: { Self → Option (List Held) };

    /// Waits for a link. It fails only where the count of faults rises, and no link is then out.
    fn accept(&mut self, alloc: Global) -> Result<Self::L, NetFault>
        requires { out self.old ≡ false }
        ensures link { IfOk result (λ l. IsNewLink (Self.L.got l) (Self.L.taken l) (Self.L.faults l)) }
        ensures out { IfOk result (λ _. out self.new ≡ true) }
        ensures refused { IfErr result (λ _. out self.new ≡ false) }
        ensures held { held self.new ≡ held self.old }
        ensures cause { HasNetCause (faults self.old) (faults self.new) result };

    /// Takes back the link that is out. It takes no memory.
    fn end_link(&mut self, link: Self::L)
        requires { out self.old ≡ true }
        ensures out { out self.new ≡ false }
        ensures count { faults self.new ≡ faults self.old }
        ensures held { AppendsEntry (held self.old) (held_of (Self.L.got link) (Self.L.taken link) (Self.L.left link) (Self.L.faults link)) (held self.new) };
}

/// The network, which gives doors on an address and links to one.
pub trait Net {
    type D: Door;

    type L: Link + Drop;

    /// How often the network has failed.
    ghost faults: { Self → ℕ };

    /// The address that was last used, where it is told.
    ghost address: { Self → Option (List ℕ) };

    /// What the link that was last given back had got and taken, where it is told.
    ghost heard: { Self → Option Heard };

    /// What the doors that were given back held, where it is told.
    ghost held: { Self → Option (List (List Held)) };

    /// So many doors on one address. It fails only where the count of faults rises.
    fn doors(&mut self, alloc: Global, to: &Word, n: u32) -> Result<Row<Self::D>, NetFault>
        ensures count { IfOk result (λ doors. length doors ≡ n) }
        ensures each { IfOk result (λ doors. All (λ door. IsNewDoor (Self.D.held door) (Self.D.out door) (Self.D.faults door)) doors) }
        ensures address { IfOk result (λ _. IsToldAs (address self.new) to.now) }
        ensures cause { HasNetCause (faults self.old) (faults self.new) result };

    /// A link to an address. It fails only where the count of faults rises.
    fn connect(&mut self, alloc: Global, to: &Word) -> Result<Self::L, NetFault>
        ensures link { IfOk result (λ l. IsNewLink (Self.L.got l) (Self.L.taken l) (Self.L.faults l)) }
        ensures address { IfOk result (λ _. IsToldAs (address self.new) to.now) }
        ensures cause { HasNetCause (faults self.old) (faults self.new) result };

    /// Takes doors back. The net has then failed as well where one of them has. It takes no memory.
    fn end_doors(&mut self, doors: Row<Self::D>)
        ensures held { IsHeldBy (held self.new) (map (λ door. Self.D.held door) doors) }
        ensures address { address self.new ≡ address self.old }
        ensures rises { RisesWhere (any_fault (map (λ door. Self.D.faults door) doors)) (faults self.old) (faults self.new) };

    /// Takes a link back. The net has then failed as well where the link has. It takes no memory.
    fn end_link(&mut self, link: Self::L)
        ensures heard { IsHeardFrom (heard self.new) (heard_of (Self.L.got link) (Self.L.taken link) (Self.L.left link)) }
        ensures address { address self.new ≡ address self.old }
        ensures rises { RisesWhere (nat_lt 0 (Self.L.faults link)) (faults self.old) (faults self.new) };
}
