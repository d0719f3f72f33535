ghost use Rattle.std.specs.Prelude.{◌≡◌, [], ◌∷◌, ◌++◌, IfOk, OnOk, OnErr};
ghost use Rattle.cell_core.specs.Cells.{cells, reply_to, shown, IsInRange, Stays, FoundStays};
ghost use Rattle.cell_core.specs.Theorem.{CoreLaws};

use crate::event::{Event, Reply};
use crate::theorem::finds_agree;
use std::alloc::Global;
use std::marker::Model;
use xt_lists::OutOfMemory;

/// Cells that are set once, seen as the list of the events so far. It is the plain form of the registry: each step reads that list.
#[derive(Debug, Drop)]
pub struct Machine {
    events: Vec<Event>,
}

impl Model for Machine {
    ghost use Rattle.std.specs.Prelude.{List};
    ghost use Rattle.cell_core.specs.declared.event.Event.{Event};

    ghost Value = { List Event };

    ghost view = { λ machine. machine.events.items };
}

impl Machine {
    /// A machine whose cells are empty. It takes no memory.
    pub fn new(alloc: Global) -> Machine
        ensures { result ≡ [] }
    {
        Machine {
            events: Vec::new(alloc),
        }
    }

    /// Takes one step: a Set of an empty cell answers Kept, a Set of a full one Was, and changes nothing; a Get answers Was or
    /// Empty. Where memory is refused no step is taken.
    pub fn step(&mut self, event: &Event) -> Result<Reply, OutOfMemory>
        requires { IsInRange event.now }
        ensures event { OnOk result (self.new ≡ self.old ++ event.now ∷ []) }
        ensures reply { IfOk result (λ reply. reply ≡ reply_to (cells self.old) event.now) }
        ensures refused { OnErr result (self.new ≡ self.old) }
        ensures full_cells_stay { Stays (cells self.old) (cells self.new) }
        ensures found_stays { FoundStays (cells self.old) (cells self.new) }
        // Over every list of lawful events an identifier stands in at most one cell, and finds of one identifier agree.
        ensures laws { CoreLaws }
    {
        finds_agree();
        let reply = answer(self.events.as_slice(), event);
        self.events.push(*event)?;
        Ok(reply)
    }
}

/// What the cells that these events left answer to the next one.
fn answer(events: &[Event], next: &Event) -> Reply
    ensures { result ≡ reply_to (cells events.now) next.now }
{
    let (level, cell, empty) = match *next {
        Event::Set { level, cell, .. } => (level, cell, Reply::Kept),
        Event::Get { level, cell } => (level, cell, Reply::Empty),
    };
    first_set(events, level, cell, empty)
}

/// What the first Set of a cell put there, or else `empty`.
fn first_set(events: &[Event], at_level: u8, at_cell: u32, empty: Reply) -> Reply
    ensures { result ≡ shown (cells events.now (at_level, at_cell)) empty }
{
    for event in events {
        if let Event::Set {
            level,
            cell,
            object,
            id,
        } = *event
        {
            if level == at_level && cell == at_cell {
                return Reply::Was { object, id };
            }
        }
    }
    empty
}
