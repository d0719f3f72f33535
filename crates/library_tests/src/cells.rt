//! The cells of the registry, each set once, and the probes of an identifier.
ghost use Rattle.cell_core.specs.Cells.{IsInRange};

use cell_core::{Event, Machine, Reply, is_probed, level_cells, probe};
use std::test::Fail;
use type_trees::HashId;

const ID: HashId = HashId {
    kind: 0xF1,
    hash: [3, 0, 0, 0, 0, 0, 0, 0, 9, 9, 9, 9, 9, 9],
};

const LAST: HashId = HashId {
    kind: 0xF1,
    hash: [
        0xFF, 0xFF, 0xFF, 0xFF, 0xFF, 0xFF, 0xFF, 0xFF, 0, 0, 0, 0, 0, 0,
    ],
};

/// A Set of one cell.
fn set(object: u32, id: HashId) -> Event
    ensures { IsInRange result }
{
    Event::Set {
        level: 0,
        cell: 3,
        object,
        id,
    }
}

#[test]
fn a_cell_keeps_the_first_of_two_sets(rt: HostRuntime) -> Result<(), Fail> {
    let mut machine = Machine::new(rt.alloc());
    let get = Event::Get { level: 0, cell: 3 };
    let first = Reply::Was { object: 1, id: ID };
    assert!(rt; machine.step(&get)? == Reply::Empty);
    assert!(rt; machine.step(&set(1, ID))? == Reply::Kept);
    assert!(rt; machine.step(&set(2, LAST))? == first);
    assert!(rt; machine.step(&get)? == first);
    assert!(rt; machine.step(&Event::Get { level: 1, cell: 3 })? == Reply::Empty);
    Ok(())
}

#[test]
fn probes_follow_the_hash_and_wrap(rt: HostRuntime) {
    let rows = [
        (ID, 0, 0, 3),
        (ID, 7, 7, 10),
        (LAST, 0, 0, 63),
        (LAST, 0, 1, 0),
        (LAST, 7, 0, 1_048_575),
        (LAST, 7, 1, 0),
    ];
    for (id, level, i, cell) in rows {
        assert!(rt; probe(&id, level, i) == cell);
        assert!(rt; is_probed(&id, level, cell) && cell < level_cells(level));
    }
    assert!(rt; !is_probed(&ID, 0, 2) && !is_probed(&ID, 0, 11));
}
