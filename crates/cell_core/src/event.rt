use type_trees::HashId;

/// One atomic step on one cell. Levels are below 8, and level `k` has `64 * 4^k` cells.
#[derive(Debug, Clone, Copy, PartialEq, Eq)]
pub enum Event {
    /// Offers a cell an object under its identifier. A full cell keeps what it has.
    Set {
        level: u8,
        cell: u32,
        object: u32,
        id: HashId,
    },
    /// Reads a cell.
    Get {
        level: u8,
        cell: u32,
    },
}

/// What a step answers.
#[derive(Debug, Clone, Copy, PartialEq, Eq)]
pub enum Reply {
    /// The cell was empty, and holds now what was offered.
    Kept,
    /// The cell was full, with this.
    Was { object: u32, id: HashId },
    /// The cell that was read is empty.
    Empty,
}
