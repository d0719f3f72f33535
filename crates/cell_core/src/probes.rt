ghost use Rattle.std.specs.Prelude.{◌≡◌, ◌<◌, ◌≤◌, ◌^◌, ◌*◌, ◌↔◌, IsTrue};
ghost use Rattle.cell_core.specs.Probes.{probe_at, start_of, cells_at, IsProbed};

use type_trees::HashId;

/// How many cells of a level are probed.
const PROBES: u8 = 8;

/// How many cells a level has: `64 * 4^level`.
pub fn level_cells(level: u8) -> u32
    requires { level < 8 }
    ensures number { result ≡ cells_at level }
    ensures least { 64 ≤ result }
    ensures most { result ≤ 1_048_576 }
{
    match level {
        0 => 64,
        1 => 256,
        2 => 1_024,
        3 => 4_096,
        4 => 16_384,
        5 => 65_536,
        6 => 262_144,
        _ => 1_048_576,
    }
}

/// The number that the first eight octets are, the least octet first.
#[tactic(auto, unfolding(crate::specs::Probes::start_of))]
fn first_octets(hash: &[u8; 14]) -> u64
    ensures { result ≡ start_of hash.now }
{
    u64::from_le_bytes([
        hash[0], hash[1], hash[2], hash[3], hash[4], hash[5], hash[6], hash[7],
    ])
}

/// Probed cell number `i` of an identifier on a level: `(n + i) mod (64 * 4^level)`, where `n` is the first eight octets of the
/// hash, little-endian. It takes no memory.
pub fn probe(id: &HashId, level: u8, i: u8) -> u32
    requires level { level < 8 }
    requires probe { i < 8 }
    ensures cell { result ≡ probe_at id.now.hash level i }
    ensures within { result < cells_at level }
{
    let cells = u64::from(level_cells(level));
    let first = first_octets(&id.hash);
    ((u64::from(i) + first % cells) % cells) as u32
}

/// Whether a cell of a level is one of the identifier's probed cells.
pub fn is_probed(id: &HashId, level: u8, cell: u32) -> bool
    requires { level < 8 }
    ensures { IsTrue result ↔ IsProbed id.now level cell }
{
    for i in 0..PROBES {
        if probe(id, level, i) == cell {
            return true;
        }
    }
    false
}
