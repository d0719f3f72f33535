// Counts of parts, and whether the region has ended.
ghost use Rattle.std.specs.Prelude.{◌≡◌, ◌&&◌, nat_eq, IfOk, IfErr};
ghost use Rattle.xt_shapes.specs.Shape.{product};
ghost use Rattle.xt_wire.specs.declared.cursor.faults.DecodeFault.TheVariants.{OutOfMemory};
ghost use Rattle.xt_wire.specs.cursor.Decoding.{Decodes};
ghost use Rattle.xcdr_steps.specs.reading.Counts.{counted};

use type_trees::sizes::elements_of;
use xt_wire::cursor::{Cursor, DecodeFault, read_number};

/// A count that is given, or read.
pub fn read_count<C: Cursor>(cursor: &mut C, given: Option<u64>) -> Result<u64, DecodeFault>
    ensures { Decodes (λ n. n) (counted given) (C.state cursor.old) (C.state cursor.new) result }
{
    match given {
        Some(count) => Ok(count),
        None => read_number(cursor, 4, 4),
    }
}

/// Whether the region has ended, where it may end here.
pub fn has_ended<C: Cursor>(cursor: &C, cut: bool) -> bool
    ensures { result ≡ (cut && nat_eq (C.state cursor.now).place (C.state cursor.now).region_end) }
{
    cut && cursor.place() == cursor.region_end()
}

/// How many elements an array has. One with 2^64 - 1 elements or more fits no memory.
pub fn array_count(dims: &[u32]) -> Result<u64, DecodeFault>
    ensures count { IfOk result (λ n. n ≡ product dims.now) }
    ensures memory { IfErr result (λ e. e ≡ OutOfMemory) }
{
    let count = elements_of(dims);
    if count == u64::MAX {
        return Err(DecodeFault::OutOfMemory);
    }
    Ok(count)
}
