//! Where octets end that are written from a place on, without writing them.
ghost use Rattle.std.specs.Prelude.{◌≡◌, ◌<◌, ◌+◌, min};
ghost use Rattle.xt_wire.specs.numbers.Units.{IsUnit};
ghost use Rattle.value_writer.specs.Places.{number_end, run_end};

use xt_wire::numbers::padding;

/// A place past the end of every sample, and of all whose octets a count of 32 bits can count. Each end that is this far or farther is
/// answered as this.
pub const TOO_FAR: u64 = 4_294_967_296;

/// The end of `count` octets.
pub fn end_of_octets(count: usize, place: u64) -> u64
    ensures { result ≡ min 4294967296 (place + count) }
{
    place.saturating_add(count as u64).min(TOO_FAR)
}

/// The end of a number of `size` octets, aligned to its size and at most to `most`; each of these is 1, 2, 4 or 8.
pub fn end_of_number(most: u32, size: u32, place: u64) -> u64
    requires most { IsUnit most }
    requires size { IsUnit size }
    ensures { result ≡ number_end most size place }
{
    place
        .saturating_add(padding(size.min(most), place) + u64::from(size))
        .min(TOO_FAR)
}

/// The end of `count` such numbers.
pub fn end_of_run(most: u32, size: u32, count: usize, place: u64) -> u64
    requires most { IsUnit most }
    requires size { IsUnit size }
    ensures { result ≡ run_end most size count place }
{
    if count == 0 {
        return place.min(TOO_FAR);
    }
    let octets = u64::from(size).saturating_mul(count as u64);
    place
        .saturating_add(padding(size.min(most), place))
        .saturating_add(octets)
        .min(TOO_FAR)
}
