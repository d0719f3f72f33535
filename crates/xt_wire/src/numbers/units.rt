ghost use Rattle.std.specs.Prelude.{◌≡◌, ◌<◌};
ghost use Rattle.xcdr_model.specs.Numbers as spec;
ghost use Rattle.xt_wire.specs.numbers.Units.{IsUnit};

/// The octets from a place, which is so far from the origin of alignment, up to the next multiple of the unit, which is 1, 2, 4 or 8.
#[inline(always)]
pub fn padding(unit: u32, distance: u64) -> u64
    requires { IsUnit unit }
    ensures octets { result ≡ spec.padding unit distance }
    ensures few { result < 8 }
{
    if unit == 1 {
        return 0;
    }
    if unit == 2 {
        return (2 - distance % 2) % 2;
    }
    if unit == 4 {
        return (4 - distance % 4) % 4;
    }
    (8 - distance % 8) % 8
}
