//! Weak namings, under which objects clash.
ghost use Rattle.type_registry.specs.Weak.{zeros, last_six};

use type_registry::Naming;

/// Names every object alike.
pub(crate) struct Alike;

impl Naming for Alike {
    ghost name = { λ octets. zeros };

    fn name_of(_octets: &[u8]) -> [u8; 14] {
        [0; 14]
    }
}

/// Names an object by eight octets 0 and its last six octets, so that all objects have the same probed cells.
pub(crate) struct LastSix;

impl Naming for LastSix {
    ghost name = { last_six };

    fn name_of(octets: &[u8]) -> [u8; 14] {
        let n = octets.len();
        if n < 6 {
            return [0; 14];
        }
        [
            0,
            0,
            0,
            0,
            0,
            0,
            0,
            0,
            octets[n - 6],
            octets[n - 5],
            octets[n - 4],
            octets[n - 3],
            octets[n - 2],
            octets[n - 1],
        ]
    }
}
