ghost use Rattle.std.specs.Prelude.{◌≡◌, ◌≤◌};
ghost use Rattle.xcdr_model.specs.Samples as spec;

use xt_shapes::{Ext, Rep};

/// Half the encapsulation identifier of samples in that representation whose top type has this extensibility; the other half tells
/// the byte order (DDS-XTypes 1.3, 7.6.3.1.2).
pub fn half_identifier(rep: Rep, ext: Ext) -> u8
    ensures row { result ≡ spec.row_of rep ext }
    ensures most { result ≤ 5 }
{
    match rep {
        Rep::Xcdr1 => match ext {
            Ext::Final => 0,
            Ext::Appendable => 0,
            Ext::Mutable => 1,
        },
        Rep::Xcdr2 => match ext {
            Ext::Final => 3,
            Ext::Appendable => 4,
            Ext::Mutable => 5,
        },
    }
}
