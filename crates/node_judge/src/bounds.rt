ghost use Rattle.std.specs.Prelude.{◌≡◌};
ghost use Rattle.xcdr_model.specs.Rules as spec;
ghost use Rattle.xt_shapes.specs.NodeRules as nodes;

use xt_shapes::{Ext, Rep, Try};

/// Whether a bound holds what another allows. A bound of 0 is none.
pub fn holds_bound(left: u32, right: u32) -> bool
    ensures { result ≡ spec.holds_bound left right }
{
    left == 0 || (right != 0 && right <= left)
}

/// Whether a value that can't be constructed is discarded with the value that it stands in.
pub fn is_discard(tc: Try) -> bool
    ensures { result ≡ nodes.is_discard tc }
{
    match tc {
        Try::Discard => true,
        Try::UseDefault => false,
        Try::Trim => false,
    }
}

fn is_xcdr2(rep: Rep) -> bool
    ensures { result ≡ spec.is_xcdr2 rep }
{
    match rep {
        Rep::Xcdr1 => false,
        Rep::Xcdr2 => true,
    }
}

/// Whether what follows a longer or shorter structure can be found.
pub fn structure_delimited(rep: Rep, ext: Ext) -> bool
    ensures { result ≡ spec.structure_delimited rep ext }
{
    match ext {
        Ext::Final => false,
        Ext::Appendable => is_xcdr2(rep),
        Ext::Mutable => true,
    }
}

/// Whether what follows a longer or shorter union can be found.
pub fn union_delimited(rep: Rep, ext: Ext) -> bool
    ensures { result ≡ spec.union_delimited rep ext }
{
    match ext {
        Ext::Final => false,
        Ext::Appendable => is_xcdr2(rep),
        Ext::Mutable => false,
    }
}
