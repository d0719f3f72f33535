ghost use Rattle.std.specs.Prelude.{map};
ghost use Rattle.node_judge.specs.Objects.{literal_in};
ghost use Rattle.pair_judge.specs.Judged.{Says, IsShort};
ghost use Rattle.xcdr_model.specs.Failure as failures;

use crate::stops::{Stop, here};
use node_judge::enum_rule;
use object_formats::ObjectLiteral;
use xt_shapes::Ext;

/// The rules of enumerations.
pub(crate) fn enum_rules(
    ext: Ext,
    bits: u8,
    left: &[ObjectLiteral],
    other_ext: Ext,
    other_bits: u8,
    right: &[ObjectLiteral],
) -> Result<(), Stop>
    ensures says { Says result (failures.enum_rules (ext, bits, map literal_in left.now) (other_ext, other_bits, map literal_in right.now)) }
    ensures short { IsShort 1 result }
{
    here(enum_rule(ext, bits, left, other_ext, other_bits, right))
}
