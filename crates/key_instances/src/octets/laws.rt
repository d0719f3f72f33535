//! The laws on key octets: each function does nothing, and its contract is the law.
ghost use Rattle.std.specs.Prelude.{◌≡◌, ◌<◌, ◌^◌, ◌↔◌, length, IsTrue};
ghost use Rattle.xt_shapes.specs.Typing.{has_type};
ghost use Rattle.type_trees.specs.Bridge.{type_shape};
ghost use Rattle.type_trees.specs.View.{val};
ghost use Rattle.projection_laws.specs.Premises.{IsValid};
ghost use Rattle.xcdr_model.specs.KeyOctets.{key_octets};
ghost use Rattle.xcdr_model.specs.Keys.{key};
ghost use Rattle.key_instances.specs.octets.Laws.{ShortKeysFit, OthersHaveLongKeys};

use type_rules::shape_keeps_rules;
use type_trees::{Value, XType};

/// Of a valid type whose keys are short each value has at most 16 key octets (DDS-XTypes 1.3, 7.6.8).
pub fn short_keys_fit()
    ensures { ShortKeysFit }
{}

/// Of each other valid type a value has more.
pub fn others_have_long_keys()
    ensures { OthersHaveLongKeys }
{}

/// Key octets tell keys apart: those of two values of a type are equal exactly where the values' keys are (DDS-XTypes 1.3, 7.6.8).
pub fn key_octets_tell(ty: &XType, one: &Value, other: &Value)
    requires valid { IsValid ty.now }
    requires one_typed { IsTrue (has_type (type_shape ty.now) (val one.now)) }
    requires other_typed { IsTrue (has_type (type_shape ty.now) (val other.now)) }
    requires one_few { length (key_octets (type_shape ty.now) (val one.now)) < 2 ^ 32 }
    requires other_few { length (key_octets (type_shape ty.now) (val other.now)) < 2 ^ 32 }
    ensures { (key_octets (type_shape ty.now) (val one.now) ≡ key_octets (type_shape ty.now) (val other.now)) ↔ (key (type_shape ty.now) (val one.now) ≡ key (type_shape ty.now) (val other.now)) }
{
    shape_keeps_rules();
    shape_laws::key_octets_tell();
}
