ghost use Rattle.std.specs.Prelude.{◌≡◌, true, None, Ok, IfOk};
ghost use Rattle.xt_shapes.specs.Typing.{has_type};
ghost use Rattle.type_trees.specs.Bridge.{type_shape};
ghost use Rattle.type_trees.specs.View.{tree, val};
ghost use Rattle.type_rules.specs.Valid.{type_fault};
ghost use Rattle.json_values.specs.Written.{json_text};
ghost use Rattle.json_values.specs.Read.{read_as};
ghost use Rattle.json_values.specs.Steps.{FailsAs};
ghost use Rattle.dynamic_data.specs.Laws as law;

use json_values::{ValueFault, read_json, write_json};
use std::alloc::Global;
use type_trees::{Value, XType};
use xt_lists::{OutOfMemory, Text};

/// The JSON of a value of a valid type, as the compact text that `serde_json` writes. `from_json` reads the value from it again.
///
/// | type | JSON |
/// |---|---|
/// | boolean | `true`, `false` |
/// | integer, byte, char8, bitmask | a whole number |
/// | float32, float64 | a text of the raw bits, 8 or 16 lower-case hexadecimal digits |
/// | enumeration | its literal's name |
/// | string | a text; where the octets aren't UTF-8, `{"hex":"..."}` |
/// | sequence, array | an array, an array's in row-major order |
/// | map | an array of arrays `[key,value]` |
/// | structure | an object by member name, absent members left out |
/// | union | `{"d":D}` or `{"d":D,"v":V}` |
///
/// The keys of objects stand in the order of their octets. A hashed name is `#` and its four octets in lower-case hexadecimal, the
/// lowest first. What isn't a value of its type stands as `null`.
pub fn to_json(alloc: Global, ty: &XType, value: &Value) -> Result<Text, OutOfMemory>
    requires { type_fault (tree ty.now) ≡ None }
    ensures text { IfOk result (λ text. text ≡ json_text (tree ty.now) (val value.now)) }
    ensures back { IfOk result (λ text. has_type (type_shape ty.now) (val value.now) ≡ true → read_as (tree ty.now) text ≡ Ok (val value.now)) }
{
    write_json(alloc, ty, value)
}

/// The value of a valid type that a JSON text means. `NotJson` comes where `serde_json` has no reading of the octets. `Wrong` names
/// the first place that is no value of its type, places in declared order, and there the first rule that is broken, in the order of
/// `JsonRule`; a map's repeated key is found after all pairs, and a missing or needless body before the body is read.
///
/// Hexadecimal is read in either case, and any string in the form `{"hex":"..."}`. Of a key that comes twice the last holds. A number
/// that `serde_json` doesn't hold as a whole number of 64 bits, as `1.0` or `-0`, is out of range.
pub fn from_json(alloc: Global, ty: &XType, text: &[u8]) -> Result<Value, ValueFault>
    requires { type_fault (tree ty.now) ≡ None }
    ensures ok { IfOk result (λ value. read_as (tree ty.now) text.now ≡ Ok (val value)) }
    ensures typed { IfOk result (λ value. has_type (type_shape ty.now) (val value) ≡ true) }
    ensures err { FailsAs (read_as (tree ty.now) text.now) result }
{
    read_json(alloc, ty, text)
}

/// The JSON of a value of a valid type is read as that value.
pub fn json_is_read()
    ensures { law.JsonIsRead }
{}
