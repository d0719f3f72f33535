// Which numbers a primitive and an enumeration have.
ghost use Rattle.std.specs.Prelude.{map, ◌≡◌, ◌&&◌, int_le};
ghost use Rattle.xt_shapes.specs.Select.{is_literal};
ghost use Rattle.xt_shapes.specs.Typing as spec;
ghost use Rattle.type_trees.specs.Bridge.{literal_shape};

use type_trees::Literal;
use xt_shapes::Prim;

fn is_between(low: i128, number: i128, high: i128) -> bool
    ensures { result ≡ (int_le low number && int_le number high) }
{
    low <= number && number <= high
}

/// Whether `number` is a value of the primitive. A float is its raw bits.
pub fn is_of_prim(prim: Prim, number: i128) -> bool
    ensures { result ≡ spec.of_prim prim number }
{
    match prim {
        Prim::Boolean => is_between(0, number, 1),
        Prim::Byte | Prim::Uint8 | Prim::Char8 => is_between(0, number, i128::from(u8::MAX)),
        Prim::Int8 => is_between(i128::from(i8::MIN), number, i128::from(i8::MAX)),
        Prim::Int16 => is_between(i128::from(i16::MIN), number, i128::from(i16::MAX)),
        Prim::Uint16 => is_between(0, number, i128::from(u16::MAX)),
        Prim::Int32 => is_between(i128::from(i32::MIN), number, i128::from(i32::MAX)),
        Prim::Uint32 | Prim::Float32 => is_between(0, number, i128::from(u32::MAX)),
        Prim::Int64 => is_between(i128::from(i64::MIN), number, i128::from(i64::MAX)),
        Prim::Uint64 | Prim::Float64 => is_between(0, number, i128::from(u64::MAX)),
    }
}

/// Whether a literal has that value.
pub fn has_literal(literals: &[Literal], number: i128) -> bool
    ensures { result ≡ is_literal (map literal_shape literals.now) number }
{
    literals
        .iter()
        .any(|literal| i128::from(literal.value) == number)
}
