ghost use Rattle.std.specs.Prelude.{◌≡◌};
ghost use Rattle.json.specs.Tree.{HasNumbers};
ghost use Rattle.json.specs.Value.{value_view};
ghost use Rattle.dynamic_data.specs.numbers.Forms.{LeafTurns, Puts, too_large};

use crate::numbers::doubles::turn_double;
use crate::numbers::forms::Form;
use crate::numbers::singles::turn_single;
use json::{Value as Json, Writer};
use xt_lists::OutOfMemory;
use xt_shapes::Prim;

/// Writes a value as it stands.
pub(crate) fn keep(part: &Json<'_>, out: &mut Writer) -> Result<(), OutOfMemory>
    requires { HasNumbers (value_view part.now) }
    ensures { Puts (λ j k. k ≡ j) (value_view part.now) result out.old out.new }
{
    out.value(part)?;
    Ok(())
}

/// Writes what stands for a number that is too large.
pub(crate) fn put_too_large(form: Form, out: &mut Writer) -> Result<(), OutOfMemory>
    ensures { Puts (λ j k. k ≡ j) (too_large form) result out.old out.new }
{
    match form {
        Form::Numbers => out.null()?,
        Form::Bits => out.string("")?,
        Form::BitsOrZero => out.u64(0)?,
    }
    Ok(())
}

/// Writes what may stand in place of a leaf.
pub(crate) fn turn_leaf(
    form: Form,
    prim: Prim,
    part: &Json<'_>,
    out: &mut Writer,
) -> Result<(), OutOfMemory>
    requires { HasNumbers (value_view part.now) }
    ensures { Puts (LeafTurns form prim) (value_view part.now) result out.old out.new }
{
    match prim {
        Prim::Float32 => turn_single(form, part, out),
        Prim::Float64 => turn_double(form, part, out),
        Prim::Boolean
        | Prim::Byte
        | Prim::Int8
        | Prim::Uint8
        | Prim::Int16
        | Prim::Uint16
        | Prim::Int32
        | Prim::Uint32
        | Prim::Int64
        | Prim::Uint64
        | Prim::Char8 => keep(part, out),
    }
}
