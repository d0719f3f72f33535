//! Packed values from a tape of a JSON text's tokens, along a type and without a tree of the text.
ghost use Rattle.std.specs.Prelude.{◌≡◌, true, None, Ok, IfSome};
ghost use Rattle.xt_shapes.specs.Typing.{has_type};
ghost use Rattle.type_trees.specs.Bridge.{type_shape};
ghost use Rattle.type_trees.specs.View.{tree};
ghost use Rattle.type_rules.specs.Valid.{type_fault};
ghost use Rattle.json_values.specs.Read.{read_as};
ghost use Rattle.packed_reader.specs.View.{packed_val};

mod leaves;
mod members;
mod parts;
mod runs;

use crate::tapes::parts::read_part;
use json::{Scratch, Tape};
use packed_reader::Packed;
use std::alloc::Global;
use type_trees::XType;

/// The value of a valid type that a JSON text means, read from a tape of the text's tokens: as `from_json` reads it, without a tree. Texts are
/// lent from the JSON text or from the scratch, and a list of numbers stands as its octets.
///
/// None says nothing: `from_json` tells what the text means. It comes for a text that is no JSON or means no value of the type, at a
/// union, at a map, at a structure of more than 64 members, at a literal of an enumeration of more than 64, at a string that stands as
/// `{"hex":"..."}`, for a text of 4 GiB, and where memory is wanting.
///
/// `scratch` is kept from text to text.
pub fn read_taped<'a>(
    alloc: Global,
    ty: &XType,
    text: &'a [u8],
    scratch: &'a mut Scratch,
) -> Option<Packed<'a>>
    requires { type_fault (tree ty.now) ≡ None }
    ensures value { IfSome result (λ value. read_as (tree ty.now) text.now ≡ Ok (packed_val value)) }
    ensures typed { IfSome result (λ value. has_type (type_shape ty.now) (packed_val value) ≡ true) }
{
    let Ok(text) = std::str::from_utf8(text) else {
        return None;
    };
    let Ok(tape) = Tape::parse(text, scratch, Vec::new(alloc)) else {
        return None;
    };
    read_part(alloc, ty, &tape.root())
}
