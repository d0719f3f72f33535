// Texts and literals.
ghost use Rattle.std.specs.Prelude.{◌≡◌, cond, false, map, IfOk};
ghost use Rattle.xt_shapes.specs.Select.{is_literal};
ghost use Rattle.xt_shapes.specs.Vals.{int};
ghost use Rattle.type_trees.specs.Bridge.{literal_shape};
ghost use Rattle.xcdr_model.specs.Projection as model;
ghost use Rattle.settled_parts.specs.Parts.{part_of};

use crate::literals::is_value;
use crate::part::{Made, Part};
use std::alloc::Global;
use type_trees::{Literal, Value};
use type_values::is_past;
use xt_lists::{OutOfMemory, Text};

/// An enumeration's value, where a literal is known to have it or none to.
#[inline(always)]
pub fn literal_part(is_known: bool, number: i128) -> Part
    ensures { part_of result ≡ (cond is_known (model.got (int number)) model.failed, false) }
{
    if is_known {
        return Part::number(number);
    }
    Part::failed()
}

/// An enumeration's value: none where no literal has it.
pub fn enum_part(literals: &[Literal], number: i128) -> Part
    ensures { part_of result ≡ (cond (is_literal (map literal_shape literals.now) number) (model.got (int number)) model.failed, false) }
{
    literal_part(is_value(literals, number), number)
}

/// As `text_part`, of octets that become the text. It takes no memory.
#[tactic(auto, using(type_trees::proofs::Views::val_rules))]
pub fn text_from(bound: u32, mut octets: Vec<u8>) -> Part
    ensures { part_of result ≡ (model.gather_text bound octets.items, false) }
{
    if is_past(bound, octets.len()) {
        octets.truncate(bound as usize);
        return Part {
            made: Made::Over(Value::Str(Text::from_vec(octets))),
            unseen: false,
        };
    }
    Part::got(Value::Str(Text::from_vec(octets)))
}

/// The text of these octets; past the bound it is over, with the first octets up to the bound. A bound of 0 is none.
#[tactic(auto, using(type_trees::proofs::Views::val_rules))]
pub fn text_part(alloc: Global, bound: u32, octets: &[u8]) -> Result<Part, OutOfMemory>
    ensures { IfOk result (λ p. part_of p ≡ (model.gather_text bound octets.now, false)) }
{
    if is_past(bound, octets.len()) {
        let first = Text::from_octets(alloc, &octets[..bound as usize])?;
        return Ok(Part {
            made: Made::Over(Value::Str(first)),
            unseen: false,
        });
    }
    let text = Text::from_octets(alloc, octets)?;
    Ok(Part::got(Value::Str(text)))
}
