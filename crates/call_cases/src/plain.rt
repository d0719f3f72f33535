//! Samples that are read as packed values.
ghost use Rattle.std.specs.Prelude.{◌≡◌, None};
ghost use Rattle.type_trees.specs.View.{tree};
ghost use Rattle.type_rules.specs.Valid.{type_fault};

use crate::answers::Answer;
use crate::cases::Case;
use crate::samples::{octets_of, rep_named};
use crate::trouble::Trouble;
use crate::values::{string_of, type_of};
use packed_json::{plan_of, write_value};
use packed_reader::{Packed, read_plain};
use packed_writer::write_plain;
use std::alloc::Global;
use try_construct::Guide;
use type_trees::XType;
use xt_lists::Text;
use xt_shapes::Rep;

/// The JSON of a packed value by the plan of its type, if it gives one.
fn planned(alloc: Global, ty: &XType, value: &Packed<'_>) -> Option<Text> {
    let plan = plan_of(alloc, ty)?;
    let mut text = Text::new(alloc);
    write_value(&plan, value, &mut text)?;
    Some(text)
}

/// The JSON of a plain sample's value, and the sample that the value makes.
fn read_and_written(alloc: Global, rep: Rep, ty: &XType, sample: &[u8]) -> Option<(Text, Vec<u8>)>
    requires { type_fault (tree ty.now) ≡ None }
{
    let guide = Guide::of(alloc, ty);
    let value = read_plain(alloc, rep, ty, &guide, sample)?;
    let json = planned(alloc, ty, &value)?;
    let written = write_plain(rep, ty, &value, Vec::new(alloc))?;
    Some((json, written))
}

/// The JSON of a plain sample's value and the sample that the value makes in the same representation, in hexadecimal; or `none`.
pub fn plain_sample(alloc: Global, words: &str, case: &Case<'_>) -> Result<Answer, Trouble> {
    let rep = rep_named(words)?;
    let ty = type_of(alloc, case.ty)?;
    let sample = octets_of(alloc, case.octets)?;
    let Some((json, written)) = read_and_written(alloc, rep, &ty, sample.as_slice()) else {
        return Ok(Answer::Word("none"));
    };
    let json = string_of(alloc, &json)?;
    let digits = hex::encode(alloc, written.as_slice())?;
    let (json, digits) = (json.as_str(), digits.as_str());
    Ok(Answer::Text(format!(in alloc; "{json} {digits}")?))
}
