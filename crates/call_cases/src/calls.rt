//! The calls on types and values, and their answers in print.
ghost use Rattle.std.specs.Prelude.{◌≡◌, None};
ghost use Rattle.type_trees.specs.View.{tree};
ghost use Rattle.type_rules.specs.Valid.{type_fault};

use crate::answers::Answer;
use crate::cases::Case;
use crate::parts::{hashed, headed, noted, put_each, referred, settled};
use crate::plain::plain_sample;
use crate::samples::{body_read, sample_again, sample_read, told};
use crate::trouble::Trouble;
use crate::values::{
    given_value, json_of, json_told, pairs_of, parsed, planned_json, string_of, taped_value,
    type_of, types_of, value_of,
};
use crate::writing::{body_written, rep_of, sample_faults, sample_written, text_size};
use assignability::{equivalent, judge, judge_under};
use dynamic_data::get;
use std::alloc::Global;
use try_construct::project;
use type_rules::{check_type, is_within_limits};
use type_trees::samples::is_top;
use type_trees::sizes::{TOO_MANY, capped_nodes, capped_weight, weight};
use type_trees::{Member, Name, Named, StructType, Value, XType, as_map, as_struct};
use type_values::same::same_type;
use type_values::{base_of, copy_type, copy_value, default_value, has_same_keys, has_type};
use xcdr_model::Policy;
use xt_idl::{IdlFault, print};
use xt_lists::{OutOfMemory, Row, Text};

/// The answer of a call over the texts of a case.
pub fn answer(alloc: Global, call: &str, case: &Case<'_>) -> Result<Answer, Trouble> {
    let (name, words) = call.split_once(' ').unwrap_or((call, ""));
    match name {
        "check" => check(alloc, case),
        "print" => printed(alloc, case),
        "weight" => weighed(alloc, case),
        "nodes" => nodes(alloc, case),
        "typed" => typed(alloc, case),
        "default" => default_of(alloc, case),
        "copy" => copied(alloc, case),
        "base" => base(alloc, case),
        "keys" => same_keys(alloc, case),
        "json" => json(alloc, case),
        "taped" => taped(alloc, case),
        "planned" => planned(alloc, case),
        "get" => got(alloc, words, case),
        "judge" => judged(alloc, words, case),
        "equivalent" => equal(alloc, case),
        "project" => projected(alloc, case),
        "read" => sample_read(alloc, words, case),
        "plain" => plain_sample(alloc, words, case),
        "again" => sample_again(alloc, words, case),
        "body" => body_read(alloc, words, case),
        "write" => sample_written(alloc, words, case),
        "encode" => body_written(alloc, words, case),
        "faults" => sample_faults(alloc, words, case),
        "size" => text_size(alloc, words, case),
        "hash" => hashed(alloc, words),
        "settle" => settled(alloc, words, case),
        "note" => noted(alloc, words),
        "references" => referred(alloc, words),
        "head" => headed(alloc, words),
        "put" => put_each(alloc, words, case),
        _ => Err(Trouble::Words),
    }
}

/// `valid`, or the rule that the text's first invalid type breaks, and where.
fn check(alloc: Global, case: &Case<'_>) -> Result<Answer, Trouble> {
    match parsed(alloc, case.ty)? {
        Ok(types) => all_checked(alloc, types.as_slice()),
        Err(IdlFault::Invalid { at: _, fault }) => Ok(Answer::broken(alloc, &fault)?),
        Err(fault) => Err(Trouble::idl(alloc, &fault)),
    }
}

fn all_checked(alloc: Global, types: &[Named]) -> Result<Answer, Trouble> {
    for named in types {
        if let Err(fault) = check_type(&named.ty) {
            return Ok(Answer::broken(alloc, &fault)?);
        }
    }
    Ok(Answer::Word("valid"))
}

fn printed(alloc: Global, case: &Case<'_>) -> Result<Answer, Trouble> {
    line_of(alloc, &types_of(alloc, case.ty)?)
}

/// The weight, by the call that stops at the limit, and below it by the other too.
fn weighed(alloc: Global, case: &Case<'_>) -> Result<Answer, Trouble> {
    let ty = type_of(alloc, case.ty)?;
    let capped = capped_weight(&ty);
    if capped < TOO_MANY && weight(&ty) != capped {
        return Ok(Answer::Word("two weights"));
    }
    Ok(Answer::count(alloc, capped)?)
}

fn nodes(alloc: Global, case: &Case<'_>) -> Result<Answer, Trouble> {
    let ty = type_of(alloc, case.ty)?;
    Ok(Answer::count(alloc, capped_nodes(&ty))?)
}

/// Whether the type has the value, which the writer's type has. A list of pairs stands for a map.
fn typed(alloc: Global, case: &Case<'_>) -> Result<Answer, Trouble> {
    let ty = type_of(alloc, case.ty)?;
    let value = given_value(alloc, case)?;
    if as_map(&ty).is_none() {
        return Ok(Answer::is(has_type(&ty, &value)));
    }
    let map = Box::new(alloc, Value::Map(pairs_of(alloc, &value)?))?;
    Ok(Answer::is(has_type(&ty, &map)))
}

fn default_of(alloc: Global, case: &Case<'_>) -> Result<Answer, Trouble> {
    let ty = type_of(alloc, case.ty)?;
    let value = default_value(alloc, &ty)?;
    json_told(alloc, &ty, &value)
}

/// The IDL of these types, without its last line feed.
fn line_of(alloc: Global, types: &Row<Named>) -> Result<Answer, Trouble> {
    let text = string_of(alloc, &print(alloc, types)?)?;
    Ok(Answer::Text(String::from_str(alloc, text.as_str().trim_end())?))
}

/// A structure under the name `N`.
fn under_a_name(alloc: Global, structure: StructType) -> Result<Row<Named>, Trouble> {
    let mut types = Row::new(alloc);
    types.push(Named {
        name: Text::from_octets(alloc, b"N")?,
        ty: XType::Struct(Box::new(alloc, structure)?),
    })?;
    Ok(types)
}

/// Whether a copy of the type says what it copies.
fn is_type_copied(alloc: Global, ty: &XType) -> Result<bool, OutOfMemory> {
    Ok(same_type(&copy_type(alloc, ty)?, ty))
}

/// Whether the JSON of a copy of the value is that of the value.
fn is_value_copied(alloc: Global, ty: &XType, value: &Value) -> Result<bool, Trouble>
    requires { type_fault (tree ty.now) ≡ None }
{
    let text = json_of(alloc, ty, value)?;
    let copy = Box::new(alloc, copy_value(alloc, value)?)?;
    Ok(json_of(alloc, ty, &copy)?.as_str() == text.as_str())
}

/// `same` where copies of the type and of the value say what they copy.
fn copied(alloc: Global, case: &Case<'_>) -> Result<Answer, Trouble> {
    let ty = type_of(alloc, case.ty)?;
    if !is_type_copied(alloc, &ty)? {
        return Ok(Answer::Word("another type"));
    }
    let value = value_of(alloc, &ty, case.value)?;
    if is_value_copied(alloc, &ty, &value)? {
        return Ok(Answer::Word("same"));
    }
    Ok(Answer::Word("another value"))
}

fn base(alloc: Global, case: &Case<'_>) -> Result<Answer, Trouble> {
    let ty = type_of(alloc, case.ty)?;
    let structure = as_struct(&ty).ok_or(Trouble::Words)?;
    match base_of(alloc, structure)? {
        Some(base) => line_of(alloc, &under_a_name(alloc, base)?),
        None => Ok(Answer::Word("none")),
    }
}

/// Whether two pairs have one key.
fn same_keys(alloc: Global, case: &Case<'_>) -> Result<Answer, Trouble> {
    let value = given_value(alloc, case)?;
    let pairs = pairs_of(alloc, &value)?;
    Ok(Answer::is(has_same_keys(alloc, pairs.as_slice())?))
}

/// The JSON of the value by the type, whether or not the type has it.
fn json(alloc: Global, case: &Case<'_>) -> Result<Answer, Trouble> {
    let ty = type_of(alloc, case.ty)?;
    let value = given_value(alloc, case)?;
    json_told(alloc, &ty, &value)
}

/// The JSON of the value that is read from a tape, or `none`.
fn taped(alloc: Global, case: &Case<'_>) -> Result<Answer, Trouble> {
    let ty = type_of(alloc, case.ty)?;
    match taped_value(alloc, &ty, case.value) {
        Some(value) => json_told(alloc, &ty, &value),
        None => Ok(Answer::Word("none")),
    }
}

/// The JSON of the value by the plan of its type, or `none`.
fn planned(alloc: Global, case: &Case<'_>) -> Result<Answer, Trouble> {
    let ty = type_of(alloc, case.ty)?;
    let value = given_value(alloc, case)?;
    match planned_json(alloc, &ty, &value) {
        Some(text) => Ok(Answer::Text(string_of(alloc, &text)?)),
        None => Ok(Answer::Word("none")),
    }
}

fn member_type<'t>(members: &'t [Member], name: &Text) -> Option<&'t XType> {
    for member in members {
        if let Name::Full(text) = &member.name {
            if text.octets() == name.octets() {
                return Some(&member.ty);
            }
        }
    }
    None
}

/// The type of the part that names of members lead to.
fn type_at<'t>(ty: &'t XType, names: &[Text]) -> Option<&'t XType> {
    let mut part = ty;
    for name in names {
        part = member_type(as_struct(part)?.members.as_slice(), name)?;
    }
    Some(part)
}

/// The JSON of a part, where its type is at hand.
fn part_told(alloc: Global, ty: Option<&XType>, part: &Value) -> Result<Answer, Trouble> {
    let ty = ty.ok_or(Trouble::Words)?;
    if check_type(ty).is_err() {
        return Err(Trouble::Words);
    }
    json_told(alloc, ty, part)
}

fn names_of(alloc: Global, words: &str) -> Result<Row<Text>, OutOfMemory> {
    let mut names = Row::new(alloc);
    for word in words.split_whitespace() {
        names.push(Text::from_octets(alloc, word.as_bytes())?)?;
    }
    Ok(names)
}

/// The part of the value that these names lead to, a structure's by its members' names.
fn got(alloc: Global, words: &str, case: &Case<'_>) -> Result<Answer, Trouble> {
    let names = names_of(alloc, words)?;
    let names = names.as_slice();
    let ty = type_of(alloc, case.ty)?;
    let value = value_of(alloc, &ty, case.value)?;
    match get(&ty, &value, names) {
        Some(part) => part_told(alloc, type_at(&ty, names), part),
        None => Ok(Answer::Word("none")),
    }
}

/// The standard policy, changed as the words say.
fn policy_of(words: &str) -> Result<Policy, Trouble> {
    let mut policy = Policy::standard();
    for word in words.split_whitespace() {
        match word {
            "disallow" => policy.coercion = false,
            "string-bounds" => policy.ignore_string_bounds = false,
            "sequence-bounds" => policy.ignore_sequence_bounds = false,
            "any-names" => policy.ignore_member_names = true,
            _ => return Err(Trouble::Words),
        }
    }
    Ok(policy)
}

fn judged(alloc: Global, words: &str, case: &Case<'_>) -> Result<Answer, Trouble> {
    let (rep, more) = words.split_once(' ').unwrap_or((words, ""));
    let rep = rep_of(rep)?;
    let policy = policy_of(more)?;
    let reader = type_of(alloc, case.ty)?;
    let writer = type_of(alloc, case.writer)?;
    is_within_limits();
    let verdict = if more.is_empty() {
        judge(rep, &reader, &writer)
    } else {
        judge_under(&policy, rep, &reader, &writer)
    };
    Ok(Answer::judged(alloc, &verdict)?)
}

fn equal(alloc: Global, case: &Case<'_>) -> Result<Answer, Trouble> {
    let reader = type_of(alloc, case.ty)?;
    let writer = type_of(alloc, case.writer)?;
    Ok(Answer::is(equivalent(&reader, &writer)))
}

fn projected(alloc: Global, case: &Case<'_>) -> Result<Answer, Trouble> {
    let reader = type_of(alloc, case.ty)?;
    let writer = type_of(alloc, case.writer)?;
    let value = value_of(alloc, &writer, case.value)?;
    if !is_top(&reader) || !is_top(&writer) || !has_type(&writer, &value) {
        return Err(Trouble::Words);
    }
    let outcome = project(alloc, &reader, &writer, &value)?;
    told(alloc, &reader, &outcome)
}
