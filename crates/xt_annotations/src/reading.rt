ghost use Rattle.std.specs.Prelude.{◌≡◌, ◌<◌, ◌≤◌, ◌^◌, length, slice_get, Some, IfOk};
ghost use Rattle.xt_annotations.specs.Notes as spec;

use crate::annotations::{
    Annotation, ParameterKind, alone, annotation_named, is_outside, parameter_kind,
};
use crate::notes::{Note, NoteFault, Noted, Placed, Refused, RuleFault};
use crate::parameters::parameter;
use idl_tokens::{TokenKind, is_seen, skip};
use std::alloc::Global;

/// The parameter in parentheses and the `)`, from after the `(`.
#[tactic(auto, unfolding(crate::specs::Notes::in_parentheses, idl_tokens::specs::Tokens::sees))]
fn in_parentheses(
    alloc: Global,
    annotation: Annotation,
    text: &[u8],
) -> Result<(Note, &[u8]), RuleFault>
    requires { length text.now < 2 ^ 63 }
    ensures read { spec.Gives (λ x. (x.0, x.1.now)) result (spec.in_parentheses annotation text.now) }
    ensures shorter { IfOk result (λ x. length x.1.now ≤ length text.now) }
{
    let (ahead, front) = skip(text);
    let (spelling, rest) = ahead.split_at(front.len);
    let (closing, mark) = skip(rest);
    if !is_seen(closing, mark, b")") {
        return Err(RuleFault::Rule(6));
    }
    let note = parameter(alloc, annotation, front.kind, spelling)?;
    Ok((note, &closing[mark.len..]))
}

/// The rest of an annotation, from after its name.
#[tactic(auto, unfolding(crate::specs::Notes::of_annotation, idl_tokens::specs::Tokens::sees))]
fn of_annotation(
    alloc: Global,
    annotation: Annotation,
    text: &[u8],
) -> Result<(Note, &[u8]), RuleFault>
    requires { length text.now < 2 ^ 63 }
    ensures read { spec.Gives (λ x. (x.0, x.1.now)) result (spec.of_annotation annotation text.now) }
    ensures shorter { IfOk result (λ x. length x.1.now ≤ length text.now) }
{
    let (ahead, front) = skip(text);
    if is_seen(ahead, front, b"(") {
        return match parameter_kind(annotation) {
            ParameterKind::Nothing => Err(RuleFault::Rule(8)),
            ParameterKind::OneOf | ParameterKind::Numeral | ParameterKind::Quote => {
                in_parentheses(alloc, annotation, &ahead[front.len..])
            }
        };
    }
    match alone(alloc, annotation) {
        None => Err(RuleFault::Rule(5)),
        Some(note) => Ok((note, text)),
    }
}

/// The annotation whose `@` stands before the text, and the text behind it; or the first of the rules A1, A2, A5, A6, A7 and A8 that it
/// breaks.
#[tactic(auto, unfolding(crate::specs::Notes::note_after))]
pub fn note_after(alloc: Global, text: &[u8]) -> Result<(Note, &[u8]), RuleFault>
    requires { length text.now < 2 ^ 63 }
    ensures read { spec.Gives (λ x. (x.0, x.1.now)) result (spec.note_after text.now) }
    ensures shorter { IfOk result (λ x. length x.1.now ≤ length text.now) }
{
    let (ahead, front) = skip(text);
    match front.kind {
        TokenKind::Word => {}
        _ => return Err(RuleFault::Rule(1)),
    }
    let (name, rest) = ahead.split_at(front.len);
    match annotation_named(name) {
        None => Err(RuleFault::Rule(1)),
        Some(found) => {
            if is_outside(found) {
                return Err(RuleFault::Rule(2));
            }
            of_annotation(alloc, found, rest)
        }
    }
}

/// The annotation whose `@` stands at `at`: `@`, a name, and where a parameter is given `(`, one token and `)`, with blanks and comments
/// between them as anywhere. A `(` behind the name always begins a parameter. Refused names the first of the rules A1, A2, A5, A6, A7 and A8
/// that it breaks, and `at`.
pub fn read_note(alloc: Global, text: &[u8], at: u32) -> Result<Noted, NoteFault>
    requires within { length text.now ≤ 1048576 }
    requires begins { slice_get text.now at ≡ Some 64 }
    ensures { spec.IsRead result at (spec.note_at text.now at) }
{
    match note_after(alloc, &text[at as usize + 1..]) {
        Ok((note, rest)) => Ok(Noted {
            placed: Placed { at, note },
            end: (text.len() - rest.len()) as u32,
        }),
        Err(RuleFault::Rule(rule)) => Err(NoteFault::Refused(Refused { at, rule })),
        Err(RuleFault::Memory) => Err(NoteFault::OutOfMemory),
    }
}
