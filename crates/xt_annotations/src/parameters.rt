ghost use Rattle.std.specs.Prelude.{◌≡◌};
ghost use Rattle.xt_annotations.specs.Notes.{Gives};
ghost use Rattle.xt_annotations.specs.Parameters as spec;

use crate::annotations::{Annotation, ParameterKind, parameter_kind};
use crate::notes::{Note, RuleFault};
use idl_tokens::{TokenKind, same, signed_32, unsigned_in};
use std::alloc::Global;
use xt_lists::Text;
use xt_shapes::{Ext, Try};

fn truth(word: &[u8]) -> Option<bool>
    ensures { result ≡ spec.truth word.now }
{
    if same(word, b"TRUE") {
        return Some(true);
    }
    if same(word, b"FALSE") {
        return Some(false);
    }
    None
}

#[tactic(auto, unfolding(crate::specs::Parameters::ext_word))]
fn ext_word(word: &[u8]) -> Option<Ext>
    ensures { result ≡ spec.ext_word word.now }
{
    if same(word, b"FINAL") {
        return Some(Ext::Final);
    }
    if same(word, b"APPENDABLE") {
        return Some(Ext::Appendable);
    }
    if same(word, b"MUTABLE") {
        return Some(Ext::Mutable);
    }
    None
}

#[tactic(auto, unfolding(crate::specs::Parameters::autoid_word))]
fn autoid_word(word: &[u8]) -> Option<bool>
    ensures { result ≡ spec.autoid_word word.now }
{
    if same(word, b"SEQUENTIAL") {
        return Some(false);
    }
    if same(word, b"HASH") {
        return Some(true);
    }
    None
}

#[tactic(auto, unfolding(crate::specs::Parameters::try_word))]
fn try_word(word: &[u8]) -> Option<Try>
    ensures { result ≡ spec.try_word word.now }
{
    if same(word, b"DISCARD") {
        return Some(Try::Discard);
    }
    if same(word, b"USE_DEFAULT") {
        return Some(Try::UseDefault);
    }
    if same(word, b"TRIM") {
        return Some(Try::Trim);
    }
    None
}

fn with_word(annotation: Annotation, word: &[u8]) -> Option<Note>
    ensures { result ≡ spec.with_word annotation word.now }
{
    match annotation {
        Annotation::Extensibility => Some(Note::Ext(ext_word(word)?)),
        Annotation::Nested => Some(Note::Nested(truth(word)?)),
        Annotation::Autoid => Some(Note::Autoid(autoid_word(word)?)),
        Annotation::Key => Some(Note::Key(truth(word)?)),
        Annotation::Optional => Some(Note::Optional(truth(word)?)),
        Annotation::MustUnderstand => Some(Note::MustUnderstand(truth(word)?)),
        Annotation::TryConstruct => Some(Note::TryConstruct(try_word(word)?)),
        Annotation::Final
        | Annotation::Appendable
        | Annotation::Mutable
        | Annotation::Topic
        | Annotation::Id
        | Annotation::HashId
        | Annotation::BitBound
        | Annotation::Value
        | Annotation::DefaultLiteral
        | Annotation::Position
        | Annotation::Outside => None,
    }
}

fn with_number(annotation: Annotation, number: &[u8]) -> Option<Note>
    ensures { result ≡ spec.with_number annotation number.now }
{
    match annotation {
        Annotation::Id => Some(Note::Id(unsigned_in(0, 268_435_454, number)? as u32)),
        Annotation::BitBound => Some(Note::BitBound(unsigned_in(1, 64, number)? as u16)),
        Annotation::Value => Some(Note::Number(signed_32(number)?)),
        Annotation::Position => Some(Note::Position(unsigned_in(0, 63, number)? as u16)),
        Annotation::Final
        | Annotation::Appendable
        | Annotation::Mutable
        | Annotation::Extensibility
        | Annotation::Nested
        | Annotation::Topic
        | Annotation::Autoid
        | Annotation::HashId
        | Annotation::Key
        | Annotation::Optional
        | Annotation::MustUnderstand
        | Annotation::TryConstruct
        | Annotation::DefaultLiteral
        | Annotation::Outside => None,
    }
}

/// The meaning of a parameter's token.
#[tactic(auto, unfolding(crate::specs::Parameters::parameter))]
pub(crate) fn parameter(
    alloc: Global,
    annotation: Annotation,
    kind: TokenKind,
    spelling: &[u8],
) -> Result<Note, RuleFault>
    ensures { Gives (λ n. n) result (spec.parameter annotation kind spelling.now) }
{
    match parameter_kind(annotation) {
        ParameterKind::OneOf => match kind {
            TokenKind::Word => Ok(with_word(annotation, spelling).ok_or(RuleFault::Rule(6))?),
            _ => Err(RuleFault::Rule(6)),
        },
        ParameterKind::Numeral => match kind {
            TokenKind::Number => Ok(with_number(annotation, spelling).ok_or(RuleFault::Rule(7))?),
            _ => Err(RuleFault::Rule(6)),
        },
        ParameterKind::Quote => match kind {
            TokenKind::Quoted => Ok(Note::HashId(Text::from_octets(alloc, unquoted(spelling))?)),
            _ => Err(RuleFault::Rule(6)),
        },
        ParameterKind::Nothing => Err(RuleFault::Rule(8)),
    }
}

fn unquoted(spelling: &[u8]) -> &[u8]
    ensures { result.now ≡ spec.unquoted spelling.now }
{
    if spelling.len() < 2 {
        return &[];
    }
    &spelling[1..spelling.len() - 1]
}
