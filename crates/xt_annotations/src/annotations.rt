ghost use Rattle.std.specs.Prelude.{◌≡◌};
ghost use Rattle.xt_annotations.specs.Annotations as spec;

use crate::notes::Note;
use idl_tokens::beside;
use std::alloc::Global;
use xt_lists::Text;
use xt_shapes::{Ext, Try};

/// The annotations of the profile by their names. `Outside` stands for one that is known and not in the profile.
#[derive(Clone, Copy)]
pub(crate) enum Annotation {
    Final,
    Appendable,
    Mutable,
    Extensibility,
    Nested,
    Topic,
    Autoid,
    Id,
    HashId,
    Key,
    Optional,
    MustUnderstand,
    TryConstruct,
    BitBound,
    Value,
    DefaultLiteral,
    Position,
    Outside,
}

const ANNOTATIONS: [(&'static [u8], Annotation); 30] = [
    (b"final", Annotation::Final),
    (b"appendable", Annotation::Appendable),
    (b"mutable", Annotation::Mutable),
    (b"extensibility", Annotation::Extensibility),
    (b"nested", Annotation::Nested),
    (b"topic", Annotation::Topic),
    (b"autoid", Annotation::Autoid),
    (b"id", Annotation::Id),
    (b"hashid", Annotation::HashId),
    (b"key", Annotation::Key),
    (b"optional", Annotation::Optional),
    (b"must_understand", Annotation::MustUnderstand),
    (b"try_construct", Annotation::TryConstruct),
    (b"bit_bound", Annotation::BitBound),
    (b"value", Annotation::Value),
    (b"default_literal", Annotation::DefaultLiteral),
    (b"position", Annotation::Position),
    (b"external", Annotation::Outside),
    (b"default", Annotation::Outside),
    (b"verbatim", Annotation::Outside),
    (b"unit", Annotation::Outside),
    (b"range", Annotation::Outside),
    (b"min", Annotation::Outside),
    (b"max", Annotation::Outside),
    (b"service", Annotation::Outside),
    (b"oneway", Annotation::Outside),
    (b"ami", Annotation::Outside),
    (b"data_representation", Annotation::Outside),
    (b"ignore_literal_names", Annotation::Outside),
    (b"non_serialized", Annotation::Outside),
];

/// What an annotation may have in parentheses.
#[derive(Clone, Copy)]
pub(crate) enum ParameterKind {
    Nothing,
    OneOf,
    Numeral,
    Quote,
}

#[tactic(auto, unfolding(crate::specs::Annotations::annotation))]
pub(crate) fn annotation_named(word: &[u8]) -> Option<Annotation>
    ensures { result ≡ spec.annotation word.now }
{
    beside(&ANNOTATIONS, word)
}

pub(crate) fn parameter_kind(annotation: Annotation) -> ParameterKind
    ensures { result ≡ spec.takes annotation }
{
    match annotation {
        Annotation::Extensibility
        | Annotation::Nested
        | Annotation::Autoid
        | Annotation::Key
        | Annotation::Optional
        | Annotation::MustUnderstand
        | Annotation::TryConstruct => ParameterKind::OneOf,
        Annotation::Id | Annotation::BitBound | Annotation::Value | Annotation::Position => {
            ParameterKind::Numeral
        }
        Annotation::HashId => ParameterKind::Quote,
        Annotation::Final
        | Annotation::Appendable
        | Annotation::Mutable
        | Annotation::Topic
        | Annotation::DefaultLiteral
        | Annotation::Outside => ParameterKind::Nothing,
    }
}

pub(crate) fn alone(alloc: Global, annotation: Annotation) -> Option<Note>
    ensures { result ≡ spec.alone annotation }
{
    match annotation {
        Annotation::Final => Some(Note::Ext(Ext::Final)),
        Annotation::Appendable => Some(Note::Ext(Ext::Appendable)),
        Annotation::Mutable => Some(Note::Ext(Ext::Mutable)),
        Annotation::Nested => Some(Note::Nested(true)),
        Annotation::Topic => Some(Note::Topic),
        Annotation::Autoid => Some(Note::Autoid(true)),
        Annotation::HashId => Some(Note::HashId(Text::new(alloc))),
        Annotation::Key => Some(Note::Key(true)),
        Annotation::Optional => Some(Note::Optional(true)),
        Annotation::MustUnderstand => Some(Note::MustUnderstand(true)),
        Annotation::TryConstruct => Some(Note::TryConstruct(Try::UseDefault)),
        Annotation::DefaultLiteral => Some(Note::DefaultLiteral),
        Annotation::Extensibility
        | Annotation::Id
        | Annotation::BitBound
        | Annotation::Value
        | Annotation::Position
        | Annotation::Outside => None,
    }
}

pub(crate) fn is_outside(annotation: Annotation) -> bool
    ensures { result ≡ spec.is_outside annotation }
{
    matches!(annotation, Annotation::Outside)
}
