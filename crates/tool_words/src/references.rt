ghost use Rattle.std.specs.Prelude.{◌≡◌, ◌<◌, ◌==◌, Some, IfSome, length, position};
ghost use Rattle.std.specs.Option.{option_map};
ghost use Rattle.type_trees.specs.Ids.{id_of_digits};
ghost use Rattle.tool_words.specs.Words as spec;
ghost use Rattle.tool_words.specs.View.{form_view, reference_view};

use crate::numbers::number_below;
use node_rules::is_scoped;
use type_trees::HashId;

/// How a word names a type.
#[derive(Clone, Copy)]
pub enum Form<'a> {
    /// The first type of that name in any record: identifiers joined by `::`.
    Plain(&'a [u8]),
    /// The type of that name in the record of this number, which counts from 0: `K/NAME`.
    Within(u32, &'a [u8]),
    /// The type of an identifier: `#` and 30 hexadecimal digits.
    ById(HashId),
}

/// A word that names a type.
#[derive(Clone, Copy)]
pub struct Reference<'a> {
    pub word: &'a [u8],
    pub form: Form<'a>,
}

fn position_of(stop: u8, text: &[u8]) -> Option<usize>
    ensures place { result ≡ position (λ octet. octet == stop) text.now }
    ensures within { IfSome result (λ at. at < length text.now) }
{
    text.iter().position(|octet| *octet == stop)
}

#[tactic(auto, unfolding(crate::specs::Words::in_record_form))]
fn in_record_form(text: &[u8]) -> Option<Form<'_>>
    ensures { option_map form_view result ≡ spec.in_record_form text.now }
{
    let slash = position_of(b'/', text)?;
    let number = number_below(1_048_576, &text[..slash])?;
    let name = &text[slash + 1..];
    if is_scoped(name) {
        Some(Form::Within(number, name))
    } else {
        None
    }
}

fn id_form(digits: &[u8]) -> Option<Form<'_>>
    ensures { option_map form_view result ≡ option_map spec.by_id (id_of_digits digits.now) }
{
    match HashId::from_digits(digits) {
        Some(id) => Some(Form::ById(id)),
        None => None,
    }
}

#[tactic(auto, unfolding(crate::specs::Words::form_of))]
fn form_of(word: &[u8]) -> Option<Form<'_>>
    ensures { option_map form_view result ≡ spec.form_of word.now }
{
    match word.split_first() {
        None => None,
        Some((b'#', digits)) => id_form(digits),
        Some(_) => {
            if is_scoped(word) {
                Some(Form::Plain(word))
            } else {
                in_record_form(word)
            }
        }
    }
}

/// The type that a word names: `NAME`, `K/NAME` or `#ID`. None where it is none of these.
pub fn named_by(word: &[u8]) -> Option<Reference<'_>>
    ensures { option_map reference_view result ≡ spec.reference word.now }
{
    match form_of(word) {
        Some(form) => Some(Reference { word, form }),
        None => None,
    }
}
