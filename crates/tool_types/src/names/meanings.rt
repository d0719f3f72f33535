ghost use Rattle.std.specs.Prelude.{◌≡◌, ◌<◌, IfSome, length, map, slice_get};
ghost use Rattle.std.specs.Option.{option_map};
ghost use Rattle.idl_types.specs.Definitions.{declared};
ghost use Rattle.idl_types.specs.Uses.{tree_at};
ghost use Rattle.tool_words.specs.View.{form_view};
ghost use Rattle.tool_types.specs.Declaring.{AllGood, AreIdentified, IsGood, declared_view};
ghost use Rattle.tool_types.specs.names.Names as spec;
ghost use Rattle.tool_types.specs.names.Meanings.{IsSound, meaning_view};

use crate::Declared;
use tool_words::Form;
use type_object::Pool;
use type_resolve::Identifiers;
use type_trees::HashId;
use xt_idl::Declaration;
use xt_lists::Text;

/// A type that a text declares: its place among the text's types, and its identifiers.
#[derive(Clone, Copy)]
pub struct DeclaredType<'a> {
    pub types: &'a [Declaration],
    pub at: usize,
    pub ids: Identifiers,
}

/// What is meant: a type that a text declares, or what an identifier stands for.
#[derive(Clone, Copy)]
pub enum Meaning<'a> {
    Typed(DeclaredType<'a>),
    Identified(HashId),
}

// The place of the first type of that name among the types of a text.
fn place_by_name(name: &[u8], types: &[Declaration]) -> Option<usize>
    ensures found { option_map (tree_at (declared types.now)) result ≡ spec.type_by_name name.now (declared types.now) }
    ensures within { IfSome result (λ at. at < length types.now) }
{
    for (at, declaration) in types.iter().enumerate() {
        if declaration.name.octets() == name {
            return Some(at);
        }
    }
    None
}

// What a name means among the types of a text, which stand beside their identifiers.
fn in_text<'a>(name: &[u8], types: &'a [Declaration], ids: &[Identifiers]) -> Option<Meaning<'a>>
    requires { AreIdentified (declared types.now) ids.now }
    ensures meaning { option_map meaning_view result ≡ option_map spec.typed (spec.type_by_name name.now (declared types.now)) }
    ensures sound { IfSome result IsSound }
{
    match place_by_name(name, types) {
        Some(at) => {
            let ids = ids[at];
            Some(Meaning::Typed(DeclaredType { types, at, ids }))
        }
        None => None,
    }
}

fn has_name(name: &[u8], other: &Option<Text>) -> bool
    ensures { result ≡ spec.has_name name.now other.now }
{
    match other {
        None => false,
        Some(other) => other.octets() == name,
    }
}

fn in_record<'a>(name: &[u8], declared: &'a Declared) -> Option<Meaning<'a>>
    requires { IsGood declared.now }
    ensures meaning { option_map meaning_view result ≡ spec.in_record name.now (declared_view declared.now) }
    ensures sound { IfSome result IsSound }
{
    match declared {
        Declared::Types { types, ids } => in_text(name, types.as_slice(), ids.as_slice()),
        Declared::Object { id, name: other } => {
            if has_name(name, other) {
                Some(Meaning::Identified(*id))
            } else {
                None
            }
        }
    }
}

// The first record that has the name.
fn in_records<'a>(name: &[u8], records: &'a [Declared]) -> Option<Meaning<'a>>
    requires { AllGood records.now }
    ensures meaning { option_map meaning_view result ≡ spec.in_records name.now (map declared_view records.now) }
    ensures sound { IfSome result IsSound }
{
    for declared in records {
        if let Some(meaning) = in_record(name, declared) {
            return Some(meaning);
        }
    }
    None
}

fn record_at(number: u32, records: &[Declared]) -> Option<&Declared>
    ensures { option_map (λ declared. declared.now) result ≡ slice_get records.now number }
{
    records.get(number as usize)
}

// What the record of this number has.
fn in_record_at<'a>(number: u32, name: &[u8], records: &'a [Declared]) -> Option<Meaning<'a>>
    requires { AllGood records.now }
    ensures meaning { option_map meaning_view result ≡ spec.in_record_at number name.now (map declared_view records.now) }
    ensures sound { IfSome result IsSound }
{
    match record_at(number, records) {
        Some(declared) => in_record(name, declared),
        None => None,
    }
}

fn by_id<'a>(id: HashId, pool: &Pool) -> Option<Meaning<'a>>
    ensures meaning { option_map meaning_view result ≡ spec.with_id id pool.now }
    ensures sound { IfSome result IsSound }
{
    match pool.octets(&id) {
        Some(_) => Some(Meaning::Identified(id)),
        None => None,
    }
}

/// What a word means.
pub fn meant<'a>(form: &Form<'_>, records: &'a [Declared], pool: &Pool) -> Option<Meaning<'a>>
    requires { AllGood records.now }
    ensures meaning { option_map meaning_view result ≡ spec.meant (form_view form.now) (map declared_view records.now, pool.now) }
    ensures sound { IfSome result IsSound }
{
    match *form {
        Form::Plain(name) => in_records(name, records),
        Form::Within(number, name) => in_record_at(number, name, records),
        Form::ById(id) => by_id(id, pool),
    }
}
