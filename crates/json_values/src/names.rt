ghost use Rattle.std.specs.Prelude.{◌≡◌, true, IfOk, bytes_eq, map, string_bytes};
ghost use Rattle.std.specs.Str.{is_utf8};
ghost use Rattle.type_trees.specs.declared.types.Name.TheVariants.{Hashed};
ghost use Rattle.json_values.specs.Names.{name_text};
ghost use Rattle.json_values.specs.Names as spec;

use std::alloc::{AllocError, Global};
use type_trees::{Member, Name};

/// Octets that are a text, as one.
pub fn text_of(octets: &[u8]) -> &str
    requires { is_utf8 octets.now ≡ true }
    ensures { result.now ≡ octets.now }
{
    unsafe { std::str::from_utf8_unchecked(octets) }
}

/// `#` and a hash's octets in hexadecimal.
pub(crate) fn hashed_text(hash: u32) -> [u8; 9]
    ensures { result ≡ name_text (Hashed hash) }
{
    let mut digits = [0u8; 8];
    match hex::encode_to_slice(hash.to_le_bytes(), &mut digits) {
        Ok(()) => {}
        Err(_) => {}
    }
    let [a, b, c, d, e, f, g, h] = digits;
    [b'#', a, b, c, d, e, f, g, h]
}

/// Whether a name stands in JSON, and in paths of names, as that text: a hashed name as `#` and its four octets in lower-case
/// hexadecimal, the lowest first.
#[inline(always)]
pub fn is_named(name: &Name, text: &[u8]) -> bool
    ensures { result ≡ bytes_eq (name_text name.now) text.now }
{
    match name {
        Name::Full(full) => full.octets() == text,
        Name::Hashed(hash) => hashed_text(*hash).as_slice() == text,
    }
}

#[inline(always)]
fn octets_string(alloc: Global, octets: &[u8]) -> Result<String, AllocError>
    requires { is_utf8 octets.now ≡ true }
    ensures { IfOk result (λ s. string_bytes s ≡ octets.now) }
{
    String::from_str(alloc, text_of(octets))
}

/// A name as it stands in JSON: a key of an object there, or the text of a literal.
#[inline(always)]
pub fn key_of(alloc: Global, name: &Name) -> Result<String, AllocError>
    requires { is_utf8 (name_text name.now) ≡ true }
    ensures { IfOk result (λ s. string_bytes s ≡ name_text name.now) }
{
    match name {
        Name::Full(full) => octets_string(alloc, full.octets()),
        Name::Hashed(hash) => octets_string(alloc, hashed_text(*hash).as_slice()),
    }
}

/// The text of a hashed name, and zeros for a full one.
fn digits_of(name: &Name) -> [u8; 9]
    ensures { result ≡ spec.digits_of name.now }
{
    match name {
        Name::Full(_) => [0; 9],
        Name::Hashed(hash) => hashed_text(*hash),
    }
}

/// The texts of the members' hashed names, so that names can be borrowed by `name_in`.
pub(crate) fn digits_of_names(alloc: Global, members: &[Member]) -> Result<Vec<[u8; 9]>, AllocError>
    ensures { IfOk result (λ digits. digits.items ≡ map (λ m. spec.digits_of m.name) members.now) }
{
    let mut digits = Vec::with_capacity(alloc, members.len())?;
    for member in members {
        digits.push(digits_of(&member.name))?;
    }
    Ok(digits)
}

/// A name as it stands in JSON.
#[inline(always)]
pub(crate) fn name_in<'n>(name: &'n Name, digits: &'n [u8; 9]) -> &'n str
    requires text { is_utf8 (name_text name.now) ≡ true }
    requires digits { digits.now ≡ spec.digits_of name.now }
    ensures { result.now ≡ name_text name.now }
{
    match name {
        Name::Full(full) => text_of(full.octets()),
        Name::Hashed(_) => text_of(digits.as_slice()),
    }
}
