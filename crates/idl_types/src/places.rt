ghost use Rattle.std.specs.Prelude.{◌≡◌, ◌<◌, length, slice_get, map, Some};
ghost use Rattle.idl_types.specs.Names as spec;
ghost use Rattle.idl_types.specs.Views as view;

use crate::names::Scoped;
use crate::opened::Opened;
use crate::scopes::Scopes;
use idl_tokens::names::{Meaning, ScopedNames};

/// The scope of a module in a scope.
fn module_in<'a>(names: &ScopedNames<'a>, scope: usize, name: &'a [u8]) -> Option<usize>
    ensures { result ≡ spec.module_in names.now (Some scope) name.now }
{
    match names.get(scope, name) {
        Some(Meaning::Module(number)) => Some(number),
        Some(Meaning::Type(_)) => None,
        None => None,
    }
}

/// The scope to which modules lead from a scope.
#[tactic(auto, using(crate::proofs::NameLoops::no_scope))]
fn scope_at<'a>(names: &ScopedNames<'a>, mut path: &[&'a [u8]], scope: usize) -> Option<usize>
    ensures { result ≡ spec.scope_at names.now (map (λ s. s.now) path.entry.now) (Some scope) }
{
    let mut at = scope;
    while let [part, rest @ ..] = path {
        match module_in(names, at, part) {
            Some(number) => at = number,
            None => return None,
        }
        path = rest;
    }
    Some(at)
}

/// The place of the type that a name means in a scope.
fn place_in<'a>(names: &ScopedNames<'a>, name: &Scoped<'a>, scope: usize) -> Option<usize>
    ensures { result ≡ spec.place_in names.now (view.scoped_name name.now) scope }
{
    let within = scope_at(names, name.path.as_slice(), scope)?;
    match names.get(within, name.last) {
        Some(Meaning::Type(at)) => Some(at),
        Some(Meaning::Module(_)) | None => None,
    }
}

fn number_at(opened: &[Opened], at: usize) -> usize
    requires { at < length opened.now }
    ensures { result ≡ spec.number_of (slice_get opened.now at) }
{
    opened[at].number
}

/// The place of the type that a name means in the innermost open module, and then outwards. The modules that were opened anew since the last
/// type hold none, so it begins outside them. Where all types are valid at most 84 are left, since a full name has 255 octets at most.
#[tactic(auto, using(crate::proofs::NameLoops::outward_more))]
fn outward<'a>(scopes: &Scopes<'a>, name: &Scoped<'a>) -> Option<usize>
    ensures { result ≡ spec.outward scopes.now.names scopes.now.opened (view.scoped_name name.now) (length scopes.now.opened) }
{
    let mut inside = scopes.inhabited;
    while 0 < inside {
        inside -= 1;
        if let Some(at) = place_in(
            &scopes.names,
            name,
            number_at(scopes.opened.as_slice(), inside),
        ) {
            return Some(at);
        }
    }
    place_in(&scopes.names, name, 0)
}

/// The place of the type that a scoped name means.
pub(crate) fn place_of<'a>(scopes: &Scopes<'a>, name: &Scoped<'a>) -> Option<usize>
    ensures { result ≡ spec.place_by scopes.now.names scopes.now.opened (view.scoped_name name.now) }
{
    if name.rooted {
        place_in(&scopes.names, name, 0)
    } else {
        outward(scopes, name)
    }
}
