ghost use Rattle.std.specs.Prelude.{◌≡◌, []};
ghost use Rattle.xt_annotations.specs.Places as spec;

use crate::notes::{Note, Placed, Refused};

/// What an annotation sets.
#[derive(Clone, Copy, Debug, PartialEq, Eq)]
pub enum Setting {
    Ext,
    Nested,
    Autoid,
    Id,
    HashId,
    Key,
    Optional,
    MustUnderstand,
    TryConstruct,
    BitBound,
    Number,
    DefaultLiteral,
    Position,
    Topic,
}

/// What annotations stand before. `Other` is a typedef or a module, which have none; `AnyDefinition` is a definition whose keyword isn't
/// known, and may have all that some definition may have.
#[derive(Clone, Copy, Debug)]
pub enum Site {
    Structure,
    Union,
    Enumeration,
    Bitmask,
    Other,
    AnyDefinition,
    Member,
    Case,
    Discriminator,
    Element,
    Literal,
    Flag,
}

fn setting_of(note: &Note) -> Setting
    ensures { result ≡ spec.setting note.now }
{
    match note {
        Note::Ext(_) => Setting::Ext,
        Note::Nested(_) => Setting::Nested,
        Note::Autoid(_) => Setting::Autoid,
        Note::Id(_) => Setting::Id,
        Note::HashId(_) => Setting::HashId,
        Note::Key(_) => Setting::Key,
        Note::Optional(_) => Setting::Optional,
        Note::MustUnderstand(_) => Setting::MustUnderstand,
        Note::TryConstruct(_) => Setting::TryConstruct,
        Note::BitBound(_) => Setting::BitBound,
        Note::Number(_) => Setting::Number,
        Note::DefaultLiteral => Setting::DefaultLiteral,
        Note::Position(_) => Setting::Position,
        Note::Topic => Setting::Topic,
    }
}

#[tactic(auto, unfolding(crate::specs::Places::same_setting))]
fn same_setting(a: Setting, b: Setting) -> bool
    ensures { result ≡ spec.same_setting a b }
{
    a == b
}

fn of_aggregate(setting: Setting) -> bool
    ensures { result ≡ spec.of_aggregate setting }
{
    matches!(
        setting,
        Setting::Ext | Setting::Nested | Setting::Autoid | Setting::Topic
    )
}

fn of_enumeration(setting: Setting) -> bool
    ensures { result ≡ spec.of_enumeration setting }
{
    matches!(setting, Setting::Ext | Setting::BitBound)
}

fn of_member(setting: Setting) -> bool
    ensures { result ≡ spec.of_member setting }
{
    matches!(
        setting,
        Setting::Id
            | Setting::HashId
            | Setting::Key
            | Setting::Optional
            | Setting::MustUnderstand
            | Setting::TryConstruct
    )
}

fn of_case(setting: Setting) -> bool
    ensures { result ≡ spec.of_case setting }
{
    matches!(
        setting,
        Setting::Id | Setting::HashId | Setting::TryConstruct
    )
}

fn of_literal(setting: Setting) -> bool
    ensures { result ≡ spec.of_literal setting }
{
    matches!(setting, Setting::Number | Setting::DefaultLiteral)
}

fn allowed(site: Site, setting: Setting) -> bool
    ensures { result ≡ spec.allowed site setting }
{
    match site {
        Site::Structure => of_aggregate(setting),
        Site::Union => of_aggregate(setting),
        Site::Enumeration => of_enumeration(setting),
        Site::Bitmask => same_setting(setting, Setting::BitBound),
        Site::Other => false,
        Site::AnyDefinition => of_aggregate(setting) || of_enumeration(setting),
        Site::Member => of_member(setting),
        Site::Case => of_case(setting),
        Site::Discriminator => same_setting(setting, Setting::Key),
        Site::Element => same_setting(setting, Setting::TryConstruct),
        Site::Literal => of_literal(setting),
        Site::Flag => same_setting(setting, Setting::Position),
    }
}

/// Whether one of the notes sets this.
pub fn has(setting: Setting, notes: &[Placed]) -> bool
    ensures { result ≡ spec.has setting notes.now }
{
    for placed in notes {
        if same_setting(setting_of(&placed.note), setting) {
            return true;
        }
    }
    false
}

fn is_wide(site: Site, note: &Note) -> bool
    ensures { result ≡ spec.is_wide site note.now }
{
    match site {
        Site::Enumeration => match note {
            Note::BitBound(bits) => 32 < *bits,
            _ => false,
        },
        _ => false,
    }
}

fn excludes(setting: Setting, before: &[Placed]) -> bool
    ensures { result ≡ spec.excludes setting before.now }
{
    match setting {
        Setting::Id => has(Setting::HashId, before),
        Setting::HashId => has(Setting::Id, before),
        _ => false,
    }
}

/// The rule that a note breaks at a site, behind earlier notes: A7 for a bit bound above 32 at an enumeration, A3 where it is not allowed, A4
/// where an earlier one sets the same thing, A9 for `@id` together with `@hashid`, in this order.
#[tactic(auto, unfolding(crate::specs::Places::breaks))]
pub fn breaks(site: Site, before: &[Placed], note: &Note) -> Option<u8>
    ensures { result ≡ spec.breaks site before.now note.now }
{
    if is_wide(site, note) {
        return Some(7);
    }
    let set = setting_of(note);
    if !allowed(site, set) {
        return Some(3);
    }
    if has(set, before) {
        return Some(4);
    }
    if excludes(set, before) {
        return Some(9);
    }
    None
}

/// The first of the notes that breaks a rule at a site; None where none does. It takes no memory.
pub fn first_refused(site: Site, notes: &[Placed]) -> Option<Refused>
    ensures { result ≡ spec.first_refused site [] notes.now }
{
    for index in 0..notes.len() {
        if let Some(rule) = breaks(site, &notes[..index], &notes[index].note) {
            return Some(Refused {
                at: notes[index].at,
                rule,
            });
        }
    }
    None
}
