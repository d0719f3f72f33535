ghost use Rattle.std.specs.Prelude.{◌≡◌};
ghost use Rattle.idl_definitions.specs.Notes as spec;

use xt_annotations::{Note, Placed};
use xt_shapes::Ext;

/// What the annotations of a definition, a literal, a flag or a discriminator say. Without one the kind is APPENDABLE and the bits are 32.
#[derive(Clone, Copy, Debug)]
pub struct Settings {
    pub ext: Ext,
    pub nested: bool,
    pub hashed: bool,
    pub key: bool,
    pub bits: u8,
    pub number: Option<i32>,
    pub is_default: bool,
    pub position: Option<u8>,
}

fn with_setting(note: &Note, set: Settings) -> Settings
    ensures { result ≡ spec.with_setting note.now set }
{
    match note {
        Note::Ext(ext) => Settings { ext: *ext, ..set },
        Note::Nested(nested) => Settings {
            nested: *nested,
            ..set
        },
        Note::Autoid(hashed) => Settings {
            hashed: *hashed,
            ..set
        },
        Note::Key(key) => Settings { key: *key, ..set },
        Note::BitBound(bits) => Settings {
            bits: (*bits).min(255) as u8,
            ..set
        },
        Note::Number(number) => Settings {
            number: Some(*number),
            ..set
        },
        Note::DefaultLiteral => Settings {
            is_default: true,
            ..set
        },
        Note::Position(position) => Settings {
            position: Some((*position).min(255) as u8),
            ..set
        },
        Note::Id(_)
        | Note::HashId(_)
        | Note::Optional(_)
        | Note::MustUnderstand(_)
        | Note::TryConstruct(_)
        | Note::Topic => set,
    }
}

/// What annotations say; the later counts where two set the same thing.
pub fn settings_of(notes: &[Placed]) -> Settings
    ensures { result ≡ spec.settings notes.now }
{
    let mut set = Settings {
        ext: Ext::Appendable,
        nested: false,
        hashed: false,
        key: false,
        bits: 32,
        number: None,
        is_default: false,
        position: None,
    };
    for placed in notes {
        set = with_setting(&placed.note, set);
    }
    set
}
