ghost use Rattle.std.specs.Prelude.{◌≡◌};
ghost use Rattle.type_trees.specs.View.{member_tree};
ghost use Rattle.xt_annotations.specs.Members as spec;

use crate::notes::{Note, Placed, Refused};
use crate::places::{Site, first_refused};
use type_trees::{Member, Name, hash_id};
use xt_lists::Row;

fn hash_id_of(name: &Name) -> u32
    ensures { result ≡ spec.hash_id_of name.now }
{
    match name {
        Name::Full(text) => hash_id(text.octets()),
        Name::Hashed(hash) => *hash % 0x1000_0000,
    }
}

#[tactic(auto, using(type_trees::proofs::Views::tree_rules))]
fn apply_note(note: &Note, member: &mut Member)
    ensures { member_tree member.new ≡ (spec.with_note note.now (member_tree member.old).0, (member_tree member.old).1) }
{
    match note {
        Note::Id(id) => member.id = *id,
        Note::HashId(text) => {
            member.id = if text.len() == 0 {
                hash_id_of(&member.name)
            } else {
                hash_id(text.octets())
            };
        }
        Note::Key(is_key) => member.key = *is_key,
        Note::Optional(is_optional) => member.optional = *is_optional,
        Note::MustUnderstand(is_set) => member.must_understand = *is_set,
        Note::TryConstruct(tc) => member.tc = *tc,
        Note::Ext(_)
        | Note::Nested(_)
        | Note::Autoid(_)
        | Note::BitBound(_)
        | Note::Number(_)
        | Note::DefaultLiteral
        | Note::Position(_)
        | Note::Topic => {}
    }
}

/// Gives a member what these annotations say, whether or not they may stand at one. The later counts where two set the same thing.
pub fn apply_notes(notes: &[Placed], member: &mut Member)
    ensures { member_tree member.new ≡ (spec.with_notes notes.now (member_tree member.old).0, (member_tree member.old).1) }
{
    for placed in notes {
        apply_note(&placed.note, member);
    }
}

/// Gives a member what its annotations say (DDS-XTypes 1.3, 7.3.1.2.1). Where one can't stand at a member (A3), sets what an earlier one sets
/// (A4) or is an `@id` together with a `@hashid` (A9), the first such is named and the member is left as it is. It takes no memory.
pub fn apply_member(notes: &Row<Placed>, member: &mut Member) -> Result<(), Refused>
    ensures { spec.Applies result notes.now (member_tree member.old) (member_tree member.new) }
{
    match first_refused(Site::Member, notes.as_slice()) {
        Some(refused) => Err(refused),
        None => {
            apply_notes(notes.as_slice(), member);
            Ok(())
        }
    }
}
