ghost use Rattle.std.specs.Prelude.{◌≡◌, ◌<◌, ◌^◌, ◌||◌, [], false, codes, is_some, IfOk, IfSome, OnOk};
ghost use Rattle.type_trees.specs.View.{member_tree};
ghost use Rattle.idl_tokens.specs.names.Sets.{has as taken};
ghost use Rattle.idl_input.specs.Input.{Reads, sees};
ghost use Rattle.idl_types.specs.Uses.{whole};
ghost use Rattle.idl_types.specs.Definitions.{member_whole, members_before};
ghost use Rattle.idl_types.specs.Views.{state};
ghost use Rattle.idl_definitions.specs.Lists.{Goes, with_commas};
ghost use Rattle.idl_definitions.specs.Members as spec;
ghost use Rattle.idl_definitions.specs.Views as view;

use idl_input::{IdlFault, Tokens};
use idl_tokens::names::NameSet;
use idl_types::{Reader, Used, UsedMember, a_type, boxed};
use std::alloc::Global;
use type_trees::{Member, Name, XType, hash_id};
use type_values::copy_plain;
use xt_annotations::{Placed, Setting, Site, apply_notes, has};
use xt_lists::{OutOfMemory, Row, Text};
use xt_shapes::{Prim, Try};

#[tactic(auto, using(crate::proofs::DefinitionLoops::dims_go, crate::proofs::DefinitionLoops::dims_end), unfolding(crate::specs::Members::dims))]
fn dims(tokens: &mut Tokens<'_>, alloc: Global) -> Result<Row<u32>, IdlFault>
    ensures { Reads (λ x. x) (spec.dims tokens.old) result tokens.new }
{
    let mut dims = Row::new(alloc);
    for _turn in 0..tokens.left() {
        if !tokens.eat(b"[") {
            return Ok(dims);
        }
        let dim = tokens.bound()?;
        tokens.want(b"]")?;
        dims.push(dim)?;
    }
    Ok(dims)
}

/// The type with these dimensions.
#[tactic(auto, using(idl_types::proofs::Wholes::whole_rules, crate::proofs::MakeSteps::some_dims, crate::proofs::MakeSteps::no_dims))]
fn with_dims(reader: &Reader<'_>, used: Used, dims: Row<u32>) -> Result<Used, OutOfMemory>
    ensures { IfOk result (λ u. whole (state reader.now).types u ≡ spec.with_dims (whole (state reader.now).types used) dims) }
{
    if dims.len() == 0 {
        return Ok(used);
    }
    Ok(Used::Array {
        dims,
        tc: Try::Discard,
        elem: boxed(reader.alloc(), used)?,
    })
}

/// The same type.
#[tactic(auto, using(idl_types::proofs::Wholes::whole_rules))]
fn copy_used(reader: &Reader<'_>, used: &Used) -> Result<Used, OutOfMemory>
    ensures { IfOk result (λ u. whole (state reader.now).types u ≡ whole (state reader.now).types used.now) }
{
    let alloc = reader.alloc();
    match used {
        Used::Prim(prim) => Ok(Used::Prim(*prim)),
        Used::Str(bound) => Ok(Used::Str(*bound)),
        Used::Seq { bound, tc, elem } => {
            let elem = copy_used(reader, elem)?;
            Ok(Used::Seq {
                bound: *bound,
                tc: *tc,
                elem: boxed(alloc, elem)?,
            })
        }
        Used::Array { dims, tc, elem } => {
            let elem = copy_used(reader, elem)?;
            Ok(Used::Array {
                dims: copy_plain(alloc, dims)?,
                tc: *tc,
                elem: boxed(alloc, elem)?,
            })
        }
        Used::Map {
            bound,
            key_tc,
            key,
            tc,
            value,
        } => {
            let key = copy_used(reader, key)?;
            let value = copy_used(reader, value)?;
            Ok(Used::Map {
                bound: *bound,
                key_tc: *key_tc,
                key: boxed(alloc, key)?,
                tc: *tc,
                value: boxed(alloc, value)?,
            })
        }
        Used::Declared(at) => Ok(Used::Declared(*at)),
    }
}

fn gives_id(notes: &[Placed]) -> bool
    ensures { result ≡ spec.gives_id notes.now }
{
    has(Setting::Id, notes) || has(Setting::HashId, notes)
}

#[tactic(auto, unfolding(crate::specs::Members::id_for))]
fn id_for(
    tokens: &Tokens<'_>,
    at: u32,
    notes: &[Placed],
    hashed: bool,
    following: u64,
    name: &[u8],
) -> Result<u32, IdlFault>
    ensures { Reads (λ x. x) (spec.id_for at notes.now hashed following name.now tokens.now) result tokens.now }
{
    if gives_id(notes) {
        return Ok(0);
    }
    if hashed {
        return Ok(hash_id(name));
    }
    if following < 1 << 32 {
        Ok(following as u32)
    } else {
        Err(IdlFault::Annotation { at, rule: 7 })
    }
}

/// A type with the dimensions that come next.
#[tactic(auto, unfolding(crate::specs::Members::dimensioned))]
pub fn dimensioned<'a>(
    tokens: &mut Tokens<'a>,
    reader: &Reader<'a>,
    used: Used,
) -> Result<Used, IdlFault>
    ensures { Reads (whole (state reader.now).types) (spec.dimensioned (whole (state reader.now).types used) tokens.old) result tokens.new }
{
    let dims = dims(tokens, reader.alloc())?;
    Ok(with_dims(reader, used, dims)?)
}

/// What annotations say of a member or case of this id and name.
#[tactic(auto, using(type_trees::proofs::Views::tree_rules))]
fn noted(notes: &[Placed], id: u32, name: Text) -> Member
    ensures { (member_tree result).0 ≡ spec.a_member notes.now id name }
{
    let mut member = Member {
        id,
        name: Name::Full(name),
        ty: XType::Prim(Prim::Boolean),
        tc: Try::Discard,
        optional: false,
        must_understand: false,
        key: false,
    };
    apply_notes(notes, &mut member);
    member
}

/// The member or case with this type.
#[tactic(auto, using(type_trees::proofs::Views::tree_rules))]
fn member_of(reader: &Reader<'_>, noted: Member, used: Used) -> UsedMember
    ensures { member_whole (state reader.now).types result ≡ ((member_tree noted).0, whole (state reader.now).types used) }
{
    let Member {
        id,
        name,
        ty: _,
        tc,
        optional,
        must_understand,
        key,
    } = noted;
    UsedMember {
        id,
        name,
        used,
        tc,
        optional,
        must_understand,
        key,
    }
}

/// A member or case of this type, from after its dimensions.
fn formed<'a>(
    tokens: &Tokens<'a>,
    reader: &Reader<'a>,
    at: u32,
    name: &[u8],
    notes: &[Placed],
    hashed: bool,
    following: u64,
    used: Used,
) -> Result<UsedMember, IdlFault>
    ensures { Reads (member_whole (state reader.now).types) (spec.formed at name.now notes.now hashed following (whole (state reader.now).types used) tokens.now) result tokens.now }
{
    let id = id_for(tokens, at, notes, hashed, following, name)?;
    let name = Text::from_octets(reader.alloc(), name)?;
    Ok(member_of(reader, noted(notes, id, name), used))
}

/// A member or case, from after its name.
#[tactic(auto, unfolding(crate::specs::Members::shaped))]
pub fn shaped<'a>(
    tokens: &mut Tokens<'a>,
    reader: &Reader<'a>,
    at: u32,
    name: &[u8],
    notes: &[Placed],
    hashed: bool,
    following: u64,
    used: Used,
) -> Result<UsedMember, IdlFault>
    ensures { Reads (member_whole (state reader.now).types) (spec.shaped at name.now notes.now hashed following (whole (state reader.now).types used) tokens.old) result tokens.new }
{
    let used = dimensioned(tokens, reader, used)?;
    formed(tokens, reader, at, name, notes, hashed, following, used)
}

/// A name that isn't taken, and its place.
#[tactic(auto, unfolding(crate::specs::Members::new_name))]
pub(crate) fn new_name<'a>(
    tokens: &mut Tokens<'a>,
    names: &NameSet<'a>,
) -> Result<(u32, &'a [u8]), IdlFault>
    ensures read { Reads (λ n. (n.0, n.1.now)) (spec.new_name names.now tokens.old) result tokens.new }
    ensures free { IfOk result (λ n. taken n.1.now names.now ≡ false) }
{
    let at = tokens.place();
    let name = tokens.name()?;
    if names.has(name) {
        return Err(IdlFault::Twice { at });
    }
    Ok((at, name))
}

/// Own members so far, their names, and the id after the last member's.
#[derive(Drop)]
pub(crate) struct Listed<'a> {
    pub(crate) members: Row<UsedMember>,
    pub(crate) names: NameSet<'a>,
    pub(crate) following: u64,
}

#[tactic(auto, using(crate::proofs::MakeSteps::member_pushed))]
fn with_member<'a>(
    reader: &Reader<'a>,
    base: Option<usize>,
    listed: &mut Listed<'a>,
    name: &'a [u8],
    member: UsedMember,
) -> Result<(), OutOfMemory>
    requires { taken name.now listed.old.names ≡ false }
    ensures { let ts = (state reader.now).types in OnOk result (view.listed ts (members_before ts base) listed.new ≡ spec.with_member (view.listed ts (members_before ts base) listed.old) name.now (member_whole ts member)) }
{
    listed.following = u64::from(member.id) + 1;
    listed.members.push(member)?;
    listed.names.add(name)
}

/// A copy of the type, where it is wanted.
fn copy_if(wanted: bool, reader: &Reader<'_>, used: &Used) -> Result<Option<Used>, OutOfMemory>
    ensures copy { IfOk result (λ copy. IfSome copy (λ u. whole (state reader.now).types u ≡ whole (state reader.now).types used.now)) }
    ensures wanted { IfOk result (λ copy. is_some copy ≡ wanted) }
{
    if wanted {
        Ok(Some(copy_used(reader, used)?))
    } else {
        Ok(None)
    }
}

/// One more declarator of the type, and a copy of that where another one follows.
#[tactic(auto, unfolding(crate::specs::Members::another, crate::specs::Members::shaped, crate::specs::Members::dimensioned))]
fn another<'a>(
    tokens: &mut Tokens<'a>,
    reader: &Reader<'a>,
    notes: &[Placed],
    hashed: bool,
    used: Used,
    base: Option<usize>,
    listed: &mut Listed<'a>,
) -> Result<Option<Used>, IdlFault>
    ensures goes { let ts = (state reader.now).types in Goes (view.listed ts (members_before ts base)) (spec.another notes.now hashed (whole ts used) (view.listed ts (members_before ts base) listed.old) tokens.old) result listed.new tokens.new }
    ensures again { IfOk result (λ again. IfSome again (λ u. whole (state reader.now).types u ≡ whole (state reader.now).types used)) }
    ensures more { IfOk result (λ again. is_some again ≡ sees (codes ",") tokens.new) }
{
    let (at, name) = new_name(tokens, &listed.names)?;
    let following = listed.following;
    let dims = dims(tokens, reader.alloc())?;
    let again = copy_if(tokens.sees(b","), reader, &used)?;
    let whole = with_dims(reader, used, dims)?;
    let member = formed(tokens, reader, at, name, notes, hashed, following, whole)?;
    with_member(reader, base, listed, name, member)?;
    Ok(again)
}

#[tactic(auto, using(crate::proofs::DefinitionLoops::comma_go, crate::proofs::DefinitionLoops::comma_end))]
fn declarators<'a>(
    tokens: &mut Tokens<'a>,
    reader: &Reader<'a>,
    notes: &[Placed],
    hashed: bool,
    mut used: Used,
    base: Option<usize>,
    listed: &mut Listed<'a>,
) -> Result<(), IdlFault>
    ensures { let ts = (state reader.now).types in Goes (view.listed ts (members_before ts base)) (with_commas (spec.another notes.now hashed (whole ts used)) (view.listed ts (members_before ts base) listed.old) tokens.old) result listed.new tokens.new }
{
    for _turn in 0..tokens.left() {
        let again = another(tokens, reader, notes, hashed, used, base, listed)?;
        tokens.eat(b",");
        match again {
            Some(copy) => used = copy,
            None => return Ok(()),
        }
    }
    Ok(())
}

/// Members of one type, behind those of a base.
#[tactic(auto, unfolding(crate::specs::Members::members_of_type))]
pub(crate) fn members_of_type<'a>(
    tokens: &mut Tokens<'a>,
    reader: &Reader<'a>,
    hashed: bool,
    base: Option<usize>,
    listed: &mut Listed<'a>,
) -> Result<(), IdlFault>
    ensures { let ts = (state reader.now).types in Goes (view.listed ts (members_before ts base)) (spec.members_of_type (state reader.now) hashed (view.listed ts (members_before ts base) listed.old) tokens.old) result listed.new tokens.new }
{
    let notes = tokens.notes_at(reader.alloc(), Site::Member)?;
    let used = a_type(tokens, reader)?;
    declarators(tokens, reader, notes.as_slice(), hashed, used, base, listed)?;
    tokens.want(b";")
}
