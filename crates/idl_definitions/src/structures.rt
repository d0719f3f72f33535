ghost use Rattle.std.specs.Prelude.{◌≡◌, ◌++◌, map, true, None, IfOk};
ghost use Rattle.xt_shapes.specs.Kinds as kinds;
ghost use Rattle.idl_input.specs.Input.{Reads};
ghost use Rattle.idl_types.specs.Uses.{tree_at, whole};
ghost use Rattle.idl_types.specs.Definitions.{base_fits, declared, fits, member_whole, members_before, members_on};
ghost use Rattle.idl_types.specs.Views.{state};
ghost use Rattle.idl_definitions.specs.Lists.{Goes, to_brace};
ghost use Rattle.idl_definitions.specs.Members.{members_of_type as members_step};
ghost use Rattle.idl_definitions.specs.Structures as spec;
ghost use Rattle.idl_definitions.specs.Views as view;

use crate::made::{Made, defined, new_type};
use crate::members::{Listed, dimensioned, members_of_type};
use crate::settings::Settings;
use idl_input::{IdlFault, Tokens};
use idl_tokens::names::NameSet;
use idl_types::{
    Declaration, Definition, Reader, StructDefinition, Used, UsedMember, a_type, declaration_at,
    type_by_name,
};
use xt_lists::Row;
use xt_shapes::Ext;

/// The place of a structure's base, if it has one, whether that is a structure of the same extensibility, and the id after its last member's.
#[derive(Clone, Copy)]
pub(crate) struct Heritage {
    pub(crate) fits: bool,
    pub(crate) base: Option<usize>,
    pub(crate) following: u64,
}

fn same_ext(left: Ext, right: Ext) -> bool
    ensures { result ≡ kinds.same_ext left right }
{
    left == right
}

fn no_heritage(fits: bool) -> Heritage
    ensures { result ≡ record { fits = fits; base = None; following = 0 } }
{
    Heritage {
        fits,
        base: None,
        following: 0,
    }
}

/// The id after the last member's of the structure at a place; 0 where there is none.
fn following_at(types: &[Declaration], at: usize) -> u64
    ensures { result ≡ spec.following (members_on (tree_at (declared types.now) at)) }
{
    let Some(declaration) = declaration_at(types, at) else {
        return 0;
    };
    let Definition::Struct(kind) = &declaration.definition else {
        return 0;
    };
    match kind.members.as_slice() {
        [.., last] => u64::from(last.id) + 1,
        [] => match kind.base {
            Some(base) => following_at(&types[..at], base),
            None => 0,
        },
    }
}

/// What a structure has from the type at a place.
fn heritage_at(types: &[Declaration], ext: Ext, at: usize) -> Heritage
    ensures value { view.heritage (declared types.now) result ≡ spec.heritage ext (tree_at (declared types.now) at) }
    ensures fits { result.fits ≡ true → base_fits (declared types.now) ext result.base ≡ true }
    ensures following { result.following ≡ spec.following (members_before (declared types.now) result.base) }
{
    let Some(declaration) = declaration_at(types, at) else {
        return no_heritage(false);
    };
    match &declaration.definition {
        Definition::Struct(kind) => Heritage {
            fits: same_ext(ext, kind.ext),
            base: Some(at),
            following: following_at(types, at),
        },
        Definition::Enum(_) | Definition::Mask(_) | Definition::Union(_) | Definition::Alias(_) => {
            no_heritage(false)
        }
    }
}

#[tactic(auto, using(idl_types::proofs::Wholes::whole_rules))]
fn heritage_of(reader: &Reader<'_>, ext: Ext, used: &Used) -> Heritage
    ensures value { view.heritage (state reader.now).types result ≡ spec.heritage ext (whole (state reader.now).types used.now) }
    ensures fits { result.fits ≡ true → base_fits (state reader.now).types ext result.base ≡ true }
    ensures following { result.following ≡ spec.following (members_before (state reader.now).types result.base) }
{
    match used {
        Used::Declared(at) => heritage_at(reader.types(), ext, *at),
        Used::Prim(_) | Used::Str(_) | Used::Seq { .. } | Used::Array { .. } | Used::Map { .. } =>
            no_heritage(false),
    }
}

/// `:` and the base's name, or nothing.
#[tactic(auto, unfolding(crate::specs::Structures::base_clause))]
fn base_clause<'a>(
    tokens: &mut Tokens<'a>,
    reader: &Reader<'a>,
    ext: Ext,
) -> Result<Heritage, IdlFault>
    ensures read { Reads (view.heritage (state reader.now).types) (spec.base_clause (state reader.now) ext tokens.old) result tokens.new }
    ensures fits { IfOk result (λ h. h.fits ≡ true → base_fits (state reader.now).types ext h.base ≡ true) }
    ensures following { IfOk result (λ h. h.following ≡ spec.following (members_before (state reader.now).types h.base)) }
{
    if !tokens.eat(b":") {
        return Ok(no_heritage(true));
    }
    let base = type_by_name(tokens, reader)?;
    Ok(heritage_of(reader, ext, &base))
}

#[tactic(auto, unfolding(crate::specs::Structures::in_profile))]
fn in_profile(tokens: &Tokens<'_>) -> Result<(), IdlFault>
    ensures { Reads (λ x. x) (spec.in_profile tokens.now) result tokens.now }
{
    if tokens.sees(b";") {
        return Err(IdlFault::NotInProfile { at: tokens.place() });
    }
    Ok(())
}

/// No own members behind those of a base.
#[tactic(auto, using(crate::proofs::MakeSteps::no_own))]
fn no_members<'a>(reader: &Reader<'a>, base: Option<usize>, following: u64) -> Listed<'a>
    requires { following ≡ spec.following (members_before (state reader.now).types base) }
    ensures { let ts = (state reader.now).types in view.listed ts (members_before ts base) result ≡ spec.inherited (members_before ts base) }
{
    Listed {
        members: Row::new(reader.alloc()),
        names: NameSet::new(reader.alloc()),
        following,
    }
}

/// Further members, up to `}`.
#[tactic(auto, using(crate::proofs::DefinitionLoops::braced_go, crate::proofs::DefinitionLoops::braced_end))]
fn further_members<'a>(
    tokens: &mut Tokens<'a>,
    reader: &Reader<'a>,
    hashed: bool,
    base: Option<usize>,
    listed: &mut Listed<'a>,
) -> Result<(), IdlFault>
    ensures { let ts = (state reader.now).types in Goes (view.listed ts (members_before ts base)) (to_brace (members_step (state reader.now) hashed) (view.listed ts (members_before ts base) listed.old) tokens.old) result listed.new tokens.new }
{
    for _turn in 0..tokens.left() {
        members_of_type(tokens, reader, hashed, base, listed)?;
        if tokens.eat(b"}") {
            return Ok(());
        }
    }
    Err(tokens.syntax())
}

/// Members behind those of a base, up to `}`.
fn members<'a>(
    tokens: &mut Tokens<'a>,
    reader: &Reader<'a>,
    hashed: bool,
    base: Option<usize>,
    following: u64,
) -> Result<Row<UsedMember>, IdlFault>
    requires { following ≡ spec.following (members_before (state reader.now).types base) }
    ensures { let ts = (state reader.now).types in Reads (λ own. members_before ts base ++ map (member_whole ts) own) (spec.members (state reader.now) hashed (members_before ts base) tokens.old) result tokens.new }
{
    let mut listed = no_members(reader, base, following);
    further_members(tokens, reader, hashed, base, &mut listed)?;
    Ok(listed.members)
}

/// A structure, from its keyword on.
#[tactic(auto, unfolding(crate::specs::Structures::struct_def))]
pub fn struct_def<'a>(
    tokens: &mut Tokens<'a>,
    reader: &Reader<'a>,
    set: Settings,
) -> Result<Made<'a>, IdlFault>
    ensures read { Reads (view.made (state reader.now).types) (spec.struct_def (state reader.now) set tokens.old) result tokens.new }
    ensures fits { IfOk result (λ m. m.fits ≡ true → fits (state reader.now).types m.definition ≡ true) }
{
    tokens.take();
    let name = new_type(tokens, reader)?;
    in_profile(tokens)?;
    let heritage = base_clause(tokens, reader, set.ext)?;
    tokens.want(b"{")?;
    let members = members(
        tokens,
        reader,
        set.hashed,
        heritage.base,
        heritage.following,
    )?;
    tokens.want(b";")?;
    let definition = Definition::Struct(StructDefinition {
        ext: set.ext,
        nested: set.nested,
        hashed_ids: set.hashed,
        base: heritage.base,
        members,
    });
    Ok(defined(name, definition, heritage.fits))
}

/// A typedef, from its keyword on.
#[tactic(auto, unfolding(crate::specs::Structures::typedef_def))]
pub fn typedef_def<'a>(tokens: &mut Tokens<'a>, reader: &Reader<'a>) -> Result<Made<'a>, IdlFault>
    ensures read { Reads (view.made (state reader.now).types) (spec.typedef_def (state reader.now) tokens.old) result tokens.new }
    ensures fits { IfOk result (λ m. fits (state reader.now).types m.definition ≡ true) }
{
    tokens.take();
    let used = a_type(tokens, reader)?;
    let name = new_type(tokens, reader)?;
    let whole = dimensioned(tokens, reader, used)?;
    tokens.want(b";")?;
    Ok(defined(name, Definition::Alias(whole), true))
}
