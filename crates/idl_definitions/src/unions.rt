ghost use Rattle.std.specs.Prelude.{◌≡◌, [], map, pos, slice_index, false, true, IfOk, OnOk};
ghost use Rattle.idl_tokens.specs.names.Sets.{has as taken};
ghost use Rattle.idl_input.specs.Input.{Reads};
ghost use Rattle.idl_types.specs.Uses.{tree_at, whole};
ghost use Rattle.idl_types.specs.Definitions.{declared, fits, member_whole, case_whole};
ghost use Rattle.idl_types.specs.Views.{state};
ghost use Rattle.idl_definitions.specs.Lists.{Goes, to_brace};
ghost use Rattle.idl_definitions.specs.Unions as spec;
ghost use Rattle.idl_definitions.specs.Views as view;

use crate::literals::LiteralsByName;
use crate::made::{Made, defined, new_type};
use crate::members::{new_name, shaped};
use crate::settings::{Settings, settings_of};
use idl_input::{IdlFault, Tokens};
use idl_tokens::names::NameSet;
use idl_tokens::{TokenKind, signed_32};
use idl_types::{
    Declaration, Definition, Reader, UnionDefinition, Used, UsedCase, UsedMember, a_type,
    declaration_at, scoped_name,
};
use std::alloc::Global;
use xt_annotations::Site;
use xt_lists::{OutOfMemory, Row, Text};
use xt_shapes::Prim;

#[tactic(auto, unfolding(crate::specs::Unions::truth_label))]
fn truth_label(tokens: &mut Tokens<'_>) -> Result<i32, IdlFault>
    ensures { Reads (λ x. x) (spec.truth_label tokens.old) result tokens.new }
{
    if tokens.eat(b"TRUE") {
        return Ok(1);
    }
    tokens.want(b"FALSE")?;
    Ok(0)
}

fn character_of(spelling: &[u8]) -> i32
    ensures { result ≡ pos (slice_index spelling.now 1) }
{
    if 1 < spelling.len() {
        i32::from(spelling[1])
    } else {
        0
    }
}

#[tactic(auto, unfolding(crate::specs::Unions::character_label))]
fn character_label(tokens: &mut Tokens<'_>) -> Result<i32, IdlFault>
    ensures { Reads (λ x. x) (spec.character_label tokens.old) result tokens.new }
{
    match tokens.kind() {
        TokenKind::Character => Ok(character_of(tokens.take())),
        TokenKind::Word
        | TokenKind::Number
        | TokenKind::Quoted
        | TokenKind::Mark
        | TokenKind::End
        | TokenKind::Bad => Err(tokens.syntax()),
    }
}

#[tactic(auto, unfolding(crate::specs::Unions::number_label))]
fn number_label(tokens: &mut Tokens<'_>) -> Result<i32, IdlFault>
    ensures { Reads (λ x. x) (spec.number_label tokens.old) result tokens.new }
{
    if !tokens.sees_number() {
        return Err(tokens.syntax());
    }
    match signed_32(tokens.spelling()) {
        Some(number) => {
            tokens.take();
            Ok(number)
        }
        None => Err(tokens.syntax()),
    }
}

#[tactic(auto, unfolding(crate::specs::Unions::literal_label))]
fn literal_label<'a>(
    tokens: &mut Tokens<'a>,
    alloc: Global,
    literals: &LiteralsByName<'_>,
) -> Result<i32, IdlFault>
    ensures { Reads (λ x. x) (spec.literal_label literals.now tokens.old) result tokens.new }
{
    let at = tokens.place();
    let name = scoped_name(tokens, alloc)?;
    match literals.value(name.last) {
        Some(value) => Ok(value),
        None => Err(IdlFault::Unknown { at }),
    }
}

/// How a label is written, by the discriminator's type behind its aliases.
#[derive(Drop)]
pub(crate) enum LabelForm<'d> {
    Truth,
    Character,
    Number,
    Literal(LiteralsByName<'d>),
}

/// How labels are written whose discriminator has the type that is declared at a place.
#[cycle(forms)]
#[tactic(auto, unfolding(crate::specs::Unions::label))]
fn form_at<'d>(
    alloc: Global,
    types: &'d [Declaration],
    at: usize,
) -> Result<LabelForm<'d>, OutOfMemory>
    ensures { IfOk result (λ form. spec.label (view.form form) ≡ spec.label (tree_at (declared types.now) at)) }
{
    let Some(declaration) = declaration_at(types, at) else {
        return Ok(LabelForm::Truth);
    };
    match &declaration.definition {
        Definition::Enum(kind) => {
            let literals = LiteralsByName::new(alloc, kind.literals.as_slice())?;
            Ok(LabelForm::Literal(literals))
        }
        Definition::Alias(used) => label_form(alloc, &types[..at], used),
        Definition::Mask(_) | Definition::Struct(_) | Definition::Union(_) => Ok(LabelForm::Number),
    }
}

#[cycle(forms)]
#[tactic(auto, using(idl_types::proofs::Wholes::whole_rules), unfolding(crate::specs::Unions::label))]
fn label_form<'d>(
    alloc: Global,
    types: &'d [Declaration],
    disc: &Used,
) -> Result<LabelForm<'d>, OutOfMemory>
    ensures { IfOk result (λ form. spec.label (view.form form) ≡ spec.label (whole (declared types.now) disc.now)) }
{
    match disc {
        Used::Prim(Prim::Boolean) => Ok(LabelForm::Truth),
        Used::Prim(Prim::Char8) => Ok(LabelForm::Character),
        Used::Declared(at) => form_at(alloc, types, *at),
        Used::Prim(
            Prim::Byte
            | Prim::Int8
            | Prim::Uint8
            | Prim::Int16
            | Prim::Uint16
            | Prim::Int32
            | Prim::Uint32
            | Prim::Int64
            | Prim::Uint64
            | Prim::Float32
            | Prim::Float64,
        )
        | Used::Str(_)
        | Used::Seq { .. }
        | Used::Array { .. }
        | Used::Map { .. } => Ok(LabelForm::Number),
    }
}

#[tactic(auto, unfolding(crate::specs::Unions::label))]
fn label(tokens: &mut Tokens<'_>, alloc: Global, form: &LabelForm<'_>) -> Result<i32, IdlFault>
    ensures { Reads (λ x. x) (spec.label (view.form form.now) tokens.old) result tokens.new }
{
    match form {
        LabelForm::Truth => truth_label(tokens),
        LabelForm::Character => character_label(tokens),
        LabelForm::Number => number_label(tokens),
        LabelForm::Literal(literals) => literal_label(tokens, alloc, literals),
    }
}

/// Labels, and whether `default` is among them.
#[derive(Drop)]
struct LabelList {
    values: Row<i32>,
    is_default: bool,
}

#[tactic(auto, using(crate::proofs::DefinitionLoops::labels_go, crate::proofs::DefinitionLoops::labels_end), unfolding(crate::specs::Unions::labels))]
fn labels(
    tokens: &mut Tokens<'_>,
    alloc: Global,
    form: &LabelForm<'_>,
) -> Result<LabelList, IdlFault>
    ensures { Reads (λ l. (l.values, l.is_default)) (spec.labels (view.form form.now) tokens.old) result tokens.new }
{
    if !(tokens.sees(b"case") || tokens.sees(b"default")) {
        return Err(tokens.syntax());
    }
    let mut values = Row::new(alloc);
    let mut is_default = false;
    for _turn in 0..tokens.left() {
        if tokens.eat(b"case") {
            let value = label(tokens, alloc, form)?;
            tokens.want(b":")?;
            values.push(value)?;
        } else if tokens.eat(b"default") {
            tokens.want(b":")?;
            is_default = true;
        } else {
            return Ok(LabelList { values, is_default });
        }
    }
    Ok(LabelList { values, is_default })
}

fn case_of(reader: &Reader<'_>, labels: LabelList, member: UsedMember) -> UsedCase
    ensures { case_whole (state reader.now).types result ≡ spec.a_case labels.values labels.is_default (member_whole (state reader.now).types member) }
{
    let UsedMember {
        id,
        name,
        used,
        tc,
        optional: _,
        must_understand: _,
        key: _,
    } = member;
    UsedCase {
        id,
        name,
        used,
        tc,
        labels: labels.values,
        is_default: labels.is_default,
    }
}

/// Cases so far, their names, and the id after the last one's.
#[derive(Drop)]
pub(crate) struct Gathered<'a> {
    cases: Row<UsedCase>,
    names: NameSet<'a>,
    following: u64,
}

#[tactic(auto, using(std::proofs::lemmas::List::map_push))]
fn with_case<'a>(
    reader: &Reader<'a>,
    gathered: &mut Gathered<'a>,
    name: &'a [u8],
    case: UsedCase,
) -> Result<(), OutOfMemory>
    requires { taken name.now gathered.old.names ≡ false }
    ensures { let ts = (state reader.now).types in OnOk result (view.gathered ts gathered.new ≡ spec.with_case (view.gathered ts gathered.old) name.now (case_whole ts case)) }
{
    gathered.following = u64::from(case.id) + 1;
    gathered.cases.push(case)?;
    gathered.names.add(name)
}

/// One more case.
#[tactic(auto, unfolding(crate::specs::Unions::case))]
fn another_case<'a>(
    tokens: &mut Tokens<'a>,
    reader: &Reader<'a>,
    hashed: bool,
    form: &LabelForm<'_>,
    gathered: &mut Gathered<'a>,
) -> Result<(), IdlFault>
    ensures { Goes (view.gathered (state reader.now).types) (spec.case (state reader.now) hashed (view.form form.now) (view.gathered (state reader.now).types gathered.old) tokens.old) result gathered.new tokens.new }
{
    let alloc = reader.alloc();
    let labels = labels(tokens, alloc, form)?;
    let notes = tokens.notes_at(alloc, Site::Case)?;
    let used = a_type(tokens, reader)?;
    let (at, name) = new_name(tokens, &gathered.names)?;
    let following = gathered.following;
    let member = shaped(
        tokens,
        reader,
        at,
        name,
        notes.as_slice(),
        hashed,
        following,
        used,
    )?;
    tokens.want(b";")?;
    with_case(reader, gathered, name, case_of(reader, labels, member))?;
    Ok(())
}

#[tactic(auto, using(crate::proofs::DefinitionLoops::braced_go, crate::proofs::DefinitionLoops::braced_end))]
fn cases<'a>(
    tokens: &mut Tokens<'a>,
    reader: &Reader<'a>,
    hashed: bool,
    form: &LabelForm<'_>,
    gathered: &mut Gathered<'a>,
) -> Result<(), IdlFault>
    ensures { Goes (view.gathered (state reader.now).types) (to_brace (spec.case (state reader.now) hashed (view.form form.now)) (view.gathered (state reader.now).types gathered.old) tokens.old) result gathered.new tokens.new }
{
    for _turn in 0..tokens.left() {
        another_case(tokens, reader, hashed, form, gathered)?;
        if tokens.eat(b"}") {
            return Ok(());
        }
    }
    Err(tokens.syntax())
}

fn no_cases<'a>(reader: &Reader<'a>) -> Gathered<'a>
    ensures { view.gathered (state reader.now).types result ≡ spec.no_cases_yet }
{
    Gathered {
        cases: Row::new(reader.alloc()),
        names: NameSet::new(reader.alloc()),
        following: 0,
    }
}

/// The cases of a union over this discriminator.
fn cases_over<'a>(
    tokens: &mut Tokens<'a>,
    reader: &Reader<'a>,
    hashed: bool,
    disc: &Used,
) -> Result<Gathered<'a>, IdlFault>
    ensures { Reads (view.gathered (state reader.now).types) (to_brace (spec.case (state reader.now) hashed (whole (state reader.now).types disc.now)) spec.no_cases_yet tokens.old) result tokens.new }
{
    let form = label_form(reader.alloc(), reader.types(), disc)?;
    let mut gathered = no_cases(reader);
    cases(tokens, reader, hashed, &form, &mut gathered)?;
    Ok(gathered)
}

/// The discriminator's type, and whether it is a key.
#[tactic(auto, unfolding(crate::specs::Unions::discriminator))]
fn discriminator<'a>(tokens: &mut Tokens<'a>, reader: &Reader<'a>) -> Result<(Used, bool), IdlFault>
    ensures { Reads (λ d. (whole (state reader.now).types d.0, d.1)) (spec.discriminator (state reader.now) tokens.old) result tokens.new }
{
    tokens.want(b"switch")?;
    tokens.want(b"(")?;
    let notes = tokens.notes_at(reader.alloc(), Site::Discriminator)?;
    let used = a_type(tokens, reader)?;
    tokens.want(b")")?;
    Ok((used, settings_of(notes.as_slice()).key))
}

/// A union, from its keyword on.
#[tactic(auto, unfolding(crate::specs::Unions::union_def))]
pub fn union_def<'a>(
    tokens: &mut Tokens<'a>,
    reader: &Reader<'a>,
    set: Settings,
) -> Result<Made<'a>, IdlFault>
    ensures read { Reads (view.made (state reader.now).types) (spec.union_def (state reader.now) set tokens.old) result tokens.new }
    ensures fits { IfOk result (λ m. fits (state reader.now).types m.definition ≡ true) }
{
    tokens.take();
    let name = new_type(tokens, reader)?;
    let (disc, disc_key) = discriminator(tokens, reader)?;
    tokens.want(b"{")?;
    let gathered = cases_over(tokens, reader, set.hashed, &disc)?;
    tokens.want(b";")?;
    let definition = Definition::Union(UnionDefinition {
        ext: set.ext,
        nested: set.nested,
        hashed_ids: set.hashed,
        disc,
        disc_key,
        cases: gathered.cases,
    });
    Ok(defined(name, definition, true))
}
