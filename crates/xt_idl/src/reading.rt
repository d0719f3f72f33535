ghost use Rattle.std.specs.Prelude.{◌≡◌, ◌≤◌, [], length, true, None, IfNone, IfOk, OnOk};
ghost use Rattle.type_trees.specs.View.{tree};
ghost use Rattle.type_rules.specs.Faults.{fault_view};
ghost use Rattle.type_rules.specs.Valid.{type_fault};
ghost use Rattle.idl_input.specs.Input.{Reads, keyword_at};
ghost use Rattle.idl_types.specs.State.{declared};
ghost use Rattle.idl_types.specs.Definitions.{declared as declarations_view, defined, fits};
ghost use Rattle.idl_types.specs.Views.{state};
ghost use Rattle.idl_definitions.specs.Views.{made};
ghost use Rattle.xt_idl.specs.Kept.{IsKept};
ghost use Rattle.xt_idl.specs.Measures.{measured};
ghost use Rattle.xt_idl.specs.Numbers.{are_apart as numbers_apart};
ghost use Rattle.xt_idl.specs.Whole as spec;
ghost use Rattle.xt_idl.specs.Whole.{Leads, Changes, Declares};

use crate::fitting::is_valid;
use crate::known::{Kept, Known};
use crate::leading::leading_notes;
use crate::measures::{Measure, measure_definition};
use crate::numbers::definition_sets;
use crate::trees::{defined_type, trees_of};
use idl_definitions::{
    Made, bitmask_def, enum_def, settings_of, struct_def, typedef_def, union_def,
};
use idl_input::{Begins, DefinitionWord, IdlFault, Keyword, Tokens};
use idl_tokens::TokenKind;
use idl_tokens::names::Meaning;
use idl_types::{Declaration, Declarations, Definition, Reader};
use std::alloc::Global;
use type_rules::{TypeFault, check_type, fault_here};
use type_trees::{Named, XType};
use xt_annotations::Placed;
use xt_lists::{OutOfMemory, Row, Text};

#[tactic(auto, using(crate::proofs::Beginnings::definition_begins))]
fn definition_by<'a>(
    tokens: &mut Tokens<'a>,
    reader: &Reader<'a>,
    notes: &[Placed],
    keyword: Option<Keyword>,
) -> Result<Made<'a>, IdlFault>
    ensures read { Reads (made (state reader.now).types) (spec.definition_by (state reader.now) notes.now keyword tokens.old) result tokens.new }
    ensures fits { IfOk result (λ m. m.fits ≡ true → fits (state reader.now).types m.definition ≡ true) }
{
    match Begins::of(keyword) {
        Begins::Definition(DefinitionWord::Struct) => struct_def(
            tokens,
            reader,
            settings_of(notes),
        ),
        Begins::Definition(DefinitionWord::Union) => union_def(tokens, reader, settings_of(notes)),
        Begins::Definition(DefinitionWord::Enum) => enum_def(tokens, reader, settings_of(notes)),
        Begins::Definition(DefinitionWord::Bitmask) => bitmask_def(
            tokens,
            reader,
            settings_of(notes),
        ),
        Begins::Definition(DefinitionWord::Typedef) => typedef_def(tokens, reader),
        Begins::Outside => Err(IdlFault::NotInProfile { at: tokens.place() }),
        Begins::Module
        | Begins::Plain(_)
        | Begins::Collection(_)
        | Begins::Nothing
        | Begins::NoKeyword => Err(tokens.syntax()),
    }
}

/// A definition, from its keyword on.
fn definition<'a>(
    tokens: &mut Tokens<'a>,
    reader: &Reader<'a>,
    notes: &[Placed],
) -> Result<Made<'a>, IdlFault>
    ensures read { Reads (made (state reader.now).types) (spec.definition_by (state reader.now) notes.now (keyword_at tokens.old) tokens.old) result tokens.new }
    ensures fits { IfOk result (λ m. m.fits ≡ true → fits (state reader.now).types m.definition ≡ true) }
{
    let keyword = tokens.keyword();
    definition_by(tokens, reader, notes, keyword)
}

/// The tree of a definition, where it is not known to be valid.
fn tree_of(
    alloc: Global,
    types: &[Declaration],
    name: &Text,
    definition: &Definition,
) -> Result<XType, OutOfMemory>
    ensures { IfOk result (λ t. tree t ≡ defined (declarations_view types.now) name.now definition.now) }
{
    let trees = trees_of(alloc, types)?;
    defined_type(alloc, trees.as_slice(), name, definition)
}

/// The rule that a type breaks, and where.
fn fault_of(
    alloc: Global,
    known: &Known<'_>,
    measure: &Measure,
    are_apart: bool,
    found: &Made<'_>,
) -> Result<Option<TypeFault>, OutOfMemory>
    requires measure { measure.now ≡ measured (defined (declarations_view known.now.types.now) found.now.full found.now.definition) }
    requires apart { are_apart ≡ numbers_apart (declarations_view known.now.types.now) found.now.definition }
    ensures fault { IfOk result (λ f. fault_view f ≡ spec.fault_of (made (declarations_view known.now.types.now) found.now)) }
    ensures valid { IfOk result (λ f. IfNone f (type_fault (defined (declarations_view known.now.types.now) found.now.full found.now.definition) ≡ None)) }
    ensures fits { IfOk result (λ f. IfNone f (found.now.fits ≡ true)) }
{
    if !found.fits {
        return Ok(Some(fault_here(17)));
    }
    if is_valid(
        alloc,
        known,
        measure,
        &found.full,
        &found.definition,
        are_apart,
    )? {
        return Ok(None);
    }
    let ty = tree_of(alloc, known.types, &found.full, &found.definition)?;
    Ok(check_type(&ty).err())
}

/// Declares a type, where it is valid.
#[tactic(auto, using(crate::proofs::Keeping::kept_more))]
fn declare<'a>(reader: &mut Reader<'a>, kept: &mut Kept, found: Made<'a>) -> Result<(), IdlFault>
    requires fits { found.fits ≡ true → fits (state reader.old).types found.definition ≡ true }
    requires kept { IsKept (state reader.old).types kept.old }
    ensures kept { OnOk result (IsKept (state reader.new).types kept.new) }
    ensures changes { Changes (spec.valid_or (state reader.old) (made (state reader.old).types found.entry) (spec.fault_of (made (state reader.old).types found.entry))) result (state reader.new) }
{
    let known = Known {
        types: reader.types(),
        measures: kept.measures.as_slice(),
        numbers: kept.numbers.as_slice(),
    };
    let measure = measure_definition(&known, &found.full, &found.definition);
    let (numbers, are_apart) = definition_sets(reader.alloc(), &known, &found.definition)?;
    if let Some(fault) = fault_of(reader.alloc(), &known, &measure, are_apart, &found)? {
        return Err(IdlFault::Invalid {
            at: found.at,
            fault,
        });
    }
    kept.push(measure, numbers)?;
    let Made {
        at: _,
        name,
        full,
        definition,
        fits: _,
    } = found;
    reader.declare(name, full, definition)?;
    Ok(())
}

/// A definition, from its keyword on.
#[tactic(auto, unfolding(crate::specs::Whole::typed))]
fn typed<'a>(
    tokens: &mut Tokens<'a>,
    reader: &mut Reader<'a>,
    kept: &mut Kept,
    notes: &[Placed],
) -> Result<(), IdlFault>
    requires kept { IsKept (state reader.old).types kept.old }
    ensures kept { OnOk result (IsKept (state reader.new).types kept.new) }
    ensures leads { Leads (spec.typed (state reader.old) notes.now tokens.old) result (state reader.new) tokens.new }
{
    let found = definition(tokens, reader, notes)?;
    declare(reader, kept, found)
}

/// Opens a module's scope.
#[tactic(auto, unfolding(crate::specs::Whole::module_def))]
fn module_def<'a>(tokens: &mut Tokens<'a>, reader: &mut Reader<'a>) -> Result<(), IdlFault>
    ensures same { OnOk result ((state reader.new).types ≡ (state reader.old).types) }
    ensures leads { Leads (spec.module_def (state reader.old) tokens.old) result (state reader.new) tokens.new }
{
    tokens.take();
    let at = tokens.place();
    let name = tokens.name()?;
    match reader.meaning(name) {
        None => {
            tokens.want(b"{")?;
            reader.open(name)?;
            Ok(())
        }
        Some(Meaning::Module(number)) => {
            tokens.want(b"{")?;
            reader.open_again(number, name)?;
            Ok(())
        }
        Some(Meaning::Type(_)) => Err(IdlFault::Twice { at }),
    }
}

#[tactic(auto, using(crate::proofs::Beginnings::item_begins))]
fn definition_or_module<'a>(
    tokens: &mut Tokens<'a>,
    reader: &mut Reader<'a>,
    kept: &mut Kept,
    notes: &[Placed],
    keyword: Option<Keyword>,
) -> Result<(), IdlFault>
    requires kept { IsKept (state reader.old).types kept.old }
    ensures kept { OnOk result (IsKept (state reader.new).types kept.new) }
    ensures leads { Leads (spec.definition_or_module (state reader.old) notes.now keyword tokens.old) result (state reader.new) tokens.new }
{
    match Begins::of(keyword) {
        Begins::Module => module_def(tokens, reader),
        Begins::Definition(_)
        | Begins::Plain(_)
        | Begins::Collection(_)
        | Begins::Outside
        | Begins::Nothing
        | Begins::NoKeyword => typed(tokens, reader, kept, notes),
    }
}

/// The end of a module.
#[tactic(auto, unfolding(crate::specs::Whole::closed))]
fn closed<'a>(tokens: &mut Tokens<'a>, reader: &mut Reader<'a>) -> Result<(), IdlFault>
    ensures same { OnOk result ((state reader.new).types ≡ (state reader.old).types) }
    ensures leads { Leads (spec.closed (state reader.old) tokens.old) result (state reader.new) tokens.new }
{
    tokens.take();
    tokens.want(b";")?;
    reader.close();
    Ok(())
}

/// Whether a module is open and has a definition.
fn may_close(reader: &Reader<'_>) -> bool
    ensures { result ≡ spec.may_close (state reader.now) }
{
    0 < reader.depth() && !reader.is_fresh()
}

/// A definition, the opening of a module or a module's end.
#[tactic(auto, unfolding(crate::specs::Whole::item))]
fn item<'a>(
    tokens: &mut Tokens<'a>,
    reader: &mut Reader<'a>,
    kept: &mut Kept,
) -> Result<(), IdlFault>
    requires kept { IsKept (state reader.old).types kept.old }
    ensures kept { OnOk result (IsKept (state reader.new).types kept.new) }
    ensures leads { Leads (spec.item (state reader.old) tokens.old) result (state reader.new) tokens.new }
{
    if may_close(reader) && tokens.sees(b"}") {
        return closed(tokens, reader);
    }
    let notes = leading_notes(tokens, reader.alloc())?;
    let keyword = tokens.keyword();
    definition_or_module(tokens, reader, kept, notes.as_slice(), keyword)
}

/// Whether the text ends here, with all modules closed.
#[tactic(auto, unfolding(crate::specs::Whole::at_end))]
fn at_end(tokens: &Tokens<'_>, reader: &Reader<'_>) -> bool
    ensures { result ≡ spec.at_end (state reader.now) tokens.now }
{
    match tokens.kind() {
        TokenKind::End => reader.depth() == 0,
        TokenKind::Word
        | TokenKind::Number
        | TokenKind::Character
        | TokenKind::Quoted
        | TokenKind::Mark
        | TokenKind::Bad => false,
    }
}

#[tactic(auto, using(crate::proofs::TextLoops::items_go, crate::proofs::TextLoops::items_end))]
fn items<'a>(
    tokens: &mut Tokens<'a>,
    reader: &mut Reader<'a>,
    kept: &mut Kept,
    turns: usize,
) -> Result<(), IdlFault>
    requires kept { IsKept (state reader.old).types kept.old }
    ensures kept { OnOk result (IsKept (state reader.new).types kept.new) }
    ensures leads { Leads (spec.items_from turns (state reader.old) tokens.old) result (state reader.new) tokens.new }
{
    for _turn in 0..turns {
        if at_end(tokens, reader) {
            return Ok(());
        }
        item(tokens, reader, kept)?;
    }
    if at_end(tokens, reader) {
        Ok(())
    } else {
        Err(tokens.syntax())
    }
}

/// The types that an IDL text declares, each by its full name, in the order of the text (OMG IDL 4.2, 7.4 and 7.5; DDS-XTypes 1.3, 7.3).
///
/// The fault is the one at the first place, in octets from the beginning of the text, and at one place the first of these: Syntax, the
/// first token with which the text so far begins no reading; Unknown, a name that isn't declared before; Twice, a name that is declared
/// again in its scope; NotInProfile, a token of IDL that the profile lacks; Annotation, an `@` with the rule A1 to A9; Invalid, the name of
/// a type that breaks a rule of valid types, which is tried only where the type's definition is whole. OutOfMemory may come in place of
/// any of these.
#[tactic(auto, unfolding(crate::specs::Whole::idl))]
pub fn declarations(alloc: Global, text: &[u8]) -> Result<Declarations, IdlFault>
    requires { length text.now ≤ 1048576 }
    ensures { Declares (spec.idl text.now) declarations_view result }
{
    let mut reader = Reader::new(alloc);
    let mut kept = Kept::new(alloc);
    let mut tokens = Tokens::new(text);
    items(&mut tokens, &mut reader, &mut kept, text.len())?;
    Ok(reader.into_types())
}

/// The types that an IDL text declares, as `declarations` has them, each as a tree.
pub fn parse(alloc: Global, text: &[u8]) -> Result<Row<Named>, IdlFault>
    requires { length text.now ≤ 1048576 }
    ensures { Declares (spec.idl text.now) declared result }
{
    let found = declarations(alloc, text)?;
    Ok(trees_of(alloc, found.as_slice())?)
}
