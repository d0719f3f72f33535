ghost use Rattle.std.specs.Prelude.{◌≡◌, [], ◌∷◌, ◌++◌, IfErr, IfOk, codes, map};
ghost use Rattle.std.specs.Option.{option_map};
ghost use Rattle.type_trees.specs.View.{tree};
ghost use Rattle.idl_printer.specs.Lines.{printed};
ghost use Rattle.tool_runs.specs.output.Runs.{Comes, Refuses};
ghost use Rattle.tool_types.specs.Declaring.{declared_view};
ghost use Rattle.tool_types.specs.names.Names.{name_refusal};
ghost use Rattle.xt_calls.specs.Calls as spec;
ghost use Rattle.xt_calls.specs.Opened.{front};

use crate::answers::{Answer, DONE, refuse_words};
use crate::types::Types;
use std::alloc::Global;
use tool_runs::output::{Cause, Halt, Refused, Stop};
use tool_types::Declared;
use tool_types::names::top_named;
use tool_words::named_by;
use type_trees::{Named, XType};
use xt_idl::{print, print_declared};
use xt_lists::{OutOfMemory, Row, Text};

fn text_in(name: &Option<Text>) -> Option<&Text>
    ensures { option_map (λ text. text.now) result ≡ name.now }
{
    match name {
        Some(text) => Some(text),
        None => None,
    }
}

#[tactic(auto, using(type_trees::proofs::Views::tree_rules))]
fn name_of(ty: &XType) -> Option<&Text>
    ensures { option_map (λ text. text.now) result ≡ spec.name_of (tree ty.now) }
{
    match ty {
        XType::Enum(kind) => text_in(&kind.name),
        XType::Mask(kind) => text_in(&kind.name),
        XType::Struct(kind) => text_in(&kind.name),
        XType::Union(kind) => text_in(&kind.name),
        XType::Alias(kind) => text_in(&kind.name),
        XType::Prim(_) | XType::Str(_) | XType::Seq(_) | XType::Array(_) | XType::Map(_) => None,
    }
}

fn refuse_nameless(alloc: Global, word: &[u8]) -> Stop
    ensures { Refuses (name_refusal word.now) result }
{
    match name_line(alloc, word) {
        Ok(text) => Stop::Refused(Refused {
            text,
            cause: Cause::NoName,
        }),
        Err(_) => Stop::Halted(Halt::OutOfMemory),
    }
}

fn name_line(alloc: Global, word: &[u8]) -> Result<Text, OutOfMemory>
    ensures { IfOk result (λ text. text ≡ codes "name " ++ word.now) }
{
    let mut text = Text::from_octets(alloc, b"name ")?;
    text.append(word)?;
    Ok(text)
}

// One type under its name.
fn print_one(alloc: Global, name: Text, ty: XType) -> Result<Answer, OutOfMemory>
    ensures { IfOk result (λ answer. answer ≡ spec.said 0 (printed ((name, tree ty) ∷ []))) }
{
    let mut types = Row::new(alloc);
    types.push(Named { name, ty })?;
    let text = print(alloc, &types)?;
    Ok(Answer { status: DONE, text })
}

fn copied(alloc: Global, name: &Text) -> Result<Text, Stop>
    ensures copy { IfOk result (λ copy. copy ≡ name.now) }
    ensures stop { IfErr result (λ stop. stop ≡ Stop.Halted Halt.OutOfMemory) }
{
    match Text::from_octets(alloc, name.octets()) {
        Ok(copy) => Ok(copy),
        Err(_) => Err(Stop::Halted(Halt::OutOfMemory)),
    }
}

fn print_named(alloc: Global, word: &[u8], ty: XType) -> Result<Answer, Stop>
    ensures { Comes (spec.printed_as word.now (tree ty) (spec.name_of (tree ty))) (λ answer. answer) result }
{
    let name = match name_of(&ty) {
        None => return Err(refuse_nameless(alloc, word)),
        Some(name) => copied(alloc, name)?,
    };
    match print_one(alloc, name, ty) {
        Ok(answer) => Ok(answer),
        Err(_) => Err(Stop::Halted(Halt::OutOfMemory)),
    }
}

fn print_text(alloc: Global, declared: &Declared) -> Result<Text, OutOfMemory>
    ensures { IfOk result (λ text. text ≡ spec.text_in (declared_view declared.now)) }
{
    match declared {
        Declared::Types { types, .. } => print_declared(alloc, types),
        Declared::Object { .. } => Ok(Text::new(alloc)),
    }
}

fn print_texts(alloc: Global, records: &[Declared]) -> Result<Text, OutOfMemory>
    ensures { IfOk result (λ text. text ≡ spec.texts_in (map declared_view records.now)) }
{
    let mut text = Text::new(alloc);
    for declared in records {
        let more = print_text(alloc, declared)?;
        text.append(more.octets())?;
    }
    Ok(text)
}

impl Types {
    /// The IDL text of the structure or union that a word names. What it refers to is named in it, and not defined.
    pub fn print(&self, alloc: Global, word: &[u8]) -> Result<Answer, Stop>
        ensures { Comes (spec.printed_by word.now (front self.now)) (λ answer. answer) result }
    {
        let Some(reference) = named_by(word) else {
            return Err(refuse_words(alloc));
        };
        let found = top_named(alloc, &reference, self.declared.as_slice(), &self.pool)?;
        print_named(alloc, word, found.ty)
    }

    /// The IDL text of all types that texts declare.
    pub fn print_all(&self, alloc: Global) -> Result<Answer, OutOfMemory>
        ensures { IfOk result (λ answer. answer ≡ spec.said 0 (spec.texts_in (front self.now).0)) }
    {
        let text = print_texts(alloc, self.declared.as_slice())?;
        Ok(Answer { status: DONE, text })
    }
}
