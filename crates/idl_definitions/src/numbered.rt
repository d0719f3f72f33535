//! Enumerations and bitmasks: definitions whose parts have numbers.
ghost use Rattle.std.specs.Prelude.{◌≡◌, false, true, IfOk, OnOk};
ghost use Rattle.idl_tokens.specs.names.Sets.{has as taken};
ghost use Rattle.idl_input.specs.Input.{Reads};
ghost use Rattle.idl_types.specs.State.{Declared};
ghost use Rattle.idl_types.specs.Definitions.{defined, fits};
ghost use Rattle.idl_types.specs.Views.{state};
ghost use Rattle.idl_definitions.specs.Lists.{Goes, with_commas};
ghost use Rattle.idl_definitions.specs.Numbered as spec;
ghost use Rattle.idl_definitions.specs.Views as view;

use crate::made::{self, Made, new_type};
use crate::members::new_name;
use crate::settings::{Settings, settings_of};
use idl_input::{IdlFault, Tokens};
use idl_tokens::names::NameSet;
use idl_types::{Definition, Reader};
use std::alloc::Global;
use type_trees::{EnumType, Flag, Literal, MaskType, Name};
use type_values::copy_text;
use xt_annotations::Site;
use xt_lists::{OutOfMemory, Row, Text};

/// A part that has a number: a literal of an enumeration, or a flag of a bitmask.
trait NumberedPart: Drop {
    type Number: Copy;

    /// How it is numbered, and what such parts make together.
    ghost numbering: { spec.Numbering Self Self.Number };

    fn site() -> Site
        ensures { result ≡ numbering.site };

    /// The number of a part that none stands at and that is the first.
    fn first() -> Self::Number
        ensures { result ≡ numbering.first };

    fn given(set: Settings) -> Option<Self::Number>
        ensures { result ≡ numbering.given set };

    fn new(name: Text, set: Settings, number: Self::Number) -> Self
        ensures { result ≡ numbering.part name set number };

    /// The number of the next part that none stands at, unless this one has the greatest.
    fn following(&self) -> Option<Self::Number>
        ensures { result ≡ numbering.following self.now };

    fn whole(
        alloc: Global,
        full: &Text,
        set: Settings,
        parts: Row<Self>,
    ) -> Result<Definition, OutOfMemory>
        ensures tree { (ts : Declared) → IfOk result (λ d. defined ts full.now d ≡ numbering.whole full.now set parts) }
        ensures fits { (ts : Declared) → IfOk result (λ d. fits ts d ≡ true) };
}

/// Parts so far, their names, and the number that the next one has by itself.
#[derive(Drop)]
pub(crate) struct Numbered<'a, P, N> {
    parts: Row<P>,
    names: NameSet<'a>,
    following: Option<N>,
}

fn number_or<N: Copy>(at: u32, given: Option<N>, following: Option<N>) -> Result<N, IdlFault>
    ensures { result ≡ spec.number_or at given following }
{
    match given {
        Some(number) => Ok(number),
        None => match following {
            Some(number) => Ok(number),
            None => Err(IdlFault::Annotation { at, rule: 7 }),
        },
    }
}

fn no_parts<'a, P: NumberedPart>(alloc: Global) -> Numbered<'a, P, P::Number>
    ensures { view.numbered result ≡ spec.no_parts P.numbering }
{
    Numbered {
        parts: Row::new(alloc),
        names: NameSet::new(alloc),
        following: Some(P::first()),
    }
}

fn with_part<'a, P: NumberedPart>(
    numbered: &mut Numbered<'a, P, P::Number>,
    name: &'a [u8],
    part: P,
) -> Result<(), OutOfMemory>
    requires { taken name.now numbered.old.names ≡ false }
    ensures { OnOk result (view.numbered numbered.new ≡ spec.with_part P.numbering (view.numbered numbered.old) name.now part) }
{
    numbered.following = part.following();
    numbered.parts.push(part)?;
    numbered.names.add(name)
}

/// One more part.
#[tactic(auto, unfolding(crate::specs::Numbered::part))]
fn one_more<'a, P: NumberedPart>(
    tokens: &mut Tokens<'a>,
    alloc: Global,
    numbered: &mut Numbered<'a, P, P::Number>,
) -> Result<(), IdlFault>
    ensures { Goes view.numbered (spec.part P.numbering (view.numbered numbered.old) tokens.old) result numbered.new tokens.new }
{
    let notes = tokens.notes_at(alloc, P::site())?;
    let (at, name) = new_name(tokens, &numbered.names)?;
    let set = settings_of(notes.as_slice());
    let number = number_or(at, P::given(set), numbered.following)?;
    let part = P::new(Text::from_octets(alloc, name)?, set, number);
    with_part(numbered, name, part)?;
    Ok(())
}

#[tactic(auto, using(crate::proofs::DefinitionLoops::comma_go, crate::proofs::DefinitionLoops::comma_end))]
fn parts<'a, P: NumberedPart>(
    tokens: &mut Tokens<'a>,
    alloc: Global,
) -> Result<Numbered<'a, P, P::Number>, IdlFault>
    ensures { Reads view.numbered (with_commas (spec.part P.numbering) (spec.no_parts P.numbering) tokens.old) result tokens.new }
{
    let mut numbered = no_parts(alloc);
    for _turn in 0..tokens.left() {
        one_more(tokens, alloc, &mut numbered)?;
        if !tokens.eat(b",") {
            return Ok(numbered);
        }
    }
    Ok(numbered)
}

/// A definition with numbered parts, from its keyword on.
#[tactic(auto, unfolding(crate::specs::Numbered::numbered_def))]
fn numbered_def<'a, P: NumberedPart>(
    tokens: &mut Tokens<'a>,
    reader: &Reader<'a>,
    set: Settings,
) -> Result<Made<'a>, IdlFault>
    ensures read { Reads (view.made (state reader.now).types) (spec.numbered_def P.numbering (state reader.now) set tokens.old) result tokens.new }
    ensures fits { IfOk result (λ m. fits (state reader.now).types m.definition ≡ true) }
{
    let alloc = reader.alloc();
    tokens.take();
    let name = new_type(tokens, reader)?;
    tokens.want(b"{")?;
    let numbered = parts::<P>(tokens, alloc)?;
    tokens.want(b"}")?;
    tokens.want(b";")?;
    let definition = P::whole(alloc, &name.full, set, numbered.parts)?;
    Ok(made::defined(name, definition, true))
}

impl NumberedPart for Literal {
    type Number = i32;

    ghost numbering = { spec.literals };

    fn site() -> Site {
        Site::Literal
    }

    fn first() -> i32 {
        0
    }

    fn given(set: Settings) -> Option<i32> {
        set.number
    }

    fn new(name: Text, set: Settings, number: i32) -> Literal {
        Literal {
            name: Name::Full(name),
            value: number,
            is_default: set.is_default,
        }
    }

    fn following(&self) -> Option<i32> {
        if self.value <= 2_147_483_646 {
            Some(self.value + 1)
        } else {
            None
        }
    }

    fn whole(
        alloc: Global,
        full: &Text,
        set: Settings,
        parts: Row<Literal>,
    ) -> Result<Definition, OutOfMemory>
        ensures tree { (ts : Declared) → IfOk result (λ d. defined ts full.now d ≡ spec.literals.whole full.now set parts) }
        ensures fits { (ts : Declared) → IfOk result (λ d. fits ts d ≡ true) }
    {
        Ok(Definition::Enum(EnumType {
            name: Some(copy_text(alloc, full)?),
            ext: set.ext,
            bits: set.bits,
            literals: parts,
        }))
    }
}

impl NumberedPart for Flag {
    type Number = u8;

    ghost numbering = { spec.flags };

    fn site() -> Site {
        Site::Flag
    }

    fn first() -> u8 {
        0
    }

    fn given(set: Settings) -> Option<u8> {
        set.position
    }

    fn new(name: Text, _set: Settings, number: u8) -> Flag {
        Flag {
            name: Name::Full(name),
            position: number,
        }
    }

    fn following(&self) -> Option<u8> {
        if self.position <= 254 {
            Some(self.position + 1)
        } else {
            None
        }
    }

    fn whole(
        alloc: Global,
        full: &Text,
        set: Settings,
        parts: Row<Flag>,
    ) -> Result<Definition, OutOfMemory>
        ensures tree { (ts : Declared) → IfOk result (λ d. defined ts full.now d ≡ spec.flags.whole full.now set parts) }
        ensures fits { (ts : Declared) → IfOk result (λ d. fits ts d ≡ true) }
    {
        Ok(Definition::Mask(MaskType {
            name: Some(copy_text(alloc, full)?),
            bits: set.bits,
            flags: parts,
        }))
    }
}

/// An enumeration, from its keyword on.
pub fn enum_def<'a>(
    tokens: &mut Tokens<'a>,
    reader: &Reader<'a>,
    set: Settings,
) -> Result<Made<'a>, IdlFault>
    ensures read { Reads (view.made (state reader.now).types) (spec.enum_def (state reader.now) set tokens.old) result tokens.new }
    ensures fits { IfOk result (λ m. fits (state reader.now).types m.definition ≡ true) }
{
    numbered_def::<Literal>(tokens, reader, set)
}

/// A bitmask, from its keyword on.
pub fn bitmask_def<'a>(
    tokens: &mut Tokens<'a>,
    reader: &Reader<'a>,
    set: Settings,
) -> Result<Made<'a>, IdlFault>
    ensures read { Reads (view.made (state reader.now).types) (spec.bitmask_def (state reader.now) set tokens.old) result tokens.new }
    ensures fits { IfOk result (λ m. fits (state reader.now).types m.definition ≡ true) }
{
    numbered_def::<Flag>(tokens, reader, set)
}
