ghost use Rattle.std.specs.Prelude.{◌≡◌, ◌∷◌, [], ◌<◌, List, Result, IfOk, reverse};
ghost use Rattle.type_trees.specs.Trees.{prim, str};
ghost use Rattle.idl_input.specs.declared.faults.IdlFault.{IdlFault};
ghost use Rattle.idl_input.specs.Input.{Input, Reads, keyword_at};
ghost use Rattle.idl_types.specs.declared.types.Open.{Open};
ghost use Rattle.idl_types.specs.Names.{turns_of};
ghost use Rattle.idl_types.specs.Types as spec;
ghost use Rattle.idl_types.specs.Uses.{whole};
ghost use Rattle.idl_types.specs.Views.{state};

use crate::reader::{Reader, type_by_name};
use crate::uses::Used;
use idl_input::{Begins, CollectionWord, IdlFault, Keyword, PlainWord, Tokens};
use std::alloc::Global;
use xt_annotations::{Note, Placed, Site};
use xt_lists::{OutOfMemory, Row};
use xt_shapes::{Prim, Try};

/// A collection whose inner type is being read: an element or a map's value, or a map's key.
#[derive(Clone, Copy, Drop)]
pub(crate) enum Open {
    Element,
    Key,
}

#[tactic(auto, unfolding(crate::specs::Types::unsigned_type))]
fn unsigned_type(tokens: &mut Tokens<'_>) -> Result<Prim, IdlFault>
    ensures { Reads prim (spec.unsigned_type tokens.old) result tokens.new }
{
    if tokens.eat(b"short") {
        return Ok(Prim::Uint16);
    }
    tokens.want(b"long")?;
    Ok(if tokens.eat(b"long") {
        Prim::Uint64
    } else {
        Prim::Uint32
    })
}

#[tactic(auto, unfolding(crate::specs::Types::long_type))]
fn long_type(tokens: &mut Tokens<'_>) -> Result<Prim, IdlFault>
    ensures { Reads prim (spec.long_type tokens.old) result tokens.new }
{
    Ok(if tokens.eat(b"long") {
        Prim::Int64
    } else {
        Prim::Int32
    })
}

/// The bound of a string.
#[tactic(auto, unfolding(crate::specs::Types::string_type))]
fn string_type(tokens: &mut Tokens<'_>) -> Result<u32, IdlFault>
    ensures { Reads str (spec.string_type tokens.old) result tokens.new }
{
    if !tokens.eat(b"<") {
        return Ok(0);
    }
    let bound = tokens.bound()?;
    tokens.want(b">")?;
    Ok(bound)
}

/// The bound of a collection, if it has one, and its end.
#[tactic(auto, unfolding(crate::specs::Types::last_bound))]
fn last_bound(tokens: &mut Tokens<'_>) -> Result<u32, IdlFault>
    ensures { Reads (λ x. x) (spec.last_bound tokens.old) result tokens.new }
{
    let bound = if tokens.eat(b",") { tokens.bound()? } else { 0 };
    tokens.want(b">")?;
    Ok(bound)
}

fn try_of(notes: &[Placed]) -> Try
    ensures { result ≡ spec.try_of notes.now }
{
    for placed in notes {
        if let Note::TryConstruct(tc) = &placed.note {
            return *tc;
        }
    }
    Try::Discard
}

#[tactic(auto, unfolding(crate::specs::Types::named_type))]
fn named_type<'a>(tokens: &mut Tokens<'a>, reader: &Reader<'a>) -> Result<Used, IdlFault>
    ensures { Reads (whole (state reader.now).types) (spec.named_type (state reader.now) tokens.old) result tokens.new }
{
    if tokens.sees_name() || tokens.sees(b"::") {
        type_by_name(tokens, reader)
    } else {
        Err(tokens.syntax())
    }
}

/// A type that is no collection.
#[tactic(auto, using(crate::proofs::Wholes::whole_rules, crate::proofs::TypeSteps::plain_begins))]
fn plain_type<'a>(
    tokens: &mut Tokens<'a>,
    reader: &Reader<'a>,
    keyword: Option<Keyword>,
) -> Result<Used, IdlFault>
    ensures { Reads (whole (state reader.now).types) (spec.plain_type (state reader.now) keyword tokens.old) result tokens.new }
{
    match Begins::of(keyword) {
        Begins::NoKeyword => named_type(tokens, reader),
        Begins::Plain(PlainWord::Simple(kind)) => {
            tokens.take();
            Ok(Used::Prim(kind))
        }
        Begins::Plain(PlainWord::Long) => {
            tokens.take();
            Ok(Used::Prim(long_type(tokens)?))
        }
        Begins::Plain(PlainWord::Unsigned) => {
            tokens.take();
            Ok(Used::Prim(unsigned_type(tokens)?))
        }
        Begins::Plain(PlainWord::Str) => {
            tokens.take();
            Ok(Used::Str(string_type(tokens)?))
        }
        Begins::Outside => Err(IdlFault::NotInProfile { at: tokens.place() }),
        Begins::Module | Begins::Definition(_) | Begins::Collection(_) | Begins::Nothing => {
            Err(tokens.syntax())
        }
    }
}

/// A box of a value.
pub fn boxed<T>(alloc: Global, value: T) -> Result<Box<T>, OutOfMemory>
where
    T: Drop,
    ensures { IfOk result (λ b. b.value ≡ value) }
{
    match Box::new(alloc, value) {
        Ok(b) => Ok(b),
        Err(_) => Err(OutOfMemory),
    }
}

#[cycle(types)]
#[tactic(auto, using(crate::proofs::Wholes::whole_rules), unfolding(crate::specs::Types::element))]
fn element<'a>(
    tokens: &mut Tokens<'a>,
    reader: &Reader<'a>,
    levels: usize,
) -> Result<(Try, Used), IdlFault>
    ensures { Reads (λ e. (e.0, whole (state reader.now).types e.1)) (spec.element (spec.type_to (state reader.now) levels) tokens.old) result tokens.new }
{
    let notes = tokens.notes_at(reader.alloc(), Site::Element)?;
    let used = type_to(tokens, reader, levels)?;
    Ok((try_of(notes.as_slice()), used))
}

#[cycle(types)]
#[tactic(auto, using(crate::proofs::Wholes::whole_rules), unfolding(crate::specs::Types::sequence_type))]
fn sequence_type<'a>(
    tokens: &mut Tokens<'a>,
    reader: &Reader<'a>,
    levels: usize,
) -> Result<Used, IdlFault>
    ensures { Reads (whole (state reader.now).types) (spec.sequence_type (spec.type_to (state reader.now) levels) tokens.old) result tokens.new }
{
    tokens.take();
    tokens.want(b"<")?;
    let (tc, elem) = element(tokens, reader, levels)?;
    let bound = last_bound(tokens)?;
    let elem = boxed(reader.alloc(), elem)?;
    Ok(Used::Seq { bound, tc, elem })
}

#[cycle(types)]
#[tactic(auto, using(crate::proofs::Wholes::whole_rules), unfolding(crate::specs::Types::map_type))]
fn map_type<'a>(
    tokens: &mut Tokens<'a>,
    reader: &Reader<'a>,
    levels: usize,
) -> Result<Used, IdlFault>
    ensures { Reads (whole (state reader.now).types) (spec.map_type (spec.type_to (state reader.now) levels) tokens.old) result tokens.new }
{
    tokens.take();
    tokens.want(b"<")?;
    let (key_tc, key) = element(tokens, reader, levels)?;
    tokens.want(b",")?;
    let (tc, value) = element(tokens, reader, levels)?;
    let bound = last_bound(tokens)?;
    let key = boxed(reader.alloc(), key)?;
    let value = boxed(reader.alloc(), value)?;
    Ok(Used::Map {
        bound,
        key_tc,
        key,
        tc,
        value,
    })
}

/// A type, of which that many levels of collections are kept.
#[cycle(types)]
#[tactic(auto, using(crate::proofs::TypeSteps::type_steps), unfolding(crate::specs::Types::type_to))]
fn type_to<'a>(
    tokens: &mut Tokens<'a>,
    reader: &Reader<'a>,
    levels: usize,
) -> Result<Used, IdlFault>
    ensures { Reads (whole (state reader.now).types) (spec.type_to (state reader.now) levels tokens.old) result tokens.new }
{
    let keyword = tokens.keyword();
    match Begins::of(keyword) {
        Begins::Collection(CollectionWord::Sequence) => {
            if levels == 0 {
                deep_type(tokens, reader)
            } else {
                sequence_type(tokens, reader, levels - 1)
            }
        }
        Begins::Collection(CollectionWord::Map) => {
            if levels == 0 {
                deep_type(tokens, reader)
            } else {
                map_type(tokens, reader, levels - 1)
            }
        }
        Begins::Module
        | Begins::Definition(_)
        | Begins::Plain(_)
        | Begins::Outside
        | Begins::Nothing
        | Begins::NoKeyword => plain_type(tokens, reader, keyword),
    }
}

#[tactic(auto, unfolding(crate::specs::Types::deep_type))]
fn deep_type<'a>(tokens: &mut Tokens<'a>, reader: &Reader<'a>) -> Result<Used, IdlFault>
    ensures { Reads (whole (state reader.now).types) (spec.deep_type (state reader.now) tokens.old) result tokens.new }
{
    pass(tokens, reader)?;
    Ok(Used::Prim(Prim::Boolean))
}

/// Begins a collection that is only passed over.
fn begin(tokens: &mut Tokens<'_>, alloc: Global) -> Result<(), IdlFault>
    ensures { Reads (λ x. x) (spec.begun tokens.old) result tokens.new }
{
    tokens.take();
    tokens.want(b"<")?;
    tokens.notes_at(alloc, Site::Element)?;
    Ok(())
}

/// Passes what follows an inner type, up to where another type is due. Whether all is closed.
#[tactic(auto, using(crate::proofs::TypeSteps::reverse_push))]
fn close(tokens: &mut Tokens<'_>, alloc: Global, begun: &mut Row<Open>) -> Result<bool, IdlFault>
    ensures { (due : List Open → Input → Result (Unit {0} × Input) IdlFault) → spec.Continues due (spec.closing due (reverse begun.old) tokens.old) result (reverse begun.new) tokens.new }
{
    while let Some(last) = begun.pop() {
        match last {
            Open::Element => {
                last_bound(tokens)?;
            }
            Open::Key => {
                tokens.want(b",")?;
                tokens.notes_at(alloc, Site::Element)?;
                begun.push(Open::Element)?;
                return Ok(false);
            }
        }
    }
    Ok(true)
}

/// Passes the type that is due, or the beginning of one in it. Whether all is closed.
#[tactic(auto, using(crate::proofs::TypeSteps::reverse_push, crate::proofs::TypeSteps::due_begins))]
fn step<'a>(
    tokens: &mut Tokens<'a>,
    reader: &Reader<'a>,
    begun: &mut Row<Open>,
) -> Result<bool, IdlFault>
    ensures { (due : List Open → Input → Result (Unit {0} × Input) IdlFault)
        → spec.Continues due (spec.due_by due (state reader.now) (reverse begun.old) (keyword_at tokens.old) tokens.old) result (reverse begun.new) tokens.new }
{
    let keyword = tokens.keyword();
    match Begins::of(keyword) {
        Begins::Collection(CollectionWord::Sequence) => {
            begin(tokens, reader.alloc())?;
            begun.push(Open::Element)?;
            Ok(false)
        }
        Begins::Collection(CollectionWord::Map) => {
            begin(tokens, reader.alloc())?;
            begun.push(Open::Key)?;
            Ok(false)
        }
        Begins::Module
        | Begins::Definition(_)
        | Begins::Plain(_)
        | Begins::Outside
        | Begins::Nothing
        | Begins::NoKeyword => {
            plain_type(tokens, reader, keyword)?;
            close(tokens, reader.alloc(), begun)
        }
    }
}

/// Passes over a type.
#[tactic(auto, using(crate::proofs::TypeSteps::due_go, crate::proofs::TypeSteps::due_end))]
fn pass<'a>(tokens: &mut Tokens<'a>, reader: &Reader<'a>) -> Result<(), IdlFault>
    ensures { Reads (λ x. x) (spec.due (state reader.now) (turns_of tokens.old) [] tokens.old) result tokens.new }
{
    let mut begun = Row::new(reader.alloc());
    for _turn in 0..tokens.left() {
        let is_over = step(tokens, reader, &mut begun)?;
        if is_over {
            return Ok(());
        }
    }
    Err(tokens.syntax())
}

/// A type where it is used. At most 17 levels of collections are kept, one more than a valid type may have: what is nested deeper is passed
/// over, and stands as a boolean.
pub fn a_type<'a>(tokens: &mut Tokens<'a>, reader: &Reader<'a>) -> Result<Used, IdlFault>
    ensures { Reads (whole (state reader.now).types) (spec.a_type (state reader.now) tokens.old) result tokens.new }
{
    type_to(tokens, reader, 17)
}
