ghost use Rattle.std.specs.Prelude.{◌≡◌, ◌≤◌, [], IfOk, length, map};
ghost use Rattle.std.specs.Option.{option_map};
ghost use Rattle.idl_types.specs.Definitions.{declared};
ghost use Rattle.object_formats.specs.View as view;
ghost use Rattle.type_object.specs.Pools.{added};
ghost use Rattle.tool_runs.specs.output.Runs.{Comes};
ghost use Rattle.xt_io.specs.Bundles.{limit_of};
ghost use Rattle.tool_runs.specs.front.Reading.{AreWithin};
ghost use Rattle.tool_types.specs.Types as spec;
ghost use Rattle.tool_types.specs.Declaring.{AllGood, AreIdentified, IsGood, declared_view, Leaves, Joins};
ghost use Rattle.tool_types.specs.Coming.{AllComeBack};

use crate::laws::declared_comes_back;
use crate::refusals::{refuse_idl, refuse_pool};
use idl_laws::parsed::parsed_is_printable;
use object_formats::TypeObject;
use resolve_laws::parsed::parsed_has_objects;
use std::alloc::Global;
use tool_runs::output::{Halt, Stop};
use type_object::Pool;
use type_resolve::{Identifiers, objects_declared};
use type_trees::HashId;
use type_values::copy_optional_text;
use xt_idl::{Declarations, declarations};
use xt_io::{Item, Kind};
use xt_lists::{OutOfMemory, Row, Text};

/// What a record of a front declares: the types of a text with their identifiers, or an object's identifier and its type's name.
#[derive(Drop)]
pub enum Declared {
    Types {
        types: Declarations,
        ids: Row<Identifiers>,
    },
    Object {
        id: HashId,
        name: Option<Text>,
    },
}

// Adds the objects of the types of a text, one type after another, and gives the identifiers.
#[tactic(auto, using(crate::proofs::Declares::together_added, crate::proofs::Declares::together_refused, crate::proofs::Declares::identified_together))]
fn with_objects(
    alloc: Global,
    number: u32,
    types: &Declarations,
    pool: &mut Pool,
) -> Result<Row<Identifiers>, Stop>
    ensures joins { Joins (spec.with_objects number pool.old (declared types.now)) result pool.new }
    ensures identified { IfOk result (AreIdentified (declared types.now)) }
{
    match objects_declared(alloc, types.as_slice(), pool) {
        Ok(ids) => Ok(ids),
        Err(fault) => Err(refuse_pool(alloc, number, fault)),
    }
}

fn declare_text(alloc: Global, number: u32, text: &[u8], pool: &mut Pool) -> Result<Declared, Stop>
    requires { length text.now ≤ 1048576 }
    ensures good { IfOk result IsGood }
    ensures declared { Leaves (spec.declared_as Kind.Idl number pool.old text.now) declared_view result pool.new }
{
    parsed_has_objects();
    parsed_is_printable();
    let types = match declarations(alloc, text) {
        Ok(types) => types,
        Err(fault) => return Err(refuse_idl(alloc, number, fault)),
    };
    match with_objects(alloc, number, &types, pool) {
        Ok(ids) => Ok(Declared::Types { types, ids }),
        Err(stop) => Err(stop),
    }
}

fn name_of(object: &TypeObject) -> &Option<Text>
    ensures { result.now ≡ spec.name_of (view.object object.now) }
{
    match object {
        TypeObject::Alias { name, .. }
        | TypeObject::Enum { name, .. }
        | TypeObject::Mask { name, .. }
        | TypeObject::Struct { name, .. }
        | TypeObject::Union { name, .. } => name,
    }
}

fn name_in(alloc: Global, object: Option<&TypeObject>) -> Result<Option<Text>, OutOfMemory>
    ensures { IfOk result (λ name. spec.name_in (option_map (λ o. view.object o.now) object.entry) ≡ name) }
{
    match object {
        Some(object) => copy_optional_text(alloc, name_of(object)),
        None => Ok(None),
    }
}

fn declare_object(
    alloc: Global,
    number: u32,
    octets: &[u8],
    pool: &mut Pool,
) -> Result<Declared, Stop>
    ensures good { IfOk result IsGood }
    ensures declared { Leaves (spec.object_added number (added pool.old octets.now)) declared_view result pool.new }
{
    let id = match pool.add(octets) {
        Ok(id) => id,
        Err(fault) => return Err(refuse_pool(alloc, number, fault)),
    };
    match name_in(alloc, pool.get(&id)) {
        Ok(name) => Ok(Declared::Object { id, name }),
        Err(_) => Err(Stop::Halted(Halt::OutOfMemory)),
    }
}

fn declare_record(
    alloc: Global,
    number: u32,
    item: &Item,
    pool: &mut Pool,
) -> Result<Declared, Stop>
    requires { length item.now.payload ≤ limit_of item.now.kind }
    ensures good { IfOk result IsGood }
    ensures declared { Leaves (spec.declared_by number pool.old item.now) declared_view result pool.new }
{
    match item.kind {
        Kind::Idl => declare_text(alloc, number, item.payload.octets(), pool),
        Kind::Object | Kind::Sample | Kind::Json | Kind::Note => {
            declare_object(alloc, number, item.payload.octets(), pool)
        }
    }
}

/// The types of the records of a front, in order, and the pool of their objects.
pub fn declare(alloc: Global, items: &[Item]) -> Result<(Row<Declared>, Pool), Stop>
    requires few { length items.now ≤ 1048576 }
    requires within { AreWithin items.now }
    ensures good { IfOk result (λ d. AllGood d.0) }
    ensures declared { Comes (spec.declare 0 [] items.now) (λ d. (map declared_view d.0, d.1)) result }
    ensures back { IfOk result (λ d. AllComeBack d.1 (map declared_view d.0)) }
{
    declared_comes_back();
    let mut records = Row::new(alloc);
    let mut pool = Pool::new(alloc);
    let mut number: u32 = 0;
    for item in items {
        match declare_record(alloc, number, item, &mut pool) {
            Ok(declared) => records.push(declared)?,
            Err(stop) => return Err(stop),
        }
        number += 1;
    }
    Ok((records, pool))
}
