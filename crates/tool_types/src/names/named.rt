ghost use Rattle.std.specs.Prelude.{◌≡◌, IfOk, IfSome, Ok, OnOk, map, true};
ghost use Rattle.std.specs.Option.{option_map};
ghost use Rattle.object_walks.specs.Resolving.{resolved};
ghost use Rattle.projection_laws.specs.Premises.{IsValid};
ghost use Rattle.type_trees.specs.samples.Tops.{is_top};
ghost use Rattle.type_trees.specs.View.{tree};
ghost use Rattle.type_trees.specs.Bridge.{type_shape};
ghost use Rattle.tool_runs.specs.output.Runs.{Comes};
ghost use Rattle.tool_words.specs.View.{reference_view};
ghost use Rattle.tool_types.specs.Declaring.{AllGood, declared_view};
ghost use Rattle.tool_types.specs.Coming.{AllComeBack};
ghost use Rattle.tool_types.specs.names.Names as spec;
ghost use Rattle.tool_types.specs.names.Identified.{hash_meant, id_named as named_id, IsBackMeant, Resolves};
ghost use Rattle.tool_types.specs.names.Meanings.{IsFound, IsSound, meaning_view, tree_of};

use crate::Declared;
use crate::names::meanings::{DeclaredType, Meaning, meant};
use crate::names::refusals::{refuse_name, refuse_top, refuse_walk};
use object_walks::resolve;
use std::alloc::Global;
use tool_runs::output::Stop;
use tool_words::Reference;
use type_object::Pool;
use type_trees::samples::is_top;
use type_trees::{HashId, XType};

/// A type that a word names, and the identifier that resolves to it: that of the type's complete object, where a text declares it.
#[derive(Drop)]
pub struct NamedType {
    pub ty: XType,
    pub id: HashId,
}

fn type_resolved(alloc: Global, id: HashId, pool: &Pool) -> Result<NamedType, Stop>
    ensures comes { Comes (spec.type_resolved id pool.now) (λ found. tree found.ty) result }
    ensures valid { IfOk result (λ found. IsValid found.ty) }
    ensures id { IfOk result (λ found. found.id ≡ id) }
{
    match resolve(alloc, pool, &id) {
        Ok(ty) => Ok(NamedType { ty, id }),
        Err(fault) => Err(refuse_walk(alloc, fault)),
    }
}

// A declared type comes back by its complete identifier.
fn type_declared(alloc: Global, declared: &DeclaredType<'_>, pool: &Pool) -> Result<NamedType, Stop>
    requires { resolved pool.now declared.now.ids.complete ≡ Ok (tree_of declared.now) }
    ensures comes { Comes (spec.as_declared (tree_of declared.now)) (λ found. tree found.ty) result }
    ensures valid { IfOk result (λ found. IsValid found.ty) }
    ensures id { IfOk result (λ found. found.id ≡ declared.now.ids.complete) }
{
    type_resolved(alloc, declared.ids.complete, pool)
}

fn type_meant(
    alloc: Global,
    word: &[u8],
    meaning: &Option<Meaning<'_>>,
    pool: &Pool,
) -> Result<NamedType, Stop>
    requires sound { IfSome meaning.now IsSound }
    requires back { IsBackMeant pool.now (option_map meaning_view meaning.now) }
    ensures comes { Comes (spec.type_meant word.now pool.now (option_map meaning_view meaning.now)) (λ found. tree found.ty) result }
    ensures valid { IfOk result (λ found. IsValid found.ty) }
    ensures id { IfOk result (λ found. hash_meant word.now (option_map meaning_view meaning.now) ≡ Ok found.id) }
{
    match meaning {
        None => Err(refuse_name(alloc, word)),
        Some(Meaning::Typed(declared)) => type_declared(alloc, declared, pool),
        Some(Meaning::Identified(id)) => type_resolved(alloc, *id, pool),
    }
}

/// The type that a word names.
pub fn type_named(
    alloc: Global,
    reference: &Reference<'_>,
    records: &[Declared],
    pool: &Pool,
) -> Result<NamedType, Stop>
    requires good { AllGood records.now }
    requires back { AllComeBack pool.now (map declared_view records.now) }
    ensures comes { Comes (spec.type_named (reference_view reference.now) (map declared_view records.now, pool.now)) (λ found. tree found.ty) result }
    ensures id { IfOk result (λ found. hash_meant (reference_view reference.now).word (spec.meant (reference_view reference.now).form (map declared_view records.now, pool.now)) ≡ Ok found.id) }
    ensures found { IfOk result (IsFound pool.now) }
{
    let meaning = meant(&reference.form, records, pool);
    type_meant(alloc, reference.word, &meaning, pool)
}

fn topped(alloc: Global, word: &[u8], ty: &XType) -> Result<(), Stop>
    ensures comes { Comes (spec.topped word.now (tree ty.now)) (λ u. u) result }
    ensures top { OnOk result (is_top (type_shape ty.now) ≡ true) }
{
    if is_top(ty) {
        Ok(())
    } else {
        Err(refuse_top(alloc, word))
    }
}

/// The structure or union that a word names.
pub fn top_named(
    alloc: Global,
    reference: &Reference<'_>,
    records: &[Declared],
    pool: &Pool,
) -> Result<NamedType, Stop>
    requires good { AllGood records.now }
    requires back { AllComeBack pool.now (map declared_view records.now) }
    ensures comes { Comes (spec.top_named (reference_view reference.now) (map declared_view records.now, pool.now)) (λ found. tree found.ty) result }
    ensures top { IfOk result (λ found. is_top (type_shape found.ty) ≡ true) }
    ensures id { IfOk result (λ found. hash_meant (reference_view reference.now).word (spec.meant (reference_view reference.now).form (map declared_view records.now, pool.now)) ≡ Ok found.id) }
    ensures found { IfOk result (IsFound pool.now) }
{
    let found = type_named(alloc, reference, records, pool)?;
    topped(alloc, reference.word, &found.ty)?;
    Ok(found)
}

/// The identifier of the structure or union that a word names. It has a type in the pool.
pub fn id_named(
    alloc: Global,
    reference: &Reference<'_>,
    records: &[Declared],
    pool: &Pool,
) -> Result<HashId, Stop>
    requires good { AllGood records.now }
    requires back { AllComeBack pool.now (map declared_view records.now) }
    ensures comes { Comes (named_id (reference_view reference.now) (map declared_view records.now, pool.now)) (λ id. id) result }
    ensures resolves { IfOk result (λ id. Resolves pool.now id) }
{
    let found = top_named(alloc, reference, records, pool)?;
    Ok(found.id)
}

fn both_topped(
    alloc: Global,
    reader: &Reference<'_>,
    writer: &Reference<'_>,
    types: &(NamedType, NamedType),
) -> Result<(), Stop>
    ensures { Comes (spec.both_topped (reference_view reader.now) (reference_view writer.now) (tree types.now.0.ty, tree types.now.1.ty)) (λ u. u) result }
{
    topped(alloc, reader.word, &types.0.ty)?;
    topped(alloc, writer.word, &types.1.ty)
}

fn both_named(
    alloc: Global,
    reader: &Reference<'_>,
    writer: &Reference<'_>,
    records: &[Declared],
    pool: &Pool,
) -> Result<(NamedType, NamedType), Stop>
    requires good { AllGood records.now }
    requires back { AllComeBack pool.now (map declared_view records.now) }
    ensures comes { Comes (spec.both_named (reference_view reader.now) (reference_view writer.now) (map declared_view records.now, pool.now)) (λ types. (tree types.0.ty, tree types.1.ty)) result }
    ensures found { IfOk result (λ types. IsFound pool.now types.0 × IsFound pool.now types.1) }
{
    let left = type_named(alloc, reader, records, pool)?;
    let right = type_named(alloc, writer, records, pool)?;
    Ok((left, right))
}

/// The structures or unions that a reader's word and a writer's name. Both are found before either is looked at.
pub fn pair_named(
    alloc: Global,
    reader: &Reference<'_>,
    writer: &Reference<'_>,
    records: &[Declared],
    pool: &Pool,
) -> Result<(NamedType, NamedType), Stop>
    requires good { AllGood records.now }
    requires back { AllComeBack pool.now (map declared_view records.now) }
    ensures comes { Comes (spec.pair_named (reference_view reader.now) (reference_view writer.now) (map declared_view records.now, pool.now)) (λ types. (tree types.0.ty, tree types.1.ty)) result }
    ensures found { IfOk result (λ types. IsFound pool.now types.0 × IsFound pool.now types.1) }
{
    let types = both_named(alloc, reader, writer, records, pool)?;
    both_topped(alloc, reader, writer, &types)?;
    Ok(types)
}
