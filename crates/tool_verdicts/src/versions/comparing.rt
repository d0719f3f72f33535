ghost use Rattle.std.specs.Prelude.{◌≡◌, Ok, IfOk, IfSome, OnOk, false, ◌||◌};
ghost use Rattle.std.specs.Option.{option_map};
ghost use Rattle.type_trees.specs.View.{tree};
ghost use Rattle.type_object.specs.Pools.{Texts};
ghost use Rattle.object_walks.specs.Resolving.{resolved};
ghost use Rattle.tool_types.specs.Coming.{ComeBack};
ghost use Rattle.tool_types.specs.Declaring.{AreIdentified};
ghost use Rattle.idl_types.specs.State as idl_types;
ghost use Rattle.tool_verdicts.specs.Versions as spec;
ghost use Rattle.tool_verdicts.specs.Reports.{IsVersion, Reports, lines_of, tree_of, version_view};

use crate::judging::{Side, Terms, verdict_on};
use crate::versions::changes::Change;
use crate::versions::lookup::{VersionType, type_by_name};
use crate::versions::reports::Report;
use std::alloc::Global;
use type_object::Pool;
use type_resolve::Identifiers;
use type_trees::samples::is_top;
use type_trees::{Named, XType};
use xt_lists::{OutOfMemory, Row};

/// A version of the types: the number of its record, and the types of its text beside their identifiers.
#[derive(Drop)]
pub struct Version<'a> {
    pub number: u32,
    pub types: Row<Named>,
    pub ids: &'a [Identifiers],
}

#[tactic(auto, using(type_trees::proofs::Views::tree_rules))]
fn is_nested(ty: &XType) -> bool
    ensures { result ≡ spec.is_nested (tree ty.now) }
{
    match ty {
        XType::Struct(kind) => kind.nested,
        XType::Union(kind) => kind.nested,
        XType::Alias(kind) => is_nested(&kind.ty),
        XType::Prim(_)
        | XType::Str(_)
        | XType::Enum(_)
        | XType::Mask(_)
        | XType::Seq(_)
        | XType::Array(_)
        | XType::Map(_) => false,
    }
}

// Whether samples may have the type at the top, and it isn't marked as nested.
fn is_compared(ty: &XType) -> bool
    ensures { result ≡ spec.is_compared (tree ty.now) }
{
    is_top(ty) && !is_nested(ty)
}

fn side_of<'a>(declared: &VersionType<'a>) -> Side<'a>
    ensures id { result.id ≡ declared.now.ids.complete }
    ensures ty { result.ty.now ≡ declared.now.named.now.ty }
{
    Side {
        id: declared.ids.complete,
        ty: &declared.named.ty,
    }
}

// What two versions of a type come to, both ways.
fn both_ways(
    alloc: Global,
    terms: &Terms,
    pool: &Pool,
    number: u32,
    older: &VersionType<'_>,
    newer: &VersionType<'_>,
    report: &mut Report,
) -> Result<(), OutOfMemory>
    requires older { resolved pool.now older.now.ids.complete ≡ Ok (tree_of older.now) }
    requires newer { resolved pool.now newer.now.ids.complete ≡ Ok (tree_of newer.now) }
    ensures { OnOk result (Reports report.old report.new (spec.found number older.now.named.now.name (spec.both_ways terms.now.policy terms.now.rep (tree_of newer.now) (tree_of older.now)))) }
{
    let name = older.named.name.octets();
    let (older, newer) = (side_of(older), side_of(newer));
    let backward = verdict_on(alloc, terms, pool, &newer, &older)?;
    report.push(alloc, number, name, &Change::Backward(backward))?;
    let forward = verdict_on(alloc, terms, pool, &older, &newer)?;
    report.push(alloc, number, name, &Change::Forward(forward))
}

// What becomes of a type of the older version, where the newer has this under its name.
fn became(
    alloc: Global,
    terms: &Terms,
    pool: &Pool,
    number: u32,
    older: &VersionType<'_>,
    newer: &Option<VersionType<'_>>,
    report: &mut Report,
) -> Result<(), OutOfMemory>
    requires older { resolved pool.now older.now.ids.complete ≡ Ok (tree_of older.now) }
    requires newer { IfSome newer.now (λ it. resolved pool.now it.ids.complete ≡ Ok (tree_of it)) }
    ensures { OnOk result (Reports report.old report.new (spec.found number older.now.named.now.name (spec.became terms.now.policy terms.now.rep (tree_of older.now) (option_map tree_of newer.now)))) }
{
    match newer {
        Some(newer) => {
            if is_top(&newer.named.ty) {
                both_ways(alloc, terms, pool, number, older, newer, report)
            } else {
                report.push(alloc, number, older.named.name.octets(), &Change::Gone)
            }
        }
        None => report.push(alloc, number, older.named.name.octets(), &Change::Gone),
    }
}

fn of_older(
    alloc: Global,
    terms: &Terms,
    pool: &Pool,
    older: &VersionType<'_>,
    newer: &Version<'_>,
    report: &mut Report,
) -> Result<(), OutOfMemory>
    requires older { resolved pool.now older.now.ids.complete ≡ Ok (tree_of older.now) }
    requires newer { IsVersion pool.now newer.now }
    ensures { OnOk result (Reports report.old report.new (spec.of_older terms.now.policy terms.now.rep (version_view newer.now) (older.now.named.now.name, tree_of older.now))) }
{
    if is_compared(&older.named.ty) {
        let found = type_by_name(older.named.name.octets(), newer.types.as_slice(), newer.ids);
        became(alloc, terms, pool, newer.number, older, &found, report)
    } else {
        Ok(())
    }
}

// Of each type of the older version.
fn of_each_older(
    alloc: Global,
    terms: &Terms,
    pool: &Pool,
    older: &Version<'_>,
    newer: &Version<'_>,
    report: &mut Report,
) -> Result<(), OutOfMemory>
    requires older { IsVersion pool.now older.now }
    requires newer { IsVersion pool.now newer.now }
    ensures { OnOk result (Reports report.old report.new (spec.each (spec.of_older terms.now.policy terms.now.rep (version_view newer.now)) (idl_types.declared older.now.types))) }
{
    let (types, ids) = (older.types.as_slice(), older.ids);
    for (at, named) in types.iter().enumerate() {
        let ids = ids[at];
        of_older(
            alloc,
            terms,
            pool,
            &VersionType { named, ids },
            newer,
            report,
        )?;
    }
    Ok(())
}

fn of_newer(
    alloc: Global,
    number: u32,
    older: &Version<'_>,
    named: &Named,
    report: &mut Report,
) -> Result<(), OutOfMemory>
    requires { AreIdentified (idl_types.declared older.now.types) older.now.ids.now }
    ensures { OnOk result (Reports report.old report.new (spec.of_newer number (idl_types.declared older.now.types) (named.now.name, tree named.now.ty))) }
{
    if !is_compared(&named.ty) {
        return Ok(());
    }
    match type_by_name(named.name.octets(), older.types.as_slice(), older.ids) {
        Some(_) => Ok(()),
        None => report.push(alloc, number, named.name.octets(), &Change::New),
    }
}

// Of each type of the newer version.
fn of_each_newer(
    alloc: Global,
    older: &Version<'_>,
    newer: &Version<'_>,
    report: &mut Report,
) -> Result<(), OutOfMemory>
    requires { AreIdentified (idl_types.declared older.now.types) older.now.ids.now }
    ensures { OnOk result (Reports report.old report.new (spec.each (spec.of_newer newer.now.number (idl_types.declared older.now.types)) (idl_types.declared newer.now.types))) }
{
    let types = newer.types.as_slice();
    for named in types {
        of_newer(alloc, newer.number, older, named, report)?;
    }
    Ok(())
}

/// What a version of the types changes for readers and writers of the one before: for each structure and union of the older version, in order,
/// how the newer reads its samples and the older the newer's, or that it is gone; and then each that is new. It reads and writes nothing.
pub fn between(
    alloc: Global,
    terms: &Terms,
    pool: &Pool,
    older: &Version<'_>,
    newer: &Version<'_>,
) -> Result<Report, OutOfMemory>
    requires older { IsVersion pool.now older.now }
    requires newer { IsVersion pool.now newer.now }
    ensures text { IfOk result (λ report. report.text ≡ lines_of (spec.between terms.now.policy terms.now.rep (version_view older.now) (version_view newer.now))) }
    ensures breaks { IfOk result (λ report. report.breaks ≡ spec.any_breaks (spec.between terms.now.policy terms.now.rep (version_view older.now) (version_view newer.now))) }
{
    let mut report = Report::new(alloc);
    of_each_older(alloc, terms, pool, older, newer, &mut report)?;
    of_each_newer(alloc, older, newer, &mut report)?;
    Ok(report)
}
