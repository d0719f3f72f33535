ghost use Rattle.std.specs.Prelude.{◌≡◌, ◌≤◌, Ok, IfOk, length, map, true};
ghost use Rattle.type_trees.specs.View.{tree};
ghost use Rattle.type_trees.specs.Bridge.{type_shape};
ghost use Rattle.projection_laws.specs.Premises.{IsValid};
ghost use Rattle.tool_runs.specs.output.Runs.{Comes, Refuses};
ghost use Rattle.tool_runs.specs.front.Reading.{AreWithin};
ghost use Rattle.tool_samples.specs.lines.Lines as lines;
ghost use Rattle.tool_words.specs.View.{pair_view, reference_view};
ghost use Rattle.tool_types.specs.names.Identified.{Resolves};
ghost use Rattle.type_trees.specs.samples.Tops.{is_top};
ghost use Rattle.tool_types.specs.Declaring.{AllGood, declared_view};
ghost use Rattle.tool_types.specs.Coming.{AllComeBack};
ghost use Rattle.tool_types.specs.names.Meanings.{IsFound};
ghost use Rattle.tool_verdicts.specs.Verdicts as spec;

use crate::judging::{Side, Terms, verdict_on};
use assignability::Verdict;
use std::alloc::Global;
use tool_runs::output::{Cause, Halt, Refused, Stop};
use tool_samples::lines::no_text;
use tool_types::names::{NamedType, id_named, pair_named, top_named};
use tool_types::{Declared, declare};
use tool_words::{Pair, Reference};
use type_object::Pool;
use type_trees::{HashId, Path, XType};
use xcdr_model::Rule;
use xt_io::Item;

// A type that a word names, as one side of a verdict.
fn side_of(found: &NamedType) -> Side<'_>
    ensures id { result.id ≡ found.now.id }
    ensures ty { result.ty.now ≡ found.now.ty }
{
    Side {
        id: found.id,
        ty: &found.ty,
    }
}

fn refuse_rule(alloc: Global, rule: Rule, path: &Path) -> Stop
    ensures { Refuses (lines.no_refusal rule path.now) result }
{
    match no_text(alloc, rule, path) {
        Ok(text) => Stop::Refused(Refused {
            text,
            cause: Cause::No,
        }),
        Err(_) => Stop::Halted(Halt::OutOfMemory),
    }
}

fn judged(
    alloc: Global,
    pair: &Pair<'_>,
    pool: &Pool,
    types: &(NamedType, NamedType),
) -> Result<(), Stop>
    requires { IsFound pool.now types.now.0 × IsFound pool.now types.now.1 }
    ensures { Comes (lines.judged pair.now.policy pair.now.rep (tree types.now.0.ty) (tree types.now.1.ty)) (λ u. u) result }
{
    let terms = Terms {
        rep: pair.rep,
        policy: pair.policy,
    };
    match verdict_on(alloc, &terms, pool, &side_of(&types.0), &side_of(&types.1)) {
        Ok(Verdict::Yes) => Ok(()),
        Ok(Verdict::No { rule, path }) => Err(refuse_rule(alloc, rule, &path)),
        Err(_) => Err(Stop::Halted(Halt::OutOfMemory)),
    }
}

/// The reader's type of a pair that words name, where it is assignable from the writer's. It reads and writes nothing.
pub fn assignable(
    alloc: Global,
    pair: &Pair<'_>,
    records: &[Declared],
    pool: &Pool,
) -> Result<XType, Stop>
    requires good { AllGood records.now }
    requires back { AllComeBack pool.now (map declared_view records.now) }
    ensures comes { Comes (spec.assignable (pair_view pair.now) (map declared_view records.now, pool.now)) tree result }
    ensures valid { IfOk result IsValid }
{
    let types = pair_named(alloc, &pair.reader, &pair.writer, records, pool)?;
    judged(alloc, pair, pool, &types)?;
    Ok(types.0.ty)
}

/// The reader's type of a pair that words name among what the records of a front declare, where it is assignable from the writer's. It
/// reads and writes nothing.
pub fn reader_type(alloc: Global, pair: &Pair<'_>, records: &[Item]) -> Result<XType, Stop>
    requires few { length records.now ≤ 1048576 }
    requires within { AreWithin records.now }
    ensures comes { Comes (spec.reader_type (pair_view pair.now) records.now) tree result }
    ensures valid { IfOk result IsValid }
{
    let (declared, pool) = declare(alloc, records)?;
    assignable(alloc, pair, declared.as_slice(), &pool)
}

/// The structure or union that a word names among what the records of a front declare. It reads and writes nothing.
pub fn top_type(alloc: Global, reference: &Reference<'_>, records: &[Item]) -> Result<XType, Stop>
    requires few { length records.now ≤ 1048576 }
    requires within { AreWithin records.now }
    ensures comes { Comes (spec.top_type (reference_view reference.now) records.now) tree result }
    ensures valid { IfOk result IsValid }
{
    let (declared, pool) = declare(alloc, records)?;
    let found = top_named(alloc, reference, declared.as_slice(), &pool)?;
    Ok(found.ty)
}

/// The structure or union that a word names among what the records of a front declare, with the pool of their objects, in which its identifier
/// resolves to it. It reads and writes nothing.
pub fn top_and_pool(
    alloc: Global,
    reference: &Reference<'_>,
    records: &[Item],
) -> Result<(NamedType, Pool), Stop>
    requires few { length records.now ≤ 1048576 }
    requires within { AreWithin records.now }
    ensures comes { Comes (spec.top_and_pool (reference_view reference.now) records.now) (λ found. (tree found.0.ty, found.1)) result }
    ensures found { IfOk result (λ found. IsFound found.1 found.0) }
    ensures top { IfOk result (λ found. is_top (type_shape found.0.ty) ≡ true) }
{
    let (declared, pool) = declare(alloc, records)?;
    let found = top_named(alloc, reference, declared.as_slice(), &pool)?;
    Ok((found, pool))
}

/// The identifier of the structure or union that a word names among what the records of a front declare, with the pool of their objects, in
/// which it has a type. It reads and writes nothing.
pub fn id_and_pool(
    alloc: Global,
    reference: &Reference<'_>,
    records: &[Item],
) -> Result<(HashId, Pool), Stop>
    requires few { length records.now ≤ 1048576 }
    requires within { AreWithin records.now }
    ensures comes { Comes (spec.id_and_pool (reference_view reference.now) records.now) (λ found. (found.0, found.1)) result }
    ensures resolves { IfOk result (λ found. Resolves found.1 found.0) }
{
    let (declared, pool) = declare(alloc, records)?;
    let id = id_named(alloc, reference, declared.as_slice(), &pool)?;
    Ok((id, pool))
}
