ghost use Rattle.std.specs.Prelude.{◌≡◌, ◌≤◌, ◌+◌, ◌∷◌, ◌||◌, List, Some, None, IfOk, IfSome, length, map, false};
ghost use Rattle.tool_runs.specs.output.Outputs.{unless_refused};
ghost use Rattle.tool_runs.specs.output.Runs.{Steps, StopsWriting, at_ending};
ghost use Rattle.tool_runs.specs.front.Reading.{AreWithin};
ghost use Rattle.tool_types.specs.Types as types;
ghost use Rattle.tool_types.specs.Coming.{AllComeBack, ComesBack};
ghost use Rattle.tool_types.specs.Declaring.{AllGood, IsGood, declared_view};
ghost use Rattle.tool_verdicts.specs.Versions as spec;
ghost use Rattle.tool_verdicts.specs.Versions.{Finding, compare_output};
ghost use Rattle.tool_verdicts.specs.Reports.{IsVersion, version_view};
ghost use Rattle.tool_commands.specs.Comparing.{remaining_on, remaining_under, telling_from, telling_on};

use std::alloc::Global;
use tool_runs::output::{Ending, Halt, Stop, Style};
use tool_runs::{Answers, say_pieces};
use tool_types::{Declared, declare};
use tool_verdicts::Terms;
use tool_verdicts::versions::{Progress, Version, between, ending_of};
use type_object::Pool;
use xt_idl::trees_of;
use xt_io::{Item, Sink};

/// What each version of the types changes for readers and writers of the one before. The texts of the front are the versions.
#[derive(Clone, Copy)]
pub struct Comparing {
    pub terms: Terms,
}

fn either(one: bool, other: bool) -> bool
    ensures { result ≡ (one || other) }
{
    one || other
}

// Writes what a version changes for the one before it, if there is one, and tells whether something breaks so far.
fn tell_version<K: Sink>(
    alloc: Global,
    terms: &Terms,
    pool: &Pool,
    progress: &Progress<'_>,
    newer: &Version<'_>,
    sink: &mut K,
) -> Result<bool, Stop>
    requires older { IfSome progress.now.older (IsVersion pool.now) }
    requires newer { IsVersion pool.now newer.now }
    ensures steps { (rest : List Finding) → Steps Style.Lines (Some (telling_from terms.now progress.now (version_view newer.now) rest)) (telling_on rest result) result (K.taken sink.old) (K.taken sink.new) }
    ensures stops { StopsWriting (K.faults sink.old) (K.faults sink.new) result }
    ensures same { K.name sink.new ≡ K.name sink.old }
{
    let Some(older) = &progress.older else {
        return Ok(progress.broke);
    };
    let Ok(report) = between(alloc, terms, pool, older, newer) else {
        return Err(Stop::Halted(Halt::OutOfMemory));
    };
    say_pieces(sink, report.text.octets())?;
    Ok(either(progress.broke, report.breaks))
}

// Takes the record of this number: a text is the next version, and an object is none.
fn tell_record<'a, K: Sink>(
    alloc: Global,
    terms: &Terms,
    pool: &Pool,
    number: u32,
    declared: &'a Declared,
    progress: Progress<'a>,
    sink: &mut K,
) -> Result<Progress<'a>, Stop>
    requires good { IsGood declared.now }
    requires back { ComesBack pool.now (declared_view declared.now) }
    requires older { IfSome progress.older (IsVersion pool.now) }
    ensures steps { (rest : List types.Declared) → Steps Style.Lines (Some (remaining_under terms.now progress.entry number (declared_view declared.now ∷ rest))) (remaining_on terms.now (number + 1) rest result) result (K.taken sink.old) (K.taken sink.new) }
    ensures older { IfOk result (λ p. IfSome p.older (IsVersion pool.now)) }
    ensures stops { StopsWriting (K.faults sink.old) (K.faults sink.new) result }
    ensures same { K.name sink.new ≡ K.name sink.old }
{
    match declared {
        Declared::Object { .. } => Ok(progress),
        Declared::Types { types, ids } => {
            let Ok(trees) = trees_of(alloc, types.as_slice()) else {
                return Err(Stop::Halted(Halt::OutOfMemory));
            };
            let newer = Version {
                number,
                types: trees,
                ids: ids.as_slice(),
            };
            let broke = tell_version(alloc, terms, pool, &progress, &newer, sink)?;
            Ok(progress.followed(newer, broke))
        }
    }
}

fn compare_all<K: Sink>(
    alloc: Global,
    terms: &Terms,
    records: &[Declared],
    pool: &Pool,
    sink: &mut K,
) -> Result<Ending, Stop>
    requires few { length records.now ≤ 1048576 }
    requires good { AllGood records.now }
    requires back { AllComeBack pool.now (map declared_view records.now) }
    ensures steps { Steps Style.Lines (Some (spec.telling false (spec.findings terms.now.policy terms.now.rep (spec.versions 0 (map declared_view records.now))))) (at_ending result) result (K.taken sink.old) (K.taken sink.new) }
    ensures stops { StopsWriting (K.faults sink.old) (K.faults sink.new) result }
    ensures same { K.name sink.new ≡ K.name sink.old }
{
    let mut progress = Progress {
        older: None,
        broke: false,
    };
    let mut number: u32 = 0;
    for declared in records {
        match tell_record(alloc, terms, pool, number, declared, progress, sink) {
            Ok(next) => progress = next,
            Err(stop) => return Err(stop),
        }
        number += 1;
    }
    Ok(ending_of(progress.broke))
}

impl Answers for Comparing {
    ghost use Rattle.tool_runs.specs.declared.output.ending.Style.TheVariants as styles;

    ghost style = { styles.Lines };

    ghost answered = { λ s records. compare_output s.terms.policy s.terms.rep records };

    fn writes() -> Style
        ensures { result ≡ Style.Lines }
    {
        Style::Lines
    }

    fn answer<K: Sink>(&self, alloc: Global, records: &[Item], sink: &mut K) -> Result<Ending, Stop>
        requires few { length records.now ≤ 1048576 }
        requires within { AreWithin records.now }
        ensures steps { Steps Style.Lines (Some (unless_refused Style.Lines (compare_output self.now.terms.policy self.now.terms.rep records.now))) (at_ending result) result (K.taken sink.old) (K.taken sink.new) }
        ensures stops { StopsWriting (K.faults sink.old) (K.faults sink.new) result }
        ensures same { K.name sink.new ≡ K.name sink.old }
    {
        let (declared, pool) = declare(alloc, records)?;
        compare_all(alloc, &self.terms, declared.as_slice(), &pool, sink)
    }
}
