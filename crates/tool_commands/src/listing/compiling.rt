ghost use Rattle.std.specs.Prelude.{◌≡◌, ◌≤◌, [], ◌∷◌, Some, None, OnOk, length, map};
ghost use Rattle.type_resolve.specs.Adding.{all_added};
ghost use Rattle.type_resolve.specs.Definitions.{types_texts};
ghost use Rattle.idl_types.specs.Definitions.{declared};
ghost use Rattle.tool_runs.specs.output.Outputs.{Output, after_pieces, finished, unless_refused};
ghost use Rattle.xt_io.specs.Records.{record_octets};
ghost use Rattle.tool_runs.specs.output.Runs.{Steps, StopsWriting};
ghost use Rattle.tool_runs.specs.front.Reading.{AreWithin};
ghost use Rattle.tool_runs.specs.Commands.{answer_to, only};
ghost use Rattle.tool_types.specs.Declaring.{AllGood, IsGood, declared_view};
ghost use Rattle.tool_commands.specs.listing.Listing as spec;

use std::alloc::Global;
use tool_runs::output::{Ending, Halt, Stop, Style, record};
use tool_runs::{Answers, say_pieces};
use tool_types::{Declared, declare};
use type_object::Pool;
use type_resolve::objects_declared;
use xt_idl::Declarations;
use xt_io::{Item, Kind, Sink};
use xt_lists::OutOfMemory;

/// The objects of the types that texts declare, each as a record: what stands inside a type first, of each type the minimal object before
/// the complete one, and each object once.
#[derive(Debug, Clone, Copy)]
pub struct Compiling;

// The types' objects are in the pool of the front already, so no text is refused here.
fn add_types(alloc: Global, types: &Declarations, pool: &mut Pool) -> Result<(), OutOfMemory>
    ensures { OnOk result (all_added pool.old (types_texts (declared types.now)) ≡ (pool.new, None)) }
{
    match objects_declared(alloc, types.as_slice(), pool) {
        Ok(_) => Ok(()),
        Err(_) => Err(OutOfMemory),
    }
}

fn add_record(alloc: Global, declared: &Declared, pool: &mut Pool) -> Result<(), OutOfMemory>
    requires { IsGood declared.now }
    ensures { OnOk result (all_added pool.old (spec.texts_in (declared_view declared.now)) ≡ (pool.new, None)) }
{
    match declared {
        Declared::Types { types, .. } => add_types(alloc, types, pool),
        Declared::Object { .. } => Ok(()),
    }
}

fn add_all(alloc: Global, records: &[Declared], pool: &mut Pool) -> Result<(), OutOfMemory>
    requires { AllGood records.now }
    ensures { OnOk result (all_added pool.old (spec.all_texts (map declared_view records.now)) ≡ (pool.new, None)) }
{
    for declared in records {
        match add_record(alloc, declared, pool) {
            Ok(()) => {}
            Err(_) => return Err(OutOfMemory),
        }
    }
    Ok(())
}

fn write_object<K: Sink>(alloc: Global, octets: &[u8], sink: &mut K) -> Result<(), Stop>
    ensures steps { (rest : Output) → Steps Style.Records (Some (after_pieces (record_octets Kind.Object octets.now ∷ []) rest)) (Some rest) result (K.taken sink.old) (K.taken sink.new) }
    ensures stops { StopsWriting (K.faults sink.old) (K.faults sink.new) result }
    ensures same { K.name sink.new ≡ K.name sink.old }
{
    match record(alloc, Kind::Object, octets) {
        Ok(piece) => say_pieces(sink, piece.octets()),
        Err(_) => Err(Stop::Halted(Halt::OutOfMemory)),
    }
}

fn write_objects<K: Sink>(alloc: Global, pool: &Pool, sink: &mut K) -> Result<(), Stop>
    ensures steps { Steps Style.Records (Some (only (map spec.object_record pool.now))) (Some finished) result (K.taken sink.old) (K.taken sink.new) }
    ensures stops { StopsWriting (K.faults sink.old) (K.faults sink.new) result }
    ensures same { K.name sink.new ≡ K.name sink.old }
{
    for index in 0..pool.len() {
        let entry = pool.at(index);
        match write_object(alloc, entry.octets, sink) {
            Ok(()) => {}
            Err(stop) => return Err(stop),
        }
    }
    Ok(())
}

fn is_text(declared: &Declared) -> bool
    ensures { result ≡ spec.is_text (declared_view declared.now) }
{
    match declared {
        Declared::Types { .. } => true,
        Declared::Object { .. } => false,
    }
}

fn are_texts(records: &[Declared]) -> bool
    ensures { result ≡ spec.are_texts (map declared_view records.now) }
{
    for declared in records {
        if !is_text(declared) {
            return false;
        }
    }
    true
}

/// Of texts alone, the pool of their front has what is compiled, in order.
fn front_has_compiled()
    ensures { spec.FrontHasCompiled }
{}

// Where objects are among the records, those of the texts go into a pool of their own.
fn compile_texts<K: Sink>(alloc: Global, records: &[Declared], sink: &mut K) -> Result<(), Stop>
    requires { AllGood records.now }
    ensures steps { Steps Style.Records (Some (only (map spec.object_record (all_added [] (spec.all_texts (map declared_view records.now))).0))) (Some finished) result (K.taken sink.old) (K.taken sink.new) }
    ensures stops { StopsWriting (K.faults sink.old) (K.faults sink.new) result }
    ensures same { K.name sink.new ≡ K.name sink.old }
{
    let mut pool = Pool::new(alloc);
    match add_all(alloc, records, &mut pool) {
        Ok(()) => write_objects(alloc, &pool, sink),
        Err(_) => Err(Stop::Halted(Halt::OutOfMemory)),
    }
}

fn compile_all<K: Sink>(
    alloc: Global,
    records: &[Declared],
    pool: &Pool,
    sink: &mut K,
) -> Result<(), Stop>
    requires good { AllGood records.now }
    requires front { spec.HasCompiled (map declared_view records.now, pool.now) }
    ensures steps { Steps Style.Records (Some (only (map spec.object_record (all_added [] (spec.all_texts (map declared_view records.now))).0))) (Some finished) result (K.taken sink.old) (K.taken sink.new) }
    ensures stops { StopsWriting (K.faults sink.old) (K.faults sink.new) result }
    ensures same { K.name sink.new ≡ K.name sink.old }
{
    if are_texts(records) {
        write_objects(alloc, pool, sink)
    } else {
        compile_texts(alloc, records, sink)
    }
}

impl Answers for Compiling {
    ghost use Rattle.tool_runs.specs.declared.output.ending.Style.TheVariants as styles;
    ghost use Rattle.tool_commands.specs.listing.Listing.{compile_records};

    ghost style = { styles.Records };

    ghost answered = { λ s records. answer_to compile_records records };

    fn writes() -> Style {
        Style::Records
    }

    fn answer<K: Sink>(
        &self,
        alloc: Global,
        records: &[Item],
        sink: &mut K,
    ) -> Result<Ending, Stop> {
        front_has_compiled();
        let (declared, pool) = declare(alloc, records)?;
        compile_all(alloc, declared.as_slice(), &pool, sink)?;
        Ok(Ending::Done)
    }
}
