ghost use Rattle.std.specs.Prelude.{◌≡◌};
ghost use Rattle.tool_runs.specs.output.Statuses as spec;

use crate::output::ending::{Cause, Ending};

/// How a run ended. Its number is the program's exit status.
#[derive(Debug, Clone, Copy, PartialEq, Eq)]
pub enum Status {
    /// All was done.
    Done,
    /// The reader's type is not assignable from the writer's; the last line names the rule. Or a version of types breaks something, as a line says.
    No,
    /// The words are no command.
    Words,
    /// The bundle is broken or holds what the command doesn't take.
    Bundle,
    /// The source failed.
    ReadFault,
    /// The sink failed.
    WriteFault,
    /// Memory was wanting.
    OutOfMemory,
    /// An IDL text, an object or a type is faulty.
    Types,
    /// No type has the name.
    NoName,
    /// The network failed.
    NetFault,
    /// A JSON value is faulty.
    Json,
    /// What was fetched was refused.
    Fetch,
    /// There are more instances than are kept.
    Limit,
}

fn status_of_cause(cause: Cause) -> Status
    ensures { result ≡ spec.status_of_cause cause }
{
    match cause {
        Cause::No => Status::No,
        Cause::Words => Status::Words,
        Cause::Bundle => Status::Bundle,
        Cause::Types => Status::Types,
        Cause::NoName => Status::NoName,
        Cause::NetFault => Status::NetFault,
        Cause::Json => Status::Json,
        Cause::Fetch => Status::Fetch,
        Cause::Limit => Status::Limit,
    }
}

/// The status of a run that neither the outside nor want of memory stopped.
#[tactic(auto, using(crate::proofs::OfOutput::Statuses::done_ends, crate::proofs::OfOutput::Statuses::no_read_fault, crate::proofs::OfOutput::Statuses::no_write_fault))]
pub fn status_of(ending: Ending) -> Status
    ensures status { result ≡ spec.status_of ending }
    ensures done { result ≡ Status.Done → ending ≡ Ending.Done }
    ensures read { result ≡ Status.ReadFault → ⊥ }
    ensures write { result ≡ Status.WriteFault → ⊥ }
{
    match ending {
        Ending::Done => Status::Done,
        Ending::Refused(cause) => status_of_cause(cause),
    }
}
