ghost use Rattle.std.specs.Prelude.{◌≡◌, IfOk, OnOk};
ghost use Rattle.tool_types.specs.Types as spec;
ghost use Rattle.tool_types.specs.Declaring.{RefusesTypes, IdlStops, IsRefusal};

use idl_input::IdlFault;
use object_formats::{Fault, ObjectRule};
use std::alloc::Global;
use tool_runs::output::{Cause, Halt, Refused, Stop};
use type_object::PoolFault;
use type_trees::HashId;
use xt_lists::{OutOfMemory, Text};

/// A refusal of the types.
pub fn refuse_types(text: Result<Text, OutOfMemory>) -> Stop
    ensures { RefusesTypes text result }
{
    match text {
        Ok(text) => Stop::Refused(Refused {
            text,
            cause: Cause::Types,
        }),
        Err(_) => Stop::Halted(Halt::OutOfMemory),
    }
}

// The line of a fault of record `number`'s text.
fn idl_line(alloc: Global, number: u32, fault: &IdlFault) -> Result<Text, OutOfMemory>
    ensures text { IfOk result (λ text. text ≡ spec.idl_fault_text number fault.now) }
    ensures want { fault.now ≡ IdlFault.OutOfMemory → OnOk result ⊥ }
{
    if let IdlFault::OutOfMemory = fault {
        return Err(OutOfMemory);
    }
    let text = format!(in alloc; "idl {number} {fault}")?;
    Text::from_octets(alloc, text.as_bytes())
}

/// The refusal of a faulty text of record `number`.
pub fn refuse_idl(alloc: Global, number: u32, fault: IdlFault) -> Stop
    ensures { IdlStops number fault result }
{
    refuse_types(idl_line(alloc, number, &fault))
}

fn object_line(alloc: Global, number: u32, at: u32, rule: ObjectRule) -> Result<Text, OutOfMemory>
    ensures { IfOk result (λ text. text ≡ spec.object_text number at rule) }
{
    let text = format!(in alloc; "object {number} {at} {rule}")?;
    Text::from_octets(alloc, text.as_bytes())
}

fn clash_line(alloc: Global, id: &HashId) -> Result<Text, OutOfMemory>
    ensures { IfOk result (λ text. text ≡ spec.clash_text id.now) }
{
    let text = format!(in alloc; "pool clash {id}")?;
    Text::from_octets(alloc, text.as_bytes())
}

/// The refusal of an object's text of record `number`.
pub fn refuse_pool(alloc: Global, number: u32, fault: PoolFault) -> Stop
    ensures { IsRefusal number fault result }
{
    match fault {
        PoolFault::Object(Fault { at, rule }) => refuse_types(object_line(alloc, number, at, rule)),
        PoolFault::Clash(id) => refuse_types(clash_line(alloc, &id)),
        PoolFault::Full => refuse_types(Text::from_octets(alloc, b"pool full")),
        PoolFault::OutOfMemory => Stop::Halted(Halt::OutOfMemory),
    }
}
