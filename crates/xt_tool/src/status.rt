ghost use Rattle.std.specs.Prelude.{◌≡◌};
ghost use Rattle.xt_tool.specs.Statuses as spec;

use tool_runs::output::Status;

/// The status of what asks nothing over a net. None of it ends with `NetFault`: want of memory would be answered.
pub(crate) fn without_net(status: Status) -> Status
    ensures status { result ≡ spec.without_net status }
    ensures net { result ≡ Status.NetFault → ⊥ }
    ensures done { result ≡ Status.Done → status ≡ Status.Done }
    ensures read { result ≡ Status.ReadFault → status ≡ Status.ReadFault }
    ensures write { result ≡ Status.WriteFault → status ≡ Status.WriteFault }
{
    match status {
        Status::NetFault => Status::OutOfMemory,
        Status::Done => Status::Done,
        Status::No => Status::No,
        Status::Words => Status::Words,
        Status::Bundle => Status::Bundle,
        Status::ReadFault => Status::ReadFault,
        Status::WriteFault => Status::WriteFault,
        Status::OutOfMemory => Status::OutOfMemory,
        Status::Types => Status::Types,
        Status::NoName => Status::NoName,
        Status::Json => Status::Json,
        Status::Fetch => Status::Fetch,
        Status::Limit => Status::Limit,
    }
}
