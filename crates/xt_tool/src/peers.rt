//! Commands over a net, whose peers have a say in the output.
ghost use Rattle.std.specs.Prelude.{◌≡◌, Ok};
ghost use Rattle.std.specs.Io.KnownBytes.{IsAtEnd};
ghost use Rattle.xt_io.specs.Outside.{Rose};
ghost use Rattle.tool_runs.specs.output.Runs.{Halts};
ghost use Rattle.tool_nets.specs.Nets.{EndsIn, net_of};
ghost use Rattle.tool_words.specs.View.{net_view};
ghost use Rattle.xt_tool.specs.Nets as spec;
ghost use Rattle.xt_tool.specs.Nets.{Allowed, AnswersOverNet, LeavesBundle, ReadsBundle};

use crate::answering::read_fault;
use std::alloc::Global;
use std::thread::Threads;
use tool_nets::clients::{fetch_from, mirror_to};
use tool_nets::serving::serve_at;
use tool_runs::output::{Ending, Halt, Status, Style, status_of};
use tool_words::NetCommand;
use xt_io::{Net, Sink, Source, write_whole};

fn net_style(asked: &NetCommand<'_>) -> Style
    ensures { result ≡ spec.net_style (net_view asked.now) }
{
    match asked {
        NetCommand::Fetch(..) => Style::Records,
        NetCommand::Serve(..) | NetCommand::Mirror(_) => Style::Lines,
    }
}

// Does what is asked, up to a halt, of which nothing is written yet.
fn run_net<R: Threads + Sync, S: Source, K: Sink, N: Net>(
    rt: &R,
    alloc: Global,
    asked: NetCommand<'_>,
    input: &mut S,
    output: &mut K,
    net: &mut N,
) -> Result<Ending, Halt>
    ensures output { EndsIn (Allowed (net_view asked.entry) (S.left input.old) (net_of (N.faults net.old) (N.faults net.new) (N.address net.new) (N.heard net.new) (N.held net.new))) result (K.taken output.old) (K.taken output.new) }
    ensures ended { result ≡ Ok Ending.Done → ReadsBundle (net_view asked.entry) → IsAtEnd (S.left input.new) }
    ensures left { LeavesBundle (net_view asked.entry) → (S.left input.new ≡ S.left input.old) × (S.faults input.new ≡ S.faults input.old) }
    ensures halts { Halts (S.faults input.old) (S.faults input.new) (K.faults output.old) (K.faults output.new) result }
    ensures same { K.name output.new ≡ K.name output.old }
{
    match asked {
        NetCommand::Serve(to, service) => serve_at(
            rt,
            alloc,
            to,
            service.workers,
            service.turns,
            input,
            output,
            net,
        ),
        NetCommand::Fetch(to, asked) => fetch_from(alloc, to, asked.id, output, net),
        NetCommand::Mirror(to) => mirror_to(alloc, to, input, output, net),
    }
}

/// Does what is asked of peers, or lets them ask, and answers the status.
#[tactic(auto, using(crate::proofs::NetEnds::ends, crate::proofs::NetEnds::halts_in, crate::proofs::NetEnds::wants_in, crate::proofs::NetEnds::tells, crate::proofs::NetEnds::tells_part, crate::proofs::NetEnds::net_failed))]
pub(crate) fn answer_over_net<R: Threads + Sync, S: Source, K: Sink, N: Net>(
    rt: &R,
    alloc: Global,
    asked: NetCommand<'_>,
    input: &mut S,
    output: &mut K,
    net: &mut N,
) -> Status
    ensures net { AnswersOverNet (net_view asked.entry) (S.left input.old) (net_of (N.faults net.old) (N.faults net.new) (N.address net.new) (N.heard net.new) (N.held net.new)) result (S.faults input.old) (S.faults input.new) (K.taken output.old) (K.taken output.new) }
    ensures net_fault { result ≡ Status.NetFault → Rose (N.faults net.old) (N.faults net.new) }
    ensures ended { result ≡ Status.Done → ReadsBundle (net_view asked.entry) → IsAtEnd (S.left input.new) }
    ensures left { LeavesBundle (net_view asked.entry) → (S.left input.new ≡ S.left input.old) × (S.faults input.new ≡ S.faults input.old) }
    ensures read { result ≡ Status.ReadFault → Rose (S.faults input.old) (S.faults input.new) }
    ensures write { result ≡ Status.WriteFault → Rose (K.faults output.old) (K.faults output.new) }
{
    let style = net_style(&asked);
    match run_net(rt, alloc, asked, input, output, net) {
        Ok(ending) => status_of(ending),
        Err(Halt::ReadFault) => match write_whole(output, read_fault(style)) {
            Ok(()) => Status::ReadFault,
            Err(_) => Status::WriteFault,
        },
        Err(Halt::WriteFault) => Status::WriteFault,
        Err(Halt::OutOfMemory) => Status::OutOfMemory,
    }
}
