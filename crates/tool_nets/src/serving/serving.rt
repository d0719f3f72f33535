//! Serving the objects of a bundle.
ghost use Rattle.std.specs.Prelude.{◌≡◌, ◌≤◌, Ok};
ghost use Rattle.std.specs.Io.KnownBytes.{IsAtEnd};
ghost use Rattle.type_object.specs.Names.{hash_of};
ghost use Rattle.tool_runs.specs.output.Runs.{Halts, HaltsWriting};
ghost use Rattle.tool_nets.specs.Nets.{EndsIn, net_of};
ghost use Rattle.tool_nets.specs.Opened.{Behind};
ghost use Rattle.tool_nets.specs.serving.Serving.{ServeAllows};

use crate::open_pool;
use crate::serving::doors::serve_net;
use crate::serving::lines::{say_clash, say_full, say_served};
use crate::serving::registering::{Unregistered, register_all};
use std::alloc::Global;
use std::thread::Threads;
use tool_runs::output::{Ending, Halt, Style};
use tool_runs::stopped;
use type_object::Pool;
use type_registry::{Md5Naming, Registry};
use xt_io::{Net, Sink, Source};
use xt_lists::Word;

/// Registers the objects of a pool, lets the pass of each worker know them, and serves them at so many doors of one address, so many links each:
/// a session on each link, the workers beside each other. Then it writes the line `sessions N`, N being workers times turns.
///
/// Where other octets stand under an identifier the line is `registry clash ID HEX`; where all cells of an identifier hold others, a line
/// `held ID HEX` for each and then `registry full ID`. Where the net or a door fails the line is `net-fault`. The doors are given back first.
pub fn serve_pool<R: Threads + Sync, K: Sink, N: Net>(
    rt: &R,
    alloc: Global,
    to: &Word,
    workers: u32,
    turns: u32,
    pool: &Pool,
    sink: &mut K,
    net: &mut N,
) -> Result<Ending, Halt>
    requires few { workers ≤ 64 }
    ensures output { EndsIn (ServeAllows hash_of to.now workers turns pool.now (net_of (N.faults net.old) (N.faults net.new) (N.address net.new) (N.heard net.new) (N.held net.new))) result (K.taken sink.old) (K.taken sink.new) }
    ensures halts { HaltsWriting (K.faults sink.old) (K.faults sink.new) result }
    ensures same { K.name sink.new ≡ K.name sink.old }
{
    let registry: Registry<Md5Naming> = Registry::new(alloc);
    match register_all(alloc, &registry, pool) {
        Ok(known) => {
            let served = serve_net(rt, alloc, &known, to, workers, turns, net);
            say_served(alloc, served, sink)
        }
        Err(Unregistered::Clash(finding)) => say_clash(alloc, &finding, sink),
        Err(Unregistered::Full { id, trail }) => say_full(alloc, id, &trail, sink),
        Err(Unregistered::OutOfMemory) => Err(Halt::OutOfMemory),
    }
}

/// Serves the objects of the types of a bundle without a body.
pub fn serve_at<R: Threads + Sync, S: Source, K: Sink, N: Net>(
    rt: &R,
    alloc: Global,
    to: &Word,
    workers: u32,
    turns: u32,
    input: &mut S,
    sink: &mut K,
    net: &mut N,
) -> Result<Ending, Halt>
    requires few { workers ≤ 64 }
    ensures output { EndsIn (Behind (S.left input.old) (λ pool. ServeAllows hash_of to.now workers turns pool (net_of (N.faults net.old) (N.faults net.new) (N.address net.new) (N.heard net.new) (N.held net.new)))) result (K.taken sink.old) (K.taken sink.new) }

    // A run that is done read its input to the end.
    ensures ended { result ≡ Ok Ending.Done → IsAtEnd (S.left input.new) }
    ensures halts { Halts (S.faults input.old) (S.faults input.new) (K.faults sink.old) (K.faults sink.new) result }
    ensures same { K.name sink.new ≡ K.name sink.old }
{
    match open_pool(alloc, input) {
        Ok(pool) => serve_pool(rt, alloc, to, workers, turns, &pool, sink, net),
        Err(stop) => stopped(alloc, Style::Lines, stop, sink),
    }
}
