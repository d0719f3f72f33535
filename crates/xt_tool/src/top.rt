ghost use Rattle.std.specs.Prelude.{◌≡◌, None, IfSome};
ghost use Rattle.std.specs.Io.KnownBytes.{IsAtEnd};
ghost use Rattle.xt_io.specs.Outside.{Rose};
ghost use Rattle.tool_nets.specs.Nets.{net_of};
ghost use Rattle.tool_words.specs.Words.{command_of, net_command_of};
ghost use Rattle.tool_samples.specs.instances.Laws.{KeepsLast};
ghost use Rattle.xt_tool.specs.Completeness.{Completeness};
ghost use Rattle.xt_tool.specs.Headline.{Headline, Refused};
ghost use Rattle.xt_tool.specs.Leaving.{IsAnswer, LeavesInput};
ghost use Rattle.xt_tool.specs.Nets.{AnswersIfNet, InputIsLeft, ReadsInput};
ghost use Rattle.xt_tool.specs.Output.{unread_output};
ghost use Rattle.xt_tool.specs.Statuses.{AnswersAlone, WritesUnread};

use crate::answering::answer_alone;
use crate::laws::{complete, headline, refused};
use crate::peers::answer_over_net;
use std::alloc::Global;
use std::thread::Threads;
use tool_runs::output::Status;
use tool_samples::instances::keeps_last;
use tool_words::net_command_of;
use xt_io::{Net, Sink, Source};
use xt_lists::Word;

/// Does what the words ask, and answers the status.
pub fn xt<R: Threads + Sync, S: Source, K: Sink, N: Net>(
    rt: &R,
    alloc: Global,
    words: &[Word],
    input: &mut S,
    output: &mut K,
    net: &mut N,
) -> Status
    // Where `read`'s types are assignable, the line of each sample that spells a value of the writer's type is that of its projection.
    ensures headline { Headline }
    // Where they aren't, one line names the first rule that fails.
    ensures refused { Refused }
    // With nothing wrong in its input, a command that asks nothing over the net is done; or ends with No or Limit, exactly where the law says.
    ensures complete { Completeness }
    // What `instances` writes of a body is, of each key, the last values.
    ensures keeps { KeepsLast }
    // Where nothing is asked over the net and the source tells its octets, the text is the output of the words on them, whole; or a beginning
    // of it, by the status.
    ensures output { net_command_of words.now ≡ None → AnswersAlone words.now (S.left input.old) result (S.faults input.old) (S.faults input.new) (K.taken output.old) (K.taken output.new) }
    // Where something is, the text is an output that is allowed by what the net tells then, whole; or a beginning of it, by the status.
    ensures net { AnswersIfNet words.now (S.left input.old) (net_of (N.faults net.old) (N.faults net.new) (N.address net.new) (N.heard net.new) (N.held net.new)) result (S.faults input.old) (S.faults input.new) (K.taken output.old) (K.taken output.new) }
    // A run that is done and takes input read it to the end.
    ensures ended { result ≡ Status.Done → ReadsInput (net_command_of words.now) (command_of words.now) → IsAtEnd (S.left input.new) }
    // What words that are no command and those of `make` write, and their statuses, are the same whatever the source tells.
    ensures unread { net_command_of words.now ≡ None → WritesUnread (unread_output (command_of words.now)) result (K.taken output.old) (K.taken output.new) }
    // Words that are no command, and those of `make` and `fetch`, leave the input as it was.
    ensures left { InputIsLeft (net_command_of words.now) (command_of words.now) → (S.left input.new ≡ S.left input.old) × (S.faults input.new ≡ S.faults input.old) }
    // Where nothing is asked over the net, a command with a body that its types refuse, at a name or a verdict, leaves input that begins with the payload
    // of the body's first record; one without a body is answered once all was read.
    ensures leaves { net_command_of words.now ≡ None → IsAnswer result → IfSome (command_of words.now) (λ command. LeavesInput command (S.left input.old) (S.left input.new)) }
    // A fault is answered only where the count rose.
    ensures read { result ≡ Status.ReadFault → Rose (S.faults input.old) (S.faults input.new) }
    ensures write { result ≡ Status.WriteFault → Rose (K.faults output.old) (K.faults output.new) }
    ensures net_fault { result ≡ Status.NetFault → Rose (N.faults net.old) (N.faults net.new) }
{
    headline();
    refused();
    complete();
    keeps_last();
    match net_command_of(words) {
        Some(asked) => answer_over_net(rt, alloc, asked, input, output, net),
        None => answer_alone(alloc, words, input, output),
    }
}
