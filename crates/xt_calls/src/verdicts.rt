ghost use Rattle.tool_runs.specs.output.Runs.{Comes};
ghost use Rattle.xt_calls.specs.Calls as spec;
ghost use Rattle.xt_calls.specs.Opened.{front};

use crate::answers::{Answer, DONE};
use crate::readers::Reader;
use crate::types::Types;
use std::alloc::Global;
use tool_runs::output::Stop;
use xt_lists::Text;

impl Types {
    /// Whether the reader's type of a pair that words name is assignable from the writer's.
    pub fn judge(
        &self,
        alloc: Global,
        reader: &[u8],
        writer: &[u8],
        rep: u32,
        flags: u32,
    ) -> Result<Answer, Stop>
        ensures { Comes (spec.judged (spec.pair_of reader.now writer.now rep flags) (front self.now)) (λ answer. answer) result }
    {
        Reader::open(alloc, self, reader, writer, rep, flags)?;
        Ok(Answer {
            status: DONE,
            text: Text::new(alloc),
        })
    }
}
