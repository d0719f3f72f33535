ghost use Rattle.std.specs.Prelude.{refl};
ghost use Rattle.node_judge.specs.Marks as marks;
ghost use Rattle.pair_memo.specs.nodes.Views.{part_head, arm_head};

use crate::nodes::parts::{Arm, Part};
use node_judge::{CaseView, Mark, Marked, MemberView};
use xt_shapes::Try;

impl Marked for Part<'_> {
    ghost mark_of = { λ p. marks.member_mark (part_head p) };

    fn mark(&self) -> Mark {
        Mark {
            hash: self.hash,
            number: i64::from(self.id),
        }
    }
}

impl MemberView for Part<'_> {
    ghost head_of = { part_head };

    ghost marked = { λ p. refl };

    fn id(&self) -> u32 {
        self.id
    }

    fn has_name_of(&self, other: &Self) -> bool {
        self.hash == other.hash
    }

    fn tc(&self) -> Try {
        self.tc
    }

    fn is_optional(&self) -> bool {
        self.optional
    }

    fn must_understand(&self) -> bool {
        self.must_understand
    }

    fn is_key(&self) -> bool {
        self.key
    }
}

impl Marked for Arm<'_> {
    ghost mark_of = { λ a. marks.case_mark (arm_head a) };

    fn mark(&self) -> Mark {
        Mark {
            hash: self.hash,
            number: i64::from(self.id),
        }
    }
}

impl CaseView for Arm<'_> {
    ghost head_of = { arm_head };

    ghost marked = { λ a. refl };

    fn id(&self) -> u32 {
        self.id
    }

    fn has_name_of(&self, other: &Self) -> bool {
        self.hash == other.hash
    }

    fn tc(&self) -> Try {
        self.tc
    }

    fn labels(&self) -> &[i32] {
        self.labels
    }

    fn is_default(&self) -> bool {
        self.is_default
    }
}
