ghost use Rattle.std.specs.Prelude.{refl};
ghost use Rattle.node_judge.specs.Marks as marks;
ghost use Rattle.type_trees.specs.Bridge as bridge;

use crate::marks::{Mark, Marked};
use crate::views::{CaseView, FlagView, LiteralView, MemberView};
use type_trees::{Case, Flag, Literal, Member, name_number, same_name};
use xt_shapes::Try;

impl Marked for Member {
    ghost mark_of = { λ m. marks.member_mark (bridge.member_head m) };

    fn mark(&self) -> Mark {
        Mark {
            hash: name_number(&self.name),
            number: i64::from(self.id),
        }
    }
}

impl MemberView for Member {
    ghost head_of = { bridge.member_head };

    ghost marked = { λ m. refl };

    fn id(&self) -> u32 {
        self.id
    }

    fn has_name_of(&self, other: &Member) -> bool {
        same_name(&self.name, &other.name)
    }

    fn tc(&self) -> Try {
        self.tc
    }

    fn is_optional(&self) -> bool {
        self.optional
    }

    fn must_understand(&self) -> bool {
        self.must_understand
    }

    fn is_key(&self) -> bool {
        self.key
    }
}

impl Marked for Case {
    ghost mark_of = { λ c. marks.case_mark (bridge.case_head c) };

    fn mark(&self) -> Mark {
        Mark {
            hash: name_number(&self.name),
            number: i64::from(self.id),
        }
    }
}

impl CaseView for Case {
    ghost head_of = { bridge.case_head };

    ghost marked = { λ c. refl };

    fn id(&self) -> u32 {
        self.id
    }

    fn has_name_of(&self, other: &Case) -> bool {
        same_name(&self.name, &other.name)
    }

    fn tc(&self) -> Try {
        self.tc
    }

    fn labels(&self) -> &[i32] {
        self.labels.as_slice()
    }

    fn is_default(&self) -> bool {
        self.is_default
    }
}

impl Marked for Literal {
    ghost mark_of = { λ l. marks.literal_mark (bridge.literal_shape l) };

    fn mark(&self) -> Mark {
        Mark {
            hash: name_number(&self.name),
            number: i64::from(self.value),
        }
    }
}

impl LiteralView for Literal {
    ghost literal_of = { bridge.literal_shape };

    ghost marked = { λ l. refl };

    fn has_name_of(&self, other: &Literal) -> bool {
        same_name(&self.name, &other.name)
    }

    fn value(&self) -> i32 {
        self.value
    }

    fn is_default(&self) -> bool {
        self.is_default
    }
}

impl FlagView for Flag {
    ghost flag_of = { bridge.flag_shape };

    fn has_name_of(&self, other: &Flag) -> bool {
        same_name(&self.name, &other.name)
    }

    fn position(&self) -> u8 {
        self.position
    }
}
