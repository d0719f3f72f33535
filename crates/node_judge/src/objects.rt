ghost use Rattle.std.specs.Prelude.{refl};
ghost use Rattle.node_judge.specs.Marks as marks;
ghost use Rattle.node_judge.specs.Objects.{literal_in, flag_in};

use crate::marks::{Mark, Marked};
use crate::views::{FlagView, LiteralView};
use object_formats::{ObjectFlag, ObjectLiteral};
use type_trees::{name_number, same_name};

impl Marked for ObjectLiteral {
    ghost mark_of = { λ l. marks.literal_mark (literal_in l) };

    fn mark(&self) -> Mark {
        Mark {
            hash: name_number(&self.name),
            number: i64::from(self.value),
        }
    }
}

impl LiteralView for ObjectLiteral {
    ghost literal_of = { literal_in };

    ghost marked = { λ l. refl };

    fn has_name_of(&self, other: &ObjectLiteral) -> bool {
        same_name(&self.name, &other.name)
    }

    fn value(&self) -> i32 {
        self.value
    }

    fn is_default(&self) -> bool {
        (self.flags / 0x40) % 2 == 1
    }
}

impl FlagView for ObjectFlag {
    ghost flag_of = { flag_in };

    fn has_name_of(&self, other: &ObjectFlag) -> bool {
        same_name(&self.name, &other.name)
    }

    fn position(&self) -> u8 {
        if self.position < 255 {
            self.position as u8
        } else {
            255
        }
    }
}
