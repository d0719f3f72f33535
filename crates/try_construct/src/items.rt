// The items of a sequence or an array, settled as they come.
ghost use Rattle.std.specs.Prelude.{◌≡◌, ℕ, List, OnOk, false};
ghost use Rattle.xt_shapes.specs.declared.leaves.Try.{Try};
ghost use Rattle.xt_shapes.specs.Vals.{Val, int};
ghost use Rattle.xcdr_model.specs.Projection as model;
ghost use Rattle.type_trees.specs.Bridge.{type_shape};
ghost use Rattle.xt_shapes.specs.Defaults.{default_of};
ghost use Rattle.settled_parts.specs.Parts.{part_of};
ghost use Rattle.try_construct.specs.Gathering.{none_yet, has_room};
ghost use Rattle.try_construct.specs.Items.{items_of, and_item, and_settled, items_then, whole_of};

use settled_parts::{Made, Part, Settled, settle_part};
use std::alloc::Global;
use type_trees::{Elem, Slot, Value};
use xt_lists::{OutOfMemory, Row};

/// The items of a sequence or an array so far. Once an item failed no value is kept.
#[derive(Debug, Drop)]
pub struct Items {
    values: Row<Value>,
    failed: bool,
    past: bool,
    unseen: bool,
}

/// Whether a collection with that bound keeps one more than `count` parts. A bound of 0 is none.
#[inline(always)]
pub(crate) fn is_room(bound: u32, count: usize) -> bool
    ensures { result ≡ has_room bound count }
{
    bound == 0 || (count as u64) < u64::from(bound)
}

impl Items {
    /// No items yet. The items that come one after another make the collection of all of them. It takes no memory.
    #[tactic(auto, using(crate::proofs::GatherSteps::items_whole))]
    pub fn new(alloc: Global) -> Items
        ensures none { items_of result ≡ none_yet }
        ensures whole { (bound : ℕ) (tc : Try) (d : Val) (xs : List model.Part) → items_then bound tc d (items_of result) xs ≡ model.whole_items bound tc d xs }
    {
        Items {
            values: Row::new(alloc),
            failed: false,
            past: false,
            unseen: false,
        }
    }

    #[tactic(auto, using(crate::proofs::ItemSteps::item_rules))]
    #[inline(always)]
    fn keep(&mut self, settled: Settled) -> Result<(), OutOfMemory>
        ensures { OnOk result (items_of self.new ≡ and_settled (items_of self.old) settled) }
    {
        self.unseen = self.unseen || settled.unseen;
        match settled.slot {
            Some(Slot::Present(value)) => self.values.push(value),
            Some(Slot::Absent) => {
                self.failed = true;
                Ok(())
            }
            None => {
                self.failed = true;
                Ok(())
            }
        }
    }

    /// Takes the item that comes next: it is settled by the element's setting, or passed over where as many as the bound are kept.
    /// For an array the bound is 0. Where memory is refused the items are of no use any more.
    #[tactic(auto, using(crate::proofs::ItemSteps::settle_rules))]
    #[inline(always)]
    pub fn take(
        &mut self,
        alloc: Global,
        bound: u32,
        elem: &Elem,
        part: Part,
    ) -> Result<(), OutOfMemory>
        ensures { OnOk result (items_of self.new ≡ and_item bound elem.now.tc (default_of (type_shape elem.now.ty)) (items_of self.old) (part_of part)) }
    {
        if self.failed {
            self.unseen = self.unseen || part.unseen;
            return Ok(());
        }
        if !is_room(bound, self.values.len()) {
            self.past = true;
            self.unseen = self.unseen || part.unseen;
            return Ok(());
        }
        let settled = settle_part(alloc, elem.tc, false, &elem.ty, part)?;
        self.keep(settled)
    }

    /// Takes a number that comes next, as `take` takes a part that is that number: it is got, whatever the element's setting is.
    #[tactic(auto, using(type_trees::proofs::Views::val_rules, crate::proofs::ItemSteps::number_rules))]
    #[inline(always)]
    pub fn take_number(&mut self, bound: u32, number: i128) -> Result<(), OutOfMemory>
        ensures { OnOk result ((tc : Try) (d : Val) → items_of self.new ≡ and_item bound tc d (items_of self.old) (model.got (int number), false)) }
    {
        if self.failed {
            return Ok(());
        }
        if !is_room(bound, self.values.len()) {
            self.past = true;
            return Ok(());
        }
        self.values.push(Value::Int(number))
    }

    /// The whole: none where an item failed, over where more came than the bound.
    #[tactic(auto, using(type_trees::proofs::Views::val_rules))]
    pub fn part(self) -> Part
        ensures { part_of result ≡ whole_of (items_of self) }
    {
        let Items {
            values,
            failed,
            past,
            unseen,
        } = self;
        if failed {
            return Part {
                made: Made::Failed,
                unseen,
            };
        }
        if past {
            return Part {
                made: Made::Over(Value::List(values)),
                unseen,
            };
        }
        Part {
            made: Made::Got(Value::List(values)),
            unseen,
        }
    }
}
