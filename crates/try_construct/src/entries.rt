// The entries of a map, settled as they come.
ghost use Rattle.std.specs.Prelude.{◌≡◌, ℕ, List, OnOk, IfOk};
ghost use Rattle.xt_shapes.specs.declared.leaves.Try.{Try};
ghost use Rattle.xt_shapes.specs.Vals.{Val};
ghost use Rattle.xcdr_model.specs.Projection as model;
ghost use Rattle.type_trees.specs.Bridge.{type_shape};
ghost use Rattle.xt_shapes.specs.Defaults.{default_of};
ghost use Rattle.settled_parts.specs.Parts.{part_of};
ghost use Rattle.try_construct.specs.Gathering.{none_yet};
ghost use Rattle.try_construct.specs.Entries.{entries_of, and_entry, and_pair, entries_then, whole_of};

use crate::items::is_room;
use settled_parts::{Made, Part, Settled, settle_part};
use std::alloc::Global;
use type_trees::{MapType, Pair, Slot, Value};
use type_values::has_same_keys;
use xt_lists::{OutOfMemory, Row};

/// The entries of a map so far. Once a key or a value failed no entry is kept.
#[derive(Debug, Drop)]
pub struct Entries {
    pairs: Row<Pair>,
    failed: bool,
    past: bool,
    unseen: bool,
}

impl Entries {
    /// No entries yet. The entries that come one after another make the map of all of them. It takes no memory.
    #[tactic(auto, using(crate::proofs::GatherSteps::entries_whole))]
    pub fn new(alloc: Global) -> Entries
        ensures none { entries_of result ≡ none_yet }
        ensures whole { (bound : ℕ) (kc : Try) (kd : Val) (vc : Try) (vd : Val) (xs : List (model.Part × model.Part)) → entries_then bound kc kd vc vd (entries_of result) xs ≡ model.whole_entries bound kc kd vc vd xs }
    {
        Entries {
            pairs: Row::new(alloc),
            failed: false,
            past: false,
            unseen: false,
        }
    }

    #[tactic(auto, using(crate::proofs::EntrySteps::entry_rules))]
    fn keep(&mut self, key: Settled, value: Settled) -> Result<(), OutOfMemory>
        ensures { OnOk result (entries_of self.new ≡ and_pair (entries_of self.old) key value) }
    {
        self.unseen = self.unseen || (key.unseen || value.unseen);
        match (key.slot, value.slot) {
            (Some(Slot::Present(key)), Some(Slot::Present(value))) => self
                .pairs
                .push(Pair { key, value }),
            _ => {
                self.failed = true;
                Ok(())
            }
        }
    }

    /// Takes the entry that comes next: its key and its value are settled by the map's settings, or passed over where as many as
    /// the bound are kept. Where memory is refused the entries are of no use any more.
    #[tactic(auto, using(crate::proofs::EntrySteps::settle_rules))]
    pub fn take(
        &mut self,
        alloc: Global,
        kind: &MapType,
        key: Part,
        value: Part,
    ) -> Result<(), OutOfMemory>
        ensures { OnOk result (entries_of self.new ≡ and_entry kind.now.bound kind.now.key.tc (default_of (type_shape kind.now.key.ty)) kind.now.value.tc (default_of (type_shape kind.now.value.ty)) (entries_of self.old) (part_of key, part_of value)) }
    {
        if self.failed {
            self.unseen = self.unseen || (key.unseen || value.unseen);
            return Ok(());
        }
        if !is_room(kind.bound, self.pairs.len()) {
            self.past = true;
            self.unseen = self.unseen || (key.unseen || value.unseen);
            return Ok(());
        }
        let key = settle_part(alloc, kind.key.tc, false, &kind.key.ty, key)?;
        let value = settle_part(alloc, kind.value.tc, false, &kind.value.ty, value)?;
        self.keep(key, value)
    }

    /// The whole: none where a key or a value failed or two keys became equal (this profile's own), over where more came than the
    /// bound. OutOfMemory comes where memory for comparing the keys is wanting.
    #[tactic(auto, using(type_trees::proofs::Views::val_rules))]
    pub fn part(self, alloc: Global) -> Result<Part, OutOfMemory>
        ensures { IfOk result (λ p. part_of p ≡ whole_of (entries_of self)) }
    {
        let Entries {
            pairs,
            failed,
            past,
            unseen,
        } = self;
        if failed || has_same_keys(alloc, pairs.as_slice())? {
            return Ok(Part {
                made: Made::Failed,
                unseen,
            });
        }
        if past {
            return Ok(Part {
                made: Made::Over(Value::Map(pairs)),
                unseen,
            });
        }
        Ok(Part {
            made: Made::Got(Value::Map(pairs)),
            unseen,
        })
    }
}
