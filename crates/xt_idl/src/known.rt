//! What is kept of the types that were declared so far, so that no definition looks into what it uses.
ghost use Rattle.std.specs.Prelude.{◌≡◌, ◌++◌, ◌∷◌, [], true, OnOk};
ghost use Rattle.idl_types.specs.Definitions.{declared};
ghost use Rattle.idl_types.specs.Kept.{all_valid};
ghost use Rattle.xt_idl.specs.Measures as measures_of;
ghost use Rattle.xt_idl.specs.Numbers as numbers_of;
ghost use Rattle.xt_idl.specs.Kept.{IsKept};

use crate::measures::Measure;
use crate::numbers::NumberSets;
use idl_types::Declaration;
use std::alloc::Global;
use xt_lists::{OutOfMemory, Row};

/// The types that were declared so far, each valid, with their measures and the numbers of their own members.
#[derive(Clone, Copy)]
pub(crate) struct Known<'a> {
    pub(crate) types: &'a [Declaration],
    pub(crate) measures: &'a [Measure],
    pub(crate) numbers: &'a [NumberSets],
    ghost own: { measures.now ≡ measures_of.all_measured (declared types.now) },
    ghost sets: { numbers_of.HoldAll (declared types.now) numbers.now },
    ghost valid: { all_valid (declared types.now) ≡ true },
}

/// What is kept of each type that was declared so far.
#[derive(Drop)]
pub(crate) struct Kept {
    pub(crate) measures: Row<Measure>,
    pub(crate) numbers: Row<NumberSets>,
}

impl Kept {
    /// Nothing is declared yet. It takes no memory.
    pub(crate) fn new(alloc: Global) -> Kept
        ensures { IsKept [] result }
    {
        Kept {
            measures: Row::new(alloc),
            numbers: Row::new(alloc),
        }
    }

    /// One type more.
    pub(crate) fn push(&mut self, measure: Measure, numbers: NumberSets) -> Result<(), OutOfMemory>
        ensures measures { OnOk result (self.new.measures ≡ self.old.measures ++ measure ∷ []) }
        ensures numbers { OnOk result (self.new.numbers ≡ self.old.numbers ++ numbers ∷ []) }
    {
        self.measures.push(measure)?;
        self.numbers.push(numbers)
    }
}
