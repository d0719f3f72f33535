//! What is made of a reader's type once, before its samples come.
ghost use Rattle.std.specs.Prelude.{◌≡◌};
ghost use Rattle.type_trees.specs.View.{tree};
ghost use Rattle.tool_samples.specs.Sampling.{IsPrepared};

use packed_json::{Plan, plan_of};
use packed_reader::may_be_plain;
use std::alloc::Global;
use try_construct::Guide;
use type_trees::{XType, as_union};
use xt_shapes::{Ext, Rep};
use xt_wire::numbers::top_of;

/// What is made of a reader's type once: how its values are written, if it has a plan; where its literals and cases are found; and whether its
/// samples in a representation may be plain.
pub struct Prepared {
    pub plan: Option<Plan>,
    pub guide: Guide,
    pub may_be_plain: bool,
}

// By hand, so that it is proved here once, and not in each crate that lets one go.
impl Drop for Prepared {
    fn drop(self) {
        let Prepared {
            plan: _,
            guide: _,
            may_be_plain: _,
        } = self;
    }
}

// Whether a sample is a parameter list, whose members don't stand in a row, or a union that has the rest of the sample.
fn is_open(ty: &XType) -> bool {
    top_of(ty) == Ext::Mutable || as_union(ty).is_some()
}

// Whether samples may be plain.
fn samples_may_be_plain(rep: Rep, ty: &XType) -> bool {
    if rep == Rep::Xcdr1 && is_open(ty) {
        return false;
    }
    may_be_plain(ty)
}

impl Prepared {
    /// What is made of a type whose samples come in that representation. It takes memory in the size of the type; where memory is wanting less is
    /// made, which costs time alone.
    pub fn of(alloc: Global, rep: Rep, ty: &XType) -> Prepared
        ensures { IsPrepared (tree ty.now) result }
    {
        let plan = plan_of(alloc, ty);
        Prepared {
            may_be_plain: plan.is_some() && samples_may_be_plain(rep, ty),
            plan,
            guide: Guide::of(alloc, ty),
        }
    }
}
