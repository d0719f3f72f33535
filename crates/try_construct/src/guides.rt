//! What is known of a type beforehand: its literals by their values and its cases by their labels, so that each is found in few steps.
ghost use Rattle.std.specs.Prelude.{◌≡◌, ◌<◌, cond, false, length, map, IfSome};
ghost use Rattle.xt_shapes.specs.Select as shapes;
ghost use Rattle.xt_shapes.specs.Vals.{int};
ghost use Rattle.type_trees.specs.Bridge.{literal_shape, type_shape, cases_shape};
ghost use Rattle.xcdr_model.specs.Projection as model;
ghost use Rattle.settled_parts.specs.Parts.{part_of};
ghost use Rattle.try_construct.specs.Guides as spec;
ghost use Rattle.try_construct.specs.Guides.{IsNothing, IsGuide, TellsLiterals, TellsCases};

use settled_parts::{Part, is_value, literal_part};
use std::alloc::Global;
use std::collections::{BTreeMap, BTreeSet};
use type_trees::{Case, Literal, XType, as_enum, select};
use xt_lists::Row;

/// The positions of a union's cases: by their labels, and the default case's.
#[derive(Debug, Drop)]
pub struct CaseIndex {
    pub(crate) labels: BTreeMap<i128, usize>,
    pub(crate) default: Option<usize>,
}

impl CaseIndex {
    /// The position of the case that the discriminator's `number` selects. It takes any number, value of the discriminator or not.
    pub fn find(&self, number: i128) -> Option<usize>
        ensures { result ≡ spec.found_at self.now number }
    {
        match self.labels.get(&number) {
            Some(at) => Some(*at),
            None => self.default,
        }
    }
}

/// What is known of a type without regard to its parts.
#[derive(Debug, Drop)]
pub enum Known {
    Nothing,
    /// The values of an enumeration's literals.
    Literals(BTreeSet<i128>),
    /// The cases of a union.
    Cases(CaseIndex),
}

/// What is known of a type and of its parts. A collection's element is its part 0, as a map's key is, whose value is 1; a structure's members are
/// its parts by their positions; a union's discriminator is its part 0, and its cases are those from 1 on. A part that is not held knows
/// what the whole does, which is nothing of the part.
#[derive(Debug)]
#[cycle(guide)]
pub struct Guide {
    pub(crate) known: Known,
    pub(crate) parts: Row<Guide>,
}

// By hand, so that it is proved here once, and not in each crate that lets one go.
impl Drop for Guide {
    #[cycle(dropping)]
    fn drop(self) {
        let Guide { known: _, parts: _ } = self;
    }
}

// The position of the first case with that id.
#[tactic(auto, using(crate::proofs::CasesByIndex::index_rules))]
pub(crate) fn find_case(cases: &[Case], id: u32) -> Option<usize>
    ensures { result ≡ spec.case_index (cases_shape cases.now) id }
{
    for (at, case) in cases.iter().enumerate() {
        if case.id == id {
            return Some(at);
        }
    }
    None
}

// The position of the case that the number selects.
fn find_selected(cases: &[Case], number: i128) -> Option<usize>
    ensures { result ≡ spec.selected_index (cases_shape cases.now) number }
{
    match select(cases, number) {
        Some(id) => find_case(cases, id),
        None => None,
    }
}

impl Guide {
    /// The guide that knows nothing, which is one of any type. It takes no memory.
    pub fn nothing(alloc: Global) -> Guide
        ensures { IsNothing result }
    {
        Guide {
            known: Known::Nothing,
            parts: Row::new(alloc),
        }
    }

    // Whether anything may be known.
    pub(crate) fn tells(&self) -> bool
        ensures { result ≡ false → IsNothing self.now }
    {
        match &self.known {
            Known::Nothing => self.parts.len() > 0,
            Known::Literals(_) | Known::Cases(_) => true,
        }
    }

    /// The guide of the part at a position.
    pub fn part(&self, at: usize) -> &Guide
        ensures { result.now ≡ spec.part_at self.now at }
    {
        if at < self.parts.len() {
            return self.parts.at(at);
        }
        self
    }

    /// Whether a literal has that value.
    pub fn is_literal(&self, literals: &[Literal], number: i128) -> bool
        requires { TellsLiterals (map literal_shape literals.now) self.now }
        ensures { result ≡ shapes.is_literal (map literal_shape literals.now) number }
    {
        match &self.known {
            Known::Literals(values) => values.contains(&number),
            Known::Nothing | Known::Cases(_) => is_value(literals, number),
        }
    }

    /// An enumeration's value: none where no literal has it.
    pub fn enum_part(&self, literals: &[Literal], number: i128) -> Part
        requires { TellsLiterals (map literal_shape literals.now) self.now }
        ensures { part_of result ≡ (cond (shapes.is_literal (map literal_shape literals.now) number) (model.got (int number)) model.failed, false) }
    {
        literal_part(self.is_literal(literals, number), number)
    }

    /// Whether the discriminator can be constructed: an enumeration wants a literal of that value.
    #[tactic(auto, using(type_trees::proofs::Views::tree_rules))]
    pub fn fits_disc(&self, disc: &XType, number: i128) -> bool
        requires { IsGuide (type_shape disc.now) self.now }
        ensures { model.disc_built (type_shape disc.now) number ≡ cond result (model.got (int number)) model.failed }
    {
        match as_enum(disc) {
            Some(kind) => self.is_literal(kind.literals.as_slice(), number),
            None => true,
        }
    }

    /// The position of the case that the discriminator's `number` selects. It takes any number, value of the discriminator or not.
    pub fn find(&self, cases: &[Case], number: i128) -> Option<usize>
        requires { TellsCases (cases_shape cases.now) self.now }
        ensures position { result ≡ spec.selected_index (cases_shape cases.now) number }
        ensures within { IfSome result (λ at. at < length cases.now) }
    {
        match &self.known {
            Known::Cases(index) => index.find(number),
            Known::Nothing | Known::Literals(_) => find_selected(cases, number),
        }
    }
}
