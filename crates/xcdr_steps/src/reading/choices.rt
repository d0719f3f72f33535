// Which case of a union is read.
ghost use Rattle.std.specs.Prelude.{◌≡◌, length};
ghost use Rattle.type_trees.specs.Bridge.{cases_shape};
ghost use Rattle.try_construct.specs.Guides.{TellsCases};
ghost use Rattle.xcdr_steps.specs.reading.Cases.{choice, IsInside};

use try_construct::Guide;
use type_trees::Case;

/// What stands for a union's case.
#[derive(Clone, Copy, Debug)]
pub enum Choice {
    /// No case is selected, and nothing is left that would be one.
    NoCase,
    /// The reader alone selects a case, or octets are left for a case that it does not select.
    OneSided,
    /// The case at this position.
    Case(usize),
}

/// The case that the number selects, where a union is `filled` by it and the region has ended or not. The union's guide tells of its cases.
pub fn choose(guide: &Guide, cases: &[Case], number: i128, filled: bool, ended: bool) -> Choice
    requires { TellsCases (cases_shape cases.now) guide.now }
    ensures choice { result ≡ choice filled ended (cases_shape cases.now) number }
    ensures within { IsInside (length cases.now) result }
{
    match guide.find(cases, number) {
        Some(at) => {
            if filled && ended {
                return Choice::OneSided;
            }
            Choice::Case(at)
        }
        None => {
            if filled && !ended {
                return Choice::OneSided;
            }
            Choice::NoCase
        }
    }
}
