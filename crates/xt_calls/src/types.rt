ghost use Rattle.std.specs.Prelude.{map};
ghost use Rattle.tool_types.specs.Declaring.{AllGood, declared_view};
ghost use Rattle.tool_types.specs.Coming.{AllComeBack};
ghost use Rattle.xt_calls.specs.Fronts.{AllGood-prop, AllComeBack-prop};

use tool_types::Declared;
use type_object::Pool;
use xt_lists::Row;

/// The types that the records of a bundle declare, with their identifiers, and the pool of their objects.
pub struct Types {
    pub(crate) declared: Row<Declared>,
    pub(crate) pool: Pool,
    ghost good: { AllGood declared } by { AllGood-prop declared },
    ghost back: { AllComeBack pool (map declared_view declared) } by { AllComeBack-prop pool (map declared_view declared) },
}

// By hand, so that it is proved here once, and not in each crate that lets one go.
impl Drop for Types {
    fn drop(self) {
        let Types {
            declared: _,
            pool: _,
        } = self;
    }
}
