// The literals of an enumeration.
ghost use Rattle.std.specs.Prelude.{◌≡◌, map, IsTrue};
ghost use Rattle.xt_shapes.specs.Select.{is_literal};
ghost use Rattle.type_trees.specs.Bridge.{literal_shape};

use type_trees::Literal;
use type_values::has_literal;

// Whether halving comes to a literal with that value, as it does wherever one has it and the values rise.
#[tactic(auto, using(crate::proofs::LiteralSteps::literal_rules))]
fn is_met(literals: &[Literal], number: i128) -> bool
    ensures { IsTrue result → IsTrue (is_literal (map literal_shape literals.now) number) }
{
    let mut low = 0;
    let mut high = literals.len();
    while low < high {
        let middle = low + (high - low) / 2;
        let value = i128::from(literals[middle].value);
        if value == number {
            return true;
        }
        if value < number {
            low = middle + 1;
        } else {
            high = middle;
        }
    }
    false
}

/// Whether a literal has that value. Where the values rise and one is that value, it is found by halving; else they are gone through.
pub fn is_value(literals: &[Literal], number: i128) -> bool
    ensures { result ≡ is_literal (map literal_shape literals.now) number }
{
    is_met(literals, number) || has_literal(literals, number)
}
