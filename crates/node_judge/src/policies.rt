ghost use Rattle.std.specs.Prelude.{◌≡◌, not};

use xcdr_model::Policy;

/// Whether the policy lets only equivalent types be assigned (DDS-XTypes 1.3, 7.6.3.7: DISALLOW_TYPE_COERCION).
pub fn asks_equal(policy: &Policy) -> bool
    ensures { result ≡ not policy.now.coercion }
{
    !policy.coercion
}
