ghost use Rattle.tool_types.specs.Coming as law;

use resolve_laws::parsed::parsed_resolves;
use type_resolve::added_are_held;

/// Each type that a text of a front declares comes back from the front's pool by its complete identifier.
pub fn declared_comes_back()
    ensures { law.DeclaredComesBack }
{
    parsed_resolves();
    added_are_held();
}
