ghost use Rattle.tool_verdicts.specs.Verdicts as law;

use idl_laws::parsed::parsed_is_printable;

/// Both types that words name among what the records of a front declare are valid.
pub fn named_are_valid()
    ensures { law.NamedAreValid }
{
    parsed_is_printable();
}
