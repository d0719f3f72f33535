ghost use Rattle.xt_tool.specs.Headline as law;
ghost use Rattle.xt_tool.specs.Completeness.{Completeness};

use tool_samples::instances::keeps_last;
use tool_verdicts::named_are_valid;
use type_rules::shape_keeps_rules;

/// Where the reader's type is assignable from the writer's, `read` writes one line for each sample, in order, by the reader's type alone;
/// and for each value of the writer's type that a sample spells, the line is that of its projection.
pub fn headline()
    ensures { law.Headline }
{
    shape_keeps_rules();
    named_are_valid();
    shape_laws::judged();
    shape_laws::cross_sample();
}

/// Where it isn't, `read` writes one line with the first rule that fails and its path.
pub fn refused()
    ensures { law.Refused }
{
    shape_keeps_rules();
    named_are_valid();
    shape_laws::exactly_one();
}

/// With nothing wrong in what it is given, a command that asks nothing over a net ends as done; or with No, exactly where the reader's type isn't
/// assignable from the writer's; or with Limit, exactly where there is a key too many.
pub fn complete()
    ensures { Completeness }
{
    shape_keeps_rules();
    named_are_valid();
    shape_laws::judged();
    shape_laws::exactly_one();
    keeps_last();
}
