ghost use Rattle.xt_calls.specs.Laws as law;

use dynamic_data::{json_is_read, numbers_come_back};
use tool_verdicts::named_are_valid;
use type_rules::shape_keeps_rules;

/// What is read of a sample is the line that `read` writes of it.
pub fn lines_are_read()
    ensures { law.LinesAreRead }
{}

/// What a sample is converted to is the record that `convert` writes of it.
pub fn conversions_are_records()
    ensures { law.ConversionsAreRecords }
{}

/// What is read of a sample's value, with floats as numbers or as raw bits, is written as that value again.
pub fn values_come_back()
    ensures { law.ValuesComeBack }
{
    json_is_read();
    numbers_come_back();
    shape_keeps_rules();
    shape_laws::sample_typed();
}

/// What a text is written as is the record that `write` writes of its meaning, or its refusal.
pub fn writes_are_records()
    ensures { law.WritesAreRecords }
{}

/// Types that were opened are judged and named as the commands judge and name those of the same records.
pub fn commands_agree()
    ensures { law.CommandsAgree }
{}

/// Where a reader was opened, each sample that spells a value of the writer's type is read as the value's projection.
pub fn headline()
    ensures { law.Headline }
{
    shape_keeps_rules();
    named_are_valid();
    shape_laws::judged();
    shape_laws::cross_sample();
}
