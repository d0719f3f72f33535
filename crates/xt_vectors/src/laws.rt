//! What holds of the pairs that are drawn: each function's contract is the law.
ghost use Rattle.xt_vectors.specs.Laws as law;

use type_rules::shape_keeps_rules;

/// Both types of each pair break no rule, and its value has the writer's type.
pub fn each_is_sound()
    ensures { law.EachIsSound }
{}

/// Where the reader's type is assignable, the sample of the value is read by that type alone as the value's projection.
pub fn read_is_projected()
    ensures { law.ReadIsProjected }
{
    shape_keeps_rules();
    shape_laws::judged();
    shape_laws::sample_written();
    shape_laws::cross_sample();
}

/// Each Yes is counted by what its value is to the reader, and each pair as a Yes or a No.
pub fn each_is_counted()
    ensures { law.EachIsCounted }
{}
