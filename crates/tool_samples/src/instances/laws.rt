ghost use Rattle.tool_samples.specs.instances.Laws.{KeepsLast};

/// What a body of samples and Notes comes to, in one step: of each key the last values, unless there is a key too many.
pub fn keeps_last()
    ensures { KeepsLast }
{
    key_instances::kept::keeps_last();
}
