//! What holds of recordings: each function has an empty body, or calls the laws that it follows from, and its contract is the law.
ghost use Rattle.xt_recorder.specs.Laws as law;

use type_rules::shape_keeps_rules;

/// A stream's Note says its identifier and its representation.
pub fn stream_told()
    ensures { law.StreamTold }
{}

/// No other payload says them.
pub fn stream_only()
    ensures { law.StreamOnly }
{}

/// Where the reader's type is assignable from a stream's, its samples are replayed as the projections of the values that they spell.
pub fn samples_projected()
    ensures { law.SamplesProjected }
{
    shape_keeps_rules();
    shape_laws::cross_sample();
}

/// Where it isn't, nothing is told of them.
pub fn no_passed()
    ensures { law.NoPassed }
{}

/// What a Replayer answers of records, call after call and up to the first fault, is their replay.
pub fn takes_are_replay()
    ensures { law.TakesAreReplay }
{}

/// What a recording of a type that resolves carries is what is reached from its identifier: each once, behind what it refers to.
pub fn closed_is_reached()
    ensures { law.ClosedIsReached }
{}

/// What `write_stream` writes are records: the objects that a recording carries, and its Note.
pub fn opening_is_records()
    ensures { law.OpeningIsRecords }
{}

/// Where the reader's type is assignable from a recording's, the recording is replayed as the projections of the values that it spells.
pub fn recording_replayed()
    ensures { law.RecordingReplayed }
{
    shape_keeps_rules();
    shape_laws::judged();
    shape_laws::cross_sample();
}

/// Where it isn't, the rule that fails is told, and nothing of the samples.
pub fn recording_refused()
    ensures { law.RecordingRefused }
{}
