// The laws over frames one after another, as contracts of functions with empty bodies.
ghost use Rattle.type_lookup.specs.Sequences.{FrameStands, FrameIsSpelled, FrameFollows, FramesEnd, FramesBreak, FramesGoOn, AreWhole};

/// A frame stands whatever octets follow it, is its message's spelling, and may follow others.
pub fn frames_follow()
    ensures stands { FrameStands }
    ensures spelled { FrameIsSpelled }
    ensures follows { FrameFollows }
{}

/// The frames that octets are go by what stands at their front: none, a frame and then those behind it, or the first bad one. So a stream
/// of whole frames is these frames.
pub fn frames_by_front()
    ensures end { FramesEnd }
    ensures broken { FramesBreak }
    ensures goes_on { FramesGoOn }
    ensures whole { AreWhole }
{}
