// The law over messages, as the contract of a function with an empty body.
ghost use Rattle.type_lookup.specs.messages.Spelling.{IsSpelled};

/// A payload that reads as a message is its spelling, and the message keeps the limits.
pub fn payloads_are_spellings()
    ensures { IsSpelled }
{}
