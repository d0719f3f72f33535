ghost use Rattle.resolve_laws.specs.parsed.Defining as law;

/// Each type that a text declares is one that `objects_of` takes: it has objects of its own.
pub fn parsed_has_objects()
    ensures { law.ParsedHasObjects }
{}
