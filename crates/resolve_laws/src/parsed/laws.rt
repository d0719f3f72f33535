ghost use Rattle.resolve_laws.specs.parsed.Laws as law;

/// Each type that a text declares has all its names: each enumeration, bitmask, structure, union, alias and base in it has one, and each member,
/// case, literal and flag has its name in full. Its bounds, dimensions, labels and values of literals are numbers that the program's types hold.
pub fn parsed_is_named()
    ensures { law.ParsedIsNamed }
{}

/// Where all objects of a type that a text declares were added to a pool, the type's complete identifier resolves to the same type.
pub fn parsed_resolves()
    ensures { law.ParsedResolves }
{}
