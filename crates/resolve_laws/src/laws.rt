ghost use Rattle.resolve_laws.specs.Laws as law;

/// The complete objects of a valid type that has all its names are well formed.
pub fn objects_are_well_formed()
    ensures { law.ObjectsAreWellFormed }
{}

/// Where all texts of a valid type that has all its names were added to a pool, its complete identifier resolves to the type.
pub fn resolves_to_itself()
    ensures { law.ResolvesToItself }
{}

/// An identifier whose walk ends in a valid type resolves to it.
pub fn valid_resolves()
    ensures { law.ValidResolves }
{}

/// Where an identifier resolves, each identifier in its object resolves to that part of the type.
pub fn parts_resolve()
    ensures { law.PartsResolve }
{}
