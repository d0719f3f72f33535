ghost use Rattle.type_resolve.specs.Held as law;

/// Texts that were all added to a pool are held by it, each under its identifier, and what was found before is found.
pub fn added_are_held()
    ensures { law.AddedAreHeld }
{}

/// Where all texts of a type were added and its complete objects are well formed, the pool has each of them under its identifier.
pub fn objects_are_in()
    ensures { law.ObjectsAreIn }
{}

/// Where all texts of a type without a fault were added, and its complete objects are well formed, its complete identifier resolves to
/// the type.
pub fn resolves_again()
    ensures { law.ResolvesAgain }
{}
