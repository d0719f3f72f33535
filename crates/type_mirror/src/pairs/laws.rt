ghost use Rattle.type_mirror.specs.pairs.Laws.{KeepsObjects, ClashesDiffer, EndsAsUnion};

/// Over every list of gives: no side loses or changes an object; a clash comes only for an identifier that both sides started with in
/// different octets. Where there is no such identifier and each side gave each object that it started with at least once, both sides end as
/// the union.
pub fn pairs_agree()
    ensures keeps { KeepsObjects }
    ensures clashes { ClashesDiffer }
    ensures union { EndsAsUnion }
{}
