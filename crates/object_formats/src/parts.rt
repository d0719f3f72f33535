ghost use Rattle.std.specs.Prelude.{◌≡◌, ℕ, ℤ, Bool, List, [], ◌∷◌, ◌++◌, length, map, refl};
ghost use Rattle.std.proofs.lemmas.List.{length-map, map_push};
ghost use Rattle.object_formats.specs.Format.{Format};
ghost use Rattle.object_formats.specs.Objects.{MemberPart, CasePart};
ghost use Rattle.object_formats.specs.Tables as spec;
ghost use Rattle.object_formats.specs.View as view;
ghost use Rattle.object_formats.specs.declared.objects.ObjectLiteral as literals;
ghost use Rattle.object_formats.specs.declared.objects.ObjectFlag as flags;

use crate::objects::{ObjectCase, ObjectFlag, ObjectLiteral, ObjectMember};

/// What stands in the lists of an object. Its form is that of a complete object or of a minimal one, and of a dimension the large one
/// or the small.
pub trait Part: Drop {
    /// What its octets spell.
    ghost Seen: { Type 0 };

    ghost seen: { Self → Seen };

    ghost all_seen: { List Self → List Seen };

    ghost format: { Bool → Format Seen };

    ghost none_seen: { all_seen [] ≡ [] };

    ghost same_count: { (parts : List Self) → length (all_seen parts) ≡ length parts };

    ghost one_more: { (parts : List Self) (part : Self) → all_seen (parts ++ part ∷ []) ≡ all_seen parts ++ seen part ∷ [] };
}

/// A dimension of an array.
impl Part for u32 {
    ghost Seen = { ℕ };

    ghost seen = { λ size. size };

    ghost all_seen = { λ sizes. sizes };

    ghost format = { spec.bound };

    ghost none_seen = { refl };

    ghost same_count = { λ sizes. refl };

    ghost one_more = { λ sizes size. refl };
}

/// A label of a case.
impl Part for i32 {
    ghost Seen = { ℤ };

    ghost seen = { λ label. label };

    ghost all_seen = { λ labels. labels };

    ghost format = { λ form. spec.signed };

    ghost none_seen = { refl };

    ghost same_count = { λ labels. refl };

    ghost one_more = { λ labels label. refl };
}

impl Part for ObjectLiteral {
    ghost Seen = { literals.ObjectLiteral };

    ghost seen = { λ literal. literal };

    ghost all_seen = { λ several. several };

    ghost format = { spec.literal };

    ghost none_seen = { refl };

    ghost same_count = { λ several. refl };

    ghost one_more = { λ several literal. refl };
}

impl Part for ObjectFlag {
    ghost Seen = { flags.ObjectFlag };

    ghost seen = { λ flag. flag };

    ghost all_seen = { λ several. several };

    ghost format = { spec.flag };

    ghost none_seen = { refl };

    ghost same_count = { λ several. refl };

    ghost one_more = { λ several flag. refl };
}

impl Part for ObjectMember {
    ghost Seen = { MemberPart };

    ghost seen = { view.member };

    ghost all_seen = { map view.member };

    ghost format = { spec.member };

    ghost none_seen = { refl };

    ghost same_count = { λ several. length-map several view.member };

    ghost one_more = { λ several member. map_push view.member several member };
}

impl Part for ObjectCase {
    ghost Seen = { CasePart };

    ghost seen = { view.case };

    ghost all_seen = { map view.case };

    ghost format = { spec.case };

    ghost none_seen = { refl };

    ghost same_count = { λ several. length-map several view.case };

    ghost one_more = { λ several case. map_push view.case several case };
}
