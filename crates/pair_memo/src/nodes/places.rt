ghost use Rattle.std.specs.Prelude.{◌≡◌, IfSome, IsTrue};
ghost use Rattle.std.specs.Option.{option_map};
ghost use Rattle.pair_memo.specs.nodes.Seen.{See, is_seen};
ghost use Rattle.pair_memo.specs.nodes.Views.{part_view, arm_view, parts_in, arms_in, parts_seen, arms_seen};
ghost use Rattle.type_object.specs.Pools.{Texts};
ghost use Rattle.xt_shapes.specs.Select as select;

use crate::nodes::parts::{Arm, Part};

/// The first member with that id.
pub fn part_at<'s, 'p>(parts: &'s [Part<'p>], id: u32) -> Option<&'s Part<'p>>
    ensures found { (see : See) → option_map (λ p. see (part_view p.now).1) result ≡ select.shape_at (parts_in see parts.now) id }
    ensures seen { (pool : Texts) → IsTrue (parts_seen pool parts.now) → IfSome result (λ p. IsTrue (is_seen pool (part_view p.now).1)) }
{
    for part in parts {
        if part.id == id {
            return Some(part);
        }
    }
    None
}

/// The first case with that id.
pub fn arm_at<'s, 'p>(arms: &'s [Arm<'p>], id: u32) -> Option<&'s Arm<'p>>
    ensures found { (see : See) → option_map (λ a. see (arm_view a.now).1) result ≡ select.case_at (arms_in see arms.now) id }
    ensures seen { (pool : Texts) → IsTrue (arms_seen pool arms.now) → IfSome result (λ a. IsTrue (is_seen pool (arm_view a.now).1)) }
{
    for arm in arms {
        if arm.id == id {
            return Some(arm);
        }
    }
    None
}
