//! What a type without a fault keeps: each rule that speaks of its own node, and that its parts have no fault.

ghost use Rattle.type_rules.specs.faultless.Laws as law;

/// Each rule that speaks of a type's own node holds of a type without a fault (`rules_at` of `node_rules` has the rules by their numbers).
pub fn each_rule_holds()
    ensures { law.EachRuleHolds }
{}

/// Each type right below the node of a type without a fault has none itself: an element, a key, a member, a case, a discriminator, what an
/// alias stands for.
pub fn each_part_is_valid()
    ensures { law.EachPartIsValid }
{}
