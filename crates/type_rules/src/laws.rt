ghost use Rattle.type_rules.specs.Laws as law;

/// Where `check_type` finds no fault, the type's shape keeps the rules at every node: the premise of the laws on shapes.
pub fn shape_keeps_rules()
    ensures { law.ShapeKeepsRules }
{}

/// Where `check_type` finds no fault, the type is within the limits of depth, nodes and weight.
pub fn is_within_limits()
    ensures { law.IsWithinLimits }
{}
