ghost use Rattle.aol_lower.specs.Laws.{LoweredLeavesTheValue};

/// From each state that holds what an expression is evaluated with, its statements leave its value.
pub fn lowered_leaves_the_value()
    ensures { LoweredLeavesTheValue }
{}
