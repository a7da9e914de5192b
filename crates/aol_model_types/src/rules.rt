//! The numbers of the rules on shapes and names, as a refusal tells them.

/// Rule 1: no earlier task has the name.
pub const TASK_NAMES_DIFFER: u32 = 1;

/// Rule 2: no earlier port of the task has the name, inputs before outputs.
pub const PORT_NAMES_DIFFER: u32 = 2;

/// Rule 3: each name that an expression uses is there.
pub const EXPRESSION_NAMES_ARE_THERE: u32 = 3;

/// Rule 4: no earlier part has the name.
pub const PART_NAMES_DIFFER: u32 = 4;

/// Rule 5: the task of a part is an earlier one.
pub const PART_TASK_IS_EARLIER: u32 = 5;

/// Rule 6: a link or reshape begins at an own input or at an output of a part.
pub const LINK_FROM_GIVES: u32 = 6;

/// Rule 7: a link or reshape ends at an own output or at an input of a part.
pub const LINK_TO_TAKES: u32 = 7;

/// Rule 8: no plain link goes from an own input to an own output.
pub const LINK_MEETS_A_PART: u32 = 8;

/// Rule 9: the shapes at both ends of a plain link are equal.
pub const LINK_SHAPES_ARE_EQUAL: u32 = 9;

/// Rule 10: no earlier plain link hands the output of the part up.
pub const OUTPUT_IS_HANDED_UP_ONCE: u32 = 10;

/// Rule 11: the tiler of a reshape fits.
pub const RESHAPE_TILER_FITS: u32 = 11;

/// Rule 12: each input of a part is fed by one plain link, or by reshapes.
pub const PART_INPUTS_ARE_FED: u32 = 12;

/// Rule 13: an own output of a compound is fed by one plain link, or by reshapes.
pub const OWN_OUTPUT_IS_FED: u32 = 13;

/// Rule 14: the task of a repetition is an earlier one.
pub const REPEATED_TASK_IS_EARLIER: u32 = 14;

/// Rule 15: a tiler is on an outer and an inner input, or on an outer and an inner output.
pub const TILER_IS_ON_PORTS: u32 = 15;

/// Rule 16: the tiler fits the outer shape, the space and the inner shape.
pub const TILER_FITS: u32 = 16;

/// Rule 17: no earlier tiler is on the inner output.
pub const INNER_OUTPUT_IS_TILED_ONCE: u32 = 17;

/// Rule 18: a link between repetitions goes from an inner output to an inner input of the same shape.
pub const INTERLINK_JOINS_INNER_PORTS: u32 = 18;

/// Rule 19: the distance has as many entries as the space.
pub const DISTANCE_SPANS_SPACE: u32 = 19;

/// Rule 20: a default that is tiled is on an outer input, and its tiler fits.
pub const DEFAULT_FITS: u32 = 20;

/// Rule 21: each inner input is fed by exactly one tiler or link.
pub const INNER_INPUTS_ARE_FED: u32 = 21;

/// Rule 22: at least one tiler is on an own output of a repetition.
pub const OWN_OUTPUT_IS_TILED: u32 = 22;

/// Rule 23: `main` names a task.
pub const MAIN_IS_A_TASK: u32 = 23;

/// Rule 24: the last choice of a default, and no other, is for all that is left.
pub const LAST_CHOICE_IS_ALWAYS: u32 = 24;

/// Rule 25: the dimension of a choice is one of the space.
pub const CHOICE_DIMENSION_IS_IN_SPACE: u32 = 25;
