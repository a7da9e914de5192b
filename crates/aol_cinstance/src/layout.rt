use aol_lower::Reads;

/// The variable with the place of the instance's first read; those behind it hold a point of an output.
pub const READS: u32 = 1;

/// The variable of the loop over instances.
pub const INSTANCE: u32 = 14;

/// The variable with the place of the instance's first cell.
pub const CELLS: u32 = 15;

/// The variable with the rank of an output point.
pub const RANK: u32 = 16;

/// The variable with what is left of that rank, while the point's indices are set.
pub const REST: u32 = 17;

/// The variable with the fault of the inputs' widths.
pub const HELD: u32 = 18;

/// The variable with the value of an output element; those behind it serve its expression.
pub const VALUE: u32 = 19;

/// The tables of a step: those through which instances read, and the one with the cells that they write.
#[derive(Clone, Copy, Debug, PartialEq, Eq)]
pub struct Tables {
    pub reads: Reads,
    pub cells: u32,
}
