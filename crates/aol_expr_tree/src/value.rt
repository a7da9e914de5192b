/// The kind of a fault.
#[derive(Clone, Copy, Debug, PartialEq, Eq)]
pub enum Kind {
    Overflow,
    Divide,
    Index,
    Range,
}

/// Where a fault began: its elementary task, that task's output port, and the rank of the point.
#[derive(Clone, Copy, Debug, PartialEq, Eq)]
pub struct Site {
    pub kind: Kind,
    pub task: u32,
    pub port: u32,
    pub point: u32,
}

#[derive(Clone, Copy, Debug, PartialEq, Eq)]
pub enum Val {
    Num(i64),
    Bad(Site),
}

/// The bits that a port holds.
#[derive(Clone, Copy, Debug, PartialEq, Eq)]
pub enum Width {
    Int16,
    Int32,
    Int64,
}

impl Width {
    ghost use Rattle.std.specs.Prelude.{◌≡◌};
    ghost use Rattle.aol_expr_tree.specs.Meaning.{holds};

    /// Whether the width holds the number.
    pub fn holds(self, n: i64) -> bool
        ensures { result ≡ holds self n }
    {
        match self {
            Width::Int16 => n >= -32768 && n <= 32767,
            Width::Int32 => n >= -2147483648 && n <= 2147483647,
            Width::Int64 => true,
        }
    }
}
