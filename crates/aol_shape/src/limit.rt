/// The name of a limit that a text, a document or a model passes. `docs/ANSWERS.md` has their numbers.
#[derive(Clone, Copy, Debug, PartialEq, Eq)]
pub enum LimitName {
    Rank,
    Entry,
    Points,
    Number,
    Sums,
    Expression,
    Depth,
    Ports,
    Choices,
    Name,
    Hierarchy,
    Nodes,
    Walk,
    Work,
    Emission,
    Lines,
    Cells,
}

/// The most entries of a shape or vector, and columns of a matrix.
pub const MAX_RANK: usize = 12;

/// The most points of one shape, and its greatest entry.
pub const MAX_POINTS: u32 = 4_194_304;

/// The greatest entry of a vector; the least is its negative.
pub const MAX_VECTOR_ENTRY: u32 = 2_147_483_647;

/// The most digits of a numeral.
pub const MAX_DIGITS: u8 = 19;

/// The most bytes of a name.
pub const MAX_NAME: usize = 64;
