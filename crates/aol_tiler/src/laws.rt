ghost use Rattle.aol_tiler.specs.Laws.{BlockedAddresses, ComposedAddresses};

/// A law: in blocks, the address at a block and a position inside it is that of the repetition that stands there.
pub fn blocks_are_repetitions()
    ensures { BlockedAddresses }
{}

/// A law: a composed tiler's address is the outer tiler's at the point of its pattern that the inner tiler gives.
pub fn compositions_are_points()
    ensures { ComposedAddresses }
{}
