ghost use Rattle.aol_shape.specs.Laws.{RanksCorrespond};

/// A law: the points of a shape and the numbers below its size correspond.
pub fn ranks_correspond()
    ensures { RanksCorrespond }
{}
