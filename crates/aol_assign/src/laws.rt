ghost use Rattle.aol_assign.specs.Cells.{CellsHaveOneWriter, GivenByCells, InstancesDiffer};

/// A law: an instance of a model has one number.
pub fn instances_differ()
    ensures { InstancesDiffer }
{}

/// A law: where nothing is written twice, a cell has at most one writer.
pub fn cells_have_one_writer()
    ensures { CellsHaveOneWriter }
{}

/// A law: where nothing is written twice, an element is given exactly where reading it gives a default number, a main
/// input or a cell that an instance writes.
pub fn given_by_cells()
    ensures { GivenByCells }
{}
