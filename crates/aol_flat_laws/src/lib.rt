//! Laws of the cells and levels of a model: the list of cells has exactly the homes, levels and cycles
//! by the cells are those of the model, and there are levels exactly where no element needs itself.
//!
//! It holds laws alone, over the definitions of `aol_flat`: each function has a law as its clause, and no body.
//!
//! ```text
//! laid_cells_are_homes()                         // the list of cells has each home once, for every model whose shapes agree
//! ```
#![tactic(auto)]

ghost use Rattle.aol_flat.specs.Accept.{AcyclicIsLevelled};
ghost use Rattle.aol_flat.specs.Bridge.{LevelsAreOfModel, LoopsAreCycles};
ghost use Rattle.aol_flat.specs.Laid.{LaidCellsAreHomes};

/// A law: where the shapes of a model agree, the list of its cells has exactly the homes, each once.
pub fn laid_cells_are_homes()
    ensures { LaidCellsAreHomes }
{}

/// A law: the levels by the cells that are read and the writer of each cell are those of the model.
pub fn levels_are_of_model()
    ensures { LevelsAreOfModel }
{}

/// A law: the least instance of a set in which every instance needs one of the set is the same by the cells and in the model.
pub fn loops_are_cycles()
    ensures { LoopsAreCycles }
{}

/// A law: where the rest of acceptance holds, no element needs itself exactly where the instances have levels.
pub fn acyclic_is_levelled()
    ensures { AcyclicIsLevelled }
{}
