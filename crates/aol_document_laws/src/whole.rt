ghost use Rattle.aol_model_types.specs.Readable.{ReadingShows};
ghost use Rattle.aol_model_types.specs.Trees.{ReadTreesAreHeld};

/// A law: a document that was read from a tree is readable.
pub fn reading_shows()
    ensures { ReadingShows }
{}

/// A law: what a JSON text reads as is a tree, with its keys in order and its numbers in range.
pub fn read_trees_are_held()
    ensures { ReadTreesAreHeld }
{}
