//! Laws of the texts: what reading answers is right, what is written is read again, and a text has one reading.

ghost use Rattle.std.specs.Prelude.{◌≡◌, ℕ, ℤ, List, Ok};
ghost use Rattle.aol_shape.specs.Shape.{IsShape};
ghost use Rattle.aol_shape.specs.Vectors.{IsVector};
ghost use Rattle.aol_tiler.specs.Matrices.{TilerOf};
ghost use Rattle.aol_tiler.specs.Tiler.{IsTiler};
ghost use Rattle.aol_shape.specs.Grammar.{Reads, IsTextOf};
ghost use Rattle.aol_vsl.specs.Text.{Numeral, WrittenTiler, shape_grammar, vector_grammar, tiler_grammar, shape_text, vector_text, tiler_text};
ghost use Rattle.aol_vsl.specs.Reading.{shape_reading, vector_reading, tiler_reading};

/// What reading a shape answers is right by the grammar of shapes, for every text.
pub fn shapes_are_read_right()
    ensures { (text : List ℕ) → Reads shape_grammar text (shape_reading text) }
{}

/// What reading a vector answers is right by the grammar of vectors, for every text.
pub fn vectors_are_read_right()
    ensures { (text : List ℕ) → Reads vector_grammar text (vector_reading text) }
{}

/// The text of a shape is read as that shape.
pub fn shapes_are_read_again()
    ensures { (shape : List ℕ) → IsShape shape → shape_reading (shape_text shape) ≡ Ok shape }
{}

/// The text of a vector is read as that vector.
pub fn vectors_are_read_again()
    ensures { (vector : List ℤ) → IsVector vector → vector_reading (vector_text vector) ≡ Ok vector }
{}

/// The text of a tiler is read as that tiler.
pub fn tilers_are_read_again()
    ensures { (t : TilerOf) → IsTiler t → tiler_reading (tiler_text t) ≡ Ok t }
{}

/// A text spells one shape at most.
pub fn shapes_have_one_reading()
    ensures { (text : List ℕ) (v w : List Numeral) → IsTextOf shape_grammar text v → IsTextOf shape_grammar text w → shape_grammar.value v ≡ shape_grammar.value w }
{}

/// A text spells one vector at most.
pub fn vectors_have_one_reading()
    ensures { (text : List ℕ) (v w : List Numeral) → IsTextOf vector_grammar text v → IsTextOf vector_grammar text w → vector_grammar.value v ≡ vector_grammar.value w }
{}

/// What reading a tiler answers is right by the grammar of tilers, for every text.
pub fn tilers_are_read_right()
    ensures { (text : List ℕ) → Reads tiler_grammar text (tiler_reading text) }
{}

/// A text spells one tiler at most.
pub fn tilers_have_one_reading()
    ensures { (text : List ℕ) (v w : WrittenTiler) → IsTextOf tiler_grammar text v → IsTextOf tiler_grammar text w → tiler_grammar.value v ≡ tiler_grammar.value w }
{}
