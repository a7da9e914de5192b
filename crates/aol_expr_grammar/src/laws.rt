//! Laws of the texts of expressions: what reading answers is right, what is written is read again, and a text has one reading.

ghost use Rattle.std.specs.Prelude.{◌≡◌, List, ℕ, Ok};
ghost use Rattle.aol_shape.specs.Grammar.{IsTextOf, Reads};
ghost use Rattle.aol_expr_tree.specs.Tree.{Tree, IsExpr};
ghost use Rattle.aol_expr_tree.specs.Text.{Written, expr_grammar, tree_written};
ghost use Rattle.aol_expr_tree.specs.Reading.{expr_reading};
ghost use Rattle.aol_expr_tree.specs.Writing.{expr_text};

/// What reading an expression answers is right by the grammar of expressions, for every text.
pub fn expressions_are_read_right()
    ensures { (text : List ℕ) → Reads expr_grammar text (expr_reading text) }
{}

/// A text spells one expression at most.
pub fn expressions_have_one_reading()
    ensures { (text : List ℕ) (v w : Written) → IsTextOf expr_grammar text v → IsTextOf expr_grammar text w → tree_written v ≡ tree_written w }
{}

/// The text of an expression is read as that expression.
pub fn expressions_are_read_again()
    ensures { (e : Tree) → IsExpr e → expr_reading (expr_text e) ≡ Ok e }
{}

/// The text of an expression spells it.
pub fn expressions_are_spelled()
    ensures { (e : Tree) → IsExpr e → Reads expr_grammar (expr_text e) (Ok e) }
{}
