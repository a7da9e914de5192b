//! The canonical text of an expression, which is read as it.

ghost use Rattle.std.specs.Prelude.{◌≡◌, ◌++◌, ◌==◌, decimal, string_bytes, IfOk, OnOk};
ghost use Rattle.std.specs.Fmt.{signed_decimal};
ghost use Rattle.std.specs.List.{join_with_byte};
ghost use Rattle.aol_expr_tree.specs.Node.{tree_of, trees_of};
ghost use Rattle.aol_expr_tree.specs.Text.{strength, is_infix, op_text};
ghost use Rattle.aol_expr_tree.specs.Tree.{read, sum};
ghost use Rattle.aol_expr_tree.specs.Writing.{tree_strength, left_needs, right_needs, mark, guarded, expr_text, expr_texts};

use aol_expr_tree::{Expr, ExprNode, ExprOp};
use aol_shape::{Items, Name, NoMemory};
use itoa::Buffer;
use std::alloc::{AllocError, Global};

/// How tightly a comparison binds, least of all.
const COMPARISON: u8 = 0;

/// How tightly what stands alone binds, most of all.
const ALONE: u8 = 3;

/// How tightly the operator binds.
fn strength(op: ExprOp) -> u8
    ensures { result ≡ strength op }
{
    match op {
        ExprOp::Lt | ExprOp::Le | ExprOp::Eq => COMPARISON,
        ExprOp::Add | ExprOp::Sub => 1,
        ExprOp::Mul | ExprOp::Div | ExprOp::Rem => 2,
        ExprOp::Min | ExprOp::Max => ALONE,
    }
}

/// How tightly the node's operator binds.
fn node_strength(node: &ExprNode) -> u8
    ensures { result ≡ tree_strength (tree_of node.now) }
{
    match node {
        ExprNode::Bin(op, _, _) => strength(*op),
        _ => ALONE,
    }
}

/// Whether the operator stands between its operands.
fn is_infix(op: ExprOp) -> bool
    ensures { result ≡ is_infix op }
{
    strength(op) < ALONE
}

/// Whether the left operand needs parentheses.
fn left_needs(op: ExprOp, left: &ExprNode) -> bool
    ensures { result ≡ left_needs op (tree_of left.now) }
{
    let own = strength(op);
    let inner = node_strength(left);
    inner < own || (own == COMPARISON && inner == COMPARISON)
}

/// Whether the right operand needs parentheses.
fn right_needs(op: ExprOp, right: &ExprNode) -> bool
    ensures { result ≡ right_needs op (tree_of right.now) }
{
    node_strength(right) <= strength(op)
}

/// The text of the operator.
fn op_text(op: ExprOp) -> &'static str
    ensures { result.now ≡ op_text op }
{
    match op {
        ExprOp::Add => "+",
        ExprOp::Sub => "-",
        ExprOp::Mul => "*",
        ExprOp::Div => "/",
        ExprOp::Rem => "%",
        ExprOp::Lt => "<",
        ExprOp::Le => "<=",
        ExprOp::Eq => "==",
        ExprOp::Min => "min",
        ExprOp::Max => "max",
    }
}

/// Appends a number.
fn append_number(text: &mut String, number: i64) -> Result<(), AllocError>
    ensures { OnOk result (string_bytes text.new ≡ string_bytes text.old ++ signed_decimal number) }
{
    let mut buffer = Buffer::new();
    text.push_str(buffer.format(number))
}

/// Appends a number that has no sign.
fn append_count(text: &mut String, number: u32) -> Result<(), AllocError>
    ensures { OnOk result (string_bytes text.new ≡ string_bytes text.old ++ decimal number) }
{
    let mut buffer = Buffer::new();
    text.push_str(buffer.format(number))
}

/// Appends an opening parenthesis, where it is needed.
fn append_open(text: &mut String, needs: bool) -> Result<(), AllocError>
    ensures { OnOk result (string_bytes text.new ≡ string_bytes text.old ++ mark needs 40) }
{
    if needs {
        text.push('(')?;
    }
    Ok(())
}

/// Appends a closing parenthesis, where it is needed.
fn append_close(text: &mut String, needs: bool) -> Result<(), AllocError>
    ensures { OnOk result (string_bytes text.new ≡ string_bytes text.old ++ mark needs 41) }
{
    if needs {
        text.push(')')?;
    }
    Ok(())
}

/// Appends the text of a node, of no more levels than the limit of expressions.
#[cycle(writing)]
fn append_node(text: &mut String, node: &ExprNode) -> Result<(), AllocError>
    ensures { OnOk result (string_bytes text.new ≡ string_bytes text.old ++ expr_text (tree_of node.now)) }
{
    match node {
        ExprNode::Num(number) => append_number(text, *number),
        ExprNode::Index(k) => {
            text.push('$')?;
            append_count(text, *k)
        }
        ExprNode::Var(name) => text.push_str(name.as_str()),
        ExprNode::Read(port, indices) => append_read(text, port, indices),
        ExprNode::Bin(op, left, right) if is_infix(*op) => {
            append_guarded(text, left_needs(*op, left), left)?;
            text.push_str(op_text(*op))?;
            append_guarded(text, right_needs(*op, right), right)
        }
        ExprNode::Bin(op, left, right) => {
            text.push_str(op_text(*op))?;
            append_after(text, "(", left)?;
            append_after(text, ",", right)?;
            text.push(')')
        }
        ExprNode::If(condition, then, otherwise) => {
            append_after(text, "if(", condition)?;
            append_after(text, ",", then)?;
            append_after(text, ",", otherwise)?;
            text.push(')')
        }
        ExprNode::Sum(name, terms, term) => append_sum(text, name, *terms, term),
    }
}

/// Appends a text and then a node.
#[cycle(writing)]
fn append_after(text: &mut String, front: &str, node: &ExprNode) -> Result<(), AllocError>
    ensures { OnOk result (string_bytes text.new ≡ string_bytes text.old ++ front.now ++ expr_text (tree_of node.now)) }
{
    text.push_str(front)?;
    append_node(text, node)
}

/// Appends a node, in parentheses where they are needed.
#[cycle(writing)]
fn append_guarded(text: &mut String, needs: bool, node: &ExprNode) -> Result<(), AllocError>
    ensures { OnOk result (string_bytes text.new ≡ string_bytes text.old ++ guarded needs (expr_text (tree_of node.now))) }
{
    append_open(text, needs)?;
    append_node(text, node)?;
    append_close(text, needs)
}

/// Appends a sum.
#[cycle(writing)]
fn append_sum(text: &mut String, name: &Name, terms: u32, term: &ExprNode) -> Result<(), AllocError>
    ensures { OnOk result (string_bytes text.new ≡ string_bytes text.old ++ expr_text (sum name.now terms (tree_of term.now))) }
{
    text.push_str("sum(")?;
    text.push_str(name.as_str())?;
    text.push(',')?;
    append_count(text, terms)?;
    append_after(text, ",", term)?;
    text.push(')')
}

/// Appends a port with its indices in braces.
#[cycle(writing)]
fn append_read(text: &mut String, port: &Name, indices: &Items<ExprNode>) -> Result<(), AllocError>
    ensures { OnOk result (string_bytes text.new ≡ string_bytes text.old ++ expr_text (read port.now (trees_of indices.now))) }
{
    text.push_str(port.as_str())?;
    text.push('{')?;
    append_indices(text, indices)?;
    text.push('}')
}

/// Appends nodes with commas between them.
#[cycle(writing)]
fn append_indices(text: &mut String, indices: &Items<ExprNode>) -> Result<(), AllocError>
    ensures { OnOk result (string_bytes text.new ≡ string_bytes text.old ++ join_with_byte 44 (expr_texts (trees_of indices.now))) }
{
    let Some((first, others)) = indices.as_slice().split_first() else {
        return Ok(());
    };
    append_node(text, first)?;
    for node in others {
        append_after(text, ",", node)?;
    }
    Ok(())
}

/// The canonical text of an expression: no blanks, no leading zeros, and parentheses only where they are needed.
pub fn write_expr(alloc: Global, e: &Expr) -> Result<Name, NoMemory>
    ensures { IfOk result (λ text. text ≡ expr_text e.now) }
{
    let mut text = String::new(alloc);
    append_node(&mut text, e.root())?;
    Name::from_str(alloc, text.as_str())
}
