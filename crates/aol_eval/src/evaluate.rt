ghost use Rattle.std.specs.Prelude.{◌≡◌, ◌≢◌, [], ◌∷◌, length, pos, true};
ghost use Rattle.aol_eval.specs.Inputs.{given_of};
ghost use Rattle.aol_expr_tree.specs.Meaning.{value};
ghost use Rattle.aol_expr_tree.specs.Names.{names_ok};
ghost use Rattle.aol_expr_tree.specs.Node.{tree_of, trees_of};
ghost use Rattle.aol_expr_tree.specs.Tree.{read, sum};
ghost use Rattle.aol_eval.specs.Vars.{vars_of};

use crate::arithmetic::apply;
use crate::inputs::Inputs;
use crate::pattern::{Pattern, pattern_of};
use crate::place::number_of;
use crate::vars::Vars;
use aol_expr_tree::{Expr, ExprNode, ExprOp, Kind, Port};
use aol_shape::{Items, Name};

/// The value of an expression at a point of its output, or its first fault.
///
/// `nums` has the patterns of the ports `ins` one after another, each in order of rank; `at` is the
/// point. Parts are evaluated from left to right, of a choice only the part that is taken, and a
/// sum starts from 0 and adds its terms in order. Any fault but `Range` can come.
pub fn eval(e: &Expr, ins: &Items<Port>, nums: &[i64], at: &[u32]) -> Result<i64, Kind>
    requires { names_ok ins.now (length at.now) e.now ≡ true }
    ensures value { result ≡ value (record { ins = ins.now; nums = nums.now; at = at.now }) [] e.now }
    ensures no_range { result ≢ Err Kind.Range }
{
    let inputs = Inputs { ins, nums, at };
    value_of(e.root(), &inputs, &Vars::Unbound)
}

#[cycle(eval)]
pub(crate) fn value_of<'v>(
    node: &'v ExprNode,
    inputs: &Inputs,
    vars: &'v Vars<'v>,
) -> Result<i64, Kind>
    ensures { result ≡ value (given_of inputs.now) (vars_of vars.now) (tree_of node.now) }
{
    match node {
        ExprNode::Num(number) => Ok(*number),
        ExprNode::Index(k) => Ok(inputs.index(*k)),
        ExprNode::Var(name) => Ok(vars.value(name)),
        ExprNode::Read(port, indices) => element_of(port, indices, inputs, vars),
        ExprNode::Bin(op, left, right) => {
            let left = value_of(left, inputs, vars)?;
            let right = value_of(right, inputs, vars)?;
            apply(*op, left, right)
        }
        ExprNode::If(condition, then, otherwise) => {
            if value_of(condition, inputs, vars)? != 0 {
                value_of(then, inputs, vars)
            } else {
                value_of(otherwise, inputs, vars)
            }
        }
        ExprNode::Sum(name, terms, term) => sum_of(name, *terms, term, inputs, vars),
    }
}

/// The element of the named port at the indices, all of which are evaluated first.
#[cycle(eval)]
fn element_of<'v>(
    port: &Name,
    indices: &'v Items<ExprNode>,
    inputs: &Inputs,
    vars: &'v Vars<'v>,
) -> Result<i64, Kind>
    ensures { result ≡ value (given_of inputs.now) (vars_of vars.now) (read port.now (trees_of indices.now)) }
{
    let Pattern { mut place, nums } = pattern_of(inputs.ins.as_slice(), inputs.nums, port);
    for index in indices.as_slice() {
        place = place.with(value_of(index, inputs, vars)?);
    }
    number_of(nums, place.rank())
}

/// The sum of the term with the variable from 0 to below the number of terms, in this order.
#[cycle(eval)]
fn sum_of<'v>(
    name: &'v Name,
    terms: u32,
    term: &'v ExprNode,
    inputs: &Inputs,
    vars: &'v Vars<'v>,
) -> Result<i64, Kind>
    ensures { result ≡ value (given_of inputs.now) (vars_of vars.now) (sum name.now terms (tree_of term.now)) }
{
    let mut sum = 0;
    for k in 0..terms {
        sum = apply(ExprOp::Add, sum, term_at(name, k, term, inputs, vars)?)?;
    }
    Ok(sum)
}

/// The term with the variable at a number.
#[cycle(eval)]
fn term_at<'v>(
    name: &'v Name,
    k: u32,
    term: &'v ExprNode,
    inputs: &Inputs,
    vars: &'v Vars<'v>,
) -> Result<i64, Kind>
    ensures { result ≡ value (given_of inputs.now) ((name.now, pos k) ∷ vars_of vars.now) (tree_of term.now) }
{
    value_of(term, inputs, &Vars::Bound(name, i64::from(k), vars))
}
