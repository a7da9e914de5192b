ghost use Rattle.std.specs.Prelude.{◌≡◌, ℕ, ℤ, List, [], IfOk, IfSome, IsSomeAnd};
ghost use Rattle.aol_expr_tree.specs.Meaning.{value};
ghost use Rattle.aol_eval.specs.Programs.{Computes, Yields};
ghost use Rattle.aol_eval.specs.Resolved.{plan_of, resolved};

use crate::compile::program_of;
use crate::program::{Program, outcome_of};
use crate::resolve::step_of;
use crate::run::{Frame, value_at};
use crate::step::Step;
use aol_expr_tree::{Bound, Expr, Kind, Port};
use aol_shape::{Items, NoMemory};
use std::alloc::Global;

/// An expression whose names are looked up once, for many evaluations.
///
/// Where it is small it has a program too, which is run first; where that comes to a fault, the steps tell which.
#[derive(Drop)]
pub struct Resolved {
    root: Step,
    program: Option<Program>,
    ghost same: { ∥ IfSome program (Computes (plan_of root)) ∥₁ },
}

/// The whole expression with its names resolved.
fn root_of(alloc: Global, e: &Expr, ins: &Items<Port>) -> Result<Step, NoMemory>
    ensures { IfOk result (λ step. plan_of step ≡ resolved ins.now [] e.now) }
{
    step_of(alloc, e.root(), ins.as_slice(), &Bound::Nothing)
}

/// The value by the program, where there is one and it comes to no fault.
fn programmed(program: &Option<Program>, nums: &[i64], at: &[u32]) -> Option<i64>
    ensures { IfSome result (λ z. IsSomeAnd program.now (λ p. Yields p nums.now at.now z)) }
{
    match program {
        Some(program) => outcome_of(program, nums, at),
        None => None,
    }
}

impl Resolved {
    ghost use Rattle.aol_eval.specs.Computed.{computed};

    /// The expression with its ports found among `ins`, and its variables among its sums.
    ///
    /// What it computes is the value of the expression with these ports, whatever the patterns and
    /// the output point.
    pub fn of(alloc: Global, e: &Expr, ins: &Items<Port>) -> Result<Resolved, NoMemory>
        ensures { IfOk result (λ r. (nums : List ℤ) (at : List ℕ) → computed r nums at ≡ value (record { ins = ins.now; nums = nums; at = at }) [] e.now) }
    {
        let root = root_of(alloc, e, ins)?;
        let program = program_of(alloc, &root);
        Ok(Resolved { root, program })
    }

    /// What it computes from the ports' patterns, one after another, each in order of rank, at a
    /// point of the output. It looks for no names and takes no memory.
    pub fn eval(&self, nums: &[i64], at: &[u32]) -> Result<i64, Kind>
        ensures { result ≡ computed self.now nums.now at.now }
    {
        match programmed(&self.program, nums, at) {
            Some(z) => Ok(z),
            None => value_at(&self.root, nums, at, &Frame::Outermost),
        }
    }
}
