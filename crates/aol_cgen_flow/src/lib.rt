//! What an accepted model has, so that its program is right.
//!
//! Read `specs/Flow.antt` first: what a step's instances read is there before the step, and all numbers have 64 bits. Then
//! `specs/Runs.antt`: the whole run of a program whose steps are right is never stuck, and ends with the values of every
//! solution.
#![tactic(auto)]

ghost use Rattle.aol_cgen_flow.specs.Flow.{AcceptedFlows};
ghost use Rattle.aol_cgen_flow.specs.Runs.{EmittedRunsAreRight};

/// A law: an accepted model with its levels and its placement has all that its steps need.
pub fn accepted_flows()
    ensures { AcceptedFlows }
{}

/// A law: a program whose steps are right runs rightly from all main inputs, in every order of the workers of each level.
pub fn emitted_runs_are_right()
    ensures { EmittedRunsAreRight }
{}
