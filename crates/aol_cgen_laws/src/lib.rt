//! What an emitted program owes, and that it is enough.
//!
//! Read `specs/Emitted.antt` first: when a cell holds a value, what the step of a level and a worker owes, and what the
//! whole run then does. `emitted_is_right` says that right steps make a right run, whatever the order of the workers in
//! each level.
#![tactic(auto)]

ghost use Rattle.aol_cgen_laws.specs.Emitted.{EmittedIsRight};
ghost use Rattle.aol_cgen_laws.specs.Filled.{FilledIsRight};

/// A law: right steps make a right run for every order of the workers in each level.
pub fn emitted_is_right()
    ensures { EmittedIsRight }
{}

/// A law: a step is right whose statements fill the cells of its instances with what they give.
pub fn filled_is_right()
    ensures { FilledIsRight }
{}
