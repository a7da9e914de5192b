//! Tables of tests of placement: the worker of each instance, and the entries that place nothing.
#![tactic(auto)]

#[cfg(test)]
mod placing;
