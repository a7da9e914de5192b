//! A table of tests of the command `exec`: what it answers to a tree.
#![tactic(auto)]

#[cfg(test)]
mod answers;
