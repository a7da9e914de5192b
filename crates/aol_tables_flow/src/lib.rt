//! Tables of tests of models that are laid out: their cells, who writes and who reads, and the levels of their instances.
#![tactic(auto)]

#[cfg(test)]
mod flow;
#[cfg(test)]
mod models;
