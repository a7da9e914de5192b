//! Tables of tests of documents: which are read, at which place others are refused, and what is written.
#![tactic(auto)]

#[cfg(test)]
mod reading;
#[cfg(test)]
mod writing;
