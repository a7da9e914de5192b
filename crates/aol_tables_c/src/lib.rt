//! Tables of programs of the emitted subset of C: their texts, what they do, and how much work they are.
#![tactic(auto)]

#[cfg(test)]
mod programs;
#[cfg(test)]
mod runs;
#[cfg(test)]
mod texts;
