//! Tables of expressions: texts, and what reading, writing and evaluating them answers.
#![tactic(auto)]

#[cfg(test)]
mod texts;
#[cfg(test)]
mod values;
