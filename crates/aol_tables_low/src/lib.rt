//! Tables of calls for the lowest crates: shapes, streams of bytes, and scattered shares.
#![tactic(auto)]

#[cfg(test)]
mod io;
#[cfg(test)]
mod scatter;
#[cfg(test)]
mod shapes;
