//! Tables of tests of tilers, links, reshapes and their texts, over public calls alone.
#![tactic(auto)]

#[cfg(test)]
mod links;
#[cfg(test)]
mod made;
#[cfg(test)]
mod reshapes;
#[cfg(test)]
mod texts;
#[cfg(test)]
mod tilers;
