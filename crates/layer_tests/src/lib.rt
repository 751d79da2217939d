//! Tests of the public calls of the crates that are about neither texts nor terms: what no clause says of
//! them, as that each can succeed with ample memory.
#![tactic(auto)]

#[cfg(test)]
mod attributes;
#[cfg(test)]
mod bases;
#[cfg(test)]
mod edges;
#[cfg(test)]
mod scripts;
