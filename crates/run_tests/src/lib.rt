//! Tests of whole runs: what no clause says of them, as worked texts and that each command succeeds with ample
//! memory.
#![tactic(auto)]

#[cfg(test)]
mod checking;
#[cfg(test)]
mod documents;
#[cfg(test)]
mod failing;
#[cfg(test)]
mod printing;
#[cfg(test)]
mod running;
#[cfg(test)]
mod words;
