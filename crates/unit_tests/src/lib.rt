//! Tests of what is made of units, of `core_tree` and `lsl_traits`: what no clause says of them, as that each call can
//! succeed with ample memory.
#![tactic(auto)]

#[cfg(test)]
mod cores;
#[cfg(test)]
mod theories;
