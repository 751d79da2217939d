//! Tests of types and static values, of `static_values` and `ada_types`: what no clause says of them, as that each
//! call can succeed with ample memory.
#![tactic(auto)]

#[cfg(test)]
mod declarations;
#[cfg(test)]
mod documents;
#[cfg(test)]
mod expressions;
#[cfg(test)]
mod records;
