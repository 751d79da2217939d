//! Tests of terms and what is made of them: of `term_core`, `term_counts`, `term_sorts`, `linear_facts` and
//! `proof_replay`. What no clause says of them, as that each call can succeed with ample memory.
#![tactic(auto)]

#[cfg(test)]
mod carrying;
#[cfg(test)]
mod certificates;
#[cfg(test)]
mod terms;
