//! Which obligation each proof takes, once the obligations that they prove have changed.
//!
//! What that is stands in `specs/Carrying`: a first pass by sequents and a second by keys. `laws` has
//! what holds of it; each law is the contract of a function that does nothing.
#![tactic(auto)]

mod carrying;
mod digest;
mod labels;
mod laws;
mod passing;

pub use carrying::{Carried, Laid, Takes, carry};
pub use laws::{
    carried_keys_are_distinct, carried_proofs_are_laid_there, carrying_twice_is_carrying_once,
    equal_sequents_pair_in_order, first_readings_go_by_keys, keys_tell_obligations,
    no_obligation_is_taken_twice, no_proof_is_lost, sequents_tell, takes_are_obligations,
    what_is_taken_fits,
};
