// Proof obligations.
use crate::Sequent;
use base_kit::{Copied, Listed, Memory, Text};
use std::alloc::Global;

/// What is to be proved of a unit: the sequent of the path of this ordinal, from 1, that begins
/// at the cut point of this label. (A lemma's has an empty label and the ordinal 0.)
#[derive(Drop)]
pub struct Obligation {
    pub cut: Text,
    pub ordinal: u32,
    pub sequent: Sequent,
}

impl Copied for Obligation {
    fn copy(&self, alloc: Global) -> Result<Self, Memory> {
        Ok(Obligation {
            cut: self.cut.copy(alloc)?,
            ordinal: self.ordinal,
            sequent: self.sequent.copy(alloc)?,
        })
    }
}

/// Obligations in order.
pub type Obligations = Listed<Obligation>;
