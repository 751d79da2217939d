// The specifications of all units.
use crate::Spec;
use ada_tree::DeclId;
use base_kit::{Copied, Listed, Memory};
use std::alloc::Global;
use term_sorts::OpSorts;

/// A unit's number, and what is promised of it.
#[derive(Drop)]
pub struct UnitSpec {
    pub id: DeclId,
    pub spec: Spec,
}

impl Copied for UnitSpec {
    fn copy(&self, alloc: Global) -> Result<Self, Memory> {
        Ok(UnitSpec {
            id: self.id,
            spec: self.spec.copy(alloc)?,
        })
    }
}

/// Units in order; the first one of a number counts.
pub type UnitSpecs = Listed<UnitSpec>;

/// What a call may rest on: the specification of each unit, and the sorts of the operators of terms.
#[derive(Drop)]
pub struct Units {
    pub specs: UnitSpecs,
    pub ops: OpSorts,
}

impl Copied for Units {
    fn copy(&self, alloc: Global) -> Result<Self, Memory> {
        Ok(Units {
            specs: self.specs.copy(alloc)?,
            ops: self.ops.copy(alloc)?,
        })
    }
}
