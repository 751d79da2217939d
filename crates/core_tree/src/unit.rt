// Units of the core.
ghost use Rattle.std.specs.Prelude.{◌≡◌, IfOk};

use crate::{CoreStmt, Spec};
use ada_tree::DeclId;
use base_kit::{Copied, Listed, Memory, Path, Text};
use std::alloc::Global;
use term_core::Vars;

/// Paths in order.
pub type Paths = Listed<Path>;

/// A unit with a body, checked.
#[derive(Drop)]
pub struct CoreUnit {
    pub id: DeclId,
    /// The expanded name.
    pub name: Text,
    pub spec: Spec,
    /// Formals, globals, and then local objects and loop parameters, in text order. Static constants are none.
    pub objects: Vars,
    /// A `Block` of the unit's declarations, statements and handlers.
    pub body: CoreStmt,
    /// The path of each statement of the body in text order, each before those in it, and then that of the body itself.
    pub places: Paths,
}

// The copy of a unit, of which the name and the specification are copied.
fn copy_rest(unit: &CoreUnit, name: Text, spec: Spec, alloc: Global) -> Result<CoreUnit, Memory>
    requires { (name ≡ unit.now.name) × (spec ≡ unit.now.spec) }
    ensures { IfOk result (λ same. same ≡ unit.now) }
{
    let objects = unit.objects.copy(alloc)?;
    let places = unit.places.copy(alloc)?;
    Ok(CoreUnit {
        id: unit.id,
        name,
        spec,
        objects,
        body: unit.body.copy(alloc)?,
        places,
    })
}

impl Copied for CoreUnit {
    fn copy(&self, alloc: Global) -> Result<Self, Memory> {
        let name = self.name.copy(alloc)?;
        let spec = self.spec.copy(alloc)?;
        copy_rest(self, name, spec, alloc)
    }
}
