// Asking conditions at a node.
ghost use Rattle.std.specs.Prelude.{◌≡◌, IfOk};
ghost use Rattle.ada_tree.specs.Sights.{fault as fault_of};
ghost use Rattle.static_values.specs.Judging.{asks, Gives};

use base_kit::{Code, Copied, Fault, Memory, Path, Place, Stop};
use std::alloc::Global;

// The fault of a node.
fn fault_at(alloc: Global, at: &Path, code: Code) -> Result<Fault, Memory>
    ensures { IfOk result (λ f. f ≡ fault_of code at.now) }
{
    Ok(Fault {
        code,
        place: Place::At(at.copy(alloc)?),
        count: 0,
    })
}

/// Fails with the first condition that holds. The rows stand by rising codes.
pub fn ask(alloc: Global, at: &Path, rows: &[(Code, bool)]) -> Result<(), Stop>
    ensures { Gives (asks at.now rows.now) tt result }
{
    for (code, holds) in rows {
        if *holds {
            return Err(Stop::Fault(fault_at(alloc, at, *code)?));
        }
    }
    Ok(())
}
