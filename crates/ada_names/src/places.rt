// Places in a document.
ghost use Rattle.std.specs.Prelude.{◌≡◌, IfOk};
ghost use Rattle.ada_names.specs.Places.{◌▸◌, has_ended as ended, is_in as inside_of};

use base_kit::{Copied, Memory, Path};
use std::alloc::Global;

/// The path of a kid. For a number past 32 bits there is no path.
pub fn kid(alloc: Global, at: &Path, number: usize) -> Result<Path, Memory>
    ensures { IfOk result (λ path. path ≡ at.now ▸ number) }
{
    let Ok(number) = u32::try_from(number) else {
        return Err(Memory);
    };
    let mut path = at.copy(alloc)?;
    path.0.push(number)?;
    Ok(path)
}

/// Whether the node at the first path has ended where the place begins.
pub fn has_ended(from: &[u32], place: &[u32]) -> bool
    ensures { result ≡ ended from.now place.now }
{
    let mut i = 0;
    while i < from.len() && i < place.len() {
        if from[i] < place[i] {
            return true;
        }
        if from[i] != place[i] {
            return false;
        }
        i += 1;
    }
    false
}

/// Whether the place is the node at the first path, or inside it.
pub fn is_in(node: &[u32], place: &[u32]) -> bool
    ensures { result ≡ inside_of node.now place.now }
{
    let mut i = 0;
    while i < node.len() {
        if i >= place.len() {
            return false;
        }
        if node[i] != place[i] {
            return false;
        }
        i += 1;
    }
    true
}
