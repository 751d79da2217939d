// Names and what they see.
ghost use Rattle.std.specs.Prelude.{List, ℕ};
ghost use Rattle.ada_tree.specs.Sights.{Sight, Answers, parts_of};

use crate::doc::DeclId;
use crate::node::Node;
use base_kit::{Path, Stop};

/// Knows what the names of one document see. A call that takes a lookup beside a document has the
/// condition that they belong together.
pub trait Lookup {
    /// What a name sees at a path: a name of one part, or one selected from another.
    ghost sight: { Self → List (List ℕ) → List ℕ → Sight };

    /// The declaration that the name at the path sees: F05 at the path where it sees none, F07 where
    /// two packages that are used declare it and nothing else does. A node that is neither a `Name` nor a
    /// `Select` from a `Name` has no parts.
    fn find(&self, name: &Node, at: &Path) -> Result<DeclId, Stop>
        ensures { Answers (sight self.now (parts_of name.now) at.now) at.now result };
}
