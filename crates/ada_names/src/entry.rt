// What a document says about names.
use ada_tree::{DeclId, Kind};
use base_kit::{Path, Text};

/// Where the name of an entry is looked up.
#[derive(Clone, Copy, Debug, PartialEq, Eq, Hash)]
pub enum Space {
    /// The predefined names.
    Predefined,
    /// Declarations, and the names that quantifiers, views and traits bind: by region and name.
    Names,
    /// Bodies of what is declared earlier, and full types of private types: by region and name.
    Completions,
    /// Components: by record and name.
    Components,
    /// Operators of traits, by name.
    Operators,
    /// Traits, by name.
    Traits,
    /// Lemmas: by trait and name.
    Lemmas,
    /// The names of `with` clauses: by unit and name.
    Withs,
    /// The names of `use` clauses, by region.
    Uses,
    /// The marks of `global` clauses: by `where` block and last name.
    Globals,
    /// The marks of raise clauses: by `where` block and last name.
    Raises,
    /// What isn't looked up by name: where a part of an annotation begins that is a term or isn't one, `where`
    /// blocks, the prefixes of marks, and package bodies without their package.
    Places,
}

/// A name that a document declares, binds, or mentions in a `with`, `use`, `global` or raise clause; or a
/// place that decides how names are seen: the node of an annotation at which terms begin (`Space::Places`).
#[derive(Drop)]
pub struct Entry {
    pub space: Space,
    /// The kind of the declaration: `Obj` for the name of a variable, `SubBody` for that of a subprogram
    /// in its body, `For` for a loop parameter. Of a name in a clause, the clause's; of the mark of a raise
    /// clause it is `Raise`, as `RaiseC` is that of the clause's node.
    pub kind: Kind,
    /// In upper case; empty where a term or a `where` block begins. Of a mark `P.X` it is X; P has an entry.
    pub name: Text,
    /// The node that holds the name.
    pub place: Path,
    /// The place of the declaration that this one completes, else its own.
    pub origin: Path,
    /// The node at which the region begins that the name belongs to.
    pub region: Path,
    /// The node from whose end on the name is visible. A package's is visible inside it too.
    pub from: Path,
    /// The subprogram round the region or at it; the empty path where there is none.
    pub within: Path,
    /// The number of the declaration, shared by what completes it; None where it has none.
    pub number: Option<DeclId>,
}
