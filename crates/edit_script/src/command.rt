// The commands of a script.
ghost use Rattle.std.specs.Prelude.{◌≡◌, ◌<◌, ◌^◌, IfOk, sum_by};

use base_kit::{Copied, Memory, Path, Text};
use sqlite_items::Items;
use std::alloc::Global;

/// A change of the document.
#[derive(Drop)]
pub enum Edit {
    /// The node at the path becomes the text.
    Replace(Path, Text),
    /// The text becomes a list member with the path.
    Insert(Path, Text),
    /// The list member at the path is removed.
    Delete(Path),
    /// The edits are made in order, as one.
    Batch(Edits),
}

/// Edits in order.
pub type Edits = Items<Edit>;

impl Copied for Edit {
    #[cycle(copy)]
    fn copy(&self, alloc: Global) -> Result<Self, Memory> {
        Ok(match self {
            Edit::Replace(path, text) => Edit::Replace(path.copy(alloc)?, text.copy(alloc)?),
            Edit::Insert(path, text) => Edit::Insert(path.copy(alloc)?, text.copy(alloc)?),
            Edit::Delete(path) => Edit::Delete(path.copy(alloc)?),
            Edit::Batch(edits) => Edit::Batch(copy_members(edits, alloc)?),
        })
    }
}

// The copy of a list inside an edit: the generic one can't be part of the recursion.
#[cycle(copy)]
fn copy_members(members: &Edits, alloc: Global) -> Result<Edits, Memory>
    ensures { IfOk result (λ same. same ≡ members.now) }
{
    let mut edits = Items::new(alloc);
    for edit in members.as_slice() {
        edits.push(edit.copy(alloc)?)?;
    }
    Ok(edits)
}

/// What is asked of the document.
#[derive(Drop)]
pub enum Query {
    /// The report.
    Report,
    /// The short report.
    Status,
    /// The sequent at a node of the proof of a key.
    Show(Text, u32),
    /// The canonical text of a file, by its number from 0.
    Print(u32),
    /// Every file is put under its name.
    Save,
}

impl Copied for Query {
    fn copy(&self, alloc: Global) -> Result<Self, Memory> {
        Ok(match self {
            Query::Report => Query::Report,
            Query::Status => Query::Status,
            Query::Show(key, node) => Query::Show(key.copy(alloc)?, *node),
            Query::Print(file) => Query::Print(*file),
            Query::Save => Query::Save,
        })
    }
}

/// What a line of a script asks for.
#[derive(Drop)]
pub enum Command {
    Edit(Edit),
    Query(Query),
}

impl Command {
    ghost use Rattle.edit_script.specs.Commands.{edits_in};

    /// How many edits it makes: the members of a batch count each, and a query makes none.
    pub fn edits(&self) -> u64
        ensures { result ≡ edits_in self.now }
    {
        match self {
            Command::Edit(Edit::Batch(edits)) => edits.len() as u64,
            Command::Edit(_) => 1,
            Command::Query(_) => 0,
        }
    }
}

impl Copied for Command {
    fn copy(&self, alloc: Global) -> Result<Self, Memory> {
        Ok(match self {
            Command::Edit(edit) => Command::Edit(edit.copy(alloc)?),
            Command::Query(query) => Command::Query(query.copy(alloc)?),
        })
    }
}

/// A command and the number of its line, from 1.
#[derive(Drop)]
pub struct Line {
    pub number: u32,
    pub command: Command,
}

impl Copied for Line {
    fn copy(&self, alloc: Global) -> Result<Self, Memory> {
        Ok(Line {
            number: self.number,
            command: self.command.copy(alloc)?,
        })
    }
}
