// A shelf in memory, which fails at given calls.
ghost use Rattle.std.specs.Prelude.{◌≡◌, ◌↔◌, ◌≤◌, [], length, option_map, OnOk, OnErr, IfOk, IsErrOf, option_copied};
ghost use Rattle.outside.specs.Entries.{files_of};
ghost use Rattle.outside.specs.Meaning.{with_file, NoneFell, CalledTimes, Rose, Found, NotFound, FoundLonger, OthersStayHeld};
ghost use Rattle.outside.specs.MemoryShelf.{as_shelf, FailsNext, counted};

use crate::{Shelf, ShelfError};
use base_kit::{Memory, Text};
use std::alloc::Global;
use std::marker::Model;

/// A file: its name and its bytes.
#[derive(Drop)]
pub struct Entry {
    pub name: Text,
    pub bytes: Text,
}

/// Files in memory. Its calls of `get` and `put` are counted together from 1, and those whose
/// numbers are in `failing` fail.
#[derive(Drop)]
pub struct MemShelf {
    entries: Vec<Entry>,
    failing: Vec<u64>,
    calls: u64,
    faults: u64,
    absences: u64,
    excesses: u64,
}

impl Model for MemShelf {
    ghost use Rattle.outside.specs.MemoryShelf.{MemoryShelf};

    ghost Value = { MemoryShelf };

    ghost view = { λ m. record { entries = m.entries.items; failing = m.failing.items; calls = m.calls; faults = m.faults; absences = m.absences; excesses = m.excesses } };
}

// The bytes of a name: those of the first entry that has it.
fn find<'a>(entries: &'a [Entry], name: &[u8]) -> Option<&'a [u8]>
    ensures { option_copied result ≡ files_of entries.now name.now }
{
    for entry in entries {
        if entry.name.as_bytes() == name {
            return Some(entry.bytes.as_bytes());
        }
    }
    None
}

// Puts an entry before all others.
fn add_entry(
    alloc: Global,
    entries: &mut Vec<Entry>,
    name: &[u8],
    bytes: &[u8],
) -> Result<(), Memory>
    ensures ok { OnOk result (files_of entries.new.items ≡ with_file name.now bytes.now (files_of entries.old.items)) }
    ensures err { OnErr result (entries.new.items ≡ entries.old.items) }
{
    let name = Text::from(name.to_vec(alloc)?);
    let bytes = Text::from(bytes.to_vec(alloc)?);
    entries.insert(0, Entry { name, bytes })?;
    Ok(())
}

impl MemShelf {
    /// A shelf without files. It takes no memory.
    pub fn new(alloc: Global, failing: Vec<u64>) -> Self
        ensures { result ≡ record { entries = []; failing = failing.items; calls = 0; faults = 0; absences = 0; excesses = 0 } }
    {
        MemShelf {
            entries: Vec::new(alloc),
            failing,
            calls: 0,
            faults: 0,
            absences: 0,
            excesses: 0,
        }
    }

    /// Adds or replaces a file. It isn't counted as a call.
    pub fn add(&mut self, alloc: Global, name: &str, bytes: &[u8]) -> Result<(), Memory>
        ensures ok { OnOk result (files_of self.new.entries ≡ with_file name.now bytes.now (files_of self.old.entries)) }
        ensures rest { self.new ≡ record self.old { entries = self.new.entries } }
        ensures err { OnErr result (self.new ≡ self.old) }
    {
        add_entry(alloc, &mut self.entries, name.as_bytes(), bytes)
    }

    /// The bytes of a name; None exactly where it isn't held. It takes no memory.
    pub fn bytes(&self, name: &str) -> Option<&[u8]>
        ensures { option_copied result ≡ files_of self.now.entries name.now }
    {
        find(self.entries.as_slice(), name.as_bytes())
    }

    /// How many calls of `get` and `put` it had.
    pub fn calls(&self) -> u64
        ensures { result ≡ self.now.calls }
    {
        self.calls
    }

    /// How many calls failed.
    pub fn faults(&self) -> u64
        ensures { result ≡ self.now.faults }
    {
        self.faults
    }

    /// How many calls found no file.
    pub fn absences(&self) -> u64
        ensures { result ≡ self.now.absences }
    {
        self.absences
    }

    /// How many calls found too long a file.
    pub fn excesses(&self) -> u64
        ensures { result ≡ self.now.excesses }
    {
        self.excesses
    }
}

impl Shelf for MemShelf {
    ghost use Rattle.outside.specs.MemoryShelf.{as_shelf};

    ghost state = { as_shelf };

    fn get(&mut self, alloc: Global, name: &str, limit: u64) -> Result<Vec<u8>, ShelfError>
        ensures called { CalledTimes 1 (as_shelf self.old) (as_shelf self.new) }
        ensures counts { NoneFell (as_shelf self.old) (as_shelf self.new) }
        ensures kept { (as_shelf self.new).holds ≡ (as_shelf self.old).holds }
        ensures within { IfOk result (λ bytes. length bytes.items ≤ limit) }
        ensures found { IfOk result (λ bytes. Found (as_shelf self.old).holds name.now bytes.items) }
        ensures failed { IsErrOf result ShelfError.Failed → Rose (as_shelf self.old).faults (as_shelf self.new).faults }
        ensures absent { IsErrOf result ShelfError.Absent → Rose (as_shelf self.old).absences (as_shelf self.new).absences }
        ensures not_held { IsErrOf result ShelfError.Absent → NotFound (as_shelf self.old).holds name.now }
        ensures too_long { IsErrOf result ShelfError.TooLong → Rose (as_shelf self.old).excesses (as_shelf self.new).excesses }
        ensures longer { IsErrOf result ShelfError.TooLong → FoundLonger (as_shelf self.old).holds name.now limit }

        // Beside what every shelf ensures: which calls fail, and what is left.
        ensures fails { IsErrOf result ShelfError.Failed ↔ FailsNext self.old }
        ensures counted { self.new ≡ counted self.old result }
    {
        self.calls = self.calls.saturating_add(1);
        if self.failing.contains(&self.calls) {
            self.faults = self.faults.saturating_add(1);
            return Err(ShelfError::Failed);
        }
        match find(self.entries.as_slice(), name.as_bytes()) {
            None => {
                self.absences = self.absences.saturating_add(1);
                Err(ShelfError::Absent)
            }
            Some(bytes) if bytes.len() as u64 > limit => {
                self.excesses = self.excesses.saturating_add(1);
                Err(ShelfError::TooLong)
            }
            Some(bytes) => match bytes.to_vec(alloc) {
                Ok(bytes) => Ok(bytes),
                Err(_) => Err(ShelfError::Memory),
            },
        }
    }

    fn put(&mut self, alloc: Global, name: &str, bytes: &[u8]) -> Result<(), ShelfError>
        ensures called { CalledTimes 1 (as_shelf self.old) (as_shelf self.new) }
        ensures counts { NoneFell (as_shelf self.old) (as_shelf self.new) }
        ensures stored { OnOk result ((as_shelf self.new).holds ≡ option_map (with_file name.now bytes.now) (as_shelf self.old).holds) }
        ensures failed { IsErrOf result ShelfError.Failed → Rose (as_shelf self.old).faults (as_shelf self.new).faults }
        ensures others { IsErrOf result ShelfError.Failed → OthersStayHeld name.now (as_shelf self.old).holds (as_shelf self.new).holds }
        ensures memory { IsErrOf result ShelfError.Memory → (as_shelf self.new).holds ≡ (as_shelf self.old).holds }
        ensures not_absent { ¬ IsErrOf result ShelfError.Absent }
        ensures not_too_long { ¬ IsErrOf result ShelfError.TooLong }

        // Beside what every shelf ensures: which calls fail, and what is left.
        ensures fails { IsErrOf result ShelfError.Failed ↔ FailsNext self.old }
        ensures counted { self.new ≡ record (counted self.old result) { entries = self.new.entries } }
        ensures kept { OnErr result (self.new.entries ≡ self.old.entries) }
    {
        self.calls = self.calls.saturating_add(1);
        if self.failing.contains(&self.calls) {
            self.faults = self.faults.saturating_add(1);
            return Err(ShelfError::Failed);
        }
        match add_entry(alloc, &mut self.entries, name.as_bytes(), bytes) {
            Ok(()) => Ok(()),
            Err(_) => Err(ShelfError::Memory),
        }
    }
}
