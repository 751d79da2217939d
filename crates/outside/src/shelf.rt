// A shelf of files by name.
ghost use Rattle.std.specs.Prelude.{◌≡◌, ◌≤◌, length, option_map, IfOk, OnOk, IsErrOf};
ghost use Rattle.outside.specs.Meaning.{ShelfState, NoneFell, CalledTimes, Rose, Found, NotFound, FoundLonger, with_file, OthersStayHeld};

use std::alloc::Global;

/// Why a shelf doesn't do what it was called for.
#[derive(Clone, Copy, Debug, PartialEq, Eq)]
pub enum ShelfError {
    /// The shelf failed.
    Failed,
    /// There is no file of the name.
    Absent,
    /// The file is longer than the limit.
    TooLong,
    /// Memory was wanted.
    Memory,
}

/// Where files come from and go to.
pub trait Shelf {
    /// What it holds and how many calls it had, each where it tells it, and its counts. What is
    /// told stays told.
    ghost state: { Self → ShelfState };

    /// The bytes of the name, at most `limit` of them.
    fn get(&mut self, alloc: Global, name: &str, limit: u64) -> Result<Vec<u8>, ShelfError>
        ensures called { CalledTimes 1 (state self.old) (state self.new) }
        ensures counts { NoneFell (state self.old) (state self.new) }
        ensures kept { (state self.new).holds ≡ (state self.old).holds }
        ensures within { IfOk result (λ bytes. length bytes.items ≤ limit) }
        ensures found { IfOk result (λ bytes. Found (state self.old).holds name.now bytes.items) }
        ensures failed { IsErrOf result ShelfError.Failed → Rose (state self.old).faults (state self.new).faults }
        ensures absent { IsErrOf result ShelfError.Absent → Rose (state self.old).absences (state self.new).absences }
        ensures not_held { IsErrOf result ShelfError.Absent → NotFound (state self.old).holds name.now }
        ensures too_long { IsErrOf result ShelfError.TooLong → Rose (state self.old).excesses (state self.new).excesses }
        ensures longer { IsErrOf result ShelfError.TooLong → FoundLonger (state self.old).holds name.now limit };

    /// Makes the name hold the bytes. After want of memory nothing held changed; after a failure
    /// the name may hold anything.
    fn put(&mut self, alloc: Global, name: &str, bytes: &[u8]) -> Result<(), ShelfError>
        ensures called { CalledTimes 1 (state self.old) (state self.new) }
        ensures counts { NoneFell (state self.old) (state self.new) }
        ensures stored { OnOk result ((state self.new).holds ≡ option_map (with_file name.now bytes.now) (state self.old).holds) }
        ensures failed { IsErrOf result ShelfError.Failed → Rose (state self.old).faults (state self.new).faults }
        ensures others { IsErrOf result ShelfError.Failed → OthersStayHeld name.now (state self.old).holds (state self.new).holds }
        ensures memory { IsErrOf result ShelfError.Memory → (state self.new).holds ≡ (state self.old).holds }
        ensures not_absent { ¬ IsErrOf result ShelfError.Absent }
        ensures not_too_long { ¬ IsErrOf result ShelfError.TooLong };
}
