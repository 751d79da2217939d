// What is wrong with a document, and where; and why a call ends without an answer.
ghost use Rattle.std.specs.Prelude.{◌≡◌};
ghost use Rattle.base_kit.specs.Codes.{text_of};
ghost use Rattle.base_kit.specs.declared.fault.Stop.TheVariants.{Memory as memory_stop};

use crate::{Copied, Path};
use std::alloc::{AllocError, AllocFailed, Global};

/// The kinds of fault, by their codes.
#[derive(Clone, Copy, Debug, PartialEq, Eq)]
pub enum Code {
    /// BadByte: outside comments a byte that is no printable one, no tabulator and no line end.
    F01,
    /// BadToken: a byte at which no token begins, a token past its limit or with a bad underscore, or a
    /// number followed directly by a letter.
    F02,
    /// Syntax: a token that no reading admits.
    F03,
    /// TooDeep: nodes or parentheses within each other beyond a limit.
    F04,
    /// Unknown: a name that sees no declaration.
    F05,
    /// Duplicate: a declaration that its region has already.
    F06,
    /// Ambiguous: a name that two used packages declare, and nothing else.
    F07,
    /// WrongKind: a name, statement or declaration of a kind that doesn't fit.
    F08,
    /// WrongType: types that differ, a wrong number of actuals or components, or a body that differs
    /// from its declaration.
    F09,
    /// NotStatic: an expression that must be static isn't.
    F10,
    /// BadRange: a static value or a range outside its bounds, or a type that is too large.
    F11,
    /// Uncovered: a value or component that is covered never or twice.
    F12,
    /// NotVariable: the target of an assignment, or an actual that is written, is no variable.
    F13,
    /// Aliased: a call that writes one object by two ways.
    F14,
    /// FunctionWrites: a function that writes a formal or a global.
    F15,
    /// GlobalMissing: a package variable that the `global` clauses don't list with that mode.
    F16,
    /// NoInvariant: a loop without one.
    F17,
    /// NotEquation: an operator or a sort that isn't defined in one of the forms.
    F18,
    /// WrongSort: a term that is ill sorted, or of another sort than its place.
    F19,
    /// PrivateUse: a private type used as only its package may.
    F20,
    /// NoInitial: a variable without an initial expression.
    F21,
    /// ReadsOut: an `out` formal that is read.
    F22,
    /// Unsupported: a form of Ada that isn't in the profile.
    F23,
    /// GoalCount: a statement with too many goals; the count is their number.
    F24,
    /// TermSize: a goal with too many term nodes; the count is the greatest of its statement.
    F25,
    /// TermDepth: a goal with a term too deep; the count is the greatest of its statement.
    F26,
    /// NodeCount: a file or a document with too many nodes or proof steps; the count is their number.
    F27,
    /// BadPath: an edit whose path or text doesn't fit where it leads.
    F28,
    /// TotalSize: goals with too many term nodes in all; the count is the sum.
    F29,
}

impl Code {
    /// The code as it is printed: `F` and two digits.
    pub fn text(self) -> &'static str
        ensures { result.now ≡ text_of self }
    {
        match self {
            Code::F01 => "F01",
            Code::F02 => "F02",
            Code::F03 => "F03",
            Code::F04 => "F04",
            Code::F05 => "F05",
            Code::F06 => "F06",
            Code::F07 => "F07",
            Code::F08 => "F08",
            Code::F09 => "F09",
            Code::F10 => "F10",
            Code::F11 => "F11",
            Code::F12 => "F12",
            Code::F13 => "F13",
            Code::F14 => "F14",
            Code::F15 => "F15",
            Code::F16 => "F16",
            Code::F17 => "F17",
            Code::F18 => "F18",
            Code::F19 => "F19",
            Code::F20 => "F20",
            Code::F21 => "F21",
            Code::F22 => "F22",
            Code::F23 => "F23",
            Code::F24 => "F24",
            Code::F25 => "F25",
            Code::F26 => "F26",
            Code::F27 => "F27",
            Code::F28 => "F28",
            Code::F29 => "F29",
        }
    }
}

/// Where a fault is: at a file and its line, both counted from 1 (file 0 is the text of an
/// edit), or at a node of the tree.
#[derive(Drop)]
pub enum Place {
    Line(u32, u32),
    At(Path),
}

impl Copied for Place {
    fn copy(&self, alloc: Global) -> Result<Self, Memory> {
        Ok(match self {
            Place::Line(file, line) => Place::Line(*file, *line),
            Place::At(path) => Place::At(path.copy(alloc)?),
        })
    }
}

/// A fault. Its count is 0 where none is printed.
#[derive(Drop)]
pub struct Fault {
    pub code: Code,
    pub place: Place,
    pub count: u64,
}

impl Copied for Fault {
    fn copy(&self, alloc: Global) -> Result<Self, Memory> {
        Ok(Fault {
            code: self.code,
            place: self.place.copy(alloc)?,
            count: self.count,
        })
    }
}

/// Want of memory.
#[derive(Clone, Copy, Debug, PartialEq, Eq)]
pub struct Memory;

impl From<AllocError> for Memory {
    fn from(_: AllocError) -> Self {
        Memory
    }
}

impl<T: Drop> From<AllocFailed<T>> for Memory {
    fn from(_: AllocFailed<T>) -> Self {
        Memory
    }
}

/// Why a call ends without an answer: a fault of the document, or want of memory.
#[derive(Drop)]
pub enum Stop {
    Fault(Fault),
    Memory,
}

impl Copied for Stop {
    fn copy(&self, alloc: Global) -> Result<Self, Memory> {
        Ok(match self {
            Stop::Fault(fault) => Stop::Fault(fault.copy(alloc)?),
            Stop::Memory => Stop::Memory,
        })
    }
}

impl From<Memory> for Stop {
    ghost from_gives = { λ _ stop. stop ≡ memory_stop };

    fn from(_: Memory) -> Self {
        Stop::Memory
    }
}

impl From<AllocError> for Stop {
    ghost from_gives = { λ _ stop. stop ≡ memory_stop };

    fn from(_: AllocError) -> Self {
        Stop::Memory
    }
}

impl<T: Drop> From<AllocFailed<T>> for Stop {
    ghost from_gives = { λ _ stop. stop ≡ memory_stop };

    fn from(_: AllocFailed<T>) -> Self {
        Stop::Memory
    }
}
