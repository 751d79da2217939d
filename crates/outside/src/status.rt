// How a run ends.
ghost use Rattle.std.specs.Prelude.{◌≡◌};
ghost use Rattle.outside.specs.Statuses.{code_of};

/// How a run of the program ends: the statuses by their exit codes, from 0.
#[derive(Clone, Copy, Debug, PartialEq, Eq)]
pub enum Status {
    /// All was done.
    Done,
    /// All was done, but some edit was refused.
    SomeRefused,
    /// The words are in no form of a command.
    Usage,
    /// The sources have a fault.
    SourceFault,
    /// The shelf failed, or lacks a file.
    ShelfFailed,
    /// The sink failed, so the output was cut short.
    SinkFailed,
    /// The script has a fault.
    ScriptFault,
    /// Memory was wanted, so the output may be cut short.
    NoMemory,
}

impl Status {
    /// The exit status of the process.
    pub fn code(self) -> u8
        ensures { result ≡ code_of self }
    {
        self as u8
    }
}
