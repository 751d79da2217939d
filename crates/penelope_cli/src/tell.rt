// Writes to the sink.
ghost use Rattle.std.specs.Prelude.{◌≡◌, ◌≢◌};
ghost use Rattle.outside.specs.declared.status.Status.TheVariants.{SinkFailed};
ghost use Rattle.outside.specs.Meaning.{ShelfState};
ghost use Rattle.outside.specs.Plan.{Ran, Goes, say_all, finish, line_of};

use outside::{Sink, SinkError, Status, write_all};

// Writes bytes, or answers how the run ends.
fn say<K: Sink>(out: &mut K, text: &[u8]) -> Result<(), Status>
    ensures { (s : ShelfState) → Goes (say_all text.now) result s s
        (K.state out.old) (K.state out.new) }
{
    match write_all(out, text) {
        Ok(()) => Ok(()),
        Err(SinkError::Failed) => Err(Status::SinkFailed),
    }
}

// Writes a word and a name as a line, or answers how the run ends.
fn say_line<K: Sink>(out: &mut K, word: &str, name: &str) -> Result<(), Status>
    ensures { (s : ShelfState) → Goes (say_all (line_of word.now name.now)) result s s
        (K.state out.old) (K.state out.new) }
{
    say(out, word.as_bytes())?;
    say(out, name.as_bytes())?;
    say(out, b"\n")
}

/// Writes bytes, and then the run ends so.
pub fn end_with<K: Sink>(out: &mut K, text: &[u8], status: Status) -> Status
    requires sink { status ≢ SinkFailed }
    ensures { (s : ShelfState) → Ran (say_all text.now (finish status)) result s s
        (K.state out.old) (K.state out.new) }
{
    match say(out, text) {
        Ok(()) => status,
        Err(stopped) => stopped,
    }
}

/// Writes a word and a name as a line, and then the run ends so.
pub fn end_with_line<K: Sink>(out: &mut K, word: &str, name: &str, status: Status) -> Status
    requires sink { status ≢ SinkFailed }
    ensures { (s : ShelfState) → Ran (say_all (line_of word.now name.now) (finish status))
        result s s (K.state out.old) (K.state out.new) }
{
    match say_line(out, word, name) {
        Ok(()) => status,
        Err(stopped) => stopped,
    }
}
