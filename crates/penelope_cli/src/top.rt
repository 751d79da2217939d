// The whole program, over any shelf and any sink.
ghost use Rattle.std.specs.Prelude.{◌≡◌, ◌≤◌, ◌<◌, ◌^◌, length, map, string_bytes};
ghost use Rattle.std.specs.List.{All};
ghost use Rattle.outside.specs.Meaning.{ShelfState};
ghost use Rattle.outside.specs.Plan.{Ran};
ghost use Rattle.penelope_cli.specs.declared.words.TheConstants.{MOST_SOURCES};
ghost use Rattle.penelope_cli.specs.Commands.{names_of};
ghost use Rattle.penelope_cli.specs.Fresh.{fresh};
ghost use Rattle.penelope_cli.specs.Plans.{plan_of, plan_of_command, tell};
ghost use Rattle.penelope_cli.specs.Promises.{Run, Keeps};
ghost use Rattle.penelope_cli.specs.Words.{named};

use crate::fresh::{Outcome, fresh};
use crate::gets::get_all;
use crate::tell::end_with;
use crate::words::{Command, command_of};
use base_kit::{Ledger, Steps, Text};
use outside::{Shelf, Sink, Status};
use std::alloc::Global;

const USAGE: &str =
    "usage: penelope check FILES | print FILES | edit FILES --script FILE | grow N\n";

// Tells what a command says of its sources.
fn tell<K: Sink>(alloc: Global, command: Command<'_>, sources: &[Text], out: &mut K) -> Status
    requires number { length sources.now < 2 ^ 32 }
    requires bytes { All (λ bytes. length bytes < 2 ^ 32) sources.now }
    ensures { (s : ShelfState) → Ran (tell (fresh (named command.entry) sources.now)) result s s
        (K.state out.old) (K.state out.new) }
{
    match fresh(alloc, command, sources) {
        Ok(Outcome::Text(text)) => end_with(out, text.as_bytes(), Status::Done),
        Ok(Outcome::Faulty(line)) => end_with(out, line.as_bytes(), Status::SourceFault),
        Err(_) => Status::NoMemory,
    }
}

// Gets the sources of a command, and tells what it says of them.
fn perform<S: Shelf, K: Sink>(
    alloc: Global,
    command: Command<'_>,
    shelf: &mut S,
    out: &mut K,
) -> Status
    requires { length (names_of (named command)) ≤ MOST_SOURCES }
    ensures { Ran (plan_of_command (named command.entry)) result
        (S.state shelf.old) (S.state shelf.new) (K.state out.old) (K.state out.new) }
{
    match get_all(alloc, command.names(), shelf, out) {
        Ok(sources) => tell(alloc, command, sources.as_slice(), out),
        Err(stopped) => stopped,
    }
}

// Does what the words say, and answers how the run ended.
fn obey<S: Shelf, K: Sink>(alloc: Global, words: &[String], shelf: &mut S, out: &mut K) -> Status
    ensures { Ran (plan_of (map string_bytes words.now)) result
        (S.state shelf.old) (S.state shelf.new) (K.state out.old) (K.state out.new) }
{
    match command_of(words) {
        None => end_with(out, USAGE.as_bytes(), Status::Usage),
        Some(command) => perform(alloc, command, shelf, out),
    }
}

/// Does what the words after the program's name say, and answers the exit status. What is promised
/// of each run is the record `Keeps` of `specs/Promises`.
pub fn penelope<S: Shelf, K: Sink, L: Ledger>(
    alloc: Global,
    words: &[String],
    shelf: &mut S,
    out: &mut K,
    _steps: &mut Steps<L>,
) -> u8
    ensures { Keeps record {
      words = map string_bytes words.now;
      code = result;
      shelf = S.state shelf.old;
      shelf_after = S.state shelf.new;
      sink = K.state out.old;
      sink_after = K.state out.new;
    } }
{
    obey(alloc, words, shelf, out).code()
}
