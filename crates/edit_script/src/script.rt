// Scripts.
ghost use Rattle.std.specs.Prelude.{◌≡◌, ◌+◌, ◌*◌, ◌<◌, ◌≤◌, ◌^◌, [], ◌∷◌, ◌++◌, None, IfOk, IfErr, OnOk, IfSome, length, find, filter_map, position};
ghost use Rattle.std.specs.List.{before_first, after_first};
ghost use Rattle.edit_script.specs.Commands.{edits_in, edits_of};
ghost use Rattle.edit_script.specs.Scripts.{is_line_feed, is_blank, command_in, numbered_from, lines_of, is_bad, line_in, IsReason, script_of, Answers, Gets};

use crate::command::{Command, Line};
use crate::line::{MOST_MEMBERS, command_of};
use base_kit::Memory;
use serde_json::Value;
use std::alloc::{AllocError, AllocFailed, Global};

/// The most edits of a script.
pub const MOST_EDITS: u64 = 10_000;

/// Why a script isn't run.
#[derive(Clone, Copy, Debug, PartialEq, Eq)]
pub enum ScriptError {
    /// The first line that isn't blank and is no command.
    BadLine(u32),
    /// More edits than a script may have, with their number.
    TooMany(u64),
    Memory,
}

impl From<Memory> for ScriptError {
    ghost use Rattle.edit_script.specs.declared.script.ScriptError.TheVariants.{Memory as want_of_memory};

    ghost from_gives = { λ _ error. error ≡ want_of_memory };

    fn from(_: Memory) -> Self {
        ScriptError::Memory
    }
}

impl<T: Drop> From<AllocFailed<T>> for ScriptError {
    ghost use Rattle.edit_script.specs.declared.script.ScriptError.TheVariants.{Memory as want_of_memory};

    ghost from_gives = { λ _ error. error ≡ want_of_memory };

    fn from(_: AllocFailed<T>) -> Self {
        ScriptError::Memory
    }
}

// Blanks, HT and CR alone.
fn is_blank(line: &[u8]) -> bool
    ensures { result ≡ is_blank line.now }
{
    line.iter()
        .all(|byte| matches!(*byte, b' ' | b'\t' | b'\r'))
}

// Where the first line ends, if it does with LF.
fn line_end(text: &[u8]) -> Option<usize>
    ensures { result ≡ position is_line_feed text.now }
{
    text.iter().position(|byte| *byte == b'\n')
}

// The first line, and what follows its end.
fn cut_line(text: &[u8]) -> (&[u8], &[u8])
    ensures line { result.0.now ≡ before_first is_line_feed text.now }
    ensures after { result.1.now ≡ after_first is_line_feed text.now }
{
    match line_end(text) {
        Some(end) => (&text[..end], &text[end + 1..]),
        None => (text, &text[text.len()..]),
    }
}

// The command that a line is. Its value lives no longer than this call.
fn command_in(alloc: Global, line: &[u8]) -> Result<Option<Command>, Memory>
    ensures command { IfOk result (λ command. command ≡ command_in line.now) }
    ensures few { IfOk result (λ command. IfSome command (λ found. edits_in found ≤ MOST_MEMBERS)) }
{
    match Value::from_slice(alloc, line) {
        Ok(value) => command_of(alloc, &value),
        Err(error) => {
            if error.is_memory() {
                Err(Memory)
            } else {
                Ok(None)
            }
        }
    }
}

// Adds what the line of this number says to the lines read so far.
fn read_line(
    alloc: Global,
    number: u32,
    line: &[u8],
    lines: &mut Vec<Line>,
) -> Result<(), ScriptError>
    ensures ok { OnOk result (find is_bad (numbered_from number (line.now ∷ [])) ≡ None) }
    ensures lines { OnOk result (lines.new.items
        ≡ lines.old.items ++ filter_map line_in (numbered_from number (line.now ∷ []))) }
    ensures few { OnOk result (edits_of lines.new.items ≤ edits_of lines.old.items + MOST_MEMBERS) }
    ensures err { IfErr result (λ e. IsReason e (find is_bad (numbered_from number (line.now ∷ [])))) }
{
    if is_blank(line) {
        return Ok(());
    }
    match command_in(alloc, line)? {
        Some(command) => Ok(lines.push(Line { number, command })?),
        None => Err(ScriptError::BadLine(number)),
    }
}

// The commands of a script, however many edits they make.
fn read_lines(alloc: Global, bytes: &[u8]) -> Result<Vec<Line>, ScriptError>
    requires { length bytes.now < 2 ^ 32 }
    ensures ok { OnOk result (find is_bad (lines_of bytes.now) ≡ None) }
    ensures lines { IfOk result (λ lines. lines.items ≡ filter_map line_in (lines_of bytes.now)) }
    ensures few { IfOk result (λ lines. edits_of lines.items ≤ MOST_MEMBERS * length bytes.now) }
    ensures err { IfErr result (λ e. IsReason e (find is_bad (lines_of bytes.now))) }
{
    let mut lines = Vec::new(alloc);
    let mut unread = bytes;
    let mut number = 0;
    while !unread.is_empty() {
        let (line, after) = cut_line(unread);
        unread = after;
        number += 1;
        read_line(alloc, number, line, &mut lines)?;
    }
    Ok(lines)
}

fn edits_of(lines: &[Line]) -> u64
    requires { edits_of lines.now < 2 ^ 64 }
    ensures { result ≡ edits_of lines.now }
{
    lines.iter().map(|line| line.command.edits()).sum()
}

/// The commands of a script, with the numbers of their lines from 1. It passes over the bytes once, and
/// holds the JSON value of one line at a time.
///
/// # Errors
///
/// `BadLine` has the number of the first line that is neither blank nor a command. Where there is none,
/// `TooMany` has the number of edits, members of a batch counted each, if they are more than a script may
/// have. `Memory` where memory runs out.
pub fn read_script(alloc: Global, bytes: &[u8]) -> Result<Vec<Line>, ScriptError>
    requires { length bytes.now < 2 ^ 32 }
    ensures answer { Answers result (script_of bytes.now) }
    ensures only { Gets (script_of bytes.now) result }
{
    let lines = read_lines(alloc, bytes)?;
    let edits = edits_of(lines.as_slice());
    if edits > MOST_EDITS {
        return Err(ScriptError::TooMany(edits));
    }
    Ok(lines)
}
