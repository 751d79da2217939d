// Scripts of every sort, as tables; the limits; and what each command gives.
use base_kit::{Copied, Memory, Path};
use edit_script::{Command, Edit, Line, Query, ScriptError, read_script};
use std::alloc::Global;
use std::test::Fail;

// What a script is: so many commands, the last of them in this line; or its error.
#[derive(Clone, Copy, PartialEq, Eq)]
enum Outcome {
    Commands(usize, u32),
    BadLine(u32),
    TooMany(u64),
    Memory,
}

fn outcome_of(alloc: Global, script: &[u8]) -> Outcome {
    if script.len() >= 1 << 32 {
        return Outcome::Memory;
    }
    match read_script(alloc, script) {
        Ok(lines) => Outcome::Commands(lines.len(), lines.last().map_or(0, |line| line.number)),
        Err(ScriptError::BadLine(line)) => Outcome::BadLine(line),
        Err(ScriptError::TooMany(edits)) => Outcome::TooMany(edits),
        Err(ScriptError::Memory) => Outcome::Memory,
    }
}

const LINES: &[(&[u8], Outcome)] = &[
    // no line, blank lines, ends of lines
    (b"", Outcome::Commands(0, 0)),
    (b"\n", Outcome::Commands(0, 0)),
    (b" \t\r\n\r\n \n", Outcome::Commands(0, 0)),
    (b"{\"op\":\"save\"}", Outcome::Commands(1, 1)),
    (b"{\"op\":\"save\"}\r\n", Outcome::Commands(1, 1)),
    (b"\n \t\r\n{\"op\":\"save\"}", Outcome::Commands(1, 3)),
    (
        b"{\"op\":\"save\"}\n\n{\"op\":\"report\"}\n",
        Outcome::Commands(2, 3),
    ),
    (b"{\"op\":\"save\"}\r{\"op\":\"save\"}", Outcome::BadLine(1)),
    (b"{\"op\":\"save\"}{\"op\":\"save\"}", Outcome::BadLine(1)),
    (b"\x0b", Outcome::BadLine(1)),
    (b"\x0c\n", Outcome::BadLine(1)),
    // the first bad line
    (b"{\"op\":\"save\"}\n\n{\"op\":\"sa", Outcome::BadLine(3)),
    (b"{\"op\":\"save\"}\n{}\n{}\n", Outcome::BadLine(2)),
    // no objects, and others
    (b"null", Outcome::BadLine(1)),
    (b"[]", Outcome::BadLine(1)),
    (b"\"save\"", Outcome::BadLine(1)),
    (b"{}", Outcome::BadLine(1)),
    (b"{\"op\":\"Save\"}", Outcome::BadLine(1)),
    (b"{\"op\":[\"save\"]}", Outcome::BadLine(1)),
    (b"{\"Op\":\"save\"}", Outcome::BadLine(1)),
    (b"{\"op\":\"save\",}", Outcome::BadLine(1)),
    (b"{\"op\":\"save\",\"all\":true}", Outcome::BadLine(1)),
    (
        b"{\"op\":\"save\",\"op\":\"save\"}",
        Outcome::Commands(1, 1),
    ),
    (b"{\"op\":1,\"op\":\"save\"}", Outcome::Commands(1, 1)),
    (b"{\"op\":\"save\",\"op\":1}", Outcome::BadLine(1)),
    (
        b" { \"\\u006fp\" : \"s\\u0061ve\" } ",
        Outcome::Commands(1, 1),
    ),
    // what isn't JSON for the library
    (b"\xef\xbb\xbf{\"op\":\"save\"}", Outcome::BadLine(1)),
    (
        b"{\"op\":\"show\",\"key\":\"\xff\",\"node\":1}",
        Outcome::BadLine(1),
    ),
    (
        b"{\"op\":\"show\",\"key\":\"\xc3\xa9\",\"node\":1}",
        Outcome::Commands(1, 1),
    ),
    (
        b"{\"op\":\"show\",\"key\":\"\\ud800\",\"node\":1}",
        Outcome::BadLine(1),
    ),
    (
        b"{\"op\":\"show\",\"key\":\"\\ud83d\\ude00\",\"node\":1}",
        Outcome::Commands(1, 1),
    ),
    (
        b"{\"op\":\"show\",\"key\":\"\t\",\"node\":1}",
        Outcome::BadLine(1),
    ),
    (b"{'op':'save'}", Outcome::BadLine(1)),
    // members of other forms, and too few
    (b"{\"op\":\"replace\",\"at\":[]}", Outcome::BadLine(1)),
    (
        b"{\"op\":\"delete\",\"at\":[],\"text\":\"\"}",
        Outcome::BadLine(1),
    ),
    (b"{\"op\":\"report\",\"file\":0}", Outcome::BadLine(1)),
    (
        b"{\"op\":\"show\",\"key\":0,\"node\":1}",
        Outcome::BadLine(1),
    ),
    (
        b"{\"op\":\"insert\",\"at\":[],\"text\":null}",
        Outcome::BadLine(1),
    ),
    // deeper than the library reads
    (
        b"[[[[[[[[[[[[[[[[[[[[[[[[[[[[[[[[[[[[[[[[[[[[[[[[[[[[[[[[[[[[[[[[[[[[[[[[[[[[[[[[[[[[[[[[[[[[[[[[[[[[[[[[[[[[[[[[[[[[[[[[[[[[[[[[[[]]]]]]]]]]]]]]]]]]]]]]]]]]]]]]]]]]]]]]]]]]]]]]]]]]]]]]]]]]]]]]]]]]]]]]]]]]]]]]]]]]]]]]]]]]]]]]]]]]]]]]]]]]]]]]]]]]]]]]]]]]]]]]]]]]",
        Outcome::BadLine(1),
    ),
];

// What stands in a path, and whether the path is one.
const STEPS: &[(&[u8], bool)] = &[
    (b"", true),
    (b"0", true),
    (b" 4294967295 , 10 ", true),
    (b"4294967296", false),
    (b"18446744073709551616", false),
    (b"1.0", false),
    (b"1e0", false),
    (b"1E1", false),
    (b"-0", false),
    (b"-1", false),
    (b"+1", false),
    (b"01", false),
    (b"00", false),
    (b"1e999", false),
    (b"1,", false),
    (b"\"1\"", false),
    (b"[1]", false),
    (b"null", false),
    (b"0x1", false),
    (b"1_0", false),
];

// The text between two others, so often, with a comma between each two.
fn between(
    alloc: Global,
    front: &[u8],
    piece: &[u8],
    count: u32,
    back: &[u8],
) -> Result<Vec<u8>, Memory> {
    let mut text = Vec::from_slice(alloc, front)?;
    for number in 0..count {
        if number > 0 {
            text.push(b',')?;
        }
        text.extend_from_slice(piece)?;
    }
    text.extend_from_slice(back)?;
    Ok(text)
}

fn path_outcome(alloc: Global, steps: &[u8], count: u32) -> Result<Outcome, Memory> {
    let line = between(alloc, b"{\"op\":\"delete\",\"at\":[", steps, count, b"]}")?;
    Ok(outcome_of(alloc, line.as_slice()))
}

fn batch_outcome(alloc: Global, member: &[u8], count: u32) -> Result<Outcome, Memory> {
    let line = between(
        alloc,
        b"{\"op\":\"batch\",\"edits\":[",
        member,
        count,
        b"]}",
    )?;
    Ok(outcome_of(alloc, line.as_slice()))
}

// So many batches of a thousand edits, and this line.
fn batches_outcome(alloc: Global, count: u32, last: &[u8]) -> Result<Outcome, Memory> {
    let line = between(
        alloc,
        b"{\"op\":\"batch\",\"edits\":[",
        DELETE,
        1000,
        b"]}\n",
    )?;
    let mut script = Vec::new(alloc);
    for _ in 0..count {
        script.extend_from_slice(line.as_slice())?;
    }
    script.extend_from_slice(last)?;
    Ok(outcome_of(alloc, script.as_slice()))
}

// So many lines of one edit, and this line.
fn edits_outcome(alloc: Global, count: u32, last: &[u8]) -> Result<Outcome, Memory> {
    let mut script = Vec::new(alloc);
    for _ in 0..count {
        script.extend_from_slice(DELETE)?;
        script.push(b'\n')?;
    }
    script.extend_from_slice(last)?;
    Ok(outcome_of(alloc, script.as_slice()))
}

const DELETE: &[u8] = b"{\"op\":\"delete\",\"at\":[]}";

// The number of the first row that is wrong.
fn first_misread(alloc: Global) -> Option<usize> {
    LINES
        .iter()
        .position(|(script, wanted)| outcome_of(alloc, script) != *wanted)
}

#[test]
fn scripts_are_read_line_by_line(rt: HostRuntime) {
    assert_eq!(rt; first_misread(rt.alloc()), None);
}

// Whether a path of so many of these steps is one exactly where this says so.
fn path_is(alloc: Global, steps: &[u8], count: u32, is_path: bool) -> Result<bool, Memory> {
    let wanted = if is_path {
        Outcome::Commands(1, 1)
    } else {
        Outcome::BadLine(1)
    };
    Ok(path_outcome(alloc, steps, count)? == wanted)
}

// The number of the first row that is wrong.
fn first_wrong_path(alloc: Global) -> Option<usize> {
    STEPS.iter().position(|(steps, is_path)| path_is(alloc, steps, 1, *is_path) != Ok(true))
}

#[test]
fn whole_numbers_are_digits_alone(rt: HostRuntime) {
    assert_eq!(rt; first_wrong_path(rt.alloc()), None);
}

// So many members in a batch.
fn batch_is(alloc: Global, member: &[u8], count: u32, wanted: Outcome) -> Result<bool, Memory> {
    Ok(batch_outcome(alloc, member, count)? == wanted)
}

const SAVE: &[u8] = b"{\"op\":\"save\"}";

const BATCH: &[u8] = b"{\"op\":\"batch\",\"edits\":[{\"op\":\"delete\",\"at\":[]}]}";

#[test]
fn paths_and_batches_have_limits(rt: HostRuntime) -> Result<(), Fail> {
    let alloc = rt.alloc();
    assert!(rt; path_is(alloc, b"7", 256, true)?);
    assert!(rt; path_is(alloc, b"7", 257, false)?);
    assert!(rt; batch_is(alloc, DELETE, 0, Outcome::BadLine(1))?);
    assert!(rt; batch_is(alloc, DELETE, 1, Outcome::Commands(1, 1))?);
    assert!(rt; batch_is(alloc, DELETE, 1000, Outcome::Commands(1, 1))?);
    assert!(rt; batch_is(alloc, DELETE, 1001, Outcome::BadLine(1))?);
    assert!(rt; batch_is(alloc, SAVE, 1, Outcome::BadLine(1))?);
    assert!(rt; batch_is(alloc, BATCH, 1, Outcome::BadLine(1))?);
    Ok(())
}

fn edits_are(alloc: Global, count: u32, last: &[u8], wanted: Outcome) -> Result<bool, Memory> {
    Ok(edits_outcome(alloc, count, last)? == wanted)
}

fn batches_are(alloc: Global, count: u32, last: &[u8], wanted: Outcome) -> Result<bool, Memory> {
    Ok(batches_outcome(alloc, count, last)? == wanted)
}

#[test]
fn scripts_have_a_limit_of_edits(rt: HostRuntime) -> Result<(), Fail> {
    let alloc = rt.alloc();
    assert!(rt; edits_are(alloc, 10_000, SAVE, Outcome::Commands(10_001, 10_001))?);
    assert!(rt; edits_are(alloc, 10_001, b"", Outcome::TooMany(10_001))?);
    assert!(rt; edits_are(alloc, 10_001, b"{}", Outcome::BadLine(10_002))?);
    assert!(rt; batches_are(alloc, 10, b"", Outcome::Commands(10, 10))?);
    assert!(rt; batches_are(alloc, 10, DELETE, Outcome::TooMany(10_001))?);
    Ok(())
}

fn add_path(alloc: Global, line: &mut String, path: &Path) -> Result<(), Memory> {
    for step in &path.0 {
        line.push_str(format!(in alloc; " {step}")?.as_str())?;
    }
    Ok(())
}

fn add_bytes(line: &mut String, text: &[u8]) -> Result<(), Memory> {
    for byte in text {
        line.push(char::from(*byte))?;
    }
    Ok(())
}

// A word, the numbers of a path, and a text, one after another.
fn shown(alloc: Global, word: &str, path: &Path, text: &[u8]) -> Result<String, Memory> {
    let mut line = String::from_str(alloc, word)?;
    add_path(alloc, &mut line, path)?;
    line.push_str(" ")?;
    add_bytes(&mut line, text)?;
    Ok(line)
}

fn edit_shown(alloc: Global, edit: &Edit) -> Result<String, Memory> {
    match edit {
        Edit::Replace(path, text) => shown(alloc, "replace", path, text.as_bytes()),
        Edit::Insert(path, text) => shown(alloc, "insert", path, text.as_bytes()),
        Edit::Delete(path) => shown(alloc, "delete", path, b""),
        Edit::Batch(edits) => Ok(format!(in alloc; "batch of {}", edits.len())?),
    }
}

fn query_shown(alloc: Global, query: &Query) -> Result<String, Memory> {
    Ok(match query {
        Query::Report => String::from_str(alloc, "report")?,
        Query::Status => String::from_str(alloc, "status")?,
        Query::Show(key, node) => format!(in alloc;
            "show {} of {} bytes",
            node,
            key.as_bytes().len()
        )?,
        Query::Print(file) => format!(in alloc; "print {file}")?,
        Query::Save => String::from_str(alloc, "save")?,
    })
}

fn command_shown(alloc: Global, line: &Line) -> Result<String, Memory> {
    match &line.command {
        Command::Edit(edit) => edit_shown(alloc, edit),
        Command::Query(query) => query_shown(alloc, query),
    }
}

// The copy of the first of these commands, as a text; nothing where there is none.
fn first_of(alloc: Global, lines: &[Line]) -> Result<String, Memory> {
    match lines.first() {
        Some(line) => command_shown(alloc, &line.copy(alloc)?),
        None => Ok(String::new(alloc)),
    }
}

// The same of a script.
fn first_shown(alloc: Global, script: &[u8]) -> Result<String, Memory> {
    if script.len() >= 1 << 32 {
        return Ok(String::new(alloc));
    }
    match read_script(alloc, script) {
        Ok(lines) => first_of(alloc, lines.as_slice()),
        Err(_) => Ok(String::new(alloc)),
    }
}

// Each form with its members in two orders, and which of repeated members counts.
const COMMANDS: &[(&[u8], &str)] = &[
    (
        b"{\"op\":\"replace\",\"at\":[0,12],\"text\":\"X\"}",
        "replace 0 12 X",
    ),
    (
        b"{\"text\":\"X\",\"at\":[0,12],\"op\":\"replace\"}",
        "replace 0 12 X",
    ),
    (b"{\"op\":\"insert\",\"at\":[3],\"text\":\"\"}", "insert 3 "),
    (b"{\"at\":[3],\"text\":\"\",\"op\":\"insert\"}", "insert 3 "),
    (b"{\"op\":\"delete\",\"at\":[]}", "delete "),
    (
        b"{\"at\":[4294967295],\"op\":\"delete\"}",
        "delete 4294967295 ",
    ),
    (
        b"{\"op\":\"batch\",\"edits\":[{\"at\":[1],\"op\":\"delete\"}]}",
        "batch of 1",
    ),
    (
        b"{\"edits\":[{\"at\":[1],\"op\":\"delete\"}],\"op\":\"batch\"}",
        "batch of 1",
    ),
    (b"{\"op\":\"report\"}", "report"),
    (b"{\"op\":\"status\"}", "status"),
    (
        b"{\"op\":\"show\",\"key\":\"P.entry.1\",\"node\":0}",
        "show 0 of 9 bytes",
    ),
    (
        b"{\"node\":1,\"key\":\"\",\"op\":\"show\"}",
        "show 1 of 0 bytes",
    ),
    (b"{\"op\":\"print\",\"file\":0}", "print 0"),
    (
        b"{\"file\":4294967295,\"op\":\"print\"}",
        "print 4294967295",
    ),
    (b"{\"op\":\"save\"}", "save"),
    (b"{\"op\":\"save\",\"op\":\"report\"}", "report"),
    (b"{\"at\":[1],\"op\":\"delete\",\"at\":[2]}", "delete 2 "),
    (
        b"{\"op\":\"replace\",\"at\":[],\"text\":\"A\\nB\"}",
        "replace A\nB",
    ),
    (
        b"{\"op\":\"replace\",\"at\":[],\"text\":\"\\\"\\u0041\"}",
        "replace \"A",
    ),
    (b"{\"op\":\"delete\"}", ""),
];

fn is_shown(alloc: Global, script: &[u8], wanted: &str) -> Result<bool, Memory> {
    Ok(first_shown(alloc, script)?.as_str() == wanted)
}

// The number of the first row that is wrong.
fn first_missed(alloc: Global) -> Option<usize> {
    COMMANDS.iter().position(|(script, wanted)| is_shown(alloc, script, wanted) != Ok(true))
}

#[test]
fn commands_are_those_of_their_lines(rt: HostRuntime) {
    assert_eq!(rt; first_missed(rt.alloc()), None);
}
