// What no clause says: that each call can succeed, and what files and standard output do.
use base_kit::Memory;
use outside::{
    FileShelf, MemShelf, MemSink, Shelf, ShelfError, Sink, SinkError, Status, StdSink, write_all,
};
use std::alloc::Global;
use std::test::Fail;
use std::{env, fs, process};

// ---- the shelf in memory

// A name, a limit, and what the shelf answers.
type Got = (&'static str, u64, Result<&'static str, ShelfError>);

const GOT: &[Got] = &[
    ("full", 3, Ok("xyz")),
    ("full", 2, Err(ShelfError::TooLong)),
    ("full", 3, Err(ShelfError::Failed)),
    ("none", 9, Err(ShelfError::Absent)),
    ("empty", 0, Ok("")),
];

// Whether the shelf gives this text, or this error.
fn is_got(got: Result<Vec<u8>, ShelfError>, want: Result<&str, ShelfError>) -> bool {
    match (got, want) {
        (Ok(bytes), Ok(text)) => bytes.as_slice() == text.as_bytes(),
        (Err(error), Err(wanted)) => error == wanted,
        _ => false,
    }
}

// The number of the first row that is wrong, or of all rows.
fn first_not_got(alloc: Global, shelf: &mut MemShelf) -> usize {
    for (i, (name, limit, want)) in GOT.iter().enumerate() {
        if !is_got(shelf.get(alloc, name, *limit), *want) {
            return i;
        }
    }
    GOT.len()
}

fn shelf_of_two(alloc: Global) -> Result<MemShelf, Memory> {
    let mut shelf = MemShelf::new(alloc, vec![in alloc; 3]?);
    shelf.add(alloc, "full", b"xyz")?;
    shelf.add(alloc, "empty", b"")?;
    Ok(shelf)
}

// Calls, faults, absences and excesses.
fn counts_of(shelf: &MemShelf) -> [u64; 4] {
    [
        shelf.calls(),
        shelf.faults(),
        shelf.absences(),
        shelf.excesses(),
    ]
}

fn gets_from_two(alloc: Global) -> Result<(usize, [u64; 4]), Memory> {
    let mut shelf = shelf_of_two(alloc)?;
    let rows = first_not_got(alloc, &mut shelf);
    Ok((rows, counts_of(&shelf)))
}

#[test]
fn memory_shelf_gets_within_the_limit(rt: HostRuntime) -> Result<(), Fail> {
    assert_eq!(rt; gets_from_two(rt.alloc())?, (GOT.len(), [5, 1, 1, 1]));
    Ok(())
}

// A name, what is put there, what the shelf answers, and what `a` holds then.
type Put = (
    &'static str,
    &'static str,
    Result<(), ShelfError>,
    &'static str,
);

const PUT: &[Put] = &[
    ("a", "one", Ok(()), "one"),
    ("a", "two", Err(ShelfError::Failed), "one"),
    ("a", "three", Ok(()), "three"),
    ("b", "four", Err(ShelfError::Failed), "three"),
];

fn holds(shelf: &MemShelf, name: &str, text: &str) -> bool {
    match shelf.bytes(name) {
        Some(bytes) => bytes == text.as_bytes(),
        None => false,
    }
}

// The number of the first row that is wrong, or of all rows.
fn first_not_put(alloc: Global, shelf: &mut MemShelf) -> usize {
    for (i, (name, text, want, left)) in PUT.iter().enumerate() {
        let put = shelf.put(alloc, name, text.as_bytes());
        if put != *want || !holds(shelf, "a", left) {
            return i;
        }
    }
    PUT.len()
}

fn puts(alloc: Global) -> Result<(usize, [u64; 4]), Memory> {
    let mut shelf = MemShelf::new(alloc, vec![in alloc; 2, 4]?);
    let rows = first_not_put(alloc, &mut shelf);
    Ok((rows, counts_of(&shelf)))
}

// What the shelf holds after a put that failed is replaced.
fn is_replaced(alloc: Global) -> Result<bool, Memory> {
    let mut shelf = MemShelf::new(alloc, vec![in alloc; 2, 4]?);
    first_not_put(alloc, &mut shelf);
    let is_absent = shelf.bytes("b").is_none();
    shelf.add(alloc, "a", b"")?;
    Ok(is_absent && holds(&shelf, "a", ""))
}

#[test]
fn memory_shelf_puts(rt: HostRuntime) -> Result<(), Fail> {
    let alloc = rt.alloc();
    assert_eq!(rt; puts(alloc)?, (PUT.len(), [4, 2, 0, 0]));
    assert!(rt; is_replaced(alloc)?);
    Ok(())
}

// ---- the sink in memory

const FAILED: Result<usize, SinkError> = Err(SinkError::Failed);

// A piece, what the sink answers, and what was written by then.
const PIECES: &[(&str, Result<usize, SinkError>, &str)] = &[
    ("abc", Ok(2), "ab"),
    ("cde", FAILED, "ab"),
    ("", Ok(0), "ab"),
    ("cde", Ok(2), "abcd"),
    ("ef", Ok(1), "abcde"),
    ("f", FAILED, "abcde"),
    ("", Ok(0), "abcde"),
];

// The number of the first row that is wrong, or of all rows.
fn first_not_taken(sink: &mut MemSink) -> usize {
    for (i, (piece, want, written)) in PIECES.iter().enumerate() {
        let took = sink.write(piece.as_bytes());
        if took != *want || sink.written() != written.as_bytes() {
            return i;
        }
    }
    PIECES.len()
}

fn takes_parts(alloc: Global) -> Result<(usize, u64), Memory> {
    let mut sink = MemSink::new(alloc, 5, 2, vec![in alloc; 2]?)?;
    let rows = first_not_taken(&mut sink);
    Ok((rows, sink.faults()))
}

#[test]
fn memory_sink_takes_parts(rt: HostRuntime) -> Result<(), Fail> {
    assert_eq!(rt; takes_parts(rt.alloc())?, (PIECES.len(), 2));
    Ok(())
}

// The room, the most bytes a write, the write that fails, whether all is written, and what is.
type Written = (usize, usize, u64, bool, &'static str);

const WRITTEN: &[Written] = &[
    (9, 1, 0, true, "hello"),
    (5, 9, 0, true, "hello"),
    (9, 1, 3, false, "he"),
    (4, 3, 0, false, "hell"),
    (9, 0, 0, false, ""),
];

fn is_written(alloc: Global, row: &Written) -> Result<bool, Memory> {
    let (room, most, failing, is_whole, text) = *row;
    let mut sink = MemSink::new(alloc, room, most, vec![in alloc; failing]?)?;
    let all = write_all(&mut sink, b"hello").is_ok();
    Ok(all == is_whole && sink.written() == text.as_bytes())
}

// The number of the first row that is wrong.
fn first_not_written(alloc: Global) -> Option<usize> {
    WRITTEN
        .iter()
        .position(|row| is_written(alloc, row) != Ok(true))
}

#[test]
fn all_is_written_or_a_first_part(rt: HostRuntime) {
    assert_eq!(rt; first_not_written(rt.alloc()), None);
}

// ---- the system

#[test]
fn standard_output_takes_all(rt: HostRuntime) {
    let mut sink = StdSink::new(&rt);
    assert_eq!(rt; write_all(&mut sink, b"written\n"), Ok(()));
}

// Puts a file, and gets it with its length for a limit, and with one less.
fn keeps_a_file<S: Shelf>(alloc: Global, shelf: &mut S, name: &str) -> bool {
    let is_put = shelf.put(alloc, name, b"hello").is_ok();
    let is_whole = is_got(shelf.get(alloc, name, 5), Ok("hello"));
    is_put && is_whole && is_got(shelf.get(alloc, name, 4), Err(ShelfError::TooLong))
}

#[test]
fn shelves_keep_a_file(rt: HostRuntime) -> Result<(), Fail> {
    let alloc = rt.alloc();
    let name = format!(in alloc; "outside_{}", process::id(rt.process()))?;
    let path = env::temp_dir(&rt)?.join(alloc, name.as_str())?;
    let mut files = FileShelf::new(&rt);
    let is_kept = keeps_a_file(alloc, &mut files, path.as_str());
    fs::remove_file(&rt, path.as_path())?;
    assert!(rt; is_kept);
    let gone = files.get(alloc, path.as_str(), 10);
    assert!(rt; is_got(gone, Err(ShelfError::Absent)));
    Ok(())
}

fn keeps_a_file_in_memory(alloc: Global) -> bool {
    keeps_a_file(alloc, &mut MemShelf::new(alloc, Vec::new(alloc)), "a")
}

#[test]
fn memory_keeps_a_file(rt: HostRuntime) {
    assert!(rt; keeps_a_file_in_memory(rt.alloc()));
}

#[test]
fn other_files_are_told(rt: HostRuntime) {
    let alloc = rt.alloc();
    let mut files = FileShelf::new(&rt);
    let endless = files.get(alloc, "/dev/zero", 10);
    assert!(rt; is_got(endless, Err(ShelfError::TooLong)));
    let folder = files.get(alloc, "/", 10);
    assert!(rt; is_got(folder, Err(ShelfError::Failed)));
    assert_eq!(rt; files.put(alloc, "/", b"x"), Err(ShelfError::Failed));
}

// ---- statuses

const CODES: &[(Status, u8)] = &[
    (Status::Done, 0),
    (Status::SomeRefused, 1),
    (Status::Usage, 2),
    (Status::SourceFault, 3),
    (Status::ShelfFailed, 4),
    (Status::SinkFailed, 5),
    (Status::ScriptFault, 6),
    (Status::NoMemory, 7),
];

#[test]
fn each_status_has_its_code(rt: HostRuntime) {
    assert!(rt; CODES.iter().all(|(status, code)| status.code() == *code));
}
