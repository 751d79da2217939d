// Runs in which the shelf or the sink fails.
use crate::printing::{SWAP, SWAP_TEXT};
use crate::running::{Failing, NOTHING, SET, SET_REPORT, gives, run, run_files, run_pair};
use base_kit::Memory;
use std::alloc::Global;
use std::test::Fail;

// The words, the file, what fails, what is written, and the status.
type Cut = (&'static str, &'static str, Failing, &'static str, u8);

const CUTS: &[Cut] = &[
    ("check b", SET, NOTHING, "absent b\n", 4),
    (
        "check a",
        SET,
        Failing { call: 1, ..NOTHING },
        "failed a\n",
        4,
    ),
    (
        "check a",
        SET,
        Failing { most: 1, ..NOTHING },
        SET_REPORT,
        0,
    ),
    (
        "check a",
        SET,
        Failing {
            room: 4096,
            most: 8,
            ..NOTHING
        },
        SET_REPORT,
        0,
    ),
    (
        "check a",
        SET,
        Failing {
            room: 4096,
            write: 1,
            most: 8,
            ..NOTHING
        },
        "",
        5,
    ),
    (
        "check a",
        SET,
        Failing {
            room: 4096,
            write: 2,
            most: 8,
            ..NOTHING
        },
        "unit SET",
        5,
    ),
    (
        "check a",
        SET,
        Failing {
            room: 10,
            ..NOTHING
        },
        "unit SET i",
        5,
    ),
    ("check a", SET, Failing { room: 0, ..NOTHING }, "", 5),
    ("check a", "", Failing { room: 0, ..NOTHING }, "", 0),
    (
        "check b",
        SET,
        Failing {
            write: 1,
            ..NOTHING
        },
        "",
        5,
    ),
    (
        "check b",
        SET,
        Failing {
            write: 2,
            ..NOTHING
        },
        "absent ",
        5,
    ),
    ("help", SET, Failing { room: 6, ..NOTHING }, "usage:", 5),
    // With `print`.
    (
        "print a",
        SWAP,
        Failing {
            room: 4096,
            most: 8,
            ..NOTHING
        },
        SWAP_TEXT,
        0,
    ),
    (
        "print a",
        SWAP,
        Failing {
            room: 4096,
            write: 2,
            most: 8,
            ..NOTHING
        },
        "procedur",
        5,
    ),
    (
        "print a",
        SWAP,
        Failing {
            room: 12,
            ..NOTHING
        },
        "procedure SW",
        5,
    ),
    ("print b", SWAP, NOTHING, "absent b\n", 4),
    (
        "print a",
        SWAP,
        Failing { call: 1, ..NOTHING },
        "failed a\n",
        4,
    ),
];

// (Writes fail exactly where the status says so.)
fn is_cut(alloc: Global, row: &Cut) -> Result<bool, Memory> {
    let (words, file, failing, text, status) = *row;
    let got = run(alloc, words, file.as_bytes(), &failing)?;
    Ok(gives(&got, text, status) && (got.faults > 0) == (status == 5))
}

// The number of the first row that is wrong.
fn first_not_cut(alloc: Global) -> Option<usize> {
    CUTS.iter().position(|row| is_cut(alloc, row) != Ok(true))
}

#[test]
fn failures_cut_the_output_short(rt: HostRuntime) {
    assert_eq!(rt; first_not_cut(rt.alloc()), None);
}

// Words over three files, which call of the shelf fails, and what is written.
const FAILED_GETS: &[(&str, u64, &str)] = &[
    ("check a b c", 1, "failed a\n"),
    ("check a b c", 2, "failed b\n"),
    ("check -- a b c", 3, "failed c\n"),
    ("print c b a", 1, "failed c\n"),
    ("print c b a", 2, "failed b\n"),
    ("print c b a", 3, "failed a\n"),
];

// (After the call that fails there is no other.)
fn is_failed(alloc: Global, row: &(&str, u64, &str)) -> Result<bool, Memory> {
    let (words, call, text) = *row;
    let files = &[("a", ""), ("b", SET), ("c", "#")];
    let got = run_files(alloc, words, files, &Failing { call, ..NOTHING })?;
    Ok(gives(&got, text, 4) && got.calls == call)
}

// The number of the first row that is wrong.
fn first_not_failed(alloc: Global) -> Option<usize> {
    FAILED_GETS
        .iter()
        .position(|row| is_failed(alloc, row) != Ok(true))
}

#[test]
fn a_get_that_fails_ends_the_run(rt: HostRuntime) {
    assert_eq!(rt; first_not_failed(rt.alloc()), None);
}

// A run over a file b that is too long, and one a that has a fault.
fn long_gives(
    alloc: Global,
    words: &str,
    text: &str,
    status: u8,
    calls: u64,
) -> Result<bool, Memory> {
    let long = vec![in alloc; b' '; 4_194_305]?;
    let got = run_pair(alloc, words, b"#", long.as_slice(), &NOTHING)?;
    Ok(gives(&got, text, status) && got.calls == calls)
}

#[test]
fn the_first_source_that_is_too_long_ends_the_run(rt: HostRuntime) -> Result<(), Fail> {
    let alloc = rt.alloc();
    assert!(rt; long_gives(alloc, "print a b", "too long b\n", 3, 2)?);
    assert!(rt; long_gives(alloc, "check b a", "too long b\n", 3, 1)?);
    assert!(rt; long_gives(alloc, "print c b", "absent c\n", 4, 1)?);
    assert!(rt; long_gives(alloc, "check b c", "too long b\n", 3, 1)?);
    Ok(())
}
