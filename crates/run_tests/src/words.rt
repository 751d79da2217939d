// The words after the program's name.
use crate::running::{NOTHING, gives, run, run_files};
use base_kit::Memory;
use std::alloc::Global;
use std::test::Fail;

const USAGE: &str =
    "usage: penelope check FILES | print FILES | edit FILES --script FILE | grow N\n";

const OTHER_WORDS: &[&str] = &[
    "",
    "check",
    "print",
    "foo",
    "help",
    "--help",
    "-h",
    "a",
    "-- check a",
    "CHECK a",
    "checks a",
    // Names begin with no dash, aren't empty, and are distinct.
    "check -x",
    "print a -x",
    "check a ",
    "print a a",
    "check a b a",
    // The word `--` stands before the names alone, and once.
    "check --",
    "print -- -- a",
    "check a --",
    "print a -- b",
    "check -- -a",
    // Forms of commands that aren't there.
    "edit a --script a",
    "edit --script a a",
    "edit --script=a a",
    "grow 0",
    "grow 2",
];

fn is_usage(alloc: Global, words: &str) -> Result<bool, Memory> {
    let got = run(alloc, words, b"", &NOTHING)?;
    Ok(gives(&got, USAGE, 2) && got.calls == 0)
}

// The number of the first row that is wrong.
fn first_other_than_usage(alloc: Global) -> Option<usize> {
    OTHER_WORDS
        .iter()
        .position(|words| is_usage(alloc, words) != Ok(true))
}

#[test]
fn words_outside_the_forms_are_usage(rt: HostRuntime) {
    assert_eq!(rt; first_other_than_usage(rt.alloc()), None);
}

// Words, and how many sources are got for them.
const FORMS: &[(&str, u64)] = &[
    ("check a", 1),
    ("check -- a", 1),
    ("print a", 1),
    ("print -- a", 1),
    ("check a b", 2),
    ("check -- b a", 2),
    ("print c a b", 3),
    ("print -- c b a", 3),
];

fn is_form(alloc: Global, row: &(&str, u64)) -> Result<bool, Memory> {
    let files = &[("a", ""), ("b", " "), ("c", "\n")];
    let got = run_files(alloc, row.0, files, &NOTHING)?;
    Ok(gives(&got, "", 0) && got.calls == row.1)
}

// The number of the first row that is wrong.
fn first_no_form(alloc: Global) -> Option<usize> {
    FORMS.iter().position(|row| is_form(alloc, row) != Ok(true))
}

#[test]
fn names_may_stand_behind_two_dashes(rt: HostRuntime) {
    assert_eq!(rt; first_no_form(rt.alloc()), None);
}

// A command with so many names, of which the first is held.
fn many(alloc: Global, command: &str, names: u32) -> Result<String, Memory> {
    let mut words = String::from_str(alloc, command)?;
    words.push_str(" a")?;
    for number in 1..names {
        words.push_str(format!(in alloc; " n{number}")?.as_str())?;
    }
    Ok(words)
}

fn many_give(
    alloc: Global,
    command: &str,
    names: u32,
    text: &str,
    status: u8,
    calls: u64,
) -> Result<bool, Memory> {
    let words = many(alloc, command, names)?;
    let got = run(alloc, words.as_str(), b"", &NOTHING)?;
    Ok(gives(&got, text, status) && got.calls == calls)
}

#[test]
fn a_command_has_at_most_64_names(rt: HostRuntime) -> Result<(), Fail> {
    let alloc = rt.alloc();
    assert!(rt; many_give(alloc, "check", 64, "absent n1\n", 4, 2)?);
    assert!(rt; many_give(alloc, "print --", 64, "absent n1\n", 4, 2)?);
    assert!(rt; many_give(alloc, "check", 65, USAGE, 2, 0)?);
    assert!(rt; many_give(alloc, "print", 65, USAGE, 2, 0)?);
    Ok(())
}
