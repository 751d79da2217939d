// Documents of several files: what `check` prints of them, and how many nodes they may have.
use crate::printing::{Row, is_row};
use crate::running::{NOTHING, SET, SET_REPORT, gives, run_pair};
use base_kit::Memory;
use std::alloc::Global;
use std::test::Fail;

const SMALL: &str = "procedure P (X : in out INTEGER) is begin null; end;";

const CHECKED: &[Row] = &[
    // Files without items come to nothing, wherever they stand.
    Row {
        words: "check e",
        files: &[("e", " -- alone")],
        text: "",
        status: 0,
        calls: 1,
    },
    Row {
        words: "check e s",
        files: &[("e", "-- alone"), ("s", SET)],
        text: SET_REPORT,
        status: 0,
        calls: 2,
    },
    Row {
        words: "check s e",
        files: &[("e", ""), ("s", SET)],
        text: SET_REPORT,
        status: 0,
        calls: 2,
    },
    Row {
        words: "check -- e f",
        files: &[("e", ""), ("f", "")],
        text: "",
        status: 0,
        calls: 2,
    },
    // The first item that isn't of the form, or has one before it, in any file.
    Row {
        words: "check s p",
        files: &[("p", SMALL), ("s", SET)],
        text: "fault F23 at 1.0\n",
        status: 3,
        calls: 2,
    },
    Row {
        words: "check e p s",
        files: &[("e", ""), ("p", SMALL), ("s", SET)],
        text: "fault F23 at 2.0\n",
        status: 3,
        calls: 3,
    },
    Row {
        words: "check e q s",
        files: &[("e", ""), ("q", "package Q is end;"), ("s", SET)],
        text: "fault F23 at 1.0\n",
        status: 3,
        calls: 3,
    },
    Row {
        words: "check e t s",
        files: &[
            ("e", ""),
            (
                "t",
                "procedure P (X : in out INTEGER) is begin null; end; package Q is end;",
            ),
            ("s", SET),
        ],
        text: "fault F23 at 1.1\n",
        status: 3,
        calls: 3,
    },
    // A fault of a text comes before any of items.
    Row {
        words: "check q b",
        files: &[("q", "package Q is end;"), ("b", "\nnull")],
        text: "fault F03 file 2 line 2\n",
        status: 3,
        calls: 2,
    },
    // Sources are got in order, and the first that isn't there ends the run, before anything is read.
    Row {
        words: "check a b",
        files: &[("b", "#")],
        text: "absent a\n",
        status: 4,
        calls: 1,
    },
    Row {
        words: "print b a",
        files: &[("b", "#")],
        text: "absent a\n",
        status: 4,
        calls: 2,
    },
    Row {
        words: "check b c a",
        files: &[("b", "#"), ("c", "")],
        text: "absent a\n",
        status: 4,
        calls: 3,
    },
];

// The number of the first row that is wrong.
fn first_wrong(alloc: Global) -> Option<usize> {
    CHECKED
        .iter()
        .position(|row| is_row(alloc, row) != Ok(true))
}

#[test]
fn several_files_are_checked_as_one_document(rt: HostRuntime) {
    assert_eq!(rt; first_wrong(rt.alloc()), None);
}

// ---- the limit of nodes

// A file with so many nodes: beside its statements it has 11, which are the file, the unit and its clauses,
// the procedure's body, its specification without formals, the place of annotations, the declarations, the
// sequence, its statements and the place of handlers.
fn file_of(alloc: Global, nodes: u32) -> Result<String, Memory> {
    let mut text = String::from_str(alloc, "procedure P is begin")?;
    for _ in 11..nodes {
        text.push_str(" null;")?;
    }
    text.push_str(" end P;")?;
    Ok(text)
}

// What the run over two files of so many nodes prints, and its status.
fn two_give(
    alloc: Global,
    words: &str,
    first: u32,
    second: u32,
    text: &str,
    status: u8,
) -> Result<bool, Memory> {
    let first = file_of(alloc, first)?;
    let second = file_of(alloc, second)?;
    let got = run_pair(alloc, words, first.as_bytes(), second.as_bytes(), &NOTHING)?;
    Ok(gives(&got, text, status))
}

#[test]
fn files_share_the_limit_of_nodes(rt: HostRuntime) -> Result<(), Fail> {
    let alloc = rt.alloc();
    // A procedure without formals isn't of the form, nor is a second item.
    assert!(rt; two_give(alloc, "check a b", 50_000, 50_000, "fault F23 at 0.0\n", 3)?);
    assert!(rt;
        two_give(
            alloc,
            "check a b",
            50_000,
            50_001,
            "fault F27 at - count 100001\n",
            3
        )?
    );
    assert!(rt;
        two_give(
            alloc,
            "print b a",
            12,
            100_001,
            "fault F27 at 0 count 100001\n",
            3
        )?
    );
    assert!(rt;
        two_give(
            alloc,
            "print a b",
            12,
            100_001,
            "fault F27 at 1 count 100001\n",
            3
        )?
    );
    Ok(())
}
