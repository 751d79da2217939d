// Reading texts by the table.
use crate::documents::Row;
use crate::names::tree;
use crate::nests::Nest;
use ada_tree::{Kind, Node, is_same};
use base_kit::{Memory, Stop};
use note_read::{Reading, read_text};
use reading_table::{Rule, Symbol};
use std::alloc::Global;

// A rule, a text, and the tree that it reads it as, if it does.
struct Told {
    rule: Rule,
    text: &'static str,
    rows: Option<&'static [Row]>,
}

const TEXTS: &[Told] = &[
    Told {
        rule: Rule::Stmt,
        text: "null;",
        rows: Some(&[(0, Kind::Null, "")]),
    },
    Told {
        rule: Rule::Stmt,
        text: "A.B := C + 1 * -2;",
        rows: None,
    },
    Told {
        rule: Rule::Stmt,
        text: "A.B := C + 1 * 2;",
        rows: Some(&[
            (0, Kind::Assign, ""),
            (1, Kind::Select, "B"),
            (2, Kind::Name, "A"),
            (1, Kind::Binary, "+"),
            (2, Kind::Name, "C"),
            (2, Kind::Binary, "*"),
            (3, Kind::Int, "1"),
            (3, Kind::Int, "2"),
        ]),
    },
    Told {
        rule: Rule::Sub,
        text: "procedure P (X : in out T) is begin P (X); end P;",
        rows: Some(&[
            (0, Kind::SubBody, "P"),
            (1, Kind::Proc, "P"),
            (2, Kind::Formals, ""),
            (3, Kind::List, ""),
            (4, Kind::Formal, "in out"),
            (5, Kind::List, ""),
            (6, Kind::Id, "X"),
            (5, Kind::Name, "T"),
            (1, Kind::None, ""),
            (1, Kind::List, ""),
            (1, Kind::Seq, ""),
            (2, Kind::List, ""),
            (3, Kind::Call, ""),
            (4, Kind::Apply, ""),
            (5, Kind::Name, "P"),
            (5, Kind::List, ""),
            (6, Kind::Name, "X"),
            (2, Kind::None, ""),
        ]),
    },
    Told {
        rule: Rule::Sub,
        text: "procedure P is begin null; end Q;",
        rows: None,
    },
    Told {
        rule: Rule::Sub,
        text: "procedure P is begin null;",
        rows: None,
    },
];

// The node that the text is read as.
fn read(alloc: Global, rule: Rule, text: &str) -> Result<Option<Node>, Memory> {
    let bytes = text.as_bytes();
    if bytes.len() >= 1 << 32 {
        return Ok(None);
    }
    match read_text(alloc, false, &[Symbol::Part(rule)], 0, bytes) {
        Ok(Reading::Read(values)) => Ok(values.into_node()),
        Err(Stop::Memory) => Err(Memory),
        _ => Ok(None),
    }
}

// Whether there is a node, and it is the tree of these rows.
pub fn is_tree(alloc: Global, node: Option<&Node>, rows: &[Row]) -> Result<bool, Memory> {
    let Some(node) = node else {
        return Ok(false);
    };
    Ok(match tree(alloc, rows)? {
        Some(wanted) => is_same(node, &wanted),
        None => false,
    })
}

fn is_read(alloc: Global, row: &Told) -> Result<bool, Memory> {
    let node = read(alloc, row.rule, row.text)?;
    match row.rows {
        Some(rows) => is_tree(alloc, node.as_ref(), rows),
        None => Ok(node.is_none()),
    }
}

// The number of the first row that is wrong.
fn first_misread(alloc: Global) -> Option<usize> {
    TEXTS.iter().position(|row| is_read(alloc, row) != Ok(true))
}

#[test]
fn texts_are_read_by_the_table(rt: HostRuntime) {
    assert_eq!(rt; first_misread(rt.alloc()), None);
}

// ---- limits

const IFS: Nest = Nest {
    front: "",
    opening: "if A then ",
    inside: "null; ",
    closing: "end if; ",
    back: "",
};

const PARENTHESES: Nest = Nest {
    front: "A := ",
    opening: "(",
    inside: "B",
    closing: ")",
    back: ";",
};

const WRONG_INSIDE: Nest = Nest {
    front: "A := ",
    opening: "(",
    inside: "B C",
    closing: ")",
    back: ";",
};

const SUM: Nest = Nest {
    front: "A := ",
    opening: "-B + ",
    inside: "C",
    closing: "",
    back: "",
};

const SELECTIONS: Nest = Nest {
    front: "A := B",
    opening: ".C",
    inside: "",
    closing: "",
    back: ";",
};

const ASSERTION: Nest = Nest {
    front: "--| assert ",
    opening: "(",
    inside: "store(A, 1, 2)",
    closing: ")",
    back: ";",
};

const STEPS: Nest = Nest {
    front: "--| proof of P.entry.1 is open",
    opening: " [open",
    inside: "",
    closing: "]",
    back: " end proof;",
};

// How a text is read whole: all of it, or the number of tokens before the one at fault.
#[derive(Clone, Copy, PartialEq, Eq)]
enum End {
    Read,
    Refused(usize),
    Limited(usize),
}

// A rule, a text, how often its part is repeated, how many nodes that count stand round it, and how it is read there.
type Nested = (Rule, Nest, usize, usize, End);

const NESTED: &[Nested] = &[
    (Rule::Stmt, IFS, 63, 0, End::Read),
    // With the 64th `if` one node too many would stand inside.
    (Rule::Stmt, IFS, 64, 0, End::Limited(189)),
    (Rule::Stmt, IFS, 62, 1, End::Read),
    (Rule::Stmt, IFS, 63, 1, End::Limited(186)),
    (Rule::Stmt, PARENTHESES, 64, 0, End::Read),
    (Rule::Stmt, PARENTHESES, 65, 0, End::Limited(66)),
    (Rule::Stmt, WRONG_INSIDE, 65, 0, End::Limited(66)),
    (Rule::Stmt, WRONG_INSIDE, 64, 0, End::Refused(67)),
    (Rule::Stmt, SUM, 1, 0, End::Refused(6)),
    // The name is one node, and each selection one more round it.
    (Rule::Stmt, SELECTIONS, 62, 0, End::Read),
    (Rule::Stmt, SELECTIONS, 63, 0, End::Limited(127)),
    // With `store` a parenthesis must open.
    (Rule::Assert, ASSERTION, 63, 0, End::Read),
    (Rule::Assert, ASSERTION, 64, 0, End::Limited(65)),
    (Rule::Proof, STEPS, 199, 0, End::Read),
    // With `[` a step must stand inside.
    (Rule::Proof, STEPS, 200, 0, End::Limited(407)),
];

fn end_of(alloc: Global, rule: Rule, round: usize, text: &[u8]) -> Result<Option<End>, Memory> {
    if text.len() >= 1 << 32 {
        return Ok(None);
    }
    match read_text(alloc, false, &[Symbol::Part(rule)], round, text) {
        Ok(Reading::Read(_)) => Ok(Some(End::Read)),
        Ok(Reading::Refused(count)) => Ok(Some(End::Refused(count))),
        Ok(Reading::Limited(count)) => Ok(Some(End::Limited(count))),
        Err(Stop::Memory) => Err(Memory),
        Err(Stop::Fault(_)) => Ok(None),
    }
}

fn ends_so(alloc: Global, row: &Nested) -> Result<bool, Memory> {
    let (rule, nest, count, round, end) = *row;
    let text = nest.text(alloc, count)?;
    Ok(end_of(alloc, rule, round, text.as_slice())? == Some(end))
}

// The number of the first row that is wrong.
fn first_wrong_end(alloc: Global) -> Option<usize> {
    NESTED
        .iter()
        .position(|row| ends_so(alloc, row) != Ok(true))
}

#[test]
fn nested_texts_are_read_up_to_the_limits(rt: HostRuntime) {
    assert_eq!(rt; first_wrong_end(rt.alloc()), None);
}
