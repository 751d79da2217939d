// Texts of parts of the grammar, and the trees that they are read as.
use crate::documents::Row;
use crate::reading::is_tree;
use ada_tree::{Kind, Node, Part, Rule};
use base_kit::{Memory, Stop};
use std::alloc::Global;
use text_read::{has_texts, read_fragment};

// A rule, a text of it that stands in an annotation or doesn't, and its tree.
struct Told {
    rule: Rule,
    note: bool,
    text: &'static str,
    rows: &'static [Row],
}

const SPELLINGS: &[Told] = &[
    // ---- what may be left out: the mode `in`, and the name after `end`
    Told {
        rule: Rule::Of(Kind::Formal),
        note: false,
        text: "X, Y : T",
        rows: &[
            (0, Kind::Formal, "in"),
            (1, Kind::List, ""),
            (2, Kind::Id, "X"),
            (2, Kind::Id, "Y"),
            (1, Kind::Name, "T"),
        ],
    },
    Told {
        rule: Rule::Of(Kind::Formal),
        note: false,
        text: "X : in P.T",
        rows: &[
            (0, Kind::Formal, "in"),
            (1, Kind::List, ""),
            (2, Kind::Id, "X"),
            (1, Kind::Select, "T"),
            (2, Kind::Name, "P"),
        ],
    },
    Told {
        rule: Rule::Of(Kind::Formal),
        note: false,
        text: "X : out T",
        rows: &[
            (0, Kind::Formal, "out"),
            (1, Kind::List, ""),
            (2, Kind::Id, "X"),
            (1, Kind::Name, "T"),
        ],
    },
    Told {
        rule: Rule::AnyWclause,
        note: true,
        text: "global X;",
        rows: &[
            (0, Kind::Global, "in"),
            (1, Kind::List, ""),
            (2, Kind::Name, "X"),
        ],
    },
    Told {
        rule: Rule::AnyLib,
        note: false,
        text: "package P is private end;",
        rows: &[
            (0, Kind::Pack, "P"),
            (1, Kind::List, ""),
            (1, Kind::List, ""),
        ],
    },
    // ---- names
    Told {
        rule: Rule::AnyTerm,
        note: true,
        text: "x @ LOOP1",
        rows: &[(0, Kind::Name, "X@loop1")],
    },
    Told {
        rule: Rule::AnyTerm,
        note: true,
        text: "return @ Call2 = return",
        rows: &[
            (0, Kind::Binary, "="),
            (1, Kind::Name, "return@call2"),
            (1, Kind::Result, ""),
        ],
    },
    // ---- numbers
    Told {
        rule: Rule::AnyExpr,
        note: false,
        text: "1_000 - 007 * 000",
        rows: &[
            (0, Kind::Binary, "-"),
            (1, Kind::Int, "1000"),
            (1, Kind::Binary, "*"),
            (2, Kind::Int, "7"),
            (2, Kind::Int, "0"),
        ],
    },
    // ---- operators and parentheses
    Told {
        rule: Rule::AnyExpr,
        note: false,
        text: "A + -B",
        rows: &[
            (0, Kind::Binary, "+"),
            (1, Kind::Name, "A"),
            (1, Kind::Unary, "-"),
            (2, Kind::Name, "B"),
        ],
    },
    Told {
        rule: Rule::AnyExpr,
        note: false,
        text: "A - B - C",
        rows: &[
            (0, Kind::Binary, "-"),
            (1, Kind::Binary, "-"),
            (2, Kind::Name, "A"),
            (2, Kind::Name, "B"),
            (1, Kind::Name, "C"),
        ],
    },
    Told {
        rule: Rule::AnyExpr,
        note: false,
        text: "-7 mod 2",
        rows: &[
            (0, Kind::Unary, "-"),
            (1, Kind::Binary, "mod"),
            (2, Kind::Int, "7"),
            (2, Kind::Int, "2"),
        ],
    },
    Told {
        rule: Rule::AnyExpr,
        note: false,
        text: "not A = B",
        rows: &[
            (0, Kind::Binary, "="),
            (1, Kind::Unary, "not"),
            (2, Kind::Name, "A"),
            (1, Kind::Name, "B"),
        ],
    },
    Told {
        rule: Rule::AnyExpr,
        note: false,
        text: "A and then B and then (C or D)",
        rows: &[
            (0, Kind::Binary, "and then"),
            (1, Kind::Binary, "and then"),
            (2, Kind::Name, "A"),
            (2, Kind::Name, "B"),
            (1, Kind::Binary, "or"),
            (2, Kind::Name, "C"),
            (2, Kind::Name, "D"),
        ],
    },
    Told {
        rule: Rule::AnyExpr,
        note: false,
        text: "((1))",
        rows: &[(0, Kind::Int, "1")],
    },
    Told {
        rule: Rule::AnyExpr,
        note: false,
        text: "(1, B)",
        rows: &[
            (0, Kind::Aggr, ""),
            (1, Kind::List, ""),
            (2, Kind::Int, "1"),
            (2, Kind::Name, "B"),
        ],
    },
    Told {
        rule: Rule::AnyExpr,
        note: false,
        text: "(A | 1 .. 2 => B)",
        rows: &[
            (0, Kind::Aggr, ""),
            (1, Kind::List, ""),
            (2, Kind::Assoc, ""),
            (3, Kind::Choices, ""),
            (4, Kind::List, ""),
            (5, Kind::Name, "A"),
            (5, Kind::Span, ""),
            (6, Kind::Int, "1"),
            (6, Kind::Int, "2"),
            (3, Kind::Name, "B"),
        ],
    },
    Told {
        rule: Rule::AnyExpr,
        note: false,
        text: "(A).B(1)'first",
        rows: &[
            (0, Kind::Attr, "FIRST"),
            (1, Kind::Apply, ""),
            (2, Kind::Select, "B"),
            (3, Kind::Name, "A"),
            (2, Kind::List, ""),
            (3, Kind::Int, "1"),
        ],
    },
    // ---- the bounds of a range are sums
    Told {
        rule: Rule::AnyExpr,
        note: false,
        text: "A not in B + 1 .. -C",
        rows: &[
            (0, Kind::Member, "not in"),
            (1, Kind::Name, "A"),
            (1, Kind::Span, ""),
            (2, Kind::Binary, "+"),
            (3, Kind::Name, "B"),
            (3, Kind::Int, "1"),
            (2, Kind::Unary, "-"),
            (3, Kind::Name, "C"),
        ],
    },
    Told {
        rule: Rule::AnyChoice,
        note: false,
        text: "(A = B) .. C",
        rows: &[
            (0, Kind::Span, ""),
            (1, Kind::Binary, "="),
            (2, Kind::Name, "A"),
            (2, Kind::Name, "B"),
            (1, Kind::Name, "C"),
        ],
    },
    // ---- terms
    Told {
        rule: Rule::AnyTerm,
        note: true,
        text: "A implies B implies C iff D",
        rows: &[
            (0, Kind::Binary, "iff"),
            (1, Kind::Binary, "implies"),
            (2, Kind::Name, "A"),
            (2, Kind::Binary, "implies"),
            (3, Kind::Name, "B"),
            (3, Kind::Name, "C"),
            (1, Kind::Name, "D"),
        ],
    },
    Told {
        rule: Rule::AnyTerm,
        note: true,
        text: "in A.B = (in C)(1)",
        rows: &[
            (0, Kind::Binary, "="),
            (1, Kind::Old, ""),
            (2, Kind::Select, "B"),
            (3, Kind::Name, "A"),
            (1, Kind::Apply, ""),
            (2, Kind::Old, ""),
            (3, Kind::Name, "C"),
            (2, Kind::List, ""),
            (3, Kind::Int, "1"),
        ],
    },
    Told {
        rule: Rule::AnyTerm,
        note: true,
        text: "for all I in 1 .. N : if A then B else C or D",
        rows: &[
            (0, Kind::All, "I"),
            (1, Kind::Int, "1"),
            (1, Kind::Name, "N"),
            (1, Kind::Cond, ""),
            (2, Kind::Name, "A"),
            (2, Kind::Name, "B"),
            (2, Kind::Binary, "or"),
            (3, Kind::Name, "C"),
            (3, Kind::Name, "D"),
        ],
    },
    Told {
        rule: Rule::AnyTerm,
        note: true,
        text: "STORE(A, 1, -1)",
        rows: &[
            (0, Kind::Make, "store"),
            (1, Kind::List, ""),
            (2, Kind::Name, "A"),
            (2, Kind::Int, "1"),
            (2, Kind::Unary, "-"),
            (3, Kind::Int, "1"),
        ],
    },
    // ---- an empty list of operands; variables and no equation
    Told {
        rule: Rule::Of(Kind::Trait),
        note: false,
        text: "trait L is introduces F : -> T; asserts for all X, Y : T; Z : U end trait;",
        rows: &[
            (0, Kind::Trait, "L"),
            (1, Kind::List, ""),
            (1, Kind::List, ""),
            (2, Kind::Op, "F"),
            (3, Kind::List, ""),
            (3, Kind::Name, "T"),
            (1, Kind::List, ""),
            (1, Kind::List, ""),
            (2, Kind::Vars, ""),
            (3, Kind::List, ""),
            (4, Kind::Id, "X"),
            (4, Kind::Id, "Y"),
            (3, Kind::Name, "T"),
            (2, Kind::Vars, ""),
            (3, Kind::List, ""),
            (4, Kind::Id, "Z"),
            (3, Kind::Name, "U"),
            (1, Kind::List, ""),
            (1, Kind::List, ""),
            (1, Kind::List, ""),
        ],
    },
    // ---- proofs
    Told {
        rule: Rule::Of(Kind::Key),
        note: true,
        text: "a . p . ENTRY . 0_1",
        rows: &[(0, Kind::Key, "A.P.entry.1")],
    },
    Told {
        rule: Rule::Of(Kind::Step),
        note: true,
        text: "INDUCT S (A, B) [unfold F in 2; Linear (1, -2); wave]",
        rows: &[
            (0, Kind::Step, "induct"),
            (1, Kind::List, ""),
            (2, Kind::Name, "S"),
            (2, Kind::Name, "A"),
            (2, Kind::Name, "B"),
            (1, Kind::List, ""),
            (2, Kind::Step, "unfold"),
            (3, Kind::List, ""),
            (4, Kind::Name, "F"),
            (4, Kind::Int, "2"),
            (3, Kind::None, ""),
            (2, Kind::Step, "linear"),
            (3, Kind::List, ""),
            (4, Kind::Int, "1"),
            (4, Kind::Unary, "-"),
            (5, Kind::Int, "2"),
            (3, Kind::None, ""),
            (2, Kind::Step, "wave"),
            (3, Kind::List, ""),
            (3, Kind::None, ""),
        ],
    },
    Told {
        rule: Rule::Of(Kind::Step),
        note: true,
        text: "lemma L.F (A, 1 = B)",
        rows: &[
            (0, Kind::Step, "lemma"),
            (1, Kind::List, ""),
            (2, Kind::Select, "F"),
            (3, Kind::Name, "L"),
            (2, Kind::Name, "A"),
            (2, Kind::Binary, "="),
            (3, Kind::Int, "1"),
            (3, Kind::Name, "B"),
            (1, Kind::None, ""),
        ],
    },
];

// The node that the text is read as.
fn read(alloc: Global, part: Part, bytes: &[u8]) -> Result<Option<Node>, Memory> {
    if !has_texts(part) || bytes.len() >= 1 << 32 {
        return Ok(None);
    }
    match read_fragment(alloc, part, bytes) {
        Ok(node) => Ok(Some(node)),
        Err(Stop::Memory) => Err(Memory),
        Err(Stop::Fault(_)) => Ok(None),
    }
}

fn is_told(alloc: Global, row: &Told) -> Result<bool, Memory> {
    let part = Part {
        rule: row.rule,
        note: row.note,
    };
    let node = read(alloc, part, row.text.as_bytes())?;
    is_tree(alloc, node.as_ref(), row.rows)
}

// The number of the first row that is wrong.
fn first_misread(alloc: Global) -> Option<usize> {
    SPELLINGS
        .iter()
        .position(|row| is_told(alloc, row) != Ok(true))
}

#[test]
fn texts_spell_their_trees(rt: HostRuntime) {
    assert_eq!(rt; first_misread(rt.alloc()), None);
}
