// Texts that are read from tokens on, as far as they go.
ghost use Rattle.std.specs.Prelude.{◌≤◌, ◌<◌, ◌^◌, length};
ghost use Rattle.text_read.specs.Fronts.{AreTokensOf};

use crate::ends::{End, fault_end};
use ada_tree::{Kind, Node};
use base_kit::{Code, Memory, Stop};
use lex_ada::{Token, tokens};
use std::alloc::Global;
use text_read::{read_note, read_proof, read_term, read_trait};

#[derive(Clone, Copy)]
enum Call {
    Note,
    Trait,
    Proof,
    Term,
}

use Call::{Note, Proof, Term, Trait};

// A call, a text, the index of the token from which on it is read, how many nodes are round it, what is
// read there, and the index of the first token that is left; a fault leaves none.
type Row = (Call, &'static str, usize, u32, End, usize);

const ROWS: &[Row] = &[
    // Each kind of annotation, alone and before other tokens.
    (
        Note,
        "--| where in A; end where;",
        0,
        0,
        End::Node(Kind::Where),
        7,
    ),
    (
        Note,
        "--| based on T; based on U;",
        0,
        0,
        End::Node(Kind::Based),
        4,
    ),
    (
        Note,
        "--| based on T; based on U;",
        4,
        0,
        End::Node(Kind::Based),
        8,
    ),
    (
        Note,
        "--| view V of X is A; A",
        0,
        0,
        End::Node(Kind::View),
        7,
    ),
    (
        Note,
        "--| view V of X is A invariant B; A",
        0,
        0,
        End::Node(Kind::View),
        9,
    ),
    (
        Note,
        "--| invariant A = 1;\nX := 1;",
        0,
        0,
        End::Node(Kind::Invariant),
        5,
    ),
    (
        Note,
        "null;\n--| assert A;\nnull;",
        2,
        0,
        End::Node(Kind::Assert),
        5,
    ),
    // A comment before an annotation of statements is its own, one behind it isn't.
    (
        Note,
        "-- why\n--| assert A;\n-- more\n",
        0,
        0,
        End::Node(Kind::Assert),
        4,
    ),
    // Of a fault behind an annotation nothing is said.
    (Note, "--| assert A; )", 0, 0, End::Node(Kind::Assert), 3),
    (
        Note,
        "--| assert A\n--| ** 2;",
        0,
        0,
        End::Fault(Code::F23, 2),
        0,
    ),
    (
        Note,
        "--| assert A\n--| B;",
        0,
        0,
        End::Fault(Code::F03, 2),
        0,
    ),
    (Note, "--| assert A\n", 0, 0, End::Fault(Code::F03, 1), 0),
    (Note, "--| lemma A;", 0, 0, End::Fault(Code::F03, 1), 0),
    (Note, "null;\n", 2, 0, End::Fault(Code::F03, 1), 0),
    (Note, "assert", 0, 0, End::Fault(Code::F03, 1), 0),
    // The statement counts, and so does each term in it.
    (Note, "--| assert A;", 0, 62, End::Node(Kind::Assert), 3),
    (Note, "--| assert A;", 0, 63, End::Fault(Code::F04, 1), 0),
    (
        Note,
        "--| assert\n--| not A;",
        0,
        62,
        End::Fault(Code::F04, 2),
        0,
    ),
    (Note, "--| based on T;", 0, 63, End::Node(Kind::Based), 4),
    (
        Note,
        "--| based on T;",
        0,
        u32::MAX,
        End::Fault(Code::F04, 1),
        0,
    ),
    // Traits, proofs, and proofs whose obligation is gone.
    (
        Trait,
        "--| trait T is end trait; trait",
        0,
        0,
        End::Node(Kind::Trait),
        6,
    ),
    (Trait, "--| assert A;", 0, 0, End::Fault(Code::F03, 1), 0),
    (
        Proof,
        "--| proof of INC.entry.1 is hyp 1 end proof;",
        0,
        63,
        End::Node(Kind::Proof),
        13,
    ),
    (
        Proof,
        "--| orphan proof of INC.entry.1 is hyp 1 end proof;",
        0,
        0,
        End::Node(Kind::Orphan),
        14,
    ),
    (
        Proof,
        "--| orphan of INC.entry.1 is hyp 1 end proof;",
        0,
        0,
        End::Fault(Code::F03, 1),
        0,
    ),
    // The longest term: no operator is left out that has its operand.
    (Term, "--| A + B * C;", 0, 0, End::Node(Kind::Binary), 5),
    (Term, "--| A + B *;", 0, 0, End::Node(Kind::Binary), 3),
    (Term, "--| A and\n--| ;", 0, 0, End::Node(Kind::Name), 1),
    (Term, "--| in A and in B", 3, 0, End::Node(Kind::Old), 5),
    (
        Term,
        "--| A -- no more\n--| ;",
        0,
        0,
        End::Node(Kind::Name),
        1,
    ),
    (Term, "--| (A + ;", 0, 0, End::Fault(Code::F03, 1), 0),
    (Term, "--| A", 0, 63, End::Node(Kind::Name), 1),
    (Term, "--| A", 0, 64, End::Fault(Code::F04, 1), 0),
    (Term, "--| A + B", 0, 63, End::Node(Kind::Name), 1),
];

// The call on these tokens.
fn read(
    alloc: Global,
    call: Call,
    tokens: &[Token],
    source: &[u8],
    from: usize,
    depth: u32,
) -> Result<(Node, usize), Stop>
    requires short { length source.now < 2 ^ 32 }
    requires of_source { AreTokensOf source.now tokens.now }
    requires within { from ≤ length tokens.now }
{
    match call {
        Call::Note => read_note(alloc, tokens, source, from, depth),
        Call::Trait => read_trait(alloc, tokens, source, from, depth),
        Call::Proof => read_proof(alloc, tokens, source, from, depth),
        Call::Term => read_term(alloc, tokens, source, from, depth),
    }
}

fn front_end(read: Result<(Node, usize), Stop>) -> Result<Option<(End, usize)>, Memory> {
    match read {
        Ok((node, index)) => Ok(Some((End::Node(node.kind), index))),
        Err(Stop::Memory) => Err(Memory),
        Err(Stop::Fault(fault)) => Ok(fault_end(&fault).map(|end| (end, 0))),
    }
}

// What is read, and the index of what is left; none where the row isn't one.
fn end(
    alloc: Global,
    call: Call,
    text: &str,
    from: usize,
    depth: u32,
) -> Result<Option<(End, usize)>, Memory> {
    let source = text.as_bytes();
    if source.len() >= 1 << 32 {
        return Ok(None);
    }
    match tokens(alloc, source) {
        Err(Stop::Memory) => Err(Memory),
        Err(Stop::Fault(_)) => Ok(None),
        Ok(tokens) => {
            let tokens = tokens.as_slice();
            if from > tokens.len() {
                return Ok(None);
            }
            front_end(read(alloc, call, tokens, source, from, depth))
        }
    }
}

fn is_right(alloc: Global, row: &Row) -> Result<bool, Memory> {
    let (call, text, from, depth, wanted, index) = *row;
    Ok(end(alloc, call, text, from, depth)? == Some((wanted, index)))
}

fn wrong(alloc: Global) -> Option<usize> {
    ROWS.iter().position(|row| is_right(alloc, row) != Ok(true))
}

#[test]
fn texts_are_read_as_far_as_they_go(rt: HostRuntime) {
    assert_eq!(rt; wrong(rt.alloc()), None);
}
