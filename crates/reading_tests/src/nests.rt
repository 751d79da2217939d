// Texts of which a part is repeated: how deep it nests.
use crate::ends::{End, file_end, fragment_end};
use ada_tree::{Kind, Part, Rule};
use base_kit::{Code, Memory};
use std::alloc::Global;

// How a text begins, what is repeated, what stands inside, what closes it, as often, and how it ends.
#[derive(Clone, Copy)]
pub struct Nest {
    pub front: &'static str,
    pub opening: &'static str,
    pub inside: &'static str,
    pub closing: &'static str,
    pub back: &'static str,
}

fn add_repeated(text: &mut Vec<u8>, piece: &str, count: usize) -> Result<(), Memory> {
    for _ in 0..count {
        text.extend_from_slice(piece.as_bytes())?;
    }
    Ok(())
}

impl Nest {
    // The text with its part so often.
    pub fn text(&self, alloc: Global, count: usize) -> Result<Vec<u8>, Memory> {
        let mut text = self.front.as_bytes().to_vec(alloc)?;
        add_repeated(&mut text, self.opening, count)?;
        text.extend_from_slice(self.inside.as_bytes())?;
        add_repeated(&mut text, self.closing, count)?;
        text.extend_from_slice(self.back.as_bytes())?;
        Ok(text)
    }
}

// ---- files, with what is repeated in a line of its own

const PARENTHESES: Nest = Nest {
    front: "procedure P is begin X :=",
    opening: "\n(",
    inside: "1",
    closing: ")",
    back: "; end P;",
};

const WRONG_INSIDE: Nest = Nest {
    front: "procedure P is begin X :=",
    opening: "\n(",
    inside: "\n1\n1",
    closing: ")",
    back: "; end P;",
};

// The arguments have a parenthesis of their own.
const STORES: Nest = Nest {
    front: "procedure P\n--| where in",
    opening: "\n--| (",
    inside: "\n--| store(A, 1, 2)",
    closing: ")",
    back: "; end where;\nis begin null; end P;",
};

const IFS: Nest = Nest {
    front: "procedure P is begin",
    opening: "\nif A then",
    inside: " null; ",
    closing: "end if; ",
    back: "end P;",
};

// Two statements in each.
const LOOPS: Nest = Nest {
    front: "procedure P is begin",
    opening: "\nloop declare begin",
    inside: " null; ",
    closing: "end; end loop; ",
    back: "end P;",
};

const SELECTIONS: Nest = Nest {
    front: "procedure P is begin A",
    opening: "\n.B",
    inside: "",
    closing: "",
    back: "; end P;",
};

const SUMS: Nest = Nest {
    front: "procedure P is begin X := A",
    opening: "\n+ B",
    inside: "",
    closing: "",
    back: "; end P;",
};

const NEGATIONS: Nest = Nest {
    front: "procedure P is begin X :=",
    opening: "\nnot (",
    inside: "A",
    closing: ")",
    back: "; end P;",
};

const CALLS: Nest = Nest {
    front: "procedure P is begin",
    opening: "\nF(",
    inside: "A",
    closing: ")",
    back: "; end P;",
};

// They associate to the right.
const IMPLICATIONS: Nest = Nest {
    front: "procedure P\n--| where in A",
    opening: "\n--| implies B",
    inside: "",
    closing: "",
    back: "; end where;\nis begin null; end P;",
};

const STEPS: Nest = Nest {
    front: "--| proof of P.entry.1 is open",
    opening: "\n--| [open",
    inside: "",
    closing: "]",
    back: " end proof;",
};

// Subprograms don't count.
const SUBPROGRAMS: Nest = Nest {
    front: "",
    opening: "procedure P is ",
    inside: "",
    closing: "begin null; end P; ",
    back: "",
};

// A text, how often its part is repeated, and what becomes of it.
type NestedFile = (Nest, usize, End);

const FILE: End = End::Node(Kind::File);

const FILES: &[NestedFile] = &[
    (PARENTHESES, 64, FILE),
    (PARENTHESES, 65, End::Fault(Code::F04, 66)),
    (WRONG_INSIDE, 64, End::Fault(Code::F03, 67)),
    (WRONG_INSIDE, 65, End::Fault(Code::F04, 66)),
    (STORES, 63, FILE),
    // With `store` a parenthesis must open.
    (STORES, 64, End::Fault(Code::F04, 67)),
    (IFS, 63, FILE),
    // With the 64th `if` a statement must stand inside.
    (IFS, 64, End::Fault(Code::F04, 65)),
    (LOOPS, 31, FILE),
    // Inside the 63rd statement a simple one may stand, and no block.
    (LOOPS, 32, End::Fault(Code::F04, 33)),
    // The statement is one node, and the name another.
    (SELECTIONS, 62, FILE),
    (SELECTIONS, 63, End::Fault(Code::F04, 64)),
    (SUMS, 62, FILE),
    (SUMS, 63, End::Fault(Code::F04, 64)),
    (NEGATIONS, 62, FILE),
    (NEGATIONS, 63, End::Fault(Code::F04, 64)),
    (CALLS, 62, FILE),
    (CALLS, 63, End::Fault(Code::F04, 64)),
    // The clause doesn't count.
    (IMPLICATIONS, 63, FILE),
    (IMPLICATIONS, 64, End::Fault(Code::F04, 66)),
    (STEPS, 199, FILE),
    // With `[` a step must stand inside.
    (STEPS, 200, End::Fault(Code::F04, 201)),
    (SUBPROGRAMS, 300, FILE),
];

fn is_file_right(alloc: Global, row: &NestedFile) -> Result<bool, Memory> {
    let (nest, count, end) = *row;
    let text = nest.text(alloc, count)?;
    Ok(file_end(alloc, text.as_slice())? == Some(end))
}

// The number of the first row that is wrong.
fn first_wrong_file(alloc: Global) -> Option<usize> {
    FILES
        .iter()
        .position(|row| is_file_right(alloc, row) != Ok(true))
}

#[test]
fn files_nest_up_to_the_limits(rt: HostRuntime) {
    assert_eq!(rt; first_wrong_file(rt.alloc()), None);
}

// ---- texts of parts

const STATEMENTS: Nest = Nest {
    front: "",
    opening: "if A then\n",
    inside: "null; ",
    closing: "end if; ",
    back: "",
};

const NAMES: Nest = Nest {
    front: "A",
    opening: "\n.B",
    inside: "",
    closing: "",
    back: "",
};

const TERMS: Nest = Nest {
    front: "",
    opening: "(\n",
    inside: "A",
    closing: ")",
    back: "",
};

const OLD_TERMS: Nest = Nest {
    front: "",
    opening: "(\n",
    inside: "in A",
    closing: ")",
    back: "(1)",
};

const RULES: Nest = Nest {
    front: "open",
    opening: "\n[open",
    inside: "",
    closing: "]",
    back: "",
};

// A rule, a text of it, how often its part is repeated, and what becomes of it.
type NestedPart = (Rule, Nest, usize, End);

const PARTS: &[NestedPart] = &[
    (Rule::AnyStmt, STATEMENTS, 63, End::Node(Kind::If)),
    (Rule::AnyStmt, STATEMENTS, 64, End::Fault(Code::F04, 64)),
    (Rule::AnyExpr, NAMES, 63, End::Node(Kind::Select)),
    (Rule::AnyExpr, NAMES, 64, End::Fault(Code::F04, 65)),
    // The names of a mark count too.
    (Rule::AnyMark, NAMES, 63, End::Node(Kind::Select)),
    (Rule::AnyMark, NAMES, 64, End::Fault(Code::F04, 65)),
    (Rule::AnyTerm, TERMS, 64, End::Node(Kind::Name)),
    (Rule::AnyTerm, TERMS, 65, End::Fault(Code::F04, 65)),
    (Rule::AnyTerm, OLD_TERMS, 64, End::Node(Kind::Apply)),
    (Rule::Of(Kind::Step), RULES, 199, End::Node(Kind::Step)),
    (Rule::Of(Kind::Step), RULES, 200, End::Fault(Code::F04, 201)),
];

fn is_part_right(alloc: Global, row: &NestedPart) -> Result<bool, Memory> {
    let (rule, nest, count, end) = *row;
    let part = Part { rule, note: false };
    let text = nest.text(alloc, count)?;
    Ok(fragment_end(alloc, part, text.as_slice())? == Some(end))
}

fn first_wrong_part(alloc: Global) -> Option<usize> {
    PARTS
        .iter()
        .position(|row| is_part_right(alloc, row) != Ok(true))
}

#[test]
fn texts_of_parts_nest_up_to_the_limits(rt: HostRuntime) {
    assert_eq!(rt; first_wrong_part(rt.alloc()), None);
}
