// How long names and literals may be, and how many nodes and proof steps a file may have.
use crate::ends::{End, file_end};
use crate::nests::Nest;
use ada_tree::Kind;
use base_kit::{Code, Memory};
use std::alloc::Global;

const NAME: Nest = Nest {
    front: "procedure P is begin X := A",
    opening: "B",
    inside: "",
    closing: "",
    back: "; end P;",
};

// Each side of the mark is a name.
const JOINED: Nest = Nest {
    front: "procedure P\n--| where in A",
    opening: "B",
    inside: "@C",
    closing: "D",
    back: "; end where;\nis begin null; end P;",
};

const LITERAL: Nest = Nest {
    front: "procedure P is begin X :=\n",
    opening: "7",
    inside: "",
    closing: "",
    back: "; end P;",
};

// Leading zeros are digits of it, and underscores are none.
const ZEROS: Nest = Nest {
    front: "procedure P is begin X :=\n",
    opening: "0_",
    inside: "7",
    closing: "",
    back: "; end P;",
};

// Beside the file and a clause of three nodes, each declaration has six, with its unit.
const UNITS: Nest = Nest {
    front: "with A; ",
    opening: "procedure P;",
    inside: "",
    closing: "",
    back: "",
};

// A block in place of none, and its list: one node more.
const UNITS_AND_BLOCK: Nest = Nest {
    back: "\n--| where end where;\n",
    ..UNITS
};

const BEFORE_BAD_BYTE: Nest = Nest {
    back: "\n\u{1}",
    ..UNITS
};

const BEFORE_BAD_TOKEN: Nest = Nest {
    back: "\nprocedure A_;",
    ..UNITS
};

const BEFORE_THE_END: Nest = Nest {
    back: "\nprocedure P",
    ..UNITS
};

const BEFORE_DEEP: Nest = Nest {
    back: "\nprocedure P is begin X := (((((((((((((((((((((((((((((((((((((((((((((((((((((((((((((((((1",
    ..UNITS
};

const BEFORE_UNSUPPORTED: Nest = Nest {
    back: "\npragma X;",
    ..UNITS
};

// Beside the file, the proof and its key, two steps and one more each time, each with its arguments and what stands
// below it.
const STEPS: Nest = Nest {
    front: "--| proof of P.entry.1 is open [open",
    opening: ";open",
    inside: "",
    closing: "",
    back: "] end proof;",
};

// A text, how often its part is repeated, and what becomes of it.
type Limit = (Nest, usize, End);

const FILE: End = End::Node(Kind::File);

const LIMITS: &[Limit] = &[
    (NAME, 119, FILE),
    (NAME, 120, End::Fault(Code::F02, 1)),
    (JOINED, 119, FILE),
    (JOINED, 120, End::Fault(Code::F02, 2)),
    (LITERAL, 18, FILE),
    (LITERAL, 19, End::Fault(Code::F02, 2)),
    (ZEROS, 17, FILE),
    (ZEROS, 18, End::Fault(Code::F02, 2)),
    (UNITS, 16_666, FILE),
    (UNITS_AND_BLOCK, 16_666, End::TooMany(100_001)),
    (UNITS, 16_667, End::TooMany(100_006)),
    // A fault of the text comes first, wherever it is.
    (BEFORE_BAD_BYTE, 20_000, End::Fault(Code::F01, 2)),
    (BEFORE_BAD_TOKEN, 20_000, End::Fault(Code::F02, 2)),
    (BEFORE_THE_END, 20_000, End::Fault(Code::F03, 2)),
    (BEFORE_DEEP, 20_000, End::Fault(Code::F04, 2)),
    (BEFORE_UNSUPPORTED, 20_000, End::Fault(Code::F23, 2)),
    // With so many steps the nodes are too many before the steps are, and when both are, the nodes are counted.
    (STEPS, 49_996, FILE),
    (STEPS, 49_997, End::TooMany(100_001)),
    (STEPS, 49_999, End::TooMany(100_005)),
];

fn is_right(alloc: Global, row: &Limit) -> Result<bool, Memory> {
    let (nest, count, end) = *row;
    let text = nest.text(alloc, count)?;
    Ok(file_end(alloc, text.as_slice())? == Some(end))
}

// The number of the first row that is wrong.
fn first_wrong(alloc: Global) -> Option<usize> {
    LIMITS
        .iter()
        .position(|row| is_right(alloc, row) != Ok(true))
}

#[test]
fn files_are_read_up_to_the_limits(rt: HostRuntime) {
    assert_eq!(rt; first_wrong(rt.alloc()), None);
}
