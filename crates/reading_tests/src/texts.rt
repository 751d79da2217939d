// Files: what they are read as, or their fault.
use crate::ends::{End, file_end};
use ada_tree::Kind;
use base_kit::{Code, Memory};
use std::alloc::Global;

const FILES: &[(&str, End)] = &[
    ("", End::Node(Kind::File)),
    ("-- only a comment\n", End::Node(Kind::File)),
    (
        "procedure P is\nbegin\n   null;\nend P;\n",
        End::Node(Kind::File),
    ),
    // Each with its fault: a form outside the profile, the end, and a byte that isn't text.
    (
        "procedure P is begin pragma X; end P;",
        End::Fault(Code::F23, 1),
    ),
    ("procedure P is", End::Fault(Code::F03, 1)),
    ("procedure P is\n\u{1}\n", End::Fault(Code::F01, 2)),
    // The same of the form that is proved, with one body or another.
    (
        "procedure SET (X, Y : in out INTEGER)\n--| where in Y = 3; out X = 3; out Y = in Y; end where;\nis begin",
        End::Fault(Code::F03, 3),
    ),
    (
        "procedure SET (X, Y : in out INTEGER)\n--| where in Y = 3; out X = 3; out Y = in Y; end where;\nis begin X := Y + 1; end SET;\n",
        End::Node(Kind::File),
    ),
    (
        "procedure SET (X, Y : in out INTEGER)\n--| where in Y = 3; out X = 3; out Y = in Y; end where;\nis begin X := Z; end SET;\n",
        End::Node(Kind::File),
    ),
    // A token is at fault in its own line, not behind it, nor in that of the token before.
    (
        "procedure P is\nbegin\n   X := 1\n   Y := 2;\nend P;\n",
        End::Fault(Code::F03, 4),
    ),
    (
        "procedure P is\nbegin\n   X :=\n;\n   Y\n:= 2;\nend P;\n",
        End::Fault(Code::F03, 4),
    ),
    (
        "procedure P is\nbegin\n   X := 1 -- no more\n\n   & 2;\nend P;\n",
        End::Fault(Code::F23, 5),
    ),
    (
        "procedure P is\nbegin\n   A ** B;\n",
        End::Fault(Code::F23, 3),
    ),
    (
        "procedure P\n--| where in A and\n--| ;\n--| end where;\nis begin null; end P;\n",
        End::Fault(Code::F03, 3),
    ),
    // The end of the text is a token in its last line; a line end that ends it begins no further one.
    ("procedure P is\nbegin\n", End::Fault(Code::F03, 2)),
    ("procedure P is\nbegin\n\n\n", End::Fault(Code::F03, 4)),
    ("procedure P is\n   ", End::Fault(Code::F03, 2)),
    ("procedure P is\n-- no more\n", End::Fault(Code::F03, 2)),
    ("procedure P\n--| where\n--|", End::Fault(Code::F03, 3)),
    // CR and LF together end one line; each ends one alone, and so do VT and FF.
    ("procedure P is\r\nbegin\r\n", End::Fault(Code::F03, 2)),
    ("procedure P is\r\r\n", End::Fault(Code::F03, 2)),
    (
        "procedure P is\rbegin\u{b}null;\u{c}end",
        End::Fault(Code::F03, 4),
    ),
    // Bytes and tokens come before all else.
    ("generic\n\u{1}", End::Fault(Code::F01, 2)),
    ("generic\nA_ : T;\n", End::Fault(Code::F02, 2)),
    ("end\n\nA_", End::Fault(Code::F02, 3)),
    // A closing name is the one that is closed.
    (
        "procedure P is\nbegin\n   null;\nend\n\nQ;\n",
        End::Fault(Code::F03, 6),
    ),
    (
        "package P is\n   procedure Q;\nend Q;\n",
        End::Fault(Code::F03, 3),
    ),
    (
        "package body P is\n   procedure Q is begin null; end P;\nend P;\n",
        End::Fault(Code::F03, 2),
    ),
    ("procedure P is begin null; end p;", End::Node(Kind::File)),
    // Annotations stand behind their mark, and nothing else does.
    (
        "procedure P\nwhere in A; end where;\nis begin null; end P;\n",
        End::Fault(Code::F03, 2),
    ),
    (
        "procedure P is\nbegin\n   assert A;\nend P;\n",
        End::Fault(Code::F03, 3),
    ),
    (
        "procedure P is\nbegin\n--| null;\nend P;\n",
        End::Fault(Code::F03, 3),
    ),
    (
        "--| trait L is\n--| end trait\n;\n",
        End::Fault(Code::F03, 3),
    ),
    // Words of annotations are names outside them.
    (
        "procedure TRAIT is begin null; end TRAIT;",
        End::Node(Kind::File),
    ),
    (
        "procedure P is begin A := store(B, 1, 2); end P;",
        End::Node(Kind::File),
    ),
];

fn is_file_right(alloc: Global, row: &(&str, End)) -> Result<bool, Memory> {
    let (text, end) = *row;
    Ok(file_end(alloc, text.as_bytes())? == Some(end))
}

// The number of the first row that is wrong.
fn first_wrong_file(alloc: Global) -> Option<usize> {
    FILES
        .iter()
        .position(|row| is_file_right(alloc, row) != Ok(true))
}

#[test]
fn files_are_read_or_have_their_fault(rt: HostRuntime) {
    assert_eq!(rt; first_wrong_file(rt.alloc()), None);
}

// ---- words and marks that no item begins with

// Forms of Ada 83 outside the profile begin with these.
const UNSUPPORTED: &[&str] = &[
    "abort",
    "accept",
    "access",
    "at",
    "delay",
    "delta",
    "digits",
    "do",
    "entry",
    "generic",
    "goto",
    "limited",
    "new",
    "pragma",
    "renames",
    "select",
    "separate",
    "task",
    "terminate",
    "**",
    "&",
    "<<",
    ">>",
    "<>",
    "PRAGMA",
];

// The other reserved words and marks; behind a word that begins an item the end is wrong.
const OTHERS: &[&str] = &[
    "abs",
    "all",
    "and",
    "array",
    "begin",
    "body",
    "case",
    "constant",
    "declare",
    "else",
    "elsif",
    "end",
    "exception",
    "exit",
    "for",
    "function",
    "if",
    "in",
    "is",
    "loop",
    "mod",
    "not",
    "null",
    "of",
    "or",
    "others",
    "out",
    "package",
    "private",
    "procedure",
    "raise",
    "range",
    "record",
    "rem",
    "return",
    "reverse",
    "subtype",
    "then",
    "type",
    "use",
    "when",
    "while",
    "with",
    "xor",
    "'",
    "(",
    ")",
    "*",
    "+",
    ",",
    "-",
    ".",
    "/",
    ":",
    ";",
    "<",
    "=",
    ">",
    "|",
    "[",
    "]",
    "@",
    "=>",
    "..",
    ":=",
    "/=",
    "<=",
    ">=",
    "->",
    "==",
];

// The fault of a file whose second line is this.
fn has_fault(alloc: Global, line: &str, code: Code) -> Result<bool, Memory> {
    let text = format!(in alloc; "procedure P;\n{line}")?;
    Ok(file_end(alloc, text.as_bytes())? == Some(End::Fault(code, 2)))
}

fn first_wrong(alloc: Global, lines: &[&str], code: Code) -> Option<usize> {
    lines
        .iter()
        .position(|line| has_fault(alloc, line, code) != Ok(true))
}

#[test]
fn forms_outside_the_profile_are_told_from_other_faults(rt: HostRuntime) {
    assert_eq!(rt; first_wrong(rt.alloc(), UNSUPPORTED, Code::F23), None);
    assert_eq!(rt; first_wrong(rt.alloc(), OTHERS, Code::F03), None);
}
