// The values of static expressions, and their faults.
use crate::documents::{add_first, document, is_fault, path};
use ada_tree::Node;
use ada_types::{Types, in_range, static_value};
use base_kit::{Code, Memory, Stop};
use scope_rules::Scope;
use std::alloc::Global;
use std::test::Fail;
use term_core::Sort;

const BEFORE: &str = "package P is
   type SMALL is range 0 .. 9;
   subtype TINY is SMALL range 1 .. 3;
   type COLOR is (RED, GREEN, BLUE);
   type VEC is array (1 .. 3) of TINY;
   type PAIR is record A, B : SMALL; end record;
   N : constant := 5;
   C : constant SMALL := N - 1;
   X : SMALL := 0;
   V : VEC := (1, 2, 3);
   R : PAIR := (1, 2);
   E : exception;
   Z : constant := ";

// How many declarations stand before the one of the expression.
const EARLIER: u32 = 11;

const LIST: &[u32] = &[0, 0, 1, 0];

const PLACE: &[u32] = &[0, 0, 1, 0, 11, 1];

const BEHIND: &str = ";\nend P;\n";

// A static expression, and its value; or its fault, from the expression on.
type Valued = (&'static str, Result<i64, (Code, &'static [u32])>);

const VALUES: &[Valued] = &[
    ("2147483647", Ok(2147483647)),
    ("2147483648", Err((Code::F11, &[]))),
    ("999999999999999999", Err((Code::F11, &[]))),
    // The literal of -2147483648 is too large; its value isn't.
    ("-2147483648", Err((Code::F11, &[0]))),
    ("-2147483647 - 1", Ok(-2147483648)),
    ("-2147483647 - 2", Err((Code::F11, &[]))),
    ("-(-2147483647 - 1)", Err((Code::F11, &[]))),
    ("abs (-2147483647 - 1)", Err((Code::F11, &[]))),
    ("abs (-7)", Ok(7)),
    ("+7", Ok(7)),
    // A result outside has no value, wherever it stands: F11, not F10.
    ("65536 * 65536", Err((Code::F11, &[]))),
    ("65536 * 65536 - 65536 * 65536", Err((Code::F11, &[0]))),
    ("65536 * 65536 / 65536", Err((Code::F11, &[0]))),
    ("2147483647 + 1", Err((Code::F11, &[]))),
    // `/` truncates, `rem` has the sign of the first operand, `mod` that of the second.
    ("7 / 2", Ok(3)),
    ("(-7) / 2", Ok(-3)),
    ("7 / (-2)", Ok(-3)),
    ("(-7) / (-2)", Ok(3)),
    ("(-7) rem 2", Ok(-1)),
    ("7 rem (-2)", Ok(1)),
    ("(-7) mod 2", Ok(1)),
    ("7 mod (-2)", Ok(-1)),
    ("(-7) mod (-2)", Ok(-1)),
    ("(-8) mod 2", Ok(0)),
    ("-7 mod 2", Ok(-1)),
    ("(-2147483647 - 1) / (-1)", Err((Code::F11, &[]))),
    ("(-2147483647 - 1) rem (-1)", Ok(0)),
    ("1 / 0", Err((Code::F11, &[]))),
    ("1 mod 0", Err((Code::F11, &[]))),
    ("1 rem (N - 5)", Err((Code::F11, &[]))),
    // Names.
    ("N", Ok(5)),
    ("C", Ok(4)),
    ("P.N", Ok(5)),
    ("GREEN", Ok(1)),
    ("FALSE", Ok(0)),
    ("TRUE", Ok(1)),
    ("X", Err((Code::F10, &[]))),
    // Components aren't static; a record has the component, and what has components is a record.
    ("R.A", Err((Code::F10, &[]))),
    ("P.R.A", Err((Code::F10, &[]))),
    ("R.C", Err((Code::F08, &[]))),
    ("P.R.C", Err((Code::F08, &[]))),
    ("X.A", Err((Code::F09, &[]))),
    ("P.X.A", Err((Code::F09, &[]))),
    ("R.A.B", Err((Code::F09, &[]))),
    ("R.C.B", Err((Code::F08, &[0]))),
    ("V.A", Err((Code::F09, &[]))),
    ("N.A", Err((Code::F09, &[]))),
    ("RED.A", Err((Code::F09, &[]))),
    ("SMALL'POS(1).A", Err((Code::F09, &[]))),
    ("V(1).A", Err((Code::F10, &[]))),
    ("C + R.A", Err((Code::F10, &[]))),
    ("N + R.C", Err((Code::F08, &[1]))),
    ("R.A + RED", Err((Code::F09, &[]))),
    ("RED < P.R.A", Err((Code::F09, &[]))),
    ("R.A'FIRST", Err((Code::F08, &[]))),
    ("R.C'FIRST", Err((Code::F08, &[0]))),
    ("P.SMALL.A", Err((Code::F08, &[0]))),
    ("SMALL.A", Err((Code::F08, &[0]))),
    ("Y", Err((Code::F05, &[]))),
    ("P.Y", Err((Code::F05, &[]))),
    ("SMALL", Err((Code::F08, &[]))),
    ("E", Err((Code::F08, &[]))),
    // Operands of one type that the operator takes.
    ("C + N", Ok(9)),
    ("C + SMALL'LAST", Ok(13)),
    ("C + TINY'LAST", Ok(7)),
    ("C + INTEGER'FIRST", Err((Code::F09, &[]))),
    ("RED + 1", Err((Code::F09, &[]))),
    ("-TRUE", Err((Code::F09, &[]))),
    ("N + Y", Err((Code::F05, &[1]))),
    ("X + RED", Err((Code::F09, &[]))),
    // Relations and logical operators aren't static.
    ("N < 6", Err((Code::F10, &[]))),
    ("RED < 1", Err((Code::F09, &[]))),
    ("TRUE < FALSE", Err((Code::F09, &[]))),
    ("TRUE = FALSE", Err((Code::F10, &[]))),
    ("not TRUE", Err((Code::F10, &[]))),
    ("not 1", Err((Code::F09, &[]))),
    ("TRUE and 1", Err((Code::F09, &[]))),
    // Attributes.
    ("SMALL'LAST", Ok(9)),
    ("TINY'FIRST", Ok(1)),
    ("NATURAL'FIRST", Ok(0)),
    ("POSITIVE'FIRST", Ok(1)),
    ("INTEGER'FIRST", Ok(-2147483648)),
    ("COLOR'LAST", Ok(2)),
    ("VEC'LAST", Ok(3)),
    ("V'LAST", Ok(3)),
    ("P.V'FIRST", Ok(1)),
    ("BOOLEAN'FIRST", Err((Code::F08, &[]))),
    ("PAIR'FIRST", Err((Code::F08, &[]))),
    ("X'FIRST", Err((Code::F08, &[]))),
    ("SMALL'SIZE", Err((Code::F08, &[]))),
    ("Y'FIRST", Err((Code::F05, &[0]))),
    ("COLOR'POS(BLUE)", Ok(2)),
    ("SMALL'POS(7)", Ok(7)),
    ("SMALL'POS(12)", Ok(12)),
    ("SMALL'POS(X)", Err((Code::F10, &[]))),
    ("COLOR'POS(1)", Err((Code::F09, &[]))),
    ("COLOR'POS(BLUE) + N", Ok(7)),
    ("COLOR'POS(BLUE) + C", Err((Code::F09, &[]))),
    ("BOOLEAN'POS(TRUE)", Err((Code::F08, &[0]))),
    ("COLOR'SUCC(RED)", Err((Code::F10, &[]))),
    ("SMALL'PRED(TRUE)", Err((Code::F09, &[]))),
];

fn with_expression(alloc: Global, expression: &str) -> Result<Vec<u8>, Memory> {
    let mut text = Vec::from_slice(alloc, BEFORE.as_bytes())?;
    text.extend_from_slice(expression.as_bytes())?;
    text.extend_from_slice(BEHIND.as_bytes())?;
    Ok(text)
}

fn is_answer(
    alloc: Global,
    answer: Result<i64, Stop>,
    wanted: Result<i64, (Code, &[u32])>,
) -> Result<bool, Memory> {
    match (answer, wanted) {
        (Ok(value), Ok(number)) => Ok(value == number),
        (Err(stop), Err((code, part))) => is_fault(alloc, &stop, code, PLACE, part),
        _ => Ok(false),
    }
}

// The node at a path.
fn reached<'a>(root: &'a Node, numbers: &[u32]) -> Option<&'a Node> {
    let mut node = root;
    for number in numbers {
        node = node.kids.get(*number as usize)?;
    }
    Some(node)
}

fn is_valued_so(
    alloc: Global,
    root: &Node,
    wanted: Result<i64, (Code, &[u32])>,
) -> Result<bool, Memory> {
    let scope = Scope::of_root(alloc, root)?;
    let mut types = Types::new(alloc);
    if !add_first(alloc, &mut types, root, &scope, LIST, EARLIER)? {
        return Ok(false);
    }
    let Some(expression) = reached(root, PLACE) else {
        return Ok(false);
    };
    let at = path(alloc, PLACE)?;
    is_answer(
        alloc,
        static_value(alloc, &types, &scope, expression, &at),
        wanted,
    )
}

fn is_right(alloc: Global, row: &Valued) -> Result<bool, Memory> {
    match document(alloc, with_expression(alloc, row.0)?.as_slice())? {
        Some(root) => is_valued_so(alloc, &root, row.1),
        None => Ok(false),
    }
}

fn first_wrong(alloc: Global) -> Option<usize> {
    VALUES
        .iter()
        .position(|row| is_right(alloc, row) != Ok(true))
}

#[test]
fn static_expressions_have_their_values(rt: HostRuntime) -> Result<(), Fail> {
    assert_eq!(rt; first_wrong(rt.alloc()), None);
    Ok(())
}

#[test]
fn ranges_have_their_numbers(rt: HostRuntime) -> Result<(), Fail> {
    let sort = Sort::Range(0, 9);
    assert!(rt; in_range(0, &sort) && in_range(9, &sort));
    assert!(rt; !in_range(-1, &sort) && !in_range(10, &sort));
    assert!(rt; in_range(10, &Sort::Whole) && !in_range(0, &Sort::Truth));
    Ok(())
}
