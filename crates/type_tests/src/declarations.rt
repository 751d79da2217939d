// The types that declarations add, and their faults.
use crate::documents::{Answer, add_first, document, is_fault, path};
use ada_tree::Node;
use ada_types::{Types, type_of_node};
use base_kit::{Code, Memory, Stop};
use scope_rules::Scope;
use std::alloc::Global;
use std::test::Fail;
use term_core::{Sort, SortEntry};

// ---- entries

const DOCUMENT: &str = "package P is
   type SMALL is range 0 .. 9;
   subtype TINY is SMALL range 1 .. 3;
   type COLOR is (RED, GREEN, BLUE);
   subtype WARM is COLOR range RED .. GREEN;
   type VEC is array (1 .. 3) of TINY;
   type WIDE is array (INTEGER) of VEC;
   type PAIR is record A, B : SMALL; C : VEC; end record;
   subtype TWO is PAIR;
   type HIDDEN is private;
   subtype SHADE is HIDDEN;
   X : SMALL := 0;
   E : exception;
private
   type HIDDEN is range 0 .. 7;
end P;
package body P is
   procedure Q (R : in PAIR) is
      type LOCAL is range 0 .. 4;
      type BAD is range 0 .. R.A;
   begin
      null;
   end Q;
end P;
";

// The declarations, in their order.
const PLACES: &[&[u32]] = &[
    &[0, 0, 1, 0, 0],
    &[0, 0, 1, 0, 1],
    &[0, 0, 1, 0, 2],
    &[0, 0, 1, 0, 3],
    &[0, 0, 1, 0, 4],
    &[0, 0, 1, 0, 5],
    &[0, 0, 1, 0, 6],
    &[0, 0, 1, 0, 7],
    &[0, 0, 1, 0, 8],
    &[0, 0, 1, 0, 9],
    &[0, 0, 1, 0, 10],
    &[0, 0, 1, 0, 11],
    &[0, 0, 1, 1, 0],
    &[0, 1, 1, 0, 0, 0, 0, 0, 0],
    &[0, 1, 1, 0, 0, 2, 0],
];

// What a sort is, and of an array or a record how many parts it has: an array one, whatever its indexes are.
#[derive(Clone, Copy, PartialEq, Eq)]
enum Form {
    Numbers(i64, i64),
    Truths,
    Array(i64, i64),
    Record(u32, usize),
    Other,
}

// An entry: its name, whether traits see it, the number of its components, its type's entry, and its sort.
type Entry = (&'static str, bool, usize, u32, Form);

const ENTRIES: &[Entry] = &[
    (
        "INTEGER",
        false,
        0,
        0,
        Form::Numbers(-2147483648, 2147483647),
    ),
    ("NATURAL", false, 0, 0, Form::Numbers(0, 2147483647)),
    ("POSITIVE", false, 0, 0, Form::Numbers(1, 2147483647)),
    ("BOOLEAN", false, 0, 3, Form::Truths),
    ("P.SMALL", true, 0, 4, Form::Numbers(0, 9)),
    ("P.TINY", false, 0, 4, Form::Numbers(1, 3)),
    ("P.COLOR", true, 0, 6, Form::Numbers(0, 2)),
    ("P.WARM", false, 0, 6, Form::Numbers(0, 1)),
    ("P.VEC", true, 0, 8, Form::Array(1, 3)),
    ("P.WIDE", true, 0, 9, Form::Array(-2147483648, 2147483647)),
    ("P.PAIR", true, 3, 10, Form::Record(10, 3)),
    ("P.TWO", false, 0, 10, Form::Record(10, 3)),
    // A private type has the entry of its full type alone, and its subtypes have that sort at their own places.
    ("P.SHADE", false, 0, 13, Form::Numbers(0, 7)),
    ("P.HIDDEN", false, 0, 13, Form::Numbers(0, 7)),
    ("P.Q.LOCAL", false, 0, 14, Form::Numbers(0, 4)),
];

fn form_of(sort: &Sort) -> Form {
    match sort {
        Sort::Range(low, high) => Form::Numbers(*low, *high),
        Sort::Truth => Form::Truths,
        Sort::Array(low, high, _) => Form::Array(*low, *high),
        Sort::Record(number, parts) => Form::Record(*number, parts.as_slice().len()),
        Sort::Whole | Sort::Free(_) => Form::Other,
    }
}

fn is_entry(entry: &SortEntry, wanted: &Entry) -> bool {
    entry.name.as_bytes() == wanted.0.as_bytes()
        && entry.seen == wanted.1
        && entry.parts.as_slice().len() == wanted.2
        && entry.base == wanted.3
        && form_of(&entry.sort) == wanted.4
}

// The number of the first entry that is wrong, or of all.
fn right_entries(types: &Types) -> usize {
    let entries = types.sort_names().as_slice();
    for (number, wanted) in ENTRIES.iter().enumerate() {
        match entries.get(number) {
            Some(entry) if is_entry(entry, wanted) => {}
            _ => return number,
        }
    }
    entries.len()
}

fn add_all(alloc: Global, types: &mut Types, root: &Node, scope: &Scope) -> Result<usize, Memory> {
    for (number, place) in PLACES.iter().enumerate() {
        let at = path(alloc, place)?;
        if type_of_node(alloc, types, root, scope, &at).is_err() {
            return Ok(number);
        }
    }
    Ok(PLACES.len())
}

// The last type, whose bound is a component of a formal, and so isn't static.
const LAST: &[u32] = &[0, 1, 1, 0, 0, 2, 1];

fn is_refused(
    alloc: Global,
    types: &mut Types,
    root: &Node,
    scope: &Scope,
) -> Result<bool, Memory> {
    let at = path(alloc, LAST)?;
    match type_of_node(alloc, types, root, scope, &at) {
        Err(stop) => is_fault(alloc, &stop, Code::F10, LAST, &[0, 1]),
        Ok(()) => Ok(false),
    }
}

// How many are added, how many entries are right, and whether the last type is refused.
fn listed(alloc: Global) -> Result<(usize, usize, bool), Memory> {
    let Some(root) = document(alloc, DOCUMENT.as_bytes())? else {
        return Ok((0, 0, false));
    };
    let scope = Scope::of_root(alloc, &root)?;
    let mut types = Types::new(alloc);
    let added = add_all(alloc, &mut types, &root, &scope)?;
    let refused = is_refused(alloc, &mut types, &root, &scope)?;
    Ok((added, right_entries(&types), refused))
}

#[test]
fn declarations_have_their_entries(rt: HostRuntime) -> Result<(), Fail> {
    let wanted = (PLACES.len(), ENTRIES.len(), true);
    assert_eq!(rt; listed(rt.alloc())?, wanted);
    Ok(())
}

// ---- faults

const BEFORE: &str = "package P is
   type SMALL is range 0 .. 9;
   type COLOR is (RED, GREEN, BLUE);
   type VEC is array (1 .. 3) of SMALL;
   N : constant := 5;
   X : SMALL := 0;
   type HIDDEN is private;
   ";

// How many declarations stand before the one that is judged.
const EARLIER: u32 = 6;

const LIST: &[u32] = &[0, 0, 1, 0];

const PLACE: &[u32] = &[0, 0, 1, 0, 6];

const BEHIND: &str = "\nend P;\n";

const JUDGED: &[(&str, Answer)] = &[
    // Bounds of types: of integer types, not necessarily of one, static, and not null.
    ("type T is range 1 .. 1;", Ok(())),
    ("type T is range 1 .. N;", Ok(())),
    ("type T is range SMALL'FIRST .. INTEGER'LAST;", Ok(())),
    ("type T is range 2 .. 1;", Err((Code::F11, &[0]))),
    (
        "type T is range 1 .. 2147483648;",
        Err((Code::F11, &[0, 1])),
    ),
    ("type T is range 1 .. X;", Err((Code::F10, &[0, 1]))),
    ("type T is range 1 .. Y;", Err((Code::F05, &[0, 1]))),
    ("type T is range 1 .. SMALL;", Err((Code::F08, &[0, 1]))),
    ("type T is range RED .. BLUE;", Err((Code::F09, &[0]))),
    // The first fault in post-order, then by code.
    ("type T is range X .. Y;", Err((Code::F10, &[0, 0]))),
    ("type T is range BLUE .. RED;", Err((Code::F09, &[0]))),
    // Ranges of subtypes: within their subtype's, and of its type.
    ("subtype T is SMALL;", Ok(())),
    ("subtype T is SMALL range 0 .. 9;", Ok(())),
    ("subtype T is SMALL range 0 .. 10;", Err((Code::F11, &[1]))),
    ("subtype T is SMALL range -1 .. 9;", Err((Code::F11, &[1]))),
    (
        "subtype T is NATURAL range -1 .. 9;",
        Err((Code::F11, &[1])),
    ),
    ("subtype T is SMALL range 3 .. 2;", Err((Code::F11, &[1]))),
    ("subtype T is COLOR range RED .. GREEN;", Ok(())),
    (
        "subtype T is COLOR range GREEN .. RED;",
        Err((Code::F11, &[1])),
    ),
    ("subtype T is COLOR range 0 .. 1;", Err((Code::F09, &[1]))),
    ("subtype T is SMALL range RED .. 9;", Err((Code::F09, &[1]))),
    (
        "subtype T is BOOLEAN range FALSE .. TRUE;",
        Err((Code::F09, &[1])),
    ),
    ("subtype T is VEC range 1 .. 2;", Err((Code::F09, &[1]))),
    // Marks.
    ("subtype T is X;", Err((Code::F08, &[0]))),
    ("subtype T is P;", Err((Code::F08, &[0]))),
    ("subtype T is P.SMALL;", Ok(())),
    ("subtype T is P.Y;", Err((Code::F05, &[0]))),
    ("subtype T is X.SMALL;", Err((Code::F08, &[0, 0]))),
    // Indexes.
    ("type T is array (COLOR) of SMALL;", Ok(())),
    ("type T is array (RED .. GREEN) of VEC;", Ok(())),
    (
        "type T is array (BOOLEAN) of SMALL;",
        Err((Code::F09, &[0])),
    ),
    (
        "type T is array (FALSE .. TRUE) of SMALL;",
        Err((Code::F09, &[0])),
    ),
    ("type T is array (VEC) of SMALL;", Err((Code::F09, &[0]))),
    (
        "type T is array (RED .. 3) of SMALL;",
        Err((Code::F09, &[0, 0])),
    ),
    (
        "type T is array (3 .. 1) of SMALL;",
        Err((Code::F11, &[0, 0])),
    ),
    (
        "type T is array (1 .. X) of SMALL;",
        Err((Code::F10, &[0, 0, 1])),
    ),
    (
        "type T is array (VEC'range) of SMALL;",
        Err((Code::F08, &[0, 0])),
    ),
    ("type T is array (1 .. 3) of X;", Err((Code::F08, &[0, 1]))),
    // Records.
    (
        "type T is record A, B : SMALL; C : VEC; end record;",
        Ok(()),
    ),
    (
        "type T is record A : SMALL; C : X; end record;",
        Err((Code::F08, &[0, 0, 1, 1])),
    ),
    // Initial values in a package: static, of the subtype; those of aggregates aren't judged.
    ("Z : SMALL := 9;", Ok(())),
    ("Z : SMALL := 10;", Err((Code::F11, &[3]))),
    ("Z : SMALL range 1 .. 2 := 3;", Err((Code::F11, &[3]))),
    ("Z : SMALL range 1 .. 10 := 3;", Err((Code::F11, &[2]))),
    ("Z : SMALL := X;", Err((Code::F10, &[3]))),
    ("Z : SMALL := RED;", Err((Code::F09, &[]))),
    ("Z : BOOLEAN := 1;", Err((Code::F09, &[]))),
    ("Z : VEC := (1, 2, 3);", Ok(())),
    ("Z : constant SMALL := N;", Ok(())),
    ("Z : constant SMALL := N + N;", Err((Code::F11, &[3]))),
    ("Z : constant SMALL := X;", Err((Code::F10, &[3]))),
    ("Z : constant COLOR := BLUE;", Ok(())),
    // Numbers are of any integer type.
    ("Z : constant := N * N;", Ok(())),
    ("Z : constant := COLOR'POS(BLUE);", Ok(())),
    ("Z : constant := X;", Err((Code::F10, &[1]))),
    ("Z : constant := TRUE;", Err((Code::F09, &[]))),
    ("E : exception;", Ok(())),
    // A private type before its full type has no range and no bounds, and no literal is of it.
    ("type T is private;", Ok(())),
    ("subtype T is HIDDEN;", Ok(())),
    ("subtype T is HIDDEN range 1 .. 2;", Err((Code::F09, &[1]))),
    ("Z : HIDDEN;", Ok(())),
    ("Z : constant HIDDEN := 1;", Err((Code::F09, &[]))),
    (
        "type T is range 0 .. HIDDEN'LAST;",
        Err((Code::F08, &[0, 1])),
    ),
];

fn with_declaration(alloc: Global, declaration: &str) -> Result<Vec<u8>, Memory> {
    let mut text = Vec::from_slice(alloc, BEFORE.as_bytes())?;
    text.extend_from_slice(declaration.as_bytes())?;
    text.extend_from_slice(BEHIND.as_bytes())?;
    Ok(text)
}

fn is_answer(alloc: Global, answer: Result<(), Stop>, wanted: Answer) -> Result<bool, Memory> {
    match (answer, wanted) {
        (Ok(()), Ok(())) => Ok(true),
        (Err(stop), Err((code, part))) => is_fault(alloc, &stop, code, PLACE, part),
        _ => Ok(false),
    }
}

fn is_judged_so(alloc: Global, root: &Node, wanted: Answer) -> Result<bool, Memory> {
    let scope = Scope::of_root(alloc, root)?;
    let mut types = Types::new(alloc);
    if !add_first(alloc, &mut types, root, &scope, LIST, EARLIER)? {
        return Ok(false);
    }
    let at = path(alloc, PLACE)?;
    is_answer(
        alloc,
        type_of_node(alloc, &mut types, root, &scope, &at),
        wanted,
    )
}

fn is_right(alloc: Global, row: &(&str, Answer)) -> Result<bool, Memory> {
    match document(alloc, with_declaration(alloc, row.0)?.as_slice())? {
        Some(root) => is_judged_so(alloc, &root, row.1),
        None => Ok(false),
    }
}

fn first_wrong(alloc: Global) -> Option<usize> {
    JUDGED
        .iter()
        .position(|row| is_right(alloc, row) != Ok(true))
}

#[test]
fn declarations_have_their_faults(rt: HostRuntime) -> Result<(), Fail> {
    assert_eq!(rt; first_wrong(rt.alloc()), None);
    Ok(())
}
