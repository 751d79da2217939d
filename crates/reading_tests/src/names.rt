// What names see, and which declarations stand where their name is taken, in small documents.
use crate::documents::{CALLED, LISTED, RENAMED, RENAMED_ALONE, REPEATS, Row, UNITS};
use ada_names::Table;
use ada_tree::{DeclId, Kids, Kind, Lookup, Node};
use base_kit::{Code, Memory, Names, Path, Place, Stop, Text};
use scope_rules::{Scope, declared, distinct, resolve};
use std::alloc::Global;
use std::test::Fail;

// The prefix or nothing, the name, the place, and what the name sees there.
type Seen = (
    &'static str,
    &'static str,
    &'static [u32],
    Result<u32, Code>,
);

const SEEN: &[Seen] = &[
    // Not inside its own declaration; after it, before the outer one.
    ("", "N", &[0, 1, 1, 0, 0, 2, 0, 3], Ok(13)),
    ("", "N", &[0, 1, 1, 0, 0, 3, 0, 0], Ok(22)),
    ("P", "N", &[0, 1, 1, 0, 0, 3, 0, 0], Ok(13)),
    // A loop parameter isn't seen in its range.
    ("", "I", &[0, 1, 1, 0, 0, 3, 0, 0, 0, 0], Err(Code::F05)),
    ("", "I", &[0, 1, 1, 0, 0, 3, 0, 0, 2, 0, 0, 0, 3], Ok(23)),
    // Blocks beside each other.
    (
        "",
        "K",
        &[0, 1, 1, 0, 0, 3, 0, 0, 2, 0, 0, 0, 3],
        Err(Code::F05),
    ),
    ("", "K", &[0, 1, 1, 0, 0, 3, 0, 0, 2, 0, 1, 0, 0], Ok(24)),
    ("", "K", &[0, 1, 1, 0, 0, 3, 0, 0, 2, 1, 1, 0, 0], Ok(25)),
    // The formals of a body are its own, and it has its declaration's number.
    ("", "A", &[0, 0, 1, 0, 4, 0, 0, 0, 1, 1], Ok(17)),
    ("", "A", &[0, 1, 1, 0, 0, 3, 0, 0], Ok(20)),
    ("", "Q", &[0, 1, 1, 0, 0, 3, 0, 0], Ok(16)),
    // A private part is seen in the body, and not from outside.
    ("", "H", &[0, 1, 1, 0, 0, 3, 0, 0], Ok(19)),
    ("P", "H", &[0, 3, 1, 3, 0, 0, 1], Err(Code::F05)),
    // One used package, or two.
    ("", "M", &[0, 3, 1, 3, 0, 0, 1], Ok(28)),
    ("", "GREEN", &[0, 3, 1, 3, 0, 0, 1], Ok(12)),
    ("", "N", &[0, 3, 1, 3, 0, 0, 1], Err(Code::F07)),
    ("P", "N", &[0, 3, 1, 3, 0, 0, 1], Ok(13)),
    ("S", "N", &[0, 3, 1, 3, 0, 0, 1], Ok(27)),
    ("", "V", &[0, 3, 1, 3, 0, 0, 0], Ok(30)),
    ("", "T", &[0, 3, 1, 3, 0, 0, 0], Ok(29)),
    // Context clauses: their order doesn't matter, and a `with` names earlier units alone.
    ("", "S", &[0, 3, 0, 0, 0, 0], Ok(26)),
    ("", "P", &[0, 3, 0, 1, 0, 0], Ok(9)),
    ("", "T", &[0, 3, 0, 1, 0, 0], Err(Code::F05)),
    ("", "M", &[0, 3, 0, 1, 0, 0], Err(Code::F05)),
    ("", "N", &[0, 3, 0, 1, 0, 0], Err(Code::F05)),
    ("", "TRUE", &[0, 3, 0, 1, 0, 0], Err(Code::F05)),
    ("", "P", &[0, 1, 0, 0, 0, 0], Ok(9)),
    ("", "S", &[0, 1, 1, 0, 0, 3, 0, 0], Err(Code::F05)),
    ("S", "M", &[0, 1, 1, 0, 0, 3, 0, 0], Err(Code::F05)),
    // Inside a package its name shows what has ended.
    ("P", "RED", &[0, 0, 1, 0, 1, 1], Ok(11)),
    ("P", "X", &[0, 0, 1, 0, 1, 1], Err(Code::F05)),
    // The predefined names are no package's.
    ("", "INTEGER", &[0, 0, 1, 0, 2, 1], Ok(0)),
    ("", "PROGRAM_ERROR", &[0, 5, 1, 3, 0, 0], Ok(8)),
    ("P", "INTEGER", &[0, 3, 1, 3, 0, 0, 1], Err(Code::F05)),
    // In a term an object comes first, then an operator; a bound name is no declaration.
    ("", "F", &[0, 5, 1, 1, 0, 0, 0, 2, 1], Ok(31)),
    ("", "F", &[0, 5, 1, 3, 0, 0], Err(Code::F05)),
    ("", "V", &[0, 5, 1, 1, 0, 0, 0, 2, 0], Ok(34)),
    ("", "X", &[0, 5, 1, 1, 0, 0, 0, 2, 0], Err(Code::F05)),
    // In a trait.
    ("", "F", &[0, 4, 4, 0, 0], Ok(31)),
    ("", "X", &[0, 4, 4, 0, 1], Err(Code::F05)),
    ("", "TRUE", &[0, 4, 4, 0, 1], Ok(5)),
    ("", "INTEGER", &[0, 4, 4, 0, 1], Err(Code::F05)),
    ("P", "COLOR", &[0, 4, 1, 0, 1], Ok(10)),
    ("P", "N", &[0, 4, 1, 0, 1], Err(Code::F05)),
];

// The name in the `with` clause, and in the calls.
const BEFORE: &[Seen] = &[
    ("", "P", &[0, 1, 0, 0, 0, 0], Ok(9)),
    ("", "P", &[0, 1, 1, 3, 0, 0, 0, 0], Ok(9)),
    ("", "P", &[0, 1, 1, 3, 0, 1, 0, 0], Ok(9)),
    ("", "R", &[0, 1, 1, 3, 0, 0, 0, 0], Err(Code::F05)),
];

const ALONE: &[Seen] = &[
    ("", "P", &[0, 1, 0, 0, 0, 0], Err(Code::F05)),
    ("", "P", &[0, 1, 1, 3, 0, 0, 0, 0], Err(Code::F05)),
    // No `with` clause names it.
    ("", "R", &[0, 1, 1, 3, 0, 0, 0, 0], Err(Code::F05)),
];

const TOGETHER: &[Seen] = &[
    ("", "R", &[0, 1, 0, 0, 0, 0], Ok(9)),
    ("", "R", &[0, 1, 1, 3, 0, 0, 0, 0], Ok(9)),
    ("", "R", &[0, 1, 1, 3, 0, 1, 0, 0], Ok(9)),
    ("", "P", &[0, 1, 1, 3, 0, 1, 0, 0], Err(Code::F05)),
];

// The path of a declared name, the number that `declared` answers, and whether the name stands once.
type Declared = (&'static [u32], Result<u32, Code>, bool);

const DECLARED: &[Declared] = &[
    (&[0, 0, 1], Ok(9), true),
    (&[0, 0, 1, 0, 0, 0, 0], Ok(10), true),
    (&[0, 0, 1, 0, 1], Ok(11), true),
    (&[0, 0, 1, 0, 2, 0], Ok(12), true),
    (&[0, 0, 1, 0, 3, 0], Err(Code::F06), false),
    (&[0, 0, 1, 0, 4], Ok(14), true),
    // Components have no numbers.
    (&[0, 0, 1, 0, 4, 0, 0, 0, 0, 0], Err(Code::F05), true),
    (&[0, 0, 1, 0, 4, 0, 0, 1, 0, 0], Err(Code::F06), false),
    // The full type has the private one's number; there is one.
    (&[0, 0, 1, 1, 0], Ok(11), true),
    (&[0, 0, 1, 1, 1], Err(Code::F06), false),
    // A package's body goes on with its region.
    (&[0, 1, 1], Ok(9), true),
    (&[0, 1, 1, 0, 0, 0, 0], Err(Code::F06), false),
    (&[0, 1, 1, 0, 1, 0], Ok(12), true),
    (&[0, 1, 1, 0, 2, 0], Err(Code::F06), false),
    (&[0, 2, 1], Err(Code::F06), false),
    (&[0, 3, 1], Err(Code::F05), true),
    (&[0, 4, 1, 0], Ok(16), true),
    (&[0, 4, 1, 0, 0, 0, 0, 0, 0], Ok(17), true),
    // No hiding of objects of the subprogram, but of numbers and in blocks beside each other.
    (&[0, 4, 1, 3, 0, 0, 0, 0, 0, 0], Err(Code::F06), false),
    (&[0, 4, 1, 3, 0, 1, 0, 0], Ok(20), true),
    (&[0, 4, 1, 3, 0, 1, 0, 0, 0, 0, 0], Err(Code::F06), false),
    (&[0, 4, 1, 3, 0, 2, 0], Err(Code::F06), false),
    (&[0, 4, 1, 3, 0, 3, 1, 0, 0, 0, 0, 0, 0], Ok(24), true),
    (&[0, 4, 1, 3, 0, 4, 0, 0, 0, 0], Ok(25), true),
    (&[0, 4, 1, 3, 0, 5, 0, 0, 0, 0], Ok(26), true),
    // Traits, operators, variables and lemmas.
    (&[0, 5], Err(Code::F05), true),
    (&[0, 5, 1, 0], Ok(27), true),
    (&[0, 5, 1, 1], Err(Code::F06), false),
    (&[0, 5, 3, 0, 0, 0], Err(Code::F05), true),
    (&[0, 5, 3, 1, 0, 0], Err(Code::F06), false),
    (&[0, 5, 6, 0], Err(Code::F05), true),
    (&[0, 5, 6, 1], Err(Code::F06), false),
    (&[0, 6], Err(Code::F06), false),
    (&[0, 7, 1, 0], Err(Code::F06), false),
    // A package's body completes no subprogram.
    (&[0, 8, 1], Err(Code::F05), true),
    // A number and a type may not bear an object's name either.
    (&[0, 9, 1, 0, 0, 0, 0, 0, 0], Ok(31), true),
    (&[0, 9, 1, 3, 0, 0, 0, 0, 0, 0], Err(Code::F06), false),
    (&[0, 9, 1, 3, 0, 1, 0, 0], Err(Code::F06), false),
    // Nothing is declared there.
    (&[], Err(Code::F05), true),
    (&[0, 0, 1, 0, 0], Err(Code::F05), true),
];

// The marks of `global` clauses, raise clauses and `where` blocks.
const CLAUSES: &[Declared] = &[
    // A package variable stands once, by whatever mark.
    (&[0, 2, 1, 1, 0, 0, 0, 0], Err(Code::F05), true),
    (&[0, 2, 1, 1, 0, 0, 0, 1], Err(Code::F05), true),
    (&[0, 2, 1, 1, 0, 0, 0, 2], Err(Code::F06), false),
    (&[0, 2, 1, 1, 0, 1, 0, 0], Err(Code::F06), false),
    // Another package's variable of that name.
    (&[0, 2, 1, 1, 0, 1, 0, 1], Err(Code::F05), true),
    (&[0, 2, 1, 1, 0, 1, 0, 2], Err(Code::F06), false),
    // A formal is no package variable, and three parts see nothing.
    (&[0, 2, 1, 1, 0, 2, 0, 1], Err(Code::F05), true),
    (&[0, 2, 1, 1, 0, 3, 0, 1], Err(Code::F05), true),
    // An exception has one clause; the fault is at the clause.
    (&[0, 2, 1, 1, 0, 4], Err(Code::F05), true),
    (&[0, 2, 1, 1, 0, 5], Err(Code::F05), true),
    (&[0, 2, 1, 1, 0, 6], Err(Code::F06), false),
    (&[0, 2, 1, 1, 0, 6, 0], Err(Code::F05), true),
    (&[0, 2, 1, 1, 0, 7], Err(Code::F06), false),
    (&[0, 2, 1, 1, 0, 8], Err(Code::F05), true),
    // A body has no `where` block where its declaration stands earlier.
    (&[0, 2, 1, 1], Err(Code::F05), true),
    (&[0, 3, 1, 1], Err(Code::F05), true),
    (&[0, 4, 1, 1], Err(Code::F06), false),
    (&[0, 4, 1, 1, 0, 0, 0, 0], Err(Code::F05), true),
];

// A number, and the path of its declaration.
const PLACES: &[(u32, Option<&'static [u32]>)] = &[
    (8, None),
    (9, Some(&[0, 0, 1])),
    (11, Some(&[0, 0, 1, 0, 1])),
    (12, Some(&[0, 0, 1, 0, 2, 0])),
    (13, Some(&[0, 0, 1, 0, 3, 0])),
    (24, Some(&[0, 4, 1, 3, 0, 3, 1, 0, 0, 0, 0, 0, 0])),
    (29, Some(&[0, 7, 1, 0])),
    (33, Some(&[0, 9, 1, 3, 0, 1, 0, 0])),
    (34, None),
];

// A declaration of the units, and its number among the exceptions.
const EXCEPTIONS: &[(u32, Option<usize>)] = &[
    (6, Some(0)),
    (8, Some(2)),
    (14, None),
    (15, Some(3)),
];

fn path(alloc: Global, numbers: &[u32]) -> Result<Path, Memory> {
    Ok(Path(Vec::from_slice(alloc, numbers)?))
}

fn node(alloc: Global, kind: Kind, text: &str, kids: Kids) -> Result<Node, Memory> {
    Ok(Node {
        kind,
        text: Text::from(Vec::from_slice(alloc, text.as_bytes())?),
        notes: Names::new(alloc),
        kids,
    })
}

// The kids of a node at this depth: the last nodes that stand one deeper, in order.
fn take_kids(alloc: Global, built: &mut Vec<(usize, Node)>, depth: usize) -> Result<Kids, Memory> {
    let mut kids = Kids::new(alloc);
    while let Some((deeper, kid)) = built.pop() {
        if deeper <= depth {
            built.push((deeper, kid))?;
            return Ok(kids);
        }
        kids.push(kid)?;
    }
    Ok(kids)
}

// The tree of these rows.
pub fn tree(alloc: Global, rows: &[Row]) -> Result<Option<Node>, Memory> {
    let mut built = Vec::new(alloc);
    for (depth, kind, text) in rows.iter().rev() {
        let kids = take_kids(alloc, &mut built, *depth)?;
        built.push((*depth, node(alloc, *kind, text, kids)?))?;
    }
    Ok(built.pop().map(|(_, root)| root))
}

fn scope(alloc: Global, rows: &[Row]) -> Result<Option<Scope>, Memory> {
    match tree(alloc, rows)? {
        Some(root) => Ok(Some(Scope::of_root(alloc, &root)?)),
        None => Ok(None),
    }
}

fn name(alloc: Global, prefix: &str, name: &str) -> Result<Node, Memory> {
    let mut kids = Kids::new(alloc);
    if prefix.is_empty() {
        return node(alloc, Kind::Name, name, kids);
    }
    let first = node(alloc, Kind::Name, prefix, Kids::new(alloc))?;
    kids.push(first)?;
    node(alloc, Kind::Select, name, kids)
}

// Whether a call answered this: a number, or a fault at the path.
fn answers(answer: Result<DeclId, Stop>, at: &[u32], wanted: Result<u32, Code>) -> bool {
    match (answer, wanted) {
        (Ok(id), Ok(number)) => id.0 == number,
        (Err(stop), Err(code)) => is_fault(stop, at, code),
        _ => false,
    }
}

fn is_path(path: &Path, numbers: &[u32]) -> bool {
    path.0.as_slice() == numbers
}

fn is_fault(stop: Stop, at: &[u32], code: Code) -> bool {
    let Stop::Fault(fault) = stop else {
        return false;
    };
    let given = fault.code;
    match fault.place {
        Place::At(path) => given == code && is_path(&path, at),
        Place::Line(_, _) => false,
    }
}

fn sees(alloc: Global, scope: &Scope, row: &Seen) -> Result<bool, Memory> {
    let mark = name(alloc, row.0, row.1)?;
    let at = path(alloc, row.2)?;
    Ok(
        answers(resolve(scope, &mark, &at), row.2, row.3)
            && answers(scope.find(&mark, &at), row.2, row.3),
    )
}

// The number of the first row that is wrong.
fn first_unseen(alloc: Global, scope: &Scope, rows: &[Seen]) -> Option<usize> {
    rows.iter()
        .position(|row| sees(alloc, scope, row) != Ok(true))
}

// Whether all rows are right in the document.
fn all_see(alloc: Global, document: &[Row], rows: &[Seen]) -> Result<bool, Memory> {
    Ok(match scope(alloc, document)? {
        Some(scope) => first_unseen(alloc, &scope, rows).is_none(),
        None => false,
    })
}

fn is_declared(alloc: Global, scope: &Scope, row: &Declared) -> Result<bool, Memory> {
    let at = path(alloc, row.0)?;
    let once = match distinct(scope, &at) {
        Ok(()) => row.2,
        Err(stop) => !row.2 && is_fault(stop, row.0, Code::F06),
    };
    Ok(once && answers(declared(scope, &at), row.0, row.1))
}

// The number of the first row that is wrong.
fn first_undeclared(alloc: Global, scope: &Scope, rows: &[Declared]) -> Option<usize> {
    rows.iter()
        .position(|row| is_declared(alloc, scope, row) != Ok(true))
}

// Whether all rows are right in the document.
fn all_declare(alloc: Global, document: &[Row], rows: &[Declared]) -> Result<bool, Memory> {
    Ok(match scope(alloc, document)? {
        Some(scope) => first_undeclared(alloc, &scope, rows).is_none(),
        None => false,
    })
}

fn is_placed(
    alloc: Global,
    table: &Table,
    number: u32,
    at: Option<&[u32]>,
) -> Result<bool, Memory> {
    Ok(match (table.place_of(alloc, DeclId(number))?, at) {
        (Some(path), Some(numbers)) => is_path(&path, numbers),
        (None, None) => true,
        _ => false,
    })
}

// The number of the first row that is wrong.
fn first_misplaced(alloc: Global, table: &Table) -> Option<usize> {
    PLACES.iter().position(|(number, at)| is_placed(alloc, table, *number, *at) != Ok(true))
}

// The number of the first row that is wrong.
fn first_misnumbered(table: &Table) -> Option<usize> {
    EXCEPTIONS.iter().position(|(number, wanted)| {
        table.exception_number(DeclId(*number)) != *wanted
    })
}

fn table(alloc: Global, rows: &[Row]) -> Result<Option<Table>, Memory> {
    match tree(alloc, rows)? {
        Some(root) => Ok(Some(Table::of_root(alloc, &root)?)),
        None => Ok(None),
    }
}

fn all_are_placed(alloc: Global) -> Result<bool, Memory> {
    Ok(match table(alloc, REPEATS)? {
        Some(table) => first_misplaced(alloc, &table).is_none(),
        None => false,
    })
}

fn all_are_numbered(alloc: Global) -> Result<bool, Memory> {
    Ok(match table(alloc, UNITS)? {
        Some(table) => first_misnumbered(&table).is_none(),
        None => false,
    })
}

#[test]
fn names_see_what_is_visible(rt: HostRuntime) -> Result<(), Fail> {
    assert!(rt; all_see(rt.alloc(), UNITS, SEEN)?);
    Ok(())
}

#[test]
fn names_of_a_renamed_unit_see_nothing(rt: HostRuntime) -> Result<(), Fail> {
    assert!(rt; all_see(rt.alloc(), CALLED, BEFORE)?);
    assert!(rt; all_see(rt.alloc(), RENAMED_ALONE, ALONE)?);
    assert!(rt; all_see(rt.alloc(), RENAMED, TOGETHER)?);
    Ok(())
}

#[test]
fn declarations_have_their_numbers_or_are_refused(rt: HostRuntime) -> Result<(), Fail> {
    assert!(rt; all_declare(rt.alloc(), REPEATS, DECLARED)?);
    Ok(())
}

#[test]
fn clauses_list_things_once(rt: HostRuntime) -> Result<(), Fail> {
    assert!(rt; all_declare(rt.alloc(), LISTED, CLAUSES)?);
    Ok(())
}

#[test]
fn numbers_lead_to_places(rt: HostRuntime) -> Result<(), Fail> {
    assert!(rt; all_are_placed(rt.alloc())?);
    Ok(())
}

#[test]
fn exceptions_have_numbers_of_their_own(rt: HostRuntime) -> Result<(), Fail> {
    assert!(rt; all_are_numbered(rt.alloc())?);
    Ok(())
}
