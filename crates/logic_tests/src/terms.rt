// What no clause says: that each call can succeed with ample memory. The values are made and looked
// at in small functions that answer plain ones, since a test that keeps values of types that lead
// back to themselves takes minutes to prove.
ghost use Rattle.std.specs.Prelude.{◌≡◌, IfOk, length};

use base_kit::{Copied, Memory, Names, Text};
use sqlite_items::{Boxed, Items};
use std::alloc::Global;
use std::test::Fail;
use term_core::{
    Entries, Entry, Obligation, Obligations, OpNames, Oper, Sequent, Sort, SortEntry, SortNames,
    Sorts, Term, Terms, Var, Vars, depth, equal, free_names, put_entries, size, subst,
};
use term_counts::{Measure, Measures, TermCounts, counts_of, put_depth, put_size};
use term_sorts::{OpSort, OpSorts, sort_of};

fn text(alloc: Global, bytes: &str) -> Result<Text, Memory> {
    Ok(Text::from(bytes.as_bytes().to_vec(alloc)?))
}

// ---- sorts

fn array(alloc: Global) -> Result<Sort, Memory> {
    Ok(Sort::Array(0, 9, Boxed::new(alloc, Sort::Whole)?))
}

fn record(alloc: Global) -> Result<Sort, Memory> {
    let parts = vec![in alloc; Sort::Truth, Sort::Whole]?;
    Ok(Sort::Record(4, Items::from_vec(parts)))
}

// A sort's form and its size.
fn sort_shape(sort: &Sort) -> (&'static str, usize) {
    match sort {
        Sort::Whole => ("whole", 0),
        Sort::Range(_, _) => ("range", 0),
        Sort::Truth => ("truth", 0),
        Sort::Array(_, _, _) => ("array", 1),
        Sort::Record(_, parts) => ("record", parts.len()),
        Sort::Free(_) => ("free", 0),
    }
}

fn copied_sort(alloc: Global, sort: &Sort) -> Result<(&'static str, usize), Memory> {
    Ok(sort_shape(&sort.copy(alloc)?))
}

fn copied_array(alloc: Global) -> Result<(&'static str, usize), Memory> {
    copied_sort(alloc, &array(alloc)?)
}

fn copied_record(alloc: Global) -> Result<(&'static str, usize), Memory> {
    copied_sort(alloc, &record(alloc)?)
}

#[test]
fn sorts_are_copied(rt: HostRuntime) -> Result<(), Fail> {
    let alloc = rt.alloc();
    assert_eq!(rt; copied_sort(alloc, &Sort::Range(-3, 8))?, ("range", 0));
    assert_eq!(rt; copied_sort(alloc, &Sort::Free(6))?, ("free", 0));
    assert_eq!(rt; copied_array(alloc)?, ("array", 1));
    assert_eq!(rt; copied_record(alloc)?, ("record", 2));
    Ok(())
}

// ---- terms

fn variable(alloc: Global, name: &str) -> Result<Term, Memory> {
    Ok(Term::Var(text(alloc, name)?))
}

fn two(alloc: Global, oper: Oper, left: Term, right: Term) -> Result<Term, Memory> {
    let operands = vec![in alloc; left, right]?;
    Ok(Term::Op(oper, Items::from_vec(operands)))
}

fn of_names(alloc: Global, oper: Oper, left: &str, right: &str) -> Result<Term, Memory> {
    let left = variable(alloc, left)?;
    let right = variable(alloc, right)?;
    two(alloc, oper, left, right)
}

fn all(alloc: Global, bound: Text, body: Term) -> Result<Term, Memory> {
    let body = Boxed::new(alloc, body)?;
    let low = Boxed::new(alloc, Term::Int(0))?;
    let high = Boxed::new(alloc, Term::Int(1))?;
    Ok(Term::All(bound, low, high, body))
}

// for all NAME in 0 .. 1 : NAME = OTHER
fn each(alloc: Global, name: &str, other: &str) -> Result<Term, Memory> {
    let body = of_names(alloc, Oper::Eq, name, other)?;
    let bound = text(alloc, name)?;
    all(alloc, bound, body)
}

// LEFT - RIGHT
fn difference(alloc: Global, left: &str, right: &str) -> Result<Term, Memory> {
    of_names(alloc, Oper::Sub, left, right)
}

fn copied_as_it_is(alloc: Global, term: &Term) -> Result<bool, Memory> {
    Ok(equal(&term.copy(alloc)?, term))
}

fn each_is_copied(alloc: Global) -> Result<bool, Memory> {
    copied_as_it_is(alloc, &each(alloc, "J", "X")?)
}

fn difference_is_copied(alloc: Global) -> Result<bool, Memory> {
    copied_as_it_is(alloc, &difference(alloc, "X", "Y")?)
}

// Bound names count.
fn bound_names_count(alloc: Global) -> Result<bool, Memory> {
    Ok(!equal(&each(alloc, "J", "X")?, &each(alloc, "K", "X")?))
}

#[test]
fn terms_are_copied_and_compared(rt: HostRuntime) -> Result<(), Fail> {
    let alloc = rt.alloc();
    assert_eq!(rt; each_is_copied(alloc)?, true);
    assert_eq!(rt; difference_is_copied(alloc)?, true);
    assert_eq!(rt; bound_names_count(alloc)?, true);
    Ok(())
}

// Size, depth and the number of free names.
fn measured(alloc: Global) -> Result<(u64, u64, usize), Memory> {
    let term = each(alloc, "J", "X")?;
    let names = free_names(alloc, &term)?;
    Ok((size(&term), depth(&term), names.as_slice().len()))
}

#[test]
fn terms_are_measured(rt: HostRuntime) -> Result<(), Fail> {
    assert_eq!(rt; measured(rt.alloc())?, (6, 3, 1));
    Ok(())
}

// ---- substitution

// A quantifier's name, what its body compares it with, the name that X becomes, and both in the
// result.
type Replaced = (
    &'static str,
    &'static str,
    &'static str,
    &'static str,
    &'static str,
);

// Capture, a tick that is there already, ticks that aren't needed, a name of ticks alone, a bound
// name, and a name that doesn't occur.
const REPLACED: &[Replaced] = &[
    ("J", "X", "J", "J'", "J"),
    ("J", "X", "J'", "J", "J'"),
    ("J'", "X", "J", "J'", "J"),
    ("K''", "X", "J", "K", "J"),
    ("K'", "K", "J", "K'", "K"),
    ("''", "X", "J", "", "J"),
    ("X", "X", "J", "X", "X"),
    ("X", "Y", "Y", "X", "Y"),
    ("J'", "Y", "J", "J", "Y"),
];

fn with_x_replaced(alloc: Global, term: &Term, by: &str) -> Result<Term, Memory> {
    let name = text(alloc, "X")?;
    let by = variable(alloc, by)?;
    subst(alloc, term, &name, &by)
}

fn is_replaced(alloc: Global, row: &Replaced) -> Result<bool, Memory> {
    let (bound, other, by, new_bound, new_other) = *row;
    let made = with_x_replaced(alloc, &each(alloc, bound, other)?, by)?;
    Ok(equal(&made, &each(alloc, new_bound, new_other)?))
}

// The number of the first row that is wrong.
fn first_not_replaced(alloc: Global) -> Option<usize> {
    REPLACED
        .iter()
        .position(|row| is_replaced(alloc, row) != Ok(true))
}

fn entry(alloc: Global, name: &str, by: &str) -> Result<Entry, Memory> {
    Ok(Entry {
        name: text(alloc, name)?,
        by: variable(alloc, by)?,
    })
}

// X and Y for each other; that X stays comes first, and so doesn't count.
fn exchange(alloc: Global) -> Result<Entries, Memory> {
    let mut entries = Entries::new(alloc);
    entries.push(entry(alloc, "X", "X")?)?;
    entries.push(entry(alloc, "X", "Y")?)?;
    entries.push(entry(alloc, "Y", "X")?)?;
    Ok(entries)
}

fn replaces_at_once(alloc: Global) -> Result<bool, Memory> {
    let entries = exchange(alloc)?;
    let made = put_entries(alloc, &difference(alloc, "X", "Y")?, &entries.copy(alloc)?)?;
    Ok(equal(&made, &difference(alloc, "Y", "X")?))
}

#[test]
fn names_are_replaced(rt: HostRuntime) -> Result<(), Fail> {
    let alloc = rt.alloc();
    assert_eq!(rt; first_not_replaced(alloc), None);
    assert_eq!(rt; replaces_at_once(alloc)?, true);
    Ok(())
}

// ---- counts

fn measure(alloc: Global, name: &str, size: u64, depth: u64) -> Result<Measure, Memory> {
    let name = text(alloc, name)?;
    Ok(Measure { name, size, depth })
}

fn difference_counts(alloc: Global) -> Result<TermCounts, Memory> {
    counts_of(alloc, &difference(alloc, "X", "X")?)?.copy(alloc)
}

fn measures(alloc: Global) -> Result<Measures, Memory> {
    let mut measures = Measures::new(alloc);
    measures.push(measure(alloc, "X", 10, 4)?.copy(alloc)?)?;
    Ok(measures)
}

// X - X with ten nodes, four deep, for X.
fn counted(alloc: Global) -> Result<(u64, u64), Memory> {
    let counts = difference_counts(alloc)?;
    let measures = measures(alloc)?;
    Ok((put_size(&counts, &measures), put_depth(&counts, &measures)))
}

#[test]
fn sizes_are_found_before_terms_are_made(rt: HostRuntime) -> Result<(), Fail> {
    assert_eq!(rt; counted(rt.alloc())?, (21, 5));
    Ok(())
}

// ---- sorts of terms

fn add_variable(alloc: Global, vars: &mut Vars, name: &str, sort: Sort) -> Result<(), Memory> {
    let name = text(alloc, name)?;
    let label = text(alloc, "SMALL")?;
    vars.push(Var { name, label, sort })
}

// N is a whole number, R of a range, T a truth value, A a list, P a record and L of a generated sort.
fn sort_named(alloc: Global, name: &str) -> Result<Sort, Memory> {
    match name {
        "R" => Ok(Sort::Range(0, 5)),
        "T" => Ok(Sort::Truth),
        "A" => array(alloc),
        "P" => record(alloc),
        "L" => Ok(Sort::Free(0)),
        _ => Ok(Sort::Whole),
    }
}

fn variables(alloc: Global) -> Result<Vars, Memory> {
    let mut vars = Vars::new(alloc);
    for name in ["N", "R", "T", "A", "P", "L"] {
        add_variable(alloc, &mut vars, name, sort_named(alloc, name)?)?;
    }
    Ok(vars)
}

fn operator(alloc: Global, oper: Oper, args: Sorts, gives: Sort) -> Result<OpSort, Memory> {
    let entry = OpSort {
        oper,
        args,
        result: gives,
    };
    entry.copy(alloc)
}

fn sorts(alloc: Global, first: Sort) -> Result<Sorts, Memory> {
    let mut sorts = Sorts::new(alloc);
    sorts.push(first)?;
    Ok(sorts)
}

fn two_sorts(alloc: Global, first: Sort, second: Sort) -> Result<Sorts, Memory> {
    let mut sorts = sorts(alloc, first)?;
    sorts.push(second)?;
    Ok(sorts)
}

fn component(alloc: Global) -> Result<OpSort, Memory> {
    let args = sorts(alloc, record(alloc)?)?;
    operator(alloc, Oper::Field(0), args, Sort::Truth)
}

fn replacement(alloc: Global) -> Result<OpSort, Memory> {
    let args = two_sorts(alloc, record(alloc)?, Sort::Truth)?;
    let gives = record(alloc)?;
    operator(alloc, Oper::Update(0), args, gives)
}

fn filled(alloc: Global) -> Result<OpSort, Memory> {
    let args = sorts(alloc, Sort::Range(0, 5))?;
    let gives = array(alloc)?;
    operator(alloc, Oper::Fill(0), args, gives)
}

fn made(alloc: Global) -> Result<OpSort, Memory> {
    let args = two_sorts(alloc, Sort::Truth, Sort::Whole)?;
    let gives = record(alloc)?;
    operator(alloc, Oper::Make(4), args, gives)
}

fn free(alloc: Global) -> Result<OpSort, Memory> {
    let args = sorts(alloc, Sort::Free(0))?;
    operator(alloc, Oper::User(3), args, Sort::Range(1, 2))
}

// A component of the record, its replacement, a list of one element, the record, and an operator.
fn operators(alloc: Global) -> Result<OpSorts, Memory> {
    let mut ops = OpSorts::new(alloc);
    ops.push(component(alloc)?)?;
    ops.push(replacement(alloc)?)?;
    ops.push(filled(alloc)?)?;
    Ok(ops)
}

fn more_operators(alloc: Global) -> Result<OpSorts, Memory> {
    let mut ops = operators(alloc)?;
    ops.push(made(alloc)?)?;
    ops.push(free(alloc)?)?;
    Ok(ops)
}

// The names of an operator's operands, and the form of its result.
const SORTED: &[(Oper, &str, &str)] = &[
    (Oper::Add, "NR", "whole"),
    (Oper::Add, "NT", "none"),
    (Oper::Add, "N", "none"),
    (Oper::Sub, "NN", "whole"),
    (Oper::Sub, "TN", "none"),
    (Oper::Mul, "RR", "whole"),
    (Oper::Mul, "AN", "none"),
    (Oper::Div, "NN", "whole"),
    (Oper::Div, "NX", "none"),
    (Oper::Rem, "NN", "whole"),
    (Oper::Rem, "TT", "none"),
    (Oper::Mod, "NN", "whole"),
    (Oper::Mod, "NNN", "none"),
    (Oper::Neg, "R", "whole"),
    (Oper::Neg, "T", "none"),
    (Oper::Abs, "N", "whole"),
    (Oper::Abs, "NN", "none"),
    (Oper::Eq, "NR", "truth"),
    (Oper::Eq, "AA", "truth"),
    (Oper::Eq, "LL", "truth"),
    (Oper::Eq, "NT", "none"),
    (Oper::Eq, "AP", "none"),
    (Oper::Lt, "NN", "truth"),
    (Oper::Lt, "TT", "none"),
    (Oper::Le, "NR", "truth"),
    (Oper::Le, "AA", "none"),
    (Oper::Gt, "RN", "truth"),
    (Oper::Gt, "TN", "none"),
    (Oper::Ge, "NN", "truth"),
    (Oper::Ge, "NT", "none"),
    (Oper::And, "TT", "truth"),
    (Oper::And, "NN", "none"),
    (Oper::Or, "TT", "truth"),
    (Oper::Or, "TN", "none"),
    (Oper::Xor, "TT", "truth"),
    (Oper::Xor, "NT", "none"),
    (Oper::Not, "T", "truth"),
    (Oper::Not, "N", "none"),
    (Oper::Implies, "TT", "truth"),
    (Oper::Implies, "NN", "none"),
    (Oper::Iff, "TT", "truth"),
    (Oper::Iff, "T", "none"),
    (Oper::If, "TRN", "whole"),
    (Oper::If, "TAA", "array"),
    (Oper::If, "TNT", "none"),
    (Oper::If, "NNN", "none"),
    (Oper::Select, "AN", "whole"),
    (Oper::Select, "AT", "none"),
    (Oper::Select, "NN", "none"),
    (Oper::Store, "ANR", "array"),
    (Oper::Store, "ANT", "none"),
    (Oper::Store, "PNN", "none"),
    (Oper::Field(0), "P", "truth"),
    (Oper::Field(0), "A", "none"),
    (Oper::Field(1), "P", "none"),
    (Oper::Update(0), "PT", "record"),
    (Oper::Update(0), "PN", "none"),
    (Oper::Fill(0), "N", "array"),
    (Oper::Fill(0), "T", "none"),
    (Oper::Make(4), "TN", "record"),
    (Oper::Make(4), "NT", "none"),
    (Oper::User(3), "L", "whole"),
    (Oper::User(3), "N", "none"),
    (Oper::User(4), "L", "none"),
];

fn applied(alloc: Global, oper: Oper, operands: &str) -> Result<Term, Memory> {
    let mut terms = Terms::new(alloc);
    for name in operands.as_bytes() {
        let mut bytes = Vec::new(alloc);
        bytes.push(*name)?;
        terms.push(Term::Var(Text::from(bytes)))?;
    }
    Ok(Term::Op(oper, terms))
}

fn form_of(sort: &Option<Sort>) -> &'static str {
    match sort {
        Some(sort) => sort_shape(sort).0,
        None => "none",
    }
}

fn is_sorted(
    alloc: Global,
    row: &(Oper, &'static str, &'static str),
    vars: &Vars,
    ops: &OpSorts,
) -> Result<bool, Memory> {
    let (oper, operands, form) = *row;
    let sort = sort_of(alloc, &applied(alloc, oper, operands)?, vars, ops)?;
    Ok(form_of(&sort) == form)
}

// The number of the first row that is wrong.
fn first_unsorted(alloc: Global, vars: &Vars, ops: &OpSorts) -> Option<usize> {
    SORTED
        .iter()
        .position(|row| is_sorted(alloc, row, vars, ops) != Ok(true))
}

fn all_are_sorted(alloc: Global) -> Result<bool, Memory> {
    let vars = variables(alloc)?;
    let ops = more_operators(alloc)?;
    Ok(first_unsorted(alloc, &vars, &ops).is_none())
}

#[test]
fn sorts_of_terms_are_found(rt: HostRuntime) -> Result<(), Fail> {
    assert!(rt; all_are_sorted(rt.alloc())?);
    Ok(())
}

// ---- obligations

// Six variables, one hypothesis and a goal.
fn sequent(alloc: Global) -> Result<Sequent, Memory> {
    let vars = variables(alloc)?;
    let mut hyps = Terms::new(alloc);
    hyps.push(Term::Int(1))?;
    Ok(Sequent {
        vars,
        hyps,
        goal: Term::Truth(true),
    })
}

fn obligation(alloc: Global) -> Result<Obligation, Memory> {
    let cut = text(alloc, "loop1")?;
    let sequent = sequent(alloc)?;
    Ok(Obligation {
        cut,
        ordinal: 3,
        sequent,
    })
}

// How many obligations there are, and of the first one the length of its label, its ordinal and
// the numbers of its variables and hypotheses.
fn obligation_shape(obligations: &[Obligation]) -> (usize, usize, u32, usize, usize) {
    match obligations {
        [first, ..] => (
            obligations.len(),
            first.cut.as_bytes().len(),
            first.ordinal,
            first.sequent.vars.as_slice().len(),
            first.sequent.hyps.len(),
        ),
        [] => (0, 0, 0, 0, 0),
    }
}

fn copied_obligations(alloc: Global) -> Result<(usize, usize, u32, usize, usize), Memory> {
    let obligation = obligation(alloc)?;
    let mut obligations = Obligations::new(alloc);
    obligations.push(obligation)?;
    Ok(obligation_shape(obligations.copy(alloc)?.as_slice()))
}

#[test]
fn obligations_are_copied(rt: HostRuntime) -> Result<(), Fail> {
    assert_eq!(rt; copied_obligations(rt.alloc())?, (1, 5, 3, 6, 1));
    Ok(())
}

// ---- names

fn pair(alloc: Global, first: &str, second: &str) -> Result<Names, Memory>
    ensures { IfOk result (λ names. length names ≡ 2) }
{
    let mut names = Names::new(alloc);
    names.push(text(alloc, first)?)?;
    names.push(text(alloc, second)?)?;
    Ok(names)
}

// A record type with two components.
fn sort_names(alloc: Global) -> Result<SortNames, Memory> {
    let name = text(alloc, "PAIR")?;
    let parts = pair(alloc, "LEFT", "RIGHT")?;
    let sorts = Items::from_vec(vec![in alloc; Sort::Whole, Sort::Truth]?);
    let mut names = SortNames::new(alloc);
    names.push(SortEntry {
        name,
        sort: Sort::Record(0, sorts),
        seen: true,
        parts,
        base: 0,
    })?;
    names.copy(alloc)
}

// How many entries there are, and of the first one the length of its name and its components.
fn copied_names(alloc: Global) -> Result<(usize, usize, usize), Memory> {
    let names = sort_names(alloc)?;
    Ok(match names.as_slice() {
        [first, ..] => (
            names.as_slice().len(),
            first.name.as_bytes().len(),
            first.parts.as_slice().len(),
        ),
        [] => (0, 0, 0),
    })
}

// The numbers of names of operators, types and components.
fn copied_op_names(alloc: Global) -> Result<(usize, usize, usize), Memory> {
    let names = OpNames {
        ops: pair(alloc, "LEN", "APPEND")?,
        types: Names::new(alloc),
        parts: pair(alloc, "LEFT", "RIGHT")?,
    };
    let same = names.copy(alloc)?;
    Ok((
        same.ops.as_slice().len(),
        same.types.as_slice().len(),
        same.parts.as_slice().len(),
    ))
}

#[test]
fn names_are_added_and_copied(rt: HostRuntime) -> Result<(), Fail> {
    let alloc = rt.alloc();
    assert_eq!(rt; copied_names(alloc)?, (1, 4, 2));
    assert_eq!(rt; copied_op_names(alloc)?, (2, 0, 2));
    Ok(())
}
