// Linear certificates: sequents that arise in proofs, what is near them, and each rule and bound.
// A row has hypotheses and last the goal, each with its operators after their operands; names are
// variables, and N's and R's are numbers, T's and U's truth values and A's lists.
use base_kit::{Memory, Text};
use linear_facts::closes;
use sqlite_items::{Boxed, Items};
use std::alloc::Global;
use std::test::Fail;
use term_core::{Oper, Sequent, Sort, Term, Terms, Var, Vars};

// Operators: the word, and how many operands.
const OPERATORS: &[(&str, Oper, usize)] = &[
    ("+", Oper::Add, 2),
    ("-", Oper::Sub, 2),
    ("*", Oper::Mul, 2),
    ("/", Oper::Div, 2),
    ("neg", Oper::Neg, 1),
    ("=", Oper::Eq, 2),
    ("<", Oper::Lt, 2),
    ("<=", Oper::Le, 2),
    (">", Oper::Gt, 2),
    (">=", Oper::Ge, 2),
    ("and", Oper::And, 2),
    ("not", Oper::Not, 1),
    ("of", Oper::Select, 2),
    ("store", Oper::Store, 3),
    ("LEN", Oper::User(0), 1),
    ("APPEND", Oper::User(1), 2),
];

fn text(alloc: Global, bytes: &str) -> Result<Text, Memory> {
    Ok(Text::from(bytes.as_bytes().to_vec(alloc)?))
}

fn operator(word: &str) -> Option<(Oper, usize)> {
    for (name, oper, count) in OPERATORS {
        if *name == word {
            return Some((*oper, *count));
        }
    }
    None
}

fn leaf(alloc: Global, word: &str) -> Result<Term, Memory> {
    match word.parse::<i128>() {
        Ok(value) => Ok(Term::Int(value)),
        Err(_) => match word {
            "true" => Ok(Term::Truth(true)),
            "false" => Ok(Term::Truth(false)),
            _ => Ok(Term::Var(text(alloc, word)?)),
        },
    }
}

// The operator over the last terms of the stack.
fn apply(alloc: Global, stack: &mut Vec<Term>, oper: Oper, count: usize) -> Result<(), Memory> {
    let mut operands = Vec::new(alloc);
    for _ in 0..count {
        if let Some(term) = stack.pop() {
            operands.push(term)?;
        }
    }
    operands.reverse();
    stack.push(Term::Op(oper, Items::from_vec(operands)))?;
    Ok(())
}

fn term(alloc: Global, words: &str) -> Result<Term, Memory> {
    let mut stack = Vec::new(alloc);
    for word in words.split_whitespace() {
        match operator(word) {
            Some((oper, count)) => apply(alloc, &mut stack, oper, count)?,
            None => stack.push(leaf(alloc, word)?)?,
        }
    }
    Ok(stack.pop().unwrap_or(Term::Truth(false)))
}

fn sort(alloc: Global, name: &str) -> Result<Sort, Memory> {
    Ok(match name {
        "T" => Sort::Truth,
        "U" => Sort::Truth,
        "A" => Sort::Array(1, 10, Boxed::new(alloc, Sort::Whole)?),
        "R" => Sort::Range(0, 9),
        _ => Sort::Whole,
    })
}

const NAMES: &[&str] = &["K", "I", "N", "R", "S", "T", "U", "A", "X", "Y"];

fn variable(alloc: Global, name: &str) -> Result<Var, Memory> {
    let label = text(alloc, name)?;
    let sort = sort(alloc, name)?;
    let name = text(alloc, name)?;
    Ok(Var { name, label, sort })
}

fn variables(alloc: Global) -> Result<Vars, Memory> {
    let mut vars = Vars::new(alloc);
    for name in NAMES {
        vars.push(variable(alloc, name)?)?;
    }
    Ok(vars)
}

fn terms(alloc: Global, row: &str) -> Result<Terms, Memory> {
    let mut terms = Terms::new(alloc);
    for words in row.split(',') {
        terms.push(term(alloc, words)?)?;
    }
    Ok(terms)
}

fn sequent(alloc: Global, row: &str) -> Result<Sequent, Memory> {
    let vars = variables(alloc)?;
    let mut hyps = terms(alloc, row)?;
    let goal = hyps.pop().unwrap_or(Term::Truth(false));
    Ok(Sequent { vars, hyps, goal })
}

fn row_closes(alloc: Global, row: &str, coeffs: &[i64]) -> Result<bool, Memory> {
    Ok(closes(&sequent(alloc, row)?, coeffs))
}

// A row, its coefficients, and whether they close it.
type Row = (&'static str, &'static [i64], bool);

// The number of the first row that is wrong.
fn first_wrong(alloc: Global, rows: &[Row]) -> Option<usize> {
    rows.iter().position(|(row, coeffs, want)| row_closes(alloc, row, coeffs) != Ok(*want))
}

// ---- steps of proofs

const STEPS: &[Row] = &[
    // X + 1 stays within INTEGER where X isn't its last number.
    (
        "-2147483648 X 1 + <= X 1 + 2147483647 <= and not, -2147483648 X <= X 2147483647 <= and, -2147483648 X <=, X 2147483647 <=, 2147483647 X <= not, -2147483648 X 1 + <=",
        &[1, 0, 0, 1],
        true,
    ),
    (
        "-2147483648 X 1 + <= X 1 + 2147483647 <= and not, -2147483648 X <= X 2147483647 <= and, -2147483648 X <=, X 2147483647 <=, 2147483647 X <= not, X 1 + 2147483647 <=",
        &[1, 0, 0, 0, 0, 1],
        true,
    ),
    // A search in a list, which has come to its last index, or not yet.
    (
        "1 I <= I 10 <= and, T, A I of X = not, I 10 =, 1 K <= K 10 <= and, K I = not, 1 K <=, K 10 <=, K I 1 - <= not, K I <=",
        &[1, 0, 0, 0, -1, 0, 0, 0, 1],
        true,
    ),
    (
        "1 I <= I 10 <= and, T, A I of X = not, I 10 =, 1 K <= K 10 <= and, K I = not, 1 K <=, K 10 <=, K I 1 - <= not, I K <=",
        &[1, 0, 0, 0, 0, 0, 0, 0, 0, 1],
        true,
    ),
    (
        "1 I <= I 10 <= and, T, A I of X = not, I 10 = not, 1 K <= K I 1 + 1 - <= and, K I = not, 1 K <=, K I 1 + 1 - <=, K I 1 - <= not, K I <=",
        &[1, 0, 0, 0, 0, 0, 0, 0, 1],
        true,
    ),
    // A count down to 0.
    (
        "N 0 >, T, 0 N <= N 2147483647 <= and, 0 N <=, N 2147483647 <=, -2147483648 N 1 - <=",
        &[1, 0, 0, 0, 1],
        true,
    ),
    (
        "N 0 >, T, 0 N <= N 2147483647 <= and, 0 N <=, N 2147483647 <=, N 1 - 2147483647 <=",
        &[1, 0, 0, 0, 0, 1],
        true,
    ),
    ("N 0 >, T, T, 0 N 1 - <=", &[1, 1], true),
    ("N 0 > not, 0 N <=, N 2147483647 <=, N 0 <=", &[1, 1], true),
    // The length of two lists, one after the other.
    (
        "S T APPEND LEN S LEN T LEN + =, 1 S T APPEND LEN + 1 S LEN + T LEN + <=",
        &[1, 1],
        true,
    ),
    (
        "S T APPEND LEN S LEN T LEN + =, 1 S LEN + T LEN + 1 S T APPEND LEN + <=",
        &[1, -1],
        true,
    ),
];

#[test]
fn steps_of_proofs_close(rt: HostRuntime) {
    assert_eq!(rt; first_wrong(rt.alloc(), STEPS), None);
}

// ---- near misses: one weight is greater or less by one

fn with_more(alloc: Global, coeffs: &[i64], at: usize, more: i64) -> Result<Vec<i64>, Memory> {
    let mut others = Vec::new(alloc);
    for (i, coefficient) in coeffs.iter().enumerate() {
        let added = if i == at { more } else { 0 };
        others.push(coefficient.saturating_add(added))?;
    }
    Ok(others)
}

// Whether the sequent is closed with so much more at one place.
fn misses(
    alloc: Global,
    sequent: &Sequent,
    coeffs: &[i64],
    at: usize,
    more: i64,
) -> Result<bool, Memory> {
    Ok(!closes(sequent, with_more(alloc, coeffs, at, more)?.as_slice()))
}

// Whether none of a row's near misses closes it.
fn all_miss(alloc: Global, sequent: &Sequent, coeffs: &[i64]) -> Result<bool, Memory> {
    for at in 0..coeffs.len() {
        let is_less = misses(alloc, sequent, coeffs, at, -1)?;
        if !is_less || !misses(alloc, sequent, coeffs, at, 1)? {
            return Ok(false);
        }
    }
    Ok(true)
}

fn has_no_near_miss(alloc: Global, row: &Row) -> Result<bool, Memory> {
    let (words, coeffs, _) = *row;
    let sequent = sequent(alloc, words)?;
    all_miss(alloc, &sequent, coeffs)
}

// The number of the first row with a near miss that closes.
fn first_missed(alloc: Global, rows: &[Row]) -> Option<usize> {
    rows.iter()
        .position(|row| has_no_near_miss(alloc, row) != Ok(true))
}

#[test]
fn near_misses_do_not_close(rt: HostRuntime) {
    assert_eq!(rt; first_missed(rt.alloc(), STEPS), None);
}

// ---- the rules

const RULES: &[Row] = &[
    // The constant is above 0, and `<` has its one.
    ("X 0 <=, X 1 >=, false", &[0, 1, 1], true),
    ("X 0 <=, X 0 >=, false", &[0, 1, 1], false),
    ("X Y <, Y X <=, false", &[0, 1, 1], true),
    ("X Y <=, Y X <=, false", &[0, 1, 1], false),
    ("X Y <= not, X Y <=, false", &[0, 1, 1], true),
    ("X Y < not, X Y <, false", &[0, 1, 1], true),
    ("X Y > not, X Y >, false", &[0, 1, 1], true),
    ("X Y >= not, X Y >=, false", &[0, 1, 1], true),
    // No coefficient below 0 on a comparison; an equation's counts with its sign.
    ("X 0 <=, X 1 <=, false", &[0, 1, -1], false),
    ("X 0 =, X 1 =, false", &[0, 1, -1], true),
    ("X 0 =, X 1 =, false", &[0, -1, 1], false),
    // Missing coefficients are 0, and those beyond the hypotheses must be.
    ("X 0 <=, X 1 >=, Y 0 <=, false", &[0, 1, 1], true),
    ("X 0 <=, X 1 >=, false", &[0, 1, 1, 0, 0], true),
    ("X 0 <=, X 1 >=, false", &[0, 1, 1, 1], false),
    ("X 0 <=, X 0 <=", &[], false),
    // The first coefficient weighs the goal's negation.
    ("X Y <=, X Y <=", &[1, 1], true),
    ("X Y <, X Y <", &[1, 1], true),
    ("X Y >, X Y >=", &[1, 1], true),
    ("X Y <=, Y X < not", &[1, 1], true),
    ("X Y <, Y X <= not", &[1, 1], true),
    ("X Y <, X Y < not not", &[1, 1], false),
    ("X Y =, X Y =", &[1, 1], false),
    ("X Y =, X Y >=", &[1, -1], true),
    ("X Y =, X Y >=", &[1, 1], false),
    ("X 0 <=, X 1 >=, T", &[0, 1, 1], true),
    ("X 0 <=, X 1 >=, T", &[1, 1, 1], false),
    // Hypotheses that give no fact.
    ("T, X 0 <=, X 1 >=, false", &[0, 1, 1, 1], false),
    ("X X = not, X 0 <=, X 1 >=, false", &[0, 1, 1, 1], false),
    ("X Y < not not, X Y >=, false", &[0, 1, 1], false),
    // Equations of numbers, and others.
    ("X X =, X 0 <=, X 1 >=, false", &[0, 7, 1, 1], true),
    ("R R =, X 0 <=, X 1 >=, false", &[0, 7, 1, 1], true),
    (
        "A 1 of A 1 of =, X 0 <=, X 1 >=, false",
        &[0, 7, 1, 1],
        true,
    ),
    ("S LEN S LEN =, X 0 <=, X 1 >=, false", &[0, 7, 1, 1], true),
    ("T T =, X 0 <=, X 1 >=, false", &[0, 7, 1, 1], false),
    ("A A =, X 0 <=, X 1 >=, false", &[0, 7, 1, 1], false),
    ("Z Z =, X 0 <=, X 1 >=, false", &[0, 7, 1, 1], false),
    ("true true =, X 0 <=, X 1 >=, false", &[0, 7, 1, 1], false),
    ("T not T not =, X 0 <=, X 1 >=, false", &[0, 7, 1, 1], false),
    ("X Y = X Y = =, X 0 <=, X 1 >=, false", &[0, 7, 1, 1], false),
    (
        "A 1 X store A 1 X store =, X 0 <=, X 1 >=, false",
        &[0, 7, 1, 1],
        false,
    ),
    // Sums, and atoms.
    ("X X + 0 <=, X 2 * 1 >=, false", &[0, 1, 1], true),
    ("X neg 0 <=, X 1 + 0 <=, false", &[0, 1, 1], true),
    ("X Y - 0 <=, X Y - 1 >=, false", &[0, 1, 1], true),
    ("3 4 * 12 <, false", &[0, 1], true),
    ("2 X * 3 * 0 <=, X 6 * 1 >=, false", &[0, 1, 1], true),
    ("X Y * 0 <=, X Y * 1 >=, false", &[0, 1, 1], true),
    ("X Y * 0 <=, Y X * 1 >=, false", &[0, 1, 1], false),
    ("X 2 neg * 0 <=, X 2 neg * 1 >=, false", &[0, 1, 1], true),
    ("X 2 neg * 0 <=, X -2 * 1 >=, false", &[0, 1, 1], false),
    ("X 2 / 0 <=, X 2 / 1 >=, false", &[0, 1, 1], true),
    ("A 1 of 0 <=, A 1 of 1 >=, false", &[0, 1, 1], true),
    ("A 1 of 0 <=, A 2 of 1 >=, false", &[0, 1, 1], false),
    ("true 0 <=, true 1 >=, false", &[0, 1, 1], true),
];

#[test]
fn rules_on_coefficients_are_kept(rt: HostRuntime) {
    assert_eq!(rt; first_wrong(rt.alloc(), RULES), None);
}

// ---- the bounds, met and passed by one

const BOUNDS: &[Row] = &[
    ("X 0 <=, X 1 >=, false", &[0, 1000000000, 1000000000], true),
    ("X 0 <=, X 1 >=, false", &[0, 1000000001, 1000000001], false),
    ("X 0 =, X 1 =, false", &[0, 1000000000, -1000000000], true),
    ("X 0 =, X 1 =, false", &[0, 1000000001, -1000000001], false),
    // A literal, and the constant of a fact's form.
    (
        "X 1000000000000000000 >=, X 1000000000000000000 <, false",
        &[0, 1, 1],
        true,
    ),
    (
        "X 1000000000000000001 >=, X 1000000000000000001 <, false",
        &[0, 1, 1],
        false,
    ),
    (
        "X -1000000000000000000 <=, X -1000000000000000000 >, false",
        &[0, 1, 1],
        true,
    ),
    (
        "X -1000000000000000001 <=, X -1000000000000000001 >, false",
        &[0, 1, 1],
        false,
    ),
    (
        "X -1000000000000000000 <, X -1000000000000000000 >=, false",
        &[0, 1, 1],
        false,
    ),
    (
        "0 1000000000000000000 * X + 0 <=, X 1 >=, false",
        &[0, 1, 1],
        true,
    ),
    (
        "0 1000000000000000001 * X + 0 <=, X 1 >=, false",
        &[0, 1, 1],
        false,
    ),
    // A coefficient of a fact's form, and of a term that is taken apart.
    (
        "1000000000000000000 X * 0 <=, 1000000000000000000 X * 1 >=, false",
        &[0, 1, 1],
        true,
    ),
    (
        "1000000000000000000 X * X + 0 <=, 1000000000000000000 X * X + 1 >=, false",
        &[0, 1, 1],
        false,
    ),
    (
        "1000000000000000000 X * X - X + 0 <=, 1000000000000000000 X * 1 >=, false",
        &[0, 1, 1],
        true,
    ),
    (
        "1000000000000000000 X * X + X - 0 <=, 1000000000000000000 X * 1 >=, false",
        &[0, 1, 1],
        false,
    ),
    (
        "1000000000 1000000000 X * * 0 <=, 1000000000000000000 X * 1 >=, false",
        &[0, 1, 1],
        true,
    ),
    (
        "1000000000 1000000001 X * * 0 <=, 1000000000 1000000001 X * * 1 >=, false",
        &[0, 1, 1],
        false,
    ),
    // What isn't taken apart, or weighed, has no bound.
    (
        "A 1000000000000000001 of 0 <=, A 1000000000000000001 of 1 >=, false",
        &[0, 1, 1],
        true,
    ),
    (
        "X 170141183460469231731687303715884105727 <=, X 0 <=, X 1 >=, false",
        &[0, 0, 1, 1],
        true,
    ),
    (
        "X 170141183460469231731687303715884105727 <=, X 0 <=, X 1 >=, false",
        &[0, 1, 1, 2],
        false,
    ),
    (
        "-170141183460469231731687303715884105728 X * 0 <=, X 0 <=, X 1 >=, false",
        &[0, 0, 1, 1],
        true,
    ),
];

#[test]
fn bounds_are_kept(rt: HostRuntime) {
    assert_eq!(rt; first_wrong(rt.alloc(), BOUNDS), None);
}

// ---- more atoms than are added up at once

fn two(alloc: Global, oper: Oper, left: Term, right: Term) -> Result<Term, Memory> {
    let operands = vec![in alloc; left, right]?;
    Ok(Term::Op(oper, Items::from_vec(operands)))
}

// A number times the variable of a number.
fn scaled(alloc: Global, factor: i128, number: u8) -> Result<Term, Memory> {
    let name = Text::from(vec![in alloc; b'X', number]?);
    two(alloc, Oper::Mul, Term::Int(factor), Term::Var(name))
}

// The variable of a number is at most the one of another number, both times a factor.
fn at_most(alloc: Global, factor: i128, low: u8, high: u8) -> Result<Term, Memory> {
    let left = scaled(alloc, factor, low)?;
    let right = scaled(alloc, factor, high)?;
    two(alloc, Oper::Le, left, right)
}

// X0 <= X1, X1 <= X2 and so on, up to X200.
fn links(alloc: Global, factor: i128) -> Result<Terms, Memory> {
    let mut hyps = Terms::new(alloc);
    for i in 0u8..200 {
        hyps.push(at_most(alloc, factor, i, i + 1)?)?;
    }
    Ok(hyps)
}

// These, and the goal X0 <= X200.
fn chain(alloc: Global, factor: i128) -> Result<Sequent, Memory> {
    let goal = at_most(alloc, factor, 0, 200)?;
    Ok(Sequent {
        vars: Vars::new(alloc),
        hyps: links(alloc, factor)?,
        goal,
    })
}

// Whether the chain is closed, and whether it is with one of its weights less, or one greater.
fn chain_closes(alloc: Global, factor: i128) -> Result<(bool, bool, bool), Memory> {
    let ones = vec![in alloc; 1; 201]?;
    let sequent = chain(alloc, factor)?;
    let coeffs = ones.as_slice();
    let less = misses(alloc, &sequent, coeffs, 150, -1)?;
    let more = misses(alloc, &sequent, coeffs, 0, 1)?;
    Ok((closes(&sequent, coeffs), !less, !more))
}

#[test]
fn many_atoms_are_added_up(rt: HostRuntime) -> Result<(), Fail> {
    let alloc = rt.alloc();
    assert_eq!(rt; chain_closes(alloc, 1)?, (true, false, false));
    // Numbers so large that each is held to the bound, and met and passed by one.
    assert_eq!(rt;
        chain_closes(alloc, 1_000_000_000_000_000_000)?,
        (true, false, false)
    );
    assert_eq!(rt;
        chain_closes(alloc, 1_000_000_000_000_000_001)?,
        (false, false, false)
    );
    Ok(())
}
