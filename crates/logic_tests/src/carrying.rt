// What becomes of proofs: which obligation each takes.
use base_kit::{Memory, Text};
use proof_replay::{Laid, carry};
use std::alloc::Global;
use term_core::{Obligation, Sequent, Sort, Term, Terms, Var, Vars};

// A hypothesis, which is left out where it is empty, and a goal.
type Told = (&'static str, &'static str);

// A key, and the sequent that the proof was laid on, if it was.
type Old = (&'static str, Option<Told>);

// A cut, an ordinal, and the sequent.
type New = (&'static str, u32, Told);

// Proofs, obligations, and which obligation each proof takes.
struct Row {
    olds: &'static [Old],
    news: &'static [New],
    takes: &'static [Option<u32>],
}

const A: Told = ("", "A");

const B: Told = ("", "B");

const C: Told = ("", "C");

const ZERO: Told = ("", "0 >= 0");

const WITH: Told = ("B", "1 >= 0");

const WITHOUT: Told = ("not B", "0 >= 0");

const CALLED: Told = ("X@call1 = 1", "X@call1 = 1");

const CALLED_ANEW: Told = ("X@call1 > 0", "X@call1 = 1");

const ROWS: &[Row] = &[
    // a unit's own `out` has changed, and that of a unit that is called
    Row {
        olds: &[("entry.1", Some(("", "1 = 1")))],
        news: &[("entry", 1, ("", "1 > 0"))],
        takes: &[Some(0)],
    },
    Row {
        olds: &[("entry.1", Some(CALLED))],
        news: &[("entry", 1, CALLED_ANEW)],
        takes: &[Some(0)],
    },
    // an `if` is deleted, which orphans a proof, and inserted again
    Row {
        olds: &[("entry.1", Some(WITH)), ("entry.2", Some(WITHOUT))],
        news: &[("entry", 1, ZERO)],
        takes: &[Some(0), None],
    },
    Row {
        olds: &[("entry.1", Some(ZERO))],
        news: &[("entry", 1, WITH), ("entry", 2, WITHOUT)],
        takes: &[Some(0)],
    },
    // the keys are permuted
    Row {
        olds: &[
            ("entry.1", Some(A)),
            ("entry.2", Some(B)),
            ("loop1.1", Some(C)),
        ],
        news: &[("entry", 1, C), ("entry", 2, A), ("loop1", 1, B)],
        takes: &[Some(1), Some(2), Some(0)],
    },
    // equal sequents twice, of proofs and of obligations
    Row {
        olds: &[("entry.2", Some(A)), ("entry.1", Some(A))],
        news: &[("entry", 1, A), ("entry", 2, A)],
        takes: &[Some(0), Some(1)],
    },
    Row {
        olds: &[
            ("entry.1", Some(A)),
            ("entry.2", Some(B)),
            ("entry.3", Some(A)),
        ],
        news: &[("entry", 1, B), ("entry", 2, A), ("entry", 3, A)],
        takes: &[Some(1), Some(0), Some(2)],
    },
    // a third on the sequent goes by its key
    Row {
        olds: &[
            ("entry.1", Some(A)),
            ("entry.2", Some(A)),
            ("entry.3", Some(A)),
        ],
        news: &[("entry", 1, A), ("entry", 2, A), ("entry", 3, B)],
        takes: &[Some(0), Some(1), Some(2)],
    },
    // the obligation of its key is taken, by the sequent of another
    Row {
        olds: &[("entry.2", Some(B)), ("entry.1", Some(A))],
        news: &[("entry", 1, C), ("entry", 2, A)],
        takes: &[None, Some(1)],
    },
    // a proof that wasn't laid goes by its key, of more than one digit
    Row {
        olds: &[("loop2.10", None), ("loop2.1", Some(A))],
        news: &[("loop2", 1, B), ("loop2", 10, A)],
        takes: &[None, Some(1)],
    },
    Row {
        olds: &[("loop2.10", None), ("loop2.1", None), ("loop2.1", None)],
        news: &[("loop2", 1, B), ("loop2", 10, A)],
        takes: &[Some(1), Some(0), None],
    },
    // a lemma's one obligation
    Row {
        olds: &[("", Some(A))],
        news: &[("", 0, B)],
        takes: &[Some(0)],
    },
    Row {
        olds: &[("", Some(A)), ("", Some(B))],
        news: &[("", 0, B)],
        takes: &[None, Some(0)],
    },
    Row {
        olds: &[],
        news: &[("entry", 1, A)],
        takes: &[],
    },
];

fn text(alloc: Global, name: &str) -> Result<Text, Memory> {
    Ok(Text::from(name.as_bytes().to_vec(alloc)?))
}

fn variable(alloc: Global) -> Result<Var, Memory> {
    Ok(Var {
        name: text(alloc, "X")?,
        label: text(alloc, "INTEGER")?,
        sort: Sort::Range(-2_147_483_648, 2_147_483_647),
    })
}

fn variables(alloc: Global) -> Result<Vars, Memory> {
    let mut vars = Vars::new(alloc);
    vars.push(variable(alloc)?)?;
    Ok(vars)
}

fn hypotheses(alloc: Global, hypothesis: &str) -> Result<Terms, Memory> {
    let mut hyps = Terms::new(alloc);
    if !hypothesis.is_empty() {
        hyps.push(Term::Var(text(alloc, hypothesis)?))?;
    }
    Ok(hyps)
}

fn sequent(alloc: Global, told: Told) -> Result<Sequent, Memory> {
    let (hypothesis, goal) = told;
    let goal = Term::Var(text(alloc, goal)?);
    let hyps = hypotheses(alloc, hypothesis)?;
    let vars = variables(alloc)?;
    Ok(Sequent { vars, hyps, goal })
}

fn laid_on(alloc: Global, told: Option<Told>) -> Result<Option<Sequent>, Memory> {
    match told {
        Some(told) => Ok(Some(sequent(alloc, told)?)),
        None => Ok(None),
    }
}

fn laid(alloc: Global, old: &Old) -> Result<Laid, Memory> {
    let (key, told) = *old;
    let key = text(alloc, key)?;
    let sequent = laid_on(alloc, told)?;
    Ok(Laid { key, sequent })
}

fn all_laid(alloc: Global, olds: &[Old]) -> Result<Vec<Laid>, Memory> {
    let mut proofs = Vec::new(alloc);
    for old in olds {
        proofs.push(laid(alloc, old)?)?;
    }
    Ok(proofs)
}

fn obligation(alloc: Global, new: &New) -> Result<Obligation, Memory> {
    let (cut, ordinal, told) = *new;
    let cut = text(alloc, cut)?;
    let sequent = sequent(alloc, told)?;
    Ok(Obligation {
        cut,
        ordinal,
        sequent,
    })
}

fn obligations(alloc: Global, news: &[New]) -> Result<Vec<Obligation>, Memory> {
    let mut made = Vec::new(alloc);
    for new in news {
        made.push(obligation(alloc, new)?)?;
    }
    Ok(made)
}

// Whether the proofs take these. (A row has at most nine obligations.)
fn are_taken(
    alloc: Global,
    proofs: &[Laid],
    new: &[Obligation],
    takes: &[Option<u32>],
) -> Result<bool, Memory> {
    if new.len() > 9 {
        return Ok(false);
    }
    Ok(carry(alloc, proofs, new)?.takes.as_slice() == takes)
}

// Whether the proofs of a row take what it says.
fn is_carried(alloc: Global, row: &Row) -> Result<bool, Memory> {
    let proofs = all_laid(alloc, row.olds)?;
    let new = obligations(alloc, row.news)?;
    are_taken(alloc, proofs.as_slice(), new.as_slice(), row.takes)
}

// The number of the first row that is wrong.
fn first_not_carried(alloc: Global) -> Option<usize> {
    ROWS.iter()
        .position(|row| is_carried(alloc, row) != Ok(true))
}

#[test]
fn proofs_are_carried(rt: HostRuntime) {
    assert_eq!(rt; first_not_carried(rt.alloc()), None);
}
