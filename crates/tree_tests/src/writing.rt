// The texts of files, of terms and of sequents, from hand.
ghost use Rattle.std.specs.Prelude.{◌≡◌, ◌∷◌, [], codes, IfOk};
ghost use Rattle.ada_tree.specs.declared.kind.Kind.TheVariants as kind;
ghost use Rattle.ada_tree.specs.Nodes.{node_of};

use crate::trees::document;
use ada_tree::{Doc, Kids, Kind, Node};
use base_kit::{Memory, Names, Text};
use sqlite_items::{Boxed, Items};
use std::alloc::Global;
use std::test::Fail;
use term_core::{OpNames, Oper, Sequent, Sort, Term, Terms, Var, Vars};
use tree_write::{write_doc, write_sequent};

fn text(alloc: Global, bytes: &str) -> Result<Text, Memory>
    ensures { IfOk result (λ text. text ≡ bytes.now) }
{
    Ok(Text::from(bytes.as_bytes().to_vec(alloc)?))
}

// ---- files

// A file of a comment.
fn commented_file(alloc: Global) -> Result<Node, Memory>
    ensures { IfOk result (λ node. node ≡ node_of kind.File [] (codes "-- nothing yet" ∷ []) []) }
{
    let mut notes = Names::new(alloc);
    notes.push(text(alloc, "-- nothing yet")?)?;
    Ok(Node {
        kind: Kind::File,
        text: Text::from(Vec::new(alloc)),
        notes,
        kids: Kids::new(alloc),
    })
}

fn commented_doc(alloc: Global) -> Result<Doc, Memory> {
    let file = commented_file(alloc)?;
    let mut files = Kids::new(alloc);
    files.push(file)?;
    Ok(Doc {
        root: document(alloc, files),
    })
}

// Whether the file of this number is written so.
fn is_written(alloc: Global, file: u32, lines: &str) -> Result<bool, Memory> {
    let doc = commented_doc(alloc)?;
    Ok(write_doc(alloc, &doc, file)?.as_slice() == lines.as_bytes())
}

#[test]
fn files_are_written(rt: HostRuntime) -> Result<(), Fail> {
    let alloc = rt.alloc();
    assert_eq!(rt; is_written(alloc, 0, "-- nothing yet\n")?, true);
    assert_eq!(rt; is_written(alloc, 1, "")?, true);
    Ok(())
}

// ---- sequents

fn two_names(alloc: Global, first: &str, second: &str) -> Result<Names, Memory> {
    let mut names = Names::new(alloc);
    names.push(text(alloc, first)?)?;
    names.push(text(alloc, second)?)?;
    Ok(names)
}

fn names(alloc: Global) -> Result<OpNames, Memory> {
    Ok(OpNames {
        ops: two_names(alloc, "NIL", "CONS")?,
        types: two_names(alloc, "V.VEC", "V.PAIR")?,
        parts: two_names(alloc, "LEFT", "RIGHT")?,
    })
}

// P = Q
fn equation(alloc: Global) -> Result<Term, Memory> {
    let left = Term::Var(text(alloc, "P")?);
    let right = Term::Var(text(alloc, "Q")?);
    let sides = vec![in alloc; left, right]?;
    Ok(Term::Op(Oper::Eq, Items::from_vec(sides)))
}

// What a letter stands for.
fn operand(alloc: Global, letter: u8) -> Result<Term, Memory> {
    match letter {
        b'-' => Ok(Term::Int(-7)),
        b'p' => equation(alloc),
        b'i' => Ok(Term::Var(text(alloc, "in A")?)),
        b't' => Ok(Term::Truth(true)),
        b'A' => Ok(Term::Var(text(alloc, "A")?)),
        b'B' => Ok(Term::Var(text(alloc, "B@loop1")?)),
        _ => Ok(Term::Int(12)),
    }
}

fn applied(alloc: Global, oper: Oper, operands: &str) -> Result<Term, Memory> {
    let mut terms = Items::new(alloc);
    for letter in operands.as_bytes() {
        terms.push(operand(alloc, *letter)?)?;
    }
    Ok(Term::Op(oper, terms))
}

fn alone(alloc: Global, goal: Term) -> Sequent {
    Sequent {
        vars: Vars::new(alloc),
        hyps: Terms::new(alloc),
        goal,
    }
}

// The lines of the sequent, by these names.
fn written(alloc: Global, sequent: &Sequent, indent: u32) -> Result<Vec<u8>, Memory> {
    let names = names(alloc)?;
    write_sequent(alloc, sequent, &names, indent)
}

// An operator, its operands by a letter each, and the line of the goal.
type Printed = (Oper, &'static str, &'static str);

const PRINTED: &[Printed] = &[
    (Oper::Add, "A1", "goal A + 12\n"),
    (Oper::Sub, "AB", "goal A - B@loop1\n"),
    (Oper::Mul, "A-", "goal A * (-7)\n"),
    (Oper::Div, "-1", "goal (-7) / 12\n"),
    (Oper::Rem, "A1", "goal A rem 12\n"),
    (Oper::Mod, "A1", "goal A mod 12\n"),
    (Oper::Neg, "A", "goal -A\n"),
    (Oper::Neg, "p", "goal -(P = Q)\n"),
    (Oper::Abs, "A", "goal abs A\n"),
    (Oper::Eq, "pt", "goal (P = Q) = true\n"),
    (Oper::Lt, "A1", "goal A < 12\n"),
    (Oper::Le, "A1", "goal A <= 12\n"),
    (Oper::Gt, "A1", "goal A > 12\n"),
    (Oper::Ge, "A1", "goal A >= 12\n"),
    (Oper::And, "pp", "goal (P = Q) and (P = Q)\n"),
    (Oper::Or, "Ap", "goal A or (P = Q)\n"),
    (Oper::Xor, "AB", "goal A xor B@loop1\n"),
    (Oper::Not, "p", "goal not (P = Q)\n"),
    (Oper::Implies, "pA", "goal (P = Q) implies A\n"),
    (Oper::Iff, "Ap", "goal A iff (P = Q)\n"),
    (Oper::If, "p-A", "goal if P = Q then -7 else A\n"),
    (Oper::Select, "A1", "goal A(12)\n"),
    (Oper::Select, "i-", "goal (in A)(-7)\n"),
    (Oper::Store, "A1p", "goal store(A, 12, P = Q)\n"),
    (Oper::Field(1), "A", "goal A.RIGHT\n"),
    (Oper::Field(0), "i", "goal (in A).LEFT\n"),
    (Oper::Update(0), "A1", "goal update(A, LEFT, 12)\n"),
    (Oper::Fill(0), "p", "goal fill(V.VEC, P = Q)\n"),
    (Oper::Make(1), "A1", "goal make(V.PAIR, A, 12)\n"),
    (Oper::User(0), "", "goal NIL\n"),
    (Oper::User(1), "-A", "goal CONS(-7, A)\n"),
    (Oper::User(7), "A", "goal 7(A)\n"),
    (Oper::Add, "A", "goal +(A)\n"),
];

fn goal_line(alloc: Global, oper: Oper, operands: &str) -> Result<Vec<u8>, Memory> {
    let goal = applied(alloc, oper, operands)?;
    written(alloc, &alone(alloc, goal), 0)
}

fn is_printed(alloc: Global, row: &Printed) -> Result<bool, Memory> {
    let (oper, operands, line) = *row;
    Ok(goal_line(alloc, oper, operands)?.as_slice() == line.as_bytes())
}

// The number of the first row that is wrong.
fn first_misprinted(alloc: Global) -> Option<usize> {
    PRINTED
        .iter()
        .position(|row| is_printed(alloc, row) != Ok(true))
}

#[test]
fn each_operator_is_printed(rt: HostRuntime) {
    assert_eq!(rt; first_misprinted(rt.alloc()), None);
}

// for all I in 1 .. -7 : P = Q
fn each(alloc: Global) -> Result<Term, Memory> {
    let bound = text(alloc, "I")?;
    let body = Boxed::new(alloc, equation(alloc)?)?;
    let low = Boxed::new(alloc, Term::Int(1))?;
    let high = Boxed::new(alloc, Term::Int(-7))?;
    Ok(Term::All(bound, low, high, body))
}

fn vars(alloc: Global) -> Result<Vars, Memory> {
    let var = Var {
        name: text(alloc, "A")?,
        label: text(alloc, "V.VEC")?,
        sort: Sort::Whole,
    };
    let mut vars = Vars::new(alloc);
    vars.push(var)?;
    Ok(vars)
}

fn hyps(alloc: Global) -> Result<Terms, Memory> {
    let hyps = vec![in alloc; Term::Truth(false), each(alloc)?]?;
    Ok(Items::from_vec(hyps))
}

fn sequent(alloc: Global) -> Result<Sequent, Memory> {
    let vars = vars(alloc)?;
    let hyps = hyps(alloc)?;
    let goal = equation(alloc)?;
    Ok(Sequent { vars, hyps, goal })
}

const LINES: &str =
    "    var A : V.VEC\n    hyp 1 : false\n    hyp 2 : for all I in 1 .. (-7) : P = Q\n    goal P = Q\n";

fn sequent_is_printed(alloc: Global) -> Result<bool, Memory> {
    let sequent = sequent(alloc)?;
    Ok(written(alloc, &sequent, 4)?.as_slice() == LINES.as_bytes())
}

#[test]
fn variables_hypotheses_and_goal_are_printed(rt: HostRuntime) -> Result<(), Fail> {
    assert!(rt; sequent_is_printed(rt.alloc())?);
    Ok(())
}
