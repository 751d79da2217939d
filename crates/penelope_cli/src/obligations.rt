// The proof obligations of a procedure.
ghost use Rattle.std.specs.Prelude.{◌≡◌, ◌∷◌, [], length, bytes_eq, position, map, List, Some, IfOk, OnOk};
ghost use Rattle.term_core.specs.declared.term.Term.{Term as LogicTerm};
ghost use Rattle.term_core.specs.Terms.{int, var, op};
ghost use Rattle.one_path.specs.Conditions.{Meets};
ghost use Rattle.penelope_cli.specs.Paths.{entry_store, value_of, after_all, hypotheses_of, conclusions_of, conjunction, variable_of, obligations_of};
ghost use Rattle.penelope_cli.specs.Bindings.{bound_value, rebound, bound_atom, bound_operand, bound_conclusions, joined, after_statement, after_statements, entry_bindings};

use base_kit::{Copied, Memory, Text};
use one_path::{Atom, Clause, Operand, Procedure, Statement};
use std::alloc::Global;
use term_core::{Obligation, Obligations, Oper, Sequent, Sort, Term, Terms, Var, Vars};

/// An object and its value, in terms of the values at entry.
#[derive(Drop)]
pub struct Binding {
    pub object: Text,
    pub value: Term,
}

fn text(alloc: Global, bytes: &str) -> Result<Text, Memory>
    ensures { IfOk result (λ text. text ≡ bytes.now) }
{
    Ok(Text::from(bytes.as_bytes().to_vec(alloc)?))
}

fn variable(alloc: Global, name: &Text) -> Result<Term, Memory>
    ensures { IfOk result (λ term. term ≡ var name.now) }
{
    Ok(Term::Var(name.copy(alloc)?))
}

// The operator over two terms.
fn operation(alloc: Global, oper: Oper, left: Term, right: Term) -> Result<Term, Memory>
    ensures { IfOk result (λ term. term ≡ op oper (left ∷ right ∷ [])) }
{
    let mut terms = Terms::new(alloc);
    terms.push(left)?;
    terms.push(right)?;
    Ok(Term::Op(oper, terms))
}

// The store at entry: each object is the variable of its name.
fn bindings_at_entry(alloc: Global, names: &[Text]) -> Result<Vec<Binding>, Memory>
    ensures { IfOk result (λ bindings. bindings.items ≡ entry_bindings names.now) }
{
    let mut bindings = Vec::new(alloc);
    for name in names {
        bindings.push(Binding {
            object: name.copy(alloc)?,
            value: variable(alloc, name)?,
        })?;
    }
    Ok(bindings)
}

// The value of an object.
fn bound_value(alloc: Global, bindings: &[Binding], name: &Text) -> Result<Term, Memory>
    ensures { IfOk result (λ term. term ≡ bound_value bindings.now name.now) }
{
    for binding in bindings {
        if binding.object.as_bytes() == name.as_bytes() {
            return binding.value.copy(alloc);
        }
    }
    variable(alloc, name)
}

fn bound_atom(alloc: Global, bindings: &[Binding], atom: &Atom) -> Result<Term, Memory>
    ensures { IfOk result (λ term. term ≡ bound_atom bindings.now atom.now) }
{
    match atom {
        Atom::Name(name) => bound_value(alloc, bindings, name),
        Atom::Number(value) => Ok(Term::Int(i128::from(*value))),
    }
}

fn bound_operand(alloc: Global, bindings: &[Binding], operand: &Operand) -> Result<Term, Memory>
    ensures { IfOk result (λ term. term ≡ bound_operand bindings.now operand.now) }
{
    match operand {
        Operand::Plain(value) => bound_atom(alloc, bindings, value),
        Operand::Entry(name) => variable(alloc, name),
    }
}

// The place of an object.
fn place_of(bindings: &[Binding], name: &[u8]) -> Option<usize>
    ensures { result ≡ position (λ binding. bytes_eq binding.object name.now) bindings.now }
{
    bindings
        .iter()
        .position(|binding| binding.object.as_bytes() == name)
}

// Gives an object another value.
fn rebind(bindings: &mut [Binding], name: &[u8], value: Term)
    ensures { bindings.new ≡ rebound name.now value bindings.old }
{
    if let Some(place) = place_of(bindings, name) {
        bindings[place].value = value;
    }
}

// The store after a statement.
fn perform(alloc: Global, statement: &Statement, bindings: &mut [Binding]) -> Result<(), Memory>
    ensures { OnOk result (bindings.new ≡ after_statement statement.now bindings.old) }
{
    match statement {
        Statement::Null => Ok(()),
        Statement::Assign(target, value) => {
            let term = bound_atom(alloc, bindings, value)?;
            rebind(bindings, target.as_bytes(), term);
            Ok(())
        }
    }
}

// The store at the end.
fn bindings_at_end(
    alloc: Global,
    names: &[Text],
    statements: &[Statement],
) -> Result<Vec<Binding>, Memory>
    ensures { IfOk result (λ bindings. bindings.items ≡ after_statements statements.now (entry_bindings names.now)) }
{
    let mut bindings = bindings_at_entry(alloc, names)?;
    for statement in statements {
        perform(alloc, statement, bindings.as_mut_slice())?;
    }
    Ok(bindings)
}

// An atom at entry.
fn entry_atom(alloc: Global, atom: &Atom) -> Result<Term, Memory>
    ensures { IfOk result (λ term. term ≡ value_of entry_store atom.now) }
{
    match atom {
        Atom::Name(name) => variable(alloc, name),
        Atom::Number(value) => Ok(Term::Int(i128::from(*value))),
    }
}

fn hypotheses(alloc: Global, clauses: &[Clause]) -> Result<Terms, Memory>
    ensures { IfOk result (λ terms. terms ≡ hypotheses_of clauses.now) }
{
    let mut terms = Terms::new(alloc);
    for clause in clauses {
        if let Clause::In(left, right) = clause {
            let left = entry_atom(alloc, left)?;
            let right = entry_atom(alloc, right)?;
            terms.push(operation(alloc, Oper::Eq, left, right)?)?;
        }
    }
    Ok(terms)
}

// A conjunction with a term more.
fn conjoined(alloc: Global, before: Option<Term>, term: Term) -> Result<Term, Memory>
    ensures { IfOk result (λ both. (terms : List LogicTerm) → joined (Some both) terms ≡ joined before (term ∷ terms)) }
{
    match before {
        None => Ok(term),
        Some(before) => operation(alloc, Oper::And, before, term),
    }
}

// The conjunction of the out clauses, with the values of the bindings.
fn conclusion(alloc: Global, bindings: &[Binding], clauses: &[Clause]) -> Result<Term, Memory>
    ensures { IfOk result (λ term. term ≡ conjunction (bound_conclusions bindings.now clauses.now)) }
{
    let mut goal = None;
    for clause in clauses {
        if let Clause::Out(left, right) = clause {
            let left = bound_operand(alloc, bindings, left)?;
            let right = bound_operand(alloc, bindings, right)?;
            let term = operation(alloc, Oper::Eq, left, right)?;
            goal = Some(conjoined(alloc, goal, term)?);
        }
    }
    Ok(goal.unwrap_or(Term::Truth(true)))
}

fn variables(alloc: Global, names: &[Text]) -> Result<Vars, Memory>
    ensures { IfOk result (λ vars. vars ≡ map variable_of names.now) }
{
    let mut vars = Vec::new(alloc);
    for name in names {
        vars.push(Var {
            name: name.copy(alloc)?,
            label: text(alloc, "INTEGER")?,
            sort: Sort::Range(-2_147_483_648, 2_147_483_647),
        })?;
    }
    Ok(Vars::from(vars))
}

// The conjunction of the out clauses at the end.
fn goal(alloc: Global, unit: &Procedure) -> Result<Term, Memory>
    requires { Meets unit.now }
    ensures { IfOk result (λ term. term ≡ conjunction (conclusions_of (after_all unit.now.statements entry_store) unit.now.clauses)) }
{
    let formals = unit.formals.as_slice();
    let end = bindings_at_end(alloc, formals, unit.statements.as_slice())?;
    conclusion(alloc, end.as_slice(), unit.clauses.as_slice())
}

/// The obligations of a procedure: one, of its path from the entry to the end.
pub fn obligations(alloc: Global, unit: &Procedure) -> Result<Obligations, Memory>
    requires { Meets unit.now }
    ensures { IfOk result (λ obligations. obligations ≡ obligations_of unit.now) }
{
    let sequent = Sequent {
        vars: variables(alloc, unit.formals.as_slice())?,
        hyps: hypotheses(alloc, unit.clauses.as_slice())?,
        goal: goal(alloc, unit)?,
    };
    let mut obligations = Vec::new(alloc);
    obligations.push(Obligation {
        cut: text(alloc, "entry")?,
        ordinal: 1,
        sequent,
    })?;
    Ok(Obligations::from(obligations))
}
