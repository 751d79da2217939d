// The conditions on a procedure.
ghost use Rattle.std.specs.Prelude.{◌≡◌};
ghost use Rattle.std.specs.List.{list_all};
ghost use Rattle.one_path.specs.Conditions.{has, are_distinct, knows_atom, knows_operand, knows_clause, knows_statement, meets as meets_conditions};

use crate::procedure::{Atom, Clause, Operand, Procedure, Statement};
use base_kit::Text;

const MOST_FORMALS: usize = 64;

const MOST_CLAUSES: usize = 64;

const MOST_STATEMENTS: usize = 1000;

fn has(names: &[Text], name: &[u8]) -> bool
    ensures { result ≡ has names.now name.now }
{
    names.iter().any(|other| other.as_bytes() == name)
}

fn are_distinct(names: &[Text]) -> bool
    ensures { result ≡ are_distinct names.now }
{
    let mut rest = names;
    while let Some((name, others)) = rest.split_first() {
        if has(others, name.as_bytes()) {
            return false;
        }
        rest = others;
    }
    true
}

fn knows_atom(names: &[Text], atom: &Atom) -> bool
    ensures { result ≡ knows_atom names.now atom.now }
{
    match atom {
        Atom::Name(text) => has(names, text.as_bytes()),
        Atom::Number(_) => true,
    }
}

fn knows_operand(names: &[Text], operand: &Operand) -> bool
    ensures { result ≡ knows_operand names.now operand.now }
{
    match operand {
        Operand::Plain(value) => knows_atom(names, value),
        Operand::Entry(text) => has(names, text.as_bytes()),
    }
}

fn knows_clause(names: &[Text], clause: &Clause) -> bool
    ensures { result ≡ knows_clause names.now clause.now }
{
    match clause {
        Clause::In(left, right) => knows_atom(names, left) && knows_atom(names, right),
        Clause::Out(left, right) => knows_operand(names, left) && knows_operand(names, right),
    }
}

fn knows_statement(names: &[Text], statement: &Statement) -> bool
    ensures { result ≡ knows_statement names.now statement.now }
{
    match statement {
        Statement::Null => true,
        Statement::Assign(target, value) => {
            has(names, target.as_bytes()) && knows_atom(names, value)
        }
    }
}

fn knows_clauses(names: &[Text], clauses: &[Clause]) -> bool
    ensures { result ≡ list_all (knows_clause names.now) clauses.now }
{
    clauses.iter().all(|clause| knows_clause(names, clause))
}

fn knows_statements(names: &[Text], statements: &[Statement]) -> bool
    ensures { result ≡ list_all (knows_statement names.now) statements.now }
{
    statements
        .iter()
        .all(|statement| knows_statement(names, statement))
}

/// Whether a procedure meets the conditions.
pub fn meets(unit: &Procedure) -> bool
    ensures { result ≡ meets_conditions unit.now }
{
    let formals = unit.formals.as_slice();
    let clauses = unit.clauses.as_slice();
    let statements = unit.statements.as_slice();
    formals.len() <= MOST_FORMALS
        && clauses.len() <= MOST_CLAUSES
        && statements.len() <= MOST_STATEMENTS
        && are_distinct(formals)
        && !has(formals, "INTEGER".as_bytes())
        && knows_clauses(formals, clauses)
        && knows_statements(formals, statements)
}
