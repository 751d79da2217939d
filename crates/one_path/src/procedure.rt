// What is taken from an item of the form.
use base_kit::{Listed, Names, Text};

/// A formal, or a number of at most 2147483647.
#[derive(Drop)]
pub enum Atom {
    Name(Text),
    Number(u32),
}

/// What an out clause speaks of: an atom, whose formal stands for its final value, or the value of
/// a formal at entry.
#[derive(Drop)]
pub enum Operand {
    Plain(Atom),
    Entry(Text),
}

/// An equation that holds at entry, or at the end.
#[derive(Drop)]
pub enum Clause {
    In(Atom, Atom),
    Out(Operand, Operand),
}

/// Clauses in order.
pub type Clauses = Listed<Clause>;

/// A statement: `null`, or the assignment of an atom to a formal.
#[derive(Drop)]
pub enum Statement {
    Null,
    Assign(Text, Atom),
}

/// Statements in order.
pub type Statements = Listed<Statement>;

/// A procedure: its name, its formals, each of mode `in out` and of type INTEGER, the clauses of its
/// where block and its body. Names are in upper case.
#[derive(Drop)]
pub struct Procedure {
    pub name: Text,
    pub formals: Names,
    pub clauses: Clauses,
    pub statements: Statements,
}
