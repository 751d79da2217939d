// Takes the procedures of the form from the tree.
ghost use Rattle.std.specs.Prelude.{◌≡◌, ◌↔◌, Option, Some, IfOk, IfSome};
ghost use Rattle.std.specs.List.{list_all};
ghost use Rattle.std.specs.Char.{is_ascii_digit};
ghost use Rattle.ada_tree.specs.declared.node.Node.{Node as TreeNode};
ghost use Rattle.one_path.specs.declared.procedure.Procedure.{Procedure as TakenProcedure};
ghost use Rattle.one_path.specs.declared.procedure.Statement.TheVariants.{Assign};
ghost use Rattle.one_path.specs.Conditions.{Meets};
ghost use Rattle.one_path.specs.Form as spec;

use crate::conditions::meets;
use crate::procedure::{Atom, Clause, Clauses, Operand, Procedure, Statement, Statements};
use ada_tree::{Kind, Node};
use base_kit::{Copied, Listed, Memory, Names, Text};
use std::alloc::Global;

const GREATEST: u32 = 2_147_483_647;

// The text of a node of this kind.
fn text_if(alloc: Global, kind: Kind, node: &Node) -> Result<Option<Text>, Memory>
    ensures { IfOk result (λ text. text ≡ spec.text_if kind node.now) }
{
    if node.kind == kind {
        Ok(Some(node.text.copy(alloc)?))
    } else {
        Ok(None)
    }
}

// The kids of a node of this kind, and none of another.
fn kids_if(kind: Kind, node: &Node) -> &[Node]
    ensures { result.now ≡ spec.kids_if kind node.now }
{
    if node.kind == kind {
        node.kids.as_slice()
    } else {
        &[]
    }
}

// What is taken from a node, where it has a meaning.
trait FromNode: Drop {
    ghost meaning: { TreeNode → Option Self };

    fn from_node(alloc: Global, node: &Node) -> Result<Option<Self>, Memory>
        ensures { IfOk result (λ taken. taken ≡ meaning node.now) };
}

// What all nodes of a list mean, where each of them has a meaning.
fn all_of<T: FromNode>(alloc: Global, nodes: &[Node]) -> Result<Option<Listed<T>>, Memory>
    ensures { IfOk result (λ taken. taken ≡ spec.all_of T.meaning nodes.now) }
{
    let mut all = Listed::new(alloc);
    for node in nodes {
        let Some(taken) = T::from_node(alloc, node)? else {
            return Ok(None);
        };
        all.push(taken)?;
    }
    Ok(Some(all))
}

fn are_digits(bytes: &[u8]) -> bool
    ensures { result ≡ list_all is_ascii_digit bytes.now }
{
    bytes.iter().all(|byte| byte.is_ascii_digit())
}

fn number_of(text: &[u8]) -> Option<u32>
    ensures { result ≡ spec.number_of text.now }
{
    if !are_digits(text) {
        return None;
    }
    let Ok(digits) = str::from_utf8(text) else {
        return None;
    };
    match digits.parse::<u32>() {
        Ok(value) if value <= GREATEST => Some(value),
        Ok(_) => None,
        Err(_) => None,
    }
}

fn atom_of(alloc: Global, node: &Node) -> Result<Option<Atom>, Memory>
    ensures { IfOk result (λ atom. atom ≡ spec.atom_of node.now) }
{
    match node.kind {
        Kind::Name => Ok(Some(Atom::Name(node.text.copy(alloc)?))),
        Kind::Int => Ok(number_of(node.text.as_bytes()).map(Atom::Number)),
        _ => Ok(None),
    }
}

fn entry_of(alloc: Global, kids: &[Node]) -> Result<Option<Operand>, Memory>
    ensures { IfOk result (λ operand. operand ≡ spec.entry_of kids.now) }
{
    match kids {
        [mark] => Ok(text_if(alloc, Kind::Name, mark)?.map(Operand::Entry)),
        _ => Ok(None),
    }
}

fn operand_of(alloc: Global, node: &Node) -> Result<Option<Operand>, Memory>
    ensures { IfOk result (λ operand. operand ≡ spec.operand_of node.now) }
{
    if node.kind == Kind::Old {
        entry_of(alloc, node.kids.as_slice())
    } else {
        Ok(atom_of(alloc, node)?.map(Operand::Plain))
    }
}

// Both sides of an equation, and none of any other term.
fn sides_of(term: &Node) -> &[Node]
    ensures { result.now ≡ spec.sides_of term.now }
{
    if term.text.as_bytes() == "=".as_bytes() {
        kids_if(Kind::Binary, term)
    } else {
        &[]
    }
}

fn in_clause(alloc: Global, sides: &[Node]) -> Result<Option<Clause>, Memory>
    ensures { IfOk result (λ clause. clause ≡ spec.in_clause sides.now) }
{
    let [left, right] = sides else {
        return Ok(None);
    };
    match (atom_of(alloc, left)?, atom_of(alloc, right)?) {
        (Some(left), Some(right)) => Ok(Some(Clause::In(left, right))),
        _ => Ok(None),
    }
}

fn out_clause(alloc: Global, sides: &[Node]) -> Result<Option<Clause>, Memory>
    ensures { IfOk result (λ clause. clause ≡ spec.out_clause sides.now) }
{
    let [left, right] = sides else {
        return Ok(None);
    };
    match (operand_of(alloc, left)?, operand_of(alloc, right)?) {
        (Some(left), Some(right)) => Ok(Some(Clause::Out(left, right))),
        _ => Ok(None),
    }
}

impl FromNode for Clause {
    ghost meaning = { spec.clause_of };

    fn from_node(alloc: Global, node: &Node) -> Result<Option<Clause>, Memory> {
        match (node.kind, node.kids.as_slice()) {
            (Kind::In, [term]) => in_clause(alloc, sides_of(term)),
            (Kind::Out, [term]) => out_clause(alloc, sides_of(term)),
            _ => Ok(None),
        }
    }
}

// The clauses of a where block, which may be left out.
fn clauses_of(alloc: Global, node: &Node) -> Result<Option<Clauses>, Memory>
    ensures { IfOk result (λ clauses. clauses ≡ spec.clauses_of node.now) }
{
    match (node.kind, node.kids.as_slice()) {
        (Kind::None, _) => Ok(Some(Clauses::new(alloc))),
        (Kind::Where, [clauses]) => all_of(alloc, clauses.kids.as_slice()),
        _ => Ok(None),
    }
}

fn assignment_of(alloc: Global, target: &Node, value: &Node) -> Result<Option<Statement>, Memory>
    ensures { IfOk result (λ statement. statement ≡ spec.two Assign (spec.name_of target.now) (spec.atom_of value.now)) }
{
    let target = text_if(alloc, Kind::Name, target)?;
    let value = atom_of(alloc, value)?;
    match (target, value) {
        (Some(target), Some(value)) => Ok(Some(Statement::Assign(target, value))),
        _ => Ok(None),
    }
}

impl FromNode for Statement {
    ghost meaning = { spec.statement_of };

    fn from_node(alloc: Global, node: &Node) -> Result<Option<Statement>, Memory> {
        match (node.kind, node.kids.as_slice()) {
            (Kind::Null, _) => Ok(Some(Statement::Null)),
            (Kind::Assign, [target, value]) => assignment_of(alloc, target, value),
            _ => Ok(None),
        }
    }
}

// The statements of a sequence without handlers.
fn statements_of(alloc: Global, sequence: &Node) -> Result<Option<Statements>, Memory>
    ensures { IfOk result (λ statements. statements ≡ spec.statements_of sequence.now) }
{
    match kids_if(Kind::Seq, sequence) {
        [statements, handlers] if handlers.kind == Kind::None => {
            all_of(alloc, statements.kids.as_slice())
        }
        _ => Ok(None),
    }
}

// The name that a formal declares.
impl FromNode for Text {
    ghost meaning = { spec.id_of };

    fn from_node(alloc: Global, node: &Node) -> Result<Option<Text>, Memory> {
        text_if(alloc, Kind::Id, node)
    }
}

fn is_integer(mark: &Node) -> bool
    ensures { result ≡ spec.is_integer mark.now }
{
    mark.kind == Kind::Name && mark.text.as_bytes() == "INTEGER".as_bytes()
}

// The names of a group of formals.
impl FromNode for Names {
    ghost meaning = { spec.group_of };

    fn from_node(alloc: Global, node: &Node) -> Result<Option<Names>, Memory> {
        let [ids, mark] = kids_if(Kind::Formal, node) else {
            return Ok(None);
        };
        if node.text.as_bytes() == "in out".as_bytes() && is_integer(mark) {
            all_of(alloc, ids.kids.as_slice())
        } else {
            Ok(None)
        }
    }
}

fn joined(alloc: Global, groups: Listed<Names>) -> Result<Names, Memory>
    ensures { IfOk result (λ names. names ≡ spec.joined groups) }
{
    let mut names = Vec::new(alloc);
    for group in groups.into_vec() {
        let mut group = group.into_vec();
        names.append(&mut group)?;
    }
    Ok(Names::from(names))
}

// The names of all formals.
fn formals_of(alloc: Global, formals: &Node) -> Result<Option<Names>, Memory>
    ensures { IfOk result (λ names. names ≡ spec.formals_of formals.now) }
{
    let [groups] = kids_if(Kind::Formals, formals) else {
        return Ok(None);
    };
    match all_of(alloc, groups.kids.as_slice())? {
        Some(groups) => Ok(Some(joined(alloc, groups)?)),
        None => Ok(None),
    }
}

fn header_of(alloc: Global, specification: &Node) -> Result<Option<Names>, Memory>
    ensures { IfOk result (λ names. names ≡ spec.header_of specification.now) }
{
    match kids_if(Kind::Proc, specification) {
        [formals] => formals_of(alloc, formals),
        _ => Ok(None),
    }
}

fn body_in(alloc: Global, kids: &[Node]) -> Result<Option<Procedure>, Memory>
    ensures { IfOk result (λ unit. unit ≡ spec.body_in kids.now) }
{
    let [specification, block, declarations, sequence] = kids else {
        return Ok(None);
    };
    if !declarations.kids.is_empty() {
        return Ok(None);
    }
    let name = specification.text.copy(alloc)?;
    let formals = header_of(alloc, specification)?;
    let clauses = clauses_of(alloc, block)?;
    let statements = statements_of(alloc, sequence)?;
    match (formals, clauses, statements) {
        (Some(formals), Some(clauses), Some(statements)) => Ok(Some(Procedure {
            name,
            formals,
            clauses,
            statements,
        })),
        _ => Ok(None),
    }
}

// The procedure that an item is.
fn procedure_of(alloc: Global, item: &Node) -> Result<Option<Procedure>, Memory>
    ensures { IfOk result (λ unit. unit ≡ spec.procedure_of item.now) }
{
    match kids_if(Kind::Unit, item) {
        [context, unit] if context.kids.is_empty() => {
            body_in(alloc, kids_if(Kind::SubBody, unit))
        }
        _ => Ok(None),
    }
}

/// The procedure that an item is, where it is one of the form that meets the conditions.
#[tactic(auto, using(crate::proofs::Meeting::met))]
pub fn form_of(alloc: Global, item: &Node) -> Result<Option<Procedure>, Memory>
    ensures form { IfOk result (λ read. read ≡ spec.form_of item.now) }
    ensures meets { IfOk result (λ read. IfSome read (λ unit. Meets unit)) }
    // which is a procedure of the form exactly where it meets the conditions
    ensures exactly { (unit : TakenProcedure) → (spec.form_of item.now ≡ Some unit) ↔ ((spec.procedure_of item.now ≡ Some unit) × Meets unit) }
{
    let Some(unit) = procedure_of(alloc, item)? else {
        return Ok(None);
    };
    if meets(&unit) {
        Ok(Some(unit))
    } else {
        Ok(None)
    }
}
