// How much a procedure of the form may have: 64 formals, 64 clauses and 1000 statements.
use ada_tree::{Kind, Node};
use base_kit::{Memory, Names, Text};
use one_path::form_of;
use sqlite_items::Items;
use std::alloc::Global;
use std::test::Fail;

fn node(alloc: Global, kind: Kind, text: &str, kids: Vec<Node>) -> Result<Node, Memory> {
    Ok(Node {
        kind,
        text: Text::from(text.as_bytes().to_vec(alloc)?),
        notes: Names::new(alloc),
        kids: Items::from_vec(kids),
    })
}

fn leaf(alloc: Global, kind: Kind, text: &str) -> Result<Node, Memory> {
    node(alloc, kind, text, Vec::new(alloc))
}

fn over(alloc: Global, kind: Kind, text: &str, kid: Node) -> Result<Node, Memory> {
    let mut kids = Vec::new(alloc);
    kids.push(kid)?;
    node(alloc, kind, text, kids)
}

fn with(mut node: Node, kid: Node) -> Result<Node, Memory> {
    node.kids.push(kid)?;
    Ok(node)
}

// X0, X1 and so on.
fn ids(alloc: Global, count: u32) -> Result<Node, Memory> {
    let mut ids = Vec::new(alloc);
    for number in 0..count {
        let name = format!(in alloc; "X{number}")?;
        ids.push(leaf(alloc, Kind::Id, &name)?)?;
    }
    node(alloc, Kind::List, "", ids)
}

// procedure P (X0, X1, .. : in out INTEGER)
fn header(alloc: Global, formals: u32) -> Result<Node, Memory> {
    let formal = over(alloc, Kind::Formal, "in out", ids(alloc, formals)?)?;
    let formal = with(formal, leaf(alloc, Kind::Name, "INTEGER")?)?;
    let formals = over(alloc, Kind::List, "", formal)?;
    let formals = over(alloc, Kind::Formals, "", formals)?;
    over(alloc, Kind::Proc, "P", formals)
}

// in X0 = 1;
fn clause(alloc: Global) -> Result<Node, Memory> {
    let equation = over(alloc, Kind::Binary, "=", leaf(alloc, Kind::Name, "X0")?)?;
    let equation = with(equation, leaf(alloc, Kind::Int, "1")?)?;
    over(alloc, Kind::In, "", equation)
}

fn block(alloc: Global, clauses: u32) -> Result<Node, Memory> {
    let mut members = Vec::new(alloc);
    for _ in 0..clauses {
        members.push(clause(alloc)?)?;
    }
    over(
        alloc,
        Kind::Where,
        "",
        node(alloc, Kind::List, "", members)?,
    )
}

fn sequence(alloc: Global, statements: u32) -> Result<Node, Memory> {
    let mut members = Vec::new(alloc);
    for _ in 0..statements {
        members.push(leaf(alloc, Kind::Null, "")?)?;
    }
    let sequence = over(alloc, Kind::Seq, "", node(alloc, Kind::List, "", members)?)?;
    with(sequence, leaf(alloc, Kind::None, "")?)
}

fn item(alloc: Global, formals: u32, clauses: u32, statements: u32) -> Result<Node, Memory> {
    let body = over(alloc, Kind::SubBody, "P", header(alloc, formals)?)?;
    let body = with(body, block(alloc, clauses)?)?;
    let body = with(body, leaf(alloc, Kind::List, "")?)?;
    let body = with(body, sequence(alloc, statements)?)?;
    let unit = over(alloc, Kind::Unit, "", leaf(alloc, Kind::List, "")?)?;
    with(unit, body)
}

// How many formals, clauses and statements are taken.
fn taken(
    alloc: Global,
    formals: u32,
    clauses: u32,
    statements: u32,
) -> Result<Option<(usize, usize, usize)>, Memory> {
    let item = item(alloc, formals, clauses, statements)?;
    let Some(unit) = form_of(alloc, &item)? else {
        return Ok(None);
    };
    Ok(Some((
        unit.formals.as_slice().len(),
        unit.clauses.as_slice().len(),
        unit.statements.as_slice().len(),
    )))
}

#[test]
fn a_procedure_has_up_to_64_formals_and_clauses_and_1000_statements(
    rt: HostRuntime,
) -> Result<(), Fail> {
    let alloc = rt.alloc();
    assert_eq!(rt; taken(alloc, 64, 64, 1000)?, Some((64, 64, 1000)));
    assert_eq!(rt; taken(alloc, 65, 64, 1000)?, None);
    assert_eq!(rt; taken(alloc, 64, 65, 1000)?, None);
    assert_eq!(rt; taken(alloc, 64, 64, 1001)?, None);
    Ok(())
}
