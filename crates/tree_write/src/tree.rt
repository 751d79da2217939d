// The tree that a term is written as.
ghost use Rattle.std.specs.Prelude.{◌≡◌, ◌∷◌, ◌++◌, [], take, drop, map, IfOk};
ghost use Rattle.tree_write.specs.TermTrees.{tree, name, list, named, applied, made, Form, between, before, conditional, index, component, maker, updater, call, form_of, operands, operation, number, truth_text, variable, tree_of};

use ada_tree::{Kind, Node, Operator};
use base_kit::{Memory, Names, Text};
use sqlite_items::Items;
use std::alloc::Global;
use term_core::{OpNames, Oper, Term};

fn tree(alloc: Global, kind: Kind, text: &[u8], kids: Vec<Node>) -> Result<Node, Memory>
    ensures { IfOk result (λ node. node ≡ tree kind text.now kids.items) }
{
    Ok(Node {
        kind,
        text: Text::from(text.to_vec(alloc)?),
        notes: Names::new(alloc),
        kids: Items::from_vec(kids),
    })
}

fn leaf(alloc: Global, kind: Kind, text: &[u8]) -> Result<Node, Memory>
    ensures { IfOk result (λ node. node ≡ tree kind text.now []) }
{
    tree(alloc, kind, text, Vec::new(alloc))
}

// The list of one node.
fn only(alloc: Global, node: Node) -> Result<Vec<Node>, Memory>
    ensures { IfOk result (λ nodes. nodes.items ≡ node ∷ []) }
{
    let mut nodes = Vec::new(alloc);
    nodes.push(node)?;
    Ok(nodes)
}

// The name of a number; the number itself where none is given.
fn named(alloc: Global, names: &Names, number: u32) -> Result<Vec<u8>, Memory>
    ensures { IfOk result (λ text. text.items ≡ named names.now number) }
{
    match names.as_slice().get(number as usize) {
        Some(name) => Ok(name.as_bytes().to_vec(alloc)?),
        None => {
            let digits = number.to_string(alloc)?;
            Ok(digits.as_bytes().to_vec(alloc)?)
        }
    }
}

// A first kid, and the others as a list.
fn headed(alloc: Global, kind: Kind, head: Node, nodes: Vec<Node>) -> Result<Node, Memory>
    ensures { IfOk result (λ node. node ≡ tree kind [] (head ∷ list nodes.items ∷ [])) }
{
    let mut kids = only(alloc, head)?;
    kids.push(tree(alloc, Kind::List, b"", nodes)?)?;
    tree(alloc, kind, b"", kids)
}

// A name applied to arguments, if there are any.
fn applied(alloc: Global, text: &[u8], nodes: Vec<Node>) -> Result<Node, Memory>
    ensures { IfOk result (λ node. node ≡ applied text.now nodes.items) }
{
    let name = leaf(alloc, Kind::Name, text)?;
    if nodes.is_empty() {
        return Ok(name);
    }
    headed(alloc, Kind::Apply, name, nodes)
}

// Arguments in parentheses.
fn made(alloc: Global, operator: Operator, nodes: Vec<Node>) -> Result<Node, Memory>
    ensures { IfOk result (λ node. node ≡ made operator nodes.items) }
{
    let list = tree(alloc, Kind::List, b"", nodes)?;
    let kids = only(alloc, list)?;
    tree(alloc, Kind::Make, operator.text().as_bytes(), kids)
}

// So many operands; another number is written as an application of the operator's name.
fn operands(
    alloc: Global,
    count: usize,
    kind: Kind,
    own: &[u8],
    called: &[u8],
    nodes: Vec<Node>,
) -> Result<Node, Memory>
    ensures { IfOk result (λ node. node ≡ operands count kind own.now called.now nodes.items) }
{
    if nodes.len() == count {
        return tree(alloc, kind, own, nodes);
    }
    applied(alloc, called, nodes)
}

fn between(alloc: Global, operator: Operator, nodes: Vec<Node>) -> Result<Node, Memory>
    ensures { IfOk result (λ node. node ≡ operation (between operator) nodes.items) }
{
    let text = operator.text().as_bytes();
    operands(alloc, 2, Kind::Binary, text, text, nodes)
}

fn before(alloc: Global, operator: Operator, nodes: Vec<Node>) -> Result<Node, Memory>
    ensures { IfOk result (λ node. node ≡ operation (before operator) nodes.items) }
{
    let text = operator.text().as_bytes();
    operands(alloc, 1, Kind::Unary, text, text, nodes)
}

fn component(alloc: Global, names: &OpNames, number: u32, nodes: Vec<Node>) -> Result<Node, Memory>
    ensures { IfOk result (λ node. node ≡ operation (component (named names.now.parts number)) nodes.items) }
{
    let text = named(alloc, &names.parts, number)?;
    operands(
        alloc,
        1,
        Kind::Select,
        text.as_slice(),
        text.as_slice(),
        nodes,
    )
}

fn index(alloc: Global, mut nodes: Vec<Node>) -> Result<Node, Memory>
    ensures { IfOk result (λ node. node ≡ operation index nodes.items) }
{
    let arguments = nodes.split_off(nodes.len().min(1))?;
    nodes.push(tree(alloc, Kind::List, b"", arguments)?)?;
    tree(alloc, Kind::Apply, b"", nodes)
}

fn updater(
    alloc: Global,
    names: &OpNames,
    number: u32,
    mut nodes: Vec<Node>,
) -> Result<Node, Memory>
    ensures { IfOk result (λ node. node ≡ operation (updater (named names.now.parts number)) nodes.items) }
{
    let text = named(alloc, &names.parts, number)?;
    let mut values = nodes.split_off(nodes.len().min(1))?;
    nodes.push(leaf(alloc, Kind::Name, text.as_slice())?)?;
    nodes.append(&mut values)?;
    made(alloc, Operator::Update, nodes)
}

// Arguments after a type's name.
fn maker(
    alloc: Global,
    operator: Operator,
    names: &OpNames,
    number: u32,
    mut nodes: Vec<Node>,
) -> Result<Node, Memory>
    ensures { IfOk result (λ node. node ≡ operation (maker operator (name (named names.now.types number) ∷ [])) nodes.items) }
{
    let text = named(alloc, &names.types, number)?;
    let mut kids = only(alloc, leaf(alloc, Kind::Name, text.as_slice())?)?;
    kids.append(&mut nodes)?;
    made(alloc, operator, kids)
}

fn call(alloc: Global, names: &OpNames, number: u32, nodes: Vec<Node>) -> Result<Node, Memory>
    ensures { IfOk result (λ node. node ≡ operation (call (named names.now.ops number)) nodes.items) }
{
    let text = named(alloc, &names.ops, number)?;
    applied(alloc, text.as_slice(), nodes)
}

fn operation(alloc: Global, names: &OpNames, oper: Oper, nodes: Vec<Node>) -> Result<Node, Memory>
    ensures { IfOk result (λ node. node ≡ operation (form_of names.now oper) nodes.items) }
{
    match oper {
        Oper::Add => between(alloc, Operator::Add, nodes),
        Oper::Sub => between(alloc, Operator::Subtract, nodes),
        Oper::Mul => between(alloc, Operator::Multiply, nodes),
        Oper::Div => between(alloc, Operator::Divide, nodes),
        Oper::Rem => between(alloc, Operator::Rem, nodes),
        Oper::Mod => between(alloc, Operator::Mod, nodes),
        Oper::Neg => before(alloc, Operator::Minus, nodes),
        Oper::Abs => before(alloc, Operator::Abs, nodes),
        Oper::Eq => between(alloc, Operator::Equal, nodes),
        Oper::Lt => between(alloc, Operator::Less, nodes),
        Oper::Le => between(alloc, Operator::LessEqual, nodes),
        Oper::Gt => between(alloc, Operator::Greater, nodes),
        Oper::Ge => between(alloc, Operator::GreaterEqual, nodes),
        Oper::And => between(alloc, Operator::And, nodes),
        Oper::Or => between(alloc, Operator::Or, nodes),
        Oper::Xor => between(alloc, Operator::Xor, nodes),
        Oper::Not => before(alloc, Operator::Not, nodes),
        Oper::Implies => between(alloc, Operator::Implies, nodes),
        Oper::Iff => between(alloc, Operator::Iff, nodes),
        Oper::If => operands(alloc, 3, Kind::Cond, b"", b"if", nodes),
        Oper::Select => index(alloc, nodes),
        Oper::Store => made(alloc, Operator::Store, nodes),
        Oper::Field(number) => component(alloc, names, number, nodes),
        Oper::Update(number) => updater(alloc, names, number, nodes),
        Oper::Fill(number) => maker(alloc, Operator::Fill, names, number, nodes),
        Oper::Make(number) => maker(alloc, Operator::Make, names, number, nodes),
        Oper::User(number) => call(alloc, names, number, nodes),
    }
}

// A negative number is the sign before its digits.
fn number(alloc: Global, value: i128) -> Result<Node, Memory>
    ensures { IfOk result (λ node. node ≡ number value) }
{
    let digits = value.unsigned_abs().to_string(alloc)?;
    let node = leaf(alloc, Kind::Int, digits.as_bytes())?;
    if value < 0 {
        let kids = only(alloc, node)?;
        return tree(alloc, Kind::Unary, Operator::Minus.text().as_bytes(), kids);
    }
    Ok(node)
}

fn truth_text(value: bool) -> &'static str
    ensures { result.now ≡ truth_text value }
{
    if value { "true" } else { "false" }
}

// A value at entry, or a name.
fn variable(alloc: Global, text: &[u8]) -> Result<Node, Memory>
    ensures { IfOk result (λ node. node ≡ variable text.now) }
{
    if text.starts_with("in ".as_bytes()) {
        let name = leaf(alloc, Kind::Name, text.split_at(3).1)?;
        let kids = only(alloc, name)?;
        return tree(alloc, Kind::Old, b"", kids);
    }
    leaf(alloc, Kind::Name, text)
}

#[cycle(tree)]
fn trees_of(alloc: Global, names: &OpNames, terms: &[Term]) -> Result<Vec<Node>, Memory>
    ensures { IfOk result (λ nodes. nodes.items ≡ map (tree_of names.now) terms.now) }
{
    let mut nodes = Vec::new(alloc);
    for term in terms {
        nodes.push(tree_of(alloc, names, term)?)?;
    }
    Ok(nodes)
}

/// The tree that a term is written as. It recurses on the depth of the term.
#[cycle(tree)]
pub fn tree_of(alloc: Global, names: &OpNames, term: &Term) -> Result<Node, Memory>
    ensures { IfOk result (λ node. node ≡ tree_of names.now term.now) }
{
    match term {
        Term::Int(value) => number(alloc, *value),
        Term::Truth(value) => leaf(alloc, Kind::Name, truth_text(*value).as_bytes()),
        Term::Var(name) => variable(alloc, name.as_bytes()),
        Term::Op(oper, terms) => {
            let nodes = trees_of(alloc, names, terms.as_slice())?;
            operation(alloc, names, *oper, nodes)
        }
        Term::All(name, low, high, body) => {
            let mut kids = only(alloc, tree_of(alloc, names, low.get())?)?;
            kids.push(tree_of(alloc, names, high.get())?)?;
            kids.push(tree_of(alloc, names, body.get())?)?;
            tree(alloc, Kind::All, name.as_bytes(), kids)
        }
        Term::Some(name, low, high, body) => {
            let mut kids = only(alloc, tree_of(alloc, names, low.get())?)?;
            kids.push(tree_of(alloc, names, high.get())?)?;
            kids.push(tree_of(alloc, names, body.get())?)?;
            tree(alloc, Kind::Exists, name.as_bytes(), kids)
        }
    }
}
