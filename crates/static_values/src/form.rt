// What expressions are: all matches on kinds of expressions, and all on their kids.
ghost use Rattle.std.specs.Prelude.{◌≡◌, ◌<◌, IfSome, map};
ghost use Rattle.std.specs.Option.{option_copied};
ghost use Rattle.ada_tree.specs.declared.node.Node.{size-Node};
ghost use Rattle.ada_tree.specs.Nodes.{kind_of, text_of, kids_of};
ghost use Rattle.ada_tree.specs.Operators.{entry_of};
ghost use Rattle.static_values.specs.Syntax as syntax;
ghost use Rattle.static_values.specs.Forms.{expr_in, Below};

use ada_tree::{Kind, Node, Operator, OperatorEntry};
use base_kit::Text;

/// What an expression is. Names are nodes, a `Name` or a `Select` from one.
#[derive(Clone, Copy)]
pub enum ExprForm<'a> {
    Int(&'a Text),
    Name(&'a Node),
    Unary(Operator, &'a Node),
    Binary(Operator, &'a Node, &'a Node),
    /// The prefix and the attribute.
    Attribute(&'a Node, &'a Text),
    /// The prefix, the attribute and its argument.
    Applied(&'a Node, &'a Text, &'a Node),
    /// What is more than a name, and the component.
    Component(&'a Node, &'a Text),
    Other,
}

#[tactic(auto, using(crate::proofs::Seen::seen_kind, crate::proofs::Seen::seen_text))]
fn select_form(node: &Node) -> ExprForm<'_>
    requires { kind_of node.now ≡ Kind.Select }
    ensures form { expr_in result
        ≡ syntax.select_by (text_of node.now) (map syntax.seen (kids_of node.now)) }
    ensures below { Below node.now result }
{
    match node.kids.as_slice() {
        [prefix] if prefix.kind == Kind::Name => ExprForm::Name(node),
        [prefix] => ExprForm::Component(prefix, &node.text),
        _ => ExprForm::Other,
    }
}

fn unary_with(operator: Operator, node: &Node) -> ExprForm<'_>
    ensures form { expr_in result ≡ syntax.unary_with operator (map syntax.seen (kids_of node.now)) }
    ensures below { Below node.now result }
{
    match node.kids.as_slice() {
        [operand] => ExprForm::Unary(operator, operand),
        _ => ExprForm::Other,
    }
}

fn unary_form(node: &Node) -> ExprForm<'_>
    ensures form { expr_in result
        ≡ syntax.unary_by (entry_of Kind.Unary (text_of node.now))
        (map syntax.seen (kids_of node.now)) }
    ensures below { Below node.now result }
{
    match OperatorEntry::of(Kind::Unary, node.text.as_bytes()) {
        Some(entry) => unary_with(entry.operator, node),
        None => ExprForm::Other,
    }
}

fn binary_with(operator: Operator, node: &Node) -> ExprForm<'_>
    ensures form { expr_in result ≡ syntax.binary_with operator (map syntax.seen (kids_of node.now)) }
    ensures below { Below node.now result }
{
    match node.kids.as_slice() {
        [left, right] => ExprForm::Binary(operator, left, right),
        _ => ExprForm::Other,
    }
}

fn binary_form(node: &Node) -> ExprForm<'_>
    ensures form { expr_in result
        ≡ syntax.binary_by (entry_of Kind.Binary (text_of node.now))
        (map syntax.seen (kids_of node.now)) }
    ensures below { Below node.now result }
{
    match OperatorEntry::of(Kind::Binary, node.text.as_bytes()) {
        Some(entry) => binary_with(entry.operator, node),
        None => ExprForm::Other,
    }
}

#[tactic(auto, using(crate::proofs::Seen::seen_parts))]
fn attribute_form(node: &Node) -> ExprForm<'_>
    ensures form { expr_in result
        ≡ syntax.attribute_by (text_of node.now) (map syntax.seen (kids_of node.now)) }
    ensures below { Below node.now result }
{
    match node.kids.as_slice() {
        [prefix] => ExprForm::Attribute(prefix, &node.text),
        _ => ExprForm::Other,
    }
}

// What stands before the tick of an attribute.
#[tactic(auto, using(crate::proofs::Seen::seen_prefix))]
fn prefix_of(node: &Node) -> Option<&Node>
    ensures prefix { syntax.prefix_in (option_copied result) ≡ (syntax.seen node.now).prefix }
{
    match node.kind {
        Kind::Attr => match node.kids.as_slice() {
            [prefix] => Some(prefix),
            _ => None,
        },
        _ => None,
    }
}

#[tactic(auto, using(crate::proofs::Seen::seen_text, crate::proofs::Seen::seen_exprs))]
fn applied_form(node: &Node) -> ExprForm<'_>
    ensures form { expr_in result ≡ syntax.applied_by (map syntax.seen (kids_of node.now)) }
    ensures below { Below node.now result }
{
    let [callee, arguments] = node.kids.as_slice() else {
        return ExprForm::Other;
    };
    let Some(prefix) = prefix_of(callee) else {
        return ExprForm::Other;
    };
    match arguments.kids.as_slice() {
        [argument] => ExprForm::Applied(prefix, &callee.text, argument),
        _ => ExprForm::Other,
    }
}

/// The form of an expression.
pub fn expr_form(node: &Node) -> ExprForm<'_>
    ensures form { expr_in result ≡ syntax.expr_of node.now }
    ensures below { Below node.now result }
{
    match node.kind {
        Kind::Int => ExprForm::Int(&node.text),
        Kind::Name => ExprForm::Name(node),
        Kind::Select => select_form(node),
        Kind::Unary => unary_form(node),
        Kind::Binary => binary_form(node),
        Kind::Attr => attribute_form(node),
        Kind::Apply => applied_form(node),
        _ => ExprForm::Other,
    }
}
