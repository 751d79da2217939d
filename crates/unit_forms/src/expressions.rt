// What expressions are: all matches on kinds of expressions, and all on their kids.
ghost use Rattle.std.specs.Prelude.{◌≡◌, map};
ghost use Rattle.std.specs.Option.{option_copied};
ghost use Rattle.ada_tree.specs.Nodes.{text_of, kids_of};
ghost use Rattle.ada_tree.specs.Operators.{entry_of};
ghost use Rattle.unit_forms.specs.Syntax as syntax;
ghost use Rattle.unit_forms.specs.Forms as spec;

use ada_tree::{Kind, Node, Operator, OperatorEntry};
use base_kit::Text;
use static_values::Attribute;

/// What an expression is. A name's text, and a selected name's, is that of the node itself.
#[derive(Clone, Copy)]
pub enum ExprForm<'a> {
    Int(&'a Text),
    Name(&'a Text),
    /// What stands before the dot, and the name.
    Select(&'a Node, &'a Text),
    /// What stands before the parenthesis, and the list of arguments.
    Apply(&'a Node, &'a Node),
    /// What stands before the tick, and the attribute.
    Attribute(&'a Node, &'a Text),
    /// What stands before the tick, one of SUCC, PRED and POS, and the list of arguments.
    Applied(&'a Node, &'a Text, &'a Node),
    /// The list of values.
    Aggregate(&'a Node),
    Unary(Operator, &'a Node),
    Binary(Operator, &'a Node, &'a Node),
    /// A value and a range.
    Member(Operator, &'a Node, &'a Node),
    Odd,
}

/// What a range is.
#[derive(Clone, Copy)]
pub enum RangeForm<'a> {
    Span(&'a Node, &'a Node),
    Marked(&'a Node),
    RangeOf(&'a Node),
    Odd,
}

/// What an argument is, or a value of an aggregate.
#[derive(Clone, Copy)]
pub enum ArgForm<'a> {
    Plain(&'a Node),
    /// Choices, and the value.
    Assoc(&'a Node, &'a Node),
    Odd,
}

/// What choices are.
#[derive(Clone, Copy)]
pub enum ChoicesForm<'a> {
    Others,
    /// The list of choices.
    Some(&'a Node),
    Odd,
}

/// What a choice is.
#[derive(Clone, Copy)]
pub enum ChoiceForm<'a> {
    One(&'a Node),
    Between(&'a Node, &'a Node),
    Odd,
}

fn select_form(node: &Node) -> ExprForm<'_>
    ensures form { spec.expr_in result
        ≡ syntax.select_by (text_of node.now) (map syntax.seen (kids_of node.now)) }
    ensures below { spec.Below node.now result }
{
    match node.kids.as_slice() {
        [prefix] => ExprForm::Select(prefix, &node.text),
        _ => ExprForm::Odd,
    }
}

fn attribute_form(node: &Node) -> ExprForm<'_>
    ensures form { spec.expr_in result
        ≡ syntax.attribute_by (text_of node.now) (map syntax.seen (kids_of node.now)) }
    ensures below { spec.Below node.now result }
{
    match node.kids.as_slice() {
        [prefix] => ExprForm::Attribute(prefix, &node.text),
        _ => ExprForm::Odd,
    }
}

fn is_step(attribute: Option<Attribute>) -> bool
    ensures { result ≡ syntax.is_step attribute }
{
    match attribute {
        Some(Attribute::Succ) => true,
        Some(Attribute::Pred) => true,
        Some(Attribute::Pos) => true,
        _ => false,
    }
}

// Of SUCC, PRED and POS, what stands before the tick.
fn step_prefix(node: &Node) -> Option<&Node>
    ensures step { spec.step_in (text_of node.now) (option_copied result)
        ≡ syntax.step_with (text_of node.now) (map syntax.seen (kids_of node.now)) }
    ensures below { spec.IsBelow node.now (option_copied result) }
{
    match node.kids.as_slice() {
        [prefix] if is_step(Attribute::of(node.text.as_bytes())) => Some(prefix),
        _ => None,
    }
}

#[tactic(auto, using(crate::proofs::Seen::seen_step))]
fn step_of(node: &Node) -> Option<&Node>
    ensures step { spec.step_in (text_of node.now) (option_copied result) ≡ (syntax.seen node.now).step }
    ensures below { spec.IsBelow node.now (option_copied result) }
{
    match node.kind {
        Kind::Attr => step_prefix(node),
        _ => None,
    }
}

fn apply_form(node: &Node) -> ExprForm<'_>
    ensures form { spec.expr_in result ≡ syntax.apply_by (map syntax.seen (kids_of node.now)) }
    ensures below { spec.Below node.now result }
{
    let [callee, list] = node.kids.as_slice() else {
        return ExprForm::Odd;
    };
    match step_of(callee) {
        Some(prefix) => ExprForm::Applied(prefix, &callee.text, list),
        None => ExprForm::Apply(callee, list),
    }
}

fn aggregate_form(node: &Node) -> ExprForm<'_>
    ensures form { spec.expr_in result ≡ syntax.aggregate_by (map syntax.seen (kids_of node.now)) }
    ensures below { spec.Below node.now result }
{
    match node.kids.as_slice() {
        [list] => ExprForm::Aggregate(list),
        _ => ExprForm::Odd,
    }
}

fn unary_with(operator: Operator, node: &Node) -> ExprForm<'_>
    ensures form { spec.expr_in result
        ≡ syntax.unary_with operator (map syntax.seen (kids_of node.now)) }
    ensures below { spec.Below node.now result }
{
    match node.kids.as_slice() {
        [operand] => ExprForm::Unary(operator, operand),
        _ => ExprForm::Odd,
    }
}

fn unary_form(node: &Node) -> ExprForm<'_>
    ensures form { spec.expr_in result
        ≡ syntax.unary_by (entry_of Kind.Unary (text_of node.now))
        (map syntax.seen (kids_of node.now)) }
    ensures below { spec.Below node.now result }
{
    match OperatorEntry::of(Kind::Unary, node.text.as_bytes()) {
        Some(entry) => unary_with(entry.operator, node),
        None => ExprForm::Odd,
    }
}

fn binary_with(operator: Operator, node: &Node) -> ExprForm<'_>
    ensures form { spec.expr_in result
        ≡ syntax.binary_with operator (map syntax.seen (kids_of node.now)) }
    ensures below { spec.Below node.now result }
{
    match node.kids.as_slice() {
        [left, right] => ExprForm::Binary(operator, left, right),
        _ => ExprForm::Odd,
    }
}

fn binary_form(node: &Node) -> ExprForm<'_>
    ensures form { spec.expr_in result
        ≡ syntax.binary_by (entry_of Kind.Binary (text_of node.now))
        (map syntax.seen (kids_of node.now)) }
    ensures below { spec.Below node.now result }
{
    match OperatorEntry::of(Kind::Binary, node.text.as_bytes()) {
        Some(entry) => binary_with(entry.operator, node),
        None => ExprForm::Odd,
    }
}

fn member_with(operator: Operator, node: &Node) -> ExprForm<'_>
    ensures form { spec.expr_in result
        ≡ syntax.member_with operator (map syntax.seen (kids_of node.now)) }
    ensures below { spec.Below node.now result }
{
    match node.kids.as_slice() {
        [value, range] => ExprForm::Member(operator, value, range),
        _ => ExprForm::Odd,
    }
}

fn member_form(node: &Node) -> ExprForm<'_>
    ensures form { spec.expr_in result
        ≡ syntax.member_by (entry_of Kind.Member (text_of node.now))
        (map syntax.seen (kids_of node.now)) }
    ensures below { spec.Below node.now result }
{
    match OperatorEntry::of(Kind::Member, node.text.as_bytes()) {
        Some(entry) => member_with(entry.operator, node),
        None => ExprForm::Odd,
    }
}

/// The form of an expression.
pub fn expr_form(node: &Node) -> ExprForm<'_>
    ensures form { spec.expr_in result ≡ syntax.expr_of node.now }
    ensures below { spec.Below node.now result }
{
    match node.kind {
        Kind::Int => ExprForm::Int(&node.text),
        Kind::Name => ExprForm::Name(&node.text),
        Kind::Select => select_form(node),
        Kind::Apply => apply_form(node),
        Kind::Attr => attribute_form(node),
        Kind::Aggr => aggregate_form(node),
        Kind::Unary => unary_form(node),
        Kind::Binary => binary_form(node),
        Kind::Member => member_form(node),
        _ => ExprForm::Odd,
    }
}

fn span_form(node: &Node) -> RangeForm<'_>
    ensures form { spec.range_in result ≡ syntax.span_by (map syntax.seen (kids_of node.now)) }
    ensures below { spec.RangeBelow node.now result }
{
    match node.kids.as_slice() {
        [low, high] => RangeForm::Span(low, high),
        _ => RangeForm::Odd,
    }
}

fn range_of_form(node: &Node) -> RangeForm<'_>
    ensures form { spec.range_in result ≡ syntax.range_of_by (map syntax.seen (kids_of node.now)) }
    ensures below { spec.RangeBelow node.now result }
{
    match node.kids.as_slice() {
        [mark] => RangeForm::RangeOf(mark),
        _ => RangeForm::Odd,
    }
}

/// The form of a range.
#[tactic(auto, using(crate::proofs::Seen::seen_range, crate::proofs::Seen::seen_expr))]
pub fn range_form(node: &Node) -> RangeForm<'_>
    ensures form { spec.range_in result ≡ (syntax.seen node.now).range }
    ensures below { spec.RangeBelow node.now result }
{
    match node.kind {
        Kind::Span => span_form(node),
        Kind::RangeOf => range_of_form(node),
        _ => RangeForm::Marked(node),
    }
}

fn assoc_form(node: &Node) -> ArgForm<'_>
    ensures form { spec.arg_in result ≡ syntax.assoc_by (map syntax.seen (kids_of node.now)) }
    ensures below { spec.ArgBelow node.now result }
{
    match node.kids.as_slice() {
        [choices, value] => ArgForm::Assoc(choices, value),
        _ => ArgForm::Odd,
    }
}

/// The form of an argument, or of a value of an aggregate.
#[tactic(auto, using(crate::proofs::Seen::seen_arg, crate::proofs::Seen::seen_expr))]
pub fn arg_form(node: &Node) -> ArgForm<'_>
    ensures form { spec.arg_in result ≡ (syntax.seen node.now).arg }
    ensures below { spec.ArgBelow node.now result }
{
    match node.kind {
        Kind::Assoc => assoc_form(node),
        _ => ArgForm::Plain(node),
    }
}

fn some_choices(node: &Node) -> ChoicesForm<'_>
    ensures form { spec.choices_in result ≡ syntax.choices_with (map syntax.seen (kids_of node.now)) }
    ensures below { spec.ChoicesBelow node.now result }
{
    match node.kids.as_slice() {
        [list] => ChoicesForm::Some(list),
        _ => ChoicesForm::Odd,
    }
}

/// The form of choices.
#[tactic(auto, using(crate::proofs::Seen::seen_choices))]
pub fn choices_form(node: &Node) -> ChoicesForm<'_>
    ensures form { spec.choices_in result ≡ (syntax.seen node.now).choices }
    ensures below { spec.ChoicesBelow node.now result }
{
    match node.kind {
        Kind::Others => ChoicesForm::Others,
        _ => some_choices(node),
    }
}

fn between_form(node: &Node) -> ChoiceForm<'_>
    ensures form { spec.choice_in result ≡ syntax.between_by (map syntax.seen (kids_of node.now)) }
    ensures below { spec.ChoiceBelow node.now result }
{
    match node.kids.as_slice() {
        [low, high] => ChoiceForm::Between(low, high),
        _ => ChoiceForm::Odd,
    }
}

/// The form of a choice.
#[tactic(auto, using(crate::proofs::Seen::seen_choice, crate::proofs::Seen::seen_expr))]
pub fn choice_form(node: &Node) -> ChoiceForm<'_>
    ensures form { spec.choice_in result ≡ (syntax.seen node.now).choice }
    ensures below { spec.ChoiceBelow node.now result }
{
    match node.kind {
        Kind::Span => between_form(node),
        _ => ChoiceForm::One(node),
    }
}
