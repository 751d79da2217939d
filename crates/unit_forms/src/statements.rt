// What statements are.
ghost use Rattle.std.specs.Prelude.{◌≡◌, map, Option, Some, None};
ghost use Rattle.std.specs.Option.{option_copied};
ghost use Rattle.ada_tree.specs.Nodes.{text_of, kids_of};
ghost use Rattle.unit_forms.specs.Bodies as bodies;
ghost use Rattle.unit_forms.specs.BodyForms as spec;

use ada_tree::{Kind, Node};
use base_kit::Text;

/// What a statement is.
#[derive(Clone, Copy)]
pub enum StmtForm<'a> {
    Null,
    /// The target and the value.
    Assign(&'a Node, &'a Node),
    Call(&'a Node),
    /// The condition, the statements where it holds, the list of `elsif`s, and the statements behind `else`.
    If(&'a Node, &'a Node, &'a Node, &'a Node),
    /// The expression and the list of alternatives.
    Case(&'a Node, &'a Node),
    /// The head, the invariant, which may be left out, and the statements.
    Loop(&'a Node, &'a Node, &'a Node),
    /// The list of declarations and the sequence.
    Block(&'a Node, &'a Node),
    Exit(Option<&'a Node>),
    Return(Option<&'a Node>),
    Raise(Option<&'a Node>),
    Assert,
    Odd,
}

/// What the head of a loop is.
#[derive(Clone, Copy)]
pub enum HeadForm<'a> {
    Forever,
    While(&'a Node),
    /// Whether it is `reverse`, the parameter's name, and the range.
    For(bool, &'a Text, &'a Node),
    Odd,
}

/// What an `elsif`, an alternative or a handler is: a condition or choices, and statements.
#[derive(Clone, Copy)]
pub enum PartForm<'a> {
    Of(&'a Node, &'a Node),
    Odd,
}

/// What a sequence is: statements and handlers.
#[derive(Clone, Copy)]
pub enum SequenceForm<'a> {
    Of(&'a Node, &'a Node),
    Odd,
}

/// A part that may be left out.
#[tactic(auto, using(crate::proofs::Shown::shown_kind))]
pub fn optional(node: &Node) -> Option<&Node>
    ensures form { spec.optional_of (option_copied result) ≡ bodies.optional (bodies.shown node.now) }
{
    match node.kind {
        Kind::None => None,
        _ => Some(node),
    }
}

fn assign_form(node: &Node) -> StmtForm<'_>
    ensures form { spec.stmt_in result ≡ bodies.assign_by (map bodies.shown (kids_of node.now)) }
    ensures below { spec.StmtBelow node.now result }
{
    match node.kids.as_slice() {
        [target, value] => StmtForm::Assign(target, value),
        _ => StmtForm::Odd,
    }
}

fn call_form(node: &Node) -> StmtForm<'_>
    ensures form { spec.stmt_in result ≡ bodies.call_by (map bodies.shown (kids_of node.now)) }
    ensures below { spec.StmtBelow node.now result }
{
    match node.kids.as_slice() {
        [call] => StmtForm::Call(call),
        _ => StmtForm::Odd,
    }
}

fn if_form(node: &Node) -> StmtForm<'_>
    ensures form { spec.stmt_in result ≡ bodies.branch_by (map bodies.shown (kids_of node.now)) }
    ensures below { spec.StmtBelow node.now result }
{
    match node.kids.as_slice() {
        [condition, yes, elsifs, no] => StmtForm::If(condition, yes, elsifs, no),
        _ => StmtForm::Odd,
    }
}

fn case_form(node: &Node) -> StmtForm<'_>
    ensures form { spec.stmt_in result ≡ bodies.choose_by (map bodies.shown (kids_of node.now)) }
    ensures below { spec.StmtBelow node.now result }
{
    match node.kids.as_slice() {
        [value, alternatives] => StmtForm::Case(value, alternatives),
        _ => StmtForm::Odd,
    }
}

fn loop_form(node: &Node) -> StmtForm<'_>
    ensures form { spec.stmt_in result ≡ bodies.loop_by (map bodies.shown (kids_of node.now)) }
    ensures below { spec.StmtBelow node.now result }
{
    match node.kids.as_slice() {
        [head, invariant, statements] => StmtForm::Loop(head, invariant, statements),
        _ => StmtForm::Odd,
    }
}

fn block_form(node: &Node) -> StmtForm<'_>
    ensures form { spec.stmt_in result ≡ bodies.block_by (map bodies.shown (kids_of node.now)) }
    ensures below { spec.StmtBelow node.now result }
{
    match node.kids.as_slice() {
        [declarations, sequence] => StmtForm::Block(declarations, sequence),
        _ => StmtForm::Odd,
    }
}

fn exit_form(node: &Node) -> StmtForm<'_>
    ensures form { spec.stmt_in result ≡ bodies.exit_by (map bodies.shown (kids_of node.now)) }
    ensures below { spec.StmtBelow node.now result }
{
    match node.kids.as_slice() {
        [condition] => StmtForm::Exit(optional(condition)),
        _ => StmtForm::Odd,
    }
}

fn return_form(node: &Node) -> StmtForm<'_>
    ensures form { spec.stmt_in result ≡ bodies.give_by (map bodies.shown (kids_of node.now)) }
    ensures below { spec.StmtBelow node.now result }
{
    match node.kids.as_slice() {
        [value] => StmtForm::Return(optional(value)),
        _ => StmtForm::Odd,
    }
}

fn raise_form(node: &Node) -> StmtForm<'_>
    ensures form { spec.stmt_in result ≡ bodies.raise_by (map bodies.shown (kids_of node.now)) }
    ensures below { spec.StmtBelow node.now result }
{
    match node.kids.as_slice() {
        [exception] => StmtForm::Raise(optional(exception)),
        _ => StmtForm::Odd,
    }
}

/// The form of a statement.
#[tactic(auto, using(crate::proofs::Shown::shown_stmt))]
pub fn stmt_form(node: &Node) -> StmtForm<'_>
    ensures form { spec.stmt_in result ≡ (bodies.shown node.now).stmt }
    ensures below { spec.StmtBelow node.now result }
{
    match node.kind {
        Kind::Null => StmtForm::Null,
        Kind::Assign => assign_form(node),
        Kind::Call => call_form(node),
        Kind::If => if_form(node),
        Kind::Case => case_form(node),
        Kind::Loop => loop_form(node),
        Kind::Block => block_form(node),
        Kind::Exit => exit_form(node),
        Kind::Return => return_form(node),
        Kind::Raise => raise_form(node),
        Kind::Assert => StmtForm::Assert,
        _ => StmtForm::Odd,
    }
}

fn while_form(node: &Node) -> HeadForm<'_>
    ensures form { spec.head_in result ≡ bodies.while_by (map bodies.shown (kids_of node.now)) }
{
    match node.kids.as_slice() {
        [condition] => HeadForm::While(condition),
        _ => HeadForm::Odd,
    }
}

fn for_form(reverse: bool, node: &Node) -> HeadForm<'_>
    ensures form { spec.head_in result
        ≡ bodies.for_by reverse (text_of node.now) (map bodies.shown (kids_of node.now)) }
{
    match node.kids.as_slice() {
        [range] => HeadForm::For(reverse, &node.text, range),
        _ => HeadForm::Odd,
    }
}

/// The form of a loop's head.
#[tactic(auto, using(crate::proofs::Shown::shown_head))]
pub fn head_form(node: &Node) -> HeadForm<'_>
    ensures form { spec.head_in result ≡ (bodies.shown node.now).head }
{
    match node.kind {
        Kind::While => while_form(node),
        Kind::For => for_form(false, node),
        Kind::Reverse => for_form(true, node),
        _ => HeadForm::Forever,
    }
}

fn two_parts(node: &Node) -> PartForm<'_>
    ensures condition { spec.condition_in result ≡ bodies.condition_of (map bodies.shown (kids_of node.now)) }
    ensures choices { spec.chosen_in result ≡ bodies.choices_of (map bodies.shown (kids_of node.now)) }
    ensures inside { spec.inside_in result ≡ bodies.inside_of (map bodies.shown (kids_of node.now)) }
    ensures below { spec.PartBelow node.now result }
{
    match node.kids.as_slice() {
        [first, statements] => PartForm::Of(first, statements),
        _ => PartForm::Odd,
    }
}

/// The form of an `elsif`, of an alternative or of a handler.
#[tactic(auto, using(crate::proofs::Shown::shown_condition, crate::proofs::Shown::shown_choices, crate::proofs::Shown::shown_inside))]
pub fn part_form(node: &Node) -> PartForm<'_>
    ensures condition { spec.condition_in result ≡ (bodies.shown node.now).condition }
    ensures choices { spec.chosen_in result ≡ (bodies.shown node.now).choices }
    ensures inside { spec.inside_in result ≡ (bodies.shown node.now).inside }
    ensures below { spec.PartBelow node.now result }
{
    two_parts(node)
}

fn statements_and_handlers(node: &Node) -> SequenceForm<'_>
    ensures statements { spec.sequence_in result ≡ bodies.sequence_of (map bodies.shown (kids_of node.now)) }
    ensures handlers { spec.caught_in result ≡ bodies.caught_of (map bodies.shown (kids_of node.now)) }
    ensures below { spec.SequenceBelow node.now result }
{
    match node.kids.as_slice() {
        [statements, handlers] => SequenceForm::Of(statements, handlers),
        _ => SequenceForm::Odd,
    }
}

/// The form of a sequence.
#[tactic(auto, using(crate::proofs::Shown::shown_sequence, crate::proofs::Shown::shown_caught))]
pub fn sequence_form(node: &Node) -> SequenceForm<'_>
    ensures statements { spec.sequence_in result ≡ (bodies.shown node.now).sequence }
    ensures handlers { spec.caught_in result ≡ (bodies.shown node.now).caught }
    ensures below { spec.SequenceBelow node.now result }
{
    statements_and_handlers(node)
}
