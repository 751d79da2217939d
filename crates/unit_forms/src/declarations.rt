// What declarations are.
ghost use Rattle.std.specs.Prelude.{◌≡◌, map, Option, Some, None};
ghost use Rattle.std.specs.Option.{option_copied};
ghost use Rattle.ada_tree.specs.Nodes.{kids_of};
ghost use Rattle.unit_forms.specs.Bodies as bodies;
ghost use Rattle.unit_forms.specs.BodyForms as spec;

use crate::statements::optional;
use ada_tree::{Kind, Node};

/// What a declaration is.
#[derive(Clone, Copy)]
pub enum DeclForm<'a> {
    /// The list of names, the mark, the range, which may be left out, and the initial value.
    Object(&'a Node, &'a Node, &'a Node, Option<&'a Node>),
    Constant(&'a Node, &'a Node, &'a Node, &'a Node),
    /// The list of names, and the value.
    Number(&'a Node, &'a Node),
    /// The definition.
    Type(&'a Node),
    /// The mark, and the range, which may be left out.
    Subtype(&'a Node, &'a Node),
    /// The list of names.
    Use(&'a Node),
    /// The list of names.
    Exceptions(&'a Node),
    Private,
    View,
    Subprogram,
    SubprogramBody,
    Odd,
}

/// What a type definition is.
#[derive(Clone, Copy)]
pub enum DefinitionForm<'a> {
    /// The list of literals.
    Enumeration(&'a Node),
    /// The bounds.
    Integers(&'a Node, &'a Node),
    /// The index and the element.
    Array(&'a Node, &'a Node),
    /// The list of components.
    Record(&'a Node),
    Odd,
}

/// What a range behind a mark is.
#[derive(Clone, Copy)]
pub enum LimitsForm<'a> {
    Unlimited,
    Limited(&'a Node, &'a Node),
}

fn two_bounds(node: &Node) -> LimitsForm<'_>
    ensures form { spec.limits_in result ≡ bodies.limits_by (map bodies.shown (kids_of node.now)) }
{
    match node.kids.as_slice() {
        [low, high] => LimitsForm::Limited(low, high),
        _ => LimitsForm::Unlimited,
    }
}

/// The form of a range that may be left out.
#[tactic(auto, using(crate::proofs::Shown::shown_limits))]
pub fn limits_form(node: &Node) -> LimitsForm<'_>
    ensures form { spec.limits_in result ≡ (bodies.shown node.now).limits }
{
    two_bounds(node)
}

fn enumeration_form(node: &Node) -> DefinitionForm<'_>
    ensures form { spec.definition_in result ≡ bodies.enumeration_by (map bodies.shown (kids_of node.now)) }
{
    match node.kids.as_slice() {
        [literals] => DefinitionForm::Enumeration(literals),
        _ => DefinitionForm::Odd,
    }
}

fn integers_form(node: &Node) -> DefinitionForm<'_>
    ensures form { spec.definition_in result ≡ bodies.integers_by (map bodies.shown (kids_of node.now)) }
{
    match node.kids.as_slice() {
        [low, high] => DefinitionForm::Integers(low, high),
        _ => DefinitionForm::Odd,
    }
}

fn array_form(node: &Node) -> DefinitionForm<'_>
    ensures form { spec.definition_in result ≡ bodies.array_by (map bodies.shown (kids_of node.now)) }
{
    match node.kids.as_slice() {
        [index, element] => DefinitionForm::Array(index, element),
        _ => DefinitionForm::Odd,
    }
}

fn record_form(node: &Node) -> DefinitionForm<'_>
    ensures form { spec.definition_in result ≡ bodies.record_by (map bodies.shown (kids_of node.now)) }
{
    match node.kids.as_slice() {
        [components] => DefinitionForm::Record(components),
        _ => DefinitionForm::Odd,
    }
}

/// The form of a type definition.
#[tactic(auto, using(crate::proofs::Shown::shown_definition))]
pub fn definition_form(node: &Node) -> DefinitionForm<'_>
    ensures form { spec.definition_in result ≡ (bodies.shown node.now).definition }
{
    match node.kind {
        Kind::Enum => enumeration_form(node),
        Kind::Range => integers_form(node),
        Kind::Arr => array_form(node),
        Kind::Rec => record_form(node),
        _ => DefinitionForm::Odd,
    }
}

fn object_form(node: &Node) -> DeclForm<'_>
    ensures form { spec.decl_in result ≡ bodies.object_by (map bodies.shown (kids_of node.now)) }
{
    match node.kids.as_slice() {
        [names, mark, range, value] => DeclForm::Object(names, mark, range, optional(value)),
        _ => DeclForm::Odd,
    }
}

fn constant_form(node: &Node) -> DeclForm<'_>
    ensures form { spec.decl_in result ≡ bodies.constant_by (map bodies.shown (kids_of node.now)) }
{
    match node.kids.as_slice() {
        [names, mark, range, value] => DeclForm::Constant(names, mark, range, value),
        _ => DeclForm::Odd,
    }
}

fn number_form(node: &Node) -> DeclForm<'_>
    ensures form { spec.decl_in result ≡ bodies.number_by (map bodies.shown (kids_of node.now)) }
{
    match node.kids.as_slice() {
        [names, value] => DeclForm::Number(names, value),
        _ => DeclForm::Odd,
    }
}

fn type_form(node: &Node) -> DeclForm<'_>
    ensures form { spec.decl_in result ≡ bodies.type_by (map bodies.shown (kids_of node.now)) }
{
    match node.kids.as_slice() {
        [definition] => DeclForm::Type(definition),
        _ => DeclForm::Odd,
    }
}

fn subtype_form(node: &Node) -> DeclForm<'_>
    ensures form { spec.decl_in result ≡ bodies.subtype_by (map bodies.shown (kids_of node.now)) }
{
    match node.kids.as_slice() {
        [mark, range] => DeclForm::Subtype(mark, range),
        _ => DeclForm::Odd,
    }
}

fn use_form(node: &Node) -> DeclForm<'_>
    ensures form { spec.decl_in result ≡ bodies.uses_by (map bodies.shown (kids_of node.now)) }
{
    match node.kids.as_slice() {
        [names] => DeclForm::Use(names),
        _ => DeclForm::Odd,
    }
}

fn exceptions_form(node: &Node) -> DeclForm<'_>
    ensures form { spec.decl_in result ≡ bodies.exceptions_by (map bodies.shown (kids_of node.now)) }
{
    match node.kids.as_slice() {
        [names] => DeclForm::Exceptions(names),
        _ => DeclForm::Odd,
    }
}

/// The form of a declaration.
#[tactic(auto, using(crate::proofs::Shown::shown_decl))]
pub fn decl_form(node: &Node) -> DeclForm<'_>
    ensures form { spec.decl_in result ≡ (bodies.shown node.now).decl }
{
    match node.kind {
        Kind::Obj => object_form(node),
        Kind::Const => constant_form(node),
        Kind::Num => number_form(node),
        Kind::TypeDecl => type_form(node),
        Kind::Subtype => subtype_form(node),
        Kind::Use => use_form(node),
        Kind::Exc => exceptions_form(node),
        Kind::Private => DeclForm::Private,
        Kind::View => DeclForm::View,
        Kind::SubDecl => DeclForm::Subprogram,
        Kind::SubBody => DeclForm::SubprogramBody,
        _ => DeclForm::Odd,
    }
}
