//! What the parts of units are: expressions, declarations and statements, read off the tree. All matches on kinds of nodes and on their
//! kids stand here.
#![tactic(auto)]

mod declarations;
mod expressions;
mod statements;

pub use declarations::{
    DeclForm, DefinitionForm, LimitsForm, decl_form, definition_form, limits_form,
};
pub use expressions::{
    ArgForm, ChoiceForm, ChoicesForm, ExprForm, RangeForm, arg_form, choice_form, choices_form,
    expr_form, range_form,
};
pub use statements::{
    HeadForm, PartForm, SequenceForm, StmtForm, head_form, optional, part_form, sequence_form,
    stmt_form,
};
