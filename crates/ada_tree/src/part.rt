// The parts of the grammar that a text may be of by itself.
use crate::kind::Kind;

/// A rule of the grammar: the line of a kind, or a choice. Doc, List and None have no texts of their
/// own.
#[derive(Clone, Copy, Debug, PartialEq, Eq)]
pub enum Rule {
    Of(Kind),
    AnyItem,
    AnyClause,
    AnyLib,
    AnySpec,
    AnyMark,
    AnyDecl,
    AnyTdef,
    AnyDis,
    AnyChoices,
    AnyChoice,
    AnyStmt,
    AnyHead,
    AnyExpr,
    /// What may stand before a dot, a tick or arguments.
    AnyPrimary,
    AnyArg,
    AnyWclause,
    AnyTerm,
}

/// A part of the grammar.
#[derive(Clone, Copy, Debug, PartialEq, Eq)]
pub struct Part {
    pub rule: Rule,
    /// It stands in an annotation. Where the texts of the rule stand on one side alone, this changes
    /// nothing.
    pub note: bool,
}
