// What the lines of the grammar are made of.
use crate::kind::Kind;
use crate::operator::{Level, Operator};
use crate::word::{Mark, Word};

/// What stands at a place of a line: one kind, or a choice of kinds.
#[derive(Clone, Copy, Debug, PartialEq, Eq)]
pub enum Choice {
    Only(Kind),
    /// A member of a file.
    Item,
    /// A member of a unit's context.
    Clause,
    /// A library unit.
    Lib,
    /// The specification of a subprogram.
    Spec,
    /// A name of a type, a package, an object or an exception: names joined by dots.
    Mark,
    Decl,
    /// The definition of a type.
    Tdef,
    /// A discrete range.
    Dis,
    /// What follows `when`, or stands before the arrow of an association.
    Choices,
    /// A member of `Choices`.
    Choice,
    Stmt,
    /// What stands before `loop`.
    Head,
    /// An expression; in annotations, a term.
    Expr,
    /// An argument of a call, or a component of an aggregate.
    Arg,
    /// A clause of a `where` block.
    Wclause,
    /// An operand: an expression that binds at least so tightly.
    Operand(Level),
    /// The left operand of an operator of which several stand in a row: what this operator joins
    /// already, or an operand of the level of relations.
    Chain(Operator),
    /// A bound of a Span or a Range: an expression of the level of sums or a tighter one.
    Bound,
    /// An argument of `linear`: a number that may have a minus.
    Coefficient,
    /// An argument of `lemma`: a trait's name and a lemma's.
    LemmaName,
}

/// A node's own text, as it stands in its line.
#[derive(Clone, Copy, Debug, PartialEq, Eq)]
pub enum Own {
    /// An identifier; in annotations also two joined by `@`.
    Id,
    /// The same after `end`, where it may be left out.
    Closing,
    Num,
    /// `in`, which may be left out, `out` or `in out`.
    Mode,
    /// `in`, which may be left out, or `in out`.
    GlobalMode,
    Operator,
    /// The name of a rule of proof.
    Rule,
    /// What a proof is a proof of.
    Key,
}

/// A kid of a node, by the place it stands at.
#[derive(Clone, Copy, Debug, PartialEq, Eq)]
pub enum Shape {
    One(Choice),
    /// A list of any number of members, each on a line.
    Any(Choice),
    /// A list of one or more members, each on a line.
    Many(Choice),
    /// A list of one or more members with the mark between them.
    Listed(Choice, Mark),
    /// The same, or an empty list, which is written as nothing.
    MaybeListed(Choice, Mark),
    /// `for all` and variables with semicolons between them, or an empty list, which is written
    /// as nothing.
    ForAll,
}

/// A part of a line.
#[derive(Clone, Copy, Debug, PartialEq, Eq)]
pub enum Piece {
    Word(Word),
    Mark(Mark),
    Own(Own),
    Kid(Shape),
    /// All kids are members of the node itself, each on a line.
    Members(Choice),
    /// The list of a proof step's arguments, by the line of its rule.
    Arguments,
    /// What follows, up to `End`, is written where its one kid isn't None.
    Option,
    /// What follows, up to `End`, is written where one of the next so many lists has a member.
    Shown(u8),
    End,
    /// The line breaks, and what follows is indented by one step more.
    Indent,
    /// The line breaks, and what follows is indented by one step less.
    Outdent,
    /// No blank stands here.
    Glue,
    /// An annotation begins, on a line of its own.
    NoteOn,
    /// The annotation ends, and the line breaks.
    NoteOff,
}

/// An argument of a proof step, as the line of its rule has it.
#[derive(Clone, Copy, Debug, PartialEq, Eq)]
pub enum Argument {
    Number,
    Name,
    LemmaName,
    Term,
    /// `in` and a number, or nothing.
    InNumber,
    /// What follows are names in parentheses, or nothing.
    Names,
    /// What follows are terms in parentheses, or nothing.
    Terms,
    /// What follows are coefficients in parentheses, or nothing.
    Coefficients,
}

/// Which comments belong to the members of a list, and to the list.
#[derive(Clone, Copy, Debug, PartialEq, Eq)]
pub enum Comments {
    /// Those before each member are its own, and those before the end are the list's.
    Each,
    /// Those before the first member are its own. All others belong to lists inside the members.
    First,
    /// A member keeps its own, as a file does.
    Kept,
    /// None.
    Nowhere,
}
