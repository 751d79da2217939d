// The lines of annotations and what terms have beside expressions.
use crate::grammar::{Choice, Own, Piece, Shape};
use crate::kind::Kind;
use crate::operator::Level;
use crate::word::{Mark, Word};

// Where = [| "where" \> {wclause \n} \< "end" "where" ";" |]
pub const WHERE: &[Piece] = &[
    Piece::NoteOn,
    Piece::Word(Word::Where),
    Piece::Indent,
    Piece::Kid(Shape::Any(Choice::Wclause)),
    Piece::Outdent,
    Piece::Word(Word::End),
    Piece::Word(Word::Where),
    Piece::Mark(Mark::Semicolon),
    Piece::NoteOff,
];

// Global = "global" <mode> {mark ,} ";", where the mode is `in` or `in out`
pub const GLOBAL: &[Piece] = &[
    Piece::Word(Word::Global),
    Piece::Own(Own::GlobalMode),
    Piece::Kid(Shape::Listed(Choice::Mark, Mark::Comma)),
    Piece::Mark(Mark::Semicolon),
];

// In = "in" term ";"
pub const IN: &[Piece] = &[
    Piece::Word(Word::In),
    Piece::Kid(Shape::One(Choice::Expr)),
    Piece::Mark(Mark::Semicolon),
];

// Out = "out" term ";"
pub const OUT: &[Piece] = &[
    Piece::Word(Word::Out),
    Piece::Kid(Shape::One(Choice::Expr)),
    Piece::Mark(Mark::Semicolon),
];

// RaiseC = "raise" mark "=>" term ";"
pub const RAISE_C: &[Piece] = &[
    Piece::Word(Word::Raise),
    Piece::Kid(Shape::One(Choice::Mark)),
    Piece::Mark(Mark::Arrow),
    Piece::Kid(Shape::One(Choice::Expr)),
    Piece::Mark(Mark::Semicolon),
];

// Based = [| "based" "on" mark ";" |]
pub const BASED: &[Piece] = &[
    Piece::NoteOn,
    Piece::Word(Word::Based),
    Piece::Word(Word::On),
    Piece::Kid(Shape::One(Choice::Mark)),
    Piece::Mark(Mark::Semicolon),
    Piece::NoteOff,
];

// View = [| "view" <id> "of" Name "is" term [ "invariant" term ] ";" |]
pub const VIEW: &[Piece] = &[
    Piece::NoteOn,
    Piece::Word(Word::View),
    Piece::Own(Own::Id),
    Piece::Word(Word::Of),
    Piece::Kid(Shape::One(Choice::Only(Kind::Name))),
    Piece::Word(Word::Is),
    Piece::Kid(Shape::One(Choice::Expr)),
    Piece::Option,
    Piece::Word(Word::Invariant),
    Piece::Kid(Shape::One(Choice::Expr)),
    Piece::End,
    Piece::Mark(Mark::Semicolon),
    Piece::NoteOff,
];

// Invariant = [| "invariant" term ";" |]
pub const INVARIANT: &[Piece] = &[
    Piece::NoteOn,
    Piece::Word(Word::Invariant),
    Piece::Kid(Shape::One(Choice::Expr)),
    Piece::Mark(Mark::Semicolon),
    Piece::NoteOff,
];

// Old = "in" mark
pub const OLD: &[Piece] = &[Piece::Word(Word::In), Piece::Kid(Shape::One(Choice::Mark))];

// Result = "return"
pub const RESULT: &[Piece] = &[Piece::Word(Word::Return)];

// All = "for" "all" <id> "in" term ".." term ":" term, where the bounds are operands
pub const ALL: &[Piece] = &[
    Piece::Word(Word::For),
    Piece::Word(Word::All),
    Piece::Own(Own::Id),
    Piece::Word(Word::In),
    Piece::Kid(Shape::One(Choice::Operand(Level::Term))),
    Piece::Mark(Mark::Dots),
    Piece::Kid(Shape::One(Choice::Operand(Level::Term))),
    Piece::Mark(Mark::Colon),
    Piece::Kid(Shape::One(Choice::Expr)),
];

// Exists = "exists" <id> "in" term ".." term ":" term, where the bounds are operands
pub const EXISTS: &[Piece] = &[
    Piece::Word(Word::Exists),
    Piece::Own(Own::Id),
    Piece::Word(Word::In),
    Piece::Kid(Shape::One(Choice::Operand(Level::Term))),
    Piece::Mark(Mark::Dots),
    Piece::Kid(Shape::One(Choice::Operand(Level::Term))),
    Piece::Mark(Mark::Colon),
    Piece::Kid(Shape::One(Choice::Expr)),
];

// Cond = "if" term "then" term "else" term
pub const COND: &[Piece] = &[
    Piece::Word(Word::If),
    Piece::Kid(Shape::One(Choice::Expr)),
    Piece::Word(Word::Then),
    Piece::Kid(Shape::One(Choice::Expr)),
    Piece::Word(Word::Else),
    Piece::Kid(Shape::One(Choice::Expr)),
];

// Make = <op> "(" {term ,} ")"
pub const MAKE: &[Piece] = &[
    Piece::Own(Own::Operator),
    Piece::Glue,
    Piece::Mark(Mark::Open),
    Piece::Kid(Shape::Listed(Choice::Expr, Mark::Comma)),
    Piece::Mark(Mark::Close),
];
