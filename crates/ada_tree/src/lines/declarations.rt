// The lines of declarations and types.
use crate::grammar::{Choice, Own, Piece, Shape};
use crate::kind::Kind;
use crate::word::{Mark, Word};

// Obj = {Id ,} ":" mark [ Range ] [ ":=" expr ] ";"
pub const OBJ: &[Piece] = &[
    Piece::Kid(Shape::Listed(Choice::Only(Kind::Id), Mark::Comma)),
    Piece::Mark(Mark::Colon),
    Piece::Kid(Shape::One(Choice::Mark)),
    Piece::Option,
    Piece::Kid(Shape::One(Choice::Only(Kind::Range))),
    Piece::End,
    Piece::Option,
    Piece::Mark(Mark::Becomes),
    Piece::Kid(Shape::One(Choice::Expr)),
    Piece::End,
    Piece::Mark(Mark::Semicolon),
];

// Const = {Id ,} ":" "constant" mark [ Range ] ":=" expr ";"
pub const CONST: &[Piece] = &[
    Piece::Kid(Shape::Listed(Choice::Only(Kind::Id), Mark::Comma)),
    Piece::Mark(Mark::Colon),
    Piece::Word(Word::Constant),
    Piece::Kid(Shape::One(Choice::Mark)),
    Piece::Option,
    Piece::Kid(Shape::One(Choice::Only(Kind::Range))),
    Piece::End,
    Piece::Mark(Mark::Becomes),
    Piece::Kid(Shape::One(Choice::Expr)),
    Piece::Mark(Mark::Semicolon),
];

// Num = {Id ,} ":" "constant" ":=" expr ";"
pub const NUM: &[Piece] = &[
    Piece::Kid(Shape::Listed(Choice::Only(Kind::Id), Mark::Comma)),
    Piece::Mark(Mark::Colon),
    Piece::Word(Word::Constant),
    Piece::Mark(Mark::Becomes),
    Piece::Kid(Shape::One(Choice::Expr)),
    Piece::Mark(Mark::Semicolon),
];

// Range = "range" expr ".." expr, where the bounds are of the level of sums or a tighter one
pub const RANGE: &[Piece] = &[
    Piece::Word(Word::Range),
    Piece::Kid(Shape::One(Choice::Bound)),
    Piece::Mark(Mark::Dots),
    Piece::Kid(Shape::One(Choice::Bound)),
];

// Type = "type" <id> "is" tdef ";"
pub const TYPE_DECL: &[Piece] = &[
    Piece::Word(Word::Type),
    Piece::Own(Own::Id),
    Piece::Word(Word::Is),
    Piece::Kid(Shape::One(Choice::Tdef)),
    Piece::Mark(Mark::Semicolon),
];

// Enum = "(" {Id ,} ")"
pub const ENUM: &[Piece] = &[
    Piece::Mark(Mark::Open),
    Piece::Kid(Shape::Listed(Choice::Only(Kind::Id), Mark::Comma)),
    Piece::Mark(Mark::Close),
];

// Arr = "array" "(" dis ")" "of" mark
pub const ARR: &[Piece] = &[
    Piece::Word(Word::Array),
    Piece::Mark(Mark::Open),
    Piece::Kid(Shape::One(Choice::Dis)),
    Piece::Mark(Mark::Close),
    Piece::Word(Word::Of),
    Piece::Kid(Shape::One(Choice::Mark)),
];

// Rec = "record" \> {Comp \n}+ \< "end" "record"
pub const REC: &[Piece] = &[
    Piece::Word(Word::Record),
    Piece::Indent,
    Piece::Kid(Shape::Many(Choice::Only(Kind::Comp))),
    Piece::Outdent,
    Piece::Word(Word::End),
    Piece::Word(Word::Record),
];

// Comp = {Id ,} ":" mark ";"
pub const COMP: &[Piece] = &[
    Piece::Kid(Shape::Listed(Choice::Only(Kind::Id), Mark::Comma)),
    Piece::Mark(Mark::Colon),
    Piece::Kid(Shape::One(Choice::Mark)),
    Piece::Mark(Mark::Semicolon),
];

// Subtype = "subtype" <id> "is" mark [ Range ] ";"
pub const SUBTYPE: &[Piece] = &[
    Piece::Word(Word::Subtype),
    Piece::Own(Own::Id),
    Piece::Word(Word::Is),
    Piece::Kid(Shape::One(Choice::Mark)),
    Piece::Option,
    Piece::Kid(Shape::One(Choice::Only(Kind::Range))),
    Piece::End,
    Piece::Mark(Mark::Semicolon),
];

// Exc = {Id ,} ":" "exception" ";"
pub const EXC: &[Piece] = &[
    Piece::Kid(Shape::Listed(Choice::Only(Kind::Id), Mark::Comma)),
    Piece::Mark(Mark::Colon),
    Piece::Word(Word::Exception),
    Piece::Mark(Mark::Semicolon),
];

// Private = "type" <id> "is" "private" ";" [ Based ]
pub const PRIVATE: &[Piece] = &[
    Piece::Word(Word::Type),
    Piece::Own(Own::Id),
    Piece::Word(Word::Is),
    Piece::Word(Word::Private),
    Piece::Mark(Mark::Semicolon),
    Piece::Option,
    Piece::Kid(Shape::One(Choice::Only(Kind::Based))),
    Piece::End,
];

// Span = expr ".." expr, where the bounds are of the level of sums or a tighter one
pub const SPAN: &[Piece] = &[
    Piece::Kid(Shape::One(Choice::Bound)),
    Piece::Mark(Mark::Dots),
    Piece::Kid(Shape::One(Choice::Bound)),
];

// RangeOf = mark "'" "range"
pub const RANGE_OF: &[Piece] = &[
    Piece::Kid(Shape::One(Choice::Mark)),
    Piece::Mark(Mark::Tick),
    Piece::Word(Word::Range),
];
