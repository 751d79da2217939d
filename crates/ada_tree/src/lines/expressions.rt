// The lines of expressions.
use crate::grammar::{Choice, Own, Piece, Shape};
use crate::kind::Kind;
use crate::operator::{Level, Operator};
use crate::word::Mark;

// Int = <num>
pub const INT: &[Piece] = &[Piece::Own(Own::Num)];

// Apply = prefix "(" {arg ,} ")"
pub const APPLY: &[Piece] = &[
    Piece::Kid(Shape::One(Choice::Operand(Level::Prefix))),
    Piece::Glue,
    Piece::Mark(Mark::Open),
    Piece::Kid(Shape::Listed(Choice::Arg, Mark::Comma)),
    Piece::Mark(Mark::Close),
];

// Attr = prefix "'" <id>
pub const ATTR: &[Piece] = &[
    Piece::Kid(Shape::One(Choice::Operand(Level::Prefix))),
    Piece::Mark(Mark::Tick),
    Piece::Own(Own::Id),
];

// Assoc = choices "=>" expr
pub const ASSOC: &[Piece] = &[
    Piece::Kid(Shape::One(Choice::Choices)),
    Piece::Mark(Mark::Arrow),
    Piece::Kid(Shape::One(Choice::Expr)),
];

// Aggr = "(" {arg ,} ")"
pub const AGGR: &[Piece] = &[
    Piece::Mark(Mark::Open),
    Piece::Kid(Shape::Listed(Choice::Arg, Mark::Comma)),
    Piece::Mark(Mark::Close),
];

// Select = primary "." <id>
pub const SELECT: &[Piece] = &[
    Piece::Kid(Shape::One(Choice::Operand(Level::Prefix))),
    Piece::Mark(Mark::Dot),
    Piece::Own(Own::Id),
];

// Of a mark: Select = mark "." <id>
pub const SELECT_OF_MARK: &[Piece] = &[
    Piece::Kid(Shape::One(Choice::Mark)),
    Piece::Mark(Mark::Dot),
    Piece::Own(Own::Id),
];

// Of a lemma: Select = Name "." <id>
pub const SELECT_OF_LEMMA: &[Piece] = &[
    Piece::Kid(Shape::One(Choice::Only(Kind::Name))),
    Piece::Mark(Mark::Dot),
    Piece::Own(Own::Id),
];

// Binary = expr "and" expr, of which several stand in a row
pub const AND: &[Piece] = &[
    Piece::Kid(Shape::One(Choice::Chain(Operator::And))),
    Piece::Own(Own::Operator),
    Piece::Kid(Shape::One(Choice::Operand(Level::Relation))),
];

// Binary = expr "or" expr, of which several stand in a row
pub const OR: &[Piece] = &[
    Piece::Kid(Shape::One(Choice::Chain(Operator::Or))),
    Piece::Own(Own::Operator),
    Piece::Kid(Shape::One(Choice::Operand(Level::Relation))),
];

// Binary = expr "xor" expr, of which several stand in a row
pub const XOR: &[Piece] = &[
    Piece::Kid(Shape::One(Choice::Chain(Operator::Xor))),
    Piece::Own(Own::Operator),
    Piece::Kid(Shape::One(Choice::Operand(Level::Relation))),
];

// Binary = expr "and then" expr, of which several stand in a row
pub const AND_THEN: &[Piece] = &[
    Piece::Kid(Shape::One(Choice::Chain(Operator::AndThen))),
    Piece::Own(Own::Operator),
    Piece::Kid(Shape::One(Choice::Operand(Level::Relation))),
];

// Binary = expr "or else" expr, of which several stand in a row
pub const OR_ELSE: &[Piece] = &[
    Piece::Kid(Shape::One(Choice::Chain(Operator::OrElse))),
    Piece::Own(Own::Operator),
    Piece::Kid(Shape::One(Choice::Operand(Level::Relation))),
];

// Binary = expr <op> expr, of a relation
pub const RELATION: &[Piece] = &[
    Piece::Kid(Shape::One(Choice::Operand(Level::Sum))),
    Piece::Own(Own::Operator),
    Piece::Kid(Shape::One(Choice::Operand(Level::Sum))),
];

// Member = expr <op> dis
pub const MEMBER: &[Piece] = &[
    Piece::Kid(Shape::One(Choice::Operand(Level::Sum))),
    Piece::Own(Own::Operator),
    Piece::Kid(Shape::One(Choice::Dis)),
];

// Binary = expr <op> expr, of a sum
pub const SUM: &[Piece] = &[
    Piece::Kid(Shape::One(Choice::Operand(Level::Sum))),
    Piece::Own(Own::Operator),
    Piece::Kid(Shape::One(Choice::Operand(Level::Signed))),
];

// Binary = expr <op> expr, of a product
pub const PRODUCT: &[Piece] = &[
    Piece::Kid(Shape::One(Choice::Operand(Level::Product))),
    Piece::Own(Own::Operator),
    Piece::Kid(Shape::One(Choice::Operand(Level::Factor))),
];

// Binary = term "implies" term, which associates to the right
pub const IMPLICATION: &[Piece] = &[
    Piece::Kid(Shape::One(Choice::Operand(Level::Logical))),
    Piece::Own(Own::Operator),
    Piece::Kid(Shape::One(Choice::Operand(Level::Implication))),
];

// Binary = term "iff" term, of which one stands in a row
pub const EQUIVALENCE: &[Piece] = &[
    Piece::Kid(Shape::One(Choice::Operand(Level::Implication))),
    Piece::Own(Own::Operator),
    Piece::Kid(Shape::One(Choice::Operand(Level::Implication))),
];

// Unary = <op> expr, of a sign
pub const SIGNED: &[Piece] = &[
    Piece::Own(Own::Operator),
    Piece::Glue,
    Piece::Kid(Shape::One(Choice::Operand(Level::Product))),
];

// Unary = <op> expr, of a word
pub const FACTOR: &[Piece] = &[
    Piece::Own(Own::Operator),
    Piece::Kid(Shape::One(Choice::Operand(Level::Primary))),
];

// Of `linear`, a coefficient with a minus: Unary = <op> Int
pub const COEFFICIENT: &[Piece] = &[
    Piece::Own(Own::Operator),
    Piece::Glue,
    Piece::Kid(Shape::One(Choice::Only(Kind::Int))),
];
