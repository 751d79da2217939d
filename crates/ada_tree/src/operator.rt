// The operators, and how tightly each binds.
ghost use Rattle.std.specs.Prelude.{◌≡◌, ◌&&◌, bytes_eq};
ghost use Rattle.ada_tree.specs.Kinds.{is_kind};
ghost use Rattle.ada_tree.specs.Tables.{first_value};
ghost use Rattle.ada_tree.specs.Operators.{operator_text, operator_line, entry_of};

use crate::grammar::Piece;
use crate::kind::Kind;
use crate::lines::{annotations, expressions};

/// How tightly an expression binds, the loosest first.
#[derive(Clone, Copy, Debug, PartialEq, Eq, PartialOrd, Ord)]
pub enum Level {
    /// `for all`, `exists` and `if`, which reach as far right as they can.
    Term,
    /// `iff`.
    Equivalence,
    /// `implies`.
    Implication,
    /// `and`, `or`, `xor`, `and then`, `or else`.
    Logical,
    /// `=`, `/=`, `<`, `<=`, `>`, `>=`, `in`, `not in`.
    Relation,
    /// `+`, `-`.
    Sum,
    /// The signs `+` and `-`.
    Signed,
    /// `*`, `/`, `mod`, `rem`.
    Product,
    /// `abs`, `not`.
    Factor,
    /// `in X`, the value at entry.
    Primary,
    /// What may also stand before a dot, a tick or arguments.
    Prefix,
}

/// The operators of expressions and terms.
#[derive(Clone, Copy, Debug, PartialEq, Eq)]
pub enum Operator {
    And,
    Or,
    Xor,
    AndThen,
    OrElse,
    Equal,
    NotEqual,
    Less,
    LessEqual,
    Greater,
    GreaterEqual,
    In,
    NotIn,
    Add,
    Subtract,
    Plus,
    Minus,
    Multiply,
    Divide,
    Mod,
    Rem,
    Abs,
    Not,
    Implies,
    Iff,
    Store,
    Update,
    Fill,
    Make,
}

/// Where an operator stands: in Ada text, in annotations, or in both.
#[derive(Clone, Copy, Debug, PartialEq, Eq)]
pub enum Side {
    Both,
    Ada,
    Note,
}

/// What an operator is, apart from how it is written and from the line of its nodes.
#[derive(Clone, Copy, Debug, PartialEq, Eq)]
pub struct OperatorEntry {
    pub operator: Operator,
    /// The kind of the nodes that it makes.
    pub kind: Kind,
    pub side: Side,
    pub level: Level,
}

macro_rules! rows {
    ($($operator:ident $text:literal $kind:ident $side:ident $level:ident $line:expr;)*) => {
        [$((
            OperatorEntry {
                operator: Operator::$operator,
                kind: Kind::$kind,
                side: Side::$side,
                level: Level::$level,
            },
            $text,
            $line,
        )),*]
    };
}

/// The operators, in the order of `Operator`: the kind of its nodes, the side that it stands on and
/// how tightly it binds; how it is written, its words in lower case; and the line of its nodes, with
/// the levels of their operands.
pub const OPERATORS: [(OperatorEntry, &str, &[Piece]); 29] = rows! {
    And "and" Binary Both Logical expressions::AND;
    Or "or" Binary Both Logical expressions::OR;
    Xor "xor" Binary Both Logical expressions::XOR;
    AndThen "and then" Binary Ada Logical expressions::AND_THEN;
    OrElse "or else" Binary Ada Logical expressions::OR_ELSE;
    Equal "=" Binary Both Relation expressions::RELATION;
    NotEqual "/=" Binary Both Relation expressions::RELATION;
    Less "<" Binary Both Relation expressions::RELATION;
    LessEqual "<=" Binary Both Relation expressions::RELATION;
    Greater ">" Binary Both Relation expressions::RELATION;
    GreaterEqual ">=" Binary Both Relation expressions::RELATION;
    In "in" Member Ada Relation expressions::MEMBER;
    NotIn "not in" Member Ada Relation expressions::MEMBER;
    Add "+" Binary Both Sum expressions::SUM;
    Subtract "-" Binary Both Sum expressions::SUM;
    Plus "+" Unary Both Signed expressions::SIGNED;
    Minus "-" Unary Both Signed expressions::SIGNED;
    Multiply "*" Binary Both Product expressions::PRODUCT;
    Divide "/" Binary Both Product expressions::PRODUCT;
    Mod "mod" Binary Both Product expressions::PRODUCT;
    Rem "rem" Binary Both Product expressions::PRODUCT;
    Abs "abs" Unary Both Factor expressions::FACTOR;
    Not "not" Unary Both Factor expressions::FACTOR;
    Implies "implies" Binary Note Implication expressions::IMPLICATION;
    Iff "iff" Binary Note Equivalence expressions::EQUIVALENCE;
    Store "store" Make Note Prefix annotations::MAKE;
    Update "update" Make Note Prefix annotations::MAKE;
    Fill "fill" Make Note Prefix annotations::MAKE;
    Make "make" Make Note Prefix annotations::MAKE;
};

impl Operator {
    /// How the operator is written: its words in lower case, or its mark.
    pub fn text(self) -> &'static str
        ensures { result.now ≡ operator_text self }
    {
        OPERATORS[self as usize].1
    }

    /// The line of its nodes.
    pub fn line(self) -> &'static [Piece]
        ensures { result.now ≡ operator_line self }
    {
        OPERATORS[self as usize].2
    }
}

impl OperatorEntry {
    /// The entry of the operator of a node of this kind with this text.
    pub fn of(kind: Kind, text: &[u8]) -> Option<OperatorEntry>
        ensures { result ≡ entry_of kind text.now }
    {
        entry_in(&OPERATORS, kind, text)
    }
}

// The entry of the operator of such a node in this table.
fn entry_in(
    rows: &[(OperatorEntry, &str, &[Piece])],
    kind: Kind,
    text: &[u8],
) -> Option<OperatorEntry>
    ensures { result ≡ first_value (λ row. row.0) (λ row. is_kind row.0.kind kind && bytes_eq row.1.now text.now) rows.now }
{
    for (entry, written, _) in rows {
        if entry.kind == kind && written.as_bytes() == text {
            return Some(*entry);
        }
    }
    None
}
