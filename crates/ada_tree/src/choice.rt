// The choices of the grammar: which nodes may stand at a place, and which lists take comments.
ghost use Rattle.std.specs.Prelude.{◌≡◌};
ghost use Rattle.ada_tree.specs.Kinds.{is_among};
ghost use Rattle.ada_tree.specs.Choices.{kinds, expression_kinds, floor, has_side, on_side, level_of, is_only, goes_on, is_tight, binds, stands, opens, comments_of};

use crate::grammar::{Choice, Comments};
use crate::kind::Kind;
use crate::operator::{Level, Operator, OperatorEntry, Side};

// Of a choice: its kinds, apart from the one of `Only` and those of expressions; the loosest level of
// an expression that stands there without parentheses, where expressions stand there; and which
// comments the members of a list of it take, and the list.
type Row = (&'static [Kind], Option<Level>, Comments);

// item = Unit | Trait | Proof | Orphan
const ITEM: Row = (
    &[Kind::Unit, Kind::Trait, Kind::Proof, Kind::Orphan],
    None,
    Comments::Each,
);

// clause = With | Use
const CLAUSE: Row = (&[Kind::With, Kind::Use], None, Comments::Nowhere);

// lib = Pack | Body | SubDecl | SubBody
const LIB: Row = (
    &[Kind::Pack, Kind::Body, Kind::SubDecl, Kind::SubBody],
    None,
    Comments::Nowhere,
);

// spec = Proc | Func
const SPEC: Row = (&[Kind::Proc, Kind::Func], None, Comments::Nowhere);

// mark = Name | Select
const MARK: Row = (&[Kind::Name, Kind::Select], None, Comments::Nowhere);

// decl = Obj | Const | Num | Type | Subtype | Exc | Private | View | SubDecl | SubBody | Use
const DECL: Row = (
    &[
        Kind::Obj,
        Kind::Const,
        Kind::Num,
        Kind::TypeDecl,
        Kind::Subtype,
        Kind::Exc,
        Kind::Private,
        Kind::View,
        Kind::SubDecl,
        Kind::SubBody,
        Kind::Use,
    ],
    None,
    Comments::Each,
);

// tdef = Enum | Range | Arr | Rec
const TDEF: Row = (
    &[Kind::Enum, Kind::Range, Kind::Arr, Kind::Rec],
    None,
    Comments::Nowhere,
);

// dis = Span | mark | RangeOf
const DIS: Row = (
    &[Kind::Span, Kind::Name, Kind::Select, Kind::RangeOf],
    None,
    Comments::Nowhere,
);

// choices = Others | Choices
const CHOICES: Row = (&[Kind::Others, Kind::Choices], None, Comments::Nowhere);

// choice = expr | Span
const CHOICE: Row = (&[Kind::Span], Some(Level::Term), Comments::Nowhere);

// stmt = Null | Assign | Call | If | Case | Loop | Block | Exit | Return | Raise | Assert
const STMT: Row = (
    &[
        Kind::Null,
        Kind::Assign,
        Kind::Call,
        Kind::If,
        Kind::Case,
        Kind::Loop,
        Kind::Block,
        Kind::Exit,
        Kind::Return,
        Kind::Raise,
        Kind::Assert,
    ],
    None,
    Comments::Each,
);

// head = While | For | Reverse
const HEAD: Row = (
    &[Kind::While, Kind::For, Kind::Reverse],
    None,
    Comments::Nowhere,
);

// expr, and in annotations term
const EXPR: Row = (&[], Some(Level::Term), Comments::Nowhere);

// arg = expr | Assoc
const ARG: Row = (&[Kind::Assoc], Some(Level::Term), Comments::Nowhere);

// wclause = Global | In | Out | RaiseC
const WCLAUSE: Row = (
    &[Kind::Global, Kind::In, Kind::Out, Kind::RaiseC],
    None,
    Comments::Nowhere,
);

// The left operand of an operator of which several stand in a row.
const CHAIN: Row = (&[], Some(Level::Relation), Comments::Nowhere);

// A bound of a Span or a Range.
const BOUND: Row = (&[], Some(Level::Sum), Comments::Nowhere);

// A coefficient without a minus.
const COEFFICIENT: Row = (&[Kind::Int], None, Comments::Nowhere);

// A trait's name and a lemma's.
const LEMMA_NAME: Row = (&[Kind::Select], None, Comments::Nowhere);

// The kinds of primary and of operators: Binary | Unary | Member | primary.
const EXPRESSION: &[Kind] = &[
    Kind::Binary,
    Kind::Unary,
    Kind::Member,
    Kind::Int,
    Kind::Name,
    Kind::Select,
    Kind::Apply,
    Kind::Attr,
    Kind::Aggr,
];

// The kinds of a term.
const TERM: &[Kind] = &[
    Kind::Binary,
    Kind::Unary,
    Kind::Int,
    Kind::Name,
    Kind::Select,
    Kind::Apply,
    Kind::Attr,
    Kind::Old,
    Kind::Result,
    Kind::All,
    Kind::Exists,
    Kind::Cond,
    Kind::Make,
];

// The kinds of expressions, and in annotations those of terms.
fn expression_kinds(note: bool) -> &'static [Kind]
    ensures { result.now ≡ expression_kinds note }
{
    if note { TERM } else { EXPRESSION }
}

fn is_among(kind: Kind, kinds: &[Kind]) -> bool
    ensures { result ≡ is_among kind kinds.now }
{
    kinds.iter().any(|other| kind == *other)
}

impl Side {
    // A side has the operators of both sides and its own.
    fn has(self, note: bool) -> bool
        ensures { result ≡ has_side note self }
    {
        match self {
            Side::Both => true,
            Side::Ada => !note,
            Side::Note => note,
        }
    }
}

// Whether a node has an operator of the side, where nodes of its kind have one.
fn is_on_side(note: bool, kind: Kind, text: &[u8]) -> bool
    ensures { result ≡ on_side note kind text.now }
{
    match kind {
        Kind::Binary | Kind::Unary | Kind::Member | Kind::Make => {
            match OperatorEntry::of(kind, text) {
                None => false,
                Some(entry) => entry.side.has(note),
            }
        }
        _ => true,
    }
}

// How tightly a node of an expression or a term binds.
fn level_of(kind: Kind, text: &[u8]) -> Option<Level>
    ensures { result ≡ level_of kind text.now }
{
    match kind {
        Kind::Binary | Kind::Unary | Kind::Member | Kind::Make => {
            Some(OperatorEntry::of(kind, text)?.level)
        }
        Kind::All | Kind::Exists | Kind::Cond => Some(Level::Term),
        Kind::Old => Some(Level::Primary),
        Kind::Int
        | Kind::Name
        | Kind::Select
        | Kind::Apply
        | Kind::Attr
        | Kind::Aggr
        | Kind::Result => Some(Level::Prefix),
        _ => None,
    }
}

fn is_tight(least: Level, level: Option<Level>) -> bool
    ensures { result ≡ is_tight least level }
{
    match level {
        None => false,
        Some(level) => least <= level,
    }
}

impl Choice {
    fn row(self) -> Row
        ensures kinds { result.0.now ≡ kinds self }
        ensures floor { result.1 ≡ floor self }
        ensures comments { result.2 ≡ comments_of self }
    {
        match self {
            Choice::Only(Kind::Handler | Kind::Alt) => (&[], None, Comments::First),
            Choice::Only(Kind::File) => (&[], None, Comments::Kept),
            Choice::Only(_) => (&[], None, Comments::Nowhere),
            Choice::Item => ITEM,
            Choice::Clause => CLAUSE,
            Choice::Lib => LIB,
            Choice::Spec => SPEC,
            Choice::Mark => MARK,
            Choice::Decl => DECL,
            Choice::Tdef => TDEF,
            Choice::Dis => DIS,
            Choice::Choices => CHOICES,
            Choice::Choice => CHOICE,
            Choice::Stmt => STMT,
            Choice::Head => HEAD,
            Choice::Expr => EXPR,
            Choice::Arg => ARG,
            Choice::Wclause => WCLAUSE,
            Choice::Operand(level) => (&[], Some(level), Comments::Nowhere),
            Choice::Chain(_) => CHAIN,
            Choice::Bound => BOUND,
            Choice::Coefficient => COEFFICIENT,
            Choice::LemmaName => LEMMA_NAME,
        }
    }

    /// The kinds of the choice, apart from the one of `Only` and those of expressions.
    pub fn kinds(self) -> &'static [Kind]
        ensures { result.now ≡ kinds self }
    {
        self.row().0
    }

    /// Whether an expression may stand here in parentheses.
    pub fn opens(self) -> bool
        ensures { result ≡ opens self }
    {
        self.row().1.is_some()
    }

    /// Which comments the members of a list of this choice take, and the list.
    pub fn comments(self) -> Comments
        ensures { result ≡ comments_of self }
    {
        self.row().2
    }

    /// Whether a node of this kind with this text may stand here as it is, without parentheses.
    /// `note` tells that the place is in an annotation.
    pub fn admits(self, note: bool, kind: Kind, text: &[u8]) -> bool
        ensures { result ≡ stands note self kind text.now }
    {
        match self {
            Choice::Only(wanted) => wanted == kind && is_on_side(note, kind, text),
            Choice::Coefficient if kind == Kind::Unary => text == "-".as_bytes(),
            _ => is_among(kind, self.kinds()) || self.binds(note, kind, text),
        }
    }

    fn binds(self, note: bool, kind: Kind, text: &[u8]) -> bool
        ensures { result ≡ binds note self (floor self) kind text.now }
    {
        let Some(least) = self.row().1 else {
            return false;
        };
        is_among(kind, expression_kinds(note))
            && is_on_side(note, kind, text)
            && (is_tight(least, level_of(kind, text)) || self.goes_on(kind, text))
    }

    // What an operator of a row has joined already is its left operand as it is.
    fn goes_on(self, kind: Kind, text: &[u8]) -> bool
        ensures { result ≡ goes_on self kind text.now }
    {
        let Choice::Chain(operator) = self else {
            return false;
        };
        match OperatorEntry::of(kind, text) {
            None => false,
            Some(entry) => entry.operator == operator,
        }
    }
}
