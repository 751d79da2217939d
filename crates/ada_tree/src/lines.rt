// The written table: for each kind its line of the grammar. The lines stand in the files beside, in
// the order of the grammar.
ghost use Rattle.std.specs.Prelude.{◌≡◌};
ghost use Rattle.ada_tree.specs.Lines.{select_line, line_by_operator, line};

pub mod annotations;
mod declarations;
pub mod expressions;
mod proofs;
mod statements;
mod traits;
mod units;

use crate::grammar::{Choice, Piece};
use crate::kind::Kind;
use crate::operator::OperatorEntry;

/// The kinds and their lines, in the order of `Kind`. The line of a Select depends on its place
/// too, and that of a node with an operator is the operator's.
pub const LINES: [(Kind, &[Piece]); 85] = [
    (Kind::Doc, units::DOC),
    (Kind::File, units::FILE),
    (Kind::Unit, units::UNIT),
    (Kind::With, units::WITH),
    (Kind::Use, units::USE),
    (Kind::Pack, units::PACK),
    (Kind::Body, units::BODY),
    (Kind::SubDecl, units::SUB_DECL),
    (Kind::SubBody, units::SUB_BODY),
    (Kind::Proc, units::PROC),
    (Kind::Func, units::FUNC),
    (Kind::Formals, units::FORMALS),
    (Kind::Formal, units::FORMAL),
    (Kind::Id, units::ID),
    (Kind::Name, units::NAME),
    (Kind::Select, expressions::SELECT),
    (Kind::Obj, declarations::OBJ),
    (Kind::Const, declarations::CONST),
    (Kind::Num, declarations::NUM),
    (Kind::Range, declarations::RANGE),
    (Kind::TypeDecl, declarations::TYPE_DECL),
    (Kind::Enum, declarations::ENUM),
    (Kind::Arr, declarations::ARR),
    (Kind::Rec, declarations::REC),
    (Kind::Comp, declarations::COMP),
    (Kind::Subtype, declarations::SUBTYPE),
    (Kind::Exc, declarations::EXC),
    (Kind::Private, declarations::PRIVATE),
    (Kind::Span, declarations::SPAN),
    (Kind::RangeOf, declarations::RANGE_OF),
    (Kind::Seq, statements::SEQ),
    (Kind::Handler, statements::HANDLER),
    (Kind::Others, statements::OTHERS),
    (Kind::Choices, statements::CHOICES),
    (Kind::Null, statements::NULL),
    (Kind::Assign, statements::ASSIGN),
    (Kind::Call, statements::CALL),
    (Kind::If, statements::IF),
    (Kind::Elsif, statements::ELSIF),
    (Kind::Case, statements::CASE),
    (Kind::Alt, statements::ALT),
    (Kind::Loop, statements::LOOP),
    (Kind::Block, statements::BLOCK),
    (Kind::Exit, statements::EXIT),
    (Kind::Return, statements::RETURN),
    (Kind::Raise, statements::RAISE),
    (Kind::Assert, statements::ASSERT),
    (Kind::While, statements::WHILE),
    (Kind::For, statements::FOR),
    (Kind::Reverse, statements::REVERSE),
    (Kind::Binary, &[]),
    (Kind::Unary, &[]),
    (Kind::Member, &[]),
    (Kind::Int, expressions::INT),
    (Kind::Apply, expressions::APPLY),
    (Kind::Attr, expressions::ATTR),
    (Kind::Assoc, expressions::ASSOC),
    (Kind::Aggr, expressions::AGGR),
    (Kind::Where, annotations::WHERE),
    (Kind::Global, annotations::GLOBAL),
    (Kind::In, annotations::IN),
    (Kind::Out, annotations::OUT),
    (Kind::RaiseC, annotations::RAISE_C),
    (Kind::Based, annotations::BASED),
    (Kind::View, annotations::VIEW),
    (Kind::Invariant, annotations::INVARIANT),
    (Kind::Old, annotations::OLD),
    (Kind::Result, annotations::RESULT),
    (Kind::All, annotations::ALL),
    (Kind::Exists, annotations::EXISTS),
    (Kind::Cond, annotations::COND),
    (Kind::Make, annotations::MAKE),
    (Kind::Trait, traits::TRAIT),
    (Kind::Incl, traits::INCL),
    (Kind::Op, traits::OP),
    (Kind::Gen, traits::GEN),
    (Kind::Vars, traits::VARS),
    (Kind::Eqn, traits::EQN),
    (Kind::Lemma, traits::LEMMA),
    (Kind::Proof, proofs::PROOF),
    (Kind::Orphan, proofs::ORPHAN),
    (Kind::Key, proofs::KEY),
    (Kind::Step, proofs::STEP),
    (Kind::List, &[]),
    (Kind::None, &[]),
];

fn select_line(place: Choice) -> &'static [Piece]
    ensures { result.now ≡ select_line place }
{
    match place {
        Choice::Mark | Choice::Dis => expressions::SELECT_OF_MARK,
        Choice::LemmaName => expressions::SELECT_OF_LEMMA,
        _ => expressions::SELECT,
    }
}

// The line of a node with an operator.
fn line_by_operator(kind: Kind, text: &[u8]) -> &'static [Piece]
    ensures { result.now ≡ line_by_operator kind text.now }
{
    match OperatorEntry::of(kind, text) {
        None => &[],
        Some(entry) => entry.operator.line(),
    }
}

/// The line of a kind, at this place and with this text.
pub fn line(place: Choice, kind: Kind, text: &[u8]) -> &'static [Piece]
    ensures { result.now ≡ line place kind text.now }
{
    match kind {
        Kind::Select => select_line(place),
        Kind::Unary if place == Choice::Coefficient => expressions::COEFFICIENT,
        Kind::Binary | Kind::Unary | Kind::Member | Kind::Make => { line_by_operator(kind, text) }
        _ => LINES[kind as usize].1,
    }
}
