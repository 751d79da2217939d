// Expressions of one kind, for texts of one node.
ghost use Rattle.std.specs.Prelude.{◌≡◌, map};
ghost use Rattle.reading_table.specs.Rows.{entry_now};

use crate::need::{ON, ROUND, ROUND_TWO, ROUND_TWO_OPENS, TWO};
use crate::rows::Entry;
use crate::rule::Rule;
use crate::symbol::{Symbol, Tokens};
use ada_tree::{Kind, Mark, Side, Word};

pub static NODES: [Entry; 15] = crate::rules! {
    OfBinary Both TWO { part(SignedFirst) part(MustSum) | part(Factor) part(MustProduct) }
    MustProduct Both ROUND_TWO {
        keep(Multiplying) part(Factor) build(Binary 3) part(ProductTail) part(SumTail)
            part(BinaryEnd)
        | part(MustSum)
    }
    MustSum Both ROUND_TWO {
        keep(Adding) part(Signed) build(Binary 3) part(SumTail) part(BinaryEnd)
        | part(MustRel)
    }
    MustRel Both ROUND_TWO {
        keep(Relational) part(Sum) build(Binary 3) part(BinaryLog)
        | [Ada] keep(Word In) part(Dis) build(Member 3) part(LogRow)
        | [Ada] keep(Word Not) keep(Word In) paste(b' ') part(Dis) build(Member 3) part(LogRow)
        | part(MustLog)
    }
    MustLog Both ROUND_TWO {
        [Ada] part(LogRow)
        | [Note] part(LogRow) part(ImpliesTail) part(IffTail)
        | [Note] keep(Word Implies) part(Implication) build(Binary 3) part(IffTail)
        | [Note] keep(Word Iff) part(Implication) build(Binary 3)
    }
    BinaryEnd Both ON or() {
        keep(Relational) part(Sum) build(Binary 3) part(BinaryLog)
        | [Ada] keep(Word In) part(Dis) build(Member 3) part(LogRow)
        | [Ada] keep(Word Not) keep(Word In) paste(b' ') part(Dis) build(Member 3) part(LogRow)
        | part(BinaryLog)
    }
    BinaryLog Both ON or() {
        [Ada] part(LogTail)
        | [Note] part(LogTail) part(ImpliesTail) part(IffTail)
    }
    OfUnary Both TWO { part(SignedFirst) | part(Absolute) }
    MemberTail Ada ROUND_TWO {
        keep(Word In) part(Dis) build(Member 3)
        | keep(Word Not) keep(Word In) paste(b' ') part(Dis) build(Member 3)
    }
    ToSelect Both ROUND {
        take(Mark Dot) part(Text) build(Select 2) part(WasSelect)
        | take(Mark Tick) part(Text) build(Attr 2) part(ToSelect)
        | take(Mark Open) part(Args) take(Mark Close) build(Apply 2) part(ToSelect)
    }
    WasSelect Both ON or() { part(ToSelect) }
    ToAttr Both ROUND {
        take(Mark Dot) part(Text) build(Select 2) part(ToAttr)
        | take(Mark Tick) part(Text) build(Attr 2) part(WasAttr)
        | take(Mark Open) part(Args) take(Mark Close) build(Apply 2) part(ToAttr)
    }
    WasAttr Both ON or() { part(ToAttr) }
    ToApply Both ROUND_TWO_OPENS {
        take(Mark Dot) part(Text) build(Select 2) part(ToApply)
        | take(Mark Tick) part(Text) build(Attr 2) part(ToApply)
        | take(Mark Open) part(Args) take(Mark Close) build(Apply 2) part(WasApply)
    }
    WasApply Both ON or() { part(ToApply) }
};

/// The entries of these rules, in order.
pub fn entries() -> &'static [Entry]
    ensures { map entry_now result.now ≡ NODES }
{
    &NODES
}
