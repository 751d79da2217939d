// Expressions and terms, by their levels.
ghost use Rattle.std.specs.Prelude.{◌≡◌, map};
ghost use Rattle.reading_table.specs.Rows.{entry_now};

use crate::need::{ON, ONE, OPERATOR, ROUND_TWO, TWO};
use crate::rows::Entry;
use crate::rule::Rule;
use crate::symbol::{Symbol, Tokens};
use ada_tree::{Kind, Side, Word};

pub static LEVELS: [Entry; 27] = crate::rules! {
    Expr Both ONE {
        [Ada] part(Sum) part(SumTails)
        | [Note] part(Quantified)
        | [Note] part(Sum) part(SumTails)
    }
    Quantified Note TWO { part(All) | part(NoAll) }
    NoAll Note TWO { part(Exists) | part(Cond) }
    SumTails Both ON or() {
        [Ada] part(RelTail) part(LogTail)
        | [Note] part(RelTail) part(LogTail) part(ImpliesTail) part(IffTail)
    }
    Rel Both ONE { part(Sum) part(RelTail) }
    RelTail Both ON or() {
        keep(Relational) part(Sum) build(Binary 3)
        | [Ada] keep(Word In) part(Dis) build(Member 3)
        | [Ada] keep(Word Not) keep(Word In) paste(b' ') part(Dis) build(Member 3)
    }
    LogTail Both ON or() { part(LogRow) }
    LogRow Both ROUND_TWO {
        keep(Word And) part(AndRest)
        | keep(Word Or) part(OrRest)
        | keep(Word Xor) part(Rel) build(Binary 3) part(XorTail)
    }
    AndRest Both OPERATOR {
        [Ada] keep(Word Then) paste(b' ') part(Rel) build(Binary 3) part(ThenTail)
        | part(Rel) build(Binary 3) part(AndTail)
    }
    OrRest Both OPERATOR {
        [Ada] keep(Word Else) paste(b' ') part(Rel) build(Binary 3) part(ElseTail)
        | part(Rel) build(Binary 3) part(OrTail)
    }
    AndTail Both ON or() { keep(Word And) part(Rel) build(Binary 3) part(AndTail) }
    OrTail Both ON or() { keep(Word Or) part(Rel) build(Binary 3) part(OrTail) }
    XorTail Both ON or() { keep(Word Xor) part(Rel) build(Binary 3) part(XorTail) }
    ThenTail Ada ON or() {
        keep(Word And) keep(Word Then) paste(b' ') part(Rel) build(Binary 3) part(ThenTail)
    }
    ElseTail Ada ON or() {
        keep(Word Or) keep(Word Else) paste(b' ') part(Rel) build(Binary 3) part(ElseTail)
    }
    Implication Note ONE { part(Rel) part(LogTail) part(ImpliesTail) }
    ImpliesTail Note ON or() { keep(Word Implies) part(Implication) build(Binary 3) }
    IffTail Note ON or() { keep(Word Iff) part(Implication) build(Binary 3) }
    Sum Both ONE { part(Signed) part(SumTail) }
    SumTail Both ON or() { keep(Adding) part(Signed) build(Binary 3) part(SumTail) }
    Signed Both ONE { part(SignedFirst) | part(Product) }
    SignedFirst Both TWO { keep(Adding) part(Product) build(Unary 2) }
    Product Both ONE { part(Factor) part(ProductTail) }
    ProductTail Both ON or() { keep(Multiplying) part(Factor) build(Binary 3) part(ProductTail) }
    Factor Both ONE { part(Absolute) | part(Primary) }
    Absolute Both TWO { keep(Highest) part(Primary) build(Unary 2) }
    Primary Both ONE { part(Prefix) | [Note] part(Old) }
};

/// The entries of these rules, in order.
pub fn entries() -> &'static [Entry]
    ensures { map entry_now result.now ≡ LEVELS }
{
    &LEVELS
}
