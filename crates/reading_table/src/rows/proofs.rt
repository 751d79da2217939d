// Proofs.
ghost use Rattle.std.specs.Prelude.{◌≡◌, map};
ghost use Rattle.reading_table.specs.Rows.{entry_now};

use crate::need::{FLAT, NAMED, ON, ONE, STEP, STEP_END, TEXT, TWICE_NAMED, TWO};
use crate::rows::Entry;
use crate::rule::Rule;
use crate::symbol::{Form, Symbol, Tokens};
use ada_tree::{Kind, Mark, Side, Word};

pub static PROOFS: [Entry; 20] = crate::rules! {
    Proof Note STEP {
        take(Word Proof) take(Word Of) part(Key) take(Word Is) part(Step) take(Word End)
            take(Word Proof) take(Mark Semicolon) build(Proof 2)
    }
    Orphan Note STEP {
        take(Word Orphan) take(Word Proof) take(Word Of) part(Key) take(Word Is) part(Step)
            take(Word End) take(Word Proof) take(Mark Semicolon) build(Orphan 2)
    }
    Key Note FLAT { keep(Name) part(KeyFirst) | take(Word Return) part(ReturnName) part(KeyLemma) }
    KeyFirst Note NAMED {
        take(Mark AtSign) keep(Name) lower paste(b'@') part(KeyLemma)
        | take(Mark Dot) part(KeyPart)
    }
    KeyLemma Note NAMED { take(Mark Dot) part(Text) paste(b'.') build(Key 1) }
    KeyPart Note NAMED {
        keep(Name) part(KeySecond)
        | keep(Word Entry) take(Mark Dot) keep(Number) paste(b'.') paste(b'.') build(Key 1)
        | take(Word Return) part(ReturnName) paste(b'.') build(Key 1)
    }
    KeySecond Note TWICE_NAMED or(paste(b'.') build(Key 1)) {
        take(Mark AtSign) keep(Name) lower paste(b'@') paste(b'.') build(Key 1)
        | take(Mark Dot) part(KeyThird)
    }
    KeyThird Note TWICE_NAMED {
        lower keep(Number) paste(b'.') paste(b'.') build(Key 1)
        | part(KeyLabel) take(Mark Dot) keep(Number) paste(b'.') paste(b'.') paste(b'.')
            build(Key 1)
    }
    KeyLabel Note TEXT { keep(Name) lower | keep(Word Entry) }
    Step Note STEP {
        keep(NameOf Plain) lower build(List 0) part(StepEnd)
        | keep(NameOf Number) lower build(List 0) part(Int) join part(StepEnd)
        | keep(NameOf Name) lower build(List 0) part(Name) join part(StepEnd)
        | keep(NameOf NumberTerm) lower build(List 0) part(Int) join part(Expr) join part(StepEnd)
        | keep(NameOf Term) lower build(List 0) part(Expr) join part(StepEnd)
        | keep(Word Range) build(List 0) part(Expr) join part(StepEnd)
        | keep(NameOf NumberName) lower build(List 0) part(Int) join part(Name) join part(StepEnd)
        | keep(NameOf NumberIn) lower build(List 0) part(Int) join part(InNumber) part(StepEnd)
        | keep(NameOf NameIn) lower build(List 0) part(Name) join part(InNumber) part(StepEnd)
        | keep(NameOf NameNames) lower build(List 0) part(Name) join part(MaybeNames) part(StepEnd)
        | keep(NameOf Coefficients) lower build(List 0) part(MaybeCoefficients) part(StepEnd)
        | keep(NameOf Lemma) lower build(List 0) part(LemmaName) join part(MaybeTerms)
            part(StepEnd)
    }
    StepEnd Note STEP_END or(build(None 0) build(Step 3)) { part(MaybeSteps) build(Step 3) }
    MaybeSteps Note FLAT or(build(None 0)) {
        take(Mark OpenBracket) build(List 0) part(Step) join part(MoreSteps)
            take(Mark CloseBracket)
    }
    MoreSteps Note ON or() { take(Mark Semicolon) part(Step) join part(MoreSteps) }
    InNumber Note ON or() { take(Word In) part(Int) join }
    MaybeNames Note ON or() { take(Mark Open) part(Name) join part(MoreNames) take(Mark Close) }
    MaybeTerms Note ON or() { take(Mark Open) part(Expr) join part(MoreExprs) take(Mark Close) }
    MaybeCoefficients Note ON or() {
        take(Mark Open) part(Coefficient) join part(MoreCoefficients) take(Mark Close)
    }
    MoreCoefficients Note ON or() { take(Mark Comma) part(Coefficient) join part(MoreCoefficients) }
    Coefficient Note ONE { part(Int) | keep(Mark Minus) part(Int) build(Unary 2) }
    LemmaName Note TWO { part(Name) take(Mark Dot) part(Text) build(Select 2) }
};

/// The entries of these rules, in order.
pub fn entries() -> &'static [Entry]
    ensures { map entry_now result.now ≡ PROOFS }
{
    &PROOFS
}
