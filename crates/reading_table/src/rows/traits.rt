// Traits.
ghost use Rattle.std.specs.Prelude.{◌≡◌, map};
ghost use Rattle.reading_table.specs.Rows.{entry_now};

use crate::need::{
    BEHIND_FIVE, BEHIND_FOUR, BEHIND_FOUR_NAMED, BEHIND_SEVEN, BEHIND_SIX, BEHIND_THREE, BESIDE,
    FLAT, ON, ONE,
};
use crate::rows::Entry;
use crate::rule::Rule;
use crate::symbol::{Symbol, Tokens};
use ada_tree::{Kind, Mark, Side, Word};

pub static TRAITS: [Entry; 24] = crate::rules! {
    Trait Note FLAT {
        take(Word Trait) part(Text) take(Word Is) build(List 0) part(Incls) part(MaybeOps)
            build(List 0) part(Gens) part(TraitAsserts)
    }
    Incls Note ON or() { part(Incl) join part(Incls) }
    Incl Note ONE { take(Word Includes) part(Name) take(Mark Semicolon) build(Incl 1) }
    MaybeOps Note FLAT or(build(List 0)) { take(Word Introduces) build(List 0) part(Op) join part(Ops) }
    Ops Note ON or() { part(Op) join part(Ops) }
    Op Note ONE {
        part(Text) take(Mark Colon) part(MaybeMarks) take(Mark To) part(Mark) take(Mark Semicolon)
            build(Op 3)
    }
    MaybeMarks Note FLAT or(build(List 0)) { part(Marks) }
    Gens Note ON or() { part(Gen) join part(Gens) }
    Gen Note ONE {
        take(Word Generated) part(Text) take(Word By) part(Names) take(Mark Semicolon) build(Gen 2)
    }
    TraitAsserts Note BEHIND_THREE {
        take(Word Asserts) build(List 0) part(AssertsRest)
        | build(List 0) build(List 0) part(TraitImplies)
    }
    AssertsRest Note BEHIND_FOUR {
        take(Word For) take(Word All) part(ForAll)
        | part(EqnStart) part(EqnTail) build(List 1) part(Eqns) part(TraitImplies)
    }
    ForAll Note BEHIND_FOUR { part(Text) part(ForAllRest) }
    ForAllRest Note BEHIND_FOUR_NAMED {
        build(Id 1) build(List 1) part(MoreIds) take(Mark Colon) part(Mark) build(Vars 2) join
            part(MoreVars) build(List 0) part(Eqns) part(TraitImplies)
        | part(AllTail) part(EqnTail) build(List 1) part(Eqns) part(TraitImplies)
    }
    EqnStart Note ONE { part(NoAll) | part(Sum) part(SumTails) }
    EqnTail Note BESIDE { take(Mark DoubleEqual) part(Expr) take(Mark Semicolon) build(Eqn 2) }
    Eqns Note ON or() { part(Eqn) join part(Eqns) }
    Eqn Note ONE { part(Expr) part(EqnTail) }
    TraitImplies Note BEHIND_FIVE {
        take(Word Implies) build(List 0) part(ImpliesRest)
        | build(List 0) build(List 0) part(TraitEnd)
    }
    ImpliesRest Note BEHIND_SIX {
        take(Word For) take(Word All) part(Vars) join part(MoreVars) build(List 0) part(Lemmas)
            part(TraitEnd)
        | part(Lemma) build(List 1) part(Lemmas) part(TraitEnd)
    }
    TraitEnd Note BEHIND_SEVEN { take(Word End) take(Word Trait) take(Mark Semicolon) build(Trait 8) }
    Vars Note ONE { part(Ids) take(Mark Colon) part(Mark) build(Vars 2) }
    MoreVars Note ON or() { take(Mark Semicolon) part(Vars) join part(MoreVars) }
    Lemmas Note ON or() { part(Lemma) join part(Lemmas) }
    Lemma Note ONE { part(Text) take(Mark Colon) part(Expr) take(Mark Semicolon) build(Lemma 2) }
};

/// The entries of these rules, in order.
pub fn entries() -> &'static [Entry]
    ensures { map entry_now result.now ≡ TRAITS }
{
    &TRAITS
}
