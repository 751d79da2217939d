// Annotations.
ghost use Rattle.std.specs.Prelude.{◌≡◌, map};
ghost use Rattle.reading_table.specs.Rows.{entry_now};

use crate::need::{FLAT, ON, ONE, TEXT, TEXT_ON, TWO};
use crate::rows::Entry;
use crate::rule::Rule;
use crate::symbol::{Symbol, Tokens};
use ada_tree::{Kind, Mark, Side, Word};

pub static ANNOTATIONS: [Entry; 14] = crate::rules! {
    Where Note FLAT {
        take(Word Where) build(List 0) part(Wclauses) take(Word End) take(Word Where)
            take(Mark Semicolon) build(Where 1)
    }
    Wclauses Note ON or() { part(Wclause) join part(Wclauses) }
    Wclause Note ONE { part(Global) | part(In) | part(Out) | part(RaiseC) }
    Global Note ONE {
        take(Word Global) part(GlobalMode) part(Marks) take(Mark Semicolon) build(Global 2)
    }
    GlobalMode Note TEXT or(say(In)) { keep(Word In) part(GlobalOut) }
    GlobalOut Note TEXT_ON or() { keep(Word Out) paste(b' ') }
    In Note ONE { take(Word In) part(Expr) take(Mark Semicolon) build(In 1) }
    Out Note ONE { take(Word Out) part(Expr) take(Mark Semicolon) build(Out 1) }
    RaiseC Note ONE {
        take(Word Raise) part(Mark) take(Mark Arrow) part(Expr) take(Mark Semicolon)
            build(RaiseC 2)
    }
    Based Note ONE { take(Word Based) take(Word On) part(Mark) take(Mark Semicolon) build(Based 1) }
    View Note ONE {
        take(Word View) part(Text) take(Word Of) part(Name) take(Word Is) part(Expr)
            part(ViewInvariant) take(Mark Semicolon) build(View 4)
    }
    ViewInvariant Note FLAT or(build(None 0)) { take(Word Invariant) part(Expr) }
    Invariant Note ONE { take(Word Invariant) part(Expr) take(Mark Semicolon) build(Invariant 1) }
    Assert Note TWO { take(Word Assert) part(Expr) take(Mark Semicolon) build(Assert 1) }
};

/// The entries of these rules, in order.
pub fn entries() -> &'static [Entry]
    ensures { map entry_now result.now ≡ ANNOTATIONS }
{
    &ANNOTATIONS
}
