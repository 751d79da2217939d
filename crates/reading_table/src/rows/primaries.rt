// Primaries of expressions and terms.
ghost use Rattle.std.specs.Prelude.{◌≡◌, map};
ghost use Rattle.reading_table.specs.Rows.{entry_now};

use crate::need::{
    NAMED_ROUND, ON, ON_CLOSES, ONE, ONE_CLOSES, ROUND_CLOSES, ROUND_TWO_CLOSES, TEXT, TWO,
    TWO_CLOSES, TWO_OPENS,
};
use crate::rows::Entry;
use crate::rule::Rule;
use crate::symbol::{Symbol, Tokens};
use ada_tree::{Kind, Mark, Side, Word};

pub static PRIMARIES: [Entry; 22] = crate::rules! {
    Prefix Both ONE { part(Atom) part(PrefixTail) }
    PrefixTail Both ON or() {
        take(Mark Dot) part(Text) build(Select 2) part(PrefixTail)
        | take(Mark Tick) part(Text) build(Attr 2) part(PrefixTail)
        | take(Mark Open) part(Args) take(Mark Close) build(Apply 2) part(PrefixTail)
    }
    Atom Both ONE {
        [Ada] part(Name)
        | [Ada] part(NoName)
        | [Note] keep(Name) part(Joined) build(Name 1)
        | [Note] take(Word Return) part(ReturnTail)
        | [Note] part(Int)
        | [Note] take(Mark Open) part(Expr) take(Mark Close)
        | [Note] part(Make)
    }
    NoName Ada ONE { part(Int) | take(Mark Open) part(Inner) }
    ReturnTail Note ONE or(build(Result 0)) { part(ReturnName) build(Name 1) }
    ReturnName Note TEXT { take(Mark AtSign) say(Return) keep(Name) lower paste(b'@') }
    Int Both ONE { keep(Number) build(Int 1) }
    Inner Ada ONE_CLOSES {
        part(Others) take(Mark Arrow) part(Expr) build(Assoc 2) part(AggrTail)
        | part(Sum) part(InnerSum)
    }
    InnerSum Ada ON_CLOSES {
        take(Mark Dots) part(Sum) build(Span 2) part(AssocTail) part(AggrTail)
        | part(SumTails) part(InnerExpr)
    }
    InnerExpr Ada ON_CLOSES { take(Mark Close) | part(AggrRest) }
    AggrRest Ada ROUND_TWO_CLOSES {
        part(AssocTail) part(AggrTail)
        | build(List 1) take(Mark Comma) part(Arg) join part(MoreArgs) take(Mark Close)
            build(Aggr 1)
    }
    AggrTail Ada ROUND_CLOSES { build(List 1) part(MoreArgs) take(Mark Close) build(Aggr 1) }
    AggrInner Ada TWO_CLOSES {
        part(Others) take(Mark Arrow) part(Expr) build(Assoc 2) part(AggrTail)
        | part(Sum) part(AggrSum)
    }
    AggrSum Ada ROUND_TWO_CLOSES {
        take(Mark Dots) part(Sum) build(Span 2) part(AssocTail) part(AggrTail)
        | part(SumTails) part(AggrRest)
    }
    Old Note TWO { take(Word In) part(Mark) build(Old 1) }
    All Note TWO { take(Word For) take(Word All) part(Text) part(AllTail) }
    AllTail Note NAMED_ROUND {
        take(Word In) part(Expr) take(Mark Dots) part(Expr) take(Mark Colon) part(Expr)
            build(All 4)
    }
    Exists Note TWO {
        take(Word Exists) part(Text) take(Word In) part(Expr) take(Mark Dots) part(Expr)
            take(Mark Colon) part(Expr) build(Exists 4)
    }
    Cond Note TWO {
        take(Word If) part(Expr) take(Word Then) part(Expr) take(Word Else) part(Expr)
            build(Cond 3)
    }
    Make Note TWO_OPENS { keep(Maker) take(Mark Open) part(Exprs) take(Mark Close) build(Make 2) }
    Exprs Note ONE { build(List 0) part(Expr) join part(MoreExprs) }
    MoreExprs Note ON or() { take(Mark Comma) part(Expr) join part(MoreExprs) }
};

/// The entries of these rules, in order.
pub fn entries() -> &'static [Entry]
    ensures { map entry_now result.now ≡ PRIMARIES }
{
    &PRIMARIES
}
