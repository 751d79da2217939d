// Choices and arguments.
ghost use Rattle.std.specs.Prelude.{◌≡◌, map};
ghost use Rattle.reading_table.specs.Rows.{entry_now};

use crate::need::{BESIDE, FLAT, ON, ONE};
use crate::rows::Entry;
use crate::rule::Rule;
use crate::symbol::{Symbol, Tokens};
use ada_tree::{Kind, Mark, Side, Word};

pub static CHOICES: [Entry; 14] = crate::rules! {
    Choices Both FLAT { part(Others) | part(ChoiceList) }
    Others Both FLAT { take(Word Others) build(Others 0) }
    ChoiceList Both ONE { build(List 0) part(Choice) join part(MoreChoices) build(Choices 1) }
    MoreChoices Both ON or() { take(Mark Bar) part(Choice) join part(MoreChoices) }
    Choice Both ONE { part(Sum) part(ChoiceTail) | [Note] part(Quantified) }
    ChoiceTail Both ON or() { take(Mark Dots) part(Sum) build(Span 2) | part(SumTails) }
    Args Both ONE { build(List 0) part(Arg) join part(MoreArgs) }
    MoreArgs Both ON or() { take(Mark Comma) part(Arg) join part(MoreArgs) }
    Arg Both ONE {
        part(Others) take(Mark Arrow) part(Expr) build(Assoc 2)
        | part(Sum) part(ArgSum)
        | [Note] part(Quantified) part(ArgExpr)
    }
    ArgSum Both ON or() {
        take(Mark Dots) part(Sum) build(Span 2) part(AssocTail)
        | part(SumTails) part(ArgExpr)
    }
    ArgExpr Both ON or() { part(AssocTail) }
    AssocTail Both BESIDE {
        build(List 1) part(MoreChoices) build(Choices 1) take(Mark Arrow) part(Expr) build(Assoc 2)
    }
    Assoc Both ONE {
        part(Others) take(Mark Arrow) part(Expr) build(Assoc 2)
        | part(Sum) part(AssocSum)
        | [Note] part(Quantified) part(AssocTail)
    }
    AssocSum Both BESIDE {
        take(Mark Dots) part(Sum) build(Span 2) part(AssocTail)
        | part(SumTails) part(AssocTail)
    }
};

/// The entries of these rules, in order.
pub fn entries() -> &'static [Entry]
    ensures { map entry_now result.now ≡ CHOICES }
{
    &CHOICES
}
