// Declarations.
ghost use Rattle.std.specs.Prelude.{◌≡◌, map};
ghost use Rattle.reading_table.specs.Rows.{entry_now};

use crate::need::{BESIDE, FLAT, FLAT_OPENS, NAMED, ON, ONE, ONE_OPENS};
use crate::rows::Entry;
use crate::rule::Rule;
use crate::symbol::{Symbol, Tokens};
use ada_tree::{Kind, Mark, Side, Word};

pub static DECLARATIONS: [Entry; 25] = crate::rules! {
    Decl Ada FLAT {
        part(Ids) take(Mark Colon) part(IdsRest)
        | part(Type)
        | part(Subtype)
        | part(View)
        | part(Sub)
        | part(Use)
    }
    IdsRest Ada ON {
        take(Word Constant) part(ConstRest)
        | take(Word Exception) take(Mark Semicolon) build(Exc 1)
        | part(ObjTail)
    }
    ConstRest Ada BESIDE { part(NumTail) | part(ConstTail) }
    ObjTail Ada BESIDE { part(Mark) part(MaybeRange) part(MaybeInit) take(Mark Semicolon) build(Obj 4) }
    ConstTail Ada BESIDE {
        part(Mark) part(MaybeRange) take(Mark Becomes) part(Expr) take(Mark Semicolon)
            build(Const 4)
    }
    NumTail Ada BESIDE { take(Mark Becomes) part(Expr) take(Mark Semicolon) build(Num 2) }
    MaybeRange Ada FLAT or(build(None 0)) { part(Range) }
    MaybeInit Ada FLAT or(build(None 0)) { take(Mark Becomes) part(Expr) }
    Range Ada ONE { take(Word Range) part(Sum) take(Mark Dots) part(Sum) build(Range 2) }
    Type Ada FLAT { take(Word Type) keep(Name) take(Word Is) part(TypeRest) }
    TypeRest Ada NAMED { part(PrivateTail) | part(TypeTail) }
    TypeTail Ada NAMED { part(Tdef) take(Mark Semicolon) build(TypeDecl 2) }
    PrivateTail Ada NAMED { take(Word Private) take(Mark Semicolon) part(MaybeBased) build(Private 2) }
    MaybeBased Ada FLAT or(build(None 0)) { part(Based) }
    Tdef Ada FLAT { part(Enum) | part(Range) | part(Arr) | part(Rec) }
    Enum Ada FLAT_OPENS { take(Mark Open) part(Ids) take(Mark Close) build(Enum 1) }
    Arr Ada ONE_OPENS {
        take(Word Array) take(Mark Open) part(Dis) take(Mark Close) take(Word Of) part(Mark)
            build(Arr 2)
    }
    Rec Ada ONE {
        take(Word Record) build(List 0) part(Comp) join part(MoreComps) take(Word End)
            take(Word Record) build(Rec 1)
    }
    MoreComps Ada ON or() { part(Comp) join part(MoreComps) }
    Comp Ada ONE { part(Ids) take(Mark Colon) part(Mark) take(Mark Semicolon) build(Comp 2) }
    Subtype Ada ONE {
        take(Word Subtype) keep(Name) take(Word Is) part(Mark) part(MaybeRange)
            take(Mark Semicolon) build(Subtype 3)
    }
    Dis Ada ONE {
        part(Name) part(DisName)
        | part(SignedFirst) part(SumTail) part(ToSpan)
        | part(Absolute) part(ProductTail) part(SumTail) part(ToSpan)
        | part(NoName) part(PrefixTail) part(ProductTail) part(SumTail) part(ToSpan)
    }
    DisName Ada ON or() {
        take(Mark Dot) part(Text) build(Select 2) part(DisName)
        | take(Mark Tick) part(DisTick)
        | take(Mark Open) part(Args) take(Mark Close) build(Apply 2) part(PrefixTail)
            part(ProductTail) part(SumTail) part(ToSpan)
        | keep(Multiplying) part(Factor) build(Binary 3) part(ProductTail) part(SumTail)
            part(ToSpan)
        | keep(Adding) part(Signed) build(Binary 3) part(SumTail) part(ToSpan)
        | part(ToSpan)
    }
    DisTick Ada ON {
        take(Word Range) build(RangeOf 1)
        | part(Text) build(Attr 2) part(PrefixTail) part(ProductTail) part(SumTail) part(ToSpan)
    }
    ToSpan Ada BESIDE { take(Mark Dots) part(Sum) build(Span 2) }
};

/// The entries of these rules, in order.
pub fn entries() -> &'static [Entry]
    ensures { map entry_now result.now ≡ DECLARATIONS }
{
    &DECLARATIONS
}
