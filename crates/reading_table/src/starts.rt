// Where reading begins.
use crate::rule::Rule;
use crate::symbol::{Symbol, Tokens};
use ada_tree::{Kind, Mark, Word};

macro_rules! starts {
    ($($kind:ident $($symbol:ident ($($argument:tt)*))*;)*) => {
        [$((Kind::$kind, &[$($crate::symbol!($symbol $($argument)*)),*])),*]
    };
}

/// With which symbols the reading of one node of a kind begins, in the order of `Kind`. There are none
/// of a document, of a list and of what is left out, which aren't read by themselves.
pub const STARTS: [(Kind, &[Symbol]); 85] = starts! {
    Doc;
    File build(File 0) part(Items);
    Unit part(Unit);
    With part(With);
    Use part(Use);
    Pack take(Word Package) part(PackTail);
    Body take(Word Package) part(BodyTail);
    SubDecl part(Spec) part(SubDeclTail);
    SubBody part(Spec) part(SubBodyTail);
    Proc part(Proc);
    Func part(Func);
    Formals part(Formals);
    Formal part(Formal);
    Id part(Id);
    Name part(Name);
    Select part(Atom) part(ToSelect);
    Obj part(Ids) take(Mark Colon) part(ObjTail);
    Const part(Ids) take(Mark Colon) take(Word Constant) part(ConstTail);
    Num part(Ids) take(Mark Colon) take(Word Constant) part(NumTail);
    Range part(Range);
    TypeDecl take(Word Type) keep(Name) take(Word Is) part(TypeTail);
    Enum part(Enum);
    Arr part(Arr);
    Rec part(Rec);
    Comp part(Comp);
    Subtype part(Subtype);
    Exc part(Ids) take(Mark Colon) take(Word Exception) take(Mark Semicolon) build(Exc 1);
    Private take(Word Type) keep(Name) take(Word Is) part(PrivateTail);
    Span part(Sum) take(Mark Dots) part(Sum) build(Span 2);
    RangeOf part(Mark) take(Mark Tick) take(Word Range) build(RangeOf 1);
    Seq part(Seq);
    Handler part(Handler);
    Others part(Others);
    Choices part(ChoiceList);
    Null part(Null);
    Assign part(Expr) part(AssignTail);
    Call part(Expr) part(CallTail);
    If part(If);
    Elsif part(Elsif);
    Case part(Case);
    Alt part(Alt);
    Loop part(Loop);
    Block part(Block);
    Exit part(Exit);
    Return part(Return);
    Raise part(Raise);
    Assert part(Assert);
    While part(While);
    For take(Word For) keep(Name) take(Word In) part(ForTail);
    Reverse take(Word For) keep(Name) take(Word In) part(ReverseTail);
    Binary part(OfBinary);
    Unary part(OfUnary);
    Member part(Sum) part(MemberTail);
    Int part(Int);
    Apply part(Atom) part(ToApply);
    Attr part(Atom) part(ToAttr);
    Assoc part(Assoc);
    Aggr take(Mark Open) part(AggrInner);
    Where part(Where);
    Global part(Global);
    In part(In);
    Out part(Out);
    RaiseC part(RaiseC);
    Based part(Based);
    View part(View);
    Invariant part(Invariant);
    Old part(Old);
    Result take(Word Return) build(Result 0);
    All part(All);
    Exists part(Exists);
    Cond part(Cond);
    Make part(Make);
    Trait part(Trait);
    Incl part(Incl);
    Op part(Op);
    Gen part(Gen);
    Vars part(Vars);
    Eqn part(Eqn);
    Lemma part(Lemma);
    Proof part(Proof);
    Orphan part(Orphan);
    Key part(Key);
    Step part(Step);
    List;
    None;
};
