// Files, library units and subprograms.
ghost use Rattle.std.specs.Prelude.{◌≡◌, map};
ghost use Rattle.reading_table.specs.Rows.{entry_now};

use crate::need::{BESIDE, FLAT, NOTHING, ON, ONE, ONE_OPENS, TEXT, TEXT_ON};
use crate::rows::Entry;
use crate::rule::Rule;
use crate::symbol::{Symbol, Tokens};
use ada_tree::{Kind, Mark, Side, Word};

pub static UNITS: [Entry; 31] = crate::rules! {
    Items Ada ON or(end_notes) { notes part(Item) noted join part(Items) }
    Item Ada FLAT { part(Unit) | part(Trait) | part(Proof) | part(Orphan) }
    Unit Ada FLAT { build(List 0) part(Clauses) part(Lib) build(Unit 2) }
    Clauses Ada ON or() { part(Clause) join part(Clauses) }
    Clause Ada ONE { part(With) | part(Use) }
    With Ada ONE { take(Word With) part(Names) take(Mark Semicolon) build(With 1) }
    Use Ada ONE { take(Word Use) part(Names) take(Mark Semicolon) build(Use 1) }
    Lib Ada FLAT { take(Word Package) part(PackRest) | part(Sub) }
    PackRest Ada FLAT { part(PackTail) | part(BodyTail) }
    PackTail Ada FLAT {
        keep(Name) take(Word Is) part(Decls) part(MaybePrivate) take(Word End) part(ClosePack)
            take(Mark Semicolon) build(Pack 3)
    }
    BodyTail Ada FLAT {
        take(Word Body) keep(Name) take(Word Is) part(Decls) take(Word End) part(CloseBody)
            take(Mark Semicolon) build(Body 2)
    }
    MaybePrivate Ada FLAT or(build(None 0)) { take(Word Private) part(Decls) }
    CloseBody Ada NOTHING or() { closing(1) }
    ClosePack Ada NOTHING or() { closing(2) }
    CloseSub Ada NOTHING or() { closing(3) }
    Decls Ada FLAT or(build(List 0) end_notes) { build(List 0) part(MoreDecls) }
    MoreDecls Ada ON or(end_notes) { notes part(Decl) noted join part(MoreDecls) }
    Sub Ada FLAT { part(Spec) part(SubTail) }
    SubTail Ada ON { part(SubDeclTail) | part(SubBodyTail) }
    SubDeclTail Ada ON { take(Mark Semicolon) part(MaybeWhere) build(SubDecl 2) }
    SubBodyTail Ada BESIDE {
        part(MaybeWhere) take(Word Is) part(Decls) take(Word Begin) part(Seq) take(Word End)
            part(CloseSub) recall(3) take(Mark Semicolon) build(SubBody 5)
    }
    MaybeWhere Ada FLAT or(build(None 0)) { part(Where) }
    Spec Ada FLAT { part(Proc) | part(Func) }
    Proc Ada FLAT { take(Word Procedure) keep(Name) part(MaybeFormals) build(Proc 2) }
    Func Ada ONE {
        take(Word Function) keep(Name) part(MaybeFormals) take(Word Return) part(Mark)
            build(Func 3)
    }
    MaybeFormals Ada FLAT or(build(None 0)) { part(Formals) }
    Formals Ada ONE_OPENS {
        take(Mark Open) build(List 0) part(Formal) join part(MoreFormals) take(Mark Close)
            build(Formals 1)
    }
    MoreFormals Ada ON or() { take(Mark Semicolon) part(Formal) join part(MoreFormals) }
    Formal Ada ONE { part(Ids) take(Mark Colon) part(Mode) part(Mark) build(Formal 3) }
    Mode Ada TEXT or(say(In)) { keep(Word In) part(ModeOut) | keep(Word Out) }
    ModeOut Ada TEXT_ON or() { keep(Word Out) paste(b' ') }
};

/// The entries of these rules, in order.
pub fn entries() -> &'static [Entry]
    ensures { map entry_now result.now ≡ UNITS }
{
    &UNITS
}
