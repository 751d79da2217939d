// Statements.
ghost use Rattle.std.specs.Prelude.{◌≡◌, map};
ghost use Rattle.reading_table.specs.Rows.{entry_now};

use crate::need::{FLAT, NAMED_ONE, ON, ONE, ROUND, ROUND_TWO, TWO};
use crate::rows::Entry;
use crate::rule::Rule;
use crate::symbol::{Symbol, Tokens};
use ada_tree::{Kind, Mark, Side, Word};

pub static STATEMENTS: [Entry; 34] = crate::rules! {
    Seq Ada ONE { part(Stmts) part(MaybeHandlers) build(Seq 2) }
    Stmts Ada ONE { build(List 0) notes part(Stmt) noted join part(MoreStmts) }
    MoreStmts Ada ON or(end_notes) { notes part(Stmt) noted join part(MoreStmts) }
    MaybeHandlers Ada FLAT or(build(None 0)) {
        take(Word Exception) build(List 0) notes part(Handler) noted join part(MoreHandlers)
    }
    MoreHandlers Ada ON or() { part(Handler) join part(MoreHandlers) }
    Handler Ada ONE { take(Word When) part(Choices) take(Mark Arrow) part(Stmts) build(Handler 2) }
    Stmt Ada ONE {
        part(Null)
        | part(If)
        | part(Case)
        | part(Loop)
        | part(Block)
        | part(Exit)
        | part(Return)
        | part(Raise)
        | part(Assert)
        | part(Expr) part(ExprStmt)
    }
    ExprStmt Ada ROUND { part(AssignTail) | part(CallTail) }
    Null Ada ONE { take(Word Null) take(Mark Semicolon) build(Null 0) }
    AssignTail Ada ROUND_TWO { take(Mark Becomes) part(Expr) take(Mark Semicolon) build(Assign 2) }
    CallTail Ada ROUND { take(Mark Semicolon) build(Call 1) }
    If Ada TWO {
        take(Word If) part(Expr) take(Word Then) part(Stmts) build(List 0) part(Elsifs)
            part(MaybeElse) take(Word End) take(Word If) take(Mark Semicolon) build(If 4)
    }
    Elsifs Ada ON or() { part(Elsif) join part(Elsifs) }
    Elsif Ada ONE { take(Word Elsif) part(Expr) take(Word Then) part(Stmts) build(Elsif 2) }
    MaybeElse Ada FLAT or(build(None 0)) { take(Word Else) part(Stmts) }
    Case Ada TWO {
        take(Word Case) part(Expr) take(Word Is) build(List 0) notes part(Alt) noted join
            part(MoreAlts) take(Word End) take(Word Case) take(Mark Semicolon) build(Case 2)
    }
    MoreAlts Ada ON or() { part(Alt) join part(MoreAlts) }
    Alt Ada ONE { take(Word When) part(Choices) take(Mark Arrow) part(Stmts) build(Alt 2) }
    Loop Ada TWO {
        part(MaybeHead) take(Word Loop) part(MaybeInvariant) part(Stmts) take(Word End)
            take(Word Loop) take(Mark Semicolon) build(Loop 3)
    }
    MaybeHead Ada FLAT or(build(None 0)) { part(Head) }
    MaybeInvariant Ada FLAT or(build(None 0)) { part(Invariant) }
    Head Ada ONE { part(While) | take(Word For) keep(Name) take(Word In) part(ForRest) }
    While Ada ONE { take(Word While) part(Expr) build(While 1) }
    ForRest Ada NAMED_ONE { part(ReverseTail) | part(ForTail) }
    ForTail Ada NAMED_ONE { part(Dis) build(For 2) }
    ReverseTail Ada NAMED_ONE { take(Word Reverse) part(Dis) build(Reverse 2) }
    Block Ada TWO {
        part(MaybeDeclare) take(Word Begin) part(Seq) take(Word End) take(Mark Semicolon)
            build(Block 2)
    }
    MaybeDeclare Ada FLAT or(build(None 0)) { take(Word Declare) part(Decls) }
    Exit Ada ONE { take(Word Exit) part(MaybeWhen) take(Mark Semicolon) build(Exit 1) }
    MaybeWhen Ada FLAT or(build(None 0)) { take(Word When) part(Expr) }
    Return Ada ONE { take(Word Return) part(MaybeExpr) take(Mark Semicolon) build(Return 1) }
    MaybeExpr Ada FLAT or(build(None 0)) { part(Expr) }
    Raise Ada ONE { take(Word Raise) part(MaybeMark) take(Mark Semicolon) build(Raise 1) }
    MaybeMark Ada FLAT or(build(None 0)) { part(Mark) }
};

/// The entries of these rules, in order.
pub fn entries() -> &'static [Entry]
    ensures { map entry_now result.now ≡ STATEMENTS }
{
    &STATEMENTS
}
