// The units that a unit calls.
ghost use Rattle.std.specs.Prelude.{◌≡◌, map, true, IfOk, OnOk};
ghost use Rattle.core_tree.specs.Marks.{in_stmt, rises, AreMentioned};
ghost use Rattle.core_tree.specs.Trees.{expr_of, exprs_from, starts_of, value_of, stmt_of, stmts_from, alt_of, choices_from, handler_of, catches_from};
ghost use Rattle.core_tree.specs.Once.{with_expr, with_exprs, with_starts, with_value, with_stmt, with_stmts, with_choices, with_catches, once, IsSame};

use crate::{Alts, Block, CoreExpr, CoreStmt, CoreUnit, Exprs, Handlers, Init};
use ada_tree::DeclId;
use base_kit::Memory;
use std::alloc::Global;

// Adds the numbers of the units that the calls in an expression name, in text order.
#[cycle(add_expr)]
fn add_expr(expr: &CoreExpr, ids: &mut Vec<u32>) -> Result<(), Memory>
    ensures { OnOk result
        (ids.new.items ≡ with_expr ids.old.items (expr_of expr.now)) }
{
    match expr {
        CoreExpr::Lit(_) => Ok(()),
        CoreExpr::Truth(_) => Ok(()),
        CoreExpr::Get(_) => Ok(()),
        CoreExpr::Given(_) => Ok(()),
        CoreExpr::Select(array, index) => {
            add_expr(array.get(), ids)?;
            add_expr(index.get(), ids)
        }
        CoreExpr::Field(record, _) => add_expr(record.get(), ids),
        CoreExpr::Unary(_, operand) => add_expr(operand.get(), ids),
        CoreExpr::Binary(_, left, right) => {
            add_expr(left.get(), ids)?;
            add_expr(right.get(), ids)
        }
        CoreExpr::AndThen(left, right) => {
            add_expr(left.get(), ids)?;
            add_expr(right.get(), ids)
        }
        CoreExpr::OrElse(left, right) => {
            add_expr(left.get(), ids)?;
            add_expr(right.get(), ids)
        }
        CoreExpr::Within(value, low, high) => {
            add_expr(value.get(), ids)?;
            add_expr(low.get(), ids)?;
            add_expr(high.get(), ids)
        }
        CoreExpr::Succ(value, _) => add_expr(value.get(), ids),
        CoreExpr::Pred(value, _, _) => add_expr(value.get(), ids),
        CoreExpr::Pos(value) => add_expr(value.get(), ids),
        CoreExpr::Convert(value, _, _) => add_expr(value.get(), ids),
        CoreExpr::Call(_, unit, actuals) => {
            ids.push(unit.0)?;
            add_exprs(actuals, ids)
        }
        CoreExpr::Fill(_, value) => add_expr(value.get(), ids),
        CoreExpr::Put(array, _, value) => {
            add_expr(array.get(), ids)?;
            add_expr(value.get(), ids)
        }
        CoreExpr::Make(_, parts) => add_exprs(parts, ids),
        CoreExpr::Aggregate(values, shape) => {
            add_exprs(values, ids)?;
            add_expr(shape.get(), ids)
        }
    }
}

#[cycle(add_expr)]
fn add_exprs(exprs: &Exprs, ids: &mut Vec<u32>) -> Result<(), Memory>
    ensures { OnOk result
        (ids.new.items
        ≡ with_exprs ids.old.items (exprs_from (map expr_of exprs.now))) }
{
    for expr in exprs.as_slice() {
        add_expr(expr, ids)?;
    }
    Ok(())
}

// Those in initial values.
fn add_inits(inits: &[Init], ids: &mut Vec<u32>) -> Result<(), Memory>
    ensures { OnOk result
        (ids.new.items ≡ with_starts ids.old.items (starts_of inits.now)) }
{
    for init in inits {
        add_expr(&init.value, ids)?;
    }
    Ok(())
}

fn add_value(value: &Option<CoreExpr>, ids: &mut Vec<u32>) -> Result<(), Memory>
    ensures { OnOk result
        (ids.new.items ≡ with_value ids.old.items (value_of value.now)) }
{
    match value {
        Some(value) => add_expr(value, ids),
        None => Ok(()),
    }
}

// Those in a statement.
#[cycle(add_stmt)]
fn add_stmt(stmt: &CoreStmt, ids: &mut Vec<u32>) -> Result<(), Memory>
    ensures { OnOk result
        (ids.new.items ≡ with_stmt ids.old.items (stmt_of stmt.now)) }
{
    match stmt {
        CoreStmt::Null => Ok(()),
        CoreStmt::Assign(target, value) => {
            add_expr(target, ids)?;
            add_expr(value, ids)
        }
        CoreStmt::Call(_, unit, actuals) => {
            ids.push(unit.0)?;
            add_exprs(actuals, ids)
        }
        CoreStmt::If(condition, yes, no) => {
            add_expr(condition, ids)?;
            add_block(yes, ids)?;
            add_block(no, ids)
        }
        CoreStmt::Case(value, alts) => {
            add_expr(value, ids)?;
            add_alts(alts, ids)
        }
        CoreStmt::Loop(_, _, body) => add_block(body, ids),
        CoreStmt::While(_, condition, _, body) => {
            add_expr(condition, ids)?;
            add_block(body, ids)
        }
        CoreStmt::For(_, _, _, low, high, _, body) => {
            add_expr(low, ids)?;
            add_expr(high, ids)?;
            add_block(body, ids)
        }
        CoreStmt::Block(inits, body, handlers) => {
            add_inits(inits.as_slice(), ids)?;
            add_block(body, ids)?;
            add_handlers(handlers, ids)
        }
        CoreStmt::Exit => Ok(()),
        CoreStmt::Return(value) => add_value(value, ids),
        CoreStmt::Raise(_) => Ok(()),
        CoreStmt::Assert(_, _) => Ok(()),
    }
}

#[cycle(add_stmt)]
fn add_block(block: &Block, ids: &mut Vec<u32>) -> Result<(), Memory>
    ensures { OnOk result
        (ids.new.items
        ≡ with_stmts ids.old.items (stmts_from (map stmt_of block.now))) }
{
    for stmt in block.as_slice() {
        add_stmt(stmt, ids)?;
    }
    Ok(())
}

#[cycle(add_stmt)]
fn add_alts(alts: &Alts, ids: &mut Vec<u32>) -> Result<(), Memory>
    ensures { OnOk result
        (ids.new.items
        ≡ with_choices ids.old.items (choices_from (map alt_of alts.now))) }
{
    for alt in alts.as_slice() {
        add_block(&alt.body, ids)?;
    }
    Ok(())
}

#[cycle(add_stmt)]
fn add_handlers(handlers: &Handlers, ids: &mut Vec<u32>) -> Result<(), Memory>
    ensures { OnOk result
        (ids.new.items
        ≡ with_catches ids.old.items (catches_from (map handler_of handlers.now))) }
{
    for handler in handlers.as_slice() {
        add_block(&handler.body, ids)?;
    }
    Ok(())
}

// Each number once, where equal ones stand together.
fn each_once(alloc: Global, ids: &[u32]) -> Result<Vec<DeclId>, Memory>
    ensures { IfOk result (λ made. map (λ id. id.0) made.items ≡ once None ids.now) }
{
    let mut made = Vec::new(alloc);
    let mut last = None;
    for id in ids {
        if last != Some(*id) {
            made.push(DeclId(*id))?;
        }
        last = Some(*id);
    }
    Ok(made)
}

// Each number once, ascending.
#[tactic(auto, using(crate::proofs::Ascending::once_rises, crate::proofs::Ascending::same_once))]
fn ascending(alloc: Global, mut ids: Vec<u32>) -> Result<Vec<DeclId>, Memory>
    ensures rises { IfOk result (λ made. rises (map (λ id. id.0) made.items) ≡ true) }
    ensures same { IfOk result (λ made. IsSame (map (λ id. id.0) made.items) ids.items) }
{
    ids.sort_unstable();
    let made = each_once(alloc, &ids)?;
    Ok(made)
}

/// The numbers of the units that the calls in a unit's body name, ascending, each once.
#[tactic(auto, using(crate::proofs::Ascending::mentioned))]
pub fn mentions(alloc: Global, unit: &CoreUnit) -> Result<Vec<DeclId>, Memory>
    ensures mentioned { IfOk result
        (λ ids. AreMentioned (in_stmt (stmt_of unit.now.body)) ids.items) }
{
    let mut ids = Vec::new(alloc);
    add_stmt(&unit.body, &mut ids)?;
    let made = ascending(alloc, ids)?;
    Ok(made)
}
