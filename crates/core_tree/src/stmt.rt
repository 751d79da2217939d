// Statements of the core.
ghost use Rattle.std.specs.Prelude.{◌≡◌, IfOk};

use crate::{CoreExpr, Exprs};
use ada_tree::DeclId;
use base_kit::{Bounds, Copied, Listed, Memory, Numbers};
use sqlite_items::Items;
use std::alloc::Global;
use term_core::Term;

/// The initial value of an object, by the object's number among the unit's objects, from 0.
#[derive(Drop)]
pub struct Init {
    pub object: u32,
    pub value: CoreExpr,
}

impl Copied for Init {
    fn copy(&self, alloc: Global) -> Result<Self, Memory> {
        Ok(Init {
            object: self.object,
            value: self.value.copy(alloc)?,
        })
    }
}

/// Initial values in the order of the declarations.
pub type Inits = Listed<Init>;

/// A statement of a unit.
#[cycle(core)]
#[derive(Drop)]
pub enum CoreStmt {
    Null,
    /// The target, a part of an object, and the value.
    Assign(CoreExpr, CoreExpr),
    /// A procedure's call: its number in text order of the body, from 1; the unit; an actual for each formal.
    Call(u32, DeclId, Exprs),
    /// The condition, the statements where it holds, and those where it doesn't. (`exit when C;` is one, too.)
    If(CoreExpr, Block, Block),
    Case(CoreExpr, Alts),
    /// The loop's number in text order of the body, from 1; the invariant; the statements.
    Loop(u32, Term, Block),
    /// The number, the condition, the invariant and the statements.
    While(u32, CoreExpr, Term, Block),
    /// The number, the parameter's object, whether it is `reverse`, the low and the high bound, the invariant, the statements.
    For(u32, u32, bool, CoreExpr, CoreExpr, Term, Block),
    /// Initial values of declared objects, the statements, and the handlers.
    Block(Inits, Block, Handlers),
    /// Leaves the innermost loop.
    Exit,
    /// The value is a function's.
    Return(Option<CoreExpr>),
    /// The exception's number among all exceptions, from 0; none in a handler that raises the handled one again.
    Raise(Option<u32>),
    /// The number in text order of the body, from 1, and what is to hold.
    Assert(u32, Term),
}

/// Statements in order.
pub type Block = Items<CoreStmt>;

/// An alternative of a `case`: it is taken where the value lies in one of its ranges, the k-th from the k-th low bound to the
/// k-th high one. One without ranges is `others`.
#[cycle(core)]
#[derive(Drop)]
pub struct Alt {
    pub low: Bounds,
    pub high: Bounds,
    pub body: Block,
}

/// Alternatives in order.
pub type Alts = Items<Alt>;

/// A handler: the numbers of the exceptions that it names, and its statements. One without numbers is `others`.
#[cycle(core)]
#[derive(Drop)]
pub struct Handler {
    pub exceptions: Numbers,
    pub body: Block,
}

/// Handlers in order.
pub type Handlers = Items<Handler>;

// The copy of a function's value, or of none.
fn copy_value(value: &Option<CoreExpr>, alloc: Global) -> Result<Option<CoreExpr>, Memory>
    ensures { IfOk result (λ same. same ≡ value.now) }
{
    Ok(match value {
        Some(value) => Some(value.copy(alloc)?),
        None => None,
    })
}

// The copy of statements inside another: the generic copy of a list can't be part of the recursion.
#[cycle(copy_stmt)]
fn copy_block(block: &Block, alloc: Global) -> Result<Block, Memory>
    ensures { IfOk result (λ same. same ≡ block.now) }
{
    let mut stmts = Items::new(alloc);
    for stmt in block.as_slice() {
        stmts.push(stmt.copy(alloc)?)?;
    }
    Ok(stmts)
}

#[cycle(copy_stmt)]
fn copy_alts(from: &Alts, alloc: Global) -> Result<Alts, Memory>
    ensures { IfOk result (λ same. same ≡ from.now) }
{
    let mut alts = Items::new(alloc);
    for alt in from.as_slice() {
        alts.push(alt.copy(alloc)?)?;
    }
    Ok(alts)
}

#[cycle(copy_stmt)]
fn copy_handlers(from: &Handlers, alloc: Global) -> Result<Handlers, Memory>
    ensures { IfOk result (λ same. same ≡ from.now) }
{
    let mut handlers = Items::new(alloc);
    for handler in from.as_slice() {
        handlers.push(handler.copy(alloc)?)?;
    }
    Ok(handlers)
}

impl Copied for Alt {
    #[cycle(copy_stmt)]
    fn copy(&self, alloc: Global) -> Result<Self, Memory> {
        Ok(Alt {
            low: self.low.copy(alloc)?,
            high: self.high.copy(alloc)?,
            body: copy_block(&self.body, alloc)?,
        })
    }
}

impl Copied for Handler {
    #[cycle(copy_stmt)]
    fn copy(&self, alloc: Global) -> Result<Self, Memory> {
        Ok(Handler {
            exceptions: self.exceptions.copy(alloc)?,
            body: copy_block(&self.body, alloc)?,
        })
    }
}

impl Copied for CoreStmt {
    #[cycle(copy_stmt)]
    fn copy(&self, alloc: Global) -> Result<Self, Memory> {
        Ok(match self {
            CoreStmt::Null => CoreStmt::Null,
            CoreStmt::Assign(target, value) => {
                CoreStmt::Assign(target.copy(alloc)?, value.copy(alloc)?)
            }
            CoreStmt::Call(number, unit, actuals) => {
                CoreStmt::Call(*number, *unit, actuals.copy(alloc)?)
            }
            CoreStmt::If(condition, yes, no) => CoreStmt::If(
                condition.copy(alloc)?,
                copy_block(yes, alloc)?,
                copy_block(no, alloc)?,
            ),
            CoreStmt::Case(value, alts) => {
                CoreStmt::Case(value.copy(alloc)?, copy_alts(alts, alloc)?)
            }
            CoreStmt::Loop(number, invariant, body) => {
                CoreStmt::Loop(*number, invariant.copy(alloc)?, copy_block(body, alloc)?)
            }
            CoreStmt::While(number, condition, invariant, body) => CoreStmt::While(
                *number,
                condition.copy(alloc)?,
                invariant.copy(alloc)?,
                copy_block(body, alloc)?,
            ),
            CoreStmt::For(number, object, reverse, low, high, invariant, body) => CoreStmt::For(
                *number,
                *object,
                *reverse,
                low.copy(alloc)?,
                high.copy(alloc)?,
                invariant.copy(alloc)?,
                copy_block(body, alloc)?,
            ),
            CoreStmt::Block(inits, body, handlers) => CoreStmt::Block(
                inits.copy(alloc)?,
                copy_block(body, alloc)?,
                copy_handlers(handlers, alloc)?,
            ),
            CoreStmt::Exit => CoreStmt::Exit,
            CoreStmt::Return(value) => CoreStmt::Return(copy_value(value, alloc)?),
            CoreStmt::Raise(exception) => CoreStmt::Raise(*exception),
            CoreStmt::Assert(number, term) => CoreStmt::Assert(*number, term.copy(alloc)?),
        })
    }
}
