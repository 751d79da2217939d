// The values of static expressions, and whether they lie in a sort.
ghost use Rattle.std.specs.Prelude.{◌≡◌, true, IfOk};
ghost use Rattle.term_core.specs.Sorts.{has_number};
ghost use Rattle.term_core.specs.declared.sort.Sort.TheViews.{out-Sort};
ghost use Rattle.static_values.specs.Judging.{Gives};
ghost use Rattle.static_values.specs.Syntax.{expr_of};
ghost use Rattle.static_values.specs.Rules.{value_of, in_base};
ghost use Rattle.static_values.specs.Entities.{world};
ghost use Rattle.static_values.specs.Expressions as walk;

use crate::expressions::expression;
use crate::meaning::Use;
use crate::naming::Entities;
use ada_tree::{Lookup, Node};
use base_kit::{Path, Stop};
use std::alloc::Global;
use term_core::Sort;

/// The value of a static expression that stands at the path; else its first fault in post-order, and of one
/// node's faults the one of the least code. An enumeration literal has its position, FALSE is 0, TRUE is 1.
#[tactic(auto, using(crate::proofs::Statics::has_value, crate::proofs::Ranges::lies))]
pub fn static_value<N: Lookup>(
    alloc: Global,
    entities: &Entities,
    names: &N,
    expr: &Node,
    at: &Path,
) -> Result<i64, Stop>
    ensures answer { Gives
        (walk.faults (world (N.sight names.now) entities.now) Use.Static at.now
        (expr_of expr.now))
        (value_of
        (walk.meaning (world (N.sight names.now) entities.now) at.now (expr_of expr.now)))
        result }
    ensures it_is_there { IfOk result (λ v.
        (walk.meaning (world (N.sight names.now) entities.now) at.now (expr_of expr.now)).value
        ≡ Some v) }
    ensures in_base { IfOk result (λ v. in_base v ≡ true) }
{
    let meaning = expression(alloc, names, entities, at, Use::Static, expr)?;
    match meaning.value {
        Some(value) => Ok(value),
        None => Ok(0),
    }
}

/// Whether a number lies in the sort: in its range, where it is one of numbers of a range.
pub fn in_range(value: i64, sort: &Sort) -> bool
    ensures { result ≡ has_number value (out-Sort sort.now) }
{
    match sort {
        Sort::Whole => true,
        Sort::Range(low, high) => *low <= value && value <= *high,
        _ => false,
    }
}
