// Operators with two operands, where both are static.
ghost use Rattle.std.specs.Prelude.{◌≡◌, pos, not, ◌||◌};
ghost use Rattle.term_core.specs.Operations.{quotient, remainder, modulus, is_zero, is_negative};
ghost use mathlib.Core.Bool.{beq};
ghost use Rattle.static_values.specs.Rules as spec;

use crate::entity::BaseType;
use crate::meaning::Meaning;
use crate::rules::{difference, fixed, overflow, product, sum, whole};
use ada_tree::Operator;

fn divides(operator: Operator) -> bool
    ensures { result ≡ spec.divides operator }
{
    match operator {
        Operator::Divide | Operator::Mod | Operator::Rem => true,
        _ => false,
    }
}

fn quotient(base: BaseType, left: i64, right: i64) -> Meaning
    requires { ¬ (right ≡ pos 0) }
    ensures { result ≡ spec.static base (quotient left right) }
{
    match left.checked_div(right) {
        Some(value) => fixed(base, value),
        None => overflow(base),
    }
}

fn remainder(base: BaseType, left: i64, right: i64) -> Meaning
    requires { ¬ (right ≡ pos 0) }
    ensures { result ≡ spec.static base (remainder left right) }
{
    fixed(base, left.wrapping_rem(right))
}

// Whether a rest hasn't the sign of the divisor.
fn differs(rest: i64, divisor: i64) -> bool
    ensures { result ≡ not (is_zero rest || beq (is_negative rest) (is_negative divisor)) }
{
    if rest == 0 {
        return false;
    }
    if rest < 0 { divisor >= 0 } else { divisor < 0 }
}

fn modulus(base: BaseType, left: i64, right: i64) -> Meaning
    requires { ¬ (right ≡ pos 0) }
    ensures { result ≡ spec.static base (modulus left right) }
{
    let rest = left.wrapping_rem(right);
    if differs(rest, right) {
        sum(base, rest, right)
    } else {
        fixed(base, rest)
    }
}

fn computed2(operator: Operator, base: BaseType, left: i64, right: i64) -> Meaning
    ensures { result ≡ spec.static2 operator base (Some left) (Some right) }
{
    if divides(operator) && right == 0 {
        return overflow(base);
    }
    match operator {
        Operator::Add => sum(base, left, right),
        Operator::Subtract => difference(base, left, right),
        Operator::Multiply => product(base, left, right),
        Operator::Divide => quotient(base, left, right),
        Operator::Mod => modulus(base, left, right),
        Operator::Rem => remainder(base, left, right),
        _ => fixed(base, left),
    }
}

/// What an arithmetic operator makes of these operands.
pub fn arithmetic(
    operator: Operator,
    base: BaseType,
    left: Option<i64>,
    right: Option<i64>,
) -> Meaning
    ensures { result ≡ spec.static2 operator base left right }
{
    match (left, right) {
        (Some(left), Some(right)) => computed2(operator, base, left, right),
        _ => whole(base),
    }
}
