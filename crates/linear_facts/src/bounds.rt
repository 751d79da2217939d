// The bound of 10^18 on the numbers of forms.
ghost use Rattle.std.specs.Prelude.{◌≡◌, ◌≤◌, length, drop, ◌+◌, ◌*◌, ◌+ℤ◌, ◌-ℤ◌, ◌*ℤ◌, pos, map, unsigned_abs, is_some, if◌then◌else◌};
ghost use Rattle.linear_facts.specs.Views.{fact_behind, part_behind};
ghost use Rattle.linear_facts.specs.Forms.{number};
ghost use Rattle.linear_facts.specs.Lanes.{is_lane_of, seen};
ghost use Rattle.linear_facts.specs.Numbers.{small, part_numbers, scaled_list, scaled_numbers, plus_or_minus, small_first, small_pairs, items_of, lane_numbers, small_lists, first_difference, small_differences, differences_fit, each_fits, small_size, size_of_two, size_at, fact_size};

use crate::facts::Fact;
use crate::lanes::{Lane, Part, WINDOW};
use crate::limits::MOST_NUMBER;
use crate::shapes::{Shape, shape_of};
use arrayvec::ArrayVec;
use term_core::Term;

fn small(number: i128) -> Option<i64>
    ensures { result ≡ small number }
{
    if number.unsigned_abs() <= MOST_NUMBER {
        Some(number as i64)
    } else {
        None
    }
}

fn small_size(size: u128) -> Option<u64>
    ensures { result ≡ small_size size }
{
    if size <= MOST_NUMBER {
        Some(size as u64)
    } else {
        None
    }
}

fn times(a: i64, b: i64) -> i128
    ensures { result ≡ a *ℤ b }
{
    a as i128 * b as i128
}

// ---- many lanes at once

type Numbers = ArrayVec<i64, WINDOW>;

fn small_pair(a: i64, b: i64, minus: bool) -> Option<i64>
    ensures { result ≡ small (plus_or_minus minus a b) }
{
    if minus {
        small(a as i128 - b as i128)
    } else {
        small(a as i128 + b as i128)
    }
}

fn small_at(a: i64, others: &[i64], at: usize, minus: bool) -> Option<i64>
    ensures { result ≡ small_first (plus_or_minus minus) a (drop at others.now) }
{
    if at < others.len() {
        small_pair(a, others[at], minus)
    } else {
        None
    }
}

// The sums, or the differences, of two lists' numbers.
fn small_pairs(a: &[i64], b: &[i64], minus: bool) -> Option<Numbers>
    requires { length a.now ≤ WINDOW }
    ensures { items_of result ≡ small_pairs (plus_or_minus minus) a.now b.now }
{
    let mut numbers = ArrayVec::new();
    for (i, x) in a.iter().enumerate() {
        match small_at(*x, b, i, minus) {
            Some(number) => numbers.push(number),
            None => return None,
        }
    }
    Some(numbers)
}

fn small_lists(a: Option<Numbers>, b: Option<Numbers>, minus: bool) -> Option<Numbers>
    ensures { items_of result ≡ small_lists (plus_or_minus minus) (items_of a) (items_of b) }
{
    small_pairs(a?.as_slice(), b?.as_slice(), minus)
}

fn part_number<'a>(lane: &Lane<'a>, part: Part<'a>, mark: u32, number: i64) -> i64
    ensures { result ≡ (if is_lane_of lane.now (part_behind part.entry) mark then number else pos 0) }
{
    if lane.is_of(part, mark) { number } else { 0 }
}

// The number for the lanes of the part, and 0 for others.
fn part_list<'a>(lanes: &[Lane<'a>], part: Part<'a>, number: i64) -> Numbers
    requires { length lanes.now ≤ WINDOW }
    ensures { result.items ≡ map (λ lane. seen lane (part_behind part.entry) number) lanes.now }
{
    let mark = part.mark();
    let mut numbers = ArrayVec::new();
    for lane in lanes {
        numbers.push(part_number(lane, part, mark, number));
    }
    numbers
}

fn scaled_list(number: i64, list: &[i64]) -> Option<Numbers>
    requires { length list.now ≤ WINDOW }
    ensures { items_of result ≡ scaled_list number list.now }
{
    let mut numbers = ArrayVec::new();
    for x in list {
        match small(times(number, *x)) {
            Some(product) => numbers.push(product),
            None => return None,
        }
    }
    Some(numbers)
}

fn scaled_numbers(number: Option<i64>, list: Option<Numbers>) -> Option<Numbers>
    ensures { items_of result ≡ scaled_numbers number (items_of list) }
{
    scaled_list(number?, list?.as_slice())
}

fn part_numbers<'a>(lanes: &[Lane<'a>], part: Part<'a>, number: Option<i64>) -> Option<Numbers>
    requires { length lanes.now ≤ WINDOW }
    ensures { items_of result ≡ part_numbers lanes.now (part_behind part.entry) number }
{
    match number {
        Some(number) => Some(part_list(lanes, part, number)),
        None => None,
    }
}

// The numbers of the lanes' parts in the term's form; none where a literal, or one of these numbers,
// is too large in a term that is taken apart.
fn numbers_in<'a>(term: &'a Term, lanes: &[Lane<'a>]) -> Option<Numbers>
    requires { length lanes.now ≤ WINDOW }
    ensures { items_of result ≡ lane_numbers lanes.now term.now }
{
    match shape_of(term) {
        Shape::Literal(value) => part_numbers(lanes, Part::Constant, small(value)),
        Shape::Sum(left, right) => {
            small_lists(numbers_in(left, lanes), numbers_in(right, lanes), false)
        }
        Shape::Difference(left, right) => {
            small_lists(numbers_in(left, lanes), numbers_in(right, lanes), true)
        }
        Shape::Opposite(inner) => scaled_numbers(Some(-1), numbers_in(inner, lanes)),
        Shape::Multiple(value, inner) => scaled_numbers(small(value), numbers_in(inner, lanes)),
        Shape::Atom => part_numbers(lanes, Part::Atom(term), Some(1)),
    }
}

// ---- sizes

fn literal_size(value: i128) -> Option<u64>
    ensures { result ≡ small_size (unsigned_abs value) }
{
    small_size(value.unsigned_abs())
}

fn size_sum(a: Option<u64>, b: Option<u64>) -> Option<u64>
    ensures { result ≡ size_of_two ◌+◌ a b }
{
    small_size(a? as u128 + b? as u128)
}

fn size_product(a: Option<u64>, b: Option<u64>) -> Option<u64>
    ensures { result ≡ size_of_two ◌*◌ a b }
{
    small_size(a? as u128 * b? as u128)
}

// The numbers of the term's form added up without their signs; none where that is too large.
fn size_in(term: &Term) -> Option<u64>
    ensures { result ≡ size_at term.now }
{
    match shape_of(term) {
        Shape::Literal(value) => literal_size(value),
        Shape::Sum(left, right) => size_sum(size_in(left), size_in(right)),
        Shape::Difference(left, right) => size_sum(size_in(left), size_in(right)),
        Shape::Opposite(inner) => size_in(inner),
        Shape::Multiple(value, inner) => size_product(literal_size(value), size_in(inner)),
        Shape::Atom => Some(1),
    }
}

// ---- facts

fn difference(left: i64, right: i64, extra: i64) -> i128
    ensures { result ≡ left -ℤ right +ℤ extra }
{
    left as i128 - right as i128 + extra as i128
}

fn is_small(number: i128) -> bool
    ensures { result ≡ is_some (small number) }
{
    small(number).is_some()
}

fn first_difference(x: i64, others: &[i64], extras: &[i64], at: usize) -> bool
    ensures { result ≡ first_difference x (drop at others.now) (drop at extras.now) }
{
    if at < others.len() && at < extras.len() {
        is_small(difference(x, others[at], extras[at]))
    } else {
        false
    }
}

fn small_differences(left: &[i64], right: &[i64], extras: &[i64]) -> bool
    ensures { result ≡ small_differences left.now right.now extras.now }
{
    for (i, x) in left.iter().enumerate() {
        if !first_difference(*x, right, extras, i) {
            return false;
        }
    }
    true
}

fn differences_fit(left: Option<Numbers>, right: Option<Numbers>, extras: Option<Numbers>) -> bool
    ensures { result ≡ differences_fit (items_of left) (items_of right) (items_of extras) }
{
    match (left, right, extras) {
        (Some(left), Some(right), Some(extras)) => {
            small_differences(left.as_slice(), right.as_slice(), extras.as_slice())
        }
        _ => false,
    }
}

/// Whether no literal, and no number of a lane's part, is too large in the fact.
pub fn each_fits<'a>(fact: Fact<'a>, lanes: &[Lane<'a>]) -> bool
    requires { length lanes.now ≤ WINDOW }
    ensures { result ≡ each_fits lanes.now (fact_behind fact.entry) }
{
    if lanes.is_empty() {
        return true;
    }
    let left = numbers_in(fact.left(), lanes);
    let right = numbers_in(fact.right(), lanes);
    differences_fit(
        left,
        right,
        part_numbers(lanes, Part::Constant, Some(fact.extra())),
    )
}

fn fact_size(left: Option<u64>, right: Option<u64>) -> Option<u64>
    ensures { result ≡ size_of_two (λ x y. x + y + 1) left right }
{
    small_size(left? as u128 + right? as u128 + 1)
}

/// Whether the fact's numbers are so small that none of any part is too large.
pub fn is_light(fact: Fact) -> bool
    ensures { result ≡ is_some (fact_size (fact_behind fact.entry)) }
{
    fact_size(size_in(fact.left()), size_in(fact.right())).is_some()
}
