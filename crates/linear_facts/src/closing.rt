// Whether coefficients close a sequent.
ghost use Rattle.std.specs.Prelude.{◌≡◌, ◌↔◌, ◌≤◌, pos, map, length, IsTrue, unsigned_abs, nat_le, nat_lt, count_by, not, ◌&&◌, ◌||◌};
ghost use Rattle.std.specs.List.{All, list_all, list_any};
ghost use Rattle.std.specs.Ordering.{int_eq};
ghost use Rattle.term_core.specs.Operations.{is_zero};
ghost use Rattle.linear_facts.specs.Closing.{Closes, may_weigh, each_may_weigh, weighed, weights};
ghost use Rattle.linear_facts.specs.Views.{found, part_behind};
ghost use Rattle.linear_facts.specs.Asked.{keeps_rules, is_closed, is_right, is_atom_right, is_contradiction, all_right, atoms_of, all_atoms};
ghost use Rattle.linear_facts.specs.Lanes.{with_weights, IsFresh, same_part};
ghost use Rattle.linear_facts.specs.Numbers.{fits_each};

use crate::bounds::{each_fits, is_light};
use crate::facts::{Fact, fact_at};
use crate::lanes::{Lane, Part, WINDOW, add_fact};
use crate::limits::{MOST_COEFFICIENT, TOO_MANY};
use crate::shapes::{Shape, shape_of};
use arrayvec::ArrayVec;
use term_core::{Sequent, Term};

// ---- the rules on coefficients

fn is_zero(coefficient: i64) -> bool
    ensures { result ≡ is_zero coefficient }
{
    coefficient == 0
}

fn may_weigh(coefficient: i64, fact: Option<Fact>) -> bool
    ensures { result ≡ may_weigh coefficient (found fact.entry) }
{
    match fact {
        None => is_zero(coefficient),
        Some(fact) => fact.is_equation() || coefficient >= 0,
    }
}

fn each_may_weigh(sequent: &Sequent, coeffs: &[i64]) -> bool
    ensures { result ≡ each_may_weigh sequent.now 0 coeffs.now }
{
    for (i, coefficient) in coeffs.iter().enumerate() {
        if !may_weigh(*coefficient, fact_at(sequent, i)) {
            return false;
        }
    }
    true
}

fn are_given(coeffs: &[i64]) -> bool
    ensures { result ≡ list_all (λ c. nat_le (unsigned_abs c) MOST_COEFFICIENT) coeffs.now }
{
    coeffs.iter().all(|coefficient| coefficient.unsigned_abs() <= MOST_COEFFICIENT)
}

fn are_few(coeffs: &[i64]) -> bool
    ensures { result ≡ nat_lt (count_by (λ c. not (is_zero c)) coeffs.now) TOO_MANY }
{
    coeffs
        .iter()
        .filter(|coefficient| !is_zero(**coefficient))
        .count()
        < TOO_MANY
}

fn keeps_rules(sequent: &Sequent, coeffs: &[i64]) -> bool
    ensures { result ≡ keeps_rules sequent.now coeffs.now }
{
    each_may_weigh(sequent, coeffs) && are_given(coeffs) && are_few(coeffs)
}

// ---- the weighted sum

fn add_weight<'a>(lanes: &mut [Lane<'a>], coefficient: i64, fact: Option<Fact<'a>>)
    ensures { lanes.new ≡ map (with_weights (weighed coefficient (found fact.entry))) lanes.old }
{
    match fact {
        None => (),
        Some(fact) => {
            if !is_zero(coefficient) {
                add_fact(lanes, fact, coefficient as i128);
            }
        }
    }
}

fn add_weights<'a>(sequent: &'a Sequent, coeffs: &[i64], lanes: &mut [Lane<'a>])
    ensures { lanes.new ≡ map (with_weights (weights sequent.now coeffs.now)) lanes.old }
{
    for (i, coefficient) in coeffs.iter().enumerate() {
        add_weight(lanes, *coefficient, fact_at(sequent, i));
    }
}

// ---- the bounds

fn weight_fits<'a>(coefficient: i64, fact: Option<Fact<'a>>, lanes: &[Lane<'a>]) -> bool
    requires { length lanes.now ≤ WINDOW }
    ensures { result ≡ list_all (λ w. fits_each lanes.now w.1) (weighed coefficient (found fact.entry)) }
{
    match fact {
        None => true,
        Some(fact) => is_zero(coefficient) || is_light(fact) || each_fits(fact, lanes),
    }
}

fn weights_fit<'a>(sequent: &'a Sequent, coeffs: &[i64], lanes: &[Lane<'a>]) -> bool
    requires { length lanes.now ≤ WINDOW }
    ensures { result ≡ list_all (λ w. fits_each lanes.now w.1) (weights sequent.now coeffs.now) }
{
    for (i, coefficient) in coeffs.iter().enumerate() {
        if !weight_fits(*coefficient, fact_at(sequent, i), lanes) {
            return false;
        }
    }
    true
}

// ---- atoms, many at once

// A lane for each part.
fn lanes_of<'a>(parts: &[Part<'a>]) -> ArrayVec<Lane<'a>, WINDOW>
    requires { length parts.now ≤ WINDOW }
    ensures parts { map (λ lane. lane.part) result.items ≡ parts.now }
    ensures fresh { All IsFresh result.items }
{
    let mut lanes = ArrayVec::new();
    for part in parts {
        lanes.push(Lane::of(*part));
    }
    lanes
}

fn are_zero(lanes: &[Lane]) -> bool
    ensures { result ≡ list_all (λ lane. int_eq lane.sum (pos 0)) lanes.now }
{
    lanes.iter().all(|lane| lane.sum == 0)
}

// Whether each part is within its bounds, and adds up to 0.
fn are_right<'a>(sequent: &'a Sequent, coeffs: &[i64], parts: &[Part<'a>]) -> bool
    requires { length parts.now ≤ WINDOW }
    ensures { result ≡ list_all (λ part. is_right (weights sequent.now coeffs.now) (part_behind part)) parts.now }
{
    let mut lanes = lanes_of(parts);
    add_weights(sequent, coeffs, lanes.as_mut_slice());
    weights_fit(sequent, coeffs, lanes.as_slice()) && are_zero(lanes.as_slice())
}

// Whether the constant is within its bounds, and adds up to more than 0.
fn is_positive(sequent: &Sequent, coeffs: &[i64]) -> bool
    ensures { result ≡ is_contradiction (weights sequent.now coeffs.now) }
{
    let mut lanes = [Lane::of(Part::Constant)];
    add_weights(sequent, coeffs, &mut lanes);
    weights_fit(sequent, coeffs, &lanes) && lanes[0].sum > 0
}

fn is_among<'a>(parts: &[Part<'a>], part: Part<'a>) -> bool
    ensures { result ≡ list_any (λ other. same_part (part_behind other) (part_behind part.entry)) parts.now }
{
    parts.iter().any(|other| other.is(part))
}

// Takes an atom into the window, where it isn't there yet. A full window is emptied, if its atoms
// are right: where the answer is false, one of them isn't.
fn take<'a>(
    sequent: &'a Sequent,
    coeffs: &[i64],
    window: &mut ArrayVec<Part<'a>, WINDOW>,
    part: Part<'a>,
) -> bool
    ensures { (result && all_right sequent.now coeffs.now window.new.items)
        ≡ (all_right sequent.now coeffs.now window.old.items && is_right (weights sequent.now coeffs.now) (part_behind part.entry)) }
{
    if is_among(window.as_slice(), part) {
        return true;
    }
    if window.is_full() {
        if !are_right(sequent, coeffs, window.as_slice()) {
            return false;
        }
        window.clear();
    }
    window.push(part);
    true
}

// Takes the atoms of a term.
fn take_atoms<'a>(
    sequent: &'a Sequent,
    coeffs: &[i64],
    window: &mut ArrayVec<Part<'a>, WINDOW>,
    term: &'a Term,
) -> bool
    ensures { (result && all_right sequent.now coeffs.now window.new.items)
        ≡ (all_right sequent.now coeffs.now window.old.items && list_all (is_atom_right (weights sequent.now coeffs.now)) (atoms_of term.now)) }
{
    match shape_of(term) {
        Shape::Literal(_) => true,
        Shape::Sum(left, right) => {
            take_atoms(sequent, coeffs, window, left) && take_atoms(sequent, coeffs, window, right)
        }
        Shape::Difference(left, right) => {
            take_atoms(sequent, coeffs, window, left) && take_atoms(sequent, coeffs, window, right)
        }
        Shape::Opposite(inner) => take_atoms(sequent, coeffs, window, inner),
        Shape::Multiple(_, inner) => take_atoms(sequent, coeffs, window, inner),
        Shape::Atom => take(sequent, coeffs, window, Part::Atom(term)),
    }
}

// Takes the atoms of a fact that is weighed.
fn take_weight<'a>(
    sequent: &'a Sequent,
    coeffs: &[i64],
    window: &mut ArrayVec<Part<'a>, WINDOW>,
    coefficient: i64,
    fact: Option<Fact<'a>>,
) -> bool
    ensures { (result && all_right sequent.now coeffs.now window.new.items)
        ≡ (all_right sequent.now coeffs.now window.old.items && list_all (is_atom_right (weights sequent.now coeffs.now)) (all_atoms (weighed coefficient (found fact.entry)))) }
{
    match fact {
        None => true,
        Some(fact) => {
            is_zero(coefficient)
                || (take_atoms(sequent, coeffs, window, fact.left())
                    && take_atoms(sequent, coeffs, window, fact.right()))
        }
    }
}

// Whether every atom of the facts that are weighed is right.
fn are_atoms_right(sequent: &Sequent, coeffs: &[i64]) -> bool
    ensures { result ≡ list_all (is_atom_right (weights sequent.now coeffs.now)) (all_atoms (weights sequent.now coeffs.now)) }
{
    let mut window = ArrayVec::new();
    for (i, coefficient) in coeffs.iter().enumerate() {
        if !take_weight(
            sequent,
            coeffs,
            &mut window,
            *coefficient,
            fact_at(sequent, i),
        ) {
            return false;
        }
    }
    are_right(sequent, coeffs, window.as_slice())
}

fn is_closed(sequent: &Sequent, coeffs: &[i64]) -> bool
    ensures { result ≡ is_closed sequent.now coeffs.now }
{
    keeps_rules(sequent, coeffs) && is_positive(sequent, coeffs) && are_atoms_right(sequent, coeffs)
}

/// Whether the sequent's facts, weighed by the coefficients, add up to a contradiction, by the rule
/// `linear` (docs/proof-rules.md). The first coefficient weighs the negation of the goal, and each
/// further one the hypothesis of its number; missing ones are 0. The answer is false where a rule on
/// coefficients is broken, the sum is no contradiction, or a number is too large. It is exact for
/// every sequent, also for one that isn't well sorted. It takes no memory.
pub fn closes(sequent: &Sequent, coeffs: &[i64]) -> bool
    ensures { IsTrue result ↔ Closes sequent.now coeffs.now }
{
    is_closed(sequent, coeffs)
}
