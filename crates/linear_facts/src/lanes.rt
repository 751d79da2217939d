// Lanes, in which the numbers of parts of forms are added up.
ghost use Rattle.std.specs.Prelude.{◌≡◌, ◌%◌, ◌+ℤ◌, ◌*ℤ◌, neg_ℤ, pos, map, if◌then◌else◌};
ghost use Rattle.std.specs.Int.{int_wrap};
ghost use mir.Syntax.{w128};
ghost use Rattle.linear_facts.specs.Views.{fact_behind, part_behind};
ghost use Rattle.linear_facts.specs.Lanes.{mixed, mark_of, same_part, part_mark, is_lane_of, seen, seen_in, with_more, with_fact};
ghost use Rattle.linear_facts.specs.Forms.{same_term};

use crate::facts::Fact;
use crate::shapes::{Shape, shape_of};
use term_core::{Term, equal};

/// Marks are below this number, a prime.
const MARKS: u64 = 4_294_967_291;

/// What a mark is multiplied by where more is mixed into it.
const SPREAD: u64 = 1_000_003;

/// How many atoms are added up at once.
pub const WINDOW: usize = 64;

/// What a number of a form stands before: an atom, or nothing.
#[derive(Clone, Copy)]
pub enum Part<'a> {
    Atom(&'a Term),
    Constant,
}

// What stands in the places of a window that nothing was put into.
impl<'a> Default for Part<'a> {
    fn default() -> Part<'a> {
        Part::Constant
    }
}

/// A part, its mark, and what its numbers add up to, in 128 bits.
#[derive(Clone, Copy)]
pub struct Lane<'a> {
    pub part: Part<'a>,
    pub mark: u32,
    pub sum: i128,
}

fn mixed(mark: u32, next: u32) -> u32
    ensures { result ≡ mixed mark next }
{
    ((mark as u64 * SPREAD + next as u64) % MARKS) as u32
}

/// A number that is the same for equal terms, and mostly another one for others.
pub fn mark(term: &Term) -> u32
    ensures { result ≡ mark_of term.now }
{
    match term {
        Term::Int(value) => mixed(1, (value.unsigned_abs() % (MARKS as u128)) as u32),
        Term::Truth(value) => { if *value { 3 } else { 2 } }
        Term::Var(name) => {
            let mut mark = 4;
            for byte in name.as_bytes() {
                mark = mixed(mark, *byte as u32);
            }
            mark
        }
        Term::Op(_, terms) => {
            let mut whole = 5;
            for part in terms.as_slice() {
                whole = mixed(whole, mark(part));
            }
            whole
        }
        Term::All(_, low, high, body) => {
            mixed(mixed(mark(low.get()), mark(high.get())), mark(body.get()))
        }
        Term::Some(_, low, high, body) => {
            mixed(mixed(mark(high.get()), mark(low.get())), mark(body.get()))
        }
    }
}

fn is_same_term(a: &Term, b: &Term) -> bool
    ensures { result ≡ same_term a.now b.now }
{
    equal(a, b)
}

impl<'a> Part<'a> {
    pub fn is(self, other: Part<'a>) -> bool
        ensures { result ≡ same_part (part_behind self.entry) (part_behind other.entry) }
    {
        match self {
            Part::Atom(term) => match other {
                Part::Atom(wanted) => is_same_term(term, wanted),
                Part::Constant => false,
            },
            Part::Constant => match other {
                Part::Atom(_) => false,
                Part::Constant => true,
            },
        }
    }

    pub fn mark(self) -> u32
        ensures { result ≡ part_mark (part_behind self.entry) }
    {
        match self {
            Part::Atom(term) => mark(term),
            Part::Constant => 0,
        }
    }
}

// What stands in the places of a list of lanes that nothing was put into.
impl<'a> Default for Lane<'a> {
    fn default() -> Lane<'a> {
        Lane::of(Part::Constant)
    }
}

impl<'a> Lane<'a> {
    pub fn of(part: Part<'a>) -> Lane<'a>
        ensures part { result.part ≡ part.entry }
        ensures mark { result.mark ≡ part_mark (part_behind part.entry) }
        ensures sum { result.sum ≡ pos 0 }
    {
        Lane {
            part,
            mark: part.mark(),
            sum: 0,
        }
    }

    pub fn is_of(&self, part: Part<'a>, mark: u32) -> bool
        ensures { result ≡ is_lane_of self.now (part_behind part.entry) mark }
    {
        self.mark == mark && part.is(self.part)
    }

    // The lane with the number more, if it is that of the part.
    fn with_number(self, part: Part<'a>, mark: u32, number: i128) -> Lane<'a>
        ensures { result ≡ with_more (if is_lane_of self.entry (part_behind part.entry) mark then number else pos 0) self.entry }
    {
        let more = if self.is_of(part, mark) { number } else { 0 };
        Lane {
            part: self.part,
            mark: self.mark,
            sum: sum(self.sum, more),
        }
    }
}

fn sum(a: i128, b: i128) -> i128
    ensures { result ≡ int_wrap w128 (a +ℤ b) }
{
    a.wrapping_add(b)
}

fn product(a: i128, b: i128) -> i128
    ensures { result ≡ int_wrap w128 (a *ℤ b) }
{
    a.wrapping_mul(b)
}

fn opposite(number: i128) -> i128
    ensures { result ≡ int_wrap w128 (neg_ℤ number) }
{
    number.wrapping_neg()
}

// Adds the number to the lanes of the part.
fn add_to<'a>(lanes: &mut [Lane<'a>], part: Part<'a>, number: i128)
    ensures { lanes.new ≡ map (λ lane. with_more (seen lane (part_behind part.entry) number) lane) lanes.old }
{
    let mark = part.mark();
    for lane in lanes.iter_mut() {
        *lane = lane.with_number(part, mark, number);
    }
}

/// Adds the numbers of the term's form, times the weight, to the lanes.
pub fn add_form<'a>(lanes: &mut [Lane<'a>], term: &'a Term, weight: i128)
    ensures { lanes.new ≡ map (λ lane. with_more (weight *ℤ seen_in lane term.now) lane) lanes.old }
{
    match shape_of(term) {
        Shape::Literal(value) => add_to(lanes, Part::Constant, product(weight, value)),
        Shape::Sum(left, right) => {
            add_form(lanes, left, weight);
            add_form(lanes, right, weight);
        }
        Shape::Difference(left, right) => {
            add_form(lanes, left, weight);
            add_form(lanes, right, opposite(weight));
        }
        Shape::Opposite(inner) => add_form(lanes, inner, opposite(weight)),
        Shape::Multiple(value, inner) => add_form(lanes, inner, product(weight, value)),
        Shape::Atom => add_to(lanes, Part::Atom(term), weight),
    }
}

/// Adds the numbers of the fact's form, times the weight, to the lanes.
pub fn add_fact<'a>(lanes: &mut [Lane<'a>], fact: Fact<'a>, weight: i128)
    ensures { lanes.new ≡ map (λ lane. with_fact weight (fact_behind fact.entry) lane) lanes.old }
{
    add_form(lanes, fact.left(), weight);
    add_form(lanes, fact.right(), opposite(weight));
    add_to(lanes, Part::Constant, product(weight, fact.extra() as i128));
}
