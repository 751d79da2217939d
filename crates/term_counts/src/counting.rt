// Counts of a term, and the size and the depth after a substitution.
ghost use Rattle.std.specs.Prelude.{◌≡◌, ℕ, List, ◌-◌, ◌^◌, min, bytes_eq, position, IfOk, OnOk};
ghost use Rattle.std.specs.Option.{option_copied};
ghost use Rattle.term_core.specs.declared.term.Term.{Term};
ghost use Rattle.term_core.specs.Substitution.{Sub, put};
ghost use Rattle.term_core.specs.Terms.{size_of, depth_of};
ghost use Rattle.term_counts.specs.Counts.{together, with_count, with_counts, beside, all_beside, below, within_bound, of_quantifier, of_none, of_leaf, of_name, counted_by, counted, capped, capped_sum, size_after, depth_after, measure_of, size_in, depth_in};

use base_kit::{Copied, Listed, Memory, Text};
use std::alloc::Global;
use term_core::{Term, Terms, same_text};

/// How often a name stands free in a term, and how many nodes are above its deepest free place.
#[derive(Drop)]
pub struct NameCount {
    pub name: Text,
    pub times: u64,
    pub above: u64,
}

impl Copied for NameCount {
    fn copy(&self, alloc: Global) -> Result<Self, Memory> {
        Ok(NameCount {
            name: self.name.copy(alloc)?,
            times: self.times,
            above: self.above,
        })
    }
}

/// Counts of names, each of which stands once.
pub type NameCounts = Listed<NameCount>;

/// What the size and the depth of a term after a substitution follow from: its nodes that are no
/// free name, its depth, and its free names. Each number is 18446744073709551615 where it would be
/// greater.
#[derive(Drop)]
pub struct TermCounts {
    pub own: u64,
    pub depth: u64,
    pub names: NameCounts,
}

impl Copied for TermCounts {
    fn copy(&self, alloc: Global) -> Result<Self, Memory> {
        Ok(TermCounts {
            own: self.own,
            depth: self.depth,
            names: self.names.copy(alloc)?,
        })
    }
}

/// The size and the depth of what stands for a name.
#[derive(Drop)]
pub struct Measure {
    pub name: Text,
    pub size: u64,
    pub depth: u64,
}

impl Copied for Measure {
    fn copy(&self, alloc: Global) -> Result<Self, Memory> {
        Ok(Measure {
            name: self.name.copy(alloc)?,
            size: self.size,
            depth: self.depth,
        })
    }
}

/// Measures in order, of which the last one of a name counts.
pub type Measures = Listed<Measure>;

// ---- counts

fn place_of(counts: &[NameCount], name: &Text) -> Option<usize>
    ensures { result ≡ position (λ count. bytes_eq count.name name.now) counts.now }
{
    counts.iter().position(|count| same_text(&count.name, name))
}

// Two counts of one name.
fn sum_of(a: &NameCount, b: NameCount) -> NameCount
    ensures { result ≡ together capped_sum a.now b }
{
    NameCount {
        name: b.name,
        times: a.times.saturating_add(b.times),
        above: a.above.max(b.above),
    }
}

fn add_count(counts: &mut Vec<NameCount>, count: NameCount) -> Result<(), Memory>
    ensures { OnOk result (counts.new.items ≡ with_count capped_sum counts.old.items count) }
{
    match place_of(counts.as_slice(), &count.name) {
        Some(i) => {
            let sum = sum_of(&counts[i], count);
            counts[i] = sum;
            Ok(())
        }
        None => {
            counts.push(count)?;
            Ok(())
        }
    }
}

// The counts of two terms, one beside the other.
fn side_by_side(alloc: Global, a: TermCounts, b: &TermCounts) -> Result<TermCounts, Memory>
    ensures { IfOk result (λ both. both ≡ beside capped_sum a b.now) }
{
    let own = a.own.saturating_add(b.own);
    let depth = a.depth.max(b.depth);
    let mut names = a.names.into_vec();
    for count in b.names.as_slice() {
        add_count(&mut names, count.copy(alloc)?)?;
    }
    Ok(TermCounts {
        own,
        depth,
        names: NameCounts::from(names),
    })
}

// The counts with a node above.
fn under_a_node(alloc: Global, counts: &TermCounts) -> Result<TermCounts, Memory>
    ensures { IfOk result (λ lower. lower ≡ below capped_sum counts.now) }
{
    let mut names = Vec::new(alloc);
    for count in counts.names.as_slice() {
        names.push(NameCount {
            name: count.name.copy(alloc)?,
            times: count.times,
            above: count.above.saturating_add(1),
        })?;
    }
    Ok(TermCounts {
        own: counts.own.saturating_add(1),
        depth: counts.depth.saturating_add(1),
        names: NameCounts::from(names),
    })
}

// The counts where the name is bound.
fn where_bound(alloc: Global, name: &Text, counts: &TermCounts) -> Result<TermCounts, Memory>
    ensures { IfOk result (λ inside. inside ≡ within_bound capped_sum name.now counts.now) }
{
    let mut own = counts.own;
    let mut names = Vec::new(alloc);
    for count in counts.names.as_slice() {
        if same_text(&count.name, name) {
            own = own.saturating_add(count.times);
        } else {
            names.push(count.copy(alloc)?)?;
        }
    }
    Ok(TermCounts {
        own,
        depth: counts.depth,
        names: NameCounts::from(names),
    })
}

fn count_of_quantifier(
    alloc: Global,
    name: &Text,
    low: TermCounts,
    high: &TermCounts,
    body: &TermCounts,
) -> Result<TermCounts, Memory>
    ensures { IfOk result (λ counts. counts ≡ of_quantifier capped_sum name.now low high.now body.now) }
{
    let bounds = side_by_side(alloc, low, high)?;
    let inside = where_bound(alloc, name, body)?;
    under_a_node(alloc, &side_by_side(alloc, bounds, &inside)?)
}

fn count_of_name(alloc: Global, name: &Text) -> Result<TermCounts, Memory>
    ensures { IfOk result (λ counts. counts ≡ of_name name.now) }
{
    let mut names = NameCounts::new(alloc);
    names.push(NameCount {
        name: name.copy(alloc)?,
        times: 1,
        above: 0,
    })?;
    Ok(TermCounts {
        own: 0,
        depth: 1,
        names,
    })
}

fn count_of_leaf(alloc: Global) -> TermCounts
    ensures { result ≡ of_leaf }
{
    TermCounts {
        own: 1,
        depth: 1,
        names: NameCounts::new(alloc),
    }
}

#[tactic(auto, unfolding(crate::specs::Counts::counted_by))]
fn count(alloc: Global, term: &Term) -> Result<TermCounts, Memory>
    ensures { IfOk result (λ counts. counts ≡ counted_by capped_sum term.now) }
{
    match term {
        Term::Int(_) => Ok(count_of_leaf(alloc)),
        Term::Truth(_) => Ok(count_of_leaf(alloc)),
        Term::Var(name) => count_of_name(alloc, name),
        Term::Op(_, terms) => {
            let mut all = TermCounts {
                own: 0,
                depth: 0,
                names: NameCounts::new(alloc),
            };
            for part in terms.as_slice() {
                all = side_by_side(alloc, all, &count(alloc, part)?)?;
            }
            under_a_node(alloc, &all)
        }
        Term::All(name, low, high, body) => {
            let low = count(alloc, low.get())?;
            let high = count(alloc, high.get())?;
            let body = count(alloc, body.get())?;
            count_of_quantifier(alloc, name, low, &high, &body)
        }
        Term::Some(name, low, high, body) => {
            let low = count(alloc, low.get())?;
            let high = count(alloc, high.get())?;
            let body = count(alloc, body.get())?;
            count_of_quantifier(alloc, name, low, &high, &body)
        }
    }
}

/// The counts of a term.
pub fn counts_of(alloc: Global, term: &Term) -> Result<TermCounts, Memory>
    ensures { IfOk result (λ counts. counts ≡ capped (counted term.now)) }
{
    count(alloc, term)
}

// ---- after a substitution

// The last measure of the name.
fn measure_for<'a>(measures: &'a [Measure], name: &Text) -> Option<&'a Measure>
    ensures { option_copied result ≡ measure_of measures.now name.now }
{
    for i in (0..measures.len()).rev() {
        let measure = &measures[i];
        if same_text(&measure.name, name) {
            return Some(measure);
        }
    }
    None
}

fn size_for(measures: &[Measure], name: &Text) -> u64
    ensures { result ≡ size_in measures.now name.now }
{
    match measure_for(measures, name) {
        Some(measure) => measure.size,
        None => 1,
    }
}

fn depth_for(measures: &[Measure], name: &Text) -> u64
    ensures { result ≡ depth_in measures.now name.now }
{
    match measure_for(measures, name) {
        Some(measure) => measure.depth,
        None => 1,
    }
}

// The size that follows from counts.
fn size_from(counts: &TermCounts, measures: &Measures) -> u64
    ensures { result ≡ min (size_after counts.now (size_in measures.now)) (2 ^ 64 - 1) }
{
    let mut total = counts.own;
    for count in counts.names.as_slice() {
        let size = size_for(measures.as_slice(), &count.name);
        total = total.saturating_add(count.times.saturating_mul(size));
    }
    total
}

// The depth that follows from counts.
fn depth_from(counts: &TermCounts, measures: &Measures) -> u64
    ensures { result ≡ min (depth_after counts.now (depth_in measures.now)) (2 ^ 64 - 1) }
{
    let mut most = counts.depth;
    for count in counts.names.as_slice() {
        let depth = depth_for(measures.as_slice(), &count.name);
        most = most.max(count.above.saturating_add(depth));
    }
    most
}

/// The size of a term after a substitution, from the term's counts and from the sizes of what
/// stands for its names; a name without a measure stays a name. No term is made.
pub fn put_size(counts: &TermCounts, measures: &Measures) -> u64
    ensures from_counts { result ≡ min (size_after counts.now (size_in measures.now)) (2 ^ 64 - 1) }

    // Of the counts of a term, and of the sizes of a substitution's terms.
    ensures size { (t : Term) (s : Sub) → counts.now ≡ capped (counted t)
        → ((x : List ℕ) → size_in measures.now x ≡ min (size_of (s x)) (2 ^ 64 - 1))
        → result ≡ min (size_of (put t s)) (2 ^ 64 - 1) }
{
    size_from(counts, measures)
}

/// The depth of a term after a substitution, from the term's counts and from the depths of what
/// stands for its names; a name without a measure stays a name. No term is made.
pub fn put_depth(counts: &TermCounts, measures: &Measures) -> u64
    ensures from_counts { result ≡ min (depth_after counts.now (depth_in measures.now)) (2 ^ 64 - 1) }

    // Of the counts of a term, and of the depths of a substitution's terms.
    ensures depth { (t : Term) (s : Sub) → counts.now ≡ capped (counted t)
        → ((x : List ℕ) → depth_in measures.now x ≡ min (depth_of (s x)) (2 ^ 64 - 1))
        → result ≡ min (depth_of (put t s)) (2 ^ 64 - 1) }
{
    depth_from(counts, measures)
}
