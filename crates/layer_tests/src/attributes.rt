// Trees of places on a dial, with the calls of `up` counted: what no clause says, as that each call can
// succeed, and that ticks and calls agree.
ghost use Rattle.std.specs.Prelude.{◌≡◌, ◌+◌, ◌-◌, ◌%◌, ◌<◌, length, slice_index_or, refl};
ghost use Rattle.std.proofs.Common.{rules};
ghost use Rattle.attr_engine.specs.Rules.{values};

use attr_engine::{EngineError, Grammar, Shape, Tree, attribute, reattribute, splice};
use base_kit::{Ledger, Memory, Path, Steps, Tally};
use sqlite_items::Items;
use std::alloc::Global;
use std::cell::Cell;
use std::marker::Brand;
use std::rc::Rc;
use std::sync::ledger::{Blank, Ledger as Page};
use std::test::Fail;

// A node's place is its label, its inherited place and its first child's place added up; a child
// inherits the node's inherited place, its own need and the place of its next sibling. All modulo 1000.
#[derive(Drop)]
struct Dial {
    calls: Cell<u64>,
}

// The result of this number, or another value.
fn at_or(results: &[Rc<u32>], at: usize, other: u32) -> u32
    ensures { result ≡ slice_index_or (values results.now) at other }
{
    match results.get(at) {
        None => other,
        Some(found) => **found,
    }
}

fn turned(a: u32, b: u32, c: u32) -> u32
    ensures { result ≡ (a + b + c) % 1000 }
{
    ((a as u64 + b as u64 + c as u64) % 1000) as u32
}

impl Grammar for Dial {
    type Label = u32;

    type Need = u32;

    type In = u32;

    type Out = u32;

    ghost rules = { record {
      need = λ label kids. (label + slice_index_or kids 0 0 + 0) % 1000;
      down = λ label input child need done. (input + need + slice_index_or done (length done - 1) 0) % 1000;
      up = λ label input done. (label + input + slice_index_or done 0 0) % 1000;
    } };

    ghost same_in = { Prim.search rules };

    ghost same_out = { Prim.search rules };

    fn need(&self, _: Global, label: &u32, kids: &[Rc<u32>]) -> Result<u32, Memory> {
        Ok(turned(*label, at_or(kids, 0, 0), 0))
    }

    fn down(
        &self,
        _: Global,
        _label: &u32,
        input: &u32,
        _child: usize,
        need: &u32,
        done: &[Rc<u32>],
    ) -> Result<u32, Memory> {
        let next = done.len().saturating_sub(1);
        Ok(turned(*input, *need, at_or(done, next, 0)))
    }

    fn up<L: Ledger>(
        &self,
        _: Global,
        label: &u32,
        input: &u32,
        done: &[Rc<u32>],
        steps: &mut Steps<L>,
    ) -> Result<u32, Memory> {
        steps.tick();
        self.calls.set(self.calls.get().saturating_add(1));
        Ok(turned(*label, *input, at_or(done, 0, 0)))
    }
}

fn leaf(alloc: Global, label: u32) -> Shape<Dial> {
    Shape {
        label,
        kids: Items::new(alloc),
    }
}

fn over(
    alloc: Global,
    label: u32,
    first: Shape<Dial>,
    last: Shape<Dial>,
) -> Result<Shape<Dial>, Memory> {
    let kids = Items::from_vec(vec![in alloc; first, last]?);
    Ok(Shape { label, kids })
}

// 1 over 2, which is over 4 and 5, and over 3.
fn small(alloc: Global) -> Result<Shape<Dial>, Memory> {
    let left = over(alloc, 2, leaf(alloc, 4), leaf(alloc, 5))?;
    over(alloc, 1, left, leaf(alloc, 3))
}

// The root's result under an inherited place, and how often `up` was called for the tree and then for what is
// done to it.
type Seen = (u32, u64, u64);

impl Dial {
    fn new() -> Self {
        Dial {
            calls: Cell::new(0),
        }
    }

    // The result, and the calls of `up` before and since there were so many.
    fn seen(&self, tree: &Tree<Dial>, made: u64) -> Seen {
        (*tree.out(), made, self.calls.get().saturating_sub(made))
    }
}

fn grown_by<P: Page>(
    alloc: Global,
    blank: Blank,
    shape: Shape<Dial>,
    first: u32,
    then: u32,
) -> Result<Seen, Memory>
    requires name { blank.name ≡ P.name }
    requires parts { blank.parts ≡ P.parts }
    requires some { 0 < blank.parts }
{
    let dial = Dial::new();
    let mut steps = Steps::new(Tally::<P>::new(blank));
    let tree = attribute(alloc, &dial, shape, first, &mut steps)?;
    let made = dial.calls.get();
    let other = reattribute(alloc, &dial, &tree, then, &mut steps)?;
    Ok(dial.seen(&other, made))
}

// Under one inherited place, and then under another.
fn grown(alloc: Global, shape: Shape<Dial>, first: u32, then: u32) -> Result<Seen, Memory> {
    grown_by::<Brand>(alloc, Blank::new(1), shape, first, then)
}

// A chain of nodes without a label of their own, each the only child of the one above.
fn deep(alloc: Global, count: u32) -> Result<Shape<Dial>, Memory> {
    let mut shape = leaf(alloc, 0);
    for _ in 1..count {
        let mut kids = Items::new(alloc);
        kids.push(shape)?;
        shape = Shape { label: 0, kids };
    }
    Ok(shape)
}

// A root over so many leaves.
fn wide(alloc: Global, count: u32) -> Result<Shape<Dial>, Memory> {
    let mut kids = Items::new(alloc);
    for _ in 0..count {
        kids.push(leaf(alloc, 0))?;
    }
    Ok(Shape { label: 0, kids })
}

#[test]
fn trees_are_attributed_again(rt: HostRuntime) -> Result<(), Fail> {
    let alloc = rt.alloc();
    assert_eq!(rt; grown(alloc, small(alloc)?, 0, 0)?, (57, 5, 0));
    assert_eq!(rt; grown(alloc, small(alloc)?, 0, 1)?, (64, 5, 5));
    assert_eq!(rt; grown(alloc, deep(alloc, 100)?, 5, 6)?, (600, 100, 100));
    // The first leaf's place comes round to what it was.
    assert_eq!(rt; grown(alloc, wide(alloc, 1000)?, 0, 1)?, (1, 1001, 1000));
    Ok(())
}

// ---- edits

// A path, a range of the children of the node there, and the label of the one leaf in their place.
type Change = (&'static [u32], (usize, usize), u32);

fn one_leaf(alloc: Global, label: u32) -> Result<Vec<Shape<Dial>>, Memory> {
    Ok(vec![in alloc; leaf(alloc, label)]?)
}

fn path_of(alloc: Global, steps: &[u32]) -> Result<Path, Memory> {
    Ok(Path(steps.to_vec(alloc)?))
}

fn changed<L: Ledger>(
    alloc: Global,
    dial: &Dial,
    tree: &Tree<Dial>,
    change: &Change,
    steps: &mut Steps<L>,
) -> Result<Tree<Dial>, EngineError> {
    let (path, (from, to), label) = *change;
    let path = path_of(alloc, path)?;
    let shapes = one_leaf(alloc, label)?;
    splice(alloc, dial, tree, &path, from, to, shapes, 0, steps)
}

fn edited_by<P: Page>(alloc: Global, blank: Blank, change: &Change) -> Result<Seen, EngineError>
    requires name { blank.name ≡ P.name }
    requires parts { blank.parts ≡ P.parts }
    requires some { 0 < blank.parts }
{
    let dial = Dial::new();
    let mut steps = Steps::new(Tally::<P>::new(blank));
    let tree = attribute(alloc, &dial, small(alloc)?, 0, &mut steps)?;
    let made = dial.calls.get();
    let new = changed(alloc, &dial, &tree, change, &mut steps)?;
    Ok(dial.seen(&new, made))
}

fn edited(alloc: Global, change: &Change) -> Result<Seen, EngineError> {
    edited_by::<Brand>(alloc, Blank::new(1), change)
}

// A change, and what is seen then: the new leaf alone; the needs above it; an earlier sibling; below a leaf; at
// the end of the root.
const CHANGES: &[(Change, Seen)] = &[
    ((&[0], (0, 1), 4), (57, 5, 1)),
    ((&[0], (0, 1), 9), (82, 5, 4)),
    ((&[0], (1, 2), 9), (65, 5, 4)),
    ((&[1], (0, 0), 9), (174, 5, 6)),
    ((&[], (2, 2), 9), (111, 5, 6)),
];

// The number of the first row that is wrong.
fn first_not_edited(alloc: Global) -> Option<usize> {
    CHANGES
        .iter()
        .position(|(change, seen)| edited(alloc, change) != Ok(*seen))
}

#[test]
fn edits_make_anew_what_moved(rt: HostRuntime) {
    assert_eq!(rt; first_not_edited(rt.alloc()), None);
}

const MISSES: &[Change] = &[
    (&[], (2, 3), 9),
    (&[], (1, 0), 9),
    (&[2], (0, 0), 9),
    (&[0, 0, 0], (0, 0), 9),
];

// The number of the first change that is one.
fn first_not_bad(alloc: Global) -> Option<usize> {
    MISSES.iter().position(|change| edited(alloc, change) != Err(EngineError::BadPath))
}

#[test]
fn paths_that_are_not_there_are_bad(rt: HostRuntime) {
    assert_eq!(rt; first_not_bad(rt.alloc()), None);
}
