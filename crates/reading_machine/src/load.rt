// A bound of what limits see, by sums that are more than enough.
ghost use Rattle.std.specs.Prelude.{◌≡◌, ◌≤◌, ℕ, ◌+◌, min};
ghost use Rattle.reading_machine.specs.Loads.{load_of, load_in, load_on, together, most, is_light, Bounds};

use crate::masses::{need, open_behind, own_height};
use crate::stack::Line;
use ada_tree::{MOST_NESTED, MOST_NESTED_STEPS, MOST_OPEN};
use reading_table::{Height, Symbol};

/// How many nodes that count symbols put round values, at most, and how many proof steps, and how many
/// parentheses they open. The greatest number stands for any from there on.
#[derive(Clone, Copy)]
pub struct Load {
    pub nodes: usize,
    pub steps: usize,
    pub opens: usize,
}

/// Nothing is put round values, and no parenthesis opens.
pub const LIGHTEST: Load = Load {
    nodes: 0,
    steps: 0,
    opens: 0,
};

/// It may be anything.
pub const HEAVIEST: Load = Load {
    nodes: usize::MAX,
    steps: usize::MAX,
    opens: usize::MAX,
};

// What is left of a sum without a part of it.
fn rest_of(sum: usize, part: usize) -> usize
    ensures { (n : ℕ) → min (part + n) most ≤ sum → min n most ≤ result }
{
    if sum == usize::MAX {
        sum
    } else {
        sum.saturating_sub(part)
    }
}

impl Load {
    ghost use Rattle.reading_machine.specs.declared.load.Load.{Load as TheLoad};

    /// Both together.
    pub fn with(self, other: Load) -> Load
        ensures { (a b : TheLoad) → Bounds a self → Bounds b other → Bounds (together a b) result }
    {
        Load {
            nodes: self.nodes.saturating_add(other.nodes),
            steps: self.steps.saturating_add(other.steps),
            opens: self.opens.saturating_add(other.opens),
        }
    }

    /// Without a part.
    pub fn without(self, part: Load) -> Load
        ensures { (a : TheLoad) → Bounds (together part a) self → Bounds a result }
    {
        Load {
            nodes: rest_of(self.nodes, part.nodes),
            steps: rest_of(self.steps, part.steps),
            opens: rest_of(self.opens, part.opens),
        }
    }

    /// Tells whether that is within the limits, where so many nodes that count are round it.
    pub fn is_light(self, round: usize) -> bool
        ensures { result ≡ is_light round self }
    {
        round.saturating_add(self.nodes) <= MOST_NESTED
            && self.steps <= MOST_NESTED_STEPS
            && self.opens < MOST_OPEN
    }
}

/// What there is without the symbols: values so high, or else what a rule makes of none, which isn't
/// higher than two nodes or a step, and so many open parentheses.
pub fn load_on(height: Height, parentheses: usize) -> Load
    ensures { result ≡ load_on height parentheses }
{
    Load {
        nodes: usize::from(height.nodes.max(2)),
        steps: usize::from(height.steps.max(1)),
        opens: parentheses,
    }
}

/// What the symbol adds to the height of what it finds, at most, and how many parentheses it opens.
pub fn load_of(symbol: Symbol) -> Load
    ensures { result ≡ load_of symbol }
{
    match symbol {
        Symbol::Take(_) | Symbol::Keep(_) => Load {
            opens: open_behind(0, symbol),
            ..LIGHTEST
        },
        Symbol::Part(rule) => {
            let (nodes, steps) = need(rule).3;
            Load {
                nodes: usize::from(nodes),
                steps: usize::from(steps),
                opens: 0,
            }
        }
        Symbol::Build(kind, _) => {
            let height = own_height(kind);
            Load {
                nodes: usize::from(height.nodes),
                steps: usize::from(height.steps),
                opens: 0,
            }
        }
        _ => LIGHTEST,
    }
}

/// The same of all these symbols.
pub fn load_in(line: &Line) -> Load
    ensures { Bounds (load_in line.now) result }
{
    let mut sum = LIGHTEST;
    for depth in 0..line.len() {
        let (_, symbol) = *line.at(depth);
        sum = sum.with(load_of(symbol));
    }
    sum
}
