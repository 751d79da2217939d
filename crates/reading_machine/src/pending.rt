// What is still to be read.
ghost use Rattle.std.specs.Prelude.{◌≡◌, ◌<◌, [], ◌∷◌, ◌++◌, length, slice_get, Some, MatchOption, OnOk};
ghost use Rattle.reading_machine.specs.Loads.{load_in, Bounds};

use crate::load::{HEAVIEST, Load, load_in, load_of};
use crate::stack::Line;
use base_kit::Memory;
use reading_table::Symbol;
use std::marker::Model;
use std::mem;

/// The symbols that are still to be read, each with its side, and what they put round values. Contracts
/// see the symbols.
#[derive(Drop)]
pub struct Pending {
    symbols: Line,
    load: Load,
}

impl Model for Pending {
    ghost use Rattle.std.specs.Prelude.{List};
    ghost use Rattle.reading_machine.specs.Loads.{load_in, Bounds};
    ghost use Rattle.reading_table.specs.Rows.{Placed};

    ghost Value = { List Placed };

    ghost view = { λ pending. pending.symbols };

    ghost invariant = { λ pending. Bounds (load_in pending.symbols) pending.load };
}

impl Pending {
    pub fn new(symbols: Line) -> Self
        ensures { result ≡ symbols }
    {
        let load = load_in(&symbols);
        Pending { symbols, load }
    }

    pub fn len(&self) -> usize
        ensures { result ≡ length self.now }
    {
        self.symbols.len()
    }

    /// The symbol so many below the last one, of which there are more.
    pub fn at(&self, depth: usize) -> &(bool, Symbol)
        requires { depth < length self.now }
        ensures { slice_get self.now depth ≡ Some result.now }
    {
        self.symbols.at(depth)
    }

    /// What the symbols put round values, at most.
    pub fn load(&self) -> Load
        ensures { Bounds (load_in self.now) result }
    {
        self.load
    }

    pub fn pop(&mut self) -> Option<(bool, Symbol)>
        ensures { MatchOption result ((self.old ≡ []) × (self.new ≡ [])) (λ last. self.old ≡ last ∷ self.new) }
    {
        let (note, symbol) = self.symbols.pop()?;
        self.load = self.load.without(load_of(symbol));
        Some((note, symbol))
    }

    /// Puts the line before what is there.
    #[tactic(auto, using(crate::proofs::Bounding::load_before))]
    pub fn push_all(&mut self, line: &Line) -> Result<(), Memory>
        ensures { OnOk result (self.new ≡ line.now ++ self.old) }
    {
        let rest = mem::replace(&mut self.load, HEAVIEST);
        self.symbols.push_all(line)?;
        self.load = load_in(line).with(rest);
        Ok(())
    }
}
