// What limits see of the values, with how high they are.
ghost use Rattle.std.specs.Prelude.{◌≡◌, [], OnOk, IfOk};
ghost use Rattle.reading_machine.specs.Loads.{last_height, Covers};
ghost use Rattle.reading_table.specs.Heights.{highest, rise};

use crate::masses::{FLAT, height_in, higher, highest, rise};
use crate::stack::Stack;
use base_kit::Memory;
use reading_table::{Height, Mass, Symbol};
use std::alloc::Global;
use std::marker::Model;
use std::mem;

// It may be any height.
const HIGHEST: Height = Height {
    nodes: u8::MAX,
    steps: u8::MAX,
};

/// What limits see of the values, and a height that none of them passes. Contracts see the values.
#[derive(Drop)]
pub struct Masses {
    masses: Stack<Mass>,
    height: Height,
}

impl Model for Masses {
    ghost use Rattle.std.specs.Prelude.{List};
    ghost use Rattle.reading_machine.specs.Loads.{Covers};
    ghost use Rattle.reading_table.specs.declared.need.Mass.{Mass as TheMass};
    ghost use Rattle.reading_table.specs.Heights.{highest};

    ghost Value = { List TheMass };

    ghost view = { λ masses. masses.masses };

    ghost invariant = { λ masses. Covers (highest masses.masses) masses.height };
}

fn last_height(masses: &Stack<Mass>) -> Height
    ensures { result ≡ last_height masses.now }
{
    match masses.below(0) {
        None => FLAT,
        Some(mass) => height_in(*mass),
    }
}

impl Masses {
    pub fn new(alloc: Global) -> Self
        ensures { result ≡ [] }
    {
        Masses {
            masses: Stack::new(alloc),
            height: FLAT,
        }
    }

    /// The same in a stack of their own.
    pub fn copied(&self, alloc: Global) -> Result<Stack<Mass>, Memory>
        ensures { IfOk result (λ same. same ≡ self.now) }
    {
        self.masses.copied(alloc)
    }

    /// A height that none passes.
    pub fn height(&self) -> Height
        ensures { Covers (highest self.now) result }
    {
        self.height
    }

    /// What they are after the symbol.
    #[tactic(auto, using(crate::proofs::Bounding::risen_covered))]
    pub fn rise(&mut self, symbol: Symbol) -> Result<(), Memory>
        ensures { OnOk result (self.new ≡ rise symbol self.old) }
    {
        let height = mem::replace(&mut self.height, HIGHEST);
        rise(&mut self.masses, symbol)?;
        self.height = higher(height, last_height(&self.masses));
        Ok(())
    }

    /// Sees how high they are, and so lowers the height that none passes.
    pub fn measure(&mut self, alloc: Global) -> Result<(), Memory>
        ensures { self.new ≡ self.old }
    {
        self.height = highest(self.masses.copied(alloc)?);
        Ok(())
    }
}
