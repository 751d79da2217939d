// A stack.
ghost use Rattle.std.specs.Prelude.{◌≡◌, ◌<◌, List, [], ◌∷◌, ◌++◌, take, drop, reverse, length, slice_get, Some, MatchOption, IfOk, OnOk};
ghost use Rattle.std.specs.Option.{option_copied};
ghost use Rattle.reading_table.specs.Rows.{placed};

use base_kit::Memory;
use reading_table::{Mass, Symbol};
use std::alloc::Global;
use std::marker::Model;

/// A `Vec` that contracts see from its last member on.
#[derive(Drop)]
pub struct Stack<T> {
    members: Vec<T>,
}

impl<T> Model for Stack<T> {
    ghost use Rattle.std.specs.Prelude.{List, reverse};
    ghost use Rattle.std.specs.Coded.{coded_list};

    ghost Value = { List T };

    ghost coded = { coded_list T.code };

    ghost view = { λ stack. reverse stack.members.items };
}

impl<T> Stack<T> {
    pub fn new(alloc: Global) -> Self
        ensures { result ≡ [] }
    {
        Stack {
            members: Vec::new(alloc),
        }
    }

    pub fn len(&self) -> usize
        ensures { result ≡ length self.now }
    {
        self.members.len()
    }

    pub fn pop(&mut self) -> Option<T>
        ensures { MatchOption result ((self.old ≡ []) × (self.new ≡ [])) (λ last. self.old ≡ last ∷ self.new) }
    {
        self.members.pop()
    }

    /// The member so many below the last one, of which there are more.
    pub fn at(&self, depth: usize) -> &T
        requires { depth < length self.now }
        ensures { slice_get self.now depth ≡ Some result.now }
    {
        &self.members[self.members.len() - 1 - depth]
    }

    /// The member so many below the last one.
    pub fn below(&self, depth: usize) -> Option<&T>
        ensures { option_copied result ≡ slice_get self.now depth }
    {
        self.members.iter().rev().nth(depth)
    }
}

impl Stack<Mass> {
    /// The same members in a stack of their own.
    pub fn copied(&self, alloc: Global) -> Result<Self, Memory>
        ensures { IfOk result (λ same. same ≡ self.now) }
    {
        Ok(Stack {
            members: self.members.as_slice().to_vec(alloc)?,
        })
    }
}

impl<T: Drop> Stack<T> {
    pub fn push(&mut self, member: T) -> Result<(), Memory>
        ensures { OnOk result (self.new ≡ member ∷ self.old) }
    {
        self.members.push(member)?;
        Ok(())
    }

    /// Takes the last members, so many or all, in the order in which they came.
    #[tactic(auto, using(crate::proofs::Stacks::last_taken, crate::proofs::Stacks::last_left))]
    pub fn take_last(&mut self, count: usize) -> Result<Vec<T>, Memory>
        ensures { IfOk result (λ taken. (reverse taken.items ≡ take count self.old) × (self.new ≡ drop count self.old)) }
    {
        Ok(
            self.members
                .split_off(self.members.len().saturating_sub(count))?,
        )
    }
}

/// Symbols, each with its side.
pub type Line = Stack<(bool, Symbol)>;

impl Stack<(bool, Symbol)> {
    /// Puts the line before what is there.
    #[tactic(auto, using(crate::proofs::Stacks::line_before))]
    pub fn push_all(&mut self, line: &Line) -> Result<(), Memory>
        ensures { OnOk result (self.new ≡ line.now ++ self.old) }
    {
        self.members.extend_from_slice(line.members.as_slice())?;
        Ok(())
    }
}

/// Puts the row, on this side, before what is there.
pub fn push_row(stack: &mut Line, note: bool, row: &[Symbol]) -> Result<(), Memory>
    ensures { OnOk result (stack.new ≡ placed note row.now ++ stack.old) }
{
    let mut rest = row;
    while let Some((symbol, front)) = rest.split_last() {
        stack.push((note, *symbol))?;
        rest = front;
    }
    Ok(())
}
