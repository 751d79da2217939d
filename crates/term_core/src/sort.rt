// Sorts.
ghost use Rattle.std.specs.Prelude.{◌≡◌, IfOk};

use base_kit::{Copied, Memory};
use sqlite_items::{Boxed, Items};
use std::alloc::Global;

/// What values a term, or an object of a program, has.
#[derive(Debug, Drop)]
pub enum Sort {
    /// All whole numbers.
    Whole,
    /// The whole numbers from the first to the second.
    Range(i64, i64),
    /// The truth values.
    Truth,
    /// Lists with an element for each index from the first number to the second.
    Array(i64, i64, Boxed<Sort>),
    /// Components, of the record type whose entry in the list of type names has this number.
    Record(u32, Sorts),
    /// The terms of the generators of the sort of this number.
    Free(u32),
}

/// Sorts in order.
pub type Sorts = Items<Sort>;

impl Copied for Sort {
    #[cycle(copy)]
    fn copy(&self, alloc: Global) -> Result<Self, Memory> {
        Ok(match self {
            Sort::Whole => Sort::Whole,
            Sort::Range(low, high) => Sort::Range(*low, *high),
            Sort::Truth => Sort::Truth,
            Sort::Array(low, high, element) => {
                Sort::Array(*low, *high, Boxed::new(alloc, element.get().copy(alloc)?)?)
            }
            Sort::Record(number, parts) => Sort::Record(*number, copy_parts(parts, alloc)?),
            Sort::Free(number) => Sort::Free(*number),
        })
    }
}

// The copy of a list inside a sort: the generic one can't be part of the recursion.
#[cycle(copy)]
fn copy_parts(parts: &Sorts, alloc: Global) -> Result<Sorts, Memory>
    ensures { IfOk result (λ same. same ≡ parts.now) }
{
    let mut sorts = Items::new(alloc);
    for sort in parts.as_slice() {
        sorts.push(sort.copy(alloc)?)?;
    }
    Ok(sorts)
}
