// The sizes of sorts, and the sort of a subtype.
ghost use Rattle.std.specs.Prelude.{◌≡◌, ◌-◌, ◌^◌, min, IfOk};
ghost use Rattle.std.specs.Option.{option_map_or, option_copied};
ghost use Rattle.term_core.specs.Sorts.{whole};
ghost use Rattle.term_core.specs.Terms.{range};
ghost use Rattle.type_definitions.specs.Sizes as spec;

use base_kit::{Copied, Memory};
use static_values::Subtype;
use std::alloc::Global;
use term_core::{Sort, SortEntry};

/// The number of nodes of a sort, or 18446744073709551615 where there are more. It takes no memory.
pub fn nodes(sort: &Sort) -> u64
    ensures { result ≡ min (spec.nodes_of sort.now) (2 ^ 64 - 1) }
{
    match sort {
        Sort::Whole | Sort::Range(_, _) | Sort::Truth | Sort::Free(_) => 1,
        Sort::Array(_, _, element) => nodes(element.get()).saturating_add(1),
        Sort::Record(_, parts) => {
            let mut count = 1u64;
            for part in parts.as_slice() {
                count = count.saturating_add(nodes(part));
            }
            count
        }
    }
}

/// The number of nodes on the longest way down, or 18446744073709551615 where there are more. It takes
/// no memory.
pub fn depth(sort: &Sort) -> u64
    ensures { result ≡ min (spec.depth_of sort.now) (2 ^ 64 - 1) }
{
    match sort {
        Sort::Whole | Sort::Range(_, _) | Sort::Truth | Sort::Free(_) => 1,
        Sort::Array(_, _, element) => depth(element.get()).saturating_add(1),
        Sort::Record(_, parts) => {
            let mut most = 0u64;
            for part in parts.as_slice() {
                most = most.max(depth(part));
            }
            most.saturating_add(1)
        }
    }
}

// Whole numbers of a range.
fn range(low: i64, high: i64) -> Sort
    ensures { result ≡ range low high }
{
    Sort::Range(low, high)
}

/// All whole numbers.
pub fn whole() -> Sort
    ensures { result ≡ whole }
{
    Sort::Whole
}

fn bounded(alloc: Global, subtype: Subtype, sort: &Sort) -> Result<Sort, Memory>
    ensures { IfOk result (λ s. s ≡ spec.bounded_by subtype sort.now) }
{
    match sort {
        Sort::Range(_, _) => Ok(range(subtype.low, subtype.high)),
        sort => sort.copy(alloc),
    }
}

/// The sort of a subtype.
pub fn sort_of(alloc: Global, names: &[SortEntry], subtype: Subtype) -> Result<Sort, Memory>
    ensures { IfOk result (λ s. s ≡ spec.sort_of names.now subtype) }
{
    match names.get(subtype.entry as usize) {
        Some(entry) => bounded(alloc, subtype, &entry.sort),
        None => Ok(whole()),
    }
}

/// The nodes of a subtype's sort.
pub fn nodes_at(names: &[SortEntry], subtype: Subtype) -> u64
    ensures { result ≡ min (spec.nodes_at names.now subtype) (2 ^ 64 - 1) }
{
    match names.get(subtype.entry as usize) {
        Some(entry) => nodes(&entry.sort),
        None => 1,
    }
}

/// The depth of a subtype's sort.
pub fn depth_at(names: &[SortEntry], subtype: Subtype) -> u64
    ensures { result ≡ min (spec.depth_at names.now subtype) (2 ^ 64 - 1) }
{
    match names.get(subtype.entry as usize) {
        Some(entry) => depth(&entry.sort),
        None => 1,
    }
}
