// The sort of a type definition, and its size.
ghost use Rattle.std.specs.Prelude.{◌≡◌, ◌-◌, ◌^◌, ◌+◌, min, map, sum, IfOk};
ghost use Rattle.term_core.specs.Terms.{largest};
ghost use Rattle.type_definitions.specs.Sizes as size;
ghost use Rattle.type_definitions.specs.Definitions as def;

use crate::definitions::Defined;
use crate::limits::{DEEPEST_SORT, LARGEST_SORT};
use crate::sizes::{depth_at, nodes_at, sort_of};
use base_kit::Memory;
use sqlite_items::{Boxed, Items};
use static_values::{Component, Shape};
use std::alloc::Global;
use term_core::{Sort, SortEntry, Sorts};

fn all_nodes(names: &[SortEntry], parts: &[Component]) -> u64
    ensures { result ≡ min (1 + sum (map (def.component_nodes names.now) parts.now)) (2 ^ 64 - 1) }
{
    let mut count = 1u64;
    for part in parts {
        count = count.saturating_add(nodes_at(names, part.subtype));
    }
    count
}

fn deepest(names: &[SortEntry], parts: &[Component]) -> u64
    ensures { result ≡ min (largest (map (def.component_depth names.now) parts.now)) (2 ^ 64 - 1) }
{
    let mut most = 0u64;
    for part in parts {
        most = most.max(depth_at(names, part.subtype));
    }
    most
}

fn nodes(names: &[SortEntry], shape: &Shape) -> u64
    ensures { result ≡ min (def.nodes_by names.now shape.now) (2 ^ 64 - 1) }
{
    match shape {
        Shape::Array(_, element) => nodes_at(names, *element).saturating_add(1),
        Shape::Record(parts) => all_nodes(names, parts.as_slice()),
        _ => 1,
    }
}

fn depth(names: &[SortEntry], shape: &Shape) -> u64
    ensures { result ≡ min (def.depth_by names.now shape.now) (2 ^ 64 - 1) }
{
    match shape {
        Shape::Array(_, element) => depth_at(names, *element).saturating_add(1),
        Shape::Record(parts) => deepest(names, parts.as_slice()).saturating_add(1),
        _ => 1,
    }
}

/// Whether the sort of a type is too large, by arithmetic: no sort is made for it.
pub fn is_too_large(names: &[SortEntry], shape: &Shape) -> bool
    ensures { result
        ≡ size.is_too_large (def.nodes_by names.now shape.now)
        (def.depth_by names.now shape.now) }
{
    nodes(names, shape) > LARGEST_SORT || depth(names, shape) > DEEPEST_SORT
}

fn sorts_of(alloc: Global, names: &[SortEntry], parts: &[Component]) -> Result<Sorts, Memory>
    ensures { IfOk result (λ sorts. sorts ≡ map (def.component_sort names.now) parts.now) }
{
    let mut sorts = Items::new(alloc);
    for part in parts {
        sorts.push(sort_of(alloc, names, part.subtype)?)?;
    }
    Ok(sorts)
}

/// The sort of a type whose entry has this number.
pub fn defined_sort(
    alloc: Global,
    names: &[SortEntry],
    defined: &Defined,
    number: u32,
) -> Result<Sort, Memory>
    ensures { IfOk result (λ sort. sort ≡ def.defined_sort names.now defined.now number) }
{
    let low = defined.low;
    let high = defined.high;
    match &defined.shape {
        Shape::Integer | Shape::Enumeration => Ok(Sort::Range(low, high)),
        Shape::Truth => Ok(Sort::Truth),
        Shape::Private => Ok(Sort::Whole),
        Shape::Array(index, element) => {
            let element = sort_of(alloc, names, *element)?;
            Ok(Sort::Array(index.low, index.high, Boxed::new(alloc, element)?))
        }
        Shape::Record(parts) => Ok(Sort::Record(number, sorts_of(alloc, names, parts.as_slice())?)),
    }
}
