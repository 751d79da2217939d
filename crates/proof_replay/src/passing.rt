// One pass: each that has taken none takes the first of what is left that fits it.
ghost use Rattle.std.specs.Prelude.{◌≡◌, ◌<◌, ◌^◌, ℕ, List, map, length, nat_eq, ◌∷◌, IfOk, OnOk, Option, Some, None};
ghost use Rattle.std.specs.HashSet as bag;
ghost use Rattle.std.specs.Map.{lookup, remove_entry};
ghost use Rattle.proof_replay.specs.Carrying.{is_taken, untaken, pass};
ghost use Rattle.proof_replay.specs.Queues.{fits_label, Queued, taken_by, left_by};

use base_kit::Memory;
use std::alloc::Global;
use std::collections::{HashMap, HashSet};
use std::hash::Hash;

/// None, for each.
pub fn no_takes<T>(alloc: Global, proofs: &[T]) -> Result<Vec<Option<u32>>, Memory>
    ensures { IfOk result (λ takes. takes.items ≡ map (λ p. None) proofs.now) }
{
    Ok(proofs.iter().map(|_| None).collect(alloc)?)
}

// The numbers that were taken.
fn numbers(alloc: Global, taken: &[Option<u32>]) -> Result<HashSet<u32>, Memory>
    ensures { IfOk result (λ numbers. (j : ℕ) → bag.contains nat_eq numbers j ≡ is_taken taken.now j) }
{
    let mut numbers = HashSet::new(alloc);
    for take in taken {
        if let Some(number) = take {
            numbers.insert(*number)?;
        }
    }
    Ok(numbers)
}

// Adds a number with its label, before those that are there.
fn add<K: Eq + Hash + Drop>(
    alloc: Global,
    queues: &mut HashMap<K, Vec<u32>>,
    label: K,
    number: u32,
) -> Result<(), Memory>
    ensures { OnOk result ((l : List (K × ℕ)) → Queued K.eq queues.old l → Queued K.eq queues.new ((label, number) ∷ l)) }
{
    match queues.get_mut(&label) {
        Some(queue) => queue.push(number)?,
        None => {
            let queue = vec![in alloc; number]?;
            queues.insert(label, queue)?;
        }
    }
    Ok(())
}

// The numbers of the labels that aren't taken, by label, the last one first.
fn queues<K: Eq + Hash + Drop>(
    alloc: Global,
    offered: Vec<K>,
    taken: &HashSet<u32>,
) -> Result<HashMap<K, Vec<u32>>, Memory>
    requires { length offered.items < 2 ^ 32 }
    ensures { IfOk result (λ queues. (t : List (Option ℕ))
        → ((j : ℕ) → bag.contains nat_eq taken.now j ≡ is_taken t j) → Queued K.eq queues (untaken t offered.items)) }
{
    let mut queues = HashMap::new(alloc);
    let mut rest = offered;
    while let Some(label) = rest.pop() {
        let number = rest.len() as u32;
        if taken.contains(&number) {
            continue;
        }
        add(alloc, &mut queues, label, number)?;
    }
    Ok(queues)
}

// The first number left with a label, which is then taken.
fn first_left<K: Eq + Hash + Drop>(left: &mut HashMap<K, Vec<u32>>, label: &K) -> Option<u32>
    ensures { (l : List (K × ℕ)) → Queued K.eq left.old l
        → (result ≡ lookup (K.eq label.now) l) × Queued K.eq left.new (remove_entry (K.eq label.now) l) }
{
    left.get_mut(label)?.pop()
}

// What is taken next: what was taken before, or the first number left with the label, if any is
// looked for.
fn next<K: Eq + Hash + Drop>(
    left: &mut HashMap<K, Vec<u32>>,
    wanted: &Option<K>,
    before: Option<u32>,
) -> Option<u32>
    ensures { (l : List (K × ℕ)) → Queued K.eq left.old l
        → (result ≡ taken_by K.eq wanted.now before l) × Queued K.eq left.new (left_by K.eq wanted.now before l) }
{
    match (before, wanted) {
        (Some(number), _) => Some(number),
        (None, Some(label)) => first_left(left, label),
        (None, None) => None,
    }
}

/// One pass over proofs that look for labels, in order, where the obligations have labels: each
/// that has taken none takes the first obligation left with the label that it looks for.
///
/// It is linear in the labels, apart from what it costs to hash and compare them: each is hashed
/// twice at most, and compared where hashes agree.
pub fn pass<K: Eq + Hash + Drop>(
    alloc: Global,
    wanted: &[Option<K>],
    offered: Vec<K>,
    taken: &[Option<u32>],
) -> Result<Vec<Option<u32>>, Memory>
    requires { length offered.items < 2 ^ 32 }
    ensures { IfOk result (λ takes. takes.items ≡ pass (fits_label K.eq) wanted.now offered.items taken.now) }
{
    let mut left = queues(alloc, offered, &numbers(alloc, taken)?)?;
    let mut takes = Vec::new(alloc);
    for (label, before) in wanted.iter().zip(taken.iter()) {
        takes.push(next(&mut left, label, *before))?;
    }
    Ok(takes)
}
