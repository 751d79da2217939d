// The size and the depth of terms.
ghost use Rattle.std.specs.Prelude.{◌≡◌, ◌-◌, ◌^◌, min};
ghost use Rattle.term_core.specs.Terms.{size_of, depth_of};

use crate::Term;

/// The number of nodes, or 18446744073709551615 where there are more. It takes no memory.
pub fn size(term: &Term) -> u64
    ensures { result ≡ min (size_of term.now) (2 ^ 64 - 1) }
{
    match term {
        Term::Int(_) => 1,
        Term::Truth(_) => 1,
        Term::Var(_) => 1,
        Term::Op(_, terms) => {
            let mut count = 1u64;
            for part in terms.as_slice() {
                count = count.saturating_add(size(part));
            }
            count
        }
        Term::All(_, low, high, body) => size(low.get())
            .saturating_add(size(high.get()))
            .saturating_add(size(body.get()))
            .saturating_add(1),
        Term::Some(_, low, high, body) => size(low.get())
            .saturating_add(size(high.get()))
            .saturating_add(size(body.get()))
            .saturating_add(1),
    }
}

/// The number of nodes on the longest way down, 1 for a leaf, or 18446744073709551615 where there
/// are more. It takes no memory.
pub fn depth(term: &Term) -> u64
    ensures { result ≡ min (depth_of term.now) (2 ^ 64 - 1) }
{
    match term {
        Term::Int(_) => 1,
        Term::Truth(_) => 1,
        Term::Var(_) => 1,
        Term::Op(_, terms) => {
            let mut most = 0u64;
            for part in terms.as_slice() {
                most = most.max(depth(part));
            }
            most.saturating_add(1)
        }
        Term::All(_, low, high, body) => depth(low.get())
            .max(depth(high.get()))
            .max(depth(body.get()))
            .saturating_add(1),
        Term::Some(_, low, high, body) => depth(low.get())
            .max(depth(high.get()))
            .max(depth(body.get()))
            .saturating_add(1),
    }
}
