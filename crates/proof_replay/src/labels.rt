// What proofs look for and obligations have: sequents, and keys.
ghost use Rattle.std.specs.Prelude.{◌≡◌, ◌↔◌, map, IfOk, IsTrue, Some};
ghost use Rattle.std.specs.Option.{option_map};
ghost use Rattle.std.proofs.Common.{ap};
ghost use Rattle.std.specs.Cmp.{on_per, on_equiv};
ghost use Rattle.std.specs.Hash as fed;
ghost use Rattle.proof_replay.specs.Digests.{digest_of};
ghost use Rattle.proof_replay.specs.Keys.{key_of};
ghost use Rattle.proof_replay.specs.Sequents.{same_sequent, sequent_per, sequent_equality, equal_digests};

use crate::Laid;
use crate::digest::digest;
use base_kit::Memory;
use std::alloc::Global;
use std::hash::{Hash, Hasher};
use term_core::{Obligation, Sequent, Var, equal, equal_all, equal_sorts, same_text};

fn same_var(a: &Var, b: &Var) -> bool
    ensures { IsTrue result ↔ (a.now ≡ b.now) }
{
    same_text(&a.name, &b.name) && same_text(&a.label, &b.label) && equal_sorts(&a.sort, &b.sort)
}

fn same_vars(xs: &[Var], ys: &[Var]) -> bool
    ensures { IsTrue result ↔ (xs.now ≡ ys.now) }
{
    if xs.len() != ys.len() {
        return false;
    }
    for (i, x) in xs.iter().enumerate() {
        if !same_var(x, &ys[i]) {
            return false;
        }
    }
    true
}

// Whether two sequents are the same, as they are written.
fn same_sequent(a: &Sequent, b: &Sequent) -> bool
    ensures { IsTrue result ↔ (a.now ≡ b.now) }
{
    same_vars(a.vars.as_slice(), b.vars.as_slice())
        && equal_all(a.hyps.as_slice(), b.hyps.as_slice())
        && equal(&a.goal, &b.goal)
}

/// A sequent that is sought by its digest, and then compared.
#[derive(Clone, Copy)]
pub struct Sought<'a>(&'a Sequent);

impl PartialEq for Sought<'_> {
    ghost eq = { λ a b. same_sequent a.0.now b.0.now };

    ghost laws = { on_per (λ a. a.0.now) sequent_per };

    fn eq(&self, other: &Self) -> bool {
        same_sequent(self.0, other.0)
    }
}

impl Eq for Sought<'_> {
    ghost laws = { on_equiv (λ a. a.0.now) sequent_equality };
}

impl Hash for Sought<'_> {
    ghost hash_input = { λ a. fed.u64 (digest_of a.0.now) };

    ghost respects_eq = { λ x y e. ap fed.u64 (equal_digests x.0.now y.0.now e) };

    fn hash<H: Hasher>(&self, state: &mut H) {
        state.write_u64(digest(self.0));
    }
}

/// What proofs look for at first: the sequents that they were laid on.
pub fn laid_sequents<'a>(
    alloc: Global,
    proofs: &'a [Laid],
) -> Result<Vec<Option<Sought<'a>>>, Memory>
    ensures { IfOk result (λ wanted. map (option_map (λ s. s.0.now)) wanted.items ≡ map (λ p. p.sequent) proofs.now) }
{
    let mut wanted = Vec::new(alloc);
    for proof in proofs {
        wanted.push(match &proof.sequent {
            Some(sequent) => Some(Sought(sequent)),
            None => None,
        })?;
    }
    Ok(wanted)
}

/// The sequents of obligations.
pub fn offered_sequents<'a>(alloc: Global, new: &'a [Obligation]) -> Result<Vec<Sought<'a>>, Memory>
    ensures { IfOk result (λ offered. map (λ s. s.0.now) offered.items ≡ map (λ o. o.sequent) new.now) }
{
    let mut offered = Vec::new(alloc);
    for obligation in new {
        offered.push(Sought(&obligation.sequent))?;
    }
    Ok(offered)
}

/// What proofs look for then: their keys.
pub fn laid_keys(alloc: Global, proofs: &[Laid]) -> Result<Vec<Option<Vec<u8>>>, Memory>
    ensures { IfOk result (λ wanted. map (option_map (λ k. k.items)) wanted.items ≡ map (λ p. Some p.key) proofs.now) }
{
    let mut wanted = Vec::new(alloc);
    for proof in proofs {
        wanted.push(Some(proof.key.as_bytes().to_vec(alloc)?))?;
    }
    Ok(wanted)
}

// The key of an obligation, without the name of its unit.
fn key(alloc: Global, obligation: &Obligation) -> Result<Vec<u8>, Memory>
    ensures { IfOk result (λ key. key.items ≡ key_of obligation.now) }
{
    let cut = obligation.cut.as_bytes();
    if cut.is_empty() && obligation.ordinal == 0 {
        return Ok(Vec::new(alloc));
    }
    let mut key = cut.to_vec(alloc)?;
    key.push(b'.')?;
    let ordinal = obligation.ordinal;
    key.extend_from_slice(format!(in alloc; "{ordinal}")?.as_bytes())?;
    Ok(key)
}

/// The keys of obligations.
pub fn offered_keys(alloc: Global, new: &[Obligation]) -> Result<Vec<Vec<u8>>, Memory>
    ensures { IfOk result (λ offered. map (λ k. k.items) offered.items ≡ map key_of new.now) }
{
    let mut offered = Vec::new(alloc);
    for obligation in new {
        offered.push(key(alloc, obligation)?)?;
    }
    Ok(offered)
}
