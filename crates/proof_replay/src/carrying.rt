// Carrying the proofs of one unit, or of one lemma.
ghost use Rattle.std.specs.Prelude.{◌≡◌, ◌<◌, ◌^◌, length, IfOk};
ghost use Rattle.proof_replay.specs.Carrying.{takes, pass, fits_by_sequent, fits_by_key};

use crate::labels::{laid_keys, laid_sequents, offered_keys, offered_sequents};
use crate::passing::{no_takes, pass};
use base_kit::{Listed, Memory, Text};
use std::alloc::Global;
use term_core::{Obligation, Sequent};

/// A proof that is to be carried.
#[derive(Drop)]
pub struct Laid {
    /// Its key, without the name of its unit and the dot after it, as `entry.1`. It is empty where
    /// the key is the name of a lemma.
    pub key: Text,
    /// The sequent that it was laid on before; none where it is new, or was laid on none.
    pub sequent: Option<Sequent>,
}

/// For each proof the number of the obligation that it takes, from 0, or none for an orphan.
pub type Takes = Listed<Option<u32>>;

/// What becomes of proofs.
#[derive(Drop)]
pub struct Carried {
    pub takes: Takes,
}

/// Which of the new obligations of a unit, or of a lemma, each of its proofs takes. The proofs stand
/// in document order, and are those whose keys name that unit or lemma.
///
/// First each proof, in order, takes the first untaken obligation with the sequent that it was laid
/// on; then each that has none, in order, takes the obligation of its key if that is untaken. The
/// others are orphans. The only error is that memory is short.
pub fn carry(alloc: Global, proofs: &[Laid], new: &[Obligation]) -> Result<Carried, Memory>
    requires { length new.now < 2 ^ 32 }
    ensures { IfOk result (λ carried. carried.takes ≡ takes proofs.now new.now) }
{
    let none = no_takes(alloc, proofs)?;
    let by_sequent = take_by_sequent(alloc, proofs, new, &none)?;
    let takes = take_by_key(alloc, proofs, new, &by_sequent)?;
    Ok(Carried {
        takes: Takes::from(takes),
    })
}

fn take_by_sequent(
    alloc: Global,
    proofs: &[Laid],
    new: &[Obligation],
    taken: &[Option<u32>],
) -> Result<Vec<Option<u32>>, Memory>
    requires { length new.now < 2 ^ 32 }
    ensures { IfOk result (λ takes. takes.items ≡ pass fits_by_sequent proofs.now new.now taken.now) }
{
    let wanted = laid_sequents(alloc, proofs)?;
    pass(alloc, &wanted, offered_sequents(alloc, new)?, taken)
}

fn take_by_key(
    alloc: Global,
    proofs: &[Laid],
    new: &[Obligation],
    taken: &[Option<u32>],
) -> Result<Vec<Option<u32>>, Memory>
    requires { length new.now < 2 ^ 32 }
    ensures { IfOk result (λ takes. takes.items ≡ pass fits_by_key proofs.now new.now taken.now) }
{
    let wanted = laid_keys(alloc, proofs)?;
    pass(alloc, &wanted, offered_keys(alloc, new)?, taken)
}
