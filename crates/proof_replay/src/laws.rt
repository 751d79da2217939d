// What holds of carrying. Each law is the contract of a function that does nothing.
ghost use Rattle.std.specs.Bool.{Decides};
ghost use Rattle.std.specs.Prelude.{◌≡◌, ◌<◌, ◌^◌, ◌↔◌, ◌⊎◌, ℕ, List, map, length, take, slice_get, Some};
ghost use Rattle.term_core.specs.declared.obligation.Obligation.{Obligation};
ghost use Rattle.term_core.specs.declared.sequent.Sequent.{Sequent};
ghost use Rattle.proof_replay.specs.Carrying.{takes};
ghost use Rattle.proof_replay.specs.Keys.{key_from, key_of};
ghost use Rattle.proof_replay.specs.Sequents.{same_sequent};
ghost use Rattle.proof_replay.specs.Words.{Takes, IsOrphan, IsTaken, IsTakenBefore, laid_on, having, KeysApart, SequentsApart, unlaid, IsFirstOfKey, carried, kept, InOrder, AllBySequent};
ghost use Rattle.proof_replay.specs.declared.carrying.Laid.{Laid as Proof};

/// The test of sequents that carrying makes holds exactly of equal ones.
pub fn sequents_tell()
    ensures { (s t : Sequent) → Decides (same_sequent s t) (s ≡ t) }
{}

/// Keys tell obligations: two are equal only where the cuts and the ordinals are.
pub fn keys_tell_obligations()
    ensures { (c d : List ℕ) (m n : ℕ) → m < 2 ^ 32 → n < 2 ^ 32
        → key_from c m ≡ key_from d n → (c ≡ d) × (m ≡ n) }
{}

/// Each proof takes an obligation, or none.
pub fn takes_are_obligations()
    ensures each { (proofs : List Proof) (new : List Obligation) → length (takes proofs new) ≡ length proofs }
    ensures obligation { (proofs : List Proof) (new : List Obligation) (i j : ℕ) → Takes proofs new i j → j < length new }
{}

/// No obligation is taken twice.
pub fn no_obligation_is_taken_twice()
    ensures { (proofs : List Proof) (new : List Obligation) (i k j : ℕ)
        → Takes proofs new i j → Takes proofs new k j → i ≡ k }
{}

/// What a proof takes has the sequent that it was laid on, or its key.
pub fn what_is_taken_fits()
    ensures { (proofs : List Proof) (new : List Obligation) (i j : ℕ) (p : Proof) (o : Obligation)
        → slice_get proofs i ≡ Some p → slice_get new j ≡ Some o → Takes proofs new i j
        → (p.sequent ≡ Some o.sequent) ⊎ (p.key ≡ key_of o) }
{}

/// Where a proof is an orphan, each obligation with the sequent that it was laid on is taken by an
/// earlier proof that was laid on it too, and the obligation of its key is taken. So a proof is
/// never lost whose sequent, or whose key, still stands in an obligation that none takes.
pub fn no_proof_is_lost()
    ensures sequent { (proofs : List Proof) (new : List Obligation) (i j : ℕ) (p : Proof) (o : Obligation)
        → slice_get proofs i ≡ Some p → slice_get new j ≡ Some o → p.sequent ≡ Some o.sequent
        → IsOrphan proofs new i → IsTakenBefore proofs new i o.sequent j }
    ensures key { (proofs : List Proof) (new : List Obligation) (i j : ℕ) (p : Proof) (o : Obligation)
        → slice_get proofs i ≡ Some p → slice_get new j ≡ Some o → p.key ≡ key_of o
        → IsOrphan proofs new i → IsTaken proofs new j }
{}

/// Of the proofs that were laid on a sequent, and of the obligations that have it, the first proof
/// takes the first obligation, the second the second, and so on. So a proof whose sequent still
/// stands keeps its place where as many obligations with it stand before that place as proofs that
/// were laid on it stand before the proof, and nowhere else; above all, where there is one of each.
pub fn equal_sequents_pair_in_order()
    ensures exactly { (proofs : List Proof) (new : List Obligation) (i j : ℕ) (p : Proof) (o : Obligation)
        → slice_get proofs i ≡ Some p → slice_get new j ≡ Some o → p.sequent ≡ Some o.sequent
        → Takes proofs new i j ↔ (laid_on o.sequent (take i proofs) ≡ having o.sequent (take j new)) }
    ensures first { (proofs : List Proof) (new : List Obligation) (i j : ℕ) (p : Proof) (o : Obligation)
        → slice_get proofs i ≡ Some p → slice_get new j ≡ Some o → p.sequent ≡ Some o.sequent
        → laid_on o.sequent (take i proofs) ≡ 0 → having o.sequent (take j new) ≡ 0 → Takes proofs new i j }
{}

/// When a document is read for the first time, no proof was laid on a sequent. Then, where the
/// obligations have distinct keys, a proof takes the obligation of its key exactly where it is the
/// first proof of that key.
pub fn first_readings_go_by_keys()
    ensures { (proofs : List Proof) (new : List Obligation) → KeysApart new
        → (i j : ℕ) (p : Proof) (o : Obligation) → slice_get proofs i ≡ Some p → slice_get new j ≡ Some o → p.key ≡ key_of o
        → Takes (map unlaid proofs) new i j ↔ IsFirstOfKey proofs i p }
{}

/// Where the obligations have distinct keys, the proofs have afterwards.
pub fn carried_keys_are_distinct()
    ensures { (proofs : List Proof) (new : List Obligation) → KeysApart new
        → (i k : ℕ) (p q : Proof) → slice_get (carried proofs new) i ≡ Some p → slice_get (carried proofs new) k ≡ Some q
        → p.key ≡ q.key → i ≡ k }
{}

/// Where the obligations have distinct keys, each carried proof takes what it took when its text is
/// read anew, and nothing is known of it but its key.
pub fn carried_proofs_are_laid_there()
    ensures { (proofs : List Proof) (new : List Obligation) → KeysApart new
        → takes (map unlaid (carried proofs new)) new ≡ kept proofs new }
{}

/// When proofs are carried again to the same obligations, each takes what it took, exactly where
/// those on one sequent stand in the order of the obligations with it. That is so where each was
/// carried by its sequent, and where no two obligations have one sequent. (A proof that took the
/// second of two obligations with one sequent, by its key, takes the first when it is carried again,
/// if that is free.) From the second time on it is always so, and there are no orphans.
pub fn carrying_twice_is_carrying_once()
    ensures exactly { (proofs : List Proof) (new : List Obligation)
        → (takes (carried proofs new) new ≡ kept proofs new) ↔ InOrder proofs new }
    ensures by_sequent { (proofs : List Proof) (new : List Obligation) → AllBySequent proofs new
        → takes (carried proofs new) new ≡ kept proofs new }
    ensures apart { (proofs : List Proof) (new : List Obligation) → SequentsApart new
        → takes (carried proofs new) new ≡ kept proofs new }
    ensures settled { (proofs : List Proof) (new : List Obligation)
        → takes (carried (carried proofs new) new) new ≡ takes (carried proofs new) new }
    ensures no_orphans { (proofs : List Proof) (new : List Obligation) (i : ℕ) → ¬ IsOrphan (carried proofs new) new i }
{}
