// What closing means.
ghost use Rattle.std.specs.Prelude.{◌≡◌, ℕ, ℤ, List, Some};
ghost use Rattle.linear_facts.specs.Closing.{Closes};
ghost use Rattle.term_core.specs.declared.sequent.Sequent.{Sequent};
ghost use Rattle.term_core.specs.Evaluation.{Meaning, value};
ghost use Rattle.term_core.specs.Validity.{Holds, AllHold, Valid};
ghost use Rattle.term_core.specs.Values.{Value, Env};
ghost use Rattle.term_laws.specs.Settled.{Settled};

/// A sequent that coefficients close is valid, well sorted or not.
pub fn closing_sequents_are_valid()
    // For every list of equations: where the hypotheses hold and the goal has a value, it holds.
    ensures in_each_state { (me : Meaning) (sequent : Sequent) (cs : List ℤ) (env : Env) (n : ℕ) (v : Value)
        → Closes sequent cs → AllHold me sequent.hyps env → value n me sequent.goal env ≡ Some v
        → Holds me sequent.goal env }
    ensures valid { (me : Meaning) → Settled me → (sequent : Sequent) (cs : List ℤ)
        → Closes sequent cs → Valid me sequent }
{}
