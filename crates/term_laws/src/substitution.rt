// What substitution means.
ghost use Rattle.std.specs.Prelude.{◌≡◌, ℕ, List, true, false, Some};
ghost use Rattle.term_core.specs.declared.replacing.Entry.{Entry};
ghost use Rattle.term_core.specs.declared.term.Term.{Term};
ghost use Rattle.term_core.specs.Evaluation.{Meaning, value};
ghost use Rattle.term_core.specs.Names.{has};
ghost use Rattle.term_core.specs.Substitution.{free, Sub, put, normal, subst_of, put_all};
ghost use Rattle.term_core.specs.Values.{Value, Env, set};

/// The value of a result is the term's, in the state where each name has the value of what is put
/// in its place.
pub fn substitution_keeps_values()
    ensures at_once { (n : ℕ) (me : Meaning) (t : Term) (s : Sub) (env inside : Env)
        → ((x : List ℕ) → has (free t) x ≡ true → value n me (s x) env ≡ Some (inside x))
        → value n me (put t s) env ≡ value n me t inside }
    ensures one { (n : ℕ) (me : Meaning) (t by : Term) (x : List ℕ) (env : Env) (v : Value)
        → value n me by env ≡ Some v → value n me (subst_of t x by) env ≡ value n me t (set env x v) }
    ensures normal { (n : ℕ) (me : Meaning) (t : Term) (env : Env) → value n me (normal t) env ≡ value n me t env }
{}

/// One substitution after another is one.
pub fn substitutions_compose()
    ensures composed { (t : Term) (s u : Sub) → put (put t s) u ≡ put t (λ x. put (s x) u) }
    ensures unused { (t by : Term) (x : List ℕ) → has (free t) x ≡ false → subst_of t x by ≡ normal t }
{}

/// Results are normal: each bound name is the one that a substitution gives it.
pub fn results_are_normal()
    ensures normal { (t : Term) → normal (normal t) ≡ normal t }
    ensures put_all { (t : Term) (entries : List Entry) → normal (put_all t entries) ≡ put_all t entries }
    ensures put { (t : Term) (s : Sub) → ((x : List ℕ) → has (free t) x ≡ true → normal (s x) ≡ s x) → normal (put t s) ≡ put t s }
{}
