// One value for each term, without bounds.
ghost use Rattle.std.specs.Prelude.{◌≡◌, ◌↔◌, ◌≤ℤ◌, ℕ, ℤ, pos, List, [], ◌∷◌, map, Bool, true, false, Some, None, if◌then◌else◌};
ghost use Rattle.term_core.specs.declared.term.Oper.{Oper};
ghost use Rattle.term_core.specs.declared.term.Oper.TheVariants as oper;
ghost use Rattle.term_core.specs.declared.term.Term.{Term};
ghost use Rattle.term_core.specs.Evaluation.{Meaning, tables_of, is_generator, fitting, value};
ghost use Rattle.term_core.specs.Names.{has};
ghost use Rattle.term_core.specs.Operations.{outcome};
ghost use Rattle.term_core.specs.Substitution.{free, Sub, put, subst_of};
ghost use Rattle.term_core.specs.Terms.{int, truth, var, op, all, some};
ghost use Rattle.term_core.specs.Validity.{Holds};
ghost use Rattle.term_core.specs.Values.{Value, a_number, a_truth, a_made, values, Env, set};
ghost use Rattle.term_laws.specs.Settled.{CallsSettle, Settled, val, true_in, number_in, is_plain};

/// Where every application of an operator of a trait has a value from some bound on, every term
/// has; and where there are no equations, every term has one value, at every bound.
pub fn terms_settle()
    ensures settled { (me : Meaning) → CallsSettle me → Settled me }
    ensures without_equations { (me : Meaning) → me.equations ≡ [] → (t : Term) (env : Env)
        → (v : Value) × ((n : ℕ) → value n me t env ≡ Some v) }
{}

/// The value of a term is the one that it has from some bound on, and it is true exactly where it
/// holds.
pub fn settled_terms_have_one_value()
    ensures value { (me : Meaning) (s : Settled me) (n : ℕ) (t : Term) (env : Env) (v : Value)
        → value n me t env ≡ Some v → val me s t env ≡ v }
    ensures truth { (me : Meaning) (s : Settled me) (t : Term) (env : Env)
        → Holds me t env ↔ (true_in me s env t ≡ true) }
    ensures agreement { (me : Meaning) (s : Settled me) (t : Term) (e f : Env)
        → ((x : List ℕ) → has (free t) x ≡ true → e x ≡ f x) → val me s t e ≡ val me s t f }
    ensures substitution { (me : Meaning) (s : Settled me) (t by : Term) (x : List ℕ) (env : Env)
        → val me s (subst_of t x by) env ≡ val me s t (set env x (val me s by env)) }
    ensures substitution_at_once { (me : Meaning) (s : Settled me) (t : Term) (u : Sub) (env : Env)
        → val me s (put t u) env ≡ val me s t (λ x. val me s (u x) env) }
{}

/// What each form of term gives.
pub fn settled_values()
    ensures number { (me : Meaning) (s : Settled me) (z : ℤ) (env : Env) → val me s (int z) env ≡ a_number z }
    ensures truth_value { (me : Meaning) (s : Settled me) (b : Bool) (env : Env) → val me s (truth b) env ≡ a_truth b }
    ensures variable { (me : Meaning) (s : Settled me) (x : List ℕ) (env : Env) → val me s (var x) env ≡ env x }

    // By the table of operators.
    ensures operator { (me : Meaning) (s : Settled me) (o : Oper) (ts : List Term) (env : Env) → is_plain o ≡ true
        → val me s (op o ts) env ≡ outcome (tables_of me) o (map (λ t. val me s t env) ts) }
    ensures conditional { (me : Meaning) (s : Settled me) (c a b : Term) (env : Env)
        → val me s (op oper.If (c ∷ a ∷ b ∷ [])) env ≡ (if true_in me s env c then val me s a env else val me s b env) }

    // Operators of traits: a generator, one with an equation that fits, one with none.
    ensures generator { (me : Meaning) (s : Settled me) (f : ℕ) (ts : List Term) (env : Env) → is_generator me f ≡ true
        → val me s (op (oper.User f) ts) env ≡ a_made f (values (map (λ t. val me s t env) ts)) }
    ensures unfolded { (me : Meaning) (s : Settled me) (f : ℕ) (ts : List Term) (env state : Env) (right : Term)
        → is_generator me f ≡ false → fitting me.equations f (map (λ t. val me s t env) ts) ≡ Some (right, state)
        → val me s (op (oper.User f) ts) env ≡ val me s right state }
    ensures undefined { (me : Meaning) (s : Settled me) (f : ℕ) (ts : List Term) (env : Env) → is_generator me f ≡ false
        → fitting me.equations f (map (λ t. val me s t env) ts) ≡ None → val me s (op (oper.User f) ts) env ≡ a_number (pos 0) }
{}

/// A `for all` is true exactly where its body is true at each number within its bounds, and an
/// `exists` where it is at one.
pub fn settled_quantifiers()
    ensures for_all { (me : Meaning) (s : Settled me) (x : List ℕ) (low high body : Term) (env : Env)
        → (true_in me s env (all x low high body) ≡ true)
        ↔ ((z : ℤ) → number_in me s env low ≤ℤ z → z ≤ℤ number_in me s env high
        → true_in me s (set env x (a_number z)) body ≡ true) }
    ensures exists { (me : Meaning) (s : Settled me) (x : List ℕ) (low high body : Term) (env : Env)
        → (true_in me s env (some x low high body) ≡ true)
        ↔ ((z : ℤ) × ((number_in me s env low ≤ℤ z) × ((z ≤ℤ number_in me s env high)
        × (true_in me s (set env x (a_number z)) body ≡ true)))) }
{}
