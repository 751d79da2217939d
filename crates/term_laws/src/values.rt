// The values of terms.
ghost use Rattle.std.specs.Prelude.{◌≡◌, ℕ, ◌+◌, List, true, Some};
ghost use Rattle.term_core.specs.declared.sort.Sort.{Sort};
ghost use Rattle.term_core.specs.declared.term.Term.{Term};
ghost use Rattle.term_core.specs.Evaluation.{Meaning, value};
ghost use Rattle.term_core.specs.Names.{has};
ghost use Rattle.term_core.specs.Substitution.{free};
ghost use Rattle.term_core.specs.Sorts.{lies_in};
ghost use Rattle.term_core.specs.Values.{Value, Env, Generator, default_of, default_like, default_made};

/// A larger bound takes no value away, and gives no other one.
pub fn values_stay()
    ensures larger { (k n : ℕ) (me : Meaning) (t : Term) (env : Env) (v : Value)
        → value n me t env ≡ Some v → value (k + n) me t env ≡ Some v }
    ensures one { (n k : ℕ) (me : Meaning) (t : Term) (env : Env) (v w : Value)
        → value n me t env ≡ Some v → value k me t env ≡ Some w → v ≡ w }
{}

/// A value depends on the values of the free names alone.
pub fn values_depend_on_free_names()
    ensures { (n : ℕ) (me : Meaning) (t : Term) (e f : Env) → ((x : List ℕ) → has (free t) x ≡ true → e x ≡ f x)
        → value n me t e ≡ value n me t f }
{}

/// The default that a value's shape shows is the default of each sort that the value lies in. So an
/// element outside a list has the default of the elements' sort.
pub fn defaults_follow_from_shapes()
    ensures { (generators : List Generator) (v : Value) (sort : Sort) → lies_in generators v sort ≡ true
        → default_like (default_made generators) v ≡ default_of generators sort }
{}
