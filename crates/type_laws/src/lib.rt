//! What holds of the types of expressions and of static values: laws, each the contract of a function that does nothing.
#![tactic(auto)]

ghost use Rattle.std.specs.Prelude.{◌≡◌, List, ℕ, ℤ, [], true, false, Some};
ghost use Rattle.ada_tree.specs.declared.node.Node.{Node};
ghost use Rattle.ada_tree.specs.Sights.{Sight};
ghost use Rattle.static_values.specs.declared.entity.BaseType.{BaseType};
ghost use Rattle.static_values.specs.declared.meaning.Use.{Use};
ghost use Rattle.static_values.specs.Syntax.{Expr, int};
ghost use Rattle.static_values.specs.Entities.{World};
ghost use Rattle.static_values.specs.Rules.{fits};
ghost use Rattle.static_values.specs.Expressions.{meaning, faults};
ghost use Rattle.ada_types.specs.declared.types.Types.{Types};
ghost use Rattle.ada_types.specs.Declarations as decl;
ghost use Rattle.type_laws.specs.Typed.{Typed, HasEveryIntegerType, HasOneTypeAtMost, is_literal, is_declared};
ghost use Rattle.type_laws.specs.Judged.{is_judged};
ghost use Rattle.type_laws.specs.Ranges.{lies_in_type, AllLie};

/// A literal has every integer type and no other, and so has what operators on integers make of literals and numbers.
#[tactic(auto, using(crate::proofs::Once::every))]
pub fn literals_have_every_integer_type()
    ensures literal { (w : World) (path digits : List ℕ) → HasEveryIntegerType w path (int digits) }
    ensures made { (w : World) (path : List ℕ) (e : Expr) → is_literal w path e ≡ true →
        HasEveryIntegerType w path e }
{}

/// Every other expression has one type at most.
#[tactic(auto, using(crate::proofs::Once::once))]
pub fn other_expressions_have_one_type_at_most()
    ensures { (w : World) (path : List ℕ) (e : Expr) → is_literal w path e ≡ false →
        HasOneTypeAtMost w path e }
{}

/// What is found of an expression fits each of its types.
#[tactic(auto, using(crate::proofs::Fits::allows))]
pub fn meanings_fit_their_types()
    ensures { (w : World) (path : List ℕ) (e : Expr) (t : BaseType) → Typed w path e t →
        fits (meaning w path e).base t ≡ true }
{}

/// An expression without a fault that is judged whole has each type that what is found of it fits.
#[tactic(auto, using(crate::proofs::Meant::types))]
pub fn faultless_expressions_have_the_types_that_they_fit()
    ensures { (w : World) (u : Use) (path : List ℕ) (e : Expr) (t : BaseType) →
        is_judged w path e ≡ true → faults w u path e ≡ [] → is_declared t ≡ true →
        fits (meaning w path e).base t ≡ true → Typed w path e t }
{}

/// A static value lies in the range of its type, where all that is kept does.
#[tactic(auto, using(crate::proofs::Lying::lies))]
pub fn static_values_lie_in_their_types_range()
    ensures { (w : World) (u : Use) (path : List ℕ) (e : Expr) (v : ℤ) → AllLie w.entities →
        faults w u path e ≡ [] → (meaning w path e).value ≡ Some v →
        lies_in_type w.entities (meaning w path e).base v ≡ true }
{}

/// What is kept lies in its type's range before the first declaration, and after each declaration without a fault, of any tree and whatever names see.
#[tactic(auto, using(crate::proofs::Added::none_lie, crate::proofs::Added::kept))]
pub fn what_is_kept_lies_in_its_types_range()
    ensures before { AllLie decl.no_types.entities }
    ensures after { (sees : List (List ℕ) → List ℕ → Sight)
        (t : Types) (doc : Node) (path : List ℕ) →
        AllLie t.entities → decl.decl_faults sees t doc path ≡ [] →
        AllLie (decl.decl_after sees t doc path).entities }
{}
