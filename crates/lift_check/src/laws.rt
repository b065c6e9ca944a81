//! What the definition of a verdict says, in other words: the call does nothing, and its clauses are what is proved.
ghost use Rattle.std.specs.Prelude.{◌≡◌, ℕ, List};
ghost use Rattle.doc_tree.specs.Flat.{FlatLine};
ghost use Rattle.reg_registry.specs.Rows.{Rows};
ghost use Rattle.doc_build.specs.declared.Place.{Place};
ghost use Rattle.doc_build.specs.Choices.{Choice};
ghost use Rattle.lift_check.specs.Verdict.{IsJudged};
ghost use Rattle.lift_check.specs.declared.Verdict.TheVariants.{No, Yes};

use reg_closure::one_closure;

/// Over a registry, a document has one verdict, but for the choice that a `No` names, the id there and its count: all say
/// yes with one number of links, or all say no and name one place.
pub fn one_verdict()
    ensures same { (always : List (List ℕ)) (r : Rows) (lines : List FlatLine) (links more : ℕ)
        → IsJudged always r lines (Yes links) → IsJudged always r lines (Yes more) → links ≡ more }
    ensures apart { (always : List (List ℕ)) (r : Rows) (lines : List FlatLine) (links : ℕ) (place : Place) (id : List ℕ) (choice : Choice) (count : ℕ)
        → IsJudged always r lines (Yes links) → ¬ (IsJudged always r lines (No place id choice count)) }
    ensures first { (always : List (List ℕ)) (r : Rows) (lines : List FlatLine) (place other : Place) (id name : List ℕ) (choice chosen : Choice) (count counted : ℕ)
        → IsJudged always r lines (No place id choice count) → IsJudged always r lines (No other name chosen counted) → place ≡ other }
{
    one_closure();
}
