//! Laws on the choice of a replica. The functions compute nothing: their contracts are the theorems.
ghost use Rattle.std.specs.Prelude.{◌≡◌, ℕ, List, Option, Some, None};
ghost use Rattle.rws_select.specs.declared.selector.Load.{Load};
ghost use Rattle.rws_select.specs.Choice.{HasNone, IsChoice, choice_of};

/// At most one server fits the choice, and `choice_of` gives it.
pub fn choices_are_one()
    ensures one { (candidates : List (Option Load)) (a b : ℕ) → IsChoice candidates a → IsChoice candidates b → a ≡ b }
    ensures given { (candidates : List (Option Load)) (place : ℕ) → IsChoice candidates place → choice_of candidates ≡ Some place }
    ensures nobody { (candidates : List (Option Load)) → HasNone candidates → choice_of candidates ≡ None }
{}
