//! Whose the entries of a history are. The function computes nothing: its contract is the theorem.
ghost use Rattle.std.specs.Prelude.{ℕ, List, [], ◌∷◌};
ghost use Rattle.rws_cell.specs.declared.view.View.{View};
ghost use Rattle.rws_cell.specs.Views.{parts};
ghost use Rattle.rws_cell.specs.Passes.{Passes, SomeOwns, AllOf, AllOfThese};

/// However passes were split, called and joined: no entry is of a number that nobody has.
pub fn each_entry_has_its_pass()
    // Once all are joined, the pass that is left accounts for every entry of the history that it has seen.
    ensures joined { (v : View) → Passes (v ∷ []) → AllOf (parts v) v.seen }

    ensures seen { (v : View) (others : List View) → Passes (v ∷ others) → AllOfThese (parts v) others v.seen }
    ensures numbers { (views : List View) → Passes views → (n : ℕ) → SomeOwns views n }
{}
