//! What holds of every history. The function computes nothing: its contract is the theorem.
ghost use Rattle.std.specs.Prelude.{◌++◌, ℕ, List};
ghost use Rattle.rws_pool.specs.Machine.{NotBelow};
ghost use Rattle.rws_pool.specs.History.{words_after};
ghost use Rattle.rws_pool.specs.declared.events.Entry.{Entry};

/// A longer history leaves no lower sequence of the last commit and no lower position.
pub fn nothing_is_forgotten()
    ensures { (domain : ℕ) (history more : List Entry) → NotBelow (words_after domain history) (words_after domain (history ++ more)) }
{}
