//! What the layout is good for. The function computes nothing: its contract is the theorem.
ghost use Rattle.std.specs.Prelude.{◌≡◌, List, ℕ};
ghost use Rattle.rws_checksum.specs.Layout.{layout, HaveLengths};

/// Lists of payloads with the same layout are the same list: the lengths part the payloads.
pub fn layouts_differ()
    ensures { (these those : List (List ℕ)) → HaveLengths these → HaveLengths those → layout these ≡ layout those → these ≡ those }
{}
