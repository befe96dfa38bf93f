//! Laws on what settings are. The functions compute nothing: their contracts are the theorems.

ghost use Rattle.std.specs.Prelude.{◌≡◌, ◌↔◌, ℕ, List, [], true, None, Some};
ghost use Rattle.rws_config.specs.Address.{IsAddress, is_address};
ghost use Rattle.rws_config.specs.Settings.{IsLeast, least};

/// The reader's test passes exactly the texts that are a host without a space or a colon, a colon, and the decimal
/// digits of a port.
pub fn addresses_are_read()
    ensures { (text : List ℕ) → (is_address text ≡ true) ↔ IsAddress text }
{}

/// Where some keys are at fault, the one that is named is one of them, and none of the others comes before it by bytes;
/// where none is named, none is at fault.
pub fn the_least_is_named()
    ensures some { (keys : List (List ℕ)) (key : List ℕ) → least keys ≡ Some key → IsLeast keys key }
    ensures none { (keys : List (List ℕ)) → least keys ≡ None → keys ≡ [] }
{}
