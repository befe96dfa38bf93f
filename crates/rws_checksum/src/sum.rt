//! A sum that is made payload by payload, as they come.
ghost use Rattle.std.specs.Prelude.{◌≡◌, List, [], ◌∷◌, ◌++◌, ℕ};
ghost use Rattle.rws_checksum.specs.Layout.{sum_of};
ghost use Rattle.rws_checksum.specs.Sums.{Sums};

use sha1::Sha1;

/// A SHA-1 digest (FIPS 180-4), its first byte first.
pub type Digest = [u8; 20];

/// A sum of the payloads that were added so far. It takes no memory, and keeps none of their bytes.
///
/// Which payloads it is of can't be read off its state: `Sums` says so of a sum and a list.
#[derive(Drop)]
pub struct Sum {
    hasher: Sha1,
}

impl Sum {
    /// The sum of no payloads.
    pub fn new() -> Sum
        ensures { Sums result [] }
    {
        Sum {
            hasher: Sha1::new(),
        }
    }

    /// Adds one more payload behind the others.
    pub fn add(&mut self, payload: &[u8])
        ensures { (payloads : List (List ℕ)) → Sums self.old payloads → Sums self.new (payloads ++ payload.now ∷ []) }
    {
        self.hasher.update(&(payload.len() as u64).to_le_bytes());
        self.hasher.update(payload);
    }

    /// The digest of the payloads in the layout.
    pub fn finish(self) -> Digest
        ensures { (payloads : List (List ℕ)) → Sums self payloads → result ≡ sum_of payloads }
    {
        self.hasher.finalize()
    }
}
