//! Hashes of names.
ghost use Rattle.std.specs.Prelude.{◌≡◌};
ghost use Rattle.wl_rules.specs.NameHash.{name_hash};

use std::hash::{FoldHasher, Hasher};

/// The hash of a name. Whoever chooses names can choose several with the same hash, so hashes can
/// only show that two names differ.
pub fn name_hash(name: &[u8]) -> u64
    ensures { result ≡ name_hash name.now }
{
    let mut hasher = FoldHasher::default();
    hasher.write(name);
    hasher.finish()
}
