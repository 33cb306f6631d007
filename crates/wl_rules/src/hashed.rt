//! Names with their hashes.
ghost use Rattle.std.specs.Prelude.{◌≡◌, bytes_eq};
ghost use Rattle.wl_rules.specs.NameHash.{name_hash};

use crate::hash::name_hash;
use std::marker::Model;

/// A name with its hash.
#[derive(Drop)]
pub struct HashedName<'n> {
    name: &'n [u8],
    hash: u64,
}

impl<'n> Model for HashedName<'n> {
    ghost use Rattle.std.specs.Prelude.{◌≡◌, ℕ, List};
    ghost use Rattle.wl_rules.specs.NameHash.{name_hash};

    ghost Value = { List ℕ };

    ghost view = { λ n. n.name.now };

    ghost invariant = { λ n. n.hash ≡ name_hash n.name.now };
}

impl<'n> HashedName<'n> {
    /// A name, which is hashed.
    pub fn new(name: &'n [u8]) -> HashedName<'n>
        ensures { result ≡ name.now }
    {
        HashedName {
            name,
            hash: name_hash(name),
        }
    }

    /// A name whose hash is known.
    pub fn with_hash(name: &'n [u8], hash: u64) -> HashedName<'n>
        requires { hash ≡ name_hash name.now }
        ensures { result ≡ name.now }
    {
        HashedName { name, hash }
    }

    /// The name.
    pub fn name(&self) -> &'n [u8]
        ensures { result.now ≡ self.now }
    {
        self.name
    }

    /// The hash of the name.
    pub fn hash(&self) -> u64
        ensures { result ≡ name_hash self.now }
    {
        self.hash
    }

    /// Whether another is the same name. Names are compared only if their hashes are equal.
    pub fn is_same(&self, other: &HashedName<'_>) -> bool
        ensures { result ≡ bytes_eq self.now other.now }
    {
        self.hash == other.hash && self.name == other.name
    }
}
