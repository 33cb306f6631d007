//! The first indices of names.
ghost use Rattle.std.specs.Prelude.{◌≡◌, ℕ, List, Some, IfOk};
ghost use Rattle.wl_rules.specs.Joined.{first_place};
ghost use Rattle.wl_rules.specs.Places.{place_in};

use crate::hash::name_hash;
use crate::hashed::HashedName;
use std::alloc::{AllocError, Allocator};
use std::collections::BTreeMap;

/// The first index of each name.
#[derive(Drop)]
pub enum Places<'n, A: Allocator> {
    /// The names, each at its index. A lookup goes through them, so this is for a few lookups.
    Listed(Vec<HashedName<'n>, A>),
    /// Indices by name and its hash; the hash comes first, so that one number distinguishes most
    /// names that begin alike.
    Mapped(BTreeMap<(u64, &'n [u8]), usize, A>),
}

/// The first index of each name, for any number of lookups.
pub fn places_of<'n, A: Allocator + Clone + Drop>(
    alloc: &A,
    names: &[HashedName<'n>],
) -> Result<Places<'n, A>, AllocError>
    ensures { IfOk result (λ places. (name : List ℕ)
        → place_in places name ≡ first_place names.now name) }
{
    let mut places = BTreeMap::new(alloc.clone()?);
    for (place, hashed) in names.iter().enumerate() {
        let key = (hashed.hash(), hashed.name());
        // A name that occurs again keeps its first index; writing it back allocates nothing.
        if let Some(earlier) = places.insert(key, place)? {
            places.insert(key, earlier)?;
        }
    }
    Ok(Places::Mapped(places))
}

/// The first index of a name.
pub fn place_in<'n, A: Allocator>(places: &Places<'n, A>, name: &'n [u8]) -> Option<usize>
    ensures { result ≡ place_in places.now name.now }
{
    let key = (name_hash(name), name);
    match places {
        Places::Listed(names) => place_listed(
            names.as_slice(),
            &HashedName::with_hash(name, key.0),
        ),
        Places::Mapped(places) => places.get(&key).copied(),
    }
}

// The first index of a name in a list.
fn place_listed(names: &[HashedName<'_>], wanted: &HashedName<'_>) -> Option<usize>
    ensures { result ≡ first_place names.now wanted.now }
{
    names.iter().position(|name| name.is_same(wanted))
}
