// The cache: a drop goes over all sets.
ghost use Rattle.std.specs.Prelude.{◌≡◌};
ghost use Rattle.cache.specs.Places as place;
ghost use Rattle.cache.specs.Whole as spec;

use crate::{Cache, Drop, Set};

impl Cache {
    // The cache of all zeros: "the empty cache belongs to the cache".
    pub fn empty() -> Cache
        ensures { result ≡ spec.empty_cache }
    {
        Cache {
            sets: [Set::empty(); 16],
        }
    }

    // The number of a tag's set.
    pub fn set_of(tag: u64) -> u64
        ensures { result ≡ place.set_index tag }
    {
        tag % 16
    }

    // The cache with the places that a drop leaves, every set rewritten.
    pub fn drop(mut self, drop: Drop) -> Cache
        ensures { result ≡ spec.drop_cache drop self }
    {
        for (i, set) in self.sets.iter_mut().enumerate() {
            *set = set.drop(i as u64, drop);
        }
        self
    }
}
