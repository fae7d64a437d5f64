// The rights that an entry gives, as a number: 1 write, 2 user, 4 fetch. One mask judges all three: docs/DECISIONS.md.
ghost use Rattle.std.specs.Prelude.{◌≡◌};
ghost use Rattle.entry.specs.Rights as spec;

use crate::Entry;
use crate::bits::{RW, XD};

impl Entry {
    // The rights of the entry by itself: R/W and U/S are neighbours.
    pub fn own(self) -> u64
        ensures { result ≡ spec.own self.value }
    {
        (self.value >> RW) % 4 + 4 * (1 - (self.value >> XD))
    }
}

// Rights as a number: the three come one by one and are packed at once, as for a place's flags and an error code.
pub fn number(write: bool, user: bool, fetch: bool) -> u64
    ensures { result ≡ spec.number write user fetch }
{
    u64::from(write) + (2 * u64::from(user) + 4 * u64::from(fetch))
}

// Whether the rights held include the rights needed.
pub fn allow(needed: u64, held: u64) -> bool
    ensures { result ≡ spec.allow needed held }
{
    needed & held == needed
}
