// How memory is asked, and the rights that this needs.
ghost use Rattle.std.specs.Prelude.{◌≡◌};
ghost use Rattle.walk.specs.Access as spec;

use crate::{Access, Question, Way};
use entry::rights::number;

// The access of a number up to 2; `way_of` promises a way for every number, so there is no TryFrom, and `ask` tests first.
fn access_of(number: u64) -> Access
    ensures { result ≡ spec.access_of number }
{
    match number {
        1 => Access::Write,
        2 => Access::Fetch,
        _ => Access::Read,
    }
}

// The way of an access and a mode, given as numbers.
pub fn way_of(access: u64, mode: u64) -> Way
    ensures { result ≡ spec.way_of access mode }
{
    Way {
        access: access_of(access),
        user: mode == 1,
    }
}

impl Way {
    // Whether memory is written.
    pub fn writes(self) -> bool
        ensures { result ≡ spec.writes self }
    {
        matches!(self.access, Access::Write)
    }

    // Whether memory is fetched from.
    pub fn fetches(self) -> bool
        ensures { result ≡ spec.fetches self }
    {
        matches!(self.access, Access::Fetch)
    }
}

impl Question {
    // Whether R/W is needed in all entries.
    pub fn needs_write(self) -> bool
        ensures { result ≡ spec.needs_write self.settings self.way }
    {
        self.way.writes() && (self.way.user || self.settings.wp())
    }

    // Whether XD has to be clear in all entries.
    pub fn needs_fetch(self) -> bool
        ensures { result ≡ spec.needs_fetch self.settings self.way }
    {
        self.way.fetches() && self.settings.nxe()
    }

    // The rights that are needed, as a number.
    pub fn needed(self) -> u64
        ensures { result ≡ spec.needed self.settings self.way }
    {
        number(self.needs_write(), self.way.user, self.needs_fetch())
    }
}
