// The walk under settings, from the root.
ghost use Rattle.std.specs.Prelude.{◌≡◌};
ghost use Rattle.walk.specs.Walk.{IsWalk};

use crate::descend::{LEVELS, Sought, descend};
use crate::{Question, Walked};
use entry::meaning::forbidden;

// Every right: write, user and fetch.
const ALL: u64 = 7;

impl Question {
    // The walk: its answer, and memory marked on success only.
    pub fn walk(self, memory: &mut [u8]) -> Walked
        ensures { IsWalk self.settings self.address self.way memory.old result memory.new }
    {
        let sought = Sought {
            address: self.address,
            forbidden: forbidden(self.settings.width, self.settings.nxe()),
            needed: self.needed(),
            write: self.way.writes(),
        };
        descend(memory, self.settings.root(), LEVELS, &sought, ALL)
    }
}
