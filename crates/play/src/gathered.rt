// A writer over fixed memory: std's own takes its memory from an allocator, and one over an array alone fails where its room ends.
ghost use Rattle.std.specs.Prelude.{◌≤◌};
ghost use Rattle.play.specs.declared.gathered.TheConstants.{ROOM};

use crate::{CARDS, LINE};

mod writing;

// The bytes that are gathered: the lines of the cards that are played at once fit.
const ROOM: usize = LINE * CARDS;

// What is written is gathered, and passed on where that is asked for and where the room is used up.
#[derive(Drop)]
pub(crate) struct Gathered<W> {
    output: W,
    text: [u8; ROOM],
    used: usize,
    ghost within: { used ≤ ROOM },
}
