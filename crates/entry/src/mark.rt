// Marking one entry in memory.
ghost use Rattle.std.specs.Prelude.{◌≡◌};
ghost use Rattle.entry.specs.Mark as spec;

use crate::bits::{A, D};
use address::PhysAddr;

// The weights of Accessed and Dirty in an entry's lowest byte.
const ACCESSED: u8 = 1 << A;

const DIRTY: u8 = 1 << D;

// Sets Accessed, or Accessed and Dirty, in the entry at an address, where that lies in memory.
pub fn mark(memory: &mut [u8], entry: PhysAddr, dirty: bool)
    ensures { memory.new ≡ spec.mark dirty memory.old entry.0 }
{
    let at = entry.0 as usize;
    if at < memory.len() {
        let accessed = memory[at] | ACCESSED;
        memory[at] = if dirty { accessed | DIRTY } else { accessed };
    }
}
