// The memory type index of an entry.
ghost use Rattle.std.specs.Prelude.{◌≡◌, ◌<◌};
ghost use Rattle.entry.specs.Memory as spec;

use crate::Entry;
use crate::bits::{PAT, PAT_OF_LARGE, PCD, PS, PWT};
use word::bits::bit;

impl Entry {
    // PAT: bit 7 at level 1, bit 12 of a large page, none of an entry that maps no page.
    fn pat(self) -> bool
        ensures { result ≡ spec.pat self.level self.value }
    {
        if self.level <= 1 {
            return bit(self.value, PAT);
        }
        bit(self.value, PS) && bit(self.value, PAT_OF_LARGE)
    }

    // The memory type index: 4 times PAT plus 2 times PCD plus PWT.
    pub fn memory_type(self) -> u8
        ensures is { result ≡ spec.memory_type self.level self.value }
        ensures below { result < 8 }
    {
        let pat = u8::from(self.pat());
        let pcd = u8::from(bit(self.value, PCD));
        let pwt = u8::from(bit(self.value, PWT));
        4 * pat + (2 * pcd + pwt)
    }
}
