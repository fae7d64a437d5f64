// Reading one entry.
ghost use Rattle.std.specs.Prelude.{◌≡◌, ◌+◌, ◌*◌};
ghost use Rattle.word.specs.Bytes.{loaded};

use address::PhysAddr;
use word::bytes::load64;

// The entry at an index: "The reader of one entry receives the part of memory from the table's base to the end."
pub fn read(table: &[u8], index: u64) -> Option<u64>
    ensures { result ≡ loaded table.now (8 * index) }
{
    let at = index.checked_mul(8)?;
    load64(table, at as usize)
}

// The entry at an index of the table at a base: the reader "receives the part of memory from the table's base to the end", where the base lies inside.
#[tactic(auto, using(crate::proofs::Parts::loaded_part))]
pub fn look(memory: &[u8], base: PhysAddr, index: u64) -> Option<u64>
    ensures { result ≡ loaded memory.now (base.0 + 8 * index) }
{
    let from = base.0 as usize;
    if memory.len() <= from {
        return None;
    }
    read(&memory[from..], index)
}
