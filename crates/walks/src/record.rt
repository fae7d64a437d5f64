// A record: 41 little-endian numbers of 8 bytes. Eight are settings and question, one is the memory's length, and 16 pairs are stores.
ghost use Rattle.std.specs.Prelude.{IfOk, IfSome};
ghost use Rattle.std.specs.Io.KnownBytes.{Consumes};

use address::VirtAddr;
use settings::Settings;
use std::io;
use std::io::{ErrorKind, Read};
use walk::Numbers;
use walk::translate::translate;
use word::bytes::{load64, store64};

// The bytes of a record.
const SIZE: usize = 328;

// A record's bytes.
#[derive(Drop)]
pub(crate) struct Record {
    bytes: [u8; SIZE],
}

// The number at an offset of some bytes.
fn number(bytes: &[u8], at: usize) -> u64 {
    load64(bytes, at).unwrap_or(0)
}

impl Record {
    // Reads a record; there is none where the input ends first.
    pub(crate) fn read<R: Read>(input: &mut R) -> io::Result<Option<Record>>
        ensures { IfOk result (λ read. IfSome read (λ found. Consumes (R.remaining input.old) (R.remaining input.new) found.bytes)) }
    {
        let mut bytes = [0u8; SIZE];
        match input.read_exact(&mut bytes) {
            Ok(()) => Ok(Some(Record { bytes })),
            Err(error) if error.kind() == ErrorKind::UnexpectedEof => Ok(None),
            Err(error) => Err(error),
        }
    }

    // The settings record.
    fn settings(&self) -> Settings {
        Settings {
            cr0: number(&self.bytes, 0),
            cr3: number(&self.bytes, 8),
            cr4: number(&self.bytes, 16),
            efer: number(&self.bytes, 24),
            width: number(&self.bytes, 32),
        }
    }

    // The length of memory.
    pub(crate) fn memory_length(&self) -> usize {
        number(&self.bytes, 64) as usize
    }

    // Makes the stores in order; one that is not inside memory is skipped.
    pub(crate) fn lay_out(&self, memory: &mut [u8]) {
        for pair in self.bytes[72..].chunks(16) {
            store64(memory, number(pair, 0) as usize, number(pair, 8));
        }
    }

    // Walks as the record asks, in memory laid out as it says.
    pub(crate) fn ask(&self, memory: &mut [u8]) -> Numbers {
        self.lay_out(memory);
        let address = VirtAddr(number(&self.bytes, 40));
        let access = number(&self.bytes, 48);
        let mode = number(&self.bytes, 56);
        Numbers::from(translate(memory, self.settings(), address, access, mode))
    }
}
