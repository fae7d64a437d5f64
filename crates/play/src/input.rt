// Reading a block of input.
ghost use Rattle.std.specs.Prelude.{◌≤◌, ◌<◌, IfOk, length};
ghost use Rattle.std.specs.Io.KnownBytes.{Consumes, IsAtEnd};

use std::io;
use std::io::Read;

// The bytes that were read, and whether the reading failed after them.
#[derive(Drop)]
pub(crate) struct Block<'a> {
    pub bytes: &'a [u8],
    pub read: io::Result<()>,
}

// Reads until the buffer is full, the input has ended or a read fails; std's `read_exact` does not tell how many bytes came.
pub(crate) fn read_full<'a, R: Read>(input: &mut R, buffer: &'a mut [u8]) -> Block<'a>
    ensures within { length result.bytes.now ≤ length buffer.old }
    ensures bytes { Consumes (R.remaining input.old) (R.remaining input.new) result.bytes.now }
    ensures ended { IfOk result.read (λ _. length result.bytes.now < length buffer.old → IsAtEnd (R.remaining input.new)) }
{
    let mut count = 0;
    let mut read = Ok(());
    while count < buffer.len() {
        match input.read(&mut buffer[count..]) {
            Ok(0) => break,
            Ok(got) => count += got,
            Err(error) => {
                read = Err(error);
                break;
            }
        }
    }
    Block {
        bytes: &buffer[..count],
        read,
    }
}
