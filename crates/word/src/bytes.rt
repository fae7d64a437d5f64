// Little-endian numbers in lent bytes.
ghost use Rattle.std.specs.Prelude.{◌≡◌};
ghost use Rattle.word.specs.Bytes.{loaded, stored, inside};

// The bytes of a 64-bit number.
const SIZE: usize = 8;

// The number in the eight bytes at an offset, where they are all inside.
pub fn load64(bytes: &[u8], at: usize) -> Option<u64>
    ensures { result ≡ loaded bytes.now at }
{
    let number = bytes.get(at..)?.first_chunk::<SIZE>()?;
    Some(u64::from_le_bytes(*number))
}

// Stores a number's eight bytes at an offset, where they are all inside; gives whether they were.
pub fn store64(bytes: &mut [u8], at: usize, number: u64) -> bool
    ensures answer { result ≡ inside bytes.old at }
    ensures bytes { bytes.new ≡ stored bytes.old at number }
{
    if bytes.len() < SIZE || bytes.len() - SIZE < at {
        return false;
    }
    bytes[at..at + SIZE].copy_from_slice(&number.to_le_bytes());
    true
}
