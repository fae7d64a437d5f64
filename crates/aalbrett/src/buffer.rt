// The host's answer buffer.
ghost use Rattle.std.specs.Prelude.{◌≡◌, ◌≤◌, length};
ghost use Rattle.aalbrett.specs.Host.{written};

use walk::Numbers;
use word::bytes::store64;

// The bytes that an answer takes.
pub(crate) const SIZE: usize = 40;

// Writes the five numbers of an answer to the first 40 bytes, a line for each as they are named, and gives the first.
#[tactic(auto, using(word::proofs::Laws::store_length), unfolding(crate::specs::Host::written))]
pub(crate) fn write(buffer: &mut [u8], numbers: Numbers) -> u64
    requires { 40 ≤ length buffer.old }
    ensures number { result ≡ numbers.answer }
    ensures bytes { buffer.new ≡ written numbers buffer.old }
{
    store64(buffer, 0, numbers.answer);
    store64(buffer, 8, numbers.value);
    store64(buffer, 16, numbers.detail);
    store64(buffer, 24, numbers.reads);
    store64(buffer, 32, numbers.memory_type);
    numbers.answer
}
