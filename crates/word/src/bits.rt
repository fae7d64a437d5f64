// Bits and fields of a number.
ghost use Rattle.std.specs.Prelude.{◌≡◌};
ghost use Rattle.word.specs.Bits as spec;

// Whether bit k of n is set.
#[tactic(auto, using(crate::proofs::Laws::nothing_above))]
pub fn bit(n: u64, k: u64) -> bool
    ensures { result ≡ spec.bit n k }
{
    if 64 <= k {
        return false;
    }
    (n >> k) % 2 == 1
}

// The field of n that starts at bit low and is width bits wide.
pub fn field(n: u64, low: u64, width: u64) -> u64
    ensures { result ≡ spec.field n low width }
{
    if 64 <= low {
        return 0;
    }
    if 64 <= width {
        return n >> low;
    }
    (n >> low) & ((1 << width) - 1)
}
