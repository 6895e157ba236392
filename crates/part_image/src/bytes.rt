ghost use Rattle.std.specs.Prelude.{◌≡◌, ◌≤◌, ◌+◌, ◌↔◌, true, [], ◌∷◌, drop, length, replicate, take};
ghost use Rattle.base_types.specs.Bytes.{Puts};

/// Whether so many bytes from a place on are zero.
pub fn are_zeros(bytes: &[u8], at: usize, count: usize) -> bool
    requires { at + count ≤ length bytes.now }
    ensures { (result ≡ true) ↔ (take count (drop at bytes.now) ≡ replicate count 0) }
{
    all_zero(&bytes[at..at + count])
}

fn all_zero(bytes: &[u8]) -> bool
    ensures { (result ≡ true) ↔ (bytes.now ≡ replicate (length bytes.now) 0) }
{
    bytes.iter().all(|byte| *byte == 0)
}

/// Writes so many zeros at a place.
pub fn put_zeros(out: &mut [u8], at: usize, count: usize)
    requires { at + count ≤ length out.old }
    ensures { Puts out.old out.new at (replicate count 0) }
{
    out[at..at + count].fill(0);
}

/// Writes a byte at a place.
pub fn put_u8(out: &mut [u8], at: usize, byte: u8)
    requires { at + 1 ≤ length out.old }
    ensures { Puts out.old out.new at (byte ∷ []) }
{
    out[at] = byte;
}
